ghost use Rattle.std.specs.Prelude.{◌≡◌};
ghost use Rattle.rsl_replay.specs.declared.fault.ReplayFault.TheVariants.{
  InputOutput,
  NoMemory as no_memory,
};

use rsl_account_file::TextFault;
use rsl_accounts::ConfigFault;
use rsl_record::{ExitStatus, WriteFault};
use rsl_script::ScriptFault;
use rsl_wire::NoMemory;
use std::alloc::AllocError;
use std::io;
use thiserror::Error;

/// Why a script was not replayed. It prints as the text for standard error.
#[derive(Debug, Drop, Error)]
pub enum ReplayFault {
    /// The line with this number is the first wrong one. Every line counts, from 1.
    #[error("bad script: line {0}")]
    Line(u64),
    /// The script has over 1,048,576 octets. This comes before a wrong line.
    #[error("bad script: too long")]
    TooLong,
    /// Every line is right, and the configuration is refused. It is never `ConfigFault::NoMemory`,
    /// which becomes `NoMemory`.
    #[error("bad script: {0}")]
    Config(ConfigFault),
    /// A read or a write failed, or the reader came to no end.
    #[error("input or output fault")]
    InputOutput,
    /// Memory was refused, except in a step.
    #[error("no memory")]
    NoMemory,
}

impl ReplayFault {
    ghost use Rattle.rsl_replay.specs.Fault.{status_of};

    /// The exit status of the process.
    pub fn status(self) -> ExitStatus
        ensures { result ≡ status_of self }
    {
        match self {
            ReplayFault::Line(_) | ReplayFault::TooLong | ReplayFault::Config(_) => {
                ExitStatus::WrongInput
            }
            ReplayFault::InputOutput => ExitStatus::InputOutput,
            ReplayFault::NoMemory => ExitStatus::NoMemory,
        }
    }
}

impl From<TextFault> for ReplayFault {
    ghost use Rattle.rsl_replay.specs.Fault.{fault_of_text};

    ghost from_gives = { λ fault made. made ≡ fault_of_text fault };

    fn from(fault: TextFault) -> ReplayFault {
        match fault {
            TextFault::Unreadable => ReplayFault::InputOutput,
            TextFault::TooLong => ReplayFault::TooLong,
            TextFault::NoMemory => ReplayFault::NoMemory,
        }
    }
}

impl From<ScriptFault> for ReplayFault {
    ghost use Rattle.rsl_replay.specs.Fault.{fault_of_script};

    ghost from_gives = { λ fault made. made ≡ fault_of_script fault };

    fn from(fault: ScriptFault) -> ReplayFault {
        match fault {
            ScriptFault::Line(number) => ReplayFault::Line(number),
            ScriptFault::NoMemory => ReplayFault::NoMemory,
        }
    }
}

impl From<ConfigFault> for ReplayFault {
    ghost use Rattle.rsl_replay.specs.Fault.{fault_of_config};

    ghost from_gives = { λ fault made. made ≡ fault_of_config fault };

    fn from(fault: ConfigFault) -> ReplayFault {
        match fault {
            ConfigFault::NoMemory => ReplayFault::NoMemory,
            _ => ReplayFault::Config(fault),
        }
    }
}

impl From<NoMemory> for ReplayFault {
    ghost from_gives = { λ _ fault. fault ≡ no_memory };

    fn from(_refused: NoMemory) -> ReplayFault {
        ReplayFault::NoMemory
    }
}

impl From<AllocError> for ReplayFault {
    ghost from_gives = { λ _ fault. fault ≡ no_memory };

    fn from(_refused: AllocError) -> ReplayFault {
        ReplayFault::NoMemory
    }
}

impl From<io::Error> for ReplayFault {
    ghost from_gives = { λ _ fault. fault ≡ InputOutput };

    fn from(_failed: io::Error) -> ReplayFault {
        ReplayFault::InputOutput
    }
}

impl From<WriteFault> for ReplayFault {
    ghost from_gives = { λ _ fault. fault ≡ InputOutput };

    fn from(_failed: WriteFault) -> ReplayFault {
        ReplayFault::InputOutput
    }
}
