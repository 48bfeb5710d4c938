ghost use Rattle.std.specs.Prelude.{◌≡◌};
ghost use Rattle.rsl_serve.specs.declared.fault.ServeFault.TheVariants.{
  InputOutput,
  NoMemory as no_memory,
};

use rsl_account_file::FileFault;
use rsl_accounts::ConfigFault;
use rsl_record::{ExitStatus, WriteFault};
use rsl_service::{CloseFault, PassFault, ReceiveFault};
use rsl_wire::NoMemory;
use std::alloc::{AllocError, AllocFailed};
use std::io;
use thiserror::Error;

/// Why a server has not started, or has not ended well. Except `Usage`, it prints as the text for
/// standard error.
#[derive(Debug, Drop, Error)]
pub enum ServeFault {
    /// The arguments are wrong, which is checked first. The program prints its own usage line.
    #[error("wrong arguments")]
    Usage,
    /// The account file is not there, a read of it failed, or it has over 16,777,216 octets.
    #[error("bad file: unreadable")]
    Unreadable,
    /// The account file is refused. It is never `ConfigFault::NoMemory`, which becomes `NoMemory`.
    #[error("bad file: {0}")]
    Config(ConfigFault),
    /// A socket or a write failed, the clock could not be read at the start, or the callers'
    /// receipts are not what the journals hold.
    #[error("input or output fault")]
    InputOutput,
    /// Memory was refused, except in a step.
    #[error("no memory")]
    NoMemory,
}

impl ServeFault {
    ghost use Rattle.rsl_serve.specs.Fault.{status_of};

    /// The exit status of the process.
    pub fn status(self) -> ExitStatus
        ensures { result ≡ status_of self }
    {
        match self {
            ServeFault::Usage | ServeFault::Unreadable | ServeFault::Config(_) => {
                ExitStatus::WrongInput
            }
            ServeFault::InputOutput => ExitStatus::InputOutput,
            ServeFault::NoMemory => ExitStatus::NoMemory,
        }
    }
}

impl From<FileFault> for ServeFault {
    ghost use Rattle.rsl_serve.specs.Fault.{fault_of_file};

    ghost from_gives = { λ fault made. made ≡ fault_of_file fault };

    fn from(fault: FileFault) -> ServeFault {
        match fault {
            FileFault::Unreadable | FileFault::TooLong => ServeFault::Unreadable,
            FileFault::Config(fault) => ServeFault::Config(fault),
            FileFault::NoMemory => ServeFault::NoMemory,
        }
    }
}

impl From<NoMemory> for ServeFault {
    ghost from_gives = { λ _ fault. fault ≡ no_memory };

    fn from(_refused: NoMemory) -> ServeFault {
        ServeFault::NoMemory
    }
}

impl From<AllocError> for ServeFault {
    ghost from_gives = { λ _ fault. fault ≡ no_memory };

    fn from(_refused: AllocError) -> ServeFault {
        ServeFault::NoMemory
    }
}

impl<T: Drop> From<AllocFailed<T>> for ServeFault {
    ghost from_gives = { λ _ fault. fault ≡ no_memory };

    fn from(_refused: AllocFailed<T>) -> ServeFault {
        ServeFault::NoMemory
    }
}

impl From<io::Error> for ServeFault {
    ghost from_gives = { λ _ fault. fault ≡ InputOutput };

    fn from(_failed: io::Error) -> ServeFault {
        ServeFault::InputOutput
    }
}

impl From<WriteFault> for ServeFault {
    ghost from_gives = { λ _ fault. fault ≡ InputOutput };

    fn from(_failed: WriteFault) -> ServeFault {
        ServeFault::InputOutput
    }
}

impl From<PassFault> for ServeFault {
    ghost use Rattle.rsl_serve.specs.Fault.{fault_of_pass};

    ghost from_gives = { λ fault made. made ≡ fault_of_pass fault };

    fn from(fault: PassFault) -> ServeFault {
        match fault {
            PassFault::TooMany => ServeFault::InputOutput,
            PassFault::NoMemory => ServeFault::NoMemory,
        }
    }
}

impl From<ReceiveFault> for ServeFault {
    ghost use Rattle.rsl_serve.specs.Fault.{fault_of_receive};

    ghost from_gives = { λ fault made. made ≡ fault_of_receive fault };

    fn from(fault: ReceiveFault) -> ServeFault {
        match fault {
            ReceiveFault::Down(_) => ServeFault::InputOutput,
            ReceiveFault::NoMemory => ServeFault::NoMemory,
        }
    }
}

impl From<CloseFault> for ServeFault {
    ghost use Rattle.rsl_serve.specs.Fault.{fault_of_close};

    ghost from_gives = { λ fault made. made ≡ fault_of_close fault };

    fn from(fault: CloseFault) -> ServeFault {
        match fault {
            CloseFault::NoMemory => ServeFault::NoMemory,
            _ => ServeFault::InputOutput,
        }
    }
}
