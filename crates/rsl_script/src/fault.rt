ghost use Rattle.std.specs.Prelude.{◌≡◌};
ghost use Rattle.rsl_script.specs.declared.fault.LineFault.TheVariants.{NoMemory as line_no_memory};
ghost use Rattle.rsl_script.specs.Reads.{script_fault_at};

use rsl_wire::NoMemory;
use std::alloc::{AllocError, AllocFailed};
use thiserror::Error;

/// Why there is no script. It prints as `line 7` or `no memory`.
#[derive(Clone, Copy, Debug, Error)]
pub enum ScriptFault {
    /// The line with this number is the first wrong one. Every line counts, from 1.
    #[error("line {0}")]
    Line(u64),
    /// Memory was refused.
    #[error("no memory")]
    NoMemory,
}

/// Why a line was not read.
#[derive(Clone, Copy)]
pub(crate) enum LineFault {
    /// The line is wrong.
    Wrong,
    /// Memory was refused.
    NoMemory,
}

impl LineFault {
    /// The fault of a script whose line with this number has this fault.
    pub(crate) fn at(self, number: u64) -> ScriptFault
        ensures { result ≡ script_fault_at number self }
    {
        match self {
            LineFault::Wrong => ScriptFault::Line(number),
            LineFault::NoMemory => ScriptFault::NoMemory,
        }
    }
}

impl From<AllocError> for LineFault {
    ghost from_gives = { λ _ fault. fault ≡ line_no_memory };

    fn from(_refused: AllocError) -> LineFault {
        LineFault::NoMemory
    }
}

impl From<NoMemory> for LineFault {
    ghost from_gives = { λ _ fault. fault ≡ line_no_memory };

    fn from(_refused: NoMemory) -> LineFault {
        LineFault::NoMemory
    }
}

impl<T: Drop> From<AllocFailed<T>> for LineFault {
    ghost from_gives = { λ _ fault. fault ≡ line_no_memory };

    fn from(_refused: AllocFailed<T>) -> LineFault {
        LineFault::NoMemory
    }
}
