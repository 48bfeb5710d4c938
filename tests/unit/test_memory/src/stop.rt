use rld_log::LogFault;
use rld_spelling::{ReadFault, SpellFault};
use rld_store::StoreFault;
use rsl_accounts::ConfigFault;
use rsl_book::RestoreFault;
use rsl_script::ScriptFault;
use rsl_service::ReceiveFault;
use rsl_wire::NoMemory;
use std::alloc::{AllocError, AllocFailed};
use std::io::{self, ErrorKind};

/// Why a work was given up. The process ends with its number.
#[derive(Clone, Copy, Debug)]
pub(crate) enum Stop {
    /// The arguments or the script are wrong, or a call failed for another cause than these.
    Failed = 1,
    /// A read or a write failed.
    InputOutput = 2,
    /// Memory was refused.
    NoMemory = 3,
}

impl Stop {
    /// That memory was refused, or that a call failed.
    fn of(is_memory: bool) -> Stop {
        if is_memory {
            Stop::NoMemory
        } else {
            Stop::Failed
        }
    }
}

impl From<NoMemory> for Stop {
    fn from(_refused: NoMemory) -> Stop {
        Stop::NoMemory
    }
}

impl From<AllocError> for Stop {
    fn from(_refused: AllocError) -> Stop {
        Stop::NoMemory
    }
}

impl<T: Drop> From<AllocFailed<T>> for Stop {
    fn from(_refused: AllocFailed<T>) -> Stop {
        Stop::NoMemory
    }
}

impl From<ScriptFault> for Stop {
    fn from(fault: ScriptFault) -> Stop {
        Stop::of(matches!(fault, ScriptFault::NoMemory))
    }
}

impl From<ConfigFault> for Stop {
    fn from(fault: ConfigFault) -> Stop {
        Stop::of(matches!(fault, ConfigFault::NoMemory))
    }
}

impl From<SpellFault> for Stop {
    fn from(fault: SpellFault) -> Stop {
        Stop::of(matches!(fault, SpellFault::NoMemory))
    }
}

impl From<ReadFault> for Stop {
    fn from(fault: ReadFault) -> Stop {
        Stop::of(matches!(fault, ReadFault::NoMemory))
    }
}

impl From<RestoreFault> for Stop {
    fn from(fault: RestoreFault) -> Stop {
        Stop::of(matches!(fault, RestoreFault::NoMemory))
    }
}

impl From<ReceiveFault> for Stop {
    fn from(fault: ReceiveFault) -> Stop {
        Stop::of(matches!(fault, ReceiveFault::NoMemory))
    }
}

impl From<StoreFault> for Stop {
    fn from(fault: StoreFault) -> Stop {
        Stop::of(matches!(
            fault,
            StoreFault::NoMemory | StoreFault::Log(LogFault::NoMemory)
        ))
    }
}

impl From<io::Error> for Stop {
    fn from(error: io::Error) -> Stop {
        match error.kind() {
            ErrorKind::OutOfMemory => Stop::NoMemory,
            _ => Stop::InputOutput,
        }
    }
}
