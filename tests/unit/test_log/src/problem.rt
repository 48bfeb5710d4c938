use rld_log::{Damage, LogFault};
use std::alloc::AllocError;
use std::io;
use thiserror::Error;

/// Why the program ends with status 1.
#[derive(Clone, Copy, Debug, Error)]
pub enum Problem {
    /// The arguments are not the program's.
    #[error("usage: test_log FILE [record|write COUNT SIZE]")]
    Usage,
    /// The file cannot be opened, or standard output takes nothing.
    #[error("input or output fault")]
    InputOutput,
    /// The log is damaged.
    #[error("{0}")]
    Damaged(Damage),
    /// A call of the log failed.
    #[error("{0}")]
    Log(LogFault),
}

impl From<io::Error> for Problem {
    fn from(_failed: io::Error) -> Problem {
        Problem::InputOutput
    }
}

impl From<Damage> for Problem {
    fn from(damage: Damage) -> Problem {
        Problem::Damaged(damage)
    }
}

impl From<LogFault> for Problem {
    fn from(fault: LogFault) -> Problem {
        Problem::Log(fault)
    }
}

impl From<AllocError> for Problem {
    fn from(_refused: AllocError) -> Problem {
        Problem::Log(LogFault::NoMemory)
    }
}
