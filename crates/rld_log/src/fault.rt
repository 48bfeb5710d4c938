ghost use Rattle.std.specs.Prelude.{◌≡◌};
ghost use Rattle.rld_log.specs.declared.fault.LogFault.TheVariants.{NoMemory as no_memory};

use std::alloc::{AllocError, AllocFailed};
use thiserror::Error;

/// Why a call of a log failed.
#[derive(Clone, Copy, Debug, PartialEq, Eq, Error)]
pub enum LogFault {
    /// Memory was refused.
    #[error("no memory")]
    NoMemory,
    /// The octets could not be read.
    #[error("cannot be read")]
    Unread,
    /// The octets could not be written. Some of them may be at the end.
    #[error("cannot be written")]
    Unwritten,
    /// The octets could not be written, for the disk has no room for them, or the user's quota is used up.
    /// Some of them may be at the end.
    #[error("no room on the disk")]
    NoRoom,
    /// The file could not be cut.
    #[error("cannot be cut")]
    Uncut,
    /// The file could not be synced, now or earlier: give it up.
    #[error("cannot be synced")]
    Unsynced,
}

impl From<AllocError> for LogFault {
    ghost from_gives = { λ _ fault. fault ≡ no_memory };

    fn from(_refused: AllocError) -> LogFault {
        LogFault::NoMemory
    }
}

impl<T: Drop> From<AllocFailed<T>> for LogFault {
    ghost from_gives = { λ _ fault. fault ≡ no_memory };

    fn from(_refused: AllocFailed<T>) -> LogFault {
        LogFault::NoMemory
    }
}

/// A spoilt frame before a whole one.
#[derive(Clone, Copy, Debug, PartialEq, Eq, Error)]
#[error("{offset}: damaged")]
pub struct Damage {
    /// The offset of the spoilt frame in the file, in octets.
    pub offset: usize,
}
