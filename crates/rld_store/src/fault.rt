ghost use Rattle.std.specs.Prelude.{◌≡◌};
ghost use Rattle.rld_store.specs.Stored.{record_fault};
ghost use Rattle.rld_store.specs.declared.fault.StoreFault.TheVariants.{Damaged as damaged, Log as log_failed, Malformed as malformed, NoMemory as no_memory};

use rld_books::ServerFault;
use rld_log::{Damage, Log, LogFault};
use rld_spelling::{Cause, SpellFault};
use rsl_wire::NoMemory;
use std::alloc::AllocError;
use thiserror::Error;

/// The payload of a whole frame is not what has to be there.
#[derive(Clone, Copy, Debug, PartialEq, Eq, Error)]
#[error("{offset}: {cause}")]
pub struct Malformed {
    /// The offset of the fault in the log, in octets.
    pub offset: usize,
    /// What is wrong.
    pub cause: Cause,
}

/// Why a call of the store failed.
#[derive(Clone, Copy, Debug, PartialEq, Eq, Error)]
pub enum StoreFault {
    /// Memory was refused.
    #[error("no memory")]
    NoMemory,
    /// A call of the log failed.
    #[error("{0}")]
    Log(LogFault),
    /// The log is damaged.
    #[error("{0}")]
    Damaged(Damage),
    /// The log has no whole snapshot: its generation was not begun.
    #[error("no whole snapshot")]
    Unbegun,
    /// A payload is malformed. A log of another version of the format or of the session rule has
    /// such a fault in its header.
    #[error("{0}")]
    Malformed(Malformed),
    /// The generation has another table than the configuration.
    #[error("{offset}: another table")]
    OtherTable {
        /// The offset of its table in the log, in octets.
        offset: usize,
    },
    /// The snapshot is not of the configuration's accounts.
    #[error("{offset}: {fault}")]
    Misfit {
        /// The offset of the snapshot in the log, in octets.
        offset: usize,
        /// What does not fit.
        fault: ServerFault,
    },
    /// A move is of no account of the configuration.
    #[error("{offset}: a move of no account")]
    Foreign {
        /// The offset of the batch in the log, in octets.
        offset: usize,
    },
    /// The log for a new generation is not empty.
    #[error("not empty")]
    Occupied,
    /// A batch or a snapshot has something that cannot be written, such as a name of over 253
    /// octets.
    #[error("nothing that can be written")]
    Unfit,
    /// A payload is longer than a frame can be, or the log than memory.
    #[error("too long")]
    TooLong,
}

/// Why a batch was not recorded.
#[derive(Clone, Copy, Debug, PartialEq, Eq, Error)]
pub enum RecordFault {
    /// It was not recorded; another may be.
    #[error("not recorded")]
    Failed,
    /// Nothing more can be recorded.
    #[error("nothing more can be recorded")]
    Ended,
}

/// A log that was not taken over, handed back.
#[derive(Drop)]
pub struct Refused<L: Log> {
    /// The log.
    pub log: L,
    /// The fault.
    pub fault: StoreFault,
}

impl From<AllocError> for StoreFault {
    ghost from_gives = { λ _ fault. fault ≡ no_memory };

    fn from(_refused: AllocError) -> StoreFault {
        StoreFault::NoMemory
    }
}

impl From<NoMemory> for StoreFault {
    ghost from_gives = { λ _ fault. fault ≡ no_memory };

    fn from(_refused: NoMemory) -> StoreFault {
        StoreFault::NoMemory
    }
}

impl From<SpellFault> for StoreFault {
    fn from(fault: SpellFault) -> StoreFault {
        match fault {
            SpellFault::NoMemory => StoreFault::NoMemory,
            SpellFault::Unfit => StoreFault::Unfit,
        }
    }
}

impl From<LogFault> for StoreFault {
    ghost from_gives = { λ failed fault. fault ≡ log_failed failed };

    fn from(fault: LogFault) -> StoreFault {
        StoreFault::Log(fault)
    }
}

impl From<Malformed> for StoreFault {
    ghost from_gives = { λ bad fault. fault ≡ malformed bad };

    fn from(bad: Malformed) -> StoreFault {
        StoreFault::Malformed(bad)
    }
}

impl From<Damage> for StoreFault {
    ghost from_gives = { λ damage fault. fault ≡ damaged damage };

    fn from(damage: Damage) -> StoreFault {
        StoreFault::Damaged(damage)
    }
}

impl From<StoreFault> for RecordFault {
    ghost from_gives = { λ failed fault. fault ≡ record_fault failed };

    fn from(failed: StoreFault) -> RecordFault {
        match failed {
            StoreFault::Log(LogFault::Unsynced) => RecordFault::Ended,
            _ => RecordFault::Failed,
        }
    }
}
