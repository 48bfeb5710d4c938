use rld_log::{Damage, HEAD_LEN};
use rld_start::{Cause, Wrong};
use rld_store::{Malformed, StoreFault};
use rsl_wire::NoMemory;
use std::alloc::AllocError;
use std::io;

/// Why the lines of a log are not written, or not all of them.
#[derive(Clone, Copy)]
pub enum LinesFault {
    /// Memory was refused.
    NoMemory,
    /// The writer failed.
    Unwritten,
    /// The log is damaged.
    Log(Wrong),
}

/// The fault of a log with a damage at an offset.
pub(crate) fn wrong(offset: usize, cause: Cause) -> LinesFault {
    LinesFault::Log(Wrong { offset, cause })
}

impl LinesFault {
    /// The fault of a log that a version before 0.4 wrote.
    pub fn former() -> LinesFault {
        wrong(HEAD_LEN, Cause::Former)
    }
}

impl From<Wrong> for LinesFault {
    fn from(wrong: Wrong) -> LinesFault {
        LinesFault::Log(wrong)
    }
}

impl From<Damage> for LinesFault {
    fn from(damage: Damage) -> LinesFault {
        wrong(damage.offset, Cause::Damaged)
    }
}

impl From<Malformed> for LinesFault {
    fn from(bad: Malformed) -> LinesFault {
        wrong(bad.offset, Cause::Malformed(bad.cause))
    }
}

impl From<StoreFault> for LinesFault {
    fn from(fault: StoreFault) -> LinesFault {
        match Wrong::of(fault) {
            Some(wrong) => LinesFault::Log(wrong),
            None => LinesFault::NoMemory,
        }
    }
}

impl From<AllocError> for LinesFault {
    fn from(_refused: AllocError) -> LinesFault {
        LinesFault::NoMemory
    }
}

impl From<NoMemory> for LinesFault {
    fn from(_refused: NoMemory) -> LinesFault {
        LinesFault::NoMemory
    }
}

impl From<io::Error> for LinesFault {
    fn from(_failed: io::Error) -> LinesFault {
        LinesFault::Unwritten
    }
}
