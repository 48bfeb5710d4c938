ghost use Rattle.std.specs.Prelude.{◌≡◌};
ghost use Rattle.rld_state.specs.Keeping.{fault_of};
ghost use Rattle.rld_state.specs.Room.{is_full_for_reload};
ghost use Rattle.rld_state.specs.declared.reload_result.ReloadFault.TheVariants.{NoMemory as no_memory, NotBegun as unbegun};

use crate::roll_fault::{NotBegun, RollFault};
use std::alloc::{AllocError, AllocFailed};
use std::fmt;
use thiserror::Error;

/// The result of a reload. It prints as the line of an answer, without its line feed.
#[derive(Clone, Copy)]
pub enum Reloaded {
    /// Names, rules and addresses are as before.
    AsBefore,
    /// The accounts have changed.
    Changed(Change),
}

/// What a change of the accounts does to sessions. Only `ServerState::change` makes one.
#[derive(Clone, Copy)]
pub struct Change {
    /// The number of sessions that held a link before.
    pub(crate) held: u64,
    /// The number of those sessions that go on.
    pub(crate) sessions: u64,
}

impl fmt::Display for Reloaded {
    fn fmt<W: fmt::Write>(&self, f: &mut fmt::Formatter<W>) -> fmt::Result {
        match self {
            Reloaded::AsBefore => f.write_str("as before"),
            Reloaded::Changed(change) => {
                write!(f, "{} of {} sessions go on", change.sessions, change.held)
            }
        }
    }
}

/// Why the accounts stay as they are after a reload.
#[derive(Clone, Copy, Debug, Error)]
pub enum ReloadFault {
    /// The accounts have changed while the others were prepared.
    #[error("the accounts have changed meanwhile")]
    Changed,
    /// The generation with the other accounts could not begin.
    #[error("no change yet: {0}")]
    NotBegun(RollFault),
    /// Memory was refused.
    #[error("no memory")]
    NoMemory,
}

impl ReloadFault {
    /// Whether the disk had no room for the change.
    pub fn is_full(&self) -> bool
        ensures { result ≡ is_full_for_reload self.now }
    {
        match self {
            ReloadFault::NotBegun(fault) => fault.is_full(),
            ReloadFault::Changed | ReloadFault::NoMemory => false,
        }
    }
}

impl From<RollFault> for ReloadFault {
    ghost from_gives = { λ fault made. made ≡ unbegun fault };

    fn from(fault: RollFault) -> ReloadFault {
        ReloadFault::NotBegun(fault)
    }
}

impl From<NotBegun> for ReloadFault {
    ghost from_gives = { λ refused made. made ≡ unbegun (fault_of refused) };

    fn from(refused: NotBegun) -> ReloadFault {
        ReloadFault::NotBegun(RollFault::from(refused))
    }
}

impl From<AllocError> for ReloadFault {
    ghost from_gives = { λ _ made. made ≡ no_memory };

    fn from(_refused: AllocError) -> ReloadFault {
        ReloadFault::NoMemory
    }
}

impl<T: Drop> From<AllocFailed<T>> for ReloadFault {
    ghost from_gives = { λ _ made. made ≡ no_memory };

    fn from(_refused: AllocFailed<T>) -> ReloadFault {
        ReloadFault::NoMemory
    }
}
