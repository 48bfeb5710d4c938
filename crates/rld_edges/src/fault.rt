ghost use Rattle.std.specs.Prelude.{◌≡◌};
ghost use Rattle.rld_edges.specs.Fault.{fault_in, graver, gravest};
ghost use Rattle.rld_edges.specs.declared.fault.RunFault.TheVariants.{Down as down, NoMemory as no_memory};

use rld_start::EndStatus;
use rsl_wire::NoMemory;
use std::alloc::{AllocError, AllocFailed};
use std::io;
use std::net::SocketAddr;
use thiserror::Error;

/// Why a server has not started, or has ended without a request. It prints as the line for standard
/// error.
#[derive(Clone, Copy, Debug, Error)]
pub enum RunFault {
    /// A socket could not be bound to this address and port.
    #[error("{0}: cannot be bound")]
    Unbound(SocketAddr),
    /// A worker has not started on its own thread.
    #[error("no thread for each receiver")]
    Threads,
    /// A system call failed that receiving depends on.
    #[error("a socket failed")]
    Down,
    /// Memory was refused at the start.
    #[error("no memory")]
    NoMemory,
    /// The disk took what was written to it, and then could not say that it has it. What was
    /// answered before stands. This process must record nothing more; the next one goes on from
    /// what the disk then has.
    #[error("the disk cannot be synced")]
    Unsynced,
}

impl RunFault {
    ghost use Rattle.rld_edges.specs.Fault.{gravity, status_of};

    /// The exit status of the server: a start or a system call that failed, refused memory, or a
    /// disk that could not be synced.
    pub fn status(self) -> EndStatus
        ensures { result ≡ status_of self }
    {
        match self {
            RunFault::Unbound(_) | RunFault::Threads | RunFault::Down => EndStatus::InputOutput,
            RunFault::NoMemory => EndStatus::NoMemory,
            RunFault::Unsynced => EndStatus::Unsynced,
        }
    }

    /// Its gravity: what was recorded counts most, and a missing thread least.
    fn gravity(self) -> u8
        ensures { result ≡ gravity self }
    {
        match self {
            RunFault::Threads => 1,
            RunFault::Unbound(_) | RunFault::Down => 2,
            RunFault::NoMemory => 3,
            RunFault::Unsynced => 4,
        }
    }
}

impl From<AllocError> for RunFault {
    ghost from_gives = { λ _ fault. fault ≡ no_memory };

    fn from(_refused: AllocError) -> RunFault {
        RunFault::NoMemory
    }
}

impl<T: Drop> From<AllocFailed<T>> for RunFault {
    ghost from_gives = { λ _ fault. fault ≡ no_memory };

    fn from(_refused: AllocFailed<T>) -> RunFault {
        RunFault::NoMemory
    }
}

impl From<NoMemory> for RunFault {
    ghost from_gives = { λ _ fault. fault ≡ no_memory };

    fn from(_refused: NoMemory) -> RunFault {
        RunFault::NoMemory
    }
}

impl From<io::Error> for RunFault {
    ghost from_gives = { λ _ fault. fault ≡ down };

    fn from(_failed: io::Error) -> RunFault {
        RunFault::Down
    }
}

/// The fault of a server whose workers ended with these results: the gravest, and of several the
/// first. A worker that ended on request has none.
pub fn outcome_of(ended: &[Result<(), RunFault>]) -> Result<(), RunFault>
    ensures { fault_in result ≡ gravest ended.now }
{
    let mut outcome = Ok(());
    for one in ended {
        outcome = graver(outcome, *one);
    }
    outcome
}

/// The graver of two outcomes.
fn graver(one: Result<(), RunFault>, other: Result<(), RunFault>) -> Result<(), RunFault>
    ensures { fault_in result ≡ graver (fault_in one) (fault_in other) }
{
    match (one, other) {
        (Ok(()), _) => other,
        (Err(_), Ok(())) => one,
        (Err(fault), Err(next)) => {
            if fault.gravity() < next.gravity() {
                other
            } else {
                one
            }
        }
    }
}
