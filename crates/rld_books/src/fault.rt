ghost use Rattle.std.specs.Prelude.{◌≡◌};
ghost use Rattle.rld_books.specs.Saved.{server_fault};
ghost use Rattle.rld_books.specs.declared.fault.ServerFault.TheVariants.{NoMemory as no_memory};
ghost use Rattle.rld_books.specs.declared.fault.TableFault.TheVariants.{NoMemory as refused};

use rld_spelling::Fault;
use rsl_book::RestoreFault;
use rsl_wire::NoMemory;
use std::alloc::AllocFailed;
use thiserror::Error;

/// Why saved books are not those of a configuration, or that memory was refused.
#[derive(Clone, Copy, Debug, PartialEq, Eq, Error)]
pub enum ServerFault {
    /// There is not one book of each account.
    #[error("not one book for each account")]
    WrongCount,
    /// A book cannot be that of its account.
    #[error("{0}")]
    Misfit(RestoreFault),
    /// Memory was refused.
    #[error("no memory")]
    NoMemory,
}

impl From<NoMemory> for ServerFault {
    ghost from_gives = { λ _ fault. fault ≡ no_memory };

    fn from(_refused: NoMemory) -> ServerFault {
        ServerFault::NoMemory
    }
}

impl<T: Drop> From<AllocFailed<T>> for ServerFault {
    ghost from_gives = { λ _ fault. fault ≡ no_memory };

    fn from(_refused: AllocFailed<T>) -> ServerFault {
        ServerFault::NoMemory
    }
}

impl From<RestoreFault> for ServerFault {
    ghost from_gives = { λ fault made. made ≡ server_fault fault };

    fn from(fault: RestoreFault) -> ServerFault {
        match fault {
            RestoreFault::NoMemory => ServerFault::NoMemory,
            RestoreFault::TooManyAsks | RestoreFault::TooManyStops | RestoreFault::TooManyPlaces =>
                { ServerFault::Misfit(fault) }
        }
    }
}

/// Why the octets of a table give no configuration.
#[derive(Clone, Copy)]
pub enum TableFault {
    /// Memory was refused.
    NoMemory,
    /// They spell no table.
    Malformed(Fault),
    /// No account file has the table.
    NoConfiguration,
}

impl<T: Drop> From<AllocFailed<T>> for TableFault {
    ghost from_gives = { λ _ fault. fault ≡ refused };

    fn from(_refused: AllocFailed<T>) -> TableFault {
        TableFault::NoMemory
    }
}

impl From<NoMemory> for TableFault {
    ghost from_gives = { λ _ fault. fault ≡ refused };

    fn from(_refused: NoMemory) -> TableFault {
        TableFault::NoMemory
    }
}
