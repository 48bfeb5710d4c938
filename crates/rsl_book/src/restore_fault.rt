ghost use Rattle.std.specs.Prelude.{◌≡◌};
ghost use Rattle.rsl_book.specs.declared.restore_fault.RestoreFault.TheVariants.{NoMemory as no_memory};

use rsl_wire::NoMemory;
use thiserror::Error;

/// Why a saved book cannot be restored for its account, or that memory was refused.
#[derive(Clone, Copy, Debug, PartialEq, Eq, Error)]
pub enum RestoreFault {
    /// It keeps more than 8 asks.
    #[error("too many asks")]
    TooManyAsks,
    /// It keeps more than 16 stops.
    #[error("too many stops")]
    TooManyStops,
    /// Its links take more places than the account has.
    #[error("too many places")]
    TooManyPlaces,
    /// Memory was refused.
    #[error("no memory")]
    NoMemory,
}

impl From<NoMemory> for RestoreFault {
    ghost from_gives = { λ _ fault. fault ≡ no_memory };

    fn from(_refused: NoMemory) -> RestoreFault {
        RestoreFault::NoMemory
    }
}
