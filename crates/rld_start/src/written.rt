//! The generation that a store writes.

ghost use Rattle.std.specs.Prelude.{◌≡◌};

use rld_log::Log;
use rld_store::Store;

/// The generation that a store writes, as it was when this value was made. Only `Written::by` makes
/// one.
#[derive(Clone, Copy)]
pub struct Written {
    generation: u64,
}

impl Written {
    /// The generation that this store writes.
    pub fn by<L: Log>(store: &Store<L>) -> Written
        ensures { result.generation ≡ store.now.header.generation }
    {
        Written {
            generation: store.header().generation,
        }
    }

    /// The number of the generation.
    pub fn generation(self) -> u64
        ensures { result ≡ self.generation }
    {
        self.generation
    }
}
