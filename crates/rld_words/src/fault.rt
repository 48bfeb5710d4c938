ghost use Rattle.std.specs.Prelude.{◌≡◌};
ghost use Rattle.rld_words.specs.declared.fault.WordsFault.TheVariants.{NoMemory as no_memory};

use crate::command::Misuse;
use rsl_wire::NoMemory;

/// Why the words of a command are not taken.
#[derive(Clone, Copy)]
pub enum WordsFault {
    /// They are wrong.
    Misuse(Misuse),
    /// Memory was refused.
    NoMemory,
}

impl From<NoMemory> for WordsFault {
    ghost from_gives = { λ _ fault. fault ≡ no_memory };

    fn from(_refused: NoMemory) -> WordsFault {
        WordsFault::NoMemory
    }
}
