ghost use Rattle.std.specs.Prelude.{◌≡◌};
ghost use Rattle.rld_control.specs.declared.fault.FreeFault.TheVariants.{NoMemory as no_memory};

use rsl_wire::NoMemory;

/// Why a named session has no Stop.
#[derive(Clone, Copy)]
pub enum FreeFault {
    /// No account has the name.
    UnknownAccount,
    /// No client has the address.
    UnknownClient,
    /// No session can have this name: the id is empty, or a word has over 253 octets.
    NoSession,
    /// Memory was refused.
    NoMemory,
}

impl From<NoMemory> for FreeFault {
    ghost from_gives = { λ _ fault. fault ≡ no_memory };

    fn from(_refused: NoMemory) -> FreeFault {
        FreeFault::NoMemory
    }
}
