ghost use Rattle.std.specs.Prelude.{◌≡◌, ◌-◌};
ghost use Rattle.rld_spelling.specs.declared.fault.ReadFault.TheVariants.{NoMemory, Malformed};
ghost use Rattle.rld_spelling.specs.declared.fault.SpellFault.TheVariants.{NoMemory as unspelled};

use std::alloc::{AllocError, AllocFailed};
use thiserror::Error;

/// Why nothing was spelled.
#[derive(Clone, Copy, Debug, PartialEq, Eq)]
pub enum SpellFault {
    /// Memory was refused.
    NoMemory,
    /// The value has no spelling: a name or an id has over 253 octets, an account or a client is
    /// not there, or an own move is not an ask, an alive or a stop.
    Unfit,
}

impl From<AllocError> for SpellFault {
    ghost from_gives = { λ _ fault. fault ≡ unspelled };

    fn from(_refused: AllocError) -> SpellFault {
        SpellFault::NoMemory
    }
}

/// Why octets cannot be read.
#[derive(Clone, Copy, Debug, PartialEq, Eq, Error)]
pub enum Cause {
    /// The octets end before the value does.
    #[error("cut short")]
    CutShort,
    /// A number has more octets than it needs.
    #[error("a number in too many octets")]
    LongNumber,
    /// A number is out of its range.
    #[error("a number out of range")]
    OutOfRange,
    /// No account has this number.
    #[error("an account that is not there")]
    NoAccount,
    /// No client has this number.
    #[error("a client that is not there")]
    NoClient,
    /// No account can have this name.
    #[error("a name that no account can have")]
    BadName,
    /// An answer is kept for longer than a place is reserved.
    #[error("an answer kept for longer than a place")]
    KeepTooLong,
    /// A name or an id has over 253 octets.
    #[error("a name of over 253 octets")]
    TooLong,
    /// The octets are of another version of the format.
    #[error("another version of the format")]
    OtherFormat,
    /// The octets are of another version of the session rule.
    #[error("another version of the session rule")]
    OtherRule,
    /// A tag is unknown.
    #[error("an unknown tag")]
    UnknownTag,
    /// There are octets after the last value.
    #[error("octets after the end")]
    Trailing,
}

/// The first fault of some octets.
#[derive(Clone, Copy, Debug)]
pub struct Fault {
    /// What is wrong.
    pub cause: Cause,
    /// The octets from the fault to the end.
    pub left: usize,
}

impl Fault {
    /// The offset of the fault in octets of this length.
    pub fn offset(self, len: usize) -> usize
        ensures { result ≡ len - self.left }
    {
        len.saturating_sub(self.left)
    }
}

/// Why nothing was read.
#[derive(Clone, Copy, Debug)]
pub enum ReadFault {
    /// Memory was refused.
    NoMemory,
    /// The octets spell no value.
    Malformed(Fault),
}

impl From<Fault> for ReadFault {
    ghost from_gives = { λ fault made. made ≡ Malformed fault };

    fn from(fault: Fault) -> ReadFault {
        ReadFault::Malformed(fault)
    }
}

impl From<AllocError> for ReadFault {
    ghost from_gives = { λ _ made. made ≡ NoMemory };

    fn from(_refused: AllocError) -> ReadFault {
        ReadFault::NoMemory
    }
}

impl<T: Drop> From<AllocFailed<T>> for ReadFault {
    ghost from_gives = { λ _ made. made ≡ NoMemory };

    fn from(_refused: AllocFailed<T>) -> ReadFault {
        ReadFault::NoMemory
    }
}
