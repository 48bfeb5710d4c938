ghost use Rattle.std.specs.Prelude.{◌≡◌};
ghost use Rattle.rsl_accounts.specs.declared.reply_fault.ReplyFault.TheVariants.{NoMemory as no_memory};

use crate::reply_form::Form;
use rsl_wire::NoMemory;
use std::alloc::{AllocError, AllocFailed};
use thiserror::Error;

/// What is wrong with the text of a reply attribute.
#[derive(Clone, Copy, Debug, Error)]
pub enum ReplyFault {
    /// It is not a name, `=` and a value.
    #[error("no NAME = VALUE")]
    NotPair,
    /// It is no text, but another value of a file. No text has this fault.
    #[error("no text")]
    NotText,
    /// No attribute has the name, or none has it with a tag.
    #[error("unknown name")]
    UnknownName,
    /// The server sets the attribute itself, or counts sessions by it.
    #[error("set by the server")]
    ServersOwn,
    /// The value is not of the attribute's form.
    #[error("value is not {0}")]
    BadValue(Form),
    /// The value has over 253 octets, or over 247 in a vendor's attribute.
    #[error("value too long")]
    TooLong,
    /// The value of Vendor-Specific has under 5 octets: a vendor's number, and one or more (RFC 2865
    /// section 5.26).
    #[error("value too short")]
    TooShort,
    /// Memory was refused.
    #[error("NoMemory")]
    NoMemory,
}

impl From<AllocError> for ReplyFault {
    ghost from_gives = { λ _ fault. fault ≡ no_memory };

    fn from(_refused: AllocError) -> ReplyFault {
        ReplyFault::NoMemory
    }
}

impl<T: Drop> From<AllocFailed<T>> for ReplyFault {
    ghost from_gives = { λ _ fault. fault ≡ no_memory };

    fn from(_refused: AllocFailed<T>) -> ReplyFault {
        ReplyFault::NoMemory
    }
}

impl From<NoMemory> for ReplyFault {
    ghost from_gives = { λ _ fault. fault ≡ no_memory };

    fn from(_refused: NoMemory) -> ReplyFault {
        ReplyFault::NoMemory
    }
}
