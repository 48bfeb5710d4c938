ghost use Rattle.std.specs.Prelude.{◌≡◌};
ghost use Rattle.rsl_accounts.specs.declared.fault.ConfigFault.TheVariants.{NoMemory as no_memory};

use crate::field::Field;
use crate::part::Part;
use crate::reply_fault::ReplyFault;
use crate::text::Text;
use rsl_wire::NoMemory;
use std::alloc::{AllocError, AllocFailed};
use thiserror::Error;

/// Why there is no configuration. It prints as its name, followed by the key of the field if it has
/// one: `BadValue keep_secs`. An unknown key is printed with its table: `Unknown client "sigend"`.
#[derive(Debug, Drop, Error)]
pub enum ConfigFault {
    /// The file is not UTF-8 or not TOML.
    #[error("NotToml")]
    NotToml,
    /// The table has a key of this name, which version 3 does not know.
    #[error("Unknown {0}{1:?}")]
    Unknown(Part, Text),
    /// The field is absent.
    #[error("Missing {0}")]
    Missing(Field),
    /// The value of the field is of another type, or outside its limits.
    #[error("BadValue {0}")]
    BadValue(Field),
    /// The attribute at this place, from 1 on, in the list `reply` of the profile or account with this
    /// name is wrong.
    #[error("BadReply {0}{1:?} {2}: {3}")]
    BadReply(Part, Text, u64, ReplyFault),
    /// The account with this name has a profile that the file does not have.
    #[error("UnknownProfile {0:?}")]
    UnknownProfile(Text),
    /// The reply attributes of the account with this name have over 1,000 octets.
    #[error("ReplyTooLong {0:?}")]
    ReplyTooLong(Text),
    /// Two clients have one address.
    #[error("TwiceClient")]
    TwiceClient,
    /// Two accounts have the same name.
    #[error("TwiceAccount")]
    TwiceAccount,
    /// `keep_secs` is more than `reserve_secs`.
    #[error("KeepTooLong")]
    KeepTooLong,
    /// Memory was refused.
    #[error("NoMemory")]
    NoMemory,
}

impl From<AllocError> for ConfigFault {
    ghost from_gives = { λ _ fault. fault ≡ no_memory };

    fn from(_refused: AllocError) -> ConfigFault {
        ConfigFault::NoMemory
    }
}

impl<T: Drop> From<AllocFailed<T>> for ConfigFault {
    ghost from_gives = { λ _ fault. fault ≡ no_memory };

    fn from(_refused: AllocFailed<T>) -> ConfigFault {
        ConfigFault::NoMemory
    }
}

impl From<NoMemory> for ConfigFault {
    ghost from_gives = { λ _ fault. fault ≡ no_memory };

    fn from(_refused: NoMemory) -> ConfigFault {
        ConfigFault::NoMemory
    }
}
