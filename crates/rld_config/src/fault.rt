ghost use Rattle.std.specs.Prelude.{◌≡◌};
ghost use Rattle.rld_config.specs.declared.fault.ServerFault.TheVariants.{NoMemory as no_memory};

use crate::key::Key;
use crate::part::Part;
use rsl_accounts::Text;
use rsl_wire::NoMemory;
use std::alloc::{AllocError, AllocFailed};
use std::net::Ipv4Addr;
use thiserror::Error;

/// Why a server's file cannot be used. It prints as its name, the table unless it is the head, and
/// the key: `BadValue listen 2 auth`.
#[derive(Debug, Drop, Error)]
pub enum ServerFault {
    /// The file is not UTF-8 or not TOML.
    #[error("NotToml")]
    NotToml,
    /// The table has an unknown key of this name.
    #[error("Unknown {0}{1:?}")]
    Unknown(Part, Text),
    /// The key is absent.
    #[error("Missing {0}{1}")]
    Missing(Part, Key),
    /// The value of the key is of another type, or outside its limits.
    #[error("BadValue {0}{1}")]
    BadValue(Part, Key),
    /// An earlier table of the file has the port, at an address that meets its own.
    #[error("TakenPort {0}{1}")]
    TakenPort(Part, Key),
    /// An earlier table of the file has the prefix.
    #[error("TakenPrefix {0}{1}")]
    TakenPrefix(Part, Key),
    /// The account file has no client of this address.
    #[error("UnknownClient {0}{1}")]
    UnknownClient(Part, Key),
    /// The client of this address need not sign, which version 3 of the account file does not allow
    /// for a network.
    #[error("UnsignedClient {0}{1}")]
    UnsignedClient(Part, Key),
    /// The client of this address is not trusted, so that it may not ask without a password.
    #[error("UntrustedClient {0}{1}")]
    UntrustedClient(Part, Key),
    /// The address of this client of the account file stands for another client by a network.
    #[error("ShadowedClient {0}")]
    ShadowedClient(Ipv4Addr),
    /// Memory was refused.
    #[error("NoMemory")]
    NoMemory,
}

impl From<AllocError> for ServerFault {
    ghost from_gives = { λ _ fault. fault ≡ no_memory };

    fn from(_refused: AllocError) -> ServerFault {
        ServerFault::NoMemory
    }
}

impl<T: Drop> From<AllocFailed<T>> for ServerFault {
    ghost from_gives = { λ _ fault. fault ≡ no_memory };

    fn from(_refused: AllocFailed<T>) -> ServerFault {
        ServerFault::NoMemory
    }
}

impl From<NoMemory> for ServerFault {
    ghost from_gives = { λ _ fault. fault ≡ no_memory };

    fn from(_refused: NoMemory) -> ServerFault {
        ServerFault::NoMemory
    }
}
