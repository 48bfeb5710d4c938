use rsl_accounts::Config;
use std::alloc::{AllocError, Global};

/// Why the accounts cannot be read again.
#[derive(Drop)]
pub enum AccountsFault {
    /// The account file is wrong, or does not fit the server's file. The text says where and how,
    /// in one line without its line feed.
    Wrong(String),
    /// Memory was refused.
    NoMemory,
}

/// Reads the accounts of a running server again.
///
/// A contract sees the networks of the server's file.
pub trait Accounts {
    ghost use Rattle.std.specs.Prelude.{List, IfOk};
    ghost use Rattle.rld_networks.specs.declared.network.Network.{Network as OneNetwork};
    ghost use Rattle.rld_serve.specs.Fitting.{AreFit};

    ghost networks: { Self → List OneNetwork };

    /// Reads the present accounts, clients and rules. `Wrong` comes if the account file is wrong or
    /// does not fit the server's file, and `NoMemory` if memory is refused.
    fn read(&self, alloc: Global) -> Result<Config, AccountsFault>
        ensures { IfOk result (λ config. AreFit (networks self.now) config) };
}

impl From<AllocError> for AccountsFault {
    fn from(_refused: AllocError) -> AccountsFault {
        AccountsFault::NoMemory
    }
}
