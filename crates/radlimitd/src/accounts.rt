//! Reading the accounts of a running server again.

use rld_commands::{Fault, accounts_for};
use rld_config::ServerFile;
use rld_serve::{Accounts, AccountsFault};
use rsl_accounts::Config;
use rsl_reply::Dictionary;
use std::alloc::Global;

/// The account file of a server.
#[derive(Clone, Copy)]
pub(crate) struct ServerAccounts<'a> {
    /// The system. A thread can be given no other handle to files.
    pub(crate) files: &'a HostRuntime,
    /// The names that attributes have.
    pub(crate) names: &'a Dictionary,
    /// The name of the server's file.
    pub(crate) name: &'a str,
    /// The contents of the server's file.
    pub(crate) server: &'a ServerFile,
    /// The path of the account file.
    pub(crate) path: &'a str,
}

impl Accounts for ServerAccounts<'_> {
    ghost networks = { λ accounts. accounts.server.now.networks.items };

    fn read(&self, alloc: Global) -> Result<Config, AccountsFault> {
        match accounts_for(
            self.files,
            alloc,
            self.names,
            self.name,
            self.server,
            self.path,
        ) {
            Ok(accounts) => Ok(accounts.config),
            Err(Fault::NoMemory) => Err(AccountsFault::NoMemory),
            Err(fault) => Err(AccountsFault::Wrong(format!(in alloc; "{fault}")?)),
        }
    }
}
