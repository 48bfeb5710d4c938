//! The worker that shows the server.

use crate::accounts::Accounts;
use crate::server::Server;
use rld_edges::RunFault;
use rld_look::{AccountsLook, Health, Look, Pages, Shown};
use rld_start::Generations;
use rsl_wire::NoMemory;
use std::io::Eprint;
use std::net::Net;
use std::sync::Wait;
use std::time;

impl<'a, G, A, R: time::Clock + Wait> Shown for Server<'a, G, A, R> {
    fn health(&self) -> Health {
        self.health_now()
    }

    fn take_look(&self, _now: u64) -> Result<Look, NoMemory> {
        self.look()
    }

    fn take_accounts(&self) -> Result<AccountsLook, NoMemory> {
        self.accounts_look()
    }

    fn is_over(&self) -> bool {
        self.shutdown.is_over()
    }
}

impl<'a, G, A, R> Server<'a, G, A, R>
where
    G: Generations,
    A: Accounts,
    R: Net + Eprint + time::Clock + Wait,
{
    /// Shows the server until it is to end.
    pub(crate) fn show<P: Pages>(&self, pages: &P) -> Result<(), RunFault> {
        if self.has_started()? {
            pages.show(self.rt, self)?;
        }
        Ok(())
    }
}
