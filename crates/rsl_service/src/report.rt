ghost use Rattle.std.specs.Prelude.{◌≡◌, IfOk};
ghost use Rattle.rsl_shard.specs.Restep.{new_books};
ghost use Rattle.rsl_shard.specs.Setup.{setup_of};
ghost use Rattle.rsl_service.specs.Report.{IsReport};

use crate::desk::Desk;
use crate::ledger::Tally;
use crate::service::{Desks, Gate, Service};
use rsl_accounts::Config;
use rsl_shard::Row;
use rsl_wire::NoMemory;
use std::alloc::Global;
use std::sync::{Mutex, Wait};

impl<L0: Tally, L1: Tally, L2: Tally, L3: Tally, G: Gate> Service<L0, L1, L2, L3, G> {
    /// What each account holds, in file order.
    ///
    /// The rows of one shard's accounts are of one moment, between two steps of the shard; those of
    /// two shards may be of two. Each account is shown at its book's own clock. It fails only if
    /// memory is refused, before it takes any lock.
    pub fn report<R: Wait>(&self, rt: &R, alloc: Global) -> Result<Vec<Row>, NoMemory>
        ensures { IfOk result (λ rows. IsReport self.now.config.accounts rows.items) }
    {
        let mut rows = rows_of_none(alloc, self.config())?;
        self.desks.show(rt, &mut rows);
        Ok(rows)
    }
}

/// A row for each account, in file order, with no place held.
#[tactic(auto, using(crate::proofs::Reported::firsts))]
fn rows_of_none(alloc: Global, config: &Config) -> Result<Vec<Row>, NoMemory>
    ensures { IfOk result (λ rows. IsReport config.now.accounts rows.items) }
{
    let mut rows = Vec::with_capacity(alloc, config.accounts() as usize)?;
    for account in 0..config.accounts() {
        rows.push(Row {
            account,
            places: config.entry(account).rules.places as u32,
            held: 0,
            reserved: 0,
            live: 0,
            stale: 0,
            over: 0,
        })?;
    }
    Ok(rows)
}

impl<L0: Tally, L1: Tally, L2: Tally, L3: Tally> Desks<L0, L1, L2, L3> {
    /// Writes what each account holds into its row, shard by shard.
    fn show<R: Wait>(&self, rt: &R, rows: &mut [Row])
        requires { IsReport self.now.accounts rows.old }
        ensures { IsReport self.now.accounts rows.new }
    {
        let config = &self.config;
        show_under_lock(rt, &self.desk0, config, 0, rows);
        show_if_there(rt, &self.desk1, config, 1, rows);
        show_if_there(rt, &self.desk2, config, 2, rows);
        show_if_there(rt, &self.desk3, config, 3, rows);
    }
}

/// Writes what each account of a shard holds into its row, under the shard's lock.
fn show_under_lock<L: Tally, R: Wait>(
    rt: &R,
    desk: &Mutex<Desk<L>>,
    config: &Config,
    number: u32,
    rows: &mut [Row],
)
    requires setup { L.setup ≡ setup_of config.now number }
    requires books { L.books ≡ new_books config.now number }
    requires rows { IsReport config.now.accounts rows.old }
    ensures { IsReport config.now.accounts rows.new }
{
    desk.lock(rt).show(config, number, rows);
}

/// Writes what each account of a shard holds into its row, if there is such a shard.
fn show_if_there<L: Tally, R: Wait>(
    rt: &R,
    desk: &Option<Mutex<Desk<L>>>,
    config: &Config,
    number: u32,
    rows: &mut [Row],
)
    requires setup { L.setup ≡ setup_of config.now number }
    requires books { L.books ≡ new_books config.now number }
    requires rows { IsReport config.now.accounts rows.old }
    ensures { IsReport config.now.accounts rows.new }
{
    match desk {
        Some(desk) => show_under_lock(rt, desk, config, number, rows),
        None => (),
    }
}
