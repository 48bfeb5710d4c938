ghost use Rattle.std.specs.Prelude.{◌≡◌};
ghost use Rattle.rld_look.specs.Accounts.{looks_of};
ghost use Rattle.rld_look.specs.Totals.{no_totals, totals_of, with_row};

use rsl_accounts::Config;
use rsl_shard::Row;

/// What all accounts hold, each number at most 2^64 - 1.
#[derive(Clone, Copy)]
pub struct Totals {
    /// The number of accounts.
    pub accounts: u64,
    /// The places that they have.
    pub places: u64,
    /// The places that they hold.
    pub held: u64,
    /// The number of their reserved links.
    pub reserved: u64,
    /// The number of their bound links that are live.
    pub live: u64,
    /// The number of their bound links that are stale.
    pub stale: u64,
    /// The number of their alives that found no place.
    pub over: u64,
    /// The number of accounts with no free place.
    pub full: u64,
}

impl Totals {
    /// The totals of no account: each number is 0.
    pub fn new() -> Totals
        ensures { result ≡ no_totals }
    {
        Totals {
            accounts: 0,
            places: 0,
            held: 0,
            reserved: 0,
            live: 0,
            stale: 0,
            over: 0,
            full: 0,
        }
    }

    /// The totals of the accounts with these rows. A row of no account is skipped.
    #[tactic(auto, using(crate::proofs::Showing::total_steps))]
    pub fn of(config: &Config, rows: &[Row]) -> Totals
        ensures { result ≡ totals_of (looks_of config.now rows.now) }
    {
        let mut totals = Totals::new();
        for row in rows {
            if row.account < config.accounts() {
                totals = totals.with(row);
            }
        }
        totals
    }

    /// These totals with another account.
    fn with(self, row: &Row) -> Totals
        ensures { result ≡ with_row self row.now }
    {
        Totals {
            accounts: self.accounts.saturating_add(1),
            places: self.places.saturating_add(u64::from(row.places)),
            held: self.held.saturating_add(u64::from(row.held)),
            reserved: self.reserved.saturating_add(u64::from(row.reserved)),
            live: self.live.saturating_add(u64::from(row.live)),
            stale: self.stale.saturating_add(u64::from(row.stale)),
            over: self.over.saturating_add(row.over),
            full: self.full.saturating_add(u64::from(row.places <= row.held)),
        }
    }
}
