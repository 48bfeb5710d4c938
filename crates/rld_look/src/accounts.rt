ghost use Rattle.std.specs.Prelude.{◌≡◌, IfOk};
ghost use Rattle.rld_look.specs.Accounts.{AreFullest, free, held_in, look_of, looks_of};

use crate::look::{AccountLook, AccountsLook};
use rsl_accounts::Config;
use rsl_shard::Row;
use rsl_wire::NoMemory;
use std::alloc::Global;

/// The most of the fullest accounts that are shown.
pub const MOST_FULLEST: usize = 50;

const _: () = prove!(MOST_FULLEST == 50);

/// All places of an account, in millionths.
const ALL: u64 = 1_000_000;

impl AccountsLook {
    /// What each account holds in the second `now` since 1970, in the order of the rows. A row of no
    /// account is skipped. It fails only if memory is refused.
    pub fn of(
        alloc: Global,
        now: u64,
        config: &Config,
        rows: &[Row],
    ) -> Result<AccountsLook, NoMemory>
        ensures now { IfOk result (λ look. look.now ≡ now) }
        ensures rows { IfOk result (λ look. look.accounts.items ≡ looks_of config.now rows.now) }
    {
        let accounts = looks_of(alloc, config, rows)?;
        Ok(AccountsLook { now, accounts })
    }
}

/// What the fullest accounts hold, at most `MOST_FULLEST` of them, from the rows of all:
/// first the account with the smallest part of its places free, and of several with as much the
/// first in the file. A row of no account is skipped. It fails only if memory is refused.
pub fn fullest_looks(
    alloc: Global,
    config: &Config,
    mut rows: Vec<Row>,
) -> Result<Vec<AccountLook>, NoMemory>
    ensures { IfOk result (λ looks. AreFullest config.now rows.items looks.items) }
{
    rows.retain(|row| row.account < config.accounts());
    rows.sort_by_cached_key(|row| (free(row), row.account))?;
    rows.truncate(MOST_FULLEST);
    let looks = looks_of(alloc, config, rows.as_slice())?;
    Ok(looks)
}

/// The free part of an account's places, in millionths; all if it has none.
fn free(row: &Row) -> u64
    ensures { result ≡ free row.now }
{
    match u64::from(row.places) {
        0 => ALL,
        places => ALL.saturating_sub(u64::from(row.held) * ALL / places),
    }
}

/// What the account of each row holds, in the order of the rows. It fails only if memory is
/// refused.
#[tactic(auto, using(crate::proofs::Showing::look_steps))]
fn looks_of(alloc: Global, config: &Config, rows: &[Row]) -> Result<Vec<AccountLook>, NoMemory>
    ensures { IfOk result (λ looks. looks.items ≡ looks_of config.now rows.now) }
{
    let mut looks = Vec::new(alloc);
    for row in rows {
        if let Some(look) = look_of(alloc, config, row)? {
            looks.push(look)?;
        }
    }
    Ok(looks)
}

/// What the account of a row holds, or `None` if the row is of no account. It fails only if memory
/// is refused.
fn look_of(alloc: Global, config: &Config, row: &Row) -> Result<Option<AccountLook>, NoMemory>
    ensures { IfOk result (λ look. look ≡ look_of config.now row.now) }
{
    if row.account >= config.accounts() {
        return Ok(None);
    }
    let name = config.entry(row.account).name.try_copy(alloc)?;
    Ok(Some(AccountLook { name, row: *row }))
}

/// The number of places that these rows hold, at most 2^64 - 1.
pub fn held_in(rows: &[Row]) -> u64
    ensures { result ≡ held_in rows.now }
{
    let mut held = 0u64;
    for row in rows {
        held = held.saturating_add(u64::from(row.held));
    }
    held
}
