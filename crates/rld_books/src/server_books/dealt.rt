//! Restoring books from a snapshot of a version before format 3, in which the accounts were dealt to
//! shards.

ghost use Rattle.std.specs.Prelude.{◌≡◌, ◌<◌, ◌≤◌, IfOk, map};
ghost use Rattle.rld_books.specs.Dealt.{AreDealt, dealt_place};
ghost use Rattle.rld_books.specs.Saved.{IsServerOf};
ghost use Rattle.rsl_session.specs.Saved.{saved_book};

use crate::blank_books::BlankBooks;
use crate::fault::ServerFault;
use crate::server_books::ServerBooks;
use crate::server_books::saving::restored_book;
use rsl_accounts::Config;
use rsl_book::Book;
use rsl_session::SavedBook;
use std::alloc::Global;

/// The place of an account's book among those of this many accounts, which were dealt to shards.
fn dealt_place(shards: u32, count: u32, account: u32) -> u32
    requires some { 1 ≤ shards }
    requires few { shards ≤ 4 }
    requires accounts { count ≤ 16384 }
    requires there { account < count }
    ensures { result ≡ dealt_place shards count account }
{
    let mut before = 0;
    for shard in 0..account % shards {
        before += count.saturating_sub(shard).div_ceil(shards);
    }
    before + account / shards
}

/// The book of each account, restored from that of its place among these.
fn dealt_books(
    alloc: Global,
    config: &Config,
    shards: u32,
    kept: &[SavedBook],
) -> Result<Vec<Book>, ServerFault>
    requires some { 1 ≤ shards }
    requires few { shards ≤ 4 }
    ensures server { IfOk result (λ books. IsServerOf config.now books.items) }
    ensures dealt { IfOk result (λ books. AreDealt shards (map saved_book kept.now) books.items) }
{
    let accounts = config.accounts();
    if kept.len() != accounts as usize {
        return Err(ServerFault::WrongCount);
    }
    let mut blanks = BlankBooks::none(alloc);
    let mut books = Vec::new(alloc);
    for account in 0..accounts {
        let Some(one) = kept.get(dealt_place(shards, accounts, account) as usize) else {
            return Err(ServerFault::WrongCount);
        };
        let rules = config.entry(account).rules;
        books.push(restored_book(alloc, &mut blanks, account, rules, one)?)?;
    }
    Ok(books)
}

impl ServerBooks {
    /// The saved books of a configuration whose accounts were dealt to this many shards in turn,
    /// which stand shard after shard, as in snapshots of versions before format 3. The faults are
    /// those of `restore`.
    pub fn restore_dealt(
        alloc: Global,
        config: &Config,
        shards: u32,
        kept: &[SavedBook],
    ) -> Result<ServerBooks, ServerFault>
        requires some { 1 ≤ shards }
        requires few { shards ≤ 4 }
        ensures server { IfOk result (λ server. IsServerOf config.now server) }
        ensures dealt { IfOk result (λ server. AreDealt shards (map saved_book kept.now) server) }
    {
        // Shows the prover that a configuration has 16,384 accounts at most.
        let _accounts = config.accounts();
        let list = dealt_books(alloc, config, shards, kept)?;
        Ok(ServerBooks { list })
    }
}
