//! Books that the caller gives, and their saved form.

ghost use Rattle.std.specs.Prelude.{◌≡◌, ◌<◌, ◌↔◌, All, IfErr, IfOk, IsOk, IsTrue, Some, map, slice_get};
ghost use Rattle.std.specs.Option.{option_map};
ghost use Rattle.rsl_book.specs.Restored.{saved};
ghost use Rattle.rsl_book.specs.RuledBook.{IsWithinLimit};
ghost use Rattle.rsl_session.specs.Saved.{saved_book};
ghost use Rattle.rsl_shard.specs.Opening.{as_new};
ghost use Rattle.rsl_shard.specs.Restep.{AreBooks, book_of_entry, new_books};
ghost use Rattle.rsl_shard.specs.Setup.{setup_of};

use crate::books::Books;
use rsl_accounts::{Config, Rules};
use rsl_book::Book;
use rsl_session::SavedBook;
use rsl_wire::NoMemory;
use std::alloc::Global;

/// Whether two accounts have the same rules.
fn are_same_rules(one: Rules, other: Rules) -> bool
    ensures { IsTrue result ↔ (one ≡ other) }
{
    one == other
}

/// Whether a book has the rules of an account.
fn is_book_of(config: &Config, account: u32, book: &Book) -> bool
    ensures own { IsTrue result ↔
        (option_map book_of_entry (slice_get config.now.accounts account) ≡
        Some (as_new book.now)) }
    ensures limit { IsTrue result → IsWithinLimit book.now }
{
    if account < config.accounts() {
        return are_same_rules(book.rules(), config.entry(account).rules);
    }
    false
}

/// Whether these are the books of a shard: one for each of its accounts, in the order of their
/// numbers, with the account's rules.
fn are_of_shard(config: &Config, shard: u32, books: &[Book]) -> bool
    requires { shard < config.now.settings.shards }
    ensures own { IsTrue result ↔ (map as_new books.now ≡ new_books config.now shard) }
    ensures limit { IsTrue result → All IsWithinLimit books.now }
{
    let shards = config.shards();
    let accounts = config.accounts();
    let mut account = shard;
    for book in books {
        if !is_book_of(config, account, book) {
            return false;
        }
        account += shards;
    }
    if account < accounts {
        return false;
    }
    true
}

impl Books {
    /// The books of a shard: one for each of its accounts, in the order of their numbers, with the
    /// account's rules. Any others are handed back.
    pub fn from_books(config: &Config, shard: u32, books: Vec<Book>) -> Result<Books, Vec<Book>>
        requires { shard < config.now.settings.shards }
        ensures setup { IfOk result (λ made. made.setup ≡ setup_of config.now shard) }
        ensures books { IfOk result (λ made. made.books ≡ books.items) }
        ensures sound { IfOk result (λ made. AreBooks made.setup made.books) }
        ensures given { IsOk result ↔ (map as_new books.items ≡ new_books config.now shard) }
        ensures back { IfErr result (λ back. back ≡ books) }
    {
        if !are_of_shard(config, shard, books.as_slice()) {
            return Err(books);
        }
        Ok(Books {
            shard,
            shards: config.shards(),
            accounts: config.accounts(),
            list: books,
        })
    }

    /// The saved form of each book, in the order of the accounts' numbers. It fails only if memory
    /// is refused.
    pub fn save(&self, alloc: Global) -> Result<Vec<SavedBook>, NoMemory>
        ensures { IfOk result (λ kept. map saved_book kept.items ≡ map saved self.now.books) }
    {
        saved_of(alloc, &self.list)
    }
}

/// The saved form of books, one by one.
#[tactic(auto, using(rsl_book::proofs::Callers::stands_steps))]
fn saved_of(alloc: Global, books: &[Book]) -> Result<Vec<SavedBook>, NoMemory>
    ensures { IfOk result (λ kept. map saved_book kept.items ≡ map saved books.now) }
{
    let mut kept = Vec::with_capacity(alloc, books.len())?;
    for book in books {
        kept.push(book.save(alloc)?)?;
    }
    Ok(kept)
}
