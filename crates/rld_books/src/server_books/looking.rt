//! Look-ups in the books.

ghost use Rattle.std.specs.Prelude.{◌≡◌, IfNone, IfOk, IfSome, None, Some, ◌≤◌, ◌⊎◌, length};
ghost use Rattle.std.specs.Option.{option_map};
ghost use Rattle.rld_books.specs.Clocks.{IsGreatestClock, clock_in};
ghost use Rattle.rld_books.specs.Saved.{IsFit, book_in, links_in, rows_in};
ghost use Rattle.rsl_book.specs.Restored.{saved};
ghost use Rattle.rsl_session.specs.Saved.{saved_book, saved_links};

use crate::server_books::ServerBooks;
use rsl_accounts::Config;
use rsl_book::Book;
use rsl_session::{SavedBook, SavedLink};
use rsl_shard::Row;
use rsl_wire::NoMemory;
use std::alloc::Global;

/// The rows of the accounts of these books, in the order of their numbers.
fn rows_of(alloc: Global, books: &[Book]) -> Result<Vec<Row>, NoMemory>
    requires { length books.now ≤ 16384 }
    ensures { IfOk result (λ rows. rows.items ≡ rows_in books.now) }
{
    let mut rows = Vec::with_capacity(alloc, books.len())?;
    let mut account = 0;
    for book in books {
        rows.push(Row::of(account, book))?;
        account += 1;
    }
    Ok(rows)
}

/// The later of two moments.
fn later(one: u64, other: u64) -> u64
    ensures first { one ≤ result }
    ensures second { other ≤ result }
    ensures which { (result ≡ one) ⊎ (result ≡ other) }
{
    if one < other { other } else { one }
}

impl ServerBooks {
    /// The book of an account, if there is such an account.
    fn book(&self, account: u32) -> Option<&Book>
        ensures some { IfSome result (λ book. book_in self.now account ≡ Some book.now) }
        ensures none { IfNone result (book_in self.now account ≡ None) }
    {
        self.list.get(account as usize)
    }

    /// The clock of the book of an account, or 0 if there is no such account.
    fn clock_of(&self, account: u32) -> u64
        ensures { result ≡ clock_in self.now account }
    {
        match self.book(account) {
            Some(book) => book.now(),
            None => 0,
        }
    }

    /// The greatest clock of the books of a configuration's accounts, in seconds since 1970; 0 if
    /// none has had an event.
    pub fn clock(&self, config: &Config) -> u64
        ensures { IsGreatestClock self.now (length config.now.accounts) result }
    {
        let mut most = 0;
        for account in 0..config.accounts() {
            most = later(most, self.clock_of(account));
        }
        most
    }

    /// What each account holds, in the order of their numbers. It fails only if memory is refused.
    pub fn rows(&self, alloc: Global) -> Result<Vec<Row>, NoMemory>
        ensures { IfOk result (λ rows. rows.items ≡ rows_in self.now) }
    {
        rows_of(alloc, &self.list)
    }

    /// The saved form of the book of an account; `None` if there is no such account. It fails only
    /// if memory is refused.
    pub fn save_book(&self, alloc: Global, account: u32) -> Result<Option<SavedBook>, NoMemory>
        ensures saved { IfOk result (λ kept.
            option_map saved_book kept ≡ option_map saved (book_in self.now account)) }
        ensures fits { IfSome (book_in self.now account) IsFit }
    {
        let Some(book) = self.book(account) else {
            return Ok(None);
        };
        Ok(Some(book.save(alloc)?))
    }

    /// The links of an account, in the order in which they opened; `None` if there is no such
    /// account. It fails only if memory is refused.
    pub fn links(&self, alloc: Global, account: u32) -> Result<Option<Vec<SavedLink>>, NoMemory>
        ensures { IfOk result (λ links.
            option_map (λ some. saved_links some.items) links ≡ links_in self.now account) }
    {
        let Some(book) = self.book(account) else {
            return Ok(None);
        };
        let SavedBook { links, .. } = book.save(alloc)?;
        Ok(Some(links))
    }
}
