//! The books that go on when other accounts take the place of the present ones.

ghost use Rattle.std.specs.Prelude.{◌≡◌, IfOk, IfSome, IsOkUnless, None, OnOk, map};
ghost use Rattle.std.specs.Option.{option_and_then, option_map};
ghost use Rattle.rsl_accounts.specs.Configuration.{account_number};
ghost use Rattle.rsl_accounts.specs.Limits.{RulesFit};
ghost use Rattle.rsl_book.specs.Restored.{misfit, saved};
ghost use Rattle.rsl_session.specs.Saved.{saved_book};
ghost use Rattle.rld_books.specs.Saved.{IsFit, IsServerOf, book_in, server_misfit};
ghost use Rattle.rld_spelling.specs.Tables.{table_of};
ghost use Rattle.rld_books.specs.Admitted.{AreAdmitted};
ghost use Rattle.rld_books.specs.Begun.{begun_book, begun_by_all};

use crate::carry::{carry, new_saved};
use crate::clients::next_numbers;
use crate::{BlankBooks, ServerBooks, ServerFault};
use rsl_accounts::{Config, Entry};
use rsl_session::SavedBook;
use rsl_wire::NoMemory;
use std::alloc::Global;

/// A change of the accounts: both configurations, and the books of the first.
#[derive(Drop)]
struct Passage<'a> {
    /// The accounts that were there.
    old: &'a Config,
    /// Their books.
    books: &'a ServerBooks,
    /// Those that follow.
    new: &'a Config,
    /// The number of each client after the change.
    numbers: &'a [Option<u32>],
}

impl Passage<'_> {
    /// The saved form of the book of a name.
    fn kept(&self, alloc: Global, name: &[u8]) -> Result<Option<SavedBook>, NoMemory>
        ensures saved { IfOk result (λ kept. option_map saved_book kept ≡ option_map saved
            (option_and_then (book_in self.now.books.now) (account_number self.now.old.now name.now))) }
        ensures fits { IfSome
            (option_and_then (book_in self.now.books.now) (account_number self.now.old.now name.now)) IsFit }
    {
        match self.old.account(name) {
            Some(account) => self.books.save_book(alloc, account),
            None => Ok(None),
        }
    }

    /// The book with which an account begins.
    fn book_of(&self, alloc: Global, entry: &Entry) -> Result<SavedBook, NoMemory>
        requires { RulesFit entry.now.rules }
        ensures begun { IfOk result (λ made. saved_book made ≡ begun_book self.now.numbers.now
            self.now.old.now self.now.books.now entry.now) }
        ensures fits { misfit entry.now.rules (begun_book self.now.numbers.now
            self.now.old.now self.now.books.now entry.now) ≡ None }
    {
        match self.kept(alloc, entry.name.as_bytes())? {
            Some(kept) => carry(alloc, self.numbers, &entry.rules, &kept),
            None => Ok(new_saved(alloc)),
        }
    }

    /// The books with which all accounts begin, in the order of their numbers.
    fn all_books(&self, alloc: Global) -> Result<Vec<SavedBook>, NoMemory>
        ensures begun { IfOk result (λ kept. map saved_book kept.items ≡ begun_by_all self.now.numbers.now
            self.now.old.now self.now.books.now self.now.new.now) }
        ensures fit { OnOk result (server_misfit self.now.new.now (begun_by_all self.now.numbers.now
            self.now.old.now self.now.books.now self.now.new.now) ≡ None) }
    {
        let mut kept = Vec::with_capacity(alloc, self.new.accounts() as usize)?;
        for account in 0..self.new.accounts() {
            kept.push(self.book_of(alloc, self.new.entry(account))?)?;
        }
        Ok(kept)
    }
}

/// The books of a configuration that takes the place of another one with these books, carried over
/// by the names of accounts and the addresses of clients.
///
/// Each account that is still there keeps its clock, its accept numbers, its links with their last
/// touches, the asks and stops that it keeps, and its counts, except what is of a client that is
/// gone. Links that find no place under the account's rules, in the order in which they opened, are
/// left out; their sessions are over, like any that find no place. Every other account begins with
/// a new book. Keep the boot number, so that accept numbers in Class attributes name the same
/// reservations. Blank books that were made for the new accounts are used up.
///
/// `NoMemory` comes if memory is refused, and no other fault (`laws::carried_books_fit`). The former
/// books stay as they are.
pub fn admit(
    alloc: Global,
    old: &Config,
    books: &ServerBooks,
    new: &Config,
    blanks: BlankBooks,
) -> Result<ServerBooks, ServerFault>
    ensures server { IfOk result (λ made. IsServerOf new.now made) }
    ensures admitted { IfOk result (λ made.
        AreAdmitted (table_of old.now) books.now (table_of new.now) made) }
    ensures memory { IsOkUnless result ServerFault.NoMemory }
{
    let numbers = next_numbers(alloc, old, new)?;
    let passage = Passage {
        old,
        books,
        new,
        numbers: numbers.as_slice(),
    };
    let kept = passage.all_books(alloc)?;
    let made = ServerBooks::restore_in(alloc, new, blanks, kept.as_slice())?;
    Ok(made)
}
