//! Saving and restoring the books.

ghost use Rattle.std.specs.Prelude.{◌≡◌, ◌≢◌, All, IfErr, IfOk, None, OnOk, Some, map};
ghost use Rattle.std.specs.Option.{option_map};
ghost use Rattle.rld_books.specs.Saved.{IsFit, IsServerOf, saved_server, server_fault, server_misfit};
ghost use Rattle.rsl_accounts.specs.Limits.{RulesFit};
ghost use Rattle.rsl_book.specs.Restored.{misfit, saved};
ghost use Rattle.rsl_session.specs.Saved.{saved_book};

use crate::blank_books::BlankBooks;
use crate::fault::ServerFault;
use crate::server_books::ServerBooks;
use rsl_accounts::{Config, Rules};
use rsl_book::Book;
use rsl_session::SavedBook;
use rsl_wire::NoMemory;
use std::alloc::Global;

/// The saved form of books, one by one.
#[tactic(auto, using(rsl_book::proofs::Callers::stands_steps))]
fn saved_of(alloc: Global, books: &[Book]) -> Result<Vec<SavedBook>, NoMemory>
    ensures saved { IfOk result (λ kept. map saved_book kept.items ≡ map saved books.now) }
    ensures fit { OnOk result (All IsFit books.now) }
{
    let mut kept = Vec::with_capacity(alloc, books.len())?;
    for book in books {
        kept.push(book.save(alloc)?)?;
    }
    Ok(kept)
}

/// The book of an account with these rules, restored in the blank one if there is one.
pub(super) fn restored_book(
    alloc: Global,
    blanks: &mut BlankBooks,
    account: u32,
    rules: Rules,
    kept: &SavedBook,
) -> Result<Book, ServerFault>
    requires { RulesFit rules }
    ensures book { IfOk result (λ book.
        book ≡ record { rules = rules; book = saved_book kept.now }) }
    ensures fits { OnOk result (misfit rules (saved_book kept.now) ≡ None) }
    ensures fault { IfErr result (λ fault. fault ≢ ServerFault.NoMemory →
        option_map server_fault (misfit rules (saved_book kept.now)) ≡ Some fault) }
{
    let blank = blanks.take(alloc, account, rules)?;
    Ok(Book::restore_in(alloc, blank, kept)?)
}

/// The book of each account, restored from that with its number among these.
fn restored_books(
    alloc: Global,
    config: &Config,
    blanks: &mut BlankBooks,
    kept: &[SavedBook],
) -> Result<Vec<Book>, ServerFault>
    ensures server { IfOk result (λ books. IsServerOf config.now books.items) }
    ensures saved { IfOk result (λ books. saved_server books.items ≡ map saved_book kept.now) }
    ensures fits { OnOk result (server_misfit config.now (map saved_book kept.now) ≡ None) }
    ensures fault { IfErr result (λ fault. fault ≢ ServerFault.NoMemory →
        server_misfit config.now (map saved_book kept.now) ≡ Some fault) }
{
    let accounts = config.accounts();
    if kept.len() != accounts as usize {
        return Err(ServerFault::WrongCount);
    }
    let mut books = Vec::new(alloc);
    for account in 0..accounts {
        let rules = config.entry(account).rules;
        books.push(restored_book(alloc, blanks, account, rules, &kept[account as usize])?)?;
    }
    Ok(books)
}

impl ServerBooks {
    /// The saved form of each book, in the order of the accounts' numbers. It fails only if memory is
    /// refused.
    pub fn save(&self, alloc: Global) -> Result<Vec<SavedBook>, NoMemory>
        ensures saved { IfOk result (λ kept. map saved_book kept.items ≡ saved_server self.now) }
        ensures fit { OnOk result (All IsFit self.now) }
    {
        saved_of(alloc, &self.list)
    }

    /// The saved books of a configuration, with all the memory that they will ever use.
    /// `WrongCount` comes if there is not one book of each account, `Misfit` if one cannot be that
    /// of its account, and `NoMemory` if memory is refused.
    pub fn restore(
        alloc: Global,
        config: &Config,
        kept: &[SavedBook],
    ) -> Result<ServerBooks, ServerFault>
        ensures server { IfOk result (λ server. IsServerOf config.now server) }
        ensures saved { IfOk result (λ server. saved_server server ≡ map saved_book kept.now) }
        ensures fits { OnOk result (server_misfit config.now (map saved_book kept.now) ≡ None) }
        ensures fault { IfErr result (λ fault. fault ≢ ServerFault.NoMemory →
            server_misfit config.now (map saved_book kept.now) ≡ Some fault) }
    {
        ServerBooks::restore_in(alloc, config, BlankBooks::none(alloc), kept)
    }

    /// `restore` in blank books, which are used up if they were made for this configuration; then
    /// it allocates only for what the saved ones hold.
    pub fn restore_in(
        alloc: Global,
        config: &Config,
        blanks: BlankBooks,
        kept: &[SavedBook],
    ) -> Result<ServerBooks, ServerFault>
        ensures server { IfOk result (λ server. IsServerOf config.now server) }
        ensures saved { IfOk result (λ server. saved_server server ≡ map saved_book kept.now) }
        ensures fits { OnOk result (server_misfit config.now (map saved_book kept.now) ≡ None) }
        ensures fault { IfErr result (λ fault. fault ≢ ServerFault.NoMemory →
            server_misfit config.now (map saved_book kept.now) ≡ Some fault) }
    {
        // Shows the prover that a configuration has 16,384 accounts at most.
        let _accounts = config.accounts();
        let mut blanks = blanks;
        let list = restored_books(alloc, config, &mut blanks, kept)?;
        Ok(ServerBooks { list })
    }
}
