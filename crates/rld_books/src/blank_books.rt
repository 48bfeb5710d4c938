ghost use Rattle.std.specs.Prelude.{◌≡◌, [], IfOk, map};
ghost use Rattle.rsl_accounts.specs.Limits.{RulesFit};
ghost use Rattle.rsl_session.specs.Book.{new_book};
ghost use Rattle.rld_books.specs.Blank.{AreBlank, blank_book};

use rsl_accounts::{Config, Rules};
use rsl_book::Book;
use rsl_wire::NoMemory;
use std::alloc::Global;
use std::marker::Model;

/// Blank books: books made for the accounts of a configuration that have had no event, each with
/// all the memory that it will ever use. Making them early moves that allocation out of the time in
/// which others wait.
///
/// A contract sees them by the accounts' numbers; `None` if one was taken out.
#[derive(Drop)]
pub struct BlankBooks {
    list: Vec<Option<Book>>,
}

impl Model for BlankBooks {
    ghost use Rattle.std.specs.Prelude.{List, Option};
    ghost use Rattle.rsl_book.specs.RuledBook.{RuledBook};
    ghost use Rattle.rld_books.specs.Blank.{AreBlank};

    ghost Value = { List (Option RuledBook) };

    ghost view = { λ inside. inside.list.items };

    ghost invariant = { λ inside. AreBlank inside.list.items };
}

impl BlankBooks {
    /// No books.
    pub fn none(alloc: Global) -> BlankBooks
        ensures { result ≡ [] }
    {
        BlankBooks {
            list: Vec::new(alloc),
        }
    }

    /// A book of each account. It fails only if memory is refused.
    pub fn new(alloc: Global, config: &Config) -> Result<BlankBooks, NoMemory>
        ensures { IfOk result (λ blanks. blanks ≡ map blank_book config.now.accounts) }
    {
        let mut list = Vec::new(alloc);
        for account in 0..config.accounts() {
            let entry = config.entry(account);
            let book = Book::new(alloc, entry.rules)?;
            list.push(Some(book))?;
        }
        Ok(BlankBooks { list })
    }

    /// Takes out the book of an account with these rules. If there is none, or one with other
    /// rules, it makes one; then it fails only if memory is refused.
    pub(crate) fn take(
        &mut self,
        alloc: Global,
        account: u32,
        rules: Rules,
    ) -> Result<Book, NoMemory>
        requires { RulesFit rules }
        ensures { IfOk result (λ book. book ≡ record { rules = rules; book = new_book }) }
    {
        let index = account as usize;
        if index < self.list.len() {
            if let Some(book) = self.list[index].take() {
                if book.rules() == rules {
                    return Ok(book);
                }
            }
        }
        Book::new(alloc, rules)
    }
}
