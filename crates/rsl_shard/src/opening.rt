ghost use Rattle.std.specs.Prelude.{◌≡◌, IfOk, OnErr};
ghost use Rattle.rsl_shard.specs.Opening.{opening_of};
ghost use Rattle.rsl_shard.specs.declared.opening.Opening.TheVariants as opening;

use crate::books::Books;
use rsl_book::Book;
use rsl_wire::NoMemory;
use std::alloc::Global;
use std::mem::replace;

/// The books that a journal begins with.
#[derive(Drop)]
pub(crate) enum Opening {
    /// New books. They are not kept, since they follow from the rules of the present books.
    New,
    /// Kept books, in the order of their accounts' numbers.
    Kept(Vec<Book>),
}

impl Opening {
    /// Hands out the books that a journal began with, and keeps `next` as those of the next
    /// journal. If memory is refused, nothing has changed.
    pub(crate) fn hand_out(
        &mut self,
        alloc: Global,
        present: &Books,
        next: Vec<Book>,
    ) -> Result<Vec<Book>, NoMemory>
        ensures books { IfOk result (λ books.
            books.items ≡ opening_of self.old present.now.books) }
        ensures next { IfOk result (λ _. self.new ≡ opening.Kept next) }
        ensures err { OnErr result (self.new ≡ self.old) }
    {
        match self {
            Opening::New => {
                let books = present.as_new(alloc)?;
                *self = Opening::Kept(next);
                Ok(books)
            }
            Opening::Kept(books) => Ok(replace(books, next)),
        }
    }

    /// The books that a journal began with, given the present ones. It fails only if memory is
    /// refused.
    pub(crate) fn into_books(self, alloc: Global, present: Books) -> Result<Vec<Book>, NoMemory>
        ensures { IfOk result (λ books. books.items ≡ opening_of self present.books) }
    {
        match self {
            Opening::New => present.into_new(alloc),
            Opening::Kept(books) => Ok(books),
        }
    }
}
