//! Saving and restoring a book.

ghost use Rattle.std.specs.Prelude.{◌≡◌, ◌≢◌, ◌<◌, ◌≤◌, [], ◌∷◌, ◌++◌, IfErr, IfOk, IsTrue, IsFalse, None, Ok, Err, length, take};
ghost use Rattle.rsl_accounts.specs.Limits.{RulesFit};
ghost use Rattle.rsl_event.specs.declared.nas.Nas.{Nas};
ghost use Rattle.rsl_session.specs.Places.{places_of};
ghost use Rattle.rsl_session.specs.Book.{bundles_in, new_book};
ghost use Rattle.rsl_links.specs.Seen.{holder_at};
ghost use Rattle.rsl_session.specs.Saved.{saved_book, saved_holder, saved_link, saved_links};
ghost use Rattle.rsl_book.specs.RuledBook.{IsWithinLimit};
ghost use Rattle.rsl_book.specs.Restored.{misfit, restored, saved};

use crate::book::Book;
use crate::kept::{DecidedAsk, EndedSession, Kept};
use crate::restore_fault::RestoreFault;
use crate::saving::{saved_asks, saved_links, saved_stops};
use crate::table::index_for;
use rsl_accounts::Rules;
use rsl_event::Nas;
use rsl_links::Holder;
use rsl_session::{KEPT_ASKS, KEPT_STOPS, KeptAsk, KeptStop, SavedBook, SavedHolder, SavedLink};
use rsl_wire::{NoMemory, Octets};
use std::alloc::Global;

/// The holder of a saved link.
fn holder_of(alloc: Global, saved: &SavedHolder) -> Result<Holder, NoMemory>
    ensures { IfOk result (λ holder. (nas : Nas) → holder_at nas holder ≡
        saved_holder nas saved.now) }
{
    Ok(match saved {
        SavedHolder::Reserved(number) => Holder::Reserved(*number),
        SavedHolder::Bound(id) => Holder::Bound(id.try_copy(alloc)?),
    })
}

impl Book {
    /// All that the book holds, as plain data for `restore`. It fails only if memory is refused.
    pub fn save(&self, alloc: Global) -> Result<SavedBook, NoMemory>
        ensures saved { IfOk result (λ kept. saved_book kept ≡ saved self.now) }
        ensures fits { misfit self.now.rules self.now.book ≡ None }
    {
        self.open_fit();
        Ok(SavedBook {
            clock: self.clock,
            links: saved_links(alloc, &self.servers, &self.links.list)?,
            accepts: self.accepts,
            asks: saved_asks(alloc, &self.servers, &self.asks)?,
            stops: saved_stops(alloc, &self.servers, &self.stops)?,
            over: self.over,
        })
    }

    /// The book that was saved, under the rules of its account, with all the memory that it will
    /// ever use.
    ///
    /// If no book with these rules can hold it, it is refused with the first of the faults in their
    /// order, and never cut. Nothing checks whether any events lead to it: a link may have been
    /// touched after the clock, and a station may have any length.
    pub fn restore(alloc: Global, rules: Rules, saved: &SavedBook) -> Result<Book, RestoreFault>
        requires { RulesFit rules }
        ensures book { IfOk result (λ book. restored rules (saved_book saved.now) ≡ Ok book) }
        ensures limit { IfOk result (λ book. IsWithinLimit book) }
        ensures fault { IfErr result (λ fault. fault ≢ RestoreFault.NoMemory →
            restored rules (saved_book saved.now) ≡ Err fault) }
    {
        let blank = Book::new(alloc, rules)?;
        Book::restore_in(alloc, blank, saved)
    }

    /// `restore` in a book that was made for the account and has had no event. It allocates only
    /// for names, ids and stations of more than 22 octets.
    pub fn restore_in(alloc: Global, blank: Book, saved: &SavedBook) -> Result<Book, RestoreFault>
        requires { blank ≡ record { rules = blank.rules; book = new_book } }
        ensures book { IfOk result (λ book. restored blank.rules (saved_book saved.now) ≡ Ok book) }
        ensures limit { IfOk result (λ book. IsWithinLimit book) }
        ensures fault { IfErr result (λ fault. fault ≢ RestoreFault.NoMemory →
            restored blank.rules (saved_book saved.now) ≡ Err fault) }
    {
        if saved.asks.len() > KEPT_ASKS {
            return Err(RestoreFault::TooManyAsks);
        }
        if saved.stops.len() > KEPT_STOPS {
            return Err(RestoreFault::TooManyStops);
        }
        let mut book = blank;
        book.set_numbers(saved.clock, saved.accepts, saved.over);
        let fits = book.put_links(alloc, saved.links.as_slice())?;
        if !fits {
            return Err(RestoreFault::TooManyPlaces);
        }
        book.put_asks(alloc, saved.asks.as_slice())?;
        book.put_stops(alloc, saved.stops.as_slice())?;
        book.open_invariant();
        Ok(book)
    }

    /// Shows the prover again that the book fits its rules.
    fn open_fit(&self)
        ensures { misfit self.now.rules self.now.book ≡ None }
    {
        let _stored = self.stored();
        self.open_invariant();
    }

    /// Takes the numbers of a saved book.
    fn set_numbers(&mut self, clock: u64, accepts: u64, over: u64)
        ensures { self.new ≡ record self.old {
          book = record self.old.book { clock = clock; accepts = accepts; over = over };
        } }
    {
        self.clock = clock;
        self.accepts = accepts;
        self.over = over;
    }

    /// Opens a saved link, if the places are then within the limit, and says whether they are.
    fn put_link(&mut self, alloc: Global, saved: &SavedLink) -> Result<bool, NoMemory>
        ensures put { IfOk result (λ fits. IsTrue fits → self.new ≡ record self.old {
          book = record self.old.book {
            links = self.old.book.links ++ saved_link saved.now ∷ [];
          };
        }) }
        ensures full { IfOk result (λ fits. IsFalse fits → self.old.rules.places <
            places_of self.old.rules.ports
            (bundles_in (self.old.book.links ++ saved_link saved.now ∷ []))) }
    {
        let nas = saved.nas.try_copy(alloc)?;
        let holder = holder_of(alloc, &saved.holder)?;
        let bundle = Octets::try_copy_option(alloc, &saved.bundle)?;
        let station = Octets::try_copy_option(alloc, &saved.station)?;
        let (opened, touched) = (saved.opened, saved.touched);
        Ok(self.open_touched(nas, holder, bundle, station, opened, touched))
    }

    /// Opens saved links, if the places are then within the limit, and says whether they are.
    fn put_links(&mut self, alloc: Global, saved: &[SavedLink]) -> Result<bool, NoMemory>
        requires fit { RulesFit self.old.rules }
        requires none { self.old.book.links ≡ [] }
        ensures put { IfOk result (λ fits. IsTrue fits → self.new ≡ record self.old {
          book = record self.old.book {
            links = saved_links saved.now;
          };
        }) }
        ensures full { IfOk result (λ fits. IsFalse fits → self.old.rules.places <
            places_of self.old.rules.ports (bundles_in (saved_links saved.now))) }
    {
        for link in saved {
            let fits = self.put_link(alloc, link)?;
            if !fits {
                return Ok(false);
            }
        }
        Ok(true)
    }

    /// Keeps a saved fresh ask, in front of the others.
    fn put_ask(&mut self, alloc: Global, saved: &KeptAsk) -> Result<(), NoMemory>
        ensures { IfOk result (λ _. self.new ≡ record self.old {
          book = record self.old.book {
            asks = take 8 (saved.now ∷ self.old.book.asks);
          };
        }) }
    {
        let nas = saved.nas.try_copy(alloc)?;
        let nas = index_for(
            &mut self.servers,
            &self.links.list,
            &self.asks,
            &self.stops,
            nas,
        );
        self.asks.push(Kept {
            subject: DecidedAsk {
                key: saved.key,
                decision: saved.decision,
            },
            at: saved.at,
            swept: saved.swept,
            nas,
        });
        Ok(())
    }

    /// Keeps saved fresh asks.
    fn put_asks(&mut self, alloc: Global, saved: &[KeptAsk]) -> Result<(), NoMemory>
        requires none { self.old.book.asks ≡ [] }
        requires few { length saved.now ≤ 8 }
        ensures { IfOk result (λ _. self.new ≡ record self.old {
          book = record self.old.book { asks = saved.now };
        }) }
    {
        for index in (0..saved.len()).rev() {
            self.put_ask(alloc, &saved[index])?;
        }
        Ok(())
    }

    /// Keeps a saved stop, in front of the others.
    fn put_stop(&mut self, alloc: Global, saved: &KeptStop) -> Result<(), NoMemory>
        ensures { IfOk result (λ _. self.new ≡ record self.old {
          book = record self.old.book {
            stops = take 16 (saved.now ∷ self.old.book.stops);
          };
        }) }
    {
        let nas = saved.session.nas.try_copy(alloc)?;
        let id = saved.session.id.try_copy(alloc)?;
        let nas = index_for(
            &mut self.servers,
            &self.links.list,
            &self.asks,
            &self.stops,
            nas,
        );
        self.stops.push(Kept {
            subject: EndedSession { id },
            at: saved.at,
            swept: saved.swept,
            nas,
        });
        Ok(())
    }

    /// Keeps saved stops.
    fn put_stops(&mut self, alloc: Global, saved: &[KeptStop]) -> Result<(), NoMemory>
        requires none { self.old.book.stops ≡ [] }
        requires few { length saved.now ≤ 16 }
        ensures { IfOk result (λ _. self.new ≡ record self.old {
          book = record self.old.book { stops = saved.now };
        }) }
    {
        for index in (0..saved.len()).rev() {
            self.put_stop(alloc, &saved[index])?;
        }
        Ok(())
    }
}
