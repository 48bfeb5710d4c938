ghost use Rattle.std.specs.Prelude.{◌≡◌, ◌++◌, IfOk, OnOk, Some};
ghost use Rattle.rsl_accounts.specs.Limits.{RulesFit};
ghost use Rattle.rsl_session.specs.BookStep.{step};
ghost use Rattle.rsl_session.specs.Saved.{saved_book, saved_links};
ghost use Rattle.rld_export.specs.Sessions.{ends_at, found, gone, held_at, silent, still, why_of};

use crate::looking::{found, push_gone, push_silent, still};
use crate::session::{End, Ended, Held, Why};
use rsl_accounts::Rules;
use rsl_book::Book;
use rsl_event::Event;
use rsl_session::{SavedBook, SavedLink};
use rsl_wire::NoMemory;
use std::alloc::Global;

/// An account that is followed.
#[derive(Drop)]
pub(crate) struct Account {
    /// Its running book.
    pub(crate) book: Book,
    /// The sessions that it holds.
    pub(crate) held: Vec<Held>,
}

/// The sessions that are held at a look at these links, at a clock, of those that were held before,
/// whose ends are added.
#[tactic(auto, using(std::proofs::Common::append_assoc))]
fn look(
    alloc: Global,
    out: &mut Vec<Ended>,
    rules: Rules,
    end: End,
    links: &[SavedLink],
    helds: &[Held],
) -> Result<Vec<Held>, NoMemory>
    requires { RulesFit rules }
    ensures held { IfOk result (λ held. held.items
        ≡ found (Some end.at) (still rules end.at helds.now) (saved_links links.now)) }
    ensures ends { OnOk result (out.new.items ≡ out.old.items ++ (silent rules end.at helds.now
        ++ gone end (saved_links links.now) (still rules end.at helds.now))) }
{
    push_silent(alloc, out, rules, end.at, helds)?;
    let rest = still(alloc, rules, end.at, helds)?;
    push_gone(alloc, out, end, links, &rest)?;
    found(alloc, Some(end.at), &rest, links)
}

/// The same, at a look at a book that was saved.
#[tactic(auto, unfolding(crate::specs::Sessions::ends_at, crate::specs::Sessions::held_at, rsl_session::specs::Saved::saved_book))]
fn looked_at(
    alloc: Global,
    out: &mut Vec<Ended>,
    rules: Rules,
    book: &SavedBook,
    why: Why,
    helds: &[Held],
) -> Result<Vec<Held>, NoMemory>
    requires { RulesFit rules }
    ensures held { IfOk result (λ held. held.items ≡ held_at rules (saved_book book.now) helds.now) }
    ensures ends { OnOk result (out.new.items ≡ out.old.items
        ++ ends_at rules (saved_book book.now) why helds.now) }
{
    let end = End {
        at: book.clock,
        why,
    };
    look(alloc, out, rules, end, &book.links, helds)
}

impl Account {
    /// Steps the book by an event, and looks at it: adds the ends that it finds.
    pub(crate) fn step(
        &mut self,
        alloc: Global,
        out: &mut Vec<Ended>,
        event: Event,
    ) -> Result<(), NoMemory>
        ensures rules { self.new.book.rules ≡ self.old.book.rules }
        ensures book { self.new.book.book ≡ (step self.old.book.rules self.old.book.book event).0 }
        ensures held { OnOk result (self.new.held.items
            ≡ held_at self.old.book.rules self.new.book.book self.old.held.items) }
        ensures ends { OnOk result (out.new.items ≡ out.old.items
            ++ ends_at self.old.book.rules self.new.book.book (why_of event.act) self.old.held.items) }
    {
        let why = Why::of(&event.act);
        self.book.apply(event);
        let saved = self.book.save(alloc)?;
        self.held = looked_at(alloc, out, self.book.rules(), &saved, why, &self.held)?;
        Ok(())
    }

    /// Ends the sessions that have lapsed by a clock.
    pub(crate) fn lapse(
        &mut self,
        alloc: Global,
        out: &mut Vec<Ended>,
        now: u64,
    ) -> Result<(), NoMemory>
        ensures book { self.new.book ≡ self.old.book }
        ensures held { OnOk result (self.new.held.items
            ≡ still self.old.book.rules now self.old.held.items) }
        ensures ends { OnOk result (out.new.items ≡ out.old.items
            ++ silent self.old.book.rules now self.old.held.items) }
    {
        let rules = self.book.rules();
        push_silent(alloc, out, rules, now, &self.held)?;
        self.held = still(alloc, rules, now, &self.held)?;
        Ok(())
    }
}
