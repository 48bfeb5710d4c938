//! Random books that are saved and put back.

use super::draw::Draw;
use rsl_accounts::Rules;
use rsl_book::{Book, RestoreFault};
use rsl_session::{SavedBook, SavedLink};
use rsl_wire::NoMemory;
use std::alloc::Global;

/// How many of the saved books had what each of these says.
#[derive(Clone, Copy, Debug)]
pub(crate) struct Held {
    /// A link that is in a bundle.
    pub bundled: u64,
    /// A link that was not touched at the clock.
    pub untouched: u64,
    /// A link that was touched after it opened.
    pub renewed: u64,
    /// A link that has a station.
    pub stationed: u64,
    /// An ask or a stop whose access server was swept since.
    pub swept: u64,
    /// An alive that was over.
    pub over: u64,
}

impl Held {
    /// Of no book.
    pub(crate) fn none() -> Held {
        Held {
            bundled: 0,
            untouched: 0,
            renewed: 0,
            stationed: 0,
            swept: 0,
            over: 0,
        }
    }

    /// The least of these.
    pub(crate) fn least(&self) -> u64 {
        self.bundled
            .min(self.untouched)
            .min(self.renewed)
            .min(self.stationed)
            .min(self.swept)
            .min(self.over)
    }

    /// Notes what a saved book has.
    fn note(&mut self, saved: &SavedBook) {
        for link in &saved.links {
            self.note_link(link, saved.clock);
        }
        for ask in &saved.asks {
            self.swept = self.swept.saturating_add(u64::from(ask.swept));
        }
        for stop in &saved.stops {
            self.swept = self.swept.saturating_add(u64::from(stop.swept));
        }
        self.over = self.over.saturating_add(u64::from(saved.over > 0));
    }

    /// Notes what a link of a book at this clock has.
    fn note_link(&mut self, link: &SavedLink, clock: u64) {
        let (is_bundled, is_stationed) = (link.bundle.is_some(), link.station.is_some());
        let (is_untouched, is_renewed) = (link.touched != clock, link.opened != link.touched);
        self.bundled = self.bundled.saturating_add(u64::from(is_bundled));
        self.stationed = self.stationed.saturating_add(u64::from(is_stationed));
        self.untouched = self.untouched.saturating_add(u64::from(is_untouched));
        self.renewed = self.renewed.saturating_add(u64::from(is_renewed));
    }
}

/// What is wrong with a book that is put back after `events` events that are drawn, if anything is:
/// it must be the same, be saved the same, and go on the same over as many events more.
pub(crate) fn wrong_when_put_back(
    alloc: Global,
    draw: &mut Draw,
    held: &mut Held,
    events: u64,
) -> Result<Option<&'static str>, NoMemory> {
    draw.begin();
    let rules = draw.rules();
    let mut book = Book::new(alloc, rules)?;
    for _ in 0..events {
        let _ = book.apply(draw.event(alloc, &rules)?);
    }
    let saved = book.save(alloc)?;
    held.note(&saved);
    let back = match Book::restore(alloc, rules, &saved) {
        Ok(back) => back,
        Err(RestoreFault::NoMemory) => return Err(NoMemory),
        Err(_) => return Ok(Some("it is refused")),
    };
    if back.save(alloc)? != saved {
        return Ok(Some("it is saved otherwise"));
    }
    wrong_after(alloc, draw, &rules, book, back, events)
}

/// What is wrong with a book that was put back, and goes on over events beside the one that was
/// saved.
fn wrong_after(
    alloc: Global,
    draw: &mut Draw,
    rules: &Rules,
    book: Book,
    back: Book,
    events: u64,
) -> Result<Option<&'static str>, NoMemory> {
    let mut book = book;
    let mut back = back;
    if !back.same(&book) {
        return Ok(Some("it is another book"));
    }
    for _ in 0..events {
        let event = draw.event(alloc, rules)?;
        if book.apply(event.try_copy(alloc)?) != back.apply(event) {
            return Ok(Some("it decides otherwise"));
        }
    }
    if back.same(&book) {
        return Ok(None);
    }
    Ok(Some("it goes on otherwise"))
}
