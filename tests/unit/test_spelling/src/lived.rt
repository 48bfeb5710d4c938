//! Books that lived: random events of an account, and what its book then holds, there and back.

use crate::draw::{COUNTS, Draw};
use rld_spelling::{push_book, push_number, read_books};
use rsl_accounts::Rules;
use rsl_book::Book;
use rsl_session::SavedBook;
use std::alloc::Global;
use std::test::Fail;

/// The books.
const LIVES: u64 = 10_000; // quick: 100

/// The rules of each of them.
const RULES: Rules = Rules {
    places: 2,
    ports: 2,
    reserve: 30,
    live: 60,
    grace: 60,
    closed: 300,
    keep: 10,
};

/// The book of an account after the next events.
pub(crate) fn lived(alloc: Global, draw: &mut Draw) -> Result<Book, Fail> {
    let mut book = Book::new(alloc, RULES)?;
    let mut moment = 0u64;
    for _ in 0..draw.count() {
        moment = moment.saturating_add(draw.pause());
        let event = draw.event(alloc, moment)?;
        let _decision = book.apply(event);
    }
    Ok(book)
}

/// What is read of a snapshot with one book, after it was written.
fn read_back(alloc: Global, book: &SavedBook) -> Result<Vec<SavedBook>, Fail> {
    let mut octets = Vec::new(alloc);
    push_number(&mut octets, 1)?;
    push_book(&mut octets, book, COUNTS.clients)?;
    Ok(read_books(alloc, &octets, COUNTS.clients)?)
}

/// Whether a book is put back as it was saved.
fn is_put_back(alloc: Global, book: &Book, saved: &SavedBook) -> Result<bool, Fail> {
    let read = read_back(alloc, saved)?;
    let [again] = read.as_slice() else {
        return Err("another number of books")?;
    };
    let back = Book::restore(alloc, RULES, again)?;
    Ok(again == saved && back.same(book) && back.save(alloc)? == *saved)
}

/// What there was in all books, so that none of it was missed.
#[derive(Clone, Copy, Debug)]
struct Seen {
    links: u64,
    stations: u64,
    asks: u64,
    swept: u64,
    stops: u64,
    over: u64,
}

impl Seen {
    fn add(&mut self, book: &SavedBook) {
        let swept = book.asks.iter().filter(|ask| ask.swept).count() as u64;
        let stations = book.links.iter().filter(|link| link.station.is_some());
        self.links = self.links.saturating_add(book.links.len() as u64);
        self.stations = self.stations.saturating_add(stations.count() as u64);
        self.asks = self.asks.saturating_add(book.asks.len() as u64);
        self.swept = self.swept.saturating_add(swept);
        self.stops = self.stops.saturating_add(book.stops.len() as u64);
        self.over = self.over.saturating_add(book.over);
    }
}

#[test]
fn books_that_lived_are_put_back(rt: HostRuntime) -> Result<(), Fail> {
    let mut draw = Draw::new(4);
    let mut seen = Seen {
        links: 0,
        stations: 0,
        asks: 0,
        swept: 0,
        stops: 0,
        over: 0,
    };
    for number in 0..LIVES {
        let book = lived(rt.alloc(), &mut draw)?;
        let saved = book.save(rt.alloc())?;
        let same = is_put_back(rt.alloc(), &book, &saved)?;
        assert!(rt; same, "book {number}");
        seen.add(&saved);
    }
    let least = seen
        .links
        .min(seen.stations)
        .min(seen.asks)
        .min(seen.swept)
        .min(seen.stops)
        .min(seen.over);
    assert!(rt; least > LIVES / 4, "{seen:?}");
    Ok(())
}
