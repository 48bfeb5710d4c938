//! Moves and books that are written as octets, read again and put back.

use crate::given::Given;
use crate::page::Page;
use crate::printed::{Hex, StoredText};
use crate::shard::move_of;
use crate::stop::Stop;
use rld_spelling::{Counts, push_book, push_number, read_books};
use rsl_accounts::Rules;
use rsl_book::Book;
use rsl_event::Event;
use rsl_shard::Move;
use std::alloc::Global;

/// After how many events a book is written: it has a link of a bundle, then a stop, then a swept ask.
const BOOKS: [usize; 3] = [4, 5, 7];

/// Writes the moves of a script's first account, and its book as it is after each number of them in
/// `BOOKS`. Reads all of it again, and tells what it is.
pub(crate) fn tell<R: Print>(page: &mut Page<R>, given: &Given) -> Result<(), Stop> {
    let config = &*given.config;
    let counts = Counts {
        accounts: config.accounts(),
        clients: config.clients(),
    };
    let events = given.events(page.alloc, 0)?;
    tell_moves(page, counts, &events)?;
    for count in BOOKS {
        let front = &events[..count.min(events.len())];
        tell_book(page, config.entry(0).rules, counts.clients, front)?;
    }
    Ok(())
}

/// Writes the moves of events, and tells their octets, and whether what is read of them is the same.
fn tell_moves<R: Print>(page: &mut Page<R>, counts: Counts, events: &[Event]) -> Result<(), Stop> {
    let alloc = page.alloc;
    let moves = moves_of(alloc, events)?;
    let mut octets = Vec::new(alloc);
    counts.push_moves(&mut octets, &moves)?;
    let read = counts.read_moves(alloc, &octets)?;
    let same = read.as_slice() == moves.as_slice();
    writeln!(
        page.text,
        "moves: {} {}, the same {same}",
        read.len(),
        Hex(&octets)
    )?;
    Ok(())
}

/// The moves of events.
fn moves_of(alloc: Global, events: &[Event]) -> Result<Vec<Move>, Stop> {
    let mut moves = Vec::new(alloc);
    for event in events {
        moves.push(move_of(0, event.try_copy(alloc)?))?;
    }
    Ok(moves)
}

/// Writes the book that events lead to, and tells its octets and what the book that is put back shows.
fn tell_book<R: Print>(
    page: &mut Page<R>,
    rules: Rules,
    clients: u32,
    events: &[Event],
) -> Result<(), Stop> {
    let alloc = page.alloc;
    let book = book_of(alloc, rules, events)?;
    let octets = octets_of_book(alloc, &book, clients)?;
    writeln!(page.text, "book: {}", Hex(&octets))?;
    for saved in &read_books(alloc, &octets, clients)? {
        let back = Book::restore(alloc, rules, saved)?;
        let (stored, held, same) = (back.stored(), back.held(), back.same(&book));
        writeln!(
            page.text,
            "back: {} held {held}, the same {same}",
            StoredText(stored)
        )?;
    }
    Ok(())
}

/// The book that events lead to.
fn book_of(alloc: Global, rules: Rules, events: &[Event]) -> Result<Book, Stop> {
    let mut book = Book::new(alloc, rules)?;
    for event in events {
        let _decision = book.apply_lent(alloc, event)?;
    }
    Ok(book)
}

/// The octets of a snapshot of a book.
fn octets_of_book(alloc: Global, book: &Book, clients: u32) -> Result<Vec<u8>, Stop> {
    let saved = book.save(alloc)?;
    let mut octets = Vec::new(alloc);
    push_number(&mut octets, 1)?;
    push_book(&mut octets, &saved, clients)?;
    Ok(octets)
}
