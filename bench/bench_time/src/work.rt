use crate::events::{Size, Work, mixed, tick_of};
use rsl_accounts::Rules;
use rsl_book::Book;
use rsl_wire::NoMemory;
use std::alloc::Global;

/// What stands before the name of a work whose events are made, and handed to no book.
const MAKING: &str = "making-";

/// What the book shows once it has done some work `times` times. There is none where the work has
/// no such name, or the account is no account.
pub(crate) fn shown_after(
    alloc: Global,
    work: &str,
    size: &Size,
    times: u64,
) -> Result<Option<String>, NoMemory> {
    let rules = size.rules();
    if !rules.fits() {
        return Ok(None);
    }
    let mut book = Book::new(alloc, rules)?;
    for number in 0..size.links {
        let station = match named(work) {
            Some(work) => work.station_of(number),
            None => None,
        };
        let _ = book.apply(size.start(alloc, number, station)?);
    }
    match work {
        "ticks" => pass(&mut book, times),
        "mixed" => mix(alloc, &mut book, times)?,
        "books" => make_books(alloc, rules, times)?,
        name => {
            let Some(work) = named(name) else {
                return Ok(None);
            };
            if name.starts_with(MAKING) {
                make(alloc, size, work, times)?;
            } else {
                turn(alloc, &mut book, size, work, times)?;
            }
        }
    }
    Ok(Some(shown(alloc, &book)?))
}

/// The work of a name, which may be made alone.
fn named(name: &str) -> Option<Work> {
    Work::named(name.strip_prefix(MAKING).unwrap_or(name))
}

/// What a book shows of itself.
fn shown(alloc: Global, book: &Book) -> Result<String, NoMemory> {
    let stored = book.stored();
    Ok(format!(in alloc;
        "now {} held {} reserved {} live {} stale {} over {} links {} kept {} closed {}",
        book.now(),
        book.held(),
        book.reserved(),
        book.live(),
        book.stale(),
        book.over(),
        stored.links,
        stored.kept,
        stored.closed
    )?)
}

/// Hands a book the events of a work.
fn turn(
    alloc: Global,
    book: &mut Book,
    size: &Size,
    work: Work,
    times: u64,
) -> Result<(), NoMemory> {
    for turn in 0..times {
        let _ = book.apply(size.event(alloc, work, turn)?);
    }
    Ok(())
}

/// The events of a work, each let go.
fn make(alloc: Global, size: &Size, work: Work, times: u64) -> Result<(), NoMemory> {
    let mut last = tick_of(0);
    for turn in 0..times {
        last = size.event(alloc, work, turn)?;
    }
    let _ = last;
    Ok(())
}

fn pass(book: &mut Book, times: u64) {
    for turn in 0..times {
        let _ = book.apply(tick_of(turn));
    }
}

fn mix(alloc: Global, book: &mut Book, times: u64) -> Result<(), NoMemory> {
    for turn in 0..times {
        let _ = book.apply(mixed(alloc, turn)?);
    }
    Ok(())
}

/// New books, all kept until the last is made.
fn make_books(alloc: Global, rules: Rules, times: u64) -> Result<(), NoMemory> {
    let mut books = Vec::with_capacity(alloc, times as usize)?;
    for _ in 0..times {
        books.push(Book::new(alloc, rules)?)?;
    }
    Ok(())
}
