//! The greatest account with all of its links open, twice.

use rsl_accounts::Rules;
use rsl_book::Book;
use rsl_event::{Act, Event, Nas, NasName};
use rsl_wire::{NoMemory, Octets};
use std::alloc::Global;

/// The links of 64 places with 16 ports.
const LINKS: u64 = 1024;

/// The links of a place, which share a bundle.
const PORTS: u64 = 16;

/// A book that has not come to what it should, after what was done with it.
#[derive(Clone, Copy, Debug, PartialEq, Eq)]
pub(crate) struct Wrong {
    /// What was done last.
    after: &'static str,
    /// The link with which it was done, by its number, or how many there are.
    link: u64,
}

/// The first thing that is wrong where all links open, and end one after the other by stops; and
/// then open once more, and end at once by a tick.
pub(crate) fn wrong_when_filled_twice(alloc: Global) -> Result<Option<Wrong>, NoMemory> {
    let rules = Rules {
        places: LINKS / PORTS,
        ports: PORTS,
        reserve: 60,
        live: 900,
        grace: 900,
        closed: 3600,
        keep: 10,
    };
    let mut book = Book::new(alloc, rules)?;
    if let Some(wrong) = wrong_in_filling(alloc, &mut book, 0)? {
        return Ok(Some(wrong));
    }
    if let Some(wrong) = wrong_in_emptying(alloc, &mut book)? {
        return Ok(Some(wrong));
    }
    if let Some(wrong) = wrong_in_filling(alloc, &mut book, 4000)? {
        return Ok(Some(wrong));
    }
    book.tick(5799);
    if !shows(&book, LINKS) {
        return Ok(wrong_after("a tick before the deadline", LINKS));
    }
    book.tick(5800);
    if !shows(&book, 0) {
        return Ok(wrong_after("a tick at the deadline", LINKS));
    }
    Ok(None)
}

/// That a book is wrong after this.
fn wrong_after(after: &'static str, link: u64) -> Option<Wrong> {
    Some(Wrong { after, link })
}

/// Whether a book has this many links, in bundles that are full but for the last.
fn shows(book: &Book, links: u64) -> bool {
    book.stored().links as u64 == links && book.held() == links.div_ceil(PORTS)
}

/// The first thing that is wrong where each link opens, and one more is over.
fn wrong_in_filling(
    alloc: Global,
    book: &mut Book,
    moment: u64,
) -> Result<Option<Wrong>, NoMemory> {
    let over = book.over();
    for link in 0..LINKS {
        let _ = book.apply(alive(alloc, moment, link)?);
        if !shows(book, link + 1) || book.over() != over {
            return Ok(wrong_after("the alive of a link", link));
        }
    }
    let _ = book.apply(alive(alloc, moment, LINKS)?);
    if !shows(book, LINKS) || book.over() <= over {
        return Ok(wrong_after("the alive of one link more", LINKS));
    }
    Ok(None)
}

/// The first thing that is wrong where each link ends by its stop.
fn wrong_in_emptying(alloc: Global, book: &mut Book) -> Result<Option<Wrong>, NoMemory> {
    for link in 0..LINKS {
        let act = Act::Stop {
            nas: nas_of(alloc, link)?,
            session: session_of(alloc, link)?,
        };
        let _ = book.apply(Event { moment: 1, act });
        if book.stored().links as u64 != LINKS - 1 - link {
            return Ok(wrong_after("the stop of a link", link));
        }
    }
    if !shows(book, 0) {
        return Ok(wrong_after("the last stop", LINKS - 1));
    }
    Ok(None)
}

/// The alive of a link by its number.
fn alive(alloc: Global, moment: u64, link: u64) -> Result<Event, NoMemory> {
    let act = Act::Alive {
        nas: nas_of(alloc, link)?,
        session: session_of(alloc, link)?,
        bundle: Some(Octets::from_slice(alloc, b"m")?),
        class: None,
        station: None,
    };
    Ok(Event { moment, act })
}

/// The access server of a link's bundle.
fn nas_of(alloc: Global, link: u64) -> Result<Nas, NoMemory> {
    Ok(Nas {
        client: 0,
        name: NasName::Identifier(Octets::from_slice(alloc, &(link / PORTS).to_be_bytes())?),
    })
}

/// The session of a link at its access server.
fn session_of(alloc: Global, link: u64) -> Result<Octets, NoMemory> {
    Octets::from_slice(alloc, &(link % PORTS).to_be_bytes())
}
