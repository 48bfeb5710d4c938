//! Random lists of events, each on a running book and by the session rule that looks back.
//!
//! After each event the book must have decided as the rule does and hold as many places, and a
//! second book, whose sweeps and ticks are calls of their own, must show the same. Random books are
//! also saved and put back, and must be the same and go on the same.

mod account;
mod draw;
mod found;
mod full;
mod saved;

use account::difference;
use draw::Draw;
use found::Found;
use full::wrong_when_filled_twice;
use saved::{Held, wrong_when_put_back};
use std::test::Fail;

/// The lists that are drawn, each with rules of its own.
const LISTS: u64 = 400; // quick: 40

/// The events of a list.
const EVENTS: u64 = 50;

/// How often each kind of outcome comes at least.
const LEAST: u64 = 200; // quick: 20

/// How often a sweep that is told late ends some links and leaves others, at least.
const LEAST_PARTED: u64 = 5; // quick: 1

/// The books that are saved and put back, each with rules of its own.
const BOOKS: u64 = 10_000; // quick: 300

/// How often a saved book has each thing that is easily lost, at least.
const LEAST_SAVED: u64 = 1_000; // quick: 15

#[test]
fn books_decide_as_the_rule_on_random_lists(rt: HostRuntime) -> Result<(), Fail> {
    let mut draw = Draw::new(1);
    let mut found = Found::none();
    for list in 0..LISTS {
        let differing = difference(rt.alloc(), &mut draw, &mut found, EVENTS)?;
        assert_eq!(rt; differing, None, "list {list}");
    }
    assert!(rt; found.least() >= LEAST, "too few of a kind: {found}");
    assert!(rt;
        found.parted() >= LEAST_PARTED,
        "too few late sweeps that part links: {found}"
    );
    Ok(())
}

#[test]
fn all_links_of_the_greatest_account_open_and_end_twice(rt: HostRuntime) -> Result<(), Fail> {
    assert_eq!(rt; wrong_when_filled_twice(rt.alloc())?, None);
    Ok(())
}

#[test]
fn random_books_are_put_back_as_they_were(rt: HostRuntime) -> Result<(), Fail> {
    let mut draw = Draw::new(2);
    let mut held = Held::none();
    for book in 0..BOOKS {
        let wrong = wrong_when_put_back(rt.alloc(), &mut draw, &mut held, book % 40)?;
        assert_eq!(rt; wrong, None, "book {book}");
    }
    assert!(rt; held.least() >= LEAST_SAVED, "too few of a kind: {held:?}");
    Ok(())
}
