//! Tests of books that are cut to a moment.
//!
//! A row has the moments of the first account's book, which are those of its clock, of its link (when
//! it opened, and its last touch), its ask and its stop, and after them the clock of the second
//! account; then the moment that they are cut to. What is expected is the greatest
//! clock before, the moments after, and how many were cut.

use crate::saved::{ask_of, link_of, stop_of};
use crate::steps::config_and_steps;
use rld_books::{CutBooks, ServerBooks};
use rsl_session::SavedBook;
use std::alloc::Global;
use std::test::Fail;
use test_rows::{Subject, check_rows};

/// The accounts.
const HEAD: &str = "client C xyzzy5461/account a pw 1/account b pw 1/";

/// A book that has nothing but this clock.
fn bare(alloc: Global, clock: u64) -> SavedBook {
    SavedBook {
        clock,
        links: Vec::new(alloc),
        accepts: 3,
        asks: Vec::new(alloc),
        stops: Vec::new(alloc),
        over: 4,
    }
}

/// A book with a link, an ask and a stop at these moments.
fn full(
    alloc: Global,
    clock: u64,
    (opened, touched): (u64, u64),
    asked: u64,
    stopped: u64,
) -> Result<SavedBook, Fail> {
    let mut saved = bare(alloc, clock);
    let mut link = link_of(alloc, "m")?;
    link.opened = opened;
    link.touched = touched;
    saved.links.push(link)?;
    let mut ask = ask_of(alloc)?;
    ask.at = asked;
    saved.asks.push(ask)?;
    let mut stop = stop_of(alloc)?;
    stop.at = stopped;
    saved.stops.push(stop)?;
    Ok(saved)
}

/// The moments of a book, one after the other.
fn moments_of(alloc: Global, saved: &SavedBook) -> Result<String, Fail> {
    let mut text = String::new(alloc);
    write!(text, " {}", saved.clock)?;
    for link in saved.links.as_slice() {
        write!(text, " {} {}", link.opened, link.touched)?;
    }
    for ask in saved.asks.as_slice() {
        write!(text, " {}", ask.at)?;
    }
    for stop in saved.stops.as_slice() {
        write!(text, " {}", stop.at)?;
    }
    Ok(text)
}

/// Books that are cut.
struct Cuts;

impl Subject for Cuts {
    fn found(&self, alloc: Global, fields: &[&str]) -> Result<String, Fail> {
        let [clock, opened, touched, asked, stopped, other, now] = fields else {
            return Err("six moments and one")?;
        };
        let (config, _) = config_and_steps(alloc, HEAD, "")?;
        let first = full(
            alloc,
            clock.parse()?,
            (opened.parse()?, touched.parse()?),
            asked.parse()?,
            stopped.parse()?,
        )?;
        let kept = vec![in alloc; first, bare(alloc, other.parse()?)]?;
        let books = ServerBooks::restore(alloc, &config, kept.as_slice())?;
        let greatest = books.clock(&config);
        let CutBooks {
            books: cut,
            moments,
        } = books.cut(alloc, &config, now.parse()?)?;
        let mut text = format!(in alloc; "{greatest}:")?;
        for saved in cut.save(alloc)?.as_slice() {
            write!(text, "{}", moments_of(alloc, saved)?)?;
        }
        write!(text, ", {moments} cut")?;
        Ok(text)
    }
}

#[test]
fn each_later_moment_becomes_the_present(rt: HostRuntime) -> Result<(), Fail> {
    check_rows(
        &rt,
        &Cuts,
        "
all before | 6 | 5 | 4 | 3 | 2 | 1 | 9 | 6: 6 5 4 3 2 1, 0 cut
all now | 9 | 9 | 9 | 9 | 9 | 9 | 9 | 9: 9 9 9 9 9 9, 0 cut
all after | 10 | 11 | 12 | 13 | 14 | 15 | 9 | 15: 9 9 9 9 9 9, 6 cut
a clock alone | 10 | 6 | 9 | 8 | 7 | 9 | 9 | 10: 9 6 9 8 7 9, 1 cut
an opening alone | 9 | 10 | 9 | 8 | 7 | 9 | 9 | 9: 9 9 9 8 7 9, 1 cut
a touch alone, at the end of time | 9 | 6 | 18446744073709551615 | 8 | 7 | 9 | 9 \
    | 9: 9 6 9 8 7 9, 1 cut
an opening and a touch | 9 | 10 | 11 | 8 | 7 | 9 | 9 | 9: 9 9 9 8 7 9, 2 cut
an opening that is not known | 9 | 0 | 10 | 8 | 7 | 9 | 9 | 9: 9 0 9 8 7 9, 1 cut
an ask and a stop | 9 | 9 | 9 | 10 | 11 | 9 | 9 | 9: 9 9 9 9 9 9, 2 cut
the other account alone | 9 | 9 | 9 | 8 | 7 | 12 | 9 | 12: 9 9 9 8 7 9, 1 cut
to the beginning of time | 1 | 1 | 1 | 1 | 0 | 0 | 0 | 1: 0 0 0 0 0 0, 4 cut
",
    )
}
