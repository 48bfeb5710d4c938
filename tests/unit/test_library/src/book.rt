//! Tests of `rsl_book`: timelines of an account on one book. A timeline begins with its name and
//! its rules; then each line has an event, the decision on it, and what the book shows after it:
//! `HELD RESERVED LIVE STALE OVER, LINKS KEPT CLOSED`. `17 x EVENT` is 17 events with the numbers
//! from 1 for `*`, and what is told is after the last. What is expected was worked out by hand from
//! the session rule.
//!
//! Each event also goes to a copy of the book that was taken before it, a sweep and a tick there by
//! the calls of their names: the copy stays as it was until then, comes to the same, and goes on as
//! the book.

use rsl_book::Book;
use rsl_event::{Act, Decision, Event};
use std::process::Abort;
use std::test::Fail;
use test_timelines::{event_of, rules_of, text_of};

/// A new book of an account with these rules.
fn book_of<R: AllocGlobal>(rt: &R, rules: &str) -> Result<Book, Fail> {
    let rules = rules_of(rules)?;
    if !rules.fits() {
        return Err(Fail::from("the rules do not fit"));
    }
    Ok(Book::new(rt.alloc(), rules)?)
}

/// What a book shows of itself.
fn shown(book: &Book) -> [u64; 8] {
    let stored = book.stored();
    [
        book.held(),
        book.reserved(),
        book.live(),
        book.stale(),
        book.over(),
        stored.links as u64,
        stored.kept as u64,
        stored.closed as u64,
    ]
}

/// A line with the decision on its event, and what the book shows after it.
fn told<R: AllocGlobal>(
    rt: &R,
    line: &str,
    decision: Decision,
    book: &Book,
) -> Result<String, Fail> {
    let [held, reserved, live, stale, over, links, kept, closed] = shown(book);
    Ok(format!(in rt.alloc();
        "{} -> {decision:?}, {held} {reserved} {live} {stale} {over}, {links} {kept} {closed}",
        text_of(line)
    )?)
}

/// Hands an event to a book, a sweep and a tick by the calls of their names.
fn call(book: &mut Book, event: Event) -> Decision {
    let Event { moment, act } = event;
    match act {
        Act::Sweep { nas, delay } => book.sweep(moment, &nas, delay),
        Act::Tick => book.tick(moment),
        act => return book.apply(Event { moment, act }),
    }
    Decision::Done
}

/// Hands the event of a text to a book and to a copy of it, which then stands for the book.
fn step<R: AllocGlobal + Abort>(rt: &R, book: &mut Book, text: &str) -> Result<Decision, Fail> {
    let before = shown(book);
    let mut copy = book.try_copy(rt.alloc())?;
    let decision = book.apply(event_of(rt, text)?);
    assert_eq!(rt; shown(&copy), before, "{text}: the copy");
    let called = call(&mut copy, event_of(rt, text)?);
    assert_eq!(rt; called, decision, "{text}: by the copy");
    assert_eq!(rt; shown(&copy), shown(book), "{text}: the copy after it");
    *book = copy;
    Ok(decision)
}

/// Hands the events of a line to a book, and gives the decision on the last.
fn decided<R: AllocGlobal + Abort>(rt: &R, book: &mut Book, line: &str) -> Result<Decision, Fail> {
    let Some((times, text)) = text_of(line).split_once(" x ") else {
        return step(rt, book, text_of(line));
    };
    let times: u64 = times.parse()?;
    let mut decision = Decision::Done;
    for number in 0..times {
        let number = format!(in rt.alloc(); "{}", number + 1)?;
        let text = text.replace(rt.alloc(), "*", number.as_str())?;
        decision = step(rt, book, text.as_str())?;
    }
    Ok(decision)
}

/// Goes over each timeline of a text, line by line.
fn check<R: AllocGlobal + Abort>(rt: &R, timelines: &str) -> Result<(), Fail> {
    let mut book = book_of(rt, "")?;
    let mut timeline = String::new(rt.alloc());
    for line in timelines.lines() {
        match line.split_once(": ") {
            Some((name, rules)) => {
                timeline = String::from_str(rt.alloc(), name)?;
                book = book_of(rt, rules)?;
            }
            None => {
                let decision = decided(rt, &mut book, line)?;
                let found = told(rt, line, decision, &book)?;
                assert_eq!(rt; found.as_str(), line, "{}", timeline.as_str());
            }
        }
    }
    Ok(())
}

#[test]
fn a_book_holds_what_the_rule_says(rt: HostRuntime) -> Result<(), Fail> {
    check(&rt, HELD)
}

#[test]
fn a_book_keeps_few_asks_and_stops(rt: HostRuntime) -> Result<(), Fail> {
    check(&rt, KEPT)
}

#[test]
fn a_stale_link_yields_its_place(rt: HostRuntime) -> Result<(), Fail> {
    check(&rt, YIELDED)
}

#[test]
fn a_link_yields_its_place_to_its_station(rt: HostRuntime) -> Result<(), Fail> {
    check(&rt, STATIONED)
}

#[test]
fn a_late_sweep_leaves_what_came_after_the_restart(rt: HostRuntime) -> Result<(), Fail> {
    check(&rt, LATE)
}

const HELD: &str = "\
a second ask hits the limit: places=1
ask 0 n 1 -> Accept(0), 1 1 0 0 0, 1 1 0
ask 0 n 2 -> LimitReject, 1 1 0 0 0, 1 2 0
an account without places: places=0
ask 0 n 1 -> LimitReject, 0 0 0 0 0, 0 1 0
alive 0 n s1 -> Done, 0 0 0 0 1, 0 1 0
a repeat within the keep time: places=1
ask 0 n 1 -> Accept(0), 1 1 0 0 0, 1 1 0
ask 9 n 1 -> Accept(0), 1 1 0 0 0, 1 1 0
ask 10 n 1 -> LimitReject, 1 1 0 0 0, 1 2 0
a reservation lapses at its time: places=1
ask 0 n 1 -> Accept(0), 1 1 0 0 0, 1 1 0
ask 59 n 2 -> LimitReject, 1 1 0 0 0, 1 2 0
ask 60 n 3 -> Accept(1), 1 1 0 0 0, 1 3 0
a late start: places=1
ask 0 n 1 -> Accept(0), 1 1 0 0 0, 1 1 0
alive 1 n s1 class=0 -> Done, 1 0 1 0 0, 1 1 0
stop 2 n s1 -> Done, 0 0 0 0 0, 0 1 1
alive 3 n s1 -> Done, 0 0 0 0 0, 0 1 1
a sweep voids a stop: places=1
stop 0 n s1 -> Done, 0 0 0 0 0, 0 0 1
sweep 1 n -> Done, 0 0 0 0 0, 0 0 1
alive 2 n s1 -> Done, 1 0 1 0 0, 1 0 1
a sweep voids an ask: places=1
ask 0 n 1 -> Accept(0), 1 1 0 0 0, 1 1 0
sweep 1 n -> Done, 0 0 0 0 0, 0 1 0
ask 2 n 1 -> Accept(1), 1 1 0 0 0, 1 2 0
two ports share a place in a bundle: places=2 ports=2
ask 0 n 1 -> Accept(0), 1 1 0 0 0, 1 1 0
alive 1 n s1 multi=m class=0 -> Done, 1 0 1 0 0, 1 1 0
ask 2 n 2 -> Accept(1), 2 1 1 0 0, 2 2 0
alive 3 n s2 multi=m class=1 -> Done, 1 0 2 0 0, 2 2 0
ask 4 n 3 -> Accept(2), 2 1 2 0 0, 3 3 0
alive 5 n s3 multi=m class=2 -> Done, 2 0 3 0 0, 3 3 0
ask 6 n 4 -> LimitReject, 2 0 3 0 0, 3 4 0
stop 7 n s1 -> Done, 1 0 2 0 0, 2 4 1
ask 8 n 5 -> Accept(3), 2 1 2 0 0, 3 5 1
a session joins a bundle late, and stays in its first: places=2 ports=2
alive 0 n s1 multi=m -> Done, 1 0 1 0 0, 1 0 0
alive 1 n s2 -> Done, 2 0 2 0 0, 2 0 0
alive 2 n s2 multi=m -> Done, 1 0 2 0 0, 2 0 0
alive 3 n s2 multi=k -> Done, 1 0 2 0 0, 2 0 0
an alive over the limit: places=1
alive 0 n1 s1 -> Done, 1 0 1 0 0, 1 0 0
alive 1 n2 s9 -> Done, 1 0 1 0 1, 1 0 0
stop 2 n1 s1 -> Done, 0 0 0 0 1, 0 0 1
alive 3 n2 s9 -> Done, 1 0 1 0 1, 1 0 1
ask 4 n1 1 -> LimitReject, 1 0 1 0 1, 1 1 1
a sweep of one access server: places=2
alive 0 n1 s1 -> Done, 1 0 1 0 0, 1 0 0
alive 1 n2 s1 -> Done, 2 0 2 0 0, 2 0 0
sweep 2 n1 -> Done, 1 0 1 0 0, 1 0 0
ask 3 n2 1 -> Accept(0), 2 1 1 0 0, 2 1 0
ask 4 n2 2 -> LimitReject, 2 1 1 0 0, 2 2 0
a clock that does not fall: places=2
ask 100 n 1 -> Accept(0), 1 1 0 0 0, 1 1 0
ask 50 n 2 -> Accept(1), 2 2 0 0 0, 2 2 0
ask 110 n 3 -> LimitReject, 2 2 0 0 0, 2 3 0
ask 160 n 4 -> Accept(2), 1 1 0 0 0, 1 4 0
the greatest moment: places=1
ask 18446744073709551615 n 1 -> Accept(0), 1 1 0 0 0, 1 1 0
ask 0 n 2 -> LimitReject, 1 1 0 0 0, 1 2 0
the lowest reservation is taken, and the other lapses: places=2
ask 0 n 1 -> Accept(0), 1 1 0 0 0, 1 1 0
ask 30 n 2 -> Accept(1), 2 2 0 0 0, 2 2 0
alive 50 n s1 -> Done, 2 1 1 0 0, 2 2 0
tick 60 -> Done, 2 1 1 0 0, 2 2 0
tick 90 -> Done, 1 0 1 0 0, 1 2 0
alive 91 n s2 class=1 -> Done, 2 0 2 0 0, 2 2 0
a session grows stale, and lapses: places=1
alive 0 n s1 -> Done, 1 0 1 0 0, 1 0 0
tick 899 -> Done, 1 0 1 0 0, 1 0 0
tick 900 -> Done, 1 0 0 1 0, 1 0 0
tick 1800 -> Done, 0 0 0 0 0, 0 0 0";

const KEPT: &str = "\
the last 8 asks: places=16
8 x ask 0 n * -> Accept(7), 8 8 0 0 0, 8 8 0
ask 1 n 1 -> Accept(0), 8 8 0 0 0, 8 8 0
the ninth ask back: places=16
9 x ask 0 n * -> Accept(8), 9 9 0 0 0, 9 8 0
ask 1 n 1 -> Accept(9), 10 10 0 0 0, 10 8 0
ask 1 n 2 -> Accept(10), 11 11 0 0 0, 11 8 0
ask 1 n 9 -> Accept(8), 11 11 0 0 0, 11 8 0
the last 16 stops: places=1
16 x stop 0 n s* -> Done, 0 0 0 0 0, 0 0 16
alive 1 n s1 -> Done, 0 0 0 0 0, 0 0 16
the seventeenth stop back: places=1
17 x stop 0 n s* -> Done, 0 0 0 0 0, 0 0 16
alive 1 n s2 -> Done, 0 0 0 0 0, 0 0 16
alive 1 n s1 -> Done, 1 0 1 0 0, 1 0 16
a stop that is too old: places=1
stop 0 n s1 -> Done, 0 0 0 0 0, 0 0 1
alive 3599 n s1 -> Done, 0 0 0 0 0, 0 0 1
alive 3600 n s1 -> Done, 1 0 1 0 0, 1 0 1
more access servers than a book has room for: places=1
100 x stop 0 n* s -> Done, 0 0 0 0 0, 0 0 16
100 x alive 1 n* t -> Done, 1 0 1 0 99, 1 0 16
100 x ask 2 n* * -> LimitReject, 1 0 1 0 99, 1 8 16
sweep 3 n1 -> Done, 0 0 0 0 99, 0 8 16
alive 4 n100 s -> Done, 0 0 0 0 99, 0 8 16
alive 4 n85 s -> Done, 0 0 0 0 99, 0 8 16
sweep 5 n100 -> Done, 0 0 0 0 99, 0 8 16
alive 6 n84 s -> Done, 1 0 1 0 99, 1 8 16
sweep 7 n84 -> Done, 0 0 0 0 99, 0 8 16
ask 8 n1 99 -> LimitReject, 0 0 0 0 99, 0 8 16
ask 8 n1 100 -> Accept(0), 1 1 0 0 99, 1 8 16";

const STATIONED: &str = "\
a device that dials again: places=1
ask 0 n 1 station=a -> Accept(0), 1 1 0 0 0, 1 1 0
alive 1 n s1 class=0 station=a -> Done, 1 0 1 0 0, 1 1 0
ask 5 n 2 station=a -> Accept(1), 1 1 0 0 0, 1 2 0
alive 6 n s2 class=1 station=a -> Done, 1 0 1 0 0, 1 2 0
alive 7 n s1 class=0 station=a -> Done, 1 0 1 0 1, 1 2 0
one of two devices: places=2
ask 0 n 1 station=a -> Accept(0), 1 1 0 0 0, 1 1 0
ask 1 n 2 station=b -> Accept(1), 2 2 0 0 0, 2 2 0
ask 2 n 3 station=b -> Accept(2), 2 2 0 0 0, 2 3 0
alive 3 n s1 class=0 -> Done, 2 1 1 0 0, 2 3 0
alive 3 n s2 class=1 -> Done, 2 1 1 0 1, 2 3 0
ask 4 n 4 station=c -> LimitReject, 2 1 1 0 1, 2 4 0
ask 4 n 5 -> LimitReject, 2 1 1 0 1, 2 5 0
and not to a repeat: places=1
ask 0 n 1 station=a -> Accept(0), 1 1 0 0 0, 1 1 0
ask 1 n 2 station=a -> Accept(1), 1 1 0 0 0, 1 2 0
ask 2 n 1 station=a -> Accept(0), 1 1 0 0 0, 1 2 0
alive 3 n s2 class=1 -> Done, 1 0 1 0 0, 1 2 0
the one touched longest ago: places=2
alive 0 n s1 station=a -> Done, 1 0 1 0 0, 1 0 0
alive 1 n s2 station=a -> Done, 2 0 2 0 0, 2 0 0
alive 2 n s1 -> Done, 2 0 2 0 0, 2 0 0
ask 3 n 1 station=a -> Accept(0), 2 1 1 0 0, 2 1 0
stop 4 n s1 -> Done, 1 1 0 0 0, 1 1 1
the first of those touched longest ago: places=2
alive 0 n s1 station=a -> Done, 1 0 1 0 0, 1 0 0
alive 0 n s2 station=a -> Done, 2 0 2 0 0, 2 0 0
ask 1 n 1 station=a -> Accept(0), 2 1 1 0 0, 2 1 0
stop 2 n s2 -> Done, 1 1 0 0 0, 1 1 1
a link whose station is another since: places=2
alive 0 n s1 station=a -> Done, 1 0 1 0 0, 1 0 0
alive 1 n s1 station=b -> Done, 1 0 1 0 0, 1 0 0
ask 2 n 1 station=a -> Accept(0), 2 1 1 0 0, 2 1 0
ask 3 n 2 station=b -> Accept(1), 2 2 0 0 0, 2 2 0
ask 4 n 3 station=a -> Accept(2), 2 2 0 0 0, 2 3 0
a link that took its station with its session: places=1
ask 0 n 1 station=a -> Accept(0), 1 1 0 0 0, 1 1 0
alive 1 n s1 station=b -> Done, 1 0 1 0 0, 1 1 0
ask 2 n 2 station=a -> LimitReject, 1 0 1 0 0, 1 2 0
ask 3 n 3 station=b -> Accept(1), 1 1 0 0 0, 1 3 0
no link of a bundle that takes its place without it too: places=1 ports=2
alive 0 n s1 multi=m station=a -> Done, 1 0 1 0 0, 1 0 0
alive 0 n s2 multi=m station=a -> Done, 1 0 2 0 0, 2 0 0
ask 1 n 1 station=a -> LimitReject, 1 0 2 0 0, 2 1 0
ask 900 n 2 station=a -> LimitReject, 1 0 0 2 0, 2 2 0
as many stations as links: places=64
64 x ask 0 n * station=d* -> Accept(63), 64 64 0 0 0, 64 8 0
64 x ask 1 m * port=1025 station=d* -> Accept(127), 64 64 0 0 0, 64 8 0
ask 2 n 1 port=1026 station=d65 -> LimitReject, 64 64 0 0 0, 64 8 0
ask 2 n 2 port=1026 station=d64 -> Accept(128), 64 64 0 0 0, 64 8 0";

const LATE: &str = "\
a link that opened since stays: places=2
alive 0 n s1 -> Done, 1 0 1 0 0, 1 0 0
alive 10 n s2 -> Done, 2 0 2 0 0, 2 0 0
sweep 15 n delay=10 -> Done, 1 0 1 0 0, 1 0 0
alive 16 n s2 -> Done, 1 0 1 0 0, 1 0 0
sweep 19 n delay=10 -> Done, 1 0 1 0 0, 1 0 0
sweep 20 n delay=10 -> Done, 0 0 0 0 0, 0 0 0
a stop and an ask since are kept: places=2
stop 0 n s1 -> Done, 0 0 0 0 0, 0 0 1
ask 1 n 1 -> Accept(0), 1 1 0 0 0, 1 1 1
stop 6 n s2 -> Done, 1 1 0 0 0, 1 1 2
ask 6 n 2 -> Accept(1), 2 2 0 0 0, 2 2 2
sweep 9 n delay=5 -> Done, 1 1 0 0 0, 1 2 2
ask 9 n 2 -> Accept(1), 1 1 0 0 0, 1 2 2
ask 9 n 1 -> Accept(2), 2 2 0 0 0, 2 3 2
alive 10 n s2 class=9 -> Done, 2 2 0 0 0, 2 3 2
alive 10 n s1 class=9 -> Done, 2 2 0 0 1, 2 3 2
one of no delay: places=1
alive 5 n s1 -> Done, 1 0 1 0 0, 1 0 0
sweep 5 n delay=0 -> Done, 0 0 0 0 0, 0 0 0
another access server's: places=2
alive 0 n s1 -> Done, 1 0 1 0 0, 1 0 0
sweep 9 m delay=5 -> Done, 1 0 1 0 0, 1 0 0";

const YIELDED: &str = "\
to a fresh ask alone: places=1 live=10 grace=5
alive 0 n s1 -> Done, 1 0 1 0 0, 1 0 0
ask 9 n 1 -> LimitReject, 1 0 1 0 0, 1 1 0
ask 10 n 2 -> Accept(0), 1 1 0 0 0, 1 2 0
alive 11 n s1 class=5 -> Done, 1 1 0 0 1, 1 2 0
and not to a repeat: places=1 live=10 grace=50
alive 0 n s1 -> Done, 1 0 1 0 0, 1 0 0
ask 9 n 1 -> LimitReject, 1 0 1 0 0, 1 1 0
ask 10 n 1 -> LimitReject, 1 0 0 1 0, 1 1 0
ask 10 n 2 -> Accept(0), 1 1 0 0 0, 1 2 0
and not where a place is shared: places=1 ports=2
alive 0 n s1 multi=m -> Done, 1 0 1 0 0, 1 0 0
alive 0 n s2 multi=m -> Done, 1 0 2 0 0, 2 0 0
ask 900 n 1 -> LimitReject, 1 0 0 2 0, 2 1 0
the one touched longest ago: places=2 live=10 grace=50
alive 0 n s1 -> Done, 1 0 1 0 0, 1 0 0
alive 1 n s2 -> Done, 2 0 2 0 0, 2 0 0
alive 2 n s1 -> Done, 2 0 2 0 0, 2 0 0
ask 12 n 1 -> Accept(0), 2 1 0 1 0, 2 1 0
alive 12 n s1 -> Done, 2 1 1 0 0, 2 1 0
the first of those touched longest ago: places=2
alive 0 n s1 -> Done, 1 0 1 0 0, 1 0 0
alive 0 n s2 -> Done, 2 0 2 0 0, 2 0 0
ask 900 n 1 -> Accept(0), 2 1 0 1 0, 2 1 0
stop 901 n s2 -> Done, 1 1 0 0 0, 1 1 1";
