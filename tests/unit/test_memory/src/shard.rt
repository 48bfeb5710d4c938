//! A shard that takes the events of one account.

use crate::given::Given;
use crate::page::Page;
use crate::printed::{RowText, RowTexts, StoredText};
use crate::stop::Stop;
use rsl_book::Stored;
use rsl_event::{Act, Event};
use rsl_shard::{Move, Row, Shard};
use std::fmt;

/// What is seen of a shard of one account.
#[derive(Clone, Copy, PartialEq, Eq)]
struct Seen {
    moves: usize,
    total: u64,
    /// What its book shows, stores and has for a clock.
    book: Option<(Row, Stored, u64)>,
}

impl fmt::Display for Seen {
    fn fmt<W: fmt::Write>(&self, f: &mut fmt::Formatter<W>) -> fmt::Result {
        write!(
            f,
            "Seen {{ moves: {}, total: {}, book: ",
            self.moves, self.total
        )?;
        match &self.book {
            Some((row, stored, now)) => {
                write!(
                    f,
                    "Some(({}, {}, {now})) }}",
                    RowText(row),
                    StoredText(*stored)
                )
            }
            None => f.write_str("None }"),
        }
    }
}

/// What is seen of a shard.
fn look_at(shard: &Shard) -> Result<Seen, Stop> {
    Ok(Seen {
        moves: shard.moves(),
        total: shard.total(),
        book: shard
            .book(0)
            .map(|book| (Row::of(0, book), book.stored(), book.now())),
    })
}

/// Gives the events of a script's first account to a shard, cuts it in their midst, and tells what is
/// seen of it after each call.
pub(crate) fn tell<R: Print>(page: &mut Page<R>, given: &Given) -> Result<(), Stop> {
    let alloc = page.alloc;
    let events = given.events(alloc, 0)?;
    let mut shard = Shard::new(alloc, &*given.config, 0)?;
    for (index, event) in events.iter().enumerate() {
        if index == events.len() / 2 {
            cut(page, &mut shard)?;
        }
        step(page, &mut shard, event)?;
    }
    let rows = page.insist("rows", &mut shard, look_at, |shard| Ok(shard.rows(alloc)?))?;
    writeln!(page.text, "rows: {}", RowTexts(&rows))?;
    copy_book(page, &mut shard)
}

/// Makes a move of the first account in the shard.
fn step<R: Print>(page: &mut Page<R>, shard: &mut Shard, event: &Event) -> Result<(), Stop> {
    let alloc = page.alloc;
    let decision = page.insist("step", shard, look_at, |shard| {
        Ok(shard.step(alloc, move_of(0, event.try_copy(alloc)?))?)
    })?;
    writeln!(page.text, "step: {decision:?} {}", look_at(shard)?)?;
    Ok(())
}

/// The move of an event of an account.
pub(crate) fn move_of(account: u32, event: Event) -> Move {
    let Event { moment, act } = event;
    match act {
        Act::Sweep { nas, delay } => Move::Sweep { moment, nas, delay },
        Act::Tick => Move::Tick { moment },
        act => Move::Own {
            account,
            event: Event { moment, act },
        },
    }
}

/// Hands out the shard's journal.
fn cut<R: Print>(page: &mut Page<R>, shard: &mut Shard) -> Result<(), Stop> {
    let alloc = page.alloc;
    let segment = page.insist("cut", shard, look_at, |shard| Ok(shard.cut(alloc)?))?;
    let lines = segment.lines.len();
    writeln!(
        page.text,
        "cut: {} and {lines} lines {}",
        segment.first,
        look_at(shard)?
    )?;
    Ok(())
}

/// Copies the first account's book.
fn copy_book<R: Print>(page: &mut Page<R>, shard: &mut Shard) -> Result<(), Stop> {
    let alloc = page.alloc;
    let same = page.insist("copy", shard, look_at, |shard| match shard.book(0) {
        Some(book) => Ok(book.same(&book.try_copy(alloc)?)),
        None => Ok(false),
    })?;
    writeln!(page.text, "copy: the same {same}")?;
    Ok(())
}
