//! Records of shards as text: the configuration over which they are, segments and their lines.
//!
//! There are two accounts, each with two places; with two shards each has its own. A segment is
//! `SHARD FIRST / OPENING / LINES`: its opening as the lines that make it of new books (`none` for
//! no books at all), and then its lines, with `; ` between lines. A line is an event as in
//! `test_timelines`, with the account's number before it, or `all`, and its decision after ` -> `; a
//! line `stray` is a stray.

use rsl_account_file::read_config;
use rsl_accounts::Config;
use rsl_book::Book;
use rsl_event::{Act, Decision, Event, Nas, NasName, Note};
use rsl_reply::Dictionary;
use rsl_shard::{Line, Move, Segment};
use rsl_wire::Octets;
use std::test::Fail;
use test_timelines::{event_of, text_of};

/// The configuration, with this many shards.
pub(crate) fn config_of<R: AllocGlobal>(rt: &R, shards: &str) -> Result<Config, Fail> {
    let text = format!(in rt.alloc();
        "version = 1\nshards = {shards}\nreserve_secs = 60\nlive_secs = 900\ngrace_secs = 900\n\
         closed_secs = 3600\nkeep_secs = 10\n\
         client = [{{ address = \"192.168.1.16\", secret = \"xyzzy5461\" }}]\n\
         account = [\n\
         {{ name = \"a\", password = \"pw\", places = 2, ports = 1 }},\n\
         {{ name = \"b\", password = \"pw\", places = 2, ports = 1 }},\n\
         ]\n"
    )?;
    Ok(read_config(rt.alloc(), &Dictionary::new(rt.alloc()), text.as_bytes())?)
}

/// The move of a line.
fn move_of<R: AllocGlobal>(rt: &R, line: &str) -> Result<Move, Fail> {
    let text = text_of(line.trim());
    if text == "stray" {
        return stray(rt);
    }
    let Some((who, event)) = text.split_once(' ') else {
        return Err(Fail::from("a line without an event"));
    };
    if who == "all" {
        return move_of_all(event_of(rt, event)?);
    }
    let account = who.parse()?;
    let event = event_of(rt, event)?;
    Ok(Move::Own { account, event })
}

/// The move that an event is to all accounts.
fn move_of_all(event: Event) -> Result<Move, Fail> {
    let Event { moment, act } = event;
    match act {
        Act::Sweep { nas, delay } => Ok(Move::Sweep { moment, nas, delay }),
        Act::Tick => Ok(Move::Tick { moment }),
        _ => Err(Fail::from("no move of all accounts")),
    }
}

/// A stray.
fn stray<R: AllocGlobal>(rt: &R) -> Result<Move, Fail> {
    let nas = Nas {
        client: 0,
        name: NasName::Unnamed,
    };
    let note = Note {
        nas,
        status: 1,
        name: Octets::from_slice(rt.alloc(), b"ghost")?,
        session: Octets::from_slice(rt.alloc(), b"s1")?,
    };
    Ok(Move::Stray { moment: 0, note })
}

/// The decision that a line tells.
fn decision_of(line: &str) -> Result<Decision, Fail> {
    let Some((_, word)) = line.split_once(" -> ") else {
        return Err(Fail::from("a line without a decision"));
    };
    match word.trim() {
        "Done" => Ok(Decision::Done),
        "LimitReject" => Ok(Decision::LimitReject),
        number => Ok(Decision::Accept(number.parse()?)),
    }
}

/// The event that a move is to an account.
fn event_to(account: u32, moved: Move) -> Option<Event> {
    match moved {
        Move::Own {
            account: other,
            event,
        } => (other == account).then_some(event),
        Move::Sweep { moment, nas, delay } => Some(Event {
            moment,
            act: Act::Sweep { nas, delay },
        }),
        Move::Tick { moment } => Some(Event {
            moment,
            act: Act::Tick,
        }),
        Move::Stray { .. } => None,
    }
}

/// The book of an account after the lines that concern it.
fn book_of<R: AllocGlobal>(
    rt: &R,
    config: &Config,
    account: u32,
    lines: &str,
) -> Result<Book, Fail> {
    if account >= config.accounts() {
        return Err(Fail::from("no such account"));
    }
    let rules = config.entry(account).rules;
    let mut book = Book::new(rt.alloc(), rules)?;
    for line in lines.split(';') {
        if !line.trim().is_empty() {
            apply_line(rt, &mut book, account, line)?;
        }
    }
    Ok(book)
}

/// Applies a line to the book of an account, if it concerns that.
fn apply_line<R: AllocGlobal>(
    rt: &R,
    book: &mut Book,
    account: u32,
    line: &str,
) -> Result<(), Fail> {
    let moved = move_of(rt, line)?;
    if let Some(event) = event_to(account, moved) {
        book.apply(event);
    }
    Ok(())
}

/// The books of a shard after lines.
fn books_of<R: AllocGlobal>(
    rt: &R,
    config: &Config,
    shard: u32,
    lines: &str,
) -> Result<Vec<Book>, Fail> {
    let mut books = Vec::new(rt.alloc());
    for account in 0..config.accounts() {
        if config.shard_of(account) == shard && lines.trim() != "none" {
            books.push(book_of(rt, config, account, lines)?)?;
        }
    }
    Ok(books)
}

/// A line with its decision.
pub(crate) fn line_of<R: AllocGlobal>(rt: &R, line: &str) -> Result<Line, Fail> {
    let decision = decision_of(line)?;
    let moved = move_of(rt, line)?;
    Ok(Line { moved, decision })
}

/// Lines with their decisions.
fn lines_of<R: AllocGlobal>(rt: &R, text: &str) -> Result<Vec<Line>, Fail> {
    let mut lines = Vec::new(rt.alloc());
    for line in text.split(';') {
        if !line.trim().is_empty() {
            lines.push(line_of(rt, line)?)?;
        }
    }
    Ok(lines)
}

/// The segment of a field.
pub(crate) fn segment_of<R: AllocGlobal>(
    rt: &R,
    config: &Config,
    field: &str,
) -> Result<Segment, Fail> {
    let Some((numbers, rest)) = field.split_once('/') else {
        return Err(Fail::from("a segment without an opening"));
    };
    let Some((opening, lines)) = rest.split_once('/') else {
        return Err(Fail::from("a segment without lines"));
    };
    let Some((shard, first)) = numbers.trim().split_once(' ') else {
        return Err(Fail::from("a segment without its numbers"));
    };
    let shard = shard.parse()?;
    Ok(Segment {
        shard,
        first: first.parse()?,
        opening: books_of(rt, config, shard, opening)?,
        lines: lines_of(rt, lines)?,
    })
}
