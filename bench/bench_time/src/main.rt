//! The program `bench_time`: does so much of one work that its time and memory can be seen from
//! outside. `bench_time book WORK PLACES PORTS LINKS SERVERS TIMES` has a book of its own, which
//! opens LINKS links, in bundles of PORTS, at SERVERS access servers, and then does its work TIMES
//! times over:
//!
//! | WORK | What it does |
//! |---|---|
//! | `interims` | an Interim-Update of each link in turn, a second apart |
//! | `strides` | the same, in another order than that in which the links opened |
//! | `changes` | in that order, a Stop of a link, and in the next turn the Start of another in its bundle |
//! | `takes` | an ask, then the Start that takes the link that it reserved, then the Stop of that |
//! | `stationed` | as `interims`, where each link has a station of its own |
//! | `returns` | asks of one station, to each of which the link of the one before yields; the other links have stations of their own |
//! | `misses` | asks of stations that no link has; the links have stations of their own |
//! | `asks` | asks without a station |
//! | `making-` and one of these | makes its events, and hands them to no book |
//! | `ticks` | ticks, of which none lets a link lapse |
//! | `mixed` | events of every kind, of more sessions and access servers than a book has room for |
//! | `books` | makes new books and keeps them all |
//!
//! It prints what the book shows then. `bench_time audit LINES` reads an account file from standard
//! input and makes the record of its first shard in two segments, of LINES lines together, over the
//! accounts in turn: an ask, the Start of its session, an Interim-Update and a Stop; it audits the
//! record, and prints the answer. `bench_time record LINES` makes the record alone. `bench/book.py`
//! and `bench/audit.py` run it.
#![tactic(auto)]

mod events;
mod record;
mod work;

use events::Size;
use record::record_of;
use rsl_account_file::read_config_from;
use rsl_accounts::Config;
use rsl_record::audit;
use rsl_reply::Dictionary;
use rsl_wire::NoMemory;
use std::alloc::Global;
use std::env::Args;
use std::io::ErrorKind;
use std::process::ExitCode;
use std::{env, io};

fn main(rt: HostRuntime) -> ExitCode {
    match worked(&rt) {
        Ok(()) => ExitCode::SUCCESS,
        Err(error) => {
            let _ = eprintln!(rt; "{error}");
            ExitCode::FAILURE
        }
    }
}

/// Does what the arguments say.
fn worked(rt: &HostRuntime) -> io::Result<()> {
    let mut words = env::args(rt)?;
    let _ = words.next();
    let Some(subject) = words.next() else {
        return Err(usage());
    };
    match subject.as_str() {
        "book" => work_on_a_book(rt, &mut words),
        "audit" => work_on_a_record(rt, &mut words, true),
        "record" => work_on_a_record(rt, &mut words, false),
        _ => Err(usage()),
    }
}

fn usage() -> io::Error {
    io::Error::other(
        "usage: bench_time book WORK PLACES PORTS LINKS SERVERS TIMES, or audit LINES, or record LINES",
    )
}

/// Does a book's work, and prints what the book shows then.
fn work_on_a_book(rt: &HostRuntime, words: &mut Args<Global>) -> io::Result<()> {
    let Some(work) = words.next() else {
        return Err(usage());
    };
    let size = Size {
        places: number_of(words)?,
        ports: number_of(words)?,
        links: number_of(words)?,
        servers: number_of(words)?,
    };
    let times = number_of(words)?;
    match work::shown_after(rt.alloc(), work.as_str(), &size, times) {
        Ok(Some(shown)) => println!(rt; "{work}: {shown}"),
        Ok(None) => Err(usage()),
        Err(NoMemory) => Err(io::Error::from(ErrorKind::OutOfMemory)),
    }
}

/// Makes a record and prints what the audit of it answers, where it is audited.
fn work_on_a_record(
    rt: &HostRuntime,
    words: &mut Args<Global>,
    is_audited: bool,
) -> io::Result<()> {
    let lines = number_of(words)?;
    let config = config_of(rt)?;
    let Ok(segments) = record_of(rt.alloc(), &config, lines) else {
        return Err(io::Error::from(ErrorKind::OutOfMemory));
    };
    if is_audited {
        println!(rt; "{:?}", audit(rt.alloc(), &config, segments.as_slice()))
    } else {
        println!(rt; "{} segments", segments.len())
    }
}

/// The next word, a number.
fn number_of(words: &mut Args<Global>) -> io::Result<u64> {
    if let Some(word) = words.next() {
        if let Ok(number) = word.parse() {
            return Ok(number);
        }
    }
    Err(usage())
}

/// The configuration that standard input has.
fn config_of(rt: &HostRuntime) -> io::Result<Config> {
    match read_config_from(rt.alloc(), &Dictionary::new(rt.alloc()), rt.stdin()) {
        Ok(config) => Ok(config),
        Err(_) => Err(io::Error::other("a bad account file")),
    }
}
