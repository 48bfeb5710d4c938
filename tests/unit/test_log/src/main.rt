//! The program `test_log`: a log in a file, which `tests/programs/killed-log.py` has killed, and whose end it tears.
//!
//! `test_log FILE` opens the log and says how many numbers it has and how many octets of a torn end
//! were cut off: `found 12 torn 0`. A number has eight octets, and the numbers of all payloads count
//! up from 0; where they do not it says `found 12 torn 0 out of order`. `test_log FILE record COUNT
//! SIZE` then records COUNT payloads of SIZE numbers and says after each how many numbers there are;
//! with `write` in place of `record` none is synced. A fault is named on standard error, with
//! status 1.
#![tactic(auto)]

mod numbers;
mod opening;
#[cfg(test)]
mod paces;
mod problem;
#[cfg(test)]
mod tests;

use numbers::{Numbers, payload_of};
use opening::open;
use problem::Problem;
use rld_log::{FileLog, record, write};
use std::alloc::Global;
use std::env::Args;
use std::fs::OpenOptions;
use std::process::ExitCode;
use std::{env, io};

/// The most octets of a payload.
const MOST: usize = 8_000_000;

fn main(rt: HostRuntime) -> ExitCode {
    match run(&rt) {
        Ok(()) => ExitCode::SUCCESS,
        Err(problem) => {
            let _ = eprintln!(rt; "{problem}");
            ExitCode::FAILURE
        }
    }
}

/// Opens the log and says what it has, and then adds what the arguments ask for.
fn run(rt: &HostRuntime) -> Result<(), Problem> {
    let mut words = env::args(rt)?;
    let _ = words.next();
    let Some(path) = words.next() else {
        return Err(Problem::Usage);
    };
    let mut log = opened_file(rt, path.as_str())?;
    let opened = open(rt.alloc(), &mut log)?;
    let found = Numbers::of(&opened.payloads(rt.alloc())?);
    let order = if found.in_order { "" } else { " out of order" };
    println!(rt; "found {} torn {}{order}", found.count, opened.torn().len())?;
    add(rt, &mut log, &mut words, found.count)
}

/// The log in the file with this name, which is made where there is none.
fn opened_file(rt: &HostRuntime, path: &str) -> io::Result<FileLog> {
    let file = OpenOptions::new()
        .read(true)
        .write(true)
        .create(true)
        .open(rt, path)?;
    Ok(FileLog::new(file))
}

/// Adds payloads, if the arguments say so, and says after each how many numbers there are.
fn add(
    rt: &HostRuntime,
    log: &mut FileLog,
    words: &mut Args<Global>,
    found: u64,
) -> Result<(), Problem> {
    let Some(way) = words.next() else {
        return Ok(());
    };
    let (count, size) = (number_of(words)?, number_of(words)?);
    let mut told = found;
    for _ in 0..count {
        let payload = payload_of(rt.alloc(), told, size)?;
        if payload.len() > MOST {
            return Err(Problem::Usage);
        }
        match way.as_str() {
            "record" => record(rt.alloc(), log, &payload)?,
            "write" => write(rt.alloc(), log, &payload)?,
            _ => return Err(Problem::Usage),
        }
        told = told.saturating_add(size);
        println!(rt; "{told}")?;
    }
    Ok(())
}

/// The number that the next word is.
fn number_of(words: &mut Args<Global>) -> Result<u64, Problem> {
    let Some(word) = words.next() else {
        return Err(Problem::Usage);
    };
    word.parse().map_err(|_| Problem::Usage)
}
