//! The program `test_memory`: does works that take memory, on a script of `radlimit replay` that
//! standard input has, and prints what they come to. It prints the same whichever single allocation
//! is refused, which `rt try --fail-alloc` does.
//!
//! | Work | What it does |
//! |---|---|
//! | `calls` | reads a script and an account file, writes packets, and asks the session rule |
//! | `saved` | writes the moves and the book of the first account, reads them again, and puts the book back |
//! | `steps` | has `run` of `rsl_steps` answer the script's steps |
//! | `shard` | gives the events of the first account to a shard, and cuts it |
//! | `service` | gives the script's datagrams and ticks to a service, of which a worker makes some, cuts shards, settles and closes |
//! | `receivers` | has two receivers take the script's datagrams from ports over memory |
//! | `store` | begins a store over a log in memory, records, has a generation follow, and opens it again |
//!
//! Where a call is refused, what is seen of its subject has to be the same as before, or a line says that
//! it is not; then the call is made again. Where a call has no subject, the work begins anew.
//!
//! `test_memory WORK AHEAD` does one work, and makes AHEAD allocations before it, so that a
//! refusal of one fixed number can be tried on each of the work's. A last line says which call was
//! refused, or how many allocations could be made after the work until one was refused.
//! `tests/programs/refused-memory.py` runs it.
#![tactic(auto)]

mod calls;
mod given;
mod page;
mod printed;
mod receivers;
mod saved;
mod served;
mod service;
mod shard;
mod steps;
mod stop;
mod store;
mod worker;

use given::Given;
use page::Page;
use std::alloc::Global;
use std::env::{self, Env};
use std::io::Read;
use std::process::ExitCode;
use std::sync::Wait;
use stop::Stop;

/// The most octets of a script that are read.
const MAX_SCRIPT_LEN: u64 = 1_048_576;

/// How often a call is made until it is not refused.
const TRIES: u32 = 3;

/// The most allocations that are made after the works.
const MOST_LEFT: u64 = 100_000;

/// The boot number of every server.
const BOOT: u64 = 1;

/// A work.
#[derive(Clone, Copy, Debug)]
enum Work {
    Calls,
    Saved,
    Steps,
    Shard,
    Service,
    Receivers,
    Store,
}

impl Work {
    /// Its name.
    fn name(self) -> &'static str {
        match self {
            Work::Calls => "calls",
            Work::Saved => "saved",
            Work::Steps => "steps",
            Work::Shard => "shard",
            Work::Service => "service",
            Work::Receivers => "receivers",
            Work::Store => "store",
        }
    }
}

const WORKS: [Work; 7] = [
    Work::Calls,
    Work::Saved,
    Work::Steps,
    Work::Shard,
    Work::Service,
    Work::Receivers,
    Work::Store,
];

fn main(rt: HostRuntime) -> ExitCode {
    match worked(&rt) {
        Ok(()) => ExitCode::SUCCESS,
        Err(stop) => {
            let _ = eprintln!(rt; "{stop:?}");
            ExitCode::from(stop as u8)
        }
    }
}

/// Does what the arguments say: each work, or one after `ahead` allocations.
fn worked<R: AllocGlobal + Env + Input + Print + Wait>(rt: &R) -> Result<(), Stop> {
    let alloc = rt.alloc();
    let asked = asked_of(rt)?;
    let mut text = Vec::new(alloc);
    rt.reader().take(MAX_SCRIPT_LEN).read_to_end(&mut text)?;
    let mut page = Page::new(rt, alloc);
    match asked {
        None => do_works(&mut page, &text, &WORKS),
        Some((work, ahead)) => {
            for _ in 0..ahead {
                allocate(alloc)?;
            }
            do_works(&mut page, &text, &[work])?;
            match page.refused() {
                Some(call) => Ok(println!(rt; "{call} refused")?),
                None => tell_left(rt, alloc),
            }
        }
    }
}

/// The work that the arguments ask for, and the number of allocations before it.
fn asked_of<R: AllocGlobal + Env>(rt: &R) -> Result<Option<(Work, u64)>, Stop> {
    let mut words = env::args(rt)?;
    let _program = words.next();
    let (Some(name), Some(ahead)) = (words.next(), words.next()) else {
        return Ok(None);
    };
    for work in WORKS {
        if work.name() == name.as_str() {
            return match ahead.as_str().parse::<u64>() {
                Ok(ahead) => Ok(Some((work, ahead))),
                Err(_) => Err(Stop::Failed),
            };
        }
    }
    Err(Stop::Failed)
}

/// Makes an allocation, and lets it go.
fn allocate(alloc: Global) -> Result<(), Stop> {
    let _octet: Vec<u8> = Vec::with_capacity(alloc, 1)?;
    Ok(())
}

/// Tells how many allocations can be made until one is refused, or that none is.
fn tell_left<R: Print>(rt: &R, alloc: Global) -> Result<(), Stop> {
    for made in 0..MOST_LEFT {
        if allocate(alloc).is_err() {
            return Ok(println!(rt; "{made} left")?);
        }
    }
    Ok(println!(rt; "as ever")?)
}

/// Does works on the text of a script.
fn do_works<R: Print + Wait>(page: &mut Page<R>, text: &[u8], works: &[Work]) -> Result<(), Stop> {
    let given = read(page, text)?;
    for work in works {
        do_work(page, &given, *work)?;
    }
    Ok(())
}

/// What the text of a script gives.
fn read<'a, R: Print>(page: &mut Page<R>, text: &'a [u8]) -> Result<Given<'a>, Stop> {
    for _ in 0..TRIES {
        match Given::read(page.alloc, text) {
            Err(Stop::NoMemory) => page.note("script", true)?,
            given => return given,
        }
    }
    Err(Stop::NoMemory)
}

/// Does a work until it comes to its end, and prints what it told then.
fn do_work<R: Print + Wait>(page: &mut Page<R>, given: &Given, work: Work) -> Result<(), Stop> {
    for _ in 0..TRIES {
        page.text.clear();
        match tell(page, given, work) {
            Err(Stop::NoMemory) => page.note(work.name(), true)?,
            told => {
                told?;
                return page.print(work.name());
            }
        }
    }
    Err(Stop::NoMemory)
}

/// Tells what a work comes to.
fn tell<R: Print + Wait>(page: &mut Page<R>, given: &Given, work: Work) -> Result<(), Stop> {
    match work {
        Work::Calls => calls::tell(page, given),
        Work::Saved => saved::tell(page, given),
        Work::Steps => steps::tell(page, given),
        Work::Shard => shard::tell(page, given),
        Work::Service => service::tell(page, given),
        Work::Receivers => receivers::tell(page, given),
        Work::Store => store::tell(page, given),
    }
}
