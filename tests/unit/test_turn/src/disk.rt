//! A store whose log is on a disk of memory, of which a call may fail, and what a loss of power
//! leaves there.

use rld_books::ServerBooks;
use rld_log::{Crash, Ending, Frames, Life, MemoryLog};
use rld_spelling::{Counts, Header};
use rld_store::Store;
use rsl_accounts::Config;
use rsl_shard::Move;
use std::alloc::Global;
use std::sync::Arc;
use std::test::Fail;
use test_rows::{Plain, push_printed, short_number};
use test_timelines::config_of;

/// The header of the first generation.
const HEADER: Header = Header {
    generation: 1,
    table: 1,
    boot: 7,
    lines: 0,
};

/// The configuration of the store.
pub(crate) fn shared_config(alloc: Global) -> Result<Arc<Config>, Fail> {
    Ok(Arc::new(alloc, config_of(alloc, "1")?)?)
}

/// A new store. With `append 1` the append of the second batch fails, with `sync 0` the sync of the
/// first, and each other call succeeds.
pub(crate) fn store_of(
    alloc: Global,
    config: &Arc<Config>,
    words: &str,
) -> Result<Store<MemoryLog>, Fail> {
    let mut lives = Vec::new(alloc);
    if let Some((call, batch)) = words.split_once(' ') {
        lives.push(life_of(call, short_number(batch)?)?)?;
    }
    let log = MemoryLog::new(alloc, Vec::new(alloc), lives)?;
    match Store::begin(alloc, Arc::try_clone(config)?, HEADER, log) {
        Ok(store) => Ok(store),
        Err(_) => Err("not begun")?,
    }
}

/// A life in which this call of a batch fails. A store begins with a read, two appends and two
/// syncs, and each batch before it has an append and a sync.
fn life_of(call: &str, batch: u32) -> Result<Life, Fail> {
    let before = 5 + 2 * u64::from(batch);
    let calls = match call {
        "append" => before,
        "sync" => before + 1,
        _ => return Err("an unknown call")?,
    };
    Ok(Life {
        calls,
        failing: 1,
        kept: 0,
    })
}

/// What a loss of power leaves of the log of a store.
pub(crate) fn left_by(store: Store<MemoryLog>) -> MemoryLog {
    let mut log = store.into_log();
    log.restart(Ending::PowerLoss);
    log
}

/// The batches of a log.
pub(crate) fn batches_of(
    alloc: Global,
    config: &Config,
    log: &MemoryLog,
) -> Result<Vec<Vec<Move>>, Fail> {
    let frames = Frames::of(log.octets().to_vec(alloc)?)?;
    let found = frames.payloads(alloc)?;
    let [_, _, spelled @ ..] = found.as_slice() else {
        return Err("no generation")?;
    };
    let counts = Counts {
        accounts: config.accounts(),
        clients: config.clients(),
    };
    let mut batches = Vec::new(alloc);
    for payload in spelled {
        batches.push(counts.read_moves(alloc, payload)?)?;
    }
    Ok(batches)
}

/// Tells each move of a log: the number of its batch, its moment, what it is, and what books that
/// were new before the first of them decide on it.
pub(crate) fn push_moves(
    text: &mut String,
    alloc: Global,
    config: &Config,
    log: &MemoryLog,
) -> Result<(), Fail> {
    let mut books = ServerBooks::new(alloc, config)?;
    let mut number: u64 = 0;
    for batch in batches_of(alloc, config, log)? {
        push_batch(text, &mut books, number, batch)?;
        number = number.saturating_add(1);
    }
    Ok(())
}

/// Tells each move of a batch.
fn push_batch(
    text: &mut String,
    books: &mut ServerBooks,
    number: u64,
    batch: Vec<Move>,
) -> Result<(), Fail> {
    for moved in batch {
        if !books.takes(&moved) {
            return Err("a move of no account")?;
        }
        let (word, moment) = told_of(&moved);
        let decision = books.make(moved);
        push_printed(text, &(number, moment, Plain(word), decision))?;
    }
    Ok(())
}

/// What a move is, and its moment.
fn told_of(moved: &Move) -> (&'static str, u64) {
    match moved {
        Move::Own { event, .. } => ("own", event.moment),
        Move::Sweep { moment, .. } => ("sweep", *moment),
        Move::Tick { moment } => ("tick", *moment),
        Move::Stray { moment, .. } => ("stray", *moment),
    }
}
