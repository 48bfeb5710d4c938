//! A store over a log in memory.

use crate::given::Given;
use crate::page::Page;
use crate::shard::move_of;
use crate::stop::Stop;
use crate::{BOOT, TRIES};
use rld_log::MemoryLog;
use rld_spelling::Header;
use rld_store::{Opened, Refused, Store, read_frames};
use rsl_accounts::Config;
use rsl_event::{Act, Event, Note};
use rsl_shard::{Move, Row};
use rsl_wire::Octets;
use std::alloc::Global;
use std::sync::Arc;

/// Begins a store, records moves of the script in two generations, opens the log of the second, sends
/// its last request again, and tells what each account holds after each call.
pub(crate) fn tell<R: Print>(page: &mut Page<R>, given: &Given) -> Result<(), Stop> {
    let alloc = page.alloc;
    let (first, second) = (given.events(alloc, 0)?, given.events(alloc, 1)?);
    let mut store = begin(page, given)?;
    commit(page, &mut store, 0, &first[..6])?;
    roll(page, &mut store)?;
    commit(page, &mut store, 0, &first[6..8])?;
    commit(page, &mut store, 1, &second[..1])?;
    let mut store = open(page, given, store.into_log())?;
    commit(page, &mut store, 1, &second[..1])?;
    let links = page.insist(
        "links",
        &mut store,
        |store| rows_of(alloc, store),
        |store| Ok(store.links(alloc, 1)?.map(|links| links.len())),
    )?;
    writeln!(page.text, "links: {links:?}")?;
    Ok(())
}

/// The moves of an account's events, and before each restart a packet that is no account's.
fn batch_of(alloc: Global, account: u32, events: &[Event]) -> Result<Vec<Move>, Stop> {
    let mut batch = Vec::new(alloc);
    for event in events {
        if let Act::Sweep { nas, .. } = &event.act {
            let note = Note {
                nas: nas.try_copy(alloc)?,
                status: 1,
                name: Octets::from_slice(alloc, b"nobody")?,
                session: Octets::from_slice(alloc, b"0000001f-b2c4d6e8-00000002")?,
            };
            let moment = event.moment;
            batch.push(Move::Stray { moment, note })?;
        }
        batch.push(move_of(account, event.try_copy(alloc)?))?;
    }
    Ok(batch)
}

/// What is seen of a store: what each account holds.
fn rows_of(alloc: Global, store: &Store<MemoryLog>) -> Result<Vec<Row>, Stop> {
    Ok(store.rows(alloc)?)
}

/// The header of a generation with the first table.
fn header(generation: u64) -> Header {
    Header {
        generation,
        table: 1,
        boot: BOOT,
        lines: 0,
    }
}

/// A log that has nothing yet, and whose calls do not fail.
fn empty_log(alloc: Global) -> Result<MemoryLog, Stop> {
    Ok(MemoryLog::new(alloc, Vec::new(alloc), Vec::new(alloc))?)
}

/// A store that begins.
fn begin<R: Print>(page: &mut Page<R>, given: &Given) -> Result<Store<MemoryLog>, Stop> {
    let alloc = page.alloc;
    let config = Arc::try_clone(&given.config)?;
    match Store::begin(alloc, config, header(1), empty_log(alloc)?) {
        Ok(store) => {
            writeln!(page.text, "begin")?;
            tell_rows(page, &store)?;
            Ok(store)
        }
        Err(refused) => Err(Stop::from(refused.fault)),
    }
}

/// Records a batch.
fn commit<R: Print>(
    page: &mut Page<R>,
    store: &mut Store<MemoryLog>,
    account: u32,
    events: &[Event],
) -> Result<(), Stop> {
    let alloc = page.alloc;
    let recorded = page.insist(
        "commit",
        store,
        |store| rows_of(alloc, store),
        |store| Ok(store.commit(alloc, batch_of(alloc, account, events)?)?),
    )?;
    writeln!(page.text, "commit: {:?}", recorded.decisions())?;
    tell_rows(page, store)
}

/// Has the second generation follow, in another log at each try.
fn roll<R: Print>(page: &mut Page<R>, store: &mut Store<MemoryLog>) -> Result<(), Stop> {
    let alloc = page.alloc;
    let older = page.insist(
        "roll",
        store,
        |store| rows_of(alloc, store),
        |store| match store.roll(alloc, header(2), empty_log(alloc)?) {
            Ok(older) => Ok(older),
            Err(refused) => Err(Stop::from(refused.fault)),
        },
    )?;
    writeln!(page.text, "roll: after {} octets", older.octets().len())?;
    tell_rows(page, store)
}

/// Opens a log, which is handed back as it was where memory is refused.
fn open<R: Print>(
    page: &mut Page<R>,
    given: &Given,
    log: MemoryLog,
) -> Result<Store<MemoryLog>, Stop> {
    let alloc = page.alloc;
    let before = Vec::from_slice(alloc, log.octets())?;
    let mut log = log;
    for _ in 0..TRIES {
        let config = Arc::try_clone(&given.config)?;
        match read_and_open(alloc, config, log) {
            Ok(opened) => return tell_opened(page, opened),
            Err(refused) => {
                page.note("open", refused.log.octets() == before.as_slice())?;
                match Stop::from(refused.fault) {
                    Stop::NoMemory => log = refused.log,
                    stop => return Err(stop),
                }
            }
        }
    }
    Err(Stop::NoMemory)
}

/// Reads a log and opens it.
fn read_and_open(
    alloc: Global,
    config: Arc<Config>,
    log: MemoryLog,
) -> Result<Opened<MemoryLog>, Refused<MemoryLog>> {
    let mut log = log;
    match read_frames(alloc, &mut log) {
        Ok(frames) => Store::open(alloc, config, log, &frames),
        Err(fault) => Err(Refused { log, fault }),
    }
}

/// Tells what was opened, and hands out its store.
fn tell_opened<R: Print>(
    page: &mut Page<R>,
    opened: Opened<MemoryLog>,
) -> Result<Store<MemoryLog>, Stop> {
    let Opened {
        store,
        header,
        moves,
        torn,
    } = opened;
    let generation = header.generation;
    writeln!(
        page.text,
        "open: generation {generation}, {moves} moves, {torn} torn"
    )?;
    tell_rows(page, &store)?;
    Ok(store)
}

/// Tells what each account holds: of each the places held, and its links that are reserved, live and
/// stale, and its over count.
fn tell_rows<R: Print>(page: &mut Page<R>, store: &Store<MemoryLog>) -> Result<(), Stop> {
    let alloc = page.alloc;
    for row in page.look(store, &|store| rows_of(alloc, store))? {
        let (held, reserved, live) = (row.held, row.reserved, row.live);
        writeln!(
            page.text,
            "  {held}/{reserved}/{live}/{}/{}",
            row.stale, row.over
        )?;
    }
    Ok(())
}
