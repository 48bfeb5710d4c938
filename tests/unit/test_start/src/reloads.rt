//! Account files that change while a server runs, in a folder that then begins a generation with another
//! table, or does not.

use crate::changes::{CHANGES, accounts, begin_before, say_all, started};
use crate::files::copy;
use crate::rolls::list;
use crate::server::{commit, pacing, say_header, tick};
use rld_books::BlankBooks;
use rld_config::Archive;
use rld_folder::{Folder, Generation};
use rld_log::{MemoryLog, Ticks};
use rld_spelling::Header;
use rld_start::{
    FolderGenerations, Generations, NextLog, Started, Written, admitted_books, changed_header,
    has_same_clients, has_same_table, sessions_in,
};
use rld_store::Store;
use rsl_accounts::Config;
use std::fs;
use std::io::{self, ErrorKind};
use std::sync::Arc;

/// The folder.
const FOLDER: &str = "reloaded";

/// A second since 1970 at which no file has changed yet.
const LATER: u64 = 100_000_000_000;

/// Which tables and which clients are the same as account files change, and how a generation with another
/// table begins.
pub fn reloads(rt: &HostRuntime) -> io::Result<()> {
    for name in CHANGES {
        say_same(rt, name)?;
    }
    begins_while_it_runs(rt, "places_lowered")?;
    puts_each_away(rt)
}

/// Says whether the account file of a name has the same table, and its clients are the same.
fn say_same(rt: &HostRuntime, name: &str) -> io::Result<()> {
    let old = accounts(rt, "before")?;
    let new = accounts(rt, name)?;
    let table = has_same_table(&*old, &*new);
    let clients = has_same_clients(&*old, &*new);
    println!(rt; "{name}: the same table {table}, the same clients {clients}")
}

/// A generation that begins with the account file of a name while the server runs, and what a start finds
/// then.
fn begins_while_it_runs(rt: &HostRuntime, name: &str) -> io::Result<()> {
    begin_before(rt, FOLDER)?;
    let old = accounts(rt, "before")?;
    let new = accounts(rt, name)?;
    let ticks = Ticks::new();
    let running = started(rt, FOLDER, &old, 1010, &ticks)?;
    begin_changed(rt, running, &*old, &new)?;
    list(rt, FOLDER)?;
    let again = started(rt, FOLDER, &new, 1011, &ticks)?;
    println!(rt; "then: {}", again.found.greeting(rt.alloc())?)?;
    say_header(rt, "  ", &again.store.header())?;
    say_all(rt, &*new, &again)
}

/// Begins a generation with other accounts after one move more, and says what goes on.
fn begin_changed(
    rt: &HostRuntime,
    running: Started<'_>,
    old: &Config,
    new: &Arc<Config>,
) -> io::Result<()> {
    let mut running = running;
    commit(rt, &mut running, tick(rt, 1010)?)?;
    let Started { folder, store, .. } = running;
    let generations = FolderGenerations::new(rt, folder, Archive::Keep, None);
    let former = store.header();
    let Ok(next) = generations.next_log(rt.alloc(), former.generation) else {
        return println!(rt; "no log");
    };
    let ticks = Ticks::new();
    let NextLog { key, log } = next.paced(pacing(&ticks));
    let Some(header) = changed_header(&former, key.generation(), 1) else {
        return println!(rt; "no header");
    };
    let blanks = BlankBooks::none(rt.alloc());
    let present = Generation::Numbered(former.generation);
    let Ok(books) = admitted_books(rt.alloc(), old, present, store.books(), &**new, blanks) else {
        return println!(rt; "no books");
    };
    let new = Arc::try_clone(new)?;
    let Ok(store) = Store::begin_with(rt.alloc(), new, header, books, log) else {
        return println!(rt; "no store");
    };
    let is_synced = generations.sync(rt.alloc(), Written::by(&store)).is_ok();
    let Ok(rows) = store.rows(rt.alloc()) else {
        return Err(io::Error::from(ErrorKind::OutOfMemory));
    };
    println!(rt;
        "begun: {} sessions, synced {is_synced}",
        sessions_in(rows.as_slice())
    )?;
    say_header(rt, "  ", &store.header())
}

/// What becomes of the files before a generation: logs, and the tables and the logs of eras of a version
/// before. A later log stays.
fn puts_each_away(rt: &HostRuntime) -> io::Result<()> {
    fs::write(rt, "reloaded/era-3", "a table")?;
    fs::write(rt, "reloaded/log-9-9", "a log of before")?;
    fs::write(rt, "reloaded/log-5", "a later log")?;
    put_away(rt, "keep", Archive::Keep, LATER)?;
    put_away(rt, "none, with an archive", Archive::Nothing, LATER)?;
    put_away(rt, "days, none over", Archive::Days(2), 0)?;
    put_away(rt, "days", Archive::Days(2), LATER)?;
    copy(rt, "reloaded/log-4", "reloaded/log-3")?;
    copy(rt, "reloaded/log-4", "reloaded/log-9-9")?;
    fs::write(rt, "reloaded/era-1", "a table")?;
    put_away(rt, "none", Archive::Nothing, 0)
}

/// What a store writes whose generation is the fourth.
fn newest_written(rt: &HostRuntime) -> io::Result<Option<Written>> {
    let header = Header {
        generation: 4,
        table: 2,
        boot: 1000,
        lines: 9,
    };
    let config = accounts(rt, "before")?;
    let log = MemoryLog::new(rt.alloc(), Vec::new(rt.alloc()), Vec::new(rt.alloc()))?;
    match Store::begin(rt.alloc(), config, header, log) {
        Ok(store) => Ok(Some(Written::by(&store))),
        Err(_) => Ok(None),
    }
}

/// Puts old logs away as an archive is kept, and says which files are left.
fn put_away(rt: &HostRuntime, how: &str, archive: Archive, now: u64) -> io::Result<()> {
    let Ok(folder) = Folder::open(rt, rt.alloc(), FOLDER) else {
        return println!(rt; "{how}: no folder");
    };
    let Some(newest) = newest_written(rt)? else {
        return println!(rt; "{how}: no store");
    };
    match FolderGenerations::new(rt, folder, archive, None).put_away(rt.alloc(), newest, now) {
        Ok(()) => println!(rt; "{how}: put away")?,
        Err(fault) => println!(rt; "{how}: {fault}")?,
    }
    list(rt, FOLDER)?;
    list(rt, "reloaded/archive")
}
