//! The state of a running server: batches that were prepared with one table or another, a change of the
//! accounts, and logs that are not above the present one.

use crate::changes::{accounts, begin_before, started};
use crate::rolls::list;
use crate::server::{pacing, say_header, tick};
use rld_books::BlankBooks;
use rld_config::Archive;
use rld_folder::{Folder, FolderFault, NewLog};
use rld_log::{FileLog, PacedLog, Ticks};
use rld_start::{FolderGenerations, Generations, NextLog, Started};
use rld_state::{Reloaded, RollFault, ServerState};
use std::{fs, io};

/// The folder.
const FOLDER: &str = "stated";

/// A state over files of a folder.
type State<'a> = ServerState<PacedLog<'a, FileLog>>;

/// What becomes of a state whose accounts change while it runs.
pub fn states(rt: &HostRuntime) -> io::Result<()> {
    begin_before(rt, FOLDER)?;
    let ticks = Ticks::new();
    let old = accounts(rt, "before")?;
    let Started {
        folder,
        store,
        key,
        ..
    } = started(rt, FOLDER, &old, 1010, &ticks)?;
    let mut state: State<'_> = ServerState::new(store, key);
    say_header(rt, "a state in ", &state.header())?;
    fs::remove_file(rt, "stated/log-1")?;
    let (Ok(lower), Ok(same)) = (
        log_of(rt, &folder, 1, &ticks),
        log_of(rt, &folder, 0, &ticks),
    ) else {
        return println!(rt; "no logs");
    };
    let generations = FolderGenerations::new(rt, folder, Archive::Keep, None);
    say_record(rt, &mut state, Some(1))?;
    say_record(rt, &mut state, Some(2))?;
    say_record(rt, &mut state, None)?;
    say_go_on(rt, &mut state, "secrets_changed")?;
    say_go_on(rt, &mut state, "places_lowered")?;
    list(rt, FOLDER)?;
    say_change(rt, &mut state, &generations, lower, "places_lowered")?;
    say_roll(rt, &mut state, &generations, same)?;
    list(rt, FOLDER)?;
    changes_twice(rt, &mut state, &generations, &ticks)
}

/// A change of the accounts, a batch of each table, a roll, and a change back.
fn changes_twice<'a>(
    rt: &HostRuntime,
    state: &mut State<'a>,
    generations: &FolderGenerations<'_, HostRuntime>,
    ticks: &'a Ticks,
) -> io::Result<()> {
    for name in ["places_lowered", "", "before"] {
        let present = state.header().generation;
        let Ok(next) = generations.next_log(rt.alloc(), present) else {
            return println!(rt; "no next log");
        };
        let next = next.paced(pacing(ticks));
        if name.is_empty() {
            say_roll(rt, state, generations, next)?;
        } else {
            say_change(rt, state, generations, next, name)?;
        }
        say_record(rt, state, Some(1))?;
        say_record(rt, state, Some(2))?;
    }
    list(rt, FOLDER)
}

/// A new log of the generation of this number.
fn log_of<'a>(
    rt: &HostRuntime,
    folder: &Folder,
    generation: u64,
    ticks: &'a Ticks,
) -> Result<NextLog<PacedLog<'a, FileLog>>, FolderFault> {
    let NewLog { key, log } = folder.create_log(rt, rt.alloc(), generation)?;
    Ok(NextLog { key, log }.paced(pacing(ticks)))
}

/// Records a tick that was prepared with a table, and says how many moves the generation has then.
fn say_record(rt: &HostRuntime, state: &mut State<'_>, table: Option<u64>) -> io::Result<()> {
    match state.record(rt.alloc(), table, tick(rt, 1010)?) {
        Ok(recorded) => print!(rt; "table {table:?}: {:?}", recorded.decisions())?,
        Err(fault) => print!(rt; "table {table:?}: {fault}")?,
    }
    println!(rt; ", moves {}", state.moves())
}

/// Says whether a state goes on with the account file of a name.
fn say_go_on(rt: &HostRuntime, state: &mut State<'_>, name: &str) -> io::Result<()> {
    let goes_on = state.go_on(accounts(rt, name)?);
    println!(rt; "{name}: goes on {goes_on}")
}

/// Changes the accounts to those of the file of a name, in this log.
fn say_change<'a>(
    rt: &HostRuntime,
    state: &mut State<'a>,
    generations: &FolderGenerations<'_, HostRuntime>,
    next: NextLog<PacedLog<'a, FileLog>>,
    name: &str,
) -> io::Result<()> {
    let config = accounts(rt, name)?;
    let blanks = BlankBooks::none(rt.alloc());
    match state.change(rt.alloc(), generations, config, next, blanks) {
        Ok(changed) => {
            print!(rt; "changed: {}; ", Reloaded::Changed(changed.change))?;
            say_header(rt, "goes on in ", &state.header())
        }
        Err(fault) => {
            print!(rt; "not changed: {}; ", RollFault::from(fault))?;
            say_header(rt, "stays in ", &state.header())
        }
    }
}

/// Has the next generation follow in this log.
fn say_roll<'a>(
    rt: &HostRuntime,
    state: &mut State<'a>,
    generations: &FolderGenerations<'_, HostRuntime>,
    next: NextLog<PacedLog<'a, FileLog>>,
) -> io::Result<()> {
    match state.roll(rt.alloc(), generations, next) {
        Ok(_older) => say_header(rt, "rolled: goes on in ", &state.header()),
        Err(fault) => {
            print!(rt; "not rolled: {}; ", RollFault::from(fault))?;
            say_header(rt, "stays in ", &state.header())
        }
    }
}
