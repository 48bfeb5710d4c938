//! The program `test_start`: starts a server from a folder in the folder that it runs in, over and
//! over, and says what each start found. Between the starts it does to the files what a crash, a disk
//! or an operator may do.
#![tactic(auto)]

mod changes;
mod files;
mod formers;
mod printed;
mod reloads;
mod rolls;
mod running;
mod server;
mod states;

use changes::changes;
use files::{add, copy, cut, cut_last, empty, replace_first, spoil};
use formers::formers;
use printed::print;
use reloads::reloads;
use rld_folder::Folder;
use rolls::rolls;
use server::{
    OTHERS, OURS, cut_books, each_kind, frame_as_id, late_login, late_restarts, login, record,
    record_both, say, say_if_there, stations, stations_again, tick,
};
use states::states;
use std::{fs, io};

/// Where the four frames of a log begin: a header with its table, a snapshot and two batches.
const FRAMES: [usize; 4] = [0, 72, 105, 179];

fn main(rt: HostRuntime) -> io::Result<()> {
    goes_on(&rt)?;
    passes_over_what_was_not_begun(&rt)?;
    refuses_what_is_damaged(&rt)?;
    begins_anew_after_a_crash(&rt)?;
    refuses_a_generation_alone(&rt)?;
    prints_each_kind(&rt)?;
    keeps_stations(&rt)?;
    tells_lengths_from_names(&rt)?;
    rolls(&rt)?;
    changes(&rt)?;
    reloads(&rt)?;
    states(&rt)?;
    formers(&rt)?;
    comes_back_to_the_present(&rt)?;
    wants_a_history(&rt)?;
    keeps_others_out(&rt)
}

/// A first start, one after two moves, and one after a torn end.
fn goes_on(rt: &HostRuntime) -> io::Result<()> {
    say(rt, "first", "state", OURS, 1000)?;
    record(rt, "state", login(rt)?, 1500)?;
    say(rt, "after an ask and a Start", "state", OURS, 2000)?;
    add(rt, "state/log-3", b"a torn end")?;
    say(rt, "after a torn end", "state", OURS, 2001)?;
    say(rt, "again", "state", OURS, 2002)
}

/// Newer generations without a whole snapshot: an empty log, and half a snapshot. No number is used
/// again.
fn passes_over_what_was_not_begun(rt: &HostRuntime) -> io::Result<()> {
    empty(rt, "state/log-9")?;
    say(rt, "after an empty log", "state", OURS, 2003)?;
    copy(rt, "state/log-10", "state/log-11")?;
    cut(rt, "state/log-11", 101)?;
    say(rt, "after half a snapshot", "state", OURS, 2004)
}

/// One octet of the newest log is another; then, in a whole frame, one of its header or of its table; and a
/// log has the name of another. What was refused is as it was: once it is mended, the server starts.
fn refuses_what_is_damaged(rt: &HostRuntime) -> io::Result<()> {
    copy(rt, "state/log-12", "kept")?;
    for at in [3, 10, 20, 21, 24, 28, 71, 75, 76, 91, 101] {
        spoil(rt, "state/log-12", at)?;
        print!(rt; "octet {at}, ")?;
        say(rt, "spoilt", "state", OURS, 2006)?;
        copy(rt, "kept", "state/log-12")?;
        let _ = fs::remove_file(rt, "state/log-13");
    }
    // the payload of 52 octets: the header of 8, the table
    for (at, octet) in [(0, 4), (1, 2), (2, 13), (8, 0), (9, 0), (51, 2)] {
        replace_first(rt, "state/log-12", 52, at, octet)?;
        print!(rt; "octet {at} is {octet}, ")?;
        say(rt, "in a whole frame", "state", OURS, 2007)?;
        copy(rt, "kept", "state/log-12")?;
        let _ = fs::remove_file(rt, "state/log-13");
    }
    copy(rt, "kept", "state/log-99")?;
    add(rt, "state/log-99", b"a torn end")?;
    copy(rt, "state/log-99", "kept")?;
    say(rt, "another name", "state", OURS, 2008)?;
    say(rt, "another name and other accounts", "state", OTHERS, 2008)?;
    cut_books(rt, "state", OURS, 2008)?;
    println!(rt;
        "as it was: {}",
        fs::read(rt, "state/log-99")? == fs::read(rt, "kept")?
    )?;
    fs::remove_file(rt, "state/log-99")?;
    say(rt, "mended", "state", OURS, 2009)
}

/// A crash in the very first start: no generation was begun.
fn begins_anew_after_a_crash(rt: &HostRuntime) -> io::Result<()> {
    fs::create_dir(rt, "crashed")?;
    empty(rt, "crashed/log-1")?;
    say(rt, "after an empty log", "crashed", OURS, 3000)?;
    cut(rt, "crashed/log-2", 30)?;
    say(rt, "after half a header", "crashed", OURS, 3001)?;
    cut(rt, "crashed/log-3", 80)?;
    say(rt, "after half a generation", "crashed", OURS, 3002)?;
    say(rt, "again", "crashed", OURS, 3003)
}

/// A later generation whose snapshot is not whole, and none before it.
fn refuses_a_generation_alone(rt: &HostRuntime) -> io::Result<()> {
    fs::create_dir(rt, "alone")?;
    empty(rt, "alone/log-2")?;
    say(rt, "a generation alone", "alone", OURS, 4000)
}

/// The lines of a log with a move of each kind, and of one with another name.
fn prints_each_kind(rt: &HostRuntime) -> io::Result<()> {
    record(rt, "printed", each_kind(rt)?, 1000)?;
    print(rt, "printed", 1)?;
    say(rt, "after a move of each kind", "printed", OURS, 1010)?;
    record(rt, "printed", login(rt)?, 1011)?;
    print(rt, "printed", 2)?;
    add(rt, "printed/log-3", b"a torn end")?;
    print(rt, "printed", 3)?;
    copy(rt, "printed/log-1", "printed/log-9")?;
    print(rt, "printed", 9)?;
    fs::remove_file(rt, "printed/log-9")
}

/// The lines of a log with stations and delays, and what goes on of them in the next generations.
fn keeps_stations(rt: &HostRuntime) -> io::Result<()> {
    record(rt, "stationed", stations(rt)?, 1000)?;
    print(rt, "stationed", 1)?;
    say(rt, "after moves of stations", "stationed", OURS, 1010)?;
    record(rt, "stationed", stations_again(rt)?, 1011)?;
    record(rt, "stationed", late_restarts(rt)?, 1012)
}

/// A spoilt length: of a snapshot, of a batch in the middle, and of the last one. Then a torn batch in
/// which a session's id is a whole frame, whoever chose it: it is cut off.
fn tells_lengths_from_names(rt: &HostRuntime) -> io::Result<()> {
    record_both(rt, "lengths", login(rt)?, each_kind(rt)?, 1000)?;
    copy(rt, "lengths/log-1", "kept")?;
    for at in FRAMES {
        spoil(rt, "lengths/log-1", at + 3)?;
        print!(rt; "a length at {at}: ")?;
        print(rt, "lengths", 1)?;
        say(rt, "a spoilt length", "lengths", OURS, 1001)?;
        copy(rt, "kept", "lengths/log-1")?;
    }
    record(rt, "lengths", frame_as_id(rt)?, 1002)?;
    cut_last(rt, "lengths/log-2")?;
    say(
        rt,
        "a torn batch with a whole frame in it",
        "lengths",
        OURS,
        1003,
    )
}

/// A clock that was ahead: no tick ends the session, until the books are cut to the present. Of a
/// rebase that a crash cut short the generation before is left.
fn comes_back_to_the_present(rt: &HostRuntime) -> io::Result<()> {
    record(rt, "ahead", late_login(rt)?, 999_990)?;
    say(rt, "a clock that was ahead", "ahead", OURS, 3000)?;
    record(rt, "ahead", tick(rt, 5000)?, 5000)?;
    cut_books(rt, "ahead", OTHERS, 6000)?;
    cut_books(rt, "ahead", OURS, 6000)?;
    cut(rt, "ahead/log-4", 100)?;
    say(rt, "after half a rebase", "ahead", OURS, 6001)?;
    cut_books(rt, "ahead", OURS, 6000)?;
    record(rt, "ahead", tick(rt, 7799)?, 7799)?;
    say(rt, "before the deadline", "ahead", OURS, 7799)?;
    record(rt, "ahead", tick(rt, 7800)?, 7800)?;
    say(rt, "after it", "ahead", OURS, 7800)?;
    cut_books(rt, "new", OURS, 6000)
}

/// A history that must exist: in no folder, which is not made, in an empty one, in one whose first start
/// has crashed, and in one that has it, with these accounts and with others.
fn wants_a_history(rt: &HostRuntime) -> io::Result<()> {
    say_if_there(rt, "no folder, and a history must exist", "wanted", 8000)?;
    match fs::create_dir(rt, "wanted") {
        Ok(()) => println!(rt; "no folder was made")?,
        Err(error) => return Err(error),
    }
    say_if_there(rt, "no history, and one must exist", "wanted", 8001)?;
    empty(rt, "wanted/log-1")?;
    say_if_there(
        rt,
        "half a generation, and a history must exist",
        "wanted",
        8002,
    )?;
    say(rt, "none need exist", "wanted", OURS, 8003)?;
    say_if_there(rt, "it exists", "wanted", 8004)?;
    say(rt, "other accounts", "wanted", OTHERS, 8005)?;
    say_if_there(rt, "it exists for others", "wanted", 8006)
}

/// A second server.
fn keeps_others_out(rt: &HostRuntime) -> io::Result<()> {
    let held = Folder::open(rt, rt.alloc(), "state");
    say(rt, "while another runs", "state", OURS, 5000)?;
    cut_books(rt, "state", OURS, 5000)?;
    drop(held);
    say(rt, "in no folder", "none/state", OURS, 5001)
}
