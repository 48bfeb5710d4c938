//! Generations that follow one another while a server runs, and what becomes of the old ones.

use crate::files::copy;
use crate::running::Running;
use crate::server::{OURS, login, say};
use rld_config::Archive;
use rld_log::Ticks;
use std::fs::{self, File};
use std::io;
use std::time::{Duration, UNIX_EPOCH};

/// The folder.
const FOLDER: &str = "rolled";

/// A second since 1970 at which the logs changed last, as the test sets it.
const CHANGED: u64 = 1_000_000;

/// What comes of generations while a server runs.
pub fn rolls(rt: &HostRuntime) -> io::Result<()> {
    rolls_twice(rt)?;
    stays_where_it_cannot_roll(rt)?;
    keeps_none(rt)?;
    keeps_for_days(rt)?;
    refuses_a_gap(rt)
}

/// The names in a folder, in their order.
pub fn list(rt: &HostRuntime, path: &str) -> io::Result<()> {
    let mut names = Vec::new(rt.alloc());
    for entry in fs::read_dir(rt, path)? {
        names.push(String::from_str(rt.alloc(), entry?.file_name())?)?;
    }
    names.sort()?;
    print!(rt; "{path}:")?;
    for name in names.as_slice() {
        print!(rt; " {name}")?;
    }
    println!(rt; "")
}

/// Two rolls, each after two moves, and the archive that is kept.
fn rolls_twice(rt: &HostRuntime) -> io::Result<()> {
    let ticks = Ticks::new();
    let Some(mut running) = Running::start(rt, FOLDER, Archive::Keep, 1000, &ticks)? else {
        return Ok(());
    };
    running.commit(rt, login(rt)?)?;
    running.roll(rt, 2, "")?;
    running.put_away(rt, 1001)?;
    running.commit(rt, login(rt)?)?;
    running.roll(rt, 2, "")?;
    running.put_away(rt, 1002)?;
    list(rt, "rolled")?;
    list(rt, "rolled/archive")
}

/// A roll whose log is not empty: the server goes on in the generation that it has.
fn stays_where_it_cannot_roll(rt: &HostRuntime) -> io::Result<()> {
    let ticks = Ticks::new();
    let Some(mut running) = Running::start(rt, FOLDER, Archive::Keep, 1003, &ticks)? else {
        return Ok(());
    };
    running.roll(rt, 0, "octets")?;
    running.roll_after(rt, 5)?;
    running.commit(rt, login(rt)?)?;
    running.roll(rt, 2, "")?;
    list(rt, "rolled")
}

/// Old logs that are not kept. One that is in the archive stays there.
fn keeps_none(rt: &HostRuntime) -> io::Result<()> {
    let ticks = Ticks::new();
    let Some(running) = Running::start(rt, FOLDER, Archive::Nothing, 1004, &ticks)? else {
        return Ok(());
    };
    running.put_away(rt, 1004)?;
    list(rt, "rolled")?;
    list(rt, "rolled/archive")
}

/// Tells the system that a file changed last at a moment.
fn set_changed(rt: &HostRuntime, path: &str, moment: u64) -> io::Result<()> {
    let file: File = File::open(rt, path)?;
    match UNIX_EPOCH.checked_add(Duration::from_secs(moment)) {
        Some(changed) => file.set_modified(changed),
        None => Err(io::Error::from(io::ErrorKind::InvalidInput)),
    }
}

/// A log that was kept for just two days, and then for a second more. Another file stays.
fn keeps_for_days(rt: &HostRuntime) -> io::Result<()> {
    let ticks = Ticks::new();
    let Some(running) = Running::start(rt, FOLDER, Archive::Days(2), 1005, &ticks)? else {
        return Ok(());
    };
    fs::write(rt, "rolled/archive/log-01", "notes")?;
    set_changed(rt, "rolled/archive/log-1", CHANGED)?;
    set_changed(rt, "rolled/archive/log-01", CHANGED)?;
    running.put_away(rt, CHANGED + 172_800)?;
    list(rt, "rolled/archive")?;
    running.put_away(rt, CHANGED + 172_801)?;
    list(rt, "rolled/archive")
}

/// The newest log is gone, and then an old one stands in its place: what the archive has is not
/// forgotten in silence.
fn refuses_a_gap(rt: &HostRuntime) -> io::Result<()> {
    fs::rename(rt, "rolled/log-7", "kept-newest")?;
    say(rt, "no log but in the archive", FOLDER, OURS, 1006)?;
    copy(rt, "rolled/archive/log-2", "rolled/log-2")?;
    say(rt, "an old log again", FOLDER, OURS, 1007)?;
    fs::remove_file(rt, "rolled/log-2")?;
    fs::rename(rt, "kept-newest", "rolled/log-7")?;
    say(rt, "mended", FOLDER, OURS, 1008)
}
