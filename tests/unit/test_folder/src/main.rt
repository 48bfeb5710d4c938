//! The program `test_folder`: makes a server's folder in the folder that it runs in, and says what
//! each call on it gives; which account files have a table; which files are older than a generation, and which
//! logs go of an archive that has a size.
#![tactic(auto)]

mod older;
mod sizes;
mod tables;

use older::say_older;
use rld_folder::{FileName, Folder, FolderFault, Generation, newest_generation};
use rld_log::{Log, LogFault};
use sizes::say_sizes;
use std::fs::{self, Permissions};
use std::io;
use std::os::unix::fs::PermissionsExt;
use tables::say_tables;

/// The folder that is made.
const STATE: &str = "state";

fn main(rt: HostRuntime) -> io::Result<()> {
    makes_files(&rt)?;
    keeps_others_out(&rt)?;
    finds_what_is_there(&rt)?;
    say_tables(&rt)?;
    say_older(&rt)?;
    say_sizes(&rt)
}

/// What a call says: `ok`, or its fault.
fn say<T: Drop>(rt: &HostRuntime, call: &str, made: Result<T, FolderFault>) -> io::Result<()> {
    match made {
        Ok(_) => println!(rt; "{call}: ok"),
        Err(fault) => println!(rt; "{call}: {fault}"),
    }
}

/// Makes logs, of which one is there already, beside logs of a version before and what has no name of the
/// server's.
fn makes_files(rt: &HostRuntime) -> io::Result<()> {
    let folder = match Folder::open(rt, rt.alloc(), STATE) {
        Ok(folder) => folder,
        Err(fault) => return println!(rt; "a new folder: {fault}"),
    };
    say_newest(rt, &folder)?;
    fs::write(rt, "state/log-3-10", "")?;
    fs::write(rt, "state/log-3-9", "")?;
    say_newest(rt, &folder)?;
    makes_log(rt, &folder, 1)?;
    makes_log(rt, &folder, 1)?;
    for name in [
        "era-03",
        "log-",
        "log-01",
        "log-+1",
        "log-1-",
        "log--1",
        "log-1-07",
        "log-1-2-3",
        "log-17 ",
        "log-18446744073709551616",
    ] {
        fs::write(
            rt,
            format!(in rt.alloc(); "{STATE}/{name}")?.as_str(),
            "no name of ours",
        )?;
    }
    fs::write(rt, "state/archive", "nor this")?;
    fs::write(rt, "state/era-0", "names")?;
    say_newest(rt, &folder)?;
    makes_log(rt, &folder, u64::MAX)?;
    say_newest(rt, &folder)
}

/// Makes the log of a generation, and says which its key names.
fn makes_log(rt: &HostRuntime, folder: &Folder, generation: u64) -> io::Result<()> {
    let name = FileName::Log(Generation::Numbered(generation)).text(rt.alloc())?;
    match folder.create_log(rt, rt.alloc(), generation) {
        Ok(made) => println!(rt; "{name}: ok, {}", made.key.generation()),
        Err(fault) => println!(rt; "{name}: {fault}"),
    }
}

/// Opens the folder a second time, and where others may write to it.
fn keeps_others_out(rt: &HostRuntime) -> io::Result<()> {
    let held = Folder::open(rt, rt.alloc(), STATE);
    say(rt, "while it is held", Folder::open(rt, rt.alloc(), STATE))?;
    drop(held);
    say(rt, "once it is free", Folder::open(rt, rt.alloc(), STATE))?;
    fs::set_permissions(rt, STATE, Permissions::from_mode(0o720))?;
    say(
        rt,
        "a group that may write",
        Folder::open(rt, rt.alloc(), STATE),
    )?;
    fs::set_permissions(rt, STATE, Permissions::from_mode(0o755))?;
    say(
        rt,
        "others that may read",
        Folder::open(rt, rt.alloc(), STATE),
    )?;
    say(rt, "a file", Folder::open(rt, rt.alloc(), "state/era-0"))?;
    say(
        rt,
        "in no folder",
        Folder::open(rt, rt.alloc(), "none/state"),
    )
}

/// Reads back what was written.
fn finds_what_is_there(rt: &HostRuntime) -> io::Result<()> {
    let folder = match Folder::open(rt, rt.alloc(), STATE) {
        Ok(folder) => folder,
        Err(fault) => return println!(rt; "the folder: {fault}"),
    };
    match folder.read_former_table(rt, rt.alloc(), 0) {
        Ok(octets) if octets.as_slice() == b"names".as_slice() => println!(rt;
            "era-0: as written"
        )?,
        Ok(octets) => println!(rt; "era-0: {} octets", octets.len())?,
        Err(fault) => println!(rt; "era-0: {fault}")?,
    }
    say(rt, "era-1", folder.read_former_table(rt, rt.alloc(), 1))?;
    match folder.open_log(rt, rt.alloc(), Generation::Numbered(1)) {
        Ok(mut log) => match written_and_read(rt, &mut log) {
            Ok(count) => println!(rt; "log-1: {count} octets")?,
            Err(fault) => println!(rt; "log-1: {fault}")?,
        },
        Err(fault) => println!(rt; "log-1: {fault}")?,
    }
    say(rt, "log-3-9", folder.open_log(rt, rt.alloc(), former(3, 9)))?;
    say(
        rt,
        "log-2",
        folder.open_log(rt, rt.alloc(), Generation::Numbered(2)),
    )
}

/// Writes six octets to a log that is empty, and counts what a read gives.
fn written_and_read<L: Log>(rt: &HostRuntime, log: &mut L) -> Result<usize, LogFault> {
    let _ = log.read(rt.alloc())?;
    log.append(b"octets")?;
    log.sync()?;
    Ok(log.read(rt.alloc())?.len())
}

/// A generation of a version before 0.4.
fn former(era: u64, number: u64) -> Generation {
    Generation::Former { era, number }
}

/// Says how many files of the server's there are, and which two generations are the newest.
fn say_newest(rt: &HostRuntime, folder: &Folder) -> io::Result<()> {
    let files = match folder.files(rt) {
        Ok(files) => files,
        Err(fault) => return println!(rt; "its files: {fault}"),
    };
    let Some(newest) = newest_generation(files.as_slice(), None) else {
        return println!(rt; "files: {}, no generation", files.len());
    };
    let Some(before) = newest_generation(files.as_slice(), Some(newest)) else {
        return println!(rt; "files: {}, one generation", files.len());
    };
    println!(rt;
        "files: {}, newest {}, before it {}",
        files.len(),
        FileName::Log(newest),
        FileName::Log(before)
    )
}
