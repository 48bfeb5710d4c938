//! Which logs go of an archive that has a size, and of one on a disk without room.

use crate::former;
use crate::older::place;
use rld_folder::{
    ArchivedLog, FileName, Folder, FolderFault, Generation, excess_logs, logs_for_room,
};
use std::{fs, io};

/// The folder whose archive has logs.
const SIZED: &str = "sized";

/// The folder on whose disk room is made.
const ROOMY: &str = "roomy";

/// A log of an archive.
fn log(number: u64, octets: u64) -> ArchivedLog {
    ArchivedLog {
        generation: Generation::Numbered(number),
        octets,
    }
}

/// A log of an archive, of a version before 0.4.
fn former_log(era: u64, number: u64, octets: u64) -> ArchivedLog {
    ArchivedLog {
        generation: former(era, number),
        octets,
    }
}

/// Says which logs go of an archive, in no order, that have 1,150 octets. The oldest is log-2-9, then come log-2-10,
/// log-1 and log-2.
pub fn say_sizes(rt: &HostRuntime) -> io::Result<()> {
    let logs = [
        log(1, 50),
        former_log(2, 10, 100),
        log(2, 0),
        former_log(2, 9, 1_000),
    ];
    for limit in [1_151, 1_150, 1_149, 150, 149, 50, 49, 0] {
        say_excess(rt, &logs, limit)?;
    }
    say_excess(rt, &[], 0)?;
    say_ages(rt)?;
    say_rooms(rt)?;
    removes_the_oldest(rt)?;
    makes_room(rt)
}

/// Says the logs of an archive, the oldest first.
fn say_ages(rt: &HostRuntime) -> io::Result<()> {
    let logs = [
        log(10, 1),
        former_log(2, 1, 1),
        log(9, 1),
        former_log(1, 10, 1),
        log(1, 1),
        former_log(1, 9, 1),
        former_log(0, u64::MAX, 1),
    ];
    say_excess(rt, &logs, 0)
}

/// Says which logs go where the disk has no room: the oldest, until 4,000,000 octets are gone, and no more.
fn say_rooms(rt: &HostRuntime) -> io::Result<()> {
    let large = [
        log(11, 1),
        log(10, 2_000_000),
        log(9, 1_999_999),
        log(12, 5_000_000),
    ];
    say_room(rt, &large)?;
    say_room(rt, &[former_log(3, 1, 4_000_000), log(2, 1)])?;
    say_room(rt, &[log(2, 9), log(1, 1)])?;
    say_room(rt, &[log(1, 0)])?;
    say_room(rt, &[])
}

/// Says which of these logs go where the disk has no room.
fn say_room(rt: &HostRuntime, logs: &[ArchivedLog]) -> io::Result<()> {
    let mut all = Vec::new(rt.alloc());
    all.extend_from_slice(logs)?;
    match logs_for_room(rt.alloc(), all) {
        Ok(gone) => say_gone(rt, "for room", gone.as_slice()),
        Err(_) => println!(rt; "for room: no memory"),
    }
}

/// Says which logs go.
fn say_gone(rt: &HostRuntime, why: &str, gone: &[Generation]) -> io::Result<()> {
    print!(rt; "{why}:")?;
    for generation in gone {
        print!(rt; " {}", FileName::Log(*generation))?;
    }
    println!(rt; "")
}

/// Makes room on the disk of a folder that has no archive, of one whose logs take 4,000,001 octets, and again.
fn makes_room(rt: &HostRuntime) -> io::Result<()> {
    let folder = match Folder::open(rt, rt.alloc(), ROOMY) {
        Ok(folder) => folder,
        Err(fault) => return println!(rt; "a folder for room: {fault}"),
    };
    make_room(rt, &folder)?;
    fs::create_dir(rt, "roomy/archive")?;
    let mut large = Vec::new(rt.alloc());
    large.resize(3_999_999, 0u8)?;
    fs::write(rt, "roomy/archive/log-7-2", "0")?;
    fs::write(rt, "roomy/archive/log-1", large.as_slice())?;
    fs::write(rt, "roomy/archive/log-2", "0")?;
    fs::write(rt, "roomy/archive/era-7", "a table")?;
    for _ in 0..3 {
        make_room(rt, &folder)?;
    }
    Ok(())
}

/// Makes room, and says what has gone and what is left.
fn make_room(rt: &HostRuntime, folder: &Folder) -> io::Result<()> {
    match folder.make_room(rt) {
        Ok(Some(made)) => println!(rt; "{made}")?,
        Ok(None) => println!(rt; "no log to remove")?,
        Err(fault) => println!(rt; "{fault}")?,
    }
    say_archive(rt, folder, "left")
}

/// Says which of these logs go for what is left to have at most `limit` octets.
fn say_excess(rt: &HostRuntime, logs: &[ArchivedLog], limit: u64) -> io::Result<()> {
    let mut all = Vec::new(rt.alloc());
    all.extend_from_slice(logs)?;
    match excess_logs(rt.alloc(), all, limit) {
        Ok(gone) => {
            let why = format!(in rt.alloc(); "over {limit}")?;
            say_gone(rt, why.as_str(), gone.as_slice())
        }
        Err(_) => println!(rt; "over {limit}: no memory"),
    }
}

/// Removes logs from an archive until it has few enough octets. What is no log stays.
fn removes_the_oldest(rt: &HostRuntime) -> io::Result<()> {
    let folder = match Folder::open(rt, rt.alloc(), SIZED) {
        Ok(folder) => folder,
        Err(fault) => return println!(rt; "a sized folder: {fault}"),
    };
    say_archive(rt, &folder, "no archive")?;
    remove(rt, &folder, 0)?;
    fs::create_dir(rt, "sized/archive")?;
    for (name, text) in [
        ("log-1-2", "0123456789"),
        ("log-1", "01234"),
        ("log-10", "012"),
        ("era-1", "a table"),
        ("log-03", "no name of ours"),
    ] {
        fs::write(
            rt,
            format!(in rt.alloc(); "sized/archive/{name}")?.as_str(),
            text,
        )?;
    }
    say_archive(rt, &folder, "an archive")?;
    remove(rt, &folder, 18)?;
    remove(rt, &folder, 17)?;
    remove(rt, &folder, 2)
}

/// Removes the oldest logs, and says what is left.
fn remove(rt: &HostRuntime, folder: &Folder, limit: u64) -> io::Result<()> {
    match folder.remove_excess(rt, limit) {
        Ok(()) => print!(rt; "at most {limit}: ")?,
        Err(fault) => print!(rt; "at most {limit}: {fault}: ")?,
    }
    say_archive(rt, folder, "left")
}

/// Says which logs an archive has, in their order, with their octets.
fn say_archive(rt: &HostRuntime, folder: &Folder, what: &str) -> io::Result<()> {
    let mut logs: Vec<ArchivedLog> = match folder.archived_logs(rt) {
        Ok(logs) => logs,
        Err(fault) => return say_fault(rt, what, fault),
    };
    logs.sort_unstable_by_key(|log| place(FileName::Log(log.generation)));
    print!(rt; "{what}:")?;
    for log in logs.as_slice() {
        print!(rt; " {} of {}", FileName::Log(log.generation), log.octets)?;
    }
    println!(rt; "")
}

/// Says why an archive is not read.
fn say_fault(rt: &HostRuntime, what: &str, fault: FolderFault) -> io::Result<()> {
    println!(rt; "{what}: {fault}")
}
