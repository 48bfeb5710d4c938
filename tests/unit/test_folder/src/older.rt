//! The files that are older than a generation, and what becomes of them.

use crate::{former, say};
use rld_folder::{FileName, Folder, FolderFault, Generation, newest_generation, older_files};
use std::{fs, io};

/// A folder of a version before 0.4, in which a start has gone on.
const FORMER: &str = "former";

/// A folder of logs that have one number.
const LATER: &str = "later";

/// A folder of logs that are removed by their keys.
const KEYED: &str = "keyed";

/// Files of a folder: logs that have one number, and logs and tables of eras, of which one has a greater number.
const FILES: [FileName; 9] = [
    FileName::Log(Generation::Numbered(10)),
    FileName::FormerTable(40),
    FileName::Lock,
    FileName::Log(Generation::Former { era: 20, number: 1 }),
    FileName::FormerTable(1),
    FileName::Log(Generation::Numbered(9)),
    FileName::Log(Generation::Former { era: 1, number: 10 }),
    FileName::Log(Generation::Former { era: 1, number: 9 }),
    FileName::FormerTable(20),
];

/// Says which files are older than a generation, and what becomes of them in a folder.
pub fn say_older(rt: &HostRuntime) -> io::Result<()> {
    for newest in [
        Generation::Numbered(11),
        Generation::Numbered(10),
        Generation::Numbered(1),
        former(20, 1),
        former(1, 11),
        former(1, 9),
    ] {
        say_older_than(rt, &FILES, newest)?;
    }
    say_older_than(rt, &[], Generation::Numbered(1))?;
    say_newest_first(rt)?;
    puts_former_away(rt)?;
    removes_later(rt)?;
    removes_by_key(rt)
}

/// Says which of these files are older than a generation.
fn say_older_than(rt: &HostRuntime, files: &[FileName], newest: Generation) -> io::Result<()> {
    match older_files(rt.alloc(), files, newest) {
        Ok(older) => {
            print!(rt; "older than {}:", FileName::Log(newest))?;
            say_files(rt, older.as_slice())
        }
        Err(_) => println!(rt; "older files: no memory"),
    }
}

/// Says the names of files.
fn say_files(rt: &HostRuntime, files: &[FileName]) -> io::Result<()> {
    for file in files {
        print!(rt; " {file}")?;
    }
    println!(rt; "")
}

/// Says the generations of the files, the newest first.
fn say_newest_first(rt: &HostRuntime) -> io::Result<()> {
    print!(rt; "the newest first:")?;
    let mut limit = None;
    while let Some(newest) = newest_generation(&FILES, limit) {
        print!(rt; " {}", FileName::Log(newest))?;
        limit = Some(newest);
    }
    println!(rt; "")
}

/// Makes a folder of this path with these logs.
fn folder_with(rt: &HostRuntime, path: &str, logs: &[u64]) -> Result<Folder, FolderFault> {
    let folder = Folder::open(rt, rt.alloc(), path)?;
    for generation in logs {
        let _made = folder.create_log(rt, rt.alloc(), *generation)?;
    }
    Ok(folder)
}

/// Puts the files of a version before 0.4 away once there is a log that has one number.
fn puts_former_away(rt: &HostRuntime) -> io::Result<()> {
    let first = 1;
    let folder = match folder_with(rt, FORMER, &[first]) {
        Ok(folder) => folder,
        Err(fault) => return println!(rt; "a former folder: {fault}"),
    };
    for log in ["log-1-2", "log-2-1", "log-2-2"] {
        fs::write(
            rt,
            format!(in rt.alloc(); "{FORMER}/{log}")?.as_str(),
            "a log",
        )?;
    }
    fs::write(rt, "former/era-1", "a table")?;
    fs::write(rt, "former/era-2", "a table")?;
    say_folder(rt, &folder)?;
    say(rt, "no file put away", put_away(rt, &folder, &[], first))?;
    say_folder(rt, &folder)?;
    let older = match older_in(rt, &folder, first) {
        Ok(older) => older,
        Err(fault) => return println!(rt; "older files: {fault}"),
    };
    say(
        rt,
        "former files put away",
        put_away(rt, &folder, older.as_slice(), first),
    )?;
    say_folder(rt, &folder)?;
    fs::write(rt, "former/era-1", "another table")?;
    fs::write(rt, "former/era-3", "a table")?;
    let again = [FileName::FormerTable(1), FileName::FormerTable(3)];
    say(
        rt,
        "a table that the archive has",
        put_away(rt, &folder, &again, first),
    )?;
    say_folder(rt, &folder)?;
    fs::write(rt, "former/archive/lock", "no log, and no table")?;
    say(rt, "before a day", folder.remove_expired(rt, 1, 0))?;
    say_folder(rt, &folder)?;
    say(
        rt,
        "after many days",
        folder.remove_expired(rt, 1, u64::MAX),
    )?;
    say_folder(rt, &folder)
}

/// Removes files, of which one is not there: the others are gone all the same.
fn removes_later(rt: &HostRuntime) -> io::Result<()> {
    let newest = 3;
    let folder = match folder_with(rt, LATER, &[1, newest]) {
        Ok(folder) => folder,
        Err(fault) => return println!(rt; "a later folder: {fault}"),
    };
    fs::write(rt, "later/era-5", "a table")?;
    let older = [
        FileName::Log(Generation::Numbered(1)),
        FileName::Log(Generation::Numbered(2)),
        FileName::FormerTable(5),
    ];
    say(rt, "no file removed", remove(rt, &folder, &[], newest))?;
    say_folder(rt, &folder)?;
    say(rt, "files removed", remove(rt, &folder, &older, newest))?;
    say_folder(rt, &folder)
}

/// Removes a log by the key of its making, beside one of another number, and one that is gone already.
fn removes_by_key(rt: &HostRuntime) -> io::Result<()> {
    let folder = match Folder::open(rt, rt.alloc(), KEYED) {
        Ok(folder) => folder,
        Err(fault) => return println!(rt; "a folder for keys: {fault}"),
    };
    for generation in [7, 8] {
        let key = match folder.create_log(rt, rt.alloc(), generation) {
            Ok(made) => made.key,
            Err(fault) => return println!(rt; "a log for its key: {fault}"),
        };
        say_folder(rt, &folder)?;
        if generation == 8 {
            say(rt, "log-8 removed", folder.remove_log(rt, rt.alloc(), key))?;
            say_folder(rt, &folder)?;
        } else {
            fs::remove_file(rt, "keyed/log-7")?;
            say(rt, "log-7 removed", folder.remove_log(rt, rt.alloc(), key))?;
        }
    }
    Ok(())
}

/// The files of a folder that are older than a generation, in the order of `place`.
fn older_in(rt: &HostRuntime, folder: &Folder, newest: u64) -> Result<Vec<FileName>, FolderFault> {
    let mut files = folder.files(rt)?;
    files.sort_unstable_by_key(|file| place(*file));
    let newest = Generation::Numbered(newest);
    Ok(older_files(rt.alloc(), files.as_slice(), newest)?)
}

/// Puts files away that are older than a generation, once its log is synced.
fn put_away(
    rt: &HostRuntime,
    folder: &Folder,
    older: &[FileName],
    newest: u64,
) -> Result<(), FolderFault> {
    let newest = folder.sync_log(rt, rt.alloc(), newest)?;
    folder.archive_files(rt, rt.alloc(), older, &newest)
}

/// Removes files that are older than a generation, once its log is synced.
fn remove(
    rt: &HostRuntime,
    folder: &Folder,
    older: &[FileName],
    newest: u64,
) -> Result<(), FolderFault> {
    let newest = folder.sync_log(rt, rt.alloc(), newest)?;
    folder.remove_files(rt, rt.alloc(), older, &newest)
}

/// Says the files of a folder and of its archive.
fn say_folder(rt: &HostRuntime, folder: &Folder) -> io::Result<()> {
    say_among(rt, "there", folder.files(rt))?;
    say_among(rt, "put away", folder.archived(rt))
}

/// Says the names of files in the order of `place`.
fn say_among(
    rt: &HostRuntime,
    what: &str,
    files: Result<Vec<FileName>, FolderFault>,
) -> io::Result<()> {
    match files {
        Ok(mut files) => {
            files.sort_unstable_by_key(|file| place(*file));
            print!(rt; "{what}:")?;
            say_files(rt, files.as_slice())
        }
        Err(fault) => println!(rt; "{what}: {fault}"),
    }
}

/// Where a file stands in what is said.
pub fn place(file: FileName) -> (u8, u64, u64) {
    match file {
        FileName::Lock => (0, 0, 0),
        FileName::FormerTable(era) => (1, era, 0),
        FileName::Log(Generation::Former { era, number }) => (2, era, number),
        FileName::Log(Generation::Numbered(number)) => (3, number, 0),
    }
}
