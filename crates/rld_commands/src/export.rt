//! `radlimitd export`: the sessions of the logs of a state folder.

ghost use Rattle.std.specs.Prelude.{◌≡◌, ◌<◌, ◌++◌, ◌∷◌, ◌⊎◌, [], ℕ, List, Err, IfErr, IfNone, IfOk, None, Ok, if◌then◌else◌, option_map};
ghost use Rattle.rld_commands.specs.Exporting.{IsMoment};
ghost use Rattle.rld_commands.specs.declared.fault.Fault.TheVariants.{NoMemory as no_memory, Usage as usage};
ghost use Rattle.rld_values.specs.Dates.{AreDates};
ghost use Rattle.rld_words.specs.Given.{has, seen, value_of};

use crate::cause::cause_of;
use crate::fault::Fault;
use crate::files::{bad_file, state_of};
use crate::lines::{fault_of, octets_of};
use crate::wrong::Wrong;
use rld_export::{Export, Form, Span, Wanted, read_moment};
use rld_folder::{FileName, Generation};
use rld_lines::{LinesFault, LogFile};
use rld_words::{Flag, Given, Misuse, Topic};
use rsl_wire::NoMemory;
use std::alloc::Global;
use std::fs::{self, File, Files};
use std::io::{ErrorKind, Write};

/// The logs of a state folder and of its archive, from the oldest to the newest.
#[derive(Drop)]
struct Logs {
    /// Those of a version before 0.4, each by its era and its number.
    former: Vec<(u64, u64)>,
    /// The others, by their numbers.
    numbered: Vec<u64>,
}

/// The paths of a log: in the state folder, and in its archive.
#[derive(Drop)]
struct LogPaths {
    present: String,
    archived: String,
}

/// Prints the sessions that the logs of the state folder of the server's file have, a line each:
/// those that ended, in the order in which that is found, and then those that are still held. The
/// server may run meanwhile: nothing is locked, and nothing is changed.
///
/// `Usage` comes if the words are none of the command's, before anything is read. A `BadLog` comes if
/// a version before 0.4 gave a log its name, before any log is read. A log that is removed before it is
/// read is left out; standard error says so, and the torn end of another log than the newest. A file
/// that cannot be read is a `BadFile`, and a damaged one a `BadLog`: what comes before its first wrong
/// place is printed.
pub(crate) fn export<R, W: Write, S: Write>(
    rt: &R,
    alloc: Global,
    given: &Given<'_>,
    writer: &mut W,
    stderr: &mut S,
) -> Result<(), Fault>
where
    R: Files<File = File> + Alloc<A = Global> + Clone + Drop,
{
    let (name, []) = given.file(Topic::Export)? else {
        return unreadable();
    };
    let wanted = wanted_of(alloc, given)?;
    let state = state_of(rt, alloc, name)?;
    let logs = logs_of(rt, alloc, state.as_str())?;
    check_former(alloc, state.as_str(), logs.former.as_slice())?;
    let logs = logs.numbered.as_slice();
    export_logs(rt, alloc, state.as_str(), logs, wanted, writer, stderr)
}

/// Checks that a state folder and its archive have no logs of a version before 0.4, whose sessions would
/// be missing. `BadLog` of the oldest comes if there are some.
fn check_former(alloc: Global, state: &str, logs: &[(u64, u64)]) -> Result<(), Fault>
    ensures { IfOk result (λ _. logs.now ≡ []) }
{
    let Some(log) = logs.first() else {
        return Ok(());
    };
    let (era, number) = *log;
    let file = FileName::Log(Generation::Former { era, number });
    let path = format!(in alloc; "{state}/{file}")?;
    Err(fault_of(alloc, path.as_str(), LinesFault::former()))
}

/// Prints what is wanted of the logs of a state folder, from the oldest to the newest.
fn export_logs<F: Files, W: Write, S: Write>(
    files: &F,
    alloc: Global,
    state: &str,
    logs: &[u64],
    wanted: Wanted,
    writer: &mut W,
    stderr: &mut S,
) -> Result<(), Fault> {
    let mut found = match Export::new(alloc, wanted, writer) {
        Ok(found) => found,
        Err(fault) => return Err(fault_of(alloc, state, fault)),
    };
    read_logs(files, alloc, state, logs, &mut found, writer, stderr)?;
    match found.finish(alloc, writer) {
        Ok(()) => Ok(writer.flush()?),
        Err(fault) => Err(fault_of(alloc, state, fault)),
    }
}

/// Reads logs one after the other, writes the sessions that ended in them, and says the torn end of each but the
/// last.
fn read_logs<F: Files, W: Write, S: Write>(
    files: &F,
    alloc: Global,
    state: &str,
    logs: &[u64],
    found: &mut Export,
    writer: &mut W,
    stderr: &mut S,
) -> Result<(), Fault> {
    for (at, number) in logs.iter().enumerate() {
        let name = FileName::Log(Generation::Numbered(*number)).text(alloc)?;
        let name = name.as_str();
        let torn = read_log(files, alloc, state, name, *number, found, writer, stderr)?;
        if torn > 0 && at + 1 < logs.len() {
            writeln!(stderr, "{name}: a torn end of {torn} octets")?;
        }
    }
    Ok(())
}

/// What flags ask for: `--csv`, and `--since` and `--until` with a moment after each, the first of which is the
/// lower.
fn wanted_of(alloc: Global, given: &Given<'_>) -> Result<Wanted, Fault>
    ensures form { IfOk result (λ wanted.
        wanted.form ≡ (if has (seen given.now) Flag.Csv then Form.Csv else Form.Json)) }
    ensures from_first { value_of (seen given.now) Flag.Since ≡ None →
        IfOk result (λ wanted. wanted.span.since ≡ 0) }
    ensures to_last { value_of (seen given.now) Flag.Until ≡ None →
        IfOk result (λ wanted. wanted.span.until ≡ u64.MAX) }
    ensures since { (dates : ℕ → List ℕ) → AreDates dates → IfOk result (λ wanted.
        IsMoment dates (value_of (seen given.now) Flag.Since) wanted.span.since) }
    ensures until { (dates : ℕ → List ℕ) → AreDates dates → IfOk result (λ wanted.
        IsMoment dates (value_of (seen given.now) Flag.Until) wanted.span.until) }
    ensures span { IfOk result (λ wanted. wanted.span.since < wanted.span.until) }
    ensures fault { IfErr result (λ fault. (fault ≡ no_memory) ⊎ (fault ≡ usage (Misuse.Unreadable Topic.Export))) }
{
    let form = if given.has(Flag::Csv) {
        Form::Csv
    } else {
        Form::Json
    };
    let span = Span {
        since: moment_of(alloc, given.value(Flag::Since), 0)?,
        until: moment_of(alloc, given.value(Flag::Until), u64::MAX)?,
    };
    if span.since < span.until {
        Ok(Wanted { form, span })
    } else {
        unreadable()
    }
}

/// The moment that a word names, or else this one where there is no word.
fn moment_of(alloc: Global, word: Option<&str>, none: u64) -> Result<u64, Fault>
    ensures none { IfNone word.entry (result ≡ Ok none) }
    ensures named { (dates : ℕ → List ℕ) → AreDates dates →
        IfOk result (IsMoment dates (option_map (λ word. word.now) word.entry)) }
    ensures fault { IfErr result (λ fault. (fault ≡ no_memory) ⊎ (fault ≡ usage (Misuse.Unreadable Topic.Export))) }
{
    let Some(word) = word else {
        return Ok(none);
    };
    match read_moment(alloc, word)? {
        Some(moment) => Ok(moment),
        None => unreadable(),
    }
}

/// The fault of words that ask for nothing.
fn unreadable<T>() -> Result<T, Fault>
    ensures { result ≡ Err (usage (Misuse.Unreadable Topic.Export)) }
{
    Err(Fault::Usage(Misuse::Unreadable(Topic::Export)))
}

/// The logs of a state folder and of its archive. The archive is looked at last, so that a log which
/// is moved there meanwhile is found.
fn logs_of<R>(rt: &R, alloc: Global, state: &str) -> Result<Logs, Fault>
where
    R: Files<File = File> + Alloc<A = Global> + Clone + Drop,
{
    let mut logs = Logs {
        former: Vec::new(alloc),
        numbered: Vec::new(alloc),
    };
    push_logs(rt, alloc, &mut logs, state)?;
    let archive = format!(in alloc; "{state}/archive")?;
    if is_there(rt, archive.as_str()) {
        push_logs(rt, alloc, &mut logs, archive.as_str())?;
    }
    logs.former.sort_unstable();
    logs.former.dedup();
    logs.numbered.sort_unstable();
    logs.numbered.dedup();
    Ok(logs)
}

/// Adds a value to a list.
fn push<T: Drop>(list: &mut Vec<T>, value: T) -> Result<(), NoMemory>
    ensures { IfOk result (λ _. list.new.items ≡ list.old.items ++ value ∷ []) }
{
    list.push(value)?;
    Ok(())
}

/// Adds the logs of a folder.
fn push_logs<R>(rt: &R, alloc: Global, logs: &mut Logs, folder: &str) -> Result<(), Fault>
where
    R: Files<File = File> + Alloc<A = Global> + Clone + Drop,
{
    let entries = match fs::read_dir(rt, folder) {
        Ok(entries) => entries,
        Err(error) => {
            let wrong = Wrong::Unreadable(cause_of(error.kind()));
            return Err(bad_file(alloc, folder, wrong));
        }
    };
    for entry in entries {
        match entry {
            Ok(entry) => match FileName::read(alloc, entry.file_name())? {
                Some(FileName::Log(Generation::Numbered(number))) => {
                    push(&mut logs.numbered, number)?;
                }
                Some(FileName::Log(Generation::Former { era, number })) => {
                    push(&mut logs.former, (era, number))?;
                }
                _ => {}
            },
            // A name that is not UTF-8 is not one of the server's.
            Err(error) if error.kind() == ErrorKind::InvalidFilename => {}
            Err(error) => {
                let wrong = Wrong::Unreadable(cause_of(error.kind()));
                return Err(bad_file(alloc, folder, wrong));
            }
        }
    }
    Ok(())
}

/// Whether there is a file or a folder of this name.
fn is_there<F: Files>(files: &F, path: &str) -> bool {
    match fs::metadata(files, path) {
        Ok(_) => true,
        Err(error) => error.kind() != ErrorKind::NotFound,
    }
}

/// Reads a log of this name and number, writes the sessions that ended in it, and gives the octets
/// of its torn end.
fn read_log<F: Files, W: Write, S: Write>(
    files: &F,
    alloc: Global,
    state: &str,
    name: &str,
    generation: u64,
    found: &mut Export,
    writer: &mut W,
    stderr: &mut S,
) -> Result<usize, Fault> {
    let paths = LogPaths {
        present: format!(in alloc; "{state}/{name}")?,
        archived: format!(in alloc; "{state}/archive/{name}")?,
    };
    let Some(octets) = octets_of_log(files, alloc, &paths)? else {
        writeln!(stderr, "{name}: it was removed before it was read")?;
        return Ok(0);
    };
    let log = LogFile {
        name,
        generation,
        octets,
    };
    match found.read(alloc, log, writer) {
        Ok(torn) => Ok(torn),
        Err(fault) => Err(fault_of(alloc, paths.present.as_str(), fault)),
    }
}

/// The octets of a log, in the state folder or in its archive, or `None` if it is in neither.
fn octets_of_log<F: Files>(
    files: &F,
    alloc: Global,
    paths: &LogPaths,
) -> Result<Option<Vec<u8>>, Fault> {
    match octets_of(files, alloc, paths.present.as_str()) {
        Ok(octets) => return Ok(Some(octets)),
        Err(fault) => {
            if is_there(files, paths.present.as_str()) {
                return Err(fault);
            }
        }
    }
    match octets_of(files, alloc, paths.archived.as_str()) {
        Ok(octets) => Ok(Some(octets)),
        Err(Fault::NoMemory) => Err(Fault::NoMemory),
        Err(_) if !is_there(files, paths.archived.as_str()) => Ok(None),
        Err(fault) => Err(fault),
    }
}
