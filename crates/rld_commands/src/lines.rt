//! `radlimitd lines`: the moves of logs, with their decisions.

ghost use Rattle.std.specs.Prelude.{◌≡◌, IfErr, IfOk, Some};
ghost use Rattle.std.specs.Path.{path_file_name};
ghost use Rattle.rld_commands.specs.Files.{IsOfFile};
ghost use Rattle.rld_commands.specs.Logs.{IsFaultOf};
ghost use Rattle.rld_folder.specs.Names.{name_of};

use crate::fault::Fault;
use crate::files::{bad_file, unreadable};
use crate::wrong::{BadLog, Wrong};
use rld_folder::{FileName, Generation};
use rld_lines::{LinesFault, LogFile, write_lines};
use rsl_account_file::{TextFault, read_file};
use std::alloc::Global;
use std::fs::Files;
use std::io::Write;
use std::path::Path;

/// Prints each move of these logs with its decision, a line each: those of the first file, then
/// those of the next. For each file with a torn end it writes its length to standard error.
///
/// A file whose name is not that of a log, or that cannot be read, is a `BadFile`. A damaged one is
/// a `BadLog`, with the first wrong offset, and so is one whose name a version before 0.4 gave it,
/// before it is read. The lines of the files before it are printed, and its own of the batches
/// before that offset.
pub(crate) fn lines<F: Files, W: Write, S: Write>(
    files: &F,
    alloc: Global,
    names: &[&str],
    writer: &mut W,
    stderr: &mut S,
) -> Result<(), Fault> {
    for name in names {
        lines_of(files, alloc, name, writer, stderr)?;
    }
    Ok(writer.flush()?)
}

/// Prints the moves of one log.
fn lines_of<F: Files, W: Write, S: Write>(
    files: &F,
    alloc: Global,
    name: &str,
    writer: &mut W,
    stderr: &mut S,
) -> Result<(), Fault> {
    let generation = generation_of(alloc, name)?;
    let octets = octets_of(files, alloc, name)?;
    let log = LogFile {
        name,
        generation,
        octets,
    };
    match write_lines(alloc, log, writer) {
        Ok(printed) if printed.torn > 0 => {
            writeln!(stderr, "{name}: a torn end of {} octets", printed.torn)?;
            Ok(())
        }
        Ok(_) => Ok(()),
        Err(fault) => Err(fault_of(alloc, name, fault)),
    }
}

/// The number of the generation in a file's name.
fn generation_of(alloc: Global, name: &str) -> Result<u64, Fault>
    ensures { IfOk result (λ number. path_file_name name.now
        ≡ Some (name_of (FileName.Log (Generation.Numbered number)))) }
{
    let Some(last) = Path::new(name).file_name() else {
        return Err(bad_file(alloc, name, Wrong::NoLog));
    };
    match FileName::read(alloc, last)? {
        Some(FileName::Log(Generation::Numbered(number))) => Ok(number),
        Some(FileName::Log(Generation::Former { .. })) => {
            Err(fault_of(alloc, name, LinesFault::former()))
        }
        _ => Err(bad_file(alloc, name, Wrong::NoLog)),
    }
}

/// The octets of a file.
pub(crate) fn octets_of<F: Files>(files: &F, alloc: Global, name: &str) -> Result<Vec<u8>, Fault>
    ensures { IfErr result (IsOfFile name.now) }
{
    match read_file(files, alloc, name, u32::MAX) {
        Ok(octets) => Ok(octets),
        Err(TextFault::NoMemory) => Err(Fault::NoMemory),
        Err(TextFault::TooLong) => Err(bad_file(alloc, name, Wrong::TooLong)),
        Err(TextFault::Unreadable) => Err(unreadable(files, alloc, name)),
    }
}

/// The fault of a log of this name; that of memory, if its name finds none.
pub(crate) fn fault_of(alloc: Global, name: &str, fault: LinesFault) -> Fault
    ensures { IsFaultOf name.now fault result }
{
    match fault {
        LinesFault::NoMemory => Fault::NoMemory,
        LinesFault::Unwritten => Fault::InputOutput,
        LinesFault::Log(wrong) => match String::from_str(alloc, name) {
            Ok(name) => Fault::BadLog(BadLog { name, wrong }),
            Err(_) => Fault::NoMemory,
        },
    }
}
