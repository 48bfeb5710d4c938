//! The numbers of new generations, none of which is used twice.

ghost use Rattle.std.specs.Prelude.{◌≡◌, ◌+◌, ◌^◌, ◌<◌, ◌≤◌, IfOk, MatchOption};
ghost use Rattle.std.specs.List.{list_any};
ghost use Rattle.rld_start.specs.Numbers.{greatest_by, greatest_of, is_counted, is_later_log, is_one, may_begin, number_of};

use crate::fault::StartFault;
use rld_folder::{FileName, Generation};

/// The number of the generation whose log a file is, or 0 for any other file.
fn number_of(file: FileName) -> u64
    ensures { result ≡ number_of file }
{
    match file {
        FileName::Log(Generation::Numbered(number)) => number,
        FileName::Log(Generation::Former { .. }) | FileName::Lock | FileName::FormerTable(_) => 0,
    }
}

/// The greater of two numbers.
fn greater(some: u64, other: u64) -> u64
    ensures { result ≡ greatest_of some other }
{
    if some < other { other } else { some }
}

/// The number of the next generation in a folder with these files: one more than the greatest of a
/// log, or 1 if there is none. `None` if no number of 64 bits is left.
pub fn next_generation(files: &[FileName]) -> Option<u64>
    ensures { MatchOption result (2 ^ 64 ≤ greatest_by number_of files.now + 1)
        (λ number. number ≡ greatest_by number_of files.now + 1) }
{
    let mut most = 0;
    for file in files {
        most = greater(most, number_of(*file));
    }
    most.checked_add(1)
}

/// The number of the next generation in a folder with these files. `NoNumber` comes if none is left.
pub(crate) fn new_number(files: &[FileName]) -> Result<u64, StartFault>
    ensures { IfOk result (λ number. number ≡ greatest_by number_of files.now + 1) }
{
    match next_generation(files) {
        Some(number) => Ok(number),
        None => Err(StartFault::NoNumber),
    }
}

/// The number of the generation that follows a present one in a folder with these files. `NoNumber`
/// comes if no number is left, and if the one that follows from the files is not greater than the
/// present one, since they have no file of that.
pub(crate) fn number_after(files: &[FileName], present: u64) -> Result<u64, StartFault>
    ensures newer { IfOk result (λ number. present < number) }
    ensures number { IfOk result (λ number. number ≡ greatest_by number_of files.now + 1) }
{
    match next_generation(files) {
        Some(number) if present < number => Ok(number),
        _ => Err(StartFault::NoNumber),
    }
}

/// Whether a file is a log with one number.
fn is_counted(file: FileName) -> bool
    ensures { result ≡ is_counted file }
{
    matches!(file, FileName::Log(Generation::Numbered(_)))
}

/// Whether a file is the first of these.
fn is_one(file: FileName) -> bool
    ensures { result ≡ is_one file }
{
    number_of(file) == 1
}

/// Whether a file is the log of a version before 0.4, and not the first of its era.
fn is_later_log(file: FileName) -> bool
    ensures { result ≡ is_later_log file }
{
    match file {
        FileName::Log(Generation::Former { number, .. }) => 1 < number,
        FileName::Log(Generation::Numbered(_)) | FileName::Lock | FileName::FormerTable(_) => false,
    }
}

/// Whether a log with one number is among these files.
fn has_counted(files: &[FileName]) -> bool
    ensures { result ≡ list_any is_counted files.now }
{
    files.iter().any(|file| is_counted(*file))
}

/// Whether the first of these is.
fn has_one(files: &[FileName]) -> bool
    ensures { result ≡ list_any is_one files.now }
{
    files.iter().any(|file| is_one(*file))
}

/// Whether a log of a version before 0.4 is, which is not the first of its era.
fn has_later_log(files: &[FileName]) -> bool
    ensures { result ≡ list_any is_later_log files.now }
{
    files.iter().any(|file| is_later_log(*file))
}

/// Whether a new history may begin beside these files, of which no generation was begun: there is no
/// log with one number, or the first of them is there too, and each log of a version before 0.4 is
/// the first of its era.
pub(crate) fn may_begin(files: &[FileName]) -> bool
    ensures { result ≡ may_begin files.now }
{
    !has_later_log(files) && (has_one(files) || !has_counted(files))
}
