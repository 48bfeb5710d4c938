//! The files that no start needs any more, and the logs that go of an archive.

ghost use Rattle.std.specs.Prelude.{◌≡◌, ◌↔◌, ◌<◌, ◌^◌, ◌-◌, All, IfOk, IsTrue};
ghost use Rattle.rld_folder.specs.Older.{AreExcess, IsExpired, IsOlder, age, excess, is_numbered, is_older, octets_in, older_files};

use crate::name::{FileName, Generation};
use std::alloc::{AllocError, Global};

/// The seconds of a day.
const DAY_SECS: u64 = 86_400;

/// How many octets of logs leave the archive each time that its disk has no room.
pub const ROOM: u64 = 4_000_000;

const _: () = prove!(ROOM == 4_000_000);

/// Whether a generation is counted by one number, in no era.
fn is_numbered(generation: Generation) -> bool
    ensures { result ≡ is_numbered generation }
{
    match generation {
        Generation::Former { .. } => false,
        Generation::Numbered(_) => true,
    }
}

/// Whether a file is older than the newest generation: the log of one before it; or, where it is of no
/// era, the table of one.
fn is_older(newest: Generation, file: FileName) -> bool
    ensures test { result ≡ is_older newest file }
    ensures older { IsTrue result → IsOlder newest file }
{
    match file {
        FileName::Log(generation) => generation.precedes(newest),
        FileName::FormerTable(_) => is_numbered(newest),
        FileName::Lock => false,
    }
}

/// Those of these files that no start needs once the log of the newest generation is on the disk, in order: the
/// logs before it; and, where it is of no era, the tables of eras. It fails only if memory is refused.
pub fn older_files(
    alloc: Global,
    files: &[FileName],
    newest: Generation,
) -> Result<Vec<FileName>, AllocError>
    ensures files { IfOk result (λ older. older.items ≡ older_files newest files.now) }
    ensures older { IfOk result (λ older. All (IsOlder newest) older.items) }
{
    let mut older = Vec::new(alloc);
    for file in files {
        if is_older(newest, *file) {
            older.push(*file)?;
        }
    }
    Ok(older)
}

/// A log of an archive.
#[derive(Clone, Copy)]
pub struct ArchivedLog {
    /// Its generation.
    pub generation: Generation,
    /// How many octets it has.
    pub octets: u64,
}

/// How many octets logs have together; at most 2^64 - 1.
pub fn octets_in(logs: &[ArchivedLog]) -> u64
    ensures { octets_in logs.now < 2 ^ 64 → result ≡ octets_in logs.now }
{
    let mut octets: u64 = 0;
    for log in logs {
        octets = octets.saturating_add(log.octets);
    }
    octets
}

/// The place of a generation in the order of age: those of eras first, by era and number, and then the others.
fn age(generation: Generation) -> (u8, u64, u64)
    ensures { result ≡ age generation }
{
    match generation {
        Generation::Former { era, number } => (0, era, number),
        Generation::Numbered(number) => (1, number, 0),
    }
}

/// Of the logs of an archive those that go for what is left to have at most `limit` octets: the oldest first,
/// and no more of them than that takes. It fails only where memory is refused.
pub fn excess_logs(
    alloc: Global,
    mut logs: Vec<ArchivedLog>,
    limit: u64,
) -> Result<Vec<Generation>, AllocError>
    ensures { IfOk result (λ gone. AreExcess limit logs.items gone.items) }
{
    logs.sort_by_cached_key(|log| age(log.generation))?;
    let gone = excess(alloc, logs.as_slice(), limit)?;
    Ok(gone)
}

/// Of logs, the oldest first, those that go for what is left to have at most `limit` octets.
fn excess(alloc: Global, logs: &[ArchivedLog], limit: u64) -> Result<Vec<Generation>, AllocError>
    ensures { IfOk result (λ gone. octets_in logs.now < 2 ^ 64 → gone.items ≡ excess limit logs.now) }
{
    let mut left = octets_in(logs);
    let mut gone = Vec::new(alloc);
    for log in logs {
        if left <= limit {
            return Ok(gone);
        }
        gone.push(log.generation)?;
        left = left.saturating_sub(log.octets);
    }
    Ok(gone)
}

/// Of the logs of an archive those that go where its disk has no room: the oldest first, until `ROOM` octets
/// are gone, and no more of them than that takes. It fails only where memory is refused.
pub fn logs_for_room(alloc: Global, logs: Vec<ArchivedLog>) -> Result<Vec<Generation>, AllocError>
    ensures { octets_in logs.items < 2 ^ 64 →
        IfOk result (λ gone. AreExcess (octets_in logs.items - ROOM) logs.items gone.items) }
{
    let limit = octets_in(logs.as_slice()).saturating_sub(ROOM);
    excess_logs(alloc, logs, limit)
}

/// Whether a file that last changed at `changed` has been kept for more than `days` days at `now`.
/// Both moments are in seconds since 1970.
pub fn is_expired(days: u16, changed: u64, now: u64) -> bool
    ensures { IsTrue result ↔ IsExpired days changed now }
{
    u64::from(days) * DAY_SECS < now.saturating_sub(changed)
}
