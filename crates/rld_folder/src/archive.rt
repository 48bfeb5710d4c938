//! The files that no start needs any more: they are moved to the folder `archive` beside the others,
//! or removed.

ghost use Rattle.std.specs.Prelude.{◌≡◌, All, IfOk};
ghost use Rattle.rld_folder.specs.Older.{IsOlder};
ghost use Rattle.rld_folder.specs.declared.name.Generation.TheVariants.{Numbered};

use crate::fault::FolderFault;
use crate::folder::{Folder, files_among, make_folder, path_in, sync_names};
use crate::name::{FileName, Generation};
use crate::new_log::LogKey;
use crate::older::{ArchivedLog, excess_logs, is_expired, logs_for_room};
use std::alloc::{AllocError, Global};
use std::fmt;
use std::fs::{self, File};
use std::io::ErrorKind;
use std::rt::Files;
use std::time::UNIX_EPOCH;

/// Proof that the log of a generation is on the disk, as it was when this value was made. Only
/// `Folder::sync_log` makes one.
#[derive(Drop)]
pub struct Synced {
    generation: u64,
}

/// Proof that the log of a generation was removed, and the names of the folder synced. Only
/// `Folder::remove_log` gives one.
#[derive(Drop)]
pub struct Removed {
    generation: u64,
}

/// Which logs have left an archive for a disk without room: its oldest ones.
#[derive(Clone, Copy, Debug)]
pub struct RoomMade {
    /// How many.
    pub logs: u64,
    /// The newest of them.
    pub newest: Generation,
}

impl fmt::Display for RoomMade {
    /// The line that says it, without its line feed.
    fn fmt<W: fmt::Write>(&self, f: &mut fmt::Formatter<W>) -> fmt::Result {
        let RoomMade { logs, newest } = self;
        write!(
            f,
            "no room on the disk: oldest logs removed from the archive: {logs}, up to {}",
            FileName::Log(*newest)
        )
    }
}

/// The first fault of several files, if any.
fn first_fault(
    before: Result<(), FolderFault>,
    next: Result<(), FolderFault>,
) -> Result<(), FolderFault> {
    match before {
        Ok(()) => next,
        Err(fault) => Err(fault),
    }
}

/// Whether a folder cannot be listed because it is missing, or is a file.
fn is_none(kind: ErrorKind) -> bool {
    kind == ErrorKind::NotFound || kind == ErrorKind::NotADirectory
}

/// Moves a file, but not over one that is there.
fn move_file<R: Files<File = File>>(files: &R, from: &str, to: &str) -> Result<(), FolderFault> {
    if fs::symlink_metadata(files, to).is_ok() {
        return Err(FolderFault::Unmoved);
    }
    match fs::rename(files, from, to) {
        Ok(()) => Ok(()),
        Err(error) => Err(FolderFault::of(&error, FolderFault::Unmoved)),
    }
}

/// Removes a file.
fn remove_file<R: Files<File = File>>(files: &R, path: &str) -> Result<(), FolderFault> {
    match fs::remove_file(files, path) {
        Ok(()) => Ok(()),
        Err(error) => Err(FolderFault::of(&error, FolderFault::Unremoved)),
    }
}

/// How many octets a file has.
fn len_of<R: Files<File = File>>(files: &R, path: &str) -> Result<u64, FolderFault> {
    match fs::metadata(files, path) {
        Ok(found) => Ok(found.len()),
        Err(error) => Err(FolderFault::of(&error, FolderFault::Unread)),
    }
}

/// The second since 1970 at which a file changed last.
fn changed<R: Files<File = File>>(files: &R, path: &str) -> Result<u64, FolderFault> {
    let found = match fs::metadata(files, path) {
        Ok(found) => found,
        Err(error) => return Err(FolderFault::of(&error, FolderFault::Unread)),
    };
    let Ok(changed) = found.modified() else {
        return Err(FolderFault::Unread);
    };
    match changed.duration_since(UNIX_EPOCH) {
        Ok(since) => Ok(since.as_secs()),
        Err(_) => Err(FolderFault::Unread),
    }
}

impl Folder {
    /// The path of the archive.
    fn archive_path(&self, alloc: Global) -> Result<String, AllocError> {
        let path = self.path.as_str();
        format!(in alloc; "{path}/archive")
    }

    /// Puts the octets of a log on the disk, whoever wrote them. `Unopened` comes if it is missing
    /// or cannot be opened, and `Unsynced` if the system cannot say that the disk has them.
    pub fn sync_log<R: Files<File = File>>(
        &self,
        files: &R,
        alloc: Global,
        generation: u64,
    ) -> Result<Synced, FolderFault>
        ensures { IfOk result (λ synced. synced.generation ≡ generation) }
    {
        let path = self.path_of(alloc, FileName::Log(Generation::Numbered(generation)))?;
        let file = match File::open(files, path.as_str()) {
            Ok(file) => file,
            Err(error) => return Err(FolderFault::of(&error, FolderFault::Unopened)),
        };
        match file.sync_all() {
            Ok(()) => Ok(Synced { generation }),
            Err(_) => Err(FolderFault::Unsynced),
        }
    }

    /// Removes a log by the key that its making gave. `Unremoved` comes if it is missing or cannot be
    /// removed; after `Unsynced` it is gone, but a loss of power may bring it back.
    pub fn remove_log<R: Files<File = File>>(
        &self,
        files: &R,
        alloc: Global,
        key: LogKey,
    ) -> Result<Removed, FolderFault>
        ensures { IfOk result (λ removed. removed.generation ≡ key.generation) }
    {
        self.remove_log_of(files, alloc, key.generation())
    }

    /// Removes the log of a generation, as `remove_log` does.
    pub(crate) fn remove_log_of<R: Files<File = File>>(
        &self,
        files: &R,
        alloc: Global,
        generation: u64,
    ) -> Result<Removed, FolderFault>
        ensures { IfOk result (λ removed. removed.generation ≡ generation) }
    {
        self.remove_named(
            files,
            alloc,
            FileName::Log(Generation::Numbered(generation)),
        )?;
        self.sync(files)?;
        Ok(Removed { generation })
    }

    /// Removes files that are older than a generation whose log is on the disk, and then syncs the
    /// names. After a fault of one the others are removed all the same, and the first fault is given:
    /// `Unremoved` if a file is missing or cannot be removed. After `Unsynced` they are gone, but a
    /// loss of power may bring them back.
    pub fn remove_files<R: Files<File = File>>(
        &self,
        files: &R,
        alloc: Global,
        older: &[FileName],
        newest: &Synced,
    ) -> Result<(), FolderFault>
        requires { All (IsOlder (Numbered newest.now.generation)) older.now }
    {
        if older.is_empty() {
            return Ok(());
        }
        let mut outcome = Ok(());
        for file in older {
            outcome = first_fault(outcome, self.remove_named(files, alloc, *file));
        }
        first_fault(outcome, self.sync(files))
    }

    /// Removes a file. Its name is not synced.
    fn remove_named<R: Files<File = File>>(
        &self,
        files: &R,
        alloc: Global,
        file: FileName,
    ) -> Result<(), FolderFault> {
        let path = self.path_of(alloc, file)?;
        remove_file(files, path.as_str())
    }

    /// Moves files that are older than a generation whose log is on the disk to the archive, which is
    /// made, with mode 700, if it is missing. After a fault of one the others are moved all the same,
    /// and the first fault is given.
    ///
    /// `Unmade` comes if the archive cannot be made; then nothing has changed. `Unmoved` comes if a
    /// file is missing or cannot be moved, or the archive has one of its name. After `Unsynced` they
    /// are moved, but a loss of power may undo that.
    pub fn archive_files<R: Files<File = File>>(
        &self,
        files: &R,
        alloc: Global,
        older: &[FileName],
        newest: &Synced,
    ) -> Result<(), FolderFault>
        requires { All (IsOlder (Numbered newest.now.generation)) older.now }
    {
        if older.is_empty() {
            return Ok(());
        }
        let archive = self.archive_path(alloc)?;
        make_folder(files, archive.as_str())?;
        let mut outcome = Ok(());
        for file in older {
            let moved = self.archive_file(files, alloc, archive.as_str(), *file);
            outcome = first_fault(outcome, moved);
        }
        let synced = first_fault(sync_names(files, archive.as_str()), self.sync(files));
        first_fault(outcome, synced)
    }

    /// Moves a file to the archive of this path.
    fn archive_file<R: Files<File = File>>(
        &self,
        files: &R,
        alloc: Global,
        archive: &str,
        file: FileName,
    ) -> Result<(), FolderFault> {
        let from = self.path_of(alloc, file)?;
        let to = path_in(alloc, archive, file)?;
        move_file(files, from.as_str(), to.as_str())
    }

    /// The files of the archive, in no order; none if there is no archive. `Unread` comes if the
    /// system does not list them, and `NoMemory` if memory is refused.
    pub fn archived<R: Files<File = File> + Alloc<A = Global> + Clone + Drop>(
        &self,
        rt: &R,
    ) -> Result<Vec<FileName>, FolderFault> {
        let archive = self.archive_path(rt.alloc())?;
        match fs::read_dir(rt, archive.as_str()) {
            Ok(entries) => files_among(rt.alloc(), entries),
            Err(error) if is_none(error.kind()) => Ok(Vec::new(rt.alloc())),
            Err(error) => Err(FolderFault::of(&error, FolderFault::Unread)),
        }
    }

    /// Removes the logs and the tables of the archive whose last change is more than `days` days before
    /// second `now` since 1970. After a fault of one the others are removed all the same, and the first
    /// fault is given: `Unread` if the archive, or the date of a file, cannot be read, and `Unremoved` if
    /// one cannot be removed.
    pub fn remove_expired<R: Files<File = File> + Alloc<A = Global> + Clone + Drop>(
        &self,
        rt: &R,
        days: u16,
        now: u64,
    ) -> Result<(), FolderFault> {
        let archive = self.archive_path(rt.alloc())?;
        let mut outcome = Ok(());
        for file in self.archived(rt)?.as_slice() {
            if let FileName::Log(_) | FileName::FormerTable(_) = file {
                let path = path_in(rt.alloc(), archive.as_str(), *file)?;
                outcome = first_fault(outcome, remove_if_expired(rt, path.as_str(), days, now));
            }
        }
        outcome
    }

    /// The logs of its archive, in no order, each with its octets; none where there is no archive. `Unread`
    /// comes where the archive, or what the system knows of a log, cannot be read.
    pub fn archived_logs<R: Files<File = File> + Alloc<A = Global> + Clone + Drop>(
        &self,
        rt: &R,
    ) -> Result<Vec<ArchivedLog>, FolderFault> {
        let archive = self.archive_path(rt.alloc())?;
        let mut logs = Vec::new(rt.alloc());
        for file in self.archived(rt)?.as_slice() {
            if let FileName::Log(generation) = file {
                let path = path_in(rt.alloc(), archive.as_str(), *file)?;
                logs.push(ArchivedLog {
                    generation: *generation,
                    octets: len_of(rt, path.as_str())?,
                })?;
            }
        }
        Ok(logs)
    }

    /// Removes the oldest logs of the archive, one after the other, until what is left has at most `limit`
    /// octets (`excess_logs`). Where it fails for one the others are removed all the same, and the first
    /// fault is given: `Unread` where the archive, or what the system knows of a log, cannot be read; then
    /// none is removed. `Unremoved` where one cannot be removed.
    pub fn remove_excess<R: Files<File = File> + Alloc<A = Global> + Clone + Drop>(
        &self,
        rt: &R,
        limit: u64,
    ) -> Result<(), FolderFault> {
        let logs = self.archived_logs(rt)?;
        let archive = self.archive_path(rt.alloc())?;
        let mut outcome = Ok(());
        for generation in excess_logs(rt.alloc(), logs, limit)?.as_slice() {
            let path = path_in(rt.alloc(), archive.as_str(), FileName::Log(*generation))?;
            outcome = first_fault(outcome, remove_file(rt, path.as_str()));
        }
        outcome
    }

    /// Removes the oldest logs of the archive, for a disk without room (`logs_for_room`), and says which; `None`
    /// where the archive has no log, or only empty ones. With a fault some of them may be gone: `Unread` where
    /// the archive, or what the system knows of a log, cannot be read; then none is. `Unremoved` where one
    /// cannot be removed.
    pub fn make_room<R: Files<File = File> + Alloc<A = Global> + Clone + Drop>(
        &self,
        rt: &R,
    ) -> Result<Option<RoomMade>, FolderFault> {
        let logs = self.archived_logs(rt)?;
        let archive = self.archive_path(rt.alloc())?;
        let mut made = None;
        for generation in logs_for_room(rt.alloc(), logs)?.as_slice() {
            let path = path_in(rt.alloc(), archive.as_str(), FileName::Log(*generation))?;
            remove_file(rt, path.as_str())?;
            made = Some(with_log(made, *generation));
        }
        Ok(made)
    }
}

/// What was removed for room, once another log was, which is newer than those before.
fn with_log(made: Option<RoomMade>, newest: Generation) -> RoomMade
    ensures newest { result.newest ≡ newest }
{
    let logs = match made {
        Some(made) => made.logs.saturating_add(1),
        None => 1,
    };
    RoomMade { logs, newest }
}

/// Removes a file whose last change is more than `days` days before second `now` since 1970.
fn remove_if_expired<R: Files<File = File>>(
    files: &R,
    path: &str,
    days: u16,
    now: u64,
) -> Result<(), FolderFault> {
    if is_expired(days, changed(files, path)?, now) {
        remove_file(files, path)
    } else {
        Ok(())
    }
}
