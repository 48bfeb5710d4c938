//! The logs of a running server's folder.

ghost use Rattle.std.specs.Prelude.{◌≡◌, ◌+◌, ◌<◌, All, IfOk};
ghost use Rattle.rld_folder.specs.Older.{IsOlder};
ghost use Rattle.rld_folder.specs.declared.name.Generation.TheVariants.{Numbered};
ghost use Rattle.rld_start.specs.Numbers.{greatest_by, number_of};

use crate::fault::StartFault;
use crate::files::create_log;
use crate::number::number_after;
use crate::written::Written;
use rld_config::Archive;
use rld_folder::{
    ArchivedLog, FileName, Folder, FolderFault, Generation, LogKey, NewLog, Removed, RoomMade,
    Synced, older_files,
};
use rld_log::{FileLog, Log, PacedLog, Pacing};
use std::alloc::Global;
use std::fs::{File, Files};

/// The octets of a megabyte.
const MEGABYTE: u64 = 1_000_000;

/// A log in which a generation can begin.
#[derive(Drop)]
pub struct NextLog<L> {
    /// The right to remove the log, which has the generation of its name. No log of the folder had
    /// that name before.
    pub key: LogKey,
    /// Its log, which is empty.
    pub log: L,
}

impl<L: Log> NextLog<L> {
    /// The log, synced as the pacing says.
    pub fn paced(self, pacing: Pacing<'_>) -> NextLog<PacedLog<'_, L>>
        ensures key { result.key ≡ self.key }
        ensures log { result.log.log ≡ self.log }
        ensures pace { result.log.pace ≡ pacing.entry.pace }
    {
        let NextLog { key, log } = self;
        NextLog {
            key,
            log: PacedLog::new(log, pacing),
        }
    }
}

/// The logs of a running server: that of its next generation, and those that no start needs any
/// more.
pub trait Generations {
    ghost use Rattle.std.specs.Prelude.{◌≡◌, ◌<◌, IfOk};

    /// Makes the log of the generation that follows the present one, whose number this is, and syncs its
    /// name.
    ///
    /// `NoNumber` comes if no number is left, and if the files of the folder have none that is as
    /// great as the present one. The other faults are the folder's: `Unread` if its files cannot be
    /// listed, `Unopened` if the log cannot be made, and `Unsynced` if its name cannot be synced;
    /// then it is removed again if possible: an empty log is no generation. After any fault a start
    /// goes on from the present generation.
    fn next_log(&self, alloc: Global, present: u64) -> Result<NextLog<FileLog>, StartFault>
        ensures { IfOk result (λ next. present < next.key.generation) };

    /// Syncs the log that a store writes to the disk, whatever the pacing. `Unopened` comes if it is
    /// missing or cannot be opened, and `Unsynced` if the system cannot say that the disk has it.
    fn sync(&self, alloc: Global, written: Written) -> Result<Synced, FolderFault>
        ensures { IfOk result (λ synced. synced.generation ≡ written.generation) };

    /// Removes a log that was made here and whose generation was not begun, or whose begin failed:
    /// it may have a whole snapshot, and then a start would go on from it. Until it is removed,
    /// nothing more may be recorded in the generation before it; so what goes on there requires a
    /// `Removed`.
    ///
    /// `Unremoved` comes if it cannot be removed. After `Unsynced` a loss of power may bring it
    /// back.
    fn remove(&self, alloc: Global, key: LogKey) -> Result<Removed, FolderFault>
        ensures { IfOk result (λ removed. removed.generation ≡ key.generation) };

    /// Puts away what is older than the generation that a store writes, as the archive is kept, once its log
    /// is on the disk: the logs before it, and the tables of versions before 0.4. They go to the folder
    /// `archive`, or are removed where nothing is kept. Files that were kept there for as many days as they
    /// shall be at this second since 1970 are removed, and then the oldest logs, until these have no more
    /// octets than they may.
    ///
    /// The first fault is the folder's. What cannot be put away stays in place, and the next call
    /// tries it again; nothing that a start needs is moved.
    fn put_away(&self, alloc: Global, newest: Written, now: u64) -> Result<(), FolderFault>;

    /// Removes the oldest logs of the archive, for a disk without room, and says which; `None` where the
    /// archive has none that takes room. The fault is the folder's; some of the logs may then be gone. Nothing
    /// that a start needs is removed.
    fn make_room(&self, alloc: Global) -> Result<Option<RoomMade>, FolderFault>;

    /// The logs of the archive, in no order, each with its octets; none where there is no archive. `Unread`
    /// comes where the archive, or what the system knows of a log, cannot be read.
    fn archived_logs(&self, alloc: Global) -> Result<Vec<ArchivedLog>, FolderFault>;
}

/// The logs of a folder, which is locked until the value is dropped.
#[derive(Drop)]
pub struct FolderGenerations<'a, R> {
    files: &'a R,
    folder: Folder,
    archive: Archive,
    megabytes: Option<u16>,
}

impl<'a, R: Files<File = File>> FolderGenerations<'a, R> {
    /// The logs of `folder`, whose archive is kept as `archive` says and has at most `megabytes` megabytes, if
    /// these are given.
    pub fn new(
        files: &'a R,
        folder: Folder,
        archive: Archive,
        megabytes: Option<u16>,
    ) -> FolderGenerations<'a, R>
        ensures folder { result.folder ≡ folder }
        ensures archive { result.archive ≡ archive }
        ensures megabytes { result.megabytes ≡ megabytes }
    {
        FolderGenerations {
            files,
            folder,
            archive,
            megabytes,
        }
    }

    /// Makes the log of the generation that follows a present one in a folder with these files.
    fn log_after(
        &self,
        alloc: Global,
        names: &[FileName],
        present: u64,
    ) -> Result<NextLog<FileLog>, StartFault>
        ensures newer { IfOk result (λ next. present < next.key.generation) }
        ensures number { IfOk result (λ next. next.key.generation
            ≡ greatest_by number_of names.now + 1) }
    {
        let generation = number_after(names, present)?;
        let NewLog { key, log } = create_log(self.files, alloc, &self.folder, generation)?;
        Ok(NextLog { key, log })
    }

    /// Moves or removes the files that are older than the generation that a store writes, once its log is on
    /// the disk.
    fn put_away_older(&self, alloc: Global, newest: Written) -> Result<(), FolderFault> {
        let names = self.folder.files(&(self.files, alloc))?;
        let present = Generation::Numbered(newest.generation());
        let older = older_files(alloc, names.as_slice(), present)?;
        if older.is_empty() {
            return Ok(());
        }
        let synced = self
            .folder
            .sync_log(self.files, alloc, newest.generation())?;
        self.put_away_files(alloc, newest, older.as_slice(), &synced)
    }

    /// Moves or removes files that are older than the generation that a store writes, whose log is on the
    /// disk.
    fn put_away_files(
        &self,
        alloc: Global,
        newest: Written,
        older: &[FileName],
        synced: &Synced,
    ) -> Result<(), FolderFault>
        requires synced { synced.now.generation ≡ newest.generation }
        requires older { All (IsOlder (Numbered newest.generation)) older.now }
    {
        let _written = newest;
        match self.archive {
            Archive::Keep | Archive::Days(_) => {
                self.folder.archive_files(self.files, alloc, older, synced)
            }
            Archive::Nothing => self.folder.remove_files(self.files, alloc, older, synced),
        }
    }

    /// Removes the oldest logs of the archive, where it has more octets than it may.
    fn remove_excess(&self, alloc: Global) -> Result<(), FolderFault> {
        match self.megabytes {
            Some(megabytes) => {
                let limit = u64::from(megabytes) * MEGABYTE;
                self.folder.remove_excess(&(self.files, alloc), limit)
            }
            None => Ok(()),
        }
    }

    /// Removes what the archive keeps no more: logs that were kept long enough at this second, and the
    /// oldest ones where it has too many octets.
    fn remove_unkept(&self, alloc: Global, now: u64) -> Result<(), FolderFault> {
        let expired = match self.archive {
            Archive::Keep if self.megabytes.is_none() => return Ok(()),
            Archive::Days(days) => self.folder.remove_expired(&(self.files, alloc), days, now),
            Archive::Keep | Archive::Nothing => Ok(()),
        };
        expired.and(self.remove_excess(alloc))
    }
}

impl<R: Files<File = File>> Generations for FolderGenerations<'_, R> {
    fn next_log(&self, alloc: Global, present: u64) -> Result<NextLog<FileLog>, StartFault> {
        let names = self.folder.files(&(self.files, alloc))?;
        self.log_after(alloc, names.as_slice(), present)
    }

    fn sync(&self, alloc: Global, written: Written) -> Result<Synced, FolderFault> {
        self.folder
            .sync_log(self.files, alloc, written.generation())
    }

    fn remove(&self, alloc: Global, key: LogKey) -> Result<Removed, FolderFault> {
        self.folder.remove_log(self.files, alloc, key)
    }

    fn put_away(&self, alloc: Global, newest: Written, now: u64) -> Result<(), FolderFault> {
        let moved = self.put_away_older(alloc, newest);
        let removed = self.remove_unkept(alloc, now);
        match moved {
            Ok(()) => removed,
            Err(fault) => Err(fault),
        }
    }

    fn make_room(&self, alloc: Global) -> Result<Option<RoomMade>, FolderFault> {
        self.folder.make_room(&(self.files, alloc))
    }

    fn archived_logs(&self, alloc: Global) -> Result<Vec<ArchivedLog>, FolderFault> {
        self.folder.archived_logs(&(self.files, alloc))
    }
}
