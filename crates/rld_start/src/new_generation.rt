//! Beginning a generation with other books than those of the one before.

ghost use Rattle.std.specs.Prelude.{◌≡◌, IfOk};

use crate::fault::{StartFault, file_fault};
use crate::files::create_log;
use crate::refused::log_refused;
use rld_books::ServerBooks;
use rld_folder::{FileName, Folder, Generation, LogKey, NewLog, Synced};
use rld_log::{FileLog, PacedLog, Pacing};
use rld_spelling::Header;
use rld_store::Store;
use rsl_accounts::Config;
use std::alloc::Global;
use std::fs::{File, Files};
use std::sync::Arc;

/// A generation that was begun.
#[derive(Drop)]
pub(crate) struct NewGeneration<'a> {
    /// Its books, and its log.
    pub(crate) store: Store<PacedLog<'a, FileLog>>,
    /// The right to remove that log, which has the generation of its name.
    pub(crate) key: LogKey,
}

/// Begins the generation of this header with these books of a configuration, in a new log, which is
/// synced as the pacing says. A crash at any call leaves no generation that was begun, or all of it.
/// After a fault of that log it is removed if possible, so that the disk has its room.
pub(crate) fn begin_generation<'a, R: Files<File = File>>(
    files: &R,
    alloc: Global,
    config: Arc<Config>,
    folder: &Folder,
    header: Header,
    books: ServerBooks,
    pacing: Pacing<'a>,
) -> Result<NewGeneration<'a>, StartFault>
    ensures key { IfOk result (λ begun. begun.key.generation ≡ header.generation) }
    ensures header { IfOk result (λ begun. begun.store.header ≡ header) }
    ensures config { IfOk result (λ begun. begun.store.config ≡ config) }
    ensures books { IfOk result (λ begun. begun.store.books ≡ books) }
{
    let NewLog { key, log } = create_log(files, alloc, folder, header.generation)?;
    match Store::begin_with(alloc, config, header, books, PacedLog::new(log, pacing)) {
        Ok(store) => Ok(NewGeneration { store, key }),
        Err(refused) => {
            let _ = folder.remove_log(files, alloc, key);
            Err(log_refused(Generation::Numbered(header.generation), refused.fault))
        }
    }
}

/// Syncs the log of a begun generation to the disk.
pub(crate) fn sync_begun<R: Files<File = File>>(
    files: &R,
    alloc: Global,
    folder: &Folder,
    header: &Header,
) -> Result<Synced, StartFault>
    ensures { IfOk result (λ synced. synced.generation ≡ header.now.generation) }
{
    match folder.sync_log(files, alloc, header.generation) {
        Ok(synced) => Ok(synced),
        Err(fault) => {
            let log = FileName::Log(Generation::Numbered(header.generation));
            Err(file_fault(log, fault))
        }
    }
}
