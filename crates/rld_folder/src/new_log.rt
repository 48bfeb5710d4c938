//! The log of a new generation, and the right to remove it.

ghost use Rattle.std.specs.Prelude.{◌≡◌, IfOk};

use crate::fault::FolderFault;
use crate::folder::Folder;
use crate::name::{FileName, Generation};
use rld_log::FileLog;
use std::alloc::Global;
use std::fs::File;
use std::rt::Files;

/// The right to remove the log of a generation: who made the log has it. Only
/// `Folder::create_log` makes one.
#[derive(Drop)]
pub struct LogKey {
    generation: u64,
}

impl LogKey {
    /// The number of the log's generation.
    pub fn generation(&self) -> u64
        ensures { result ≡ self.now.generation }
    {
        self.generation
    }
}

/// The empty log of a new generation.
#[derive(Drop)]
pub struct NewLog {
    /// The right to remove it, which has the generation of its name.
    pub key: LogKey,
    /// The log.
    pub log: FileLog,
}

impl Folder {
    /// Makes the empty log of the new generation of this number. Its name is synced; the log has to sync
    /// its octets.
    /// `Unopened` comes if it exists or cannot be made. `Unsynced` comes if its name cannot be
    /// synced; then it is removed again if possible.
    pub fn create_log<R: Files<File = File>>(
        &self,
        files: &R,
        alloc: Global,
        generation: u64,
    ) -> Result<NewLog, FolderFault>
        ensures { IfOk result (λ made. made.key.generation ≡ generation) }
    {
        let name = FileName::Log(Generation::Numbered(generation));
        let file = self.create(files, alloc, name)?;
        if let Err(fault) = self.sync(files) {
            let _ = self.remove_log_of(files, alloc, generation);
            return Err(fault);
        }
        Ok(NewLog {
            key: LogKey { generation },
            log: FileLog::new(file),
        })
    }
}
