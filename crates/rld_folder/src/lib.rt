//! The folder of a server: the names of its files, its newest generation, and the lock of the one
//! process that may write there. It promises:
//! - A file's name is its definition's, and a name is read as the file that has it
//!   (`FileName::text`; `FileName::read`: `found`, `only`).
//! - The newest generation among files is there, and none is newer (`newest_generation`).
//! - Files are archived or removed together only where they are older than a generation whose log
//!   was synced (`Folder::archive_files`, `remove_files`: `requires`; `Folder::sync_log`).
//! - A log is removed alone only by the right that was given when it was made
//!   (`Folder::remove_log`).
//!
//! No clause says what `Folder` does with the system. That `Synced`, `Removed` and `LogKey` are
//! made only after the sync, the removal and the making is read from `archive.rt` and `new_log.rt`.
//! By tests alone (`test_folder`, `test_start`, `tests/programs/streams.py`): whose folder is
//! taken, that a second process is refused, that no log is written over.
#![tactic(auto)]

mod archive;
mod fault;
mod folder;
mod name;
mod new_log;
mod newest;
mod older;

pub use archive::{Removed, RoomMade, Synced};
pub use fault::FolderFault;
pub use folder::Folder;
pub use name::{FileName, Generation};
pub use new_log::{LogKey, NewLog};
pub use newest::newest_generation;
pub use older::{
    ArchivedLog, ROOM, excess_logs, is_expired, logs_for_room, octets_in, older_files,
};
