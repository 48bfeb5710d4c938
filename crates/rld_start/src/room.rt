//! Room for what a start has to write, on a disk that has none.

ghost use Rattle.std.specs.Prelude.{◌≡◌};
ghost use Rattle.rld_start.specs.Room.{is_full_for, is_full_for_file, is_full_for_log};

use crate::beginning::open_folder;
use crate::fault::StartFault;
use rld_config::NewHistory;
use rld_folder::{FolderFault, RoomMade};
use rld_log::LogFault;
use std::alloc::Global;
use std::fs::{File, Files};

/// Whether the disk had no room for a file of the folder.
fn is_full_for_file(fault: FolderFault) -> bool
    ensures { result ≡ is_full_for_file fault }
{
    matches!(fault, FolderFault::NoRoom)
}

/// Whether the disk had no room for what a log was to get.
fn is_full_for_log(fault: LogFault) -> bool
    ensures { result ≡ is_full_for_log fault }
{
    matches!(fault, LogFault::NoRoom)
}

impl StartFault {
    /// Whether the disk had no room for what was to be written.
    pub fn is_full(&self) -> bool
        ensures { result ≡ is_full_for self.now }
    {
        match self {
            StartFault::Folder(fault) | StartFault::File(_, fault) => is_full_for_file(*fault),
            StartFault::Log(_, fault) => is_full_for_log(*fault),
            _ => false,
        }
    }
}

/// Removes the oldest logs of the archive of a state folder that no server has, for a start that found no
/// room on the disk, and says which (`rld_folder::Folder::make_room`); `None` where the archive has none that
/// takes room. No start needs a log of the archive.
///
/// The faults are those of `open_folder` and of the folder. Some of the logs may then be gone.
pub fn make_room<R: Files<File = File> + Alloc<A = Global> + Clone + Drop>(
    rt: &R,
    alloc: Global,
    path: &str,
    new_history: NewHistory,
) -> Result<Option<RoomMade>, StartFault> {
    let folder = open_folder(rt, alloc, path, new_history)?;
    Ok(folder.make_room(rt)?)
}
