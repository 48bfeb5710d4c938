use std::alloc::{AllocError, AllocFailed};
use std::io::{self, ErrorKind};
use thiserror::Error;

/// Why a call on a server's folder failed.
#[derive(Clone, Copy, Debug, Error)]
pub enum FolderFault {
    /// Memory was refused.
    #[error("no memory")]
    NoMemory,
    /// The folder is missing and could not be made.
    #[error("cannot be made")]
    Unmade,
    /// The folder, or its list of files, could not be read.
    #[error("cannot be read")]
    Unread,
    /// Its name is not that of a folder.
    #[error("is no folder")]
    NoFolder,
    /// The folder belongs to another user than the one who runs the process.
    #[error("belongs to another user")]
    Foreign,
    /// A link is in the place of a file of the server.
    #[error("has a link in place of a file")]
    Linked,
    /// Others than its owner may write to the folder.
    #[error("others may write to it")]
    Exposed,
    /// Another process holds the folder's lock.
    #[error("busy")]
    Busy,
    /// The lock could not be taken.
    #[error("cannot be locked")]
    Unlocked,
    /// A file could not be opened or made.
    #[error("cannot be opened")]
    Unopened,
    /// A file could not be written.
    #[error("cannot be written")]
    Unwritten,
    /// A file could not be made or written, for the disk has no room for it, or the user's quota is used up.
    #[error("no room on the disk")]
    NoRoom,
    /// A file could not be moved to the archive.
    #[error("a file cannot be moved")]
    Unmoved,
    /// A file could not be removed.
    #[error("a file cannot be removed")]
    Unremoved,
    /// The folder could not be synced: a new file may be lost with a loss of power.
    #[error("cannot be synced")]
    Unsynced,
}

impl FolderFault {
    /// The fault of a failed system call: `NoMemory` if memory was refused, `NoRoom` if the disk has no room,
    /// and else this one.
    pub(crate) fn of(error: &io::Error, fault: FolderFault) -> FolderFault {
        match error.kind() {
            ErrorKind::OutOfMemory => FolderFault::NoMemory,
            ErrorKind::StorageFull | ErrorKind::QuotaExceeded => FolderFault::NoRoom,
            _ => fault,
        }
    }
}

impl From<AllocError> for FolderFault {
    fn from(_refused: AllocError) -> FolderFault {
        FolderFault::NoMemory
    }
}

impl<T: Drop> From<AllocFailed<T>> for FolderFault {
    fn from(_refused: AllocFailed<T>) -> FolderFault {
        FolderFault::NoMemory
    }
}
