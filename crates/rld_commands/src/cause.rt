//! Why the system does not give something, in the words of a person.

use std::fs::{self, Files};
use std::io::{ErrorKind, Read};

/// The cause of a failed system call.
pub fn cause_of(kind: ErrorKind) -> &'static str {
    match kind {
        ErrorKind::NotFound => "no such file",
        ErrorKind::PermissionDenied => "permission denied",
        ErrorKind::IsADirectory => "is a folder",
        ErrorKind::NotADirectory => "what should be a folder is a file",
        ErrorKind::FilesystemLoop => "links go in a circle",
        ErrorKind::InvalidFilename | ErrorKind::InvalidInput => "the name cannot be used",
        ErrorKind::AddrInUse => "in use",
        ErrorKind::AddrNotAvailable => "no address of this machine",
        ErrorKind::ReadOnlyFilesystem => "nothing can be written there",
        ErrorKind::StorageFull | ErrorKind::QuotaExceeded => "no room",
        _ => "the system refuses it",
    }
}

/// Why the file of this name cannot be read: it is opened once more, and one octet of it read.
pub(crate) fn cause_in<F: Files>(files: &F, name: &str) -> &'static str {
    let mut octet = [0u8; 1];
    match fs::open(files, name) {
        Ok(mut file) => match file.read(&mut octet) {
            Ok(_) => "a read of it failed",
            Err(error) => cause_of(error.kind()),
        },
        Err(error) => cause_of(error.kind()),
    }
}
