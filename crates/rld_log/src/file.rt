use crate::fault::LogFault;
use crate::log::Log;
use std::alloc::Global;
use std::fs::File;
use std::io::{self, ErrorKind, Read, Seek, SeekFrom};
use std::os::unix::fs::FileExt;

/// What is known of the end of a file.
#[derive(Clone, Copy, PartialEq, Eq)]
enum End {
    /// It has this length.
    At(u64),
    /// It was not read, or a write or a cut failed: it has to be read or cut first.
    Unknown,
    /// A sync failed. The system may have dropped what was written, and a later sync would not say
    /// so: every further call fails.
    Lost,
}

/// A log in a file of the system.
///
/// It tells nothing: it is trusted, and argued here, that a file does what a `Log` that tells does.
/// `read` returns what this process and earlier ones wrote. `append` makes one write at the end,
/// and only if the end is known: after a torn write nothing is appended. `cut` sets the length.
/// `sync` asks the system to put octets and length on the disk, and believes its answer. The file
/// must have no other writer, and its creator has to sync its name in its folder.
#[derive(Drop)]
pub struct FileLog {
    file: File,
    end: End,
}

impl FileLog {
    /// A log in a file that is open for reading and writing. Read it or cut it before you append.
    pub fn new(file: File) -> FileLog {
        FileLog {
            file,
            end: End::Unknown,
        }
    }

    /// Forgets the end of the file, and gives the fault.
    fn failed(&mut self, fault: LogFault) -> LogFault {
        self.end = End::Unknown;
        fault
    }
}

/// All octets of a file, from its start.
fn octets_of(file: &mut File, alloc: Global) -> io::Result<Vec<u8>> {
    let mut octets = Vec::new(alloc);
    file.seek(SeekFrom::Start(0))?;
    file.read_to_end(&mut octets)?;
    Ok(octets)
}

/// The fault of a write that failed so.
fn unwritten(kind: ErrorKind) -> LogFault {
    match kind {
        ErrorKind::StorageFull | ErrorKind::QuotaExceeded => LogFault::NoRoom,
        _ => LogFault::Unwritten,
    }
}

impl Log for FileLog {
    fn read(&mut self, alloc: Global) -> Result<Vec<u8>, LogFault> {
        if self.end == End::Lost {
            return Err(LogFault::Unsynced);
        }
        match octets_of(&mut self.file, alloc) {
            Ok(octets) => {
                self.end = End::At(octets.len() as u64);
                Ok(octets)
            }
            Err(error) if error.kind() == ErrorKind::OutOfMemory => {
                Err(self.failed(LogFault::NoMemory))
            }
            Err(_) => Err(self.failed(LogFault::Unread)),
        }
    }

    fn append(&mut self, octets: &[u8]) -> Result<(), LogFault> {
        let at = match self.end {
            End::At(at) => at,
            End::Unknown => return Err(LogFault::Unwritten),
            End::Lost => return Err(LogFault::Unsynced),
        };
        if let Err(error) = self.file.write_all_at(octets, at) {
            return Err(self.failed(unwritten(error.kind())));
        }
        self.end = End::At(at.saturating_add(octets.len() as u64));
        Ok(())
    }

    fn cut(&mut self, len: usize) -> Result<(), LogFault> {
        if self.end == End::Lost {
            return Err(LogFault::Unsynced);
        }
        if self.file.set_len(len as u64).is_err() {
            return Err(self.failed(LogFault::Uncut));
        }
        self.end = End::At(len as u64);
        Ok(())
    }

    fn sync(&mut self) -> Result<(), LogFault> {
        if self.end == End::Lost || self.file.sync_data().is_err() {
            self.end = End::Lost;
            return Err(LogFault::Unsynced);
        }
        Ok(())
    }
}
