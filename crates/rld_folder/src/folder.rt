use crate::fault::FolderFault;
use crate::name::{FileName, Generation};
use rld_log::FileLog;
use std::alloc::{AllocError, Global};
use std::fs::{self, DirBuilder, File, OpenOptions, ReadDir, TryLockError};
use std::io::{self, ErrorKind, Read};
use std::os::unix::fs::{DirBuilderExt, FileTypeExt, MetadataExt, OpenOptionsExt, PermissionsExt};
use std::rt::Files;

/// The mode of the folder: everything, for its owner alone.
const FOLDER_MODE: u32 = 0o700;

/// The mode of a file: read and write, for its owner alone.
const FILE_MODE: u32 = 0o600;

/// The mode bits by which others than the owner may write.
const OTHERS_WRITE: u32 = 0o022;

/// The folder of a server, which this process has locked until the value is dropped.
///
/// The system is trusted to keep its files over a loss of power: the call that makes one syncs its name
/// before it returns.
#[derive(Drop)]
pub struct Folder {
    pub(crate) path: String,
    lock: File,
}

/// Makes the folder if it is missing, for its owner alone.
pub(crate) fn make_folder<R: Files>(files: &R, path: &str) -> Result<(), FolderFault> {
    match DirBuilder::new().mode(FOLDER_MODE).create(files, path) {
        Ok(()) => Ok(()),
        Err(error) if error.kind() == ErrorKind::AlreadyExists => Ok(()),
        Err(error) => Err(FolderFault::of(&error, FolderFault::Unmade)),
    }
}

/// Checks that this is a folder of the user who runs the process, and that no other user may write
/// to it.
fn check_folder<R: Files>(files: &R, path: &str) -> Result<(), FolderFault> {
    let found = match fs::metadata(files, path) {
        Ok(found) => found,
        Err(error) => return Err(FolderFault::of(&error, FolderFault::Unread)),
    };
    if !found.is_dir() {
        return Err(FolderFault::NoFolder);
    }
    if found.uid() != libc::geteuid() {
        return Err(FolderFault::Foreign);
    }
    if found.permissions().mode() & OTHERS_WRITE != 0 {
        return Err(FolderFault::Exposed);
    }
    Ok(())
}

/// Checks that there is no link at a path of the folder. No other user may write to the folder, so
/// none appears later.
fn check_no_link<R: Files>(files: &R, path: &str) -> Result<(), FolderFault> {
    match fs::symlink_metadata(files, path) {
        Ok(found) if found.file_type().is_symlink() => Err(FolderFault::Linked),
        // what is missing, or cannot be read, is found by the open
        Ok(_) | Err(_) => Ok(()),
    }
}

/// Takes the lock, which the system releases when the process ends, however it ends.
fn take_lock(lock: &File) -> Result<(), FolderFault> {
    match lock.try_lock() {
        Ok(()) => Ok(()),
        Err(TryLockError::WouldBlock) => Err(FolderFault::Busy),
        Err(TryLockError::Error(_)) => Err(FolderFault::Unlocked),
    }
}

/// The path of a file in a folder.
pub(crate) fn path_in(alloc: Global, folder: &str, file: FileName) -> Result<String, AllocError> {
    let name = file.text(alloc)?;
    format!(in alloc; "{folder}/{name}")
}

/// The server's files in a folder.
pub(crate) fn files_among<R: Files<File = File> + Clone + Drop>(
    alloc: Global,
    entries: ReadDir<R>,
) -> Result<Vec<FileName>, FolderFault> {
    let mut files = Vec::new(alloc);
    for entry in entries {
        match entry {
            Ok(entry) => {
                if let Some(file) = FileName::read(alloc, entry.file_name())? {
                    files.push(file)?;
                }
            }
            // A name that is not UTF-8 is not one of the server's.
            Err(error) if error.kind() == ErrorKind::InvalidFilename => {}
            Err(error) => return Err(FolderFault::of(&error, FolderFault::Unread)),
        }
    }
    Ok(files)
}

/// Syncs the names of the files of a folder.
pub(crate) fn sync_names<R: Files<File = File>>(files: &R, path: &str) -> Result<(), FolderFault> {
    let folder = match File::open(files, path) {
        Ok(folder) => folder,
        Err(error) => return Err(FolderFault::of(&error, FolderFault::Unsynced)),
    };
    match folder.sync_all() {
        Ok(()) => Ok(()),
        Err(_) => Err(FolderFault::Unsynced),
    }
}

/// A new file, or the existing one, for its owner to read and write.
fn open_file<R: Files<File = File>>(files: &R, path: &str) -> io::Result<File> {
    OpenOptions::new()
        .read(true)
        .write(true)
        .create(true)
        .mode(FILE_MODE)
        .open(files, path)
}

impl Folder {
    /// Opens a server's folder and locks it. It is made, with mode 700, if it is missing; its
    /// parent has to exist.
    ///
    /// `Unmade` comes if it is missing and cannot be made, `Unread` if the system tells nothing of
    /// it, `NoFolder` if it is a file, `Foreign` if it belongs to another user, `Exposed` if others
    /// than its owner may write to it, and `Linked` if its lock is a link: then nothing in it has
    /// changed. `Unlocked` comes if its lock cannot be opened or taken, and `Busy` if another
    /// process has it: then at most an empty `lock` is new in it. `NoMemory` comes if memory is
    /// refused.
    pub fn open<R: Files<File = File>>(
        files: &R,
        alloc: Global,
        path: &str,
    ) -> Result<Folder, FolderFault> {
        make_folder(files, path)?;
        check_folder(files, path)?;
        let name = path_in(alloc, path, FileName::Lock)?;
        check_no_link(files, name.as_str())?;
        let lock = match open_file(files, name.as_str()) {
            Ok(lock) => lock,
            Err(error) => return Err(FolderFault::of(&error, FolderFault::Unlocked)),
        };
        take_lock(&lock)?;
        Ok(Folder {
            path: String::from_str(alloc, path)?,
            lock,
        })
    }

    /// The path of a file of the folder.
    pub fn path_of(&self, alloc: Global, file: FileName) -> Result<String, AllocError> {
        path_in(alloc, self.path.as_str(), file)
    }

    /// The server's files, in no order; files with other names are ignored. `Unread` comes if the
    /// system does not list them, and `NoMemory` if memory is refused; nothing in the folder
    /// changes.
    pub fn files<R: Files<File = File> + Alloc<A = Global> + Clone + Drop>(
        &self,
        rt: &R,
    ) -> Result<Vec<FileName>, FolderFault> {
        match fs::read_dir(rt, self.path.as_str()) {
            Ok(entries) => files_among(rt.alloc(), entries),
            Err(error) => Err(FolderFault::of(&error, FolderFault::Unread)),
        }
    }

    /// The existing log of a generation. `Linked` comes if a link is in its place, and `Unopened`
    /// if it is missing or cannot be opened.
    pub fn open_log<R: Files<File = File>>(
        &self,
        files: &R,
        alloc: Global,
        generation: Generation,
    ) -> Result<FileLog, FolderFault> {
        let path = self.path_of(alloc, FileName::Log(generation))?;
        check_no_link(files, path.as_str())?;
        match OpenOptions::new()
            .read(true)
            .write(true)
            .open(files, path.as_str())
        {
            Ok(file) => Ok(FileLog::new(file)),
            Err(error) => Err(FolderFault::of(&error, FolderFault::Unopened)),
        }
    }

    /// The octets of the table of an era, of a version before 0.4. `Linked` comes if a link is in its place, `Unopened` if it is
    /// missing, `Unread` if it cannot be read.
    pub fn read_former_table<R: Files<File = File>>(
        &self,
        files: &R,
        alloc: Global,
        era: u64,
    ) -> Result<Vec<u8>, FolderFault> {
        let path = self.path_of(alloc, FileName::FormerTable(era))?;
        check_no_link(files, path.as_str())?;
        let mut file = match File::open(files, path.as_str()) {
            Ok(file) => file,
            Err(error) => return Err(FolderFault::of(&error, FolderFault::Unopened)),
        };
        let mut octets = Vec::new(alloc);
        match file.read_to_end(&mut octets) {
            Ok(_) => Ok(octets),
            Err(error) => Err(FolderFault::of(&error, FolderFault::Unread)),
        }
    }

    /// A new file, for its owner to read and write.
    pub(crate) fn create<R: Files<File = File>>(
        &self,
        files: &R,
        alloc: Global,
        file: FileName,
    ) -> Result<File, FolderFault> {
        let path = self.path_of(alloc, file)?;
        match OpenOptions::new()
            .read(true)
            .write(true)
            .create_new(true)
            .mode(FILE_MODE)
            .open(files, path.as_str())
        {
            Ok(file) => Ok(file),
            Err(error) => Err(FolderFault::of(&error, FolderFault::Unopened)),
        }
    }

    /// Syncs the names of the folder's files.
    pub(crate) fn sync<R: Files<File = File>>(&self, files: &R) -> Result<(), FolderFault> {
        sync_names(files, self.path.as_str())
    }
}
