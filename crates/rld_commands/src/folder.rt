//! The folders of the server's file and of the account file.

ghost use Rattle.std.specs.Prelude.{◌≡◌, IfErr};
ghost use Rattle.rld_commands.specs.Files.{IsOfFile};
ghost use Rattle.rld_commands.specs.Folder.{folder_of, group_writes, is_open, others_write};

use crate::cause::cause_of;
use crate::fault::Fault;
use crate::files::bad_file;
use crate::wrong::Wrong;
use std::alloc::Global;
use std::fs::{self, Files};
use std::os::unix::fs::{MetadataExt, PermissionsExt};
use std::path::Path;

/// The bit of a folder's mode by which everybody can make and remove files in it.
const OTHERS_WRITE: u32 = 0o002;

/// The bit by which its group can.
const GROUP_WRITES: u32 = 0o020;

/// The bit by which nobody can remove or rename the files of others in it.
const STICKY: u32 = 0o1000;

/// Checks that nobody but its owner can replace the file of this name by another one: the folder that it is in is
/// refused where others may write to it.
pub(crate) fn check_folder<F: Files>(files: &F, alloc: Global, name: &str) -> Result<(), Fault>
    ensures { IfErr result (IsOfFile (folder_of name.now)) }
{
    let folder = folder_of(name);
    match fs::metadata(files, folder) {
        Ok(found) if is_open(found.permissions().mode(), found.uid(), found.gid()) => {
            Err(bad_file(alloc, folder, Wrong::OpenFolder))
        }
        Ok(_) => Ok(()),
        Err(error) => Err(bad_file(alloc, folder, Wrong::Unreadable(cause_of(error.kind())))),
    }
}

/// The folder of a file.
fn folder_of(name: &str) -> &str
    ensures { result.now ≡ folder_of name.now }
{
    match Path::new(name).parent() {
        Some(folder) if !folder.as_str().is_empty() => folder.as_str(),
        _ => ".",
    }
}

/// Whether others than the owner of a folder can replace the files in it.
fn is_open(mode: u32, owner: u32, group: u32) -> bool
    ensures { result ≡ is_open mode owner group }
{
    mode & STICKY == 0 && (others_write(mode) || group_writes(mode, owner, group))
}

/// Whether everybody can make and remove files in a folder.
fn others_write(mode: u32) -> bool
    ensures { result ≡ others_write mode }
{
    mode & OTHERS_WRITE != 0
}

/// Whether a group can that is neither the system's nor the owner's own, which has his number.
fn group_writes(mode: u32, owner: u32, group: u32) -> bool
    ensures { result ≡ group_writes mode owner group }
{
    mode & GROUP_WRITES != 0 && group != 0 && group != owner
}
