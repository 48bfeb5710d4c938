//! Whether a start may begin a new history.

ghost use Rattle.std.specs.Prelude.{◌≡◌, ◌↔◌, IfErr, IsOk, IsTrue};
ghost use Rattle.rld_start.specs.Beginnings.{may_start};

use crate::fault::StartFault;
use rld_config::NewHistory;
use rld_folder::{Folder, Generation};
use std::alloc::Global;
use std::fs::{self, File, Files};
use std::io::ErrorKind;

/// Checks that a start may go on, given the generation that counts, if there is one.
/// `NoNewHistory` comes if none counts and a new history is refused.
pub(crate) fn check_history(
    begun: Option<Generation>,
    new_history: NewHistory,
) -> Result<(), StartFault>
    ensures ok { IsOk result ↔ IsTrue (may_start new_history begun) }
    ensures fault { IfErr result (λ fault. fault ≡ StartFault.NoNewHistory) }
{
    match (new_history, begun) {
        (NewHistory::Refused, None) => Err(StartFault::NoNewHistory),
        (NewHistory::Refused, Some(_)) | (NewHistory::Begins, _) => Ok(()),
    }
}

/// Opens and locks the state folder, and makes it if it is not there. `NoNewHistory` comes if it is
/// not there and a new history is refused; then nothing is made. The other faults are those of
/// `Folder::open`: `busy` if another process has the folder.
pub fn open_folder<R: Files<File = File>>(
    files: &R,
    alloc: Global,
    path: &str,
    new_history: NewHistory,
) -> Result<Folder, StartFault> {
    if is_absent(files, path) {
        check_history(None, new_history)?;
    }
    Ok(Folder::open(files, alloc, path)?)
}

/// Whether the system says that nothing is at a path.
fn is_absent<R: Files<File = File>>(files: &R, path: &str) -> bool {
    match fs::symlink_metadata(files, path) {
        Ok(_) => false,
        Err(error) => error.kind() == ErrorKind::NotFound,
    }
}
