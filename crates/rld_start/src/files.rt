//! The files of a folder, with faults that name the file.

ghost use Rattle.std.specs.Prelude.{◌≡◌, IfOk};

use crate::fault::{StartFault, file_fault};
use rld_folder::{FileName, Folder, Generation, NewLog};
use rld_log::FileLog;
use std::alloc::Global;
use std::fs::{File, Files};

/// Opens the log of a generation.
pub(crate) fn open_log<R: Files<File = File>>(
    files: &R,
    alloc: Global,
    folder: &Folder,
    generation: Generation,
) -> Result<FileLog, StartFault> {
    match folder.open_log(files, alloc, generation) {
        Ok(log) => Ok(log),
        Err(fault) => Err(file_fault(FileName::Log(generation), fault)),
    }
}

/// Makes the log of the new generation of this number.
pub(crate) fn create_log<R: Files<File = File>>(
    files: &R,
    alloc: Global,
    folder: &Folder,
    generation: u64,
) -> Result<NewLog, StartFault>
    ensures { IfOk result (λ made. made.key.generation ≡ generation) }
{
    match folder.create_log(files, alloc, generation) {
        Ok(made) => Ok(made),
        Err(fault) => {
            let log = FileName::Log(Generation::Numbered(generation));
            Err(file_fault(log, fault))
        }
    }
}

/// Reads the octets of the table of an era of before.
pub(crate) fn read_former_table<R: Files<File = File>>(
    files: &R,
    alloc: Global,
    folder: &Folder,
    era: u64,
) -> Result<Vec<u8>, StartFault> {
    match folder.read_former_table(files, alloc, era) {
        Ok(table) => Ok(table),
        Err(fault) => Err(file_fault(FileName::FormerTable(era), fault)),
    }
}
