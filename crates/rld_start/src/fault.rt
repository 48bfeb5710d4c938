ghost use Rattle.std.specs.Prelude.{◌≡◌};
ghost use Rattle.rld_start.specs.Faults.{fault_of_file, fault_of_folder, fault_of_log};
ghost use Rattle.rld_start.specs.Status.{status_of_folder, status_of_log};
ghost use Rattle.rld_start.specs.declared.fault.StartFault.TheVariants.{BadLog as bad_log, NoMemory as no_memory};

use crate::status::EndStatus;
use crate::wrong::{BadLog, Wrong};
use rld_folder::{FileName, FolderFault};
use rld_log::LogFault;
use rld_store::StoreFault;
use rsl_wire::NoMemory;
use std::alloc::AllocError;
use std::fmt;

/// Why a server does not start. It prints as the line for standard error.
#[derive(Clone, Copy, Debug)]
pub enum StartFault {
    /// Memory was refused.
    NoMemory,
    /// The folder cannot be used, or its files cannot be listed. It prints as `busy` if another
    /// process has the folder.
    Folder(FolderFault),
    /// A file of the folder cannot be opened or made, read, written or synced.
    File(FileName, FolderFault),
    /// A call on a log failed.
    Log(FileName, LogFault),
    /// A file is damaged.
    BadLog(BadLog),
    /// The accounts, their rules or the clients' addresses are not those of the folder's history.
    OtherAccounts,
    /// The contents of a new log have no spelling, or are too long for a file.
    Unwritable(FileName),
    /// No number is left for a new file.
    NoNumber,
    /// No generation was begun, so there is no history.
    NoHistory,
    /// No generation was begun, or the folder is not there, and a new history is refused.
    NoNewHistory,
}

impl StartFault {
    ghost use Rattle.rld_start.specs.Status.{status_of};

    /// The fault of a damaged file.
    pub(crate) fn bad(file: FileName, wrong: Wrong) -> StartFault
        ensures { result ≡ bad_log (record { file = file; wrong = wrong }) }
    {
        StartFault::BadLog(BadLog { file, wrong })
    }

    /// The exit status of the server.
    pub fn status(&self) -> EndStatus
        ensures { result ≡ status_of self.now }
    {
        match self {
            StartFault::NoMemory => EndStatus::NoMemory,
            StartFault::Folder(fault) | StartFault::File(_, fault) => status_of_folder(*fault),
            StartFault::Log(_, fault) => status_of_log(*fault),
            StartFault::BadLog(_)
            | StartFault::OtherAccounts
            | StartFault::NoNumber
            | StartFault::NoHistory
            | StartFault::NoNewHistory => EndStatus::WrongInput,
            StartFault::Unwritable(_) => EndStatus::InputOutput,
        }
    }
}

/// The exit status for a folder, or a file of it, that cannot be used.
fn status_of_folder(fault: FolderFault) -> EndStatus
    ensures { result ≡ status_of_folder fault }
{
    match fault {
        FolderFault::NoMemory => EndStatus::NoMemory,
        FolderFault::NoFolder | FolderFault::Foreign | FolderFault::Linked | FolderFault::Exposed =>
            EndStatus::WrongInput,
        FolderFault::Unsynced => EndStatus::Unsynced,
        FolderFault::Unmade
        | FolderFault::Unread
        | FolderFault::Busy
        | FolderFault::Unlocked
        | FolderFault::Unopened
        | FolderFault::Unwritten
        | FolderFault::NoRoom
        | FolderFault::Unmoved
        | FolderFault::Unremoved => EndStatus::InputOutput,
    }
}

/// The exit status for a log that failed.
fn status_of_log(fault: LogFault) -> EndStatus
    ensures { result ≡ status_of_log fault }
{
    match fault {
        LogFault::NoMemory => EndStatus::NoMemory,
        LogFault::Unsynced => EndStatus::Unsynced,
        LogFault::Unread | LogFault::Unwritten | LogFault::NoRoom | LogFault::Uncut => {
            EndStatus::InputOutput
        }
    }
}

impl fmt::Display for StartFault {
    fn fmt<W: fmt::Write>(&self, f: &mut fmt::Formatter<W>) -> fmt::Result {
        match self {
            StartFault::NoMemory => f.write_str("no memory"),
            StartFault::Folder(FolderFault::Busy) => f.write_str("busy"),
            StartFault::Folder(fault) => write!(f, "bad folder: {fault}"),
            StartFault::File(file, fault) => write!(f, "{file}: {fault}"),
            StartFault::Log(file, fault) => write!(f, "{file}: {fault}"),
            StartFault::BadLog(bad) => write!(f, "{bad}"),
            StartFault::OtherAccounts => {
                f.write_str("other accounts than those of the state folder")
            }
            StartFault::Unwritable(file) => write!(f, "{file}: too long"),
            StartFault::NoNumber => f.write_str("no number is left for a new file"),
            StartFault::NoHistory => f.write_str("no history"),
            StartFault::NoNewHistory => f.write_str(
                "no history, and state_must_exist begins none: is its volume mounted?",
            ),
        }
    }
}

impl From<AllocError> for StartFault {
    ghost from_gives = { λ _ fault. fault ≡ no_memory };

    fn from(_refused: AllocError) -> StartFault {
        StartFault::NoMemory
    }
}

impl From<NoMemory> for StartFault {
    ghost from_gives = { λ _ fault. fault ≡ no_memory };

    fn from(_refused: NoMemory) -> StartFault {
        StartFault::NoMemory
    }
}

impl From<FolderFault> for StartFault {
    ghost from_gives = { λ fault made. made ≡ fault_of_folder fault };

    fn from(fault: FolderFault) -> StartFault {
        match fault {
            FolderFault::NoMemory => StartFault::NoMemory,
            _ => StartFault::Folder(fault),
        }
    }
}

/// The fault of a file that could not be opened, made, read, written or synced.
pub(crate) fn file_fault(file: FileName, fault: FolderFault) -> StartFault
    ensures { result ≡ fault_of_file file fault }
{
    match fault {
        FolderFault::NoMemory => StartFault::NoMemory,
        _ => StartFault::File(file, fault),
    }
}

/// The fault of a log that could not be read, written or synced.
pub(crate) fn log_fault(file: FileName, fault: LogFault) -> StartFault
    ensures { result ≡ fault_of_log file fault }
{
    match fault {
        LogFault::NoMemory => StartFault::NoMemory,
        _ => StartFault::Log(file, fault),
    }
}
