ghost use Rattle.std.specs.Prelude.{◌≡◌, is_err};
ghost use Rattle.rld_state.specs.Keeping.{fault_of};
ghost use Rattle.rld_state.specs.Notices.{archive_notice, roll_notice};
ghost use Rattle.rld_state.specs.Room.{is_full_for_roll, is_full_for_store};
ghost use Rattle.rld_state.specs.declared.roll_fault.RollFault.TheVariants.{Start as unmade};
ghost use Rattle.rld_start.specs.Faults.{fault_of_folder};
ghost use Rattle.rld_start.specs.declared.fault.StartFault.TheVariants.{NoMemory as no_memory};

use crate::trouble::{News, Trouble};
use rld_folder::{FolderFault, Removed};
use rld_log::LogFault;
use rld_start::StartFault;
use rld_store::StoreFault;
use rsl_wire::NoMemory;
use thiserror::Error;

/// Why the next generation has not begun.
#[derive(Clone, Copy, Debug, Error)]
pub enum RollFault {
    /// Its log could not be made.
    #[error("{0}")]
    Start(StartFault),
    /// Its header or its snapshot could not be written and synced. Its log is gone.
    #[error("{0}")]
    Store(StoreFault),
    /// Another generation has begun meanwhile. Its log is gone.
    #[error("another generation has begun")]
    Former,
    /// Nothing more can be recorded: nothing could before, or the removal of the next generation's
    /// log is not certain.
    #[error("nothing more can be recorded")]
    Ended,
}

/// What follows a generation that did not begin.
#[derive(Drop)]
pub enum NotBegun {
    /// The present one goes on. The log of the other one was removed.
    PassedOver(RollFault, Removed),
    /// Nothing more is recorded: nothing could be before, or that log could not be removed.
    Ended,
}

/// Whether the disk had no room for what a store had to write.
fn is_full_for_store(fault: StoreFault) -> bool
    ensures { result ≡ is_full_for_store fault }
{
    matches!(fault, StoreFault::Log(LogFault::NoRoom))
}

impl RollFault {
    /// Whether the disk had no room for it.
    pub fn is_full(&self) -> bool
        ensures { result ≡ is_full_for_roll self.now }
    {
        match self {
            RollFault::Start(fault) => fault.is_full(),
            RollFault::Store(fault) => is_full_for_store(*fault),
            RollFault::Former | RollFault::Ended => false,
        }
    }
}

impl From<NotBegun> for RollFault {
    ghost from_gives = { λ refused fault. fault ≡ fault_of refused };

    fn from(refused: NotBegun) -> RollFault {
        match refused {
            NotBegun::PassedOver(fault, _) => fault,
            NotBegun::Ended => RollFault::Ended,
        }
    }
}

impl From<StartFault> for RollFault {
    ghost from_gives = { λ fault made. made ≡ unmade fault };

    fn from(fault: StartFault) -> RollFault {
        RollFault::Start(fault)
    }
}

impl From<FolderFault> for RollFault {
    ghost from_gives = { λ fault made. made ≡ unmade (fault_of_folder fault) };

    fn from(fault: FolderFault) -> RollFault {
        RollFault::Start(StartFault::from(fault))
    }
}

impl From<NoMemory> for RollFault {
    ghost from_gives = { λ _ made. made ≡ unmade no_memory };

    fn from(_refused: NoMemory) -> RollFault {
        RollFault::Start(StartFault::NoMemory)
    }
}

/// What the server reports of generations and of old logs. It prints as a line of standard error.
#[derive(Clone, Copy, Debug, Error)]
pub enum Notice {
    /// The next generation could not begin; it is tried again each minute.
    #[error("no next generation yet: {0}")]
    NotBegun(RollFault),
    /// The next generation has begun.
    #[error("the next generation has begun")]
    Begun,
    /// Old logs stay where they are; they are tried again with the next generation.
    #[error("old logs are not put away: {0}")]
    NotPutAway(FolderFault),
    /// Old logs are put away again.
    #[error("old logs are put away again")]
    PutAway,
}

/// The notice after an attempt to begin the next generation, if its outcome differs from the one
/// before.
pub fn notice_of_roll(trouble: &mut Trouble, rolled: Result<(), RollFault>) -> Option<Notice>
    ensures notice { result ≡ roll_notice trouble.old.is_there rolled }
    ensures kept { trouble.new.is_there ≡ is_err rolled }
{
    match (trouble.news(rolled.is_err()), rolled) {
        (Some(News::Began), Err(fault)) => Some(Notice::NotBegun(fault)),
        (Some(News::Over), _) => Some(Notice::Begun),
        _ => None,
    }
}

/// The notice after an attempt to put old logs away, if its outcome differs from the one before.
pub fn notice_of_archive(trouble: &mut Trouble, outcome: Result<(), FolderFault>) -> Option<Notice>
    ensures notice { result ≡ archive_notice trouble.old.is_there outcome }
    ensures kept { trouble.new.is_there ≡ is_err outcome }
{
    match (trouble.news(outcome.is_err()), outcome) {
        (Some(News::Began), Err(fault)) => Some(Notice::NotPutAway(fault)),
        (Some(News::Over), _) => Some(Notice::PutAway),
        _ => None,
    }
}
