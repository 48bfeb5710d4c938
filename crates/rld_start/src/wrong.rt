ghost use Rattle.std.specs.Prelude.{◌≡◌};

use rld_books::ServerFault;
use rld_folder::FileName;
use rld_log::HEAD_LEN;
use rld_spelling as spelling;
use rld_store::StoreFault;
use std::fmt;
use thiserror::Error;

/// The cause of a damaged file.
#[derive(Clone, Copy, Debug, Error)]
pub enum Cause {
    /// A frame was spoilt before a whole one.
    #[error("damaged")]
    Damaged,
    /// The octets spell nothing that can be here.
    #[error("{0}")]
    Malformed(spelling::Cause),
    /// The header has another number than the name of the file.
    #[error("a header of another generation")]
    OtherGeneration,
    /// The log has another table than that of the accounts, or, of a version before 0.4, the digest of
    /// another table than that of its era.
    #[error("a header of another table")]
    OtherTable,
    /// The snapshot is not of the table's accounts.
    #[error("{0}")]
    Misfit(ServerFault),
    /// A move is of no account.
    #[error("a move of no account")]
    Foreign,
    /// No account file has the table.
    #[error("a table that no account file has")]
    NoConfiguration,
    /// The log is of format 1 or 2.
    #[error("a log of a version before 0.4, and version 0.3 reads it")]
    Former,
    /// The snapshot is not whole, and there is no earlier generation with one.
    #[error("no whole snapshot, here or earlier")]
    Alone,
    /// It is in the archive, and the folder has no later generation that was begun: the history has
    /// a gap.
    #[error("in the archive, and no later generation in the folder")]
    Gap,
}

/// The cause and the offset of a damage.
#[derive(Clone, Copy, Debug, Error)]
#[error("at {offset}: {cause}")]
pub struct Wrong {
    /// The offset in the file, in octets.
    pub offset: usize,
    /// The cause.
    pub cause: Cause,
}

impl Wrong {
    ghost use Rattle.rld_start.specs.Wrongs.{wrong_of};

    /// The fault of a log that a store has refused for its contents.
    pub fn of(fault: StoreFault) -> Option<Wrong>
        ensures { result ≡ wrong_of fault }
    {
        let (offset, cause) = match fault {
            StoreFault::Damaged(damage) => (damage.offset, Cause::Damaged),
            StoreFault::Unbegun => (HEAD_LEN, Cause::Alone),
            StoreFault::Malformed(bad) => (bad.offset, Cause::Malformed(bad.cause)),
            StoreFault::OtherTable { offset } => (offset, Cause::OtherTable),
            StoreFault::Misfit { offset, fault } => (offset, Cause::Misfit(fault)),
            StoreFault::Foreign { offset } => (offset, Cause::Foreign),
            StoreFault::NoMemory
            | StoreFault::Log(_)
            | StoreFault::Occupied
            | StoreFault::Unfit
            | StoreFault::TooLong => return None,
        };
        Some(Wrong { offset, cause })
    }
}

/// A file of the folder that is damaged. It prints as `bad log: log-12 at 40: damaged`.
#[derive(Clone, Copy, Debug)]
pub struct BadLog {
    /// The file.
    pub file: FileName,
    /// Its cause and offset.
    pub wrong: Wrong,
}

impl fmt::Display for BadLog {
    fn fmt<W: fmt::Write>(&self, f: &mut fmt::Formatter<W>) -> fmt::Result {
        write!(f, "bad log: {} {}", self.file, self.wrong)
    }
}
