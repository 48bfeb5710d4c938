use rld_faults::Faults;
use rld_start as start;
use std::fmt;
use thiserror::Error;

/// What is wrong with a file, without a full stop.
#[derive(Debug, Drop)]
pub enum Wrong {
    /// The system does not give it, for this cause.
    Unreadable(&'static str),
    /// Its name is not that of a log.
    NoLog,
    /// Everybody can write to an account file.
    Writable,
    /// Everybody can read an account file, but the operator does not allow that.
    Readable,
    /// Others than its owner can write to the folder of the server's file or of the account file.
    OpenFolder,
    /// Others than its owner can read or write the file with the token of asks.
    Shared,
    /// It is no token: one line of 16 to 256 visible characters of ASCII.
    NoToken,
    /// It has more octets than it may have.
    TooLong,
    /// A server's file or an account file is refused: all that is wrong with it.
    Faults(Faults),
}

impl Wrong {
    /// What is wrong with a file as a whole.
    fn sentence(&self) -> &'static str {
        match self {
            Wrong::Unreadable(cause) => *cause,
            Wrong::NoLog => "no log by its name",
            Wrong::Writable => "others may write to it",
            Wrong::Readable => "others may read it",
            Wrong::OpenFolder => "others may write to this folder, and so replace the files in it",
            Wrong::Shared => "others may read or write to it",
            Wrong::NoToken => "no token of 16 to 256 visible characters",
            Wrong::TooLong => "too long",
            Wrong::Faults(_) => "refused",
        }
    }
}

/// A file that is wrong. It prints as a line for each fault: the name of the file, the line of the fault where it
/// has one, and the fault: `accounts.toml:41: places of account dora is 65; it is 0 to 64`.
#[derive(Debug, Drop)]
pub struct BadFile {
    /// The name of the file.
    pub name: String,
    /// What is wrong with it.
    pub wrong: Wrong,
}

impl fmt::Display for BadFile {
    fn fmt<W: fmt::Write>(&self, f: &mut fmt::Formatter<W>) -> fmt::Result {
        let name = self.name.as_str();
        let Wrong::Faults(faults) = &self.wrong else {
            let wrong = self.wrong.sentence();
            return write!(f, "{name}: {wrong}");
        };
        let mut end = "";
        for fault in faults.told.as_slice() {
            write!(f, "{end}{name}{fault}")?;
            end = "\n";
        }
        if 0 < faults.more {
            let more = faults.more;
            write!(f, "{end}{name}: {more} more faults")?;
        }
        Ok(())
    }
}

/// A log of a state folder that is damaged. It prints as `bad log: state/log-2 at 40: damaged`.
#[derive(Debug, Drop, Error)]
#[error("bad log: {name} {wrong}")]
pub struct BadLog {
    /// The name of the log.
    pub name: String,
    /// The cause and the offset of its damage.
    pub wrong: start::Wrong,
}
