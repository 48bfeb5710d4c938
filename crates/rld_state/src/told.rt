ghost use Rattle.std.specs.Prelude.{◌≡◌};
ghost use Rattle.rld_state.specs.Told.{priority_of};

use crate::clock::ClockNews;
use crate::reload_result::Reloaded;
use crate::roll_fault::Notice;
use crate::trouble::News;
use rld_folder::RoomMade;
use rld_look::{Priority, Sink};
use std::fmt;

/// What the server reports to its operator, except refusals.
#[derive(Clone, Copy)]
pub enum Told {
    /// Whether batches are recorded.
    Recording(News),
    /// Whether the clock goes on.
    Clock(ClockNews),
    /// How generations follow each other, and where old logs go.
    Generations(Notice),
    /// The result of a reload.
    Accounts(Reloaded),
    /// How many requests over HTTP were refused that are no asks: without the token, and others.
    Asks(u64, u64),
    /// Logs that left the archive, for the disk had no room.
    Room(RoomMade),
    /// It ends, for an operator asked for that.
    Stopped(Standing),
}

/// Where a server stands as it ends.
#[derive(Clone, Copy)]
pub struct Standing {
    /// The number of the generation that it wrote.
    pub generation: u64,
    /// The number of sessions that hold a link.
    pub sessions: u64,
}

impl Told {
    /// The priority of the report.
    pub fn priority(self) -> Priority
        ensures { result ≡ priority_of self }
    {
        match self {
            Told::Recording(News::Began) => Priority::Error,
            Told::Clock(ClockNews::Behind(_))
            | Told::Generations(Notice::NotBegun(_) | Notice::NotPutAway(_))
            | Told::Asks(_, _)
            | Told::Room(_) => Priority::Warning,
            Told::Recording(News::Over)
            | Told::Clock(ClockNews::CaughtUp)
            | Told::Generations(Notice::Begun | Notice::PutAway)
            | Told::Accounts(_)
            | Told::Stopped(_) => Priority::Notice,
        }
    }
}

/// A report as a line of standard error, with its mark and its line feed.
#[derive(Clone, Copy)]
pub struct ToldLine {
    /// The reader of the line.
    pub sink: Sink,
    /// The report.
    pub told: Told,
}

impl fmt::Display for ToldLine {
    fn fmt<W: fmt::Write>(&self, f: &mut fmt::Formatter<W>) -> fmt::Result {
        f.write_str(self.told.priority().mark(self.sink))?;
        match &self.told {
            Told::Recording(news) => news.fmt(f)?,
            Told::Clock(news) => news.fmt(f)?,
            Told::Generations(notice) => notice.fmt(f)?,
            Told::Accounts(reloaded) => write!(f, "accounts read anew: {reloaded}")?,
            Told::Asks(token, other) => {
                write!(
                    f,
                    "requests to ask refused: {token} without the token, {other} others"
                )?;
            }
            Told::Room(made) => made.fmt(f)?,
            Told::Stopped(standing) => write!(
                f,
                "stopped: generation {}: {} sessions",
                standing.generation, standing.sessions
            )?,
        }
        f.write_str("\n")
    }
}

/// ASCII octets as a text.
#[derive(Clone, Copy)]
pub struct Ascii<'a>(pub &'a [u8]);

impl fmt::Display for Ascii<'_> {
    fn fmt<W: fmt::Write>(&self, f: &mut fmt::Formatter<W>) -> fmt::Result {
        for octet in self.0 {
            f.write_char(char::from(*octet))?;
        }
        Ok(())
    }
}
