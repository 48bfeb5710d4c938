ghost use Rattle.std.specs.Prelude.{◌≡◌};
ghost use Rattle.rld_look.specs.Health.{health_of, health_text};

use crate::look::Recording;

/// Whether a server is well: its batches are recorded, since it answers nothing else, and its clock goes
/// on, since no deadline passes before that.
#[derive(Clone, Copy)]
pub enum Health {
    /// The server is well.
    Well,
    /// Batches are not recorded, and so not answered.
    NotRecording,
    /// The clock is behind the books.
    ClockBehind,
}

impl Health {
    /// The health of a server that records so, and whose clock is behind its books by this number of seconds.
    pub fn of(recording: Recording, clock_behind: u64) -> Health
        ensures { result ≡ health_of recording clock_behind }
    {
        match recording {
            Recording::Failing => Health::NotRecording,
            Recording::Recorded if clock_behind == 0 => Health::Well,
            Recording::Recorded => Health::ClockBehind,
        }
    }

    /// The line that says it, with its line feed.
    pub fn text(self) -> &'static str
        ensures { result.now ≡ health_text self }
    {
        match self {
            Health::Well => "ok\n",
            Health::NotRecording => "not recording\n",
            Health::ClockBehind => "clock behind\n",
        }
    }
}
