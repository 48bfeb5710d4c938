//! Whether the system's clock is behind the books of a running server.

ghost use Rattle.std.specs.Prelude.{◌≡◌, length};
ghost use Rattle.std.specs.Arc.{arc_value};
ghost use Rattle.rld_books.specs.Clocks.{IsGreatestClock};
ghost use Rattle.rld_state.specs.Clock.{is_behind, clock_news, seconds_behind};

use crate::state::ServerState;
use crate::trouble::{News, Trouble};
use rld_log::Log;
use std::fmt;

/// What the server reports of its clock. It prints as a line of standard error.
#[derive(Clone, Copy)]
pub enum ClockNews {
    /// The clock is behind the books from now on, by this number of seconds.
    Behind(u64),
    /// It is there again.
    CaughtUp,
}

impl fmt::Display for ClockNews {
    fn fmt<W: fmt::Write>(&self, f: &mut fmt::Formatter<W>) -> fmt::Result {
        match self {
            ClockNews::Behind(secs) => write!(
                f,
                "clock went back {secs} s: no deadline passes until it is there again"
            ),
            ClockNews::CaughtUp => f.write_str("clock is there again"),
        }
    }
}

impl<L: Log + Drop> ServerState<L> {
    /// The greatest clock of its books: the greatest moment that any account has seen, in seconds since
    /// 1970.
    pub fn clock(&self) -> u64
        ensures { IsGreatestClock self.now.recorder.books (length (arc_value self.now.recorder.config).accounts) result }
    {
        self.recorder().books().clock(self.accounts())
    }
}

/// By how many seconds the system's clock, which reads `now`, is behind the clock of the books. Read it after
/// that one: what is read later is never less unless the system's clock went back.
pub fn seconds_behind(now: u64, clock: u64) -> u64
    ensures { result ≡ seconds_behind now clock }
{
    clock.saturating_sub(now)
}

/// What is to be reported of a clock that is behind by this number of seconds: nothing as long as it is, or is
/// not, as before.
pub fn news_of_clock(trouble: &mut Trouble, behind: u64) -> Option<ClockNews>
    ensures news { result ≡ clock_news trouble.old.is_there behind }
    ensures kept { trouble.new.is_there ≡ is_behind behind }
{
    match trouble.news(behind > 0) {
        Some(News::Began) => Some(ClockNews::Behind(behind)),
        Some(News::Over) => Some(ClockNews::CaughtUp),
        None => None,
    }
}
