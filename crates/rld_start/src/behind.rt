//! A system clock that is behind the books: no deadline passes until it has caught up.

ghost use Rattle.std.specs.Prelude.{◌≡◌};
ghost use Rattle.rld_start.specs.Behind.{IsBehind, behind};

use rld_books::ServerBooks;
use rsl_accounts::Config;

/// The fewest seconds that are reported.
const TOLD_SECS: u64 = 60;

/// How many seconds the system's clock is behind another, if 60 or more.
fn behind(now: u64, clock: u64) -> Option<u64>
    ensures { result ≡ behind now clock }
{
    let secs = clock.saturating_sub(now);
    if secs < TOLD_SECS { None } else { Some(secs) }
}

/// How many seconds the system's clock is behind the greatest clock of these books, if 60 or more.
pub(crate) fn behind_books(config: &Config, books: &ServerBooks, now: u64) -> Option<u64>
    ensures { IsBehind config.now books.now now result }
{
    behind(now, books.clock(config))
}
