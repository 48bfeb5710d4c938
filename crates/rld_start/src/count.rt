ghost use Rattle.std.specs.Prelude.{◌≡◌, ◌<◌, ◌^◌};
ghost use Rattle.rld_start.specs.Counted.{sessions_in};

use rld_folder::Generation;
use rsl_shard::Row;

/// What a start has found in the folder.
#[derive(Clone, Copy)]
pub struct Found {
    /// The generation that the start goes on from; `None` in a new history.
    pub from: Option<Generation>,
    /// The number of moves so far.
    pub moves: u64,
    /// The number of sessions that hold a link: bound links.
    pub sessions: u64,
    /// Octets of the torn end that was cut off.
    pub torn: usize,
    /// How many seconds the system's clock is behind the greatest clock of the books, if 60 or
    /// more: no deadline passes until it has caught up.
    pub behind: Option<u64>,
    /// The number of sessions that held a link before, where this start has changed the accounts.
    pub held: Option<u64>,
}

/// The number of bound links in what accounts hold, at most 2^64 - 1.
pub fn sessions_in(rows: &[Row]) -> u64
    ensures { sessions_in rows.now < 2 ^ 64 → result ≡ sessions_in rows.now }
{
    let mut sessions: u64 = 0;
    for row in rows {
        sessions = sessions.saturating_add(u64::from(row.live) + u64::from(row.stale));
    }
    sessions
}
