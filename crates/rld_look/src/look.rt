ghost use Rattle.std.specs.Prelude.{◌≡◌};
ghost use Rattle.rld_look.specs.History.{last_of, latest_of, span_of};

use crate::build::Build;
use crate::refusal::Refusal;
use crate::servers::AccessServersLook;
use crate::totals::Totals;
use rld_counts::{Counts, Histogram};
use rsl_accounts::Text;
use rsl_shard::Row;

/// What a running server shows of itself at a moment. Seconds are since 1970.
#[derive(Drop)]
pub struct Look {
    /// The build that runs.
    pub build: Build,
    /// The second of its start.
    pub start: u64,
    /// The second of the look.
    pub now: u64,
    /// The number of the generation that it writes.
    pub generation: u64,
    /// The number of moves of that generation.
    pub moves: u64,
    /// The memory of its accounts' books, in octets.
    pub memory: u64,
    /// Whether batches are being recorded.
    pub recording: Recording,
    /// By how many seconds the system's clock is behind the greatest moment that the books have seen. No
    /// deadline passes until it is there.
    pub clock_behind: u64,
    /// What the archive had when logs were last put away.
    pub archive: ArchiveLook,
    /// How the datagrams of both ports ended, and the asks.
    pub counts: Counts,
    /// How the datagrams of each client ended, in file order.
    pub clients: Vec<ClientLook>,
    /// How long the answers of the authentication port took.
    pub auth_times: Histogram,
    /// How long the answers of the accounting port took.
    pub acct_times: Histogram,
    /// How long the answers to asks took.
    pub ask_times: Histogram,
    /// What all accounts hold.
    pub totals: Totals,
    /// The accounts that hold most of their places, fullest first: at most `MOST_FULLEST`.
    pub fullest: Vec<AccountLook>,
    /// The access servers that hold links.
    pub access_servers: AccessServersLook,
    /// The last whole minutes, at most 60, oldest first.
    pub minutes: Vec<Minute>,
    /// The last refused datagrams, oldest first.
    pub refusals: Vec<Refusal>,
    /// The queue of each socket, in the order of the server's file. A socket of which the system
    /// says nothing is left out.
    pub sockets: Vec<SocketLook>,
}

impl Look {
    /// What came in the last whole minute; before one is over, what a minute has at the rate since
    /// the start.
    pub fn latest(&self) -> Minute
        ensures { result ≡ latest_of self.entry.now }
    {
        match Minute::last_of(self.minutes.as_slice()) {
            Some(minute) => minute,
            None => Minute::at_rate(
                &self.counts,
                self.start,
                self.now.saturating_sub(self.start),
                self.totals.held,
            ),
        }
    }

    /// In which time the latest numbers came, in words.
    pub fn span(&self) -> &'static str
        ensures { result.now ≡ span_of self.entry.now }
    {
        if self.minutes.is_empty() {
            "so far"
        } else {
            "last minute"
        }
    }
}

/// What the accounts of a running server hold at a moment.
#[derive(Drop)]
pub struct AccountsLook {
    /// The second of the look, since 1970.
    pub now: u64,
    /// What each account holds, in file order.
    pub accounts: Vec<AccountLook>,
}

/// How the datagrams of a client ended.
#[derive(Clone, Copy)]
pub struct ClientLook {
    /// The client's address.
    pub address: [u8; 4],
    /// How its datagrams ended.
    pub counts: Counts,
}

/// What an account holds.
#[derive(Drop)]
pub struct AccountLook {
    /// Its name.
    pub name: Text,
    /// What it holds.
    pub row: Row,
}

/// What came in a minute, and what was held at its end.
#[derive(Clone, Copy)]
pub struct Minute {
    /// The second in which it began, since 1970.
    pub start: u64,
    /// The Access-Accepts sent.
    pub accepts: u64,
    /// The Access-Rejects sent because no place was free.
    pub limit_rejects: u64,
    /// The Access-Rejects sent for any other cause.
    pub rejects: u64,
    /// The Accounting-Responses sent.
    pub accounting: u64,
    /// The places held at its end.
    pub held: u64,
}

impl Minute {
    /// The last of some minutes, if there is one.
    pub fn last_of(minutes: &[Minute]) -> Option<Minute>
        ensures { result ≡ last_of minutes.now }
    {
        minutes.get(minutes.len().saturating_sub(1)).copied()
    }
}

/// The queue of a UDP socket, as the system reports it.
#[derive(Clone, Copy)]
pub struct SocketLook {
    /// The socket's UDP port.
    pub port: u16,
    /// The octets of its receive buffer that waiting datagrams take.
    pub waiting: u64,
    /// The datagrams that the system has dropped since the socket was bound because the buffer was
    /// full.
    pub dropped: u64,
}

/// What the archive of a state folder has.
#[derive(Clone, Copy)]
pub struct ArchiveLook {
    /// How many logs.
    pub logs: u64,
    /// How many octets these have.
    pub octets: u64,
}

/// Whether batches are being recorded.
#[derive(Clone, Copy)]
pub enum Recording {
    /// Batches are being recorded.
    Recorded,
    /// A batch was not recorded recently: the disk is full or fails, or memory is refused.
    Failing,
}
