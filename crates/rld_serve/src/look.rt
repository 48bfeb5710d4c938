//! What the running server shows of itself.

ghost use Rattle.std.specs.Prelude.{◌≡◌, IfOk};
ghost use Rattle.rld_serve.specs.Look.{recording_of};

use crate::holdings::{Holdings, Rest};
use crate::server::Server;
use rld_counts::{GateCounts, counts_of};
use rld_look::{
    AccessServersLook, AccountsLook, Health, Look, Minute, Recording, SocketLook, add_links,
    join_servers, socket_in,
};
use rld_state::LinksPage;
use rsl_account_file::read_file;
use rsl_accounts::Config;
use rsl_port::{Clock, SystemClock};
use rsl_wire::NoMemory;
use std::sync::atomic::Ordering;
use std::sync::{Arc, Wait};
use std::time;

/// The system's table of UDP sockets on IPv4 addresses (proc(5)).
const IPV4_TABLE: &str = "/proc/self/net/udp";

/// The system's table of UDP sockets on IPv6 addresses, which has a socket on `::` that takes both
/// kinds.
const IPV6_TABLE: &str = "/proc/self/net/udp6";

/// The most octets of a table that are read; a socket has up to 180.
const MAX_TABLE_LEN: u32 = 1_048_576;

/// The number of links from which on those of one access server are joined while others are looked at.
const FIRST_ROOM: usize = 16_384;

impl<'a, G, A, R: time::Clock + Wait> Server<'a, G, A, R> {
    /// What the server now shows of itself. Each receiver is looked at alone, and the store after
    /// them: each lock is held only while the data under it is copied. It fails only if memory is
    /// refused.
    pub(crate) fn look(&self) -> Result<Look, NoMemory> {
        let (counted, holdings) = self.gather()?;
        let rest = self.rest(holdings.accounts())?;
        holdings.look(self.alloc, self.plan.build, counted, rest)
    }

    /// What the accounts now hold. The store's lock is held only while its rows are copied. It
    /// fails only if memory is refused.
    pub(crate) fn accounts_look(&self) -> Result<AccountsLook, NoMemory> {
        let holdings = self.holdings()?;
        let now = SystemClock::new(self.rt, self.plan.start).now();
        holdings.accounts_look(self.alloc, now)
    }

    /// The counts of the receivers, and what the store shows, all of the same accounts.
    fn gather(&self) -> Result<(GateCounts, Holdings), NoMemory> {
        let current = self.current.read(self.rt);
        let clients = current.config.clients();
        let readings = self.board.read(self.rt, self.alloc, clients)?;
        let counted = GateCounts::of(self.alloc, readings.as_slice(), clients)?;
        Ok((counted, self.holdings()?))
    }

    /// What a look has besides, of a server with this number of accounts.
    fn rest(&self, accounts: u32) -> Result<Rest, NoMemory>
        ensures { IfOk result (λ rest. rest.start ≡ self.now.plan.start) }
    {
        let access_servers = self.access_servers(accounts)?;
        let moment = SystemClock::new(self.rt, self.plan.start).now();
        let archive = *self.archive.lock(self.rt);
        Ok(Rest {
            start: self.plan.start,
            moment,
            recording: self.recording(),
            clock_behind: self.clock_behind.load(Ordering::SeqCst),
            archive,
            access_servers,
            minutes: self.minutes()?,
            refusals: self.refusals.lately(self.rt, self.alloc)?,
            sockets: self.socket_looks()?,
        })
    }

    /// Ends the present minute, if another has begun at this second. If memory for that is refused,
    /// the minute goes on.
    pub(crate) fn end_minute_if_over(&self, now: u64) {
        if self.history.lock(self.rt).has_passed(now) {
            let _ = self.end_minute(now);
        }
    }

    /// Ends the present minute. It fails only if memory is refused.
    fn end_minute(&self, now: u64) -> Result<(), NoMemory> {
        let readings = self.board.read(self.rt, self.alloc, 0)?;
        let holdings = self.holdings()?;
        let counts = counts_of(readings.as_slice());
        let held = holdings.held();
        self.history.lock(self.rt).begin_minute(now, &counts, held)?;
        Ok(())
    }

    /// What the store shows. Its lock is held while the rows are copied.
    pub(crate) fn holdings(&self) -> Result<Holdings, NoMemory> {
        let state = self.state.lock(self.rt);
        Holdings::of(self.alloc, &*state)
    }

    /// The access servers that hold links. Each page of the links is of one moment, with the clients of
    /// that moment, and no page has no account: there are at most as many as accounts.
    fn access_servers(&self, accounts: u32) -> Result<AccessServersLook, NoMemory> {
        let mut servers = Vec::new(self.alloc);
        let mut room = FIRST_ROOM;
        let mut first = 0u32;
        for _ in 0..accounts {
            let (config, page) = self.links_from(first)?;
            for held in page.held.as_slice() {
                add_links(self.alloc, &mut servers, &*config, held.links.as_slice())?;
            }
            if servers.len() >= room {
                servers = join_servers(self.alloc, servers)?;
                room = servers.len().saturating_mul(2).saturating_add(FIRST_ROOM);
            }
            first = page.next;
            if first >= config.accounts() {
                break;
            }
        }
        AccessServersLook::of(self.alloc, servers)
    }

    /// A page of the links from this account on, and the accounts that it is of. The store's lock is held
    /// while the page is copied.
    fn links_from(&self, first: u32) -> Result<(Arc<Config>, LinksPage), NoMemory> {
        let state = self.state.lock(self.rt);
        Ok((state.config()?, state.links_from(self.alloc, first)?))
    }

    /// Whether batches are being recorded, as far as the worker that makes ticks has seen.
    pub(crate) fn recording(&self) -> Recording {
        recording_of(self.is_failing.load(Ordering::SeqCst))
    }

    /// How the server is. Two words are read for it, and no lock is taken.
    pub(crate) fn health_now(&self) -> Health {
        let behind = self.clock_behind.load(Ordering::SeqCst);
        Health::of(self.recording(), behind)
    }

    /// The last whole minutes.
    fn minutes(&self) -> Result<Vec<Minute>, NoMemory> {
        let history = self.history.lock(self.rt);
        let mut minutes = Vec::new(self.alloc);
        minutes.extend_from_slice(history.minutes())?;
        Ok(minutes)
    }

    /// The queue of each socket that the system reports.
    fn socket_looks(&self) -> Result<Vec<SocketLook>, NoMemory> {
        let mut looks = Vec::new(self.alloc);
        let of_ipv4 = self.socket_table(IPV4_TABLE);
        let of_ipv6 = self.socket_table(IPV6_TABLE);
        for pair in self.sockets.pairs() {
            let table = if pair.address.is_ipv4() {
                &of_ipv4
            } else {
                &of_ipv6
            };
            for port in [pair.auth_port, pair.acct_port] {
                if let Some(look) = socket_in(table.as_str(), pair.address, port) {
                    looks.push(look)?;
                }
            }
        }
        Ok(looks)
    }

    /// One of the system's tables of sockets, empty if it cannot be read.
    fn socket_table(&self, path: &str) -> String {
        let octets = read_file(self.files, self.alloc, path, MAX_TABLE_LEN);
        let octets = octets.unwrap_or(Vec::new(self.alloc));
        String::from_utf8(octets).unwrap_or(String::new(self.alloc))
    }
}

/// What is said of a server's recording, by whether a batch was not recorded lately.
fn recording_of(is_failing: bool) -> Recording
    ensures { result ≡ recording_of is_failing }
{
    if is_failing {
        Recording::Failing
    } else {
        Recording::Recorded
    }
}
