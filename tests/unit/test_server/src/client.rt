//! An access server's side of a test: its requests, of which some are lost and some come twice.
//!
//! Each of the accounts has five rounds of a session, 100 seconds apart: an Access-Request, a Start,
//! an Interim-Update and a Stop. Of ten accounts
//!
//! - the last Stop of the first is lost: it holds its place;
//! - the fourth Stop of another is lost: its fifth ask is rejected, and it holds its place;
//! - the third Start of another is lost: the Interim-Update takes the reservation;
//! - the second ask of another is lost: the Start takes a place of its own;
//! - all but the first ask of another's first round is lost: the reservation lapses after 60
//!   seconds.

use crate::requests::{ACCOUNTS, Kind, SECRET, request_of};
use crate::scene::Scene;
use rsl_auth::seal;
use std::alloc::Global;
use std::io;
use std::net::{Net, UdpSocket};
use std::test::Fail;
use std::time::Duration;

/// How many sessions each account has.
const ROUNDS: u64 = 5;

/// The most reads for an answer: what answers another request is passed over.
const MOST_READS: u64 = 8;

/// How long a read waits, in seconds.
const WAIT_SECS: u64 = 5;

/// What a client has been answered.
#[derive(Clone, Copy, Debug)]
pub(crate) struct Answers {
    /// Asks that were accepted.
    pub(crate) accepts: u64,
    /// Asks that were rejected.
    pub(crate) rejects: u64,
    /// Accounting-Requests that were answered.
    pub(crate) notes: u64,
    /// Requests that were sent twice.
    pub(crate) repeats: u64,
}

/// A client's socket for one of the server's ports.
#[derive(Drop)]
pub(crate) struct Side {
    socket: UdpSocket,
    pub(crate) sent: u64,
}

/// A socket that sends to this port of 127.0.0.1, and takes answers from it alone.
pub(crate) fn connected<N: Net>(net: &N, port: u16) -> io::Result<UdpSocket> {
    let socket = UdpSocket::bind(net, "127.0.0.1:0")?;
    socket.connect(("127.0.0.1", port))?;
    socket.set_read_timeout(Some(Duration::from_secs(WAIT_SECS)))?;
    Ok(socket)
}

impl Side {
    /// A socket for this port of 127.0.0.1.
    pub(crate) fn new<N: Net>(net: &N, port: u16) -> io::Result<Side> {
        let socket = connected(net, port)?;
        Ok(Side { socket, sent: 0 })
    }

    /// Sends a request.
    fn send(&mut self, request: &[u8]) -> io::Result<()> {
        self.socket.send(request)?;
        self.sent = self.sent.saturating_add(1);
        Ok(())
    }

    /// Reads the answer to a request.
    fn answer(&self, alloc: Global, request: &[u8]) -> Result<Vec<u8>, Fail> {
        let mut room = [0u8; 4096];
        for _ in 0..MOST_READS {
            let len = self.socket.recv(&mut room)?;
            let answer = &room[..len];
            if is_answer(alloc, answer, request)? {
                return Ok(Vec::from_slice(alloc, answer)?);
            }
        }
        Err("no answer")?
    }

    /// The answer to a request that is sent once.
    fn once(&mut self, alloc: Global, request: &[u8]) -> Result<Vec<u8>, Fail> {
        self.send(request)?;
        self.answer(alloc, request)
    }

    /// The answer to a request that is sent again once it is answered: both answers are the same
    /// octets.
    fn twice(&mut self, alloc: Global, request: &[u8]) -> Result<Vec<u8>, Fail> {
        let first = self.once(alloc, request)?;
        let second = self.once(alloc, request)?;
        same_of(first, second)
    }

    /// The answer to a request that is sent again before its answer is read: both answers are the
    /// same octets.
    fn hastily(&mut self, alloc: Global, request: &[u8]) -> Result<Vec<u8>, Fail> {
        self.send(request)?;
        let first = self.once(alloc, request)?;
        let second = self.answer(alloc, request)?;
        same_of(first, second)
    }
}

/// The answer to a request and to its repeat, which have to be the same octets.
fn same_of(first: Vec<u8>, second: Vec<u8>) -> Result<Vec<u8>, Fail> {
    if first != second {
        return Err("another answer to a repeat")?;
    }
    Ok(second)
}

/// Whether these octets are an answer to a request: its Identifier and the Response Authenticator.
fn is_answer(alloc: Global, answer: &[u8], request: &[u8]) -> Result<bool, Fail> {
    if answer.len() < 20 || request.len() < 20 {
        return Err("a short packet")?;
    }
    let mut authenticator = [0; 16];
    authenticator.copy_from_slice(&request[4..20]);
    let mut sealed = Vec::from_slice(alloc, answer)?;
    seal(&mut sealed, &authenticator, SECRET);
    Ok(answer[1] == request[1] && sealed.as_slice() == answer)
}

/// A client of a server.
#[derive(Drop)]
pub(crate) struct Client {
    pub(crate) auth: Side,
    pub(crate) acct: Side,
    pub(crate) tally: Answers,
    random: u64,
}

impl Client {
    /// A client that has sent nothing, and begins its random numbers with a seed.
    pub(crate) fn new(auth: Side, acct: Side, seed: u64) -> Client {
        let tally = Answers {
            accepts: 0,
            rejects: 0,
            notes: 0,
            repeats: 0,
        };
        Client {
            auth,
            acct,
            tally,
            random: seed,
        }
    }

    /// All rounds of all accounts.
    pub(crate) fn talk(&mut self, alloc: Global, scene: &Scene) -> Result<(), Fail> {
        for round in 0..ROUNDS {
            scene.set_moment(100 * round);
            for account in 0..ACCOUNTS {
                self.session(alloc, account, round)?;
            }
        }
        Ok(())
    }

    /// The requests of a session, but those that are lost.
    fn session(&mut self, alloc: Global, account: u64, round: u64) -> Result<(), Fail> {
        for kind in [Kind::Ask, Kind::Start, Kind::Interim, Kind::Stop] {
            if !is_lost(kind, account, round) {
                let request = request_of(alloc, kind, account, round)?;
                self.request(alloc, kind, &request)?;
            }
        }
        Ok(())
    }

    /// A request, which is sent twice now and then, and its answer.
    fn request(&mut self, alloc: Global, kind: Kind, request: &[u8]) -> Result<(), Fail> {
        let way = self.next_way();
        let side = match kind {
            Kind::Ask => &mut self.auth,
            _ => &mut self.acct,
        };
        let answer = match way {
            0 => side.twice(alloc, request)?,
            1 => side.hastily(alloc, request)?,
            _ => side.once(alloc, request)?,
        };
        if way < 2 {
            self.tally.repeats = self.tally.repeats.saturating_add(1);
        }
        self.count(answer.first().copied())
    }

    /// Counts an answer of this Code.
    fn count(&mut self, code: Option<u8>) -> Result<(), Fail> {
        let counted = match code {
            Some(2) => &mut self.tally.accepts,
            Some(3) => &mut self.tally.rejects,
            Some(5) => &mut self.tally.notes,
            _ => return Err("an answer of another Code")?,
        };
        *counted = counted.saturating_add(1);
        Ok(())
    }

    /// A number under 8, of a linear congruence.
    fn next_way(&mut self) -> u64 {
        self.random = self
            .random
            .wrapping_mul(6_364_136_223_846_793_005)
            .wrapping_add(1_442_695_040_888_963_407);
        self.random >> 61
    }
}

/// Whether a request never comes.
fn is_lost(kind: Kind, account: u64, round: u64) -> bool {
    match (account % 10, round) {
        (0, 4) | (3, 3) => kind == Kind::Stop,
        (5, 2) => kind == Kind::Start,
        (7, 1) => kind == Kind::Ask,
        (8, 0) => kind != Kind::Ask,
        _ => false,
    }
}
