//! An HTTP connection.

ghost use Rattle.std.specs.Prelude.{◌≡◌, ◌-◌};

use crate::page_service::PageService;
use http_server::{Config, Connection};
use http1::Limits;
use rld_look::Shown;
use std::alloc::Global;
use std::hash::RandomState;
use std::io::{self, ErrorKind, Read};
use std::net::{Shutdown, SocketAddr, SocketAddrV4, TcpStream};

/// The longest time of a connection, in milliseconds.
const PATIENCE_MILLIS: u64 = 5_000;

/// How many times octets are moved before others have their turn.
const MOVES: usize = 64;

/// The most octets of a request's head. A longer one is answered with 414 or 431.
const MAX_HEAD_LEN: usize = 8 * 1024;

/// The most octets of a request's body, which is never read. A longer one is answered with 413.
const MAX_BODY_LEN: usize = 1024;

/// How a turn of a connection ends.
#[derive(Clone, Copy)]
pub(crate) enum Turn {
    /// Nothing can be done until octets come or go.
    Waits,
    /// More can be done at once.
    GoesOn,
    /// The connection is finished.
    Leaves,
}

/// A connection with a request.
#[derive(Drop)]
pub(crate) struct HttpConnection {
    stream: TcpStream,
    connection: Connection,
    place: SocketAddrV4,
    until: u64,
    is_answered: bool,
}

impl HttpConnection {
    /// A connection accepted at this moment in milliseconds. Its stream does not block from now on.
    pub(crate) fn new(
        alloc: Global,
        keys: RandomState,
        stream: TcpStream,
        now: u64,
    ) -> io::Result<HttpConnection> {
        stream.set_nonblocking(true)?;
        let SocketAddr::V4(place) = stream.local_addr()? else {
            return Err(io::Error::from(ErrorKind::Unsupported));
        };
        Ok(HttpConnection {
            stream,
            connection: Connection::new(alloc, keys, config()),
            place,
            until: now.saturating_add(PATIENCE_MILLIS),
            is_answered: false,
        })
    }

    /// The stream, to wait for.
    pub(crate) fn stream(&self) -> &TcpStream {
        &self.stream
    }

    /// The local address of the connection.
    pub(crate) fn place(&self) -> SocketAddrV4
        ensures { result ≡ self.now.place }
    {
        self.place
    }

    /// The milliseconds that it still has at this moment.
    pub(crate) fn left(&self, now: u64) -> u64
        ensures { result ≡ self.now.until - now }
    {
        self.until.saturating_sub(now)
    }

    /// Does what can be done without blocking, for a limited number of moves. The service has to
    /// answer requests to the local address of this connection.
    pub(crate) fn take_turn<S: Shown>(&mut self, service: &mut PageService<'_, S>) -> Turn
        requires { service.old.place ≡ self.old.place }
        ensures place { service.new.place ≡ service.old.place }
        ensures moment { service.new.moment ≡ service.old.moment }
    {
        for _ in 0..MOVES {
            match self.take_step(service) {
                Ok(Turn::GoesOn) => {}
                Ok(turn) => return turn,
                Err(error) if error.kind() == ErrorKind::WouldBlock => return Turn::Waits,
                Err(_) => return Turn::Leaves,
            }
        }
        Turn::GoesOn
    }

    /// Answers what has come, and moves octets once. After the answer what still comes is read and
    /// discarded, until the peer has closed too.
    fn take_step<S: Shown>(&mut self, service: &mut PageService<'_, S>) -> io::Result<Turn>
        ensures place { service.new.place ≡ service.old.place }
        ensures moment { service.new.moment ≡ service.old.moment }
    {
        if self.is_answered {
            return self.discard();
        }
        answer(&mut self.connection, service);
        if self.connection.is_done() {
            self.is_answered = true;
            self.stream.shutdown(Shutdown::Write)?;
        } else {
            self.move_octets()?;
        }
        Ok(Turn::GoesOn)
    }

    /// Writes what is pending, or else reads. Gives the number of octets.
    fn move_octets(&mut self) -> io::Result<usize> {
        let mut stream = &self.stream;
        if self.connection.wants_write() {
            return self.connection.write_to(&mut stream);
        }
        self.connection.read_from(&mut stream)
    }

    /// Reads and discards what comes after the request: if the socket were closed before that, the
    /// answer might be lost.
    fn discard(&mut self) -> io::Result<Turn> {
        let mut connections = [0u8; 1024];
        let mut stream = &self.stream;
        match stream.read(&mut connections)? {
            0 => Ok(Turn::Leaves),
            _ => Ok(Turn::GoesOn),
        }
    }
}

/// Answers what has come.
fn answer<S: Shown>(connection: &mut Connection, service: &mut PageService<'_, S>)
    ensures place { service.new.place ≡ service.old.place }
    ensures moment { service.new.moment ≡ service.old.moment }
{
    connection.advance(service);
}

/// The limits of a connection.
fn config() -> Config {
    let standard = Config::default();
    Config {
        limits: Limits {
            max_head_len: MAX_HEAD_LEN,
            ..standard.limits
        },
        max_body_len: MAX_BODY_LEN,
        read_size: 1024,
        ..standard
    }
}
