//! All connections, served from one thread.

ghost use Rattle.std.specs.Prelude.{◌≡◌, ◌<◌, ◌≤◌};

use crate::http_connection::{HttpConnection, Turn};
use crate::page_service::PageService;
use circular_buffer::HeapCircularBuffer;
use mio::unix::SourceFd;
use mio::{Events, Interest, Poll, Token};
use rld_look::Shown;
use std::alloc::Global;
use std::hash::RandomState;
use std::io;
use std::net::{Net, TcpListener, TcpStream};
use std::os::fd::AsRawFd;
use std::time::Duration;

/// The most connections served at once.
const MOST_OPEN: usize = 16;

/// The longest wait, in milliseconds.
const WAIT_MILLIS: u64 = 1_000;

/// The token of every socket: which one is ready does not matter, since each has its turn.
const SOCKET: Token = Token(0);

/// All connections, in the order in which they came.
#[derive(Drop)]
pub(crate) struct Connections {
    alloc: Global,
    keys: RandomState,
    open: HeapCircularBuffer<HttpConnection>,
    poll: Poll,
    events: Events,
    has_more: bool,
}

impl Connections {
    /// No connection, at a listener that does not block. The error is the system's, if it has no
    /// resources to wait for the listener, or comes if memory is refused.
    pub(crate) fn new<N: Net>(
        net: &N,
        alloc: Global,
        keys: RandomState,
        listener: &TcpListener,
    ) -> io::Result<Connections> {
        let poll = Poll::new(net)?;
        let fd = listener.as_raw_fd();
        poll.registry()
            .register(&mut SourceFd(&fd), SOCKET, Interest::READABLE)?;
        Ok(Connections {
            alloc,
            keys,
            open: HeapCircularBuffer::with_capacity(alloc, MOST_OPEN)?,
            poll,
            events: Events::with_capacity(alloc, MOST_OPEN)?,
            has_more: true,
        })
    }

    /// Waits until something can be done, for at most a second.
    pub(crate) fn wait(&mut self, now: u64) -> io::Result<()> {
        let mut wait = WAIT_MILLIS;
        if let Some(oldest) = self.open.front() {
            wait = wait.min(oldest.left(now));
        }
        if self.has_more {
            wait = 0;
        }
        self.poll
            .poll(&mut self.events, Some(Duration::from_millis(wait)))
    }

    /// Accepts the connections that wait at the listener. If there is no room for another, the
    /// oldest is closed: so one that does not finish keeps no other out.
    pub(crate) fn let_in(&mut self, listener: &TcpListener, now: u64) {
        self.has_more = false;
        for _ in 0..MOST_OPEN {
            let Ok((stream, _)) = listener.accept() else {
                return;
            };
            self.take_in(stream, now);
        }
        self.has_more = true;
    }

    /// Accepts a connection, in place of the oldest one if there is no room. If the system refuses
    /// it, it is closed.
    fn take_in(&mut self, stream: TcpStream, now: u64) {
        let Ok(connection) = HttpConnection::new(self.alloc, self.keys, stream, now) else {
            return;
        };
        let fd = connection.stream().as_raw_fd();
        let both = Interest::READABLE | Interest::WRITABLE;
        let registered = self
            .poll
            .registry()
            .register(&mut SourceFd(&fd), SOCKET, both);
        if registered.is_err() {
            return;
        }
        let _oldest = self.open.push_back(connection);
    }

    /// Gives each connection a turn, and closes those that are finished or whose time is over.
    pub(crate) fn serve<S: Shown>(&mut self, service: &mut PageService<'_, S>, now: u64) {
        for _ in 0..self.open.len() {
            let Some(mut connection) = self.open.pop_front() else {
                return;
            };
            match turn(&mut connection, service, now) {
                Turn::Waits => {}
                Turn::GoesOn => self.has_more = true,
                Turn::Leaves => continue,
            }
            let _none = self.open.push_back(connection);
        }
    }
}

/// A turn of a connection: it leaves if its time is over, and is else served under its own local
/// address.
fn turn<S: Shown>(
    connection: &mut HttpConnection,
    service: &mut PageService<'_, S>,
    now: u64,
) -> Turn
    ensures over { connection.old.until ≤ now → (result ≡ Turn.Leaves) × (service.new ≡ service.old) }
    ensures place { now < connection.old.until → service.new.place ≡ connection.old.place }
    ensures moment { now < connection.old.until → service.new.moment ≡ now }
{
    if connection.left(now) == 0 {
        return Turn::Leaves;
    }
    service.turn_to(connection.place(), now);
    connection.take_turn(service)
}
