//! All connections over which asks come, served from one thread.

ghost use Rattle.std.specs.Prelude.{◌≡◌, ◌<◌, ◌++◌, [], IfSome, Ok, length, map, position, slice_get};
ghost use Rattle.rld_ask.specs.Asking.{
  AreTold,
  IsTakenIn,
  IsToldIf,
  answers_after,
  asks_in,
  forms_of,
  has_not_shown,
  outgoing,
  with_room,
};

use crate::ask_connection::{AskConnection, Turn};
use crate::asked::{Answer, Asked};
use crate::form::AskForm;
use crate::token::Token;
use mio::unix::SourceFd;
use mio::{Events, Interest, Poll, Token as Name};
use rsl_reply::Dictionary;
use std::alloc::Global;
use std::io;
use std::net::{Net, SocketAddr, TcpListener, TcpStream};
use std::os::fd::AsRawFd;
use std::time::Duration;

/// How many connections are served at once: as many asks as a server takes at once.
const MOST_OPEN: usize = 64;

const _: () = prove!(MOST_OPEN == 64);

/// How long a wait takes at most, in milliseconds.
const WAIT_MILLIS: u64 = 1_000;

/// The name of each socket that is waited for: which one is ready is not asked, since each has its turn.
const SOCKET: Name = Name(0);

/// All connections, in the order in which they came.
#[derive(Drop)]
pub(crate) struct AskConnections {
    alloc: Global,
    connections: Vec<AskConnection>,
    poll: Poll,
    events: Events,
    has_more: bool,
}

impl AskConnections {
    /// No connection yet, at a listener whose calls do not wait. The error is the system's: it has no room to
    /// wait for the listener; or memory is refused.
    pub(crate) fn new<N: Net>(
        net: &N,
        alloc: Global,
        listener: &TcpListener,
    ) -> io::Result<AskConnections> {
        let poll = Poll::new(net)?;
        let fd = listener.as_raw_fd();
        poll.registry()
            .register(&mut SourceFd(&fd), SOCKET, Interest::READABLE)?;
        Ok(AskConnections {
            alloc,
            connections: Vec::with_capacity(alloc, MOST_OPEN)?,
            poll,
            events: Events::with_capacity(alloc, MOST_OPEN)?,
            has_more: true,
        })
    }

    /// Waits until something can be done, for at most a second.
    pub(crate) fn wait(&mut self) -> io::Result<()> {
        let wait = if self.has_more { 0 } else { WAIT_MILLIS };
        self.poll
            .poll(&mut self.events, Some(Duration::from_millis(wait)))
    }

    /// Takes in the connections that wait at the listener. Where there is no room for one more, the oldest of
    /// those that have not shown the token is closed; where all have, the oldest.
    pub(crate) fn let_in(&mut self, listener: &TcpListener, now: u64) {
        self.has_more = false;
        for _ in 0..MOST_OPEN {
            let Ok((stream, peer)) = listener.accept() else {
                return;
            };
            self.take_in(stream, peer, now);
        }
        self.has_more = true;
    }

    /// Takes in a connection of this peer, once there is room. Where the system refuses it, it is closed.
    fn take_in(&mut self, stream: TcpStream, peer: SocketAddr, now: u64)
        ensures { IsTakenIn self.old.connections.items self.new.connections.items }
    {
        let Ok(connection) = AskConnection::new(self.alloc, stream, peer, now) else {
            return;
        };
        let fd = connection.stream().as_raw_fd();
        let both = Interest::READABLE | Interest::WRITABLE;
        let registered = self
            .poll
            .registry()
            .register(&mut SourceFd(&fd), SOCKET, both);
        if registered.is_err() {
            return;
        }
        self.make_room();
        // there is room, so none is refused
        let _none = self.connections.push(connection);
    }

    /// Closes a connection where all room is taken.
    fn make_room(&mut self)
        ensures { self.new.connections.items ≡ with_room self.old.connections.items }
    {
        if self.connections.len() >= MOST_OPEN {
            let index = outgoing(self.connections.as_slice());
            drop(self.connections.remove(index));
        }
    }

    /// Gives each connection a turn, puts their asks to the server together, and answers them. Gives whether
    /// the server goes on.
    pub(crate) fn serve<S: Asked>(
        &mut self,
        names: &Dictionary,
        token: &Token,
        server: &mut S,
        now: u64,
    ) -> bool {
        let mut asks = Vec::new(self.alloc);
        self.gather(token, server, &mut asks, now);
        if asks.is_empty() {
            return true;
        }
        let Some(answers) = server.ask(asks.as_slice()) else {
            return false;
        };
        answer_each(&mut self.connections, names, answers.as_slice(), now);
        self.has_more = true;
        true
    }

    /// Gives each connection a turn, has the server note which requests were refused, and closes the connections
    /// that are done with or have had their time. Each has one ask at most.
    fn gather<S: Asked>(&mut self, token: &Token, server: &mut S, asks: &mut Vec<AskForm>, now: u64)
        ensures { map Ok asks.new.items ≡ map Ok asks.old.items ++ asks_in self.new.connections.items }
    {
        if take_turns(&mut self.connections, token, server, asks, now) {
            self.has_more = true;
        }
        self.close_ended();
    }

    /// Closes the connections that are done with.
    fn close_ended(&mut self)
        ensures { asks_in self.new.connections.items ≡ asks_in self.old.connections.items }
    {
        self.connections
            .retain(|connection| !connection.has_ended());
    }
}

/// The index of the connection that is closed where there is no room for another.
fn outgoing(connections: &[AskConnection]) -> usize
    ensures index { result ≡ outgoing connections.now }
    ensures within { 0 < length connections.now → result < length connections.now }
{
    position_of_stranger(connections).unwrap_or(0)
}

/// The index of the oldest connection that has not shown the token.
fn position_of_stranger(connections: &[AskConnection]) -> Option<usize>
    ensures index { result ≡ position has_not_shown connections.now }
    ensures within { IfSome result (λ index. index < length connections.now) }
{
    connections
        .iter()
        .position(|connection| !connection.has_shown_token())
}

/// Gives each connection a turn, has the server note which of its requests were refused, and gives whether one
/// can go on at once.
#[tactic(auto, using(crate::proofs::Gathering::asks_more, crate::proofs::Gathering::asks_all))]
fn take_turns<S: Asked>(
    connections: &mut [AskConnection],
    token: &Token,
    server: &mut S,
    asks: &mut Vec<AskForm>,
    now: u64,
) -> bool
    ensures { map Ok asks.new.items ≡ map Ok asks.old.items ++ asks_in connections.new }
{
    let mut has_more = false;
    for index in 0..connections.len() {
        let connection = &mut connections[index];
        if take_turn_of(connection, token, asks, now) {
            has_more = true;
        }
        note_refused(connection, server);
    }
    has_more
}

/// Has the server note how many requests of a connection were refused, if some were.
fn note_refused<S: Asked>(connection: &mut AskConnection, server: &mut S)
    ensures { connection.new ≡ record connection.old { refused = connection.new.refused } }
{
    let refused = connection.take_refused();
    if !refused.is_none() {
        server.note(connection.peer(), refused);
    }
}

/// Gives a connection a turn, takes its ask, if it has one, and gives whether it can go on at once. One that has
/// had its time is done with, and one that waits still: it was not answered.
fn take_turn_of(
    connection: &mut AskConnection,
    token: &Token,
    asks: &mut Vec<AskForm>,
    now: u64,
) -> bool
    ensures { map Ok asks.new.items ≡ map Ok asks.old.items ++ forms_of connection.new }
{
    if connection.left(now) == 0 || connection.is_waiting() {
        connection.end();
        return false;
    }
    match connection.take_turn(token, now) {
        Turn::Waits => false,
        Turn::GoesOn => true,
        Turn::Asks(ask) => {
            if asks.push(ask).is_err() {
                connection.end();
            }
            false
        }
        Turn::Leaves => {
            connection.end();
            false
        }
    }
}

/// Answers the connections that wait: the first with the first answer, and so on.
#[tactic(auto, using(crate::proofs::Gathering::told_step, crate::proofs::Gathering::left_step, crate::proofs::Gathering::rest_step, crate::proofs::Gathering::told_all))]
fn answer_each(connections: &mut [AskConnection], names: &Dictionary, answers: &[Answer], now: u64)
    ensures { AreTold names.now connections.old answers.now connections.new }
{
    let mut left = answers;
    for index in 0..connections.len() {
        left = answer_if_waiting(&mut connections[index], names, left, now);
    }
}

/// Answers a connection with the next answer, if it waits. Gives the answers that are left.
fn answer_if_waiting<'a>(
    connection: &mut AskConnection,
    names: &Dictionary,
    answers: &'a [Answer],
    now: u64,
) -> &'a [Answer]
    ensures told { IsToldIf names.now connection.old (slice_get answers.now 0) connection.new }
    ensures rest { result.now ≡ answers_after connection.old answers.now }
{
    if !connection.is_waiting() {
        return answers;
    }
    match answers.split_first() {
        Some((answer, others)) => {
            connection.answer_or_end(names, Some(answer), now);
            others
        }
        None => {
            connection.answer_or_end(names, None, now);
            answers
        }
    }
}
