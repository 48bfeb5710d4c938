ghost use Rattle.std.specs.Prelude.{◌≡◌, IfSome, Some as some};
ghost use Rattle.std.specs.Arc.{arc_value};
ghost use Rattle.rld_edges.specs.Answered.{answer_from};

use crate::order::{MOST_ORDERS, Order};
use crate::step::Step;
use circular_buffer::HeapCircularBuffer;
use rld_control::{DisconnectAnswer, FreeFault, disconnect_request, read_answer};
use std::alloc::{AllocError, Global};
use std::io::ErrorKind;
use std::net::{Ipv4Addr, SocketAddr, SocketAddrV4, UdpSocket};
use std::thread;
use std::time::{Clock, Duration, Instant};

/// How long the worker sleeps after a fault of its socket, in milliseconds.
const SLEEP_MILLIS: u64 = 100;

/// The most octets of an answer (RFC 2865 section 3).
const ANSWER_LEN: usize = 4_096;

/// An order whose request has no answer yet.
#[derive(Drop)]
struct Sent {
    order: Order,
    identifier: u8,
    octets: Vec<u8>,
    to: SocketAddr,
    times: u32,
    last: Option<Instant>,
}

impl Sent {
    /// Whole seconds since it was sent the last time; enough to give it up if the clock cannot be read.
    fn passed<C: Clock>(&self, clock: &C) -> u64 {
        match &self.last {
            Some(last) => match last.elapsed(clock) {
                Ok(passed) => passed.as_secs(),
                Err(_) => u64::MAX,
            },
            None => u64::MAX,
        }
    }

    /// Sends it once more.
    fn send<C: Clock>(&mut self, clock: &C, socket: &UdpSocket) {
        // what the system does not send is lost like a dropped datagram
        let _ = socket.send_to(self.octets.as_slice(), self.to);
        self.times = self.times.saturating_add(1);
        self.last = Instant::now(clock).ok();
    }

    /// What a datagram from this peer answers to it, if anything.
    fn answer_in(&self, peer: SocketAddr, datagram: &[u8]) -> Option<DisconnectAnswer>
        ensures peer { IfSome result (λ _. peer ≡ self.now.to) }
        ensures answer { IfSome result (λ answer. answer_from (arc_value self.now.order.config)
            self.now.order.named.client self.now.octets.items datagram.now ≡ some answer) }
    {
        if peer != self.to {
            return None;
        }
        let config = &*self.order.config;
        let client = config.client(self.order.named.client)?;
        let secret = config.client_at(client).secret.expose();
        read_answer(self.octets.as_slice(), secret, datagram)
    }

    /// Its order.
    fn into_order(self) -> Order {
        let Sent { order, octets, .. } = self;
        drop(octets);
        order
    }
}

/// An order whose request is not sent, and the reason.
#[derive(Drop)]
pub struct Unsent {
    /// The order.
    pub order: Order,
    /// Why there is no request: `None` if sixteen are under way.
    pub fault: Option<FreeFault>,
}

/// The requests that access servers have not answered (RFC 5176): sixteen at most, each with an
/// Identifier of its own.
#[derive(Drop)]
pub struct UnderWay {
    sent: HeapCircularBuffer<Sent>,
    /// The Identifier of the last one.
    identifier: u8,
}

impl UnderWay {
    /// No requests. It fails only if memory is refused.
    pub fn new(alloc: Global) -> Result<UnderWay, AllocError> {
        Ok(UnderWay {
            sent: HeapCircularBuffer::with_capacity(alloc, MOST_ORDERS)?,
            identifier: 0,
        })
    }

    /// Whether there is none.
    pub fn is_empty(&self) -> bool {
        self.sent.is_empty()
    }

    /// Makes the request of an order, which `send_due` then sends. Its Event-Timestamp is `moment`, in
    /// seconds since 1970.
    pub fn begin(&mut self, alloc: Global, order: Order, moment: u32) -> Result<(), Unsent> {
        let identifier = self.next_identifier();
        let made = disconnect_request(alloc, &*order.config, &order.named, identifier, moment);
        let octets = match made {
            Ok(octets) => octets,
            Err(fault) => return Err(Unsent {
                order,
                fault: Some(fault),
            }),
        };
        let to = SocketAddrV4::new(Ipv4Addr::from(order.named.client), order.port);
        let one = Sent {
            order,
            identifier,
            octets,
            to: SocketAddr::V4(to),
            times: 0,
            last: None,
        };
        match self.sent.try_push_back(one) {
            Ok(()) => Ok(()),
            Err(one) => Err(Unsent {
                order: one.into_order(),
                fault: None,
            }),
        }
    }

    /// The next Identifier that no request under way has.
    fn next_identifier(&mut self) -> u8 {
        for _ in 0..MOST_ORDERS {
            self.identifier = self.identifier.wrapping_add(1);
            if !self.has(self.identifier) {
                break;
            }
        }
        self.identifier
    }

    /// Whether a request has this Identifier.
    fn has(&self, identifier: u8) -> bool {
        self.sent.iter().any(|one| one.identifier == identifier)
    }

    /// Sends the requests that are due, by `Step::of`, up to the first that is given up: the order of
    /// that one leaves. `None` if none is given up.
    pub fn send_due<C: Clock>(&mut self, clock: &C, socket: &UdpSocket) -> Option<Order> {
        for _ in 0..self.sent.len() {
            let mut one = self.sent.pop_front()?;
            match Step::of(one.times, one.passed(clock)) {
                Step::Send => one.send(clock, socket),
                Step::Wait => {}
                Step::GiveUp => return Some(one.into_order()),
            }
            // there is room, since it has just left
            if let Err(one) = self.sent.try_push_back(one) {
                return Some(one.into_order());
            }
        }
        None
    }

    /// Waits for a datagram, for a tenth of a second at most. The order whose request it answers leaves,
    /// with the answer.
    pub fn take_answer<C: Clock>(
        &mut self,
        clock: &C,
        socket: &UdpSocket,
    ) -> Option<(Order, DisconnectAnswer)> {
        let mut room = [0u8; ANSWER_LEN];
        let (len, peer) = match socket.recv_from(&mut room) {
            Ok(found) => found,
            Err(error) => {
                if error.kind() != ErrorKind::WouldBlock {
                    thread::sleep(clock, Duration::from_millis(SLEEP_MILLIS));
                }
                return None;
            }
        };
        let datagram = &room[..len.min(ANSWER_LEN)];
        for _ in 0..self.sent.len() {
            let one = self.sent.pop_front()?;
            if let Some(answer) = one.answer_in(peer, datagram) {
                return Some((one.into_order(), answer));
            }
            // there is room, since it has just left
            let _ = self.sent.try_push_back(one);
        }
        None
    }
}
