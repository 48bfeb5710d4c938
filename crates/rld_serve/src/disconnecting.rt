//! Sessions that their access servers are to disconnect (RFC 5176). One worker sends the requests and takes
//! the answers, of several at once, so that no other waits for an access server.

ghost use Rattle.std.specs.Prelude.{◌≡◌, IfErr, IfOk};
ghost use Rattle.std.specs.Arc.{arc_value};
ghost use Rattle.rld_control.specs.declared.disconnected.Disconnected.TheVariants.{Unanswered};
ghost use Rattle.rld_serve.specs.Disconnecting.{IsOutcomeOf, TellsOutcome, TellsOutcomeOf, WentTo, after_ack};
ghost use Rattle.rld_serve.specs.Hearing.{HasHeardOne};
ghost use Rattle.rld_serve.specs.Refusing.{IsWhyNotOrdered};

use crate::accounts::Accounts;
use crate::ask_fault::AskFault;
use crate::hearing::Hear;
use crate::server::Server;
use rld_control::{DisconnectAnswer, DisconnectFault, Disconnected, FreeFault, NamedSession};
use rld_edges::{MOST_ORDERS, Operator, Order, RunFault, UnderWay, Unsent};
use rld_start::Generations;
use rld_state::Freed;
use rsl_accounts::Config;
use std::net::{Net, UdpSocket};
use std::os::unix::net::UnixStream;
use std::sync::{Arc, Wait};
use std::thread;
use std::time::{self, Duration};

/// How long the worker sleeps between two looks for an order, in milliseconds.
const SLEEP_MILLIS: u64 = 100;

const _: () = prove!(SLEEP_MILLIS == 100);

impl<'a, G, A, R> Server<'a, G, A, R>
where
    G: Generations,
    A: Accounts,
    R: time::Clock + Wait,
{
    /// Orders that a session is disconnected. The operator is answered once the outcome is known, or at
    /// once if nothing is sent.
    pub(crate) fn order(&self, named: NamedSession, stream: UnixStream) {
        match self.orderable(&named) {
            Ok((config, port)) => {
                let order = Order {
                    named,
                    config,
                    port,
                    stream,
                };
                if let Err(order) = self.orders.push(self.rt, order) {
                    self.say(&order.stream, DisconnectFault::Busy.answer().as_bytes());
                }
            }
            Err(fault) => self.say(&stream, fault.text().as_bytes()),
        }
    }

    /// The accounts, and the port that a request for this session goes to, if it may be disconnected.
    fn orderable(&self, named: &NamedSession) -> Result<(Arc<Config>, u16), AskFault>
        ensures goes { IfOk result (λ found. WentTo (arc_value found.0) named.now found.1) }
        ensures fault { IfErr result (IsWhyNotOrdered named.now) }
    {
        let state = self.state.lock(self.rt);
        let config = state.config()?;
        match state.port_for(self.alloc, named)? {
            Ok(port) => Ok((config, port)),
            Err(fault) => Err(AskFault::Disconnect(fault)),
        }
    }

    /// Sends an answer to an operator.
    fn say(&self, stream: &UnixStream, text: &[u8]) {
        if let Ok(operator) = Operator::new(self.rt, stream) {
            operator.answer(text);
        }
    }

    /// Ends an order with this answer to its operator.
    fn end_with(&self, order: &Order, text: &[u8]) {
        self.orders.close_one();
        self.say(&order.stream, text);
    }

    /// Has an operator hear an outcome.
    fn tell_outcome<H: Hear>(&self, operator: &mut H, outcome: Disconnected)
        ensures { HasHeardOne (TellsOutcome outcome) (H.heard operator.old) (H.heard operator.new) }
    {
        match outcome.answer(self.alloc) {
            Ok(text) => operator.hear(text.as_slice()),
            Err(_) => operator.hear(AskFault::NoMemory.text().as_bytes()),
        }
    }

    /// Has an operator hear what comes of the session that he named, to whose request its access server
    /// has answered so.
    fn tell_answer<H: Hear>(&self, operator: &mut H, named: &NamedSession, answer: DisconnectAnswer)
        ensures { HasHeardOne (TellsOutcomeOf named.now answer)
            (H.heard operator.old) (H.heard operator.new) }
    {
        let outcome = self.outcome_of(named, answer);
        self.tell_outcome(operator, outcome);
    }

    /// Has an operator hear that the access server has not answered.
    fn tell_silence<H: Hear>(&self, operator: &mut H)
        ensures { HasHeardOne (TellsOutcome Unanswered) (H.heard operator.old) (H.heard operator.new) }
    {
        self.tell_outcome(operator, Disconnected::Unanswered);
    }

    /// What comes of a session to whose request its access server has answered so: where the session has ended its
    /// place is freed, as by its Stop, unless that has come already.
    fn outcome_of(&self, named: &NamedSession, answer: DisconnectAnswer) -> Disconnected
        ensures { IsOutcomeOf named.now answer result }
    {
        match answer {
            DisconnectAnswer::Ack => after_ack(&self.freed(named)),
            DisconnectAnswer::Nak(cause) => Disconnected::Refused(cause),
        }
    }

    /// Makes the request of each order that has come.
    fn begin_orders(&self, under_way: &mut UnderWay) {
        let moment = u32::try_from(self.moment()).unwrap_or(u32::MAX);
        for _ in 0..MOST_ORDERS {
            let Some(order) = self.orders.next(self.rt) else {
                break;
            };
            if let Err(Unsent { order, fault }) = under_way.begin(self.alloc, order, moment) {
                let text = match fault {
                    Some(fault) => AskFault::from(fault).text(),
                    None => DisconnectFault::Busy.answer(),
                };
                self.end_with(&order, text.as_bytes());
            }
        }
    }

    /// Sends each request that is due, and gives up those that have waited long enough.
    fn send_due(&self, socket: &UdpSocket, under_way: &mut UnderWay) {
        for _ in 0..MOST_ORDERS {
            match under_way.send_due(self.rt, socket) {
                Some(order) => {
                    self.orders.close_one();
                    self.tell_silence(&mut Operator::new(self.rt, &order.stream).ok());
                }
                None => break,
            }
        }
    }
}

impl<'a, G, A, R> Server<'a, G, A, R>
where
    G: Generations,
    A: Accounts,
    R: Net + Eprint + time::Clock + Wait,
{
    /// Has access servers disconnect sessions, until the server is to end. It has a socket only while it asks.
    pub(crate) fn disconnect_all(&self) -> Result<(), RunFault> {
        let mut under_way = UnderWay::new(self.alloc)?;
        if !self.has_started()? {
            return Ok(());
        }
        for _ in self.rt.forever() {
            if self.shutdown.is_over() {
                break;
            }
            thread::sleep(self.rt, Duration::from_millis(SLEEP_MILLIS));
            if !self.orders.is_empty() {
                self.disconnect_ordered(&mut under_way);
            }
        }
        Ok(())
    }

    /// Has what is ordered disconnected, until nothing is under way or the server is to end.
    fn disconnect_ordered(&self, under_way: &mut UnderWay) {
        let Ok(socket) = self.sockets.bind_asking(self.rt) else {
            return self.refuse_all();
        };
        for _ in self.rt.forever() {
            self.begin_orders(under_way);
            self.send_due(&socket, under_way);
            if under_way.is_empty() || self.shutdown.is_over() {
                break;
            }
            if let Some((order, answer)) = under_way.take_answer(self.rt, &socket) {
                self.orders.close_one();
                let mut operator = Operator::new(self.rt, &order.stream).ok();
                self.tell_answer(&mut operator, &order.named, answer);
            }
        }
    }

    /// Ends each order that has come, since there is no socket.
    fn refuse_all(&self) {
        for _ in 0..MOST_ORDERS {
            let Some(order) = self.orders.next(self.rt) else {
                break;
            };
            self.end_with(&order, DisconnectFault::NoSocket.answer().as_bytes());
        }
    }
}

/// What comes of a session that its access server has disconnected, by what came of freeing its place.
fn after_ack(freed: &Result<Freed, FreeFault>) -> Disconnected
    ensures { result ≡ after_ack freed.now }
{
    match freed {
        Ok(Freed::Done(_) | Freed::NotHeld(_)) => Disconnected::Done,
        // another account file has come, with which nothing of it is held
        Err(FreeFault::UnknownAccount | FreeFault::UnknownClient) => Disconnected::Done,
        Ok(Freed::Unrecorded) | Err(FreeFault::NoSession | FreeFault::NoMemory) =>
            Disconnected::Unrecorded,
    }
}
