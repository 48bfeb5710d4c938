//! The workers that receive datagrams.

ghost use Rattle.std.specs.Prelude.{◌≡◌, IfErr};
ghost use Rattle.rld_current.specs.Turning.{IsFaultOfTurn};

use crate::accounts::Accounts;
use crate::server::Server;
use rld_edges::{Bound, Readiness, RunFault, SocketPort};
use rld_look::{WatchContext, Watcher};
use rld_start::Generations;
use rld_turn::Receiver;
use rsl_event::Port;
use rsl_port::SystemClock;
use std::net::Net;
use std::sync::Wait;
use std::time;

/// What a receiver keeps from turn to turn.
#[derive(Drop)]
struct Place<'s, R: Wait + time::Clock> {
    receiver: Receiver,
    clock: SystemClock<'s, R>,
    watcher: Watcher<'s, R>,
}

/// What follows a turn on a socket.
enum Next {
    /// Another turn at once, since more may wait there.
    Turn,
    /// A wait for the socket.
    Wait,
}

impl<'a, G, A, R> Server<'a, G, A, R>
where
    G: Generations,
    A: Accounts,
    R: Net + Eprint + time::Clock + Wait,
{
    /// Receives datagrams from a socket, for a port, until the server is to end: each turn with the
    /// accounts that are then present. Receivers are the first of all jobs, so a receiver has the
    /// number of its job.
    pub(crate) fn receive_all(
        &self,
        bound: &Bound,
        port: Port,
        number: usize,
    ) -> Result<(), RunFault> {
        let mut readiness = Readiness::of(self.rt, self.alloc, &bound.socket)?;
        let context = WatchContext {
            board: &self.board,
            refusals: &self.refusals,
        };
        let Some(watcher) = Watcher::new(self.rt, self.alloc, context, number)? else {
            return Ok(());
        };
        let mut place = Place {
            receiver: Receiver::new(self.alloc, port)?,
            clock: SystemClock::new(self.rt, self.plan.start),
            watcher,
        };
        if !self.has_started()? {
            return Ok(());
        }
        for _ in self.rt.forever() {
            if self.shutdown.is_over() {
                break;
            }
            match self.take_turn(bound, port, &mut place)? {
                Next::Turn => {}
                Next::Wait => readiness.wait()?,
            }
        }
        Ok(())
    }

    /// Takes a turn on a socket. `Down` comes if the socket failed, and `Unsynced` if nothing more
    /// can be recorded: no turn follows then.
    fn take_turn(
        &self,
        bound: &Bound,
        port: Port,
        place: &mut Place<'_, R>,
    ) -> Result<Next, RunFault>
        requires { place.old.receiver.port ≡ port }
        ensures port { place.new.receiver.port ≡ port }
        ensures fault { IfErr result IsFaultOfTurn }
    {
        let current = self.current.read(self.rt);
        let status = bound
            .status_server
            .then_some(current.status(self.plan.networks, port));
        let mut datagrams = SocketPort::new(&bound.socket, self.alloc, status);
        let turn = self.shared().turn(
            &*current,
            &mut place.receiver,
            &mut place.clock,
            &mut datagrams,
            &mut place.watcher,
        );
        turn.outcome()?;
        if datagrams.is_drained() {
            Ok(Next::Wait)
        } else {
            Ok(Next::Turn)
        }
    }
}
