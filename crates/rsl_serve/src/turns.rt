//! The turns of a receiver of the server.

ghost use Rattle.std.specs.Prelude.{◌≡◌, IfOk, None, true};
ghost use Rattle.rsl_service.specs.Counted.{AreCounted};
ghost use Rattle.rsl_service.specs.Served.{HasServed, state_of};
ghost use Rattle.rsl_service.specs.Told.{CanReceive, CanSend};
ghost use Rattle.rsl_serve.specs.Served.{HasReceived};

use crate::server::Server;
use crate::{ServeFault, SystemClock};
use rsl_event::{Port, Source};
use rsl_service::{Counts, DatagramPort, Pass, Tally, receive};
use std::sync::Wait;
use std::time;

/// What a receiver did in its turns. Only `Server::take_turns` makes one.
#[derive(Drop)]
pub(crate) struct Taken {
    /// The port of the service that its datagrams came to.
    port: Port,
    /// Its counts.
    pub counts: Counts,
}

impl<L0: Tally, L1: Tally, L2: Tally, L3: Tally, R: time::Clock + Wait> Server<
    '_,
    L0,
    L1,
    L2,
    L3,
    R,
> {
    /// Lets a receiver take its turns, and then notes its end for the other workers.
    pub(crate) fn take_turns<P: DatagramPort<Source>>(
        &self,
        port: Port,
        datagrams: &mut P,
        pass: &mut Pass<L0, L1, L2, L3>,
        turns: u64,
    ) -> Result<Taken, ServeFault>
        requires receives { CanReceive turns (P.numbers datagrams.old) }
        requires sends { CanSend turns (P.numbers datagrams.old) }
        ensures port { IfOk result (λ taken. taken.port ≡ port) }
        ensures turns { IfOk result (λ taken. HasReceived turns taken.counts) }
        ensures calls { IfOk result (λ taken. AreCounted 0 taken.counts
            (P.numbers datagrams.old) (P.numbers datagrams.new)) }
        ensures served { P.tells datagrams.new ≡ true → IfOk result (λ taken.
            HasServed self.now.service port taken.counts
            (state_of (P.taken datagrams.old) pass.old.receipts (P.sent datagrams.old) None)
            (state_of (P.taken datagrams.new) pass.new.receipts (P.sent datagrams.new) None)) }
    {
        let mut clock = SystemClock::new(self.rt, self.run_time.boot);
        let result = receive(
            self.rt,
            self.alloc,
            &self.service,
            pass,
            port,
            datagrams,
            &mut clock,
            turns,
        );
        match &result {
            Ok(_) => self.shutdown.note_end(),
            Err(_) => self.shutdown.note_failure(),
        }
        let counts = result?;
        Ok(Taken { port, counts })
    }
}
