ghost use Rattle.std.specs.Prelude.{◌≡◌, IfOk};
ghost use Rattle.rsl_service.specs.Told.{no_numbers};
ghost use Rattle.rsl_serve.specs.Served.{IsReceived};

use crate::clock::EverySecond;
use crate::server::{Finished, Passes, Server, Sockets};
use crate::shutdown::PairedPort;
use crate::turns::Taken;
use crate::udp_port::ClosedPort;
use crate::{ServeFault, SystemClock, UdpPort};
use rsl_event::Port;
use rsl_service::{Pass, Tally, expire_loop};
use std::sync::Wait;
use std::thread::{self, Threads};
use std::time;

/// A receiver, before its first turn.
#[derive(Drop)]
struct Receiver<L0: Tally, L1: Tally, L2: Tally, L3: Tally> {
    port: Port,
    datagrams: UdpPort,
    pass: Pass<L0, L1, L2, L3>,
}

/// What a receiver did.
#[derive(Drop)]
pub(crate) struct Received {
    /// What it did in its turns.
    pub taken: Taken,
    /// Its socket, which was called as the counts of its turns say.
    pub datagrams: ClosedPort,
}

/// The result of a receiver: what it did, and its pass.
type Outcome<L0, L1, L2, L3> = Result<(Received, Pass<L0, L1, L2, L3>), ServeFault>;

/// The results of both receivers, that of the authentication port first.
type Outcomes<L0, L1, L2, L3> = (Outcome<L0, L1, L2, L3>, Outcome<L0, L1, L2, L3>);

impl<L0, L1, L2, L3, R> Server<'_, L0, L1, L2, L3, R>
where
    L0: Tally + Send + Sync,
    L1: Tally + Send + Sync,
    L2: Tally + Send + Sync,
    L3: Tally + Send + Sync,
    R: time::Clock + Threads + Wait + Sync,
{
    /// Runs the workers on their own threads, until both receivers have ended.
    pub(crate) fn run_workers(
        &self,
        passes: Passes<L0, L1, L2, L3>,
        sockets: Sockets,
    ) -> Result<Finished<L0, L1, L2, L3>, ServeFault>
        requires auth { sockets.auth ≡ no_numbers }
        requires acct { sockets.acct ≡ no_numbers }
        ensures auth { IfOk result (λ finished.
            IsReceived Port.Auth self.now.run_time.turns finished.auth) }
        ensures acct { IfOk result (λ finished.
            IsReceived Port.Acct self.now.run_time.turns finished.acct) }
    {
        let auth = Receiver {
            port: Port::Auth,
            datagrams: sockets.auth,
            pass: passes.auth,
        };
        let acct = Receiver {
            port: Port::Acct,
            datagrams: sockets.acct,
            pass: passes.acct,
        };
        self.run_threads(auth, acct, passes.ticks)
    }

    /// Runs the receivers and the worker that makes ticks, each on its own thread.
    fn run_threads(
        &self,
        auth: Receiver<L0, L1, L2, L3>,
        acct: Receiver<L0, L1, L2, L3>,
        ticks: Pass<L0, L1, L2, L3>,
    ) -> Result<Finished<L0, L1, L2, L3>, ServeFault>
        requires auth { auth.datagrams ≡ no_numbers }
        requires acct { acct.datagrams ≡ no_numbers }
        ensures auth { IfOk result (λ finished.
            IsReceived auth.port self.now.run_time.turns finished.auth) }
        ensures acct { IfOk result (λ finished.
            IsReceived acct.port self.now.run_time.turns finished.acct) }
    {
        let server = self;
        // If no thread can be made, the first runs last: the worker that makes ticks, which then
        // ends at once, since no receiver has begun without it.
        let (ticks, (auth, acct)) = thread::join(
            self.rt,
            move || server.run_ticker(ticks),
            move || -> Outcomes<L0, L1, L2, L3>
                requires auth { auth.datagrams ≡ no_numbers }
                requires acct { acct.datagrams ≡ no_numbers }
                ensures auth { IfOk result.0 (λ received.
                    IsReceived auth.port server.entry.now.run_time.turns received.0) }
                ensures acct { IfOk result.1 (λ received.
                    IsReceived acct.port server.entry.now.run_time.turns received.0) }
            { server.run_receivers(auth, acct) },
        );
        // The other receiver fails too, but only because this one was refused memory.
        if matches!(&acct, Err(ServeFault::NoMemory)) {
            return Err(ServeFault::NoMemory);
        }
        let (auth, auth_pass) = auth?;
        let (acct, acct_pass) = acct?;
        Ok(Finished {
            auth,
            acct,
            passes: Passes {
                auth: auth_pass,
                acct: acct_pass,
                ticks,
            },
        })
    }

    /// Runs both receivers on their own threads, until both have ended.
    fn run_receivers(
        &self,
        auth: Receiver<L0, L1, L2, L3>,
        acct: Receiver<L0, L1, L2, L3>,
    ) -> Outcomes<L0, L1, L2, L3>
        requires auth { auth.datagrams ≡ no_numbers }
        requires acct { acct.datagrams ≡ no_numbers }
        ensures auth { IfOk result.0 (λ received.
            IsReceived auth.port self.now.run_time.turns received.0) }
        ensures acct { IfOk result.1 (λ received.
            IsReceived acct.port self.now.run_time.turns received.0) }
    {
        let server = self;
        thread::join(
            self.rt,
            move || -> Outcome<L0, L1, L2, L3>
                requires { auth.datagrams ≡ no_numbers }
                ensures { IfOk result (λ received.
                    IsReceived auth.port server.entry.now.run_time.turns received.0) }
            { server.run_receiver(auth) },
            move || -> Outcome<L0, L1, L2, L3>
                requires { acct.datagrams ≡ no_numbers }
                ensures { IfOk result (λ received.
                    IsReceived acct.port server.entry.now.run_time.turns received.0) }
            { server.run_receiver(acct) },
        )
    }

    /// Runs a receiver. It also fails if the other one has failed, or a worker has not started.
    fn run_receiver(&self, receiver: Receiver<L0, L1, L2, L3>) -> Outcome<L0, L1, L2, L3>
        requires { receiver.datagrams ≡ no_numbers }
        ensures { IfOk result (λ received.
            IsReceived receiver.port self.now.run_time.turns received.0) }
    {
        let Receiver {
            port,
            datagrams,
            mut pass,
        } = receiver;
        self.shutdown.note_start();
        if !self.shutdown.await_start(self.rt) {
            self.shutdown.note_failure();
            return Err(ServeFault::InputOutput);
        }
        match self.receive_turns(port, datagrams, &mut pass) {
            Ok(received) => Ok((received, pass)),
            Err(fault) => Err(fault),
        }
    }

    /// Lets a receiver take its turns at its socket, which is closed after them.
    fn receive_turns(
        &self,
        port: Port,
        datagrams: UdpPort,
        pass: &mut Pass<L0, L1, L2, L3>,
    ) -> Result<Received, ServeFault>
        requires { datagrams ≡ no_numbers }
        ensures { IfOk result (λ received. IsReceived port self.now.run_time.turns received) }
    {
        let mut datagrams = PairedPort::new(datagrams, &self.shutdown);
        let taken = self.take_turns(port, &mut datagrams, pass, self.run_time.turns)?;
        Ok(Received {
            taken,
            datagrams: datagrams.into_port().close(),
        })
    }

    /// Runs the worker that ticks every shard once a second, until both receivers have ended.
    fn run_ticker(&self, mut pass: Pass<L0, L1, L2, L3>) -> Pass<L0, L1, L2, L3> {
        self.shutdown.note_start();
        let mut clock = SystemClock::new(self.rt, self.run_time.boot);
        let mut pause = EverySecond::new(self.rt, &self.shutdown);
        let _ticks = expire_loop(
            self.rt,
            self.alloc,
            &self.service,
            &mut pass,
            &mut clock,
            &mut pause,
            u64::MAX,
        );
        pass
    }
}
