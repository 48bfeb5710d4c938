//! How the workers of a server end: the state that they share, and a port that fails when the other
//! does.

use rsl_event::Source;
use rsl_service::{DatagramPort, PortFault};
use std::sync::atomic::{AtomicBool, AtomicU64, Ordering};
use std::thread;
use std::time::{self, Duration};

/// The receivers of a server.
const RECEIVERS: u64 = 2;

const _: () = prove!(RECEIVERS == 2);

/// The workers of a server: the receivers, and the one that makes ticks.
const WORKERS: u64 = RECEIVERS + 1;

/// How many times a receiver checks whether all workers have started.
const START_LOOKS: u64 = 5_000;

/// How long it sleeps between two checks, in milliseconds.
const START_SLEEP_MILLIS: u64 = 1;

/// The state that the workers of a server share: how many have started, how many receivers have
/// ended, and whether one has failed.
#[derive(Drop)]
pub(crate) struct Shutdown {
    started: AtomicU64,
    ended: AtomicU64,
    has_failed: AtomicBool,
}

impl Shutdown {
    /// No worker has started.
    pub(crate) fn new() -> Shutdown {
        Shutdown {
            started: AtomicU64::new(0),
            ended: AtomicU64::new(0),
            has_failed: AtomicBool::new(false),
        }
    }

    /// Notes that a worker has started.
    pub(crate) fn note_start(&self) {
        self.started.fetch_add(1, Ordering::SeqCst);
    }

    /// Waits until all workers have started, for about five seconds at most. Answers whether they
    /// have, and no receiver has failed. A worker without a thread of its own starts only once
    /// another has ended.
    pub(crate) fn await_start<C: time::Clock>(&self, clock: &C) -> bool {
        for _ in 0..START_LOOKS {
            if self.has_failed() {
                return false;
            }
            if self.started.load(Ordering::SeqCst) >= WORKERS {
                return true;
            }
            thread::sleep(clock, Duration::from_millis(START_SLEEP_MILLIS));
        }
        false
    }

    /// Notes that a receiver has taken its last turn.
    pub(crate) fn note_end(&self) {
        self.ended.fetch_add(1, Ordering::SeqCst);
    }

    /// Notes that a receiver has failed, and so has ended.
    pub(crate) fn note_failure(&self) {
        self.has_failed.store(true, Ordering::SeqCst);
        self.note_end();
    }

    /// Whether a receiver has failed.
    pub(crate) fn has_failed(&self) -> bool {
        self.has_failed.load(Ordering::SeqCst)
    }

    /// Whether both receivers have ended.
    pub(crate) fn is_over(&self) -> bool {
        self.ended.load(Ordering::SeqCst) >= RECEIVERS
    }
}

/// A port whose `receive` can be made to fail, for a port that is to give no more.
pub(crate) trait FailingPort: DatagramPort<Source> {
    ghost use Rattle.std.specs.Prelude.{◌≡◌, false, is_err, true};
    ghost use Rattle.rsl_port.specs.Told.{CanReceive, after_receive};

    /// A `receive` that is counted and fails, without a wait. The port tells no more.
    fn fail(&mut self) -> Result<Option<(usize, Source)>, PortFault>
        requires { CanReceive 1 (Self.numbers self.old) }
        ensures failed { is_err result ≡ true }
        ensures counted { Self.numbers self.new ≡ after_receive result (Self.numbers self.old) }
        ensures silent { Self.tells self.new ≡ false };
}

/// One of the two ports of a server. It fails once the other's receiver has failed, so that no
/// receiver goes on alone.
///
/// A contract sees what the port inside tells, and the counts of its calls.
#[derive(Drop)]
pub(crate) struct PairedPort<'a, P> {
    port: P,
    shutdown: &'a Shutdown,
}

impl<'a, P: FailingPort> PairedPort<'a, P> {
    ghost use Rattle.std.specs.Prelude.{◌≡◌};

    /// The port, with the state that the workers share.
    pub(crate) fn new(port: P, shutdown: &'a Shutdown) -> PairedPort<'a, P>
        ensures { result.port ≡ port }
    {
        PairedPort { port, shutdown }
    }

    /// The port inside.
    pub(crate) fn into_port(self) -> P
        ensures { result ≡ self.entry.port }
    {
        let PairedPort { port, shutdown: _ } = self;
        port
    }
}

impl<P: FailingPort> DatagramPort<Source> for PairedPort<'_, P> {
    ghost numbers = { λ paired. P.numbers paired.port };

    ghost tells = { λ paired. P.tells paired.port };

    ghost taken = { λ paired. P.taken paired.port };

    ghost sent = { λ paired. P.sent paired.port };

    ghost room = { λ paired. P.room paired.port };

    ghost is_down = { λ paired. P.is_down paired.port };

    fn receive(&mut self, buffer: &mut [u8]) -> Result<Option<(usize, Source)>, PortFault> {
        if self.shutdown.has_failed() {
            return self.port.fail();
        }
        self.port.receive(buffer)
    }

    fn send(&mut self, octets: &[u8], to: Source) -> Result<(), PortFault> {
        self.port.send(octets, to)
    }
}
