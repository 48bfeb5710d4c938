use crate::shutdown::Shutdown;
use rsl_service::Pause;
use std::thread;
use std::time::{self, Duration};

/// How long a pause is, in seconds.
const PAUSE_SECS: u64 = 1;

const _: () = prove!(PAUSE_SECS == 1);

/// When a server starts, and how many turns it takes.
#[derive(Clone, Copy)]
pub(crate) struct RunTime {
    /// Its start in seconds since 1970, which is also its boot number.
    pub boot: u64,
    /// The turns that each receiver takes.
    pub turns: u64,
}

impl RunTime {
    ghost use Rattle.std.specs.Prelude.{◌≡◌, ◌/◌};
    ghost use Rattle.std.specs.Duration.{as_nanos};

    /// The run time of a server that starts `start` after 1970, and whose receivers take `turns`
    /// turns.
    pub(crate) fn new(start: Duration, turns: u64) -> RunTime
        ensures boot { result.boot ≡ as_nanos start / 1_000_000_000 }
        ensures turns { result.turns ≡ turns }
    {
        RunTime {
            boot: start.as_secs(),
            turns,
        }
    }

    /// Waits until the second of the start is over, so that the next server has another boot
    /// number. If the clock cannot be read, it waits for a second.
    pub(crate) fn await_next_second<C: time::Clock>(&self, clock: &C) {
        let passed = match clock.since_1970() {
            Ok(time) if time.as_secs() != self.boot => return,
            Ok(time) => Duration::from_nanos(u64::from(time.subsec_nanos())),
            Err(_) => Duration::ZERO,
        };
        thread::sleep(clock, Duration::from_secs(1).saturating_sub(passed));
    }
}

/// A pause of a second between two ticks, until both receivers have ended.
#[derive(Drop)]
pub(crate) struct EverySecond<'a, C: time::Clock> {
    clock: &'a C,
    shutdown: &'a Shutdown,
}

impl<'a, C: time::Clock> EverySecond<'a, C> {
    /// A pause by this clock, until the receivers have ended.
    pub(crate) fn new(clock: &'a C, shutdown: &'a Shutdown) -> EverySecond<'a, C> {
        EverySecond { clock, shutdown }
    }
}

impl<'a, C: time::Clock> Pause for EverySecond<'a, C> {
    fn pause(&mut self) -> bool {
        if !self.shutdown.is_over() {
            thread::sleep(self.clock, Duration::from_secs(PAUSE_SECS));
        }
        !self.shutdown.is_over()
    }
}
