use crate::clock::Clock;
use std::time;

/// The system's clock, in seconds since 1970. If it cannot be read, it shows the last moment again.
#[derive(Drop)]
pub struct SystemClock<'a, C: time::Clock> {
    clock: &'a C,
    last: u64,
}

impl<'a, C: time::Clock> SystemClock<'a, C> {
    /// The system's clock, with `last` as the last moment shown.
    pub fn new(clock: &'a C, last: u64) -> SystemClock<'a, C> {
        SystemClock { clock, last }
    }
}

impl<'a, C: time::Clock> Clock for SystemClock<'a, C> {
    fn now(&mut self) -> u64 {
        if let Ok(time) = self.clock.since_1970() {
            self.last = time.as_secs();
        }
        self.last
    }
}
