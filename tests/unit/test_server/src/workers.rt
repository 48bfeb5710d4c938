//! Clocks and pauses that report what they showed and said.

use rsl_service::{Clock, Pause};
use std::alloc::Global;

/// A clock that goes on by so much at each look, and keeps the moments that it showed.
///
/// It reports these moments, unless it was refused the memory to keep one.
#[derive(Drop)]
pub(crate) struct Steady {
    now: u64,
    step: u64,
    shown: Vec<u64>,
    is_telling: bool,
}

impl Steady {
    /// A clock that shows this moment first, and goes on by so much.
    pub(crate) fn new(alloc: Global, now: u64, step: u64) -> Steady {
        Steady {
            now,
            step,
            shown: Vec::new(alloc),
            is_telling: true,
        }
    }

    /// Whether it showed this moment.
    pub(crate) fn has_shown(&self, moment: u64) -> bool {
        self.is_telling && self.shown.contains(&moment)
    }
}

impl Clock for Steady {
    ghost use Rattle.std.specs.Prelude.{Some, None, if◌then◌else◌};

    ghost shown = { λ clock. if clock.is_telling then Some clock.shown.items else None };

    fn now(&mut self) -> u64 {
        let now = self.now;
        self.now = now.saturating_add(self.step);
        if self.shown.push(now).is_err() {
            self.is_telling = false;
        }
        now
    }
}

/// The pauses after which there is a turn more.
///
/// It reports what it said, unless it was refused the memory to keep that.
#[derive(Drop)]
pub(crate) struct Pauses {
    left: u64,
    said: Vec<bool>,
    is_telling: bool,
}

impl Pauses {
    /// The first `left` pauses say yes. Those after them say no.
    pub(crate) fn new(alloc: Global, left: u64) -> Pauses {
        Pauses {
            left,
            said: Vec::new(alloc),
            is_telling: true,
        }
    }
}

impl Pause for Pauses {
    ghost use Rattle.std.specs.Prelude.{Some, None, if◌then◌else◌};

    ghost said = { λ pauses. if pauses.is_telling then Some pauses.said.items else None };

    fn pause(&mut self) -> bool {
        let goes_on = self.left > 0;
        self.left = self.left.saturating_sub(1);
        if self.said.push(goes_on).is_err() {
            self.is_telling = false;
        }
        goes_on
    }
}
