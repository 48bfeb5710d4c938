//! A clock that goes on steadily.

use rsl_port::Clock;
use std::test::Fail;
use test_rows::number;

/// A clock that shows a moment and then later ones, in steps of one length.
#[derive(Clone, Copy)]
pub(crate) struct Steady {
    now: u64,
    step: u64,
}

impl Clock for Steady {
    fn now(&mut self) -> u64 {
        let now = self.now;
        self.now = now.saturating_add(self.step);
        now
    }
}

/// A clock, of its first moment and its step.
pub(crate) fn clock_of(text: &str) -> Result<Steady, Fail> {
    let Some((now, step)) = text.split_once(' ') else {
        return Err("one number in place of two")?;
    };
    Ok(Steady {
        now: number(now)?,
        step: number(step)?,
    })
}
