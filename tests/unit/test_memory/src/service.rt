//! A service that takes the steps of a script.

use crate::given::Given;
use crate::page::Page;
use crate::served::Served;
use crate::stop::Stop;
use rsl_service::{Blanks, Tally};
use rsl_steps::Step;
use std::marker::Brand;
use std::sync::Wait;

/// Gives the steps of a script to a service, closes it, and tells what each call came to.
pub(crate) fn tell<R: Print + Wait>(page: &mut Page<R>, given: &Given) -> Result<(), Stop> {
    live::<Brand, Brand, Brand, Brand, R>(page, Blanks::new(), given)
}

/// Has a service over ledgers of its own take the steps. Calls and a worker make the ticks in turn, and
/// each shard is cut after the first.
fn live<L0: Tally, L1: Tally, L2: Tally, L3: Tally, R: Print + Wait>(
    page: &mut Page<R>,
    blanks: Blanks,
    given: &Given,
) -> Result<(), Stop> {
    let config = given.config(page.alloc)?;
    let mut served = Served::<L0, L1, L2, L3>::new(page, blanks, config)?;
    let mut ticks = 0u32;
    for step in &given.steps {
        let Step::Tick { shard: 0, moment } = step else {
            served.take(page, step)?;
            continue;
        };
        if ticks % 2 == 0 {
            served.take(page, step)?;
        } else {
            served.take_turns(page, *moment)?;
        }
        if ticks == 0 {
            served.cut_each(page)?;
        }
        ticks += 1;
    }
    served.end(page, &*given.config)
}
