//! The worker that ticks the shards.

ghost use Rattle.std.specs.Prelude.{◌≤◌};
ghost use Rattle.rsl_service.specs.Ticked.{AreTicked, HasWorked, IsTurn};

use crate::{Gate, Pass, Service, Tally};
use rsl_port::{Clock, Pause};
use std::alloc::Global;
use std::sync::Wait;

/// Ticks every shard at the clock's moment, and pauses, for `turns` turns or until a pause answers
/// false. Gives the number of turns in which every shard was ticked; the others met a fault, and
/// the loop went on.
#[tactic(auto, using(crate::proofs::Ticking::ticking))]
pub fn expire_loop<
    L0: Tally,
    L1: Tally,
    L2: Tally,
    L3: Tally,
    G: Gate,
    C: Clock,
    P: Pause,
    R: Wait,
>(
    rt: &R,
    alloc: Global,
    service: &Service<L0, L1, L2, L3, G>,
    pass: &mut Pass<L0, L1, L2, L3>,
    clock: &mut C,
    pause: &mut P,
    turns: u64,
) -> u64
    ensures most { result ≤ turns }
    ensures ticked { AreTicked service.now.config.settings.shards result turns pass.old.receipts pass.new.receipts }
    ensures worked { HasWorked service.now.config.settings.shards result turns
        (P.said pause.old) (P.said pause.new) (C.shown clock.old) (C.shown clock.new) pass.old.receipts pass.new.receipts }
{
    let mut done = 0;
    for _ in 0..turns {
        done += tick(rt, alloc, service, pass, clock);
        if !pause.pause() {
            return done;
        }
    }
    done
}

/// Ticks every shard at the clock's moment. Gives 1, or 0 on a fault.
#[tactic(auto, using(crate::proofs::Ticking::ticking))]
fn tick<L0: Tally, L1: Tally, L2: Tally, L3: Tally, G: Gate, C: Clock, R: Wait>(
    rt: &R,
    alloc: Global,
    service: &Service<L0, L1, L2, L3, G>,
    pass: &mut Pass<L0, L1, L2, L3>,
    clock: &mut C,
) -> u64
    ensures one { result ≤ 1 }
    ensures ticked { AreTicked service.now.config.settings.shards result 1 pass.old.receipts pass.new.receipts }
    ensures turn { IsTurn service.now.config.settings.shards result
        (C.shown clock.old) (C.shown clock.new) pass.old.receipts pass.new.receipts }
{
    match service.expire(rt, alloc, pass, clock.now()) {
        Ok(()) => 1,
        Err(_) => 0,
    }
}
