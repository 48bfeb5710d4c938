//! Tests of the journal of a shard: its chunks are one list of lines.

use crate::records::config_of;
use rsl_accounts::Config;
use rsl_shard::{Line, Move, Shard, Spare};
use std::alloc::Global;
use std::test::Fail;
use test_rows::{Subject, check_rows, number, printed};

/// How many ticks a shard makes, one a second, each with what was taken before: how many lines it
/// has then, how many a cut hands out, and which of these is the first that is not in its place.
#[derive(Clone, Copy)]
struct Ticked<'a, R> {
    rt: &'a R,
}

impl<R: AllocGlobal> Subject for Ticked<'_, R> {
    fn found(&self, alloc: Global, fields: &[&str]) -> Result<String, Fail> {
        let [ticks] = fields else {
            return Err("a number of ticks")?;
        };
        let ticks = number(ticks)?;
        let config = config_of(self.rt, "1")?;
        after_ticks(alloc, &config, ticks)
    }
}

/// What is found after `ticks` ticks.
fn after_ticks(alloc: Global, config: &Config, ticks: u64) -> Result<String, Fail> {
    // A configuration has a shard: this call tells it.
    let mut shard = Shard::new(alloc, config, 0)?;
    tick_ready(alloc, &mut shard, ticks)?;
    cut_of(alloc, &mut shard)
}

/// What is found of a shard that is cut.
fn cut_of(alloc: Global, shard: &mut Shard) -> Result<String, Fail> {
    let moves = shard.moves();
    let segment = shard.cut(alloc)?;
    printed(
        alloc,
        &(moves, segment.lines.len(), first_astray(&segment.lines)),
    )
}

/// Makes `ticks` ticks.
fn tick_ready(alloc: Global, shard: &mut Shard, ticks: u64) -> Result<(), Fail> {
    let mut spare = Spare::new(alloc);
    for moment in 0..ticks {
        if shard.total() == u64::MAX {
            return Err("too many lines")?;
        }
        spare.fill()?;
        shard.step_ready(alloc, &Move::Tick { moment }, &mut spare)?;
    }
    Ok(())
}

/// The place of the first line that is not the tick of its own second.
fn first_astray(lines: &[Line]) -> Option<usize> {
    for place in 0..lines.len() {
        if !is_tick_at(&lines[place].moved, place as u64) {
            return Some(place);
        }
    }
    None
}

fn is_tick_at(moved: &Move, second: u64) -> bool {
    match moved {
        Move::Tick { moment } => *moment == second,
        Move::Own { .. } | Move::Sweep { .. } | Move::Stray { .. } => false,
    }
}

#[test]
fn lines_stand_in_their_order_over_chunks(rt: HostRuntime) -> Result<(), Fail> {
    check_rows(
        &rt,
        &Ticked { rt: &rt },
        "
none | 0 | (0, 0, None)
one | 1 | (1, 1, None)
a full chunk | 1024 | (1024, 1024, None)
one line more | 1025 | (1025, 1025, None)
over two chunks | 2500 | (2500, 2500, None)
",
    )
}
