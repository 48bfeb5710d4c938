//! A worker that makes ticks.

use crate::page::Page;
use crate::served::{Seen, Served, cut, is_mixed};
use crate::stop::Stop;
use rsl_service::{Clock, Open, Pause, Service, Tally, expire_loop};
use rsl_shard::{Row, Segment};
use std::sync::Wait;

/// How many turns a worker takes at a moment: where one is refused, the other follows.
const TURNS: u64 = 2;

/// A clock that stands.
#[derive(Drop)]
pub(crate) struct Standing(pub u64);

impl Clock for Standing {
    fn now(&mut self) -> u64 {
        self.0
    }
}

/// Pauses in which it is seen what each account holds, and a shard is cut: another in each.
#[derive(Drop)]
struct Cutting<'a, 'b, L0: Tally, L1: Tally, L2: Tally, L3: Tally, R> {
    page: &'a mut Page<'b, R>,
    service: &'a Service<L0, L1, L2, L3, Open>,
    segments: &'a mut Vec<Segment>,
    /// The rows of the report after each turn.
    rows: Vec<Vec<Row>>,
    paused: Result<(), Stop>,
}

impl<L0: Tally, L1: Tally, L2: Tally, L3: Tally, R: Print + Wait> Cutting<
    '_,
    '_,
    L0,
    L1,
    L2,
    L3,
    R,
> {
    /// Sees what each account holds, and cuts a shard.
    fn look(&mut self) -> Result<(), Stop> {
        let (rt, alloc) = (self.page.rt(), self.page.alloc);
        let rows = self
            .page
            .look(self.service, &|service| Ok(service.report(rt, alloc)?))?;
        let shard = self.rows.len() as u32;
        self.rows.push(rows)?;
        cut(self.page, self.service, self.segments, shard)
    }
}

impl<L0: Tally, L1: Tally, L2: Tally, L3: Tally, R: Print + Wait> Pause
    for Cutting<'_, '_, L0, L1, L2, L3, R> {
    fn pause(&mut self) -> bool {
        self.paused = self.look();
        self.paused.is_ok()
    }
}

impl<L0: Tally, L1: Tally, L2: Tally, L3: Tally> Served<L0, L1, L2, L3> {
    /// Has a worker take its turns at a moment, and tells what is seen after them. A turn that is refused
    /// is not counted, and lacks a line in the shards that had no tick.
    pub(crate) fn take_turns<R: Print + Wait>(
        &mut self,
        page: &mut Page<R>,
        moment: u64,
    ) -> Result<(), Stop> {
        let before = self.seen(page)?;
        let (done, rows) = self.work(page, moment)?;
        let made = self.seen(page)?;
        let swept = swept(&before, &made);
        for shard in swept..made.lines.len() {
            self.more[shard] -= 1;
        }
        let is_right = are_turns(&before, &rows, &made, done, swept);
        if done < TURNS {
            page.note("turn", is_right)?;
        } else {
            page.check("turn", is_right)?;
        }
        write!(page.text, "turns")?;
        let after = self.seen(page)?;
        Self::show(page, &after)
    }

    /// Has a worker take its turns at a moment. Gives in how many every shard had its tick, and what the
    /// accounts hold after each.
    fn work<R: Print + Wait>(
        &mut self,
        page: &mut Page<R>,
        moment: u64,
    ) -> Result<(u64, Vec<Vec<Row>>), Stop> {
        let (rt, alloc) = (page.rt(), page.alloc);
        let service = &self.service;
        let mut pause = Cutting {
            page,
            service,
            segments: &mut self.segments,
            rows: Vec::new(alloc),
            paused: Ok(()),
        };
        let (clock, pass) = (&mut Standing(moment), &mut self.acct);
        let done = expire_loop(rt, alloc, service, pass, clock, &mut pause, TURNS);
        pause.paused?;
        Ok((done, pause.rows))
    }
}

/// How many shards had a tick in each turn, from the first on.
fn swept(before: &Seen, made: &Seen) -> usize {
    let shards = before.lines.iter().zip(&made.lines);
    shards
        .take_while(|(old, new)| **new == **old + TURNS as i64)
        .count()
}

/// Whether two turns at a moment are as they should be: where one is refused, the shards that it did not
/// come to are as before it, and the other is made.
fn are_turns(before: &Seen, rows: &[Vec<Row>], made: &Seen, done: u64, swept: usize) -> bool {
    let shards = made.lines.len();
    let [first, second] = rows else {
        return false;
    };
    let is_first = is_mixed(&before.rows, first, &made.rows, swept as u32, shards);
    *second == made.rows
        && (*first == made.rows || done < TURNS && is_first)
        && (done == TURNS) == (swept == shards)
        && done + 1 >= TURNS
}
