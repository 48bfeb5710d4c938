//! A service, and the steps that it is given.

use crate::page::Page;
use crate::printed::{Hex, RowTexts};
use crate::stop::Stop;
use crate::{BOOT, TRIES};
use rsl_accounts::Config;
use rsl_event::{Dropped, Port};
use rsl_record::{AuditFault, CloseFault, HasReceipts, Receipt, audit, settle};
use rsl_service::{Answered, ApplyFault, Blanks, CutFault, Open, Pass, PassFault, Service, Tally};
use rsl_shard::{Row, Segment};
use rsl_steps::Step;
use std::alloc::Global;
use std::fmt;
use std::sync::Wait;

/// The most shards of a service.
const MAX_SHARDS: usize = 4;

/// A service, a pass for each port, and the segments that were cut.
#[derive(Drop)]
pub(crate) struct Served<L0: Tally, L1: Tally, L2: Tally, L3: Tally> {
    pub service: Service<L0, L1, L2, L3, Open>,
    pub auth: Pass<L0, L1, L2, L3>,
    pub acct: Pass<L0, L1, L2, L3>,
    pub segments: Vec<Segment>,
    /// How many lines each shard has more than where nothing is refused: a restart or a tick that is
    /// made again is made again in the shards that were swept.
    pub more: [i64; MAX_SHARDS],
}

/// What is seen of a service: what each account holds, and how many lines each shard has, as it is where
/// nothing is refused.
#[derive(PartialEq, Eq, Drop)]
pub(crate) struct Seen {
    pub rows: Vec<Row>,
    pub lines: Vec<i64>,
}

impl fmt::Display for Seen {
    fn fmt<W: fmt::Write>(&self, f: &mut fmt::Formatter<W>) -> fmt::Result {
        write!(
            f,
            "Seen {{ rows: {}, lines: {:?} }}",
            RowTexts(&self.rows),
            self.lines
        )
    }
}

/// What a step came to.
#[derive(Drop)]
enum Came {
    Answered(Answered),
    Ticked,
    Dropped(Dropped),
}

impl<L0: Tally, L1: Tally, L2: Tally, L3: Tally> Served<L0, L1, L2, L3> {
    /// A new service with its passes.
    pub(crate) fn new<R: Print + Wait>(
        page: &mut Page<R>,
        blanks: Blanks,
        config: Config,
    ) -> Result<Served<L0, L1, L2, L3>, Stop> {
        let alloc = page.alloc;
        let service = Service::<L0, L1, L2, L3, Open>::new(alloc, blanks, config, BOOT, Open)?;
        let auth = opened(page, &service)?;
        let acct = opened(page, &service)?;
        Ok(Served {
            service,
            auth,
            acct,
            segments: Vec::new(alloc),
            more: [0; MAX_SHARDS],
        })
    }

    /// What is seen of the service.
    pub(crate) fn seen<R: Print + Wait>(&self, page: &mut Page<R>) -> Result<Seen, Stop> {
        let (rt, alloc) = (page.rt(), page.alloc);
        page.look(
            self,
            &|served: &Self| {
                let rows = served.service.report(rt, alloc)?;
                let mut lines = Vec::new(alloc);
                for shard in 0..served.service.config().shards() {
                    lines.push(served.lines(shard))?;
                }
                Ok(Seen { rows, lines })
            },
        )
    }

    /// How many lines a shard has by the passes, as it is where nothing is refused.
    fn lines(&self, shard: u32) -> i64 {
        let made = lines_in(self.auth.receipts(), shard) + lines_in(self.acct.receipts(), shard);
        made as i64 - self.more[shard as usize]
    }

    /// Tells what is seen of the service, at the end of a line.
    pub(crate) fn show<R: Print>(page: &mut Page<R>, seen: &Seen) -> Result<(), Stop> {
        for row in &seen.rows {
            write!(
                page.text,
                " {}/{}/{}/{}/{}",
                row.held, row.reserved, row.live, row.stale, row.over
            )?;
        }
        writeln!(page.text, " lines {:?}", seen.lines)?;
        Ok(())
    }

    /// Gives a step to the service, and tells what it came to. A restart sweeps each shard by itself,
    /// and one call makes the ticks of all shards.
    pub(crate) fn take<R: Print + Wait>(
        &mut self,
        page: &mut Page<R>,
        step: &Step,
    ) -> Result<(), Stop> {
        if matches!(step, Step::Sweep { .. } | Step::Tick { shard: 1.., .. }) {
            return Ok(());
        }
        let before = self.seen(page)?;
        let mut refused = None;
        for _ in 0..TRIES {
            match self.give(page, step) {
                Err(ApplyFault::Spent { .. }) => return Err(Stop::Failed),
                Err(ApplyFault::NoMemory { swept }) => {
                    refused = Some((swept, self.seen(page)?));
                    for shard in 0..swept {
                        self.more[shard as usize] += 1;
                    }
                }
                Ok(came) => {
                    let after = self.seen(page)?;
                    if let Some((swept, between)) = &refused {
                        let is_right = is_between(&before, between, &after, *swept);
                        page.note(name_of(step, *swept), is_right)?;
                    }
                    tell_came(page, &came)?;
                    return Self::show(page, &after);
                }
            }
        }
        Err(Stop::NoMemory)
    }

    /// The service, and the pass of a port.
    pub(crate) fn lend(
        &mut self,
        port: Port,
    ) -> (&Service<L0, L1, L2, L3, Open>, &mut Pass<L0, L1, L2, L3>) {
        match port {
            Port::Auth => (&self.service, &mut self.auth),
            Port::Acct => (&self.service, &mut self.acct),
        }
    }

    /// What a step comes to.
    fn give<R: Print + Wait>(&mut self, page: &Page<R>, step: &Step) -> Result<Came, ApplyFault> {
        let (rt, alloc) = (page.rt(), page.alloc);
        match step {
            Step::Datagram {
                moment,
                port,
                source,
                octets,
            } => {
                let (service, pass) = self.lend(*port);
                match service.prepare(alloc, *port, *source, octets.as_slice()) {
                    Ok(prepared) => Ok(Came::Answered(service.apply(
                        rt, alloc, pass, *moment, prepared,
                    )?)),
                    Err(Dropped::NoMemory) => Err(ApplyFault::NoMemory { swept: 0 }),
                    Err(dropped) => Ok(Came::Dropped(dropped)),
                }
            }
            Step::Sweep { moment, .. } | Step::Tick { moment, .. } => {
                let (service, pass) = self.lend(Port::Acct);
                service.expire(rt, alloc, pass, *moment)?;
                Ok(Came::Ticked)
            }
        }
    }

    /// Cuts each shard.
    pub(crate) fn cut_each<R: Print + Wait>(&mut self, page: &mut Page<R>) -> Result<(), Stop> {
        let before = self.seen(page)?;
        for shard in 0..self.service.config().shards() {
            cut(page, &self.service, &mut self.segments, shard)?;
        }
        let after = self.seen(page)?;
        page.check("cut", after == before)
    }

    /// Settles the record, of which the last segments stand for the journals, where they were cut too:
    /// then closes the service, and tells how long the journal of each shard is, and its audit.
    pub(crate) fn end<R: Print + Wait>(
        mut self,
        page: &mut Page<R>,
        config: &Config,
    ) -> Result<(), Stop> {
        let alloc = page.alloc;
        let given = self.segments.len();
        self.cut_each(page)?;
        let Served {
            service,
            auth,
            acct,
            segments,
            more,
        } = self;
        let passes = vec![in alloc; auth, acct]?;
        let (given, present) = segments.split_at(given);
        match settle(alloc, config, 2, &passes, given, present) {
            Err(CloseFault::NoMemory) => return Err(Stop::NoMemory),
            settled => writeln!(page.text, "settled: {settled:?}")?,
        }
        match service.close(alloc, passes, segments) {
            Ok(closed) => tell_journals(page, config, closed.segments(), &more),
            Err(CloseFault::NoMemory) => Err(Stop::NoMemory),
            Err(fault) => Ok(writeln!(page.text, "closed: {fault:?}")?),
        }
    }
}

/// A new pass. One that is refused is not counted by the service.
fn opened<L0: Tally, L1: Tally, L2: Tally, L3: Tally, R: Print + Wait>(
    page: &mut Page<R>,
    service: &Service<L0, L1, L2, L3, Open>,
) -> Result<Pass<L0, L1, L2, L3>, Stop> {
    for _ in 0..TRIES {
        match service.open_pass(page.rt(), page.alloc) {
            Err(PassFault::NoMemory) => page.note("open_pass", true)?,
            Err(PassFault::TooMany) => return Err(Stop::Failed),
            Ok(pass) => return Ok(pass),
        }
    }
    Err(Stop::NoMemory)
}

/// How many receipts are of a shard.
fn lines_in(receipts: &[Receipt], shard: u32) -> usize {
    receipts
        .iter()
        .filter(|receipt| receipt.shard == shard)
        .count()
}

/// What a call is named that was refused after `swept` shards.
fn name_of(step: &Step, swept: u32) -> &'static str {
    match (step, swept) {
        (Step::Datagram { .. }, 0) => "datagram",
        (Step::Datagram { .. }, _) => "second sweep",
        (_, 0) => "tick",
        _ => "second tick",
    }
}

/// Tells what a step came to.
fn tell_came<R: Print>(page: &mut Page<R>, came: &Came) -> Result<(), Stop> {
    match came {
        Came::Answered(answered) => {
            let octets = Hex(answered.octets.as_slice());
            write!(page.text, "{:?} {octets}", answered.said)?;
        }
        Came::Ticked => write!(page.text, "ticked")?,
        Came::Dropped(dropped) => write!(page.text, "drop {dropped}")?,
    }
    Ok(())
}

/// Whether after a refusal the shards that were swept are as after the call, with a line more, and the
/// others as before it.
pub(crate) fn is_between(before: &Seen, between: &Seen, after: &Seen, swept: u32) -> bool {
    is_mixed(
        &before.rows,
        &between.rows,
        &after.rows,
        swept,
        before.lines.len(),
    ) && before.lines.iter().zip(&between.lines).enumerate().all(|(shard, (old, new))| *new
        == *old + i64::from((shard as u32) < swept))
}

/// Whether the accounts of the shards that were swept are as after a call, and the others as before it.
pub(crate) fn is_mixed(
    before: &[Row],
    between: &[Row],
    after: &[Row],
    swept: u32,
    shards: usize,
) -> bool {
    let both = before.iter().zip(after).zip(between);
    both.enumerate().all(|(account, ((old, new), row))| {
        let is_swept = ((account % shards) as u32) < swept;
        row == if is_swept { new } else { old }
    })
}

/// Cuts a shard, and puts the segment after the others.
pub(crate) fn cut<L0: Tally, L1: Tally, L2: Tally, L3: Tally, R: Print + Wait>(
    page: &mut Page<R>,
    service: &Service<L0, L1, L2, L3, Open>,
    segments: &mut Vec<Segment>,
    shard: u32,
) -> Result<(), Stop> {
    for _ in 0..TRIES {
        match service.cut(page.rt(), page.alloc, shard) {
            Err(CutFault::NoMemory) => page.note("cut", true)?,
            Err(CutFault::NoShard) => return Err(Stop::Failed),
            Ok(segment) => return Ok(segments.push(segment)?),
        }
    }
    Err(Stop::NoMemory)
}

/// Tells of each shard how many segments its journal has and where it ends, and its audit.
fn tell_journals<R: Print>(
    page: &mut Page<R>,
    config: &Config,
    segments: &[Segment],
    more: &[i64; MAX_SHARDS],
) -> Result<(), Stop> {
    let mut rest = segments;
    for shard in 0..config.shards() {
        let count = rest.iter().filter(|segment| segment.shard == shard).count();
        let (mine, others) = rest.split_at(count);
        let lines: usize = mine.iter().map(|segment| segment.lines.len()).sum();
        let lines = lines as i64 - more[shard as usize];
        match audit(page.alloc, config, mine) {
            Err(AuditFault::NoMemory) => return Err(Stop::NoMemory),
            audited => writeln!(
                page.text,
                "shard {shard}: {count} segments, {lines} lines, audit {audited:?}"
            )?,
        }
        rest = others;
    }
    Ok(())
}
