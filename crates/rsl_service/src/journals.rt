//! The journals of a service: one that is handed out while the service goes on, and all of them
//! when it is closed.

ghost use Rattle.std.specs.Prelude.{
  ◌≡◌,
  ◌<◌,
  ◌≤◌,
  ◌++◌,
  ℕ,
  IfErr,
  IfOk,
  IfSome,
  OnOk,
  Some,
  is_some,
  length,
  map,
  nat_lt,
};
ghost use Rattle.std.specs.List.{sum_by};
ghost use Rattle.std.specs.List.Sorted.{IsNonDecreasingBy};
ghost use Rattle.rsl_accounts.specs.Limits.{IsConfiguration};
ghost use Rattle.rsl_record.specs.Segments.{of_shard};
ghost use Rattle.rsl_shard.specs.Journal.{IsJournal};
ghost use Rattle.rsl_shard.specs.Opening.{as_new};
ghost use Rattle.rsl_shard.specs.Restep.{new_books};
ghost use Rattle.rsl_shard.specs.Setup.{setup_of};
ghost use Rattle.rsl_service.specs.Closed.{
  HaveEnds,
  IsClosed,
  IsClosedBy,
  IsEnd,
  IsEndOf,
  IsFaultOf,
  IsUnsettled,
  as_list,
  end_of,
  lines_to,
};
ghost use Rattle.rsl_service.specs.Receipts.{receipts_of};
ghost use Rattle.rsl_service.specs.declared.fault.CutFault.TheVariants as faults;

use crate::desk::Desk;
use crate::fault::CutFault;
use crate::ledger::{Ledgers, Shares, Tally};
use crate::pass::{Pass, PassBook};
use crate::service::{Desks, Gate, Service};
use rsl_accounts::Config;
use rsl_record::{CloseFault, settle};
use rsl_shard::{CutRoom, Segment};
use rsl_wire::NoMemory;
use std::alloc::Global;
use std::marker::Model;
use std::sync::ledger::Book as LineLedger;
use std::sync::{Mutex, Wait};

/// Lines for which a cut makes room beyond those there are, since others may come before its lock.
const LATER_LINES: usize = 1024;

impl<L0: Tally, L1: Tally, L2: Tally, L3: Tally, G: Gate> Service<L0, L1, L2, L3, G> {
    /// Hands out the journal of a shard, which goes on from equal books. `NoShard` comes if the
    /// configuration has no shard of this number, and `NoMemory` if memory is refused; then the
    /// journal is as it was.
    pub fn cut<R: Wait>(&self, rt: &R, alloc: Global, shard: u32) -> Result<Segment, CutFault>
        ensures shard { IfOk result (λ segment. segment.shard ≡ shard) }
        ensures journal { IfOk result (λ segment.
            IsJournal (setup_of self.now.config shard) segment.opening.items segment.lines.items) }
        ensures opening { IfOk result (λ segment.
            map as_new segment.opening.items ≡ new_books self.now.config shard) }
        ensures known { IfOk result (λ _. shard < self.now.config.settings.shards) }
        ensures missing { IfErr result (λ fault.
            fault ≡ faults.NoShard → self.now.config.settings.shards ≤ shard) }
        ensures there { IfErr result (λ fault.
            fault ≡ faults.NoMemory → shard < self.now.config.settings.shards) }
    {
        self.desks.cut(rt, alloc, shard)
    }
}

impl<L0: Tally, L1: Tally, L2: Tally, L3: Tally> Desks<L0, L1, L2, L3> {
    /// Hands out the journal of a shard.
    fn cut<R: Wait>(&self, rt: &R, alloc: Global, shard: u32) -> Result<Segment, CutFault>
        ensures shard { IfOk result (λ segment. segment.shard ≡ shard) }
        ensures journal { IfOk result (λ segment.
            IsJournal (setup_of self.now shard) segment.opening.items segment.lines.items) }
        ensures opening { IfOk result (λ segment.
            map as_new segment.opening.items ≡ new_books self.now shard) }
        ensures known { IfOk result (λ _. shard < self.now.settings.shards) }
        ensures missing { IfErr result (λ fault.
            fault ≡ faults.NoShard → self.now.settings.shards ≤ shard) }
        ensures there { IfErr result (λ fault.
            fault ≡ faults.NoMemory → shard < self.now.settings.shards) }
    {
        match shard {
            0 => cut_under_lock(rt, alloc, &self.desk0),
            1 => match &self.desk1 {
                Some(desk) => cut_under_lock(rt, alloc, desk),
                None => Err(CutFault::NoShard),
            },
            2 => match &self.desk2 {
                Some(desk) => cut_under_lock(rt, alloc, desk),
                None => Err(CutFault::NoShard),
            },
            3 => match &self.desk3 {
                Some(desk) => cut_under_lock(rt, alloc, desk),
                None => Err(CutFault::NoShard),
            },
            _ => Err(CutFault::NoShard),
        }
    }
}

/// Hands out the journal of a shard under its lock. Room for its lines is allocated before the
/// lock, and they are joined after it.
fn cut_under_lock<L: Tally, R: Wait>(
    rt: &R,
    alloc: Global,
    desk: &Mutex<Desk<L>>,
) -> Result<Segment, CutFault>
    ensures shard { IfOk result (λ segment. segment.shard ≡ L.setup.shard) }
    ensures journal { IfOk result (λ segment.
        IsJournal L.setup segment.opening.items segment.lines.items) }
    ensures opening { IfOk result (λ segment. map as_new segment.opening.items ≡ L.books) }
    ensures err { IfErr result (λ fault. fault ≡ faults.NoMemory) }
{
    let lines = desk.lock(rt).moves();
    let room = CutRoom::new(alloc, lines.saturating_add(LATER_LINES))?;
    let loose = desk.lock(rt).cut(alloc, room)?;
    Ok(loose.join())
}

/// A service that was closed. Only `Service::close` makes one.
///
/// A contract sees the configuration, the boot number, how many passes were opened, and the
/// segments.
#[derive(Drop)]
pub struct Closed {
    config: Config,
    boot: u64,
    opened: u64,
    segments: Vec<Segment>,
}

impl Model for Closed {
    ghost use Rattle.rsl_service.specs.Closed.{ClosedSeen};

    ghost Value = { ClosedSeen };

    ghost view = { λ closed. record {
      config = closed.config;
      boot = closed.boot;
      opened = closed.opened;
      segments = closed.segments.items;
    } };
}

impl Closed {
    /// The segments of all shards, by shard, those of a shard in order. The last of a shard is its
    /// journal when the service was closed.
    pub fn segments(&self) -> &[Segment]
        ensures { result.now ≡ self.now.segments }
    {
        self.segments.as_slice()
    }
}

impl<L0: Tally, L1: Tally, L2: Tally, L3: Tally, G: Gate + Drop> Service<L0, L1, L2, L3, G> {
    /// Ends the service, and settles its record: whether its journals, those handed out and those
    /// of its shards, hold the moves of all passes, each once, and no others.
    ///
    /// The passes are all that were opened, and the segments those that `cut` handed out, those of
    /// a shard in order.
    ///
    /// The answer is the first fault. `MissingPass` comes if more or fewer passes are given than
    /// were opened. `MissingSegment` names the lowest shard whose segments, with its journal last,
    /// do not join from its new books or have a move that it does not take, or a number that is not
    /// that of a shard. `Mismatch` names the position of a receipt that is not the line there, or
    /// not the only receipt of it, or that comes in its pass after one of the same or a later
    /// position of its shard. `NoMemory` comes if memory is refused, which may be before any of
    /// these. On a fault all arguments are dropped.
    pub fn close(
        self,
        alloc: Global,
        passes: Vec<Pass<L0, L1, L2, L3>>,
        segments: Vec<Segment>,
    ) -> Result<Closed, CloseFault>
        ensures config { IfOk result (λ closed. closed.config ≡ self.config) }
        ensures boot { IfOk result (λ closed. closed.boot ≡ self.boot) }
        ensures opened { IfOk result (λ closed. closed.opened ≡ length passes.items) }
        ensures closed { IfOk result (λ closed.
            IsClosed self.config (receipts_of passes.items) segments.items closed.segments) }
        ensures err { IfErr result (IsUnsettled self.config (receipts_of passes.items) segments.items) }
    {
        let boot = self.boot;
        let ended = self.end(alloc)?;
        ended.close(alloc, boot, passes, segments)
    }

    /// Takes the shards and the passes' book out of their locks, and ends the journals. It fails
    /// only if memory is refused.
    fn end(self, alloc: Global) -> Result<EndedService<L0, L1, L2, L3>, NoMemory>
        ensures { IfOk result (IsEndOf self.config) }
    {
        let Service {
            desks,
            boot: _,
            gate: _,
            passes,
        } = self;
        let PassBook { opened, shares } = passes.into_inner();
        let (config, ledgers, present) = desks.end(alloc)?;
        Ok(EndedService {
            config,
            opened,
            shares,
            ledgers,
            present,
        })
    }
}

impl<L0: Tally, L1: Tally, L2: Tally, L3: Tally> Desks<L0, L1, L2, L3> {
    /// Takes the shards out of their locks, and ends their journals. It fails only if memory is
    /// refused.
    fn end(self, alloc: Global) -> Result<(Config, Ledgers<L0, L1, L2, L3>, Vec<Segment>), NoMemory>
        ensures config { IfOk result (λ ended. ended.0 ≡ self) }
        ensures limits { IfOk result (λ ended. IsConfiguration ended.0) }
        ensures ends { IfOk result (λ ended. HaveEnds ended.0 ended.2.items) }
        ensures there1 { IfOk result (λ ended.
            is_some ended.1.ledger1 ≡ nat_lt 1 ended.0.settings.shards) }
        ensures there2 { IfOk result (λ ended.
            is_some ended.1.ledger2 ≡ nat_lt 2 ended.0.settings.shards) }
        ensures there3 { IfOk result (λ ended.
            is_some ended.1.ledger3 ≡ nat_lt 3 ended.0.settings.shards) }
        ensures told0 { IfOk result (λ ended. ended.1.ledger0.total ≡ end_of 0 ended.2.items) }
        ensures told1 { IfOk result (λ ended.
            IfSome ended.1.ledger1 (λ ledger. ledger.total ≡ end_of 1 ended.2.items)) }
        ensures told2 { IfOk result (λ ended.
            IfSome ended.1.ledger2 (λ ledger. ledger.total ≡ end_of 2 ended.2.items)) }
        ensures told3 { IfOk result (λ ended.
            IfSome ended.1.ledger3 (λ ledger. ledger.total ≡ end_of 3 ended.2.items)) }
    {
        let Desks {
            config,
            desk0,
            desk1,
            desk2,
            desk3,
        } = self;
        // All four are tested together, which makes fewer exits.
        let first = end(alloc, desk0);
        let second = end_if_there(alloc, desk1);
        let third = end_if_there(alloc, desk2);
        let fourth = end_if_there(alloc, desk3);
        let (
            Ok((journal0, ledger0)),
            Ok((journal1, ledger1)),
            Ok((journal2, ledger2)),
            Ok((journal3, ledger3)),
        ) = (first, second, third, fourth) else {
            return Err(NoMemory);
        };
        let present = list(alloc, journal0, journal1, journal2, journal3)?;
        let ledgers = Ledgers {
            ledger0,
            ledger1,
            ledger2,
            ledger3,
        };
        Ok((config, ledgers, present))
    }
}

/// A service that came out of its locks.
///
/// A contract sees the configuration, how many passes were opened, and the present journals. The
/// type guarantees that the journals are those of all shards, that each ledger's total is the
/// number of lines to the end of its shard's journal, and that the shares are what the opened
/// passes were not given.
#[derive(Drop)]
pub(crate) struct EndedService<L0: Tally, L1: Tally, L2: Tally, L3: Tally> {
    config: Config,
    opened: u64,
    shares: Shares<L0, L1, L2, L3>,
    ledgers: Ledgers<L0, L1, L2, L3>,
    present: Vec<Segment>,
}

impl<L0: Tally, L1: Tally, L2: Tally, L3: Tally> Model for EndedService<L0, L1, L2, L3> {
    ghost use Rattle.std.specs.Prelude.{◌≡◌, ◌+◌, IfSome, is_some, nat_lt};
    ghost use Rattle.rsl_accounts.specs.Limits.{IsConfiguration};
    ghost use Rattle.rsl_service.specs.Closed.{EndedSeen, HaveEnds, end_of};

    ghost Value = { EndedSeen };

    ghost view = { λ ended. record {
      config = ended.config;
      opened = ended.opened;
      present = ended.present.items;
    } };

    ghost invariant = { λ ended.
        HaveEnds ended.config ended.present.items
        × IsConfiguration ended.config
        × (ended.shares.parts + ended.opened ≡ 1025)
        × (ended.shares.amount0 ≡ 0)
        × (ended.shares.amount1 ≡ 0)
        × (ended.shares.amount2 ≡ 0)
        × (ended.shares.amount3 ≡ 0)
        × (is_some ended.ledgers.ledger1 ≡ nat_lt 1 ended.config.settings.shards)
        × (is_some ended.ledgers.ledger2 ≡ nat_lt 2 ended.config.settings.shards)
        × (is_some ended.ledgers.ledger3 ≡ nat_lt 3 ended.config.settings.shards)
        × (ended.ledgers.ledger0.total ≡ end_of 0 ended.present.items)
        × IfSome ended.ledgers.ledger1 (λ ledger. ledger.total ≡ end_of 1 ended.present.items)
        × IfSome ended.ledgers.ledger2 (λ ledger. ledger.total ≡ end_of 2 ended.present.items)
        × IfSome ended.ledgers.ledger3 (λ ledger. ledger.total ≡ end_of 3 ended.present.items) };
}

impl<L0: Tally, L1: Tally, L2: Tally, L3: Tally> EndedService<L0, L1, L2, L3> {
    /// Settles the record, and audits each ledger against the shares of all passes. The boot number
    /// is that of the service.
    fn close(
        self,
        alloc: Global,
        boot: u64,
        passes: Vec<Pass<L0, L1, L2, L3>>,
        segments: Vec<Segment>,
    ) -> Result<Closed, CloseFault>
        ensures config { IfOk result (λ closed. closed.config ≡ self.config) }
        ensures boot { IfOk result (λ closed. closed.boot ≡ boot) }
        ensures opened { IfOk result (λ closed. closed.opened ≡ length passes.items) }
        ensures closed { IfOk result (λ closed.
            IsClosedBy self (receipts_of passes.items) segments.items closed.segments) }
        ensures err { IfErr result (IsFaultOf self (receipts_of passes.items) segments.items) }
    {
        let EndedService {
            config,
            opened,
            mut shares,
            ledgers,
            present,
        } = self;
        settle(
            alloc,
            &config,
            opened,
            passes.as_slice(),
            segments.as_slice(),
            present.as_slice(),
        )?;
        shares.gather(passes);
        ledgers.audit(shares);
        let segments = by_shard(segments, present)?;
        Ok(Closed {
            config,
            boot,
            opened,
            segments,
        })
    }
}

/// Ends the journal of a shard, and hands it out with its ledger.
pub(crate) fn end<L: Tally>(
    alloc: Global,
    desk: Mutex<Desk<L>>,
) -> Result<(Segment, LineLedger<L>), NoMemory>
    ensures end { IfOk result (λ ended. IsEnd L.setup L.books ended.0) }
    ensures told { IfOk result (λ ended. ended.1.total ≡ lines_to ended.0) }
{
    desk.into_inner().end(alloc)
}

/// Ends the journal of a shard, if there is one, and hands it out with its ledger.
pub(crate) fn end_if_there<L: Tally>(
    alloc: Global,
    desk: Option<Mutex<Desk<L>>>,
) -> Result<(Option<Segment>, Option<LineLedger<L>>), NoMemory>
    ensures journal { IfOk result (λ ended. is_some ended.0 ≡ is_some desk) }
    ensures ledger { IfOk result (λ ended. is_some ended.1 ≡ is_some desk) }
    ensures end { IfOk result (λ ended. IfSome ended.0 (IsEnd L.setup L.books)) }
    ensures told { IfOk result (λ ended.
        IfSome ended.1 (λ ledger. ledger.total ≡ sum_by lines_to (as_list ended.0))) }
{
    match desk {
        Some(desk) => {
            let (journal, ledger) = end(alloc, desk)?;
            Ok((Some(journal), Some(ledger)))
        }
        None => Ok((None, None)),
    }
}

/// The journals of shards 0 to 3, in this order.
pub(crate) fn list(
    alloc: Global,
    first: Segment,
    second: Option<Segment>,
    third: Option<Segment>,
    fourth: Option<Segment>,
) -> Result<Vec<Segment>, NoMemory>
    requires first { first.shard ≡ 0 }
    requires second { IfSome second (λ journal. journal.shard ≡ 1) }
    requires third { IfSome third (λ journal. journal.shard ≡ 2) }
    requires fourth { IfSome fourth (λ journal. journal.shard ≡ 3) }
    ensures first { IfOk result (λ all. of_shard 0 all.items ≡ as_list (Some first)) }
    ensures second { IfOk result (λ all. of_shard 1 all.items ≡ as_list second) }
    ensures third { IfOk result (λ all. of_shard 2 all.items ≡ as_list third) }
    ensures fourth { IfOk result (λ all. of_shard 3 all.items ≡ as_list fourth) }
{
    let mut all = Vec::new(alloc);
    all.push(first)?;
    push_if_there(&mut all, second)?;
    push_if_there(&mut all, third)?;
    push_if_there(&mut all, fourth)?;
    Ok(all)
}

/// Pushes a journal, if there is one.
fn push_if_there(all: &mut Vec<Segment>, journal: Option<Segment>) -> Result<(), NoMemory>
    ensures { OnOk result (all.new.items ≡ all.old.items ++ as_list journal) }
{
    if let Some(journal) = journal {
        all.push(journal)?;
    }
    Ok(())
}

/// The given segments of each shard, followed by its present journal, by shard.
fn by_shard(given: Vec<Segment>, mut present: Vec<Segment>) -> Result<Vec<Segment>, NoMemory>
    ensures same { (shard : ℕ) → IfOk result (λ sorted.
        of_shard shard sorted.items ≡ of_shard shard (given.items ++ present.items)) }
    ensures by_shard { IfOk result (λ sorted.
        IsNonDecreasingBy (λ segment. segment.shard) sorted.items) }
{
    let mut segments = given;
    segments.append(&mut present)?;
    segments.sort_by_key(|segment| segment.shard)?;
    Ok(segments)
}
