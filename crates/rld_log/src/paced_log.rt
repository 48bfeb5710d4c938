ghost use Rattle.std.specs.Prelude.{◌≡◌, ◌↔◌, ℕ, List, Some, IsTrue, OnErr, OnOk};
ghost use Rattle.rld_log.specs.Log.{NoMore, Only};
ghost use Rattle.rld_log.specs.declared.log.Ending.{Ending as OneEnding};
ghost use Rattle.rld_log.specs.Pacing.{KillLeaves, NeedsDisk, TearsOrShortens, reckoned};
ghost use Rattle.rld_log.specs.declared.paced_log.End.TheVariants.{Settled as settled, Unsettled as unsettled};

use crate::fault::LogFault;
use crate::log::{Crash, Ending, Log};
use crate::pace::{Pace, Pacing};
use crate::ticks::Ticks;
use std::alloc::Global;

/// What a kill would leave of a log.
#[derive(Clone, Copy, PartialEq, Eq)]
pub(crate) enum End {
    /// What a read returns, and nothing else.
    Settled,
    /// Perhaps something else: it is new, it was cut, or an append failed.
    Unsettled,
    /// A sync failed: every further call fails.
    Lost,
}

/// A log whose syncs reach the disk as its pace says.
///
/// With `Pace::Always` it is the log underneath. With any other pace a sync does nothing if a kill
/// leaves just what a read returns and the pace asks for no more; so each clause of `Log` on a
/// crash is on a kill, even if it names a loss of power.
///
/// After a sync that failed every call fails with `Unsynced`.
#[derive(Drop)]
pub struct PacedLog<'a, L: Log> {
    pub(crate) log: L,
    pub(crate) pace: Pace,
    ticks: &'a Ticks,
    /// How many ticks had begun at its last sync to the disk while it was settled.
    pub(crate) synced: Option<u64>,
    pub(crate) end: End,
    ghost settles: { end ≡ settled → IsTrue (L.tells log) → KillLeaves (L.seen log) (L.may_leave log) },
}

/// Whether a sync has to reach the disk.
fn needs_disk(pace: Pace, end: End, synced: Option<u64>, begun: u64) -> bool
    ensures { IsTrue result ↔ NeedsDisk pace end synced begun }
{
    match pace {
        Pace::Always => true,
        Pace::Second => end != End::Settled || synced != Some(begun),
        Pace::Never => end != End::Settled,
    }
}

/// The ending that a crash counts as.
fn reckoned_ending(pace: Pace, ending: Ending) -> Ending
    ensures { result ≡ reckoned pace ending }
{
    match pace {
        Pace::Always => ending,
        Pace::Second | Pace::Never => Ending::Kill,
    }
}

impl<'a, L: Log> PacedLog<'a, L> {
    /// A log with a pace. Its first sync reaches the disk.
    pub fn new(log: L, pacing: Pacing<'a>) -> PacedLog<'a, L>
        ensures log { result.log ≡ log }
        ensures pace { result.pace ≡ pacing.entry.pace }
        ensures end { result.end ≡ unsettled }
    {
        PacedLog {
            log,
            pace: pacing.pace,
            ticks: pacing.ticks,
            synced: None,
            end: End::Unsettled,
        }
    }

    /// The log underneath.
    pub fn into_log(self) -> L
        ensures { result ≡ self.entry.log }
    {
        let PacedLog { log, .. } = self;
        log
    }

    /// Syncs the log to the disk after `begun` ticks have begun, so that a loss of power, too,
    /// leaves what a read returns. The sync of an unsettled log does not count, as it may hold less
    /// than what was answered: the header of a new generation alone.
    fn sync_disk(&mut self, begun: u64) -> Result<(), LogFault>
        ensures told { IsTrue (L.tells self.new.log) → IsTrue (L.tells self.old.log) }
        ensures pace { self.new.pace ≡ self.old.pace }
        ensures same { IsTrue (L.tells self.new.log) → L.seen self.new.log ≡ L.seen self.old.log }
        ensures crash { IsTrue (L.tells self.new.log) → OnErr result
            (NoMore (L.may_leave self.old.log) (L.may_leave self.new.log)) }
        ensures durable { IsTrue (L.tells self.new.log) → OnOk result
            (Only (L.seen self.old.log) (L.may_leave self.new.log)) }
        ensures counted { self.old.end ≡ settled → OnOk result (self.new.synced ≡ Some begun) }
        ensures uncounted { self.old.end ≡ unsettled → self.new.synced ≡ self.old.synced }
    {
        if self.end == End::Lost {
            return Err(LogFault::Unsynced);
        }
        if let Err(fault) = self.log.sync() {
            self.end = End::Lost;
            return Err(fault);
        }
        if self.end == End::Settled {
            self.synced = Some(begun);
        }
        self.end = End::Settled;
        Ok(())
    }

    /// Syncs the log to the disk if it has to.
    fn sync_at(&mut self, begun: u64) -> Result<(), LogFault>
        ensures told { IsTrue (L.tells self.new.log) → IsTrue (L.tells self.old.log) }
        ensures pace { self.new.pace ≡ self.old.pace }
        ensures same { IsTrue (L.tells self.new.log) → L.seen self.new.log ≡ L.seen self.old.log }
        ensures crash { IsTrue (L.tells self.new.log) → OnErr result
            (NoMore (L.may_leave self.old.log) (L.may_leave self.new.log)) }
        ensures durable { IsTrue (L.tells self.new.log) → OnOk result
            ((ending : OneEnding) (left : List ℕ) →
            L.may_leave self.new.log (reckoned self.old.pace ending) left → left ≡ L.seen self.old.log) }
        ensures reached { IsTrue (L.tells self.new.log) →
            NeedsDisk self.old.pace self.old.end self.old.synced begun → OnOk result
            (Only (L.seen self.old.log) (L.may_leave self.new.log)) }
    {
        if needs_disk(self.pace, self.end, self.synced, begun) {
            return self.sync_disk(begun);
        }
        Ok(())
    }
}

impl<L: Log> Log for PacedLog<'_, L> {
    ghost tells = { λ paced. L.tells paced.log };

    ghost seen = { λ paced. L.seen paced.log };

    ghost may_leave = { λ paced ending. L.may_leave paced.log (reckoned paced.pace ending) };

    ghost tears = { TearsOrShortens L.tears };

    fn read(&mut self, alloc: Global) -> Result<Vec<u8>, LogFault> {
        if self.end == End::Lost {
            return Err(LogFault::Unsynced);
        }
        self.log.read(alloc)
    }

    fn append(&mut self, octets: &[u8]) -> Result<(), LogFault> {
        if self.end == End::Lost {
            return Err(LogFault::Unsynced);
        }
        if let Err(fault) = self.log.append(octets) {
            self.end = End::Unsettled;
            self.ticks.note(fault);
            return Err(fault);
        }
        Ok(())
    }

    fn cut(&mut self, len: usize) -> Result<(), LogFault> {
        if self.end == End::Lost {
            return Err(LogFault::Unsynced);
        }
        self.end = End::Unsettled;
        self.log.cut(len)
    }

    fn sync(&mut self) -> Result<(), LogFault> {
        let begun = self.ticks.begun();
        self.sync_at(begun)
    }
}

impl<'a, L: Crash> Crash for PacedLog<'a, L> {
    /// A crash that counts as a kill is one.
    fn restart(&mut self, ending: Ending) {
        self.end = End::Unsettled;
        self.synced = None;
        self.log.restart(reckoned_ending(self.pace, ending));
    }

    /// The new log has the pace of this one.
    fn next_log(&self, alloc: Global) -> Result<PacedLog<'a, L>, LogFault> {
        let pacing = Pacing {
            pace: self.pace,
            ticks: self.ticks,
        };
        Ok(PacedLog::new(self.log.next_log(alloc)?, pacing))
    }
}
