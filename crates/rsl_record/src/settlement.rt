ghost use Rattle.std.specs.Prelude.{◌≡◌, ◌≢◌, ◌++◌, ◌↔◌, IfErr, IsTrue, OnOk, length, map};
ghost use Rattle.rsl_record.specs.Settled.{IsCloseFault, IsSettled};

use crate::close_fault::CloseFault;
use crate::receipt::HasReceipts;
use crate::receipts::check_receipts;
use crate::record::Record;
use crate::segments::check_segments;
use rsl_accounts::Config;
use rsl_shard::Segment;
use std::alloc::Global;

/// Checks whether a record is settled: every opened pass is given, the segments of each shard join
/// from its new books to its present journal, and the receipts are lines of them, each its own.
///
/// `opened` is the number of opened passes. `given` are the segments that were handed out, those of
/// a shard in order, and `present` the shards' present journals, one for each shard.
///
/// The answer is the first fault. `MissingPass` comes if more or fewer passes are given than were
/// opened. `MissingSegment` names the lowest shard whose segments do not join, by the lines and the
/// books that they begin with, or have a move that the shard does not take; or a number that is not
/// that of a shard. `Mismatch` names a receipt that is not the line at its position, that is not
/// above the one before it of its pass and shard, or whose position another receipt has too.
/// `NoMemory` comes if memory is refused, and says nothing of the record.
///
/// The time grows with the lines and with the receipts, whose positions are sorted once for each
/// shard; the memory with a word for each line and receipt of one shard.
#[tactic(auto, using(crate::proofs::Telling::record_told))]
pub fn settle<P: HasReceipts>(
    alloc: Global,
    config: &Config,
    opened: u64,
    passes: &[P],
    given: &[Segment],
    present: &[Segment],
) -> Result<(), CloseFault>
    ensures settled { OnOk result (IsSettled config.now opened
        (map P.receipts passes.now) (given.now ++ present.now)) }
    ensures fault { IfErr result (IsCloseFault config.now opened
        (map P.receipts passes.now) (given.now ++ present.now)) }
    ensures missing { IfErr result (λ fault.
        length passes.now ≢ opened → fault ≡ CloseFault.MissingPass) }
    ensures exact { IfErr result (λ fault. fault ≢ CloseFault.NoMemory →
        IsSettled config.now opened (map P.receipts passes.now) (given.now ++ present.now) → ⊥) }
{
    if !are_all(passes.len(), opened) {
        return Err(CloseFault::MissingPass);
    }
    let journals = Record { given, present };
    check_segments(alloc, config, &journals)?;
    check_receipts(alloc, config.shards(), passes, &journals)
}

/// Whether every opened pass is given.
fn are_all(passes: usize, opened: u64) -> bool
    ensures { IsTrue result ↔ (passes ≡ opened) }
{
    passes as u64 == opened
}
