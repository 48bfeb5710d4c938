ghost use Rattle.std.specs.Prelude.{◌≡◌, ◌++◌, ◌<◌, ◌≤◌, ℕ, [], All, IfErr, OnOk, map};
ghost use Rattle.std.specs.List.{flat_map};
ghost use Rattle.std.specs.List.Sorted.{IsStrictlyIncreasing};
ghost use Rattle.rsl_record.specs.Faults.{
  IsAmong,
  IsFaultOfPass,
  IsFaultOfPasses,
  IsFaultOfReceipts,
  IsNumberFaultOfPass,
  IsNumberFaultOfPasses,
};
ghost use Rattle.rsl_record.specs.Receipts.{IsItsLine, positions_of, times};
ghost use Rattle.rsl_record.specs.Records.{segments_of};
ghost use Rattle.rsl_record.specs.Segments.{shard_lines as all_lines, of_shard};

use crate::close_fault::CloseFault;
use crate::lines::first_mismatch;
use crate::positions::{first_duplicate, first_not_rising, push_positions};
use crate::receipt::{HasReceipts, Receipt};
use crate::record::Record;
use rsl_shard::Line;
use std::alloc::Global;

/// Checks that each receipt is the line at its position, and above the one before it of the same
/// pass and shard, and that no two of them share a position.
#[tactic(auto, using(crate::proofs::Telling::shards_told))]
pub(crate) fn check_receipts<P: HasReceipts>(
    alloc: Global,
    shards: u32,
    passes: &[P],
    journals: &Record<'_>,
) -> Result<(), CloseFault>
    requires { (shard : ℕ) → shards ≤ shard → of_shard shard (segments_of journals.now) ≡ [] }
    ensures lines { OnOk result
        (All (All (IsItsLine (segments_of journals.now))) (map P.receipts passes.now)) }
    ensures rising { OnOk result ((shard : ℕ) →
        All (λ pass. IsStrictlyIncreasing (positions_of shard pass))
        (map P.receipts passes.now)) }
    ensures once { OnOk result ((shard position : ℕ) →
        times shard position (map P.receipts passes.now) ≤ 1) }
    ensures err { IfErr result
        (IsFaultOfReceipts (segments_of journals.now) (map P.receipts passes.now)) }
{
    check_numbers(shards, passes)?;
    for shard in 0..shards {
        check_shard(alloc, shard, passes, journals)?;
    }
    Ok(())
}

/// Checks that each receipt is of an existing shard.
fn check_numbers<P: HasReceipts>(shards: u32, passes: &[P]) -> Result<(), CloseFault>
    ensures numbers { OnOk result
        (All (All (λ receipt. receipt.shard < shards)) (map P.receipts passes.now)) }
    ensures err { IfErr result (IsNumberFaultOfPasses shards (map P.receipts passes.now)) }
{
    for pass in passes {
        check_numbers_of(shards, pass.receipts())?;
    }
    Ok(())
}

/// Checks that each receipt of a pass is of an existing shard.
fn check_numbers_of(shards: u32, receipts: &[Receipt]) -> Result<(), CloseFault>
    ensures numbers { OnOk result (All (λ receipt. receipt.shard < shards) receipts.now) }
    ensures err { IfErr result (IsNumberFaultOfPass shards receipts.now) }
{
    for receipt in receipts {
        if receipt.shard >= shards {
            return Err(CloseFault::Mismatch {
                shard: receipt.shard,
                position: receipt.position,
            });
        }
    }
    Ok(())
}

/// Checks that the receipts of a shard are its lines, in each pass's order, and each once.
#[tactic(auto, using(crate::proofs::Telling::shard_told))]
fn check_shard<P: HasReceipts>(
    alloc: Global,
    shard: u32,
    passes: &[P],
    journals: &Record<'_>,
) -> Result<(), CloseFault>
    ensures lines { OnOk result
        (All (All (IsAmong (all_lines shard (segments_of journals.now)) shard))
        (map P.receipts passes.now)) }
    ensures rising { OnOk result
        (All (λ pass. IsStrictlyIncreasing (positions_of shard pass))
        (map P.receipts passes.now)) }
    ensures once { OnOk result ((position : ℕ) →
        times shard position (map P.receipts passes.now) ≤ 1) }
    ensures err { IfErr result
        (IsFaultOfReceipts (segments_of journals.now) (map P.receipts passes.now)) }
{
    let lines = journals.lines_of_shard(alloc, shard)?;
    let mut positions = Vec::new(alloc);
    check_passes(shard, lines.as_slice(), passes, &mut positions)?;
    match first_duplicate(positions) {
        Some(position) => Err(CloseFault::Mismatch { shard, position }),
        None => Ok(()),
    }
}

/// Checks that each pass's receipts of a shard are its lines, in order, and pushes their positions.
#[tactic(auto, using(crate::proofs::Telling::passes_steps))]
fn check_passes<P: HasReceipts>(
    shard: u32,
    lines: &[&Line],
    passes: &[P],
    positions: &mut Vec<u64>,
) -> Result<(), CloseFault>
    ensures lines { OnOk result
        (All (All (IsAmong (map (λ line. line.now) lines.now) shard))
        (map P.receipts passes.now)) }
    ensures rising { OnOk result
        (All (λ pass. IsStrictlyIncreasing (positions_of shard pass))
        (map P.receipts passes.now)) }
    ensures positions { OnOk result (positions.new.items ≡ positions.old.items
        ++ flat_map (positions_of shard) (map P.receipts passes.now)) }
    ensures err { IfErr result (IsFaultOfPasses (map (λ line. line.now) lines.now) shard
        (map P.receipts passes.now)) }
{
    for pass in passes {
        check_pass(shard, lines, pass.receipts(), positions)?;
    }
    Ok(())
}

/// Checks that a pass's receipts of a shard are its lines, in order, and pushes their positions.
#[tactic(auto, using(crate::proofs::Telling::pass_steps))]
fn check_pass(
    shard: u32,
    lines: &[&Line],
    receipts: &[Receipt],
    positions: &mut Vec<u64>,
) -> Result<(), CloseFault>
    ensures lines { OnOk result
        (All (IsAmong (map (λ line. line.now) lines.now) shard) receipts.now) }
    ensures rising { OnOk result (IsStrictlyIncreasing (positions_of shard receipts.now)) }
    ensures positions { OnOk result
        (positions.new.items ≡ positions.old.items ++ positions_of shard receipts.now) }
    ensures err { IfErr result
        (IsFaultOfPass (map (λ line. line.now) lines.now) shard receipts.now) }
{
    if let Some(position) = first_mismatch(shard, lines, receipts) {
        return Err(CloseFault::Mismatch { shard, position });
    }
    let from = positions.len();
    push_positions(shard, receipts, positions)?;
    match first_not_rising(&positions[from..]) {
        Some(position) => Err(CloseFault::Mismatch { shard, position }),
        None => Ok(()),
    }
}
