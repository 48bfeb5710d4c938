ghost use Rattle.std.specs.Prelude.{◌≡◌, ◌==◌, ◌<◌, ◌≤◌, ◌++◌, ℕ, IfSome, IfNone, OnOk};
ghost use Rattle.std.specs.List.{count_by};
ghost use Rattle.std.specs.List.Sorted.{IsStrictlyIncreasing};
ghost use Rattle.rsl_record.specs.Receipts.{FallsTo, positions_of};

use crate::receipt::Receipt;
use rsl_wire::NoMemory;

/// Pushes the positions of the receipts of a shard, in their order.
pub(crate) fn push_positions(
    shard: u32,
    receipts: &[Receipt],
    positions: &mut Vec<u64>,
) -> Result<(), NoMemory>
    ensures { OnOk result
        (positions.new.items ≡ positions.old.items ++ positions_of shard receipts.now) }
{
    for receipt in receipts {
        if receipt.shard == shard {
            positions.push(receipt.position)?;
        }
    }
    Ok(())
}

/// The first position that is not above the one before it.
pub(crate) fn first_not_rising(positions: &[u64]) -> Option<u64>
    ensures falls { IfSome result (FallsTo positions.now) }
    ensures rises { IfNone result (IsStrictlyIncreasing positions.now) }
{
    for at in 1..positions.len() {
        if positions[at] <= positions[at - 1] {
            return Some(positions[at]);
        }
    }
    None
}

/// A position that occurs more than once, if there is one.
#[tactic(auto, using(crate::proofs::Counting::order_steps))]
pub(crate) fn first_duplicate(mut positions: Vec<u64>) -> Option<u64>
    ensures twice { IfSome result (λ position.
        1 < count_by (λ (other : ℕ). other == position) positions.items) }
    ensures once { IfNone result ((position : ℕ) →
        count_by (λ (other : ℕ). other == position) positions.items ≤ 1) }
{
    positions.sort_unstable();
    first_not_rising(positions.as_slice())
}
