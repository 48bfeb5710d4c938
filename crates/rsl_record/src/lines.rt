ghost use Rattle.std.specs.Prelude.{◌≡◌, ◌↔◌, All, IfSome, IfNone, IsTrue};
ghost use Rattle.std.specs.Prelude.{Some, map, slice_get};
ghost use Rattle.rsl_record.specs.Faults.{IsAmong, IsMismatchIn};
ghost use Rattle.rsl_record.specs.declared.receipt.Receipt.{Receipt as OneReceipt};

use crate::receipt::Receipt;
use crate::same::same_line;
use rsl_shard::Line;

/// Whether a receipt is the line at its position.
fn is_line(lines: &[&Line], receipt: &Receipt) -> bool
    ensures { IsTrue result ↔
        (slice_get (map (λ line. line.now) lines.now) receipt.now.position
        ≡ Some receipt.now.line) }
{
    match lines.get(receipt.position as usize) {
        Some(line) => same_line(line, &receipt.line),
        None => false,
    }
}

/// The position of a receipt of the shard that is not the line there.
pub(crate) fn first_mismatch(shard: u32, lines: &[&Line], receipts: &[Receipt]) -> Option<u64>
    ensures mismatch { IfSome result (λ position. (receipt : OneReceipt)
        × IsMismatchIn (map (λ line. line.now) lines.now) shard receipts.now position receipt) }
    ensures among { IfNone result
        (All (IsAmong (map (λ line. line.now) lines.now) shard) receipts.now) }
{
    for receipt in receipts {
        if receipt.shard == shard && !is_line(lines, receipt) {
            return Some(receipt.position);
        }
    }
    None
}
