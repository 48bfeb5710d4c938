ghost use Rattle.std.specs.Prelude.{◌≡◌, List};
ghost use Rattle.rsl_record.specs.declared.receipt.Receipt.{Receipt as OneReceipt};

use rsl_shard::Line;

/// What a caller keeps of a move that it made: its line in a shard's journal.
#[derive(Drop)]
pub struct Receipt {
    /// The shard's number.
    pub shard: u32,
    /// The line's position, counted from 0 over all segments of the shard.
    pub position: u64,
    /// The line: the move, and its decision.
    pub line: Line,
}

/// A pass: a caller's receipts, one for each move that it made, in the order of its calls.
///
/// What a pass keeps beside them does not matter for settling. The receipts are borrowed, so
/// nothing is copied.
pub trait HasReceipts {
    ghost receipts: { Self → List OneReceipt };

    /// The receipts, in the order in which the moves were made.
    fn receipts(&self) -> &[Receipt]
        ensures { result.now ≡ Self.receipts self.now };
}
