//! Tests of `settle`.
//!
//! A row has a name, the number of shards, how many passes were opened, and then a record: each
//! `pass` with its receipts, each segment that was `given`, and each `present` journal, with
//! segments as in `records`. A receipt is its shard, its position and its line, with `; ` between
//! receipts. What is expected is the answer as its Debug.

use crate::records::{config_of, line_of, segment_of};
use rsl_accounts::Config;
use rsl_record::{HasReceipts, Receipt, settle};
use rsl_shard::Segment;
use std::alloc::Global;
use std::test::Fail;
use test_rows::{Subject, check_rows, printed};

/// A pass of receipts alone.
#[derive(Drop)]
struct Kept {
    receipts: Vec<Receipt>,
}

impl HasReceipts for Kept {
    ghost receipts = { λ kept. kept.receipts.items };

    fn receipts(&self) -> &[Receipt] {
        self.receipts.as_slice()
    }
}

/// What is settled.
#[derive(Drop)]
struct Record {
    passes: Vec<Kept>,
    given: Vec<Segment>,
    present: Vec<Segment>,
}

/// The receipt of a text.
fn receipt_of<R: AllocGlobal>(rt: &R, text: &str) -> Result<Receipt, Fail> {
    let Some((shard, rest)) = text.trim().split_once(' ') else {
        return Err(Fail::from("a receipt without a shard"));
    };
    let Some((position, line)) = rest.split_once(' ') else {
        return Err(Fail::from("a receipt without a position"));
    };
    let shard = shard.parse()?;
    let position = position.parse()?;
    Ok(Receipt {
        shard,
        position,
        line: line_of(rt, line)?,
    })
}

/// The pass of a text.
fn pass_of<R: AllocGlobal>(rt: &R, text: &str) -> Result<Kept, Fail> {
    let mut receipts = Vec::new(rt.alloc());
    for receipt in text.split(';') {
        if !receipt.trim().is_empty() {
            receipts.push(receipt_of(rt, receipt)?)?;
        }
    }
    Ok(Kept { receipts })
}

impl Record {
    /// Takes a field of a row.
    fn take<R: AllocGlobal>(&mut self, rt: &R, config: &Config, field: &str) -> Result<(), Fail> {
        let (kind, text) = field.split_once(' ').unwrap_or((field, ""));
        match kind {
            "pass" => self.passes.push(pass_of(rt, text)?)?,
            "given" => self.given.push(segment_of(rt, config, text)?)?,
            "present" => self.present.push(segment_of(rt, config, text)?)?,
            _ => return Err(Fail::from("an unknown field")),
        }
        Ok(())
    }
}

/// The record of the fields of a row.
fn record_of<R: AllocGlobal>(rt: &R, config: &Config, fields: &[&str]) -> Result<Record, Fail> {
    let mut record = Record {
        passes: Vec::new(rt.alloc()),
        given: Vec::new(rt.alloc()),
        present: Vec::new(rt.alloc()),
    };
    for field in fields {
        record.take(rt, config, field)?;
    }
    Ok(record)
}

/// Settlings of the records of rows.
#[derive(Clone, Copy)]
struct Settlings<'a, R> {
    rt: &'a R,
}

impl<R: AllocGlobal> Subject for Settlings<'_, R> {
    fn found(&self, alloc: Global, fields: &[&str]) -> Result<String, Fail> {
        let [shards, opened, parts @ ..] = fields else {
            return Err(Fail::from("a row without its numbers"));
        };
        let opened = opened.parse()?;
        let config = config_of(self.rt, shards)?;
        answered(self.rt, alloc, &config, opened, parts)
    }
}

/// What is answered to the record of some fields.
fn answered<R: AllocGlobal>(
    rt: &R,
    alloc: Global,
    config: &Config,
    opened: u64,
    parts: &[&str],
) -> Result<String, Fail> {
    let record = record_of(rt, config, parts)?;
    let passes = record.passes.as_slice();
    let given = record.given.as_slice();
    let present = record.present.as_slice();
    printed(
        alloc,
        &settle(alloc, config, opened, passes, given, present),
    )
}

/// Records that are settled.
const SETTLED: &str = "
nothing was done | 1 | 0 | present 0 0 / / | Ok(())
a pass without a move | 1 | 1 | pass | present 0 0 / / | Ok(())
two passes over two shards | 2 | 2 \
    | pass 0 0 0 ask 0 n 1 -> 0; 0 1 all tick 0 -> Done; 1 1 all tick 0 -> Done \
    | pass 1 0 1 ask 0 n 1 -> 0; 0 2 all sweep 0 n -> Done; 1 2 all sweep 0 n -> Done \
    | present 0 0 / / 0 ask 0 n 1 -> 0; all tick 0 -> Done; all sweep 0 n -> Done \
    | present 1 0 / / 1 ask 0 n 1 -> 0; all tick 0 -> Done; all sweep 0 n -> Done | Ok(())
a segment that was cut | 1 | 1 \
    | pass 0 0 0 ask 0 n 1 -> 0; 0 1 1 ask 0 n 1 -> 0; 0 2 0 ask 0 n 2 -> 1; 0 3 1 ask 0 n 2 -> 1 \
    | given 0 0 / / 0 ask 0 n 1 -> 0; 1 ask 0 n 1 -> 0 \
    | present 0 2 / 0 ask 0 n 1; 1 ask 0 n 1 / 0 ask 0 n 2 -> 1; 1 ask 0 n 2 -> 1 | Ok(())
a second cut directly after the first | 1 | 1 \
    | pass 0 0 0 ask 0 n 1 -> 0; 0 1 1 ask 0 n 1 -> 0; 0 2 0 ask 0 n 2 -> 1; 0 3 1 ask 0 n 2 -> 1 \
    | given 0 0 / / 0 ask 0 n 1 -> 0; 1 ask 0 n 1 -> 0 \
    | given 0 2 / 0 ask 0 n 1; 1 ask 0 n 1 / \
    | present 0 2 / 0 ask 0 n 1; 1 ask 0 n 1 / 0 ask 0 n 2 -> 1; 1 ask 0 n 2 -> 1 | Ok(())
given segments of two shards, one between the other's | 2 | 1 | pass 0 1 stray -> Done \
    | given 0 0 / / stray -> Done | given 1 0 / / | given 0 1 / / stray -> Done \
    | present 0 2 / / | present 1 0 / / | Ok(())
two passes take turns | 1 | 2 \
    | pass 0 0 stray -> Done; 0 2 stray -> Done | pass 0 1 stray -> Done; 0 3 stray -> Done \
    | present 0 0 / / stray -> Done; stray -> Done; stray -> Done; stray -> Done | Ok(())
a bundle and a class | 1 | 1 | pass 0 0 0 alive 0 n s1 multi=m class=7 -> Done \
    | present 0 0 / / 0 alive 0 n s1 multi=m class=7 -> Done | Ok(())
";

/// Records without a pass or a segment.
const MISSING: &str = "
a pass alone of two | 2 | 2 \
    | pass 0 0 0 ask 0 n 1 -> 0; 0 1 all tick 0 -> Done; 1 1 all tick 0 -> Done \
    | present 0 0 / / 0 ask 0 n 1 -> 0; all tick 0 -> Done; all sweep 0 n -> Done \
    | present 1 0 / / 1 ask 0 n 1 -> 0; all tick 0 -> Done; all sweep 0 n -> Done \
    | Err(MissingPass)
a pass too many | 1 | 1 | pass | pass | present 0 0 / / | Err(MissingPass)
passes come before segments | 1 | 1 | given 7 0 / / | present 0 0 / / | Err(MissingPass)
without the segment that was cut | 1 | 0 | present 0 2 / 0 ask 0 n 1; 1 ask 0 n 1 / \
    | Err(MissingSegment { shard: 0 })
the number of lines before alone is wrong | 1 | 0 | given 0 0 / / stray -> Done \
    | present 0 2 / / | Err(MissingSegment { shard: 0 })
the opening alone is wrong | 1 | 0 | given 0 0 / / 0 ask 0 n 1 -> 0 \
    | present 0 1 / 0 ask 5 n 1 / | Err(MissingSegment { shard: 0 })
segments in another order | 1 | 0 | given 0 1 / / stray -> Done | given 0 0 / / stray -> Done \
    | present 0 2 / / | Err(MissingSegment { shard: 0 })
a segment twice | 1 | 0 | given 0 0 / / stray -> Done | given 0 0 / / stray -> Done \
    | present 0 1 / / | Err(MissingSegment { shard: 0 })
a move that the shard does not take | 2 | 0 | present 0 0 / / \
    | present 1 0 / / 0 ask 0 n 1 -> 0 | Err(MissingSegment { shard: 1 })
the lowest of two shards | 2 | 0 | present 0 1 / / | present 1 1 / / \
    | Err(MissingSegment { shard: 0 })
no such shard | 2 | 0 | given 2 0 / / | present 0 0 / / | present 1 0 / / \
    | Err(MissingSegment { shard: 2 })
the lowest number that is no shard's | 1 | 0 | given 9 0 / / | given 7 0 / / | given 8 0 / / \
    | present 0 0 / / | Err(MissingSegment { shard: 7 })
a shard is lower than a number that is none | 2 | 0 | given 7 0 / / | present 0 0 / / \
    | present 1 1 / / | Err(MissingSegment { shard: 1 })
segments come before receipts | 1 | 1 | pass 0 0 stray -> Done | present 0 1 / / \
    | Err(MissingSegment { shard: 0 })
";

/// Records with a receipt that is at fault.
const MISMATCHED: &str = "
a decision that was changed | 1 | 1 \
    | pass 0 0 0 ask 0 n 1 -> 0; 0 1 1 ask 0 n 1 -> 0 \
    | given 0 0 / / 0 ask 0 n 1 -> LimitReject; 1 ask 0 n 1 -> 0 \
    | present 0 2 / 0 ask 0 n 1; 1 ask 0 n 1 / | Err(Mismatch { shard: 0, position: 0 })
another move | 1 | 1 | pass 0 0 0 ask 1 n 1 -> 0 | present 0 0 / / 0 ask 0 n 1 -> 0 \
    | Err(Mismatch { shard: 0, position: 0 })
another account | 1 | 1 | pass 0 0 1 ask 0 n 1 -> 0 | present 0 0 / / 0 ask 0 n 1 -> 0 \
    | Err(Mismatch { shard: 0, position: 0 })
another class | 1 | 1 | pass 0 0 0 alive 0 n s1 class=7 -> Done \
    | present 0 0 / / 0 alive 0 n s1 -> Done | Err(Mismatch { shard: 0, position: 0 })
past the last line | 1 | 1 | pass 0 1 stray -> Done | present 0 0 / / stray -> Done \
    | Err(Mismatch { shard: 0, position: 1 })
the highest position | 1 | 1 | pass 0 18446744073709551615 stray -> Done \
    | present 0 0 / / stray -> Done | Err(Mismatch { shard: 0, position: 18446744073709551615 })
positions are counted over all segments | 1 | 1 | pass 0 0 all tick 0 -> Done \
    | given 0 0 / / stray -> Done | present 0 1 / / all tick 0 -> Done \
    | Err(Mismatch { shard: 0, position: 0 })
no such shard | 1 | 1 | pass 3 0 stray -> Done | present 0 0 / / stray -> Done \
    | Err(Mismatch { shard: 3, position: 0 })
the line of another shard | 2 | 1 | pass 1 0 stray -> Done | present 0 0 / / stray -> Done \
    | present 1 0 / / | Err(Mismatch { shard: 1, position: 0 })
a receipt below the one before it | 1 | 1 | pass 0 1 stray -> Done; 0 0 stray -> Done \
    | present 0 0 / / stray -> Done; stray -> Done | Err(Mismatch { shard: 0, position: 0 })
a receipt twice in a pass | 1 | 1 | pass 0 0 stray -> Done; 0 0 stray -> Done \
    | present 0 0 / / stray -> Done | Err(Mismatch { shard: 0, position: 0 })
a position of two passes | 1 | 2 | pass 0 0 stray -> Done; 0 1 stray -> Done \
    | pass 0 1 stray -> Done | present 0 0 / / stray -> Done; stray -> Done \
    | Err(Mismatch { shard: 0, position: 1 })
";

#[test]
fn a_record_that_is_settled(rt: HostRuntime) -> Result<(), Fail> {
    check_rows(&rt, &Settlings { rt: &rt }, SETTLED)
}

#[test]
fn a_record_with_a_gap_between_passes_or_segments(rt: HostRuntime) -> Result<(), Fail> {
    check_rows(&rt, &Settlings { rt: &rt }, MISSING)
}

#[test]
fn a_record_with_a_receipt_at_fault(rt: HostRuntime) -> Result<(), Fail> {
    check_rows(&rt, &Settlings { rt: &rt }, MISMATCHED)
}
