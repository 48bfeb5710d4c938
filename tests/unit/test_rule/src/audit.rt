//! Tests of `audit`.
//!
//! A row has a name, the number of shards, and the segments of a record, as in `records`; what is
//! expected is the answer as its Debug.

use crate::records::{config_of, segment_of};
use rsl_accounts::Config;
use rsl_record::audit;
use std::alloc::Global;
use std::test::Fail;
use test_rows::{Subject, check_rows, printed};

/// Audits of the records of rows.
#[derive(Clone, Copy)]
struct Audits<'a, R> {
    rt: &'a R,
}

impl<R: AllocGlobal> Subject for Audits<'_, R> {
    fn found(&self, alloc: Global, fields: &[&str]) -> Result<String, Fail> {
        let [shards, records @ ..] = fields else {
            return Err(Fail::from("a row without a number of shards"));
        };
        let config = config_of(self.rt, shards)?;
        answered(self.rt, alloc, &config, records)
    }
}

/// What is answered to a record.
fn answered<R: AllocGlobal>(
    rt: &R,
    alloc: Global,
    config: &Config,
    records: &[&str],
) -> Result<String, Fail> {
    let mut segments = Vec::new(alloc);
    for record in records {
        segments.push(segment_of(rt, config, record)?)?;
    }
    printed(alloc, &audit(alloc, config, segments.as_slice()))
}

/// Records that were kept right.
const RIGHT: &str = "
no segments | 1 | Ok(())
a segment without lines | 1 | 0 0 / / | Ok(())
two accounts in turn | 1 \
    | 0 0 / / 0 ask 0 n 1 -> 0; 1 ask 0 n 1 -> 0; 0 ask 0 n 2 -> 1; 1 ask 0 n 2 -> 1 | Ok(())
two segments | 1 \
    | 0 0 / / 0 ask 0 n 1 -> 0; 1 ask 0 n 1 -> 0 \
    | 0 2 / 0 ask 0 n 1; 1 ask 0 n 1 / 0 ask 0 n 2 -> 1; 1 ask 0 n 2 -> 1 | Ok(())
an empty segment between two | 1 \
    | 0 0 / / 0 ask 0 n 1 -> 0; 1 ask 0 n 1 -> 0 \
    | 0 2 / 0 ask 0 n 1; 1 ask 0 n 1 / \
    | 0 2 / 0 ask 0 n 1; 1 ask 0 n 1 / 0 ask 0 n 2 -> 1; 1 ask 0 n 2 -> 1 | Ok(())
an ask that comes again in the next segment | 1 \
    | 0 0 / / 0 ask 0 n 1 -> 0 | 0 1 / 0 ask 0 n 1 / 0 ask 9 n 1 -> 0; 0 ask 10 n 1 -> 1 | Ok(())
every kind of move, in the second of two shards | 2 \
    | 1 0 / / 1 ask 0 n 1 -> 0; 1 alive 1 n s1 class=0 -> Done; all sweep 2 m -> Done; \
      stray -> Done; 1 stop 3 n s1 -> Done; all tick 4 -> Done; all sweep 4 n -> Done; \
      1 ask 5 n 1 -> 1; 1 ask 5 n 2 -> 2; 1 ask 5 n 3 -> LimitReject | Ok(())
";

/// Records that do not begin or go on as they must.
const GAPS: &str = "
a first segment that is a second | 1 \
    | 0 2 / 0 ask 0 n 1; 1 ask 0 n 1 / 0 ask 0 n 2 -> 1 | Err(NotFromEmpty)
lines before the first segment | 1 | 0 1 / / 0 ask 0 n 1 -> 0 | Err(NotFromEmpty)
an opening that is not new | 1 | 0 0 / 0 tick 1 / | Err(NotFromEmpty)
an opening without books | 1 | 0 0 / none / | Err(NotFromEmpty)
no such shard | 1 | 1 0 / / | Err(NotFromEmpty)
the beginning comes before its lines | 1 | 0 1 / / all tick 0 -> 7 | Err(NotFromEmpty)
a segment twice | 1 \
    | 0 0 / / 0 ask 0 n 1 -> 0 | 0 0 / / 0 ask 0 n 1 -> 0 | Err(Gap { segment: 1 })
too many lines before | 1 \
    | 0 0 / / 0 ask 0 n 1 -> 0 | 0 2 / 0 ask 0 n 1 / | Err(Gap { segment: 1 })
a segment of another shard | 2 \
    | 0 0 / / stray -> Done | 1 1 / / stray -> Done | Err(Gap { segment: 1 })
an opening that differs in one touch | 1 \
    | 0 0 / / 0 alive 0 n s1 -> Done; 0 alive 5 n s1 -> Done \
    | 0 2 / 0 alive 0 n s1; 0 tick 5 / | Err(Gap { segment: 1 })
an opening without the last line | 1 \
    | 0 0 / / 0 ask 0 n 1 -> 0; 0 ask 0 n 2 -> 1 | 0 2 / 0 ask 0 n 1 / | Err(Gap { segment: 1 })
an opening of another account's lines | 1 \
    | 0 0 / / 0 ask 0 n 1 -> 0 | 0 1 / 1 ask 0 n 1 / | Err(Gap { segment: 1 })
an opening without books later on | 1 | 0 0 / / | 0 0 / none / | Err(Gap { segment: 1 })
the third segment | 1 | 0 0 / / | 0 0 / / | 0 1 / / | Err(Gap { segment: 2 })
a gap comes before the lines after it | 1 \
    | 0 0 / / stray -> Done | 0 0 / / all tick 0 -> 7 | Err(Gap { segment: 1 })
";

/// Records with a line that is not right.
const WRONG: &str = "
a decision that is not the rule's | 1 \
    | 0 0 / / 0 ask 0 n 1 -> 0; 1 ask 0 n 1 -> 0; 0 ask 0 n 2 -> LimitReject; 1 ask 0 n 2 -> 1 \
    | Err(WrongDecision { account: Some(0), position: 2 })
an accept number that was given | 1 \
    | 0 0 / / 0 ask 0 n 1 -> 0; 0 ask 0 n 2 -> 0 \
    | Err(WrongDecision { account: Some(0), position: 1 })
an alive with an accept | 1 | 0 0 / / 1 alive 0 n s1 -> 0 \
    | Err(WrongDecision { account: Some(1), position: 0 })
a decision on a tick | 1 | 0 0 / / all tick 0 -> LimitReject \
    | Err(WrongDecision { account: None, position: 0 })
a decision on a sweep | 1 | 0 0 / / stray -> Done; all sweep 0 n -> 0 \
    | Err(WrongDecision { account: None, position: 1 })
a decision on a stray | 1 | 0 0 / / stray -> LimitReject \
    | Err(WrongDecision { account: None, position: 0 })
no such account | 1 | 0 0 / / 2 ask 0 n 1 -> 0 \
    | Err(WrongDecision { account: Some(2), position: 0 })
an account of another shard | 2 | 0 0 / / 1 ask 0 n 1 -> 0 \
    | Err(WrongDecision { account: Some(1), position: 0 })
a tick of one account | 1 | 0 0 / / 0 tick 0 -> Done \
    | Err(WrongDecision { account: Some(0), position: 0 })
a sweep of one account | 1 | 0 0 / / 0 sweep 0 n -> Done \
    | Err(WrongDecision { account: Some(0), position: 0 })
lines are counted over all segments | 1 \
    | 0 0 / / stray -> Done; 0 ask 0 n 1 -> 0 | 0 2 / 0 ask 0 n 1 / stray -> Done; 0 ask 9 n 1 -> 1 \
    | Err(WrongDecision { account: Some(0), position: 3 })
a line comes before a gap after it | 1 \
    | 0 0 / / stray -> 7 | 0 7 / / | Err(WrongDecision { account: None, position: 0 })
the first of two | 1 | 0 0 / / stray -> 7; stray -> 8 \
    | Err(WrongDecision { account: None, position: 0 })
";

#[test]
fn a_record_that_was_kept_right(rt: HostRuntime) -> Result<(), Fail> {
    check_rows(&rt, &Audits { rt: &rt }, RIGHT)
}

#[test]
fn a_record_with_a_gap(rt: HostRuntime) -> Result<(), Fail> {
    check_rows(&rt, &Audits { rt: &rt }, GAPS)
}

#[test]
fn a_record_with_a_wrong_line(rt: HostRuntime) -> Result<(), Fail> {
    check_rows(&rt, &Audits { rt: &rt }, WRONG)
}
