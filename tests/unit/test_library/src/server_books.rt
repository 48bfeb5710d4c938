//! Tests of `rld_books`: batches of moves, in the books of all accounts.
//!
//! A row has the head of a script, as in `steps`, and batches with `; ` between them, of moves with
//! `/` between them, each as in `shards`. What is expected is the decision on each move, or that a
//! batch is not taken.

use crate::shards::{move_of, push_part};
use crate::steps::config_and_steps;
use rld_books::ServerBooks;
use rsl_accounts::Config;
use rsl_event::Decision;
use rsl_shard::Move;
use std::alloc::Global;
use std::test::Fail;
use test_rows::{Subject, check_rows, printed};

/// Batches: the decisions on their moves.
struct Batches;

impl Subject for Batches {
    fn found(&self, alloc: Global, fields: &[&str]) -> Result<String, Fail> {
        let [head, batches] = fields else {
            return Err("a head and batches")?;
        };
        let (config, _) = config_and_steps(alloc, head, "")?;
        told_batches(alloc, &config, batches)
    }
}

fn told_batches(alloc: Global, config: &Config, batches: &str) -> Result<String, Fail> {
    let mut books = ServerBooks::new(alloc, config)?;
    let mut text = String::new(alloc);
    for batch in batches.split("; ") {
        let told = told_batch(alloc, &mut books, batch)?;
        push_part(&mut text, "; ", told.as_str())?;
    }
    Ok(text)
}

/// What a batch tells.
fn told_batch(alloc: Global, books: &mut ServerBooks, lines: &str) -> Result<String, Fail> {
    let batch = batch_of(alloc, lines)?;
    if !books.takes_all(&batch) {
        return Ok(String::from_str(alloc, "not taken")?);
    }
    let room = Vec::with_capacity(alloc, batch.len())?;
    told_decisions(alloc, &books.make_all(batch, room))
}

/// The moves of a batch.
pub(crate) fn batch_of(alloc: Global, lines: &str) -> Result<Vec<Move>, Fail> {
    let mut batch = Vec::new(alloc);
    for line in lines.split('/') {
        batch.push(move_of(alloc, line)?)?;
    }
    Ok(batch)
}

fn told_decisions(alloc: Global, decisions: &[Decision]) -> Result<String, Fail> {
    let mut text = String::new(alloc);
    for decision in decisions {
        push_part(&mut text, ", ", printed(alloc, decision)?.as_str())?;
    }
    Ok(text)
}

// An account has one place, and a reservation of 60 seconds; a repeat of an ask is known for 10. So an
// ask at a moment that has fallen finds the place free only if its book had the tick, or the sweep.
#[test]
fn batches_step_the_books_of_all_accounts(rt: HostRuntime) -> Result<(), Fail> {
    check_rows(
        &rt,
        &Batches,
        "
moves of each kind in one batch | client C xyzzy5461/account a pw 1/account b pw 2/ \
    | 0 ask 0 n 1/0 ask 1 n 1/0 ask 20 n 1/1 alive 21 n s/1 stop 22 n s/all sweep 23 n/\
    all tick 24/stray \
    | Accept(0), Accept(0), LimitReject, Done, Done, Done, Done, Done
each account has its own book \
    | client C xyzzy5461/account a pw 2/account b pw 2/account c pw 1/account d pw 1/ \
    | 0 ask 0 n 1/1 ask 0 n 1/2 ask 0 n 1/3 ask 0 n 1; 0 ask 0 n 2/1 ask 0 n 2/2 ask 0 n 2/\
    3 ask 0 n 2; 0 ask 0 n 3/1 ask 0 n 3 \
    | Accept(0), Accept(0), Accept(0), Accept(0); Accept(1), Accept(1), LimitReject, LimitReject; \
    LimitReject, LimitReject
a tick comes to every book \
    | client C xyzzy5461/account a pw 1/account b pw 1/account c pw 1/account d pw 1/ \
    | 0 ask 0 n 1/1 ask 0 n 1/2 ask 0 n 1/3 ask 0 n 1; all tick 60; 0 ask 0 n 2/1 ask 0 n 2/\
    2 ask 0 n 2/3 ask 0 n 2 \
    | Accept(0), Accept(0), Accept(0), Accept(0); Done; Accept(1), Accept(1), Accept(1), Accept(1)
a sweep comes to every book, and sweeps its access server alone \
    | client C xyzzy5461/account a pw 1/account b pw 1/account c pw 1/ \
    | 0 ask 0 n 1/1 ask 0 m 1/2 ask 0 n 1; all sweep 1 n/0 ask 1 n 2/1 ask 1 n 2/2 ask 1 n 2 \
    | Accept(0), Accept(0), Accept(0); Done, Accept(1), LimitReject, Accept(1)
a late sweep ends what opened before the restart, in every book \
    | client C xyzzy5461/account a pw 1/account b pw 1/ \
    | 0 ask 0 n 1/1 ask 5 n 1; all sweep 8 n delay=5/0 ask 8 n 2/1 ask 8 n 2; \
    all sweep 10 n delay=5/1 ask 10 n 3 \
    | Accept(0), Accept(0); Done, Accept(1), LimitReject; Done, Accept(1)
a link yields to its station | client C xyzzy5461/account a pw 1/ \
    | 0 ask 0 n 1 station=d; 0 ask 1 n 2 station=d/0 ask 2 n 3/0 alive 3 n s class=1 station=e; \
    0 ask 4 n 4 station=d/0 ask 5 n 5 station=e \
    | Accept(0); Accept(1), LimitReject, Done; LimitReject, Accept(2)
a stray steps no book | client C xyzzy5461/account a pw 1/account b pw 1/ \
    | 0 ask 0 n 1/stray/0 ask 0 n 1/0 ask 0 n 2 | Accept(0), Done, Accept(0), LimitReject
an own move leaves the other books | client C xyzzy5461/account a pw 1/account b pw 1/ \
    | 0 ask 0 n 1; 1 stop 1 n s/0 ask 1 n 2/1 ask 1 n 2 | Accept(0); Done, LimitReject, Accept(0)
what is not taken leaves the books | client C xyzzy5461/account a pw 1/account b pw 1/ \
    | 0 ask 0 n 1; 1 ask 0 n 1/2 ask 0 n 1; 0 tick 60; 1 sweep 1 n; 0 ask 0 n 2/1 ask 0 n 1 \
    | Accept(0); not taken; not taken; not taken; LimitReject, Accept(0)
",
    )
}
