//! A log that fails at each of its calls, and torn ends.

use crate::server::*;
use rld_log::{Ending, Life, MemoryLog};
use rld_store::{Store, StoreFault};
use rsl_accounts::Config;
use rsl_event::Decision;
use rsl_shard::Move;
use std::alloc::Global;
use std::process::Abort;
use std::sync::Arc;
use std::test::Fail;

/// Begins a store and records three batches of two moves until a call fails: how many batches were
/// answered, and the log.
fn live(alloc: Global, config: Arc<Config>, log: MemoryLog) -> Result<(u64, MemoryLog), Fail> {
    let mut store = match Store::begin(alloc, config, HEADER, log) {
        Ok(store) => store,
        Err(refused) => return Ok((0, refused.log)),
    };
    let answered = record(alloc, &mut store)?;
    Ok((answered, store.into_log()))
}

/// Records three batches of two moves until a call fails: how many were answered.
fn record(alloc: Global, store: &mut Store<MemoryLog>) -> Result<u64, Fail> {
    for second in 0..3 {
        let batch = vec![in alloc; tick(200), tick(second)]?;
        if store.commit(alloc, batch).is_err() {
            return Ok(second);
        }
    }
    Ok(3)
}

/// Each call of the first life fails in turn, with all after it, and a crash follows that keeps each
/// number of octets: what was answered is found, and of the batch after it all moves or none.
#[test]
fn what_was_answered_is_found_after_each_crash(rt: HostRuntime) -> Result<(), Fail> {
    for calls in 0..12 {
        for kept in [0, 1, 13, 27, 1000] {
            for ending in [Ending::Kill, Ending::PowerLoss] {
                crash(&rt, calls, kept, ending)?;
            }
        }
    }
    Ok(())
}

fn crash<R: Abort + AllocGlobal>(
    rt: &R,
    calls: u64,
    kept: usize,
    ending: Ending,
) -> Result<(), Fail> {
    let alloc = rt.alloc();
    let config = config(alloc)?;
    let short = Life {
        calls,
        failing: u64::MAX,
        kept,
    };
    let log = log_of(alloc, &[], &[short])?;
    let (answered, log) = live(alloc, Arc::try_clone(&config)?, log)?;
    // a call that reads and four that begin, then two for each batch
    assert_eq!(rt; answered, (calls.max(5) - 5) / 2);
    match open(alloc, config, crashed(log, ending)) {
        Ok(opened) => {
            let more = opened.moves.checked_sub(2 * answered as usize);
            assert!(rt; matches!(more, Some(0 | 2)));
        }
        Err(refused) => {
            assert_eq!(rt; refused.fault, StoreFault::Unbegun);
            assert!(rt; calls < 5);
        }
    }
    Ok(())
}

/// The last frame is cut to each of its lengths.
#[test]
fn a_torn_end_is_cut_off(rt: HostRuntime) -> Result<(), Fail> {
    let alloc = rt.alloc();
    let first = recorded_in(&rt, begun(alloc, &[])?, ask(0, 1))?;
    let found = found(alloc, first.octets())?;
    let both = recorded_in(&rt, found.store, ask(1, 2))?;
    for len in first.octets().len()..both.octets().len() {
        check_torn(&rt, first.octets(), &both.octets()[..len])?;
    }
    Ok(())
}

/// The log of a store that has recorded a login.
fn recorded_in<R: Abort + AllocGlobal>(
    rt: &R,
    store: Store<MemoryLog>,
    login: Move,
) -> Result<MemoryLog, Fail> {
    let mut store = store;
    commit_one(rt, &mut store, login, Decision::Accept(0))?;
    Ok(store.into_log())
}

/// That what is found is the first login alone, and that its log is left, of which these are the octets.
fn check_torn<R: Abort + AllocGlobal>(rt: &R, first: &[u8], torn: &[u8]) -> Result<(), Fail> {
    let opened = found(rt.alloc(), torn)?;
    assert_eq!(rt; opened.moves, 1);
    assert_eq!(rt; opened.torn, torn.len().saturating_sub(first.len()));
    check_held(rt, &opened.store, [1, 0])?;
    let log = opened.store.into_log();
    assert_eq!(rt; log.octets(), first);
    Ok(())
}

/// A batch whose append failed is not made, and the next one stands in its place.
#[test]
fn a_failed_append_is_mended(rt: HostRuntime) -> Result<(), Fail> {
    let alloc = rt.alloc();
    let life = Life {
        calls: 5,
        failing: 1,
        kept: 0,
    };
    let mut store = begun(alloc, &[life])?;
    fail_and_go_on(&rt, &mut store)?;
    let log = store.into_log();
    let mut found = found(alloc, log.octets())?;
    check_mended(&rt, &mut found.store)
}

fn fail_and_go_on<R: Abort + AllocGlobal>(
    rt: &R,
    store: &mut Store<MemoryLog>,
) -> Result<(), Fail> {
    let alloc = rt.alloc();
    let batch = vec![in alloc; ask(0, 1)]?;
    assert!(rt; store.commit(alloc, batch).is_err());
    check_held(rt, store, [0, 0])?;
    commit_one(rt, store, ask(0, 2), Decision::Accept(0))
}

fn check_mended<R: Abort + AllocGlobal>(rt: &R, store: &mut Store<MemoryLog>) -> Result<(), Fail> {
    commit_one(rt, store, ask(0, 2), Decision::Accept(0))?;
    commit_one(rt, store, ask(0, 1), Decision::LimitReject)
}
