//! One generation after another.

use crate::server::*;
use rld_log::{Ending, Life, MemoryLog};
use rld_spelling::Header;
use rld_store::{Opened, Store, StoreFault};
use rsl_event::Decision;
use std::alloc::Global;
use std::process::Abort;
use std::test::Fail;

/// The header of the second generation.
const SECOND: Header = Header {
    generation: 2,
    table: 3,
    boot: 7,
    lines: 2,
};

/// Two logins of an account, of which the second finds no place.
fn ask_twice<R: Abort + AllocGlobal>(rt: &R, store: &mut Store<MemoryLog>) -> Result<(), Fail> {
    let batch = vec![in rt.alloc(); ask(0, 1), ask(0, 2)]?;
    commit(
        rt,
        store,
        batch,
        &[Decision::Accept(0), Decision::LimitReject],
    )
}

#[test]
fn the_next_generation_goes_on(rt: HostRuntime) -> Result<(), Fail> {
    let alloc = rt.alloc();
    let mut store = begun(alloc, &[])?;
    ask_twice(&rt, &mut store)?;
    // the header with the table and the snapshot have 62 and 33 octets, a frame of two asks 77
    assert_eq!(rt; rolled(alloc, &mut store)?, 172);
    check_held(&rt, &store, [1, 0])?;
    commit_one(&rt, &mut store, ask(1, 3), Decision::Accept(0))?;
    let log = store.into_log();
    let mut opened = found(alloc, log.octets())?;
    check_second(&rt, &mut opened)
}

/// Has the second generation follow: how many octets the first one had.
fn rolled(alloc: Global, store: &mut Store<MemoryLog>) -> Result<usize, Fail> {
    match store.roll(alloc, SECOND, log_of(alloc, &[], &[])?) {
        Ok(older) => Ok(older.octets().len()),
        Err(_) => Err("not rolled")?,
    }
}

fn check_second<R: Abort + AllocGlobal>(
    rt: &R,
    opened: &mut Opened<MemoryLog>,
) -> Result<(), Fail> {
    assert!(rt; opened.header == SECOND);
    assert_eq!(rt; opened.moves, 1);
    check_held(rt, &opened.store, [1, 1])?;
    // what the first generation answered is answered so again
    ask_twice(rt, &mut opened.store)
}

/// Each call of the next log fails in turn, with all after it: the store goes on with its own, and
/// a crash leaves no next generation, or one with the same books.
#[test]
fn a_roll_that_fails_changes_nothing(rt: HostRuntime) -> Result<(), Fail> {
    for calls in 0..5 {
        for ending in [Ending::Kill, Ending::PowerLoss] {
            let mut store = begun(rt.alloc(), &[])?;
            fail_to_roll(&rt, &mut store, calls, ending)?;
        }
    }
    Ok(())
}

fn fail_to_roll<R: Abort + AllocGlobal>(
    rt: &R,
    store: &mut Store<MemoryLog>,
    calls: u64,
    ending: Ending,
) -> Result<(), Fail> {
    let alloc = rt.alloc();
    ask_twice(rt, store)?;
    let next = unrolled(alloc, store, calls)?;
    check_next(rt, crashed(next, ending), calls)?;
    commit_one(rt, store, ask(0, 1), Decision::Accept(0))
}

/// The next log, whose calls fail after the first `calls`, where a roll has failed.
fn unrolled(alloc: Global, store: &mut Store<MemoryLog>, calls: u64) -> Result<MemoryLog, Fail> {
    let life = Life {
        calls,
        failing: u64::MAX,
        kept: 1000,
    };
    match store.roll(alloc, SECOND, log_of(alloc, &[], &[life])?) {
        Ok(_) => Err("rolled")?,
        Err(refused) => Ok(refused.log),
    }
}

/// That the next log has no generation, or, after three calls or more, one with the same books.
fn check_next<R: Abort + AllocGlobal>(rt: &R, next: MemoryLog, calls: u64) -> Result<(), Fail> {
    let alloc = rt.alloc();
    match open(alloc, config(alloc)?, log_of(alloc, next.octets(), &[])?) {
        Ok(opened) => {
            assert!(rt; calls >= 3);
            check_held(rt, &opened.store, [1, 0])
        }
        Err(refused) => {
            assert_eq!(rt; refused.fault, StoreFault::Unbegun);
            Ok(())
        }
    }
}
