//! What each call answers and writes.

use crate::server::*;
use rld_log::MemoryLog;
use rld_store::{Opened, Store, StoreFault};
use rsl_event::Decision;
use rsl_session::{SavedHolder, SavedLink};
use rsl_shard::Move;
use std::process::Abort;
use std::test::Fail;
use test_rows::octets_of;

/// The frames of a header with the table, of a snapshot of two new books, and of the tick at 1700000000, with the
/// digests that `md5sum` prints.
const GENERATION: &str = "
0000002a bc9182fa28b556091552d275850d8c38 03 01 01 03 07 00
02 01 61 01 01 3c fd0384 fd0384 fd0e10 0a 01 62 01 01 3c fd0384 fd0384 fd0e10 0a 01 c0a80110
0000000d 9a0f7a47ff16017b2519beda93a25b2d 02 00*12
00000007 ec4ec432ae2a3724607f8bfccdedcb29 01 05 fe 6553f100
";

#[test]
fn a_generation_has_these_octets(rt: HostRuntime) -> Result<(), Fail> {
    let alloc = rt.alloc();
    let wanted = octets_of(alloc, GENERATION)?;
    let mut store = begun(alloc, &[])?;
    commit_one(&rt, &mut store, tick(1_700_000_000), Decision::Done)?;
    let log = store.into_log();
    assert_eq!(rt; log.octets(), wanted.as_slice());
    Ok(())
}

/// The frames of a header with the table, of a snapshot of two new books, of the ticks at 1, 2 and 3, and of that at
/// 4, with the digests that `md5sum` prints.
const TWO_BATCHES: &str = "
0000002a bc9182fa28b556091552d275850d8c38 03 01 01 03 07 00
02 01 61 01 01 3c fd0384 fd0384 fd0e10 0a 01 62 01 01 3c fd0384 fd0384 fd0e10 0a 01 c0a80110
0000000d 9a0f7a47ff16017b2519beda93a25b2d 02 00*12
00000007 d045ae9e036c1fdbc0d3e23aa93a12f1 03 05 01 05 02 05 03
00000003 361e265bca93633a1fbafde0d2d42b72 01 05 04
";

/// Nothing of a batch is left in the frame of a shorter one after it.
#[test]
fn a_shorter_batch_follows_a_longer_one(rt: HostRuntime) -> Result<(), Fail> {
    let alloc = rt.alloc();
    let wanted = octets_of(alloc, TWO_BATCHES)?;
    let mut store = begun(alloc, &[])?;
    let longer = vec![in alloc; tick(1), tick(2), tick(3)]?;
    commit(&rt, &mut store, longer, &[Decision::Done; 3])?;
    commit_one(&rt, &mut store, tick(4), Decision::Done)?;
    let log = store.into_log();
    assert_eq!(rt; log.octets(), wanted.as_slice());
    let opened = found(alloc, log.octets())?;
    assert_eq!(rt; opened.moves, 4);
    assert_eq!(rt; opened.torn, 0);
    Ok(())
}

/// An account has one place: the first login takes it, and the second finds none.
#[test]
fn a_batch_is_decided_move_by_move(rt: HostRuntime) -> Result<(), Fail> {
    let mut store = begun(rt.alloc(), &[])?;
    decide_a_batch(&rt, &mut store)
}

fn decide_a_batch<R: Abort + AllocGlobal>(
    rt: &R,
    store: &mut Store<MemoryLog>,
) -> Result<(), Fail> {
    let batch = vec![in rt.alloc(); ask(0, 1), ask(0, 2), ask(1, 3)]?;
    let wanted = [
        Decision::Accept(0),
        Decision::LimitReject,
        Decision::Accept(0),
    ];
    commit(rt, store, batch, &wanted)?;
    check_held(rt, store, [1, 1])?;
    // the same request again has the same answer
    commit_one(rt, store, ask(0, 1), Decision::Accept(0))
}

#[test]
fn the_links_of_an_account(rt: HostRuntime) -> Result<(), Fail> {
    let alloc = rt.alloc();
    let mut store = begun(alloc, &[])?;
    bind_a_session(&rt, &mut store)?;
    check_held(&rt, &store, [0, 1])?;
    check_links(&rt, &store)
}

fn bind_a_session<R: Abort + AllocGlobal>(
    rt: &R,
    store: &mut Store<MemoryLog>,
) -> Result<(), Fail> {
    commit_one(rt, store, ask(1, 3), Decision::Accept(0))?;
    let alive = alive(rt.alloc(), 1, b"s", 0)?;
    commit_one(rt, store, alive, Decision::Done)
}

fn check_links<R: Abort + AllocGlobal>(rt: &R, store: &Store<MemoryLog>) -> Result<(), Fail> {
    let alloc = rt.alloc();
    let first = store.links(alloc, 0)?;
    assert!(rt; are_links(&first, &[]));
    let second = store.links(alloc, 1)?;
    assert!(rt; are_links(&second, &[(b"s", 101)]));
    let none = store.links(alloc, 2)?;
    assert!(rt; none.is_none());
    Ok(())
}

/// Whether these are the sessions of an account and the moments of their last packets.
fn are_links(links: &Option<Vec<SavedLink>>, wanted: &[(&[u8], u64)]) -> bool {
    match links {
        Some(links) => {
            links.len() == wanted.len()
                && links.iter().zip(wanted).all(|(link, (session, touched))| is_link(
                    link, session, *touched,
                ))
        }
        None => false,
    }
}

fn is_link(link: &SavedLink, session: &[u8], touched: u64) -> bool {
    match &link.holder {
        SavedHolder::Bound(bound) => bound.as_slice() == session && link.touched == touched,
        SavedHolder::Reserved(_) => false,
    }
}

/// Two batches are recorded, and their log is opened as it was left.
#[test]
fn a_log_is_opened_as_it_was_left(rt: HostRuntime) -> Result<(), Fail> {
    let alloc = rt.alloc();
    let mut store = begun(alloc, &[])?;
    record_two(&rt, &mut store)?;
    let log = store.into_log();
    let mut opened = found(alloc, log.octets())?;
    check_opened(&rt, &mut opened)
}

fn record_two<R: Abort + AllocGlobal>(rt: &R, store: &mut Store<MemoryLog>) -> Result<(), Fail> {
    let batch = vec![in rt.alloc(); ask(0, 1), ask(0, 2)]?;
    commit(
        rt,
        store,
        batch,
        &[Decision::Accept(0), Decision::LimitReject],
    )?;
    commit_one(rt, store, ask(1, 3), Decision::Accept(0))
}

fn check_opened<R: Abort + AllocGlobal>(
    rt: &R,
    opened: &mut Opened<MemoryLog>,
) -> Result<(), Fail> {
    assert!(rt; opened.header == HEADER);
    assert_eq!(rt; opened.moves, 3);
    assert_eq!(rt; opened.torn, 0);
    let store = &mut opened.store;
    check_held(rt, store, [1, 1])?;
    // requests that are sent again have the same answers
    record_two(rt, store)
}

/// A batch with a move that cannot be made or written is refused whole.
#[test]
fn a_batch_that_does_not_fit_is_refused(rt: HostRuntime) -> Result<(), Fail> {
    let alloc = rt.alloc();
    let mut store = begun(alloc, &[])?;
    refuse(&rt, &mut store, ask(2, 2))?;
    let long = alive(alloc, 0, &[97; 254], 0)?;
    refuse(&rt, &mut store, long)?;
    check_held(&rt, &store, [0, 0])?;
    let log = store.into_log();
    assert_eq!(rt; log.octets().len(), 95);
    Ok(())
}

/// A batch with a login and this move does not fit.
fn refuse<R: Abort + AllocGlobal>(
    rt: &R,
    store: &mut Store<MemoryLog>,
    moved: Move,
) -> Result<(), Fail> {
    let alloc = rt.alloc();
    let batch = vec![in alloc; ask(0, 1), moved]?;
    match store.commit(alloc, batch) {
        Ok(_) => return Err("recorded")?,
        Err(fault) => assert_eq!(rt; fault, StoreFault::Unfit),
    }
    Ok(())
}
