//! Each fault of an opening, by its name; the log is left as it was.

use crate::server::*;
use rld_books::ServerFault;
use rld_log::{Damage, frame_of};
use rld_spelling::{Cause, Header};
use rld_store::{Malformed, Parts, Store, StoreFault};
use rsl_book::RestoreFault;
use std::alloc::Global;
use std::test::Fail;
use test_rows::octets_of;

/// The payload of a header and the table of both accounts.
const HEAD: &str = "03 01 01 03 07 00 \
02 01 61 01 01 3c fd0384 fd0384 fd0e10 0a 01 62 01 01 3c fd0384 fd0384 fd0e10 0a 01 c0a80110";

/// Those of a header of format 1 and of one of format 2.
const FORMER_HEADS: [&str; 2] = ["01 01 01 01 00*16 00", "02 01 01 01 00*16 00"];

/// The payload of a snapshot of two new books.
const NEW: &str = "02 00*12";

/// The frames of these payloads, one after another.
pub fn frames(alloc: Global, payloads: &[&str]) -> Result<Vec<u8>, Fail> {
    let mut octets = Vec::new(alloc);
    for payload in payloads {
        let payload = octets_of(alloc, payload)?;
        if payload.len() > 1000 {
            return Err("a long payload")?;
        }
        octets.extend_from_slice(&frame_of(alloc, &payload)?)?;
    }
    Ok(octets)
}

/// Why a log with these octets is not opened. It is left as it was.
fn fault_of(alloc: Global, octets: &[u8]) -> Result<Option<StoreFault>, Fail> {
    match open(alloc, config(alloc)?, log_of(alloc, octets, &[])?) {
        Ok(_) => Ok(None),
        Err(refused) => {
            if refused.log.octets() != octets {
                return Err("the log was changed")?;
            }
            Ok(Some(refused.fault))
        }
    }
}

/// That a payload has a fault at this octet of the log.
fn malformed(offset: usize, cause: Cause) -> StoreFault {
    StoreFault::Malformed(Malformed { offset, cause })
}

/// That the snapshot, which begins at octet 82, is of other accounts.
fn misfit(fault: ServerFault) -> StoreFault {
    StoreFault::Misfit { offset: 82, fault }
}

#[test]
fn a_log_without_a_snapshot_is_not_begun(rt: HostRuntime) -> Result<(), Fail> {
    let alloc = rt.alloc();
    assert_eq!(rt; fault_of(alloc, &[])?, Some(StoreFault::Unbegun));
    let [first, second] = FORMER_HEADS;
    for head in [HEAD, first, second] {
        let alone = frames(alloc, &[head])?;
        assert_eq!(rt; fault_of(alloc, &alone)?, Some(StoreFault::Unbegun));
        let both = frames(alloc, &[head, NEW])?;
        let torn = fault_of(alloc, &both[..both.len().saturating_sub(1)])?;
        assert_eq!(rt; torn, Some(StoreFault::Unbegun));
    }
    let both = frames(alloc, &[HEAD, NEW])?;
    assert_eq!(rt; fault_of(alloc, &both)?, None);
    Ok(())
}

/// A log of format 1 or 2 is not opened: `read_former` reads it.
#[test]
fn a_log_of_a_version_before_is_of_another_format(rt: HostRuntime) -> Result<(), Fail> {
    let alloc = rt.alloc();
    for head in FORMER_HEADS {
        let both = frames(alloc, &[head, NEW])?;
        let other = malformed(20, Cause::OtherFormat);
        assert_eq!(rt; fault_of(alloc, &both)?, Some(other));
    }
    Ok(())
}

#[test]
fn damage_is_named_by_its_offset(rt: HostRuntime) -> Result<(), Fail> {
    let alloc = rt.alloc();
    let mut octets = frames(alloc, &[HEAD, NEW, "01 05 07"])?;
    if octets.len() > 70 {
        octets[70] ^= 1;
    }
    let damage = StoreFault::Damaged(Damage { offset: 62 });
    assert_eq!(rt; fault_of(alloc, &octets)?, Some(damage));
    Ok(())
}

#[test]
fn payloads_that_spell_nothing(rt: HostRuntime) -> Result<(), Fail> {
    let alloc = rt.alloc();
    // the payload of the header begins at octet 20, that of the snapshot at 82, the batches at 115 and 136
    let rows = [
        (
            ["00 01 01 03 07 00", NEW, "00", "00"],
            malformed(20, Cause::OtherFormat),
        ),
        (
            ["04 01 01 03 07 00", NEW, "00", "00"],
            malformed(20, Cause::OtherFormat),
        ),
        (
            ["03 02 01 03 07 00", NEW, "00", "00"],
            malformed(21, Cause::OtherRule),
        ),
        (
            ["03 01 01 03 07", NEW, "00", "00"],
            malformed(25, Cause::CutShort),
        ),
        (
            [HEAD, "02 00*11", "00", "00"],
            malformed(94, Cause::CutShort),
        ),
        // a batch of a move of the third account
        (
            [HEAD, NEW, "01 03 07 02 00 02 00", "00"],
            malformed(118, Cause::NoAccount),
        ),
        (
            [HEAD, NEW, "01 0a", "00"],
            malformed(116, Cause::UnknownTag),
        ),
        (
            [HEAD, NEW, "00", "01 0a"],
            malformed(137, Cause::UnknownTag),
        ),
        // a late sweep whose delay is 0
        (
            [HEAD, NEW, "01 09 07 00 02 00", "00"],
            malformed(120, Cause::OutOfRange),
        ),
    ];
    for (payloads, fault) in rows {
        let octets = frames(alloc, &payloads)?;
        assert_eq!(rt; fault_of(alloc, &octets)?, Some(fault));
    }
    Ok(())
}

/// That the table, which begins at this octet of the log, is another.
fn other_table(offset: usize) -> StoreFault {
    StoreFault::OtherTable { offset }
}

/// A generation of other accounts or clients, or of no table, is refused at its table: the one of
/// the configuration has to be there octet by octet.
#[test]
fn a_log_of_another_table_is_refused(rt: HostRuntime) -> Result<(), Fail> {
    let alloc = rt.alloc();
    for head in [
        // another name
        "03 01 01 03 07 00 02 01 61 01 01 3c fd0384 fd0384 fd0e10 0a 01 63 01 01 3c fd0384 fd0384 fd0e10 0a 01 c0a80110",
        // another order
        "03 01 01 03 07 00 02 01 62 01 01 3c fd0384 fd0384 fd0e10 0a 01 61 01 01 3c fd0384 fd0384 fd0e10 0a 01 c0a80110",
        // a place more
        "03 01 01 03 07 00 02 01 61 01 01 3c fd0384 fd0384 fd0e10 0a 01 62 02 01 3c fd0384 fd0384 fd0e10 0a 01 c0a80110",
        // a second less of the live time
        "03 01 01 03 07 00 02 01 61 01 01 3c fd0383 fd0384 fd0e10 0a 01 62 01 01 3c fd0384 fd0384 fd0e10 0a 01 c0a80110",
        // an account less, and one more
        "03 01 01 03 07 00 01 01 61 01 01 3c fd0384 fd0384 fd0e10 0a 01 c0a80110",
        "03 01 01 03 07 00 03 01 61 01 01 3c fd0384 fd0384 fd0e10 0a 01 62 01 01 3c fd0384 fd0384 fd0e10 0a \
        01 63 01 01 3c fd0384 fd0384 fd0e10 0a 01 c0a80110",
        // another client, and one more
        "03 01 01 03 07 00 02 01 61 01 01 3c fd0384 fd0384 fd0e10 0a 01 62 01 01 3c fd0384 fd0384 fd0e10 0a 01 c0a80111",
        "03 01 01 03 07 00 02 01 61 01 01 3c fd0384 fd0384 fd0e10 0a 01 62 01 01 3c fd0384 fd0384 fd0e10 0a \
        02 c0a80110 c0a80111",
        // an octet less, and one more
        "03 01 01 03 07 00 02 01 61 01 01 3c fd0384 fd0384 fd0e10 0a 01 62 01 01 3c fd0384 fd0384 fd0e10 0a 01 c0a801",
        "03 01 01 03 07 00 02 01 61 01 01 3c fd0384 fd0384 fd0e10 0a 01 62 01 01 3c fd0384 fd0384 fd0e10 0a 01 c0a80110 00",
        // no table
        "03 01 01 03 07 00",
    ] {
        let octets = frames(alloc, &[head, NEW])?;
        assert_eq!(rt; fault_of(alloc, &octets)?, Some(other_table(26)));
    }
    Ok(())
}

/// The table begins behind the header, however long that is. Its fault comes after those of the header,
/// and before those of the snapshot and the moves.
#[test]
fn another_table_is_found_at_its_octet(rt: HostRuntime) -> Result<(), Fail> {
    let alloc = rt.alloc();
    let rows = [
        (["03 01 fd0100 03 07 00", NEW, "00"], other_table(28)),
        (
            ["03 01 01 03 fe6553f100 fd03e8", NEW, "00"],
            other_table(32),
        ),
        (["03 01 01 03 07 00", "03 00*18", "00"], other_table(26)),
        (["03 01 01 03 07 00", "02 00*11", "00"], other_table(26)),
        (["03 01 01 03 07 00", NEW, "01 0a"], other_table(26)),
        (
            ["03 02 01 03 07 00", NEW, "00"],
            malformed(21, Cause::OtherRule),
        ),
    ];
    for (payloads, fault) in rows {
        let octets = frames(alloc, &payloads)?;
        assert_eq!(rt; fault_of(alloc, &octets)?, Some(fault));
    }
    Ok(())
}

/// Whatever the header says, the table behind it is the same.
#[test]
fn another_header_goes_with_the_same_table(rt: HostRuntime) -> Result<(), Fail> {
    let alloc = rt.alloc();
    let head = "03 01 fd0100 ff0000000100000000 00 fd03e8 \
02 01 61 01 01 3c fd0384 fd0384 fd0e10 0a 01 62 01 01 3c fd0384 fd0384 fd0e10 0a 01 c0a80110";
    let octets = frames(alloc, &[head, NEW, "01 05 07"])?;
    let opened = found(alloc, &octets)?;
    let header = Header {
        generation: 256,
        table: 4_294_967_296,
        boot: 0,
        lines: 1000,
    };
    assert!(rt; opened.header == header);
    assert!(rt; opened.store.header() == header);
    assert_eq!(rt; opened.moves, 1);
    Ok(())
}

/// The header and the table in the first payload, and where they are.
#[test]
fn a_front_has_the_header_and_the_table(rt: HostRuntime) -> Result<(), Fail> {
    let alloc = rt.alloc();
    let head = octets_of(alloc, HEAD)?;
    let snapshot = octets_of(alloc, NEW)?;
    let payloads = [head.as_slice(), snapshot.as_slice()];
    let parts = Parts::of(&payloads)?;
    assert_eq!(rt; parts.front.end, 62);
    assert_eq!(rt; parts.snapshot.begin(), 82);
    let front = parts.front.front()?;
    assert!(rt; front.header == HEADER);
    assert_eq!(rt; front.table.payload, &head[6..]);
    assert_eq!(rt; (front.table.begin(), front.table.end), (26, 62));
    Ok(())
}

#[test]
fn snapshots_of_other_accounts(rt: HostRuntime) -> Result<(), Fail> {
    let alloc = rt.alloc();
    let count = misfit(ServerFault::WrongCount);
    for (snapshot, fault) in [
        ("01 00*6", count),
        ("03 00*18", count),
        // the first account has one place, and two links at different access servers
        (
            "02 09 03 00 02 00 02 00 01 00 09 00 02 00 02 00 09 00 00 00*6",
            misfit(ServerFault::Misfit(RestoreFault::TooManyPlaces)),
        ),
    ] {
        let octets = frames(alloc, &[HEAD, snapshot])?;
        assert_eq!(rt; fault_of(alloc, &octets)?, Some(fault));
    }
    Ok(())
}

/// A generation begins in an empty log alone.
#[test]
fn a_log_that_has_something_is_occupied(rt: HostRuntime) -> Result<(), Fail> {
    let alloc = rt.alloc();
    let log = log_of(alloc, &[0], &[])?;
    match Store::begin(alloc, config(alloc)?, HEADER, log) {
        Ok(_) => return Err("begun")?,
        Err(refused) => {
            assert_eq!(rt; refused.fault, StoreFault::Occupied);
            assert_eq!(rt; refused.log.octets(), [0].as_slice());
        }
    }
    Ok(())
}
