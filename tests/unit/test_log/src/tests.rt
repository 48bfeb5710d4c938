use crate::opening::open;
use crate::problem::Problem;
use rld_log::*;
use std::alloc::Global;
use std::test::Fail;

/// The frame of `abc`, whose digest is that of RFC 1321.
const ABC: [u8; 23] =
    *b"\x00\x00\x00\x03\x90\x01\x50\x98\x3c\xd2\x4f\xb0\xd6\x96\x3f\x7d\x28\xe1\x7f\x72abc";

/// The frame of no octets, with the digest of RFC 1321.
const NONE: [u8; 20] =
    *b"\x00\x00\x00\x00\xd4\x1d\x8c\xd9\x8f\x00\xb2\x04\xe9\x80\x09\x98\xec\xf8\x42\x7e";

/// Octets, one after another.
fn joined(alloc: Global, parts: &[&[u8]]) -> Result<Vec<u8>, Fail> {
    let mut octets = Vec::new(alloc);
    for part in parts {
        octets.extend_from_slice(part)?;
    }
    Ok(octets)
}

/// A log in memory with these octets, whose lives go so.
fn log_of(alloc: Global, octets: &[u8], lives: &[Life]) -> Result<MemoryLog, Fail> {
    Ok(MemoryLog::new(alloc, octets.to_vec(alloc)?, lives.to_vec(alloc)?)?)
}

#[test]
fn frames_are_those_of_the_rfc_s_digests(rt: HostRuntime) -> Result<(), Fail> {
    let alloc = rt.alloc();
    assert_eq!(rt; frame_of(alloc, b"abc")?.as_slice(), ABC.as_slice());
    assert_eq!(rt; frame_of(alloc, b"")?.as_slice(), NONE.as_slice());
    let file = joined(alloc, &[&ABC, &NONE, &ABC[..22]])?;
    let frames = Frames::of(file)?;
    let found = frames.payloads(alloc)?;
    assert_eq!(rt;
        found.as_slice(),
        [b"abc".as_slice(), b"".as_slice()].as_slice()
    );
    assert_eq!(rt; frames.whole(), 43);
    Ok(())
}

#[test]
fn damage_is_named_by_its_offset(rt: HostRuntime) -> Result<(), Fail> {
    let alloc = rt.alloc();
    for index in 4..23 {
        let mut spoilt = ABC;
        spoilt[index] ^= 1;
        let file = joined(alloc, &[&ABC, &spoilt, &spoilt, &NONE])?;
        let mut log = log_of(alloc, &file, &[])?;
        let opened = open(alloc, &mut log);
        assert!(rt; matches!(opened, Err(Problem::Damaged(Damage { offset: 23 }))));
        assert_eq!(rt; log.octets(), file.as_slice());
        // at the end it looks torn
        let file = joined(alloc, &[&ABC, &spoilt])?;
        assert_eq!(rt; Frames::of(file)?.whole(), 23);
    }
    Ok(())
}

#[test]
fn a_torn_end_is_cut_and_told(rt: HostRuntime) -> Result<(), Fail> {
    let alloc = rt.alloc();
    for len in 0..23 {
        let mut log = log_of(alloc, &joined(alloc, &[&ABC, &ABC[..len]])?, &[])?;
        let opened = open(alloc, &mut log)?;
        assert_eq!(rt; opened.torn().len(), len);
        assert_eq!(rt; log.octets(), ABC.as_slice());
        record(alloc, &mut log, b"")?;
        assert_eq!(rt; log.octets(), joined(alloc, &[&ABC, &NONE])?.as_slice());
    }
    Ok(())
}

/// A life that opens the log and records `abc` until a call fails: how many times that was told.
fn live(alloc: Global, log: &mut MemoryLog) -> usize {
    if open(alloc, log).is_err() {
        return 0;
    }
    for told in 0..3 {
        if record(alloc, log, b"abc").is_err() {
            return told;
        }
    }
    3
}

/// Each call of the second of three lives fails in turn, with all after it, and a crash follows
/// that keeps each number of octets.
#[test]
fn what_was_told_is_found_after_each_crash(rt: HostRuntime) -> Result<(), Fail> {
    let alloc = rt.alloc();
    for calls in 0..10 {
        for kept in [0, 1, 11, 22, 23, 24, 1000] {
            for ending in [Ending::Kill, Ending::PowerLoss] {
                let whole = Life {
                    calls: 9,
                    failing: 0,
                    kept: 0,
                };
                let short = Life {
                    calls,
                    failing: u64::MAX,
                    kept,
                };
                let mut log = log_of(alloc, &[], &[whole, short, whole])?;
                assert_eq!(rt; live(alloc, &mut log), 3);
                log.restart(Ending::PowerLoss);
                let told = live(alloc, &mut log).saturating_add(3);
                log.restart(ending);
                let opened = open(alloc, &mut log)?;
                let found = opened.payloads(alloc)?.len();
                assert!(rt; matches!(found.checked_sub(told), Some(0 | 1)));
                // a call of three that open the log, then two that record
                assert_eq!(rt; told as u64, 3 + (calls.max(3) - 3).min(6) / 2);
            }
        }
    }
    Ok(())
}

/// A record that fails is mended, and the next one stands in its place.
#[test]
fn a_torn_write_is_mended(rt: HostRuntime) -> Result<(), Fail> {
    let alloc = rt.alloc();
    let life = Life {
        calls: 3,
        failing: 1,
        kept: 0,
    };
    let mut log = log_of(alloc, &ABC, &[life])?;
    open(alloc, &mut log)?;
    assert_eq!(rt; record(alloc, &mut log, b"abc"), Err(LogFault::Unwritten));
    assert_eq!(rt; log.octets().len(), 34);
    mend(&mut log, 23)?;
    assert_eq!(rt; log.octets(), ABC.as_slice());
    write(alloc, &mut log, b"")?;
    log.restart(Ending::Kill);
    assert_eq!(rt; log.octets(), joined(alloc, &[&ABC, &NONE])?.as_slice());
    write(alloc, &mut log, b"")?;
    log.restart(Ending::PowerLoss);
    assert_eq!(rt; log.octets(), joined(alloc, &[&ABC, &NONE])?.as_slice());
    Ok(())
}
