use crate::opening::open;
use rld_log::*;
use std::alloc::Global;
use std::sync::atomic::{AtomicU64, Ordering};
use std::test::Fail;

/// A log that has nothing and counts its syncs.
#[derive(Drop)]
struct CountingLog<'a> {
    syncs: &'a AtomicU64,
}

impl Log for CountingLog<'_> {
    fn read(&mut self, alloc: Global) -> Result<Vec<u8>, LogFault> {
        Ok(Vec::new(alloc))
    }

    fn append(&mut self, octets: &[u8]) -> Result<(), LogFault> {
        if octets.is_empty() {
            return Err(LogFault::Unwritten);
        }
        Ok(())
    }

    fn cut(&mut self, _len: usize) -> Result<(), LogFault> {
        Ok(())
    }

    fn sync(&mut self) -> Result<(), LogFault> {
        self.syncs.fetch_add(1, Ordering::SeqCst);
        Ok(())
    }
}

/// What comes before a sync.
#[derive(Clone, Copy)]
enum Before {
    Nothing,
    Tick,
    Append,
    FailedAppend,
    Cut,
}

/// What comes before each sync of a log, and whether the sync then reaches the disk with `Second` and
/// with `Never`.
const SYNCS: [(Before, u64, u64); 12] = [
    (Before::Append, 1, 1),
    (Before::Append, 1, 0),
    (Before::Append, 0, 0),
    (Before::Tick, 1, 0),
    (Before::Append, 0, 0),
    (Before::FailedAppend, 1, 1),
    (Before::Append, 0, 0),
    (Before::Tick, 1, 0),
    (Before::Cut, 1, 1),
    (Before::Tick, 1, 0),
    (Before::Nothing, 0, 0),
    (Before::Append, 0, 0),
];

/// Does what comes before a sync, and syncs.
fn sync_after<L: Log>(log: &mut PacedLog<'_, L>, ticks: &Ticks, before: Before) -> bool {
    let _ = match before {
        Before::Nothing => Ok(()),
        Before::Tick => {
            ticks.begin();
            log.append(b"tick")
        }
        Before::Append => log.append(b"move"),
        Before::FailedAppend => log.append(b""),
        Before::Cut => log.cut(4),
    };
    log.sync().is_ok()
}

#[test]
fn syncs_reach_the_disk_as_the_pace_says(rt: HostRuntime) -> Result<(), Fail> {
    for pace in [Pace::Always, Pace::Second, Pace::Never] {
        let (ticks, syncs) = (Ticks::new(), AtomicU64::new(0));
        let mut log = PacedLog::new(
            CountingLog { syncs: &syncs },
            Pacing {
                pace,
                ticks: &ticks,
            },
        );
        for (before, second, never) in SYNCS {
            let reached = match pace {
                Pace::Always => 1,
                Pace::Second => second,
                Pace::Never => never,
            };
            let before_it = syncs.load(Ordering::SeqCst);
            assert!(rt; sync_after(&mut log, &ticks, before));
            assert_eq!(rt;
                syncs.load(Ordering::SeqCst).wrapping_sub(before_it),
                reached
            );
        }
    }
    Ok(())
}

/// What a log in memory has after a crash that followed four batches, each of which was synced, and a
/// fifth, which was not. A tick began before the batch with this index, if there is one.
fn left_of(
    alloc: Global,
    pace: Pace,
    tick: usize,
    ending: Ending,
    kept: usize,
) -> Result<Vec<u8>, Fail> {
    let life = Life {
        calls: u64::MAX,
        failing: 0,
        kept,
    };
    let ticks = Ticks::new();
    let memory = MemoryLog::new(alloc, Vec::new(alloc), [life].to_vec(alloc)?)?;
    let mut log = PacedLog::new(
        memory,
        Pacing {
            pace,
            ticks: &ticks,
        },
    );
    for (index, batch) in [b"ab", b"cd", b"ef", b"gh"].iter().enumerate() {
        if index == tick {
            ticks.begin();
        }
        log.append(batch.as_slice())?;
        log.sync()?;
    }
    log.append(b"ij")?;
    let mut memory = log.into_log();
    memory.restart(ending);
    Ok(memory.octets().to_vec(alloc)?)
}

/// A pace, the batch before which a tick begins, how many octets a loss of power keeps of those that
/// did not reach the disk, and what it leaves.
const LOSSES: [(Pace, usize, usize, &[u8]); 8] = [
    (Pace::Always, 2, 0, b"abcdefgh"),
    (Pace::Always, 2, 1, b"abcdefghi"),
    (Pace::Second, 4, 0, b"abcd"),
    (Pace::Second, 2, 0, b"abcdef"),
    (Pace::Second, 3, 0, b"abcdefgh"),
    (Pace::Second, 2, 3, b"abcdefghi"),
    (Pace::Never, 2, 0, b"ab"),
    (Pace::Never, 2, 3, b"abcde"),
];

#[test]
fn a_kill_loses_nothing_and_a_loss_of_power_what_the_pace_lets_it(
    rt: HostRuntime,
) -> Result<(), Fail> {
    let alloc = rt.alloc();
    for (pace, tick, kept, expected) in LOSSES {
        let left = left_of(alloc, pace, tick, Ending::PowerLoss, kept)?;
        assert_eq!(rt; left.as_slice(), expected);
        let left = left_of(alloc, pace, tick, Ending::Kill, kept)?;
        assert_eq!(rt; left.as_slice(), b"abcdefghij".as_slice());
    }
    Ok(())
}

/// A life that opens the log and records until a call fails: how many records were told.
fn live<L: Log>(alloc: Global, log: &mut L) -> u64 {
    if open(alloc, log).is_err() {
        return 0;
    }
    for told in 0..3 {
        if record(alloc, log, b"abc").is_err() {
            return told;
        }
    }
    3
}

/// How many records were told in a life in which all calls fail after the first `calls`, and how
/// many a kill leaves.
fn told_and_left(alloc: Global, pace: Pace, calls: u64) -> Result<(u64, usize), Fail> {
    let life = Life {
        calls,
        failing: u64::MAX,
        kept: 0,
    };
    let ticks = Ticks::new();
    let memory = MemoryLog::new(alloc, Vec::new(alloc), [life].to_vec(alloc)?)?;
    let mut log = PacedLog::new(
        memory,
        Pacing {
            pace,
            ticks: &ticks,
        },
    );
    let told = live(alloc, &mut log);
    let mut memory = log.into_log();
    memory.restart(Ending::Kill);
    let opened = open(alloc, &mut memory)?;
    Ok((told, opened.payloads(alloc)?.len()))
}

#[test]
fn a_kill_at_each_call_leaves_what_was_told(rt: HostRuntime) -> Result<(), Fail> {
    let alloc = rt.alloc();
    for calls in 0..10 {
        // three calls open the log; a record is an append, and a sync that may not reach the disk
        let after_open = calls.max(3) - 3;
        for (pace, expected) in [
            (Pace::Always, (after_open / 2).min(3)),
            (Pace::Second, (after_open.max(1) - 1).min(3)),
            (Pace::Never, after_open.min(3)),
        ] {
            let (told, left) = told_and_left(alloc, pace, calls)?;
            assert_eq!(rt; told, expected);
            assert!(rt; matches!((left as u64).checked_sub(told), Some(0 | 1)));
        }
    }
    Ok(())
}

/// Once a sync failed each call fails, whatever the pace.
#[test]
fn nothing_is_asked_after_a_sync_that_failed(rt: HostRuntime) -> Result<(), Fail> {
    let alloc = rt.alloc();
    for pace in [Pace::Always, Pace::Second, Pace::Never] {
        let life = Life {
            calls: 0,
            failing: 1,
            kept: 0,
        };
        let ticks = Ticks::new();
        let memory = MemoryLog::new(alloc, Vec::new(alloc), [life].to_vec(alloc)?)?;
        let mut log = PacedLog::new(
            memory,
            Pacing {
                pace,
                ticks: &ticks,
            },
        );
        assert_eq!(rt; log.sync(), Err(LogFault::Unsynced));
        assert!(rt; matches!(log.read(alloc), Err(LogFault::Unsynced)));
        assert_eq!(rt; log.append(b"ab"), Err(LogFault::Unsynced));
        assert_eq!(rt; log.cut(0), Err(LogFault::Unsynced));
        assert_eq!(rt; log.sync(), Err(LogFault::Unsynced));
    }
    Ok(())
}

/// A log whose writes fail so, as long as there is a fault.
#[derive(Drop)]
struct FailingLog {
    fault: Option<LogFault>,
}

impl Log for FailingLog {
    fn read(&mut self, alloc: Global) -> Result<Vec<u8>, LogFault> {
        Ok(Vec::new(alloc))
    }

    fn append(&mut self, _octets: &[u8]) -> Result<(), LogFault> {
        match self.fault {
            Some(fault) => Err(fault),
            None => Ok(()),
        }
    }

    fn cut(&mut self, _len: usize) -> Result<(), LogFault> {
        Ok(())
    }

    fn sync(&mut self) -> Result<(), LogFault> {
        Ok(())
    }
}

/// How a write ends, and whether room is wanted then.
const WRITES: [(Option<LogFault>, bool); 6] = [
    (None, false),
    (Some(LogFault::NoRoom), true),
    (Some(LogFault::Unwritten), false),
    (Some(LogFault::NoMemory), false),
    (Some(LogFault::Unsynced), false),
    (Some(LogFault::NoRoom), true),
];

#[test]
fn room_is_wanted_once_after_a_write_that_found_none(rt: HostRuntime) -> Result<(), Fail> {
    let ticks = Ticks::new();
    assert!(rt; !ticks.take_wants_room());
    for pace in [Pace::Always, Pace::Second, Pace::Never] {
        for (fault, wanted) in WRITES {
            let pacing = Pacing {
                pace,
                ticks: &ticks,
            };
            let mut log = PacedLog::new(FailingLog { fault }, pacing);
            assert_eq!(rt; log.append(b"ab").is_ok(), fault.is_none());
            assert_eq!(rt; ticks.take_wants_room(), wanted);
            assert!(rt; !ticks.take_wants_room());
        }
    }
    ticks.want_room();
    assert!(rt; ticks.take_wants_room());
    Ok(())
}
