//! Services that threads use at once.

use crate::lives::told_audits;
use crate::packets::{SOURCE, ask, config_of};
use rsl_accounts::Config;
use rsl_event::{Port, Said};
use rsl_service::{Blanks, Gate, Open, Pass, Service, Tally};
use rsl_shard::Segment;
use std::alloc::Global;
use std::marker::Brand;
use std::sync::Wait;
use std::sync::atomic::{AtomicU64, Ordering};
use std::test::Fail;
use std::thread;
use std::thread::Threads;
use test_rows::printed;

/// The most turns of a wait.
const MOST_TURNS: u64 = 100_000_000;

/// What two callers tell each other, each 0 and then 1.
#[derive(Drop)]
struct Flags {
    /// The gate holds the first call.
    held: AtomicU64,
    /// The second call was answered.
    answered: AtomicU64,
    /// A wait reached its limit.
    late: AtomicU64,
}

/// A gate that holds each call at shard 0 until a call was answered, or for `MOST_TURNS` turns.
#[derive(Drop)]
struct Holding<'a> {
    flags: &'a Flags,
}

impl Gate for Holding<'_> {
    fn at(&self, shard: u32) {
        if shard == 0 {
            self.flags.held.store(1, Ordering::SeqCst);
            await_flag(&self.flags.answered, &self.flags.late);
        }
    }
}

/// Waits for a flag, and notes where it was not set in time.
fn await_flag(flag: &AtomicU64, late: &AtomicU64) {
    for _ in 0..MOST_TURNS {
        if flag.load(Ordering::SeqCst) == 1 {
            return;
        }
    }
    late.store(1, Ordering::SeqCst);
}

/// The word of the answer to a datagram at this moment, if there is one.
fn asked<L0: Tally, L1: Tally, L2: Tally, L3: Tally, G: Gate, R: Wait>(
    rt: &R,
    alloc: Global,
    service: &Service<L0, L1, L2, L3, G>,
    pass: &mut Pass<L0, L1, L2, L3>,
    moment: u64,
    octets: &[u8],
) -> Option<Said> {
    match service.prepare(alloc, Port::Auth, SOURCE, octets) {
        Ok(prepared) => match service.apply(rt, alloc, pass, moment, prepared) {
            Ok(answered) => Some(answered.said),
            Err(_) => None,
        },
        Err(_) => None,
    }
}

/// What two callers are answered, over ledgers of their own.
fn two_of<R: Threads + Wait + Sync>(
    rt: &R,
    alloc: Global,
    config: Config,
    flags: &Flags,
) -> Result<(Option<Said>, Option<Said>), Fail> {
    two_at_once::<Brand, Brand, Brand, Brand, R>(rt, alloc, Blanks::new(), config, flags)
}

/// Asks for `a`, held by the gate until an ask for `b` was answered, which begins only then.
fn two_at_once<
    L0: Tally + Sync,
    L1: Tally + Sync,
    L2: Tally + Sync,
    L3: Tally + Sync,
    R: Threads + Wait + Sync,
>(
    rt: &R,
    alloc: Global,
    blanks: Blanks,
    config: Config,
    flags: &Flags,
) -> Result<(Option<Said>, Option<Said>), Fail> {
    let ask_a = ask(alloc, "a", 0, &[0; 16])?;
    let ask_b = ask(alloc, "b", 0, &[0; 16])?;
    let gate = Holding { flags };
    let service: Service<L0, L1, L2, L3, Holding<'_>> = Service::new(
        alloc, blanks, config, 1, gate,
    )?;
    let shared = &service;
    let (Ok(mut first), Ok(mut second)) = (shared.open_pass(rt, alloc), shared.open_pass(rt, alloc))
    else {
        return Err("no pass")?;
    };
    Ok(thread::join(
        rt,
        || asked(rt, alloc, shared, &mut first, 0, &ask_a),
        || {
            await_flag(&flags.held, &flags.late);
            let said = asked(rt, alloc, shared, &mut second, 0, &ask_b);
            flags.answered.store(1, Ordering::SeqCst);
            said
        },
    ))
}

#[test]
fn a_held_shard_holds_no_other(rt: HostRuntime) -> Result<(), Fail> {
    let alloc = rt.alloc();
    let config = config_of(alloc, "2", "1")?;
    let flags = Flags {
        held: AtomicU64::new(0),
        answered: AtomicU64::new(0),
        late: AtomicU64::new(0),
    };
    let said = two_of(&rt, alloc, config, &flags)?;
    assert_eq!(rt; said, (Some(Said::Accept(0)), Some(Said::Accept(0))));
    assert_eq!(rt; flags.late.load(Ordering::SeqCst), 0);
    Ok(())
}

/// The names of the accounts.
const NAMES: [&str; 4] = ["a", "b", "c", "d"];

/// `many` asks, over the accounts in turn. No two are of one Request Authenticator.
fn asks(alloc: Global, many: u64) -> Result<Vec<Vec<u8>>, Fail> {
    let mut asks = Vec::new(alloc);
    for number in 0..many {
        let mut authenticator = [0; 16];
        authenticator[..8].copy_from_slice(&number.to_be_bytes());
        let name = NAMES[(number % 4) as usize];
        asks.push(ask(alloc, name, (number % 256) as u8, &authenticator)?)?;
    }
    Ok(asks)
}

/// A caller's part: all asks, a hundred at each moment. Its pass, unless a call failed.
fn worked<L0: Tally, L1: Tally, L2: Tally, L3: Tally, R: Wait>(
    rt: &R,
    alloc: Global,
    service: &Service<L0, L1, L2, L3, Open>,
    mut pass: Pass<L0, L1, L2, L3>,
    asks: &[Vec<u8>],
) -> Option<Pass<L0, L1, L2, L3>> {
    for number in 0..asks.len() {
        let moment = (number / 100) as u64;
        asked(rt, alloc, service, &mut pass, moment, &asks[number])?;
    }
    Some(pass)
}

/// Cuts the shards in turn, `times` times in all, unless that fails.
fn cuts<L0: Tally, L1: Tally, L2: Tally, L3: Tally, R: Wait>(
    rt: &R,
    alloc: Global,
    service: &Service<L0, L1, L2, L3, Open>,
    times: u64,
) -> Option<Vec<Segment>> {
    let mut segments = Vec::new(alloc);
    for number in 0..times {
        let segment = service.cut(rt, alloc, (number % 4) as u32).ok()?;
        segments.push(segment).ok()?;
    }
    Some(segments)
}

/// The calls of each of eight callers, while a ninth cuts.
const CALLS: u64 = 20_000; // quick: 1_000

/// The same where none does.
const CALLS_UNCUT: u64 = 2_500; // quick: 250

/// Whether a crowd's service then has a line for each call and no others, and the audit of each of
/// its four shards.
const CROWD: &str = "(true, \"Ok(())Ok(())Ok(())Ok(())\")";

/// Eight callers on four shards, each with `calls` asks, and one that cuts `times` times: whether
/// there are as many lines as asks, and the audit of each shard. The audit answers `Ok` only where
/// each account's decisions are those of `decide` over its own events, in the order of the journal.
fn crowd_of<R: Threads + Wait + Sync>(
    rt: &R,
    alloc: Global,
    config: Config,
    calls: u64,
    times: u64,
) -> Result<String, Fail> {
    crowd::<Brand, Brand, Brand, Brand, R>(rt, alloc, Blanks::new(), config, calls, times)
}

/// What a crowd's service comes to.
fn crowd<
    L0: Tally + Sync + Send,
    L1: Tally + Sync + Send,
    L2: Tally + Sync + Send,
    L3: Tally + Sync + Send,
    R: Threads + Wait + Sync,
>(
    rt: &R,
    alloc: Global,
    blanks: Blanks,
    config: Config,
    calls: u64,
    times: u64,
) -> Result<String, Fail> {
    let service: Service<L0, L1, L2, L3, Open> = Service::new(alloc, blanks, config, 1, Open)?;
    let (passes, segments) = at_work(rt, alloc, &service, calls, times)?;
    told_closed(alloc, service, passes, segments, calls.saturating_mul(8))
}

/// Has eight callers and one that cuts do all that they do. Gives their passes and what was cut.
fn at_work<
    L0: Tally + Sync + Send,
    L1: Tally + Sync + Send,
    L2: Tally + Sync + Send,
    L3: Tally + Sync + Send,
    R: Threads + Wait + Sync,
>(
    rt: &R,
    alloc: Global,
    service: &Service<L0, L1, L2, L3, Open>,
    calls: u64,
    times: u64,
) -> Result<(Vec<Pass<L0, L1, L2, L3>>, Vec<Segment>), Fail> {
    let asks = asks(alloc, calls)?;
    let passes = opened(rt, alloc, service)?;
    called(rt, alloc, service, passes, &asks, times)
}

/// Has callers with these passes make the asks, while one cuts.
fn called<
    L0: Tally + Sync + Send,
    L1: Tally + Sync + Send,
    L2: Tally + Sync + Send,
    L3: Tally + Sync + Send,
    R: Threads + Wait + Sync,
>(
    rt: &R,
    alloc: Global,
    service: &Service<L0, L1, L2, L3, Open>,
    passes: Vec<Pass<L0, L1, L2, L3>>,
    asks: &[Vec<u8>],
    times: u64,
) -> Result<(Vec<Pass<L0, L1, L2, L3>>, Vec<Segment>), Fail> {
    let (passes, segments) = thread::join(
        rt,
        || thread::map_vec(rt, passes, &|pass| worked(rt, alloc, service, pass, asks)),
        || cuts(rt, alloc, service, times),
    );
    let Some(segments) = segments else {
        return Err("a cut failed")?;
    };
    Ok((given(alloc, passes?)?, segments))
}

/// A pass for each of eight callers.
fn opened<L0: Tally, L1: Tally, L2: Tally, L3: Tally, R: Wait>(
    rt: &R,
    alloc: Global,
    service: &Service<L0, L1, L2, L3, Open>,
) -> Result<Vec<Pass<L0, L1, L2, L3>>, Fail> {
    let mut passes = Vec::new(alloc);
    for _ in 0..8 {
        match service.open_pass(rt, alloc) {
            Ok(pass) => passes.push(pass)?,
            Err(_) => return Err("no pass")?,
        }
    }
    Ok(passes)
}

/// The passes of callers, unless a call failed.
fn given<L0: Tally, L1: Tally, L2: Tally, L3: Tally>(
    alloc: Global,
    passes: Vec<Option<Pass<L0, L1, L2, L3>>>,
) -> Result<Vec<Pass<L0, L1, L2, L3>>, Fail> {
    let mut given = Vec::new(alloc);
    for pass in passes {
        match pass {
            Some(pass) => given.push(pass)?,
            None => return Err("a call failed")?,
        }
    }
    Ok(given)
}

/// Whether a service has as many lines as there were asks, and the audit of each shard.
fn told_closed<L0: Tally, L1: Tally, L2: Tally, L3: Tally>(
    alloc: Global,
    service: Service<L0, L1, L2, L3, Open>,
    passes: Vec<Pass<L0, L1, L2, L3>>,
    segments: Vec<Segment>,
    asks: u64,
) -> Result<String, Fail> {
    let closed = match service.close(alloc, passes, segments) {
        Ok(closed) => closed,
        Err(fault) => return printed(alloc, &fault),
    };
    told_lines(alloc, closed.segments(), asks)
}

/// Whether these segments have as many lines as asks, and the audit of each shard.
fn told_lines(alloc: Global, segments: &[Segment], asks: u64) -> Result<String, Fail> {
    let config = config_of(alloc, "4", "3")?;
    let mut lines = 0u64;
    for segment in segments {
        lines = lines.saturating_add(segment.lines.len() as u64);
    }
    let audits = told_audits(alloc, &config, segments)?;
    printed(alloc, &(lines == asks, audits.as_str()))
}

#[test]
fn eight_callers_at_once(rt: HostRuntime) -> Result<(), Fail> {
    let config = config_of(rt.alloc(), "4", "3")?;
    let found = crowd_of(&rt, rt.alloc(), config, CALLS_UNCUT, 0)?;
    assert_eq!(rt; found.as_str(), CROWD);
    Ok(())
}

#[test]
fn eight_callers_while_a_ninth_cuts(rt: HostRuntime) -> Result<(), Fail> {
    let config = config_of(rt.alloc(), "4", "3")?;
    let found = crowd_of(&rt, rt.alloc(), config, CALLS, 40)?;
    assert_eq!(rt; found.as_str(), CROWD);
    Ok(())
}
