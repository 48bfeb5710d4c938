//! Three lives over one log, of which the first two end at a call of the disk that fails, and torn
//! ends, beside one run of the same packets without a crash.

use crate::undisturbed::{Run, batch_len, batches_of, config_of, run_of};
use rld_lives::{Lived, Logs, Outcome, Plan, Step, lives};
use rld_log::{Ending, Life, MemoryLog};
use rld_spelling::Header;
use rld_store::{Opened, Store, read_frames};
use rsl_accounts::Config;
use rsl_shard::{Line, Row};
use std::alloc::Global;
use std::process::Abort;
use std::sync::Arc;
use std::test::Fail;

/// A life that answers all makes 33 calls of the disk: three open the log, and two record each of fifteen
/// batches. So from none to all of them succeed.
const CALLS: u64 = 34; // quick: 7

/// A generation begins with five calls of its log: a read, and two for each of a header and a snapshot.
const ROLL_CALLS: u64 = 5;

/// How many batches the moves of the run are in.
const BATCHES: usize = 15;

/// How many batches a life answers that ends in a roll, and how many moves these have.
const BEFORE_ROLL: (u64, usize) = (6, 12);

/// How many moves the log has over which the life after it went on, where this many calls of the next log
/// succeed: all 30 where it is the older one, and else those after the roll. After a kill the snapshot is
/// whole once it is written, and after a loss of power, which keeps nothing, once it is synced.
const AFTER_KILL: [usize; 6] = [30, 30, 30, 30, 18, 18];

const AFTER_POWER_LOSS: [usize; 6] = [30, 30, 30, 30, 30, 18];

/// How many octets a loss of power keeps of what was not synced.
const KEPT: [usize; 6] = [0, 1, 19, 20, 27, 1000];

/// The octets of the frame of the last batch: 20 of its head, one of a count, and 30, 12 and 2 of an ask,
/// an alive and a tick.
const LAST_FRAME: usize = 65;

/// A server whose lives have the moves of the run. Its account file has three shards, which count for
/// nothing.
#[derive(Drop)]
struct Server {
    config: Arc<Config>,
    run: Run,
    /// The octets of a log that has a generation of no moves yet.
    begun: Vec<u8>,
}

/// The header of the generation.
const HEADER: Header = Header {
    generation: 1,
    table: 1,
    boot: 7,
    lines: 0,
};

/// A log in memory with these octets, whose lives go so.
fn log_of(alloc: Global, octets: &[u8], lives: &[Life]) -> Result<MemoryLog, Fail> {
    Ok(MemoryLog::new(alloc, octets.to_vec(alloc)?, lives.to_vec(alloc)?)?)
}

/// The octets of a log that has a generation of no moves yet.
fn begun_of(alloc: Global, config: Arc<Config>) -> Result<Vec<u8>, Fail> {
    let log = begun(alloc, config)?;
    Ok(log.octets().to_vec(alloc)?)
}

fn begun(alloc: Global, config: Arc<Config>) -> Result<MemoryLog, Fail> {
    match Store::begin(alloc, config, HEADER, log_of(alloc, &[], &[])?) {
        Ok(store) => Ok(store.into_log()),
        Err(_) => Err("not begun")?,
    }
}

/// The batches of these lines, each to be answered.
fn steps_of(alloc: Global, lines: &[Line]) -> Result<Vec<Step>, Fail> {
    let mut steps = Vec::new(alloc);
    for batch in batches_of(alloc, lines)? {
        steps.push(Step::Batch(batch))?;
    }
    Ok(steps)
}

/// A plan of these steps.
fn plan_of(steps: Vec<Step>, last: Option<Header>, ending: Ending) -> Plan {
    Plan {
        steps,
        last,
        ending,
    }
}

/// How many moves are answered, where each decision is that of its line.
fn answered(lines: &[Line], outcomes: &[Outcome]) -> Result<usize, Fail> {
    let mut count: usize = 0;
    for outcome in outcomes {
        if let Ok(recorded) = outcome {
            for decision in recorded.decisions() {
                if lines.get(count).map(|line| line.decision) != Some(*decision) {
                    return Err("another decision")?;
                }
                count = count.saturating_add(1);
            }
        }
    }
    Ok(count)
}

/// How many batches are recorded.
fn recorded_of(outcomes: &[Outcome]) -> usize {
    outcomes.iter().filter(|outcome| outcome.is_ok()).count()
}

/// That a life, which had these lines to answer, answered as they say, and left `left` of their
/// moves in the log: those that it answered, with the batch after them or without.
fn check_life(lines: &[Line], outcomes: &[Outcome], left: usize) -> Result<(), Fail> {
    let done = answered(lines, outcomes)?;
    let next = done.saturating_add(batch_len(recorded_of(outcomes)));
    if left == done || left == next.min(lines.len()) {
        Ok(())
    } else {
        Err("an answer is lost")?
    }
}

/// What a life told of its batches: nothing where it did not begin.
fn told_by(lived: &Lived<MemoryLog>, index: usize) -> Result<&[Outcome], Fail> {
    match lived.told.get(index) {
        Some(Some(outcomes)) => Ok(outcomes.as_slice()),
        Some(None) => Ok(&[]),
        None => Err("a life that tells nothing")?,
    }
}

/// That a life told of the batch with this index that it was not recorded, and of each other one what
/// a life told that was not to answer that batch.
fn check_gone_on(told: &[Outcome], without: &[Outcome], index: usize) -> Result<(), Fail> {
    if told.get(index).map(|outcome| outcome.is_ok()) != Some(false) {
        return Err("a batch that was recorded")?;
    }
    let others = told[..index].iter().chain(told[index + 1..].iter());
    if told.len() != without.len() + 1 || !others.zip(without.iter()).all(are_same) {
        return Err("another outcome")?;
    }
    Ok(())
}

/// Whether two batches were recorded, with the same decisions.
fn are_same((one, other): (&Outcome, &Outcome)) -> bool {
    match (one, other) {
        (Ok(one), Ok(other)) => one.decisions() == other.decisions(),
        _ => false,
    }
}

/// Whether two batches came out alike: recorded, with the same decisions, or not recorded.
fn are_alike(pair: (&Outcome, &Outcome)) -> bool {
    are_same(pair) || matches!(pair, (Err(_), Err(_)))
}

/// Whether these are the rows of the run, in the order of the accounts.
fn are_same_rows(rows: &[Row], wanted: &[Row]) -> bool {
    rows == wanted
}

impl Server {
    fn new(alloc: Global) -> Result<Server, Fail> {
        let run = run_of(alloc)?;
        let config = config_of(alloc, "SHARDS = 3")?;
        let begun = begun_of(alloc, Arc::try_clone(&config)?)?;
        Ok(Server { config, run, begun })
    }

    /// The lines of the run from a position on.
    fn lines_from(&self, from: usize) -> &[Line] {
        &self.run.lines[self.run.lines.len().min(from)..]
    }

    /// How many moves a log has. Where it has all of them, what the accounts hold is what they hold
    /// after the run.
    fn moves_in(&self, alloc: Global, octets: &[u8]) -> Result<usize, Fail> {
        let mut log = log_of(alloc, octets, &[])?;
        let frames = read_frames(alloc, &mut log)?;
        match Store::open(alloc, Arc::try_clone(&self.config)?, log, &frames) {
            Ok(opened) => self.check_opened(alloc, &opened),
            Err(_) => Err("not opened")?,
        }
    }

    fn check_opened(&self, alloc: Global, opened: &Opened<MemoryLog>) -> Result<usize, Fail> {
        if opened.moves == self.run.lines.len()
            && !are_same_rows(&opened.store.rows(alloc)?, &self.run.rows)
        {
            return Err("other rows")?;
        }
        Ok(opened.moves)
    }

    /// Plans of lives that each go on with the lines from a position on.
    fn plans(&self, alloc: Global, froms: &[usize], ending: Ending) -> Result<Vec<Plan>, Fail> {
        let mut plans = Vec::new(alloc);
        for from in froms {
            let steps = steps_of(alloc, self.lines_from(*from))?;
            plans.push(plan_of(steps, None, ending))?;
        }
        Ok(plans)
    }

    /// What lives answer and leave that each go on with the lines from a position on, over a log with
    /// these octets, whose own lives go as is said.
    fn lived(
        &self,
        alloc: Global,
        octets: &[u8],
        short: &[Life],
        froms: &[usize],
        ending: Ending,
    ) -> Result<Lived<MemoryLog>, Fail> {
        self.lived_as(alloc, octets, short, self.plans(alloc, froms, ending)?)
    }

    /// What lives answer and leave that have these plans.
    fn lived_as(
        &self,
        alloc: Global,
        octets: &[u8],
        short: &[Life],
        plans: Vec<Plan>,
    ) -> Result<Lived<MemoryLog>, Fail> {
        let newest = log_of(alloc, octets, short)?;
        let logs = Logs {
            older: None,
            newest,
        };
        match lives(alloc, &self.config, logs, plans) {
            Ok(lived) => Ok(lived),
            Err(_) => Err("no memory")?,
        }
    }

    /// What a life answers and leaves that has all batches to answer but this one.
    fn lived_without(&self, alloc: Global, index: usize) -> Result<Lived<MemoryLog>, Fail> {
        let mut steps = steps_of(alloc, &self.run.lines)?;
        let _left_out = steps.remove(index);
        self.lived_once(alloc, &[], steps)
    }

    /// What a life answers and leaves that has these steps, over a log whose own lives go as is said.
    fn lived_once(
        &self,
        alloc: Global,
        short: &[Life],
        steps: Vec<Step>,
    ) -> Result<Lived<MemoryLog>, Fail> {
        let mut plans = Vec::new(alloc);
        plans.push(plan_of(steps, None, Ending::Kill))?;
        self.lived_as(alloc, &self.begun, short, plans)
    }

    /// What a life answers and leaves that goes on in a next generation before the batch with this index.
    fn lived_rolling(
        &self,
        alloc: Global,
        index: usize,
        short: &[Life],
    ) -> Result<Lived<MemoryLog>, Fail> {
        let mut steps = steps_of(alloc, &self.run.lines)?;
        steps.insert(index, Step::Roll(HEADER))?;
        self.lived_once(alloc, short, steps)
    }

    /// What two lives answer and leave, of which the first ends in a roll after this many calls of the next
    /// log, and the second goes on with the moves from there.
    fn lived_through_roll(
        &self,
        alloc: Global,
        calls: u64,
        ending: Ending,
    ) -> Result<Lived<MemoryLog>, Fail> {
        let (batches, moves) = BEFORE_ROLL;
        let mut plans = Vec::new(alloc);
        let first = steps_of(alloc, &self.run.lines[..moves.min(self.run.lines.len())])?;
        plans.push(plan_of(first, Some(HEADER), ending))?;
        plans.push(plan_of(steps_of(alloc, self.lines_from(moves))?, None, ending))?;
        self.lived_as(
            alloc,
            &self.begun,
            &[short(3 + 2 * batches + calls, 0)],
            plans,
        )
    }

    /// That two such lives answered all moves of the run, and left one log: how many moves it has.
    fn moves_after_roll(&self, alloc: Global, lived: &Lived<MemoryLog>) -> Result<usize, Fail> {
        let (_, moves) = BEFORE_ROLL;
        let first = answered(&self.run.lines, told_by(lived, 0)?)?;
        let second = answered(self.lines_from(moves), told_by(lived, 1)?)?;
        let gone = lived.gone.iter().filter(|other| other.is_some()).count();
        if (first, second, gone) != (moves, 30 - moves, 1) || lived.logs.older.is_some() {
            return Err("another life")?;
        }
        self.moves_of_last(alloc, lived.logs.newest.octets())
    }

    /// That a log has the books after the run, and how many moves its generation has.
    fn moves_of_last(&self, alloc: Global, octets: &[u8]) -> Result<usize, Fail> {
        let mut log = log_of(alloc, octets, &[])?;
        let frames = read_frames(alloc, &mut log)?;
        match Store::open(alloc, Arc::try_clone(&self.config)?, log, &frames) {
            Ok(opened) if are_same_rows(&opened.store.rows(alloc)?, &self.run.rows) => Ok(
                opened.moves,
            ),
            Ok(_) => Err("other rows")?,
            Err(_) => Err("not opened")?,
        }
    }

    /// That each of such lives answered as the run did, and left what it answered in the log, with the
    /// batch after it or without: where the next life goes on.
    fn check_lived(
        &self,
        alloc: Global,
        lived: &Lived<MemoryLog>,
        froms: &[usize],
    ) -> Result<usize, Fail> {
        let stands = self.moves_in(alloc, lived.logs.newest.octets())?;
        for index in 0..froms.len() {
            let from = *froms.get(index).unwrap_or(&stands);
            let next = *froms.get(index.saturating_add(1)).unwrap_or(&stands);
            let told = told_by(lived, index)?;
            check_life(self.lines_from(from), told, next.saturating_sub(from))?;
        }
        Ok(stands)
    }

    /// Has such lives checked: where the next life goes on.
    fn live(
        &self,
        alloc: Global,
        octets: &[u8],
        short: &[Life],
        froms: &[usize],
        ending: Ending,
    ) -> Result<usize, Fail> {
        let lived = self.lived(alloc, octets, short, froms, ending)?;
        self.check_lived(alloc, &lived, froms)
    }

    /// How many batches a life answers whose log goes so.
    fn answered_with(&self, alloc: Global, short: Life) -> Result<u64, Fail> {
        let lived = self.lived(alloc, &self.begun, &[short], &[0], Ending::Kill)?;
        Ok(recorded_of(told_by(&lived, 0)?) as u64)
    }

    /// Three lives over the moves of the run, each from where the log of the one before it stands; the
    /// first two go as is said. The position at which all of them end is given.
    fn live_three_times(&self, alloc: Global, short: Life, ending: Ending) -> Result<usize, Fail> {
        let two = [short, short];
        let first = self.live(alloc, &self.begun, &two, &[0], ending)?;
        let second = self.live(alloc, &self.begun, &two, &[0, first], ending)?;
        self.live(alloc, &self.begun, &two, &[0, first, second], ending)
    }
}

/// A life of a log that fails after `calls` calls.
fn short(calls: u64, kept: usize) -> Life {
    Life {
        calls,
        failing: u64::MAX,
        kept,
    }
}

/// Each call of the disk fails in turn, in the first life and in the second, with all after it. A loss
/// of power keeps different parts of what was not synced.
#[test]
fn a_crash_at_each_call_loses_nothing(rt: HostRuntime) -> Result<(), Fail> {
    let server = Server::new(rt.alloc())?;
    assert_eq!(rt; server.run.lines.len(), 30);
    crash_at_each_call(&rt, &server)
}

fn crash_at_each_call<R: Abort + AllocGlobal>(rt: &R, server: &Server) -> Result<(), Fail> {
    for calls in 0..CALLS {
        for kept in KEPT {
            let end = server.live_three_times(rt.alloc(), short(calls, kept), Ending::PowerLoss)?;
            assert_eq!(rt; end, 30);
        }
        let end = server.live_three_times(rt.alloc(), short(calls, 0), Ending::Kill)?;
        assert_eq!(rt; end, 30);
    }
    Ok(())
}

/// A life answers until a call fails: three calls open the log, and two record a batch.
#[test]
fn a_life_answers_until_a_call_fails(rt: HostRuntime) -> Result<(), Fail> {
    let server = Server::new(rt.alloc())?;
    fail_each_call(&rt, &server)
}

fn fail_each_call<R: Abort + AllocGlobal>(rt: &R, server: &Server) -> Result<(), Fail> {
    for calls in 0..CALLS {
        let answered = server.answered_with(rt.alloc(), short(calls, 0))?;
        assert_eq!(rt; answered, calls.saturating_sub(3) / 2);
    }
    Ok(())
}

/// The append of each batch but the last fails in turn, and no call after it: the life goes on, and
/// answers and leaves what one does that was never to answer that batch.
#[test]
fn a_life_goes_on_after_an_append_that_failed(rt: HostRuntime) -> Result<(), Fail> {
    let server = Server::new(rt.alloc())?;
    fail_each_append(&rt, &server)
}

fn fail_each_append<R: Abort + AllocGlobal>(rt: &R, server: &Server) -> Result<(), Fail> {
    let alloc = rt.alloc();
    for index in 0..BATCHES - 1 {
        let once = Life {
            calls: 3 + 2 * index as u64,
            failing: 1,
            kept: 0,
        };
        let lived = server.lived(alloc, &server.begun, &[once], &[0], Ending::Kill)?;
        let without = server.lived_without(alloc, index)?;
        check_gone_on(told_by(&lived, 0)?, told_by(&without, 0)?, index)?;
        assert!(rt; lived.logs.newest.octets() == without.logs.newest.octets());
    }
    Ok(())
}

/// A life that goes on in a next generation before one of its batches answers as the run does. The log that
/// it leaves begins with the books that there were, and has the batches from that one on.
#[test]
fn a_life_goes_on_in_a_next_generation(rt: HostRuntime) -> Result<(), Fail> {
    let server = Server::new(rt.alloc())?;
    roll_before_each_batch(&rt, &server)
}

fn roll_before_each_batch<R: Abort + AllocGlobal>(rt: &R, server: &Server) -> Result<(), Fail> {
    let alloc = rt.alloc();
    let mut left: usize = 30;
    for index in 0..BATCHES {
        let lived = server.lived_rolling(alloc, index, &[])?;
        assert_eq!(rt; answered(&server.run.lines, told_by(&lived, 0)?)?, 30);
        assert_eq!(rt;
            server.moves_of_last(alloc, lived.logs.newest.octets())?,
            left
        );
        left = left.saturating_sub(batch_len(index));
    }
    Ok(())
}

/// Each call of the next log fails in turn, and no call after it: the life tells and leaves what one does
/// that was not to go on in a next generation.
#[test]
fn a_life_goes_on_where_no_generation_begins(rt: HostRuntime) -> Result<(), Fail> {
    let server = Server::new(rt.alloc())?;
    fail_to_roll(&rt, &server)
}

fn fail_to_roll<R: Abort + AllocGlobal>(rt: &R, server: &Server) -> Result<(), Fail> {
    let alloc = rt.alloc();
    for calls in 0..ROLL_CALLS {
        let once = Life {
            calls: 3 + calls,
            failing: 1,
            kept: 0,
        };
        let lived = server.lived_rolling(alloc, 0, &[once])?;
        let still = server.lived(alloc, &server.begun, &[once], &[0], Ending::Kill)?;
        let (told, wanted) = (told_by(&lived, 0)?, told_by(&still, 0)?);
        assert!(rt; told.len() == wanted.len() && told.iter().zip(wanted.iter()).all(are_alike));
        assert!(rt; lived.logs.newest.octets() == still.logs.newest.octets());
    }
    Ok(())
}

/// Each call of the next log fails in turn, with all after it, in a roll in which a life ends. The next life
/// goes on over the log that counts.
#[test]
fn a_life_ends_within_a_roll(rt: HostRuntime) -> Result<(), Fail> {
    let server = Server::new(rt.alloc())?;
    end_within_a_roll(&rt, &server, Ending::Kill, &AFTER_KILL)?;
    end_within_a_roll(&rt, &server, Ending::PowerLoss, &AFTER_POWER_LOSS)
}

fn end_within_a_roll<R: Abort + AllocGlobal>(
    rt: &R,
    server: &Server,
    ending: Ending,
    wanted: &[usize],
) -> Result<(), Fail> {
    let alloc = rt.alloc();
    let mut calls: u64 = 0;
    for moves in wanted {
        let lived = server.lived_through_roll(alloc, calls, ending)?;
        assert_eq!(rt; server.moves_after_roll(alloc, &lived)?, *moves);
        calls = calls.saturating_add(1);
    }
    Ok(())
}

/// The frame of the last batch is cut to each of its lengths: the next life finds all moves before it,
/// and goes on from there.
#[test]
fn a_torn_end_of_each_length_is_made_good(rt: HostRuntime) -> Result<(), Fail> {
    let alloc = rt.alloc();
    let server = Server::new(alloc)?;
    let whole = server.lived(alloc, &server.begun, &[], &[0], Ending::Kill)?;
    tear(&rt, &server, whole.logs.newest.octets())
}

fn tear<R: Abort + AllocGlobal>(rt: &R, server: &Server, octets: &[u8]) -> Result<(), Fail> {
    let alloc = rt.alloc();
    for len in octets.len().saturating_sub(LAST_FRAME)..octets.len() {
        let torn = &octets[..len];
        assert_eq!(rt; server.moves_in(alloc, torn)?, 27);
        let end = server.live(alloc, torn, &[], &[27], Ending::Kill)?;
        assert_eq!(rt; end, 30);
    }
    Ok(())
}
