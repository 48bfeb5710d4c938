//! What a receiver and then a worker that makes ticks make of a service.
//!
//! A row has a name, the number of shards, the port, the receiver's turns, what comes, the numbers
//! of the sends that fail, the clock's first moment and its step, and the worker's turns with the
//! number of pauses after which there is a turn more.
//!
//! It tells the counts: turns, received, answered, dropped, refused and unsent, after `Down` where
//! the port failed. Then what the port counts: datagrams taken, receives and how many of them failed,
//! sends and how many of them failed, and sends that went astray. Then what was handed to be sent,
//! and to which port; the places that the account holds; in how many turns the worker made a tick;
//! what the account then holds; and each line of the closed service's journals, as shard, moment and
//! decision.

use crate::datagrams::{coming_of, push_sent};
use crate::workers::{Pauses, Steady};
use rsl_accounts::Config;
use rsl_event::Port;
use rsl_service::{
    Blanks, Counts, MemoryPort, Open, Pass, ReceiveFault, Service, Tally, expire_loop, receive,
};
use rsl_shard::{Move, Segment};
use std::alloc::Global;
use std::marker::Brand;
use std::sync::Wait;
use std::test::Fail;
use test_rows::{Plain, Subject, check_rows, number, numbers_of, push_printed};
use test_timelines::config_of;

/// The days of rows.
#[derive(Clone, Copy)]
struct Days<'a, R> {
    rt: &'a R,
}

impl<R: Wait> Subject for Days<'_, R> {
    fn found(&self, alloc: Global, fields: &[&str]) -> Result<String, Fail> {
        let [shards, port, turns, coming, failing, clock, worker] = fields else {
            return Err("a row with other fields")?;
        };
        let day = Day {
            port,
            turns,
            coming,
            failing,
            clock,
            worker,
        };
        day_of(self.rt, alloc, config_of(alloc, shards)?, day)
    }
}

/// What a row says of a day.
#[derive(Clone, Copy)]
struct Day<'a> {
    port: &'a str,
    turns: &'a str,
    coming: &'a str,
    failing: &'a str,
    clock: &'a str,
    worker: &'a str,
}

/// Two numbers.
fn pair_of(text: &str) -> Result<(u64, u64), Fail> {
    let Some((one, other)) = text.split_once(' ') else {
        return Err("one number in place of two")?;
    };
    Ok((number(one)?, number(other)?))
}

/// The port of a word.
pub(crate) fn port_of(word: &str) -> Result<Port, Fail> {
    match word {
        "auth" => Ok(Port::Auth),
        "acct" => Ok(Port::Acct),
        _ => Err("an unknown port")?,
    }
}

/// What a day tells, over ledgers of its own.
fn day_of<R: Wait>(rt: &R, alloc: Global, config: Config, day: Day<'_>) -> Result<String, Fail> {
    told::<Brand, Brand, Brand, Brand, R>(rt, alloc, Blanks::new(), config, day)
}

/// What a day tells.
fn told<L0: Tally, L1: Tally, L2: Tally, L3: Tally, R: Wait>(
    rt: &R,
    alloc: Global,
    blanks: Blanks,
    config: Config,
    day: Day<'_>,
) -> Result<String, Fail> {
    let (now, step) = pair_of(day.clock)?;
    let mut text = String::new(alloc);
    let service: Service<L0, L1, L2, L3, Open> = Service::new(alloc, blanks, config, 1, Open)?;
    let mut served = opened(rt, alloc, service)?;
    let mut clock = Steady::new(alloc, now, step);
    served.work(rt, alloc, day, &mut clock, &mut text)?;
    served.close(alloc, &clock, &mut text)?;
    Ok(text)
}

/// A service, with a pass for a receiver and one for a worker that makes ticks.
#[derive(Drop)]
struct Served<L0: Tally, L1: Tally, L2: Tally, L3: Tally> {
    service: Service<L0, L1, L2, L3, Open>,
    pass: Pass<L0, L1, L2, L3>,
    ticks: Pass<L0, L1, L2, L3>,
}

/// A service with two passes.
fn opened<L0: Tally, L1: Tally, L2: Tally, L3: Tally, R: Wait>(
    rt: &R,
    alloc: Global,
    service: Service<L0, L1, L2, L3, Open>,
) -> Result<Served<L0, L1, L2, L3>, Fail> {
    let (Ok(pass), Ok(ticks)) = (service.open_pass(rt, alloc), service.open_pass(rt, alloc)) else {
        return Err("no pass")?;
    };
    Ok(Served {
        service,
        pass,
        ticks,
    })
}

impl<L0: Tally, L1: Tally, L2: Tally, L3: Tally> Served<L0, L1, L2, L3> {
    /// Takes the turns of the receiver, and then those of the worker.
    fn work<R: Wait>(
        &mut self,
        rt: &R,
        alloc: Global,
        day: Day<'_>,
        clock: &mut Steady,
        text: &mut String,
    ) -> Result<(), Fail> {
        self.receive(rt, alloc, day, clock, text)?;
        self.tick(rt, alloc, day, clock, text)
    }

    /// Takes the receiver's turns.
    fn receive<R: Wait>(
        &mut self,
        rt: &R,
        alloc: Global,
        day: Day<'_>,
        clock: &mut Steady,
        text: &mut String,
    ) -> Result<(), Fail> {
        let port = port_of(day.port)?;
        let turns = number(day.turns)?;
        let failing = numbers_of(alloc, day.failing)?;
        let mut datagrams = MemoryPort::new(alloc, coming_of(alloc, day.coming)?, failing);
        let answer = receive(
            rt,
            alloc,
            &self.service,
            &mut self.pass,
            port,
            &mut datagrams,
            clock,
            turns,
        );
        push_counts(text, answer)?;
        push_port(text, alloc, &datagrams)?;
        self.push_held(rt, alloc, text)
    }

    /// Takes the turns of the worker that makes ticks.
    fn tick<R: Wait>(
        &mut self,
        rt: &R,
        alloc: Global,
        day: Day<'_>,
        clock: &mut Steady,
        text: &mut String,
    ) -> Result<(), Fail> {
        let (turns, left) = pair_of(day.worker)?;
        let mut pauses = Pauses::new(alloc, left);
        let done = expire_loop(
            rt,
            alloc,
            &self.service,
            &mut self.ticks,
            clock,
            &mut pauses,
            turns,
        );
        write!(text, " ticked {done},")?;
        self.push_held(rt, alloc, text)
    }

    /// Tells how many places the account holds.
    fn push_held<R: Wait>(&self, rt: &R, alloc: Global, text: &mut String) -> Result<(), Fail> {
        for row in &self.service.report(rt, alloc)? {
            let held = row.held;
            write!(text, " holds {held},")?;
        }
        Ok(())
    }

    /// Closes the service, and tells its lines.
    fn close(self, alloc: Global, clock: &Steady, text: &mut String) -> Result<(), Fail> {
        let Served {
            service,
            pass,
            ticks,
        } = self;
        let mut passes = Vec::new(alloc);
        passes.push(pass)?;
        passes.push(ticks)?;
        let closed = service.close(alloc, passes, Vec::new(alloc))?;
        push_lines(text, clock, closed.segments())
    }
}

/// Tells what a receiver answers.
pub(crate) fn push_counts(
    text: &mut String,
    answer: Result<Counts, ReceiveFault>,
) -> Result<(), Fail> {
    let counts = match answer {
        Ok(counts) => counts,
        Err(ReceiveFault::Down(counts)) => {
            push_printed(text, &Plain("Down"))?;
            counts
        }
        Err(ReceiveFault::NoMemory) => return Err("no memory")?,
    };
    let told = [
        counts.turns,
        counts.received,
        counts.answered,
        counts.dropped,
        counts.refused,
        counts.unsent,
    ];
    push_printed(text, &told)
}

/// Tells what a port counts and was handed to send.
fn push_port(text: &mut String, alloc: Global, datagrams: &MemoryPort) -> Result<(), Fail> {
    if !datagrams.is_telling() {
        return Err("the port was refused memory")?;
    }
    let numbers = datagrams.numbers();
    let told = [
        datagrams.taken().len() as u64,
        numbers.receives,
        numbers.failed_receives,
        numbers.sends,
        numbers.failed_sends,
        numbers.astray,
    ];
    push_printed(text, &told)?;
    push_sent(text, alloc, datagrams.sent())
}

/// Tells the lines of segments. Each has a moment that the clock showed.
fn push_lines(text: &mut String, clock: &Steady, segments: &[Segment]) -> Result<(), Fail> {
    for segment in segments {
        for line in &segment.lines {
            let moment = moment_of(&line.moved);
            if !clock.has_shown(moment) {
                return Err("a moment that the clock did not show")?;
            }
            let told = (segment.shard, moment, line.decision);
            push_printed(text, &told)?;
        }
    }
    Ok(())
}

/// The moment of a move.
fn moment_of(moved: &Move) -> u64 {
    match moved {
        Move::Own { event, .. } => event.moment,
        Move::Sweep { moment, .. } | Move::Tick { moment } | Move::Stray { moment, .. } => *moment,
    }
}

/// How many turns there are, and what a receiver and a worker leave behind.
const DAYS: &str = "
the port fails at last | 1 | auth | 4 | ask nothing short fault | | 5 0 | 3 9 \
    | Down [4, 2, 1, 1, 0, 0] [2, 4, 1, 1, 0, 0] accept to 1024, holds 1, ticked 3, holds 1, \
    (0, 5, Accept(0)) (0, 5, Done) (0, 5, Done) (0, 5, Done)
the first send fails | 1 | auth | 4 | ask nothing short fault | 0 | 5 0 | 3 9 \
    | Down [4, 2, 0, 1, 0, 1] [2, 4, 1, 1, 1, 0] accept to 1024, holds 1, ticked 3, holds 1, \
    (0, 5, Accept(0)) (0, 5, Done) (0, 5, Done) (0, 5, Done)
a send fails among repeats | 1 | auth | 9 | ask ask nothing ask fault | 1 | 0 0 | 0 9 \
    | Down [5, 3, 2, 0, 0, 1] [3, 5, 1, 3, 1, 0] \
    accept to 1024, accept to 1024, accept to 1024, holds 1, ticked 0, holds 1, \
    (0, 0, Accept(0)) (0, 0, Accept(0)) (0, 0, Accept(0))
no turns | 1 | auth | 0 | ask | | 5 0 | 0 9 \
    | [0, 0, 0, 0, 0, 0] [0, 0, 0, 0, 0, 0] holds 0, ticked 0, holds 0,
more comes than there are turns | 1 | auth | 1 | ask ask | | 5 0 | 0 9 \
    | [1, 1, 1, 0, 0, 0] [1, 1, 0, 1, 0, 0] accept to 1024, holds 1, ticked 0, holds 1, \
    (0, 5, Accept(0))
more turns than anything that comes | 1 | auth | 3 | ask | | 5 0 | 0 9 \
    | [3, 1, 1, 0, 0, 0] [1, 3, 0, 1, 0, 0] accept to 1024, holds 1, ticked 0, holds 1, \
    (0, 5, Accept(0))
the port fails at once | 1 | auth | 3 | fault ask | | 5 0 | 0 9 \
    | Down [1, 0, 0, 0, 0, 0] [0, 1, 1, 0, 0, 0] holds 0, ticked 0, holds 0,
answers go to where each came from | 1 | auth | 2 | ask ask:1025 | | 5 0 | 0 9 \
    | [2, 2, 2, 0, 0, 0] [2, 2, 0, 2, 0, 0] accept to 1024, limit to 1025, \
    holds 1, ticked 0, holds 1, (0, 5, Accept(0)) (0, 5, LimitReject)
a shorter datagram has nothing of the one before | 1 | auth | 2 | ask half | | 5 0 | 0 9 \
    | [2, 2, 1, 1, 0, 0] [2, 2, 0, 1, 0, 0] accept to 1024, holds 1, ticked 0, holds 1, \
    (0, 5, Accept(0))
padding past the buffer | 1 | auth | 1 | long | | 5 0 | 0 9 \
    | [1, 1, 1, 0, 0, 0] [1, 1, 0, 1, 0, 0] accept to 1024, holds 1, ticked 0, holds 1, \
    (0, 5, Accept(0))
a drop does not look at the clock | 1 | auth | 3 | short wrong ask | | 5 1 | 0 9 \
    | [3, 3, 2, 1, 0, 0] [3, 3, 0, 2, 0, 0] reject to 1024, accept to 1024, \
    holds 1, ticked 0, holds 1, (0, 6, Accept(0))
a pause ends the ticks | 2 | auth | 0 | | | 5 10 | 9 2 \
    | [0, 0, 0, 0, 0, 0] [0, 0, 0, 0, 0, 0] holds 0, ticked 3, holds 0, \
    (0, 5, Done) (0, 15, Done) (0, 25, Done) (1, 5, Done) (1, 15, Done) (1, 25, Done)
a tick frees a place that nobody took | 1 | auth | 1 | ask | | 5 60 | 1 9 \
    | [1, 1, 1, 0, 0, 0] [1, 1, 0, 1, 0, 0] accept to 1024, holds 1, ticked 1, holds 0, \
    (0, 5, Accept(0)) (0, 65, Done)
";

/// Each kind of datagram comes twice, where the first answer can't be sent, and the second can. Then
/// the port fails, and what would come after that does not come. In the last row five kinds come once
/// each, and no answer can be sent.
const KINDS: &str = "
an ask | 1 | auth | 9 | ask ask fault ask | 0 | 5 1 | 0 0 \
    | Down [3, 2, 1, 0, 0, 1] [2, 3, 1, 2, 1, 0] accept to 1024, accept to 1024, \
    holds 1, ticked 0, holds 1, (0, 5, Accept(0)) (0, 6, Accept(0))
another password | 1 | auth | 9 | wrong wrong fault wrong | 0 | 5 1 | 0 0 \
    | Down [3, 2, 1, 0, 0, 1] [2, 3, 1, 2, 1, 0] reject to 1024, reject to 1024, \
    holds 0, ticked 0, holds 0,
a malformed ask | 1 | auth | 9 | bare bare fault bare | 0 | 5 1 | 0 0 \
    | Down [3, 2, 1, 0, 0, 1] [2, 3, 1, 2, 1, 0] bare to 1024, bare to 1024, \
    holds 0, ticked 0, holds 0,
a start | 1 | acct | 9 | start start fault start | 0 | 5 1 | 0 0 \
    | Down [3, 2, 1, 0, 0, 1] [2, 3, 1, 2, 1, 0] start to 1024, start to 1024, \
    holds 1, ticked 0, holds 1, (0, 5, Done) (0, 6, Done)
an update | 1 | acct | 9 | interim interim fault interim | 0 | 5 1 | 0 0 \
    | Down [3, 2, 1, 0, 0, 1] [2, 3, 1, 2, 1, 0] interim to 1024, interim to 1024, \
    holds 1, ticked 0, holds 1, (0, 5, Done) (0, 6, Done)
a stop | 1 | acct | 9 | stop stop fault stop | 0 | 5 1 | 0 0 \
    | Down [3, 2, 1, 0, 0, 1] [2, 3, 1, 2, 1, 0] stop to 1024, stop to 1024, \
    holds 0, ticked 0, holds 0, (0, 5, Done) (0, 6, Done)
a restart, which each shard notes | 3 | acct | 9 | on on fault on | 0 | 5 1 | 0 0 \
    | Down [3, 2, 1, 0, 0, 1] [2, 3, 1, 2, 1, 0] on to 1024, on to 1024, \
    holds 0, ticked 0, holds 0, \
    (0, 5, Done) (0, 6, Done) (1, 5, Done) (1, 6, Done) (2, 5, Done) (2, 6, Done)
a stray, which shard 0 notes | 3 | acct | 9 | stray stray fault stray | 0 | 5 1 | 0 0 \
    | Down [3, 2, 1, 0, 0, 1] [2, 3, 1, 2, 1, 0] stray to 1024, stray to 1024, \
    holds 0, ticked 0, holds 0, (0, 5, Done) (0, 6, Done)
what is dropped | 1 | auth | 9 | short short fault short | 0 | 5 1 | 0 0 \
    | Down [3, 2, 0, 2, 0, 0] [2, 3, 1, 0, 0, 0] holds 0, ticked 0, holds 0,
a forged restart | 1 | acct | 9 | forged forged fault forged | 0 | 5 1 | 0 0 \
    | Down [3, 2, 0, 2, 0, 0] [2, 3, 1, 0, 0, 0] holds 0, ticked 0, holds 0,
an ask at the other port | 1 | acct | 9 | ask ask fault ask | 0 | 5 1 | 0 0 \
    | Down [3, 2, 0, 2, 0, 0] [2, 3, 1, 0, 0, 0] holds 0, ticked 0, holds 0,
a session whose replies are all lost | 1 | acct | 9 | start interim on stop stray fault \
    | 0 1 2 3 4 | 5 1 | 0 0 \
    | Down [6, 5, 0, 0, 0, 5] [5, 6, 1, 5, 5, 0] \
    start to 1024, interim to 1024, on to 1024, stop to 1024, stray to 1024, \
    holds 0, ticked 0, holds 0, \
    (0, 5, Done) (0, 6, Done) (0, 7, Done) (0, 8, Done) (0, 9, Done)
";

#[test]
fn a_receiver_and_then_a_worker(rt: HostRuntime) -> Result<(), Fail> {
    check_rows(&rt, &Days { rt: &rt }, DAYS)
}

#[test]
fn a_port_that_fails_at_each_kind_of_datagram(rt: HostRuntime) -> Result<(), Fail> {
    check_rows(&rt, &Days { rt: &rt }, KINDS)
}
