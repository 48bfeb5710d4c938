//! A server of 500 accounts over two sockets, whose client loses requests and sends some requests
//! twice, while a worker makes ticks.

use crate::client::{Answers, Client, Side};
use crate::fresh::Fresh;
use crate::requests::{ACCOUNTS, config_of};
use crate::scene::{Rests, Scene, Shown};
use crate::watched::Watched;
use rsl_accounts::Config;
use rsl_event::Port;
use rsl_record::audit;
use rsl_service::{Blanks, Counts, Open, Pass, ReceiveFault, Service, Tally, expire_loop, receive};
use rsl_shard::{Row, Segment};
use std::alloc::Global;
use std::marker::Brand;
use std::net::Net;
use std::sync::Wait;
use std::test::Fail;
use std::thread::{self, Threads};
use std::{io, time};
use test_rows::push_printed;

/// The most turns of a receiver.
const MOST_TURNS: u64 = 100_000;

/// The most turns of the worker that makes ticks.
const MOST_TICKS: u64 = 1_000;

/// The sockets of a server, and a client of theirs.
#[derive(Drop)]
struct Sockets {
    auth: Fresh,
    acct: Fresh,
    client: Client,
}

impl Sockets {
    /// Sockets on ports of 127.0.0.1 that nobody had.
    fn bind<N: Net>(net: &N) -> io::Result<Sockets> {
        let auth = Fresh::bind(net)?;
        let acct = Fresh::bind(net)?;
        let client = Client::new(
            Side::new(net, auth.number)?,
            Side::new(net, acct.number)?,
            2865,
        );
        Ok(Sockets { auth, acct, client })
    }
}

/// The passes of the workers of a service.
#[derive(Drop)]
struct Passes<L0: Tally, L1: Tally, L2: Tally, L3: Tally> {
    auth: Pass<L0, L1, L2, L3>,
    acct: Pass<L0, L1, L2, L3>,
    ticks: Pass<L0, L1, L2, L3>,
}

/// What a client has come to.
#[derive(Clone, Copy)]
struct Talk {
    tally: Answers,
    auth_sent: u64,
    acct_sent: u64,
}

/// What the workers and the client have come to.
#[derive(Clone, Copy)]
struct Outcome {
    auth: Counts,
    acct: Counts,
    ticks: u64,
    talk: Talk,
}

/// Opens a pass for each worker.
fn opened<L0: Tally, L1: Tally, L2: Tally, L3: Tally, R: Wait>(
    rt: &R,
    alloc: Global,
    service: &Service<L0, L1, L2, L3, Open>,
) -> Result<Passes<L0, L1, L2, L3>, Fail> {
    let (Ok(auth), Ok(acct), Ok(ticks)) = (
        service.open_pass(rt, alloc),
        service.open_pass(rt, alloc),
        service.open_pass(rt, alloc),
    ) else {
        return Err("no pass")?;
    };
    Ok(Passes { auth, acct, ticks })
}

/// Runs a receiver until the client has ended.
fn received<L0: Tally, L1: Tally, L2: Tally, L3: Tally, R: Wait>(
    rt: &R,
    alloc: Global,
    service: &Service<L0, L1, L2, L3, Open>,
    pass: &mut Pass<L0, L1, L2, L3>,
    port: Port,
    fresh: Fresh,
    scene: &Scene,
) -> Option<Counts> {
    let mut datagrams = Watched::new(fresh, scene);
    let mut clock = Shown { scene };
    match receive(
        rt,
        alloc,
        service,
        pass,
        port,
        &mut datagrams,
        &mut clock,
        MOST_TURNS,
    ) {
        Err(ReceiveFault::Down(counts)) => Some(counts),
        Ok(_) | Err(ReceiveFault::NoMemory) => None,
    }
}

/// Makes ticks until the client has ended. Gives how many there were.
fn ticked<L0: Tally, L1: Tally, L2: Tally, L3: Tally, R: time::Clock + Wait>(
    rt: &R,
    alloc: Global,
    service: &Service<L0, L1, L2, L3, Open>,
    pass: &mut Pass<L0, L1, L2, L3>,
    scene: &Scene,
) -> u64 {
    let mut clock = Shown { scene };
    let mut rests = Rests { clock: rt, scene };
    expire_loop(rt, alloc, service, pass, &mut clock, &mut rests, MOST_TICKS)
}

/// Runs the client, and then tells the others that it has ended.
fn talked(alloc: Global, mut client: Client, scene: &Scene) -> Result<Talk, Fail> {
    let result = client.talk(alloc, scene);
    scene.end();
    let talk = Talk {
        tally: client.tally,
        auth_sent: client.auth.sent,
        acct_sent: client.acct.sent,
    };
    result.map(|()| talk)
}

/// Runs two receivers, the worker that makes ticks and the client, on threads of their own.
fn run_workers<L0, L1, L2, L3, R>(
    rt: &R,
    alloc: Global,
    service: &Service<L0, L1, L2, L3, Open>,
    passes: &mut Passes<L0, L1, L2, L3>,
    sockets: Sockets,
) -> Result<Outcome, Fail>
where
    L0: Tally + Send + Sync,
    L1: Tally + Send + Sync,
    L2: Tally + Send + Sync,
    L3: Tally + Send + Sync,
    R: time::Clock + Threads + Wait + Sync,
{
    let Passes {
        auth: auth_pass,
        acct: acct_pass,
        ticks,
    } = passes;
    let Sockets { auth, acct, client } = sockets;
    let scene = Scene::new();
    let scene = &scene;
    let ((auth, acct), (ticks, talk)) = thread::join(
        rt,
        move || {
            thread::join(
                rt,
                move || received(rt, alloc, service, auth_pass, Port::Auth, auth, scene),
                move || received(rt, alloc, service, acct_pass, Port::Acct, acct, scene),
            )
        },
        move || {
            thread::join(
                rt,
                move || ticked(rt, alloc, service, ticks, scene),
                move || talked(alloc, client, scene),
            )
        },
    );
    let talk = talk?;
    let (Some(auth), Some(acct)) = (auth, acct) else {
        return Err("a receiver has taken all its turns")?;
    };
    Ok(Outcome {
        auth,
        acct,
        ticks,
        talk,
    })
}

/// What a server and its client come to, over ledgers of their own.
fn crowd_of<R: Net + time::Clock + Threads + Wait + Sync>(
    rt: &R,
    alloc: Global,
    config: Config,
) -> Result<String, Fail> {
    crowd::<Brand, Brand, Brand, Brand, R>(rt, alloc, Blanks::new(), config)
}

/// What a server and its client come to.
fn crowd<L0, L1, L2, L3, R>(
    rt: &R,
    alloc: Global,
    blanks: Blanks,
    config: Config,
) -> Result<String, Fail>
where
    L0: Tally + Send + Sync,
    L1: Tally + Send + Sync,
    L2: Tally + Send + Sync,
    L3: Tally + Send + Sync,
    R: Net + time::Clock + Threads + Wait + Sync,
{
    let service: Service<L0, L1, L2, L3, Open> = Service::new(alloc, blanks, config, 1, Open)?;
    let worked = at_work(rt, alloc, &service)?;
    closed(alloc, service, worked)
}

/// What the workers of a service have come to, the places that all accounts then hold, and the
/// passes.
struct Worked<L0: Tally, L1: Tally, L2: Tally, L3: Tally> {
    outcome: Outcome,
    held: u64,
    passes: Vec<Pass<L0, L1, L2, L3>>,
}

/// Has the workers of a service and a client do all that they do.
fn at_work<L0, L1, L2, L3, R>(
    rt: &R,
    alloc: Global,
    service: &Service<L0, L1, L2, L3, Open>,
) -> Result<Worked<L0, L1, L2, L3>, Fail>
where
    L0: Tally + Send + Sync,
    L1: Tally + Send + Sync,
    L2: Tally + Send + Sync,
    L3: Tally + Send + Sync,
    R: Net + time::Clock + Threads + Wait + Sync,
{
    let sockets = Sockets::bind(rt)?;
    let mut passes = opened(rt, alloc, service)?;
    let outcome = run_workers(rt, alloc, service, &mut passes, sockets)?;
    let held = held_in(rt, alloc, service);
    let Passes { auth, acct, ticks } = passes;
    let passes = Vec::from_array(alloc, [auth, acct, ticks])?;
    Ok(Worked {
        outcome,
        held,
        passes,
    })
}

/// How many places all accounts hold. Where memory is refused, more than there are.
fn held_in<L0: Tally, L1: Tally, L2: Tally, L3: Tally, R: Wait>(
    rt: &R,
    alloc: Global,
    service: &Service<L0, L1, L2, L3, Open>,
) -> u64 {
    match service.report(rt, alloc) {
        Ok(rows) => held(&rows),
        Err(_) => u64::MAX,
    }
}

/// The sum of the places of rows.
fn held(rows: &[Row]) -> u64 {
    let mut held = 0u64;
    for row in rows {
        held = held.saturating_add(u64::from(row.held));
    }
    held
}

/// Closes a service, and tells all of it.
fn closed<L0: Tally, L1: Tally, L2: Tally, L3: Tally>(
    alloc: Global,
    service: Service<L0, L1, L2, L3, Open>,
    worked: Worked<L0, L1, L2, L3>,
) -> Result<String, Fail> {
    let Worked {
        outcome,
        held,
        passes,
    } = worked;
    let closed = service.close(alloc, passes, Vec::new(alloc))?;
    told(alloc, outcome, held, closed.segments())
}

/// What all of it comes to.
fn told(alloc: Global, outcome: Outcome, held: u64, segments: &[Segment]) -> Result<String, Fail> {
    let mut text = String::new(alloc);
    push_client(&mut text, outcome.talk.tally, held)?;
    push_counts(&mut text, &outcome.auth, outcome.talk.auth_sent)?;
    push_counts(&mut text, &outcome.acct, outcome.talk.acct_sent)?;
    push_printed(&mut text, &(outcome.ticks > 0))?;
    push_record(&mut text, alloc, segments, moves_of(outcome))?;
    Ok(text)
}

/// How many lines there should be: one of each answer, and one of each tick in each shard.
fn moves_of(outcome: Outcome) -> u64 {
    let answers = outcome.auth.answered.saturating_add(outcome.acct.answered);
    answers.saturating_add(outcome.ticks.saturating_mul(4))
}

/// Tells what the client was answered, and how many places are then held.
fn push_client(text: &mut String, tally: Answers, held: u64) -> Result<(), Fail> {
    push_printed(text, &(tally.accepts, tally.rejects, tally.notes, held))?;
    push_printed(text, &(tally.repeats > 4 * ACCOUNTS))
}

/// Tells how many of `sent` datagrams a receiver has not received and not answered, and how many it
/// has dropped, refused and not sent an answer to.
fn push_counts(text: &mut String, counts: &Counts, sent: u64) -> Result<(), Fail> {
    let told = [
        sent.wrapping_sub(counts.received),
        sent.wrapping_sub(counts.answered),
        counts.dropped,
        counts.refused,
        counts.unsent,
    ];
    push_printed(text, &told)
}

/// Tells whether the segments have `moves` lines, and the audit of each shard.
fn push_record(
    text: &mut String,
    alloc: Global,
    segments: &[Segment],
    moves: u64,
) -> Result<(), Fail> {
    let config = config_of(alloc)?;
    let mut lines = 0u64;
    for segment in segments {
        lines = lines.saturating_add(segment.lines.len() as u64);
    }
    push_printed(text, &(lines == moves))?;
    for segment in segments.chunks(1) {
        push_printed(text, &audit(alloc, &config, segment))?;
    }
    Ok(())
}

/// What the receivers have left out; that there were ticks; that the record has these and the moves
/// that were answered and no others; and the audit of each shard.
const RECORD: &str = " [0, 0, 0, 0, 0] [0, 0, 0, 0, 0] true true Ok(()) Ok(()) Ok(()) Ok(())";

/// The asks accepted and rejected, the accounting answered and the places held, worked by hand from
/// what is lost of each ten accounts, and that many requests came twice; and then the rest.
fn expected(alloc: Global) -> Result<String, Fail> {
    const TENS: u64 = ACCOUNTS / 10;
    let mut text = String::new(alloc);
    push_printed(&mut text, &(48 * TENS, TENS, 144 * TENS, 2 * TENS))?;
    push_printed(&mut text, &true)?;
    text.push_str(RECORD)?;
    Ok(text)
}

#[test]
fn five_hundred_accounts_over_two_sockets(rt: HostRuntime) -> Result<(), Fail> {
    let found = crowd_of(&rt, rt.alloc(), config_of(rt.alloc())?)?;
    let expected = expected(rt.alloc())?;
    assert_eq!(rt; found.as_str(), expected.as_str());
    Ok(())
}
