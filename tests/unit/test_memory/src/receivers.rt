//! Receivers over ports of memory.

use crate::given::Given;
use crate::page::Page;
use crate::printed::{CountsText, Hex};
use crate::served::{Seen, Served};
use crate::stop::Stop;
use crate::worker::Standing;
use rsl_event::Port;
use rsl_service::{
    Blanks, Coming, Counts, Datagram, MemoryPort, Open, Pass, Service, Tally, receive,
};
use rsl_steps::Step;
use rsl_wire::Octets;
use std::alloc::Global;
use std::marker::Brand;
use std::sync::Wait;

/// The send of a port that fails, counted from 0.
const FAILING: u64 = 1;

/// The moment of all datagrams.
const MOMENT: u64 = 5;

/// What two receivers came to.
#[derive(Drop)]
struct Received {
    auth: Counts,
    acct: Counts,
    /// What was handed to the ports to send.
    sent: Vec<Octets>,
    seen: Seen,
}

/// Has two receivers take the datagrams of a script, one port after the other, and tells what they came
/// to. A datagram that is refused is counted, and all else has to be as without it.
pub(crate) fn tell<R: Print + Wait>(page: &mut Page<R>, given: &Given) -> Result<(), Stop> {
    let mut received = receive_all(page, given, None)?;
    if received.auth.refused + received.acct.refused > 0 {
        let is_right = is_settled(page) && is_as_without_one(page, given, &received)?;
        page.note("datagram of a receiver", is_right)?;
        page.text.clear();
        received = receive_all(page, given, None)?;
    }
    tell_received(page, &received)
}

/// Has two receivers take the datagrams of a script, but for the step of a number.
fn receive_all<R: Print + Wait>(
    page: &mut Page<R>,
    given: &Given,
    lost: Option<usize>,
) -> Result<Received, Stop> {
    live::<Brand, Brand, Brand, Brand, R>(page, Blanks::new(), given, lost)
}

fn live<L0: Tally, L1: Tally, L2: Tally, L3: Tally, R: Print + Wait>(
    page: &mut Page<R>,
    blanks: Blanks,
    given: &Given,
    lost: Option<usize>,
) -> Result<Received, Stop> {
    let config = given.config(page.alloc)?;
    let mut served = Served::<L0, L1, L2, L3>::new(page, blanks, config)?;
    let mut sent = Vec::new(page.alloc);
    let mut counts_at = |port, page: &mut Page<R>, served: &mut Served<L0, L1, L2, L3>| {
        let coming = comings(page.alloc, port, given, lost)?;
        let (service, pass) = served.lend(port);
        take(page, service, pass, port, coming, &mut sent)
    };
    let auth = counts_at(Port::Auth, page, &mut served)?;
    let acct = counts_at(Port::Acct, page, &mut served)?;
    let seen = served.seen(page)?;
    served.end(page, &*given.config)?;
    Ok(Received {
        auth,
        acct,
        sent,
        seen,
    })
}

/// Has a receiver take what comes to its port, and adds what it sent.
fn take<L0: Tally, L1: Tally, L2: Tally, L3: Tally, R: Print + Wait>(
    page: &mut Page<R>,
    service: &Service<L0, L1, L2, L3, Open>,
    pass: &mut Pass<L0, L1, L2, L3>,
    port: Port,
    coming: Vec<Coming>,
    sent: &mut Vec<Octets>,
) -> Result<Counts, Stop> {
    let (rt, alloc) = (page.rt(), page.alloc);
    let turns = coming.len() as u64 + 1;
    let mut datagrams = MemoryPort::new(alloc, coming, vec![in alloc; FAILING]?);
    let clock = &mut Standing(MOMENT);
    let counts = receive(rt, alloc, service, pass, port, &mut datagrams, clock, turns)?;
    if !datagrams.is_telling() {
        return Err(Stop::NoMemory);
    }
    for datagram in datagrams.sent() {
        sent.push(datagram.octets.try_copy(alloc)?)?;
    }
    Ok(counts)
}

/// The datagrams that come to a port, but for the step of a number.
fn comings(
    alloc: Global,
    port: Port,
    given: &Given,
    lost: Option<usize>,
) -> Result<Vec<Coming>, Stop> {
    let mut comings = Vec::new(alloc);
    for (number, step) in given.steps.iter().enumerate() {
        match step {
            Step::Datagram {
                port: to,
                source,
                octets,
                ..
            } if *to == port && lost != Some(number) => comings.push(Coming::Datagram(Datagram {
                peer: *source,
                octets: octets.try_copy(alloc)?,
            }))?,
            _ => (),
        }
    }
    Ok(comings)
}

/// Whether a life came to an end without a fault.
fn is_settled<R>(page: &Page<R>) -> bool {
    !page.text.as_str().contains("Err")
}

/// Whether two receivers are as without one of the datagrams, which they counted as refused.
fn is_as_without_one<R: Print + Wait>(
    page: &mut Page<R>,
    given: &Given,
    received: &Received,
) -> Result<bool, Stop> {
    let mut before: Option<&Step> = None;
    for (number, step) in given.steps.iter().enumerate() {
        if let Step::Datagram { .. } = step {
            let without = receive_all(page, given, Some(number))?;
            let is_restart = matches!(before, Some(Step::Sweep { .. }));
            if received.is_as(&without, is_restart) {
                return Ok(true);
            }
        }
        before = Some(step);
    }
    Ok(false)
}

impl Received {
    /// Whether this is what it is without a datagram, which is counted as refused. A restart, whose sweeps
    /// are steps before it, has perhaps swept the first shard.
    fn is_as(&self, without: &Received, is_restart: bool) -> bool {
        let counts = is_one_less(&self.auth, &without.auth) && self.acct == without.acct
            || is_one_less(&self.acct, &without.acct) && self.auth == without.auth;
        let lines = self.seen.lines.iter().zip(&without.seen.lines);
        let mut more = lines.map(|(one, other)| one - other);
        counts
            && self.sent == without.sent
            && self.seen.rows == without.seen.rows
            && more
                .next()
                .is_some_and(|lines| lines == 0 || is_restart && lines == 1)
            && more.all(|lines| lines == 0)
    }
}

/// Whether a receiver counted one datagram that was refused, and else the same.
fn is_one_less(counts: &Counts, without: &Counts) -> bool {
    let refused = Counts {
        turns: without.turns + 1,
        received: without.received + 1,
        refused: 1,
        ..*without
    };
    *counts == refused
}

/// Tells what two receivers came to.
fn tell_received<R: Print>(page: &mut Page<R>, received: &Received) -> Result<(), Stop> {
    let Received {
        auth,
        acct,
        sent,
        seen,
    } = received;
    writeln!(page.text, "{}\n{}", CountsText(auth), CountsText(acct))?;
    for octets in sent {
        writeln!(page.text, "sent {}", Hex(octets.as_slice()))?;
    }
    writeln!(page.text, "{seen}")?;
    Ok(())
}
