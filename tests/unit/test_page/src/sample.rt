//! Looks at three servers.

use rld_counts::{Cause, Counts, Fate, Gate, Histogram};
use rld_look::{
    AccessServerLook, AccessServersLook, AccountLook, AccountsLook, ArchiveLook, Build, ClientLook,
    Look, Minute, Proof, Recording, Refusal, SocketLook, Totals,
};
use rsl_accounts::Text;
use rsl_event::{NasName, Source};
use rsl_shard::Row;
use rsl_wire::{NoMemory, Octets};
use std::alloc::Global;
use std::net::IpAddr;

/// Second 1,764,182,907 since 1970: 2025-11-26 18:48:27 UTC.
const NOW: u64 = 1_764_182_907;

/// The names of accounts: one that is markup, one with quotes, one beyond ASCII, and some others.
const NAMES: [&str; 10] = [
    "nemo",
    "<script>alert(1)</script>",
    "\"quoted\" & 'so'",
    "müller@example.net",
    "back\\slash",
    "line\nfeed",
    "anna",
    "otto",
    "greta@a-rather-long-realm.example.net",
    "last",
];

/// The places that each account holds, and those that it has.
const HELD: [u32; 10] = [2, 1, 3, 4, 0, 1, 17, 0, 180, 0];

const PLACES: [u32; 10] = [2, 2, 4, 4, 0, 10, 2_000, 1, 200, 3];

/// A look at a server that has just started, whose batches are not recorded.
pub(crate) fn idle(alloc: Global) -> Result<Look, NoMemory> {
    Ok(Look {
        build: Build {
            version: "0.2.0",
            proof: Proof::Unproved,
        },
        start: NOW,
        now: NOW,
        generation: 1,
        moves: 0,
        memory: 0,
        recording: Recording::Failing,
        clock_behind: 0,
        archive: ArchiveLook { logs: 0, octets: 0 },
        counts: Counts::new(),
        clients: Vec::new(alloc),
        auth_times: Histogram::new(),
        acct_times: Histogram::new(),
        ask_times: Histogram::new(),
        totals: Totals::new(),
        fullest: Vec::new(alloc),
        access_servers: AccessServersLook {
            number: 0,
            first: Vec::new(alloc),
        },
        minutes: Vec::new(alloc),
        sockets: Vec::new(alloc),
        refusals: Vec::new(alloc),
    })
}

/// A look at a server that records, and whose clock is behind its books by more than an hour.
pub(crate) fn late(alloc: Global) -> Result<Look, NoMemory> {
    let mut look = idle(alloc)?;
    look.recording = Recording::Recorded;
    look.clock_behind = 3_725;
    Ok(look)
}

/// A look at a server that has run for some hours.
pub(crate) fn worked(alloc: Global) -> Result<Look, NoMemory> {
    let mut look = idle(alloc)?;
    look.start = NOW - 20_000;
    look.generation = 41;
    look.moves = 12_345;
    look.recording = Recording::Recorded;
    look.archive = ArchiveLook {
        logs: 38,
        octets: 1_702_345_678,
    };
    look.counts = counts();
    look.clients.push(ClientLook {
        address: [192, 0, 2, 7],
        counts: counts(),
    })?;
    look.totals = totals();
    for number in [0, 3, 8, 2, 1, 5, 6, 4, 7, 9] {
        look.fullest.push(account(alloc, number)?)?;
    }
    look.access_servers.number = 1_260;
    add_servers(alloc, &mut look.access_servers.first)?;
    add_minutes(&mut look.minutes)?;
    look.sockets.push(socket(1812, 0, 0))?;
    look.sockets.push(socket(1813, 2_304, 17))?;
    add_refusals(alloc, &mut look.refusals)?;
    Ok(look)
}

/// A look at the first accounts.
pub(crate) fn accounts(alloc: Global, many: usize) -> Result<AccountsLook, NoMemory> {
    let mut accounts = Vec::new(alloc);
    for number in 0..many {
        accounts.push(account(alloc, number)?)?;
    }
    Ok(AccountsLook { now: NOW, accounts })
}

/// What waits at a socket.
fn socket(port: u16, waiting: u64, dropped: u64) -> SocketLook {
    SocketLook {
        port,
        waiting,
        dropped,
    }
}

/// How a datagram ended that came to the authentication port.
fn auth(cause: Cause) -> Fate {
    Fate {
        gate: Gate::Auth,
        cause,
    }
}

/// How one ended that came to the accounting port.
fn acct(cause: Cause) -> Fate {
    Fate {
        gate: Gate::Acct,
        cause,
    }
}

/// Some datagrams of several fates.
fn counts() -> Counts {
    let mut counts = Counts::new();
    for _ in 0..1_234 {
        counts.note(auth(Cause::Accept));
    }
    for _ in 0..87 {
        counts.note(auth(Cause::LimitReject));
    }
    for _ in 0..13 {
        counts.note(auth(Cause::WrongPassword));
    }
    counts.note(auth(Cause::BadSignature));
    for _ in 0..2_048 {
        counts.note(acct(Cause::InterimUpdate));
    }
    for _ in 0..1_100 {
        counts.note(acct(Cause::Start));
    }
    counts.note(acct(Cause::NoSession));
    counts
}

/// An account.
fn account(alloc: Global, number: usize) -> Result<AccountLook, NoMemory> {
    Ok(AccountLook {
        name: Text::from_str(alloc, NAMES[number])?,
        row: row(number),
    })
}

/// What an account holds.
fn row(number: usize) -> Row {
    let held = HELD[number];
    Row {
        account: number as u32,
        places: PLACES[number],
        held,
        reserved: held / 4,
        live: held - held / 4,
        stale: 0,
        over: (number as u64) * 1_001,
    }
}

/// What all accounts hold.
fn totals() -> Totals {
    let mut totals = Totals::new();
    for number in 0..NAMES.len() {
        let row = row(number);
        totals.accounts += 1;
        totals.places += u64::from(row.places);
        totals.held += u64::from(row.held);
    }
    totals
}

/// Adds the minutes of some three quarters of an hour.
fn add_minutes(minutes: &mut Vec<Minute>) -> Result<(), NoMemory> {
    for number in 0..47u64 {
        minutes.push(Minute {
            start: NOW / 60 * 60 - (47 - number) * 60,
            accepts: 200 + number * number % 97 + number * 3,
            limit_rejects: number % 7 * 4,
            rejects: number % 11,
            accounting: 1_000 + number,
            held: 100 + number * 2 + number * 7 % 13,
        })?;
    }
    Ok(())
}

/// Adds access servers, one of each kind of names and one with a name that is markup.
fn add_servers(alloc: Global, servers: &mut Vec<AccessServerLook>) -> Result<(), NoMemory> {
    let none = Octets::from_slice(alloc, b"")?;
    servers.push(server(NasName::Identifier(none), 0, 1, 0))?;
    let markup = Octets::from_slice(alloc, b"bras\" onload=\"x")?;
    servers.push(server(NasName::Identifier(markup), 0, 1_234, NOW - 3))?;
    let address = Octets::from_slice(alloc, &[192, 0, 2, 77])?;
    servers.push(server(NasName::Address(address), 12, 0, NOW - 90_061))?;
    // one that was heard of after the look
    servers.push(server(NasName::Unnamed, 1, 1, NOW + 1))?;
    Ok(())
}

/// An access server of a client.
fn server(nas: NasName, reserved: u64, bound: u64, last: u64) -> AccessServerLook {
    AccessServerLook {
        client: [192, 0, 2, 7],
        nas,
        reserved,
        bound,
        last,
    }
}

/// Adds refusals, one of them with a name and a station that are markup.
fn add_refusals(alloc: Global, refusals: &mut Vec<Refusal>) -> Result<(), NoMemory> {
    refusals.push(Refusal {
        moment: NOW - 90,
        source: source([198, 51, 100, 9]),
        peer: IpAddr::from([198u8, 51, 100, 9]),
        client: None,
        nas: NasName::Unnamed,
        name: None,
        station: None,
        fate: auth(Cause::UnknownClient),
    })?;
    refusals.push(Refusal {
        moment: NOW - 31,
        source: source([192, 0, 2, 7]),
        peer: IpAddr::from([192u8, 0, 2, 7]),
        client: Some(0),
        nas: NasName::Identifier(Octets::from_slice(alloc, b"bras\" onload=\"x")?),
        name: Some(Octets::from_slice(alloc, b"<b>nemo\n\\\xff")?),
        station: Some(Octets::from_slice(alloc, b"<i>&\"\x00")?),
        fate: auth(Cause::WrongPassword),
    })?;
    refusals.push(Refusal {
        moment: NOW - 2,
        source: source([192, 0, 2, 7]),
        peer: IpAddr::from([192u8, 0, 2, 7]),
        client: Some(0),
        nas: NasName::Address(Octets::from_slice(alloc, &[192, 0, 2, 77])?),
        name: Some(Octets::from_slice(alloc, b"nemo")?),
        station: Some(Octets::from_slice(alloc, b"00-00-5E-00-53-2A")?),
        fate: auth(Cause::LimitReject),
    })?;
    Ok(())
}

/// A source at this address.
fn source(address: [u8; 4]) -> Source {
    Source {
        address,
        port: 1_645,
    }
}
