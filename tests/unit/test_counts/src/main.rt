//! The program `test_counts`: counts what two receivers took, adds it up, and prints it: a line for
//! each client, lines of cells that begin to count by client anew, the metrics, and whether a
//! server is ready.
#![tactic(auto)]

use rld_counts::{Cause, Cell, ClientCounts, Counted, Counts, Fate, Gate, Histogram};
use rld_look::{
    AccessServerLook, AccessServersLook, ArchiveLook, Build, ClientLook, Health, Look, Proof,
    Recording, SocketLook, Totals,
};
use rld_text::{push_metrics, ready_text};
use rsl_event::NasName;
use rsl_wire::Octets;
use std::alloc::{AllocError, Global};
use std::io::{self, Write};

/// How many clients there are.
const CLIENTS: u32 = 2;

fn main(rt: HostRuntime) -> io::Result<()> {
    let mut auth = Cell::new(rt.alloc(), CLIENTS)?;
    note_auth(&mut auth);
    let mut acct = Cell::new(rt.alloc(), CLIENTS)?;
    note_acct(&mut acct);
    let mut all = Cell::new(rt.alloc(), CLIENTS)?;
    all.add(&auth);
    all.add(&acct);
    for client in 0..CLIENTS + 1 {
        print_client(&rt, &all, client)?;
    }
    println!(rt;
        "received {}, samples {}",
        all.counts().received(),
        all.times().samples()
    )?;
    for clients in [1, 3, 0, CLIENTS] {
        print_renewed(&rt, clients)?;
    }
    print_metrics(&rt, &all, auth.times(), acct.times())?;
    print_ready(&rt)
}

/// Prints whether a server is ready, of each health.
fn print_ready(rt: &HostRuntime) -> io::Result<()> {
    for health in [Health::Well, Health::ClockBehind, Health::NotRecording] {
        let text = ready_text(rt.alloc(), health)?;
        rt.stdout().write_all(text.as_slice())?;
    }
    Ok(())
}

/// What the receiver of the authentication port took.
fn note_auth(cell: &mut Cell) {
    note(cell, auth(Cause::Accept), Some(0), Some(0));
    note(cell, auth(Cause::Accept), Some(1), Some(1));
    note(cell, auth(Cause::LimitReject), Some(1), Some(2));
    note(cell, auth(Cause::WrongPassword), Some(1), Some(3));
    note(cell, auth(Cause::Accept), Some(0), Some(4));
    note(cell, auth(Cause::UnknownClient), None, None);
    note(cell, auth(Cause::UncheckedCredential), Some(1), None);
    note(cell, auth(Cause::Short), None, None);
    note(cell, auth(Cause::Accept), Some(0), Some(8_388_608));
    note(cell, auth(Cause::Accept), Some(0), Some(8_388_609));
}

/// What the receiver of the accounting port took. Client 7 is none of the cell's.
fn note_acct(cell: &mut Cell) {
    note(cell, acct(Cause::Start), Some(0), Some(1_000_000));
    note(cell, acct(Cause::OtherStatus), Some(1), Some(123));
    note(cell, acct(Cause::NoSession), Some(1), None);
    note(cell, acct(Cause::Start), Some(7), Some(999_999));
}

fn note(cell: &mut Cell, fate: Fate, client: Option<u32>, micros: Option<u64>) {
    cell.note(Counted {
        fate,
        client,
        micros,
    });
}

/// How a datagram ended that came to the authentication port.
fn auth(cause: Cause) -> Fate {
    Fate {
        gate: Gate::Auth,
        cause,
    }
}

/// How one ended that came to the accounting port.
fn acct(cause: Cause) -> Fate {
    Fate {
        gate: Gate::Acct,
        cause,
    }
}

/// Prints what a client was answered.
fn print_client(rt: &HostRuntime, cell: &Cell, client: u32) -> io::Result<()> {
    let Some(counts) = cell.client(client) else {
        return println!(rt; "client {client}: none");
    };
    println!(rt;
        "client {client}: received {}, accept {}, reject {}, start {}",
        counts.received(),
        counts.count(auth(Cause::Accept)),
        counts.count(auth(Cause::LimitReject)),
        counts.count(acct(Cause::Start)),
    )
}

/// Prints what a cell has counted that began to count by client anew, for `clients` clients, after
/// it had counted the logins; and what one for CLIENTS clients has to which it is added. Each then
/// took the accounting.
fn print_renewed(rt: &HostRuntime, clients: u32) -> io::Result<()> {
    let mut cell = Cell::new(rt.alloc(), CLIENTS)?;
    note_auth(&mut cell);
    cell.renew(ClientCounts::new(rt.alloc(), clients)?);
    note_acct(&mut cell);
    print!(rt; "anew for {clients}: ")?;
    print_cell(rt, &cell)?;
    let mut all = Cell::new(rt.alloc(), CLIENTS)?;
    note_acct(&mut all);
    all.add(&cell);
    print!(rt; "added to one for {CLIENTS}: ")?;
    print_cell(rt, &all)
}

/// Prints what a cell has in all, and how many datagrams of each of four clients, if it is for that.
fn print_cell(rt: &HostRuntime, cell: &Cell) -> io::Result<()> {
    print!(rt;
        "received {}, accept {}, samples {}, by client",
        cell.counts().received(),
        cell.counts().count(auth(Cause::Accept)),
        cell.times().samples()
    )?;
    for client in 0..4 {
        match cell.client(client) {
            Some(counts) => print!(rt; " {}", counts.received())?,
            None => print!(rt; " -")?,
        }
    }
    println!(rt; "")
}

/// Prints the metrics.
fn print_metrics(
    rt: &HostRuntime,
    all: &Cell,
    auth_times: Histogram,
    acct_times: Histogram,
) -> io::Result<()> {
    let alloc = rt.alloc();
    let look = Look {
        build: Build {
            version: "0.2.0",
            proof: Proof::Unproved,
        },
        start: 1_790_000_000,
        now: 1_790_000_060,
        generation: u64::MAX,
        moves: 12,
        memory: 0,
        recording: Recording::Recorded,
        clock_behind: 37,
        archive: ArchiveLook {
            logs: 12,
            octets: 34_567_890,
        },
        counts: all.counts(),
        clients: vec![in alloc;
            client(all, 0, [10, 0, 0, 1]),
            client(all, 1, [192, 0, 2, 255]),
        ]?,
        auth_times,
        acct_times,
        ask_times: Histogram::new(),
        totals: Totals {
            accounts: 3,
            places: 4_002,
            held: 17,
            reserved: 3,
            live: 9,
            stale: 5,
            over: 1_234,
            full: 2,
        },
        fullest: Vec::new(alloc),
        access_servers: AccessServersLook {
            number: 300,
            first: vec![in alloc;
                server(
                    [10, 0, 0, 1],
                    identifier(alloc, b"bras 1\"")?,
                    [3, 40],
                    1_789_999_000
                ),
                server(
                    [192, 0, 2, 255],
                    NasName::Unnamed,
                    [0, u64::MAX],
                    1_790_000_061
                ),
            ]?,
        },
        minutes: Vec::new(alloc),
        sockets: vec![in alloc; socket(1812, 0, 3), socket(1813, 512, 4)]?,
        refusals: Vec::new(alloc),
    };
    let mut text = Vec::new(alloc);
    push_metrics(alloc, &mut text, &look)?;
    rt.stdout().write_all(text.as_slice())
}

/// The counts of a client at an address.
fn client(cell: &Cell, number: u32, address: [u8; 4]) -> ClientLook {
    ClientLook {
        address,
        counts: cell.client(number).unwrap_or(Counts::new()),
    }
}

/// What an access server holds, reserved and bound.
fn server(client: [u8; 4], nas: NasName, held: [u64; 2], last: u64) -> AccessServerLook {
    AccessServerLook {
        client,
        nas,
        reserved: held[0],
        bound: held[1],
        last,
    }
}

/// The name of an access server with this NAS-Identifier.
fn identifier(alloc: Global, name: &[u8]) -> Result<NasName, AllocError> {
    match Octets::from_slice(alloc, name) {
        Ok(name) => Ok(NasName::Identifier(name)),
        Err(_) => Err(AllocError),
    }
}

/// What waits at a socket.
fn socket(port: u16, waiting: u64, dropped: u64) -> SocketLook {
    SocketLook {
        port,
        waiting,
        dropped,
    }
}
