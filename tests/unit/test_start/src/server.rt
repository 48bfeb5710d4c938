//! A server that is started and answers a request.

use rld_config::NewHistory;
use rld_folder::FileName;
use rld_log::{Pace, Pacing, Ticks, frame_of};
use rld_spelling::Header;
use rld_start::{Found, StartFault, Started, rebase, start};
use rsl_account_file::read_config;
use rsl_accounts::Config;
use rsl_event::{Act, Event, Key, Nas, NasName, Note, Source};
use rsl_reply::Dictionary;
use rsl_shard::Move;
use rsl_wire::Octets;
use std::io;
use std::sync::Arc;

/// The account file.
pub const OURS: &str = "version = 2\nshards = 2\nreserve_secs = 60\nlive_secs = 900\n\
grace_secs = 900\nclosed_secs = 3600\nkeep_secs = 10\n\
[[client]]\naddress = \"10.0.0.1\"\nsecret = \"xyzzy5461\"\n\
[[account]]\nname = \"nemo\"\npassword = \"arctangent\"\nplaces = 2\nports = 1\n\
[[account]]\nname = \"flopsy\"\npassword = \"arctangent\"\nplaces = 1\nports = 1\n";

/// One with another limit.
pub const OTHERS: &str = "version = 2\nshards = 2\nreserve_secs = 60\nlive_secs = 900\n\
grace_secs = 900\nclosed_secs = 3600\nkeep_secs = 10\n\
[[client]]\naddress = \"10.0.0.1\"\nsecret = \"xyzzy5461\"\n\
[[account]]\nname = \"nemo\"\npassword = \"arctangent\"\nplaces = 3\nports = 1\n\
[[account]]\nname = \"flopsy\"\npassword = \"arctangent\"\nplaces = 1\nports = 1\n";

/// The configuration of an account file.
pub fn config_of(rt: &HostRuntime, accounts: &str) -> io::Result<Arc<Config>> {
    match read_config(
        rt.alloc(),
        &Dictionary::new(rt.alloc()),
        accounts.as_bytes(),
    ) {
        Ok(config) => Ok(Arc::new(rt.alloc(), config)?),
        Err(_) => Err(io::Error::from(io::ErrorKind::InvalidData)),
    }
}

/// A server that is started with these accounts, and begins a history if it finds none.
pub fn started<'a>(
    rt: &HostRuntime,
    folder: &str,
    accounts: &str,
    now: u64,
    ticks: &'a Ticks,
) -> Result<Started<'a>, StartFault> {
    started_with(rt, folder, accounts, NewHistory::Begins, now, ticks)
}

/// The same where a history begins or is refused.
fn started_with<'a>(
    rt: &HostRuntime,
    folder: &str,
    accounts: &str,
    new_history: NewHistory,
    now: u64,
    ticks: &'a Ticks,
) -> Result<Started<'a>, StartFault> {
    let Ok(config) = config_of(rt, accounts) else {
        return Err(StartFault::NoMemory);
    };
    let pacing = pacing(ticks);
    start(rt, rt.alloc(), &config, folder, new_history, now, pacing)
}

/// Each sync reaches the disk.
pub fn pacing(ticks: &Ticks) -> Pacing<'_> {
    Pacing {
        pace: Pace::Always,
        ticks,
    }
}

/// Starts a server and says what it found, and in which generation it goes on; or its fault.
pub fn say(rt: &HostRuntime, when: &str, folder: &str, accounts: &str, now: u64) -> io::Result<()> {
    say_with(rt, when, folder, accounts, NewHistory::Begins, now)
}

/// The same where a history must exist.
pub fn say_if_there(rt: &HostRuntime, when: &str, folder: &str, now: u64) -> io::Result<()> {
    say_with(rt, when, folder, OURS, NewHistory::Refused, now)
}

/// The same where a history begins or is refused.
fn say_with(
    rt: &HostRuntime,
    when: &str,
    folder: &str,
    accounts: &str,
    new_history: NewHistory,
    now: u64,
) -> io::Result<()> {
    let ticks = Ticks::new();
    match started_with(rt, folder, accounts, new_history, now, &ticks) {
        Ok(Started { store, found, .. }) => {
            print!(rt; "{when}: ")?;
            say_found(rt, &found)?;
            say_header(rt, "; goes on in ", &store.header())?;
            say_behind(rt, found.behind)
        }
        Err(fault) => println!(rt; "{when}: {fault}; status {}", fault.status().number()),
    }
}

/// Says what a start found.
fn say_found(rt: &HostRuntime, found: &Found) -> io::Result<()> {
    match found.from {
        Some(generation) => print!(rt; "found {}", FileName::Log(generation))?,
        None => print!(rt; "found no history")?,
    }
    print!(rt;
        ", moves {}, sessions {}, torn {}",
        found.moves, found.sessions, found.torn
    )
}

/// Says the numbers of a header.
pub fn say_header(rt: &HostRuntime, before: &str, header: &Header) -> io::Result<()> {
    println!(rt;
        "{before}log-{}, table {}, boot {}, lines {}",
        header.generation, header.table, header.boot, header.lines
    )
}

/// Says by how many seconds the clock is behind, if that was found.
fn say_behind(rt: &HostRuntime, behind: Option<u64>) -> io::Result<()> {
    match behind {
        Some(secs) => println!(rt; "  the clock is {secs} s behind"),
        None => Ok(()),
    }
}

/// Cuts the books of a folder to a moment, and says what was done; or the fault.
pub fn cut_books(rt: &HostRuntime, folder: &str, accounts: &str, now: u64) -> io::Result<()> {
    match rebase(rt, rt.alloc(), config_of(rt, accounts)?, folder, now) {
        Ok(done) => print!(rt; "rebased at {now}: {}", done.line(rt.alloc())?),
        Err(fault) => println!(rt;
            "rebased at {now}: {fault}; status {}",
            fault.status().number()
        ),
    }
}

/// Octets of a move.
fn octets(rt: &HostRuntime, octets: &[u8]) -> io::Result<Octets> {
    match Octets::from_slice(rt.alloc(), octets) {
        Ok(octets) => Ok(octets),
        Err(_) => Err(io::Error::from(io::ErrorKind::OutOfMemory)),
    }
}

/// The access server of a name, at the first client.
fn nas(rt: &HostRuntime, name: &[u8]) -> io::Result<Nas> {
    nas_at(rt, 0, name)
}

/// The access server of a name, at a client.
fn nas_at(rt: &HostRuntime, client: u32, name: &[u8]) -> io::Result<Nas> {
    Ok(Nas {
        client,
        name: NasName::Identifier(octets(rt, name)?),
    })
}

/// An Access-Request of an account, by way of a client.
pub fn ask(rt: &HostRuntime, account: u32, client: u32, id: u8, moment: u64) -> io::Result<Move> {
    ask_of(rt, account, client, id, None, moment)
}

/// The same of a station, if it names one.
fn ask_of(
    rt: &HostRuntime,
    account: u32,
    client: u32,
    id: u8,
    station: Option<Octets>,
    moment: u64,
) -> io::Result<Move> {
    let key = Key {
        source: Source {
            address: [10, 0, 0, 1],
            port: 1024,
        },
        id,
        authenticator: [id; 16],
    };
    let act = Act::Ask {
        key,
        nas: nas_at(rt, client, b"nas1")?,
        station,
    };
    Ok(Move::Own {
        account,
        event: Event { moment, act },
    })
}

/// A Start or an Interim-Update of a session of an account, by way of a client.
pub fn alive(
    rt: &HostRuntime,
    account: u32,
    client: u32,
    session: &[u8],
    class: Option<u64>,
    moment: u64,
) -> io::Result<Move> {
    let act = Act::Alive {
        nas: nas_at(rt, client, b"nas1")?,
        session: octets(rt, session)?,
        bundle: None,
        class,
        station: None,
    };
    Ok(Move::Own {
        account,
        event: Event { moment, act },
    })
}

/// The Start of a session of the first account.
fn start_of(rt: &HostRuntime, session: &[u8], moment: u64) -> io::Result<Move> {
    alive(rt, 0, 0, session, Some(0), moment)
}

/// A Stop of a session of an account, by way of a client.
pub fn stop_of(
    rt: &HostRuntime,
    account: u32,
    client: u32,
    session: &[u8],
    moment: u64,
) -> io::Result<Move> {
    let act = Act::Stop {
        nas: nas_at(rt, client, b"nas1")?,
        session: octets(rt, session)?,
    };
    Ok(Move::Own {
        account,
        event: Event { moment, act },
    })
}

/// An Interim-Update of a session of a bundle, at an access server that has an address alone.
fn bundled(rt: &HostRuntime, moment: u64) -> io::Result<Move> {
    let act = Act::Alive {
        nas: Nas {
            client: 0,
            name: NasName::Address(octets(rt, &[10, 0, 0, 9])?),
        },
        session: octets(rt, b"")?,
        bundle: Some(octets(rt, b"b\\1")?),
        class: None,
        station: None,
    };
    Ok(Move::Own {
        account: 1,
        event: Event { moment, act },
    })
}

/// A Stop at an access server with a name that is no word.
fn stop(rt: &HostRuntime, moment: u64) -> io::Result<Move> {
    let act = Act::Stop {
        nas: nas(rt, b"a name\n1 2 tick -> done")?,
        session: octets(rt, b"s=1")?,
    };
    Ok(Move::Own {
        account: 0,
        event: Event { moment, act },
    })
}

/// A packet that is no account's.
fn stray(rt: &HostRuntime, moment: u64) -> io::Result<Move> {
    let note = Note {
        nas: Nas {
            client: 0,
            name: NasName::Unnamed,
        },
        status: 9,
        name: octets(rt, b"no\xffbody")?,
        session: octets(rt, b"s2")?,
    };
    Ok(Move::Stray { moment, note })
}

/// An ask of the first account and its Start.
pub fn login(rt: &HostRuntime) -> io::Result<Vec<Move>> {
    Ok(vec![in rt.alloc(); ask(rt, 0, 0, 7, 1001)?, start_of(rt, b"s1", 1002)?]?)
}

/// The same by a clock that is ahead.
pub fn late_login(rt: &HostRuntime) -> io::Result<Vec<Move>> {
    Ok(vec![in rt.alloc();
        ask(rt, 0, 0, 7, 1_000_000)?,
        start_of(rt, b"s1", 1_000_001)?,
    ]?)
}

/// A tick.
pub fn tick(rt: &HostRuntime, moment: u64) -> io::Result<Vec<Move>> {
    Ok(vec![in rt.alloc(); Move::Tick { moment }]?)
}

/// A move of each kind.
pub fn each_kind(rt: &HostRuntime) -> io::Result<Vec<Move>> {
    let mut moves = login(rt)?;
    moves.push(ask(rt, 1, 0, 8, 1003)?)?;
    moves.push(ask(rt, 1, 0, 9, 1004)?)?;
    moves.push(bundled(rt, 1005)?)?;
    moves.push(stop(rt, 1006)?)?;
    moves.push(late(rt, 0, 1007)?)?;
    moves.push(Move::Tick { moment: 1008 })?;
    moves.push(stray(rt, 1009)?)?;
    Ok(moves)
}

/// An Access-Request of the second account, which has one place, of a station.
fn stationed(rt: &HostRuntime, id: u8, station: &[u8], moment: u64) -> io::Result<Move> {
    ask_of(rt, 1, 0, id, Some(octets(rt, station)?), moment)
}

/// A restart that is told this many seconds late.
fn late(rt: &HostRuntime, delay: u64, moment: u64) -> io::Result<Move> {
    Ok(Move::Sweep {
        moment,
        nas: nas(rt, b"nas1")?,
        delay,
    })
}

/// What comes of two stations, and of restarts that are told late: a session gets another station with
/// its Start, and yields to that; a restart ends what is as old as it.
pub fn stations(rt: &HostRuntime) -> io::Result<Vec<Move>> {
    let act = Act::Alive {
        nas: nas(rt, b"nas1")?,
        session: octets(rt, b"s1")?,
        bundle: None,
        class: Some(0),
        station: Some(octets(rt, b"\xffb")?),
    };
    let start = Move::Own {
        account: 1,
        event: Event { moment: 1002, act },
    };
    Ok(vec![in rt.alloc();
        stationed(rt, 7, b"00-10 a", 1001)?,
        start,
        stationed(rt, 8, b"\xffb", 1003)?,
        late(rt, 3600, 1004)?,
        stationed(rt, 9, b"00-10 a", 1005)?,
        late(rt, 2, 1005)?,
        stationed(rt, 10, b"\xffb", 1006)?,
    ]?)
}

/// What comes of them in the next generation: the link has its station.
pub fn stations_again(rt: &HostRuntime) -> io::Result<Vec<Move>> {
    Ok(vec![in rt.alloc();
        stationed(rt, 11, b"\xffb", 1007)?,
        stationed(rt, 12, b"00-10 a", 1008)?,
    ]?)
}

/// What comes in the one after that: the link has its opening.
pub fn late_restarts(rt: &HostRuntime) -> io::Result<Vec<Move>> {
    Ok(vec![in rt.alloc();
        late(rt, 4, 1010)?,
        stationed(rt, 13, b"00-10 a", 1010)?,
        late(rt, 4, 1011)?,
        stationed(rt, 14, b"00-10 a", 1011)?,
    ]?)
}

/// A Start whose session id is a whole frame of a log.
pub fn frame_as_id(rt: &HostRuntime) -> io::Result<Vec<Move>> {
    let frame = frame_of(rt.alloc(), b"x")?;
    Ok(vec![in rt.alloc(); start_of(rt, frame.as_slice(), 1002)?]?)
}

/// Starts a server that records a batch of moves, and says what it decided.
pub fn record(rt: &HostRuntime, folder: &str, moves: Vec<Move>, now: u64) -> io::Result<()> {
    let ticks = Ticks::new();
    match started(rt, folder, OURS, now, &ticks) {
        Ok(mut started) => commit(rt, &mut started, moves),
        Err(fault) => println!(rt; "a start: {fault}"),
    }
}

/// Starts a server that records two batches of moves in one log, and says what it decided.
pub fn record_both(
    rt: &HostRuntime,
    folder: &str,
    first: Vec<Move>,
    second: Vec<Move>,
    now: u64,
) -> io::Result<()> {
    let ticks = Ticks::new();
    match started(rt, folder, OURS, now, &ticks) {
        Ok(mut started) => {
            commit(rt, &mut started, first)?;
            commit(rt, &mut started, second)
        }
        Err(fault) => println!(rt; "a start: {fault}"),
    }
}

/// Records a batch of moves, and says what was decided.
pub fn commit(rt: &HostRuntime, started: &mut Started<'_>, moves: Vec<Move>) -> io::Result<()> {
    match started.store.commit(rt.alloc(), moves) {
        Ok(recorded) => println!(rt; "decisions: {:?}", recorded.decisions()),
        Err(fault) => println!(rt; "a batch: {fault}"),
    }
}
