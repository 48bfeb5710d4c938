//! A server of two accounts with one place each, and what happens to it.

use rld_log::{Crash, Ending, Life, MemoryLog};
use rld_spelling::Header;
use rld_store::{Opened, Refused, Store, read_frames};
use rsl_account_file::read_config;
use rsl_accounts::Config;
use rsl_event::{Act, Decision, Event, Key, Nas, NasName, Source};
use rsl_reply::Dictionary;
use rsl_shard::Move;
use rsl_wire::Octets;
use std::alloc::Global;
use std::process::Abort;
use std::sync::Arc;
use std::test::Fail;

/// The configuration of two accounts.
const FILE: &str = "version = 1\nshards = 1\nreserve_secs = 60\nlive_secs = 900\n\
grace_secs = 900\nclosed_secs = 3600\nkeep_secs = 10\n\
client = [{ address = \"192.168.1.16\", secret = \"xyzzy5461\" }]\n\
account = [\n\
{ name = \"a\", password = \"pw\", places = 1, ports = 1 },\n\
{ name = \"b\", password = \"pw\", places = 1, ports = 1 },\n]\n";

/// The header of the first generation.
pub const HEADER: Header = Header {
    generation: 1,
    table: 3,
    boot: 7,
    lines: 0,
};

/// The configuration.
pub fn config(alloc: Global) -> Result<Arc<Config>, Fail> {
    let config = read_config(alloc, &Dictionary::new(alloc), FILE.as_bytes())?;
    Ok(Arc::new(alloc, config)?)
}

/// A log in memory with these octets, whose lives go so.
pub fn log_of(alloc: Global, octets: &[u8], lives: &[Life]) -> Result<MemoryLog, Fail> {
    Ok(MemoryLog::new(alloc, octets.to_vec(alloc)?, lives.to_vec(alloc)?)?)
}

/// The access server.
fn nas() -> Nas {
    Nas {
        client: 0,
        name: NasName::Unnamed,
    }
}

/// A login of an account at second 100, by a request with this Identifier.
pub fn ask(account: u32, id: u8) -> Move {
    let key = Key {
        source: Source {
            address: [192, 168, 1, 16],
            port: 1024,
        },
        id,
        authenticator: [170; 16],
    };
    Move::Own {
        account,
        event: Event {
            moment: 100,
            act: Act::Ask {
                key,
                nas: nas(),
                station: None,
            },
        },
    }
}

/// A session of an account that goes on at second 101, of the device `d`.
pub fn alive(alloc: Global, account: u32, session: &[u8], class: u64) -> Result<Move, Fail> {
    Ok(Move::Own {
        account,
        event: Event {
            moment: 101,
            act: Act::Alive {
                nas: nas(),
                session: Octets::from_slice(alloc, session)?,
                bundle: None,
                class: Some(class),
                station: Some(Octets::from_slice(alloc, b"d")?),
            },
        },
    })
}

/// A tick at the moment.
pub fn tick(moment: u64) -> Move {
    Move::Tick { moment }
}

/// A new store, whose log has these lives.
pub fn begun(alloc: Global, lives: &[Life]) -> Result<Store<MemoryLog>, Fail> {
    let log = log_of(alloc, &[], lives)?;
    match Store::begin(alloc, config(alloc)?, HEADER, log) {
        Ok(store) => Ok(store),
        Err(_) => Err("not begun")?,
    }
}

/// Reads a log and opens it.
pub fn open(
    alloc: Global,
    config: Arc<Config>,
    log: MemoryLog,
) -> Result<Opened<MemoryLog>, Refused<MemoryLog>> {
    let mut log = log;
    match read_frames(alloc, &mut log) {
        Ok(frames) => Store::open(alloc, config, log, &frames),
        Err(fault) => Err(Refused { log, fault }),
    }
}

/// A store of a log with these octets, and what was found there.
pub fn found(alloc: Global, octets: &[u8]) -> Result<Opened<MemoryLog>, Fail> {
    match open(alloc, config(alloc)?, log_of(alloc, octets, &[])?) {
        Ok(opened) => Ok(opened),
        Err(_) => Err("not opened")?,
    }
}

/// Has a store record a batch, and checks the decisions on its moves.
pub fn commit<R: Abort + AllocGlobal>(
    rt: &R,
    store: &mut Store<MemoryLog>,
    batch: Vec<Move>,
    wanted: &[Decision],
) -> Result<(), Fail> {
    let recorded = store.commit(rt.alloc(), batch)?;
    assert_eq!(rt; recorded.decisions(), wanted);
    Ok(())
}

/// Has a store record one move, and checks the decision on it.
pub fn commit_one<R: Abort + AllocGlobal>(
    rt: &R,
    store: &mut Store<MemoryLog>,
    moved: Move,
    wanted: Decision,
) -> Result<(), Fail> {
    commit(rt, store, vec![in rt.alloc(); moved]?, &[wanted])
}

/// Checks how many places both accounts hold.
pub fn check_held<R: Abort + AllocGlobal>(
    rt: &R,
    store: &Store<MemoryLog>,
    wanted: [u32; 2],
) -> Result<(), Fail> {
    let rows = store.rows(rt.alloc())?;
    match rows.as_slice() {
        [first, second] => assert_eq!(rt; [first.held, second.held], wanted),
        _ => return Err("other accounts")?,
    }
    Ok(())
}

/// What a crash of this kind leaves of a log.
pub fn crashed(mut log: MemoryLog, ending: Ending) -> MemoryLog {
    log.restart(ending);
    log
}
