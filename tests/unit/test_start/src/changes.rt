//! Account files that change, and what goes on of sessions in the generation that follows.
//!
//! Before each change the account `nemo` holds three places of three: the session `s1` at 10.0.0.1,
//! which opened first and was touched last, the session `s2` at 10.0.0.2, and the reservation of
//! accept number 1 at 10.0.0.1. One request more was refused, and the session `s9` was stopped.
//! `flopsy` holds the session `f1` at 10.0.0.2.

use crate::server::{alive, ask, commit, pacing, say_header, stop_of};
use rld_config::NewHistory;
use rld_folder::Generation;
use rld_log::Ticks;
use rld_start::{Started, start};
use rsl_account_file::read_config_file;
use rsl_accounts::Config;
use rsl_reply::Dictionary;
use rsl_session::{SavedHolder, SavedLink};
use rsl_shard::Move;
use std::sync::Arc;
use std::{fs, io};

/// The account files after each change.
pub const CHANGES: [&str; 12] = [
    "secrets_changed",
    "account_added",
    "account_removed",
    "account_renamed",
    "accounts_in_another_order",
    "places_lowered",
    "places_raised",
    "times_changed",
    "client_in_front",
    "client_removed",
    "client_with_another_address",
    "shards_changed",
];

/// The address of the client at which most happens.
const FIRST: [u8; 4] = [10, 0, 0, 1];

/// The address of the other client.
const SECOND: [u8; 4] = [10, 0, 0, 2];

/// What comes of sessions as account files change, and as a crash cuts that short.
pub fn changes(rt: &HostRuntime) -> io::Result<()> {
    for name in CHANGES {
        change(rt, name)?;
    }
    cuts_short(
        rt,
        "changed_places_raised",
        &accounts(rt, "places_raised")?,
        3,
        Begins {
            generation: 2,
            table: 2,
            lines: 8,
        },
    )
}

/// The account file of a name.
pub fn accounts(rt: &HostRuntime, name: &str) -> io::Result<Arc<Config>> {
    let path = format!(in rt.alloc(); "{name}.toml")?;
    match read_config_file(rt, rt.alloc(), &Dictionary::new(rt.alloc()), path.as_str()) {
        Ok(config) => Ok(Arc::new(rt.alloc(), config)?),
        Err(_) => Err(io::Error::from(io::ErrorKind::InvalidData)),
    }
}

/// A server that is started from a folder with these accounts.
pub fn started<'a>(
    rt: &HostRuntime,
    folder: &str,
    config: &Arc<Config>,
    now: u64,
    ticks: &'a Ticks,
) -> io::Result<Started<'a>> {
    let pacing = pacing(ticks);
    match start(
        rt,
        rt.alloc(),
        config,
        folder,
        NewHistory::Begins,
        now,
        pacing,
    ) {
        Ok(started) => Ok(started),
        Err(_) => Err(io::Error::from(io::ErrorKind::InvalidData)),
    }
}

/// A server whose account file becomes that of a name.
fn change(rt: &HostRuntime, name: &str) -> io::Result<()> {
    let folder = format!(in rt.alloc(); "changed_{name}")?;
    begin_before(rt, folder.as_str())?;
    let config = accounts(rt, name)?;
    let ticks = Ticks::new();
    let mut started = started(rt, folder.as_str(), &config, 1010, &ticks)?;
    say_change(rt, name, &*config, &mut started)
}

/// Says what a start after a change found, what each account holds, and what comes of what is sent again.
fn say_change(
    rt: &HostRuntime,
    name: &str,
    config: &Config,
    started: &mut Started<'_>,
) -> io::Result<()> {
    println!(rt; "{name}: {}", started.found.greeting(rt.alloc())?)?;
    say_header(rt, "  ", &started.store.header())?;
    say_all(rt, config, started)?;
    send_again(rt, config, started)
}

/// A server that has recorded what comes before each change.
pub fn begin_before(rt: &HostRuntime, folder: &str) -> io::Result<()> {
    let config = accounts(rt, "before")?;
    let ticks = Ticks::new();
    let mut started = started(rt, folder, &config, 1000, &ticks)?;
    record(rt, &mut started, &*config, Batch::Before)
}

/// What is recorded.
#[derive(Clone, Copy, Debug)]
enum Batch {
    /// What comes before each change.
    Before,
    /// What is sent again after a change: the request that was accepted, the one that was refused, and an
    /// Interim-Update of the session that was stopped.
    Again,
}

/// Records a batch.
fn record(
    rt: &HostRuntime,
    started: &mut Started<'_>,
    config: &Config,
    batch: Batch,
) -> io::Result<()> {
    let mut moves = Vec::new(rt.alloc());
    match batch {
        Batch::Before => add_before(rt, config, &mut moves)?,
        Batch::Again => add_again(rt, config, &mut moves)?,
    }
    commit(rt, started, moves)
}

/// Adds what comes before each change.
fn add_before(rt: &HostRuntime, config: &Config, moves: &mut Vec<Move>) -> io::Result<()> {
    let (Some(nemo), Some(flopsy)) = (config.account(b"nemo"), config.account(b"flopsy")) else {
        return Ok(());
    };
    let (Some(first), Some(second)) = (config.client(FIRST), config.client(SECOND)) else {
        return Ok(());
    };
    moves.push(ask(rt, nemo, first, 7, 1001)?)?;
    moves.push(alive(rt, nemo, first, b"s1", Some(0), 1002)?)?;
    moves.push(alive(rt, nemo, second, b"s2", None, 1003)?)?;
    moves.push(alive(rt, flopsy, second, b"f1", None, 1004)?)?;
    moves.push(ask(rt, nemo, first, 8, 1005)?)?;
    moves.push(ask(rt, nemo, first, 9, 1006)?)?;
    moves.push(stop_of(rt, nemo, first, b"s9", 1007)?)?;
    moves.push(alive(rt, nemo, first, b"s1", None, 1008)?)?;
    Ok(())
}

/// Adds what is sent again after a change, if `nemo` and its first client are there still.
fn add_again(rt: &HostRuntime, config: &Config, moves: &mut Vec<Move>) -> io::Result<()> {
    let (Some(nemo), Some(first)) = (config.account(b"nemo"), config.client(FIRST)) else {
        return Ok(());
    };
    moves.push(ask(rt, nemo, first, 8, 1012)?)?;
    moves.push(ask(rt, nemo, first, 9, 1012)?)?;
    moves.push(alive(rt, nemo, first, b"s9", None, 1012)?)?;
    Ok(())
}

/// Records what is sent again after a change, and says what `nemo` holds then, if it is there still.
fn send_again(rt: &HostRuntime, config: &Config, started: &mut Started<'_>) -> io::Result<()> {
    let (Some(nemo), Some(_)) = (config.account(b"nemo"), config.client(FIRST)) else {
        return Ok(());
    };
    record(rt, started, config, Batch::Again)?;
    say(rt, config, started, nemo)
}

/// Says what each account holds.
pub fn say_all(rt: &HostRuntime, config: &Config, started: &Started<'_>) -> io::Result<()> {
    for account in 0..config.accounts() {
        say(rt, config, started, account)?;
    }
    Ok(())
}

/// Says what an account holds.
fn say(rt: &HostRuntime, config: &Config, started: &Started<'_>, account: u32) -> io::Result<()> {
    let Ok(Some(links)) = started.store.links(rt.alloc(), account) else {
        return Ok(());
    };
    if account < config.accounts() {
        let entry = config.entry(account);
        print!(rt; "  {} of {}:", entry.name.as_str(), entry.rules.places)?;
    }
    for link in links.as_slice() {
        say_link(rt, config, link)?;
    }
    println!(rt; "")
}

/// Says who has a link, at which client, and when it was touched last.
fn say_link(rt: &HostRuntime, config: &Config, link: &SavedLink) -> io::Result<()> {
    match &link.holder {
        SavedHolder::Reserved(number) => print!(rt; " #{number}")?,
        SavedHolder::Bound(id) => {
            print!(rt; " {}", str::from_utf8(id.as_slice()).unwrap_or("?"))?;
        }
    }
    if link.nas.client < config.clients() {
        let [_, _, _, last] = config.client_at(link.nas.client).address;
        print!(rt; "@{last}")?;
    }
    print!(rt; "/{}", link.touched)
}

/// How a crash in a change left its folder: the sessions went on from the old generation once more, or
/// from the one that had begun.
#[derive(Clone, Copy, Debug, PartialEq, Eq)]
enum Left {
    Old,
    New,
    Neither,
}

/// What the header says of a generation that begins with other books than those before.
#[derive(Clone, Copy)]
pub struct Begins {
    /// Its number.
    pub generation: u64,
    /// The number of its table.
    pub table: u64,
    /// The number of moves before it.
    pub lines: u64,
}

/// What a start finds in a folder that a crash has left, which is as it was then. As many sessions go on,
/// in the generation after that one, with its table, after its moves or more, and under the boot
/// number 1000.
fn left_in(
    rt: &HostRuntime,
    folder: &str,
    config: &Arc<Config>,
    sessions: u64,
    begins: Begins,
) -> io::Result<Left> {
    let ticks = Ticks::new();
    let started = started(rt, folder, config, 1020, &ticks)?;
    let found = started.found;
    let header = started.store.header();
    let next = begins.generation.saturating_add(1);
    let is_next = header.generation == next
        && header.table == begins.table
        && header.boot == 1000
        && header.lines >= begins.lines
        && found.moves == header.lines
        && found.sessions == sessions;
    let left = match found.from {
        Some(Generation::Numbered(number)) if number == begins.generation && is_next => Left::New,
        Some(Generation::Numbered(number)) if number < begins.generation && is_next => Left::Old,
        Some(Generation::Former { .. }) if is_next => Left::Old,
        _ => Left::Neither,
    };
    let path = format!(in rt.alloc(); "{folder}/log-{next}")?;
    fs::remove_file(rt, path.as_str())?;
    Ok(left)
}

/// A crash at each length of the log with which other accounts begin: it leaves the old generation while
/// the snapshot is not whole, and then the new one. Says where it leaves neither.
pub fn cuts_short(
    rt: &HostRuntime,
    folder: &str,
    config: &Arc<Config>,
    sessions: u64,
    begins: Begins,
) -> io::Result<()> {
    let log = format!(in rt.alloc(); "{folder}/log-{}", begins.generation)?;
    let whole = fs::read(rt, log.as_str())?;
    let mut last = Left::Old;
    let mut old = 0u64;
    for len in 0..=whole.len() {
        fs::write(rt, log.as_str(), &whole[..len])?;
        let left = left_in(rt, folder, config, sessions, begins)?;
        if left == Left::Neither || (left, last) == (Left::Old, Left::New) {
            println!(rt; "cut to {len}: {left:?}")?;
        }
        if left == Left::Old {
            old = old.saturating_add(1);
        }
        last = left;
    }
    println!(rt; "cut to each length: {old} times the old generation, and at last {last:?}")
}
