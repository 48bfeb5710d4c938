//! The configuration of tests, and the datagrams of its only access server.

use rsl_account_file::read_config;
use rsl_accounts::Config;
use rsl_auth::{hide, seal};
use rsl_event::Source;
use rsl_reply::Dictionary;
use rsl_wire::Draft;
use std::alloc::Global;
use std::test::Fail;

/// The access server's secret.
const SECRET: &[u8] = b"xyzzy5461xyzzy5461";

/// The access server.
pub(crate) const SOURCE: Source = Source {
    address: [192, 168, 1, 16],
    port: 1024,
};

/// The accounts `a`, `b`, `c` and `d`, with PLACES each in SHARDS shards. They count by stations, and
/// delays of restarts count.
const FILE: &str = r#"
version = 3
shards = SHARDS
reserve_secs = 60
live_secs = 900
grace_secs = 900
closed_secs = 3600
keep_secs = 10
station = true
delay_time = true
client = [{ address = "192.168.1.16", secret = "xyzzy5461xyzzy5461", signed = false }]
account = [
    { name = "a", password = "pw", places = PLACES, ports = 1 },
    { name = "b", password = "pw", places = PLACES, ports = 1 },
    { name = "c", password = "pw", places = PLACES, ports = 1 },
    { name = "d", password = "pw", places = PLACES, ports = 1 },
]
"#;

/// `shards` shards, and the four accounts with `places` places each.
pub(crate) fn config_of(alloc: Global, shards: &str, places: &str) -> Result<Config, Fail> {
    let text = FILE.replace(alloc, "SHARDS", shards)?;
    let text = text.replace(alloc, "PLACES", places)?;
    Ok(read_config(alloc, &Dictionary::new(alloc), text.as_bytes())?)
}

/// An Access-Request of this user, with this identifier and Request Authenticator.
pub(crate) fn ask(
    alloc: Global,
    name: &str,
    id: u8,
    authenticator: &[u8; 16],
) -> Result<Vec<u8>, Fail> {
    ask_of(alloc, name, id, authenticator, None)
}

/// The same of a station, if it names one.
pub(crate) fn ask_of(
    alloc: Global,
    name: &str,
    id: u8,
    authenticator: &[u8; 16],
    station: Option<&str>,
) -> Result<Vec<u8>, Fail> {
    let hidden = hide(alloc, b"pw", SECRET, authenticator)?;
    let mut draft = Draft::new(alloc, id)?;
    draft.push(1, name.as_bytes())?;
    draft.push(2, &hidden)?;
    draft.push(32, b"n")?;
    if let Some(station) = station {
        draft.push(31, station.as_bytes())?;
    }
    Ok(draft.finish(1, authenticator))
}

/// An Accounting-On, with an Acct-Delay-Time of `delay` seconds if there is one.
pub(crate) fn on(alloc: Global, delay: Option<u32>) -> Result<Vec<u8>, Fail> {
    let mut draft = Draft::new(alloc, 1)?;
    if let Some(delay) = delay {
        draft.push(41, &delay.to_be_bytes())?;
    }
    accounting(draft, 7)
}

/// An Accounting-Request of a user that is no account's: a session has started.
pub(crate) fn stray(alloc: Global) -> Result<Vec<u8>, Fail> {
    let mut draft = Draft::new(alloc, 1)?;
    draft.push(1, b"ghost")?;
    draft.push(44, b"s")?;
    accounting(draft, 1)
}

/// An Accounting-Request of what a draft has, with this status.
fn accounting(mut draft: Draft, status: u8) -> Result<Vec<u8>, Fail> {
    draft.push(40, &[0, 0, 0, status])?;
    draft.push(32, b"n")?;
    let mut octets = draft.finish(4, &[0; 16]);
    if octets.len() < 20 {
        return Err("a short packet")?;
    }
    seal(&mut octets, &[0; 16], SECRET);
    Ok(octets)
}
