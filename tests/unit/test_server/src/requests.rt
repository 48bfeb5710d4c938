//! The accounts of a test, and the requests of their access server.

use rsl_account_file::read_config;
use rsl_accounts::Config;
use rsl_auth::{hide, seal};
use rsl_reply::Dictionary;
use rsl_wire::Draft;
use std::alloc::Global;
use std::test::Fail;

/// How many accounts there are.
pub(crate) const ACCOUNTS: u64 = 500; // quick: 50

/// The access server's secret.
pub(crate) const SECRET: &[u8] = b"xyzzy5461";

/// What stands before the accounts in the account file.
const HEAD: &str = r#"
version = 1
shards = 4
reserve_secs = 60
live_secs = 900
grace_secs = 900
closed_secs = 3600
keep_secs = 10

[[client]]
address = "127.0.0.1"
secret = "xyzzy5461"
"#;

/// What a request tells.
#[derive(Clone, Copy, Debug, PartialEq, Eq)]
pub(crate) enum Kind {
    Ask,
    Start,
    Interim,
    Stop,
}

/// The accounts `u0`, `u1` and so on, with a place each, in four shards.
pub(crate) fn config_of(alloc: Global) -> Result<Config, Fail> {
    let mut text = String::from_str(alloc, HEAD)?;
    for account in 0..ACCOUNTS {
        write!(
            text,
            "[[account]]\nname = \"u{account}\"\npassword = \"pw\"\nplaces = 1\nports = 1\n"
        )?;
    }
    Ok(read_config(alloc, &Dictionary::new(alloc), text.as_bytes())?)
}

/// A request for an account, of its session of a round.
pub(crate) fn request_of(
    alloc: Global,
    kind: Kind,
    account: u64,
    round: u64,
) -> Result<Vec<u8>, Fail> {
    let name = format!(in alloc; "u{account}")?;
    let id = (account % 256) as u8;
    match kind {
        Kind::Ask => ask(alloc, name.as_str(), id, round),
        Kind::Start => accounting(alloc, name.as_str(), id, round, 1),
        Kind::Interim => accounting(alloc, name.as_str(), id, round, 3),
        Kind::Stop => accounting(alloc, name.as_str(), id, round, 2),
    }
}

/// An Access-Request. No two of an account have one Request Authenticator.
fn ask(alloc: Global, name: &str, id: u8, round: u64) -> Result<Vec<u8>, Fail> {
    let mut authenticator = [0; 16];
    authenticator[..8].copy_from_slice(&round.to_be_bytes());
    let hidden = hide(alloc, b"pw", SECRET, &authenticator)?;
    let mut draft = Draft::new(alloc, id)?;
    draft.push(1, name.as_bytes())?;
    draft.push(2, &hidden)?;
    draft.push(32, b"n")?;
    Ok(draft.finish(1, &authenticator))
}

/// An Accounting-Request with this status.
fn accounting(alloc: Global, name: &str, id: u8, round: u64, status: u8) -> Result<Vec<u8>, Fail> {
    let mut draft = Draft::new(alloc, id)?;
    draft.push(1, name.as_bytes())?;
    draft.push(44, &round.to_be_bytes())?;
    draft.push(40, &[0, 0, 0, status])?;
    draft.push(32, b"n")?;
    let mut octets = draft.finish(4, &[0; 16]);
    if octets.len() < 20 {
        return Err("a short packet")?;
    }
    seal(&mut octets, &[0; 16], SECRET);
    Ok(octets)
}
