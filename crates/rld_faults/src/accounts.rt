//! What is wrong with an account file.

ghost use Rattle.std.specs.Prelude.{IfOk};
ghost use Rattle.rld_faults.specs.Told.{IsTold};

use crate::account_rows::{ACCOUNT, CLIENT, DISCONNECT, HEAD, PROFILE, VERSION};
use crate::faults::Faults;
use crate::found::Finds;
use crate::kind::number_of;
use crate::owner::Owner;
use crate::replies::{find_replies, find_unknown_profile};
use crate::shown::shown;
use crate::table::{Reading, say};
use crate::twice::Firsts;
use rsl_accounts::ConfigFault;
use rsl_reply::Dictionary;
use rsl_wire::NoMemory;
use std::alloc::Global;
use toml::Value;

/// The fewest octets of a client's secret in version 3.
const SECRET_LEN: usize = 16;

/// The seconds of a reservation, where a file of version 3 does not say it.
const RESERVE_SECS: u64 = 60;

/// What is wrong with the text of an account file that its reader refuses for this fault, with the lines of the
/// text. `names` are those of reply attributes. It fails only where memory is refused.
pub fn account_faults(
    alloc: Global,
    names: &Dictionary,
    text: &[u8],
    fault: &ConfigFault,
) -> Result<Faults, NoMemory>
    ensures { IfOk result IsTold }
{
    let table = match toml::table_from_slice(alloc, text) {
        Ok(table) => table,
        Err(error) => return Faults::of_break(alloc, text, &error),
    };
    let file = Value::Table(table);
    let mut finds = Finds::new(alloc);
    find_in_file(&mut finds, names, &file)?;
    if let ConfigFault::ReplyTooLong(name) = fault {
        find_long_reply(&mut finds, &file, name.as_str())?;
    }
    if finds.kept.is_empty() {
        let sentence = format!(in alloc; "{fault}")?;
        finds.push(Vec::new(alloc), sentence)?;
    }
    Faults::of_finds(finds, text)
}

/// Finds the account of this name, whose reply attributes have too many octets with those of its profile.
fn find_long_reply(finds: &mut Finds, file: &Value, name: &str) -> Result<(), NoMemory> {
    for (index, table) in tables_of(file, "account").iter().enumerate() {
        if text_at(table, "name") == Some(name) {
            let owner = Owner::Account(index, table);
            return say(
                finds,
                owner,
                "reply",
                "with its profile has over 1,000 octets",
            );
        }
    }
    Ok(())
}

/// Finds what is wrong with a file. Where its version is wrong, nothing else is looked at.
fn find_in_file(finds: &mut Finds, names: &Dictionary, file: &Value) -> Result<(), NoMemory> {
    let alloc = finds.alloc;
    let version = match file.get("version") {
        Some(value) => match VERSION.kind().wrong(alloc, value)? {
            Some(wrong) => return say(finds, Owner::Head, "version", wrong.as_str()),
            None => number_of(value).unwrap_or(3),
        },
        None => return say(finds, Owner::Head, "version", "is missing"),
    };
    let reading = Reading { version };
    reading.check(finds, Owner::Head, file, HEAD)?;
    find_long_keep(finds, reading, file)?;
    find_in_profiles(finds, names, reading, file)?;
    find_in_clients(finds, reading, file)?;
    find_in_accounts(finds, names, reading, file)
}

/// Finds a keep time over the reserve time.
fn find_long_keep(finds: &mut Finds, reading: Reading, file: &Value) -> Result<(), NoMemory> {
    let alloc = finds.alloc;
    let keep = file.get("keep_secs");
    let reserve = match file.get("reserve_secs") {
        Some(value) => number_of(value),
        None if reading.is_strict() => Some(RESERVE_SECS),
        None => None,
    };
    if let (Some(value), Some(reserve)) = (keep, reserve) {
        if number_of(value).is_some_and(|keep| reserve < keep) {
            let value = shown(alloc, value)?;
            let wrong = format!(in alloc; "is {value}; it is at most reserve_secs, {reserve}")?;
            return say(finds, Owner::Head, "keep_secs", wrong.as_str());
        }
    }
    Ok(())
}

/// Finds what is wrong with the profiles.
fn find_in_profiles(
    finds: &mut Finds,
    names: &Dictionary,
    reading: Reading,
    file: &Value,
) -> Result<(), NoMemory> {
    if !reading.is_strict() {
        return Ok(());
    }
    let Some(profiles) = file.get("profile") else {
        return Ok(());
    };
    let Some(profiles) = profiles.as_table() else {
        return Ok(());
    };
    for (name, table) in profiles.iter() {
        let owner = Owner::Profile(name.as_str());
        if table.is_table() {
            reading.check(finds, owner, table, PROFILE)?;
            find_replies(finds, names, owner, table)?;
        } else {
            say(finds, owner, "reply", "is missing")?;
        }
    }
    Ok(())
}

/// Finds what is wrong with the clients.
fn find_in_clients(finds: &mut Finds, reading: Reading, file: &Value) -> Result<(), NoMemory> {
    let mut firsts = Firsts::new(finds.alloc, "client", "address");
    for (index, table) in tables_of(file, "client").iter().enumerate() {
        let owner = Owner::Client(index, table);
        reading.check(finds, owner, table, CLIENT)?;
        if reading.is_strict() {
            find_in_client(finds, reading, index, table)?;
        }
        firsts.find_second(finds, owner, table)?;
    }
    Ok(())
}

/// Finds what only version 3 refuses of a client.
fn find_in_client(
    finds: &mut Finds,
    reading: Reading,
    index: usize,
    table: &Value,
) -> Result<(), NoMemory> {
    let alloc = finds.alloc;
    let owner = Owner::Client(index, table);
    if let Some(secret) = text_at(table, "secret") {
        let len = secret.len();
        if 0 < len && len < SECRET_LEN {
            let wrong = format!(in alloc; "has {len} octets; {SECRET_LEN} or more")?;
            say(finds, owner, "secret", wrong.as_str())?;
        }
    }
    if is_said(table, "trusted", true) && is_said(table, "signed", false) {
        say(
            finds,
            owner,
            "trusted",
            "is true, but signed is false; a trusted client signs",
        )?;
    }
    match table.get("disconnect") {
        Some(value) if value.is_table() => {
            reading.check(finds, Owner::Disconnect(index, table), value, DISCONNECT)
        }
        _ => Ok(()),
    }
}

/// Finds what is wrong with the accounts.
fn find_in_accounts(
    finds: &mut Finds,
    names: &Dictionary,
    reading: Reading,
    file: &Value,
) -> Result<(), NoMemory> {
    let mut firsts = Firsts::new(finds.alloc, "account", "name");
    let profiles = file.get("profile");
    for (index, table) in tables_of(file, "account").iter().enumerate() {
        let owner = Owner::Account(index, table);
        reading.check(finds, owner, table, ACCOUNT)?;
        if reading.is_strict() {
            find_unknown_profile(finds, owner, table, profiles)?;
            find_replies(finds, names, owner, table)?;
        }
        firsts.find_second(finds, owner, table)?;
    }
    Ok(())
}

/// The tables of a list, as far as it is one of tables.
pub(crate) fn tables_of<'a>(file: &'a Value, key: &str) -> &'a [Value] {
    match file.get(key) {
        Some(value) => match value.as_array() {
            Some(items) => items.as_slice(),
            None => &[],
        },
        None => &[],
    }
}

/// The text under a key.
pub(crate) fn text_at<'a>(table: &'a Value, key: &str) -> Option<&'a str> {
    match table.get(key) {
        Some(value) => value.as_str(),
        None => None,
    }
}

/// Whether a key has this truth value.
fn is_said(table: &Value, key: &str, flag: bool) -> bool {
    match table.get(key) {
        Some(value) => value.as_bool() == Some(flag),
        None => false,
    }
}
