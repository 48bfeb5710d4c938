//! The table of an account file, and the account files that have the same.

use rld_books::{is_table_of, table_octets};
use rsl_account_file::read_config;
use rsl_accounts::Config;
use rsl_reply::Dictionary;
use std::io;

/// The octets of the table, by hand: one account, one client.
const TABLE: &str = "01046e656d6f02013cfd0384fd0384fd0e100a010a000001";

/// An account file with these words in place of its own.
fn file_with(rt: &HostRuntime, word: &str, other: &str) -> io::Result<String> {
    let text = "version = 2\nshards = 3\nreserve_secs = 60\nlive_secs = 900\ngrace_secs = 900\n\
closed_secs = 3600\nkeep_secs = 10\n\
[[client]]\naddress = \"10.0.0.1\"\nsecret = \"xyzzy5461xyzzy5461\"\n\
[[account]]\nname = \"nemo\"\npassword = \"arctangent\"\nplaces = 2\nports = 1\n";
    Ok(text.replace(rt.alloc(), word, other)?)
}

/// Says what the table is, and which account files have it.
pub fn say_tables(rt: &HostRuntime) -> io::Result<()> {
    say_table(rt, "the file itself", "", "")?;
    say_table(rt, "another password", "arctangent", "arcsine")?;
    say_table(rt, "another secret", "xyzzy5461", "abracadabra")?;
    let stationed = "version = 3\nstation = true\ndelay_time = true";
    say_table(rt, "stations and delays", "version = 2", stationed)?;
    let asked = "keep_secs = 10\ninterim_secs = 300";
    say_table(rt, "an interval", "keep_secs = 10", asked)?;
    let asked = "ports = 1\ninterim_secs = 60";
    say_table(rt, "an interval of an account", "ports = 1", asked)?;
    say_table(rt, "another name", "nemo", "flopsy")?;
    say_table(rt, "another place", "places = 2", "places = 3")?;
    say_table(rt, "another time", "live_secs = 900", "live_secs = 901")?;
    say_table(rt, "another address", "10.0.0.1", "10.0.0.2")?;
    say_table(rt, "another number of shards", "shards = 3", "shards = 4")
}

/// Says whether an account file in which a word is another has the table.
fn say_table(rt: &HostRuntime, what: &str, word: &str, other: &str) -> io::Result<()> {
    let text = file_with(rt, word, other)?;
    let Ok(config) = read_config(rt.alloc(), &Dictionary::new(rt.alloc()), text.as_bytes()) else {
        return println!(rt; "{what}: no account file");
    };
    let Ok(table) = hex::decode(rt.alloc(), TABLE) else {
        return println!(rt; "{what}: no table");
    };
    match is_table_of(rt.alloc(), &config, table.as_slice()) {
        Ok(true) => println!(rt; "{what}: the table"),
        Ok(false) => say_own(rt, what, &config),
        Err(_) => println!(rt; "{what}: no memory"),
    }
}

/// Says which table an account file has.
fn say_own(rt: &HostRuntime, what: &str, config: &Config) -> io::Result<()> {
    match table_octets(rt.alloc(), config) {
        Ok(table) => println!(rt; "{what}: {}", hex::encode(rt.alloc(), table.as_slice())?),
        Err(_) => println!(rt; "{what}: no memory"),
    }
}
