//! Folders that versions before format 3 wrote, by hand from docs/FOLDER.md. Each of the five accounts `a`
//! to `e` holds a session of its own name, and that of `d` has stopped after the snapshot. A snapshot
//! has the books shard after shard: account N is of shard N modulo the number of shards.

use crate::changes::{Begins, cuts_short, say_all};
use crate::files::{add, copy, empty, spoil};
use crate::printed::{print_as, say_fault};
use crate::rolls::list;
use crate::server::{config_of, cut_books, say, say_header, started};
use rld_lines::LinesFault;
use rld_log::{Ticks, frame_of};
use std::{fs, io};

/// The account file of the folders, with a number of shards that counts for nothing.
const FIVE: &str = "version = 2\nshards = 4\nreserve_secs = 60\nlive_secs = 900\n\
grace_secs = 900\nclosed_secs = 3600\nkeep_secs = 10\n\
[[client]]\naddress = \"10.0.0.1\"\nsecret = \"xyzzy5461\"\n\
[[account]]\nname = \"a\"\npassword = \"arctangent\"\nplaces = 2\nports = 1\n\
[[account]]\nname = \"b\"\npassword = \"arctangent\"\nplaces = 2\nports = 1\n\
[[account]]\nname = \"c\"\npassword = \"arctangent\"\nplaces = 2\nports = 1\n\
[[account]]\nname = \"d\"\npassword = \"arctangent\"\nplaces = 2\nports = 1\n\
[[account]]\nname = \"e\"\npassword = \"arctangent\"\nplaces = 2\nports = 1\n";

/// One with two of the accounts.
const TWO: &str = "version = 2\nshards = 1\nreserve_secs = 60\nlive_secs = 900\n\
grace_secs = 900\nclosed_secs = 3600\nkeep_secs = 10\n\
[[client]]\naddress = \"10.0.0.1\"\nsecret = \"xyzzy5461\"\n\
[[account]]\nname = \"e\"\npassword = \"arctangent\"\nplaces = 1\nports = 1\n\
[[account]]\nname = \"b\"\npassword = \"arctangent\"\nplaces = 2\nports = 1\n";

/// What follows the name of an account in a table: 2 places, 1 port, and its times.
const RULES: &[u8] = b"\x02\x01\x3c\xfd\x03\x84\xfd\x03\x84\xfd\x0e\x10\x0a";

/// The MD5 digest of the table with two shards, as `md5sum` prints it.
const TWO_SHARDS: [u8; 16] = [
    0xbe, 0x32, 0x7f, 0x79, 0x4d, 0x13, 0x80, 0x87, 0xa5, 0x96, 0x19, 0xd9, 0xe2, 0x6b, 0x77, 0x51,
];

/// That of the table with three.
const THREE_SHARDS: [u8; 16] = [
    0x09, 0x44, 0x26, 0xa0, 0x1d, 0xf0, 0x9c, 0x3f, 0x09, 0xdb, 0xd8, 0x0f, 0x6f, 0x30, 0x69, 0xc6,
];

/// A Stop of the session of account 3 at 1003, as the one move of a batch.
const STOP: &[u8] = b"\x01\x03\xfd\x03\xeb\x03\x00\x02\x01d";

/// What an earlier version wrote.
#[derive(Clone, Copy)]
struct Written {
    /// The version of the format.
    format: u8,
    /// How many shards the accounts were dealt to.
    shards: u8,
    /// The digest of the table.
    digest: [u8; 16],
    /// The names of the accounts, in the order of the snapshot.
    order: &'static [u8],
}

/// Two shards: the first has `a`, `c` and `e`.
const ONE_OVER_TWO: Written = Written {
    format: 1,
    shards: 2,
    digest: TWO_SHARDS,
    order: b"acebd",
};

const TWO_OVER_TWO: Written = Written {
    format: 2,
    ..ONE_OVER_TWO
};

/// Three: the first has `a` and `d`, the second `b` and `e`.
const TWO_OVER_THREE: Written = Written {
    format: 2,
    shards: 3,
    digest: THREE_SHARDS,
    order: b"adbec",
};

/// What comes of folders that earlier versions wrote.
pub fn formers(rt: &HostRuntime) -> io::Result<()> {
    goes_on(rt, "former_one", ONE_OVER_TWO, FIVE)?;
    goes_on(rt, "former_two", TWO_OVER_TWO, FIVE)?;
    goes_on(rt, "former_three", TWO_OVER_THREE, FIVE)?;
    goes_on(rt, "former_changed", TWO_OVER_THREE, TWO)?;
    fs::remove_file(rt, "former_two/log-2")?;
    let begins = Begins {
        generation: 1,
        table: 1,
        lines: 0,
    };
    cuts_short(rt, "former_two", &config_of(rt, FIVE)?, 4, begins)?;
    is_refused(rt)?;
    begins_anew(rt)?;
    say_fault(rt, "log-1-3", LinesFault::former())
}

/// The table, under the boot number 1000.
fn table(rt: &HostRuntime, shards: u8) -> io::Result<Vec<u8>> {
    let mut octets = b"\xfd\x03\xe8".to_vec(rt.alloc())?;
    octets.push(shards)?;
    octets.push(5)?;
    for name in b"abcde" {
        octets.extend_from_slice(&[1, *name])?;
        octets.extend_from_slice(RULES)?;
    }
    octets.extend_from_slice(b"\x01\x0a\x00\x00\x01")?;
    Ok(octets)
}

/// The snapshot: in each book the account's session, which was touched at 1002.
fn snapshot(rt: &HostRuntime, order: &[u8]) -> io::Result<Vec<u8>> {
    let mut octets = b"\x05".to_vec(rt.alloc())?;
    for name in order {
        octets.extend_from_slice(b"\xfd\x03\xea\x01\x00\x01\x00\x02\x01\x01")?;
        octets.push(*name)?;
        octets.extend_from_slice(b"\x00\xfd\x03\xea\x00\x00")?;
    }
    Ok(octets)
}

/// The log of generation 3 of era 1, before which there were seven moves.
fn log(rt: &HostRuntime, written: Written) -> io::Result<Vec<u8>> {
    let mut header = Vec::new(rt.alloc());
    header.extend_from_slice(&[written.format, 1, 1, 3])?;
    header.extend_from_slice(&written.digest)?;
    header.push(7)?;
    let mut octets = Vec::new(rt.alloc());
    octets.extend_from_slice(frame_of(rt.alloc(), header.as_slice())?.as_slice())?;
    let snapshot = snapshot(rt, written.order)?;
    octets.extend_from_slice(frame_of(rt.alloc(), snapshot.as_slice())?.as_slice())?;
    octets.extend_from_slice(frame_of(rt.alloc(), STOP)?.as_slice())?;
    Ok(octets)
}

/// Writes a folder, and gives its log.
fn write(rt: &HostRuntime, folder: &str, written: Written) -> io::Result<Vec<u8>> {
    let octets = log(rt, written)?;
    fs::create_dir(rt, folder)?;
    let table = table(rt, written.shards)?;
    fs::write(
        rt,
        format!(in rt.alloc(); "{folder}/era-1")?.as_str(),
        table.as_slice(),
    )?;
    fs::write(
        rt,
        format!(in rt.alloc(); "{folder}/log-1-3")?.as_str(),
        octets.as_slice(),
    )?;
    Ok(octets)
}

/// A start from a folder, and the next one. The old log has no lines, and is as it was.
fn goes_on(rt: &HostRuntime, folder: &str, written: Written, accounts: &str) -> io::Result<()> {
    let octets = write(rt, folder, written)?;
    print_as(rt, folder, "log-1-3", 3)?;
    cut_books(rt, folder, accounts, 1010)?;
    say_started(rt, folder, accounts)?;
    list(rt, folder)?;
    print_as(rt, folder, "log-1-3", 3)?;
    let log = format!(in rt.alloc(); "{folder}/log-1-3")?;
    println!(rt; "as it was: {}", fs::read(rt, log.as_str())? == octets)?;
    say(rt, "again", folder, accounts, 1011)
}

/// Says what a start finds, and what each account holds.
fn say_started(rt: &HostRuntime, folder: &str, accounts: &str) -> io::Result<()> {
    let config = config_of(rt, accounts)?;
    let ticks = Ticks::new();
    match started(rt, folder, accounts, 1010, &ticks) {
        Ok(started) => {
            println!(rt; "{folder}: {}", started.found.greeting(rt.alloc())?)?;
            say_header(rt, "  ", &started.store.header())?;
            say_all(rt, &*config, &started)
        }
        Err(fault) => println!(rt; "{folder}: {fault}"),
    }
}

/// Old folders from which no start goes on, and what a torn end comes to. Whatever the table is, the lines
/// of an old log are refused.
fn is_refused(rt: &HostRuntime) -> io::Result<()> {
    let four = Written {
        format: 4,
        ..TWO_OVER_TWO
    };
    write(rt, "former_format", four)?;
    say(rt, "a later format", "former_format", FIVE, 1010)?;
    let other = Written {
        digest: THREE_SHARDS,
        ..TWO_OVER_TWO
    };
    write(rt, "former_table", other)?;
    say(rt, "another table", "former_table", FIVE, 1010)?;
    fs::write(rt, "former_table/era-1", "no table")?;
    say(rt, "no table", "former_table", FIVE, 1010)?;
    print_as(rt, "former_table", "log-1-3", 3)?;
    fs::remove_file(rt, "former_table/era-1")?;
    say(rt, "a missing table", "former_table", FIVE, 1010)?;
    let none = Written {
        shards: 0,
        ..TWO_OVER_TWO
    };
    write(rt, "former_shards", none)?;
    say(rt, "no shard", "former_shards", FIVE, 1010)?;
    let few = Written {
        order: b"aceb",
        ..TWO_OVER_TWO
    };
    write(rt, "former_books", few)?;
    say(rt, "four books of five", "former_books", FIVE, 1010)?;
    let mut torn = write(rt, "former_torn", TWO_OVER_TWO)?;
    torn.extend_from_slice(b"a torn end")?;
    add(rt, "former_torn/log-1-3", b"a torn end")?;
    say(rt, "a torn end", "former_torn", FIVE, 1010)?;
    println!(rt;
        "as it was: {}",
        fs::read(rt, "former_torn/log-1-3")? == torn
    )?;
    write(rt, "former_spoilt", TWO_OVER_TWO)?;
    spoil(rt, "former_spoilt/log-1-3", 70)?;
    say(rt, "a spoilt snapshot", "former_spoilt", FIVE, 1010)?;
    write(rt, "former_name", TWO_OVER_TWO)?;
    copy(rt, "former_name/log-1-3", "former_name/log-1-4")?;
    say(rt, "another name", "former_name", FIVE, 1010)
}

/// Old folders in which no generation was begun: a history begins only where each log is the first of its
/// era. And one where a log of one number was not begun: the start goes on from the old one.
fn begins_anew(rt: &HostRuntime) -> io::Result<()> {
    fs::create_dir(rt, "former_alone")?;
    empty(rt, "former_alone/log-1-2")?;
    say(rt, "an old generation alone", "former_alone", FIVE, 1010)?;
    empty(rt, "former_alone/log-1")?;
    say(rt, "and one beside it", "former_alone", FIVE, 1010)?;
    fs::create_dir(rt, "former_unbegun")?;
    empty(rt, "former_unbegun/log-1-1")?;
    empty(rt, "former_unbegun/log-2-1")?;
    say(rt, "old first generations", "former_unbegun", FIVE, 1010)?;
    write(rt, "former_passed", TWO_OVER_TWO)?;
    empty(rt, "former_passed/log-7")?;
    say(rt, "a log that was not begun", "former_passed", FIVE, 1010)
}
