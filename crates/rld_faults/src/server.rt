//! What is wrong with a server's file.

ghost use Rattle.std.specs.Prelude.{IfOk};
ghost use Rattle.rld_faults.specs.Told.{IsTold};

use crate::accounts::{tables_of, text_at};
use crate::faults::Faults;
use crate::found::Finds;
use crate::kind::number_of;
use crate::owner::Owner;
use crate::row::Row;
use crate::server_rows::{ASK, CONTROL, HEAD, LISTEN, NETWORK, TRUST, WEB};
use crate::table::{Reading, say};
use rld_config::ServerFault;
use rld_networks::{Prefix, canonical, covers, ip_address_of, prefix_of};
use rsl_wire::NoMemory;
use std::alloc::Global;
use std::net::{IpAddr, Ipv4Addr};
use toml::Value;

/// A server's file has all keys.
const STRICT: Reading = Reading { version: 3 };

/// What is wrong with the text of a server's file that its reader refuses for this fault, with the lines of the
/// text. It fails only where memory is refused.
pub fn server_faults(alloc: Global, text: &[u8], fault: &ServerFault) -> Result<Faults, NoMemory>
    ensures { IfOk result IsTold }
{
    let table = match toml::table_from_slice(alloc, text) {
        Ok(table) => table,
        Err(error) => return Faults::of_break(alloc, text, &error),
    };
    let file = Value::Table(table);
    let mut finds = Finds::new(alloc);
    find_in_file(&mut finds, &file)?;
    if finds.kept.is_empty() {
        let sentence = format!(in alloc; "{fault}")?;
        finds.push(Vec::new(alloc), sentence)?;
    }
    Faults::of_finds(finds, text)
}

/// One fault of a key of a table of a server's file, with its line. It fails only where memory is refused.
pub fn fault_of_key(
    alloc: Global,
    text: &[u8],
    table: &'static str,
    key: &str,
    wrong: &str,
) -> Result<Faults, NoMemory>
    ensures { IfOk result IsTold }
{
    let mut finds = Finds::new(alloc);
    say(&mut finds, Owner::One(table), key, wrong)?;
    Faults::of_finds(finds, text)
}

/// Finds what is wrong with a file.
fn find_in_file(finds: &mut Finds, file: &Value) -> Result<(), NoMemory> {
    STRICT.check(finds, Owner::Head, file, HEAD)?;
    find_in_listens(finds, tables_of(file, "listen"))?;
    find_in_networks(finds, tables_of(file, "network"))?;
    find_in_one(finds, file, "control", CONTROL)?;
    find_in_one(finds, file, "web", WEB)?;
    find_in_one(finds, file, "ask", ASK)?;
    find_in_one(finds, file, "trust", TRUST)
}

/// Finds what is wrong with the table under a key.
fn find_in_one(
    finds: &mut Finds,
    file: &Value,
    key: &'static str,
    rows: &[Row],
) -> Result<(), NoMemory> {
    match file.get(key) {
        Some(table) if table.is_table() => STRICT.check(finds, Owner::One(key), table, rows),
        _ => Ok(()),
    }
}

/// A port of a table `listen`, and where packets come to it.
#[derive(Clone, Copy)]
struct Port {
    /// The index of the table.
    table: usize,
    /// Its key.
    key: &'static str,
    /// The address of the table.
    address: IpAddr,
    /// The number of the port.
    number: u64,
}

/// Finds what is wrong with the tables `listen`, and ports that two of them have.
fn find_in_listens(finds: &mut Finds, tables: &[Value]) -> Result<(), NoMemory> {
    let mut ports = Vec::new(finds.alloc);
    for (index, table) in tables.iter().enumerate() {
        STRICT.check(finds, Owner::Nth("listen", index), table, LISTEN)?;
        let (auth, acct) = ports_of(index, table);
        find_taken(finds, &mut ports, auth)?;
        find_taken(finds, &mut ports, acct)?;
    }
    Ok(())
}

/// The two ports of a table `listen`, as far as they are right.
fn ports_of(index: usize, table: &Value) -> (Option<Port>, Option<Port>) {
    (
        port_of(index, table, "auth", 1812),
        port_of(index, table, "acct", 1813),
    )
}

/// The port of a table `listen` under a key, if it and its address are right.
fn port_of(index: usize, table: &Value, key: &'static str, default: u64) -> Option<Port> {
    let address = match table.get("address") {
        Some(value) => canonical(ip_address_of(value.as_str()?.as_bytes())?),
        None => IpAddr::V4(Ipv4Addr::from([0, 0, 0, 0])),
    };
    let number = match table.get(key) {
        Some(value) => number_of(value)?,
        None => default,
    };
    Some(Port {
        table: index,
        key,
        address,
        number,
    })
}

/// Finds whether an earlier table, or the same one, has a port already.
fn find_taken(
    finds: &mut Finds,
    ports: &mut Vec<Port>,
    port: Option<Port>,
) -> Result<(), NoMemory> {
    let Some(port) = port else {
        return Ok(());
    };
    if let Some(first) = first_of(ports.as_slice(), port) {
        let alloc = finds.alloc;
        let number = port.number;
        let (table, key) = (first.table.saturating_add(1), first.key);
        let wrong = format!(in alloc; "is {number}, which {key} of listen {table} has there")?;
        say(
            finds,
            Owner::Nth("listen", port.table),
            port.key,
            wrong.as_str(),
        )?;
    }
    ports.push(port)?;
    Ok(())
}

/// The first of some ports that another one cannot be beside.
fn first_of(ports: &[Port], port: Port) -> Option<Port> {
    for other in ports {
        if other.number == port.number && meet(other.address, port.address) {
            return Some(*other);
        }
    }
    None
}

/// Whether a socket at one of two addresses takes what comes to the other.
fn meet(one: IpAddr, other: IpAddr) -> bool {
    covers(one, other) || covers(other, one)
}

/// Finds what is wrong with the tables `network`, and prefixes that two of them have.
fn find_in_networks(finds: &mut Finds, tables: &[Value]) -> Result<(), NoMemory> {
    let mut prefixes = Vec::new(finds.alloc);
    for (index, table) in tables.iter().enumerate() {
        STRICT.check(finds, Owner::Nth("network", index), table, NETWORK)?;
        if let Some(text) = text_at(table, "prefix") {
            if let Some(prefix) = prefix_of(text.as_bytes()) {
                if let Some(first) = index_of(prefixes.as_slice(), &prefix) {
                    say_second(finds, index, text, first)?;
                }
                prefixes.push((index, prefix))?;
            }
        }
    }
    Ok(())
}

/// The index of the first network of a prefix.
fn index_of(prefixes: &[(usize, Prefix)], prefix: &Prefix) -> Option<usize> {
    for (index, other) in prefixes {
        if prefix.is_same(other) {
            return Some(*index);
        }
    }
    None
}

/// Puts the second network of a prefix down.
fn say_second(finds: &mut Finds, index: usize, text: &str, first: usize) -> Result<(), NoMemory> {
    if finds.is_full() {
        finds.count();
        return Ok(());
    }
    let alloc = finds.alloc;
    let sentence = format!(in alloc; "second network {text:?}")?;
    let way = Owner::Nth("network", index).way_to(alloc, "prefix")?;
    let first = Owner::Nth("network", first).way_to(alloc, "prefix")?;
    finds.push_second(way, sentence, first)
}
