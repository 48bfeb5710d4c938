//! The lines of logs.

use rld_lines::{LinesFault, LogFile, write_lines};
use std::{fs, io};

/// Prints the lines of the log of a generation of a folder, or why there are none.
pub fn print(rt: &HostRuntime, folder: &str, generation: u64) -> io::Result<()> {
    let name = format!(in rt.alloc(); "log-{generation}")?;
    print_as(rt, folder, name.as_str(), generation)
}

/// Prints the lines of a file of a folder as those of the log of a generation, or why there are none.
pub fn print_as(rt: &HostRuntime, folder: &str, name: &str, generation: u64) -> io::Result<()> {
    let path = format!(in rt.alloc(); "{folder}/{name}")?;
    let octets = fs::read(rt, path.as_str())?;
    let log = LogFile {
        name,
        generation,
        octets,
    };
    match write_lines(rt.alloc(), log, &mut rt.stdout()) {
        Ok(printed) => println!(rt; "{name}: moves {}, torn {}", printed.moves, printed.torn),
        Err(fault) => say_fault(rt, name, fault),
    }
}

/// Says why a log has no lines, or not all of them.
pub fn say_fault(rt: &HostRuntime, name: &str, fault: LinesFault) -> io::Result<()> {
    match fault {
        LinesFault::Log(wrong) => println!(rt; "{name} {wrong}"),
        LinesFault::NoMemory => println!(rt; "no memory"),
        LinesFault::Unwritten => println!(rt; "unwritten"),
    }
}
