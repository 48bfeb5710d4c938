//! The number of a group, from the system's file of groups (group(5)).

use rld_commands::Fault;
use rsl_account_file::{TextFault, read_file};
use std::alloc::Global;
use std::fs::Files;
use std::str;

/// The system's file of groups.
const GROUPS: &str = "/etc/group";

/// The most octets of the file.
const MAX_LEN: u32 = 16_777_216;

/// The number of the group of this name, or `None` if the file has none, or cannot be read.
pub(crate) fn group_number<F: Files>(
    files: &F,
    alloc: Global,
    name: &str,
) -> Result<Option<u32>, Fault> {
    match read_file(files, alloc, GROUPS, MAX_LEN) {
        Ok(text) => Ok(number_in(text.as_slice(), name)),
        Err(TextFault::NoMemory) => Err(Fault::NoMemory),
        Err(TextFault::Unreadable | TextFault::TooLong) => Ok(None),
    }
}

/// The number of the group of this name in a text of groups.
fn number_in(text: &[u8], name: &str) -> Option<u32> {
    for line in text.split(|octet| *octet == b'\n') {
        if let Ok(line) = str::from_utf8(line) {
            if let Some(number) = number_of(line, name) {
                return Some(number);
            }
        }
    }
    None
}

/// The number of the group of this name on a line: `name:password:number:members`.
fn number_of(line: &str, name: &str) -> Option<u32> {
    let mut fields = line.split(':');
    if fields.next()? != name {
        return None;
    }
    fields.next()?;
    fields.next()?.parse().ok()
}
