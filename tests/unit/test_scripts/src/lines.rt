//! A table of lines of a script, each with the word `right` or `wrong` before it.

use crate::differing;
use crate::row::replayed;
use std::{fs, io};

/// How the first line of the table failed that did, if one did. Empty lines of a table and those
/// that begin with `#` are its comments.
pub(crate) fn failure_of(rt: &HostRuntime, file: &str) -> io::Result<Option<String>> {
    let alloc = rt.alloc();
    let table = fs::read_to_string(rt, file)?;
    for row in table.split('\n') {
        if row.is_empty() || row.starts_with('#') {
            continue;
        }
        let (line, is_right) = match row.split_once(' ') {
            Some(("right", line)) => (line, true),
            Some(("wrong", line)) => (line, false),
            _ => return differing(alloc, "a line that is right or wrong\n", row),
        };
        // The line that follows is wrong in any script.
        let script = format!(in alloc; "{line}\nno kind of line\n")?;
        let found = replayed(alloc, script.as_str())?;
        let number = if is_right { 2 } else { 1 };
        let expected = format!(in alloc; "1 bad script: line {number}\n")?;
        if let Some(failure) = differing(alloc, expected.as_str(), found.as_str())? {
            return Ok(Some(format!(in alloc; "{row}\n{failure}")?));
        }
    }
    Ok(None)
}
