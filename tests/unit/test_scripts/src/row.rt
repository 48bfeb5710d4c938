//! A row: a script, and what comes of its replay.

use crate::differing;
use rsl_replay::replay;
use std::alloc::Global;
use std::io::ErrorKind;
use std::{fs, io};

/// Lines before a script that spread its accounts over three shards, so that its first account is
/// of another shard than the first.
const THREE_SHARDS: &str =
    "set shards 3\naccount first-of-three x 1\naccount second-of-three x 1\n";

/// The titles of a report.
const TITLES: &str = "name                   places     held reserved     live    stale     over\n";

/// The titles, and the rows of the two accounts that stand before those of a script.
const TITLES_OVER_THREE_SHARDS: &str = "\
name                   places     held reserved     live    stale     over
first-of-three              1        0        0        0        0        0
second-of-three             1        0        0        0        0        0
";

/// How the row failed, if it did. What a right script prints is the same over three shards, but for
/// the rows of the two accounts before its own.
pub(crate) fn failure_of(rt: &HostRuntime, name: &str) -> io::Result<Option<String>> {
    let alloc = rt.alloc();
    let script = fs::read_to_string(rt, format!(in alloc; "{name}.script")?)?;
    let found = replayed(alloc, script.as_str())?;
    match fs::read_to_string(rt, format!(in alloc; "{name}.stdout")?) {
        Ok(expected) => {
            let spread = format!(in alloc; "{THREE_SHARDS}{script}")?;
            let over_three = replayed(alloc, spread.as_str())?;
            let with_three = expected
                .as_str()
                .replace(alloc, TITLES, TITLES_OVER_THREE_SHARDS)?;
            match differing(alloc, expected.as_str(), found.as_str())? {
                None => differing(alloc, with_three.as_str(), over_three.as_str()),
                failure => Ok(failure),
            }
        }
        Err(error) if error.kind() == ErrorKind::NotFound => {
            let expected = fs::read_to_string(rt, format!(in alloc; "{name}.fault")?)?;
            differing(alloc, expected.as_str(), found.as_str())
        }
        Err(error) => Err(error),
    }
}

/// What is printed for a script; where its replay fails, also the status and what it says.
pub(crate) fn replayed(alloc: Global, script: &str) -> io::Result<String> {
    let mut input = script.as_bytes();
    let mut output = Vec::new(alloc);
    let outcome = replay(alloc, &mut input, &mut output);
    let Ok(printed) = str::from_utf8(output.as_slice()) else {
        return Err(io::Error::from(ErrorKind::InvalidData));
    };
    match outcome {
        Ok(()) => Ok(String::from_str(alloc, printed)?),
        Err(fault) => {
            let text = format!(in alloc; "{fault}")?;
            Ok(format!(in alloc; "{printed}{} {text}\n", fault.status().number())?)
        }
    }
}
