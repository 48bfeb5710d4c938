ghost use Rattle.std.specs.Prelude.{◌≤◌, IfOk, vec_len};
ghost use Rattle.rld_faults.specs.Told.{IsTold};

use crate::found::{Finds, Found, MOST};
use crate::outline::find_lines;
use rld_config::break_of;
use rsl_wire::NoMemory;
use std::alloc::Global;
use std::fmt;

/// What is wrong with a file: one fault or more, in the order of its lines.
#[derive(Debug, Drop)]
pub struct Faults {
    /// The first of them, 20 at most.
    pub told: Vec<Fault>,
    /// How many more there are.
    pub more: u64,
}

/// One thing that is wrong with a file.
#[derive(Debug, Drop)]
pub struct Fault {
    /// The number of its line, from 1. `None`: no line has it, as where the file lacks a key.
    pub line: Option<u64>,
    /// The number of its character in the line, from 1, where the file stops being TOML.
    pub column: Option<u64>,
    /// What is wrong, without a full stop.
    pub sentence: String,
}

impl fmt::Display for Fault {
    /// What stands after the name of the file: `:41: ..`.
    fn fmt<W: fmt::Write>(&self, f: &mut fmt::Formatter<W>) -> fmt::Result {
        if let Some(line) = self.line {
            write!(f, ":{line}")?;
        }
        if let Some(column) = self.column {
            write!(f, ":{column}")?;
        }
        let sentence = self.sentence.as_str();
        write!(f, ": {sentence}")
    }
}

impl Faults {
    /// These faults, of which there is one at least, and how many more there are.
    fn of(alloc: Global, told: Vec<Fault>, more: u64) -> Result<Faults, NoMemory>
        ensures { IfOk result IsTold }
    {
        let mut told = with_one(alloc, told)?;
        told.truncate(MOST);
        Ok(Faults { told, more })
    }

    /// That a text is no TOML, and where it stops being that. It fails where the parser had no memory.
    pub(crate) fn of_break(
        alloc: Global,
        text: &[u8],
        error: &toml::de::Error,
    ) -> Result<Faults, NoMemory>
        ensures { IfOk result IsTold }
    {
        if error.is_memory() {
            return Err(NoMemory);
        }
        let (line, column) = match break_of(alloc, text)? {
            Some(place) => (Some(place.line), Some(place.column)),
            None => (None, None),
        };
        let why = error.message();
        let sentence = format!(in alloc; "no TOML: {why}")?;
        let mut told = Vec::new(alloc);
        told.push(Fault {
            line,
            column,
            sentence,
        })?;
        Faults::of(alloc, told, 0)
    }

    /// What was found, with the lines of the text.
    pub(crate) fn of_finds(finds: Finds, text: &[u8]) -> Result<Faults, NoMemory>
        ensures { IfOk result IsTold }
    {
        let Finds {
            alloc,
            mut kept,
            more,
        } = finds;
        find_lines(alloc, text, &mut kept)?;
        let mut told = Vec::new(alloc);
        for found in kept {
            told.push(fault_of(alloc, found)?)?;
        }
        told.sort_by_cached_key(|fault| fault.line)?;
        Faults::of(alloc, told, more)
    }
}

/// These faults, or one where there is none.
fn with_one(alloc: Global, mut told: Vec<Fault>) -> Result<Vec<Fault>, NoMemory>
    ensures { IfOk result (λ faults. 1 ≤ vec_len faults) }
{
    if !told.is_empty() {
        return Ok(told);
    }
    told.push(Fault {
        line: None,
        column: None,
        sentence: String::from_str(alloc, "refused")?,
    })?;
    Ok(told)
}

/// The fault of what was found.
fn fault_of(alloc: Global, found: Found) -> Result<Fault, NoMemory> {
    let Found {
        at,
        sentence,
        first,
    } = found;
    let line = at.line();
    let first = match first {
        Some(spot) => spot.line(),
        None => None,
    };
    let sentence = match first {
        Some(first) => {
            let second = sentence.as_str();
            format!(in alloc; "{second}; the first is at line {first}")?
        }
        None => sentence,
    };
    Ok(Fault {
        line,
        column: None,
        sentence,
    })
}
