//! The message of a start.

ghost use Rattle.std.specs.Prelude.{◌≡◌, ◌++◌, IfOk, OnOk, string_bytes};
ghost use Rattle.rld_start.specs.Greeting.{behind_text, changed_text, from_text, generation_text, numbered, torn_text};

use crate::count::Found;
use rld_folder::Generation;
use std::alloc::{AllocError, Global};

impl Found {
    ghost use Rattle.rld_start.specs.Greeting.{greeting};

    /// The message of a start: the generation that it goes on from or that the history is new, the
    /// sessions that have a place, and the octets of a torn end, if there was one. Further lines say how
    /// many sessions go on where the accounts have changed, and by how much the system's clock is behind,
    /// if either was found. It does not end in a line feed. It fails only if memory is refused.
    pub fn greeting(&self, alloc: Global) -> Result<String, AllocError>
        ensures { IfOk result (λ text. string_bytes text ≡ greeting self.now) }
    {
        let mut text = String::new(alloc);
        write_from(&mut text, self.from)?;
        write_number(&mut text, ": ", self.sessions)?;
        write_text(&mut text, " sessions")?;
        write_torn(&mut text, self.torn)?;
        write_changed(&mut text, self.sessions, self.held)?;
        write_behind(&mut text, self.behind)?;
        Ok(text)
    }
}

/// Writes the generation that the server goes on from, if there is one.
fn write_from(text: &mut String, from: Option<Generation>) -> Result<(), AllocError>
    ensures { OnOk result (string_bytes text.new ≡ string_bytes text.old ++ from_text from) }
{
    match from {
        Some(generation) => write_generation(text, generation),
        None => write_text(text, "new history"),
    }
}

/// Writes the number of a generation.
fn write_generation(text: &mut String, generation: Generation) -> Result<(), AllocError>
    ensures { OnOk result
        (string_bytes text.new ≡ string_bytes text.old ++ generation_text generation) }
{
    match generation {
        Generation::Former { number, .. } => write_number(text, "generation ", number),
        Generation::Numbered(number) => write_number(text, "generation ", number),
    }
}

/// Writes how much of the log was cut off, if anything.
fn write_torn(text: &mut String, torn: usize) -> Result<(), AllocError>
    ensures { OnOk result (string_bytes text.new ≡ string_bytes text.old ++ torn_text torn) }
{
    if torn == 0 {
        return Ok(());
    }
    write_number(text, ", torn end of ", torn as u64)?;
    write_text(text, " octets cut off")
}

/// Writes how many of the sessions that were held go on with other accounts, if these have changed.
fn write_changed(text: &mut String, sessions: u64, held: Option<u64>) -> Result<(), AllocError>
    ensures { OnOk result
        (string_bytes text.new ≡ string_bytes text.old ++ changed_text sessions held) }
{
    match held {
        None => Ok(()),
        Some(held) => {
            write_number(text, "\naccounts changed: ", sessions)?;
            write_number(text, " of ", held)?;
            write_text(text, " sessions go on")
        }
    }
}

/// Writes how many seconds the system's clock is behind, if it is.
fn write_behind(text: &mut String, behind: Option<u64>) -> Result<(), AllocError>
    ensures { OnOk result (string_bytes text.new ≡ string_bytes text.old ++ behind_text behind) }
{
    match behind {
        None => Ok(()),
        Some(secs) => {
            write_number(text, "\nclock ", secs)?;
            write_text(text, " s behind: no deadline passes until it is there")
        }
    }
}

/// Writes a text.
pub(crate) fn write_text(text: &mut String, more: &str) -> Result<(), AllocError>
    ensures { OnOk result (string_bytes text.new ≡ string_bytes text.old ++ more.now) }
{
    text.push_str(more)
}

/// Writes a text and a number.
pub(crate) fn write_number(text: &mut String, before: &str, number: u64) -> Result<(), AllocError>
    ensures { OnOk result
        (string_bytes text.new ≡ string_bytes text.old ++ numbered before.now number) }
{
    write!(text, "{before}{number}")
}
