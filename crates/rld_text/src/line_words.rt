//! The words of a line, each with its key.

ghost use Rattle.std.specs.Prelude.{◌≡◌, ◌++◌, OnOk};
ghost use Rattle.rld_text.specs.LineWords.{number_word, octets_word_if};

use rld_values::{push_decimal, push_escaped, push_text};
use rsl_wire::Octets;
use std::alloc::AllocError;

/// Writes a space, a key, `=` and a number.
pub(crate) fn push_number_word(out: &mut Vec<u8>, key: &str, number: u64) -> Result<(), AllocError>
    ensures { OnOk result (out.new.items ≡ out.old.items ++ number_word key.now number) }
{
    out.push(32)?;
    push_text(out, key)?;
    out.push(61)?;
    push_decimal(out, number)
}

/// Writes a space, a key, `=` and octets, if there are any.
pub(crate) fn push_octets_word_if(
    out: &mut Vec<u8>,
    key: &str,
    octets: &Option<Octets>,
) -> Result<(), AllocError>
    ensures { OnOk result (out.new.items ≡ out.old.items ++ octets_word_if key.now octets.now) }
{
    match octets {
        None => Ok(()),
        Some(octets) => {
            out.push(32)?;
            push_text(out, key)?;
            out.push(61)?;
            push_escaped(out, octets.as_slice())
        }
    }
}
