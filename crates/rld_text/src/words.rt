ghost use Rattle.std.specs.Prelude.{◌≡◌, ◌≤◌, ◌++◌, OnOk};
ghost use Rattle.std.specs.Fmt.{decimal};
ghost use Rattle.rld_text.specs.Words.{left, number_line, right, spaces_to};

use rld_values::{push_decimal, push_text};
use std::alloc::{AllocError, Global};

/// Writes the spaces that pad a text to a width.
fn push_spaces(out: &mut Vec<u8>, width: usize, text: &[u8]) -> Result<(), AllocError>
    requires { width ≤ 12 }
    ensures { OnOk result (out.new.items ≡ out.old.items ++ spaces_to width text.now) }
{
    let len = width.saturating_sub(text.len());
    out.extend_from_slice(&b"            "[..len])
}

/// Writes a word, left-aligned in its column.
fn push_left(out: &mut Vec<u8>, word: &str) -> Result<(), AllocError>
    ensures { OnOk result (out.new.items ≡ out.old.items ++ left word.now) }
{
    push_text(out, word)?;
    push_spaces(out, 10, word.as_bytes())
}

/// Writes a number, right-aligned in its column.
fn push_right(alloc: Global, out: &mut Vec<u8>, number: u64) -> Result<(), AllocError>
    ensures { OnOk result (out.new.items ≡ out.old.items ++ right (decimal number)) }
{
    let mut digits = Vec::new(alloc);
    push_decimal(&mut digits, number)?;
    push_spaces(out, 11, digits.as_slice())?;
    out.extend_from_slice(digits.as_slice())
}

/// Writes a line of a word and a number, in columns.
#[tactic(auto, unfolding(crate::specs::Words::number_line))]
pub(crate) fn push_number_line(
    alloc: Global,
    out: &mut Vec<u8>,
    word: &str,
    number: u64,
) -> Result<(), AllocError>
    ensures { OnOk result (out.new.items ≡ out.old.items ++ number_line word.now number) }
{
    push_left(out, word)?;
    push_text(out, " ")?;
    push_right(alloc, out, number)?;
    push_text(out, "\n")
}
