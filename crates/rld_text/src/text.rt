//! The parts of Prometheus' text format.

ghost use Rattle.std.specs.Prelude.{◌≡◌, ◌+◌, ◌%◌, ◌∷◌, ◌++◌, [], OnOk};
ghost use Rattle.std.specs.List.{flat_map};
ghost use Rattle.rld_text.specs.Text.{escaped_octet, head_of, label, seconds, six_digits};

use rld_values::{push_decimal, push_text};
use std::alloc::AllocError;

/// The head of a metric.
#[derive(Clone, Copy)]
pub(crate) struct Head<'a> {
    /// Its name.
    pub(crate) name: &'a str,
    /// Its type.
    pub(crate) kind: &'a str,
    /// Its help text.
    pub(crate) help: &'a str,
}

/// Writes an octet of a label's value.
fn push_escaped_octet(out: &mut Vec<u8>, octet: u8) -> Result<(), AllocError>
    ensures { OnOk result (out.new.items ≡ out.old.items ++ escaped_octet octet) }
{
    match octet {
        b'\\' => out.extend_from_slice(b"\\\\"),
        b'"' => out.extend_from_slice(b"\\\""),
        b'\n' => out.extend_from_slice(b"\\n"),
        _ => {
            out.push(octet)?;
            Ok(())
        }
    }
}

/// Writes a label's value, without its quotes.
pub(crate) fn push_escaped(out: &mut Vec<u8>, octets: &[u8]) -> Result<(), AllocError>
    ensures { OnOk result (out.new.items ≡ out.old.items ++ flat_map escaped_octet octets.now) }
{
    for octet in octets {
        push_escaped_octet(out, *octet)?;
    }
    Ok(())
}

/// Writes a label.
#[tactic(auto, unfolding(crate::specs::Text::label))]
pub(crate) fn push_label(out: &mut Vec<u8>, name: &str, value: &str) -> Result<(), AllocError>
    ensures { OnOk result (out.new.items ≡ out.old.items ++ label name.now value.now) }
{
    push_text(out, name)?;
    push_text(out, "=\"")?;
    push_escaped(out, value.as_bytes())?;
    push_text(out, "\"")
}

/// Writes the head of a metric, before its samples.
#[tactic(auto, unfolding(crate::specs::Text::head_of))]
pub(crate) fn push_head(out: &mut Vec<u8>, head: &Head<'_>) -> Result<(), AllocError>
    ensures { OnOk result (out.new.items
        ≡ out.old.items ++ head_of head.now.name.now head.now.kind.now head.now.help.now) }
{
    push_text(out, "# HELP ")?;
    push_text(out, head.name)?;
    push_text(out, " ")?;
    push_text(out, head.help)?;
    push_text(out, "\n# TYPE ")?;
    push_text(out, head.name)?;
    push_text(out, " ")?;
    push_text(out, head.kind)?;
    push_text(out, "\n")?;
    Ok(())
}

/// Writes the last decimal digit of a number.
fn push_digit(out: &mut Vec<u8>, number: u64) -> Result<(), AllocError>
    ensures { OnOk result (out.new.items ≡ out.old.items ++ (48 + number % 10) ∷ []) }
{
    out.push(48 + (number % 10) as u8)?;
    Ok(())
}

/// Writes six digits of a number below 1,000,000.
fn push_six_digits(out: &mut Vec<u8>, number: u64) -> Result<(), AllocError>
    ensures { OnOk result (out.new.items ≡ out.old.items ++ six_digits number) }
{
    push_digit(out, number / 100_000)?;
    push_digit(out, number / 10_000)?;
    push_digit(out, number / 1_000)?;
    push_digit(out, number / 100)?;
    push_digit(out, number / 10)?;
    push_digit(out, number)
}

/// Writes microseconds as seconds, with six places.
#[tactic(auto, unfolding(crate::specs::Text::seconds))]
pub(crate) fn push_seconds(out: &mut Vec<u8>, micros: u64) -> Result<(), AllocError>
    ensures { OnOk result (out.new.items ≡ out.old.items ++ seconds micros) }
{
    push_decimal(out, micros / 1_000_000)?;
    out.push(46)?;
    push_six_digits(out, micros % 1_000_000)
}
