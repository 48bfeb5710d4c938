//! Values in JSON (RFC 8259).

ghost use Rattle.std.specs.Prelude.{◌≡◌, ◌++◌, OnOk};
ghost use Rattle.std.specs.List.{flat_map};
ghost use Rattle.rld_text.specs.Json.{json_octet, json_string, member_front, number_member, string_member};

use rld_values::{push_decimal, push_hex, push_text};
use std::alloc::AllocError;

/// Writes an octet of a string.
fn push_octet(out: &mut Vec<u8>, octet: u8) -> Result<(), AllocError>
    ensures { OnOk result (out.new.items ≡ out.old.items ++ json_octet octet) }
{
    match octet {
        b'"' => push_text(out, "\\\""),
        b'\\' => push_text(out, "\\\\"),
        32..=126 => {
            out.push(octet)?;
            Ok(())
        }
        _ => {
            push_text(out, "\\u00")?;
            push_hex(out, &[octet])
        }
    }
}

/// Writes the contents of a string, between its quotes.
fn push_octets(out: &mut Vec<u8>, octets: &[u8]) -> Result<(), AllocError>
    ensures { OnOk result (out.new.items ≡ out.old.items ++ flat_map json_octet octets.now) }
{
    for octet in octets {
        push_octet(out, *octet)?;
    }
    Ok(())
}

/// Writes a string, in its quotes. Each octet is one character, whatever it is. It fails only if
/// memory is refused.
#[tactic(auto, unfolding(crate::specs::Json::json_string))]
pub(crate) fn push_string(out: &mut Vec<u8>, octets: &[u8]) -> Result<(), AllocError>
    ensures { OnOk result (out.new.items ≡ out.old.items ++ json_string octets.now) }
{
    push_text(out, "\"")?;
    push_octets(out, octets)?;
    push_text(out, "\"")
}

/// Writes a text as a string.
pub(crate) fn push_text_string(out: &mut Vec<u8>, text: &str) -> Result<(), AllocError>
    ensures { OnOk result (out.new.items ≡ out.old.items ++ json_string text.now) }
{
    push_string(out, text.as_bytes())
}

/// Writes the start of a member after another one: a comma, its name and a colon. It fails only if
/// memory is refused.
#[tactic(auto, unfolding(crate::specs::Json::member_front))]
pub fn push_member_front(out: &mut Vec<u8>, name: &str) -> Result<(), AllocError>
    ensures { OnOk result (out.new.items ≡ out.old.items ++ member_front name.now) }
{
    push_text(out, ",\"")?;
    push_text(out, name)?;
    push_text(out, "\":")
}

/// Writes a member that is a number, after another one. It fails only if memory is refused.
#[tactic(auto, unfolding(crate::specs::Json::number_member))]
pub(crate) fn push_number_member(
    out: &mut Vec<u8>,
    name: &str,
    number: u64,
) -> Result<(), AllocError>
    ensures { OnOk result (out.new.items ≡ out.old.items ++ number_member name.now number) }
{
    push_member_front(out, name)?;
    push_decimal(out, number)
}

/// Writes a member that is a string, after another one. It fails only if memory is refused.
#[tactic(auto, unfolding(crate::specs::Json::string_member))]
pub fn push_string_member(out: &mut Vec<u8>, name: &str, octets: &[u8]) -> Result<(), AllocError>
    ensures { OnOk result (out.new.items ≡ out.old.items ++ string_member name.now octets.now) }
{
    push_member_front(out, name)?;
    push_string(out, octets)
}
