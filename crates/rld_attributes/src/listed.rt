//! The attributes of a reply as lines.
ghost use Rattle.std.specs.Prelude.{◌≡◌, ◌≤◌, ◌++◌, [], IfOk, IfSome, OnOk, length, unwrap_or};
ghost use Rattle.std.specs.List.{AllByRecursion};
ghost use Rattle.rsl_wire.specs.Attributes.{IsAttribute, attribute_octets, attribute_of};
ghost use Rattle.rld_values.specs.Values.{hex};
ghost use Rattle.rld_attributes.specs.Listed.{attributes_of, is_lasting, listed, listed_line};

use crate::written::write_attribute;
use rld_values::{push_hex, push_text};
use rsl_reply::Dictionary;
use rsl_wire::{Attrs, read};
use std::alloc::{AllocError, Global};

/// Class (RFC 2865 section 5.25).
const CLASS: u8 = 25;
/// Proxy-State (RFC 2865 section 5.33).
const PROXY_STATE: u8 = 33;
/// Message-Authenticator (RFC 3579 section 3.2).
const MESSAGE_AUTHENTICATOR: u8 = 80;

/// The attributes of a reply with the names of a dictionary, a line each: `NAME = VALUE`, a tab, and the attribute's octets in hexadecimal
/// digits. Those that each reply has anew are left out: Message-Authenticator, Class and Proxy-State. It fails
/// only where memory is refused.
pub fn reply_listed(alloc: Global, names: &Dictionary, reply: &[u8]) -> Result<Vec<u8>, AllocError>
    ensures { IfOk result (λ text. text.items ≡ listed names.now (attributes_of reply.now)) }
{
    let mut out = Vec::new(alloc);
    if let Some(attributes) = attributes_of(reply) {
        push_lines(alloc, names, &mut out, &attributes)?;
    }
    Ok(out)
}

/// Writes the lines of these attributes.
fn push_lines(
    alloc: Global,
    names: &Dictionary,
    out: &mut Vec<u8>,
    attributes: &Attrs<'_>,
) -> Result<(), AllocError>
    requires { AllByRecursion IsAttribute attributes.now }
    ensures { OnOk result (out.new.items ≡ out.old.items ++ listed names.now attributes.now) }
{
    for (kind, value) in attributes.iter() {
        if is_lasting(kind) {
            push_line(alloc, names, out, kind, value)?;
        }
    }
    Ok(())
}

/// Writes the line of an attribute.
#[tactic(auto, unfolding(crate::specs::Listed::listed_line))]
fn push_line(
    alloc: Global,
    names: &Dictionary,
    out: &mut Vec<u8>,
    kind: u8,
    value: &[u8],
) -> Result<(), AllocError>
    requires { length value.now ≤ 253 }
    ensures { OnOk result (out.new.items ≡ out.old.items ++ listed_line names.now kind value.now) }
{
    let one = write_attribute(alloc, names, kind, value)?;
    one.push(out)?;
    push_text(out, "\t")?;
    push_octets(out, kind, value)?;
    push_text(out, "\n")?;
    Ok(())
}

/// Writes the octets of an attribute as hexadecimal digits.
fn push_octets(out: &mut Vec<u8>, kind: u8, value: &[u8]) -> Result<(), AllocError>
    requires { length value.now ≤ 253 }
    ensures { OnOk result (out.new.items ≡
        out.old.items ++ hex (attribute_octets (attribute_of kind value.now))) }
{
    push_hex(out, &[kind, (2 + value.len()) as u8])?;
    push_hex(out, value)
}

/// Whether an attribute is the same in each reply of its kind.
fn is_lasting(kind: u8) -> bool
    ensures { result ≡ is_lasting kind }
{
    kind != MESSAGE_AUTHENTICATOR && kind != CLASS && kind != PROXY_STATE
}

/// The attributes of a packet (RFC 2865 section 5). None: the octets are no packet, or its attributes are
/// malformed.
pub fn attributes_of(packet: &[u8]) -> Option<Attrs<'_>>
    ensures list { unwrap_or result [] ≡ attributes_of packet.now }
    ensures each { IfSome result (AllByRecursion IsAttribute) }
{
    match read(packet) {
        Ok(packet) => match packet.attributes() {
            Ok(attributes) => Some(attributes),
            Err(_) => None,
        },
        Err(_) => None,
    }
}
