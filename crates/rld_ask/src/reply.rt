//! What an accept says, as JSON and as lines.
ghost use Rattle.std.specs.Prelude.{
  ◌≡◌,
  ◌++◌,
  [],
  IfOk,
  OnOk,
  fold,
  option_copied,
  unwrap_or,
};
ghost use Rattle.std.specs.List.{list_any};
ghost use Rattle.rld_attributes.specs.Listed.{attributes_of};
ghost use Rattle.rld_attributes.specs.Written.{written};
ghost use Rattle.rld_ask.specs.Reply.{
  bare,
  is_named,
  is_quoted,
  is_single,
  is_told,
  json_of,
  line,
  lines_of,
  member_front,
  member_name,
  opens,
  operator,
  separator,
  string,
  told_of,
  with_member,
  with_members,
  with_value,
};

use rld_attributes::{Written, attributes_of, push_escaped, write_attribute};
use rld_values::push_text;
use rsl_event::codes::{
    ACCT_INTERIM_INTERVAL, FRAMED_PROTOCOL, IDLE_TIMEOUT, MESSAGE_AUTHENTICATOR, PORT_LIMIT,
    PROXY_STATE, SERVICE_TYPE, SESSION_TIMEOUT,
};
use rsl_reply::Dictionary;
use rsl_wire::Attrs;
use std::alloc::{AllocError, Global};

/// Framed-IP-Address (RFC 2865 section 5.8).
const FRAMED_IP_ADDRESS: u8 = 8;
/// Framed-IP-Netmask (RFC 2865 section 5.9).
const FRAMED_IP_NETMASK: u8 = 9;

/// An attribute that is told: its Type, and its name and value as an operator writes them.
type Told = (u8, Written);

/// The attributes of a reply as JSON (RFC 8259), as FreeRADIUS's `rest` module reads them into its own
/// reply: `{"reply:NAME":{..,"value":["VALUE",..]},..}`, each name once, with all of its values as strings in
/// their order. What an accept has once takes the place of what is there, and others are added.
/// Message-Authenticator and Proxy-State are left out. It fails only where memory is refused.
pub fn reply_json(alloc: Global, names: &Dictionary, reply: &[u8]) -> Result<Vec<u8>, AllocError>
    ensures { IfOk result (λ text. text.items ≡ json_of names.now (attributes_of reply.now)) }
{
    let told = told_in(alloc, names, reply)?;
    let mut out = Vec::new(alloc);
    push_text(&mut out, "{")?;
    push_members(&mut out, told.as_slice())?;
    push_text(&mut out, "}\n")?;
    Ok(out)
}

/// The attributes of a reply that are told.
fn told_in(alloc: Global, names: &Dictionary, reply: &[u8]) -> Result<Vec<Told>, AllocError>
    ensures { IfOk result (λ told. told.items ≡ told_of names.now (attributes_of reply.now)) }
{
    match attributes_of(reply) {
        Some(attributes) => told_of(alloc, names, &attributes),
        None => Ok(Vec::new(alloc)),
    }
}

/// Those of these attributes that are told.
fn told_of(
    alloc: Global,
    names: &Dictionary,
    attributes: &Attrs<'_>,
) -> Result<Vec<Told>, AllocError>
    ensures { IfOk result (λ told. told.items ≡ told_of names.now attributes.now) }
{
    let mut told = Vec::new(alloc);
    for (kind, value) in attributes.iter() {
        if is_told(kind) {
            told.push((kind, write_attribute(alloc, names, kind, value)?))?;
        }
    }
    Ok(told)
}

/// Writes the members of an object, of which the first brace is there: each name once, where the last of that
/// name stands.
fn push_members(out: &mut Vec<u8>, told: &[Told]) -> Result<(), AllocError>
    ensures { OnOk result (out.new.items ≡ with_members told.now out.old.items told.now) }
{
    let mut rest = told;
    while let [one, after @ ..] = rest {
        if !has_name(after, one.1.name.as_slice()) {
            push_member(out, told, one)?;
        }
        rest = after;
    }
    Ok(())
}

/// Whether one of these has this name.
fn has_name(told: &[Told], name: &[u8]) -> bool
    ensures { result ≡ list_any (is_named name.now) told.now }
{
    told.iter().any(|one| one.1.name.as_slice() == name)
}

/// Writes a member, with the values of all of its name.
fn push_member(out: &mut Vec<u8>, told: &[Told], one: &Told) -> Result<(), AllocError>
    ensures { OnOk result (out.new.items ≡ with_member told.now out.old.items one.now) }
{
    push_separator(out)?;
    push_member_front(out, one)?;
    push_values(out, told, one.1.name.as_slice())?;
    push_text(out, "]}")
}

/// Writes the front of a member: its name, and how its values are taken.
fn push_member_front(out: &mut Vec<u8>, one: &Told) -> Result<(), AllocError>
    ensures { OnOk result (out.new.items ≡ out.old.items ++ member_front one.now) }
{
    push_member_name(out, one.1.name.as_slice())?;
    push_text(out, operator(one.0))?;
    push_text(out, "\"do_xlat\":false,\"value\":[")?;
    Ok(())
}

/// Writes the name of a member, and the brace that opens its object.
#[tactic(auto, unfolding(crate::specs::Reply::member_name))]
fn push_member_name(out: &mut Vec<u8>, name: &[u8]) -> Result<(), AllocError>
    ensures { OnOk result (out.new.items ≡ out.old.items ++ member_name name.now) }
{
    push_text(out, "\"reply:")?;
    out.extend_from_slice(name)?;
    push_text(out, "\":{")
}

/// Writes the values of all of this name, in their order.
fn push_values(out: &mut Vec<u8>, told: &[Told], name: &[u8]) -> Result<(), AllocError>
    ensures { OnOk result (out.new.items ≡ fold (with_value name.now) out.old.items told.now) }
{
    for one in told {
        if one.1.name.as_slice() == name {
            push_separator(out)?;
            push_string(out, one.1.value.as_slice())?;
        }
    }
    Ok(())
}

/// Writes a comma, but not after a bracket that opens.
fn push_separator(out: &mut Vec<u8>) -> Result<(), AllocError>
    ensures { OnOk result (out.new.items ≡ out.old.items ++ separator out.old.items) }
{
    if opens(out.as_slice().last()) {
        Ok(())
    } else {
        push_text(out, ",")
    }
}

/// Whether the last octet is a bracket that opens.
fn opens(last: Option<&u8>) -> bool
    ensures { result ≡ opens (option_copied last.entry) }
{
    match last {
        Some(octet) => *octet == b'{' || *octet == b'[',
        None => false,
    }
}

/// Writes a value as a string, which FreeRADIUS reads as a text between quotation marks.
#[tactic(auto, unfolding(crate::specs::Reply::in_quotes))]
fn push_string(out: &mut Vec<u8>, value: &[u8]) -> Result<(), AllocError>
    ensures { OnOk result (out.new.items ≡ out.old.items ++ string value.now) }
{
    push_text(out, "\"")?;
    push_escaped(out, bare(value))?;
    push_text(out, "\"")
}

/// What stands between the quotation marks of a value, or all of it where it has none.
fn bare(value: &[u8]) -> &[u8]
    ensures { result.now ≡ bare value.now }
{
    if is_quoted(value) {
        &value[1..value.len() - 1]
    } else {
        value
    }
}

/// Whether a value stands between quotation marks.
fn is_quoted(value: &[u8]) -> bool
    ensures { result ≡ is_quoted value.now }
{
    2 <= value.len() && value[0] == b'"' && value[value.len() - 1] == b'"'
}

/// How the values of an attribute are taken: those of which an accept has one at most take the place of
/// another (RFC 2865 section 5.44, RFC 2869 section 5.19), and others are added.
fn operator(kind: u8) -> &'static str
    ensures { result.now ≡ operator kind }
{
    if is_single(kind) {
        ""
    } else {
        "\"op\":\"+=\","
    }
}

/// Whether an accept has at most one attribute of this Type.
fn is_single(kind: u8) -> bool
    ensures { result ≡ is_single kind }
{
    matches!(
        kind,
        SERVICE_TYPE
            | FRAMED_PROTOCOL
            | FRAMED_IP_ADDRESS
            | FRAMED_IP_NETMASK
            | SESSION_TIMEOUT
            | IDLE_TIMEOUT
            | PORT_LIMIT
            | ACCT_INTERIM_INTERVAL
    )
}

/// The attributes of a reply as lines: `NAME = VALUE`. Message-Authenticator and Proxy-State are left out. It
/// fails only where memory is refused.
pub fn reply_lines(alloc: Global, names: &Dictionary, reply: &[u8]) -> Result<Vec<u8>, AllocError>
    ensures { IfOk result (λ text. text.items ≡ lines_of names.now (attributes_of reply.now)) }
{
    let mut out = Vec::new(alloc);
    if let Some(attributes) = attributes_of(reply) {
        push_lines(alloc, names, &mut out, &attributes)?;
    }
    Ok(out)
}

/// Writes the lines of these attributes.
fn push_lines(
    alloc: Global,
    names: &Dictionary,
    out: &mut Vec<u8>,
    attributes: &Attrs<'_>,
) -> Result<(), AllocError>
    ensures { OnOk result (out.new.items ≡ out.old.items ++ lines_of names.now attributes.now) }
{
    for (kind, value) in attributes.iter() {
        if is_told(kind) {
            push_line(alloc, names, out, kind, value)?;
        }
    }
    Ok(())
}

/// Writes the line of an attribute.
#[tactic(auto, unfolding(crate::specs::Reply::line))]
fn push_line(
    alloc: Global,
    names: &Dictionary,
    out: &mut Vec<u8>,
    kind: u8,
    value: &[u8],
) -> Result<(), AllocError>
    ensures { OnOk result (out.new.items ≡ out.old.items ++ line names.now kind value.now) }
{
    let one = write_attribute(alloc, names, kind, value)?;
    one.push(out)?;
    push_text(out, "\n")
}

/// Whether an attribute is told: not where it is for the packet alone.
fn is_told(kind: u8) -> bool
    ensures { result ≡ is_told kind }
{
    kind != MESSAGE_AUTHENTICATOR && kind != PROXY_STATE
}
