//! How a value is written in its form.
ghost use Rattle.std.specs.Prelude.{◌≡◌, ◌++◌, IfOk, OnOk, option_map};
ghost use Rattle.std.specs.List.{flat_map, list_all};
ghost use Rattle.std.specs.Str.{is_utf8};
ghost use Rattle.rsl_reply.specs.Value.{is_escaped};
ghost use Rattle.rld_attributes.specs.Value.{
  digits,
  escaped,
  first_octet,
  group,
  interface_in,
  ipv4_in,
  ipv6_in,
  ipv6_prefix_in,
  is_shown,
  is_text,
  number_in,
  number_text,
  octets_in,
  parted,
  prefix_if,
  prefix_by,
  quoted,
  tag_in,
  tagged_number_in,
  text_in,
  value_text,
  without_zeros,
};

use rld_networks::prefix_of;
use rld_values::{push_decimal, push_dotted, push_hex, push_text};
use rsl_reply::{Dictionary, Form};
use std::alloc::{AllocError, Global};
use std::net::Ipv6Addr;
use std::str;

/// The greatest tag (RFC 2868 section 3).
const MAX_TAG: u8 = 31;

/// The text of a value of an attribute, if it is of this form. It fails only where memory is refused.
pub(crate) fn value_text(
    alloc: Global,
    names: &Dictionary,
    form: Form,
    vendor: u32,
    kind: u8,
    value: &[u8],
) -> Result<Option<Vec<u8>>, AllocError>
    ensures { IfOk result (λ text. option_map (λ v. v.items) text ≡
        value_text names.now form vendor kind value.now) }
{
    match form {
        Form::Text => text_in(alloc, value),
        Form::Octets => octets_in(alloc, value),
        Form::Number => number_text(alloc, names, vendor, kind, number_in(value)),
        Form::Ipv4 => ipv4_in(alloc, value),
        Form::Ipv6 => ipv6_in(alloc, value),
        Form::Ipv6Prefix => ipv6_prefix_in(alloc, value),
        Form::InterfaceId => interface_in(alloc, value),
        Form::TaggedNumber => number_text(alloc, names, vendor, kind, tagged_number_in(value)),
        Form::TaggedText => text_in(alloc, parted(value).1),
    }
}

// ---- texts and octets

/// Whether octets are a text of one character or more without control characters.
fn is_text(value: &[u8]) -> bool
    ensures { result ≡ is_text value.now }
{
    !value.is_empty() && are_shown(value) && is_utf8(value)
}

/// Whether each octet is no control character.
fn are_shown(value: &[u8]) -> bool
    ensures { result ≡ list_all is_shown value.now }
{
    value.iter().all(|octet| is_shown(*octet))
}

/// Whether an octet is no control character.
fn is_shown(octet: u8) -> bool
    ensures { result ≡ is_shown octet }
{
    32 <= octet && octet != 127
}

/// Whether a backslash has to stand before an octet in quotation marks.
fn is_escaped(octet: u8) -> bool
    ensures { result ≡ is_escaped octet }
{
    octet == b'"' || octet == b'\\'
}

/// Whether octets are UTF-8.
fn is_utf8(value: &[u8]) -> bool
    ensures { result ≡ is_utf8 value.now }
{
    match str::from_utf8(value) {
        Ok(_) => true,
        Err(_) => false,
    }
}

/// A text in quotation marks, if it is one.
fn text_in(alloc: Global, value: &[u8]) -> Result<Option<Vec<u8>>, AllocError>
    ensures { IfOk result (λ text. option_map (λ v. v.items) text ≡ text_in value.now) }
{
    if is_text(value) {
        Ok(Some(quoted(alloc, value)?))
    } else {
        Ok(None)
    }
}

/// Octets in quotation marks, with a backslash before each that needs one.
#[tactic(auto, unfolding(crate::specs::Value::quoted))]
fn quoted(alloc: Global, value: &[u8]) -> Result<Vec<u8>, AllocError>
    ensures { IfOk result (λ text. text.items ≡ quoted value.now) }
{
    let mut out = Vec::new(alloc);
    push_text(&mut out, "\"")?;
    push_escaped(&mut out, value)?;
    push_text(&mut out, "\"")?;
    Ok(out)
}

/// Writes octets, with a backslash before each double quotation mark and each backslash. It fails only where
/// memory is refused.
pub fn push_escaped(out: &mut Vec<u8>, mut value: &[u8]) -> Result<(), AllocError>
    ensures { OnOk result (out.new.items ≡ out.old.items ++ flat_map escaped value.entry.now) }
{
    while let [octet, rest @ ..] = value {
        if is_escaped(*octet) {
            push_text(out, "\\")?;
        }
        out.push(*octet)?;
        value = rest;
    }
    Ok(())
}

/// Octets as 0x and hexadecimal digits, if there are any.
fn octets_in(alloc: Global, value: &[u8]) -> Result<Option<Vec<u8>>, AllocError>
    ensures { IfOk result (λ text. option_map (λ v. v.items) text ≡ octets_in value.now) }
{
    if value.is_empty() {
        Ok(None)
    } else {
        Ok(Some(digits(alloc, value)?))
    }
}

/// Octets as 0x and hexadecimal digits.
pub(crate) fn digits(alloc: Global, value: &[u8]) -> Result<Vec<u8>, AllocError>
    ensures { IfOk result (λ text. text.items ≡ digits value.now) }
{
    let mut out = Vec::new(alloc);
    push_text(&mut out, "0x")?;
    push_hex(&mut out, value)?;
    Ok(out)
}

// ---- tags (RFC 2868 section 3)

/// A tag and the text after it; 0 where there is none.
fn parted(value: &[u8]) -> (u8, &[u8])
    ensures { (result.0, result.1.now) ≡ parted value.now }
{
    match value {
        [] => (0, value),
        [first, rest @ ..] => if 1 <= *first && *first <= MAX_TAG {
            (*first, rest)
        } else {
            (0, value)
        },
    }
}

/// The tag of a value of this form, 0 for none.
pub(crate) fn tag_in(form: Form, value: &[u8]) -> u8
    ensures { result ≡ tag_in form value.now }
{
    match form {
        Form::TaggedNumber => first_octet(value),
        Form::TaggedText => parted(value).0,
        _ => 0,
    }
}

/// The first octet, or 0 where there is none.
fn first_octet(value: &[u8]) -> u8
    ensures { result ≡ first_octet value.now }
{
    match value {
        [] => 0,
        [first, ..] => *first,
    }
}

// ---- numbers

/// A number of four octets, the high octet first.
fn number_in(value: &[u8]) -> Option<u32>
    ensures { result ≡ number_in value.now }
{
    match value {
        [a, b, c, d] => Some(u32::from_be_bytes([*a, *b, *c, *d])),
        _ => None,
    }
}

/// A number of three octets, after a tag.
fn tagged_number_in(value: &[u8]) -> Option<u32>
    ensures { result ≡ tagged_number_in value.now }
{
    match value {
        [tag, b, c, d] if *tag <= MAX_TAG => Some(u32::from_be_bytes([0, *b, *c, *d])),
        _ => None,
    }
}

/// A number of an attribute, by its name if it has one.
fn number_text(
    alloc: Global,
    names: &Dictionary,
    vendor: u32,
    kind: u8,
    number: Option<u32>,
) -> Result<Option<Vec<u8>>, AllocError>
    ensures { IfOk result (λ text. option_map (λ v. v.items) text ≡
        option_map (number_text names.now vendor kind) number) }
{
    let Some(number) = number else {
        return Ok(None);
    };
    let mut out = Vec::new(alloc);
    match names.name_of_value(vendor, kind, number) {
        Some(name) => push_text(&mut out, name)?,
        None => push_decimal(&mut out, u64::from(number))?,
    }
    Ok(Some(out))
}

// ---- addresses and prefixes

/// An IPv4 address of four octets.
fn ipv4_in(alloc: Global, value: &[u8]) -> Result<Option<Vec<u8>>, AllocError>
    ensures { IfOk result (λ text. option_map (λ v. v.items) text ≡ ipv4_in value.now) }
{
    let Ok(octets) = <[u8; 4]>::try_from(value) else {
        return Ok(None);
    };
    let mut out = Vec::new(alloc);
    push_dotted(&mut out, octets)?;
    Ok(Some(out))
}

/// An IPv6 address of 16 octets (RFC 5952).
fn ipv6_in(alloc: Global, value: &[u8]) -> Result<Option<Vec<u8>>, AllocError>
    ensures { IfOk result (λ text. option_map (λ v. v.items) text ≡ ipv6_in value.now) }
{
    let Ok(octets) = <[u8; 16]>::try_from(value) else {
        return Ok(None);
    };
    let address = Ipv6Addr::from_octets(octets);
    let text = format!(in alloc; "{address}")?;
    let mut out = Vec::new(alloc);
    push_text(&mut out, text.as_str())?;
    Ok(Some(out))
}

/// An IPv6 prefix of 18 octets: one that is reserved, its length, and its address (RFC 3162 section 2.3).
fn ipv6_prefix_in(alloc: Global, value: &[u8]) -> Result<Option<Vec<u8>>, AllocError>
    ensures { IfOk result (λ text. option_map (λ v. v.items) text ≡ ipv6_prefix_in value.now) }
{
    match value {
        [0, len, address @ ..] => prefix_by(ipv6_in(alloc, address)?, *len),
        _ => Ok(None),
    }
}

/// An address and a length, if they are a prefix.
fn prefix_by(address: Option<Vec<u8>>, len: u8) -> Result<Option<Vec<u8>>, AllocError>
    ensures { IfOk result (λ text. option_map (λ v. v.items) text ≡
        prefix_by (option_map (λ v. v.items) address) len) }
{
    let Some(mut out) = address else {
        return Ok(None);
    };
    push_text(&mut out, "/")?;
    push_decimal(&mut out, u64::from(len))?;
    Ok(prefix_if(out))
}

/// The text of a prefix, if it is one.
fn prefix_if(text: Vec<u8>) -> Option<Vec<u8>>
    ensures { option_map (λ v. v.items) result ≡ prefix_if text.items }
{
    match prefix_of(text.as_slice()) {
        Some(_) => Some(text),
        None => None,
    }
}

// ---- interface identifiers (RFC 3162 section 2.2)

/// An interface identifier of eight octets.
fn interface_in(alloc: Global, value: &[u8]) -> Result<Option<Vec<u8>>, AllocError>
    ensures { IfOk result (λ text. option_map (λ v. v.items) text ≡ interface_in value.now) }
{
    let [a, b, c, d, e, f, g, h] = value else {
        return Ok(None);
    };
    let mut out = Vec::new(alloc);
    push_group(alloc, &mut out, *a, *b)?;
    push_text(&mut out, ":")?;
    push_group(alloc, &mut out, *c, *d)?;
    push_text(&mut out, ":")?;
    push_group(alloc, &mut out, *e, *f)?;
    push_text(&mut out, ":")?;
    push_group(alloc, &mut out, *g, *h)?;
    Ok(Some(out))
}

/// Writes two octets as hexadecimal digits, without zeros in front.
fn push_group(alloc: Global, out: &mut Vec<u8>, high: u8, low: u8) -> Result<(), AllocError>
    ensures { OnOk result (out.new.items ≡ out.old.items ++ group high low) }
{
    let mut digits = Vec::new(alloc);
    push_hex(&mut digits, &[high, low])?;
    out.extend_from_slice(without_zeros(digits.as_slice()))
}

/// Digits without the zeros in front of them; the last one stays.
fn without_zeros(mut digits: &[u8]) -> &[u8]
    ensures { result.now ≡ without_zeros digits.entry.now }
{
    while let [b'0', rest @ ..] = digits {
        if rest.is_empty() {
            return digits;
        }
        digits = rest;
    }
    digits
}
