//! The octets of a value, as it is written for each form.
ghost use Rattle.std.specs.Prelude.{
  ◌≡◌,
  ◌≤◌,
  ◌-◌,
  ◌*◌,
  ◌+◌,
  ◌++◌,
  ◌∷◌,
  [],
  IfOk,
  OnOk,
  false,
  length,
  option_map,
};
ghost use Rattle.std.specs.List.{list_all};
ghost use Rattle.rld_networks.specs.Address.{ip_address_of};
ghost use Rattle.rld_networks.specs.Prefix.{prefix_of};
ghost use Rattle.rsl_reply.specs.Value.{
  decoded,
  filled,
  group_digits,
  inside,
  interface_id,
  ipv4_in,
  ipv6_in,
  ipv6_prefix_in,
  is_escaped,
  is_group,
  is_plain,
  is_quoted,
  number_octets,
  number_value,
  octets_value,
  some_of,
  tagged_number,
  text_value,
  unescaped,
  value_of,
  with_tag,
};

use crate::dictionary::Dictionary;
use crate::target::Target;
use crate::words::{read_number, rest_after, split_at};
use hex::FromHexError;
use rld_networks::{Prefix, ip_address_of, prefix_of};
use rsl_accounts::Form;
use rsl_wire::NoMemory;
use std::alloc::Global;
use std::net::IpAddr;

/// The number after the greatest of three octets.
const THREE_OCTETS: u32 = 16_777_216;

/// The octets of the value that a text writes for an attribute. It fails only where memory is refused.
#[tactic(auto, unfolding(crate::specs::Value::value_of))]
pub(crate) fn value_of(
    alloc: Global,
    names: &Dictionary,
    target: Target,
    text: &str,
) -> Result<Option<Vec<u8>>, NoMemory>
    ensures { IfOk result (λ value. option_map (λ v. v.items) value ≡
        value_of names.now target text.now) }
{
    match target.form {
        Form::Text => text_value(alloc, text.as_bytes()),
        Form::Octets => octets_value(alloc, text),
        Form::Number => number_octets(alloc, number_value(names, target, text)),
        Form::Ipv4 => ipv4_octets(alloc, ip_address_of(text.as_bytes())),
        Form::Ipv6 => ipv6_octets(alloc, ip_address_of(text.as_bytes())),
        Form::Ipv6Prefix => ipv6_prefix_octets(alloc, prefix_of(text.as_bytes())),
        Form::InterfaceId => interface_id(alloc, text),
        Form::TaggedNumber => number_octets(alloc, tagged_number(names, target, text)),
        Form::TaggedText => tagged_text(alloc, target.tag, text_value(alloc, text.as_bytes())?),
    }
}

/// Whether a text stands between two quotation marks, double or single.
fn is_quoted(text: &[u8]) -> bool
    ensures { result ≡ is_quoted text.now }
{
    2 <= text.len() && (text[0] == b'"' || text[0] == b'\'') && text[text.len() - 1] == text[0]
}

/// What stands between the quotation marks of a text.
fn inside(text: &[u8]) -> &[u8]
    requires { 2 ≤ length text.now }
    ensures { result.now ≡ inside text.now }
{
    &text[1..text.len() - 1]
}

/// Whether an octet is no control character, double quotation mark or backslash.
fn is_plain(octet: u8) -> bool
    ensures { result ≡ is_plain octet }
{
    32 <= octet && octet != b'"' && octet != b'\\' && octet != 127
}

/// Whether each octet is plain.
fn are_plain(text: &[u8]) -> bool
    ensures { result ≡ list_all is_plain text.now }
{
    text.iter().all(|octet| is_plain(*octet))
}

/// Whether a backslash may stand before an octet: before a double quotation mark and a backslash.
fn is_escaped(octet: u8) -> bool
    ensures { result ≡ is_escaped octet }
{
    octet == b'"' || octet == b'\\'
}

/// What stands in quotation marks, without the backslashes that escape. None: an octet is not plain and not
/// escaped, or another is escaped.
fn unescaped(alloc: Global, mut text: &[u8]) -> Result<Option<Vec<u8>>, NoMemory>
    ensures { IfOk result (λ value. option_map (λ v. v.items) value ≡
        unescaped false [] text.entry.now) }
{
    let mut out = Vec::new(alloc);
    let mut escaping = false;
    while let [octet, rest @ ..] = text {
        if escaping {
            if !is_escaped(*octet) {
                return Ok(None);
            }
            out.push(*octet)?;
            escaping = false;
        } else if *octet == b'\\' {
            escaping = true;
        } else {
            if !is_plain(*octet) {
                return Ok(None);
            }
            out.push(*octet)?;
        }
        text = rest;
    }
    Ok(if escaping { None } else { Some(out) })
}

/// The octets of a text of one octet or more: plain ones, or in quotation marks.
#[tactic(auto, unfolding(crate::specs::Value::text_value))]
fn text_value(alloc: Global, text: &[u8]) -> Result<Option<Vec<u8>>, NoMemory>
    ensures { IfOk result (λ value. option_map (λ v. v.items) value ≡ text_value text.now) }
{
    if is_quoted(text) {
        Ok(some_of(unescaped(alloc, inside(text))?))
    } else if are_plain(text) {
        Ok(some_of(Some(Vec::from_slice(alloc, text)?)))
    } else {
        Ok(None)
    }
}

/// Octets, if there are any.
fn some_of(text: Option<Vec<u8>>) -> Option<Vec<u8>>
    ensures { option_map (λ v. v.items) result ≡ some_of (option_map (λ v. v.items) text) }
{
    match text {
        Some(text) if 0 < text.len() => Some(text),
        _ => None,
    }
}

/// The octets that 0x and one pair of hexadecimal digits or more write.
#[tactic(auto, unfolding(crate::specs::Value::octets_value))]
fn octets_value(alloc: Global, text: &str) -> Result<Option<Vec<u8>>, NoMemory>
    ensures { IfOk result (λ value. option_map (λ v. v.items) value ≡ octets_value text.now) }
{
    match rest_after("0x", text) {
        Some(digits) => decoded(alloc, digits.as_bytes()),
        None => Ok(None),
    }
}

/// The octets that one pair of hexadecimal digits or more write.
#[tactic(auto, unfolding(crate::specs::Value::decoded))]
fn decoded(alloc: Global, digits: &[u8]) -> Result<Option<Vec<u8>>, NoMemory>
    ensures { IfOk result (λ value. option_map (λ v. v.items) value ≡ decoded digits.now) }
{
    if digits.is_empty() {
        return Ok(None);
    }
    match hex::decode(alloc, digits) {
        Ok(octets) => Ok(Some(octets)),
        Err(FromHexError::OutOfMemory) => Err(NoMemory),
        Err(_) => Ok(None),
    }
}

/// The number that a word writes, or that it is the name of.
#[tactic(auto, unfolding(crate::specs::Value::number_value))]
fn number_value(names: &Dictionary, target: Target, word: &str) -> Option<u32>
    ensures { result ≡ number_value names.now target word.now }
{
    match read_number(word) {
        Some(number) => Some(number),
        None => names.value_named(target.vendor, target.number, word),
    }
}

/// The number under 2^24 that a word writes or is the name of, with the tag before it.
#[tactic(auto, unfolding(crate::specs::Value::tagged_number))]
fn tagged_number(names: &Dictionary, target: Target, word: &str) -> Option<u32>
    ensures { result ≡ tagged_number names.now target word.now }
{
    let number = number_value(names, target, word)?;
    if number < THREE_OCTETS {
        Some(u32::from(target.tag) * THREE_OCTETS + number)
    } else {
        None
    }
}

/// The four octets of a number, the high octet first.
fn number_octets(alloc: Global, number: Option<u32>) -> Result<Option<Vec<u8>>, NoMemory>
    ensures { IfOk result (λ value. option_map (λ v. v.items) value ≡ number_octets number) }
{
    match number {
        Some(number) => Ok(Some(Vec::from_slice(alloc, &number.to_be_bytes())?)),
        None => Ok(None),
    }
}

/// The four octets of an IPv4 address.
fn ipv4_octets(alloc: Global, address: Option<IpAddr>) -> Result<Option<Vec<u8>>, NoMemory>
    ensures { IfOk result (λ value. option_map (λ v. v.items) value ≡ ipv4_in address) }
{
    match address {
        Some(IpAddr::V4(address)) => Ok(Some(Vec::from_slice(alloc, &address.octets())?)),
        _ => Ok(None),
    }
}

/// The 16 octets of an IPv6 address.
fn ipv6_octets(alloc: Global, address: Option<IpAddr>) -> Result<Option<Vec<u8>>, NoMemory>
    ensures { IfOk result (λ value. option_map (λ v. v.items) value ≡ ipv6_in address) }
{
    match address {
        Some(IpAddr::V6(address)) => Ok(Some(Vec::from_slice(alloc, &address.octets())?)),
        _ => Ok(None),
    }
}

/// The 18 octets of an IPv6 prefix: one that is reserved, its length, and its address.
fn ipv6_prefix_octets(alloc: Global, prefix: Option<Prefix>) -> Result<Option<Vec<u8>>, NoMemory>
    ensures { IfOk result (λ value. option_map (λ v. v.items) value ≡ ipv6_prefix_in prefix) }
{
    let Some(prefix) = prefix else {
        return Ok(None);
    };
    match prefix.address {
        IpAddr::V6(address) => {
            let front = [0, prefix.len];
            Ok(Some(joined(alloc, &front, &address.octets())?))
        }
        IpAddr::V4(_) => Ok(None),
    }
}

/// An interface identifier: octets, or four groups of hexadecimal digits.
#[tactic(auto, unfolding(crate::specs::Value::interface_id))]
fn interface_id(alloc: Global, text: &str) -> Result<Option<Vec<u8>>, NoMemory>
    ensures { IfOk result (λ value. option_map (λ v. v.items) value ≡ interface_id text.now) }
{
    match octets_value(alloc, text)? {
        Some(octets) => Ok(Some(octets)),
        None => match group_digits(alloc, text)? {
            Some(digits) => decoded(alloc, digits.as_slice()),
            None => Ok(None),
        },
    }
}

/// The 16 digits of four groups.
#[tactic(auto, unfolding(crate::specs::Value::group_digits))]
fn group_digits(alloc: Global, text: &str) -> Result<Option<Vec<u8>>, NoMemory>
    ensures { IfOk result (λ digits. option_map (λ v. v.items) digits ≡ group_digits text.now) }
{
    let Some((a, rest)) = split_at(':', text) else {
        return Ok(None);
    };
    let Some((b, rest)) = split_at(':', rest) else {
        return Ok(None);
    };
    let Some((c, d)) = split_at(':', rest) else {
        return Ok(None);
    };
    let (a, b, c, d) = (a.as_bytes(), b.as_bytes(), c.as_bytes(), d.as_bytes());
    if !(is_group(a) && is_group(b) && is_group(c) && is_group(d)) {
        return Ok(None);
    }
    let mut digits = Vec::new(alloc);
    push_filled(&mut digits, a)?;
    push_filled(&mut digits, b)?;
    push_filled(&mut digits, c)?;
    push_filled(&mut digits, d)?;
    Ok(Some(digits))
}

/// Whether a word has one to four octets.
fn is_group(word: &[u8]) -> bool
    ensures { result ≡ is_group word.now }
{
    0 < word.len() && word.len() <= 4
}

/// Adds the digits of a group, with zeros before them up to four.
fn push_filled(digits: &mut Vec<u8>, word: &[u8]) -> Result<(), NoMemory>
    requires { length word.now ≤ 4 }
    ensures { OnOk result (digits.new.items ≡ digits.old.items ++ filled word.now) }
{
    let zeros = &b"0000"[..];
    digits.extend_from_slice(&zeros[word.len()..])?;
    digits.extend_from_slice(word)?;
    Ok(())
}

/// A text, after its tag if it has one.
fn tagged_text(alloc: Global, tag: u8, text: Option<Vec<u8>>) -> Result<Option<Vec<u8>>, NoMemory>
    ensures { IfOk result (λ value. option_map (λ v. v.items) value ≡
        option_map (with_tag tag) (option_map (λ v. v.items) text)) }
{
    let Some(text) = text else {
        return Ok(None);
    };
    if tag == 0 {
        Ok(Some(text))
    } else {
        Ok(Some(joined(alloc, &[tag], text.as_slice())?))
    }
}

/// Octets after others. It fails only where memory is refused.
pub(crate) fn joined(alloc: Global, front: &[u8], rest: &[u8]) -> Result<Vec<u8>, NoMemory>
    ensures { IfOk result (λ octets. octets.items ≡ front.now ++ rest.now) }
{
    let mut octets = Vec::from_slice(alloc, front)?;
    octets.extend_from_slice(rest)?;
    Ok(octets)
}
