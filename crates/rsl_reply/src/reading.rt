//! The attribute that a text writes.
ghost use Rattle.std.specs.Prelude.{◌≡◌, ◌≢◌, ◌≤◌, length, IfOk, IfErr, Ok, Err};
ghost use Rattle.rsl_reply.specs.Naming.{target_of};
ghost use Rattle.rsl_reply.specs.Reading.{
  added,
  attribute_of_text,
  attribute_with,
  least_octets,
  most_octets,
  octets_with,
  plain_octets,
  read_as,
  read_named,
  vendor_octets,
  written,
};

use crate::attribute::ReplyAttribute;
use crate::dictionary::Dictionary;
use crate::naming::{is_servers, target_of};
use crate::target::Target;
use crate::value::{joined, value_of};
use crate::words::{split_at, trimmed};
use rsl_accounts::ReplyFault;
use rsl_wire::{NoMemory, Octets};
use std::alloc::Global;

/// Vendor-Specific (RFC 2865 section 5.26).
const VENDOR_SPECIFIC: u8 = 26;

/// The attribute that a text `NAME = VALUE` writes, or `NAME += VALUE`, which adds it. White space round the
/// name and the value counts for nothing.
///
/// `NotPair`: there is no `=`. `UnknownName`: the dictionary has no such name, and it is no `Attr-N` or
/// `Attr-26.VENDOR.TYPE`. `ServersOwn`: the server sets that attribute. `BadValue`: the value is not
/// what the attribute has. `TooLong`: over 253 octets, or 247 of a vendor's. `TooShort`: Attr-26 with under
/// 5. `NoMemory`: memory was refused.
#[tactic(auto, unfolding(crate::specs::Reading::attribute_of_text))]
pub fn read_attribute(
    alloc: Global,
    names: &Dictionary,
    text: &str,
) -> Result<ReplyAttribute, ReplyFault>
    ensures ok { IfOk result (λ attribute. attribute_of_text names.now text.now ≡ Ok attribute) }
    ensures fault { IfErr result (λ fault. fault ≢ ReplyFault.NoMemory →
        attribute_of_text names.now text.now ≡ Err fault) }
{
    match split_at('=', text) {
        Some((front, value)) => {
            let (name, adds) = added(trimmed(front));
            read_named(alloc, names, name, adds, trimmed(value))
        }
        None => Err(ReplyFault::NotPair),
    }
}

/// A name, and whether `+` stands after it.
#[tactic(auto, unfolding(crate::specs::Reading::added))]
fn added(front: &str) -> (&str, bool)
    ensures { (result.0.now, result.1) ≡ added front.now }
{
    match split_at('+', front) {
        Some((name, "")) => (trimmed(name), true),
        _ => (front, false),
    }
}

/// The attribute of this name with the value that a text writes.
fn read_named(
    alloc: Global,
    names: &Dictionary,
    name: &str,
    adds: bool,
    value: &str,
) -> Result<ReplyAttribute, ReplyFault>
    ensures ok { IfOk result (λ attribute.
        read_named names.now (name.now, adds) value.now ≡ Ok attribute) }
    ensures fault { IfErr result (λ fault. fault ≢ ReplyFault.NoMemory →
        read_named names.now (name.now, adds) value.now ≡ Err fault) }
{
    read_as(alloc, names, target_of(names, name), adds, value)
}

/// This attribute with the value that a text writes.
fn read_as(
    alloc: Global,
    names: &Dictionary,
    target: Option<Target>,
    adds: bool,
    value: &str,
) -> Result<ReplyAttribute, ReplyFault>
    ensures ok { IfOk result (λ attribute. read_as names.now target adds value.now ≡ Ok attribute) }
    ensures fault { IfErr result (λ fault. fault ≢ ReplyFault.NoMemory →
        read_as names.now target adds value.now ≡ Err fault) }
{
    let Some(target) = target else {
        return Err(ReplyFault::UnknownName);
    };
    if is_servers(target) {
        return Err(ReplyFault::ServersOwn);
    }
    match value_of(alloc, names, target, value)? {
        Some(value) => attribute_with(alloc, target, adds, value.as_slice()),
        None => Err(ReplyFault::BadValue(target.form)),
    }
}

/// This attribute with a value.
fn attribute_with(
    alloc: Global,
    target: Target,
    adds: bool,
    value: &[u8],
) -> Result<ReplyAttribute, ReplyFault>
    ensures ok { IfOk result (λ attribute.
        attribute_with target adds (written target value.now) ≡ Ok attribute) }
    ensures fault { IfErr result (λ fault. fault ≢ ReplyFault.NoMemory →
        attribute_with target adds (written target value.now) ≡ Err fault) }
{
    let octets = written(alloc, target, value)?;
    Ok(ReplyAttribute {
        target,
        adds,
        octets: Octets::from_slice(alloc, octets.as_slice())?,
    })
}

/// The octets of this attribute with a value, if that is not too long or too short.
fn written(alloc: Global, target: Target, value: &[u8]) -> Result<Vec<u8>, ReplyFault>
    ensures ok { IfOk result (λ octets. written target value.now ≡ Ok octets.items) }
    ensures fault { IfErr result (λ fault. fault ≢ ReplyFault.NoMemory →
        written target value.now ≡ Err fault) }
{
    if most_octets(target) < value.len() {
        return Err(ReplyFault::TooLong);
    }
    if value.len() < least_octets(target) {
        return Err(ReplyFault::TooShort);
    }
    Ok(octets_with(alloc, target, value)?)
}

/// The fewest octets that the value of an attribute may have.
fn least_octets(target: Target) -> usize
    ensures { result ≡ least_octets target }
{
    if target.vendor == 0 && target.number == VENDOR_SPECIFIC {
        5
    } else {
        0
    }
}

/// The most octets that the value of an attribute may have.
fn most_octets(target: Target) -> usize
    ensures { result ≡ most_octets target }
{
    if target.vendor == 0 { 253 } else { 247 }
}

/// The octets of this attribute with a value that is not too long.
fn octets_with(alloc: Global, target: Target, value: &[u8]) -> Result<Vec<u8>, NoMemory>
    requires { length value.now ≤ most_octets target }
    ensures { IfOk result (λ octets. octets.items ≡ octets_with target value.now) }
{
    if target.vendor == 0 {
        plain_octets(alloc, target.number, value)
    } else {
        vendor_octets(alloc, target.vendor, target.number, value)
    }
}

/// The octets of an attribute: its Type, its length and its value.
fn plain_octets(alloc: Global, kind: u8, value: &[u8]) -> Result<Vec<u8>, NoMemory>
    requires { length value.now ≤ 253 }
    ensures { IfOk result (λ octets. octets.items ≡ plain_octets kind value.now) }
{
    let front = [kind, (2 + value.len()) as u8];
    joined(alloc, &front, value)
}

/// The octets of a vendor's attribute.
fn vendor_octets(alloc: Global, vendor: u32, kind: u8, value: &[u8]) -> Result<Vec<u8>, NoMemory>
    requires { length value.now ≤ 247 }
    ensures { IfOk result (λ octets. octets.items ≡ vendor_octets vendor kind value.now) }
{
    let inner = plain_octets(alloc, kind, value)?;
    let carried = joined(alloc, &vendor.to_be_bytes(), inner.as_slice())?;
    plain_octets(alloc, VENDOR_SPECIFIC, carried.as_slice())
}
