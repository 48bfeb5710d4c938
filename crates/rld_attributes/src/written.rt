ghost use Rattle.std.specs.Prelude.{◌≡◌, ◌++◌, IfOk, OnOk};
ghost use Rattle.rld_attributes.specs.Value.{digits, tag_in, value_text};
ghost use Rattle.rld_attributes.specs.Written.{by_numbers, numbers_name, pair, tagged_name, written, written_as, written_by};

use crate::carried::carried;
use crate::value::{digits, tag_in, value_text};
use rld_values::{push_decimal, push_text};
use rsl_reply::{Dictionary, Form};
use rsl_wire::Octets;
use std::alloc::{AllocError, Global};

/// An attribute, as an operator writes it. It is written with ` = ` between the two.
#[derive(Drop)]
pub struct Written {
    /// The name, which a colon and a tag follow if it has one (RFC 2868 section 3): `Tunnel-Type:1`; or its
    /// numbers, as `Attr-11` or `Attr-26.14988.8`.
    pub name: Octets,
    /// The value: a text in quotation marks, a number or its name, an address, a prefix, or octets as `0x` and
    /// hexadecimal digits. All of it is UTF-8 without control characters.
    pub value: Octets,
}

impl Written {
    /// Writes it as `NAME = VALUE`. It fails only where memory is refused.
    #[tactic(auto, unfolding(crate::specs::Written::pair))]
    pub fn push(&self, out: &mut Vec<u8>) -> Result<(), AllocError>
        ensures { OnOk result (out.new.items ≡ out.old.items ++ pair self.now) }
    {
        out.extend_from_slice(self.name.as_slice())?;
        push_text(out, " = ")?;
        out.extend_from_slice(self.value.as_slice())
    }
}

/// The attribute of this Type with this value, as an operator writes it: by the name that a
/// dictionary has for it, and else, or where the value is not of that name's form, by its numbers. A Type 26
/// that carries one attribute of a vendor is told as that (RFC 2865 section 5.26). It fails only where memory
/// is refused.
#[tactic(auto, unfolding(crate::specs::Written::written))]
pub fn write_attribute(
    alloc: Global,
    names: &Dictionary,
    kind: u8,
    value: &[u8],
) -> Result<Written, AllocError>
    ensures { IfOk result (λ one. one ≡ written names.now kind value.now) }
{
    let (vendor, kind, value) = carried(kind, value);
    written_as(alloc, names, vendor, kind, value)
}

/// An attribute of a vendor, or of none.
fn written_as(
    alloc: Global,
    names: &Dictionary,
    vendor: u32,
    kind: u8,
    value: &[u8],
) -> Result<Written, AllocError>
    ensures { IfOk result (λ one. one ≡ written_as names.now (vendor, kind, value.now)) }
{
    match names.name_of(vendor, kind) {
        Some((name, form)) => written_by(alloc, names, vendor, kind, value, name, form),
        None => by_numbers(alloc, vendor, kind, value),
    }
}

/// An attribute that has this name, if its value is of the name's form.
fn written_by(
    alloc: Global,
    names: &Dictionary,
    vendor: u32,
    kind: u8,
    value: &[u8],
    name: &str,
    form: Form,
) -> Result<Written, AllocError>
    ensures { IfOk result (λ one. one ≡ written_by (vendor, kind, value.now) name.now form
        (value_text names.now form vendor kind value.now)) }
{
    match value_text(alloc, names, form, vendor, kind, value)? {
        Some(text) => {
            let name = tagged_name(alloc, name, tag_in(form, value))?;
            in_octets(alloc, name.as_slice(), text.as_slice())
        }
        None => by_numbers(alloc, vendor, kind, value),
    }
}

/// An attribute by its numbers, with its value as octets.
fn by_numbers(alloc: Global, vendor: u32, kind: u8, value: &[u8]) -> Result<Written, AllocError>
    ensures { IfOk result (λ one. one ≡ by_numbers (vendor, kind, value.now)) }
{
    let name = numbers_name(alloc, vendor, kind)?;
    let value = digits(alloc, value)?;
    in_octets(alloc, name.as_slice(), value.as_slice())
}

/// A name and a value.
fn in_octets(alloc: Global, name: &[u8], value: &[u8]) -> Result<Written, AllocError>
    ensures name { IfOk result (λ one. one.name ≡ name.now) }
    ensures value { IfOk result (λ one. one.value ≡ value.now) }
{
    match (
        Octets::from_slice(alloc, name),
        Octets::from_slice(alloc, value),
    ) {
        (Ok(name), Ok(value)) => Ok(Written { name, value }),
        _ => Err(AllocError),
    }
}

/// The numbers of an attribute: `Attr-11`, `Attr-26.14988.8`.
fn numbers_name(alloc: Global, vendor: u32, kind: u8) -> Result<Vec<u8>, AllocError>
    ensures { IfOk result (λ name. name.items ≡ numbers_name vendor kind) }
{
    let mut out = Vec::new(alloc);
    if vendor == 0 {
        push_text(&mut out, "Attr-")?;
    } else {
        push_text(&mut out, "Attr-26.")?;
        push_decimal(&mut out, u64::from(vendor))?;
        push_text(&mut out, ".")?;
    }
    push_decimal(&mut out, u64::from(kind))?;
    Ok(out)
}

/// A name, and the tag after it.
fn tagged_name(alloc: Global, name: &str, tag: u8) -> Result<Vec<u8>, AllocError>
    ensures { IfOk result (λ tagged. tagged.items ≡ tagged_name name.now tag) }
{
    let mut out = Vec::new(alloc);
    push_text(&mut out, name)?;
    if tag != 0 {
        push_text(&mut out, ":")?;
        push_decimal(&mut out, u64::from(tag))?;
    }
    Ok(out)
}
