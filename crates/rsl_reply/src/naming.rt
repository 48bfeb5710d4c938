//! Which attribute a name stands for.
ghost use Rattle.std.specs.Prelude.{◌≡◌, ◌≤◌, ◌==◌, IfSome};
ghost use Rattle.std.specs.List.{list_any};
ghost use Rattle.rsl_reply.specs.Naming.{
  attribute_numbered,
  has_tag,
  is_servers,
  numbered,
  numbered_by,
  plain_target,
  tagged_target,
  target_of,
  vendor_numbered,
};
ghost use Rattle.rsl_reply.specs.Words.{split_at, up_to};

use crate::dictionary::Dictionary;
use crate::target::Target;
use crate::words::{rest_after, split_at, up_to};
use rsl_accounts::Form;

/// The greatest number of a vendor: three octets (RFC 2865 section 5.26).
const MAX_VENDOR: u32 = 16_777_215;

/// The greatest Type.
const MAX_TYPE: u32 = 255;

/// The greatest tag (RFC 2868 section 3).
const MAX_TAG: u32 = 31;

/// The Types that the server sets itself, or counts by: User-Name, State, Class, Proxy-State,
/// Port-Limit, EAP-Message, Message-Authenticator and Acct-Interim-Interval.
const SERVERS_OWN: [u8; 8] = [1, 24, 25, 33, 62, 79, 80, 85];

/// The attribute that a name stands for: that of the dictionary, with a tag after a colon where its values
/// have one, or `Attr-N`, or `Attr-26.VENDOR.TYPE`.
#[tactic(auto, unfolding(crate::specs::Naming::target_of))]
pub(crate) fn target_of(names: &Dictionary, name: &str) -> Option<Target>
    ensures { result ≡ target_of names.now name.now }
{
    match split_at(':', name) {
        None => plain_target(names, name),
        Some((front, tag)) => tagged_target(names, front, tag),
    }
}

/// The attribute that a name without a tag stands for.
#[tactic(auto, unfolding(crate::specs::Naming::plain_target))]
fn plain_target(names: &Dictionary, name: &str) -> Option<Target>
    ensures { result ≡ plain_target names.now name.now }
{
    match attribute_numbered(name) {
        Some(target) => Some(target),
        None => names.attribute_named(name),
    }
}

/// The attribute that a name with a tag stands for.
#[tactic(auto, unfolding(crate::specs::Naming::tagged_target))]
fn tagged_target(names: &Dictionary, front: &str, tag: &str) -> Option<Target>
    ensures { result ≡ tagged_target names.now front.now tag.now }
{
    let target = names.attribute_named(front)?;
    let tag = tag_of(tag)?;
    if has_tag(target.form) {
        Some(Target {
            vendor: target.vendor,
            number: target.number,
            form: target.form,
            tag,
        })
    } else {
        None
    }
}

/// The tag from 1 to 31 that a word writes.
fn tag_of(word: &str) -> Option<u8>
    ensures value { result ≡ up_to MAX_TAG word.now }
    ensures within { IfSome result (λ tag. tag ≤ 31) }
{
    Some(up_to(MAX_TAG, word)? as u8)
}

/// The Type from 1 to 255 that a word writes.
fn type_of(word: &str) -> Option<u8>
    ensures { result ≡ up_to MAX_TYPE word.now }
{
    Some(up_to(MAX_TYPE, word)? as u8)
}

/// The attribute of `Attr-N` or `Attr-26.VENDOR.TYPE`.
#[tactic(auto, unfolding(crate::specs::Naming::attribute_numbered))]
fn attribute_numbered(name: &str) -> Option<Target>
    ensures { result ≡ attribute_numbered name.now }
{
    numbered_by(rest_after("Attr-", name)?)
}

/// The attribute of `N` or `26.VENDOR.TYPE`.
fn numbered_by(numbers: &str) -> Option<Target>
    ensures { result ≡ numbered_by (split_at 46 numbers.now) numbers.now }
{
    match split_at('.', numbers) {
        None => Some(numbered(0, type_of(numbers)?)),
        Some((front, rest)) if front == "26" => vendor_numbered(rest),
        Some(_) => None,
    }
}

/// The attribute of `VENDOR.TYPE`.
#[tactic(auto, unfolding(crate::specs::Naming::vendor_numbered))]
fn vendor_numbered(numbers: &str) -> Option<Target>
    ensures { result ≡ vendor_numbered numbers.now }
{
    let (vendor, number) = split_at('.', numbers)?;
    let vendor = up_to(MAX_VENDOR, vendor)?;
    Some(numbered(vendor, type_of(number)?))
}

/// An attribute by its numbers, whose value is octets.
fn numbered(vendor: u32, number: u8) -> Target
    ensures { result ≡ numbered vendor number }
{
    Target {
        vendor,
        number,
        form: Form::Octets,
        tag: 0,
    }
}

/// Whether values of this form have a tag.
fn has_tag(form: Form) -> bool
    ensures { result ≡ has_tag form }
{
    match form {
        Form::TaggedNumber | Form::TaggedText => true,
        _ => false,
    }
}

/// Whether the server sets the attribute itself, or counts by it.
pub(crate) fn is_servers(target: Target) -> bool
    ensures { result ≡ is_servers target }
{
    target.vendor == 0 && is_servers_type(target.number)
}

/// Whether the server sets the attribute of this Type itself, or counts by it.
fn is_servers_type(number: u8) -> bool
    ensures { result ≡ list_any (λ own. own == number) SERVERS_OWN }
{
    SERVERS_OWN.iter().any(|own| *own == number)
}
