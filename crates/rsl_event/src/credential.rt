ghost use Rattle.std.specs.Prelude.{◌≡◌, None, Some, MatchOption, length};
ghost use Rattle.std.specs.Int.{w32, from_be_bytes};
ghost use Rattle.rsl_wire.specs.Attributes.{attribute_list, attribute_of, first_attribute};
ghost use Rattle.rsl_event.specs.Credential.{
  has_unchecked_credential,
  is_credential,
  is_no_credential,
  is_unchecked,
  may_have_credential,
  vendor_may_have_credential,
};

use crate::codes::{
    ARAP_CHALLENGE_RESPONSE, ARAP_FEATURES, ARAP_PASSWORD, ARAP_SECURITY, ARAP_SECURITY_DATA,
    DIGEST_RESPONSE, DRAFT_DIGEST_ATTRIBUTES, DRAFT_DIGEST_RESPONSE, EAP_MESSAGE, MICROSOFT,
    MIN_VENDOR_SPECIFIC_LEN, PKM_CA_CERT, PKM_SS_CERT, SIP_AOR, VENDOR_SPECIFIC,
};
use rsl_wire::{ATTR_HEADER_LEN, Attrs};

/// Whether a request has a credential that the server does not check, that is any but a User-Password and a
/// CHAP-Password: one of ARAP, EAP, Digest or PKM, one of Microsoft, as of MS-CHAP, or a malformed
/// Vendor-Specific.
#[tactic(auto, unfolding(crate::specs::Credential::has_unchecked_credential))]
pub(crate) fn has_unchecked_credential(attributes: &Attrs<'_>) -> bool
    ensures { result ≡ has_unchecked_credential attributes.now }
{
    for (kind, value) in attributes.iter() {
        if is_unchecked(kind, value) {
            return true;
        }
    }
    false
}

/// Whether an attribute is a credential that the server does not check.
fn is_unchecked(kind: u8, value: &[u8]) -> bool
    ensures { result ≡ is_unchecked (attribute_of kind value.now) }
{
    if kind == VENDOR_SPECIFIC {
        vendor_may_have_credential(value)
    } else {
        is_credential(kind)
    }
}

/// Whether a credential is shown by a Type.
fn is_credential(kind: u8) -> bool
    ensures { result ≡ is_credential kind }
{
    matches!(
        kind,
        ARAP_PASSWORD
            | ARAP_FEATURES
            | ARAP_SECURITY
            | ARAP_SECURITY_DATA
            | EAP_MESSAGE
            | ARAP_CHALLENGE_RESPONSE
            | DIGEST_RESPONSE..=SIP_AOR
            | PKM_SS_CERT
            | PKM_CA_CERT
            | DRAFT_DIGEST_RESPONSE
            | DRAFT_DIGEST_ATTRIBUTES
    )
}

/// Whether a Vendor-Specific may have a credential: one that is malformed, or of Microsoft with one.
fn vendor_may_have_credential(value: &[u8]) -> bool
    ensures { result ≡ vendor_may_have_credential value.now }
{
    if value.len() < MIN_VENDOR_SPECIFIC_LEN {
        return true;
    }
    let (vendor, attributes) = value.split_at(4);
    number_of(vendor) == MICROSOFT && may_have_credential(attributes)
}

/// Four octets as a number, high octet first.
fn number_of(octets: &[u8]) -> u32
    requires { length octets.now ≡ 4 }
    ensures { result ≡ from_be_bytes w32 octets.now }
{
    u32::from_be_bytes([octets[0], octets[1], octets[2], octets[3]])
}

/// Whether these octets, which are attributes of Microsoft, may have a credential: where they are malformed, or
/// one is not known to be none.
#[tactic(auto, using(crate::proofs::CredentialLaws::malformed, crate::proofs::CredentialLaws::none_left, rsl_wire::proofs::AttributeLaws::shorter))]
fn may_have_credential(octets: &[u8]) -> bool
    ensures { result ≡ may_have_credential (attribute_list octets.now) }
{
    let mut rest = octets;
    while !rest.is_empty() {
        let Some((vendor_type, _, after)) = first_attribute(rest) else {
            return true;
        };
        if !is_no_credential(vendor_type) {
            return true;
        }
        rest = after;
    }
    false
}

/// The Vendor-Type and the value of the first attribute of the octets, and the octets after it.
fn first_attribute(octets: &[u8]) -> Option<(u8, &[u8], &[u8])>
    ensures { MatchOption result (first_attribute octets.now ≡ None) (λ found.
        first_attribute octets.now ≡ Some (attribute_of found.0 found.1.now, found.2.now)) }
{
    let [vendor_type, len, rest @ ..] = octets else {
        return None;
    };
    let len = usize::from(*len);
    if len < ATTR_HEADER_LEN || rest.len() + ATTR_HEADER_LEN < len {
        return None;
    }
    let (value, rest) = rest.split_at(len - ATTR_HEADER_LEN);
    Some((*vendor_type, value, rest))
}

/// Whether a Vendor-Type of Microsoft is known to be no credential.
fn is_no_credential(vendor_type: u8) -> bool
    ensures { result ≡ is_no_credential vendor_type }
{
    matches!(
        vendor_type,
        7..=10 | 13..=15 | 18 | 22..=24 | 28..=31 | 34..=37 | 40..=42 | 44..=54 | 56..=63
    )
}
