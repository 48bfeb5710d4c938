ghost use Rattle.std.specs.Prelude.{◌≡◌, ◌+◌, ◌≤◌, length};
ghost use Rattle.rsl_wire.specs.Attributes.{AreAttributes};
ghost use Rattle.rsl_wire.specs.Seen.{fields_of};
ghost use Rattle.rld_control.specs.Answer.{has_right_signature, is_signed_for};

use crate::codes::MESSAGE_AUTHENTICATOR;
use rsl_auth::{SIGNATURE_LEN, same_octets, sign};
use rsl_wire::{ATTR_HEADER_LEN, Attrs, HEADER_LEN, MAX_LEN, Packet};

/// Whether an answer has no Message-Authenticator, or exactly one, of 16 octets, that is right.
pub(crate) fn has_right_signature(
    packet: &Packet<'_>,
    attributes: &Attrs<'_>,
    request_auth: &[u8; 16],
    secret: &[u8],
) -> bool
    requires { AreAttributes packet.now.attrs.now attributes.now }
    ensures { result ≡ has_right_signature (fields_of packet.now) attributes.now
        request_auth.now secret.now }
{
    match attributes.first(MESSAGE_AUTHENTICATOR) {
        None => true,
        Some(value) if value.len() == SIGNATURE_LEN => {
            let at = HEADER_LEN + ATTR_HEADER_LEN + attributes.octets_before(MESSAGE_AUTHENTICATOR);
            attributes.count(MESSAGE_AUTHENTICATOR) == 1
                && is_signed_for(packet.octets(), at, request_auth, secret)
        }
        Some(_) => false,
    }
}

/// Whether the Message-Authenticator of an answer, whose value is at offset `at`, is right: it is
/// computed with the authenticator of the request (RFC 5176 section 3.4).
fn is_signed_for(packet: &[u8], at: usize, request_auth: &[u8; 16], secret: &[u8]) -> bool
    requires after_header { 20 ≤ at }
    requires within { at + 16 ≤ length packet.now }
    requires whole { length packet.now ≤ 4096 }
    ensures { result ≡ is_signed_for packet.now at request_auth.now secret.now }
{
    let mut room = [0; MAX_LEN];
    let copy = &mut room[..packet.len()];
    copy.copy_from_slice(packet);
    sign(copy, at, request_auth, secret);
    same_octets(
        &packet[at..at + SIGNATURE_LEN],
        &copy[at..at + SIGNATURE_LEN],
    )
}
