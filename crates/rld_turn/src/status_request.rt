//! Which Status-Server packets are answered.
ghost use Rattle.std.specs.Prelude.{◌≡◌, ◌<◌, ◌≤◌, List, ℕ, length};
ghost use Rattle.rsl_auth.specs.Hmac.{IsKeyOf};
ghost use Rattle.rsl_event.specs.Request.{proxy_len, text_of};
ghost use Rattle.rsl_event.specs.Signature.{has_right_signature};
ghost use Rattle.rsl_wire.specs.Attributes.{AreAttributes, list_octets};
ghost use Rattle.rsl_wire.specs.Seen.{fields_of};
ghost use Rattle.rld_turn.specs.StatusAnswer.{is_answered};

use rsl_accounts::Config;
use rsl_auth::{HmacKey, SIGNATURE_LEN};
use rsl_event::codes::{MAX_PROXY_STATE_LEN, MESSAGE_AUTHENTICATOR, PROXY_STATE};
use rsl_wire::{ATTR_HEADER_LEN, Attrs, HEADER_LEN, Packet};

/// The Code of a Status-Server packet (RFC 2865 section 4, RFC 5997 section 3).
pub const STATUS_SERVER: u8 = 12;

const _: () = prove!(STATUS_SERVER == 12);

/// Whether a packet of this client with these attributes is answered.
pub(crate) fn is_answered(
    config: &Config,
    client: u32,
    packet: &Packet<'_>,
    attributes: &Attrs<'_>,
) -> bool
    requires client { client < length config.now.clients }
    requires attributes { AreAttributes packet.now.attrs.now attributes.now }
    ensures { result ≡ is_answered config.now client (fields_of packet.now) attributes.now }
{
    packet.code == STATUS_SERVER
        && has_right_signature(packet, attributes, config.hmac_key(client))
        && proxy_len(attributes) <= MAX_PROXY_STATE_LEN
}

/// Whether there is exactly one Message-Authenticator, of 16 octets, and it is right by the key of
/// the secret.
#[tactic(auto, unfolding(rsl_event::specs::Signature::has_right_signature))]
fn has_right_signature(packet: &Packet<'_>, attributes: &Attrs<'_>, key: &HmacKey) -> bool
    requires { AreAttributes packet.now.attrs.now attributes.now }
    ensures { (secret : List ℕ) → IsKeyOf secret key.now →
        result ≡ has_right_signature (fields_of packet.now) attributes.now secret }
{
    if attributes.count(MESSAGE_AUTHENTICATOR) != 1 {
        return false;
    }
    if signature(attributes).len() != SIGNATURE_LEN {
        return false;
    }
    let at = HEADER_LEN + ATTR_HEADER_LEN + attributes.octets_before(MESSAGE_AUTHENTICATOR);
    key.is_right(packet.octets(), at)
}

/// The value of the first Message-Authenticator, or no octets.
fn signature<'a>(attributes: &Attrs<'a>) -> &'a [u8]
    ensures { result.now ≡ text_of MESSAGE_AUTHENTICATOR attributes.now }
{
    attributes.first(MESSAGE_AUTHENTICATOR).unwrap_or(&[])
}

/// Octets of the Proxy-States, with their headers.
fn proxy_len(attributes: &Attrs<'_>) -> usize
    requires { length (list_octets attributes.now) ≤ 4096 }
    ensures { result ≡ proxy_len attributes.now }
{
    let mut len = 0usize;
    for (kind, value) in attributes.iter() {
        if kind == PROXY_STATE {
            len += ATTR_HEADER_LEN + value.len();
        }
    }
    len
}
