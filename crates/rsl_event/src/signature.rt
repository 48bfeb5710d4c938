ghost use Rattle.std.specs.Prelude.{◌≡◌, ◌<◌, List, ℕ, length};
ghost use Rattle.rsl_auth.specs.Hmac.{IsKeyOf};
ghost use Rattle.rsl_wire.specs.Attributes.{AreAttributes};
ghost use Rattle.rsl_wire.specs.Seen.{fields_of};
ghost use Rattle.rsl_event.specs.Signature.{has_right_signature, signature_drop, unsigned_drop};

use crate::access_attributes::AccessAttributes;
use crate::codes::MESSAGE_AUTHENTICATOR;
use crate::meaning::Dropped;
use rsl_accounts::{Config, UnsignedRule};
use rsl_auth::{HmacKey, SIGNATURE_LEN};
use rsl_wire::{ATTR_HEADER_LEN, HEADER_LEN, Packet};

/// The offset of the value of a Message-Authenticator that is a packet's first attribute: after the
/// header, its Type and its Length.
pub(crate) const FIRST_SIGNATURE_OFFSET: usize = HEADER_LEN + ATTR_HEADER_LEN;

/// Why a request with these attributes is dropped for its Message-Authenticator, if it is.
pub(crate) fn signature_drop(
    config: &Config,
    client: u32,
    packet: &Packet<'_>,
    attributes: &AccessAttributes<'_>,
) -> Option<Dropped>
    requires client { client < length config.now.clients }
    requires attributes { AreAttributes packet.now.attrs.now attributes.now.all }
    ensures { result ≡
        signature_drop config.now client (fields_of packet.now) attributes.now.all }
{
    if attributes.signatures.count > 0 {
        if has_right_signature(packet, attributes, config.hmac_key(client)) {
            None
        } else {
            Some(Dropped::BadSignature)
        }
    } else if config.client_at(client).signed {
        Some(Dropped::Unsigned)
    } else {
        unsigned_drop(config.unsigned_rule(), attributes)
    }
}

/// Why an unsigned request of a client that need not sign is dropped, if it is.
fn unsigned_drop(rule: UnsignedRule, attributes: &AccessAttributes<'_>) -> Option<Dropped>
    ensures { result ≡ unsigned_drop rule attributes.now.all }
{
    match rule {
        UnsignedRule::Guarded if attributes.proxy_states.count > 0 => Some(Dropped::UnsignedProxy),
        UnsignedRule::Guarded | UnsignedRule::Trusted => None,
    }
}

/// Whether there is exactly one Message-Authenticator, of 16 octets, and it is right by the key of
/// the secret.
#[tactic(auto, unfolding(crate::specs::Signature::has_right_signature))]
fn has_right_signature(
    packet: &Packet<'_>,
    attributes: &AccessAttributes<'_>,
    key: &HmacKey,
) -> bool
    requires { AreAttributes packet.now.attrs.now attributes.now.all }
    ensures { (secret : List ℕ) → IsKeyOf secret key.now →
        result ≡ has_right_signature (fields_of packet.now) attributes.now.all secret }
{
    if attributes.signatures.count != 1 {
        return false;
    }
    if attributes.signatures.text().len() != SIGNATURE_LEN {
        return false;
    }
    let at = FIRST_SIGNATURE_OFFSET + attributes.all.octets_before(MESSAGE_AUTHENTICATOR);
    key.is_right(packet.octets(), at)
}
