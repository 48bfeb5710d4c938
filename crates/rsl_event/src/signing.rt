ghost use Rattle.std.specs.Prelude.{◌≡◌, ◌≤◌, [], List, ℕ, length, vec_len};
ghost use Rattle.rsl_auth.specs.Hmac.{IsKeyOf};
ghost use Rattle.rsl_auth.specs.Signature.{signed};
ghost use Rattle.rsl_wire.specs.Attributes.{list_octets};
ghost use Rattle.rsl_event.specs.Draft.{with_more};
ghost use Rattle.rsl_event.specs.Signature.{signature_attributes, signed_by, signing_if};

use crate::codes::MESSAGE_AUTHENTICATOR;
use crate::signature::FIRST_SIGNATURE_OFFSET;
use rsl_accounts::Client;
use rsl_auth::{HmacKey, SIGNATURE_LEN};
use rsl_wire::Draft;

/// Whether a packet to be written has a Message-Authenticator (RFC 3579 section 3.2).
#[derive(Clone, Copy)]
pub enum Signing {
    /// It has none.
    Plain,
    /// It has one, as its first attribute.
    Signed,
}

impl Signing {
    /// The signing of a client's Access-Requests: signed if the client has to sign.
    pub fn of(client: &Client) -> Signing
        ensures { result ≡ signing_if client.now.signed }
    {
        if client.signed {
            Signing::Signed
        } else {
            Signing::Plain
        }
    }

    /// Writes the Message-Authenticator of a signed packet as the first attribute of its draft,
    /// with zeros as its value. It allocates nothing.
    pub fn push(self, draft: &mut Draft)
        requires empty { draft.old.attributes ≡ [] }
        ensures written { draft.new ≡
            with_more draft.old (list_octets (signature_attributes self)) }
        ensures short { length draft.new.attributes ≤ 18 }
        ensures room { self ≡ Signing.Signed → 18 ≤ length draft.new.attributes }
    {
        if let Signing::Signed = self {
            draft
                .push(MESSAGE_AUTHENTICATOR, &[0; SIGNATURE_LEN])
                .unwrap();
        }
    }

    /// The octets of a packet; a signed one gets the value of its Message-Authenticator, its first
    /// attribute, with this Request Authenticator and the key of the secret (RFC 3579 section 3.2).
    /// So a signed packet has at least 38 octets. It allocates nothing.
    pub fn sign(self, octets: Vec<u8>, request_auth: &[u8; 16], key: &HmacKey) -> Vec<u8>
        requires { self ≡ Signing.Signed → 38 ≤ vec_len octets }
        ensures signed { (secret : List ℕ) → IsKeyOf secret key.now →
            result.items ≡ signed_by self octets.items request_auth.now secret }
        ensures len { vec_len result ≡ vec_len octets }
    {
        match self {
            Signing::Plain => octets,
            Signing::Signed => with_signature(octets, request_auth, key),
        }
    }
}

/// The octets of a packet with the value of its Message-Authenticator, the first attribute.
fn with_signature(mut octets: Vec<u8>, request_auth: &[u8; 16], key: &HmacKey) -> Vec<u8>
    requires { 38 ≤ vec_len octets }
    ensures signed { (secret : List ℕ) → IsKeyOf secret key.now →
        result.items ≡ signed octets.items 22 request_auth.now secret }
    ensures len { vec_len result ≡ vec_len octets }
{
    key.sign(octets.as_mut_slice(), FIRST_SIGNATURE_OFFSET, request_auth);
    octets
}
