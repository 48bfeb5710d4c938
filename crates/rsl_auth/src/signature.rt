ghost use Rattle.std.specs.Prelude.{◌≡◌, ◌↔◌, ◌≤◌, ◌+◌, IsTrue, List, ℕ, length};
ghost use Rattle.rsl_auth.specs.Authenticator.{authenticator};
ghost use Rattle.rsl_auth.specs.Signature.{is_signed, signature, signed, value_at};

use crate::comparison::same_octets;
use crate::hmac::HmacKey;
use md5::Digest;
use rsl_wire::{AUTHENTICATOR_START, HEADER_LEN};

/// Octets of the value of a Message-Authenticator (RFC 3579 section 3.2).
pub const SIGNATURE_LEN: usize = 16;

/// Writes the value of the Message-Authenticator at offset `at`: HMAC-MD5 keyed by the secret over
/// Code, Identifier, Length, `request_auth` and the Attributes, with sixteen zero octets for the
/// value itself (RFC 3579 section 3.2). The other octets stay. A request is signed with its own
/// Authenticator, and `signature_ok` then accepts it; a reply is signed with the request's before
/// it is sealed. It allocates nothing.
pub fn sign(packet: &mut [u8], at: usize, request_auth: &[u8; 16], secret: &[u8])
    requires after_header { 20 ≤ at }
    requires within { at + 16 ≤ length packet.old }
    ensures signed { packet.new ≡ signed packet.old at request_auth.now secret.now }
    ensures right { request_auth.now ≡ authenticator packet.old →
        IsTrue (is_signed packet.new at secret.now) }
{
    HmacKey::new(secret).sign(packet, at, request_auth);
}

/// Whether the Message-Authenticator of a request, whose value is at offset `at`, is right (RFC
/// 3579 section 3.2). It allocates nothing.
pub fn signature_ok(packet: &[u8], at: usize, secret: &[u8]) -> bool
    requires after_header { 20 ≤ at }
    requires within { at + 16 ≤ length packet.now }
    ensures test { result ≡ is_signed packet.now at secret.now }
    ensures right { IsTrue result ↔
        (value_at packet.now at ≡ signature packet.now at (authenticator packet.now) secret.now) }
{
    HmacKey::new(secret).is_right(packet, at)
}

impl HmacKey {
    ghost use Rattle.rsl_auth.specs.Hmac.{IsKeyOf};

    /// `sign` with the secret of this key.
    pub fn sign(&self, packet: &mut [u8], at: usize, request_auth: &[u8; 16])
        requires after_header { 20 ≤ at }
        requires within { at + 16 ≤ length packet.old }
        ensures { (secret : List ℕ) → IsKeyOf secret self.now →
            packet.new ≡ signed packet.old at request_auth.now secret }
    {
        let value = self.signature_of(packet, at, request_auth);
        packet[at..at + SIGNATURE_LEN].copy_from_slice(&value);
    }

    /// `signature_ok` with the secret of this key.
    #[tactic(auto, unfolding(crate::specs::Signature::is_signed))]
    pub fn is_right(&self, packet: &[u8], at: usize) -> bool
        requires after_header { 20 ≤ at }
        requires within { at + 16 ≤ length packet.now }
        ensures { (secret : List ℕ) → IsKeyOf secret self.now →
            result ≡ is_signed packet.now at secret }
    {
        let request_auth = &packet[AUTHENTICATOR_START..HEADER_LEN];
        let value = self.signature_of(packet, at, request_auth);
        same_octets(&packet[at..at + SIGNATURE_LEN], &value)
    }

    /// The right value of the Message-Authenticator at an offset of a packet.
    fn signature_of(&self, packet: &[u8], at: usize, request_auth: &[u8]) -> [u8; 16]
        requires after_header { 20 ≤ at }
        requires within { at + 16 ≤ length packet.now }
        ensures { (secret : List ℕ) → IsKeyOf secret self.now →
            result ≡ signature packet.now at request_auth.now secret }
    {
        let mut inner = self.begun();
        inner.update(&packet[..AUTHENTICATOR_START]);
        inner.update(request_auth);
        inner.update(&packet[HEADER_LEN..at]);
        inner.update(&[0; SIGNATURE_LEN]);
        inner.update(&packet[at + SIGNATURE_LEN..]);
        self.finished(inner)
    }
}
