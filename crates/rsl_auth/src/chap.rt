ghost use Rattle.std.specs.Prelude.{◌≡◌, ◌↔◌, IsTrue, length, drop, slice_index};
ghost use Rattle.rsl_auth.specs.Chap.{chap_response, matches_chap};

use crate::comparison::same_octets;
use md5::{Digest, Md5};

/// Octets of a CHAP-Password: a CHAP Ident and a response of 16 (RFC 2865 section 5.3).
pub const CHAP_PASSWORD_LEN: usize = 17;

/// The response to a challenge: MD5(CHAP Ident, password, challenge) (RFC 2865 section 5.3). It
/// allocates nothing.
#[tactic(auto, unfolding(crate::specs::Chap::chap_response))]
pub fn chap_response(ident: u8, password: &[u8], challenge: &[u8]) -> [u8; 16]
    ensures { result ≡ chap_response ident password.now challenge.now }
{
    let mut hasher = Md5::new();
    hasher.update(&[ident]);
    hasher.update(password);
    hasher.update(challenge);
    hasher.finalize()
}

/// Whether a CHAP-Password answers a challenge with this password: it has 17 octets, and the last
/// 16 are MD5(CHAP Ident, password, challenge) (RFC 2865 section 5.3).
#[tactic(auto, unfolding(crate::specs::Chap::matches_chap))]
pub fn chap_ok(value: &[u8], challenge: &[u8], password: &[u8]) -> bool
    ensures test { result ≡ matches_chap value.now challenge.now password.now }
    ensures answers { IsTrue result ↔ ((length value.now ≡ 17) ×
        (drop 1 value.now ≡ chap_response (slice_index value.now 0) password.now challenge.now)) }
{
    if value.len() != CHAP_PASSWORD_LEN {
        return false;
    }
    same_octets(&value[1..], &chap_response(value[0], password, challenge))
}
