ghost use Rattle.std.specs.Prelude.{◌≡◌, ◌↔◌, ◌≤◌, IsTrue, length, replicate, vec_len};
ghost use Rattle.rsl_auth.specs.Authenticator.{
  accounting_authenticator,
  authenticator,
  is_accounting_authentic,
  sealed,
};

use crate::comparison::same_octets;
use md5::{Digest, Md5};
use rsl_wire::{AUTHENTICATOR_START, HEADER_LEN};

/// Writes the Response Authenticator, MD5(Code, Identifier, Length, Request Authenticator,
/// Attributes, Secret), into octets 4 to 19 of a packet (RFC 2865 section 3). The other octets
/// stay. With sixteen zero octets as `request_auth` it writes the Request Authenticator of an
/// Accounting-Request, which `accounting_ok` accepts (RFC 2866 section 3).
#[tactic(auto, unfolding(crate::specs::Authenticator::sealed))]
pub fn seal(packet: &mut [u8], request_auth: &[u8; 16], secret: &[u8])
    requires { 20 ≤ length packet.old }
    ensures sealed { packet.new ≡ sealed packet.old request_auth.now secret.now }
    ensures accounting { request_auth.now ≡ replicate 16 0 →
        IsTrue (is_accounting_authentic packet.new secret.now) }
{
    packet[AUTHENTICATOR_START..HEADER_LEN].copy_from_slice(request_auth);
    let mut hasher = Md5::new();
    hasher.update(&*packet);
    hasher.update(secret);
    packet[AUTHENTICATOR_START..HEADER_LEN].copy_from_slice(&hasher.finalize());
}

/// `seal` of a packet that is moved in. It allocates nothing.
pub fn sealed(mut packet: Vec<u8>, request_auth: &[u8; 16], secret: &[u8]) -> Vec<u8>
    requires { 20 ≤ vec_len packet }
    ensures { result.items ≡ sealed packet.items request_auth.now secret.now }
{
    seal(packet.as_mut_slice(), request_auth, secret);
    packet
}

/// Whether octets 4 to 19 of an Accounting-Request are its Request Authenticator, MD5(Code,
/// Identifier, Length, sixteen zero octets, Attributes, Secret) (RFC 2866 section 3).
#[tactic(auto, unfolding(crate::specs::Authenticator::is_accounting_authentic))]
pub fn accounting_ok(packet: &[u8], secret: &[u8]) -> bool
    requires { 20 ≤ length packet.now }
    ensures test { result ≡ is_accounting_authentic packet.now secret.now }
    ensures authentic { IsTrue result ↔
        (authenticator packet.now ≡ accounting_authenticator packet.now secret.now) }
{
    let digest = accounting_authenticator(packet, secret);
    same_octets(&packet[AUTHENTICATOR_START..HEADER_LEN], &digest)
}

/// The Request Authenticator of an Accounting-Request.
#[tactic(auto, unfolding(crate::specs::Authenticator::response_authenticator))]
fn accounting_authenticator(packet: &[u8], secret: &[u8]) -> [u8; 16]
    requires { 20 ≤ length packet.now }
    ensures { result ≡ accounting_authenticator packet.now secret.now }
{
    let mut header = [0u8; HEADER_LEN];
    header[..AUTHENTICATOR_START].copy_from_slice(&packet[..AUTHENTICATOR_START]);
    let mut hasher = Md5::new();
    hasher.update(&header);
    hasher.update(&packet[HEADER_LEN..]);
    hasher.update(secret);
    hasher.finalize()
}
