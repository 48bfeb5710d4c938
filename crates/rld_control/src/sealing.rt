ghost use Rattle.std.specs.Prelude.{◌≡◌, ◌+◌, ◌-◌, ◌≤◌, IfOk, IsOkUnless, map, length, replicate, vec_len};
ghost use Rattle.rsl_auth.specs.Signature.{signed};
ghost use Rattle.rsl_wire.specs.Attributes.{list_octets};
ghost use Rattle.rsl_wire.specs.NewPacket.{FitsPacket, seen};
ghost use Rattle.rld_control.specs.RequestOctets.{sealed_octets};

use crate::codes::DISCONNECT_REQUEST;
use crate::request_fault::RequestFault;
use rsl_auth::{SIGNATURE_LEN, sealed, sign};
use rsl_wire::{Attr, BuildFault, build};
use std::alloc::Global;

/// A Disconnect-Request with these attributes, of which the last is a Message-Authenticator of 16
/// zero octets. It fails only if memory is refused.
#[tactic(auto, unfolding(crate::specs::RequestOctets::sealed_octets))]
pub(crate) fn sealed_request(
    alloc: Global,
    id: u8,
    attributes: &[Attr<'_>],
    secret: &[u8],
) -> Result<Vec<u8>, RequestFault>
    requires fits { FitsPacket (map seen attributes.now) }
    requires signature { 16 ≤ length (list_octets (map seen attributes.now)) }
    ensures octets { IfOk result (λ octets.
        octets.items ≡ sealed_octets id (map seen attributes.now) secret.now) }
    ensures memory { IsOkUnless result RequestFault.NoMemory }
{
    match build(alloc, DISCONNECT_REQUEST, id, &[0; 16], attributes) {
        Ok(octets) => Ok(sealed(signed_last(octets, secret), &[0; 16], secret)),
        Err(BuildFault::TooLong) => unreachable!(),
        Err(BuildFault::NoMemory) => Err(RequestFault::NoMemory),
    }
}

/// The octets of a request with the value of its Message-Authenticator, the last attribute.
fn signed_last(mut packet: Vec<u8>, secret: &[u8]) -> Vec<u8>
    requires { 36 ≤ vec_len packet }
    ensures signed { result.items ≡
        signed packet.items (length packet.items - 16) (replicate 16 0) secret.now }
    ensures len { vec_len result ≡ vec_len packet }
{
    let at = packet.len() - SIGNATURE_LEN;
    sign(packet.as_mut_slice(), at, &[0; 16], secret);
    packet
}
