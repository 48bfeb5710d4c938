ghost use Rattle.std.specs.Prelude.{◌≡◌, ◌≤◌, length};
ghost use Rattle.rsl_auth.specs.Authenticator.{response_authenticator};
ghost use Rattle.rsl_wire.specs.Attributes.{AreAttributes};
ghost use Rattle.rsl_wire.specs.Seen.{fields_of};
ghost use Rattle.rld_control.specs.Answer.{answer_of, answer_said, is_answer, is_response};

use crate::codes::{DISCONNECT_ACK, DISCONNECT_NAK, ERROR_CAUSE};
use crate::signature::has_right_signature;
use md5::{Digest, Md5};
use rsl_auth::same_octets;
use rsl_wire::{AUTHENTICATOR_START, Attrs, HEADER_LEN, Packet, read};

/// What an access server answers to a Disconnect-Request (RFC 5176 section 2.1).
#[derive(Clone, Copy, Debug)]
pub enum DisconnectAnswer {
    /// Disconnect-ACK: the session has ended.
    Ack,
    /// Disconnect-NAK: it was not ended. The first Error-Cause as a number, if there is one and its
    /// value has four octets (RFC 5176 section 3.5).
    Nak(Option<u32>),
}

/// The answer that a datagram gives to a Disconnect-Request, if it is one. `request` has the octets of
/// the request as they were sent.
///
/// A datagram is an answer only if it meets each of these conditions:
/// - Its Length is from 20 to 4,096, and the datagram is at least as long. Octets past the Length are
///   padding, and are ignored (RFC 2865 section 3).
/// - Its Code is Disconnect-ACK or Disconnect-NAK, its Identifier is the request's, and its attributes
///   are well formed.
/// - Its Response Authenticator is MD5(Code, Identifier, Length, Request Authenticator, Attributes,
///   Secret) (RFC 5176 section 2.3).
/// - It has no Message-Authenticator, or exactly one, of 16 octets, which is right (RFC 5176 section
///   3.4).
///
/// It allocates nothing.
#[tactic(auto, unfolding(crate::specs::Answer::answer_of))]
pub fn read_answer(request: &[u8], secret: &[u8], datagram: &[u8]) -> Option<DisconnectAnswer>
    ensures { result ≡ answer_of request.now secret.now datagram.now }
{
    let Ok(request) = read(request) else {
        return None;
    };
    let Ok(packet) = read(datagram) else {
        return None;
    };
    let Ok(attributes) = packet.attributes() else {
        return None;
    };
    if is_answer(&request, &packet, &attributes, secret) {
        said(packet.code, &attributes)
    } else {
        None
    }
}

/// Whether a packet with these attributes answers a request, whatever its Code.
fn is_answer(
    request: &Packet<'_>,
    packet: &Packet<'_>,
    attributes: &Attrs<'_>,
    secret: &[u8],
) -> bool
    requires { AreAttributes packet.now.attrs.now attributes.now }
    ensures { result ≡ is_answer (fields_of request.now) (fields_of packet.now) attributes.now
        secret.now }
{
    let request_auth = &request.authenticator;
    packet.id == request.id
        && is_response(packet, request_auth, secret)
        && has_right_signature(packet, attributes, request_auth, secret)
}

/// Whether the authenticator of a packet is its Response Authenticator.
fn is_response(packet: &Packet<'_>, request_auth: &[u8; 16], secret: &[u8]) -> bool
    ensures { result ≡ is_response (fields_of packet.now) request_auth.now secret.now }
{
    let digest = response_authenticator(packet.octets(), request_auth, secret);
    same_octets(&packet.authenticator, &digest)
}

/// MD5(Code, Identifier, Length, Request Authenticator, Attributes, Secret) (RFC 2865 section 3).
#[tactic(auto, unfolding(rsl_auth::specs::Authenticator::response_authenticator))]
fn response_authenticator(packet: &[u8], request_auth: &[u8; 16], secret: &[u8]) -> [u8; 16]
    requires { 20 ≤ length packet.now }
    ensures { result ≡ response_authenticator packet.now request_auth.now secret.now }
{
    let mut hasher = Md5::new();
    hasher.update(&packet[..AUTHENTICATOR_START]);
    hasher.update(request_auth);
    hasher.update(&packet[HEADER_LEN..]);
    hasher.update(secret);
    hasher.finalize()
}

/// What an answer with this Code says.
fn said(code: u8, attributes: &Attrs<'_>) -> Option<DisconnectAnswer>
    ensures { result ≡ answer_said code attributes.now }
{
    match code {
        DISCONNECT_ACK => Some(DisconnectAnswer::Ack),
        DISCONNECT_NAK => Some(DisconnectAnswer::Nak(attributes.number(ERROR_CAUSE))),
        _ => None,
    }
}
