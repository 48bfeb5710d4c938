ghost use Rattle.std.specs.Prelude.{◌≡◌, ◌≤◌, ◌+◌, ◌++◌, ◌∷◌, IfOk, length};
ghost use Rattle.md5.specs.Md5.{md5};
ghost use Rattle.rsl_auth.specs.Chap.{chap_response};
ghost use Rattle.rsl_auth.specs.Password.{hidden};
ghost use Rattle.rsl_wire.specs.Attributes.{attribute_octets, attribute_of, list_octets};
ghost use Rattle.rsl_wire.specs.Packet.{packet_octets};
ghost use Rattle.rsl_event.specs.Signature.{signed_by};
ghost use Rattle.rsl_replay.specs.Access.{
  access_octets,
  password_kind,
  password_value,
  request_attributes,
};

use crate::accounting::{push_text, push_value};
use md5::{Digest, Md5};
use rsl_auth::{CHAP_PASSWORD_LEN, HmacKey, chap_response, hide};
use rsl_event::Signing;
use rsl_event::codes::{
    ACCESS_REQUEST, CALLING_STATION_ID, CHAP_PASSWORD, NAS_IDENTIFIER, USER_NAME, USER_PASSWORD,
};
use rsl_script::{AccessRequest, Method};
use rsl_wire::{Draft, NoMemory};
use std::alloc::Global;

/// The octets of the Access-Request, for a client with this secret (RFC 2865 section 4.1). If it is
/// signed, a right Message-Authenticator is its first attribute. It fails only if memory is
/// refused.
pub(crate) fn access_octets(
    alloc: Global,
    request: &AccessRequest,
    signing: Signing,
    secret: &[u8],
) -> Result<Vec<u8>, NoMemory>
    ensures { IfOk result (λ octets. octets.items ≡
        access_octets request.now signing secret.now) }
{
    let request_auth = authenticator(request);
    let value = password_value(alloc, request, &request_auth, secret)?;
    let mut draft = Draft::new(alloc, request.id)?;
    signing.push(&mut draft);
    push_request(&mut draft, request, value.as_slice());
    Ok(finish(draft, signing, &request_auth, secret))
}

/// The Request Authenticator.
fn authenticator(request: &AccessRequest) -> [u8; 16]
    ensures { result ≡ md5 request.now.text }
{
    let mut hasher = Md5::new();
    hasher.update(request.text.expose());
    hasher.finalize()
}

/// The value of the password attribute, in a packet with this Request Authenticator.
fn password_value(
    alloc: Global,
    request: &AccessRequest,
    request_auth: &[u8; 16],
    secret: &[u8],
) -> Result<Vec<u8>, NoMemory>
    requires { request_auth.now ≡ md5 request.now.text }
    ensures value { IfOk result (λ value.
        value.items ≡ password_value request.now.method request.now secret.now) }
    ensures short { IfOk result (λ value. length value.items ≤ 128) }
{
    match request.method {
        Method::Pap => user_password(alloc, request, request_auth, secret),
        Method::Chap => Ok(Vec::from_slice(alloc, &chap_password(request, request_auth))?),
    }
}

/// The User-Password (RFC 2865 section 5.2).
fn user_password(
    alloc: Global,
    request: &AccessRequest,
    request_auth: &[u8; 16],
    secret: &[u8],
) -> Result<Vec<u8>, NoMemory>
    ensures value { IfOk result (λ value.
        value.items ≡ hidden request.now.password secret.now request_auth.now) }
    ensures short { IfOk result (λ value. length value.items ≤ 128) }
{
    hide(alloc, request.password.expose(), secret, request_auth)
}

/// The CHAP-Password: the CHAP Ident is the Identifier, and the challenge is the Request
/// Authenticator (RFC 2865 section 5.3).
fn chap_password(request: &AccessRequest, request_auth: &[u8; 16]) -> [u8; CHAP_PASSWORD_LEN]
    ensures { result ≡ request.now.id ∷
        chap_response request.now.id request.now.password request_auth.now }
{
    let response = chap_response(request.id, request.password.expose(), request_auth);
    let mut value = [request.id; CHAP_PASSWORD_LEN];
    value[1..].copy_from_slice(&response);
    value
}

/// Writes the attributes of the request, with this value for its password.
fn push_request(draft: &mut Draft, request: &AccessRequest, value: &[u8])
    requires room { length draft.old.attributes ≤ 18 }
    requires short { length value.now ≤ 128 }
    ensures written { draft.new ≡ record draft.old {
      attributes = draft.old.attributes ++ list_octets (request_attributes request.now value.now);
    } }
    ensures more { length draft.old.attributes ≤ length draft.new.attributes }
{
    push_value(draft, USER_NAME, request.name.as_slice());
    push_value(draft, password_kind(request.method), value);
    push_text(draft, NAS_IDENTIFIER, &request.nas);
    push_text(draft, CALLING_STATION_ID, &request.station);
}

/// The Type of the password attribute.
fn password_kind(method: Method) -> u8
    ensures { result ≡ password_kind method }
{
    match method {
        Method::Pap => USER_PASSWORD,
        Method::Chap => CHAP_PASSWORD,
    }
}

/// The octets of the request. If it is signed, its Message-Authenticator gets its value.
fn finish(draft: Draft, signing: Signing, authenticator: &[u8; 16], secret: &[u8]) -> Vec<u8>
    requires { signing ≡ Signing.Signed → 18 ≤ length draft.attributes }
    ensures { result.items ≡ signed_by signing
        (packet_octets (record {
          code = ACCESS_REQUEST;
          id = draft.id;
          authenticator = authenticator.now;
          attributes = draft.attributes;
        }))
        authenticator.now secret.now }
{
    let octets = draft.finish(ACCESS_REQUEST, authenticator);
    let key = HmacKey::new(secret);
    signing.sign(octets, authenticator, &key)
}
