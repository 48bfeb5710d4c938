//! The local address of a connection, and its names in a request.

ghost use Rattle.std.specs.Prelude.{◌≡◌, IfOk, option_copied};
ghost use Rattle.http.specs.Request.{head_of};
ghost use Rattle.rld_web.specs.Place.{host_of, is_asked_for, is_name_of};

use bytes::Bytes;
use http::Request;
use http_header::HOST;
use std::alloc::{AllocError, Global};
use std::net::SocketAddrV4;

/// Whether a request uses one of the names of the server at this place. So a page of another site
/// that points its own name here is refused (DNS rebinding). It fails only if memory is refused.
pub(crate) fn is_asked_for(
    alloc: Global,
    place: SocketAddrV4,
    request: &Request<Bytes>,
) -> Result<bool, AllocError>
    ensures { IfOk result (λ asked. asked ≡ is_asked_for place (host_of (head_of request.now))) }
{
    match host_of(request) {
        Some(host) => is_name_of(alloc, place, host),
        None => Ok(false),
    }
}

/// The host of a request: its target's, else its first Host (RFC 9112 section 3.2.2).
fn host_of<'a>(request: &'a Request<Bytes>) -> Option<&'a [u8]>
    ensures { option_copied result ≡ host_of (head_of request.now) }
{
    if let Some(authority) = request.uri().authority() {
        return Some(authority.as_str().as_bytes());
    }
    match request.headers().get(HOST) {
        Some(host) => Some(host.as_bytes()),
        None => None,
    }
}

/// Whether this is a name of the server at this place: its address or `localhost`, with its port or
/// without.
fn is_name_of(alloc: Global, place: SocketAddrV4, host: &[u8]) -> Result<bool, AllocError>
    ensures { IfOk result (λ names. names ≡ is_name_of place host.now) }
{
    let address = *place.ip();
    let port = place.port();
    let bare = format!(in alloc; "{address}")?;
    let full = format!(in alloc; "{place}")?;
    let local = format!(in alloc; "localhost:{port}")?;
    Ok(
        host == bare.as_bytes()
            || host == full.as_bytes()
            || host == b"localhost".as_slice()
            || host == local.as_bytes(),
    )
}
