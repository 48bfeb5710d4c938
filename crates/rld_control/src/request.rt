//! The Disconnect-Request for a session that an operator names (RFC 5176 section 2.3).

ghost use Rattle.std.specs.Prelude.{◌≡◌, ◌↔◌, None, IfOk, IsErrOf};
ghost use Rattle.rsl_accounts.specs.Configuration.{client_number};
ghost use Rattle.rld_control.specs.RequestOctets.{server_attributes};
ghost use Rattle.rld_control.specs.Requests.{IsRequestFor, named_octets, nas_attributes};

use crate::disconnect::DisconnectRequest;
use crate::fault::FreeFault;
use crate::named::NamedSession;
use crate::request_fault::RequestFault;
use crate::server_name::ServerName;
use rsl_accounts::Config;
use rsl_event::NasName;
use std::alloc::Global;

/// The octets of the Disconnect-Request for a session that an operator names, with an Identifier and
/// a moment in seconds since 1970, sealed with its client's secret.
///
/// `UnknownClient` comes if no client has the address, and `NoSession` if a value is empty or has
/// over 253 octets, or the address of the access server has neither 4 nor 16. `NoMemory` comes only
/// if memory is refused.
pub fn disconnect_request(
    alloc: Global,
    config: &Config,
    named: &NamedSession,
    identifier: u8,
    moment: u32,
) -> Result<Vec<u8>, FreeFault>
    ensures request { IfOk result (λ octets.
        IsRequestFor config.now named.now identifier moment octets.items) }
    ensures client { IsErrOf result FreeFault.UnknownClient ↔
        (client_number config.now named.now.client ≡ None) }
{
    let Some(client) = config.client(named.client) else {
        return Err(FreeFault::UnknownClient);
    };
    let secret = config.client_at(client).secret.expose();
    named_octets(alloc, named, identifier, moment, secret)
}

/// The octets of the request, for an access server that shares this secret.
fn named_octets(
    alloc: Global,
    named: &NamedSession,
    identifier: u8,
    moment: u32,
    secret: &[u8],
) -> Result<Vec<u8>, FreeFault>
    ensures octets { IfOk result (λ octets.
        octets.items ≡ named_octets named.now identifier moment secret.now) }
    ensures client { IsErrOf result FreeFault.UnknownClient → ⊥ }
{
    let request = DisconnectRequest {
        identifier,
        user_name: named.account.as_slice(),
        server: server_of(&named.nas),
        session: named.session.as_slice(),
        moment,
        secret,
    };
    match request.octets(alloc) {
        Ok(octets) => Ok(octets),
        Err(RequestFault::NoMemory) => Err(FreeFault::NoMemory),
        Err(_) => Err(FreeFault::NoSession),
    }
}

/// The name of an access server.
fn server_of(nas: &NasName) -> ServerName<'_>
    ensures { server_attributes result ≡ nas_attributes nas.now }
{
    match nas {
        NasName::Identifier(name) => ServerName::Identifier(name.as_slice()),
        NasName::Address(address) => ServerName::Address(address.as_slice()),
        NasName::Unnamed => ServerName::Unnamed,
    }
}
