ghost use Rattle.std.specs.Prelude.{◌≡◌, ◌<◌, IfOk, is_none, length};
ghost use Rattle.rsl_wire.specs.Seen.{fields_of};
ghost use Rattle.rsl_event.specs.Access.{shows_password, is_let_in, asker, access_meaning};
ghost use Rattle.rsl_event.specs.Cause.{IsAsker, listed_cause, login_cause, request_cause};
ghost use Rattle.rsl_event.specs.Detail.{GivesDetailed, detail_by};

use crate::access_attributes::AccessAttributes;
use crate::codes::ACCESS_REQUEST;
use crate::detail::{Detail, RejectCause};
use crate::event::{Act, Key, Source};
use crate::meaning::{Dropped, Meaning};
use crate::request::{account_named, most_proxy_len};
use crate::signature::signature_drop;
use crate::station::station_in;
use rsl_accounts::{Client, Config, Secret};
use rsl_auth::{chap_ok, pap_ok};
use rsl_wire::Packet;
use std::alloc::Global;

/// The meaning of a packet of this client on the authentication port, with its detail.
#[tactic(auto, unfolding(crate::specs::Access::access_meaning))]
pub(crate) fn access_meaning(
    alloc: Global,
    config: &Config,
    client: u32,
    source: Source,
    packet: &Packet<'_>,
) -> Result<(Meaning, Detail), Dropped>
    requires { client < length config.now.clients }
    ensures meaning { GivesDetailed result
        (access_meaning config.now source client (fields_of packet.now)) }
    ensures detail { IfOk result (λ found.
        found.1 ≡ detail_by (request_cause config.now client (fields_of packet.now))) }
{
    if packet.code != ACCESS_REQUEST {
        return Err(Dropped::WrongCode);
    }
    let Ok(attributes) = packet.attributes() else {
        return if config.client_at(client).signed {
            Err(Dropped::Unsigned)
        } else {
            Ok((Meaning::Bare, Detail::Rejected(RejectCause::Malformed)))
        };
    };
    let attributes = AccessAttributes::of(attributes);
    if let Some(dropped) = signature_drop(config, client, packet, &attributes) {
        return Err(dropped);
    }
    if attributes.has_long_proxy_states(most_proxy_len(config.unsigned_rule())) {
        return Err(Dropped::ProxyTooLong);
    }
    let account = match asker(config, client, &packet.authenticator, &attributes) {
        Ok(account) => account,
        Err(cause) => return Ok((Meaning::Reject, Detail::Rejected(cause))),
    };
    let key = Key {
        source,
        id: packet.id,
        authenticator: packet.authenticator,
    };
    let nas = attributes.access_server(alloc, config, client)?;
    let station = station_in(alloc, config, account, &attributes.all)?;
    let meaning = Meaning::Own {
        account,
        act: Act::Ask { key, nas, station },
    };
    Ok((meaning, Detail::Asks))
}

/// The account that a request asks for, with its password or by a client that vouches, or why it is
/// rejected.
#[tactic(auto, unfolding(crate::specs::Access::asker))]
fn asker(
    config: &Config,
    client: u32,
    authenticator: &[u8; 16],
    attributes: &AccessAttributes<'_>,
) -> Result<u32, RejectCause>
    requires { client < length config.now.clients }
    ensures asker { IsAsker result
        (asker config.now client authenticator.now attributes.now.all)
        (listed_cause config.now client authenticator.now attributes.now.all) }
    ensures within { IfOk result (λ account. account < length config.now.accounts) }
{
    let client = config.client_at(client);
    if let Some(cause) = attributes.count_cause(client) {
        return Err(cause);
    }
    let Some(account) = account_named(config, attributes.names.first) else {
        return Err(RejectCause::UnknownAccount);
    };
    let entry = config.entry(account);
    if entry.disabled {
        return Err(RejectCause::DisabledAccount);
    }
    if let Some(cause) = login_cause(client, authenticator, attributes, &entry.password) {
        return Err(cause);
    }
    Ok(account)
}

/// Why the login of an account with this password is not let in, if it is not: unless the client vouches,
/// there has to be a password, and the request has to show it.
fn login_cause(
    client: &Client,
    authenticator: &[u8; 16],
    attributes: &AccessAttributes<'_>,
    password: &Option<Secret>,
) -> Option<RejectCause>
    ensures cause { result ≡ login_cause client.now.trusted client.now.secret
        authenticator.now attributes.now.all password.now }
    ensures let_in { is_none result ≡ is_let_in client.now.trusted client.now.secret
        authenticator.now attributes.now.all password.now }
{
    if attributes.is_vouched(client) {
        return None;
    }
    let Some(password) = password else {
        return Some(RejectCause::NoPassword);
    };
    let secret = client.secret.expose();
    if shows_password(secret, authenticator, attributes, password.expose()) {
        None
    } else {
        Some(RejectCause::WrongPassword)
    }
}

/// Whether the User-Password or the CHAP-Password is right for this password.
fn shows_password(
    secret: &[u8],
    authenticator: &[u8; 16],
    attributes: &AccessAttributes<'_>,
    password: &[u8],
) -> bool
    ensures { result ≡
        shows_password secret.now authenticator.now attributes.now.all password.now }
{
    if let Some(value) = attributes.user_passwords.first {
        return pap_ok(value, secret, authenticator, password);
    }
    match attributes.chap_passwords.first {
        Some(value) => {
            let challenge = attributes.challenges.first.unwrap_or(authenticator);
            chap_ok(value, challenge, password)
        }
        None => false,
    }
}
