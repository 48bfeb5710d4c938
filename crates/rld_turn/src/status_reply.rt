//! The answer to a Status-Server packet.
ghost use Rattle.std.specs.Prelude.{◌≡◌, ◌+◌, ◌<◌, ◌≤◌, [], IfOk, IfSome, length, option_map};
ghost use Rattle.std.specs.List.{AllByRecursion};
ghost use Rattle.rsl_accounts.specs.Configuration.{client_number};
ghost use Rattle.rsl_event.specs.Draft.{with_more};
ghost use Rattle.rsl_event.specs.Request.{proxy_len, proxy_states};
ghost use Rattle.rsl_wire.specs.Attributes.{AreAttributes, IsAttribute, list_octets};
ghost use Rattle.rsl_wire.specs.Seen.{fields_of};
ghost use Rattle.rld_turn.specs.StatusAnswer.{answer_with, code_of, signing_of, status_answer};

use crate::status_request::is_answered;
use rsl_accounts::Config;
use rsl_auth::sealed;
use rsl_event::codes::{ACCESS_ACCEPT, ACCOUNTING_RESPONSE, PROXY_STATE};
use rsl_event::{Port, Signing};
use rsl_wire::{Attrs, Draft, NoMemory, Packet, read};
use std::alloc::Global;

/// The answer to a datagram that came to this port from the client with this address, if it is a
/// Status-Server packet: an Access-Accept on the authentication port, an Accounting-Response on the
/// other (RFC 5997 section 3), with the Proxy-States in order; the Access-Accept is signed.
///
/// There is no answer if the datagram is anything else, no client has the address, the attributes
/// are malformed, there is not one right Message-Authenticator (RFC 5997 section 3 demands it), or
/// the Proxy-States have over 3,900 octets. It fails only if memory for an answer is refused.
#[tactic(auto, unfolding(crate::specs::StatusAnswer::status_answer))]
pub fn status_answer(
    alloc: Global,
    config: &Config,
    port: Port,
    address: [u8; 4],
    datagram: &[u8],
) -> Result<Option<Vec<u8>>, NoMemory>
    ensures { IfOk result (λ answer. option_map (λ octets. octets.items) answer
        ≡ status_answer config.now port address datagram.now) }
{
    let Ok(packet) = read(datagram) else {
        return Ok(None);
    };
    let Some(client) = config.client(address) else {
        return Ok(None);
    };
    let Ok(attributes) = packet.attributes() else {
        return Ok(None);
    };
    if !is_answered(config, client, &packet, &attributes) {
        return Ok(None);
    }
    let draft = Draft::new(alloc, packet.id)?;
    Ok(Some(answer_with(config, port, client, &packet, &attributes, draft)))
}

/// The answer to a packet of this client with these attributes.
fn answer_with(
    config: &Config,
    port: Port,
    client: u32,
    packet: &Packet<'_>,
    attributes: &Attrs<'_>,
    draft: Draft,
) -> Vec<u8>
    requires client { client < length config.now.clients }
    requires each { AllByRecursion IsAttribute attributes.now }
    requires room { proxy_len attributes.now ≤ 3900 }
    requires draft { draft ≡ record { id = packet.now.id; attributes = [] } }
    ensures { result.items ≡
        answer_with config.now port client (fields_of packet.now) attributes.now }
{
    let signing = signing_of(port);
    let mut draft = draft;
    signing.push(&mut draft);
    push_proxy_states(&mut draft, attributes);
    let request_auth = &packet.authenticator;
    let octets = draft.finish(code_of(port), &[0; 16]);
    let octets = signing.sign(octets, request_auth, config.hmac_key(client));
    sealed(
        octets,
        request_auth,
        config.client_at(client).secret.expose(),
    )
}

/// The Code of the answer.
fn code_of(port: Port) -> u8
    ensures { result ≡ code_of port }
{
    match port {
        Port::Auth => ACCESS_ACCEPT,
        Port::Acct => ACCOUNTING_RESPONSE,
    }
}

/// Whether the answer has a Message-Authenticator.
fn signing_of(port: Port) -> Signing
    ensures { result ≡ signing_of port }
{
    match port {
        Port::Auth => Signing::Signed,
        Port::Acct => Signing::Plain,
    }
}

/// Writes the Proxy-States among these attributes, in order.
fn push_proxy_states(draft: &mut Draft, attributes: &Attrs<'_>)
    requires each { AllByRecursion IsAttribute attributes.now }
    requires room { 20 + (length draft.old.attributes + proxy_len attributes.now) ≤ 4096 }
    ensures written { draft.new ≡ with_more draft.old (list_octets (proxy_states attributes.now)) }
    ensures kept { length draft.old.attributes ≤ length draft.new.attributes }
{
    for (kind, value) in attributes.iter() {
        if kind == PROXY_STATE {
            draft.push(PROXY_STATE, value).unwrap();
        }
    }
}
