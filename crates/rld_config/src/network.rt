//! The checks of a server's networks: no prefix twice, no missing client, no client that need not
//! sign under a guard, and no network that takes the address of another client.
ghost use Rattle.std.specs.Prelude.{◌≡◌, ◌<◌, ◌^◌, [], IfSome, is_some, length, not, position};
ghost use Rattle.std.specs.List.{list_any};
ghost use Rattle.rld_networks.specs.Prefix.{same_prefix};
ghost use Rattle.rsl_accounts.specs.Configuration.{client_number};
ghost use Rattle.rld_networks.specs.declared.network.Network.{Network as OneNetwork};
ghost use Rattle.rld_config.specs.Server.{first_taken, need_not_sign, shadowed_client, shadows, taken_prefix, asker_fault, unknown_client, unsigned_client};

use crate::ask::AskSettings;
use crate::fault::ServerFault;
use crate::key::Key;
use crate::part::Part;
use rld_networks::{Network, Prefix, client_of};
use rsl_accounts::{Config, UnsignedRule};
use std::net::{IpAddr, Ipv4Addr};

/// Whether one of the networks has the prefix.
fn has_prefix(networks: &[Network], prefix: &Prefix) -> bool
    ensures { result ≡ list_any (λ (other : OneNetwork). same_prefix prefix.now other.prefix) networks.now }
{
    networks.iter().any(|other| prefix.is_same(&other.prefix))
}

/// `TakenPrefix` of a network, if an earlier one has its prefix.
fn taken_prefix(before: &[Network], network: &Network) -> Option<ServerFault>
    requires { length before.now < 2 ^ 32 }
    ensures { result ≡ taken_prefix before.now network.now }
{
    if has_prefix(before, &network.prefix) {
        let part = Part::Network(before.len() as u64 + 1);
        Some(ServerFault::TakenPrefix(part, Key::Prefix))
    } else {
        None
    }
}

/// `TakenPrefix` of the first network whose prefix an earlier one has.
pub(crate) fn first_taken_prefix(networks: &[Network]) -> Option<ServerFault>
    requires { length networks.now < 2 ^ 32 }
    ensures { result ≡ first_taken taken_prefix [] networks.now }
{
    for (number, network) in networks.iter().enumerate() {
        if let Some(fault) = taken_prefix(&networks[..number], network) {
            return Some(fault);
        }
    }
    None
}

/// `UnknownClient` of the first network of a server's file whose client is not in the account file.
#[tactic(auto, unfolding(crate::specs::Server::unknown_client))]
pub fn unknown_client(networks: &[Network], config: &Config) -> Option<ServerFault>
    ensures { result ≡ unknown_client networks.now config.now }
{
    let index = first_lacking(networks, config)?;
    let part = Part::Network(index as u64 + 1);
    Some(ServerFault::UnknownClient(part, Key::Client))
}

/// What is wrong with the client that asks count as from: `UnknownClient` where the account file does not have
/// it, and `UntrustedClient` where it is not trusted.
pub fn asker_fault(ask: &Option<AskSettings>, config: &Config) -> Option<ServerFault>
    ensures { result ≡ asker_fault ask.now config.now }
{
    let Some(ask) = ask else {
        return None;
    };
    match config.client(ask.client) {
        Some(number) if config.client_at(number).trusted => None,
        Some(_) => Some(ServerFault::UntrustedClient(Part::Ask, Key::Client)),
        None => Some(ServerFault::UnknownClient(Part::Ask, Key::Client)),
    }
}

/// The index of the first network whose client is missing.
fn first_lacking(networks: &[Network], config: &Config) -> Option<usize>
    ensures index { result ≡ position
        (λ (network : OneNetwork). not (is_some (client_number config.now network.client)))
        networks.now }
    ensures within { IfSome result (λ index. index < length networks.now) }
{
    networks.iter().position(|network| lacks(config, network))
}

/// Whether the client of a network is missing.
fn lacks(config: &Config, network: &Network) -> bool
    ensures { result ≡ not (is_some (client_number config.now network.now.client)) }
{
    config.client(network.client).is_none()
}

/// `UnsignedClient` of the first network of a server's file whose client need not sign, under the
/// guard of version 3 of the account file: any host of the network could pose as it.
#[tactic(auto, unfolding(crate::specs::Server::unsigned_client))]
pub fn unsigned_client(networks: &[Network], config: &Config) -> Option<ServerFault>
    ensures { result ≡ unsigned_client networks.now config.now }
{
    let index = first_unsigned(networks, config)?;
    let part = Part::Network(index as u64 + 1);
    Some(ServerFault::UnsignedClient(part, Key::Client))
}

/// The index of the first network whose client need not sign, under a guard.
fn first_unsigned(networks: &[Network], config: &Config) -> Option<usize>
    ensures index { result ≡ position
        (λ (network : OneNetwork). need_not_sign config.now network.client) networks.now }
    ensures within { IfSome result (λ index. index < length networks.now) }
{
    networks
        .iter()
        .position(|network| need_not_sign(config, network.client))
}

/// Whether the client of this address need not sign, under a guard.
fn need_not_sign(config: &Config, address: [u8; 4]) -> bool
    ensures { result ≡ need_not_sign config.now address }
{
    match (config.unsigned_rule(), config.client(address)) {
        (UnsignedRule::Guarded, Some(number)) => !config.client_at(number).signed,
        _ => false,
    }
}

/// `ShadowedClient` of the first client of the account file whose own address a network gives to
/// another client: its packets would be read with the other client's secret.
#[tactic(auto, unfolding(crate::specs::Server::shadowed_client))]
pub fn shadowed_client(networks: &[Network], config: &Config) -> Option<ServerFault>
    ensures { result ≡ shadowed_client networks.now config.now }
{
    for number in 0..config.clients() {
        let address = Ipv4Addr::from(config.client_at(number).address);
        if is_shadowed(networks, address) {
            return Some(ServerFault::ShadowedClient(address));
        }
    }
    None
}

/// Whether the address of a client stands for another one.
fn is_shadowed(networks: &[Network], address: Ipv4Addr) -> bool
    ensures { result ≡ shadows networks.now address }
{
    client_of(networks, IpAddr::V4(address)) != Some(address.octets())
}
