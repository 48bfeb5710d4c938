//! What of a server's file does not fit its account file.

ghost use Rattle.std.specs.Prelude.{IfOk};
ghost use Rattle.rld_faults.specs.Told.{IsTold};

use crate::faults::Faults;
use crate::found::Finds;
use crate::owner::Owner;
use crate::step::Step;
use rld_config::{ServerFault, ServerFile, asker_fault, unknown_client, unsigned_client};
use rld_networks::{Network, client_of};
use rsl_accounts::Config;
use rsl_wire::NoMemory;
use std::alloc::Global;
use std::net::{IpAddr, Ipv4Addr};

/// What of a server's file of this text does not fit this account file, where its checks have found this fault.
/// It fails only where memory is refused.
pub fn misfits(
    alloc: Global,
    text: &[u8],
    server: &ServerFile,
    config: &Config,
    fault: &ServerFault,
) -> Result<Faults, NoMemory>
    ensures { IfOk result IsTold }
{
    let mut finds = Finds::new(alloc);
    let networks = server.networks.as_slice();
    for (index, network) in networks.iter().enumerate() {
        find_in_network(&mut finds, index, network, config)?;
    }
    find_shadowed(&mut finds, networks, config)?;
    find_in_ask(&mut finds, server, config)?;
    if finds.kept.is_empty() {
        let sentence = format!(in alloc; "{fault}")?;
        finds.push(Vec::new(alloc), sentence)?;
    }
    Faults::of_finds(finds, text)
}

/// Finds what is wrong with the client of a network.
fn find_in_network(
    finds: &mut Finds,
    index: usize,
    network: &Network,
    config: &Config,
) -> Result<(), NoMemory> {
    let one = [*network];
    let wrong = if unknown_client(one.as_slice(), config).is_some() {
        "the account file does not have it"
    } else if unsigned_client(one.as_slice(), config).is_some() {
        "it need not sign"
    } else {
        return Ok(());
    };
    let owner = Owner::Nth("network", index);
    say_client(finds, owner, Ipv4Addr::from(network.client), wrong)
}

/// Finds what is wrong with the client of asks.
fn find_in_ask(finds: &mut Finds, server: &ServerFile, config: &Config) -> Result<(), NoMemory> {
    let wrong = match asker_fault(&server.ask, config) {
        Some(ServerFault::UntrustedClient(_, _)) => "it is not trusted",
        Some(_) => "the account file does not have it",
        None => return Ok(()),
    };
    match &server.ask {
        Some(ask) => say_client(finds, Owner::One("ask"), Ipv4Addr::from(ask.client), wrong),
        None => Ok(()),
    }
}

/// Puts down what is wrong with the client of a table.
fn say_client(
    finds: &mut Finds,
    owner: Owner,
    client: Ipv4Addr,
    wrong: &str,
) -> Result<(), NoMemory> {
    let alloc = finds.alloc;
    let words = owner.words(alloc)?;
    let sentence = format!(in alloc; "client{words} is {client}; {wrong}")?;
    finds.push(owner.way_to(alloc, "client")?, sentence)
}

/// Finds the clients whose own addresses the networks give to other clients.
fn find_shadowed(finds: &mut Finds, networks: &[Network], config: &Config) -> Result<(), NoMemory> {
    let alloc = finds.alloc;
    for number in 0..config.clients() {
        let address = config.client_at(number).address;
        match client_of(networks, IpAddr::V4(Ipv4Addr::from(address))) {
            Some(other) if other != address => {
                let (address, other) = (Ipv4Addr::from(address), Ipv4Addr::from(other));
                let mut way = Vec::new(alloc);
                way.push(Step::key(alloc, "network")?)?;
                let sentence = format!(in alloc;
                    "a network takes client {address} of the account file for client {other}"
                )?;
                finds.push(way, sentence)?;
            }
            _ => {}
        }
    }
    Ok(())
}
