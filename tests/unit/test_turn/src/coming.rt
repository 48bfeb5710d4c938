//! What comes to a port and what is sent from it, as words.

use rld_networks::{Network, prefix_of};
use rld_turn::PeerDatagram;
use rsl_port::Coming;
use rsl_wire::Octets;
use std::alloc::Global;
use std::net::{IpAddr, SocketAddr};
use std::test::Fail;
use test_rows::{Hex, number, octets_of, port_number, printed};
use test_timelines::{digits_of, reply_of};

/// The client whose datagrams come.
const CLIENT: [u8; 4] = [192, 168, 1, 16];

/// The networks that stand for the client.
pub(crate) fn networks_of(alloc: Global) -> Result<Vec<Network>, Fail> {
    let mut networks = Vec::new(alloc);
    for text in ["2001:db8:7::/64", "192.0.2.0/24"] {
        let Some(prefix) = prefix_of(text.as_bytes()) else {
            return Err("no prefix")?;
        };
        networks.push(Network {
            prefix,
            client: CLIENT,
        })?;
    }
    Ok(networks)
}

/// Adds what was handed to be sent, and to which port of the client, or to which other peer.
pub(crate) fn push_sent(
    text: &mut String,
    alloc: Global,
    sent: &[PeerDatagram],
) -> Result<(), Fail> {
    for datagram in sent {
        let digits = printed(alloc, &Hex(datagram.octets.as_slice()))?;
        let reply = reply_of(digits.as_str());
        let peer = datagram.peer;
        if peer.ip() == IpAddr::from(CLIENT) {
            write!(text, " {reply} to {},", peer.port())?;
        } else {
            write!(text, " {reply} to {peer},")?;
        }
    }
    Ok(())
}

/// Where the datagram of a word comes from, and what it is: from port 1024 of the client, from the port after
/// `:`, or from port 1024 of the address after `@`.
fn peer_of(word: &str) -> Result<(&str, SocketAddr), Fail> {
    if let Some((word, address)) = word.split_once('@') {
        return Ok((word, SocketAddr::new(address.parse::<IpAddr>()?, 1024)));
    }
    let (word, port) = word.split_once(':').unwrap_or((word, "1024"));
    Ok((
        word,
        SocketAddr::new(IpAddr::from(CLIENT), port_number(port)?),
    ))
}

/// The datagram of a word.
fn datagram_of(alloc: Global, word: &str) -> Result<PeerDatagram, Fail> {
    let (word, peer) = peer_of(word)?;
    let octets = Octets::from_slice(alloc, &octets_of(alloc, digits_of(word)?)?)?;
    Ok(PeerDatagram { peer, octets })
}

/// What comes, of a word.
fn one_coming(alloc: Global, word: &str) -> Result<Coming<SocketAddr>, Fail> {
    match word {
        "nothing" => Ok(Coming::Nothing),
        "fault" => Ok(Coming::Fault),
        _ => Ok(Coming::Datagram(datagram_of(alloc, word)?)),
    }
}

/// What comes, of words: each once, or as often as the number after `*` says.
pub(crate) fn coming_of(alloc: Global, words: &str) -> Result<Vec<Coming<SocketAddr>>, Fail> {
    let mut coming = Vec::new(alloc);
    for word in words.split_ascii_whitespace() {
        let (word, times) = word.split_once('*').unwrap_or((word, "1"));
        for _ in 0..number(times)? {
            coming.push(one_coming(alloc, word)?)?;
        }
    }
    Ok(coming)
}
