//! Finding the client of an address.
ghost use Rattle.std.specs.Prelude.{◌≡◌, Some};
ghost use Rattle.rld_networks.specs.Networks.{client_of, first_longest, network_of};
ghost use Rattle.rld_networks.specs.Prefix.{holds, same_prefix};

use crate::address::{canonical, front, same_address, same_family};
use crate::network::Network;
use crate::prefix::Prefix;
use std::net::IpAddr;

/// The IPv4 address of the client of an address: that of the network with the longest prefix among
/// those that hold it; else an IPv4 address itself. An IPv6 address that no network holds is no
/// client's. ::ffff:a.b.c.d counts as a.b.c.d.
#[tactic(auto, unfolding(crate::specs::Networks::client_of))]
pub fn client_of(networks: &[Network], address: IpAddr) -> Option<[u8; 4]>
    ensures { result ≡ client_of networks.now address }
{
    let address = canonical(address);
    match (network_of(networks, address), address) {
        (Some(network), _) => Some(network.client),
        (None, IpAddr::V4(address)) => Some(address.octets()),
        (None, IpAddr::V6(_)) => None,
    }
}

/// The network with the longest prefix among those that hold an address.
#[tactic(auto, using(crate::proofs::Longest::longest_steps))]
fn network_of(networks: &[Network], address: IpAddr) -> Option<Network>
    ensures { result ≡ network_of networks.now address }
{
    let mut found = None;
    for network in networks {
        if network.prefix.holds(address) {
            found = Some(first_longest(found, *network));
        }
    }
    found
}

/// The network of the two with the longer prefix, or the first if they are equal.
fn first_longest(found: Option<Network>, network: Network) -> Network
    ensures { Some result ≡ first_longest found (Some network) }
{
    match found {
        Some(found) if found.prefix.len >= network.prefix.len => found,
        _ => network,
    }
}

impl Prefix {
    /// Whether both prefixes hold the same addresses.
    pub fn is_same(&self, other: &Prefix) -> bool
        ensures { result ≡ same_prefix self.now other.now }
    {
        same_address(self.address, other.address) && self.len == other.len
    }

    /// Whether the prefix holds the address.
    fn holds(&self, address: IpAddr) -> bool
        ensures { result ≡ holds self.now address }
    {
        same_family(self.address, address)
            && front(self.address, self.len) == front(address, self.len)
    }
}
