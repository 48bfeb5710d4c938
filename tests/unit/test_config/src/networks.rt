//! Which text is a prefix, and which client an address stands for. What is right was worked out with
//! Python's `ipaddress`, whose `ip_network` takes more: an address alone, a mask, zeros before the number,
//! and ::ffff:a.b.c.d.

use rld_networks::{Network, client_of, ip_address_of, prefix_of};
use std::alloc::Global;
use std::test::Fail;
use test_rows::{Subject, check_rows, printed, shown};

/// The prefix that a text writes, as it prints.
struct Prefixes;

impl Subject for Prefixes {
    fn found(&self, alloc: Global, fields: &[&str]) -> Result<String, Fail> {
        let [text] = fields else {
            return Err("not one text")?;
        };
        match prefix_of(text.as_bytes()) {
            Some(prefix) => shown(alloc, &prefix),
            None => shown(alloc, &"none"),
        }
    }
}

#[test]
fn a_prefix_is_an_address_a_slash_and_a_number(rt: HostRuntime) -> Result<(), Fail> {
    let rows = "
        IPv4 | 192.0.2.0/24 | 192.0.2.0/24
        one address | 192.0.2.1/32 | 192.0.2.1/32
        all of IPv4 | 0.0.0.0/0 | 0.0.0.0/0
        IPv6 | 2001:db8:7::/64 | 2001:db8:7::/64
        another spelling | 2001:0DB8:0:0::/32 | 2001:db8::/32
        all of IPv6 | ::/0 | ::/0
        one of IPv6 | ::1/128 | ::1/128
        a bit behind the 24 | 192.0.2.128/24 | none
        the last bit of 25 | 192.0.2.128/25 | 192.0.2.128/25
        a bit behind the 64 | 2001:db8:7::8000:0:0:0/64 | none
        a bit at 65 | 2001:db8:7::8000:0:0:0/65 | 2001:db8:7:0:8000::/65
        too long | 192.0.2.0/33 | none
        too long for IPv6 | ::/129 | none
        far too long | ::/256 | none
        a zero before the number | 10.0.0.0/08 | none
        no number | 10.0.0.0/ | none
        no digits | 10.0.0.0/8a | none
        a sign | 10.0.0.0/+8 | none
        a mask | 10.0.0.0/255.0.0.0 | none
        no slash | 10.0.0.0 | none
        two slashes | 10.0.0.0/8/8 | none
        no address | /8 | none
        a short address | 10/8 | none
        IPv4 in IPv6 | ::ffff:10.0.0.0/104 | none
        brackets | [::]/0 | none
    ";
    check_rows(&rt, &Prefixes, rows)
}

/// The client that an address stands for, with four networks.
struct Clients;

impl Subject for Clients {
    fn found(&self, alloc: Global, fields: &[&str]) -> Result<String, Fail> {
        let [text] = fields else {
            return Err("not one address")?;
        };
        let Some(address) = ip_address_of(text.as_bytes()) else {
            return Err("no address")?;
        };
        let networks = [
            network("2001:db8::/32", 1)?,
            network("2001:db8:7::/48", 2)?,
            network("10.0.0.0/8", 3)?,
            network("10.1.2.0/23", 4)?,
        ];
        printed(alloc, &client_of(&networks, address))
    }
}

/// The network of a prefix, for the client of this last number.
fn network(prefix: &str, last: u8) -> Result<Network, Fail> {
    match prefix_of(prefix.as_bytes()) {
        Some(prefix) => Ok(Network {
            prefix,
            client: [192, 0, 2, last],
        }),
        None => Err("no prefix")?,
    }
}

#[test]
fn the_longest_prefix_says_which_client_an_address_stands_for(rt: HostRuntime) -> Result<(), Fail> {
    let rows = "
        in the shorter | 2001:db8:8::1 | Some([192, 0, 2, 1])
        in both | 2001:db8:7::1 | Some([192, 0, 2, 2])
        the last of both | 2001:db8:7:ffff:ffff:ffff:ffff:ffff | Some([192, 0, 2, 2])
        behind it | 2001:db9::1 | None
        IPv4 in the shorter | 10.1.1.255 | Some([192, 0, 2, 3])
        the first of the longer | 10.1.2.0 | Some([192, 0, 2, 4])
        the last of the longer | 10.1.3.255 | Some([192, 0, 2, 4])
        behind the longer | 10.1.4.0 | Some([192, 0, 2, 3])
        in none | 11.0.0.1 | Some([11, 0, 0, 1])
        IPv4 in IPv6 | ::ffff:10.1.2.3 | Some([192, 0, 2, 4])
        IPv4 in IPv6 and in none | ::ffff:11.0.0.1 | Some([11, 0, 0, 1])
        the machine itself | ::1 | None
    ";
    check_rows(&rt, &Clients, rows)
}
