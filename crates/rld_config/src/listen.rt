//! The addresses and ports of packets, and the ports that two tables cannot both have.
ghost use Rattle.std.specs.Prelude.{◌≡◌, ◌+◌, ◌<◌, ◌^◌, [], length};
ghost use Rattle.std.specs.List.{list_any};
ghost use Rattle.rld_config.specs.Server.{
  addresses_meet,
  default_listen,
  first_taken,
  taken_port,
  takes_port,
};

use crate::fault::ServerFault;
use crate::key::Key;
use crate::part::Part;
use crate::value::ANY_ADDRESS;
use rld_networks::covers;
use std::net::{IpAddr, Ipv4Addr};

/// The port of Access-Requests (RFC 2865 section 3).
pub(crate) const AUTH_PORT: u16 = 1812;

/// The port of Accounting-Requests (RFC 2866 section 3).
pub(crate) const ACCT_PORT: u16 = 1813;

/// An address with two ports that packets come to.
#[derive(Clone, Copy, Debug)]
pub struct Listen {
    /// An address of this machine, or 0.0.0.0 for all its IPv4 addresses, or :: for all addresses.
    pub address: IpAddr,
    /// The UDP port for Access-Requests, at least 1.
    pub auth: u16,
    /// The UDP port for Accounting-Requests, at least 1.
    pub acct: u16,
    /// How many receivers each of the two ports has: 1 to 16.
    pub receivers: u16,
    /// Whether Status-Server packets are answered on both ports (RFC 5997).
    pub status_server: bool,
}

impl Listen {
    /// The default of a server's file: ports 1812 and 1813 of all IPv4 addresses, with one receiver
    /// each.
    pub(crate) fn standard() -> Listen
        ensures { result ≡ default_listen }
    {
        Listen {
            address: IpAddr::V4(Ipv4Addr::from_octets(ANY_ADDRESS)),
            auth: AUTH_PORT,
            acct: ACCT_PORT,
            receivers: 1,
            status_server: false,
        }
    }

    /// Whether one of the ports is this one, at an address that meets this one.
    fn takes_port(&self, address: IpAddr, port: u16) -> bool
        ensures { result ≡ takes_port address port self.now }
    {
        addresses_meet(address, self.address) && (port == self.auth || port == self.acct)
    }
}

/// Whether two addresses cannot have the same port: a socket at one receives what comes to the
/// other.
fn addresses_meet(one: IpAddr, other: IpAddr) -> bool
    ensures { result ≡ addresses_meet one other }
{
    covers(one, other) || covers(other, one)
}

/// Whether one of the tables has the port.
fn is_taken(tables: &[Listen], address: IpAddr, port: u16) -> bool
    ensures { result ≡ list_any (takes_port address port) tables.now }
{
    tables.iter().any(|table| table.takes_port(address, port))
}

/// `TakenPort` of the first port of a table that an earlier table has, or that it has twice.
fn taken_port(before: &[Listen], table: &Listen) -> Option<ServerFault>
    requires { length before.now < 2 ^ 32 }
    ensures { result ≡ taken_port before.now table.now }
{
    let part = Part::Listen(before.len() as u64 + 1);
    if is_taken(before, table.address, table.auth) {
        Some(ServerFault::TakenPort(part, Key::Auth))
    } else if is_taken(before, table.address, table.acct) || table.acct == table.auth {
        Some(ServerFault::TakenPort(part, Key::Acct))
    } else {
        None
    }
}

/// `TakenPort` of the first port of the tables that an earlier socket has.
pub(crate) fn first_taken_port(tables: &[Listen]) -> Option<ServerFault>
    requires { length tables.now < 2 ^ 32 }
    ensures { result ≡ first_taken taken_port [] tables.now }
{
    for (number, table) in tables.iter().enumerate() {
        if let Some(fault) = taken_port(&tables[..number], table) {
            return Some(fault);
        }
    }
    None
}
