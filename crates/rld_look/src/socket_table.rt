//! The system's tables of UDP sockets: `/proc/self/net/udp`, and `/proc/self/net/udp6` for IPv6
//! addresses (proc(5)).

ghost use Rattle.std.specs.Prelude.{◌≡◌, IfSome};

use crate::look::SocketLook;
use std::net::{IpAddr, Ipv4Addr, Ipv6Addr};

/// The entry of a table for the socket bound to this address and port. `None` if the table has no
/// such socket, or something other than a number where one should be.
pub fn socket_in(table: &str, address: IpAddr, port: u16) -> Option<SocketLook>
    ensures { IfSome result (λ socket. socket.port ≡ port) }
{
    for line in table.split('\n') {
        if let Some(socket) = socket_on(line, address, port) {
            return Some(socket);
        }
    }
    None
}

/// The entry of a line, if it is of that socket. Its words are the slot, the local address, the
/// remote one, the state, the octets that wait to be sent and to be received, and more; the last is
/// the number of dropped datagrams.
fn socket_on(line: &str, address: IpAddr, port: u16) -> Option<SocketLook>
    ensures { IfSome result (λ socket. socket.port ≡ port) }
{
    let mut words = line.split_ascii_whitespace();
    let _slot = words.next()?;
    if !is_address(words.next()?, address, port) {
        return None;
    }
    let _remote = words.next()?;
    let _state = words.next()?;
    let waiting = hex_after_colon(words.next()?)?;
    let dropped = number(words.last()?)?;
    Some(SocketLook {
        port,
        waiting,
        dropped,
    })
}

/// Whether a word is this address and port, both in hexadecimal digits.
fn is_address(word: &str, address: IpAddr, port: u16) -> bool {
    match word.split_once(':') {
        Some((host, service)) => is_host(host, address)
            && u16::from_str_radix(service, 16) == Ok(port),
        None => false,
    }
}

/// Whether hexadecimal digits are this address, as one number of 32 bits or as four of them.
fn is_host(digits: &str, address: IpAddr) -> bool {
    match address {
        IpAddr::V4(address) => {
            digits.len() == 8 && u32::from_str_radix(digits, 16) == Ok(number_of_ipv4(address))
        }
        IpAddr::V6(address) => {
            digits.len() == 32 && u128::from_str_radix(digits, 16) == Ok(number_of_ipv6(address))
        }
    }
}

/// An IPv4 address as a number in the byte order of the machine: the first octet is the lowest.
fn number_of_ipv4(address: Ipv4Addr) -> u32 {
    u32::from_le_bytes(address.octets())
}

/// An IPv6 address as four such numbers of 32 bits, one after the other.
fn number_of_ipv6(address: Ipv6Addr) -> u128 {
    let [a, b, c, d, e, f, g, h, i, j, k, l, m, n, o, p] = address.octets();
    u128::from_be_bytes([d, c, b, a, h, g, f, e, l, k, j, i, p, o, n, m])
}

/// The hexadecimal number after the colon of a word.
fn hex_after_colon(word: &str) -> Option<u64> {
    let (_, digits) = word.split_once(':')?;
    u64::from_str_radix(digits, 16).ok()
}

/// A number in decimal digits.
fn number(word: &str) -> Option<u64> {
    word.parse().ok()
}
