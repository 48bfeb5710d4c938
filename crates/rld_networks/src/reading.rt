//! Reading prefixes.
ghost use Rattle.std.specs.Prelude.{◌≡◌, ◌≤◌, ◌<◌, ◌-◌, ◌==◌, IfSome, length, position};
ghost use Rattle.rld_networks.specs.Prefix.{decimal_of, is_digit, is_first_digit, prefix_in, prefix_of};

use crate::address::{ip_address_of, is_prefix};
use crate::prefix::Prefix;
use std::net::IpAddr;

/// The prefix of a text: an address, a slash, and the number of its bits that count, such as
/// `192.0.2.0/24` or `2001:db8:7::/64`. `None` for any other text: a number over 32, or over 128
/// for IPv6, or with a leading 0; a bit set after that many, as in `192.0.2.1/24`; or an IPv4
/// address written as ::ffff:a.b.c.d.
#[tactic(auto, unfolding(crate::specs::Prefix::prefix_of))]
pub fn prefix_of(text: &[u8]) -> Option<Prefix>
    ensures { result ≡ prefix_of text.now }
{
    let slash = first_slash(text)?;
    prefix_in(
        ip_address_of(&text[..slash]),
        decimal_of(&text[slash + 1..]),
    )
}

/// The offset of the first slash of a text.
fn first_slash(text: &[u8]) -> Option<usize>
    ensures place { result ≡ position (λ octet. octet == 47) text.now }
    ensures within { IfSome result (λ slash. slash < length text.now) }
{
    text.iter().position(|octet| *octet == b'/')
}

/// The prefix of an address and a number of bits, if it is one.
fn prefix_in(address: Option<IpAddr>, len: Option<u8>) -> Option<Prefix>
    ensures { result ≡ prefix_in address len }
{
    match (address, len) {
        (Some(address), Some(len)) if is_prefix(address, len) => Some(Prefix { address, len }),
        _ => None,
    }
}

/// The number of one to three decimal digits without a leading 0, up to 199.
fn decimal_of(text: &[u8]) -> Option<u8>
    ensures { result ≡ decimal_of text.now }
{
    match text {
        [a] if is_digit(*a) => Some(digit(*a)),
        [a, b] if is_first_digit(*a) && is_digit(*b) => Some(10 * digit(*a) + digit(*b)),
        [b'1', a, b] if is_digit(*a) && is_digit(*b) => { Some(100 + 10 * digit(*a) + digit(*b)) }
        _ => None,
    }
}

/// Whether the octet is a decimal digit.
fn is_digit(octet: u8) -> bool
    ensures { result ≡ is_digit octet }
{
    b'0' <= octet && octet <= b'9'
}

/// Whether the octet is a decimal digit that is not 0.
fn is_first_digit(octet: u8) -> bool
    ensures { result ≡ is_first_digit octet }
{
    b'1' <= octet && octet <= b'9'
}

/// The value of a decimal digit.
fn digit(octet: u8) -> u8
    requires low { 48 ≤ octet }
    requires high { octet ≤ 57 }
    ensures value { result ≡ octet - 48 }
    ensures most { result ≤ 9 }
{
    octet - b'0'
}
