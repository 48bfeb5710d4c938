//! Addresses: their texts, and their bits as numbers.
ghost use Rattle.std.specs.Prelude.{◌≡◌, ◌-◌, ◌/◌, ◌%◌, ◌^◌};
ghost use Rattle.rld_networks.specs.Address.{
  bits,
  canonical,
  covers,
  front,
  ip_address_of,
  is_prefix,
  mapped,
  same_address,
  same_family,
  width,
};

use std::net::{IpAddr, Ipv4Addr};

/// The bits of an IPv4 address.
const IPV4_BITS: u8 = 32;

/// The bits of an IPv6 address.
const IPV6_BITS: u8 = 128;

/// The address of a text: IPv4 as four decimal numbers with dots, or IPv6 (RFC 4291 section 2.2).
/// `None` for any other text.
pub fn ip_address_of(text: &[u8]) -> Option<IpAddr>
    ensures { result ≡ ip_address_of text.now }
{
    match IpAddr::parse_ascii(text) {
        Ok(address) => Some(address),
        Err(_) => None,
    }
}

/// The address itself, but a.b.c.d for the IPv6 address ::ffff:a.b.c.d, as which an IPv6 socket
/// reports it (RFC 4291 section 2.5.5.2).
pub fn canonical(address: IpAddr) -> IpAddr
    ensures { result ≡ canonical address }
{
    match mapped(address) {
        Some(address) => IpAddr::V4(address),
        None => address,
    }
}

/// The IPv4 address a.b.c.d of ::ffff:a.b.c.d.
fn mapped(address: IpAddr) -> Option<Ipv4Addr>
    ensures { result ≡ mapped address }
{
    match address {
        IpAddr::V4(_) => None,
        IpAddr::V6(address) => address.to_ipv4_mapped(),
    }
}

/// Whether two addresses are both IPv4 or both IPv6.
pub(crate) fn same_family(one: IpAddr, other: IpAddr) -> bool
    ensures { result ≡ same_family one other }
{
    one.is_ipv4() == other.is_ipv4()
}

/// Whether two addresses are equal.
pub fn same_address(one: IpAddr, other: IpAddr) -> bool
    ensures { result ≡ same_address one other }
{
    same_family(one, other) && bits(one) == bits(other)
}

/// Whether a socket bound to `one` receives what comes to `other`: they are equal, or `one` is the
/// wildcard address of its family, 0.0.0.0 or ::.
pub fn covers(one: IpAddr, other: IpAddr) -> bool
    ensures { result ≡ covers one other }
{
    same_address(one, other) || bits(one) == 0 && (one.is_ipv6() || same_family(one, other))
}

/// The number of bits of the address.
fn width(address: IpAddr) -> u8
    ensures { result ≡ width address }
{
    match address {
        IpAddr::V4(_) => IPV4_BITS,
        IpAddr::V6(_) => IPV6_BITS,
    }
}

/// The address as one number.
fn bits(address: IpAddr) -> u128
    ensures { result ≡ bits address }
{
    match address {
        IpAddr::V4(address) => u128::from(address.to_bits()),
        IpAddr::V6(address) => address.to_bits(),
    }
}

/// The number of bits of an address after the first `len`.
fn rest(address: IpAddr, len: u8) -> u8
    ensures { result ≡ width address - len }
{
    width(address).saturating_sub(len)
}

/// The first `len` bits of an address, as one number.
pub(crate) fn front(address: IpAddr, len: u8) -> u128
    ensures { result ≡ front address len }
{
    without_last(bits(address), rest(address, len))
}

/// Whether the first `len` bits of the address are a prefix: it is canonical and long enough, and
/// all bits after them are 0.
pub(crate) fn is_prefix(address: IpAddr, len: u8) -> bool
    ensures { result ≡ is_prefix address len }
{
    mapped(address).is_none()
        && len <= width(address)
        && last(bits(address), rest(address, len)) == 0
}

/// A number without its last `bits` bits.
#[tactic(auto, using(crate::proofs::Bits::without_all))]
fn without_last(number: u128, bits: u8) -> u128
    ensures { result ≡ number / 2 ^ bits }
{
    match 2u128.checked_pow(u32::from(bits)) {
        Some(size) => number / size,
        None => 0,
    }
}

/// The last `bits` bits of a number.
#[tactic(auto, using(crate::proofs::Bits::all_bits))]
fn last(number: u128, bits: u8) -> u128
    ensures { result ≡ number % 2 ^ bits }
{
    match 2u128.checked_pow(u32::from(bits)) {
        Some(size) => number % size,
        None => number,
    }
}
