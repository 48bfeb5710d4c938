use std::fmt;
use std::net::IpAddr;

/// A prefix of addresses, such as 192.0.2.0/24 or 2001:db8:7::/64 (RFC 4632 section 3.1, RFC 4291
/// section 2.3), which is how it prints.
#[derive(Clone, Copy, Debug)]
pub struct Prefix {
    /// The first address that it holds. It is never ::ffff:a.b.c.d, which is written as IPv4.
    pub address: IpAddr,
    /// The number of bits that an address shares with this one: 0 to 32, or to 128 for IPv6.
    pub len: u8,
}

impl fmt::Display for Prefix {
    fn fmt<W: fmt::Write>(&self, f: &mut fmt::Formatter<W>) -> fmt::Result {
        write!(f, "{}/{}", self.address, self.len)
    }
}
