ghost use Rattle.std.specs.Prelude.{◌≡◌, ◌∷◌, [], IfSome, IsTrue, MatchOption};
ghost use Rattle.rsl_wire.specs.NewPacket.{seen};
ghost use Rattle.rld_control.specs.RequestOctets.{address_kind, is_server_name, server_attributes};

use crate::codes::{NAS_IDENTIFIER, NAS_IP_ADDRESS, NAS_IPV6_ADDRESS};
use crate::value::{attribute, is_value};
use rsl_wire::Attr;

/// Octets of the value of a NAS-IP-Address (RFC 2865 section 5.4).
const IPV4_LEN: usize = 4;

/// Octets of the value of a NAS-IPv6-Address (RFC 3162 section 2.1).
const IPV6_LEN: usize = 16;

/// The name by which an access server knows itself (RFC 5176 section 3).
#[derive(Clone, Copy)]
pub enum ServerName<'a> {
    /// Its NAS-Identifier, of 1 to 253 octets (RFC 2865 section 5.32).
    Identifier(&'a [u8]),
    /// Its address: 4 octets for a NAS-IP-Address (RFC 2865 section 5.4), or 16 for a
    /// NAS-IPv6-Address (RFC 3162 section 2.1).
    Address(&'a [u8]),
    /// It has none.
    Unnamed,
}

impl<'a> ServerName<'a> {
    /// Whether an attribute can have the name.
    pub(crate) fn is_valid(self) -> bool
        ensures { result ≡ is_server_name self.entry }
    {
        match self {
            ServerName::Identifier(name) => is_value(name),
            ServerName::Address(address) => {
                address.len() == IPV4_LEN || address.len() == IPV6_LEN
            }
            ServerName::Unnamed => true,
        }
    }

    /// The attribute that has the name, if there is one.
    pub(crate) fn attribute(&self) -> Option<Attr<'_>>
        ensures { MatchOption result (server_attributes self.now ≡ [])
            (λ attribute. server_attributes self.now ≡ seen attribute ∷ []) }
    {
        match self {
            ServerName::Identifier(name) => Some(attribute(NAS_IDENTIFIER, name)),
            ServerName::Address(address) => Some(attribute(address_kind(address), address)),
            ServerName::Unnamed => None,
        }
    }
}

/// The Type of an address: of 16 octets it is a NAS-IPv6-Address.
fn address_kind(address: &[u8]) -> u8
    ensures { result ≡ address_kind address.now }
{
    if address.len() == IPV6_LEN {
        NAS_IPV6_ADDRESS
    } else {
        NAS_IP_ADDRESS
    }
}
