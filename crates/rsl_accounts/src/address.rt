ghost use Rattle.std.specs.Prelude.{◌≡◌, ℕ, List, IfSome, IfNone};
ghost use Rattle.std.specs.Net.Grammar.{IsDotted};
ghost use Rattle.rsl_accounts.specs.Address.{address_of};

use std::net::Ipv4Addr;

/// The octets of an IPv4 address from its text: four decimal numbers 0 to 255 without leading
/// zeros, joined by dots. `None` for any other text.
pub fn address_of(text: &[u8]) -> Option<[u8; 4]>
    ensures value { result ≡ address_of text.now }
    ensures dotted { IfSome result (IsDotted text.now) }
    ensures none { IfNone result ((octets : List ℕ) → ¬ (IsDotted text.now octets)) }
{
    match Ipv4Addr::parse_ascii(text) {
        Ok(address) => Some(address.octets()),
        Err(_) => None,
    }
}
