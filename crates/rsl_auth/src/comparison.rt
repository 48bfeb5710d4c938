//! Comparison of digests, passwords and tokens without an early exit: its time is not to tell where they
//! differ. No clause speaks of time, and a compiler may change it.
ghost use Rattle.std.specs.Prelude.{◌≡◌, ◌↔◌, length};
ghost use Rattle.std.specs.Str.{bytes_eq};

/// Whether two lists of octets are equal. If they have one length, every octet is compared,
/// wherever the first difference is.
pub fn same_octets(octets: &[u8], others: &[u8]) -> bool
    ensures { result ≡ bytes_eq octets.now others.now }
{
    octets.len() == others.len() && differing_bits(octets, others) == 0
}

/// The bits in which any octet differs from the one at its index in the other list.
fn differing_bits(octets: &[u8], others: &[u8]) -> u8
    requires { length octets.now ≡ length others.now }
    ensures { (result ≡ 0) ↔ (octets.now ≡ others.now) }
{
    let mut bits = 0;
    for i in 0..octets.len() {
        bits |= octets[i] ^ others[i];
    }
    bits
}
