ghost use Rattle.std.specs.Prelude.{
  ◌≡◌,
  ◌<◌,
  ◌≤◌,
  ◌↔◌,
  List,
  ℕ,
  length,
  IsOkAnd,
  IfOk,
  IsErrOf,
  MatchResult,
  Ok,
  Err,
};
ghost use Rattle.rsl_wire.specs.Packet.{Fields, IsDatagram, packet_of};
ghost use Rattle.rsl_wire.specs.Seen.{fields_of};

use crate::packet::{Packet, WireFault};

/// Reads the packet of a datagram (RFC 2865 section 3). Octets past its Length are padding and are
/// left out. It allocates nothing: the packet lies in the datagram.
///
/// `Short` comes exactly if there are fewer than 20 octets, and `BadLength` exactly if there are 20
/// and the Length is under 20, over 4,096 or over the octets that came.
pub fn read(datagram: &[u8]) -> Result<Packet<'_>, WireFault>
    // What is read is in the grammar, up to the padding.
    ensures found { IfOk result (λ packet. (padding : List ℕ) ×
        IsDatagram datagram.now (fields_of packet) padding) }
    // What is in the grammar is read, with those fields and no others.
    ensures only { (fields : Fields) (padding : List ℕ) → IsDatagram datagram.now fields padding →
        IsOkAnd result (λ packet. fields_of packet ≡ fields) }
    ensures short { IsErrOf result WireFault.Short ↔ (length datagram.now < 20) }
    ensures bad_length { IsErrOf result WireFault.BadLength ↔
        ((20 ≤ length datagram.now) × ((fields : Fields) (padding : List ℕ) →
        IsDatagram datagram.now fields padding → ⊥)) }
    // The same, as a function of the datagram.
    ensures exact { MatchResult result
        (λ packet. packet_of datagram.now ≡ Ok (fields_of packet))
        (λ fault. packet_of datagram.now ≡ Err fault) }
{
    Packet::in_datagram(datagram)
}
