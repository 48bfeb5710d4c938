//! Laws of the grammar. Each is the contract of a function that does nothing.

ghost use Rattle.std.specs.Prelude.{◌≡◌, List, ℕ, ◌++◌};
ghost use Rattle.std.specs.List.{AllByRecursion};
ghost use Rattle.rsl_wire.specs.Attributes.{
  Attribute,
  IsAttribute,
  AreAttributes,
  IsBadAt,
  list_octets,
};
ghost use Rattle.rsl_wire.specs.Packet.{Fields, IsPacket, IsDatagram, packet_octets};

/// A packet's octets, followed by any padding, are a datagram with the packet's fields, and with no
/// others.
pub fn one_packet()
    ensures reads { (fields : Fields) (padding : List ℕ) → IsPacket fields →
        IsDatagram (packet_octets fields ++ padding) fields padding }
    ensures only { (datagram padding others : List ℕ) (fields other : Fields) →
        IsDatagram datagram fields padding → IsDatagram datagram other others →
        (fields ≡ other) × (padding ≡ others) }
{}

/// Attributes, joined, are octets with those attributes, and with no others.
pub fn one_list()
    ensures reads { (attributes : List Attribute) → AllByRecursion IsAttribute attributes →
        AreAttributes (list_octets attributes) attributes }
    ensures only { (octets : List ℕ) (attributes others : List Attribute) →
        AreAttributes octets attributes → AreAttributes octets others → attributes ≡ others }
{}

/// A list is malformed at one offset alone, and a malformed list is no list of attributes.
pub fn one_offset()
    ensures same { (octets : List ℕ) (at other : ℕ) → IsBadAt octets at → IsBadAt octets other →
        at ≡ other }
    ensures no_list { (octets : List ℕ) (attributes : List Attribute) (at : ℕ) →
        AreAttributes octets attributes → IsBadAt octets at → ⊥ }
{}
