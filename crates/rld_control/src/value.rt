ghost use Rattle.std.specs.Prelude.{◌≡◌};
ghost use Rattle.rsl_wire.specs.Attributes.{attribute_of};
ghost use Rattle.rsl_wire.specs.NewPacket.{seen};
ghost use Rattle.rld_control.specs.RequestOctets.{is_value};

use rsl_wire::{Attr, MAX_VALUE_LEN};

/// Whether octets can be the value of a name or an id: there are 1 to 253.
pub(crate) fn is_value(octets: &[u8]) -> bool
    ensures { result ≡ is_value octets.now }
{
    !octets.is_empty() && octets.len() <= MAX_VALUE_LEN
}

/// An attribute with this value.
pub(crate) fn attribute(kind: u8, value: &[u8]) -> Attr<'_>
    ensures { seen result ≡ attribute_of kind value.now }
{
    Attr { kind, value }
}
