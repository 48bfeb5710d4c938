ghost use Rattle.std.specs.Prelude.{◌≡◌, ◌↔◌, map, IsTrue, IfOk, IsErrOf, IsOkUnless};
ghost use Rattle.rsl_wire.specs.Attributes.{list_octets};
ghost use Rattle.rsl_wire.specs.NewPacket.{seen, FitsPacket};
ghost use Rattle.rsl_wire.specs.Packet.{packet_octets};

use crate::attr::{ATTR_HEADER_LEN, Attr, MAX_VALUE_LEN};
use crate::draft::Draft;
use crate::fault::NoMemory;
use crate::packet::{HEADER_LEN, MAX_LEN};
use std::alloc::Global;

/// Why a packet could not be built.
#[derive(Clone, Copy, Debug)]
pub enum BuildFault {
    /// A value has over 253 octets, or the packet would have over 4,096.
    TooLong,
    /// Memory was refused.
    NoMemory,
}

/// The octets of a packet with these fields, and nothing after them (RFC 2865 section 3).
///
/// `TooLong` comes exactly if a value has over 253 octets or the whole would have over 4,096,
/// before anything is allocated. `NoMemory` comes only if memory is refused.
pub fn build(
    alloc: Global,
    code: u8,
    id: u8,
    authenticator: &[u8; 16],
    attributes: &[Attr<'_>],
) -> Result<Vec<u8>, BuildFault>
    ensures built { IfOk result (λ octets. octets.items ≡ packet_octets (record {
      code = code;
      id = id;
      authenticator = authenticator.now;
      attributes = list_octets (map seen attributes.now);
    })) }
    ensures fits { FitsPacket (map seen attributes.now) → IsOkUnless result BuildFault.NoMemory }
    ensures too_long { (FitsPacket (map seen attributes.now) → ⊥) →
        IsErrOf result BuildFault.TooLong }
    ensures only_fitting { IfOk result (λ _. FitsPacket (map seen attributes.now)) }
{
    if !fits_packet(attributes) {
        return Err(BuildFault::TooLong);
    }
    match written(alloc, id, attributes) {
        Ok(draft) => Ok(draft.finish(code, authenticator)),
        Err(NoMemory) => Err(BuildFault::NoMemory),
    }
}

/// Whether the attributes fit a packet.
fn fits_packet(attributes: &[Attr<'_>]) -> bool
    ensures { IsTrue result ↔ FitsPacket (map seen attributes.now) }
{
    let mut len = HEADER_LEN;
    for attribute in attributes {
        let value_len = attribute.value.len();
        if value_len > MAX_VALUE_LEN || len + (ATTR_HEADER_LEN + value_len) > MAX_LEN {
            return false;
        }
        len += ATTR_HEADER_LEN + value_len;
    }
    true
}

/// A draft with the attributes.
fn written(alloc: Global, id: u8, attributes: &[Attr<'_>]) -> Result<Draft, NoMemory>
    requires { FitsPacket (map seen attributes.now) }
    ensures { IfOk result (λ draft.
        draft ≡ record { id = id; attributes = list_octets (map seen attributes.now) }) }
{
    let mut draft = Draft::new(alloc, id)?;
    for attribute in attributes {
        draft.push(attribute.kind, attribute.value).unwrap();
    }
    Ok(draft)
}
