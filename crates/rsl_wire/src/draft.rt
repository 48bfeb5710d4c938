ghost use Rattle.std.specs.Prelude.{
  ◌≡◌,
  ◌+◌,
  ◌≤◌,
  ◌↔◌,
  [],
  ◌++◌,
  length,
  drop,
  slice_index,
  vec_len,
  vec_capacity,
  IsOk,
  IfOk,
  OnOk,
  OnErr,
};
ghost use Rattle.rsl_wire.specs.Attributes.{attribute_of, attribute_octets};
ghost use Rattle.rsl_wire.specs.Packet.{packet_octets};

use crate::attr::{ATTR_HEADER_LEN, MAX_VALUE_LEN};
use crate::fault::NoMemory;
use crate::packet::{AUTHENTICATOR_START, HEADER_LEN, MAX_LEN};
use std::alloc::Global;
use std::marker::Model;

/// An attribute's value has over 253 octets, or the packet would have over 4,096.
#[derive(Clone, Copy, Debug)]
pub struct TooLong;

/// A packet that is being written: its Identifier and its attributes so far, in a buffer of 4,096
/// octets allocated beforehand.
#[derive(Drop)]
pub struct Draft {
    octets: Vec<u8>,
}

impl Model for Draft {
    ghost use Rattle.std.specs.Prelude.{◌≤◌, slice_index, drop, vec_len, vec_capacity};
    ghost use Rattle.rsl_wire.specs.DraftSeen.{Begun, HasRoom};

    ghost Value = { Begun };

    ghost view = { λ draft. record {
      id = slice_index draft.octets.items 1;
      attributes = drop 20 draft.octets.items;
    } };

    ghost invariant = { λ draft. HasRoom (vec_len draft.octets) (vec_capacity draft.octets) };
}

impl Draft {
    /// A draft with an Identifier and no attribute, and room for 4,096 octets. It fails only if
    /// that memory is refused.
    pub fn new(alloc: Global, id: u8) -> Result<Draft, NoMemory>
        ensures { IfOk result (λ draft. draft ≡ record { id = id; attributes = [] }) }
    {
        Draft::in_room(Vec::new(alloc), id)
    }

    /// A draft with an Identifier and no attribute, in the buffer `room`, whose octets are
    /// discarded. It allocates only if the buffer holds fewer than 4,096 octets, and fails only if
    /// that memory is refused; then the buffer is freed too.
    pub fn in_room(room: Vec<u8>, id: u8) -> Result<Draft, NoMemory>
        ensures draft { IfOk result (λ draft. draft ≡ record { id = id; attributes = [] }) }
        ensures enough { 4096 ≤ vec_capacity room → IsOk result }
    {
        let mut octets = room;
        octets.clear();
        octets.reserve(MAX_LEN)?;
        let mut header = [0; HEADER_LEN];
        header[1] = id;
        append(&mut octets, &header);
        Ok(Draft { octets })
    }

    /// Appends an attribute. `TooLong` comes exactly if the value has over 253 octets or the whole
    /// packet would have over 4,096; then the draft is as it was.
    pub fn push(&mut self, kind: u8, value: &[u8]) -> Result<(), TooLong>
        ensures fits { IsOk result ↔ ((length value.now ≤ 253) ×
            (20 + length self.old.attributes + (2 + length value.now) ≤ 4096)) }
        ensures ok { OnOk result (self.new ≡ record self.old {
          attributes = self.old.attributes ++ attribute_octets (attribute_of kind value.now);
        }) }
        ensures err { OnErr result (self.new ≡ self.old) }
    {
        if value.len() > MAX_VALUE_LEN
            || self.octets.len() + ATTR_HEADER_LEN + value.len() > MAX_LEN
        {
            return Err(TooLong);
        }
        let header = [kind, (ATTR_HEADER_LEN + value.len()) as u8];
        append(&mut self.octets, &header);
        append(&mut self.octets, value);
        Ok(())
    }

    /// Writes the octets of attributes, as they stand, after those that are there. `TooLong` comes exactly
    /// where the whole packet would have over 4,096 octets, and then the draft is as it was.
    pub fn push_octets(&mut self, octets: &[u8]) -> Result<(), TooLong>
        ensures fits { IsOk result ↔
            (20 + length self.old.attributes + length octets.now ≤ 4096) }
        ensures ok { OnOk result (self.new ≡ record self.old {
          attributes = self.old.attributes ++ octets.now;
        }) }
        ensures err { OnErr result (self.new ≡ self.old) }
    {
        if self.octets.len() + octets.len() > MAX_LEN {
            return Err(TooLong);
        }
        append(&mut self.octets, octets);
        Ok(())
    }

    /// The octets of the packet (RFC 2865 section 3), with nothing after them. It takes no memory.
    pub fn finish(self, code: u8, authenticator: &[u8; 16]) -> Vec<u8>
        ensures { result.items ≡ packet_octets (record {
          code = code;
          id = self.id;
          authenticator = authenticator.now;
          attributes = self.attributes;
        }) }
    {
        let Draft { mut octets } = self;
        write_header(octets.as_mut_slice(), code, authenticator);
        octets
    }
}

/// Appends octets to a buffer that has room for them.
fn append(octets: &mut Vec<u8>, more: &[u8])
    requires { vec_len octets.old + length more.now ≤ vec_capacity octets.old }
    ensures items { octets.new.items ≡ octets.old.items ++ more.now }
    ensures capacity { vec_capacity octets.old ≤ vec_capacity octets.new }
{
    octets.extend_from_slice(more).unwrap();
}

/// Writes the octets before the attributes, except the Identifier, which is there already.
fn write_header(octets: &mut [u8], code: u8, authenticator: &[u8; 16])
    requires header { 20 ≤ length octets.old }
    requires whole { length octets.old ≤ 4096 }
    ensures { octets.new ≡ packet_octets (record {
      code = code;
      id = slice_index octets.old 1;
      authenticator = authenticator.now;
      attributes = drop 20 octets.old;
    }) }
{
    let [high, low] = (octets.len() as u16).to_be_bytes();
    octets[0] = code;
    octets[2] = high;
    octets[3] = low;
    octets[AUTHENTICATOR_START..HEADER_LEN].copy_from_slice(authenticator);
}
