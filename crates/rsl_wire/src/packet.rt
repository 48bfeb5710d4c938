ghost use Rattle.std.specs.Prelude.{◌≡◌};
ghost use Rattle.rsl_wire.specs.Packet.{IsPacket, packet_octets};

use crate::attributes::{Attrs, BadAttribute};

/// The offset of the Authenticator, after Code, Identifier and Length (RFC 2865 section 3).
pub const AUTHENTICATOR_START: usize = 4;

/// Octets of a packet without its attributes, and the least Length (RFC 2865 section 3).
pub const HEADER_LEN: usize = 20;

/// The greatest Length of a packet (RFC 2865 section 3). RFC 2866 has one less for accounting
/// packets; this server takes the same on both ports.
pub const MAX_LEN: usize = 4096;

// The definitions write these numbers of RFC 2865 out.
const _: () = prove!(AUTHENTICATOR_START == 4);

const _: () = prove!(HEADER_LEN == 20);

const _: () = prove!(MAX_LEN == 4096);

/// Why a datagram has no packet.
#[derive(Clone, Copy, Debug)]
pub enum WireFault {
    /// It has fewer than 20 octets.
    Short,
    /// Its Length is under 20, over 4,096, or over the octets that came.
    BadLength,
}

/// A packet, read from a datagram and still lying in it (RFC 2865 section 3).
///
/// | Octets | Field |
/// |---|---|
/// | 0 | Code |
/// | 1 | Identifier |
/// | 2 to 3 | Length of the whole packet, high octet first |
/// | 4 to 19 | Authenticator |
/// | 20 to Length - 1 | Attributes |
#[derive(Drop)]
pub struct Packet<'a> {
    /// The Code.
    pub code: u8,
    /// The Identifier, which a reply repeats.
    pub id: u8,
    /// The Authenticator.
    pub authenticator: [u8; 16],
    /// The octets of the attributes.
    pub attrs: &'a [u8],
    octets: &'a [u8],
    pub ghost fits: { IsPacket (record {
      code = code;
      id = id;
      authenticator = authenticator;
      attributes = attrs.now;
    }) },
    pub ghost whole: { octets.now ≡ packet_octets (record {
      code = code;
      id = id;
      authenticator = authenticator;
      attributes = attrs.now;
    }) },
}

impl<'a> Packet<'a> {
    ghost use Rattle.std.specs.Prelude.{◌≡◌, List, IfOk, IfErr, IsOkAnd, MatchResult, Ok, Err};
    ghost use Rattle.rsl_wire.specs.Attributes.{
      Attribute,
      AreAttributes,
      IsBadAt,
      attribute_list,
      attributes_in,
    };
    ghost use Rattle.rsl_wire.specs.Packet.{packet_octets, packet_of};
    ghost use Rattle.rsl_wire.specs.Seen.{fields_of};

    /// The octets of the packet: the datagram without its padding.
    pub fn octets(&self) -> &'a [u8]
        ensures { result.now ≡ packet_octets (fields_of self.now) }
    {
        self.octets
    }

    /// The attributes of the packet in order, of any Type (RFC 2865 section 5). It allocates
    /// nothing.
    ///
    /// `BadAttribute` comes exactly if the octets are no list of attributes; its offset is that of
    /// the first one whose Length is missing, under 2, or past the end.
    pub fn attributes(&self) -> Result<Attrs<'a>, BadAttribute>
        // The attributes, joined, are the octets.
        ensures found { IfOk result (λ attrs. AreAttributes self.now.attrs.now attrs) }
        // No others are.
        ensures only { (attributes : List Attribute) → AreAttributes self.now.attrs.now attributes →
            IsOkAnd result (λ attrs. attrs ≡ attributes) }
        ensures bad { IfErr result (λ fault. IsBadAt self.now.attrs.now fault.at) }
        // The same, as a function of the octets.
        ensures exact { MatchResult result
            (λ attrs. attribute_list self.now.attrs.now ≡ Ok attrs)
            (λ fault. attribute_list self.now.attrs.now ≡ Err fault.at) }
    {
        Attrs::in_octets(self.attrs)
    }

    /// `attributes` of a packet whose attributes have been read before and are well formed, without
    /// checking them again.
    pub fn well_formed_attributes(&self) -> Attrs<'a>
        requires { attribute_list self.now.attrs.now ≡ Ok (attributes_in self.now.attrs.now) }
        ensures list { result ≡ attributes_in self.now.attrs.now }
        ensures found { AreAttributes self.now.attrs.now result }
    {
        Attrs::in_formed_octets(self.attrs)
    }

    /// The packet at the start of a datagram, as `read` gives it.
    #[tactic(auto, unfolding(crate::specs::Packet::packet_of))]
    pub(crate) fn in_datagram(datagram: &'a [u8]) -> Result<Packet<'a>, WireFault>
        ensures { MatchResult result
            (λ packet. packet_of datagram.now ≡ Ok (fields_of packet))
            (λ fault. packet_of datagram.now ≡ Err fault) }
    {
        if datagram.len() < HEADER_LEN {
            return Err(WireFault::Short);
        }
        let length = usize::from(u16::from_be_bytes([datagram[2], datagram[3]]));
        if length < HEADER_LEN || MAX_LEN < length || datagram.len() < length {
            return Err(WireFault::BadLength);
        }
        let octets = &datagram[..length];
        let mut authenticator = [0u8; 16];
        authenticator.copy_from_slice(&datagram[AUTHENTICATOR_START..HEADER_LEN]);
        Ok(Packet {
            code: datagram[0],
            id: datagram[1],
            authenticator,
            attrs: &octets[HEADER_LEN..],
            octets,
        })
    }
}
