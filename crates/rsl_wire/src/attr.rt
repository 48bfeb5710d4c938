/// Octets of an attribute before its Value: its Type and its Length (RFC 2865 section 5).
pub const ATTR_HEADER_LEN: usize = 2;

/// The greatest length of an attribute's Value (RFC 2865 section 5).
pub const MAX_VALUE_LEN: usize = 253;

// The definitions write these numbers of RFC 2865 out.
const _: () = prove!(ATTR_HEADER_LEN == 2);

const _: () = prove!(MAX_VALUE_LEN == 253);

/// An attribute to be written: its Type and its Value (RFC 2865 section 5).
#[derive(Clone, Copy)]
pub struct Attr<'a> {
    /// The Type.
    pub kind: u8,
    /// The Value; one over 253 octets fits no packet.
    pub value: &'a [u8],
}
