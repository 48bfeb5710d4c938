use std::fmt;

/// How the value of a reply attribute is written. It prints as what a value has to be.
#[derive(Clone, Copy, Debug)]
pub enum Form {
    /// A text, in quotation marks or not.
    Text,
    /// Octets, as 0x and hexadecimal digits.
    Octets,
    /// A number under 2^32, or the name of one.
    Number,
    /// An IPv4 address.
    Ipv4,
    /// An IPv6 address.
    Ipv6,
    /// An IPv6 prefix, as `2001:db8:7::/56`.
    Ipv6Prefix,
    /// An interface identifier (RFC 3162 section 2.2), as `0:0:0:1`, or octets.
    InterfaceId,
    /// A number under 2^24 that has a tag (RFC 2868 section 3.1), or the name of one.
    TaggedNumber,
    /// A text that has a tag (RFC 2868 section 3.6).
    TaggedText,
}

impl fmt::Display for Form {
    fn fmt<W: fmt::Write>(&self, f: &mut fmt::Formatter<W>) -> fmt::Result {
        f.write_str(match self {
            Form::Text | Form::TaggedText => "a text",
            Form::Octets => "octets as 0x..",
            Form::Number | Form::TaggedNumber => "a number or its name",
            Form::Ipv4 => "an IPv4 address",
            Form::Ipv6 => "an IPv6 address",
            Form::Ipv6Prefix => "an IPv6 prefix",
            Form::InterfaceId => "an interface identifier",
        })
    }
}
