//! Tests of `rsl_auth`: the octets of the RFCs, and others that Python's hashlib and hmac computed.

mod passwords;
mod signatures;

const SECRET: &[u8] = b"xyzzy5461";

/// The Request Authenticator of RFC 2865 section 7.1.
const REQUEST_AUTH: [u8; 16] = [
    0x0f, 0x40, 0x3f, 0x94, 0x73, 0x97, 0x80, 0x57, 0xbd, 0x83, 0xd5, 0xcb, 0x98, 0xf4, 0x22, 0x7a,
];
