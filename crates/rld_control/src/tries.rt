/// How often a request is sent at most. Each time it has the same octets, and goes from the same
/// port, so an access server knows it again (RFC 5080 section 2.2.2).
pub const TRIES: u32 = 3;

/// Seconds to wait for an answer after each of them.
pub const PAUSE_SECS: u64 = 1;
