use crate::prefix::Prefix;

/// A network: a prefix whose addresses stand for one client.
#[derive(Clone, Copy, Debug)]
pub struct Network {
    /// The addresses that it holds.
    pub prefix: Prefix,
    /// The IPv4 address of the client.
    pub client: [u8; 4],
}
