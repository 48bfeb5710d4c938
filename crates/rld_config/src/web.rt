/// The address of the running server's page.
#[derive(Clone, Copy, Debug)]
pub struct Web {
    /// An IPv4 address of this machine, by default 127.0.0.1.
    pub address: [u8; 4],
    /// The TCP port, at least 1.
    pub port: u16,
}
