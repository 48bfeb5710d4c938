//! Sockets on ports that nobody had.

use rsl_serve::UdpPort;
use std::io;
use std::net::{Net, UdpSocket};

/// A port of a server that was not called yet.
#[derive(Drop)]
pub(crate) struct Fresh {
    port: UdpPort,
    pub(crate) number: u16,
}

impl Fresh {
    /// A port of 127.0.0.1 that nobody had.
    pub(crate) fn bind<N: Net>(net: &N) -> io::Result<Fresh> {
        let number = free_port(net)?;
        let port = UdpPort::bind(net, [127, 0, 0, 1], number)?;
        Ok(Fresh { port, number })
    }

    /// The port.
    pub(crate) fn into_port(self) -> UdpPort {
        self.port
    }
}

/// The number of a port that nobody has.
fn free_port<N: Net>(net: &N) -> io::Result<u16> {
    let socket = UdpSocket::bind(net, "127.0.0.1:0")?;
    Ok(socket.local_addr()?.port())
}
