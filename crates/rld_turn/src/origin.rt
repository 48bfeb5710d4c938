ghost use Rattle.std.specs.Prelude.{◌≡◌};
ghost use Rattle.rld_turn.specs.Present.{origin_of, service_of};

use crate::present::Present;
use rld_networks::client_of;
use rsl_event::Source;
use std::net::SocketAddr;

/// The origin of a datagram.
#[derive(Clone, Copy)]
pub struct Origin {
    /// The address and port that the system reports. An answer goes there.
    pub peer: SocketAddr,
    /// The source for the session rule: the address of the client that the peer stands for, and the
    /// port.
    pub source: Source,
}

impl Present<'_> {
    /// The origin of a datagram of this peer.
    pub(crate) fn origin(&self, peer: SocketAddr) -> Origin
        ensures { result ≡ origin_of (service_of self.now) peer }
    {
        let client = client_of(self.networks, peer.ip());
        Origin {
            peer,
            source: Source {
                address: client.unwrap_or(self.nobody),
                port: peer.port(),
            },
        }
    }
}
