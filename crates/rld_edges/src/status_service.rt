ghost use Rattle.std.specs.Prelude.{◌≡◌, IfSome, Some as some};
ghost use Rattle.std.specs.Net.Socket.{socket_ip};
ghost use Rattle.std.specs.Option.{option_and_then};
ghost use Rattle.rld_networks.specs.Networks.{client_of};
ghost use Rattle.rld_turn.specs.StatusAnswer.{status_answer};

use rld_networks::client_of;
use rld_turn::{Present, STATUS_SERVER, status_answer};
use rsl_event::Port;
use std::alloc::Global;
use std::net::SocketAddr;

/// Answers the Status-Server packets of a port (RFC 5997).
#[derive(Clone, Copy)]
pub struct StatusService<'a> {
    /// The accounts, clients and networks that are present.
    pub present: Present<'a>,
    /// The port.
    pub port: Port,
}

impl StatusService<'_> {
    /// The answer to a datagram from this peer, if it is a Status-Server packet that is answered,
    /// and memory for it is not refused.
    pub(crate) fn answer(&self, alloc: Global, datagram: &[u8], peer: SocketAddr) -> Option<Vec<u8>>
        ensures { IfSome result (λ answer. option_and_then (λ client.
            status_answer self.now.present.config.now self.now.port client datagram.now)
            (client_of self.now.present.networks.now (socket_ip peer)) ≡ some answer.items) }
    {
        match datagram.first() {
            Some(code) if *code == STATUS_SERVER => {}
            _ => return None,
        }
        let Present {
            config,
            networks,
            ..
        } = self.present;
        let client = client_of(networks, peer.ip())?;
        match status_answer(alloc, config, self.port, client, datagram) {
            Ok(answer) => answer,
            Err(_) => None,
        }
    }
}
