ghost use Rattle.std.specs.Prelude.{◌≤◌, IfOk, IfSome};

use crate::status_service::StatusService;
use rsl_port::{DatagramPort, PortFault, reception};
use std::alloc::Global;
use std::io;
use std::net::{SocketAddr, UdpSocket};

/// A UDP socket that several receivers share, for one of them in a turn. No call blocks.
///
/// It answers Status-Server packets itself if it is to; the receiver does not see them.
#[derive(Drop)]
pub struct SocketPort<'a> {
    socket: &'a UdpSocket,
    alloc: Global,
    status: Option<StatusService<'a>>,
    is_drained: bool,
}

impl<'a> SocketPort<'a> {
    /// A port over a socket that does not block.
    pub fn new(
        socket: &'a UdpSocket,
        alloc: Global,
        status: Option<StatusService<'a>>,
    ) -> SocketPort<'a> {
        SocketPort {
            socket,
            alloc,
            status,
            is_drained: false,
        }
    }

    /// Whether the last read found the socket empty, so that it can be waited for.
    pub fn is_drained(&self) -> bool {
        self.is_drained
    }

    /// Answers a datagram, if it is a Status-Server packet that is to be answered, and gives
    /// whether it was.
    fn answers_status(&self, datagram: &[u8], peer: SocketAddr) -> bool {
        let Some(service) = &self.status else {
            return false;
        };
        match service.answer(self.alloc, datagram, peer) {
            Some(answer) => {
                let _ = self.socket.send_to(answer.as_slice(), peer);
                true
            }
            None => false,
        }
    }
}

/// What a read of a socket into `room` octets gave: a datagram, cut to the room, with its peer, or
/// none if the fault of the read passes. Any other fault is a `PortFault`.
fn arrival(
    read: io::Result<(usize, SocketAddr)>,
    room: usize,
) -> Result<Option<(usize, SocketAddr)>, PortFault>
    ensures { IfOk result (λ received. IfSome received (λ found. found.0 ≤ room)) }
{
    match read {
        Ok((len, peer)) => Ok(Some((len.min(room), peer))),
        Err(error) => match reception(Err(error), room) {
            Ok(_) => Ok(None),
            Err(fault) => Err(fault),
        },
    }
}

impl DatagramPort<SocketAddr> for SocketPort<'_> {
    /// Takes a datagram, if there is one. After a Status-Server packet it gives none, but more may
    /// be there.
    fn receive(&mut self, buffer: &mut [u8]) -> Result<Option<(usize, SocketAddr)>, PortFault> {
        let room = buffer.len();
        match arrival(self.socket.recv_from(buffer), room)? {
            Some((len, peer)) if self.answers_status(&buffer[..len], peer) => Ok(None),
            Some((len, peer)) => Ok(Some((len, peer))),
            None => {
                self.is_drained = true;
                Ok(None)
            }
        }
    }

    /// Sends an answer. If the system has no room for it now, it is lost like a dropped datagram.
    fn send(&mut self, octets: &[u8], to: SocketAddr) -> Result<(), PortFault> {
        match self.socket.send_to(octets, to) {
            Ok(_) => Ok(()),
            Err(_) => Err(PortFault),
        }
    }
}
