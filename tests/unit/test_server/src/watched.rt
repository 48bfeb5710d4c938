//! Sockets of a server that fail once the client has ended, so that their receivers end.

ghost use Rattle.std.specs.Prelude.{◌≡◌, ◌≤◌};
ghost use Rattle.rsl_service.specs.Told.{no_numbers};

use crate::fresh::Fresh;
use crate::scene::Scene;
use rsl_event::Source;
use rsl_serve::UdpPort;
use rsl_service::{DatagramPort, Numbers, PortFault};

/// The most turns in a row without a datagram, of a second each.
const MOST_IDLE: u64 = 10;

/// A port of a server, which fails where the client has ended, or nothing comes for too long.
#[derive(Drop)]
pub(crate) struct Watched<'a> {
    port: UdpPort,
    scene: &'a Scene,
    idle: u64,
    numbers: Numbers,
}

impl<'a> Watched<'a> {
    /// A port, which was not called yet.
    pub(crate) fn new(fresh: Fresh, scene: &'a Scene) -> Watched<'a> {
        Watched {
            port: fresh.into_port(),
            scene,
            idle: 0,
            numbers: Numbers::new(),
        }
    }
}

impl DatagramPort<Source> for Watched<'_> {
    ghost numbers = { λ watched. watched.numbers };

    fn receive(&mut self, buffer: &mut [u8]) -> Result<Option<(usize, Source)>, PortFault> {
        let received = if self.idle >= MOST_IDLE || self.scene.is_over() {
            Err(PortFault)
        } else {
            self.port.receive(buffer)
        };
        match received {
            Ok(None) => self.idle += 1,
            _ => self.idle = 0,
        }
        self.numbers.note_receive(&received);
        received
    }

    fn send(&mut self, octets: &[u8], to: Source) -> Result<(), PortFault> {
        let sent = self.port.send(octets, to);
        self.numbers.note_send(to, &sent);
        sent
    }
}
