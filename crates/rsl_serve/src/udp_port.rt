ghost use Rattle.std.specs.Prelude.{◌≡◌, ◌≤◌, IfOk, IfSome, length};
ghost use Rattle.rsl_port.specs.Told.{no_numbers};

use crate::shutdown::FailingPort;
use rsl_event::Source;
use rsl_port::{DatagramPort, Numbers, PortFault, reception, socket_addr};
use std::io;
use std::marker::Model;
use std::net::{Net, UdpSocket};
use std::time::Duration;

/// How long a turn waits for a datagram, in seconds.
const WAIT_SECS: u64 = 1;

const _: () = prove!(WAIT_SECS == 1);

/// A UDP socket on an IPv4 address. Its `receive` waits at most a second.
///
/// A contract sees the counts of its calls, as its `DatagramPort` has them.
#[derive(Drop)]
pub struct UdpPort {
    socket: UdpSocket,
    numbers: Numbers,
}

/// A UDP socket that was closed, with the counts of its calls. Only `UdpPort::close` makes one.
#[derive(Drop)]
pub(crate) struct ClosedPort {
    numbers: Numbers,
}

impl Model for UdpPort {
    ghost use Rattle.rsl_port.specs.declared.datagram_port.Numbers.{Numbers as PortNumbers};

    ghost Value = { PortNumbers };

    ghost view = { λ port. port.numbers };
}

impl UdpPort {
    /// A socket bound to this address and UDP port.
    ///
    /// The error is the system's: no memory for a socket, an address that is not this machine's, a
    /// port that is taken or not allowed, or a read timeout that cannot be set.
    pub fn bind<N: Net>(net: &N, address: [u8; 4], port: u16) -> io::Result<UdpPort>
        ensures { IfOk result (λ port. port ≡ no_numbers) }
    {
        let socket = UdpSocket::bind(net, socket_addr(Source { address, port }))?;
        socket.set_read_timeout(Some(Duration::from_secs(WAIT_SECS)))?;
        Ok(UdpPort {
            socket,
            numbers: Numbers::new(),
        })
    }

    /// Closes the socket.
    pub(crate) fn close(self) -> ClosedPort
        ensures { result.numbers ≡ self }
    {
        let UdpPort { socket, numbers } = self;
        drop(socket);
        ClosedPort { numbers }
    }

    /// The result of a `receive`, not counted yet. `PortFault` comes if the system's read fails;
    /// that no datagram comes in time is no failure.
    fn read(&self, buffer: &mut [u8]) -> Result<Option<(usize, Source)>, PortFault>
        ensures { IfOk result (λ received. IfSome received (λ found.
            found.0 ≤ length buffer.new)) }
    {
        let room = buffer.len();
        reception(self.socket.recv_from(buffer), room)
    }
}

impl FailingPort for UdpPort {
    fn fail(&mut self) -> Result<Option<(usize, Source)>, PortFault> {
        let failed = Err(PortFault);
        self.numbers.note_receive(&failed);
        failed
    }
}

impl DatagramPort<Source> for UdpPort {
    ghost numbers = { λ port. port };

    fn receive(&mut self, buffer: &mut [u8]) -> Result<Option<(usize, Source)>, PortFault> {
        let received = self.read(buffer);
        self.numbers.note_receive(&received);
        received
    }

    fn send(&mut self, octets: &[u8], to: Source) -> Result<(), PortFault> {
        let sent = match self.socket.send_to(octets, socket_addr(to)) {
            Ok(_) => Ok(()),
            Err(_) => Err(PortFault),
        };
        self.numbers.note_send(to, &sent);
        sent
    }
}
