//! The addresses of ports, and what their ports count.

use crate::datagram_port::{Numbers, PortFault};
use rsl_event::Source;
use std::net::SocketAddr;

/// The address of the other side of a port.
///
/// A port counts its calls if its addresses are sources. A port of a system's addresses counts
/// nothing, and may be called for ever.
pub trait Address: Copy {
    ghost use Rattle.std.specs.Prelude.{Result, ⊤};
    ghost use Rattle.rsl_port.specs.Told.{Received};
    ghost use Rattle.rsl_port.specs.declared.datagram_port.Numbers.{Numbers as PortNumbers};
    ghost use Rattle.rsl_port.specs.declared.datagram_port.PortFault.{PortFault as Fault};

    ghost can_receive: { PortNumbers → Type 0 } = { λ _. ⊤ };

    ghost has_received: { Received Self → (old new : PortNumbers) → Type 0 } = { λ _ _ _. ⊤ };

    ghost can_send: { PortNumbers → Type 0 } = { λ _. ⊤ };

    ghost has_sent: { Self → Result ⊤ Fault → (old new : PortNumbers) → Type 0 } = { λ _ _ _ _. ⊤ };

    /// Counts a call of `receive` with this result, if its port counts.
    fn note_receive(numbers: &mut Numbers, received: &Result<Option<(usize, Self)>, PortFault>)
        requires { can_receive numbers.old }
        ensures { has_received received.now numbers.old numbers.new };

    /// Counts a call of `send` to this address, with this result, if its port counts.
    fn note_send(self, numbers: &mut Numbers, sent: &Result<(), PortFault>)
        requires { can_send numbers.old }
        ensures { has_sent self sent.now numbers.old numbers.new };
}

impl Address for Source {
    ghost use Rattle.std.specs.Prelude.{◌≡◌};
    ghost use Rattle.rsl_port.specs.Told.{CanReceive, CanSend, after_receive, after_send};

    ghost can_receive = { CanReceive 1 };

    ghost has_received = { λ received old new. new ≡ after_receive received old };

    ghost can_send = { CanSend 1 };

    ghost has_sent = { λ to sent old new. new ≡ after_send to sent old };

    fn note_receive(numbers: &mut Numbers, received: &Result<Option<(usize, Source)>, PortFault>) {
        numbers.note_receive(received);
    }

    fn note_send(self, numbers: &mut Numbers, sent: &Result<(), PortFault>) {
        numbers.note_send(self, sent);
    }
}

impl Address for SocketAddr {
    fn note_receive(_: &mut Numbers, _: &Result<Option<(usize, SocketAddr)>, PortFault>) {}

    fn note_send(self, _: &mut Numbers, _: &Result<(), PortFault>) {}
}
