//! Ports: where datagrams come from and go to, and the counts of their calls.

ghost use Rattle.std.specs.Prelude.{◌≡◌};
ghost use Rattle.rsl_port.specs.Told.{CanReceive, CanSend, after_receive, after_send, no_numbers};

use crate::address::Address;
use rsl_event::Source;
use rsl_wire::Octets;

/// A call of a port failed.
#[derive(Clone, Copy)]
pub struct PortFault;

/// A datagram, with the peer that it came from or goes to.
#[derive(Drop)]
pub struct Datagram<Peer = Source> {
    /// The other side's address and port.
    pub peer: Peer,
    /// The octets of the datagram.
    pub octets: Octets,
}

/// A port that datagrams come from and answers go to, such as a UDP socket.
///
/// A contract sees the numbers that the port keeps of its calls, if it counts them (`Address`); a
/// socket, which holds a `Numbers`, reports nothing else. A port in memory also reports which
/// datagrams it gave, which sends were tried, the least room, in octets, of any `receive`, and
/// whether the last `receive` failed, as long as `tells` is true; and which datagrams it was made
/// with.
pub trait DatagramPort<Peer: Address> {
    ghost use Rattle.std.specs.Prelude.{◌≡◌, ◌≤◌, ℕ, min, Bool, true, false, List, [], ◌∷◌, ◌++◌, length, IfOk, IfSome, is_err};
    ghost use Rattle.rsl_port.specs.Told.{datagram_of, no_numbers, taken_by};
    ghost use Rattle.rsl_port.specs.declared.datagram_port.Datagram.{Datagram as OneDatagram};
    ghost use Rattle.rsl_port.specs.declared.datagram_port.Numbers.{Numbers as PortNumbers};

    ghost numbers: { Self → PortNumbers } = { λ _. no_numbers };

    ghost tells: { Self → Bool } = { λ _. false };

    ghost contents: { Self → List (OneDatagram Peer) } = { λ _. [] };

    ghost taken: { Self → List (OneDatagram Peer) } = { λ _. [] };

    ghost sent: { Self → List (OneDatagram Peer) } = { λ _. [] };

    ghost room: { Self → ℕ } = { λ _. 0 };

    ghost is_down: { Self → Bool } = { λ _. false };

    /// Takes a datagram, if there is one or one comes within the time that the port waits, and puts
    /// its octets at the start of the buffer. Gives their number and the peer, or `None` if there
    /// is none. A datagram longer than the buffer is cut. It fails if the port can give no more,
    /// like a socket that the system closed. The counts of a port that counts have to stay under
    /// 2^64 with this call.
    fn receive(&mut self, buffer: &mut [u8]) -> Result<Option<(usize, Peer)>, PortFault>
        requires { Peer.can_receive (numbers self.old) }
        ensures within { IfOk result (λ received. IfSome received (λ found.
            found.0 ≤ length buffer.new)) }
        ensures numbers { Peer.has_received result (numbers self.old) (numbers self.new) }
        ensures contents { contents self.new ≡ contents self.old }
        ensures telling { tells self.new ≡ true → tells self.old ≡ true }
        ensures taken { tells self.new ≡ true →
            taken self.new ≡ taken self.old ++ taken_by result buffer.new }
        ensures sent { tells self.new ≡ true → sent self.new ≡ sent self.old }
        ensures room { tells self.new ≡ true → room self.new ≡ min (room self.old) (length buffer.old) }
        ensures down { tells self.new ≡ true → is_down self.new ≡ is_err result };

    /// Sends these octets to a peer. On a fault nothing is known of what was sent. The counts of a
    /// port that counts have to stay under 2^64 with this call.
    fn send(&mut self, octets: &[u8], to: Peer) -> Result<(), PortFault>
        requires { Peer.can_send (numbers self.old) }
        ensures numbers { Peer.has_sent to result (numbers self.old) (numbers self.new) }
        ensures contents { contents self.new ≡ contents self.old }
        ensures telling { tells self.new ≡ true → tells self.old ≡ true }
        ensures taken { tells self.new ≡ true → taken self.new ≡ taken self.old }
        ensures sent { tells self.new ≡ true →
            sent self.new ≡ sent self.old ++ datagram_of to octets.now ∷ [] }
        ensures room { tells self.new ≡ true → room self.new ≡ room self.old }
        ensures down { tells self.new ≡ true → is_down self.new ≡ is_down self.old };
}

/// The numbers that a port keeps of its own calls.
///
/// A port has one of these, passes the results of its calls to `note_receive` and `note_send`, and
/// gives it as its `numbers`.
#[derive(Clone, Copy)]
pub struct Numbers {
    /// The calls of `receive`.
    pub receives: u64,
    /// The calls of `receive` that failed.
    pub failed_receives: u64,
    /// The calls of `send`.
    pub sends: u64,
    /// The calls of `send` that failed.
    pub failed_sends: u64,
    /// The calls of `send` to another source than that of the datagram received last.
    pub astray: u64,
    /// The source of the datagram received last.
    pub last: Option<Source>,
}

impl Numbers {
    /// The numbers of a port that has not been called.
    pub fn new() -> Numbers
        ensures { result ≡ no_numbers }
    {
        Numbers {
            receives: 0,
            failed_receives: 0,
            sends: 0,
            failed_sends: 0,
            astray: 0,
            last: None,
        }
    }

    /// Counts a call of `receive` with this result.
    pub fn note_receive(&mut self, received: &Result<Option<(usize, Source)>, PortFault>)
        requires { CanReceive 1 self.old }
        ensures { self.new ≡ after_receive received.now self.old }
    {
        self.receives += 1;
        match received {
            Ok(Some((_, source))) => self.last = Some(*source),
            Ok(None) => {}
            Err(_) => self.failed_receives += 1,
        }
    }

    /// Counts a call of `send` to this source, with this result.
    pub fn note_send(&mut self, to: Source, sent: &Result<(), PortFault>)
        requires { CanSend 1 self.old }
        ensures { self.new ≡ after_send to sent.now self.old }
    {
        self.sends += 1;
        if sent.is_err() {
            self.failed_sends += 1;
        }
        if self.last != Some(to) {
            self.astray += 1;
        }
    }
}
