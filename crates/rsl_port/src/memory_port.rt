ghost use Rattle.std.specs.Prelude.{◌≡◌, ◌≤◌, ◌++◌, ◌∷◌, [], IfOk, IfSome, length, true};
ghost use Rattle.rsl_port.specs.Told.{datagram_of, no_numbers, taken_by};

use crate::address::Address;
use crate::datagram_port::{Datagram, DatagramPort, Numbers, PortFault};
use rsl_event::Source;
use rsl_wire::Octets;
use std::alloc::Global;

/// The result of a call of `receive` of a port in memory.
#[derive(Drop)]
pub enum Coming<Peer = Source> {
    /// This datagram.
    Datagram(Datagram<Peer>),
    /// No datagram came in time.
    Nothing,
    /// The call fails.
    Fault,
}

/// A port in memory, for tests: it gives what it was made with, one after the other, and then
/// nothing, and keeps what it gave and what it was asked to send.
///
/// It tells its datagrams, unless the memory to keep one was refused.
#[derive(Drop)]
pub struct MemoryPort<Peer = Source> {
    alloc: Global,
    coming: Vec<Coming<Peer>>,
    next: usize,
    failing: Vec<u64>,
    sends: u64,
    taken: Vec<Datagram<Peer>>,
    sent: Vec<Datagram<Peer>>,
    telling: bool,
    room: usize,
    is_down: bool,
    numbers: Numbers,
}

impl<Peer: Address> MemoryPort<Peer> {
    /// A port to which this comes. The sends with the numbers `failing`, counted from 0, fail.
    pub fn new(alloc: Global, coming: Vec<Coming<Peer>>, failing: Vec<u64>) -> MemoryPort<Peer>
        ensures coming { result.coming ≡ coming }
        ensures next { result.next ≡ 0 }
        ensures failing { result.failing ≡ failing }
        ensures numbers { result.numbers ≡ no_numbers }
        ensures tells { result.telling ≡ true }
        ensures taken { result.taken.items ≡ [] }
        ensures sent { result.sent.items ≡ [] }
    {
        MemoryPort {
            alloc,
            coming,
            next: 0,
            failing,
            sends: 0,
            taken: Vec::new(alloc),
            sent: Vec::new(alloc),
            telling: true,
            room: usize::MAX,
            is_down: false,
            numbers: Numbers::new(),
        }
    }

    /// The datagrams that it gave.
    pub fn taken(&self) -> &[Datagram<Peer>]
        ensures { result.now ≡ self.now.taken.items }
    {
        self.taken.as_slice()
    }

    /// The datagrams that it was asked to send, including those that it failed to send.
    pub fn sent(&self) -> &[Datagram<Peer>]
        ensures { result.now ≡ self.now.sent.items }
    {
        self.sent.as_slice()
    }

    /// Whether it kept all that it gave and was asked to send.
    pub fn is_telling(&self) -> bool
        ensures { result ≡ self.now.telling }
    {
        self.telling
    }

    /// The least room, in octets, of any `receive`.
    pub fn room(&self) -> usize
        ensures { result ≡ self.now.room }
    {
        self.room
    }

    /// The counts of its calls.
    pub fn numbers(&self) -> Numbers
        ensures { result ≡ self.now.numbers }
    {
        self.numbers
    }

    /// Gives what comes next.
    fn take(&mut self, buffer: &mut [u8]) -> Result<Option<(usize, Peer)>, PortFault>
        ensures within { IfOk result (λ received. IfSome received (λ found.
            found.0 ≤ length buffer.new)) }
        ensures numbers { self.new.numbers ≡ self.old.numbers }
        ensures telling { self.new.telling ≡ true → self.old.telling ≡ true }
        ensures taken { self.new.telling ≡ true →
            self.new.taken.items ≡ self.old.taken.items ++ taken_by result buffer.new }
        ensures sent { self.new.sent ≡ self.old.sent }
        ensures room { self.new.room ≡ self.old.room }
    {
        let MemoryPort {
            alloc,
            coming,
            next,
            taken,
            telling,
            ..
        } = self;
        let Some(found) = coming.get(*next) else {
            return Ok(None);
        };
        *next += 1;
        match found {
            Coming::Nothing => Ok(None),
            Coming::Fault => Err(PortFault),
            Coming::Datagram(datagram) => {
                let octets = datagram.octets.as_slice();
                let len = octets.len().min(buffer.len());
                buffer[..len].copy_from_slice(&octets[..len]);
                keep(*alloc, taken, telling, datagram.peer, &buffer[..len]);
                Ok(Some((len, datagram.peer)))
            }
        }
    }
}

/// Keeps a datagram, if those before it were kept and memory is not refused.
fn keep<Peer: Address>(
    alloc: Global,
    kept: &mut Vec<Datagram<Peer>>,
    telling: &mut bool,
    peer: Peer,
    octets: &[u8],
)
    ensures telling { telling.new ≡ true → telling.old ≡ true }
    ensures kept { telling.new ≡ true →
        kept.new.items ≡ kept.old.items ++ datagram_of peer octets.now ∷ [] }
{
    let Ok(octets) = Octets::from_slice(alloc, octets) else {
        *telling = false;
        return;
    };
    if kept.push(Datagram { peer, octets }).is_err() {
        *telling = false;
    }
}

impl<Peer: Address> DatagramPort<Peer> for MemoryPort<Peer> {
    ghost numbers = { λ port. port.numbers };

    ghost tells = { λ port. port.telling };

    ghost taken = { λ port. port.taken.items };

    ghost sent = { λ port. port.sent.items };

    ghost room = { λ port. port.room };

    ghost is_down = { λ port. port.is_down };

    fn receive(&mut self, buffer: &mut [u8]) -> Result<Option<(usize, Peer)>, PortFault> {
        self.room = self.room.min(buffer.len());
        let received = self.take(buffer);
        self.is_down = received.is_err();
        Peer::note_receive(&mut self.numbers, &received);
        received
    }

    fn send(&mut self, octets: &[u8], to: Peer) -> Result<(), PortFault> {
        let MemoryPort {
            alloc,
            failing,
            sends,
            sent,
            telling,
            numbers,
            ..
        } = self;
        let tried = if failing.contains(sends) {
            Err(PortFault)
        } else {
            Ok(())
        };
        *sends = sends.saturating_add(1);
        keep(*alloc, sent, telling, to, octets);
        to.note_send(numbers, &tried);
        tried
    }
}
