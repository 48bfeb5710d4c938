ghost use Rattle.std.specs.Prelude.{◌≡◌, ◌≤◌, min, IfErr, IfOk, Err, true, [], ◌∷◌, ◌++◌, length, vec_capacity};
ghost use Rattle.rsl_service.specs.Counted.{AddsUp, AreCounted, IfCounted, failed_in};
ghost use Rattle.rsl_service.specs.Served.{HasServed, state_of};
ghost use Rattle.rsl_port.specs.Told.{CanReceive, CanSend, after_send, datagram_of};
ghost use Rattle.rsl_service.specs.Turned.{HasAnswered, HasCalled, HasTurned, IsUnanswered};
ghost use Rattle.rsl_service.specs.declared.receiver.ReceiveFault.TheVariants as faults;

use crate::counts::{Counts, Turn};
use crate::{Gate, Pass, Service, Tally};
use rsl_event::{Dropped, Port, Source};
use rsl_port::{Clock, DatagramPort, PortFault};
use rsl_wire::MAX_LEN;
use std::alloc::Global;
use std::sync::Wait;

/// Why a receiver ended before its last turn.
#[derive(Clone, Copy)]
pub enum ReceiveFault {
    /// The port's `receive` failed. The counts include that turn.
    Down(Counts),
    /// Memory for the buffer was refused. Nothing was received.
    NoMemory,
}

/// Receives datagrams from a port, and sends the service's answers to their sources, for `turns`
/// turns (RFC 2865 section 3, RFC 2866 section 3).
///
/// Each turn calls the port's `receive` once, with room for 4,096 octets. A datagram that is not
/// dropped makes its moves in the service at the clock's moment, with receipts in the pass, and
/// then its reply is sent. If the send fails, the moves stand, and the next turn follows; so it
/// does if memory is refused.
///
/// `Down` comes if the port's `receive` fails, with the counts so far, and `NoMemory` if the buffer
/// is refused; then nothing has changed. The port's counts of its calls have to stay under 2^64
/// with one more of each kind for every turn.
#[tactic(auto, using(crate::proofs::Calling::calling))]
pub fn receive<
    L0: Tally,
    L1: Tally,
    L2: Tally,
    L3: Tally,
    G: Gate,
    P: DatagramPort<Source>,
    C: Clock,
    R: Wait,
>(
    rt: &R,
    alloc: Global,
    service: &Service<L0, L1, L2, L3, G>,
    pass: &mut Pass<L0, L1, L2, L3>,
    port: Port,
    datagrams: &mut P,
    clock: &mut C,
    turns: u64,
) -> Result<Counts, ReceiveFault>
    requires receives { CanReceive turns (P.numbers datagrams.old) }
    requires sends { CanSend turns (P.numbers datagrams.old) }
    ensures most { IfCounted result (λ counts. counts.turns ≤ turns) }
    ensures all { IfOk result (λ counts. counts.turns ≡ turns) }
    ensures sum { IfCounted result AddsUp }
    ensures calls { IfCounted result (λ counts. AreCounted (failed_in result) counts
        (P.numbers datagrams.old) (P.numbers datagrams.new)) }
    ensures served { P.tells datagrams.new ≡ true → IfCounted result (λ counts.
        HasServed service.now port counts
        (state_of (P.taken datagrams.old) pass.old.receipts (P.sent datagrams.old) (C.shown clock.old))
        (state_of (P.taken datagrams.new) pass.new.receipts (P.sent datagrams.new) (C.shown clock.new))) }
    ensures room { P.tells datagrams.new ≡ true →
        min (P.room datagrams.old) 4096 ≤ P.room datagrams.new }
    ensures unmade { result ≡ Err faults.NoMemory →
        (datagrams.new ≡ datagrams.old) × (pass.new ≡ pass.old) × (clock.new ≡ clock.old) }
{
    let mut buffer = match Vec::from_elem(alloc, 0u8, MAX_LEN) {
        Ok(buffer) => buffer,
        Err(_) => return Err(ReceiveFault::NoMemory),
    };
    let receiver = Receiver {
        rt,
        alloc,
        service,
        port,
    };
    let mut counts = Counts::new();
    for _ in 0..turns {
        let turn = receiver.turn(pass, datagrams, clock, &mut buffer);
        counts.count(turn);
        if turn.is_down() {
            return Err(ReceiveFault::Down(counts));
        }
    }
    Ok(counts)
}

/// A receiver's service, and the port of the service that its datagrams come to.
#[derive(Drop)]
struct Receiver<'a, L0: Tally, L1: Tally, L2: Tally, L3: Tally, G: Gate, R> {
    rt: &'a R,
    alloc: Global,
    service: &'a Service<L0, L1, L2, L3, G>,
    port: Port,
}

/// Why a datagram has no answer.
#[derive(Clone, Copy)]
pub(crate) enum Unanswered {
    /// It has no meaning.
    Dropped,
    /// It has one, but memory was refused or a shard is spent.
    Refused,
}

impl<L0: Tally, L1: Tally, L2: Tally, L3: Tally, G: Gate, R: Wait> Receiver<
    '_,
    L0,
    L1,
    L2,
    L3,
    G,
    R,
> {
    /// Takes a turn, with a buffer for the datagram.
    fn turn<P: DatagramPort<Source>, C: Clock>(
        &self,
        pass: &mut Pass<L0, L1, L2, L3>,
        datagrams: &mut P,
        clock: &mut C,
        buffer: &mut [u8],
    ) -> Turn
        requires receives { CanReceive 1 (P.numbers datagrams.old) }
        requires sends { CanSend 1 (P.numbers datagrams.old) }
        ensures calls { HasCalled result (P.numbers datagrams.old) (P.numbers datagrams.new) }
        ensures telling { P.tells datagrams.new ≡ true → P.tells datagrams.old ≡ true }
        ensures turned { P.tells datagrams.new ≡ true → HasTurned self.now.service.now self.now.port result
            (state_of (P.taken datagrams.old) pass.old.receipts (P.sent datagrams.old) (C.shown clock.old))
            (state_of (P.taken datagrams.new) pass.new.receipts (P.sent datagrams.new) (C.shown clock.new)) }
        ensures room { P.tells datagrams.new ≡ true →
            P.room datagrams.new ≡ min (P.room datagrams.old) (length buffer.old) }
    {
        let (len, source) = match datagrams.receive(buffer) {
            Ok(Some(received)) => received,
            Ok(None) => return Turn::Nothing,
            Err(PortFault) => return Turn::Down,
        };
        match self.answer(pass, clock, source, &buffer[..len]) {
            Ok(octets) => match send_back(pass, datagrams, octets, source) {
                Ok(()) => Turn::Answered,
                Err(PortFault) => Turn::Unsent,
            },
            Err(Unanswered::Dropped) => Turn::Dropped,
            Err(Unanswered::Refused) => Turn::Refused,
        }
    }

    /// Makes the moves of a datagram in the service, and gives the octets that answer it.
    #[tactic(auto, using(crate::proofs::Refusing::refusing))]
    fn answer<C: Clock>(
        &self,
        pass: &mut Pass<L0, L1, L2, L3>,
        clock: &mut C,
        source: Source,
        datagram: &[u8],
    ) -> Result<Vec<u8>, Unanswered>
        ensures answered { IfOk result (λ octets. HasAnswered self.now.service.now self.now.port
            (datagram_of source datagram.now) (C.shown clock.old) (C.shown clock.new)
            pass.old.receipts pass.new.receipts (datagram_of source octets.items)) }
        ensures unanswered { IfErr result (λ why. IsUnanswered self.now.service.now self.now.port why
            (datagram_of source datagram.now) (C.shown clock.old) (C.shown clock.new)
            pass.old.receipts pass.new.receipts) }
    {
        let prepared = match self
            .service
            .prepare(self.alloc, self.port, source, datagram)
        {
            Ok(prepared) => prepared,
            Err(Dropped::NoMemory) => return Err(Unanswered::Refused),
            Err(_) => return Err(Unanswered::Dropped),
        };
        let moment = clock.now();
        match self
            .service
            .apply(self.rt, self.alloc, pass, moment, prepared)
        {
            Ok(answered) => Ok(answered.octets),
            Err(_) => Err(Unanswered::Refused),
        }
    }
}

/// Sends an answer to the source of its datagram, and gives its buffer back to the pass, whether or
/// not it could be sent.
fn send_back<L0: Tally, L1: Tally, L2: Tally, L3: Tally, P: DatagramPort<Source>>(
    pass: &mut Pass<L0, L1, L2, L3>,
    datagrams: &mut P,
    octets: Vec<u8>,
    source: Source,
) -> Result<(), PortFault>
    requires sends { CanSend 1 (P.numbers datagrams.old) }
    ensures pass { pass.new.receipts ≡ pass.old.receipts }
    ensures taken_back { pass.new.room ≡ vec_capacity octets }
    ensures numbers { P.numbers datagrams.new ≡
        after_send source result (P.numbers datagrams.old) }
    ensures telling { P.tells datagrams.new ≡ true → P.tells datagrams.old ≡ true }
    ensures taken { P.tells datagrams.new ≡ true →
        P.taken datagrams.new ≡ P.taken datagrams.old }
    ensures room { P.tells datagrams.new ≡ true →
        P.room datagrams.new ≡ P.room datagrams.old }
    ensures sent { P.tells datagrams.new ≡ true → P.sent datagrams.new ≡
        P.sent datagrams.old ++ datagram_of source octets.items ∷ [] }
{
    let sent = datagrams.send(octets.as_slice(), source);
    pass.take_back(octets);
    sent
}
