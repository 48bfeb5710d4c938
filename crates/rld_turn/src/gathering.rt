//! The first half of a turn: what waits at a port is taken.

ghost use Rattle.std.specs.Prelude.{◌≡◌, ◌≤◌, min, length, true, is_err};
ghost use Rattle.rsl_event.specs.Prepared.{HasAccount, HasOwnAct};
ghost use Rattle.rsl_port.specs.Told.{datagram_of};
ghost use Rattle.rld_turn.specs.Entered.{HasAdded, HasGathered, HasPushed, IsEntered};
ghost use Rattle.rld_turn.specs.Moves.{in_log};
ghost use Rattle.rld_turn.specs.Present.{service_of};

use crate::present::Present;
use crate::receiver::{MAX_BATCH, Receiver};
use crate::request::{Entry, Request};
use crate::room::Rooms;
use rsl_accounts::Config;
use rsl_event::{Dropped, Meaning, Port, prepare_in_detail};
use rsl_port::{DatagramPort, PortFault};
use rsl_shard::{Move, Moves};
use std::net::SocketAddr;

/// What was taken in a turn.
#[derive(Drop)]
pub struct Gathered {
    /// The moves of its datagrams, in the order in which they were taken.
    pub moves: Vec<Move>,
    /// The fault of the port, if it failed to give a datagram.
    pub port: Result<(), PortFault>,
}

/// A datagram that came from a peer to a port at a moment.
#[derive(Clone, Copy)]
struct Arrival<'d> {
    port: Port,
    moment: u64,
    peer: SocketAddr,
    datagram: &'d [u8],
}

impl Receiver {
    /// Takes what waits at a port, without waiting for more: at most 64 datagrams of up to 4,096 octets. They wait
    /// for their answers, and what waited before is forgotten. Gives the moves of those that are neither dropped nor
    /// refused memory, each at this moment.
    pub fn gather<P: DatagramPort<SocketAddr>>(
        &mut self,
        present: &Present<'_>,
        moment: u64,
        datagrams: &mut P,
    ) -> Gathered
        ensures same { self.new.port ≡ self.old.port }
        ensures few { length self.new.queue.items ≤ 64 }
        ensures contents { P.contents datagrams.new ≡ P.contents datagrams.old }
        ensures telling { P.tells datagrams.new ≡ true → P.tells datagrams.old ≡ true }
        ensures gathered { HasGathered (service_of present.now) self.old.port moment
            (P.tells datagrams.new ≡ true) (P.taken datagrams.old) (P.taken datagrams.new)
            self.new.queue.items result.moves.items }
        ensures sent { P.tells datagrams.new ≡ true → P.sent datagrams.new ≡ P.sent datagrams.old }
        ensures room { P.tells datagrams.new ≡ true →
            min (P.room datagrams.old) 4096 ≤ P.room datagrams.new }
        ensures down { P.tells datagrams.new ≡ true → P.is_down datagrams.new ≡ is_err result.port }
    {
        let Receiver {
            alloc,
            port,
            buffer,
            queue,
            rooms,
        } = self;
        let buffer = buffer.as_mut_slice();
        let mut moves = Vec::new(*alloc);
        queue.clear();
        for _ in 0..MAX_BATCH {
            match datagrams.receive(buffer) {
                Ok(Some((len, peer))) => {
                    let arrival = Arrival {
                        port: *port,
                        moment,
                        peer,
                        datagram: &buffer[..len],
                    };
                    let entry = present.enter(arrival, rooms, &mut moves);
                    queue.push_back_reserved(entry);
                }
                Ok(None) => break,
                Err(fault) => {
                    return Gathered {
                        moves,
                        port: Err(fault),
                    };
                }
            }
        }
        Gathered {
            moves,
            port: Ok(()),
        }
    }
}

impl Present<'_> {
    /// The entry of a datagram, whose move, if it has one, becomes the last of the batch. Room for
    /// its answer is allocated here.
    fn enter(&self, arrival: Arrival<'_>, rooms: &mut Rooms, batch: &mut Vec<Move>) -> Entry
        ensures { IsEntered (service_of self.now) arrival.entry.port arrival.entry.moment
            (datagram_of arrival.entry.peer arrival.entry.datagram.now) result
            batch.old.items batch.new.items }
    {
        let Arrival {
            port,
            moment,
            peer,
            datagram,
        } = arrival;
        let origin = self.origin(peer);
        let alloc = rooms.alloc;
        let detailed = match prepare_in_detail(
            alloc,
            self.config,
            self.boot,
            port,
            origin.source,
            datagram,
        ) {
            Ok(detailed) => detailed,
            Err(Dropped::NoMemory) => return Entry::Refused(origin),
            Err(cause) => return Entry::Dropped { origin, cause },
        };
        match Request::of(rooms.take(), origin, datagram, &detailed) {
            Ok(request) => add(
                self.config,
                moment,
                detailed.prepared.meaning,
                request,
                batch,
            ),
            Err(_) => Entry::Refused(origin),
        }
    }
}

/// Adds the move of a meaning to a batch, if it has one.
fn add(
    config: &Config,
    moment: u64,
    meaning: Meaning,
    request: Request,
    batch: &mut Vec<Move>,
) -> Entry
    requires account { HasAccount config.now meaning }
    requires act { HasOwnAct meaning }
    ensures { HasAdded config.now moment meaning request result batch.old.items batch.new.items }
{
    match logged(Moves::of(config, moment, meaning)) {
        Some(moved) => push(batch, moved, request),
        None => Entry::Bare(request),
    }
}

/// The one move that these make in the log.
fn logged(moves: Moves) -> Option<Move>
    ensures { result ≡ in_log moves }
{
    match moves {
        Moves::Nothing => None,
        Moves::One { moved, .. } => Some(moved),
        Moves::Each(moved) => Some(moved),
    }
}

/// Appends a move to a batch, unless memory is refused.
fn push(batch: &mut Vec<Move>, moved: Move, request: Request) -> Entry
    ensures { HasPushed moved request result batch.old.items batch.new.items }
{
    let place = batch.len();
    match batch.push(moved) {
        Ok(()) => Entry::Moved { request, place },
        Err(_) => Entry::Refused(request.origin),
    }
}
