ghost use Rattle.std.specs.Prelude.{◌≡◌, All, IfOk, IfSome, Some as some, length, map, slice_get};
ghost use Rattle.std.specs.List.{range_with_len};

use crate::cell::Cell;
use crate::client_counts::ClientCounts;
use crate::counted::Counted;
use crate::fate::Fate;
use crate::gate::Gate;
use crate::reading::Reading;
use std::alloc::{AllocError, Global};
use std::sync::{Mutex, Wait};

/// The counts of a receiver, under a lock.
#[derive(Drop)]
pub struct Place {
    pub(crate) number: usize,
    pub(crate) gate: Gate,
    cell: Mutex<Cell>,
}

impl Place {
    /// Where the receiver takes what it counts.
    pub fn gate(&self) -> Gate
        ensures { result ≡ self.now.gate }
    {
        self.gate
    }

    /// Counts the datagrams of a turn that took `micros` microseconds.
    pub fn note_turn<R: Wait>(&self, rt: &R, turn: &[Counted], micros: Option<u64>) {
        self.cell.lock(rt).note_turn(turn, micros);
    }

    /// Counts requests that were refused unread: `number` of them, with this fate.
    pub fn note_unread<R: Wait>(&self, rt: &R, fate: Fate, number: u64) {
        self.cell.lock(rt).note_unread(fate, number);
    }
}

/// The counts of all receivers of a server, each under a lock of its own. A look waits for one
/// receiver at a time, and no longer than it takes to count the datagrams of a turn.
#[derive(Drop)]
pub struct Board {
    pub(crate) places: Vec<Place>,
}

impl Board {
    /// A place for each receiver, one for each of these gates, with counts of 0 for each of
    /// `clients` clients. It fails only if memory is refused.
    #[tactic(auto, using(crate::proofs::Places::next_number))]
    pub fn new(alloc: Global, clients: u32, gates: &[Gate]) -> Result<Board, AllocError>
        ensures gates { IfOk result (λ board.
            map (λ place. place.gate) board.places.items ≡ gates.now) }
        ensures numbers { IfOk result (λ board. map (λ place. place.number) board.places.items
            ≡ range_with_len 0 (length gates.now)) }
    {
        let mut places = Vec::new(alloc);
        for gate in gates {
            let number = places.len();
            let cell = Cell::new(alloc, clients)?;
            places.push(Place {
                number,
                gate: *gate,
                cell: Mutex::new(cell),
            })?;
        }
        Ok(Board { places })
    }

    /// The place of the receiver with this number, if there is one.
    pub fn place(&self, receiver: usize) -> Option<&Place>
        ensures { IfSome result (λ place. slice_get self.now.places.items receiver ≡ some place.now) }
    {
        self.places.as_slice().get(receiver)
    }

    /// For each receiver counts of 0 for each of `clients` clients, for `renew`. It fails only if
    /// memory is refused.
    pub fn counts_for(&self, alloc: Global, clients: u32) -> Result<Vec<ClientCounts>, AllocError>
        ensures len { IfOk result (λ each. length each.items ≡ length self.now.places.items) }
        ensures clients { IfOk result (λ each. All (λ one. one ≡ clients) each.items) }
    {
        new_counts(alloc, clients, self.places.len())
    }

    /// Makes each receiver begin to count by client again, in its counts of `each`, since client
    /// numbers mean other clients from now on. The total counts and the times go on.
    ///
    /// The receivers begin one after the other. There must be no look in between: if there are as
    /// many clients as before, it would add the counts of former and new clients by their numbers.
    pub fn renew<R: Wait>(&self, rt: &R, each: Vec<ClientCounts>)
        requires { length each.items ≡ length self.now.places.items }
    {
        for (place, counts) in self.places.as_slice().iter().zip(each) {
            place.renew(rt, counts);
        }
    }

    /// Looks at each receiver: its counts so far, in total, for each of `clients` clients, and of
    /// times. It fails only if memory is refused.
    pub fn read<R: Wait>(
        &self,
        rt: &R,
        alloc: Global,
        clients: u32,
    ) -> Result<Vec<Reading>, AllocError>
        ensures numbers { IfOk result (λ readings. map (λ reading. reading.number) readings.items
            ≡ map (λ place. place.number) self.now.places.items) }
        ensures gates { IfOk result (λ readings. map (λ reading. reading.gate) readings.items
            ≡ map (λ place. place.gate) self.now.places.items) }
        ensures clients { IfOk result (λ readings.
            All (λ reading. length reading.cell.clients ≡ clients) readings.items) }
    {
        let mut readings = Vec::new(alloc);
        for place in self.places.as_slice() {
            readings.push(place.read(rt, alloc, clients)?)?;
        }
        Ok(readings)
    }
}

impl Place {
    /// Begins to count by client again.
    fn renew<R: Wait>(&self, rt: &R, clients: ClientCounts) {
        self.cell.lock(rt).renew(clients);
    }

    /// The counts of the receiver so far. If they are for another number of clients, the counts of
    /// each client are 0.
    fn read<R: Wait>(&self, rt: &R, alloc: Global, clients: u32) -> Result<Reading, AllocError>
        ensures number { IfOk result (λ reading. reading.number ≡ self.now.number) }
        ensures gate { IfOk result (λ reading. reading.gate ≡ self.now.gate) }
        ensures clients { IfOk result (λ reading. length reading.cell.clients ≡ clients) }
    {
        let room = Cell::new(alloc, clients)?;
        let reading = Reading::of(self.number, self.gate, room, &*self.cell.lock(rt));
        Ok(reading)
    }
}

/// For each of `receivers` receivers counts of 0 for each of `clients` clients.
fn new_counts(
    alloc: Global,
    clients: u32,
    receivers: usize,
) -> Result<Vec<ClientCounts>, AllocError>
    ensures len { IfOk result (λ each. length each.items ≡ receivers) }
    ensures clients { IfOk result (λ each. All (λ one. one ≡ clients) each.items) }
{
    let mut each = Vec::new(alloc);
    for _ in 0..receivers {
        each.push(ClientCounts::new(alloc, clients)?)?;
    }
    Ok(each)
}
