//! Readings of receivers' counts, and their sums.

ghost use Rattle.std.specs.Prelude.{◌≡◌, ◌++◌, [], IfOk, List, length};
ghost use Rattle.rld_counts.specs.Cell.{HasCounted, for_clients};
ghost use Rattle.rld_counts.specs.Reading.{HaveCounted, all_of, counts_in, shown};
ghost use Rattle.rld_counts.specs.declared.counted.Counted.{Counted as OneCounted};
ghost use Rattle.rld_counts.specs.declared.reading.Reading.{Reading as OneReading};

use crate::cell::Cell;
use crate::counts::Counts;
use crate::gate::Gate;
use std::alloc::{AllocError, Global};

/// The counts of a receiver at a look, its number and its gate.
#[derive(Drop)]
pub struct Reading {
    number: usize,
    gate: Gate,
    cell: Cell,
}

impl Reading {
    /// A reading of the receiver with this number and gate, which has counted this. It is made in
    /// `room`, where nothing is counted yet, so it needs no memory. If that is for another number of
    /// clients, the counts of each client are 0.
    pub(crate) fn of(number: usize, gate: Gate, mut room: Cell, cell: &Cell) -> Reading
        requires { HasCounted [] room }
        ensures number { result.number ≡ number }
        ensures gate { result.gate ≡ gate }
        ensures counted { (had : List OneCounted) → HasCounted had cell.now →
            HasCounted (for_clients (length room.clients) cell.now had) result.cell }
        ensures clients { length result.cell.clients ≡ length room.clients }
    {
        room.add(cell);
        Reading {
            number,
            gate,
            cell: room,
        }
    }

    /// Adds its counts, if the receiver is of this gate.
    fn add_to(&self, gate: Gate, all: &mut Cell)
        ensures added { (before had : List OneCounted) →
            HasCounted before all.old → HasCounted had self.now.cell →
            HasCounted (before ++ shown gate (length all.old.clients) self.now had) all.new }
        ensures clients { length all.new.clients ≡ length all.old.clients }
    {
        if self.gate.is(gate) {
            all.add(&self.cell);
        }
    }
}

/// The sum of the counts of these receivers.
#[tactic(auto, using(crate::proofs::Readings::counts_steps))]
pub fn counts_of(readings: &[Reading]) -> Counts
    ensures { (had : OneReading → List OneCounted) → HaveCounted had readings.now →
        result ≡ counts_in had readings.now }
{
    let mut all = Counts::new();
    for reading in readings {
        all.add(&reading.cell.counts());
    }
    all
}

/// The sum of the counts of a gate's receivers: in total, for each of `clients` clients, and of
/// times. A receiver that counts for another number of clients is only in the total counts and the
/// times. It fails only if memory is refused.
#[tactic(auto, using(crate::proofs::Readings::cell_steps))]
pub fn cell_of(
    alloc: Global,
    readings: &[Reading],
    gate: Gate,
    clients: u32,
) -> Result<Cell, AllocError>
    ensures counted { IfOk result (λ cell. (had : OneReading → List OneCounted) →
        HaveCounted had readings.now → HasCounted (all_of gate clients had readings.now) cell) }
    ensures clients { IfOk result (λ cell. length cell.clients ≡ clients) }
{
    let mut all = Cell::new(alloc, clients)?;
    for reading in readings {
        reading.add_to(gate, &mut all);
    }
    Ok(all)
}
