ghost use Rattle.std.specs.Prelude.{◌≡◌, ◌≤◌, IfOk, [], length, vec_capacity};

use crate::journal::Journal;
use crate::line::Line;
use crate::segment::Segment;
use rsl_book::Book;
use rsl_wire::NoMemory;
use std::alloc::Global;
use std::marker::Model;

/// The memory that a cut of a shard needs beside the copies of its books, allocated before it: room
/// for the lines of its journal, and an empty journal.
///
/// A contract sees the number of lines for which there is room.
#[derive(Drop)]
pub struct CutRoom {
    pub(crate) lines: Vec<Line>,
    pub(crate) journal: Journal,
}

impl Model for CutRoom {
    ghost use Rattle.std.specs.Prelude.{◌≡◌, ℕ, [], vec_capacity};

    ghost Value = { ℕ };

    ghost view = { λ room. vec_capacity room.lines };

    ghost invariant = { λ room. (room.lines.items ≡ []) × (room.journal.lines ≡ []) };
}

impl CutRoom {
    /// Room for `lines` lines. It fails only if memory is refused.
    pub fn new(alloc: Global, lines: usize) -> Result<CutRoom, NoMemory>
        ensures { IfOk result (λ room. lines ≤ room) }
    {
        Ok(CutRoom {
            lines: Vec::with_capacity(alloc, lines)?,
            journal: Journal::new(alloc)?,
        })
    }
}

/// A segment of a shard's journal, handed out in the chunks in which the shard kept it, with room
/// to join them.
///
/// A contract sees what the joined segment has.
#[derive(Drop)]
pub struct LooseSegment {
    pub(crate) shard: u32,
    pub(crate) first: u64,
    pub(crate) opening: Vec<Book>,
    pub(crate) lines: Journal,
    pub(crate) room: Vec<Line>,
}

impl Model for LooseSegment {
    ghost use Rattle.std.specs.Prelude.{◌≡◌, ◌≤◌, [], length, vec_capacity};
    ghost use Rattle.rsl_shard.specs.LooseSeen.{LooseSeen};

    ghost Value = { LooseSeen };

    ghost view = { λ loose. record {
      shard = loose.shard;
      first = loose.first;
      opening = loose.opening.items;
      lines = loose.lines.lines;
    } };

    ghost invariant = { λ loose.
        (loose.room.items ≡ []) × (length loose.lines.lines ≤ vec_capacity loose.room) };
}

impl LooseSegment {
    /// The segment. Its lines are moved together without allocating.
    pub fn join(self) -> Segment
        ensures shard { result.shard ≡ self.shard }
        ensures first { result.first ≡ self.first }
        ensures opening { result.opening.items ≡ self.opening }
        ensures lines { result.lines.items ≡ self.lines }
    {
        let LooseSegment {
            shard,
            first,
            opening,
            mut lines,
            room,
        } = self;
        Segment {
            shard,
            first,
            opening,
            lines: lines.hand_out(room),
        }
    }
}
