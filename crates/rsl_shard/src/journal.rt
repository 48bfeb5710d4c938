ghost use Rattle.std.specs.Prelude.{
  ◌≡◌,
  ◌+◌,
  ◌^◌,
  ◌<◌,
  ◌≤◌,
  IfOk,
  OnOk,
  [],
  ◌∷◌,
  ◌++◌,
  length,
  vec_capacity,
  vec_items,
  vec_len,
};
ghost use Rattle.std.specs.List.{flat_map};

use crate::line::Line;
use crate::spare::Spare;
use rsl_wire::NoMemory;
use std::alloc::Global;
use std::marker::Model;
use std::mem::replace;

/// The number of chunks with room at first: a million lines.
const CHUNKS: usize = 1024;

/// The lines of a journal, in chunks, so that another line moves no earlier one.
///
/// A contract sees the lines, and the room in the last chunk.
#[derive(Drop)]
pub(crate) struct Journal {
    /// The full chunks.
    full: Vec<Vec<Line>>,
    /// The last chunk, which may have room.
    last: Vec<Line>,
    /// The number of lines in the full chunks.
    earlier: usize,
}

impl Model for Journal {
    ghost use Rattle.rsl_shard.specs.Journal.{JournalSeen};

    ghost Value = { JournalSeen };

    ghost use Rattle.rsl_shard.specs.JournalSeen.{journal_seen, IsCounted};

    ghost view = { journal_seen };

    ghost invariant = { IsCounted };
}

/// Appends a chunk's lines to a list that has room for them.
fn append_chunk(all: &mut Vec<Line>, chunk: &mut Vec<Line>)
    requires { vec_len all.old + vec_len chunk.old ≤ vec_capacity all.old }
    ensures items { all.new.items ≡ all.old.items ++ chunk.old.items }
    ensures emptied { chunk.new.items ≡ [] }
    ensures len { vec_len all.new ≡ vec_len all.old + vec_len chunk.old }
    ensures capacity { vec_capacity all.old ≤ vec_capacity all.new }
{
    match all.append(chunk) {
        Ok(()) => (),
        Err(_) => unreachable!(),
    }
}

/// Appends the lines of chunks, in their order, to a list that has room for them.
fn join(all: &mut Vec<Line>, chunks: &mut [Vec<Line>])
    requires { vec_len all.old + length (flat_map vec_items chunks.old) ≤ vec_capacity all.old }
    ensures items { all.new.items ≡ all.old.items ++ flat_map vec_items chunks.old }
    ensures capacity { vec_capacity all.old ≤ vec_capacity all.new }
{
    for at in 0..chunks.len() {
        append_chunk(all, &mut chunks[at]);
    }
}

impl Journal {
    /// No lines. It fails only if memory is refused.
    pub(crate) fn new(alloc: Global) -> Result<Journal, NoMemory>
        ensures { IfOk result (λ journal. journal.lines ≡ []) }
    {
        Ok(Journal {
            full: Vec::with_capacity(alloc, CHUNKS)?,
            last: Vec::new(alloc),
            earlier: 0,
        })
    }

    /// The number of lines.
    pub(crate) fn len(&self) -> usize
        requires { length self.now.lines < 2 ^ 64 }
        ensures { result ≡ length self.now.lines }
    {
        self.earlier + self.last.len()
    }

    /// Makes room for a line. If the last chunk is full, the spare room becomes the next one, or
    /// room is allocated if there is no spare. If memory is refused, the lines are as they were.
    #[inline(always)]
    pub(crate) fn make_room(&mut self, alloc: Global, spare: &mut Spare) -> Result<(), NoMemory>
        requires { length self.old.lines < 2 ^ 64 }
        ensures lines { self.new.lines ≡ self.old.lines }
        ensures room { OnOk result (0 < self.new.room) }
    {
        if self.last.len() == self.last.capacity() {
            self.full.reserve(1)?;
            spare.fill()?;
            self.earlier += self.last.len();
            let full = replace(&mut self.last, spare.take(alloc));
            if !full.is_empty() {
                self.full.push_reserved(full);
            }
        }
        Ok(())
    }

    /// Appends a line. There is room for it.
    #[inline(always)]
    pub(crate) fn push(&mut self, line: Line)
        requires { 0 < self.old.room }
        ensures { self.new.lines ≡ self.old.lines ++ line ∷ [] }
    {
        self.last.push_reserved(line);
    }

    /// Room for all the lines. It fails only if memory is refused.
    fn room_for_all(&self, alloc: Global) -> Result<Vec<Line>, NoMemory>
        requires { length self.now.lines < 2 ^ 64 }
        ensures empty { IfOk result (λ room. room.items ≡ []) }
        ensures room { IfOk result (λ room. length self.now.lines ≤ vec_capacity room) }
    {
        Ok(Vec::with_capacity(alloc, self.len())?)
    }

    /// Hands out the lines in `room`, which holds them all, and is empty afterwards.
    pub(crate) fn hand_out(&mut self, room: Vec<Line>) -> Vec<Line>
        requires empty { room.items ≡ [] }
        requires room { length self.old.lines ≤ vec_capacity room }
        ensures lines { result.items ≡ self.old.lines }
        ensures empty { self.new.lines ≡ [] }
    {
        let mut all = room;
        join(&mut all, &mut self.full);
        append_chunk(&mut all, &mut self.last);
        self.full.clear();
        self.earlier = 0;
        all
    }

    /// The lines as one list. It fails only if memory is refused.
    pub(crate) fn into_lines(self, alloc: Global) -> Result<Vec<Line>, NoMemory>
        requires { length self.lines < 2 ^ 64 }
        ensures { IfOk result (λ lines. lines.items ≡ self.lines) }
    {
        let mut journal = self;
        let room = journal.room_for_all(alloc)?;
        Ok(journal.hand_out(room))
    }
}
