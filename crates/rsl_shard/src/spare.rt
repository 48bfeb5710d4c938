ghost use Rattle.std.specs.Prelude.{◌≡◌, ℕ, ◌≤◌, IsOk, OnErr, OnOk, [], vec_capacity, vec_len};

use crate::line::Line;
use rsl_wire::NoMemory;
use std::alloc::Global;
use std::marker::Model;
use std::mem::replace;

/// The number of lines in a chunk of a journal.
const CHUNK: usize = 1024;

/// Room for lines of a journal, allocated before the step that needs it.
///
/// A contract sees the number of lines for which there is room.
#[derive(Drop)]
pub struct Spare {
    lines: Vec<Line>,
}

impl Model for Spare {
    ghost use Rattle.std.specs.Prelude.{◌≡◌, ℕ, vec_capacity, vec_len};

    ghost Value = { ℕ };

    ghost view = { λ spare. vec_capacity spare.lines };

    ghost invariant = { λ spare. vec_len spare.lines ≡ 0 };
}

impl Spare {
    /// No room yet.
    pub fn new(alloc: Global) -> Spare
        ensures { result ≡ 0 }
    {
        Spare {
            lines: Vec::new(alloc),
        }
    }

    /// Makes room for 1,024 lines, unless there is. It fails only if memory is refused, and then
    /// nothing has changed.
    pub fn fill(&mut self) -> Result<(), NoMemory>
        ensures room { OnOk result (1024 ≤ self.new) }
        ensures kept { self.old ≤ self.new }
        ensures filled { 1024 ≤ self.old → IsOk result }
        ensures err { OnErr result (self.new ≡ self.old) }
    {
        self.lines.reserve(CHUNK)?;
        Ok(())
    }

    /// Moves the room out.
    pub(crate) fn take(&mut self, alloc: Global) -> Vec<Line>
        ensures items { result.items ≡ [] }
        ensures room { vec_capacity result ≡ self.old }
    {
        replace(&mut self.lines, Vec::new(alloc))
    }
}
