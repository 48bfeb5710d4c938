ghost use Rattle.std.specs.Prelude.{length};
ghost use Rattle.rld_look.specs.Backlog.{IsOfBacklogs};

use crate::backlog::{Backlog, Taken};
use crate::lately::Lately;
use crate::refusal::{Refusal, Refused, is_refusal};
use rld_counts::Fate;
use rsl_wire::NoMemory;
use std::alloc::{AllocError, Global};
use std::sync::{Mutex, Wait};

/// The refusals of a server: what each of its receivers notes, each under a lock of its own, and
/// the last ones, for a look. One worker takes what waits and writes the lines. No lock is held
/// while a line is written, and no receiver waits for another.
#[derive(Drop)]
pub struct Refusals {
    backlogs: Vec<Mutex<Backlog>>,
    lately: Mutex<Lately>,
}

impl Refusals {
    /// The refusals of `receivers` receivers, empty at first. It fails only if memory is refused.
    pub fn new(alloc: Global, receivers: usize) -> Result<Refusals, AllocError> {
        let mut backlogs = Vec::new(alloc);
        for _ in 0..receivers {
            backlogs.push(Mutex::new(Backlog::new(alloc)))?;
        }
        Ok(Refusals {
            backlogs,
            lately: Mutex::new(Lately::new(alloc)?),
        })
    }

    /// Leaves out a datagram that ended so at this receiver if the most refusals of its cause are
    /// waiting there, and gives whether it has. A flood of refusals costs a receiver no more.
    pub fn leave_out<R: Wait>(&self, rt: &R, receiver: usize, fate: Fate) -> bool {
        match self.backlogs.as_slice().get(receiver) {
            Some(backlog) => backlog.lock(rt).leave_out(fate),
            None => false,
        }
    }

    /// Notes how a datagram ended at this receiver, if it was refused: it waits for its line, or is
    /// counted as left out.
    pub fn note<R: Wait>(&self, rt: &R, alloc: Global, receiver: usize, refused: &Refused<'_>) {
        if !is_refusal(refused.fate) {
            return;
        }
        if let Some(backlog) = self.backlogs.as_slice().get(receiver) {
            let _ = backlog.lock(rt).note(alloc, refused);
        }
    }

    /// Takes what waits at all receivers, at most `MOST_LINES` of each cause, and the counts of
    /// what was left out since the last call. Those of one receiver are together, oldest first.
    pub fn take<R: Wait>(&self, rt: &R, alloc: Global) -> Taken
        ensures { IsOfBacklogs (length self.now.backlogs.items)
            (record { waiting = result.waited.items; left_out = result.left_out }) }
    {
        let mut all = Backlog::new(alloc);
        for backlog in self.backlogs.as_slice() {
            all.join(take_at(rt, alloc, backlog));
        }
        all.take(alloc)
    }

    /// Keeps a refusal whose line is written, for a look.
    pub fn keep<R: Wait>(&self, rt: &R, refusal: Refusal) {
        self.lately.lock(rt).push(refusal);
    }

    /// The last refusals kept, at most 64, oldest first. It fails only if memory is refused.
    pub fn lately<R: Wait>(&self, rt: &R, alloc: Global) -> Result<Vec<Refusal>, NoMemory> {
        self.lately.lock(rt).copies(alloc)
    }
}

/// Takes what waits at a receiver, and its counts.
fn take_at<R: Wait>(rt: &R, alloc: Global, backlog: &Mutex<Backlog>) -> Taken {
    backlog.lock(rt).take(alloc)
}
