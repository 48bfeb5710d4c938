ghost use Rattle.std.specs.Prelude.{◌≡◌, ◌∷◌, ◌++◌, [], IfOk};
ghost use Rattle.circular_buffer.specs.Buffer.{keep_last};

use crate::refusal::Refusal;
use circular_buffer::HeapCircularBuffer;
use rsl_wire::NoMemory;
use std::alloc::{AllocError, Global};
use std::marker::Model;

/// The most refusals kept for a look.
pub const MOST_LATELY: usize = 64;

const _: () = prove!(MOST_LATELY == 64);

/// The last refusals. A contract sees their list, oldest first.
#[derive(Drop)]
pub(crate) struct Lately {
    refusals: HeapCircularBuffer<Refusal>,
}

impl Model for Lately {
    ghost use Rattle.std.specs.Prelude.{◌≡◌, List};
    ghost use Rattle.rld_look.specs.declared.refusal.Refusal.{Refusal};

    ghost Value = { List Refusal };

    ghost view = { λ it. it.refusals.items };

    ghost invariant = { λ it. it.refusals.capacity ≡ 64 };
}

impl Lately {
    /// No refusals, with room for the most that are kept. It fails only if memory is refused.
    pub(crate) fn new(alloc: Global) -> Result<Lately, AllocError>
        ensures { IfOk result (λ lately. lately ≡ []) }
    {
        Ok(Lately {
            refusals: HeapCircularBuffer::with_capacity(alloc, MOST_LATELY)?,
        })
    }

    /// Adds a refusal, in place of the oldest if there are `MOST_LATELY`.
    pub(crate) fn push(&mut self, refusal: Refusal)
        ensures { self.new ≡ keep_last MOST_LATELY (self.old ++ refusal ∷ []) }
    {
        let _oldest = self.refusals.push_back(refusal);
    }

    /// Copies of the last refusals, oldest first. It fails only if memory is refused.
    pub(crate) fn copies(&self, alloc: Global) -> Result<Vec<Refusal>, NoMemory>
        ensures { IfOk result (λ copies. copies.items ≡ self.now) }
    {
        let (older, newer) = self.refusals.as_slices();
        let mut copies = Vec::new(alloc);
        push_copies(alloc, &mut copies, older)?;
        push_copies(alloc, &mut copies, newer)?;
        Ok(copies)
    }
}

/// Adds copies of refusals. It fails only if memory is refused.
fn push_copies(
    alloc: Global,
    copies: &mut Vec<Refusal>,
    refusals: &[Refusal],
) -> Result<(), NoMemory>
    ensures { IfOk result (λ _. copies.new.items ≡ copies.old.items ++ refusals.now) }
{
    for refusal in refusals {
        copies.push(refusal.try_copy(alloc)?)?;
    }
    Ok(())
}
