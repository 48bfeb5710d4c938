//! Reading and opening a log.

ghost use Rattle.std.specs.Prelude.{◌≡◌, ◌+◌, ℕ, List, length, IfErr, IfOk, IsTrue, OnOk};
ghost use Rattle.rld_books.specs.Saved.{IsServerOf};
ghost use Rattle.rld_log.specs.Frames.{EndsAt, HasPayloads, frames};
ghost use Rattle.rld_log.specs.Log.{NoMore};
ghost use Rattle.rld_log.specs.Recording.{IsSettled};
ghost use Rattle.rld_store.specs.Premises.{Only};
ghost use Rattle.rld_log.specs.declared.log.Ending.{Ending as OneEnding};
ghost use Rattle.rld_store.specs.Generations.{counts_of, octets_of};
ghost use Rattle.rld_store.specs.Opening.{IsFoundIn, IsOfNoLog, IsThereIn, IsWhy, IsWhyNoFrames, LeavesAsItWas};

use crate::fault::StoreFault;
use crate::reading::{Reading, read_generation};
use rld_log::{Frames, Log, mend};
use rsl_accounts::Config;
use std::alloc::Global;

/// What a log gave.
#[derive(Drop)]
pub(crate) struct Restored {
    /// What its generation has.
    pub(crate) reading: Reading,
    /// The octets of its whole frames.
    pub(crate) whole: usize,
    /// Octets of the torn end that was cut off.
    pub(crate) torn: usize,
}

/// The octets of a log, and the length of its whole frames. The log stays as it is. `Damaged` comes
/// if a frame was spoilt before a whole one.
pub fn read_frames<L: Log>(alloc: Global, log: &mut L) -> Result<Frames, StoreFault>
    ensures told { IsTrue (L.tells log.new) → IsTrue (L.tells log.old) }
    ensures octets { IsTrue (L.tells log.new) → IfOk result (λ frames. frames.octets.items ≡ L.seen log.old) }
    ensures same { IsTrue (L.tells log.new) → L.seen log.new ≡ L.seen log.old }
    ensures crash { IsTrue (L.tells log.new) → NoMore (L.may_leave log.old) (L.may_leave log.new) }
    ensures why { IsTrue (L.tells log.new) → IfErr result (IsWhyNoFrames (L.seen log.old)) }
{
    let octets = log.read(alloc)?;
    Ok(Frames::of(octets)?)
}

/// The generation of a log, and the length of its whole frames.
fn generation_in(alloc: Global, config: &Config, frames: &Frames) -> Result<Restored, StoreFault>
    ensures server { IfOk result (λ restored. IsServerOf config.now restored.reading.books) }
    ensures found { IfOk result (λ restored. (before : List (List ℕ)) → HasPayloads frames.now.octets.items before →
        IsFoundIn config.now before restored.reading.header restored.reading.books restored.reading.moves) }
    ensures there { IfOk result (λ restored. IsThereIn config.now frames.now.octets.items
        restored.reading.header restored.reading.books restored.reading.moves) }
    ensures ends { IfOk result (λ restored. ∥ EndsAt frames.now.octets.items restored.whole ∥₁) }
    ensures torn { IfOk result (λ restored. length frames.now.octets.items ≡ restored.whole + restored.torn) }
    ensures why { IfErr result (IsWhy (counts_of config.now) (octets_of config.now) frames.now.octets.items) }
    ensures unlogged { IfErr result IsOfNoLog }
{
    let payloads = frames.payloads(alloc)?;
    Ok(Restored {
        reading: read_generation(alloc, config, &payloads)?,
        whole: frames.whole(),
        torn: frames.torn().len(),
    })
}

/// Opens a log with these frames that a crash may have left: makes its moves in the books of its
/// snapshot, cuts its torn end off, and syncs it. A log that is refused stays as it was.
pub(crate) fn restore<L: Log>(
    alloc: Global,
    config: &Config,
    log: &mut L,
    given: &Frames,
) -> Result<Restored, StoreFault>
    requires { IsTrue (L.tells log.old) → given.now.octets.items ≡ L.seen log.old }
    ensures told { IsTrue (L.tells log.new) → IsTrue (L.tells log.old) }
    ensures server { IfOk result (λ restored. IsServerOf config.now restored.reading.books) }

    // What is found is what the frames have: they have a generation, and are the log's.
    ensures there { IfOk result (λ restored. IsThereIn config.now given.now.octets.items
        restored.reading.header restored.reading.books restored.reading.moves) }
    ensures given { IfOk result (λ restored. (before : List (List ℕ)) → HasPayloads given.now.octets.items before →
        IsFoundIn config.now before restored.reading.header restored.reading.books restored.reading.moves) }
    ensures found { IsTrue (L.tells log.new) → (before : List (List ℕ)) → HasPayloads (L.seen log.old) before →
        IfOk result (λ restored. IsFoundIn config.now before
        restored.reading.header restored.reading.books restored.reading.moves) }
    ensures size { IsTrue (L.tells log.new) → (before : List (List ℕ)) → HasPayloads (L.seen log.old) before →
        IfOk result (λ restored. restored.whole ≡ length (frames before)) }
    ensures torn { IsTrue (L.tells log.new) →
        IfOk result (λ restored. length (L.seen log.old) ≡ restored.whole + restored.torn) }

    // The log is whole frames of these payloads, synced, and a crash at any call leaves the same.
    ensures settled { IsTrue (L.tells log.new) → (before : List (List ℕ)) → HasPayloads (L.seen log.old) before →
        OnOk result (IsSettled (L.seen log.new) (L.may_leave log.new) before) }
    ensures crash { IsTrue (L.tells log.new) → Only (L.seen log.old) (L.may_leave log.old) →
        (before : List (List ℕ)) → HasPayloads (L.seen log.old) before →
        (ending : OneEnding) (left : List ℕ) → L.may_leave log.new ending left → HasPayloads left before }

    // Why the log is refused, and that it stays as it was.
    ensures why { IsTrue (L.tells log.new) → IfErr result (IsWhy (counts_of config.now) (octets_of config.now) (L.seen log.old)) }
    ensures untouched { IsTrue (L.tells log.new) → IfErr result (λ fault.
        LeavesAsItWas fault (L.seen log.old) (L.seen log.new) (L.may_leave log.old) (L.may_leave log.new)) }
{
    let found = generation_in(alloc, config, given)?;
    mend(log, found.whole)?;
    Ok(found)
}
