ghost use Rattle.std.specs.Prelude.{◌≡◌, ◌+◌, ◌≤◌, ℕ, List, [], ◌∷◌, ◌++◌, length, drop, IsTrue, Err, IfErr, IfOk, OnErr, OnOk};
ghost use Rattle.std.specs.List.{AllByRecursion};
ghost use Rattle.rld_log.specs.Frames.{Fits, HasPayloads, IsDamagedAt, frame, frames};
ghost use Rattle.rld_log.specs.Log.{Adds, Appends, Extends, Follows, NoMore, Only, Premise, Tears};
ghost use Rattle.rld_log.specs.Recording.{IsSettled, LeavesEither};
ghost use Rattle.rld_log.specs.declared.log.Ending.{Ending as OneEnding};
ghost use Rattle.rld_log.specs.declared.log.Ending.TheVariants.{Kill};

use crate::fault::LogFault;
use crate::frame::{behind_head, fill_head};
use crate::log::Log;
use std::alloc::Global;

/// Appends the frame of the payload that stands behind room for a head, which is filled, in place.
/// It is not synced: a kill leaves it, and a loss of power may tear it.
fn write_in_place<L: Log>(log: &mut L, octets: &mut [u8]) -> Result<(), LogFault>
    requires room { 20 ≤ length octets.old }
    requires fits { Fits (drop 20 octets.old) }
    ensures frame { octets.new ≡ frame (drop 20 octets.old) }
    ensures told { IsTrue (L.tells log.new) → IsTrue (L.tells log.old) }
    ensures written { IsTrue (L.tells log.new) → OnOk result (L.seen log.new ≡ L.seen log.old ++ frame (drop 20 octets.old)) }
    ensures front { IsTrue (L.tells log.new) → Extends (L.seen log.old) (L.seen log.new) }
    ensures kept { IsTrue (L.tells log.new) → OnOk result
        (Follows (Adds (frame (drop 20 octets.old))) (L.may_leave log.old Kill) (L.may_leave log.new Kill)) }
    ensures crash { IsTrue (L.tells log.new) → (before : List (List ℕ)) → IsSettled (L.seen log.old) (L.may_leave log.old) before →
        (ending : OneEnding) → Premise L.tears ending → LeavesEither (L.may_leave log.new ending) before (drop 20 octets.old) }
{
    fill_head(octets);
    log.append(octets)
}

/// Records the payload that stands behind room for the head of a frame (`leave_head`): fills the
/// head in place, appends the frame, and syncs the log. It allocates nothing. After a fault the
/// payload is recorded whole or not at all, and the log has to be mended or opened again before the
/// next.
pub fn record_in_place<L: Log>(log: &mut L, octets: &mut [u8]) -> Result<(), LogFault>
    requires room { 20 ≤ length octets.old }
    requires fits { Fits (drop 20 octets.old) }
    ensures frame { octets.new ≡ frame (drop 20 octets.old) }
    ensures told { IsTrue (L.tells log.new) → IsTrue (L.tells log.old) }
    ensures recorded { IsTrue (L.tells log.new) → (before : List (List ℕ)) → IsSettled (L.seen log.old) (L.may_leave log.old) before →
        OnOk result (IsSettled (L.seen log.new) (L.may_leave log.new) (before ++ drop 20 octets.old ∷ [])) }
    ensures front { IsTrue (L.tells log.new) → Extends (L.seen log.old) (L.seen log.new) }

    // A crash at any call leaves the payloads from before it, with this one or without.
    ensures crash { IsTrue (L.tells log.new) → (before : List (List ℕ)) → IsSettled (L.seen log.old) (L.may_leave log.old) before →
        (ending : OneEnding) → Premise L.tears ending → LeavesEither (L.may_leave log.new ending) before (drop 20 octets.old) }
{
    write_in_place(log, octets)?;
    log.sync()?;
    Ok(())
}

/// Appends the frame of a payload without a sync: a kill leaves it, and a loss of power may tear
/// it.
pub fn write<L: Log>(alloc: Global, log: &mut L, payload: &[u8]) -> Result<(), LogFault>
    requires { Fits payload.now }
    ensures told { IsTrue (L.tells log.new) → IsTrue (L.tells log.old) }
    ensures written { IsTrue (L.tells log.new) → OnOk result (L.seen log.new ≡ L.seen log.old ++ frame payload.now) }
    ensures front { IsTrue (L.tells log.new) → Extends (L.seen log.old) (L.seen log.new) }
    ensures kept { IsTrue (L.tells log.new) → OnOk result
        (Follows (Adds (frame payload.now)) (L.may_leave log.old Kill) (L.may_leave log.new Kill)) }
    ensures crash { IsTrue (L.tells log.new) → (before : List (List ℕ)) → IsSettled (L.seen log.old) (L.may_leave log.old) before →
        (ending : OneEnding) → Premise L.tears ending → LeavesEither (L.may_leave log.new ending) before payload.now }
{
    let mut octets = behind_head(alloc, payload)?;
    write_in_place(log, &mut octets)
}

/// Records a payload: appends its frame, and syncs the log. After a fault the payload is recorded
/// whole or not at all, and the log has to be mended or opened again before the next.
pub fn record<L: Log>(alloc: Global, log: &mut L, payload: &[u8]) -> Result<(), LogFault>
    requires { Fits payload.now }
    ensures told { IsTrue (L.tells log.new) → IsTrue (L.tells log.old) }
    ensures recorded { IsTrue (L.tells log.new) → (before : List (List ℕ)) → IsSettled (L.seen log.old) (L.may_leave log.old) before →
        OnOk result (IsSettled (L.seen log.new) (L.may_leave log.new) (before ++ payload.now ∷ [])) }
    ensures front { IsTrue (L.tells log.new) → Extends (L.seen log.old) (L.seen log.new) }

    // A crash at any call leaves the payloads from before it, with this one or without.
    ensures crash { IsTrue (L.tells log.new) → (before : List (List ℕ)) → IsSettled (L.seen log.old) (L.may_leave log.old) before →
        (ending : OneEnding) → Premise L.tears ending → LeavesEither (L.may_leave log.new ending) before payload.now }
{
    let mut octets = behind_head(alloc, payload)?;
    record_in_place(log, &mut octets)
}

/// Cuts off what a failed record or write may have left after the whole frames, which have `whole`
/// octets, and syncs that: then the log is settled without the payload. After a fault it may be
/// tried again, unless a sync failed.
pub fn mend<L: Log>(log: &mut L, whole: usize) -> Result<(), LogFault>
    ensures told { IsTrue (L.tells log.new) → IsTrue (L.tells log.old) }
    ensures settled { IsTrue (L.tells log.new) → (before : List (List ℕ)) → AllByRecursion Fits before → whole ≡ length (frames before) →
        Extends (frames before) (L.seen log.old) → OnOk result (IsSettled (L.seen log.new) (L.may_leave log.new) before) }
    ensures front { IsTrue (L.tells log.new) → (before : List (List ℕ)) → whole ≡ length (frames before) →
        Extends (frames before) (L.seen log.old) → Extends (frames before) (L.seen log.new) }

    // A crash at any call leaves what the record might have left.
    ensures crash { IsTrue (L.tells log.new) → (before : List (List ℕ)) (payload : List ℕ) → AllByRecursion Fits before → whole ≡ length (frames before) →
        Extends (frames before) (L.seen log.old) → (ending : OneEnding) → LeavesEither (L.may_leave log.old ending) before payload →
        LeavesEither (L.may_leave log.new ending) before payload }
{
    log.cut(whole)?;
    log.sync()?;
    Ok(())
}
