//! How a life ends, and over which of two logs the next one goes.

ghost use Rattle.std.specs.Prelude.{◌⊎◌, ◌≡◌, ℕ, List, ◌++◌, map, IfOk, IsTrue};
ghost use Rattle.std.specs.Arc.{arc_value};
ghost use Rattle.rld_books.specs.Server.{ServerSeen};
ghost use Rattle.rld_lives.specs.Choosing.{IsChosenBy};
ghost use Rattle.rld_lives.specs.Leaving.{HaveHistory, IsLeft, OfEach};
ghost use Rattle.rld_log.specs.Frames.{HasPayloads};
ghost use Rattle.rld_log.specs.Log.{NoMore};
ghost use Rattle.rld_store.specs.Premises.{Premise};
ghost use Rattle.rld_store.specs.Standing.{StandsFor};
ghost use Rattle.rsl_shard.specs.declared.moved.Move.{Move as OneMove};

use rld_log::{Crash, Ending, Log};
use rld_spelling::Header;
use rld_store::{Parts, Refused, Store, StoreFault, read_frames};
use std::alloc::Global;

/// The logs that a life finds and leaves. Of two the newest counts if its snapshot is whole, and
/// else the older one.
#[derive(Drop)]
pub struct Logs<L: Crash> {
    /// The older one, if a life has ended in a roll.
    pub older: Option<L>,
    /// The newest one.
    pub newest: L,
}

/// Which of two logs counts.
pub(crate) enum Counting {
    /// The newest: its snapshot is whole.
    Newest,
    /// The older one.
    Older,
}

/// Which log counts, by the payloads of the newest.
fn counted_by(payloads: &[&[u8]]) -> Result<Counting, StoreFault>
    ensures { IfOk result (λ counting. (newest : List ℕ) →
        HasPayloads newest (map (λ payload. payload.now) payloads.now) → IsChosenBy newest counting) }
{
    match Parts::of(payloads) {
        Ok(_) => Ok(Counting::Newest),
        Err(StoreFault::Unbegun) => Ok(Counting::Older),
        Err(fault) => Err(fault),
    }
}

/// Which log counts, by what is read of the newest.
pub(crate) fn choose<L: Log>(alloc: Global, newest: &mut L) -> Result<Counting, StoreFault>
    ensures told { IsTrue (L.tells newest.new) → IsTrue (L.tells newest.old) }
    ensures same { IsTrue (L.tells newest.new) → L.seen newest.new ≡ L.seen newest.old }
    ensures crash { IsTrue (L.tells newest.new) → NoMore (L.may_leave newest.old) (L.may_leave newest.new) }
    ensures chosen { IsTrue (L.tells newest.new) → IfOk result (IsChosenBy (L.seen newest.old)) }
{
    let frames = read_frames(alloc, newest)?;
    let payloads = frames.payloads(alloc)?;
    counted_by(&payloads)
}

/// What a crash leaves of a log.
pub(crate) fn crashed<L: Crash>(log: L, ending: Ending) -> L
    ensures told { IsTrue (L.Log.tells result) → IsTrue (L.Log.tells log) }
    ensures left { IsTrue (L.Log.tells result) → L.Log.may_leave log ending (L.Log.seen result) }
    ensures is_left { IsTrue (L.Log.tells result) → IsLeft L.Log.seen L.Log.may_leave ending result }
{
    let mut log = log;
    log.restart(ending);
    log
}

/// What a crash leaves of the logs of a life: of one that ends in the roll into the generation of
/// this header, if there is one and a log for it, two.
pub(crate) fn end_life<L: Crash + Drop>(
    alloc: Global,
    store: Store<L>,
    last: Option<Header>,
    ending: Ending,
) -> Logs<L>
    ensures told { OfEach (λ log. IsTrue (L.Log.tells log)) result.older result.newest →
        IsTrue (L.Log.tells store.log) }
    ensures are_left { OfEach (λ log. IsTrue (L.Log.tells log)) result.older result.newest →
        OfEach (IsLeft L.Log.seen L.Log.may_leave ending) result.older result.newest }

    // They have the history of the store, or that and its unanswered batch.
    ensures have { OfEach (λ log. IsTrue (L.Log.tells log)) result.older result.newest →
        Premise L.Log.tears ending →
        (opening : ServerSeen) (history unanswered : List OneMove) →
        StandsFor (arc_value store.config) opening L.Log.tears store.end (L.Log.seen store.log)
        (L.Log.may_leave store.log) store.whole store.books history unanswered →
        HaveHistory (arc_value store.config) opening history L.Log.seen result.older result.newest
        ⊎ HaveHistory (arc_value store.config) opening (history ++ unanswered) L.Log.seen result.older result.newest }
{
    match last {
        Some(header) => end_in_roll(alloc, store, header, ending),
        None => Logs {
            older: None,
            newest: crashed(store.into_log(), ending),
        },
    }
}

/// What a crash leaves of a log and of the next one, in which this generation is to begin.
fn end_in_roll<L: Crash + Drop>(
    alloc: Global,
    store: Store<L>,
    header: Header,
    ending: Ending,
) -> Logs<L>
    ensures told { OfEach (λ log. IsTrue (L.Log.tells log)) result.older result.newest →
        IsTrue (L.Log.tells store.log) }
    ensures are_left { OfEach (λ log. IsTrue (L.Log.tells log)) result.older result.newest →
        OfEach (IsLeft L.Log.seen L.Log.may_leave ending) result.older result.newest }
    ensures have { OfEach (λ log. IsTrue (L.Log.tells log)) result.older result.newest →
        Premise L.Log.tears ending →
        (opening : ServerSeen) (history unanswered : List OneMove) →
        StandsFor (arc_value store.config) opening L.Log.tears store.end (L.Log.seen store.log)
        (L.Log.may_leave store.log) store.whole store.books history unanswered →
        HaveHistory (arc_value store.config) opening history L.Log.seen result.older result.newest
        ⊎ HaveHistory (arc_value store.config) opening (history ++ unanswered) L.Log.seen result.older result.newest }
{
    let mut store = store;
    let Ok(next) = store.log().next_log(alloc) else {
        return Logs {
            older: None,
            newest: crashed(store.into_log(), ending),
        };
    };
    match store.roll(alloc, header, next) {
        Ok(older) => Logs {
            older: Some(crashed(older, ending)),
            newest: crashed(store.into_log(), ending),
        },
        Err(refused) => {
            let Refused { log, .. } = refused;
            Logs {
                older: Some(crashed(store.into_log(), ending)),
                newest: crashed(log, ending),
            }
        }
    }
}
