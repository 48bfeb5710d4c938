//! Lives over a log: what they answer, and what they leave.

ghost use Rattle.std.specs.Prelude.{◌≡◌, ◌⊎◌, ℕ, false, List, [], ◌∷◌, ◌++◌, IfErr, IfOk, IfSome, OnErr, IsTrue, Some, None};
ghost use Rattle.std.specs.Prelude.{All};
ghost use Rattle.std.specs.Arc.{arc_value};
ghost use Rattle.std.specs.Option.{option_map};
ghost use Rattle.rld_lives.specs.Leaving.{HasLived, HaveHistory, HaveLived, IsLeft, OfEach, StandsAfter, batches_of};
ghost use Rattle.rld_lives.specs.Life.{AreOutcomes, Outcome as OneOutcome, has_ended};
ghost use Rattle.rld_lives.specs.Planned.{plans_of, told_of};
ghost use Rattle.rld_lives.specs.declared.living.Plan.{Plan as OnePlan};
ghost use Rattle.rld_books.specs.Server.{ServerSeen};
ghost use Rattle.rld_store.specs.Premises.{Only, Premise};
ghost use Rattle.rld_store.specs.Generations.{HasHistory, IsUnbegun};
ghost use Rattle.rld_store.specs.Standing.{StandsFor};
ghost use Rattle.rsl_accounts.specs.Configuration.{Configuration};
ghost use Rattle.rsl_shard.specs.declared.moved.Move.{Move as OneMove};
ghost use Rattle.rld_log.specs.declared.log.Ending.{Ending as OneEnding};
ghost use Rattle.std.specs.Global.{Vec as OneVec};

use crate::ending::{Counting, Logs, choose, crashed, end_life};
use rld_log::{Crash, Ending, Log};
use rld_spelling::Header;
use rld_store::{Opened, RecordFault, Recorded, Refused, Store, read_frames};
use rsl_accounts::Config;
use rsl_shard::Move;
use rsl_wire::NoMemory;
use std::alloc::Global;
use std::sync::Arc;

/// The result of a batch: the decisions on its moves, or that it was not recorded.
pub type Outcome = Result<Recorded, RecordFault>;

/// A step of a life.
#[derive(Drop)]
pub enum Step {
    /// It answers this batch.
    Batch(Vec<Move>),
    /// It goes on in the generation of this header, in the next log. If none begins there, it goes
    /// on in its own, and that log is gone.
    Roll(Header),
}

/// What a life does, and how it ends.
#[derive(Drop)]
pub struct Plan {
    /// Its steps, one after another.
    pub steps: Vec<Step>,
    /// The header of the generation in whose roll it ends. If there is none, or no log for it, it
    /// ends outside of a roll.
    pub last: Option<Header>,
    /// How it ends, after the last step or when nothing more could be recorded.
    pub ending: Ending,
}

/// What lives have answered and left.
#[derive(Drop)]
pub struct Lived<L: Crash> {
    /// For each life, the results of its batches, if it began.
    pub told: Vec<Option<Vec<Outcome>>>,
    /// For each life, the log that did not count, if it began over two.
    pub gone: Vec<Option<L>>,
    /// The logs, as the last of them left them.
    pub logs: Logs<L>,
}

/// What a life has answered and left.
#[derive(Drop)]
struct OneLife<L: Crash> {
    told: Option<Vec<Outcome>>,
    gone: Option<L>,
    logs: Logs<L>,
}

/// What a life that began has answered and left.
#[derive(Drop)]
struct Begun<L: Crash> {
    told: Vec<Outcome>,
    logs: Logs<L>,
}

/// A life: records batches one after another, and gives their results. It goes on after one that
/// was not recorded, unless nothing more can be recorded. A next generation changes neither its
/// books nor its history.
///
/// It fails only if memory for the results is refused, before the first step.
pub fn live<L: Crash + Drop>(
    alloc: Global,
    store: &mut Store<L>,
    steps: Vec<Step>,
) -> Result<Vec<Outcome>, NoMemory>
    ensures told { IsTrue (L.Log.tells store.new.log) → IsTrue (L.Log.tells store.old.log) }
    ensures outcomes { IfOk result (λ outcomes.
        AreOutcomes store.old.books (batches_of steps.items) outcomes.items) }
    ensures err { OnErr result (store.new ≡ store.old) }
    ensures config { store.new.config ≡ store.old.config }

    // It stops only where nothing more can be recorded.
    ensures over { store.old.is_over ≡ false → IfOk result (λ outcomes.
        store.new.is_over ≡ has_ended outcomes.items) }

    // The store stands for what was recorded, and perhaps for another batch that was not, whole.
    ensures lived { IfOk result (λ outcomes. IsTrue (L.Log.tells store.new.log) →
        (opening : ServerSeen) (history : List OneMove) →
        StandsFor (arc_value store.old.config) opening L.Log.tears store.old.end (L.Log.seen store.old.log)
        (L.Log.may_leave store.old.log) store.old.whole store.old.books history [] →
        StandsAfter (arc_value store.old.config) opening L.Log.tears store.new.end (L.Log.seen store.new.log)
        (L.Log.may_leave store.new.log) store.new.whole store.new.books
        history (batches_of steps.items) outcomes.items) }
{
    let mut outcomes = Vec::with_capacity(alloc, steps.len())?;
    for step in steps {
        match step {
            Step::Roll(header) => roll_on(alloc, store, header),
            Step::Batch(batch) => match store.commit(alloc, batch) {
                Ok(recorded) => outcomes.push_reserved(Ok(recorded)),
                Err(fault) => match RecordFault::from(fault) {
                    RecordFault::Failed => outcomes.push_reserved(Err(RecordFault::Failed)),
                    RecordFault::Ended => {
                        outcomes.push_reserved(Err(RecordFault::Ended));
                        return Ok(outcomes);
                    }
                },
            },
        }
    }
    Ok(outcomes)
}

/// Goes on in the generation of this header, in the next log, if it begins there.
fn roll_on<L: Crash + Drop>(alloc: Global, store: &mut Store<L>, header: Header)
    ensures told { IsTrue (L.Log.tells store.new.log) → IsTrue (L.Log.tells store.old.log) }
    ensures books { store.new.books ≡ store.old.books }
    ensures config { store.new.config ≡ store.old.config }
    ensures over { store.new.is_over ≡ store.old.is_over }

    // The store stands for the same history.
    ensures stands { IsTrue (L.Log.tells store.new.log) →
        (opening : ServerSeen) (history unanswered : List OneMove) →
        StandsFor (arc_value store.old.config) opening L.Log.tears store.old.end (L.Log.seen store.old.log)
        (L.Log.may_leave store.old.log) store.old.whole store.old.books history unanswered →
        StandsFor (arc_value store.old.config) opening L.Log.tears store.new.end (L.Log.seen store.new.log)
        (L.Log.may_leave store.new.log) store.new.whole store.new.books history unanswered
        ⊎ StandsFor (arc_value store.old.config) opening L.Log.tears store.new.end (L.Log.seen store.new.log)
        (L.Log.may_leave store.new.log) store.new.whole store.new.books history [] }
{
    let Ok(next) = store.log().next_log(alloc) else {
        return;
    };
    let _older = store.roll(alloc, header, next);
}

/// A life over a store, to its end. If memory is refused it does not begin, and the log is handed
/// back.
fn live_on<L: Crash + Drop>(alloc: Global, store: Store<L>, plan: Plan) -> Result<Begun<L>, L>
    ensures told { IfOk result (λ begun. OfEach (λ log. IsTrue (L.Log.tells log)) begun.logs.older begun.logs.newest →
        IsTrue (L.Log.tells store.log)) }
    ensures are_left { IfOk result (λ begun. OfEach (λ log. IsTrue (L.Log.tells log)) begun.logs.older begun.logs.newest →
        OfEach (IsLeft L.Log.seen L.Log.may_leave plan.ending) begun.logs.older begun.logs.newest) }
    ensures lived { IfOk result (λ begun. OfEach (λ log. IsTrue (L.Log.tells log)) begun.logs.older begun.logs.newest →
        Premise L.Log.tears plan.ending →
        (opening : ServerSeen) (history : List OneMove) →
        StandsFor (arc_value store.config) opening L.Log.tears store.end (L.Log.seen store.log)
        (L.Log.may_leave store.log) store.whole store.books history [] →
        HasLived (arc_value store.config) opening history (batches_of plan.steps.items) (Some begun.told.items)
        L.Log.seen begun.logs.older begun.logs.newest) }
    ensures same { IfErr result (λ log. log ≡ store.log) }
{
    let Plan {
        steps,
        last,
        ending,
    } = plan;
    let mut store = store;
    match live(alloc, &mut store, steps) {
        Ok(told) => Ok(Begun {
            told,
            logs: end_life(alloc, store, last, ending),
        }),
        Err(_) => Err(store.into_log()),
    }
}

/// A life over the log that counts, to its end. If the log cannot be opened, or memory is refused,
/// it does not begin, and the log is handed back.
fn live_in<L: Crash + Drop>(
    alloc: Global,
    config: &Arc<Config>,
    log: L,
    plan: Plan,
) -> Result<Begun<L>, L>
    ensures told { IfOk result (λ begun. OfEach (λ log. IsTrue (L.Log.tells log)) begun.logs.older begun.logs.newest →
        IsTrue (L.Log.tells log)) }
    ensures refused { IfErr result (λ left. IsTrue (L.Log.tells left) → IsTrue (L.Log.tells log)) }
    ensures are_left { IfOk result (λ begun. OfEach (λ log. IsTrue (L.Log.tells log)) begun.logs.older begun.logs.newest →
        OfEach (IsLeft L.Log.seen L.Log.may_leave plan.ending) begun.logs.older begun.logs.newest) }
    ensures lived { IfOk result (λ begun. OfEach (λ log. IsTrue (L.Log.tells log)) begun.logs.older begun.logs.newest →
        Premise L.Log.tears plan.ending →
        (opening : ServerSeen) (history : List OneMove) →
        HasHistory (arc_value config.now) opening history (L.Log.seen log) →
        HasLived (arc_value config.now) opening history (batches_of plan.steps.items) (Some begun.told.items)
        L.Log.seen begun.logs.older begun.logs.newest) }

    // A crash of the log that was handed back leaves the same history.
    ensures kept { IfErr result (λ left. IsTrue (L.Log.tells left) → Only (L.Log.seen log) (L.Log.may_leave log) →
        (opening : ServerSeen) (history : List OneMove) →
        HasHistory (arc_value config.now) opening history (L.Log.seen log) →
        (ending : OneEnding) → Premise L.Log.tears ending →
        (file : List ℕ) → L.Log.may_leave left ending file →
        HasHistory (arc_value config.now) opening history file) }
{
    let mut log = log;
    let Ok(frames) = read_frames(alloc, &mut log) else {
        return Err(log);
    };
    let Ok(config) = Arc::try_clone(config) else {
        return Err(log);
    };
    match Store::open(alloc, config, log, &frames) {
        Ok(opened) => {
            let Opened { store, .. } = opened;
            live_on(alloc, store, plan)
        }
        Err(refused) => {
            let Refused { log, .. } = refused;
            Err(log)
        }
    }
}

/// A life over the one log that there is.
fn live_alone<L: Crash + Drop>(
    alloc: Global,
    config: &Arc<Config>,
    log: L,
    plan: Plan,
) -> OneLife<L>
    ensures told { IfSome result.gone (λ gone. IsTrue (L.Log.tells gone)) →
        OfEach (λ log. IsTrue (L.Log.tells log)) result.logs.older result.logs.newest → IsTrue (L.Log.tells log) }
    ensures are_left { OfEach (λ log. IsTrue (L.Log.tells log)) result.logs.older result.logs.newest →
        OfEach (IsLeft L.Log.seen L.Log.may_leave plan.ending) result.logs.older result.logs.newest }
    ensures lived { OfEach (λ log. IsTrue (L.Log.tells log)) result.logs.older result.logs.newest →
        Only (L.Log.seen log) (L.Log.may_leave log) → Premise L.Log.tears plan.ending →
        (opening : ServerSeen) (history : List OneMove) →
        HasHistory (arc_value config.now) opening history (L.Log.seen log) →
        HasLived (arc_value config.now) opening history (batches_of plan.steps.items)
        (option_map (λ (outcomes : OneVec OneOutcome). outcomes.items) result.told)
        L.Log.seen result.logs.older result.logs.newest }
{
    let ending = plan.ending;
    match live_in(alloc, config, log, plan) {
        Ok(begun) => {
            let Begun { told, logs } = begun;
            OneLife {
                told: Some(told),
                gone: None,
                logs,
            }
        }
        Err(log) => OneLife {
            told: None,
            gone: None,
            logs: Logs {
                older: None,
                newest: crashed(log, ending),
            },
        },
    }
}

/// A life over the one of two logs that counts. If it does not begin, both are left.
fn live_beside<L: Crash + Drop>(
    alloc: Global,
    config: &Arc<Config>,
    older: L,
    newest: L,
    plan: Plan,
) -> OneLife<L>
    ensures told { IfSome result.gone (λ gone. IsTrue (L.Log.tells gone)) →
        OfEach (λ log. IsTrue (L.Log.tells log)) result.logs.older result.logs.newest →
        OfEach (λ log. IsTrue (L.Log.tells log)) (Some older) newest }
    ensures are_left { OfEach (λ log. IsTrue (L.Log.tells log)) result.logs.older result.logs.newest →
        OfEach (IsLeft L.Log.seen L.Log.may_leave plan.ending) result.logs.older result.logs.newest }
    ensures lived { IfSome result.gone (λ gone. IsTrue (L.Log.tells gone)) →
        OfEach (λ log. IsTrue (L.Log.tells log)) result.logs.older result.logs.newest →
        OfEach (λ log. Only (L.Log.seen log) (L.Log.may_leave log)) (Some older) newest →
        Premise L.Log.tears plan.ending →
        (opening : ServerSeen) (history : List OneMove) →
        HaveHistory (arc_value config.now) opening history L.Log.seen (Some older) newest →
        HasLived (arc_value config.now) opening history (batches_of plan.steps.items)
        (option_map (λ (outcomes : OneVec OneOutcome). outcomes.items) result.told)
        L.Log.seen result.logs.older result.logs.newest }
{
    let ending = plan.ending;
    let mut newest = newest;
    match choose(alloc, &mut newest) {
        Ok(Counting::Newest) => match live_in(alloc, config, newest, plan) {
            Ok(begun) => begun_beside(begun, older),
            Err(newest) => not_begun(older, newest, ending),
        },
        Ok(Counting::Older) => match live_in(alloc, config, older, plan) {
            Ok(begun) => begun_beside(begun, newest),
            Err(older) => not_begun(older, newest, ending),
        },
        Err(_) => not_begun(older, newest, ending),
    }
}

/// A life that began beside a log that did not count.
fn begun_beside<L: Crash + Drop>(begun: Begun<L>, other: L) -> OneLife<L>
    ensures told { result.told ≡ Some begun.told }
    ensures gone { result.gone ≡ Some other }
    ensures logs { result.logs ≡ begun.logs }
{
    let Begun { told, logs } = begun;
    OneLife {
        told: Some(told),
        gone: Some(other),
        logs,
    }
}

/// What a crash leaves of two logs over which no life began.
fn not_begun<L: Crash + Drop>(older: L, newest: L, ending: Ending) -> OneLife<L>
    ensures told { result.told ≡ None }
    ensures tells { OfEach (λ log. IsTrue (L.Log.tells log)) result.logs.older result.logs.newest →
        OfEach (λ log. IsTrue (L.Log.tells log)) (Some older) newest }
    ensures are_left { OfEach (λ log. IsTrue (L.Log.tells log)) result.logs.older result.logs.newest →
        OfEach (IsLeft L.Log.seen L.Log.may_leave ending) result.logs.older result.logs.newest }
    ensures have { OfEach (λ log. IsTrue (L.Log.tells log)) result.logs.older result.logs.newest →
        (config : Configuration) (opening : ServerSeen) (history : List OneMove) →
        ((old new : List ℕ) → L.Log.may_leave older ending old → L.Log.may_leave newest ending new →
        HasHistory config opening history new ⊎ (IsUnbegun new × HasHistory config opening history old)) →
        HaveHistory config opening history L.Log.seen result.logs.older result.logs.newest }
{
    OneLife {
        told: None,
        gone: None,
        logs: Logs {
            older: Some(crashed(older, ending)),
            newest: crashed(newest, ending),
        },
    }
}

/// A life over the logs that the one before left, to its end. If the log that counts cannot be
/// opened, or memory is refused, it does not begin.
fn live_over<L: Crash + Drop>(
    alloc: Global,
    config: &Arc<Config>,
    logs: Logs<L>,
    plan: Plan,
) -> OneLife<L>
    ensures told { IfSome result.gone (λ gone. IsTrue (L.Log.tells gone)) →
        OfEach (λ log. IsTrue (L.Log.tells log)) result.logs.older result.logs.newest →
        OfEach (λ log. IsTrue (L.Log.tells log)) logs.older logs.newest }
    ensures are_left { OfEach (λ log. IsTrue (L.Log.tells log)) result.logs.older result.logs.newest →
        OfEach (IsLeft L.Log.seen L.Log.may_leave plan.ending) result.logs.older result.logs.newest }
    ensures lived { IfSome result.gone (λ gone. IsTrue (L.Log.tells gone)) →
        OfEach (λ log. IsTrue (L.Log.tells log)) result.logs.older result.logs.newest →
        OfEach (λ log. Only (L.Log.seen log) (L.Log.may_leave log)) logs.older logs.newest →
        Premise L.Log.tears plan.ending →
        (opening : ServerSeen) (history : List OneMove) →
        HaveHistory (arc_value config.now) opening history L.Log.seen logs.older logs.newest →
        HasLived (arc_value config.now) opening history (batches_of plan.steps.items)
        (option_map (λ (outcomes : OneVec OneOutcome). outcomes.items) result.told)
        L.Log.seen result.logs.older result.logs.newest }
{
    let Logs { older, newest } = logs;
    match older {
        None => live_alone(alloc, config, newest, plan),
        Some(older) => live_beside(alloc, config, older, newest, plan),
    }
}

/// Lives one after another, each over what the one before left, and each ended by the crash of its
/// plan. The logs are handed back if memory for their results is refused.
///
/// The premises: each log tells what it holds, and after a loss of power no torn write of a frame
/// passes for one.
pub fn lives<L: Crash + Drop>(
    alloc: Global,
    config: &Arc<Config>,
    logs: Logs<L>,
    plans: Vec<Plan>,
) -> Result<Lived<L>, Logs<L>>
    ensures told { IfOk result (λ lived.
        All (λ gone. IfSome gone (λ log. IsTrue (L.Log.tells log))) lived.gone.items →
        OfEach (λ log. IsTrue (L.Log.tells log)) lived.logs.older lived.logs.newest →
        OfEach (λ log. IsTrue (L.Log.tells log)) logs.older logs.newest) }
    ensures settled { IfOk result (λ lived.
        OfEach (λ log. IsTrue (L.Log.tells log)) lived.logs.older lived.logs.newest →
        OfEach (λ log. Only (L.Log.seen log) (L.Log.may_leave log)) logs.older logs.newest →
        OfEach (λ log. Only (L.Log.seen log) (L.Log.may_leave log)) lived.logs.older lived.logs.newest) }

    // The crash of the last plan has left the logs.
    ensures are_left { IfOk result (λ lived.
        OfEach (λ log. IsTrue (L.Log.tells log)) lived.logs.older lived.logs.newest →
        (earlier : List OnePlan) (last : OnePlan) → plans.items ≡ earlier ++ last ∷ [] →
        OfEach (IsLeft L.Log.seen L.Log.may_leave last.ending) lived.logs.older lived.logs.newest) }

    // They have what the lives left.
    ensures lived { IfOk result (λ lived.
        All (λ gone. IfSome gone (λ log. IsTrue (L.Log.tells log))) lived.gone.items →
        OfEach (λ log. IsTrue (L.Log.tells log)) lived.logs.older lived.logs.newest →
        OfEach (λ log. Only (L.Log.seen log) (L.Log.may_leave log)) logs.older logs.newest →
        All (λ plan. Premise L.Log.tears plan.ending) plans.items →
        (opening : ServerSeen) (history : List OneMove) →
        HaveHistory (arc_value config.now) opening history L.Log.seen logs.older logs.newest →
        HaveLived (arc_value config.now) opening history (plans_of plans.items) (told_of lived.told.items)
        L.Log.seen lived.logs.older lived.logs.newest) }
{
    let Ok(mut told) = Vec::with_capacity(alloc, plans.len()) else {
        return Err(logs);
    };
    let Ok(mut gone) = Vec::with_capacity(alloc, plans.len()) else {
        return Err(logs);
    };
    let mut logs = logs;
    for plan in plans {
        let OneLife {
            told: one,
            gone: other,
            logs: left,
        } = live_over(alloc, config, logs, plan);
        told.push_reserved(one);
        gone.push_reserved(other);
        logs = left;
    }
    Ok(Lived { told, gone, logs })
}
