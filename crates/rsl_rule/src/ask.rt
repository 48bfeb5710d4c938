ghost use Rattle.std.specs.Prelude.{◌≡◌, [], ◌<◌, IfOk, length, take, OnErr};
ghost use Rattle.std.specs.Option.{option_map};
ghost use Rattle.rsl_accounts.specs.Limits.{RulesFit};
ghost use Rattle.rsl_session.specs.Past.{looking_back};
ghost use Rattle.rsl_session.specs.Ask.{
  accepts,
  ask_outcome,
  fresh_asks,
  fresh_decision,
  fresh_outcome,
  kept_ask,
  repeated_ask,
  repeats,
};
ghost use Rattle.rsl_session.specs.Clock.{clock};
ghost use Rattle.rsl_rule.specs.Since.{acts_since};
ghost use Rattle.rsl_rule.specs.Yielding.{making_room};

use crate::clock::{clock_of, clock_with};
use crate::count::has_place_beside;
use crate::held::{links_before, links_but, numbers_of};
use crate::link::accept_number;
use crate::sweep::is_swept_since;
use crate::yielding::{Candidates, yielding_link};
use rsl_accounts::Rules;
use rsl_event::{Act, Decision, Event, Key};
use rsl_session::{KEPT_ASKS, KeptAsk, Outcome, PastEvent};
use rsl_wire::NoMemory;
use std::alloc::Global;

/// The decision on a fresh ask.
#[tactic(auto, unfolding(rsl_session::specs::Ask::fresh_decision))]
fn decision_of_fresh(outcome: Outcome) -> Option<Decision>
    ensures { result ≡ fresh_decision outcome }
{
    match outcome {
        Outcome::Accepted(number) | Outcome::AcceptedInPlace { number, .. } => Some(
            Decision::Accept(number),
        ),
        Outcome::Refused => Some(Decision::LimitReject),
        _ => None,
    }
}

/// A fresh ask as it is kept, from the past up to it and the entries since.
fn keep_ask(
    alloc: Global,
    history: &[PastEvent],
    since: &[PastEvent],
    act: &Act,
    decision: Option<Decision>,
) -> Result<Option<KeptAsk>, NoMemory>
    ensures { IfOk result (λ ask. ask ≡ kept_ask (clock (looking_back history.now))
        (acts_since (clock (looking_back history.now)) since.now) act.now decision) }
{
    match (act, decision) {
        (Act::Ask { key, nas, .. }, Some(decision)) => {
            let at = clock_of(history);
            Ok(Some(KeptAsk {
                key: *key,
                nas: nas.try_copy(alloc)?,
                decision,
                at,
                swept: is_swept_since(at, nas, since),
            }))
        }
        _ => Ok(None),
    }
}

/// The last fresh asks of a past that can be repeated, newest first.
#[tactic(auto, using(crate::proofs::Kept::asks_steps))]
fn asks_of(alloc: Global, history: &[PastEvent]) -> Result<Vec<KeptAsk>, NoMemory>
    ensures asks { IfOk result (λ asks. asks.items ≡
        take KEPT_ASKS (fresh_asks [] (looking_back history.now))) }
    ensures refused { OnErr result (0 < length history.now) }
{
    let mut asks = Vec::new(alloc);
    let mut at = history.len();
    while at > 0 && asks.len() < KEPT_ASKS {
        at -= 1;
        let entry = &history[at];
        let decision = decision_of_fresh(entry.outcome);
        let act = &entry.event.act;
        if let Some(ask) = keep_ask(alloc, &history[..at + 1], &history[at + 1..], act, decision)? {
            asks.push(ask)?;
        }
    }
    Ok(asks)
}

/// Whether an ask of this key, at this clock, repeats a fresh ask.
#[tactic(auto, unfolding(rsl_session::specs::Ask::repeats))]
fn is_repeat_of(rules: &Rules, key: &Key, now: u64, ask: &KeptAsk) -> bool
    ensures { result ≡ repeats rules.now key.now now ask.now }
{
    ask.key.is_same(key) && now.saturating_sub(ask.at) < rules.keep && !ask.swept
}

/// The decision of the latest fresh ask that an ask of this key repeats.
#[tactic(auto, using(crate::proofs::Lists::find_steps), unfolding(rsl_session::specs::Ask::repeated_ask))]
fn repeated_decision(
    alloc: Global,
    rules: &Rules,
    history: &[PastEvent],
    event: &Event,
    key: &Key,
) -> Result<Option<Decision>, NoMemory>
    ensures decision { IfOk result (λ decision. decision ≡ option_map (λ ask. ask.decision)
        (repeated_ask rules.now (looking_back history.now) event.now key.now)) }
    ensures refused { OnErr result (0 < length history.now) }
{
    let now = clock_with(history, event);
    let asks = asks_of(alloc, history)?;
    for ask in &asks {
        if is_repeat_of(rules, key, now, ask) {
            return Ok(Some(ask.decision));
        }
    }
    Ok(None)
}

/// How many fresh asks were accepted.
#[tactic(auto, unfolding(rsl_session::specs::Ask::accepts), using(crate::proofs::Looking::accepts_steps))]
fn accept_count(history: &[PastEvent]) -> u64
    ensures { result ≡ accepts (looking_back history.now) }
{
    let mut count = 0;
    for entry in history {
        if accept_number(entry.outcome).is_some() {
            count += 1;
        }
    }
    count
}

/// The link that yields of those held: the one that can, if another can open without it.
fn link_making_room(
    alloc: Global,
    rules: &Rules,
    history: &[PastEvent],
    links: &[usize],
    candidate: Option<usize>,
) -> Result<Option<usize>, NoMemory>
    requires { RulesFit rules.now }
    ensures link { IfOk result (λ yielded. yielded ≡
        making_room rules.now (looking_back history.now) links.now candidate) }
    ensures refused { OnErr result (0 < length links.now) }
{
    let Some(link) = candidate else {
        return Ok(None);
    };
    let others = links_but(alloc, links, link)?;
    if has_place_beside(alloc, rules, history, &others)? {
        Ok(Some(link))
    } else {
        Ok(None)
    }
}

/// What a fresh ask does, if there is an accept number left for it.
fn outcome_of_fresh(
    alloc: Global,
    rules: &Rules,
    history: &[PastEvent],
    event: &Event,
    number: u64,
) -> Result<Outcome, NoMemory>
    requires rules_fit { RulesFit rules.now }
    requires next { number ≡ accepts (looking_back history.now) }
    ensures outcome { IfOk result (λ did. did ≡
        fresh_outcome rules.now (looking_back history.now) event.now) }
    ensures refused { OnErr result (0 < length history.now) }
{
    let before = links_before(alloc, rules, history, event)?;
    let links = numbers_of(alloc, &before)?;
    let returning = yielding_link(rules, history, event, Candidates::OfStation, &before);
    if let Some(yielded) = link_making_room(alloc, rules, history, &links, returning)? {
        return Ok(Outcome::AcceptedInPlace { number, yielded });
    }
    if has_place_beside(alloc, rules, history, &links)? {
        return Ok(Outcome::Accepted(number));
    }
    let idle = yielding_link(rules, history, event, Candidates::Idle, &before);
    match link_making_room(alloc, rules, history, &links, idle)? {
        Some(yielded) => Ok(Outcome::AcceptedInPlace { number, yielded }),
        None => Ok(Outcome::Refused),
    }
}

/// What an ask does.
pub(crate) fn outcome_of_ask(
    alloc: Global,
    rules: &Rules,
    history: &[PastEvent],
    event: &Event,
    key: &Key,
) -> Result<Outcome, NoMemory>
    requires { RulesFit rules.now }
    ensures outcome { IfOk result (λ outcome. outcome ≡
        ask_outcome rules.now (looking_back history.now) event.now
        (repeated_ask rules.now (looking_back history.now) event.now key.now)) }
    ensures refused { OnErr result (0 < length history.now) }
{
    if let Some(decision) = repeated_decision(alloc, rules, history, event, key)? {
        return Ok(Outcome::Repeated(decision));
    }
    let number = accept_count(history);
    if number < u64::MAX {
        outcome_of_fresh(alloc, rules, history, event, number)
    } else {
        Ok(Outcome::Refused)
    }
}
