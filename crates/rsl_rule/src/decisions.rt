ghost use Rattle.std.specs.Prelude.{◌≡◌, ◌≤◌, IfOk, ◌<◌, OnErr, length};
ghost use Rattle.rsl_accounts.specs.Limits.{RulesFit};
ghost use Rattle.rsl_rule.specs.Memory.{LooksBack};
ghost use Rattle.rsl_session.specs.Past.{looking_back};
ghost use Rattle.rsl_session.specs.Rule.{decision_of, decisions, outcome_of, past_of, places_after};

use crate::alive::outcome_of_alive;
use crate::ask::outcome_of_ask;
use crate::count::places_held;
use rsl_accounts::Rules;
use rsl_event::{Act, Decision, Event};
use rsl_session::{Outcome, PastEvent, Session};
use rsl_wire::NoMemory;
use std::alloc::Global;

/// What an event does to an account with this history, oldest first, by the session rule.
///
/// It fails only if memory is refused for what it looks up.
#[tactic(auto, unfolding(rsl_session::specs::Rule::outcome_of))]
pub fn outcome(
    alloc: Global,
    rules: &Rules,
    history: &[PastEvent],
    event: &Event,
) -> Result<Outcome, NoMemory>
    requires { RulesFit rules.now }
    ensures outcome { IfOk result (λ did.
        did ≡ outcome_of rules.now (looking_back history.now) event.now) }
    ensures refused { OnErr result (LooksBack history.now event.now.act) }
{
    match &event.act {
        Act::Ask { key, .. } => outcome_of_ask(alloc, rules, history, event, key),
        Act::Alive {
            nas,
            session,
            class,
            ..
        } => {
            let alive = Session {
                nas: nas.try_copy(alloc)?,
                id: session.try_copy(alloc)?,
            };
            outcome_of_alive(alloc, rules, history, event, &alive, *class)
        }
        Act::Stop { .. } | Act::Sweep { .. } | Act::Tick => Ok(Outcome::Passed),
    }
}

/// The events, oldest first, each with what it did.
#[tactic(auto, using(crate::proofs::Whole::past_steps))]
fn past_after(alloc: Global, rules: &Rules, events: &[Event]) -> Result<Vec<PastEvent>, NoMemory>
    requires { RulesFit rules.now }
    ensures past { IfOk result (λ history.
        looking_back history.items ≡ past_of rules.now events.now) }
    ensures refused { OnErr result (0 < length events.now) }
{
    let mut history = Vec::new(alloc);
    for event in events {
        let did = outcome(alloc, rules, &history, event)?;
        history.push(PastEvent {
            event: event.try_copy(alloc)?,
            outcome: did,
        })?;
    }
    Ok(history)
}

/// The decision on an event, from what it did. It allocates nothing.
pub fn decision(outcome: Outcome) -> Decision
    ensures { result ≡ decision_of outcome }
{
    match outcome {
        Outcome::Accepted(number) | Outcome::AcceptedInPlace { number, .. } => Decision::Accept(
            number,
        ),
        Outcome::Refused => Decision::LimitReject,
        Outcome::Repeated(decision) => decision,
        _ => Decision::Done,
    }
}

/// The decision on each of an account's events, in order, by the session rule.
///
/// It fails only if memory is refused, for the answer or for what it looks up.
#[tactic(auto, using(crate::proofs::Whole::decided_steps, crate::proofs::Memory::events_some))]
pub fn decide(alloc: Global, rules: &Rules, events: &[Event]) -> Result<Vec<Decision>, NoMemory>
    requires { RulesFit rules.now }
    ensures decisions { IfOk result (λ answer. answer.items ≡ decisions rules.now events.now) }
    ensures refused { OnErr result (0 < length events.now) }
{
    let history = past_after(alloc, rules, events)?;
    let mut decisions = Vec::new(alloc);
    for entry in &history {
        decisions.push(decision(entry.outcome))?;
    }
    Ok(decisions)
}

/// The places that an account holds after its events, by the session rule: never more than its
/// rules allow.
///
/// It fails only if memory is refused for what it looks up.
#[tactic(auto, using(crate::proofs::Whole::places_steps, crate::proofs::Memory::events_some))]
pub fn places(alloc: Global, rules: &Rules, events: &[Event]) -> Result<u32, NoMemory>
    requires { RulesFit rules.now }
    ensures exact { IfOk result (λ held. held ≡ places_after rules.now events.now) }
    ensures limit { IfOk result (λ held. held ≤ rules.now.places) }
    ensures refused { OnErr result (0 < length events.now) }
{
    let history = past_after(alloc, rules, events)?;
    Ok(places_held(alloc, rules, &history)? as u32)
}
