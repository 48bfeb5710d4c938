//! Long pasts: no call wants memory that it need not have.

use crate::outcomes::push_outcome;
use rsl_accounts::Rules;
use rsl_event::Event;
use rsl_rule::{decide, outcome, places};
use rsl_session::PastEvent;
use std::alloc::Global;
use std::test::Fail;
use test_rows::{Subject, check_rows};
use test_timelines::{event_in, rules_of};

/// Rules, how many events the past has, and an event: what it does after them, how many decisions
/// there are on the past, and how many places it holds.
struct Past;

impl Subject for Past {
    fn found(&self, alloc: Global, fields: &[&str]) -> Result<String, Fail> {
        let [rules, events, line] = fields else {
            return Err("rules, a number and an event")?;
        };
        let events = past_of(alloc, events.parse()?)?;
        let rules = rules_of(rules)?;
        let event = event_in(alloc, line)?;
        told(alloc, &rules, &events, &event)
    }
}

/// A link of a bundle, which no alive renews, and one that an alive renews every 1,000 seconds.
fn past_of(alloc: Global, count: u64) -> Result<Vec<Event>, Fail> {
    let mut events = Vec::new(alloc);
    events.push(event_in(alloc, "alive 0 n s1 multi=m")?)?;
    for second in 1..count {
        events.push(event_at(alloc, second)?)?;
    }
    Ok(events)
}

fn event_at(alloc: Global, second: u64) -> Result<Event, Fail> {
    let line = match second % 1000 {
        0 => format!(in alloc; "alive {second} n s2")?,
        _ => format!(in alloc; "tick {second}")?,
    };
    event_in(alloc, line.as_str())
}

fn told(alloc: Global, rules: &Rules, events: &[Event], event: &Event) -> Result<String, Fail> {
    let mut text = told_of_event(alloc, rules, events, event)?;
    write!(text, ", {} decisions", decisions_on(alloc, rules, events)?)?;
    write!(text, ", {} places", places_of(alloc, rules, events)?)?;
    Ok(text)
}

fn told_of_event(
    alloc: Global,
    rules: &Rules,
    events: &[Event],
    event: &Event,
) -> Result<String, Fail> {
    let mut history = Vec::new(alloc);
    for past in events {
        push_past(alloc, rules, &mut history, past)?;
    }
    let mut text = String::new(alloc);
    push_outcome(&mut text, &outcome_of(alloc, rules, &history, event)?)?;
    Ok(text)
}

/// Adds an event and what it did to a history.
fn push_past(
    alloc: Global,
    rules: &Rules,
    history: &mut Vec<PastEvent>,
    event: &Event,
) -> Result<(), Fail> {
    let did = outcome_of(alloc, rules, history, event)?;
    history.push(PastEvent {
        event: event.try_copy(alloc)?,
        outcome: did,
    })?;
    Ok(())
}

fn outcome_of(
    alloc: Global,
    rules: &Rules,
    history: &[PastEvent],
    event: &Event,
) -> Result<rsl_session::Outcome, Fail> {
    if !rules.fits() {
        return Err("the rules do not fit")?;
    }
    Ok(outcome(alloc, rules, history, event)?)
}

fn decisions_on(alloc: Global, rules: &Rules, events: &[Event]) -> Result<usize, Fail> {
    if !rules.fits() {
        return Err("the rules do not fit")?;
    }
    Ok(decide(alloc, rules, events)?.len())
}

fn places_of(alloc: Global, rules: &Rules, events: &[Event]) -> Result<u32, Fail> {
    if !rules.fits() {
        return Err("the rules do not fit")?;
    }
    Ok(places(alloc, rules, events)?)
}

#[test]
fn a_long_past_is_looked_through(rt: HostRuntime) -> Result<(), Fail> {
    check_rows(
        &rt,
        &Past,
        "
an ask | places=2 live=3000 grace=3000 | 5000 | ask 5000 n 1 \
    | AcceptedInPlace { number: 0, yielded: 1 }, 5000 decisions, 2 places
",
    )
}
