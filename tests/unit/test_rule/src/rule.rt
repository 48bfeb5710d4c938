//! Tests of `rsl_rule`: timelines of an account, each line with what the event did and the places
//! held after it. What is expected was worked out by hand from the session rule.

mod alives;
mod asks;
mod bundles;
mod sizes;
mod stations;
mod sweeps;
mod yielding;

use crate::outcomes::push_outcome;
use rsl_accounts::Rules;
use rsl_event::Event;
use rsl_rule::{decide, decision, outcome, places};
use rsl_session::PastEvent;
use std::process::Abort;
use std::test::Fail;
use test_timelines::{event_of, push_value, rules_of, text_of};

/// The name of a timeline, its rules, and its lines.
type Row<'a> = (&'a str, &'a str, &'a [&'a str]);

/// Goes over each timeline of a table, line by line.
fn check<R: AllocGlobal + Abort>(rt: &R, rows: &[Row<'_>]) -> Result<(), Fail> {
    for (name, rules, lines) in rows {
        let mut account = Account::new(rt, rules)?;
        for line in *lines {
            let found = account.told(rt, line)?;
            assert_eq!(rt; found.as_str(), *line, "{name}");
        }
        assert!(rt; account.is_decided(rt)?, "{name}: decisions");
    }
    Ok(())
}

/// An account's events so far.
#[derive(Drop)]
struct Account {
    rules: Rules,
    events: Vec<Event>,
    history: Vec<PastEvent>,
}

impl Account {
    fn new<R: AllocGlobal>(rt: &R, rules: &str) -> Result<Account, Fail> {
        Ok(Account {
            rules: rules_of(rules)?,
            events: Vec::new(rt.alloc()),
            history: Vec::new(rt.alloc()),
        })
    }

    /// A line with what its event does, and the places held after it.
    fn told<R: AllocGlobal>(&mut self, rt: &R, line: &str) -> Result<String, Fail> {
        if !self.rules.fits() {
            return Err(Fail::from("the rules do not fit"));
        }
        let event = event_of(rt, line)?;
        let did = outcome(rt.alloc(), &self.rules, &self.history, &event)?;
        self.history.push(PastEvent {
            event,
            outcome: did,
        })?;
        self.events.push(event_of(rt, line)?)?;
        let held = places(rt.alloc(), &self.rules, &self.events)?;
        let mut told = String::from_str(rt.alloc(), text_of(line))?;
        told.push_str(" -> ")?;
        push_outcome(&mut told, &did)?;
        push_value(&mut told, ", ", &held, "")?;
        Ok(told)
    }

    /// Whether `decide` says of each event so far what `decision` says of what it did.
    fn is_decided<R: AllocGlobal>(&self, rt: &R) -> Result<bool, Fail> {
        if !self.rules.fits() {
            return Err(Fail::from("the rules do not fit"));
        }
        let decisions = decide(rt.alloc(), &self.rules, &self.events)?;
        Ok(
            decisions.len() == self.history.len()
                && decisions
                    .iter()
                    .zip(self.history.iter())
                    .all(|(one, past)| *one == decision(past.outcome)),
        )
    }
}
