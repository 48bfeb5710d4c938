use super::draw::Draw;
use super::found::Found;
use crate::outcomes::push_outcome;
use rsl_accounts::Rules;
use rsl_book::Book;
use rsl_event::{Act, Decision, Event};
use rsl_rule::{decide, decision, outcome, places, places_held};
use rsl_session::{Outcome, PastEvent};
use rsl_wire::NoMemory;
use std::alloc::Global;
use std::test::Fail;
use test_timelines::{push_event, push_rules};

/// An account's events so far, on two books and as the rule sees them.
#[derive(Drop)]
struct Account {
    /// It takes every event by `apply`.
    book: Book,
    /// It takes sweeps and ticks by the calls of their names.
    called: Book,
    events: Vec<Event>,
    /// The same events, each with what it did, oldest first.
    history: Vec<PastEvent>,
    decisions: Vec<Decision>,
}

/// The rules and the history of the next list that is drawn, up to where the books and the rule
/// differ, if they do.
pub(crate) fn difference(
    alloc: Global,
    draw: &mut Draw,
    found: &mut Found,
    events: u64,
) -> Result<Option<String>, Fail> {
    draw.begin();
    let rules = draw.rules();
    let mut account = Account::new(alloc, rules)?;
    account.difference(alloc, &rules, draw, found, events)
}

/// Hands an event to a book, a sweep and a tick by the calls of their names.
fn call(alloc: Global, book: &mut Book, event: &Event) -> Result<Decision, NoMemory> {
    match &event.act {
        Act::Sweep { nas, delay } => book.sweep(event.moment, nas, *delay),
        Act::Tick => book.tick(event.moment),
        _ => return Ok(book.apply(event.try_copy(alloc)?)),
    }
    Ok(Decision::Done)
}

/// What a book shows of itself.
fn shown(book: &Book) -> [u64; 9] {
    let stored = book.stored();
    [
        book.held(),
        book.reserved(),
        book.live(),
        book.stale(),
        book.over(),
        book.now(),
        stored.links as u64,
        stored.kept as u64,
        stored.closed as u64,
    ]
}

/// Whether every link that a book stores is reserved, live or stale.
fn is_each_link_shown(book: &Book) -> bool {
    book.reserved()
        .saturating_add(book.live())
        .saturating_add(book.stale())
        == book.stored().links as u64
}

impl Account {
    fn new(alloc: Global, rules: Rules) -> Result<Account, NoMemory> {
        Ok(Account {
            book: Book::new(alloc, rules)?,
            called: Book::new(alloc, rules)?,
            events: Vec::new(alloc),
            history: Vec::new(alloc),
            decisions: Vec::new(alloc),
        })
    }

    /// The rules and the history where the books and the rule differ on one of `events` events.
    fn difference(
        &mut self,
        alloc: Global,
        rules: &Rules,
        draw: &mut Draw,
        found: &mut Found,
        events: u64,
    ) -> Result<Option<String>, Fail> {
        for _ in 0..events {
            if !self.agrees_on_next(alloc, rules, draw, found)? {
                return Ok(Some(self.told(alloc, rules)?));
            }
        }
        if self.is_as_of_its_events(alloc, rules)? {
            return Ok(None);
        }
        Ok(Some(self.told(alloc, rules)?))
    }

    /// Whether both books decide on the next event that is drawn as the rule does.
    fn agrees_on_next(
        &mut self,
        alloc: Global,
        rules: &Rules,
        draw: &mut Draw,
        found: &mut Found,
    ) -> Result<bool, NoMemory> {
        let event = draw.event(alloc, rules)?;
        self.agrees_on(alloc, rules, found, &event)
    }

    /// Whether both books decide on an event as the rule does, hold as many places, and show the
    /// same.
    fn agrees_on(
        &mut self,
        alloc: Global,
        rules: &Rules,
        found: &mut Found,
        event: &Event,
    ) -> Result<bool, NoMemory> {
        let did = outcome(alloc, rules, &self.history, event)?;
        found.note(did);
        self.note_kinds(alloc, rules, found, event, did)?;
        self.note(alloc, event, did)?;
        let decided = self.book.apply(event.try_copy(alloc)?);
        let called = call(alloc, &mut self.called, event)?;
        self.decisions.push(decided)?;
        let decides = decided == decision(did) && decided == called;
        Ok(decides && self.shows_as_the_rule(alloc, rules)?)
    }

    /// Notes whether a station decides what an ask does, and whether a sweep leaves what came after the
    /// restart.
    fn note_kinds(
        &self,
        alloc: Global,
        rules: &Rules,
        found: &mut Found,
        event: &Event,
        did: Outcome,
    ) -> Result<(), NoMemory> {
        match &event.act {
            Act::Ask {
                key,
                nas,
                station: Some(_),
            } => {
                let act = Act::Ask {
                    key: *key,
                    nas: nas.try_copy(alloc)?,
                    station: None,
                };
                let moment = event.moment;
                let without = outcome(alloc, rules, &self.history, &Event { moment, act })?;
                found.note_station(did, without);
            }
            Act::Sweep { nas, delay } => {
                let (mut late, mut prompt) = (
                    self.book.try_copy(alloc)?,
                    self.book.try_copy(alloc)?,
                );
                // what has lapsed by then is no part of it
                let mut before = self.book.try_copy(alloc)?;
                before.tick(event.moment);
                late.sweep(event.moment, nas, *delay);
                prompt.sweep(event.moment, nas, 0);
                let [before, left, without] = [before, late, prompt].map(|book| book
                    .stored()
                    .links);
                found.note_sweep(before, left, without);
            }
            _ => {}
        }
        Ok(())
    }

    /// Puts an event after the others, with what it did.
    fn note(&mut self, alloc: Global, event: &Event, did: Outcome) -> Result<(), NoMemory> {
        self.events.push(event.try_copy(alloc)?)?;
        let event = event.try_copy(alloc)?;
        Ok(
            self.history.push(PastEvent {
                event,
                outcome: did,
            })?,
        )
    }

    /// Whether both books show the same, and the places that the rule finds.
    fn shows_as_the_rule(&self, alloc: Global, rules: &Rules) -> Result<bool, NoMemory> {
        let held = places_held(alloc, rules, &self.history)?;
        Ok(
            self.book.held() == held
                && is_each_link_shown(&self.book)
                && shown(&self.book) == shown(&self.called),
        )
    }

    /// Whether the rule finds the same decisions and places from the events alone.
    fn is_as_of_its_events(&self, alloc: Global, rules: &Rules) -> Result<bool, NoMemory> {
        let decisions = decide(alloc, rules, &self.events)?;
        let held = u64::from(places(alloc, rules, &self.events)?);
        Ok(decisions == self.decisions && held == self.book.held())
    }

    /// The account's rules and history.
    fn told(&self, alloc: Global, rules: &Rules) -> Result<String, Fail> {
        let mut text = String::new(alloc);
        push_rules(&mut text, rules)?;
        text.push_str(" [")?;
        for (place, past) in self.history.iter().enumerate() {
            text.push_str(if place == 0 { "" } else { ", " })?;
            push_past(&mut text, past)?;
        }
        text.push(']')?;
        Ok(text)
    }
}

fn push_past(text: &mut String, past: &PastEvent) -> Result<(), Fail> {
    text.push_str("PastEvent { event: ")?;
    push_event(text, &past.event)?;
    text.push_str(", outcome: ")?;
    push_outcome(text, &past.outcome)?;
    text.push_str(" }")?;
    Ok(())
}
