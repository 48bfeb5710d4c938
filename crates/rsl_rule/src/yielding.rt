ghost use Rattle.std.specs.Prelude.{◌≡◌};
ghost use Rattle.rsl_session.specs.Past.{looking_back};
ghost use Rattle.rsl_rule.specs.Standing.{is_candidate_so, is_first_so, is_yielding_so, link_where};

use crate::holding::HeldLink;
use crate::station::is_link_of_station;
use rsl_accounts::Rules;
use rsl_event::Event;
use rsl_session::PastEvent;

/// The held links of which one may yield to an ask.
#[derive(Clone, Copy)]
pub(crate) enum Candidates {
    /// Those of the station that asks.
    OfStation,
    /// The idle ones.
    Idle,
}

/// Whether a held link is one of the candidates when an event comes.
fn is_candidate(
    rules: &Rules,
    history: &[PastEvent],
    event: &Event,
    candidates: Candidates,
    held: &HeldLink,
) -> bool
    ensures { result ≡
        is_candidate_so rules.now (looking_back history.now) event.now candidates held.now }
{
    match candidates {
        Candidates::OfStation => is_link_of_station(history, &event.act, held.link),
        Candidates::Idle => held.standing.is_idle(rules, event),
    }
}

/// Whether no candidate was touched before this moment of the account's clock.
fn is_touched_first(
    rules: &Rules,
    history: &[PastEvent],
    event: &Event,
    candidates: Candidates,
    before: &[HeldLink],
    touched: u64,
) -> bool
    ensures { result ≡
        is_first_so rules.now (looking_back history.now) event.now candidates before.now touched }
{
    before.iter().all(|other| touched <= other.standing.touched
        || !is_candidate(rules, history, event, candidates, other))
}

/// The candidate that can yield among the links held when an event comes: the one touched longest
/// ago, and of several the first that opened.
pub(crate) fn yielding_link(
    rules: &Rules,
    history: &[PastEvent],
    event: &Event,
    candidates: Candidates,
    before: &[HeldLink],
) -> Option<usize>
    ensures { result ≡ link_where
        (is_yielding_so rules.now (looking_back history.now) event.now candidates before.now)
        before.now }
{
    before
        .iter()
        .find(|held| {
            let touched = held.standing.touched;
            is_candidate(rules, history, event, candidates, held)
                && is_touched_first(rules, history, event, candidates, before, touched)
        })
        .map(|held| held.link)
}
