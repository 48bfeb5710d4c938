ghost use Rattle.std.specs.Prelude.{◌≡◌, ◌==◌, if◌then◌else◌};
ghost use Rattle.std.specs.Option.{option_copied};
ghost use Rattle.rsl_session.specs.Past.{looking_back, entry_at};
ghost use Rattle.rsl_session.specs.Link.{nas_of, number_at, number_of, opens};
ghost use Rattle.rsl_session.specs.Binding.{touches};
ghost use Rattle.rsl_session.specs.Held.{is_nas, is_at};

use rsl_event::{Act, Nas};
use rsl_session::{Outcome, PastEvent};

/// Whether an event opened a link.
#[tactic(auto, unfolding(rsl_session::specs::Link::opens))]
pub(crate) fn opens_link(outcome: Outcome) -> bool
    ensures { result ≡ opens outcome }
{
    matches!(
        outcome,
        Outcome::Accepted(_) | Outcome::AcceptedInPlace { .. } | Outcome::Opened
    )
}

/// The accept number that an event gave.
#[tactic(auto, unfolding(rsl_session::specs::Link::number_of))]
pub(crate) fn accept_number(outcome: Outcome) -> Option<u64>
    ensures { result ≡ number_of outcome }
{
    match outcome {
        Outcome::Accepted(number) | Outcome::AcceptedInPlace { number, .. } => Some(number),
        _ => None,
    }
}

/// Whether the event with this number opened, took or renewed a link.
#[tactic(auto, unfolding(rsl_session::specs::Binding::touches))]
pub(crate) fn touches_link(link: usize, number: usize, outcome: Outcome) -> bool
    ensures { result ≡ touches link number outcome }
{
    match outcome {
        Outcome::Accepted(_) | Outcome::AcceptedInPlace { .. } | Outcome::Opened => link == number,
        Outcome::Took(touched) | Outcome::Renewed(touched) => link == touched,
        _ => false,
    }
}

/// The clock when a link opened, after the event with this number has moved the clock.
pub(crate) fn opening_after(link: usize, number: usize, clock: u64, opened: u64) -> u64
    ensures { result ≡ if link == number then clock else opened }
{
    if link == number { clock } else { opened }
}

/// The clock at a link's last touch, after the event with this number has moved the clock.
pub(crate) fn touch_after(
    link: usize,
    number: usize,
    outcome: Outcome,
    clock: u64,
    touched: u64,
) -> u64
    ensures { result ≡ if touches link number outcome then clock else touched }
{
    if touches_link(link, number, outcome) {
        clock
    } else {
        touched
    }
}

/// The entry with this number.
#[tactic(auto, using(crate::proofs::Looking::entry_steps))]
fn entry_at(number: usize, history: &[PastEvent]) -> Option<&PastEvent>
    ensures { option_copied result ≡ entry_at number (looking_back history.now) }
{
    if number == 0 {
        None
    } else {
        history.get(number - 1)
    }
}

/// Whether an act is of an access server.
#[tactic(auto, unfolding(rsl_session::specs::Link::nas_of))]
fn is_act_at(act: &Act, nas: &Nas) -> bool
    ensures { result ≡ is_nas (nas_of act.now) nas.now }
{
    match act {
        Act::Ask { nas: other, .. }
        | Act::Alive { nas: other, .. }
        | Act::Stop { nas: other, .. }
        | Act::Sweep { nas: other, .. } => other.is_same(nas),
        Act::Tick => false,
    }
}

/// Whether a link is at an access server.
#[tactic(auto, unfolding(rsl_session::specs::Held::is_at, rsl_session::specs::Link::nas_at))]
pub(crate) fn is_link_at(history: &[PastEvent], nas: &Nas, link: usize) -> bool
    ensures { result ≡ is_at (looking_back history.now) nas.now link }
{
    match entry_at(link, history) {
        Some(entry) => is_act_at(&entry.event.act, nas),
        None => false,
    }
}

/// The accept number of a link that an ask opened.
#[tactic(auto, unfolding(rsl_session::specs::Link::number_at))]
pub(crate) fn number_of_link(link: usize, history: &[PastEvent]) -> Option<u64>
    ensures { result ≡ number_at link (looking_back history.now) }
{
    match entry_at(link, history) {
        Some(entry) => accept_number(entry.outcome),
        None => None,
    }
}
