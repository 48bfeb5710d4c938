ghost use Rattle.std.specs.Prelude.{◌≡◌, IfOk};
ghost use Rattle.rsl_accounts.specs.Limits.{RulesFit};
ghost use Rattle.rsl_session.specs.Past.{looking_back};
ghost use Rattle.rsl_session.specs.Alive.{
  alive_outcome,
  has_room,
  is_number,
  link_of,
  reservation_of,
  unbound_outcome,
};
ghost use Rattle.rsl_session.specs.Binding.{is_session};
ghost use Rattle.rsl_session.specs.Held.{held_before};
ghost use Rattle.rsl_rule.specs.Holding.{standings};
ghost use Rattle.rsl_rule.specs.Standing.{can_be_taken_so, link_where};

use crate::binding::bundle_of_act;
use crate::closed::is_session_closed;
use crate::count::{bundles_of, places_taken};
use crate::held::{links_before, numbers_of};
use crate::holding::HeldLink;
use crate::link::{is_link_at, number_of_link};
use rsl_accounts::Rules;
use rsl_event::{Event, Nas};
use rsl_session::{Outcome, PastEvent, Session};
use rsl_wire::NoMemory;
use std::alloc::Global;

/// The held link that a session is bound to when its alive comes.
fn link_of_session(before: &[HeldLink], session: &Session) -> Option<usize>
    ensures { result ≡
        link_where (λ held. is_session held.standing.session session.now) before.now }
{
    before
        .iter()
        .find(|held| held.standing.is_bound_to(&session.nas, &session.id))
        .map(|held| held.link)
}

/// Whether an accept number is the one that a class names. Without a class any number is.
fn is_named(class: Option<u64>, number: Option<u64>) -> bool
    ensures { result ≡ is_number class number }
{
    match (class, number) {
        (None, _) => true,
        (Some(_), None) => false,
        (Some(wanted), Some(number)) => number == wanted,
    }
}

/// Whether a held link is a reservation that an alive can take.
fn can_take(history: &[PastEvent], nas: &Nas, class: Option<u64>, held: &HeldLink) -> bool
    ensures { result ≡ can_be_taken_so (looking_back history.now) nas.now class held.now }
{
    held.standing.session.is_none()
        && is_link_at(history, nas, held.link)
        && is_named(class, number_of_link(held.link, history))
}

/// The reservation that an alive takes, if any.
fn chosen_reservation(
    history: &[PastEvent],
    before: &[HeldLink],
    nas: &Nas,
    class: Option<u64>,
) -> Option<usize>
    ensures { result ≡
        link_where (can_be_taken_so (looking_back history.now) nas.now class) before.now }
{
    before
        .iter()
        .find(|held| can_take(history, nas, class, held))
        .map(|held| held.link)
}

/// Whether another link with the event's bundle can open.
#[tactic(auto, unfolding(rsl_session::specs::Alive::has_room))]
fn can_open(
    alloc: Global,
    rules: &Rules,
    history: &[PastEvent],
    event: &Event,
    before: &[HeldLink],
) -> Result<bool, NoMemory>
    requires rules_fit { RulesFit rules.now }
    requires stand_so { before.now ≡ standings (looking_back history.now)
        (held_before rules.now (looking_back history.now) event.now) }
    ensures { IfOk result (λ room. room ≡ has_room rules.now (looking_back history.now) event.now) }
{
    let links = numbers_of(alloc, before)?;
    let mut bundles = bundles_of(alloc, history, &links)?;
    bundles.push(bundle_of_act(alloc, &event.act)?)?;
    Ok(places_taken(rules.ports, &bundles) <= rules.places)
}

/// What an alive does if it renews no link and its session is not closed.
fn outcome_of_unbound(
    alloc: Global,
    rules: &Rules,
    history: &[PastEvent],
    event: &Event,
    before: &[HeldLink],
    nas: &Nas,
    class: Option<u64>,
) -> Result<Outcome, NoMemory>
    requires rules_fit { RulesFit rules.now }
    requires stand_so { before.now ≡ standings (looking_back history.now)
        (held_before rules.now (looking_back history.now) event.now) }
    ensures { IfOk result (λ outcome. outcome ≡
        unbound_outcome rules.now (looking_back history.now) event.now
        (reservation_of rules.now (looking_back history.now) event.now nas.now class)) }
{
    if let Some(link) = chosen_reservation(history, before, nas, class) {
        return Ok(Outcome::Took(link));
    }
    if can_open(alloc, rules, history, event, before)? {
        Ok(Outcome::Opened)
    } else {
        Ok(Outcome::Over)
    }
}

/// What an alive of a session does.
pub(crate) fn outcome_of_alive(
    alloc: Global,
    rules: &Rules,
    history: &[PastEvent],
    event: &Event,
    session: &Session,
    class: Option<u64>,
) -> Result<Outcome, NoMemory>
    requires { RulesFit rules.now }
    ensures { IfOk result (λ outcome. outcome ≡
        alive_outcome rules.now (looking_back history.now) event.now session.now class
        (link_of rules.now (looking_back history.now) event.now session.now)) }
{
    let before = links_before(alloc, rules, history, event)?;
    if let Some(link) = link_of_session(&before, session) {
        return Ok(Outcome::Renewed(link));
    }
    if is_session_closed(alloc, rules, history, event, session)? {
        return Ok(Outcome::Ignored);
    }
    outcome_of_unbound(alloc, rules, history, event, &before, &session.nas, class)
}
