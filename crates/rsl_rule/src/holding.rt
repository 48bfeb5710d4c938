ghost use Rattle.std.specs.Prelude.{◌≡◌, [], ◌∷◌, ◌<◌, ◌+◌, ◌||◌, length, max, true, IfOk, OnErr};
ghost use Rattle.rsl_accounts.specs.Limits.{RulesFit};
ghost use Rattle.rsl_accounts.specs.declared.rules.Rules.{Rules};
ghost use Rattle.rsl_session.specs.Past.{looking_back};
ghost use Rattle.rsl_session.specs.Clock.{clock};
ghost use Rattle.rsl_session.specs.Link.{opens};
ghost use Rattle.rsl_session.specs.Binding.{session_at};
ghost use Rattle.rsl_session.specs.Held.{ended_by, ends, held_links, yields};
ghost use Rattle.rsl_rule.specs.Standing.{standing_of};
ghost use Rattle.rsl_rule.specs.Holding.{IsHolding, furthest_taken, lasting, standings, taken_by};

use crate::binding::{session_after, session_of_link};
use crate::link::{is_link_at, opens_link};
use crate::standing::Standing;
use crate::sweep::precedes_restart;
use rsl_accounts::Rules;
use rsl_event::{Act, Event};
use rsl_session::{Outcome, PastEvent, Session};
use rsl_wire::NoMemory;
use std::alloc::Global;

/// A link that is held.
#[derive(Drop)]
pub(crate) struct HeldLink {
    /// The link.
    pub link: usize,
    /// How it stands.
    pub standing: Standing,
}

/// The links that are held after some events, as one pass over the events carries them.
#[derive(Drop)]
pub(crate) struct Holding {
    /// The held links, in the order in which they opened.
    pub links: Vec<HeldLink>,
    /// The account's clock.
    pub clock: u64,
    /// The greatest number of a link that an alive took.
    pub furthest: usize,
}

/// Whether an act, now, ends a link of this standing.
#[tactic(auto, unfolding(rsl_session::specs::Held::ended_by, rsl_session::specs::Binding::is_bound_to, crate::specs::Standing::standing_of))]
fn is_ended_by(history: &[PastEvent], now: u64, act: &Act, link: usize, standing: &Standing) -> bool
    requires { standing.now ≡ standing_of link (looking_back history.now) }
    ensures { result ≡ ended_by (looking_back history.now) now act.now link }
{
    match act {
        Act::Stop { nas, session } => standing.is_bound_to(nas, session),
        Act::Sweep { nas, delay } => {
            is_link_at(history, nas, link) && precedes_restart(standing.opened, *delay, now)
        }
        _ => false,
    }
}

/// Whether a link of this standing ends at an event.
#[tactic(auto, unfolding(rsl_session::specs::Held::ends, rsl_session::specs::Lapse::lapses, rsl_session::specs::Clock::clock_at, crate::specs::Standing::standing_of))]
fn ends_at(
    rules: &Rules,
    history: &[PastEvent],
    event: &Event,
    link: usize,
    standing: &Standing,
) -> bool
    requires rules_fit { RulesFit rules.now }
    requires stands_so { standing.now ≡ standing_of link (looking_back history.now) }
    ensures { result ≡ ends rules.now (looking_back history.now) event.now link }
{
    let now = standing.clock.max(event.moment);
    standing.lapses(rules, event) || is_ended_by(history, now, &event.act, link, standing)
}

/// Whether an event of this outcome makes a link yield.
#[tactic(auto, unfolding(rsl_session::specs::Held::yields))]
fn yields_to(link: usize, outcome: Outcome) -> bool
    ensures { result ≡ yields link outcome }
{
    match outcome {
        Outcome::AcceptedInPlace { yielded, .. } => link == yielded,
        _ => false,
    }
}

/// Whether the next entry frees a link of this standing.
fn is_freed_by(
    rules: &Rules,
    history: &[PastEvent],
    entry: &PastEvent,
    link: usize,
    standing: &Standing,
) -> bool
    requires rules_fit { RulesFit rules.now }
    requires stands_so { standing.now ≡ standing_of link (looking_back history.now) }
    ensures { result ≡ (ends rules.now (looking_back history.now) entry.now.event link ||
        yields link entry.now.outcome) }
{
    ends_at(rules, history, &entry.event, link, standing) || yields_to(link, entry.outcome)
}

/// The held links that the next entry does not free, each as it stands after it.
fn links_left(
    alloc: Global,
    rules: &Rules,
    history: &[PastEvent],
    entry: &PastEvent,
    links: Vec<HeldLink>,
) -> Result<Vec<HeldLink>, NoMemory>
    requires rules_fit { RulesFit rules.now }
    requires stand_so { links.items ≡
        standings (looking_back history.now) (held_links rules.now (looking_back history.now)) }
    ensures { IfOk result (λ left. left.items ≡ standings (entry.now ∷ looking_back history.now)
        (lasting rules.now entry.now (looking_back history.now))) }
{
    let mut left = Vec::new(alloc);
    for held in links {
        let link = held.link;
        if !is_freed_by(rules, history, entry, link, &held.standing) {
            let standing = held.standing.after(alloc, link, history, entry)?;
            left.push(HeldLink { link, standing })?;
        }
    }
    Ok(left)
}

/// The number of the link that an event took, or 0.
#[tactic(auto, unfolding(crate::specs::Holding::taken_by))]
fn link_taken(outcome: Outcome) -> usize
    ensures { result ≡ taken_by outcome }
{
    match outcome {
        Outcome::Took(taken) => taken,
        _ => 0,
    }
}

/// The session that a link is bound to before the entry that opens it.
///
/// There is one only if an alive took the number of a link that had not opened. The rule takes held
/// links alone, so no past that follows it gets here.
#[tactic(auto, using(crate::proofs::Carried::unbound))]
fn session_before(
    alloc: Global,
    link: usize,
    history: &[PastEvent],
    furthest: usize,
) -> Result<Option<Session>, NoMemory>
    requires unopened { length history.now < link }
    requires greatest { furthest ≡ furthest_taken (looking_back history.now) }
    ensures { IfOk result (λ session. session ≡ session_at link (looking_back history.now)) }
{
    if furthest < link {
        Ok(None)
    } else {
        session_of_link(alloc, link, history)
    }
}

/// The standing of a link after the entry that opened it, at the clock after that entry.
#[tactic(auto, using(crate::proofs::Carried::opened_stands))]
fn standing_of_opened(
    alloc: Global,
    history: &[PastEvent],
    entry: &PastEvent,
    now: u64,
    furthest: usize,
) -> Result<Standing, NoMemory>
    requires opened { opens entry.now.outcome ≡ true }
    requires at { now ≡ max (clock (looking_back history.now)) entry.now.event.moment }
    requires greatest { furthest ≡ furthest_taken (looking_back history.now) }
    ensures { IfOk result (λ standing. standing ≡
        standing_of (length history.now + 1) (entry.now ∷ looking_back history.now)) }
{
    let link = history.len() + 1;
    let bound = session_before(alloc, link, history, furthest)?;
    let session = session_after(alloc, bound, link, link, entry)?;
    Ok(Standing {
        clock: now,
        opened: now,
        touched: now,
        session,
    })
}

impl Holding {
    /// No link, before the first event.
    #[tactic(auto, using(crate::proofs::Carried::holding_none))]
    fn new(alloc: Global) -> Holding
        ensures { (rules : Rules) → IsHolding rules (looking_back []) result }
    {
        Holding {
            links: Vec::new(alloc),
            clock: 0,
            furthest: 0,
        }
    }

    /// The held links after the next entry.
    fn after(
        self,
        alloc: Global,
        rules: &Rules,
        history: &[PastEvent],
        entry: &PastEvent,
    ) -> Result<Holding, NoMemory>
        requires rules_fit { RulesFit rules.now }
        requires held_so { IsHolding rules.now (looking_back history.now) self }
        ensures { IfOk result (λ next.
            IsHolding rules.now (entry.now ∷ looking_back history.now) next) }
    {
        let clock = self.clock.max(entry.event.moment);
        let furthest = self.furthest;
        let mut links = links_left(alloc, rules, history, entry, self.links)?;
        if opens_link(entry.outcome) {
            let link = history.len() + 1;
            let standing = standing_of_opened(alloc, history, entry, clock, furthest)?;
            links.push(HeldLink { link, standing })?;
        }
        Ok(Holding {
            links,
            clock,
            furthest: furthest.max(link_taken(entry.outcome)),
        })
    }
}

/// The held links after a whole past.
pub(crate) fn holding_after(
    alloc: Global,
    rules: &Rules,
    history: &[PastEvent],
) -> Result<Holding, NoMemory>
    requires { RulesFit rules.now }
    ensures holding { IfOk result (λ holding.
        IsHolding rules.now (looking_back history.now) holding) }
    ensures refused { OnErr result (0 < length history.now) }
{
    let mut holding = Holding::new(alloc);
    for (at, entry) in history.iter().enumerate() {
        holding = holding.after(alloc, rules, &history[..at], entry)?;
    }
    Ok(holding)
}
