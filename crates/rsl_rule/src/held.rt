ghost use Rattle.std.specs.Prelude.{◌≡◌, ◌==◌, filter, map, not, IfOk, ◌<◌, OnErr, length};
ghost use Rattle.rsl_accounts.specs.Limits.{RulesFit};
ghost use Rattle.rsl_session.specs.Past.{looking_back};
ghost use Rattle.rsl_session.specs.Held.{held_links, held_before};
ghost use Rattle.rsl_rule.specs.Holding.{standings};
ghost use Rattle.rsl_rule.specs.declared.holding.HeldLink.{HeldLink};

use crate::holding::{HeldLink, holding_after};
use rsl_accounts::Rules;
use rsl_event::Event;
use rsl_session::PastEvent;
use rsl_wire::NoMemory;
use std::alloc::Global;

/// The numbers of some held links.
#[tactic(auto, using(crate::proofs::Lists::map_steps))]
pub(crate) fn numbers_of(alloc: Global, held: &[HeldLink]) -> Result<Vec<usize>, NoMemory>
    ensures numbers { IfOk result (λ links.
        links.items ≡ map (λ (one : HeldLink). one.link) held.now) }
    ensures refused { OnErr result (0 < length held.now) }
{
    let mut links = Vec::new(alloc);
    for one in held {
        links.push(one.link)?;
    }
    Ok(links)
}

/// Some links without one of them.
#[tactic(auto, using(crate::proofs::Lists::filter_steps))]
pub(crate) fn links_but(alloc: Global, links: &[usize], but: usize) -> Result<Vec<usize>, NoMemory>
    ensures others { IfOk result (λ others. others.items ≡
        filter (λ other. not (other == but)) links.now) }
    ensures refused { OnErr result (0 < length links.now) }
{
    let mut others = Vec::new(alloc);
    for other in links {
        if *other != but {
            others.push(*other)?;
        }
    }
    Ok(others)
}

/// The held links, in the order in which they opened.
#[tactic(auto, using(crate::proofs::Standings::numbers, crate::proofs::Memory::holding_some))]
pub(crate) fn held_links(
    alloc: Global,
    rules: &Rules,
    history: &[PastEvent],
) -> Result<Vec<usize>, NoMemory>
    requires { RulesFit rules.now }
    ensures links { IfOk result (λ links.
        links.items ≡ held_links rules.now (looking_back history.now)) }
    ensures refused { OnErr result (0 < length history.now) }
{
    let holding = holding_after(alloc, rules, history)?;
    numbers_of(alloc, &holding.links)
}

/// The links that are still held when an event comes: those that do not lapse then.
pub(crate) fn links_before(
    alloc: Global,
    rules: &Rules,
    history: &[PastEvent],
    event: &Event,
) -> Result<Vec<HeldLink>, NoMemory>
    requires { RulesFit rules.now }
    ensures links { IfOk result (λ links. links.items ≡ standings (looking_back history.now)
        (held_before rules.now (looking_back history.now) event.now)) }
    ensures refused { OnErr result (0 < length history.now) }
{
    let holding = holding_after(alloc, rules, history)?;
    let mut links = Vec::new(alloc);
    for held in holding.links {
        if !held.standing.lapses(rules, event) {
            links.push(held)?;
        }
    }
    Ok(links)
}
