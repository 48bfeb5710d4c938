ghost use Rattle.std.specs.Prelude.{◌≡◌, ◌<◌, IfOk, count_by, OnErr, length};
ghost use Rattle.rsl_session.specs.Past.{looking_back};
ghost use Rattle.std.specs.Int.{div_ceil};
ghost use Rattle.rsl_accounts.specs.Limits.{RulesFit};
ghost use Rattle.rsl_session.specs.Ask.{has_place_beside};
ghost use Rattle.rsl_session.specs.Places.{bundles, is_bundle, places, places_of};

use crate::binding::bundle_of_link;
use crate::held::held_links;
use rsl_accounts::Rules;
use rsl_session::{Bundle, PastEvent};
use rsl_wire::NoMemory;
use std::alloc::Global;

/// The bundles of some links.
#[tactic(auto, using(crate::proofs::Lists::map_steps), unfolding(rsl_session::specs::Places::bundles))]
pub(crate) fn bundles_of(
    alloc: Global,
    history: &[PastEvent],
    links: &[usize],
) -> Result<Vec<Option<Bundle>>, NoMemory>
    ensures bundles { IfOk result (λ each.
        each.items ≡ bundles (looking_back history.now) links.now) }
    ensures refused { OnErr result (0 < length links.now) }
{
    let mut each = Vec::new(alloc);
    for link in links {
        each.push(bundle_of_link(alloc, *link, history)?)?;
    }
    Ok(each)
}

/// Whether a link's bundle is this one.
fn is_bundle(bundle: &Bundle, other: &Option<Bundle>) -> bool
    ensures { result ≡ is_bundle bundle.now other.now }
{
    match other {
        Some(other) => other.is_same(bundle),
        None => false,
    }
}

/// How many of some links are in a bundle.
fn link_count(bundle: &Bundle, bundles: &[Option<Bundle>]) -> usize
    ensures { result ≡ count_by (is_bundle bundle.now) bundles.now }
{
    bundles
        .iter()
        .filter(|other| is_bundle(bundle, other))
        .count()
}

/// The places that a bundle takes.
fn places_of_bundle(ports: u64, bundle: &Bundle, bundles: &[Option<Bundle>]) -> u64
    requires { 0 < ports }
    ensures { result ≡ div_ceil (count_by (is_bundle bundle.now) bundles.now) ports }
{
    (link_count(bundle, bundles) as u64).div_ceil(ports)
}

/// The places of some links, by the bundle of each: the last of a bundle's links counts the bundle.
#[tactic(auto, using(crate::proofs::Counted::places_steps))]
pub(crate) fn places_taken(ports: u64, bundles: &[Option<Bundle>]) -> u64
    requires { 0 < ports }
    ensures { result ≡ places_of ports bundles.now }
{
    let mut places = 0u64;
    for (at, bundle) in bundles.iter().enumerate() {
        match bundle {
            None => places += 1,
            Some(bundle) => {
                if link_count(bundle, &bundles[at + 1..]) == 0 {
                    places += places_of_bundle(ports, bundle, bundles);
                }
            }
        }
    }
    places
}

/// Whether another link without a bundle can open beside some links.
#[tactic(auto, unfolding(rsl_session::specs::Ask::has_place_beside))]
pub(crate) fn has_place_beside(
    alloc: Global,
    rules: &Rules,
    history: &[PastEvent],
    links: &[usize],
) -> Result<bool, NoMemory>
    requires { RulesFit rules.now }
    ensures free { IfOk result (λ free. free ≡
        has_place_beside rules.now (looking_back history.now) links.now) }
    ensures refused { OnErr result (0 < length links.now) }
{
    let bundles = bundles_of(alloc, history, links)?;
    Ok(places_taken(rules.ports, &bundles) < rules.places)
}

/// The places that an account with this history, oldest first, holds by the session rule.
///
/// It fails only if memory is refused for what it looks up.
#[tactic(auto, using(crate::proofs::Memory::links_some), unfolding(rsl_session::specs::Places::places))]
pub fn places_held(alloc: Global, rules: &Rules, history: &[PastEvent]) -> Result<u64, NoMemory>
    requires { RulesFit rules.now }
    ensures places { IfOk result (λ held. held ≡ places rules.now (looking_back history.now)) }
    ensures refused { OnErr result (0 < length history.now) }
{
    let links = held_links(alloc, rules, history)?;
    let bundles = bundles_of(alloc, history, &links)?;
    Ok(places_taken(rules.ports, &bundles))
}
