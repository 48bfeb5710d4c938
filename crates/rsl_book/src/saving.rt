//! The saved form of what a book holds: each link, ask and stop has its access server itself.

ghost use Rattle.std.specs.Prelude.{◌≡◌, IfOk};
ghost use Rattle.rsl_event.specs.declared.nas.Nas.{Nas};
ghost use Rattle.rsl_links.specs.Seen.{holder_at, link_seen, links_seen};
ghost use Rattle.rsl_book.specs.Seen.{ask_seen, asks_seen, stop_seen, stops_seen};
ghost use Rattle.rsl_session.specs.Saved.{saved_holder, saved_link, saved_links};

use crate::kept::{DecidedAsk, EndedSession, Kept};
use crate::ring::Ring;
use rsl_links::{Holder, Link, LinkList, Servers};
use rsl_session::{KeptAsk, KeptStop, SavedHolder, SavedLink, Session};
use rsl_wire::{NoMemory, Octets};
use std::alloc::Global;

/// The saved form of what holds a link.
fn saved_holder(alloc: Global, holder: &Holder) -> Result<SavedHolder, NoMemory>
    ensures { IfOk result (λ saved. (nas : Nas) → saved_holder nas saved ≡
        holder_at nas holder.now) }
{
    Ok(match holder {
        Holder::Reserved(number) => SavedHolder::Reserved(*number),
        Holder::Bound(id) => SavedHolder::Bound(id.try_copy(alloc)?),
    })
}

/// The saved form of a link.
#[tactic(auto, unfolding(rsl_links::specs::Seen::link_seen, rsl_session::specs::Saved::saved_link))]
fn saved_link(alloc: Global, servers: &Servers, link: &Link) -> Result<SavedLink, NoMemory>
    ensures { IfOk result (λ saved. saved_link saved ≡ link_seen servers.now link.now) }
{
    Ok(SavedLink {
        nas: servers.at(link.nas).try_copy(alloc)?,
        holder: saved_holder(alloc, &link.holder)?,
        bundle: Octets::try_copy_option(alloc, &link.bundle)?,
        station: Octets::try_copy_option(alloc, &link.station)?,
        opened: link.opened,
        touched: link.touched,
    })
}

/// The saved form of the links. It fails only if memory is refused.
#[tactic(auto, using(crate::proofs::OneByOne::stands_steps), unfolding(rsl_links::specs::Seen::links_seen, rsl_session::specs::Saved::saved_links))]
pub(crate) fn saved_links(
    alloc: Global,
    servers: &Servers,
    links: &LinkList,
) -> Result<Vec<SavedLink>, NoMemory>
    ensures { IfOk result (λ saved. saved_links saved.items ≡
        links_seen servers.now links.now.items) }
{
    let mut saved = Vec::with_capacity(alloc, links.len())?;
    for at in 0..links.len() {
        saved.push(saved_link(alloc, servers, links.index(at))?)?;
    }
    Ok(saved)
}

/// The saved form of a fresh ask.
#[tactic(auto, unfolding(crate::specs::Seen::ask_seen))]
fn saved_ask(alloc: Global, servers: &Servers, ask: &Kept<DecidedAsk>) -> Result<KeptAsk, NoMemory>
    ensures { IfOk result (λ saved. saved ≡ ask_seen servers.now ask.now) }
{
    Ok(KeptAsk {
        key: ask.subject.key,
        nas: servers.at(ask.nas).try_copy(alloc)?,
        decision: ask.subject.decision,
        at: ask.at,
        swept: ask.swept,
    })
}

/// The saved form of the last fresh asks. It fails only if memory is refused.
#[tactic(auto, using(crate::proofs::OneByOne::saved_steps), unfolding(crate::specs::Seen::asks_seen))]
pub(crate) fn saved_asks(
    alloc: Global,
    servers: &Servers,
    asks: &Ring<DecidedAsk>,
) -> Result<Vec<KeptAsk>, NoMemory>
    ensures { IfOk result (λ saved. saved.items ≡ asks_seen servers.now asks.now.items) }
{
    let mut saved = Vec::with_capacity(alloc, asks.len())?;
    for index in 0..asks.len() {
        saved.push(saved_ask(alloc, servers, asks.index(index))?)?;
    }
    Ok(saved)
}

/// The saved form of a stop.
#[tactic(auto, unfolding(crate::specs::Seen::stop_seen))]
fn saved_stop(
    alloc: Global,
    servers: &Servers,
    stop: &Kept<EndedSession>,
) -> Result<KeptStop, NoMemory>
    ensures { IfOk result (λ saved. saved ≡ stop_seen servers.now stop.now) }
{
    Ok(KeptStop {
        session: Session {
            nas: servers.at(stop.nas).try_copy(alloc)?,
            id: stop.subject.id.try_copy(alloc)?,
        },
        at: stop.at,
        swept: stop.swept,
    })
}

/// The saved form of the last stops. It fails only if memory is refused.
#[tactic(auto, using(crate::proofs::OneByOne::saved_steps), unfolding(crate::specs::Seen::stops_seen))]
pub(crate) fn saved_stops(
    alloc: Global,
    servers: &Servers,
    stops: &Ring<EndedSession>,
) -> Result<Vec<KeptStop>, NoMemory>
    ensures { IfOk result (λ saved. saved.items ≡ stops_seen servers.now stops.now.items) }
{
    let mut saved = Vec::with_capacity(alloc, stops.len())?;
    for index in 0..stops.len() {
        saved.push(saved_stop(alloc, servers, stops.index(index))?)?;
    }
    Ok(saved)
}
