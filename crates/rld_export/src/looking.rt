//! What a look at an account's links finds of its sessions.

ghost use Rattle.std.specs.Prelude.{◌≡◌, ◌++◌, IfOk, OnOk};
ghost use Rattle.std.specs.List.{list_any};
ghost use Rattle.rsl_accounts.specs.Limits.{RulesFit};
ghost use Rattle.rsl_session.specs.Saved.{saved_links};
ghost use Rattle.rsl_session.specs.declared.saved.SavedHolder.TheVariants.{Bound as bound};
ghost use Rattle.rld_export.specs.Sessions.{began_before, began_in, found, gone, gone_one, is_bound_in, silent, silent_one, still, still_one};
ghost use Rattle.rld_export.specs.Saved.{found_saved, held_by_saved, held_saved, is_saved_holder, is_saved_of};

use crate::session::{End, Ended, Held, Why};
use rsl_accounts::Rules;
use rsl_session::{SavedHolder, SavedLink, Session};
use rsl_wire::{NoMemory, Octets};
use std::alloc::Global;

/// Whether a link is bound to a session of this id.
fn is_holder(id: &Octets, holder: &SavedHolder) -> bool
    ensures { result ≡ is_saved_holder id.now holder.now }
{
    match holder {
        SavedHolder::Reserved(_) => false,
        SavedHolder::Bound(other) => other.as_slice() == id.as_slice(),
    }
}

/// Whether a link is bound to a session.
fn is_link_of(session: &Session, link: &SavedLink) -> bool
    ensures { result ≡ is_saved_of session.now link.now }
{
    link.nas.is_same(&session.nas) && is_holder(&session.id, &link.holder)
}

/// Whether one of some links is bound to a session.
#[tactic(auto, using(crate::proofs::Links::any_bound))]
fn is_bound_in(links: &[SavedLink], session: &Session) -> bool
    ensures { result ≡ is_bound_in (saved_links links.now) session.now }
{
    has_link_of(links, session)
}

/// The same, by what is saved of each link.
fn has_link_of(links: &[SavedLink], session: &Session) -> bool
    ensures { result ≡ list_any (is_saved_of session.now) links.now }
{
    links.iter().any(|link| is_link_of(session, link))
}

/// Adds a session, if it has not lapsed by this clock.
fn push_still(
    alloc: Global,
    out: &mut Vec<Held>,
    rules: Rules,
    now: u64,
    held: &Held,
) -> Result<(), NoMemory>
    requires { RulesFit rules }
    ensures { OnOk result (out.new.items ≡ out.old.items ++ still_one rules now held.now) }
{
    if !held.lapses(rules, now) {
        out.push(held.try_copy(alloc)?)?;
    }
    Ok(())
}

/// The sessions that have not lapsed by this clock.
pub(crate) fn still(
    alloc: Global,
    rules: Rules,
    now: u64,
    helds: &[Held],
) -> Result<Vec<Held>, NoMemory>
    requires { RulesFit rules }
    ensures { IfOk result (λ rest. rest.items ≡ still rules now helds.now) }
{
    let mut rest = Vec::new(alloc);
    for held in helds {
        push_still(alloc, &mut rest, rules, now, held)?;
    }
    Ok(rest)
}

/// Adds the end of a session, if it has lapsed by this clock.
fn push_silent_one(
    alloc: Global,
    out: &mut Vec<Ended>,
    rules: Rules,
    now: u64,
    held: &Held,
) -> Result<(), NoMemory>
    requires { RulesFit rules }
    ensures { OnOk result (out.new.items ≡ out.old.items ++ silent_one rules now held.now) }
{
    if held.lapses(rules, now) {
        let end = End {
            at: held.lapsed_at(rules, now),
            why: Why::Silent,
        };
        out.push(held.ended(alloc, end)?)?;
    }
    Ok(())
}

/// Adds the ends of the sessions that have lapsed by this clock.
pub(crate) fn push_silent(
    alloc: Global,
    out: &mut Vec<Ended>,
    rules: Rules,
    now: u64,
    helds: &[Held],
) -> Result<(), NoMemory>
    requires { RulesFit rules }
    ensures { OnOk result (out.new.items ≡ out.old.items ++ silent rules now helds.now) }
{
    for held in helds {
        push_silent_one(alloc, out, rules, now, held)?;
    }
    Ok(())
}

/// Adds the end of a session, if none of the links is bound to it.
fn push_gone_one(
    alloc: Global,
    out: &mut Vec<Ended>,
    end: End,
    links: &[SavedLink],
    held: &Held,
) -> Result<(), NoMemory>
    ensures { OnOk result (out.new.items ≡ out.old.items
        ++ gone_one end (saved_links links.now) held.now) }
{
    if !is_bound_in(links, &held.session) {
        out.push(held.ended(alloc, end)?)?;
    }
    Ok(())
}

/// Adds the ends of the sessions to which none of the links is bound.
pub(crate) fn push_gone(
    alloc: Global,
    out: &mut Vec<Ended>,
    end: End,
    links: &[SavedLink],
    helds: &[Held],
) -> Result<(), NoMemory>
    ensures { OnOk result (out.new.items ≡ out.old.items
        ++ gone end (saved_links links.now) helds.now) }
{
    for held in helds {
        push_gone_one(alloc, out, end, links, held)?;
    }
    Ok(())
}

/// When a session began, if some sessions have it.
fn began_before(helds: &[Held], session: &Session) -> Option<Option<u64>>
    ensures { result ≡ began_before helds.now session.now }
{
    helds
        .iter()
        .find(|held| held.session.is_same(session))
        .map(|held| held.began)
}

/// When a session began: as it did if it was held before, else at `began`.
fn began_in(began: Option<u64>, helds: &[Held], session: &Session) -> Option<u64>
    ensures { result ≡ began_in began helds.now session.now }
{
    match began_before(helds, session) {
        Some(before) => before,
        None => began,
    }
}

/// Adds the session of a bound link.
fn push_bound(
    alloc: Global,
    out: &mut Vec<Held>,
    began: Option<u64>,
    helds: &[Held],
    link: &SavedLink,
    id: &Octets,
) -> Result<(), NoMemory>
    ensures { OnOk result (out.new.items ≡ out.old.items
        ++ held_by_saved began helds.now link.now.nas link.now.touched (bound id.now)) }
{
    let session = Session {
        nas: link.nas.try_copy(alloc)?,
        id: id.try_copy(alloc)?,
    };
    let began = began_in(began, helds, &session);
    out.push(Held {
        session,
        began,
        seen: link.touched,
    })?;
    Ok(())
}

/// Adds the session of a link, if it is bound.
fn push_held(
    alloc: Global,
    out: &mut Vec<Held>,
    began: Option<u64>,
    helds: &[Held],
    link: &SavedLink,
) -> Result<(), NoMemory>
    ensures { OnOk result (out.new.items ≡ out.old.items ++ held_saved began helds.now link.now) }
{
    match &link.holder {
        SavedHolder::Reserved(_) => Ok(()),
        SavedHolder::Bound(id) => push_bound(alloc, out, began, helds, link, id),
    }
}

/// The sessions that are held with these links, where some were held before.
#[tactic(auto, using(crate::proofs::Links::found_of_saved))]
pub(crate) fn found(
    alloc: Global,
    began: Option<u64>,
    helds: &[Held],
    links: &[SavedLink],
) -> Result<Vec<Held>, NoMemory>
    ensures { IfOk result (λ held. held.items ≡ found began helds.now (saved_links links.now)) }
{
    held_in(alloc, began, helds, links)
}

/// The same, by what is saved of each link.
fn held_in(
    alloc: Global,
    began: Option<u64>,
    helds: &[Held],
    links: &[SavedLink],
) -> Result<Vec<Held>, NoMemory>
    ensures { IfOk result (λ held. held.items ≡ found_saved began helds.now links.now) }
{
    let mut held = Vec::new(alloc);
    for link in links {
        push_held(alloc, &mut held, began, helds, link)?;
    }
    Ok(held)
}
