ghost use Rattle.std.specs.Prelude.{◌≡◌, IfOk, is_some};
ghost use Rattle.std.specs.Option.{option_or};
ghost use Rattle.rsl_session.specs.Past.{looking_back};
ghost use Rattle.rsl_session.specs.Binding.{
  binds,
  session_of,
  bundle_of,
  bound_by,
  bundled_by,
  session_at,
  bundle_at,
};

use crate::link::touches_link;
use rsl_event::Act;
use rsl_session::{Bundle, Outcome, PastEvent, Session};
use rsl_wire::NoMemory;
use std::alloc::Global;

/// Whether the event with this number opened or took a link for a session.
#[tactic(auto, unfolding(rsl_session::specs::Binding::binds))]
fn binds_link(link: usize, number: usize, outcome: Outcome) -> bool
    ensures { result ≡ binds link number outcome }
{
    match outcome {
        Outcome::Opened => link == number,
        Outcome::Took(taken) => link == taken,
        _ => false,
    }
}

/// The session of an alive.
#[tactic(auto, unfolding(rsl_session::specs::Binding::session_of))]
fn session_of_act(alloc: Global, act: &Act) -> Result<Option<Session>, NoMemory>
    ensures { IfOk result (λ session. session ≡ session_of act.now) }
{
    match act {
        Act::Alive { nas, session, .. } => Ok(Some(Session {
            nas: nas.try_copy(alloc)?,
            id: session.try_copy(alloc)?,
        })),
        _ => Ok(None),
    }
}

/// The bundle of an alive.
#[tactic(auto, unfolding(rsl_session::specs::Binding::bundle_of))]
pub(crate) fn bundle_of_act(alloc: Global, act: &Act) -> Result<Option<Bundle>, NoMemory>
    ensures { IfOk result (λ bundle. bundle ≡ bundle_of act.now) }
{
    match act {
        Act::Alive {
            nas,
            bundle: Some(id),
            ..
        } => Ok(Some(Bundle {
            nas: nas.try_copy(alloc)?,
            id: id.try_copy(alloc)?,
        })),
        _ => Ok(None),
    }
}

/// The session for which the entry with this number opened or took a link.
#[tactic(auto, unfolding(rsl_session::specs::Binding::bound_by))]
fn session_bound(
    alloc: Global,
    link: usize,
    number: usize,
    entry: &PastEvent,
) -> Result<Option<Session>, NoMemory>
    ensures { IfOk result (λ session. session ≡ bound_by link number entry.now) }
{
    if binds_link(link, number, entry.outcome) {
        session_of_act(alloc, &entry.event.act)
    } else {
        Ok(None)
    }
}

/// The bundle with which the entry with this number touched a link.
#[tactic(auto, unfolding(rsl_session::specs::Binding::bundled_by))]
fn bundle_touched(
    alloc: Global,
    link: usize,
    number: usize,
    entry: &PastEvent,
) -> Result<Option<Bundle>, NoMemory>
    ensures { IfOk result (λ bundle. bundle ≡ bundled_by link number entry.now) }
{
    if touches_link(link, number, entry.outcome) {
        bundle_of_act(alloc, &entry.event.act)
    } else {
        Ok(None)
    }
}

/// The session of a link after the entry with this number, from the session before.
pub(crate) fn session_after(
    alloc: Global,
    bound: Option<Session>,
    link: usize,
    number: usize,
    entry: &PastEvent,
) -> Result<Option<Session>, NoMemory>
    ensures { IfOk result (λ session. session ≡ option_or bound (bound_by link number entry.now)) }
{
    match bound {
        Some(session) => Ok(Some(session)),
        None => session_bound(alloc, link, number, entry),
    }
}

/// The session of a link: the first that bound it.
#[tactic(auto, using(crate::proofs::Looking::bound_steps))]
pub(crate) fn session_of_link(
    alloc: Global,
    link: usize,
    history: &[PastEvent],
) -> Result<Option<Session>, NoMemory>
    ensures { IfOk result (λ session. session ≡ session_at link (looking_back history.now)) }
{
    for (at, entry) in history.iter().enumerate() {
        let session = session_bound(alloc, link, at + 1, entry)?;
        if session.is_some() {
            return Ok(session);
        }
    }
    Ok(None)
}

/// The bundle of a link: the first with which it was touched.
#[tactic(auto, using(crate::proofs::Looking::bundle_steps))]
pub(crate) fn bundle_of_link(
    alloc: Global,
    link: usize,
    history: &[PastEvent],
) -> Result<Option<Bundle>, NoMemory>
    ensures { IfOk result (λ bundle. bundle ≡ bundle_at link (looking_back history.now)) }
{
    for (at, entry) in history.iter().enumerate() {
        let bundle = bundle_touched(alloc, link, at + 1, entry)?;
        if bundle.is_some() {
            return Ok(bundle);
        }
    }
    Ok(None)
}
