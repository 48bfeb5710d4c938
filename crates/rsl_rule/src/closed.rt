ghost use Rattle.std.specs.Prelude.{◌≡◌, [], IfOk, take};
ghost use Rattle.rsl_session.specs.Past.{looking_back};
ghost use Rattle.rsl_session.specs.Closed.{closes, is_closed, kept_stop, stops};
ghost use Rattle.rsl_session.specs.Clock.{clock};
ghost use Rattle.rsl_rule.specs.Since.{acts_since};

use crate::clock::{clock_of, clock_with};
use crate::sweep::is_swept_since;
use rsl_accounts::Rules;
use rsl_event::{Act, Event};
use rsl_session::{KEPT_STOPS, KeptStop, PastEvent, Session};
use rsl_wire::NoMemory;
use std::alloc::Global;

/// A stop as it is kept, from the past up to it and the entries since.
fn keep_stop(
    alloc: Global,
    history: &[PastEvent],
    since: &[PastEvent],
    act: &Act,
) -> Result<Option<KeptStop>, NoMemory>
    ensures { IfOk result (λ stop. stop ≡ kept_stop (clock (looking_back history.now))
        (acts_since (clock (looking_back history.now)) since.now) act.now) }
{
    match act {
        Act::Stop { nas, session } => {
            let at = clock_of(history);
            Ok(Some(KeptStop {
                session: Session {
                    nas: nas.try_copy(alloc)?,
                    id: session.try_copy(alloc)?,
                },
                at,
                swept: is_swept_since(at, nas, since),
            }))
        }
        _ => Ok(None),
    }
}

/// The last stops of a past that can close a session, newest first.
#[tactic(auto, using(crate::proofs::Kept::stops_steps))]
fn stops_of(alloc: Global, history: &[PastEvent]) -> Result<Vec<KeptStop>, NoMemory>
    ensures { IfOk result (λ each. each.items ≡
        take KEPT_STOPS (stops [] (looking_back history.now))) }
{
    let mut each = Vec::new(alloc);
    let mut at = history.len();
    while at > 0 && each.len() < KEPT_STOPS {
        at -= 1;
        let entry = &history[at];
        let act = &entry.event.act;
        if let Some(stop) = keep_stop(alloc, &history[..at + 1], &history[at + 1..], act)? {
            each.push(stop)?;
        }
    }
    Ok(each)
}

/// Whether a stop closes a session at this clock.
#[tactic(auto, unfolding(rsl_session::specs::Closed::closes))]
fn is_closed_by(rules: &Rules, session: &Session, now: u64, stop: &KeptStop) -> bool
    ensures { result ≡ closes rules.now session.now now stop.now }
{
    stop.session.is_same(session) && now.saturating_sub(stop.at) < rules.closed && !stop.swept
}

/// Whether a session is closed when an event comes.
#[tactic(auto, unfolding(rsl_session::specs::Closed::is_closed))]
pub(crate) fn is_session_closed(
    alloc: Global,
    rules: &Rules,
    history: &[PastEvent],
    event: &Event,
    session: &Session,
) -> Result<bool, NoMemory>
    ensures { IfOk result (λ answer. answer ≡
        is_closed rules.now (looking_back history.now) event.now session.now) }
{
    let now = clock_with(history, event);
    let stops = stops_of(alloc, history)?;
    Ok(
        stops
            .iter()
            .any(|stop| is_closed_by(rules, session, now, stop)),
    )
}
