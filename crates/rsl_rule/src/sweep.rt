ghost use Rattle.std.specs.Prelude.{◌≡◌};
ghost use Rattle.rsl_session.specs.Sweep.{precedes, swept_in, voids};
ghost use Rattle.rsl_rule.specs.Since.{acts_since};

use rsl_event::{Act, Nas};
use rsl_session::PastEvent;

/// Whether what was at a moment is, now, at least this many seconds old.
pub(crate) fn precedes_restart(at: u64, delay: u64, now: u64) -> bool
    ensures { result ≡ precedes at delay now }
{
    delay <= now.saturating_sub(at)
}

/// Whether an act, now, is a sweep that voids what came from an access server at a moment.
fn voids_kept(nas: &Nas, at: u64, now: u64, act: &Act) -> bool
    ensures { result ≡ voids nas.now at now act.now }
{
    match act {
        Act::Sweep { nas: other, delay } => other.is_same(nas) && precedes_restart(at, *delay, now),
        _ => false,
    }
}

/// Whether a sweep among the entries since a moment of the clock voids what came from an access
/// server then.
#[tactic(auto, using(crate::proofs::Since::swept_steps))]
pub(crate) fn is_swept_since(at: u64, nas: &Nas, entries: &[PastEvent]) -> bool
    ensures { result ≡ swept_in (acts_since at entries.now) nas.now at }
{
    let mut now = at;
    for entry in entries {
        now = now.max(entry.event.moment);
        if voids_kept(nas, at, now, &entry.event.act) {
            return true;
        }
    }
    false
}
