ghost use Rattle.std.specs.Prelude.{◌≡◌};
ghost use Rattle.rsl_session.specs.Past.{looking_back};
ghost use Rattle.rsl_session.specs.Clock.{clock, clock_at};

use rsl_event::Event;
use rsl_session::PastEvent;

/// The clock of an account: the greatest moment of its events, 0 before the first.
#[tactic(auto, using(crate::proofs::Looking::clock_steps))]
pub(crate) fn clock_of(history: &[PastEvent]) -> u64
    ensures { result ≡ clock (looking_back history.now) }
{
    let mut now = 0u64;
    for entry in history {
        now = now.max(entry.event.moment);
    }
    now
}

/// The clock once an event has come.
#[tactic(auto, unfolding(rsl_session::specs::Clock::clock_at))]
pub(crate) fn clock_with(history: &[PastEvent], event: &Event) -> u64
    ensures { result ≡ clock_at (looking_back history.now) event.now }
{
    clock_of(history).max(event.moment)
}
