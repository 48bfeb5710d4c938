ghost use Rattle.std.specs.Prelude.{◌≡◌};
ghost use Rattle.rld_edges.specs.Step.{step_of};

use rld_control::{PAUSE_SECS, TRIES};

/// What is to be done about a request to an access server that has no answer.
#[derive(Clone, Copy, Debug)]
pub enum Step {
    /// Send it.
    Send,
    /// Wait for its answer.
    Wait,
    /// Give it up.
    GiveUp,
}

impl Step {
    /// The next step for a request without an answer. `sent` is the number of times that it was sent,
    /// and `passed` the whole seconds since the last of these. It is sent three times at most, a second
    /// apart, and given up a second after the last.
    pub fn of(sent: u32, passed: u64) -> Step
        ensures { result ≡ step_of sent passed }
    {
        if sent == 0 {
            Step::Send
        } else if passed < PAUSE_SECS {
            Step::Wait
        } else if sent < TRIES {
            Step::Send
        } else {
            Step::GiveUp
        }
    }
}
