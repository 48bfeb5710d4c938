use crate::outcome::Outcome;
use rsl_event::Event;

/// An event of an account's past, with what it did.
#[derive(Drop)]
pub struct PastEvent {
    /// The event.
    pub event: Event,
    /// What it did.
    pub outcome: Outcome,
}
