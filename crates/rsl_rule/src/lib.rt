//! The session rule as a plain program, which looks back over all events of an account for each
//! question. Read `rsl_session/specs/Rule.antt` first. The laws of the rule are in [`laws`], as
//! `specs/Laws.antt` states them. It promises:
//! - The decision on each event of an account is the session rule's (`decide`: `decisions`).
//! - The places held after its events are the rule's, and at most the account's (`places`: `exact`,
//!   `limit`).
//! - What an event does to an account with a past, and its decision, are the rule's (`outcome`:
//!   `outcome`; `decision`).
//! - The places are within the limit after every event (`laws::places_stay_within_the_limit`), and
//!   a repeat is answered as the fresh ask of its key was
//!   (`laws::repeats_are_decided_as_a_fresh_ask`).
//!
//! By tests alone: that the definitions say what the rule means, by worked timelines (`test_rule`),
//! and that the calls answer where memory is ample.
#![tactic(auto)]

mod alive;
mod ask;
mod binding;
mod clock;
mod closed;
mod count;
mod decisions;
mod held;
mod holding;
pub mod laws;
mod link;
mod standing;
mod station;
mod sweep;
mod version;
mod yielding;

pub use count::places_held;
pub use decisions::{decide, decision, outcome, places};
pub use version::SESSION_RULE_VERSION;
