//! The session rule: which links an account holds, how many places they take, and what is decided
//! on each of its events.
//!
//! The rule is a set of definitions in `specs/`, a file per subject. They look back over the events
//! of one account, each with what it did, and carry no state. This crate has the types that they
//! speak of. Read `specs/Past.antt` first and `specs/Rule.antt` last; docs/SESSION-RULE.md pairs
//! the sentences of the rule with them.
//!
//! Beside them is the running book, which carries what an account holds: `specs/Book.antt` and
//! `specs/BookStep.antt`. The functions of [`laws`] join the two: over every list of events a book
//! that began new decides as the rule does (`laws::books_decide_as_the_rule`), holds its places
//! (`laws::books_hold_the_places_of_the_rule`), and stays within the limit
//! (`laws::books_stay_within_the_limit`). A [`SavedBook`] is a book as plain data
//! (`specs/Saved.antt`).
#![tactic(auto)]

mod bundle;
mod kept;
pub mod laws;
mod outcome;
mod past_event;
mod saved;
mod session;

pub use bundle::Bundle;
pub use kept::{KEPT_ASKS, KEPT_STOPS, KeptAsk, KeptStop};
pub use outcome::Outcome;
pub use past_event::PastEvent;
pub use saved::{SavedBook, SavedHolder, SavedLink};
pub use session::Session;
