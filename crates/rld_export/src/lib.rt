//! The sessions of logs, each with when it began, was last seen and ended, and why. It promises:
//! - An event steps an account's book as the session rule does, and the look after it finds the
//!   ends and the sessions of `specs/Sessions.antt`: a session lapses after its live and grace
//!   times, and is else ended by the event after which no link is bound to it (private:
//!   `Account::step`: `book`, `held`, `ends`).
//! - A line has the octets of `specs/Text.antt`, whatever is in a name or an id (private:
//!   `push_line`). It is written just for sessions that were held at some moment of the span
//!   (private: `Span::has`).
//! - A moment that is read is the one that is named (`read_moment`). No clause says that each text
//!   which names one is read.
//!
//! By tests alone (`tests/programs/export.py`): that each account gets its own events and each
//! restart; that the sessions of a log are those that the log before left; that the logs are read
//! in their order, and each session is written once.
#![tactic(auto)]

mod account;
mod carrying;
mod export;
mod following;
mod form;
mod line;
mod looking;
mod moment;
mod object;
mod record;
mod session;
mod span;

pub use export::{Export, Wanted};
pub use form::Form;
pub use moment::read_moment;
pub use span::Span;
