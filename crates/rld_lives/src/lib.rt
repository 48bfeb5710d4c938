//! Lives of a server: the moves of all lives are one history. `specs/Life.antt` says what a life
//! answers and leaves, `specs/Leaving.antt` what a crash leaves, `specs/Lives.antt` what holds of
//! the history. It promises:
//! - A batch that is recorded has the decisions of the journal of the recorded batches (`live`:
//!   `outcomes`). The store then stands for them, and perhaps for one more, whole (`live`:
//!   `lived`).
//! - So it is with lives one after another, also where one ends within a roll (`lives`: `lived`).
//! - Each answered batch stands in the history, with its decisions
//!   (`laws::what_is_answered_stands`).
//! - Over that history each decision is the session rule's, and no account holds more than its
//!   limit (`laws::lives_obey_the_rule`; `laws::histories_stay_within_limits`).
//! - A restart changes nothing (`laws::restarts_change_nothing`).
//!
//! What is left is said over a log that tells, of a loss of power under `Detects`. By tests alone
//! (`test_lives`): that lives answer where memory and log serve.
#![tactic(auto)]

mod ending;
pub mod laws;
mod living;

pub use ending::Logs;
pub use living::{Lived, Outcome, Plan, Step, live, lives};
