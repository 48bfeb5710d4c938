//! The words of a command line of `radlimitd`: which command they ask for, its flags, and how long
//! an answer is waited for. It promises:
//! - What the words ask for is `specs/Arguments.antt` (`Command::of_words`).
//! - Each flag of a command is taken once, with the word after it where it has a value, and the
//!   others in their order; a fault comes only where the definition takes none, or for want of
//!   memory (`Given::of_words`: `ok`, `fault`; `specs/Given.antt`). Which flags there are is
//!   `specs/Flags.antt`.
//! - An answer is waited for as long as `specs/Waits.antt` says: without a word, five seconds, a
//!   second by `ready`, and for what takes long as long as the server works on it (`Patience::of`).
//!
//! By tests alone (`tests/programs/streams.py`): the texts of help and of usage, which word names
//! the server's file, and the line that asks for a list of sessions.
#![tactic(auto)]

mod command;
mod fault;
mod flag;
mod flags;
mod given;
mod patience;
mod topic;

pub use command::{Command, Misuse};
pub use fault::WordsFault;
pub use flag::Flag;
pub use flags::{Flags, NOT_GIVEN};
pub use given::Given;
pub use patience::Patience;
pub use topic::{Topic, VERSION_HELP};
