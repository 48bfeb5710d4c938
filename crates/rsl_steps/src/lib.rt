//! The server over a list of steps: datagrams, sweeps and ticks, answered one after the other over
//! the books of shards (`rsl_shard`). `specs/Own.antt` says which steps are an account's own,
//! `specs/Run.antt` what is answered by looking back over them, and `specs/Ran.antt` what the
//! shards are afterwards. It promises:
//! - Each datagram that is an account's own is answered by the session rule on that account's own
//!   events before it; nothing else counts (`run`: `answers`).
//! - Each account's book is in its shard after the run, and holds the rule's places, never more
//!   than the account's after any of its events (`run`: `books`).
//! - The journals have the moves of the steps that were taken, in order (`run`: `shards`).
//! - How many shards there are does not matter (`laws::the_number_of_shards_does_not_matter`), nor
//!   do other accounts (`laws::equal_own_events_are_answered_alike`).
//!
//! A step for which memory is refused is as if it had not come; that none is refused otherwise,
//! tests show (`test_library`, `test_scripts`).
#![tactic(auto)]

mod answers;
mod decision;
pub mod laws;
mod own_events;
mod reply_octets;
mod step;

pub use answers::run;
pub use own_events::own;
pub use reply_octets::ReplyOctets;
pub use step::{Answer, Ran, Step};
