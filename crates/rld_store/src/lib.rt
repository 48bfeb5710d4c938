//! The store: nothing is answered that is not recorded. A log is one generation: a header with a
//! table, a snapshot of books, and the moves that followed (`specs/Generations.antt`).
//! `specs/Standing.antt` says what history a store stands for. It promises:
//! - Once a commit has returned, the log has the history and the batch, synced, and the decisions
//!   are those of the books that there were (`Store::commit`: `recorded`, `settled`, `decisions`).
//!   Where it fails the books are as before, and the log has perhaps that batch, whole
//!   (`Store::commit`: `err`, `left`).
//! - A crash loses nothing of a store's history (`laws::crashes_lose_nothing`), also at any call of
//!   a roll (`Store::roll`: `crash`).
//! - A store that is opened stands for the history that its log has (`Store::open`: `stands`);
//!   damage and foreign octets are named where they stand (`Store::open`: `why`).
//! - Only `commit` makes a `Recorded`: another does not compile (`tests/programs/unrecorded.py`).
//!
//! What speaks of a log is over one that tells; `specs/Premises.antt` has what is trusted. By tests
//! alone (`test_store`): that the calls answer.
#![tactic(auto)]

mod basis;
mod beginning;
mod fault;
mod former;
pub mod laws;
mod opening;
mod part;
mod parts;
mod reading;
mod recorded;
mod store;

pub use beginning::counts_in;
pub use fault::{Malformed, RecordFault, Refused, StoreFault};
pub use former::{FormerEnd, read_former};
pub use opening::read_frames;
pub use part::{Front, Part};
pub use parts::Parts;
pub use recorded::Recorded;
pub use store::{End, Opened, Store};
