//! The start of a server from its folder. `specs/Founds.antt` says which generation counts,
//! `specs/Going.antt` what goes on, and `specs/Beginnings.antt` when a new history begins. It
//! promises:
//! - A start has the accounts that it was given (`start`: `config`) with books of theirs, and the key
//!   of its own log (`Started`), under a number that no log has (`next_generation`).
//! - It goes on from the generation that counts: every newer log was read and passed over (private:
//!   `newest_begun`; `look_in`: `seen`). With other accounts it has what is admitted of those books
//!   (`change_from`: `admitted`). If none counts it has new books (private: `take_up`: `new`).
//! - A rebase has the books cut to the moment that it was given, once its log is on the disk
//!   (private: `rebase_newest`: `cut`, `synced`).
//! - Files go only where they are older than a generation whose log is on the disk
//!   (`Generations::put_away`), and a log alone only by its right (`Generations::remove`).
//!
//! No clause says what a folder's files have: read `newest.rt`, `starting.rt`. By tests alone
//! (`test_start`): which generation goes on, and the faults' texts.
#![tactic(auto)]

mod beginning;
mod behind;
mod changing;
mod count;
mod cutting;
mod fault;
mod files;
mod first;
mod gap;
mod generations;
mod header;
mod length;
mod look;
mod new_generation;
mod newest;
mod number;
mod rebasing;
mod refused;
mod reopening;
mod room;
mod starting;
mod status;
mod upgrading;
mod words;
mod written;
mod wrong;

pub use beginning::open_folder;
pub use changing::{admitted_books, has_same_clients, has_same_table};
pub use count::{Found, sessions_in};
pub use cutting::Rebased;
pub use fault::StartFault;
pub use first::check_torn;
pub use generations::{FolderGenerations, Generations, NextLog};
pub use header::{changed_header, check_header, next_header};
pub use number::next_generation;
pub use rebasing::rebase;
pub use room::make_room;
pub use starting::{Started, start};
pub use status::EndStatus;
pub use written::Written;
pub use wrong::{BadLog, Cause, Wrong};
