//! The books of all accounts, without a journal, and what of them goes on with other accounts.
//! `specs/Server.antt` says what a move does to the books, `specs/Saved.antt` what is saved,
//! `specs/Cut.antt` what a cut to a moment does, `specs/Carried.antt` and `specs/Admitted.antt`
//! what goes on with other accounts. It promises:
//! - A batch is decided as its journal says, and the books are then what its moves make of them
//!   (`ServerBooks::make_all`: `decisions`, `books`). It cannot fail: its room is taken before.
//! - What is saved of books that were put back is what they were put back from
//!   (`ServerBooks::restore`: `saved`).
//! - After a change each account has the book that is admitted for it (`admit`: `admitted`): one
//!   that stays with its rules and clients keeps its sessions (`laws::sessions_stay`), none holds
//!   more places than its limit (`laws::places_stay_within_the_limit`), and nothing is left of what
//!   is gone (`laws::nothing_gone_is_left`).
//!
//! By tests alone: a crash within a change (`test_start`), the octets after it
//! (`tests/programs/changed.py`).
#![tactic(auto)]

mod admission;
mod blank_books;
mod carry;
mod clients;
mod configuration;
mod fault;
pub mod laws;
mod place;
mod server_books;
mod table;

pub use admission::admit;
pub use blank_books::BlankBooks;
pub use configuration::{config_of, config_with};
pub use fault::{ServerFault, TableFault};
pub use server_books::{CutBooks, ServerBooks};
pub use table::{is_table_of, table_octets, table_of};
