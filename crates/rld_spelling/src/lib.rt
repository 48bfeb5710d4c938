//! What the durable server writes, as octets: the header and the table of a generation, moves and
//! books. Accounts and clients are numbers below given counts. `specs/Moves.antt`,
//! `specs/Books.antt`, `specs/TableSpelled.antt`, `specs/Headers.antt` and, for versions before
//! format 3, `specs/Former.antt` have the spellings; docs/FOLDER.md shows the octets. It promises:
//! - What is read is spelled so and fits, and what is spelled so is read; else the fault is the
//!   first, with its offset (`Counts::read_moves`, `read_books`, `Table::read`: `found`, `only`,
//!   `exact`).
//! - What is written is the spelling, behind what was there (`Counts::push_moves`, `push_book`,
//!   `Table::push`: `spelled`). A value is refused exactly where it has none (`unfit` of each).
//! - The table of every configuration has a spelling (`laws::tables_of_configurations_fit`).
//! - A header begins with format 3, and any other is refused (`Header::read_front`: `found`,
//!   `exact`).
//!
//! Where memory is refused while something is written, no clause says what stands behind the
//! earlier octets. By tests alone (`test_spelling`): that the calls answer where memory is ample.
#![tactic(auto)]

mod book;
mod fault;
mod former;
mod header;
pub mod laws;
mod moves;
mod reader;
mod request;
mod server;
mod table;
mod writer;

pub use book::{book_fits, push_book, read_books};
pub use fault::{Cause, Fault, ReadFault, SpellFault};
pub use former::{FormerHeader, FormerTable, former_header};
pub use header::{FORMAT_VERSION, Header};
pub use moves::Counts;
pub use reader::{MAX_SHORT_LEN, Reader};
pub use table::{Table, TableAccount, TableClient};
pub use writer::{push_flag, push_number, push_pair, push_short};
