//! Shards: the books of some accounts, with the journal of what was done to them.
//! `specs/Moves.antt` says which moves a datagram makes and which of them concern an account,
//! `specs/Restep.antt` what moves make of the books, `specs/Journal.antt` what the lines of a
//! journal are, and `specs/Seen.antt` what holds for every shard. It promises:
//! - A shard's books are what the lines of its journal make of those that the journal begins with,
//!   and each line has the decision of the books at that point (`Shard::step`: `line`, `decision`,
//!   `books`).
//! - A move steps each book by what it means for the book's account (`Books::step`: `books`).
//! - Where memory is refused nothing has changed (`Shard::step`: `err`).
//! - A cut hands out the journal, and the shard goes on from equal books (`Shard::cut`: `opening`,
//!   `lines`, `cut`).
//!
//! By tests alone: that `Move::try_copy` answers where memory is ample.
#![tactic(auto)]

mod books;
mod journal;
mod line;
mod loose;
mod moved;
mod moves;
mod opening;
mod row;
mod segment;
mod shard;
mod spare;

pub use books::Books;
pub use line::Line;
pub use loose::{CutRoom, LooseSegment};
pub use moved::Move;
pub use moves::Moves;
pub use row::Row;
pub use segment::Segment;
pub use shard::Shard;
pub use spare::Spare;
