//! The moves of a log as lines, each with its decision. No name can forge a word or a line: a value
//! has no space and no line feed in it (`rld_values`). It promises:
//! - The line of a move has the octets of `specs/Lines.antt`, with its number in the history and
//!   the decision of the books at that point (private: `Replay::push_line`: `line`, `number`,
//!   `books`).
//! - Of a batch that is printed the lines are those of the moves that its payload spells, one after
//!   the other (private: `Replay::lines_of`: `printed`).
//! - A configuration that is made of a log's table has that table (private: `config_of`).
//!
//! By tests alone (`test_start`, `tests/programs/streams.py`, `tests/programs/damage.py`): that a
//! log's batches are printed in their order, from the books of its snapshot on, and which place is
//! named where a log is damaged.
#![tactic(auto)]

mod accounts;
mod fault;
mod line;
mod reading;
mod replay;
mod words;

pub use fault::LinesFault;
pub use reading::{Begun, frames_of, front_of};
pub use replay::{LogFile, Printed, write_lines};
