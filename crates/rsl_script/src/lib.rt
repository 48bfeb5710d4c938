//! The script of a replay: a text whose first lines are the settings, clients and accounts of a
//! configuration, and whose other lines say what happens and when. docs/SCRIPTS.md has the table of
//! lines, and their rules. It promises:
//! - What is read is the script that the text writes (`Script::read`: `script`;
//!   `specs/Script.antt`). What a line says is in `specs/Line.antt`, and then in
//!   `specs/Event.antt`, `specs/Access.antt` and `specs/Accounting.antt`; the values of words are
//!   in `specs/Values.antt`.
//! - A line that is named is the first wrong one (`Script::read`: `line`). So a right text gets no
//!   fault but out of memory, and a wrong one is never read.
//! - A word is a number exactly where it is decimal digits that write one under 2^64
//!   (`read_number`).
//! - The texts of a request have 1 to 253 octets, its password 1 to 128 (`AttributeText::as_slice`,
//!   `Password::expose`: `limits`).
//!
//! By tests alone: that a line of any length, and many lines, are read where memory is ample.
#![tactic(auto)]

mod access;
mod accounting;
mod event_line;
mod fault;
mod happening;
mod limited;
mod line;
mod request;
mod script;
mod values;
mod verb;
mod words;

pub use event_line::{EventLine, Happening};
pub use fault::ScriptFault;
pub use limited::{AttributeText, Password};
pub use request::{AccessRequest, AccountingRequest, Method};
pub use script::Script;
pub use values::read_number;
