//! What the tables of tests need: rows of text that are compared with what calls answer, and the
//! octets, numbers and texts that rows write. It is for test crates alone, and knows no other crate
//! of the repository, so that the tests of every library can stand on it.
//!
//! A test gives `check_rows` its rows and a `Subject`, which makes the answer to a row of its
//! fields:
//!
//! ```
//! check_rows(
//!     &rt,
//!     &Digests,
//!     "
//! # A row has a name, what is given, and what is expected.
//! no octets | | d41d8cd98f00b204e9800998ecf8427e
//! `a` | 61 | 0cc175b9c0f1b6a831c399e269772661
//! ",
//! )
//! ```
#![tactic(auto)]

mod numbers;
mod octets;
mod rows;
mod texts;

pub use numbers::{length, number, numbers_of, octet, port_number, short_number};
pub use octets::{Hex, front, octets_of};
pub use rows::{Subject, check_rows};
pub use texts::{Plain, printed, push_printed, replaced, shown};
