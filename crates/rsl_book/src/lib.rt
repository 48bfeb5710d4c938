//! One account's running book: what it holds now, carried from event to event. What a step makes of
//! it is `rsl_session/specs/BookStep.antt`, whose laws join it to the session rule. It promises:
//! - An event makes one step of the running book, with its decision (`Book::apply`: `step`). There
//!   is no error to return.
//! - The places are within the limit before and after each step (`Book::apply`: `limit`).
//! - What was saved of a book is put back as that book (`laws::saved_is_put_back`). One with more
//!   asks, stops or places than its account may have is refused (`Book::restore`: `limit`,
//!   `fault`).
//!
//! `apply`, `sweep` and `tick` allocate nothing: a book's lists have their room from the start, and
//! `bench/book.py` measures it. By tests alone: that `new`, `try_copy`, `save` and `restore` answer
//! where memory is ample.
//!
//! Each link keeps its slot until it ends. Orders of the slots lead from a session, a station, a
//! bundle and an alive to their links. The last asks and stops are in rings.
#![tactic(auto)]

mod book;
mod kept;
pub mod laws;
mod restore_fault;
mod ring;
mod same;
mod saving;
mod table;

pub use book::{Book, Stored};
pub use restore_fault::RestoreFault;
