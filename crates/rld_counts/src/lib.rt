//! How the datagrams of each port ended, and asks, and how long answers took: what a server's
//! receivers count, and a look at it. A number stops at 2^64 - 1. It promises:
//! - A datagram is counted by its fate, a cause at a gate, and that says the truth of what the
//!   datagram means (`laws::fates_are_true`: `told`, `truth`; `specs/Ending.antt`).
//! - A count is the number of datagrams that had its fate, of whatever was noted (`Counts::note`:
//!   `own`, `others`, `noted`); two cells added are the cell of the datagrams of both (`Cell::add`:
//!   `added`).
//! - When counting by client begins anew, the total counts and the times go on (`Cell::renew`:
//!   `anew`).
//! - The counts of a gate are those of all its receivers, when they were read (`cell_of`:
//!   `counted`).
//!
//! No clause says that the words of the causes are right: `test_counts` prints them. That the
//! counts behind a lock are its receiver's is read from `board.rt`. By tests alone (`test_turn`):
//! that a watcher counts each datagram once, and that each receiver begins anew.
#![tactic(auto)]

mod board;
mod cause;
mod cell;
mod client_counts;
mod counted;
mod counts;
mod fate;
mod gate;
mod gate_counts;
mod histogram;
mod kind;
pub mod laws;
mod reading;
mod tally;

pub use board::{Board, Place};
pub use cause::Cause;
pub use cell::Cell;
pub use client_counts::ClientCounts;
pub use counted::Counted;
pub use counts::Counts;
pub use fate::Fate;
pub use gate::Gate;
pub use gate_counts::GateCounts;
pub use histogram::{BUCKETS, Histogram, bound_of};
pub use kind::Kind;
pub use reading::{Reading, cell_of, counts_of};
