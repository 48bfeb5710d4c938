//! What is present in a running server, and the turns that its workers take with it: of datagrams,
//! and of asks. Between the two halves of a turn stands the lock of the server's state, under which
//! its moves are recorded. It promises:
//! - Each datagram of a turn is decided with the accounts, networks, boot number and table number
//!   that are present, and what is recorded is of this table (`Shared::turn`: `turned`;
//!   `specs/Turning.antt`).
//! - These are of one state, whose store has these accounts and that table number (`Current::of`:
//!   `config`, `boot`, `table`).
//! - An ask is the Access-Request that its client would have sent, and takes such a turn (private:
//!   `AskPort::new`: `requests`, `peer`). Its answer says how its own request ended, or none has an
//!   answer (`AskPlace::take_turn`: `answered`).
//!
//! No clause says that what a turn is told of its batch is what the state under the lock answered.
//! By tests alone: that a turn over sockets answers (`tests/programs/networks.sh`), and that asks
//! and datagrams share their accounts (`tests/programs/asks.py`).
#![tactic(auto)]

mod answers;
mod ask_port;
mod ask_watch;
mod current;
mod place;
mod shared;

pub use current::Current;
pub use place::AskPlace;
pub use shared::{Shared, Turn};
