//! The operator's server while it runs: receivers, and workers for ticks, the control socket,
//! standard error, disconnects, the page and asks, each on its own thread, over one state under one
//! lock. `rld_state` alone changes the state, since its fields are private there. It promises:
//! - A server runs only with a store whose books are of its accounts, and with networks that fit
//!   these (`serve`: `server`, `kept`, `networks`, `fit`).
//! - A receiver ends with `Down` or `Unsynced` alone (private: `Server::take_turn`: `fault`), and a
//!   generation begins, or is put off, exactly where it is due (private: `Server::roll_after`:
//!   `due`, `not_due`).
//! - An operator reads `freed` only where some books and accounts have the record of what he named
//!   (private: `Server::free`; `TellsFreed`), and after a refusal of an access server never
//!   `disconnected` (private: `tell_answer`).
//! - A status shows one state: its accounts, header, moves and rows (private: `Holdings::of`).
//!
//! No clause says that the books and records of which an operator reads are the server's own, or
//! what one worker finds of another: that is read, and tested (`tests/programs/steering.py`).
#![tactic(auto)]

mod accounts;
mod answering;
mod ask_fault;
mod asking;
mod disconnecting;
mod following;
mod hearing;
mod holdings;
mod look;
mod receiving;
mod reloading;
mod reporting;
mod rolling;
mod server;
mod showing;
mod status;
mod strangers;

pub use accounts::{Accounts, AccountsFault};
pub use rld_edges::{Access, Control, RunFault, Sockets};
pub use server::{Plan, serve};
