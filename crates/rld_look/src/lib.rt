//! What a running server shows of itself at a moment, as plain data for printing; and refusals, the
//! datagrams that were not served, with what an operator learns of each. It promises:
//! - Totals are the sums over all accounts (`Totals::of`), and the fullest accounts are the first
//!   50 in the order of `specs/Accounts.antt` (`fullest_looks`).
//! - A minute of the history has what came since it began (`History::begin_minute`: `ok`).
//! - An access server that holds links has one row, with their numbers and their last touch
//!   (`join_servers`; `specs/AccessServers.antt`).
//! - A refusal is told as `specs/Refusal.antt` says (`is_refusal`; `Refusal::of`;
//!   `Refusal::write_line`). Of each cause at most 20 wait, and the others are counted
//!   (`Backlog::note`: `noted`, `all`).
//! - A server is well just where it is told that it records and is not behind (`Health::of`).
//!
//! Read from `take_at`: that what is taken stood behind its receiver's lock. By tests alone
//! (`test_turn`, `tests/programs/page.py`, `tests/programs/refusals.py`): that a look has all
//! links, and that a pipe that nobody reads keeps nothing waiting.
#![tactic(auto)]

mod accounts;
mod backlog;
mod build;
mod clients;
mod health;
mod history;
mod lately;
mod line;
mod look;
mod pages;
mod priority;
mod refusal;
mod refusals;
mod servers;
mod socket_table;
mod totals;
mod watcher;

pub use accounts::{MOST_FULLEST, fullest_looks, held_in};
pub use backlog::{Backlog, MOST_LINES, Noted, Taken};
pub use build::{Build, Proof};
pub use clients::client_looks;
pub use health::Health;
pub use history::History;
pub use line::{Places, write_left_out};
pub use look::{
    AccountLook, AccountsLook, ArchiveLook, ClientLook, Look, Minute, Recording, SocketLook,
};
pub use pages::{Pages, Shown};
pub use priority::{Priority, Sink};
pub use refusal::{Refusal, Refused, is_refusal};
pub use refusals::Refusals;
pub use servers::{
    AccessServerLook, AccessServersLook, MOST_SERVERS, add_links, join_servers, write_nas_word,
};
pub use socket_table::socket_in;
pub use totals::Totals;
pub use watcher::{WatchContext, Watcher};
