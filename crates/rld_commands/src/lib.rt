//! The commands of `radlimitd`, but `run`: the files that it is started with, what is asked of a
//! running server, and the faults, each with its exit status. The crate `rld_words` reads their
//! words. It promises:
//! - An account file is taken only where it fits the server's file: each network's client is there
//!   and signs under a guard, no network takes another client's address, the client of asks is
//!   there and trusted, and the file's mode is allowed (`accounts_for`: `known`, `signing`,
//!   `apart`, `asker`, `closed`).
//! - A token is taken only from a file that its owner alone can read or write (`token_in`).
//! - The exit status is that of the fault, or 0; by `free` and `disconnect` 3 says that nothing is
//!   held (`exit_code`; `specs/Status.antt`; private: `Outcome::of`).
//!
//! The mode is a value here: that the system reported it is read from the code. By tests alone
//! (`tests/programs/streams.py`): how long an answer is waited for, what `init` writes, what
//! `check` and `lines` print, on which stream and with which status.
#![tactic(auto)]

mod answer;
mod ask;
mod carrying_out;
mod cause;
mod check;
mod exit;
mod export;
mod fault;
mod files;
mod folder;
mod free;
mod init;
mod lines;
mod outcome;
mod output;
mod rebase;
mod reply;
mod sessions;
mod token;
mod wrong;

pub use carrying_out::carry_out;
pub use cause::cause_of;
pub use exit::exit_code;
pub use fault::Fault;
pub use files::{AccountFile, accounts_for, server_file, unknown_group};
pub use token::{TokenFile, token_in};
pub use wrong::{BadFile, BadLog, Wrong};
