//! What is wrong with a server's file or an account file, in sentences with the lines of the file,
//! for a person. The readers decide whether a file is taken: `read_config` and `ServerFile::read`.
//! Once one has refused a text, this crate says why. It promises:
//! - Of a file that is refused one fault is told at least, and twenty at most (`account_faults`;
//!   `server_faults`; `misfits`; `fault_of_key`).
//!
//! Where the readers' rules and the rows of keys here differ, a fault is told with other words or
//! without a line: no file is taken or refused for it. No clause speaks of the sentences. By tests
//! alone (`test_faults`): which faults are told, their sentences, and their lines.
#![tactic(auto)]

mod account_rows;
mod accounts;
mod faults;
mod found;
mod kind;
mod misfit;
mod outline;
mod owner;
mod quote;
mod replies;
mod row;
mod server;
mod server_rows;
mod shown;
mod spot;
mod step;
mod table;
mod twice;

pub use accounts::account_faults;
pub use faults::{Fault, Faults};
pub use misfit::misfits;
pub use server::{fault_of_key, server_faults};
