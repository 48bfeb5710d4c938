//! The accounts that a RADIUS server serves: clients with their secrets, accounts with their
//! passwords and session limits, and the settings common to all. The values that a field may have
//! are in `specs/Field.antt`, the order of the checks is in `specs/Walk.antt`. The crate
//! `rsl_account_file` reads a `Config` from a file. It promises:
//! - A configuration is made only where every check passes, and a fault is the first in the stated
//!   order, or that memory was refused (`Config::make`: `ok`, `fault`; `specs/Configuration.antt`).
//! - Every configuration is within `specs/Limits.antt`: its numbers and texts, and no name and no
//!   address comes twice (`clients`: `limits`; `accounts`: `limits`; `entry`: `limits`).
//! - A look-up finds the one there is, and numbers are file order (`client`; `account`; `entry`).
//! - A secret or a password is lent by one call, and its `Debug` writes a fixed word (`Secret`:
//!   `expose`: `octets`; `Debug`).
//!
//! By tests alone: the texts of the faults.
#![tactic(auto)]

mod address;
mod client;
mod config;
mod entry;
mod fault;
mod field;
mod part;
mod reply;
mod reply_fault;
mod reply_form;
mod rules;
mod secret;
mod settings;
mod shared_octets;
mod short;
mod text;
mod unsigned_rule;
mod walk;

pub use address::address_of;
pub use client::{Client, check_trust};
pub use config::Config;
pub use entry::Entry;
pub use fault::ConfigFault;
pub use field::Field;
pub use part::Part;
pub use reply::Reply;
pub use reply_fault::ReplyFault;
pub use reply_form::Form;
pub use rules::Rules;
pub use secret::Secret;
pub use settings::{REPLY_ROOM, Settings, check_secret_len, is_strict, knows_own_times};
pub use shared_octets::SharedOctets;
pub use text::Text;
pub use unsigned_rule::UnsignedRule;
