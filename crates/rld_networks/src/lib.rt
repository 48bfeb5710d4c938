//! Networks: prefixes of IPv4 and IPv6 addresses that stand for clients. What a prefix is, its
//! text, and which addresses it holds, is in `specs/Prefix.antt`. It promises:
//! - Of the networks that hold an address the one with the longest prefix says which client it is.
//!   An IPv4 address in none is itself, an IPv6 address in none is no client's, and ::ffff:a.b.c.d
//!   counts as a.b.c.d (`client_of`; `specs/Networks.antt`).
//! - A text is a prefix exactly where it is an address, a slash and a number of bits that fits it,
//!   with no bit set behind them (`prefix_of`). What an address writes, the kit's reader says
//!   (`ip_address_of`).
//! - A socket at one address takes what comes to another where they are the same, or the one is
//!   0.0.0.0 and the other IPv4, or the one is :: (`covers`). That the system has it so for :: is
//!   shown by `tests/programs/networks.sh`.
//!
//! By tests alone: how a prefix prints.
#![tactic(auto)]

mod address;
mod finding;
mod network;
mod prefix;
mod reading;

pub use address::{canonical, covers, ip_address_of, same_address};
pub use finding::client_of;
pub use network::Network;
pub use prefix::Prefix;
pub use reading::prefix_of;
