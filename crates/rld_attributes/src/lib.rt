//! The attributes of an accept, as an operator writes them: `Framed-IP-Address = 192.0.2.7`. How a
//! value is written in each form stands in `specs/Value.antt`. It promises:
//! - An attribute is told by the name that the dictionary has for it, where the value is of that
//!   name's form, and else by its numbers as octets (`write_attribute`; `specs/Written.antt`).
//! - Of a reply each attribute has a line with its octets, but those that each reply has anew
//!   (`reply_listed`).
//! - Of an account these are the lines of exactly the accept that the server answers with
//!   (`accept_listed`).
//!
//! By tests alone: that `read_attribute` makes the same octets of what is told. Each row of the
//! dictionary and each name of a value is tried (`tests/programs/replies.py`).
#![tactic(auto)]

mod accept;
mod carried;
mod listed;
mod value;
mod written;

pub use accept::accept_listed;
pub use listed::{attributes_of, reply_listed};
pub use value::push_escaped;
pub use written::{Written, write_attribute};
