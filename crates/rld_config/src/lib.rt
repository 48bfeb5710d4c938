//! The server's file that an operator writes, and how the account file that it names fits it. The
//! keys, and the values that they may have, are in `specs/Key.antt` and `specs/Value.antt`, the
//! order of the checks is in `specs/Server.antt`. All of it is over the table that the kit's `toml`
//! parses, and rests on that library's statements. It promises:
//! - What is read is what the text says, defaults with it; a fault is its first, or that memory was
//!   refused (`ServerFile::read`: `ok`, `fault`).
//! - An account file that everybody can write to is refused, and one that everybody can read where
//!   the server's file does not allow it (`Trust::exposure`). The mode is what the caller passes.
//! - Networks that do not fit the account file are named (`unknown_client`; `unsigned_client`;
//!   `shadowed_client`), and so is the client of asks (`asker_fault`).
//! - The remarks on an account file that is right are exactly those of `specs/Warning.antt`
//!   (`warnings`).
//!
//! No clause ties the memory that a remark tells to what a book takes, nor says at which place a
//! text is no TOML. By tests alone: the texts of the faults.
#![tactic(auto)]

mod archive;
mod ask;
mod control;
mod fault;
mod head;
mod key;
mod listen;
mod network;
mod new_history;
mod part;
mod passed;
mod paths;
mod place;
mod server;
mod sync;
mod trust;
mod value;
mod warning;
mod web;

pub use archive::Archive;
pub use ask::AskSettings;
pub use control::ControlSocket;
pub use fault::ServerFault;
pub use key::Key;
pub use listen::Listen;
pub use network::{asker_fault, shadowed_client, unknown_client, unsigned_client};
pub use new_history::NewHistory;
pub use part::Part;
pub use passed::{PassedOver, passed_over};
pub use paths::Paths;
pub use place::{Place, break_of};
pub use server::ServerFile;
pub use sync::SyncPolicy;
pub use trust::{Exposure, Trust, others_read};
pub use warning::{Warning, books_octets, warnings};
pub use web::Web;
