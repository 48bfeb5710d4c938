//! The records of a server: the journals of its shards, and what its callers keep of their moves.
//! What a program says at its end is here too: its table, its output and its exit status. It
//! promises:
//! - A record passes only where its segments follow one another from new books and each decision is
//!   the session rule's; a fault is the first of the walk (`audit`: `kept_right`, `fault`, `exact`;
//!   `specs/Audit.antt`).
//! - Journals settle only where no pass and no segment is missing, and each receipt is its own
//!   line; a fault is the first (`settle`: `settled`, `fault`, `exact`; `specs/Settled.antt`).
//! - The table that is printed has the octets of `specs/Table.antt` and nothing else
//!   (`write_table`), an output its lines and its report (`Output::write`). Both speak of writers
//!   whose contents are known.
//!
//! By tests alone: that a write fault comes only where the writer failed.
#![tactic(auto)]

mod audit_fault;
mod audit_walk;
mod chain;
mod close_fault;
mod exit_status;
mod fault;
mod lines;
mod output;
mod positions;
mod receipt;
mod receipts;
mod record;
mod same;
mod segments;
mod settlement;
mod table;

pub use audit_fault::AuditFault;
pub use audit_walk::audit;
pub use close_fault::CloseFault;
pub use exit_status::ExitStatus;
pub use fault::WriteFault;
pub use output::Output;
pub use receipt::{HasReceipts, Receipt};
pub use settlement::settle;
pub use table::{table_of, write_table};
