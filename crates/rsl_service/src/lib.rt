//! The service: shards, each under a lock, which several receivers and an expiry worker share. What
//! is done under a lock is said by the methods of `Desk` (`specs/Made.antt`, `specs/Report.antt`).
//! It promises:
//! - A datagram is answered only if its pass has a receipt of each of its moves (`Service::apply`:
//!   `applied`).
//! - `close` succeeds only where the record settles, for some journal of each shard
//!   (`Service::close`: `closed`); a closed service's journals obey the rule
//!   (`laws::closed_journals_obey_the_rule`).
//! - A receiver answers, drops or refuses each datagram as `specs/Served.antt` says, over a port
//!   that tells; over any port its counts are those of the port's calls (`receive`: `served`,
//!   `calls`).
//!
//! No clause sees what comes out of a lock: that is read from the lines that take the locks
//! (`make_under_lock`, `cut_under_lock`, `show_under_lock`, `Service::end`). docs/ASSURANCE.md has
//! the wrong bodies, and `test_service` fails for each. By tests alone: that an answer comes.
#![tactic(auto)]

mod apply;
mod clock;
mod counts;
mod desk;
mod fault;
mod journals;
pub mod laws;
mod ledger;
mod pass;
mod receiver;
mod report;
mod service;

pub use apply::Answered;
pub use clock::expire_loop;
pub use counts::Counts;
pub use fault::{ApplyFault, CutFault, PassFault};
pub use journals::Closed;
pub use ledger::{Blanks, Tally};
pub use pass::Pass;
pub use receiver::{ReceiveFault, receive};
pub use rsl_port::{Clock, Coming, Datagram, DatagramPort, MemoryPort, Numbers, Pause, PortFault};
pub use rsl_record::{CloseFault, HasReceipts, Receipt, settle};
pub use service::{Gate, Open, Service};
