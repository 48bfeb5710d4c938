//! The running server of `radlimit serve`: two receivers on two UDP sockets and a worker that makes
//! ticks, each on its own thread, over one service. What a receiver does is in `rsl_service`. It
//! promises:
//! - It succeeds only with a closed service, and prints two lines of counts that add up, then the
//!   table of a report of its configuration (`serve`: `served`; `specs/Served.antt`).
//! - After every fault but `InputOutput` nothing was written (`serve`: `silent`).
//! - The arguments are read as `specs/Plan.antt` says (`Plan::read`), and the exit status of a
//!   fault is that of `specs/Fault.antt` (`ServeFault::status`).
//!
//! No clause says that the configuration is FILE's, that the boot number is the second of the
//! start, that the turns are TURNS, that a worker made ticks, or that the figures of the report are
//! those of the closed journals. `UdpPort` hands the system the addresses of `rsl_port`: that is
//! read from its body. By tests alone (`test_server`, `tests/programs/radclient-serve.sh`,
//! `tests/programs/streams.py`): what a socket gives and takes, and that a repeat has the same
//! octets.
#![tactic(auto)]

mod clock;
mod fault;
mod output;
mod plan;
mod server;
mod shutdown;
mod turns;
mod udp_port;
mod workers;

pub use fault::ServeFault;
pub use output::counts_of;
pub use plan::Plan;
pub use rsl_port::SystemClock;
pub use rsl_service::Closed;
pub use server::serve;
pub use udp_port::UdpPort;
