//! The edges of the operator's server: its UDP sockets, its control socket, standard error, and
//! waiting for them; the requests to access servers that are under way; the jobs of its workers,
//! how these note their starts and ends, and the faults with which they end. It promises:
//! - Each `[[listen]]` has both its sockets, with the receivers that the file says
//!   (`Sockets::bind`); these receivers, and one worker each for ticks, control, standard error and
//!   disconnects, are the workers (`Sockets::jobs`; `specs/Jobs.antt`).
//! - What answers a request to an access server has come from where that was sent, and is an answer
//!   to its octets (private: `Sent::answer_in`: `peer`, `answer`). A request is sent three times at
//!   most, a second apart (`Step::of`).
//! - The fault of a server is the gravest of its workers' (`outcome_of`), with the exit status of
//!   `specs/Fault.antt` (`RunFault::status`).
//!
//! That a socket is bound there is read from `bind_socket`. No clause says what a socket, the
//! control or standard error gives or takes, how long a wait lasts, what one worker finds of what
//! another told, or which requests are under way.
#![tactic(auto)]

mod control;
mod fault;
mod job;
mod order;
mod readiness;
mod shutdown;
mod socket_port;
mod sockets;
mod status_service;
mod stderr_writer;
mod step;
mod under_way;

pub use control::{Access, Control, Operator};
pub use fault::{RunFault, outcome_of};
pub use job::{Job, ports_of};
pub use order::{MOST_ORDERS, Order, Orders};
pub use readiness::Readiness;
pub use shutdown::{Shutdown, Start};
pub use socket_port::SocketPort;
pub use sockets::{Bound, Pair, Sockets};
pub use status_service::StatusService;
pub use stderr_writer::StderrWriter;
pub use step::Step;
pub use under_way::{UnderWay, Unsent};
