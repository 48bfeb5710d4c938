//! The turns of a server, in two halves: `Receiver::gather` takes what waits at a port as one
//! batch, and `Receiver::answer` answers it, once the server has recorded its moves. A server sees
//! the client that a peer stands for (`specs/Present.antt`). It promises:
//! - At most 64 datagrams are taken. Each is dropped for its cause, refused, or waits; the moves
//!   are theirs, in order (`Receiver::gather`: `gathered`, `few`).
//! - Each is then dropped, refused, unrecorded or answered, in order. One with a move is answered
//!   only if the moves are recorded, with the decision on its own move (`Receiver::answer`:
//!   `answered`; `specs/Turned.antt`). The decision is of a `Recorded`, which `Store::commit` alone
//!   makes. Over a port that tells, the answer goes to the peer that asked.
//! - A watcher is told how each ended, with its cause or answer (`specs/Told.antt`).
//! - A Status-Server packet has exactly the answer of `specs/StatusAnswer.antt` (`status_answer`).
//!
//! Read from the code: that a turn takes until nothing is there. By tests alone (`test_turn`,
//! `tests/programs/networks.sh`): that an answer comes where memory is there and the batch was
//! recorded, and that the sockets of `radlimitd` are such ports.
#![tactic(auto)]

mod answering;
mod end;
mod gathering;
mod origin;
mod present;
mod receiver;
mod request;
mod room;
mod status_reply;
mod status_request;
mod subject;
mod unassigned;
mod watch;

pub use end::End;
pub use gathering::Gathered;
pub use origin::Origin;
pub use present::Present;
pub use receiver::{MAX_BATCH, Receiver};
pub use rld_store::{RecordFault, Recorded};
pub use status_reply::status_answer;
pub use status_request::STATUS_SERVER;
pub use subject::Subject;
pub use watch::{Ended, Watch};

/// A datagram, with the peer that it came from or goes to.
pub type PeerDatagram = rsl_port::Datagram<std::net::SocketAddr>;
