//! Ports, clocks and pauses: what the receivers and workers of both servers, `radlimit serve` and
//! `radlimitd`, need from outside. It promises:
//! - The numbers of a port of sources count its calls as `specs/Told.antt` says (`Numbers::new`,
//!   `note_receive`, `note_send`).
//! - A port of memory begins with what it is given, and gives what it kept and counted
//!   (`MemoryPort::new`, `taken`, `sent`, `numbers`).
//! - A datagram's source is the address and port that the system gave, and a reply's is given to it
//!   (`source_in`, `socket_addr`).
//! - Which faults of a read are a turn without a datagram is `specs/Socket.antt` (`reception`).
//!
//! The moments that a clock has shown are those of `specs/Shown.antt`. No clause says which moment
//! the system's clock shows, nor that a port of memory gives what it was made with: tests of
//! receivers see the second (`test_server`, `test_turn`).
#![tactic(auto)]

mod address;
mod clock;
mod datagram_port;
mod memory_port;
mod socket;
mod system_clock;

pub use address::Address;
pub use clock::{Clock, Pause};
pub use datagram_port::{Datagram, DatagramPort, Numbers, PortFault};
pub use memory_port::{Coming, MemoryPort};
pub use socket::{reception, socket_addr};
pub use system_clock::SystemClock;
