//! RADIUS packets as octets (RFC 2865 sections 3 and 5): a datagram is read into a packet's fields
//! and the list of its attributes, and both are written into octets. It knows nothing of accounts.
//! Read `specs/Packet.antt`, the grammar, and `specs/Attributes.antt` first. It promises:
//! - What is read is in the grammar, and nothing in the grammar is refused (`read`: `found`,
//!   `only`).
//! - The attributes, joined, are the packet's octets (`Packet::attributes`: `found`, `only`).
//! - A draft takes an attribute exactly where its value has at most 253 octets and the whole at
//!   most 4,096; a refusal changes nothing (`Draft::push`: `fits`, `ok`, `err`).
//! - What is finished is the grammar's octets of the fields (`Draft::finish`; `build`: `built`).
//!
//! By tests alone: that a datagram of 65,507 octets and a string of 65,535 are taken.
//!
//! ```
//! let packet = read(datagram)?;
//! let attributes = &packet.attributes()?;
//! let port = attributes.number(5); // NAS-Port
//!
//! let mut draft = Draft::new(alloc, packet.id)?;
//! draft.push(18, b"Session limit reached")?; // Reply-Message
//! let reply = draft.finish(3, &packet.authenticator); // Access-Reject, not sealed yet
//! ```
#![tactic(auto)]

mod attr;
mod attributes;
mod datagram;
mod draft;
mod fault;
pub mod laws;
mod new_packet;
mod octets;
mod packet;
mod short;

pub use attr::{ATTR_HEADER_LEN, Attr, MAX_VALUE_LEN};
pub use attributes::{Attrs, BadAttribute};
pub use datagram::read;
pub use draft::{Draft, TooLong};
pub use fault::NoMemory;
pub use new_packet::{BuildFault, build};
pub use octets::Octets;
pub use packet::{AUTHENTICATOR_START, HEADER_LEN, MAX_LEN, Packet, WireFault};
