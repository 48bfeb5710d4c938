//! From a datagram to its meaning, and from a decision to the reply. Both are functions of octets,
//! port, source, configuration and boot number, and a reply of the decision too. Read
//! `specs/Meaning.antt` and `specs/Answer.antt` first, then `specs/Access.antt` and
//! `specs/Accounting.antt` for the two ports. It promises:
//! - The meaning of a datagram is the definition's, or the first cause for which it is dropped;
//!   that covers passwords, signatures and each version's rules (`prepare`: `meaning`).
//! - A reply has the octets of the definition, and fits the room that was taken before, so it
//!   cannot fail for want of memory (`reply`; `reply_to`; `prepare`: `prepared`).
//! - A request without a password asks only where its client is trusted, and has no credential that
//!   is not checked (by `asks_once` and `has_unchecked_credential`).
//! - Each cause of a reject is the definition's (`prepare_in_detail`: `detail`), and belongs to a
//!   request that is rejected (`laws::causes_are_of_rejects`).
//!
//! By tests alone: that the formulas are the RFCs', and that the RFCs' numbers have the right
//! names.
#![tactic(auto)]

mod access;
mod access_attributes;
mod accounting;
pub mod codes;
mod credential;
mod detail;
mod event;
pub mod laws;
mod meaning;
mod meaning_kind;
mod nas;
mod occurrences;
mod preparation;
mod reply_attributes;
mod reply_packet;
mod request;
mod signature;
mod signing;
mod station;
mod status;
mod words;

pub use detail::{Detail, RejectCause};
pub use event::{Act, Decision, Event, Key, Source};
pub use meaning::{Dropped, Meaning, Note, Port, Prepared};
pub use meaning_kind::MeaningKind;
pub use nas::{Nas, NasName};
pub use preparation::{Detailed, prepare, prepare_in_detail};
pub use reply_attributes::class_octets;
pub use reply_packet::{reply, reply_to, room, room_in, said};
pub use signing::Signing;
pub use status::Status;
pub use words::Said;
