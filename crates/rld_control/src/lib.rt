//! What an operator asks of a running server by its unix socket, a line at a time, and the end of
//! an answer. Also the packets that a line leads to: a Stop or an Accounting-Off, which frees
//! places, and a Disconnect-Request (RFC 5176). It promises:
//! - A line is the command of `specs/Command.antt`, or none (`Command::read`), and the line of a
//!   command is read as that command, whatever octets its names and ids have (`laws::line_asks`).
//! - A Stop is of exactly the session that is named, and from its client's address means that Stop
//!   and nothing else (`Stop::of`: `stop`, `meaning`); an Accounting-Off means that its access
//!   server restarts (`Off::of`: `meaning`).
//! - A Disconnect-Request has the octets of `specs/RequestOctets.antt`
//!   (`DisconnectRequest::octets`: `octets`), and goes to the port of its client, if a link is
//!   bound (`disconnect_port`).
//! - A datagram is its answer exactly where `specs/Answer.antt` says so (`read_answer`).
//! - A link is in a list exactly where it has all that is given (`Wanted::has`).
//!
//! By tests alone: that each session has a Stop, and that the octets are those that the RFC wants.
//!
//! ```
//! match read_answer(&octets, request.secret, datagram) {
//!     Some(DisconnectAnswer::Ack) => {} // the session has ended
//!     Some(DisconnectAnswer::Nak(cause)) => {} // it has not: `cause_name`
//!     None => {} // no answer to this request: wait on
//! }
//! ```
#![tactic(auto)]

mod answer;
mod cause;
mod codes;
mod command;
mod disconnect;
mod disconnected;
mod fault;
mod form;
pub mod laws;
mod line;
mod listing;
mod named;
mod off;
mod reply;
mod request;
mod request_fault;
mod sealing;
mod server_name;
mod signature;
mod stop;
mod tries;
mod value;
mod wanted;
mod words;

pub use answer::{DisconnectAnswer, read_answer};
pub use cause::cause_name;
pub use command::Command;
pub use disconnect::DisconnectRequest;
pub use disconnected::{DisconnectFault, Disconnected, disconnect_port, is_unanswered};
pub use fault::FreeFault;
pub use form::{Form, Selection};
pub use line::read_line;
pub use listing::{AccountLinks, Listing};
pub use named::{NamedServer, NamedSession, push_server};
pub use off::Off;
pub use reply::Reply;
pub use request::disconnect_request;
pub use request_fault::RequestFault;
pub use server_name::ServerName;
pub use stop::Stop;
pub use tries::{PAUSE_SECS, TRIES};
pub use wanted::{LinkState, Wanted};
