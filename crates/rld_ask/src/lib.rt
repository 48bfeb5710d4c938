//! Asks of whoever has checked a login himself, as FreeRADIUS does: whether the account has a
//! place. They come over HTTP/1.1 as forms, and are answered as JSON that FreeRADIUS's `rest`
//! module reads. It promises:
//! - A form is the ask of `specs/Form.antt`, or its first fault is told (`AskForm::read`: `fault`).
//! - An ask is exactly the Access-Request of `specs/Request.antt`, signed with its client's secret.
//!   The same ask has the same octets, so to the server a repeat is one (`AskForm::request`:
//!   `octets`).
//! - What is answered follows from the reply to it (`Outcome::of`; `Outcome::status`;
//!   `reply_json`).
//! - A request without the token is refused, and is no ask (`Refusal::of`; `Token::is_shown`).
//! - The first connection that waits is told the first answer, and so on (`answer_each`).
//!
//! No clause says what a connection has read. By tests alone (`tests/programs/asks.py`,
//! `tests/programs/freeradius-checks.sh`): that answers are to the asks that were gathered, and
//! that FreeRADIUS reads the JSON.
#![tactic(auto)]

mod ask_connection;
mod ask_connections;
mod asked;
mod asks;
mod fault;
mod field;
mod fields;
mod form;
mod outcome;
mod refusal;
mod refused;
mod reply;
mod request;
mod status;
mod token;

pub use asked::{Answer, Asked};
pub use asks::Asks;
pub use fault::FormFault;
pub use field::Field;
pub use form::{AskForm, MAX_KEY_LEN};
pub use outcome::Outcome;
pub use refused::Refused;
pub use reply::{reply_json, reply_lines};
pub use request::CALLING_STATION_ID;
pub use token::Token;
