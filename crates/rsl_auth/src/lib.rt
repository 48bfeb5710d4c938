//! The authenticators, passwords and signatures of RADIUS packets (RFC 2865, RFC 2866, RFC 3579).
//! It knows octets and nothing of accounts. Each call gives exactly what its formula over MD5
//! gives. The formulas are in `specs/Authenticator.antt`, `specs/Password.antt`, `specs/Chap.antt`,
//! `specs/Hmac.antt` and `specs/Signature.antt`. It promises:
//! - A reply is sealed (`seal`: `sealed`), and the authenticator of an accounting request is
//!   checked (`accounting_ok`: `test`, `authentic`).
//! - A User-Password matches exactly where it has 16, 32, .. or 128 octets and reveals the password
//!   and NULs after it (`pap_ok`: `test`, `matches`); a CHAP-Password, where its digest is the
//!   formula's (`chap_ok`: `test`, `answers`).
//! - A packet is signed, and a signature checked (`sign`: `signed`; `signature_ok`: `test`,
//!   `right`).
//!
//! By tests alone: that the formulas are the RFCs', by octets of the RFCs and of Python's hmac and
//! hashlib. Nothing is promised of MD5's strength, nor of the time that a comparison takes; in the
//! source it has no early way out (`src/comparison.rt`).
#![tactic(auto)]

mod authenticator;
mod chap;
mod comparison;
mod hmac;
mod password;
mod signature;

pub use authenticator::{accounting_ok, seal, sealed};
pub use chap::{CHAP_PASSWORD_LEN, chap_ok, chap_response};
pub use comparison::same_octets;
pub use hmac::{HmacKey, hmac_md5};
pub use password::{MAX_PASSWORD_LEN, hide, pap_ok};
pub use signature::{SIGNATURE_LEN, sign, signature_ok};
