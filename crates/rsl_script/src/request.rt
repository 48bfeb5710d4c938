ghost use Rattle.std.specs.Prelude.{◌≡◌};
ghost use Rattle.rsl_script.specs.Access.{method_word};

use crate::limited::{AttributeText, Password};
use rsl_accounts::Secret;
use rsl_event::Status;

/// How a request shows the password.
#[derive(Clone, Copy)]
pub enum Method {
    /// By a User-Password: the line `ask`.
    Pap,
    /// By a CHAP-Password without a CHAP-Challenge: the line `chap`.
    Chap,
}

impl Method {
    /// The first word of its lines.
    pub(crate) fn word(self) -> &'static str
        ensures { result.now ≡ method_word self }
    {
        match self {
            Method::Pap => "ask",
            Method::Chap => "chap",
        }
    }
}

/// The Access-Request of a line `ask` or `chap` (RFC 2865 section 4.1).
#[derive(Drop)]
pub struct AccessRequest {
    /// How it shows the password.
    pub method: Method,
    /// The line without its moment, its words joined by one space. Its MD5 is the Request
    /// Authenticator, so the same words at another moment are a retransmission. It has the
    /// password, so it is a secret too.
    pub text: Secret,
    /// The NAS-Identifier, if there is one.
    pub nas: Option<AttributeText>,
    /// The User-Name.
    pub name: AttributeText,
    /// The password.
    pub password: Password,
    /// The Identifier, and the CHAP Ident.
    pub id: u8,
    /// The Calling-Station-Id, if the line has a word `station=`.
    pub station: Option<AttributeText>,
}

/// The Accounting-Request of a line `start`, `interim`, `stop`, `on` or `off` (RFC 2866 section
/// 4.1).
#[derive(Drop)]
pub enum AccountingRequest {
    /// It reports on a session: `start`, `interim` or `stop`.
    Session {
        /// Start, Interim-Update or Stop.
        status: Status,
        /// The NAS-Identifier, if there is one.
        nas: Option<AttributeText>,
        /// The User-Name.
        name: AttributeText,
        /// The Acct-Session-Id.
        session: AttributeText,
        /// The Acct-Multi-Session-Id, if the line has a word `multi=`.
        bundle: Option<AttributeText>,
        /// The number of the Class, if the line has a word `class=`.
        class: Option<u64>,
        /// The Calling-Station-Id, if the line has a word `station=`.
        station: Option<AttributeText>,
    },
    /// It reports a restart of the access server: `on` or `off`.
    Server {
        /// Accounting-On or Accounting-Off.
        status: Status,
        /// The NAS-Identifier, if there is one.
        nas: Option<AttributeText>,
        /// The Acct-Delay-Time in seconds, if the line has a word `delay=`.
        delay: Option<u32>,
    },
}
