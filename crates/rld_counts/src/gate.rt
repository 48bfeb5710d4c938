ghost use Rattle.std.specs.Prelude.{◌≡◌, ◌<◌};
ghost use Rattle.rld_counts.specs.Fates.{causes_at, gate_number, gate_of, is_same_gate, word_of};

use crate::cause::Cause;
use rsl_event::Port;

/// Where datagrams and asks come to the server.
#[derive(Clone, Copy)]
pub enum Gate {
    /// The authentication port.
    Auth,
    /// The accounting port.
    Acct,
    /// Asks, over HTTP or of operators: each is a request of the authentication port.
    Ask,
}

/// The causes for which datagrams end at the authentication port.
const AUTH_CAUSES: &[Cause] = &[
    Cause::Short,
    Cause::BadLength,
    Cause::UnknownClient,
    Cause::WrongCode,
    Cause::BadSignature,
    Cause::Unsigned,
    Cause::UnsignedProxy,
    Cause::ProxyTooLong,
    Cause::Refused,
    Cause::Unrecorded,
    Cause::Unsent,
    Cause::Accept,
    Cause::LimitReject,
    Cause::MalformedReject,
    Cause::NotOneName,
    Cause::NotOnePassword,
    Cause::SeveralChallenges,
    Cause::UnknownAccount,
    Cause::WrongPassword,
    Cause::DisabledAccount,
    Cause::NoPassword,
    Cause::UncheckedCredential,
];

/// Those at the accounting port.
const ACCT_CAUSES: &[Cause] = &[
    Cause::Short,
    Cause::BadLength,
    Cause::UnknownClient,
    Cause::WrongCode,
    Cause::BadAuthenticator,
    Cause::Malformed,
    Cause::ProxyTooLong,
    Cause::NoStatus,
    Cause::NoSession,
    Cause::Refused,
    Cause::Unrecorded,
    Cause::Unsent,
    Cause::Start,
    Cause::Stop,
    Cause::InterimUpdate,
    Cause::AccountingOn,
    Cause::AccountingOff,
    Cause::OtherStatus,
    Cause::StartUnknown,
    Cause::StopUnknown,
    Cause::InterimUpdateUnknown,
];

/// Those of asks.
const ASK_CAUSES: &[Cause] = &[
    Cause::Unauthorized,
    Cause::BadRequest,
    Cause::Refused,
    Cause::Unrecorded,
    Cause::Unsent,
    Cause::Unserved,
    Cause::Accept,
    Cause::LimitReject,
    Cause::UnknownAccount,
    Cause::DisabledAccount,
];

impl Gate {
    /// That of a receiver of this port.
    pub fn of(port: Port) -> Gate
        ensures { result ≡ gate_of port }
    {
        match port {
            Port::Auth => Gate::Auth,
            Port::Acct => Gate::Acct,
        }
    }

    /// Its number.
    pub(crate) fn number(self) -> usize
        ensures number { result ≡ gate_number self }
        ensures below { result < 3 }
    {
        match self {
            Gate::Auth => 0,
            Gate::Acct => 1,
            Gate::Ask => 2,
        }
    }

    /// Its word in lines and metrics.
    pub fn word(self) -> &'static str
        ensures { result.now ≡ word_of self }
    {
        match self {
            Gate::Auth => "auth",
            Gate::Acct => "acct",
            Gate::Ask => "ask_http",
        }
    }

    /// The causes for which what comes here ends, in the order in which they are told.
    pub fn causes(self) -> &'static [Cause]
        ensures { result.now ≡ causes_at self }
    {
        match self {
            Gate::Auth => AUTH_CAUSES,
            Gate::Acct => ACCT_CAUSES,
            Gate::Ask => ASK_CAUSES,
        }
    }

    /// Whether this is the other gate.
    pub(crate) fn is(self, other: Gate) -> bool
        ensures { result ≡ is_same_gate self other }
    {
        match (self, other) {
            (Gate::Auth, Gate::Auth) | (Gate::Acct, Gate::Acct) | (Gate::Ask, Gate::Ask) => true,
            (Gate::Auth | Gate::Acct | Gate::Ask, _) => false,
        }
    }
}
