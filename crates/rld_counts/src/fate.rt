//! How a datagram ended, from what a watcher learns of it.

ghost use Rattle.std.specs.Prelude.{◌≡◌, ◌<◌};
ghost use Rattle.rsl_event.specs.Laws.{cause_in};
ghost use Rattle.rld_counts.specs.Ending as ending;
ghost use Rattle.rld_counts.specs.Fates.{fate_number};
ghost use Rattle.rld_turn.specs.Told.{told_as};

use crate::cause::{CAUSES, Cause};
use crate::gate::Gate;
use rld_turn::{End, Ended, Subject};
use rsl_event::{Detail, Dropped, RejectCause, Said, Status};

/// How many fates can be counted: each cause, at each gate.
pub(crate) const FATES: usize = 114;

/// How a datagram ended, or an ask, which counts as one: why, and where it had come.
#[derive(Clone, Copy)]
pub struct Fate {
    /// Where it had come.
    pub gate: Gate,
    /// Why it ended so.
    pub cause: Cause,
}

impl Fate {
    /// How a datagram that came to this gate ended, from what a watcher learns of it.
    pub fn of(gate: Gate, ended: &Ended<'_>) -> Fate
        ensures { result ≡ ending.fate_of gate (told_as ended.now) }
    {
        let cause = cause_of(ended);
        match gate {
            Gate::Auth | Gate::Acct => Fate { gate, cause },
            Gate::Ask => Fate {
                gate,
                cause: ask_cause(cause),
            },
        }
    }

    /// Its number: those of a gate follow each other, in the order of the causes.
    pub(crate) fn number(self) -> usize
        ensures number { result ≡ fate_number self }
        ensures below { result < 114 }
    {
        self.gate.number() * CAUSES + self.cause.number()
    }
}

/// Why a datagram ended as it did.
fn cause_of(ended: &Ended<'_>) -> Cause
    ensures { result ≡ ending.cause_of (told_as ended.now) }
{
    match ended.end {
        End::Dropped(dropped) => drop_cause(dropped),
        End::Refused => Cause::Refused,
        End::Unrecorded => Cause::Unrecorded,
        End::Answered(Said::Accept(_)) => Cause::Accept,
        End::Answered(Said::LimitReject) => Cause::LimitReject,
        End::Answered(Said::Reject) => reject_cause(ended.detail),
        End::Answered(Said::Account) => account_cause(status_in(ended.detail), ended.subject),
        End::Unsent(_) => Cause::Unsent,
    }
}

/// The cause of a drop.
fn drop_cause(dropped: Dropped) -> Cause
    ensures { result ≡ ending.drop_cause dropped }
{
    match dropped {
        Dropped::Short => Cause::Short,
        Dropped::BadLength => Cause::BadLength,
        Dropped::UnknownClient => Cause::UnknownClient,
        Dropped::WrongCode => Cause::WrongCode,
        Dropped::BadSignature => Cause::BadSignature,
        Dropped::Unsigned => Cause::Unsigned,
        Dropped::UnsignedProxy => Cause::UnsignedProxy,
        Dropped::ProxyTooLong => Cause::ProxyTooLong,
        Dropped::BadAuthenticator => Cause::BadAuthenticator,
        Dropped::Malformed => Cause::Malformed,
        Dropped::NoStatus => Cause::NoStatus,
        Dropped::NoSession => Cause::NoSession,
        Dropped::NoMemory => Cause::Refused,
    }
}

/// The cause of a reject that does not concern places, from the detail of its request. Each has one.
fn reject_cause(detail: Option<Detail>) -> Cause
    ensures { result ≡ ending.reject_cause (cause_in detail) }
{
    match detail {
        Some(Detail::Rejected(cause)) => match cause {
            RejectCause::Malformed => Cause::MalformedReject,
            RejectCause::NotOneName => Cause::NotOneName,
            RejectCause::NotOnePassword => Cause::NotOnePassword,
            RejectCause::SeveralChallenges => Cause::SeveralChallenges,
            RejectCause::UnknownAccount => Cause::UnknownAccount,
            RejectCause::WrongPassword => Cause::WrongPassword,
            RejectCause::DisabledAccount => Cause::DisabledAccount,
            RejectCause::NoPassword => Cause::NoPassword,
            RejectCause::UncheckedCredential => Cause::UncheckedCredential,
        },
        Some(Detail::Asks | Detail::Accounting(_)) | None => Cause::Unserved,
    }
}

/// The status of an Accounting-Request, from its detail, if it is known.
fn status_in(detail: Option<Detail>) -> Option<Status>
    ensures { result ≡ ending.status_in detail }
{
    match detail {
        Some(Detail::Accounting(status)) => status,
        Some(Detail::Asks | Detail::Rejected(_)) | None => None,
    }
}

/// How an answer to a request of this status is counted, or of an unknown one, by whom it concerns.
fn account_cause(status: Option<Status>, subject: Option<Subject>) -> Cause
    ensures { result ≡ ending.account_cause status subject }
{
    match (status, subject) {
        (Some(Status::Start), Some(Subject::Nobody)) => Cause::StartUnknown,
        (Some(Status::Start), _) => Cause::Start,
        (Some(Status::Stop), Some(Subject::Nobody)) => Cause::StopUnknown,
        (Some(Status::Stop), _) => Cause::Stop,
        (Some(Status::InterimUpdate), Some(Subject::Nobody)) => Cause::InterimUpdateUnknown,
        (Some(Status::InterimUpdate), _) => Cause::InterimUpdate,
        (Some(Status::AccountingOn), _) => Cause::AccountingOn,
        (Some(Status::AccountingOff), _) => Cause::AccountingOff,
        (None, _) => Cause::OtherStatus,
    }
}

/// Why an ask ended whose request ended for this cause: what is none of an ask is one that is not served.
fn ask_cause(cause: Cause) -> Cause
    ensures { result ≡ ending.ask_cause cause }
{
    match cause {
        Cause::Refused
        | Cause::Unrecorded
        | Cause::Unsent
        | Cause::Accept
        | Cause::LimitReject
        | Cause::UnknownAccount
        | Cause::DisabledAccount => cause,
        _ => Cause::Unserved,
    }
}
