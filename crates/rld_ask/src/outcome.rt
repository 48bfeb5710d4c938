ghost use Rattle.std.specs.Prelude.{◌≡◌};
ghost use Rattle.rld_ask.specs.Outcome.{outcome_of, rejected_as, status_of, text_of};

use rsl_event::{Detail, RejectCause, Said};

/// What became of an ask.
#[derive(Clone, Copy, Debug)]
pub enum Outcome {
    /// It is accepted: the account has a place.
    Accepted,
    /// It is rejected: the account has no free place.
    LimitReached,
    /// No account has the name.
    UnknownAccount,
    /// The account is disabled.
    Disabled,
    /// It is not known whether there is a place: nothing was recorded, or the answer was lost. The same ask
    /// may be made again.
    Unanswered,
}

impl Outcome {
    /// What became of an ask to which this was answered, if anything was, by what was read of its request.
    pub fn of(said: Option<Said>, detail: Option<Detail>) -> Outcome
        ensures { result ≡ outcome_of said detail }
    {
        match said {
            Some(Said::Accept(_)) => Outcome::Accepted,
            Some(Said::LimitReject) => Outcome::LimitReached,
            Some(Said::Reject) => Outcome::rejected(detail),
            Some(Said::Account) | None => Outcome::Unanswered,
        }
    }

    /// What became of an ask whose request was rejected, which was no matter of places.
    fn rejected(detail: Option<Detail>) -> Outcome
        ensures { result ≡ rejected_as detail }
    {
        match detail {
            Some(Detail::Rejected(RejectCause::UnknownAccount)) => Outcome::UnknownAccount,
            Some(Detail::Rejected(RejectCause::DisabledAccount)) => Outcome::Disabled,
            _ => Outcome::Unanswered,
        }
    }

    /// The status of the answer over HTTP.
    pub fn status(self) -> u16
        ensures { result ≡ status_of self }
    {
        match self {
            Outcome::Accepted => 200,
            Outcome::LimitReached => 403,
            Outcome::UnknownAccount => 404,
            Outcome::Disabled => 423,
            Outcome::Unanswered => 503,
        }
    }

    /// What is said of it, without a line feed.
    pub fn text(self) -> &'static str
        ensures { result.now ≡ text_of self }
    {
        match self {
            Outcome::Accepted => "accepted",
            Outcome::LimitReached => "session limit reached",
            Outcome::UnknownAccount => "unknown account",
            Outcome::Disabled => "account disabled",
            Outcome::Unanswered => "not recorded",
        }
    }
}
