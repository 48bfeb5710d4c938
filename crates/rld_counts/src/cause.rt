//! Why datagrams and asks end as they do. One table says it all: the lines of refusals, the metrics, the statuses and
//! the pages are written from it.

ghost use Rattle.std.specs.Prelude.{◌≡◌, ◌<◌, length, map};
ghost use Rattle.rld_counts.specs.Fates.{kind_of, name_of, number_of, words_of};

use crate::kind::Kind;

/// Why a datagram or an ask ended as it did: for what it was dropped or refused, or what it was answered.
#[derive(Clone, Copy)]
pub enum Cause {
    /// It was dropped: it has fewer than 20 octets.
    Short,
    /// It was dropped: its Length is under 20, over 4,096 or over the datagram.
    BadLength,
    /// It was dropped: no client has the source's address.
    UnknownClient,
    /// It was dropped: it is no Access-Request, or on the accounting port no Accounting-Request.
    WrongCode,
    /// It was dropped: its Message-Authenticator is not right.
    BadSignature,
    /// It was dropped: it has no Message-Authenticator, but its client has to sign.
    Unsigned,
    /// It was dropped: it has a Proxy-State and no Message-Authenticator.
    UnsignedProxy,
    /// It was dropped: its Request Authenticator is wrong.
    BadAuthenticator,
    /// It was dropped: the attributes of an Accounting-Request are malformed.
    Malformed,
    /// It was dropped: its Proxy-State attributes have over 3,900 octets.
    ProxyTooLong,
    /// It was dropped: it has no Acct-Status-Type, or the first does not have 4 octets.
    NoStatus,
    /// It was dropped: it is of a session, but has no Acct-Session-Id, or the first is empty.
    NoSession,
    /// An ask was refused unread: its token is not the server's.
    Unauthorized,
    /// An ask was refused unread: it is none as docs/PROTOCOL.md has it.
    BadRequest,
    /// Memory for it was refused.
    Refused,
    /// It has a move, but its batch was not recorded.
    Unrecorded,
    /// Its answer could not be sent; to an ask: memory for it was refused.
    Unsent,
    /// An ask was not served: no client may ask, as after a reload of the account file.
    Unserved,
    /// An Access-Accept was sent.
    Accept,
    /// An Access-Reject was sent: the account has no free place.
    LimitReject,
    /// An Access-Reject was sent: the attributes are malformed.
    MalformedReject,
    /// An Access-Reject was sent: there is not exactly one User-Name.
    NotOneName,
    /// An Access-Reject was sent: there is not exactly one password, of PAP or of CHAP.
    NotOnePassword,
    /// An Access-Reject was sent: there is more than one CHAP-Challenge.
    SeveralChallenges,
    /// An Access-Reject was sent: no account has the name.
    UnknownAccount,
    /// An Access-Reject was sent: the password is not the account's.
    WrongPassword,
    /// An Access-Reject was sent: the account is disabled.
    DisabledAccount,
    /// An Access-Reject was sent: the account has no password.
    NoPassword,
    /// An Access-Reject was sent: its client is trusted, and it has a credential that the server does not check.
    UncheckedCredential,
    /// An Accounting-Response was sent, to a Start.
    Start,
    /// An Accounting-Response was sent, to a Stop.
    Stop,
    /// An Accounting-Response was sent, to an Interim-Update.
    InterimUpdate,
    /// An Accounting-Response was sent, to an Accounting-On.
    AccountingOn,
    /// An Accounting-Response was sent, to an Accounting-Off.
    AccountingOff,
    /// An Accounting-Response was sent, to a request of any other status.
    OtherStatus,
    /// An Accounting-Response was sent, to a Start whose User-Name no account has.
    StartUnknown,
    /// An Accounting-Response was sent, to a Stop whose User-Name no account has.
    StopUnknown,
    /// An Accounting-Response was sent, to an Interim-Update whose User-Name no account has.
    InterimUpdateUnknown,
}

/// How many causes there are.
pub(crate) const CAUSES: usize = 38;

/// Each cause, at its number: its kind, its word in lines and metrics, and its words on the page. The words of all drops
/// begin with `drop_`, and those of all rejects with `reject_`.
#[rattlefmt::skip]
const TABLE: &[(Cause, Kind, &str, &str)] = &[
    (Cause::Short, Kind::Dropped, "drop_short", "Dropped: too short"),
    (Cause::BadLength, Kind::Dropped, "drop_bad_length", "Dropped: wrong length"),
    (Cause::UnknownClient, Kind::Dropped, "drop_unknown_client", "Dropped: unknown client"),
    (Cause::WrongCode, Kind::Dropped, "drop_wrong_code", "Dropped: wrong code"),
    (Cause::BadSignature, Kind::Dropped, "drop_bad_signature", "Dropped: wrong signature"),
    (Cause::Unsigned, Kind::Dropped, "drop_unsigned", "Dropped: not signed"),
    (Cause::UnsignedProxy, Kind::Dropped, "drop_unsigned_proxy", "Dropped: not signed, with Proxy-State"),
    (Cause::BadAuthenticator, Kind::Dropped, "drop_bad_authenticator", "Dropped: wrong authenticator"),
    (Cause::Malformed, Kind::Dropped, "drop_malformed", "Dropped: malformed"),
    (Cause::ProxyTooLong, Kind::Dropped, "drop_proxy_too_long", "Dropped: Proxy-State too long"),
    (Cause::NoStatus, Kind::Dropped, "drop_no_status", "Dropped: no Acct-Status-Type"),
    (Cause::NoSession, Kind::Dropped, "drop_no_session", "Dropped: no Acct-Session-Id"),
    (Cause::Unauthorized, Kind::Dropped, "unauthorized", "Refused: wrong token"),
    (Cause::BadRequest, Kind::Dropped, "bad_request", "Refused: no ask"),
    (Cause::Refused, Kind::Failed, "refused", "No memory"),
    (Cause::Unrecorded, Kind::Failed, "unrecorded", "Not recorded"),
    (Cause::Unsent, Kind::Failed, "unsent", "Answer not sent"),
    (Cause::Unserved, Kind::Failed, "unserved", "Not served"),
    (Cause::Accept, Kind::Accepted, "accept", "Accepted"),
    (Cause::LimitReject, Kind::LimitRejected, "reject_limit", "Rejected: no free place"),
    (Cause::MalformedReject, Kind::Rejected, "reject_malformed", "Rejected: malformed"),
    (Cause::NotOneName, Kind::Rejected, "reject_not_one_name", "Rejected: no name, or several"),
    (Cause::NotOnePassword, Kind::Rejected, "reject_not_one_password", "Rejected: no password, or several"),
    (Cause::SeveralChallenges, Kind::Rejected, "reject_several_challenges", "Rejected: several challenges"),
    (Cause::UnknownAccount, Kind::Rejected, "reject_unknown_account", "Rejected: unknown account"),
    (Cause::WrongPassword, Kind::Rejected, "reject_wrong_password", "Rejected: wrong password"),
    (Cause::DisabledAccount, Kind::Rejected, "reject_disabled_account", "Rejected: disabled account"),
    (Cause::NoPassword, Kind::Rejected, "reject_no_password", "Rejected: account without password"),
    (Cause::UncheckedCredential, Kind::Rejected, "reject_unchecked_credential", "Rejected: unchecked credential"),
    (Cause::Start, Kind::Accounted, "start", "Start"),
    (Cause::Stop, Kind::Accounted, "stop", "Stop"),
    (Cause::InterimUpdate, Kind::Accounted, "interim_update", "Interim-Update"),
    (Cause::AccountingOn, Kind::Accounted, "accounting_on", "Accounting-On"),
    (Cause::AccountingOff, Kind::Accounted, "accounting_off", "Accounting-Off"),
    (Cause::OtherStatus, Kind::Accounted, "other_status", "Other status"),
    (Cause::StartUnknown, Kind::NoAccount, "start_unknown", "Start: unknown account"),
    (Cause::StopUnknown, Kind::NoAccount, "stop_unknown", "Stop: unknown account"),
    (Cause::InterimUpdateUnknown, Kind::NoAccount, "interim_update_unknown", "Interim-Update: unknown account"),
];

impl Cause {
    /// Its number: its place in the table.
    pub(crate) fn number(self) -> usize
        ensures number { result ≡ number_of self }
        ensures below { result < 38 }
    {
        match self {
            Cause::Short => 0,
            Cause::BadLength => 1,
            Cause::UnknownClient => 2,
            Cause::WrongCode => 3,
            Cause::BadSignature => 4,
            Cause::Unsigned => 5,
            Cause::UnsignedProxy => 6,
            Cause::BadAuthenticator => 7,
            Cause::Malformed => 8,
            Cause::ProxyTooLong => 9,
            Cause::NoStatus => 10,
            Cause::NoSession => 11,
            Cause::Unauthorized => 12,
            Cause::BadRequest => 13,
            Cause::Refused => 14,
            Cause::Unrecorded => 15,
            Cause::Unsent => 16,
            Cause::Unserved => 17,
            Cause::Accept => 18,
            Cause::LimitReject => 19,
            Cause::MalformedReject => 20,
            Cause::NotOneName => 21,
            Cause::NotOnePassword => 22,
            Cause::SeveralChallenges => 23,
            Cause::UnknownAccount => 24,
            Cause::WrongPassword => 25,
            Cause::DisabledAccount => 26,
            Cause::NoPassword => 27,
            Cause::UncheckedCredential => 28,
            Cause::Start => 29,
            Cause::Stop => 30,
            Cause::InterimUpdate => 31,
            Cause::AccountingOn => 32,
            Cause::AccountingOff => 33,
            Cause::OtherStatus => 34,
            Cause::StartUnknown => 35,
            Cause::StopUnknown => 36,
            Cause::InterimUpdateUnknown => 37,
        }
    }

    /// What became of the datagram.
    pub fn kind(self) -> Kind
        ensures { result ≡ kind_of self }
    {
        rows()[self.number()].1
    }

    /// Its word in lines and metrics.
    pub fn name(self) -> &'static str
        ensures { result.now ≡ name_of self }
    {
        rows()[self.number()].2
    }

    /// Its words on the page.
    pub fn words(self) -> &'static str
        ensures { result.now ≡ words_of self }
    {
        rows()[self.number()].3
    }
}

/// The table.
fn rows() -> &'static [(Cause, Kind, &'static str, &'static str)]
    ensures len { length result.now ≡ 38 }
    ensures kinds { map (λ row. row.1) result.now ≡ map (λ row. row.1) TABLE.now }
    ensures names { map (λ row. row.2.now) result.now ≡ map (λ row. row.2.now) TABLE.now }
    ensures words { map (λ row. row.3.now) result.now ≡ map (λ row. row.3.now) TABLE.now }
{
    TABLE
}
