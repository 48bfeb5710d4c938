use crate::status::Status;

/// Why an Access-Request is rejected: the first cause that applies, in this order.
#[derive(Clone, Copy, Debug)]
pub enum RejectCause {
    /// Its attributes are malformed.
    Malformed,
    /// It has no User-Name, or more than one.
    NotOneName,
    /// Its client is trusted, and it has a credential that the server does not check, as of EAP, MS-CHAP, ARAP or
    /// Digest, or a malformed Vendor-Specific: nobody may have looked at it.
    UncheckedCredential,
    /// It has no password, or more than one, of both kinds together: User-Password and CHAP-Password.
    /// A request that authenticates otherwise, as by EAP, has none. One of a trusted client may have none.
    NotOnePassword,
    /// It has more than one CHAP-Challenge.
    SeveralChallenges,
    /// No account has its User-Name.
    UnknownAccount,
    /// The account is disabled, whatever the password is.
    DisabledAccount,
    /// The account has no password, and its client does not vouch for the request.
    NoPassword,
    /// Its password is not the account's.
    WrongPassword,
}

/// What counters and log lines say of a request beyond its meaning.
#[derive(Clone, Copy)]
pub enum Detail {
    /// An Access-Request that asks for an account with the right password, or by a client that vouches for it,
    /// so that the books decide.
    Asks,
    /// An Access-Request that is rejected for this cause, whatever the books hold.
    Rejected(RejectCause),
    /// An Accounting-Request of this status, or of an unknown one.
    Accounting(Option<Status>),
}
