/// The answer to a request, in a word.
#[derive(Clone, Copy, Debug, PartialEq, Eq)]
pub enum Said {
    /// Access-Accept, with this accept number.
    Accept(u64),
    /// Access-Reject, because the account has no free place.
    LimitReject,
    /// Access-Reject for any other reason.
    Reject,
    /// Accounting-Response.
    Account,
}
