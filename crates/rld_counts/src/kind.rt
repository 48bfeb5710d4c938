ghost use Rattle.std.specs.Prelude.{◌≡◌};
ghost use Rattle.rld_counts.specs.Fates.{is_answer};

/// What became of a datagram.
#[derive(Clone, Copy)]
pub enum Kind {
    /// An Access-Accept was sent.
    Accepted,
    /// An Access-Reject was sent: the account has no free place.
    LimitRejected,
    /// An Access-Reject was sent for any other cause.
    Rejected,
    /// An Accounting-Response was sent.
    Accounted,
    /// An Accounting-Response was sent, to a request of a session whose User-Name no account has: it
    /// changes nothing.
    NoAccount,
    /// It was dropped: such datagrams are not answered, and such asks are refused unread.
    Dropped,
    /// It was not answered: memory was refused, its batch was not recorded, or the send failed.
    Failed,
}

impl Kind {
    /// Whether an answer was sent.
    pub fn is_answer(self) -> bool
        ensures { result ≡ is_answer self }
    {
        match self {
            Kind::Accepted
            | Kind::LimitRejected
            | Kind::Rejected
            | Kind::Accounted
            | Kind::NoAccount => true,
            Kind::Dropped | Kind::Failed => false,
        }
    }
}
