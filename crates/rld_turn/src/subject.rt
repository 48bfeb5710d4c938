ghost use Rattle.std.specs.Prelude.{◌≡◌};
ghost use Rattle.rld_turn.specs.Subject.{subject_of};

use rsl_event::Meaning;

/// Whom a request concerns, by what it means.
#[derive(Clone, Copy)]
pub enum Subject {
    /// An account, to which it happens.
    Account,
    /// An access server, which has started or is about to stop.
    AccessServer,
    /// Nobody: it changes nothing. So is an Accounting-Request of a session whose User-Name no account
    /// has, or that has none.
    Nobody,
}

impl Subject {
    /// Whom a request with this meaning concerns.
    pub(crate) fn of(meaning: &Meaning) -> Subject
        ensures { result ≡ subject_of meaning.now }
    {
        match meaning {
            Meaning::Own { .. } => Subject::Account,
            Meaning::Restart { .. } => Subject::AccessServer,
            Meaning::Bare | Meaning::Reject | Meaning::Stray(_) => Subject::Nobody,
        }
    }
}
