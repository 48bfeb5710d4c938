ghost use Rattle.std.specs.Prelude.{◌≡◌, ◌==◌, ◌&&◌};
ghost use Rattle.rld_ask.specs.Refusal.{no_refused, with_refused};

/// How many requests were refused that are no asks.
#[derive(Clone, Copy)]
pub struct Refused {
    /// How many did not show the token.
    pub token: u64,
    /// How many had a wrong form, path or method, or could not be read.
    pub other: u64,
}

impl Refused {
    /// No request.
    pub fn none() -> Refused
        ensures { result ≡ no_refused }
    {
        Refused { token: 0, other: 0 }
    }

    /// Whether there is none.
    pub fn is_none(self) -> bool
        ensures { result ≡ (self.token == 0 && self.other == 0) }
    {
        self.token == 0 && self.other == 0
    }

    /// Adds others. A count that is full stays so.
    pub fn add(&mut self, more: Refused)
        ensures { self.new ≡ with_refused self.old more }
    {
        self.token = self.token.saturating_add(more.token);
        self.other = self.other.saturating_add(more.other);
    }

    /// A request that was answered with this status.
    pub(crate) fn of_status(status: u16) -> Refused {
        if status == 401 {
            Refused { token: 1, other: 0 }
        } else {
            Refused { token: 0, other: 1 }
        }
    }
}
