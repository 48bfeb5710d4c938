ghost use Rattle.std.specs.Prelude.{◌≡◌};
ghost use Rattle.rld_config.specs.Value.{new_history_of};

/// The outcome of a start that finds no history in the state folder, or no folder.
#[derive(Clone, Copy, Debug)]
pub enum NewHistory {
    /// A new history begins.
    Begins,
    /// The start is refused.
    Refused,
}

impl NewHistory {
    /// The outcome where a history must exist, or need not.
    pub(crate) fn of_flag(must_exist: bool) -> NewHistory
        ensures { result ≡ new_history_of must_exist }
    {
        if must_exist {
            NewHistory::Refused
        } else {
            NewHistory::Begins
        }
    }
}
