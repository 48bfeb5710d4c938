ghost use Rattle.std.specs.Prelude.{◌≡◌};
ghost use Rattle.rld_config.specs.Value.{sync_word};

/// When what was recorded is synced to the disk. Under each policy what was answered survives a
/// kill of the process; they differ in what a loss of power leaves.
#[derive(Clone, Copy, Debug)]
pub enum SyncPolicy {
    /// Before each answer: no answer is lost.
    Always,
    /// Once a second: the answers of the last second may be lost.
    Second,
    /// When the system likes: what was answered since its last write may be lost.
    Never,
}

impl SyncPolicy {
    /// The policy of a word of the file: `always`, `second` or `never`.
    pub(crate) fn of_word(word: &str) -> Option<SyncPolicy>
        ensures { result ≡ sync_word word.now }
    {
        match word {
            "always" => Some(SyncPolicy::Always),
            "second" => Some(SyncPolicy::Second),
            "never" => Some(SyncPolicy::Never),
            _ => None,
        }
    }
}
