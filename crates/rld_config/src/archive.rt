ghost use Rattle.std.specs.Prelude.{◌≡◌};
ghost use Rattle.rld_config.specs.Value.{archive_word};

/// How long the files of the state folder that no start needs any more are kept.
#[derive(Clone, Copy, Debug)]
pub enum Archive {
    /// For ever.
    Keep,
    /// Not at all.
    Nothing,
    /// For this number of days: 1 to 36,500.
    Days(u16),
}

impl Archive {
    /// The archive of a word of the file: `keep` or `none`.
    pub(crate) fn of_word(word: &str) -> Option<Archive>
        ensures { result ≡ archive_word word.now }
    {
        match word {
            "keep" => Some(Archive::Keep),
            "none" => Some(Archive::Nothing),
            _ => None,
        }
    }
}
