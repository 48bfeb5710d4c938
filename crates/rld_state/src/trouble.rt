ghost use Rattle.std.specs.Prelude.{◌≡◌};
ghost use Rattle.rld_state.specs.Troubled.{news_of};

use std::fmt;

/// A change in whether batches are recorded. It prints as a line of standard error.
#[derive(Clone, Copy)]
pub enum News {
    /// Batches are no longer recorded.
    Began,
    /// Batches are recorded again.
    Over,
}

impl fmt::Display for News {
    fn fmt<W: fmt::Write>(&self, f: &mut fmt::Formatter<W>) -> fmt::Result {
        match self {
            News::Began => f.write_str(
                "not recorded, and so not answered: the disk is full or fails, or memory is refused",
            ),
            News::Over => f.write_str("recorded again"),
        }
    }
}

/// Whether something was failing when it was last reported.
#[derive(Clone, Copy)]
pub struct Trouble {
    is_there: bool,
}

impl Trouble {
    ghost use Rattle.std.specs.Prelude.{false};

    /// No trouble.
    pub fn new() -> Trouble
        ensures { result.is_there ≡ false }
    {
        Trouble { is_there: false }
    }

    /// The report after something has failed, or has not, if that differs from the last time.
    pub fn news(&mut self, has_failed: bool) -> Option<News>
        ensures news { result ≡ news_of self.old.is_there has_failed }
        ensures kept { self.new.is_there ≡ has_failed }
    {
        let was_there = self.is_there;
        self.is_there = has_failed;
        match (was_there, has_failed) {
            (false, true) => Some(News::Began),
            (true, false) => Some(News::Over),
            _ => None,
        }
    }
}
