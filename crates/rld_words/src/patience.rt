//! How long the answer of a running server is waited for.

ghost use Rattle.std.specs.Fmt.{decimal};
ghost use Rattle.std.specs.Prelude.{ℕ, ◌≡◌, ◌<◌, ◌^◌, Some};
ghost use Rattle.rld_words.specs.Waits.{patience_in, patience_of, takes_timeout};

use crate::topic::Topic;

/// The most seconds of a patience: a day.
const MAX_SECS: u32 = 86_400;

/// How long an answer is waited for.
#[derive(Clone, Copy, Debug)]
pub enum Patience {
    /// As long as the server works on it.
    Endless,
    /// At most this number of seconds.
    Seconds(u32),
}

impl Patience {
    /// The patience with the answer to a command whose words say nothing of it.
    pub fn of(topic: Topic) -> Patience
        ensures { result ≡ patience_of topic }
    {
        match topic {
            Topic::Status | Topic::Accounts | Topic::Sessions | Topic::Reload => Patience::Endless,
            Topic::Ready => Patience::Seconds(1),
            Topic::Check
            | Topic::Init
            | Topic::Run
            | Topic::Free
            | Topic::Disconnect
            | Topic::Ask
            | Topic::Stop
            | Topic::Reply
            | Topic::Lines
            | Topic::Export
            | Topic::Rebase => Patience::Seconds(5),
        }
    }

    /// The patience of a word, if that is the text of a number of seconds that a patience may have.
    /// A similar word, such as `07` or `+7`, may give one too.
    pub fn of_word(word: &str) -> Option<Patience>
        ensures { (secs : ℕ) → secs < 2 ^ 32 → word.now ≡ decimal secs → result ≡ patience_in secs }
    {
        Patience::of_secs(number_of(word)?)
    }

    /// The patience of this number of seconds: 1 to 86,400.
    fn of_secs(secs: u32) -> Option<Patience>
        ensures { result ≡ patience_in secs }
    {
        if 1 <= secs && secs <= MAX_SECS {
            Some(Patience::Seconds(secs))
        } else {
            None
        }
    }

    /// Whether the words of a command with this patience may say another one.
    pub fn takes_timeout(self) -> bool
        ensures { result ≡ takes_timeout self }
    {
        match self {
            Patience::Endless => true,
            Patience::Seconds(_) => false,
        }
    }
}

/// The number of a word, if it is the number's own text. A similar word, such as `07` or `+7`, may
/// give a number too.
fn number_of(word: &str) -> Option<u32>
    ensures { (number : ℕ) → number < 2 ^ 32 → word.now ≡ decimal number → result ≡ Some number }
{
    word.parse().ok()
}
