//! The parts of a text, and the numbers that words write.
ghost use Rattle.std.specs.Prelude.{◌≡◌, ◌<◌, ◌≤◌, IfSome, option_copied, option_map};
ghost use Rattle.rsl_reply.specs.Words.{read_number, rest_after, split_at, trimmed, up_to};

/// What stands before the first separator, and what stands after it. The separator is in ASCII.
pub(crate) fn split_at(separator: char, text: &str) -> Option<(&str, &str)>
    requires { separator < 128 }
    ensures { option_map (λ parts. (parts.0.now, parts.1.now)) result ≡ split_at separator text.now }
{
    text.split_once(separator)
}

/// The text without white space at its ends.
pub(crate) fn trimmed(text: &str) -> &str
    ensures { result.now ≡ trimmed text.now }
{
    let begun = text.trim_ascii_start();
    begun.trim_ascii_end()
}

/// What stands after this beginning of a word.
#[tactic(auto, using(crate::proofs::RestAfter::rest_after_stripped))]
pub(crate) fn rest_after<'a>(beginning: &str, word: &'a str) -> Option<&'a str>
    ensures { option_copied result ≡ rest_after beginning.now word.now }
{
    word.strip_prefix(beginning)
}

/// The number that a word of decimal digits writes, where it is under 2^32. Leading zeros are
/// allowed.
#[tactic(auto, using(crate::proofs::Numbers::number_of_parsed))]
pub(crate) fn read_number(word: &str) -> Option<u32>
    ensures { result ≡ read_number word.now }
{
    if word.starts_with('+') {
        return None;
    }
    word.parse().ok()
}

/// The number from 1 to `most` that a word writes.
#[tactic(auto, unfolding(crate::specs::Words::up_to))]
pub(crate) fn up_to(most: u32, word: &str) -> Option<u32>
    ensures value { result ≡ up_to most word.now }
    ensures within { IfSome result (λ number. number ≤ most) }
{
    let number = read_number(word)?;
    if 1 <= number && number <= most {
        Some(number)
    } else {
        None
    }
}
