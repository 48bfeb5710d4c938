ghost use Rattle.std.specs.Prelude.{◌≡◌, map, option_copied};
ghost use Rattle.rsl_script.specs.Reads.{Reads};
ghost use Rattle.rsl_script.specs.Values.{
  read_number,
  read_id,
  read_nas,
  read_octets,
  rest_after,
  number_after,
  leading_number,
  leading_text,
  read_optional,
  read_station,
  read_delay,
  read_flag,
};

use crate::fault::LineFault;
use crate::limited::AttributeText;
use hex::FromHexError;
use rsl_wire::Octets;
use std::alloc::Global;

/// The number of a word of decimal digits, if it is under 2^64. Leading zeros are allowed; `None`
/// for any other word.
#[tactic(auto, using(crate::proofs::Numbers::number_of_parsed))]
pub fn read_number(word: &str) -> Option<u64>
    ensures { result ≡ read_number word.now }
{
    if word.starts_with('+') {
        return None;
    }
    word.parse().ok()
}

/// The number of a word, if it is 0 to 255.
#[tactic(auto, unfolding(crate::specs::Values::read_id))]
pub(crate) fn read_id(word: &str) -> Option<u8>
    ensures { result ≡ read_id word.now }
{
    u8::try_from(read_number(word)?).ok()
}

/// The NAS-Identifier of a word, or none for `-`.
#[tactic(auto, unfolding(crate::specs::Values::read_nas))]
pub(crate) fn read_nas(alloc: Global, word: &str) -> Result<Option<AttributeText>, LineFault>
    ensures { Reads (read_nas word.now) result }
{
    match word {
        "-" => Ok(None),
        _ => Ok(Some(AttributeText::read(alloc, word)?)),
    }
}

/// The octets of a word of at least one pair of hexadecimal digits, of either case.
#[tactic(auto, unfolding(crate::specs::Values::read_octets))]
pub(crate) fn read_octets(alloc: Global, word: &str) -> Result<Octets, LineFault>
    ensures { Reads (read_octets word.now) result }
{
    if word.is_empty() {
        return Err(LineFault::Wrong);
    }
    match hex::decode(alloc, word) {
        Ok(octets) => Ok(Octets::from_slice(alloc, &octets)?),
        Err(FromHexError::OutOfMemory) => Err(LineFault::NoMemory),
        Err(_) => Err(LineFault::Wrong),
    }
}

/// The rest of a word after this beginning.
#[tactic(auto, using(crate::proofs::RestAfter::rest_after_stripped))]
fn rest_after<'a>(beginning: &str, word: &'a str) -> Option<&'a str>
    ensures { option_copied result ≡ rest_after beginning.now word.now }
{
    word.strip_prefix(beginning)
}

/// The number in a word after this beginning.
#[tactic(auto, unfolding(crate::specs::Values::number_after))]
fn number_after(beginning: &str, word: &str) -> Option<u64>
    ensures { result ≡ number_after beginning.now word.now }
{
    read_number(rest_after(beginning, word)?)
}

/// The number in the first word after this beginning, if it has one, and the words that are left.
#[tactic(auto, unfolding(crate::specs::Values::leading_number))]
pub(crate) fn leading_number<'a, 'b>(
    beginning: &str,
    words: &'a [&'b str],
) -> (Option<u64>, &'a [&'b str])
    ensures number { result.0 ≡
        (leading_number beginning.now (map (λ word. word.now) words.now)).0 }
    ensures rest { map (λ word. word.now) result.1.now ≡
        (leading_number beginning.now (map (λ word. word.now) words.now)).1 }
{
    let [word, rest @ ..] = words else {
        return (None, words);
    };
    match number_after(beginning, word) {
        Some(number) => (Some(number), rest),
        None => (None, words),
    }
}

/// The rest of the first word after this beginning, if it has it, and the words that are left.
#[tactic(auto, unfolding(crate::specs::Values::leading_text))]
pub(crate) fn leading_text<'a, 'b>(
    beginning: &str,
    words: &'a [&'b str],
) -> (Option<&'b str>, &'a [&'b str])
    ensures text { option_copied result.0 ≡
        (leading_text beginning.now (map (λ word. word.now) words.now)).0 }
    ensures rest { map (λ word. word.now) result.1.now ≡
        (leading_text beginning.now (map (λ word. word.now) words.now)).1 }
{
    let [word, rest @ ..] = words else {
        return (None, words);
    };
    match rest_after(beginning, word) {
        Some(text) => (Some(text), rest),
        None => (None, words),
    }
}

/// The text of a word, if there is one.
#[tactic(auto, unfolding(crate::specs::Values::read_optional))]
pub(crate) fn read_optional(
    alloc: Global,
    word: Option<&str>,
) -> Result<Option<AttributeText>, LineFault>
    ensures { Reads (read_optional (option_copied word.entry)) result }
{
    match word {
        Some(word) => Ok(Some(AttributeText::read(alloc, word)?)),
        None => Ok(None),
    }
}

/// The station of the words `[station=S]`.
#[tactic(auto, unfolding(crate::specs::Values::read_station))]
pub(crate) fn read_station(
    alloc: Global,
    words: &[&str],
) -> Result<Option<AttributeText>, LineFault>
    ensures { Reads (read_station (map (λ word. word.now) words.now)) result }
{
    match words {
        [] => Ok(None),
        [word] => {
            let station = rest_after("station=", word).ok_or(LineFault::Wrong)?;
            Ok(Some(AttributeText::read(alloc, station)?))
        }
        _ => Err(LineFault::Wrong),
    }
}

/// The delay of the words `[delay=N]`, in seconds.
#[tactic(auto, unfolding(crate::specs::Values::read_delay))]
pub(crate) fn read_delay(words: &[&str]) -> Option<Option<u32>>
    ensures { result ≡ read_delay (map (λ word. word.now) words.now) }
{
    match words {
        [] => Some(None),
        [word] => Some(Some(u32::try_from(number_after("delay=", word)?).ok()?)),
        _ => None,
    }
}

/// Whether the words are this word: false for no word, and `None` for other words.
#[tactic(auto, unfolding(crate::specs::Values::read_flag))]
pub(crate) fn read_flag(name: &str, words: &[&str]) -> Option<bool>
    ensures { result ≡ read_flag name.now (map (λ word. word.now) words.now) }
{
    match words {
        [] => Some(false),
        [word] if *word == name => Some(true),
        _ => None,
    }
}
