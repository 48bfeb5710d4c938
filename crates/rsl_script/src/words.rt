ghost use Rattle.std.specs.Prelude.{◌≡◌, map, IfOk, IfSome, is_some};
ghost use Rattle.rsl_script.specs.Words.{line_words, is_printed, is_silent, are_words};

use rsl_wire::NoMemory;
use std::alloc::Global;
use std::str;

/// Words of most lines at most, for which room is allocated at once.
const USUAL_WORDS: usize = 8;

/// The words of a line, split at each space. It fails only if memory is refused.
pub(crate) fn line_words(alloc: Global, line: &str) -> Result<Vec<&str>, NoMemory>
    ensures { IfOk result (λ words. map (λ word. word.now) words.items ≡ line_words line.now) }
{
    let mut words = Vec::with_capacity(alloc, USUAL_WORDS)?;
    words.extend(line.split(' '))?;
    Ok(words)
}

/// The line as a text, if each octet is a visible ASCII character or a space.
#[tactic(auto, using(crate::proofs::Printed::printed_is_utf8))]
pub(crate) fn text_of(line: &[u8]) -> Option<&str>
    ensures text { IfSome result (λ text. text.now ≡ line.now) }
    ensures printed { is_some result ≡ is_printed line.now }
{
    if !is_printed(line) {
        return None;
    }
    str::from_utf8(line).ok()
}

/// Whether each octet is 0x20 to 0x7E.
fn is_printed(line: &[u8]) -> bool
    ensures { result ≡ is_printed line.now }
{
    line.iter().all(|octet| 0x20 <= *octet && *octet <= 0x7e)
}

/// Whether the line says nothing: it is empty, or a comment.
pub(crate) fn is_silent(line: &str) -> bool
    ensures { result ≡ is_silent line.now }
{
    line.is_empty() || line.starts_with('#')
}

/// Whether none of the words is empty.
pub(crate) fn are_words(words: &[&str]) -> bool
    ensures { result ≡ are_words (map (λ word. word.now) words.now) }
{
    words.iter().all(|word| !word.is_empty())
}
