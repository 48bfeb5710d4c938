//! Reading values from a line.

ghost use Rattle.std.specs.Prelude.{◌≡◌, ◌+◌, ◌<◌, ◌∷◌, None, Some, IfOk, IfSome, MatchOption, length};
ghost use Rattle.rld_values.specs.Read.{HasFront, digit_of, octet_of, octets_of_hex, octets_of_word, unescaped};

use crate::spelling::is_between;
use rsl_wire::{NoMemory, Octets};
use std::alloc::Global;

/// The value of a hexadecimal digit.
fn digit_of(octet: u8) -> Option<u8>
    ensures digit { result ≡ digit_of octet }
    ensures below { IfSome result (λ digit. digit < 16) }
{
    if is_between(48, 57, octet) {
        Some(octet - 48)
    } else if is_between(97, 102, octet) {
        Some(octet - 87)
    } else {
        None
    }
}

/// The octet of two hexadecimal digits.
fn octet_of(high: u8, low: u8) -> Option<u8>
    ensures { result ≡ octet_of (digit_of high) (digit_of low) }
{
    match (digit_of(high), digit_of(low)) {
        (Some(high), Some(low)) => Some(16 * high + low),
        _ => None,
    }
}

/// The octet whose escape follows a backslash, and the rest after the escape.
fn escaped_front(behind: &[u8]) -> Option<(u8, &[u8])>
    ensures { MatchOption result (unescaped (92 ∷ behind.now) ≡ None)
        (λ found. HasFront unescaped (92 ∷ behind.now) found.0 found.1.now) }
{
    let [mark, high, low, rest @ ..] = behind else {
        return None;
    };
    if *mark != 120 {
        return None;
    }
    match octet_of(*high, *low) {
        Some(octet) => Some((octet, rest)),
        None => None,
    }
}

/// The octet at the front of a value, and the rest after it.
fn front(value: &[u8]) -> Option<(u8, &[u8])>
    requires { 0 < length value.now }
    ensures { MatchOption result (unescaped value.now ≡ None)
        (λ found. HasFront unescaped value.now found.0 found.1.now) }
{
    let [octet, rest @ ..] = value else {
        return None;
    };
    if *octet == 92 {
        return escaped_front(rest);
    }
    if is_between(33, 126, *octet) {
        Some((*octet, rest))
    } else {
        None
    }
}

/// The octet of two hexadecimal digits at the front, and the rest after it.
fn hex_front(digits: &[u8]) -> Option<(u8, &[u8])>
    requires { 0 < length digits.now }
    ensures { MatchOption result (octets_of_hex digits.now ≡ None)
        (λ found. HasFront octets_of_hex digits.now found.0 found.1.now) }
{
    let [high, low, rest @ ..] = digits else {
        return None;
    };
    match octet_of(*high, *low) {
        Some(octet) => Some((octet, rest)),
        None => None,
    }
}

/// The octets of a value after a key and `=`, as `push_escaped` writes them; other visible
/// characters may stand for themselves too, and each octet may be escaped. `None` for any other
/// text. It fails only if memory is refused.
pub fn read_escaped(alloc: Global, value: &[u8]) -> Result<Option<Octets>, NoMemory>
    ensures { IfOk result (λ found. found ≡ unescaped value.now) }
{
    let mut octets = Vec::new(alloc);
    let mut rest = value;
    while !rest.is_empty() {
        let Some((octet, behind)) = front(rest) else {
            return Ok(None);
        };
        octets.push(octet)?;
        rest = behind;
    }
    Ok(Some(Octets::from_slice(alloc, octets.as_slice())?))
}

/// The octets of hexadecimal digits, as `push_hex` writes them. `None` for any other text. It fails
/// only if memory is refused.
pub fn read_hex(alloc: Global, digits: &[u8]) -> Result<Option<Octets>, NoMemory>
    ensures { IfOk result (λ found. found ≡ octets_of_hex digits.now) }
{
    let mut octets = Vec::new(alloc);
    let mut rest = digits;
    while !rest.is_empty() {
        let Some((octet, behind)) = hex_front(rest) else {
            return Ok(None);
        };
        octets.push(octet)?;
        rest = behind;
    }
    Ok(Some(Octets::from_slice(alloc, octets.as_slice())?))
}

/// The octets of a word, as `push_word` writes them, or with other characters as after a key.
/// `None` for any other text. It fails only if memory is refused.
pub fn read_word(alloc: Global, word: &[u8]) -> Result<Option<Octets>, NoMemory>
    ensures { IfOk result (λ found. found ≡ octets_of_word word.now) }
{
    if word == b"\\e".as_slice() {
        return Ok(Some(Octets::from_slice(alloc, b"")?));
    }
    match word {
        [] => Ok(None),
        [_, ..] => read_escaped(alloc, word),
    }
}
