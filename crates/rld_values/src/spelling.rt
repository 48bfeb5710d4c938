//! Writing values into a line.

ghost use Rattle.std.specs.Prelude.{◌≡◌, ◌++◌, ◌∷◌, ◌<◌, [], OnOk};
ghost use Rattle.std.specs.Fmt.{decimal};
ghost use Rattle.rld_values.specs.Values.{dotted, dotted_pair, escaped, escaped_octet, hex, hex_digit, hex_octet, is_between, is_plain, word};

use itoa::Buffer;
use std::alloc::AllocError;

/// The hexadecimal digit of a number below 16.
fn hex_digit(number: u8) -> u8
    requires { number < 16 }
    ensures { result ≡ hex_digit number }
{
    if number < 10 {
        48 + number
    } else {
        87 + number
    }
}

/// Writes the two digits of an octet.
fn push_hex_octet(out: &mut Vec<u8>, octet: u8) -> Result<(), AllocError>
    ensures { OnOk result (out.new.items ≡ out.old.items ++ hex_octet octet) }
{
    out.push(hex_digit(octet / 16))?;
    out.push(hex_digit(octet % 16))?;
    Ok(())
}

/// Writes octets as hexadecimal digits. It fails only if memory is refused.
pub fn push_hex(out: &mut Vec<u8>, octets: &[u8]) -> Result<(), AllocError>
    ensures { OnOk result (out.new.items ≡ out.old.items ++ hex octets.now) }
{
    for octet in octets {
        push_hex_octet(out, *octet)?;
    }
    Ok(())
}

/// Whether an octet is `first`, `last` or between them.
pub(crate) fn is_between(first: u8, last: u8, octet: u8) -> bool
    ensures { result ≡ is_between first last octet }
{
    first <= octet && octet <= last
}

/// Whether an octet stands for itself: a letter, a digit or one of `%+,-./:=@_`.
fn is_plain(octet: u8) -> bool
    ensures { result ≡ is_plain octet }
{
    matches!(
        octet,
        b'0'..=b'9' | b'A'..=b'Z' | b'a'..=b'z' | 43..=47 | b'%' | b':' | b'=' | b'@' | b'_'
    )
}

/// Writes an octet as it is, or as a backslash, an `x` and its two digits.
fn push_escaped_octet(out: &mut Vec<u8>, octet: u8) -> Result<(), AllocError>
    ensures { OnOk result (out.new.items ≡ out.old.items ++ escaped_octet octet) }
{
    if is_plain(octet) {
        out.push(octet)?;
        return Ok(());
    }
    out.extend_from_slice(b"\\x")?;
    push_hex_octet(out, octet)
}

/// Writes octets after a key and `=`: letters, digits and `%+,-./:=@_` as they are, and any other
/// octet as a backslash, an `x` and two hexadecimal digits. It fails only if memory is refused.
pub fn push_escaped(out: &mut Vec<u8>, octets: &[u8]) -> Result<(), AllocError>
    ensures { OnOk result (out.new.items ≡ out.old.items ++ escaped octets.now) }
{
    for octet in octets {
        push_escaped_octet(out, *octet)?;
    }
    Ok(())
}

/// Writes octets as a word: as after a key, but no octets as `\e`. It fails only if memory is
/// refused.
pub fn push_word(out: &mut Vec<u8>, octets: &[u8]) -> Result<(), AllocError>
    ensures { OnOk result (out.new.items ≡ out.old.items ++ word octets.now) }
{
    match octets {
        [] => out.extend_from_slice(b"\\e"),
        [_, ..] => push_escaped(out, octets),
    }
}

/// Writes a text. It fails only if memory is refused.
pub fn push_text(out: &mut Vec<u8>, text: &str) -> Result<(), AllocError>
    ensures { OnOk result (out.new.items ≡ out.old.items ++ text.now) }
{
    out.extend_from_slice(text.as_bytes())
}

/// Writes a number. It fails only if memory is refused.
pub fn push_decimal(out: &mut Vec<u8>, number: u64) -> Result<(), AllocError>
    ensures { OnOk result (out.new.items ≡ out.old.items ++ decimal number) }
{
    let mut buffer = Buffer::new();
    push_text(out, buffer.format(number))
}

/// Writes two numbers with a dot between them.
fn push_pair(out: &mut Vec<u8>, some: u8, other: u8) -> Result<(), AllocError>
    ensures { OnOk result (out.new.items ≡ out.old.items ++ dotted_pair some other) }
{
    push_decimal(out, u64::from(some))?;
    out.push(46)?;
    push_decimal(out, u64::from(other))
}

/// Writes an IPv4 address as four numbers with dots between them. It fails only if memory is
/// refused.
#[tactic(auto, unfolding(crate::specs::Values::dotted))]
pub fn push_dotted(out: &mut Vec<u8>, address: [u8; 4]) -> Result<(), AllocError>
    ensures { OnOk result (out.new.items ≡ out.old.items ++ dotted address) }
{
    push_pair(out, address[0], address[1])?;
    out.push(46)?;
    push_pair(out, address[2], address[3])
}
