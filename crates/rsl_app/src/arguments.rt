ghost use Rattle.std.specs.Prelude.{◌≡◌};
ghost use Rattle.rsl_app.specs.Arguments.{is_replay, is_serve};

use std::env::{Env, FillError};

/// Octets of an argument that are read; a longer one is no known word.
const WORD_LEN: usize = 16;

/// Whether the arguments, after the program's name, are the word `replay` alone.
pub(crate) fn ask_for_a_replay<E: Env>(arguments: &E) -> bool {
    let mut word = [0u8; WORD_LEN];
    let second = arguments.arg(2, &mut word);
    match arguments.arg(1, &mut word) {
        Ok(len) => is_replay(&word[..len], second),
        Err(_) => false,
    }
}

/// Whether the first argument, after the program's name, is the word `serve`.
pub(crate) fn ask_to_serve<E: Env>(arguments: &E) -> bool {
    let mut word = [0u8; WORD_LEN];
    match arguments.arg(1, &mut word) {
        Ok(len) => is_serve(&word[..len]),
        Err(_) => false,
    }
}

/// Whether the octets of a first argument are `serve`.
fn is_serve(first: &[u8]) -> bool
    ensures { result ≡ is_serve first.now }
{
    first == b"serve".as_slice()
}

/// Whether the octets of a first argument are `replay`, and reading a second one found none.
fn is_replay(first: &[u8], second: Result<usize, FillError>) -> bool
    ensures { result ≡ is_replay first.now second }
{
    match second {
        Err(FillError::NotPresent) => first == b"replay".as_slice(),
        Ok(_) | Err(FillError::TooLong) => false,
    }
}
