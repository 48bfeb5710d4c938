//! The file with the token of asks.

ghost use Rattle.std.specs.Prelude.{◌≡◌, true, IfErr, IfOk};
ghost use Rattle.std.specs.Char.{is_ascii_graphic};
ghost use Rattle.std.specs.List.{list_all};
ghost use Rattle.rld_commands.specs.Files.{IsOfFile};
ghost use Rattle.rld_commands.specs.Token.{IsOfToken, is_private, is_token};

use crate::cause::cause_of;
use crate::fault::Fault;
use crate::files::{bad_file, file_text};
use crate::wrong::Wrong;
use rld_ask::Token;
use std::alloc::Global;
use std::fs::{self, Files};
use std::os::unix::fs::PermissionsExt;

/// The bits of a file's mode by which others than its owner can do something with it.
const OTHERS: u32 = 0o077;

/// The fewest octets of a token, and the most.
const TOKEN_LENS: (usize, usize) = (16, 256);

/// A right file of a token.
#[derive(Drop)]
pub struct TokenFile {
    /// The token.
    pub token: Token,
    /// The file's mode, as the system reports it.
    pub mode: u32,
}

/// The token in the file of this path: its one line. The faults of the file come in this order: it cannot be
/// read, others than its owner can read or write it, it is no token.
pub fn token_in<F: Files>(files: &F, alloc: Global, path: &str) -> Result<TokenFile, Fault>
    ensures private { IfOk result (λ file. is_private file.mode ≡ true) }
    ensures token { IfOk result (λ file. IsOfToken file.token) }
    ensures fault { IfErr result (IsOfFile path.now) }
{
    let text = file_text(files, alloc, path)?;
    let mode = match fs::metadata(files, path) {
        Ok(found) => found.permissions().mode(),
        Err(error) => {
            let wrong = Wrong::Unreadable(cause_of(error.kind()));
            return Err(bad_file(alloc, path, wrong));
        }
    };
    if !is_private(mode) {
        return Err(bad_file(alloc, path, Wrong::Shared));
    }
    let line = text.as_slice();
    let token = line.strip_suffix(b"\n").unwrap_or(line);
    if !is_token(token) {
        return Err(bad_file(alloc, path, Wrong::NoToken));
    }
    let token = Token::new(alloc, token)?;
    Ok(TokenFile { token, mode })
}

/// Whether nobody but its owner can do something with a file of this mode.
fn is_private(mode: u32) -> bool
    ensures { result ≡ is_private mode }
{
    mode & OTHERS == 0
}

/// Whether these octets may be a token.
fn is_token(octets: &[u8]) -> bool
    ensures { result ≡ is_token octets.now }
{
    let (fewest, most) = TOKEN_LENS;
    fewest <= octets.len() && octets.len() <= most && are_visible(octets)
}

/// Whether each octet is a visible character of ASCII.
fn are_visible(octets: &[u8]) -> bool
    ensures { result ≡ list_all is_ascii_graphic octets.now }
{
    octets.iter().all(|octet| octet.is_ascii_graphic())
}
