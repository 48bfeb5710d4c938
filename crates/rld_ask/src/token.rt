ghost use Rattle.std.specs.Prelude.{◌≡◌, ◌++◌, codes, IfOk, bytes_eq};
ghost use Rattle.rld_ask.specs.Token.{credentials};

use rsl_auth::same_octets;
use std::alloc::{AllocError, Global};

/// What whoever asks has to show (RFC 6750 section 2.1).
#[derive(Drop)]
pub struct Token {
    credentials: Vec<u8>,
}

impl Token {
    /// The token of these octets. It fails only where memory is refused.
    pub fn new(alloc: Global, octets: &[u8]) -> Result<Token, AllocError>
        ensures { IfOk result (λ token. token.credentials.items ≡ credentials octets.now) }
    {
        let mut credentials = Vec::from_slice(alloc, b"Bearer ")?;
        credentials.extend_from_slice(octets)?;
        Ok(Token { credentials })
    }

    /// Whether a field Authorization shows it. How long that takes is not to tell where it differs.
    pub(crate) fn is_shown(&self, field: &[u8]) -> bool
        ensures { result ≡ bytes_eq field.now self.now.credentials.items }
    {
        same_octets(field, self.credentials.as_slice())
    }
}
