//! Attribute values of a request: octets whose number the attribute limits.
ghost use Rattle.std.specs.Prelude.{◌≡◌, IfOk};
ghost use Rattle.rsl_script.specs.Reads.{Reads};
ghost use Rattle.rsl_script.specs.Values.{IsUpTo, read_name, read_password, up_to};

use crate::fault::LineFault;
use rsl_accounts::Secret;
use rsl_auth::MAX_PASSWORD_LEN;
use rsl_wire::{MAX_VALUE_LEN, NoMemory, Octets};
use std::alloc::Global;
use std::marker::Model;

/// A text that fits an attribute: 1 to 253 octets (RFC 2865 section 5). A contract sees the list of
/// its octets.
#[derive(Drop)]
pub struct AttributeText {
    octets: Octets,
}

impl Model for AttributeText {
    ghost use Rattle.std.specs.Prelude.{List, ℕ};
    ghost use Rattle.rsl_script.specs.Values.{IsUpTo};

    ghost Value = { List ℕ };

    ghost view = { λ text. text.octets };

    ghost invariant = { λ text. IsUpTo 253 text.octets };
}

impl AttributeText {
    /// The text of a word, if it fits.
    #[tactic(auto, unfolding(crate::specs::Values::read_name, crate::specs::Values::up_to))]
    pub(crate) fn read(alloc: Global, word: &str) -> Result<AttributeText, LineFault>
        ensures { Reads (read_name word.now) result }
    {
        if word.is_empty() || MAX_VALUE_LEN < word.len() {
            return Err(LineFault::Wrong);
        }
        Ok(AttributeText {
            octets: Octets::from_slice(alloc, word.as_bytes())?,
        })
    }

    /// The octets of the text.
    pub fn as_slice(&self) -> &[u8]
        ensures octets { result.now ≡ self.now }
        ensures limits { IsUpTo 253 self.now }
    {
        self.octets.as_slice()
    }

    /// The octets of the text, copied. It fails only if memory is refused.
    pub fn to_octets(&self, alloc: Global) -> Result<Octets, NoMemory>
        ensures { IfOk result (λ copy. copy ≡ self.now) }
    {
        self.octets.try_copy(alloc)
    }
}

/// A password that a User-Password can hide: 1 to 128 octets (RFC 2865 section 5.2). It is a
/// secret. A contract sees the list of its octets.
#[derive(Drop)]
pub struct Password {
    secret: Secret,
}

impl Model for Password {
    ghost use Rattle.std.specs.Prelude.{List, ℕ};
    ghost use Rattle.rsl_script.specs.Values.{IsUpTo};

    ghost Value = { List ℕ };

    ghost view = { λ password. password.secret };

    ghost invariant = { λ password. IsUpTo 128 password.secret };
}

impl Password {
    /// The password of a word, if it fits.
    #[tactic(auto, unfolding(crate::specs::Values::read_password, crate::specs::Values::up_to))]
    pub(crate) fn read(alloc: Global, word: &str) -> Result<Password, LineFault>
        ensures { Reads (read_password word.now) result }
    {
        if word.is_empty() || MAX_PASSWORD_LEN < word.len() {
            return Err(LineFault::Wrong);
        }
        Ok(Password {
            secret: Secret::from_str(alloc, word)?,
        })
    }

    /// The octets of the password.
    pub fn expose(&self) -> &[u8]
        ensures octets { result.now ≡ self.now }
        ensures limits { IsUpTo 128 self.now }
    {
        self.secret.expose()
    }
}
