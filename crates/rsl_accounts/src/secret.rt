ghost use Rattle.std.specs.Prelude.{◌≡◌, ◌≤◌, IfOk, IsOk, length, nat_eq, option_copied};
ghost use Rattle.std.specs.Str.{IsUtf8};
ghost use Rattle.std.specs.Cmp.{partial_equiv_from_equiv};
ghost use Rattle.std.specs.Cmp.Lexicographic.{pointwise, nat_list_eq_equiv};

use crate::text::Text;
use rsl_wire::NoMemory;
use std::alloc::Global;
use std::fmt;
use std::marker::Model;

/// A shared secret or a password. `Debug` writes `Secret(..)`, and only `expose` gives its octets.
/// A contract sees the list of its octets.
#[derive(Drop)]
pub struct Secret {
    text: Text,
}

impl Model for Secret {
    ghost use Rattle.std.specs.Prelude.{List, ℕ};

    ghost Value = { List ℕ };

    ghost view = { λ secret. secret.text };
}

impl Secret {
    /// A secret with the octets of the text. It fails only if memory is refused, and allocates
    /// nothing for up to 22 octets.
    pub fn from_str(alloc: Global, text: &str) -> Result<Secret, NoMemory>
        ensures copy { IfOk result (λ secret. secret ≡ text.now) }
        ensures short { length text.now ≤ 22 → IsOk result }
    {
        Ok(Secret {
            text: Text::from_str(alloc, text)?,
        })
    }

    /// A secret with the octets of the text, if there is one. It fails only where memory is refused.
    pub fn from_option(alloc: Global, text: Option<&str>) -> Result<Option<Secret>, NoMemory>
        ensures { IfOk result (λ secret. secret ≡ option_copied text.entry) }
    {
        match text {
            Some(text) => Ok(Some(Secret::from_str(alloc, text)?)),
            None => Ok(None),
        }
    }

    /// The octets of the secret, lent. They are UTF-8, as the type keeps.
    pub fn expose(&self) -> &[u8]
        ensures octets { result.now ≡ self.now }
        ensures utf8 { IsUtf8 self.now }
    {
        self.text.as_bytes()
    }

    /// An equal secret. It fails only if memory is refused, and allocates nothing for up to 22
    /// octets.
    pub fn try_copy(&self, alloc: Global) -> Result<Secret, NoMemory>
        ensures copy { IfOk result (λ copy. copy ≡ self.now) }
        ensures short { length self.now ≤ 22 → IsOk result }
    {
        Ok(Secret {
            text: self.text.try_copy(alloc)?,
        })
    }
}

impl From<Text> for Secret {
    ghost use Rattle.std.specs.Prelude.{◌≡◌};

    ghost from_gives = { λ text secret. secret ≡ text };

    /// The secret that is the text. It allocates nothing.
    fn from(text: Text) -> Secret {
        Secret { text }
    }
}

impl From<String> for Secret {
    ghost use Rattle.std.specs.Prelude.{◌≡◌, string_bytes};

    ghost from_gives = { λ text secret. secret ≡ string_bytes text };

    /// The secret that is the text of a `String`. It allocates nothing.
    fn from(text: String) -> Secret {
        Secret {
            text: Text::from(text),
        }
    }
}

impl fmt::Debug for Secret {
    ghost use Rattle.std.specs.Prelude.{Some, codes};

    ghost debug_output = { λ _. Some (codes "Secret(..)") };

    fn fmt<W: fmt::Write>(&self, f: &mut fmt::Formatter<W>) -> fmt::Result {
        f.write_str("Secret(..)")
    }
}

impl PartialEq for Secret {
    ghost eq = { pointwise nat_eq };

    ghost laws = { partial_equiv_from_equiv nat_list_eq_equiv };

    fn eq(&self, other: &Secret) -> bool {
        self.text == other.text
    }
}

impl Eq for Secret {
    ghost laws = { nat_list_eq_equiv };
}
