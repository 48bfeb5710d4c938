ghost use Rattle.std.specs.Prelude.{
  ◌≡◌,
  ◌<◌,
  ◌≤◌,
  ◌^◌,
  ◌↔◌,
  IsTrue,
  IsOk,
  IfOk,
  nat_eq,
  length,
};
ghost use Rattle.std.specs.Str.{IsUtf8};
ghost use Rattle.std.specs.Cmp.{partial_equiv_from_equiv};
ghost use Rattle.std.specs.Cmp.Lexicographic.{pointwise, nat_list_eq_equiv};

use crate::short::ShortText;
use rsl_wire::NoMemory;
use std::alloc::Global;
use std::fmt;
use std::marker::Model;

/// Where the octets of a text are.
#[derive(Drop)]
enum Held {
    /// In the value itself, if there are at most 22.
    Short(ShortText),
    /// In memory of their own.
    Long(String),
}

/// A text in UTF-8. A contract sees the list of its octets, not its address or its capacity.
///
/// A text of at most 22 octets, like most names and passwords of accounts, lies in the value and
/// allocates nothing.
#[derive(Drop)]
pub struct Text {
    held: Held,
}

impl Model for Text {
    ghost use Rattle.std.specs.Prelude.{List, ℕ};
    ghost use Rattle.rsl_accounts.specs.TextSeen.{text_held};

    ghost Value = { List ℕ };

    ghost view = { λ text. text_held text.held };
}

impl Text {
    /// A copy of the text. It fails only if memory is refused, and allocates nothing for up to 22
    /// octets.
    pub fn from_str(alloc: Global, text: &str) -> Result<Text, NoMemory>
        ensures copy { IfOk result (λ copy. copy ≡ text.now) }
        ensures short { length text.now ≤ 22 → IsOk result }
    {
        let held = match ShortText::of(text) {
            Some(short) => Held::Short(short),
            None => Held::Long(String::from_str(alloc, text)?),
        };
        Ok(Text { held })
    }

    /// The text as a `str`.
    pub fn as_str(&self) -> &str
        ensures { result.now ≡ self.now }
    {
        match &self.held {
            Held::Short(short) => short.as_str(),
            Held::Long(text) => text.as_str(),
        }
    }

    /// The octets of the text, in UTF-8.
    pub fn as_bytes(&self) -> &[u8]
        ensures octets { result.now ≡ self.now }
        ensures utf8 { IsUtf8 self.now }
    {
        match &self.held {
            Held::Short(short) => short.as_bytes(),
            Held::Long(text) => text.as_str().as_bytes(),
        }
    }

    /// The number of octets, below 2^63.
    pub fn len(&self) -> usize
        ensures number { result ≡ length self.now }
        ensures limit { length self.now < 2 ^ 63 }
    {
        match &self.held {
            Held::Short(short) => short.as_bytes().len(),
            Held::Long(text) => text.len(),
        }
    }

    /// Whether there is no octet.
    pub fn is_empty(&self) -> bool
        ensures { IsTrue result ↔ (length self.now ≡ 0) }
    {
        self.len() == 0
    }

    /// An equal text. It fails only if memory is refused, and allocates nothing for up to 22
    /// octets.
    pub fn try_copy(&self, alloc: Global) -> Result<Text, NoMemory>
        ensures copy { IfOk result (λ copy. copy ≡ self.now) }
        ensures short { length self.now ≤ 22 → IsOk result }
    {
        match &self.held {
            Held::Short(short) => Ok(Text {
                held: Held::Short(*short),
            }),
            Held::Long(text) => Text::from_str(alloc, text.as_str()),
        }
    }
}

impl From<String> for Text {
    ghost use Rattle.std.specs.Prelude.{◌≡◌, string_bytes};

    ghost from_gives = { λ text made. made ≡ string_bytes text };

    /// The text of a `String`. It allocates nothing.
    fn from(text: String) -> Text {
        let held = match ShortText::of(text.as_str()) {
            Some(short) => Held::Short(short),
            None => Held::Long(text),
        };
        Text { held }
    }
}

impl fmt::Debug for Text {
    fn fmt<W: fmt::Write>(&self, f: &mut fmt::Formatter<W>) -> fmt::Result {
        fmt::Debug::fmt(self.as_str(), f)
    }
}

impl PartialEq for Text {
    ghost eq = { pointwise nat_eq };

    ghost laws = { partial_equiv_from_equiv nat_list_eq_equiv };

    fn eq(&self, other: &Text) -> bool {
        self.as_bytes() == other.as_bytes()
    }
}

impl Eq for Text {
    ghost laws = { nat_list_eq_equiv };
}
