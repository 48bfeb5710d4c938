ghost use Rattle.std.specs.Prelude.{◌≡◌, nat_eq};
ghost use Rattle.std.specs.Cmp.{partial_equiv_from_equiv};
ghost use Rattle.std.specs.Cmp.Lexicographic.{pointwise, nat_list_eq_equiv};

use std::marker::Model;

/// The octets of a reply, in the buffer in which they were written. A contract sees the list of the
/// octets.
#[derive(Drop)]
pub struct ReplyOctets {
    octets: Vec<u8>,
}

impl Model for ReplyOctets {
    ghost use Rattle.std.specs.Prelude.{List, ℕ};

    ghost Value = { List ℕ };

    ghost view = { λ s. s.octets.items };
}

impl ReplyOctets {
    /// The octets as a slice.
    pub fn as_slice(&self) -> &[u8]
        ensures { result.now ≡ self.now }
    {
        self.octets.as_slice()
    }
}

impl From<Vec<u8>> for ReplyOctets {
    ghost from_gives = { λ octets made. made ≡ octets.items };

    /// The octets of a `Vec`. It allocates nothing.
    fn from(octets: Vec<u8>) -> ReplyOctets {
        ReplyOctets { octets }
    }
}

impl PartialEq for ReplyOctets {
    ghost eq = { pointwise nat_eq };

    ghost laws = { partial_equiv_from_equiv nat_list_eq_equiv };

    fn eq(&self, other: &ReplyOctets) -> bool {
        self.as_slice() == other.as_slice()
    }
}

impl Eq for ReplyOctets {
    ghost laws = { nat_list_eq_equiv };
}
