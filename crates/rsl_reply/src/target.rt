ghost use Rattle.std.specs.Prelude.{◌≡◌};
ghost use Rattle.rsl_reply.specs.Attribute.{is_same};

use rsl_accounts::Form;

/// Which attribute a name stands for.
#[derive(Clone, Copy)]
pub struct Target {
    /// The number of its vendor; 0 for none.
    pub vendor: u32,
    /// Its Type, or the vendor's.
    pub number: u8,
    /// How its value is written.
    pub form: Form,
    /// The tag of its value (RFC 2868 section 3), 1 to 31; 0 for none.
    pub tag: u8,
}

impl Target {
    /// Whether both are one attribute: of one vendor and Type, with one tag.
    pub fn is_same(self, other: Target) -> bool
        ensures { result ≡ is_same self other }
    {
        self.vendor == other.vendor && self.number == other.number && self.tag == other.tag
    }
}
