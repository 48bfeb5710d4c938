ghost use Rattle.std.specs.Prelude.{◌≡◌, ◌≢◌, ◌≤◌, ◌<◌, ◌↔◌, IsOk, IsTrue, IfOk, OnErr, None, nat_eq, length};
ghost use Rattle.std.specs.Cmp.{partial_equiv_from_equiv};
ghost use Rattle.std.specs.Cmp.Lexicographic.{pointwise, nat_list_eq_equiv};

use crate::fault::NoMemory;
use crate::short::Short;
use std::alloc::Global;
use std::fmt;
use std::marker::Model;

/// Where the octets of a string are.
#[derive(Drop)]
enum Held {
    /// In the value itself, if there are at most 22.
    Short(Short),
    /// In memory of their own.
    Long(Box<Vec<u8>>),
}

/// A string of octets of any length. A contract sees the list of its octets, not its address or its
/// capacity.
///
/// Up to 22 octets lie in the value, so a copy of them allocates nothing. Most names of access
/// servers and most session ids are that short.
pub struct Octets {
    held: Held,
}

impl Drop for Octets {
    fn drop(self) {
        let Octets { held } = self;
        drop(held);
    }
}

impl Model for Octets {
    ghost use Rattle.std.specs.Prelude.{List, ℕ};
    ghost use Rattle.rsl_wire.specs.OctetsSeen.{octets_held};

    ghost Value = { List ℕ };

    ghost view = { λ s. octets_held s.held };
}

impl Octets {
    /// A copy of the octets. It fails only if memory is refused, and allocates nothing for up to 22
    /// octets.
    pub fn from_slice(alloc: Global, octets: &[u8]) -> Result<Octets, NoMemory>
        ensures copy { IfOk result (λ copy. copy ≡ octets.now) }
        ensures short { length octets.now ≤ 22 → IsOk result }
    {
        let held = match Short::of(octets) {
            Some(short) => Held::Short(short),
            None => Held::Long(Box::new(alloc, Vec::from_slice(alloc, octets)?)?),
        };
        Ok(Octets { held })
    }

    /// The octets as a slice.
    pub fn as_slice(&self) -> &[u8]
        ensures { result.now ≡ self.now }
    {
        match &self.held {
            Held::Short(short) => short.as_slice(),
            Held::Long(octets) => octets.as_slice(),
        }
    }

    /// The number of octets.
    pub fn len(&self) -> usize
        ensures { result ≡ length self.now }
    {
        self.as_slice().len()
    }

    /// Whether there is no octet.
    pub fn is_empty(&self) -> bool
        ensures { IsTrue result ↔ (length self.now ≡ 0) }
    {
        self.as_slice().is_empty()
    }

    /// An equal string. It fails only if memory is refused, and allocates nothing for up to 22
    /// octets.
    pub fn try_copy(&self, alloc: Global) -> Result<Octets, NoMemory>
        ensures copy { IfOk result (λ copy. copy ≡ self.now) }
        ensures short { length self.now ≤ 22 → IsOk result }
    {
        match &self.held {
            Held::Short(short) => Ok(Octets {
                held: Held::Short(*short),
            }),
            Held::Long(octets) => Octets::from_slice(alloc, octets.as_slice()),
        }
    }

    /// An equal string, if there is one. It fails only if memory is refused.
    pub fn try_copy_option(
        alloc: Global,
        octets: &Option<Octets>,
    ) -> Result<Option<Octets>, NoMemory>
        ensures copy { IfOk result (λ copy. copy ≡ octets.now) }
        ensures refused { OnErr result (octets.now ≢ None) }
    {
        match octets {
            Some(octets) => Ok(Some(octets.try_copy(alloc)?)),
            None => Ok(None),
        }
    }
}

impl fmt::Debug for Octets {
    fn fmt<W: fmt::Write>(&self, f: &mut fmt::Formatter<W>) -> fmt::Result {
        f.debug_list().entries(self.as_slice()).finish()
    }
}

impl PartialEq for Octets {
    ghost eq = { pointwise nat_eq };

    ghost laws = { partial_equiv_from_equiv nat_list_eq_equiv };

    fn eq(&self, other: &Octets) -> bool {
        self.as_slice() == other.as_slice()
    }
}

impl Eq for Octets {
    ghost laws = { nat_list_eq_equiv };
}
