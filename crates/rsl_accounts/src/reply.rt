ghost use Rattle.std.specs.Prelude.{◌≡◌, ◌++◌, [], length, unwrap_or};

use crate::shared_octets::SharedOctets;
use rsl_wire::Octets;
use std::marker::Model;

/// The octets of an account's reply attributes: those of its profile, which all its accounts share, and
/// then its own. A contract sees them as one list.
#[derive(Drop)]
pub struct Reply {
    profile: Option<SharedOctets>,
    own: Option<Octets>,
}

impl Model for Reply {
    ghost use Rattle.std.specs.Prelude.{List, ℕ, [], ◌++◌, unwrap_or};

    ghost Value = { List ℕ };

    ghost view = { λ reply. unwrap_or reply.profile [] ++ unwrap_or reply.own [] };
}

impl Reply {
    /// No attributes.
    pub fn none() -> Reply
        ensures { result ≡ [] }
    {
        Reply {
            profile: None,
            own: None,
        }
    }

    /// Those of a profile, and then an account's own.
    pub fn of(profile: Option<SharedOctets>, own: Option<Octets>) -> Reply
        ensures { result ≡ unwrap_or profile [] ++ unwrap_or own [] }
    {
        Reply { profile, own }
    }

    /// The octets, lent: those of the profile, and the account's own.
    pub fn parts(&self) -> (&[u8], &[u8])
        ensures { result.0.now ++ result.1.now ≡ self.now }
    {
        (shared_octets(&self.profile), own_octets(&self.own))
    }

    /// How many octets there are.
    pub fn len(&self) -> usize
        ensures { result ≡ length self.now }
    {
        let (front, own) = self.parts();
        front.len() + own.len()
    }
}

/// The octets of a profile, lent, or none.
fn shared_octets(octets: &Option<SharedOctets>) -> &[u8]
    ensures { result.now ≡ unwrap_or octets.now [] }
{
    match octets {
        Some(octets) => octets.as_slice(),
        None => &[],
    }
}

/// An account's own octets, lent, or none.
fn own_octets(octets: &Option<Octets>) -> &[u8]
    ensures { result.now ≡ unwrap_or octets.now [] }
{
    match octets {
        Some(octets) => octets.as_slice(),
        None => &[],
    }
}
