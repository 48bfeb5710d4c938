ghost use Rattle.std.specs.Prelude.{◌≡◌, ◌↔◌, IsTrue};
ghost use Rattle.rsl_session.specs.Same.{same_bundle};

use rsl_event::Nas;
use rsl_wire::Octets;

/// A multilink bundle: the access server that it is at, and the Acct-Multi-Session-Id that its
/// links share there (RFC 2866 section 5.11). No bundle spans two access servers.
#[derive(Drop)]
pub struct Bundle {
    /// The access server.
    pub nas: Nas,
    /// The Acct-Multi-Session-Id.
    pub id: Octets,
}

impl Bundle {
    /// Whether the two are the same bundle.
    #[tactic(auto, unfolding(crate::specs::Same::same_bundle))]
    pub fn is_same(&self, other: &Bundle) -> bool
        ensures test { result ≡ same_bundle self.now other.now }
        ensures equal { IsTrue result ↔ (self.now ≡ other.now) }
    {
        self.nas.is_same(&other.nas) && self.id == other.id
    }
}
