ghost use Rattle.std.specs.Prelude.{◌≡◌, ◌↔◌, IsTrue};
ghost use Rattle.rsl_session.specs.Same.{same_session};

use rsl_event::Nas;
use rsl_wire::Octets;

/// A session: the access server that it is at, and the Acct-Session-Id that it has there (RFC 2866
/// section 5.5).
#[derive(PartialEq, Eq, Drop)]
pub struct Session {
    /// The access server.
    pub nas: Nas,
    /// The Acct-Session-Id.
    pub id: Octets,
}

impl Session {
    /// Whether the two are the same session.
    #[tactic(auto, unfolding(crate::specs::Same::same_session))]
    pub fn is_same(&self, other: &Session) -> bool
        ensures test { result ≡ same_session self.now other.now }
        ensures equal { IsTrue result ↔ (self.now ≡ other.now) }
    {
        self.nas.is_same(&other.nas) && self.id == other.id
    }
}
