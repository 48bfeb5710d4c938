ghost use Rattle.std.specs.Prelude.{◌≡◌, List};
ghost use Rattle.rld_control.specs.declared.stop.Stop.{Stop as OneStop};
ghost use Rattle.rld_books.specs.Server.{ServerSeen};

use rld_books::ServerBooks;
use rld_control::Stop;
use std::marker::Model;

/// What was looked for: the session that a Stop ends, in these books.
///
/// Contracts alone read it: it has no octets, and making one does nothing.
#[derive(Drop)]
pub(crate) struct Sought {
    ghost books: { ServerSeen },
    ghost stop: { OneStop },
}

impl Model for Sought {
    ghost use Rattle.std.specs.Borrow.{ftrue};

    ghost also_owns = { λ _. ftrue };
}

impl Sought {
    /// The session that this Stop ends, in these books.
    pub(crate) fn of(_books: &ServerBooks, _stop: &Stop) -> Sought
        ensures { (result.books ≡ _books.now) × (result.stop ≡ _stop.now) }
    {
        Sought {}
    }
}
