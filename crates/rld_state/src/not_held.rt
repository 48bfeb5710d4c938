use crate::sought::Sought;
use rld_books::ServerBooks;
use rld_control::Stop;
use std::marker::Model;

/// Proof that books were looked at, and hold no link that is bound to a session. Only
/// `ServerState::free` makes one, where it has looked for the session.
///
/// A contract also sees these books, and the Stop that would have ended the session.
#[derive(Drop)]
pub struct NotHeld {
    sought: Sought,
}

impl Model for NotHeld {
    ghost use Rattle.std.specs.Prelude.{◌≡◌, false};
    ghost use Rattle.rld_state.specs.Held.{NotHeldSeen, is_held_in};

    ghost Value = { NotHeldSeen };

    ghost view = { λ inside. record {
      books = inside.sought.books;
      stop = inside.sought.stop;
    } };

    ghost invariant = { λ inside. is_held_in inside.sought.books inside.sought.stop ≡ false };
}

impl NotHeld {
    ghost use Rattle.std.specs.Prelude.{◌≡◌, false};
    ghost use Rattle.rld_state.specs.Held.{is_held_in};

    /// These books hold no link that is bound to the session that this Stop ends.
    pub(crate) fn of(books: &ServerBooks, stop: &Stop) -> NotHeld
        requires unheld { is_held_in books.now stop.now ≡ false }
        ensures { result ≡ record {
          books = books.now;
          stop = stop.now;
        } }
    {
        NotHeld {
            sought: Sought::of(books, stop),
        }
    }
}
