//! Laws of books that are cut to a moment, and of what is carried over when the accounts change. Each is the
//! contract of a function that does nothing.

ghost use Rattle.rld_books.specs.CutLaws.{BooksUpToStay, CutBooksAreUpTo, CutBooksFit};
ghost use Rattle.rld_books.specs.Laws.{
  CarriedBooksFit,
  ClientsKeepTheirAddress,
  ClosedSessionsStay,
  NobodyNewComesIn,
  NothingGoneIsLeft,
  PlacesStayWithinTheLimit,
  RepeatsOpenNothing,
  SessionsStay,
};

/// No moment of a book that was cut is later than the moment of the cut.
pub fn cut_books_are_up_to()
    ensures { CutBooksAreUpTo }
{}

/// A book without later moments is unchanged.
pub fn books_up_to_stay()
    ensures { BooksUpToStay }
{}

/// A cut book holds as many places as before, and is restored wherever it could be before.
pub fn cut_books_fit()
    ensures { CutBooksFit }
{}

/// An account that stays with its rules keeps each link at a client that is still there: its
/// session, its bundle and its last touch.
pub fn sessions_stay()
    ensures { SessionsStay }
{}

/// A session that was closed stays closed, and no other is closed.
pub fn closed_sessions_stay()
    ensures { ClosedSessionsStay }
{}

/// A retransmission is decided as before, and opens nothing.
pub fn repeats_open_nothing()
    ensures { RepeatsOpenNothing }
{}

/// No account holds more places than its rules have, whatever it held before.
pub fn places_stay_within_the_limit()
    ensures { PlacesStayWithinTheLimit }
{}

/// If a link found no place, every place is held.
pub fn nobody_new_comes_in()
    ensures { NobodyNewComesIn }
{}

/// Nothing of a client that is gone is left.
pub fn nothing_gone_is_left()
    ensures { NothingGoneIsLeft }
{}

/// A book that was carried over can be restored.
pub fn carried_books_fit()
    ensures { CarriedBooksFit }
{}

/// A client keeps its address, and no two clients become one.
pub fn clients_keep_their_address()
    ensures { ClientsKeepTheirAddress }
{}
