//! The laws that join the running book with the rule. Each is the contract of a function that does
//! nothing.
//!
//! The first seven hold for every past that follows the rule and every event: the step of the
//! past's book is the book of the past with the event, field by field, and the decision is the
//! rule's.

ghost use Rattle.rsl_session.specs.BookLaws.{
  AcceptNumberLaw,
  BooksAreThoseOfThePast,
  BooksDecideAsTheRule,
  BooksHoldThePlacesOfTheRule,
  BooksShowTheRule,
  BooksStayWithinTheLimit,
  ClockLaw,
  DecisionLaw,
  KeptAsksLaw,
  KeptIsBounded,
  KeptStopsLaw,
  LinksAreBounded,
  LinksLaw,
  OverLaw,
  StepsStayWithinTheLimit,
};

/// The clock law: a book stepped by an event has the clock of the past with the event.
pub fn clock_law()
    ensures { ClockLaw }
{}

/// The links law: the stepped book has the links that the past with the event holds, in the order
/// in which they opened, each with its access server, its accept number or session, its bundle, its
/// station, its opening and its last touch.
pub fn links_law()
    ensures { LinksLaw }
{}

/// The accept number law: the next accept number is the number of accepted asks.
pub fn accept_number_law()
    ensures { AcceptNumberLaw }
{}

/// The kept asks law: the stepped book keeps the last 8 fresh asks, each with its decision, its
/// clock, and whether a sweep voided it.
pub fn kept_asks_law()
    ensures { KeptAsksLaw }
{}

/// The kept stops law: the stepped book keeps the last 16 stops, each with its clock, and whether a
/// sweep voided it.
pub fn kept_stops_law()
    ensures { KeptStopsLaw }
{}

/// The over law: the stepped book has counted the alives that found no place.
pub fn over_law()
    ensures { OverLaw }
{}

/// The decision on the event is the rule's.
pub fn decision_law()
    ensures { DecisionLaw }
{}

/// A new book decides every list of events as the rule does.
pub fn books_decide_as_the_rule()
    ensures { BooksDecideAsTheRule }
{}

/// A new book stepped by any list of events is the book of their past.
pub fn books_are_those_of_the_past()
    ensures { BooksAreThoseOfThePast }
{}

/// A new book stepped by any list of events holds the places that the rule counts.
pub fn books_hold_the_places_of_the_rule()
    ensures { BooksHoldThePlacesOfTheRule }
{}

/// After each event of a list, and not only after the last, a book that began new is within its
/// limit.
pub fn books_stay_within_the_limit()
    ensures { BooksStayWithinTheLimit }
{}

/// A step of any book within its limit leaves it within its limit.
pub fn steps_stay_within_the_limit()
    ensures { StepsStayWithinTheLimit }
{}

/// A book within its limit has at most as many links as its places have ports, and at most as many
/// places as links.
pub fn links_are_bounded()
    ensures { LinksAreBounded }
{}

/// A book that keeps at most 8 asks and 16 stops keeps at most as many after a step.
pub fn kept_is_bounded()
    ensures { KeptIsBounded }
{}

/// The numbers that the book of a past shows are those that the rule counts among its held links:
/// the places, and the reserved, live and stale links.
pub fn books_show_the_rule()
    ensures { BooksShowTheRule }
{}
