//! Laws of lives, over every list of moves. Each is the contract of a function that does nothing,
//! or calls laws of the crates below, on which its proof rests.

ghost use Rattle.rld_lives.specs.Within.{HistoriesOpenWithinLimits, HistoriesStayWithinLimits};
ghost use Rattle.rld_lives.specs.Life.{WhatIsAnsweredStands};
ghost use Rattle.rld_lives.specs.Lives.{LivesObeyTheRule, RestartsChangeNothing};

/// All lives obey the session rule, however they ended: over the history that they left, each
/// decision is the one that the rule finds by looking back over the account's own events in all
/// earlier lives and in this one. So are each account's book and its places, which never exceed its
/// limit.
pub fn lives_obey_the_rule()
    ensures { LivesObeyTheRule }
{
    histories_open_within_limits();
    histories_stay_within_limits();
    rsl_session::laws::decision_law();
    rsl_session::laws::books_are_those_of_the_past();
    rsl_session::laws::books_hold_the_places_of_the_rule();
}

/// A restart changes nothing: a life that begins with the books of the earlier lives decides as if
/// there had been no restart, and leaves the same books.
pub fn restarts_change_nothing()
    ensures { RestartsChangeNothing }
{}

/// What is answered stands: however the lives ended, each batch that one of them answered is in the
/// history that they left, whole and in order, with the decisions that were answered.
pub fn what_is_answered_stands()
    ensures { WhatIsAnsweredStands }
{}

/// The count holds in every history that opened within limits: each account goes on with the book that
/// it began with, by its own events alone, and its places never exceed its limit.
pub fn histories_stay_within_limits()
    ensures { HistoriesStayWithinLimits }
{
    rsl_session::laws::steps_stay_within_the_limit();
}

/// Every history opens within limits: with new books, with books admitted from others, or with such
/// books cut to a moment.
pub fn histories_open_within_limits()
    ensures { HistoriesOpenWithinLimits }
{
    rsl_session::laws::books_stay_within_the_limit();
    rld_books::laws::places_stay_within_the_limit();
    rld_books::laws::cut_books_fit();
}
