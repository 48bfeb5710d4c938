//! Laws of runs, over every list of steps. Each is the contract of a function that does nothing, or
//! calls laws of the crates below, on which its proof rests.

ghost use Rattle.rsl_steps.specs.Laws.{
  BooksAnswerAsLookingBack,
  EarlyTicksChangeNothing,
  EqualOwnEventsAreAnsweredAlike,
  JournalsHaveOwnEvents,
  JournalsObeyTheRule,
  PacketsOfTwoAccountsCommute,
  ShardsObeyTheRule,
  TheNumberOfShardsDoesNotMatter,
};

use rsl_session::laws;

/// Accounts are independent: the answers that an account gets and the places that it holds are a
/// function of its rules and of its own events.
pub fn equal_own_events_are_answered_alike()
    ensures { EqualOwnEventsAreAnsweredAlike }
{}

/// Neighbouring packets of two accounts may be exchanged: every account's own events stay.
pub fn packets_of_two_accounts_commute()
    ensures { PacketsOfTwoAccountsCommute }
{}

/// Each account has the same own events with another number of shards, all else being equal, if
/// each restart and each tick comes to all shards of either.
pub fn the_number_of_shards_does_not_matter()
    ensures { TheNumberOfShardsDoesNotMatter }
{}

/// A tick before steps none of which has a lower moment changes no answer to them, and no account's
/// places after its next own event.
pub fn early_ticks_change_nothing()
    ensures { EarlyTicksChangeNothing }
{
    rsl_rule::laws::early_ticks_change_no_decision();
}

/// A journal obeys the rule: if its books began new and each line is decided by them, each
/// account's decisions are the rule's over its own events among the lines, and so are its book and
/// its places.
pub fn journals_obey_the_rule()
    ensures { JournalsObeyTheRule }
{
    laws::decision_law();
    laws::books_are_those_of_the_past();
    laws::books_hold_the_places_of_the_rule();
}

/// If the lines of a journal are the moves of a shard, an account of the shard has the same own
/// events among them as among the steps.
pub fn journals_have_own_events()
    ensures { JournalsHaveOwnEvents }
{}

/// New books answer each step as looking back does.
pub fn books_answer_as_looking_back()
    ensures { BooksAnswerAsLookingBack }
{
    laws::decision_law();
    laws::books_are_those_of_the_past();
}

/// If the journals of new shards have the moves of some steps, each account's book is that of its
/// own events among them: it holds the places that the session rule finds by looking back over
/// them, and these are at most the account's after each of the events.
pub fn shards_obey_the_rule()
    ensures { ShardsObeyTheRule }
{
    laws::books_are_those_of_the_past();
    laws::books_hold_the_places_of_the_rule();
    laws::books_stay_within_the_limit();
}
