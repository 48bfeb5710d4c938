//! Laws of the session rule, over every list of an account's events. Each is the contract of a
//! function that does nothing.

ghost use Rattle.rsl_rule.specs.Laws.{
  AcceptNumbersCountUp,
  ClosedSessionsHoldNoLink,
  EarlyTicksChangeNoDecision,
  LateRestartsSpareWhatIsNewer,
  LinksYieldInTurn,
  LowestReservationIsTaken,
  OnePastFollowsTheRule,
  PastsFollowTheRule,
  PlacesStayWithinTheLimit,
  RepeatsAreDecidedAsAFreshAsk,
  StationsFindTheirPlace,
};

/// After each event of a list, and not only after the last, the places held are at most the
/// account's.
pub fn places_stay_within_the_limit()
    ensures { PlacesStayWithinTheLimit }
{}

/// A link that yields to a fresh ask was of the ask's station when it came, or stale if no place was
/// free then and no link of that station would make room. No other such link was touched earlier, of
/// those touched when it was it opened first, and the places held after the ask are at most the
/// account's.
pub fn links_yield_in_turn()
    ensures { LinksYieldInTurn }
{}

/// While accept numbers are left, a fresh ask is accepted in the place of the link of its station
/// that is first in turn, if the other held links leave a place, whether or not one is free. Where no
/// link makes room so, as for an ask without a station, the free places and the stale links decide.
pub fn stations_find_their_place()
    ensures { StationsFindTheirPlace }
{}

/// A sweep ends the links at its access server that opened at least its delay ago, by the clock once
/// it has come, and no other link. One without a delay ends all of them.
pub fn late_restarts_spare_what_is_newer()
    ensures { LateRestartsSpareWhatIsNewer }
{}

/// A closed session has no held link, so the order of the first two cases of an alive decides
/// nothing: its link is renewed, or the session is closed, or neither.
pub fn closed_sessions_hold_no_link()
    ensures { ClosedSessionsHoldNoLink }
{}

/// A tick may be inserted into a list if none of the events after it has a lower moment: every
/// decision stays, and so do the places after each later event.
pub fn early_ticks_change_no_decision()
    ensures { EarlyTicksChangeNoDecision }
{}

/// The accept numbers of an account's fresh asks count up from 0 without a gap.
pub fn accept_numbers_count_up()
    ensures { AcceptNumbersCountUp }
{}

/// A repeat gets the decision of an earlier fresh ask of its key.
pub fn repeats_are_decided_as_a_fresh_ask()
    ensures { RepeatsAreDecidedAsAFreshAsk }
{}

/// The past of a list of events has its events, and each did what the rule says for what came
/// before.
pub fn pasts_follow_the_rule()
    ensures { PastsFollowTheRule }
{}

/// Two pasts of the same events that follow the rule are equal.
pub fn one_past_follows_the_rule()
    ensures { OnePastFollowsTheRule }
{}

/// An alive with no class takes the reservation with the lowest accept number.
pub fn lowest_reservation_is_taken()
    ensures { LowestReservationIsTaken }
{}
