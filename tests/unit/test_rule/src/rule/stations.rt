//! Links that yield their place to a fresh ask of their own station.

use crate::rule::check;
use std::test::Fail;

#[test]
fn a_link_of_the_station_that_asks_yields(rt: HostRuntime) -> Result<(), Fail> {
    check(
        &rt,
        &[
            (
                "a modem that redials: no stop came, and its old session's link ends",
                "places=1",
                &[
                    "ask 0 n 1 station=a -> Accepted(0), 1",
                    "alive 1 n s1 class=0 station=a -> Took(1), 1",
                    "ask 5 n 2 station=a -> AcceptedInPlace { number: 1, yielded: 1 }, 1",
                    "alive 6 n s2 class=1 station=a -> Took(3), 1",
                    "alive 7 n s1 class=0 station=a -> Over, 1",
                ],
            ),
            (
                "before its start: its reservation ends",
                "places=1",
                &[
                    "ask 0 n 1 station=a -> Accepted(0), 1",
                    "ask 1 n 2 station=a -> AcceptedInPlace { number: 1, yielded: 1 }, 1",
                    "alive 2 n s1 class=0 station=a -> Over, 1",
                    "alive 2 n s2 class=1 station=a -> Took(2), 1",
                ],
            ),
            (
                "one of two devices: the other's link stays",
                "places=2",
                &[
                    "ask 0 n 1 station=a -> Accepted(0), 1",
                    "alive 1 n s1 class=0 station=a -> Took(1), 1",
                    "ask 2 n 2 station=b -> Accepted(1), 2",
                    "alive 3 n s2 class=1 station=b -> Took(3), 2",
                    "ask 4 n 3 station=b -> AcceptedInPlace { number: 2, yielded: 3 }, 2",
                    "alive 5 n s1 class=0 station=a -> Renewed(1), 2",
                    "alive 6 n s3 class=2 station=b -> Took(5), 2",
                    "ask 7 n 4 station=a -> AcceptedInPlace { number: 3, yielded: 1 }, 2",
                    "ask 8 n 5 station=c -> Refused, 2",
                ],
            ),
            (
                "at another access server",
                "places=1",
                &[
                    "alive 0 n1 s1 station=a -> Opened, 1",
                    "ask 1 n2 1 station=a -> AcceptedInPlace { number: 0, yielded: 1 }, 1",
                    "alive 2 n1 s1 station=a -> Over, 1",
                    "alive 3 n2 s1 station=a -> Took(2), 1",
                ],
            ),
            (
                "at an access server of another client",
                "places=1",
                &[
                    "alive 0 1:n s1 station=a -> Opened, 1",
                    "ask 1 2:n 1 station=a -> AcceptedInPlace { number: 0, yielded: 1 }, 1",
                ],
            ),
            (
                "also where a place is free",
                "places=2",
                &[
                    "alive 0 n s1 station=a -> Opened, 1",
                    "ask 1 n 1 station=a -> AcceptedInPlace { number: 0, yielded: 1 }, 1",
                ],
            ),
            (
                "a live one before a stale one of another station",
                "places=2 live=10 grace=50",
                &[
                    "alive 0 n s1 station=a -> Opened, 1",
                    "alive 11 n s2 station=b -> Opened, 2",
                    "ask 12 n 1 station=b -> AcceptedInPlace { number: 0, yielded: 2 }, 2",
                    "alive 13 n s1 station=a -> Renewed(1), 2",
                ],
            ),
        ],
    )
}

#[test]
fn of_several_links_of_a_station_one_yields(rt: HostRuntime) -> Result<(), Fail> {
    check(
        &rt,
        &[
            (
                "the one touched longest ago, and not the one opened first",
                "places=2",
                &[
                    "alive 0 n s1 station=a -> Opened, 1",
                    "alive 1 n s2 station=a -> Opened, 2",
                    "alive 2 n s1 -> Renewed(1), 2",
                    "ask 3 n 1 station=a -> AcceptedInPlace { number: 0, yielded: 2 }, 2",
                    "alive 4 n s1 -> Renewed(1), 2",
                ],
            ),
            (
                "the one opened first, of two touched alike",
                "places=2",
                &[
                    "alive 0 n s1 station=a -> Opened, 1",
                    "alive 1 n s2 station=a -> Opened, 2",
                    "alive 5 n s2 -> Renewed(2), 2",
                    "alive 5 n s1 -> Renewed(1), 2",
                    "ask 6 n 1 station=a -> AcceptedInPlace { number: 0, yielded: 1 }, 2",
                    "alive 7 n s2 -> Renewed(2), 2",
                ],
            ),
            (
                "reserved and bound ones alike, one after another",
                "places=2",
                &[
                    "alive 0 n s1 station=a -> Opened, 1",
                    "alive 1 n s2 station=a -> Opened, 2",
                    "ask 2 n 1 station=a -> AcceptedInPlace { number: 0, yielded: 1 }, 2",
                    "ask 3 n 2 station=a -> AcceptedInPlace { number: 1, yielded: 2 }, 2",
                    "ask 4 n 3 station=a -> AcceptedInPlace { number: 2, yielded: 3 }, 2",
                ],
            ),
            (
                "and the other keeps its place",
                "places=3",
                &[
                    "alive 0 n s1 station=a -> Opened, 1",
                    "alive 0 n s2 station=a -> Opened, 2",
                    "alive 0 n s3 station=b -> Opened, 3",
                    "ask 1 n 1 station=a -> AcceptedInPlace { number: 0, yielded: 1 }, 3",
                    "stop 2 n s2 -> Passed, 2",
                    "stop 2 n s3 -> Passed, 1",
                ],
            ),
        ],
    )
}

#[test]
fn a_link_has_the_last_station_that_was_named(rt: HostRuntime) -> Result<(), Fail> {
    check(
        &rt,
        &[
            (
                "with the start alone",
                "places=1",
                &[
                    "ask 0 n 1 -> Accepted(0), 1",
                    "alive 1 n s1 class=0 station=a -> Took(1), 1",
                    "ask 2 n 2 station=a -> AcceptedInPlace { number: 1, yielded: 1 }, 1",
                ],
            ),
            (
                "with a later interim update alone",
                "places=1",
                &[
                    "alive 0 n s1 -> Opened, 1",
                    "ask 1 n 1 station=a -> Refused, 1",
                    "alive 2 n s1 station=a -> Renewed(1), 1",
                    "ask 3 n 2 station=a -> AcceptedInPlace { number: 0, yielded: 1 }, 1",
                ],
            ),
            (
                "with the ask alone: what names none takes none away",
                "places=1",
                &[
                    "ask 0 n 1 station=a -> Accepted(0), 1",
                    "alive 1 n s1 class=0 -> Took(1), 1",
                    "alive 2 n s1 -> Renewed(1), 1",
                    "ask 3 n 2 station=a -> AcceptedInPlace { number: 1, yielded: 1 }, 1",
                ],
            ),
            (
                "another one later",
                "places=1",
                &[
                    "ask 0 n 1 station=a -> Accepted(0), 1",
                    "alive 1 n s1 class=0 station=b -> Took(1), 1",
                    "ask 2 n 2 station=a -> Refused, 1",
                    "alive 3 n s1 station=c -> Renewed(1), 1",
                    "ask 4 n 3 station=b -> Refused, 1",
                    "ask 5 n 4 station=c -> AcceptedInPlace { number: 1, yielded: 1 }, 1",
                ],
            ),
            (
                "not that of an alive that is over",
                "places=1",
                &[
                    "alive 0 n s1 station=a -> Opened, 1",
                    "alive 1 n s2 station=b -> Over, 1",
                    "ask 2 n 1 station=b -> Refused, 1",
                ],
            ),
            (
                "not that of a repeat",
                "places=1",
                &[
                    "ask 0 n 1 -> Accepted(0), 1",
                    "ask 1 n 1 station=a -> Repeated(Accept(0)), 1",
                    "ask 2 n 2 station=a -> Refused, 1",
                ],
            ),
        ],
    )
}

#[test]
fn nothing_yields_to_another_station_or_to_none(rt: HostRuntime) -> Result<(), Fail> {
    check(
        &rt,
        &[
            (
                "another station: each octet counts",
                "places=1",
                &[
                    "ask 0 n 1 station=a -> Accepted(0), 1",
                    "ask 1 n 2 station=ab -> Refused, 1",
                    "ask 2 n 3 station=A -> Refused, 1",
                    "ask 3 n 4 station=b -> Refused, 1",
                ],
            ),
            (
                "an ask without a station",
                "places=1",
                &[
                    "ask 0 n 1 station=a -> Accepted(0), 1",
                    "ask 1 n 2 -> Refused, 1",
                ],
            ),
            (
                "a link without a station",
                "places=1",
                &[
                    "ask 0 n 1 -> Accepted(0), 1",
                    "ask 1 n 2 station=a -> Refused, 1",
                    "ask 2 n 3 -> Refused, 1",
                ],
            ),
            (
                "a link that lapses as the ask comes",
                "places=1",
                &[
                    "ask 0 n 1 station=a -> Accepted(0), 1",
                    "ask 60 n 2 station=a -> Accepted(1), 1",
                ],
            ),
            (
                "an alive",
                "places=1",
                &[
                    "alive 0 n s1 station=a -> Opened, 1",
                    "alive 1 n s2 station=a -> Over, 1",
                    "alive 2 n s1 -> Renewed(1), 1",
                ],
            ),
            (
                "no place at all",
                "places=0",
                &["ask 0 n 1 station=a -> Refused, 0"],
            ),
        ],
    )
}

#[test]
fn repeats_make_no_link_of_their_station_yield(rt: HostRuntime) -> Result<(), Fail> {
    check(
        &rt,
        &[
            (
                "the first ask comes again after the second: its answer, and nothing yields",
                "places=1",
                &[
                    "ask 0 n 1 station=a -> Accepted(0), 1",
                    "ask 1 n 2 station=a -> AcceptedInPlace { number: 1, yielded: 1 }, 1",
                    "ask 2 n 1 station=a -> Repeated(Accept(0)), 1",
                    "alive 3 n s2 class=1 station=a -> Took(2), 1",
                ],
            ),
            (
                "the second comes again",
                "places=1",
                &[
                    "ask 0 n 1 station=a -> Accepted(0), 1",
                    "ask 1 n 2 station=a -> AcceptedInPlace { number: 1, yielded: 1 }, 1",
                    "ask 2 n 2 station=a -> Repeated(Accept(1)), 1",
                    "alive 3 n s2 class=1 station=a -> Took(2), 1",
                ],
            ),
            (
                "a kept limit reject, though a link is of the station since",
                "places=1",
                &[
                    "ask 0 n 1 station=b -> Accepted(0), 1",
                    "ask 1 n 2 station=a -> Refused, 1",
                    "alive 2 n s1 class=0 station=a -> Took(1), 1",
                    "ask 3 n 2 station=a -> Repeated(LimitReject), 1",
                    "ask 4 n 3 station=a -> AcceptedInPlace { number: 1, yielded: 1 }, 1",
                ],
            ),
        ],
    )
}

#[test]
fn a_session_that_yielded_to_its_station_is_not_closed(rt: HostRuntime) -> Result<(), Fail> {
    check(
        &rt,
        &[
            (
                "it asks anew and goes on: its next alive takes the new reservation",
                "places=1",
                &[
                    "ask 0 n 1 station=a -> Accepted(0), 1",
                    "alive 1 n s1 class=0 station=a -> Took(1), 1",
                    "ask 600 n 2 station=a -> AcceptedInPlace { number: 1, yielded: 1 }, 1",
                    "alive 659 n s1 class=1 station=a -> Took(3), 1",
                    "alive 1200 n s1 class=1 station=a -> Renewed(3), 1",
                ],
            ),
            (
                "or opens a link, once that has lapsed",
                "places=1",
                &[
                    "ask 0 n 1 station=a -> Accepted(0), 1",
                    "alive 1 n s1 class=0 station=a -> Took(1), 1",
                    "ask 600 n 2 station=a -> AcceptedInPlace { number: 1, yielded: 1 }, 1",
                    "alive 660 n s1 class=1 station=a -> Opened, 1",
                ],
            ),
            (
                "a late update of the old session finds the reservation, where it has no class",
                "places=1",
                &[
                    "alive 0 n s1 station=a -> Opened, 1",
                    "ask 5 n 1 station=a -> AcceptedInPlace { number: 0, yielded: 1 }, 1",
                    "alive 6 n s1 station=a -> Took(2), 1",
                    "alive 7 n s2 class=0 station=a -> Over, 1",
                ],
            ),
            (
                "it opens a link where there is room, which yields in its turn",
                "places=2",
                &[
                    "alive 0 n s1 station=a -> Opened, 1",
                    "ask 1 n 1 station=a -> AcceptedInPlace { number: 0, yielded: 1 }, 1",
                    "alive 2 n s1 class=7 station=a -> Opened, 2",
                    "ask 3 n 2 station=a -> AcceptedInPlace { number: 1, yielded: 2 }, 2",
                    "ask 4 n 3 station=a -> AcceptedInPlace { number: 2, yielded: 3 }, 2",
                ],
            ),
            (
                "its stop ends nothing, and closes it",
                "places=1",
                &[
                    "ask 0 n 1 station=a -> Accepted(0), 1",
                    "alive 1 n s1 class=0 station=a -> Took(1), 1",
                    "ask 5 n 2 station=a -> AcceptedInPlace { number: 1, yielded: 1 }, 1",
                    "stop 6 n s1 -> Passed, 1",
                    "alive 7 n s1 station=a -> Ignored, 1",
                    "alive 8 n s2 class=1 station=a -> Took(3), 1",
                ],
            ),
        ],
    )
}

#[test]
fn a_link_whose_end_makes_no_room_stays(rt: HostRuntime) -> Result<(), Fail> {
    check(
        &rt,
        &[
            (
                "one of a bundle that takes a place without it too",
                "places=1 ports=2",
                &[
                    "alive 0 n s1 multi=m station=a -> Opened, 1",
                    "alive 0 n s2 multi=m station=a -> Opened, 1",
                    "ask 1 n 1 station=a -> Refused, 1",
                    "alive 2 n s1 -> Renewed(1), 1",
                    "alive 2 n s2 -> Renewed(2), 1",
                ],
            ),
            (
                "one of a bundle that takes a place less without it ends",
                "places=2 ports=2",
                &[
                    "alive 0 n s1 multi=m station=a -> Opened, 1",
                    "alive 0 n s2 multi=m -> Opened, 1",
                    "alive 0 n s3 multi=m -> Opened, 2",
                    "ask 1 n 1 station=a -> AcceptedInPlace { number: 0, yielded: 1 }, 2",
                ],
            ),
            (
                "one of a bundle ends where a place is free without it, though it took none alone",
                "places=2 ports=2",
                &[
                    "alive 0 n s1 multi=m station=a -> Opened, 1",
                    "alive 0 n s2 multi=m station=a -> Opened, 1",
                    "ask 1 n 1 station=a -> AcceptedInPlace { number: 0, yielded: 1 }, 2",
                ],
            ),
            (
                "then a stale link yields as ever",
                "places=2 ports=2 live=10 grace=50",
                &[
                    "alive 0 n s3 station=b -> Opened, 1",
                    "alive 1 n s1 multi=m station=a -> Opened, 2",
                    "alive 1 n s2 multi=m station=a -> Opened, 2",
                    "ask 9 n 1 station=a -> Refused, 2",
                    "ask 10 n 2 station=a -> AcceptedInPlace { number: 0, yielded: 1 }, 2",
                    "alive 11 n s1 -> Renewed(2), 2",
                    "alive 11 n s2 -> Renewed(3), 2",
                ],
            ),
            (
                "no second link of the station is tried",
                "places=2 ports=2",
                &[
                    "alive 0 n s1 multi=m station=a -> Opened, 1",
                    "alive 0 n s2 multi=m station=a -> Opened, 1",
                    "alive 1 n s3 station=a -> Opened, 2",
                    "ask 2 n 1 station=a -> Refused, 2",
                    "alive 3 n s1 -> Renewed(1), 2",
                    "alive 3 n s2 -> Renewed(2), 2",
                    "ask 4 n 2 station=a -> AcceptedInPlace { number: 0, yielded: 3 }, 2",
                ],
            ),
        ],
    )
}
