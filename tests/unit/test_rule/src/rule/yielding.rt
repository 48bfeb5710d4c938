//! Stale links that yield their place to a fresh ask.

use crate::rule::check;
use std::test::Fail;

#[test]
fn a_stale_link_yields(rt: HostRuntime) -> Result<(), Fail> {
    check(
        &rt,
        &[
            (
                "from the end of its live time on",
                "places=1 live=10 grace=5",
                &[
                    "alive 0 n s1 -> Opened, 1",
                    "ask 9 n 1 -> Refused, 1",
                    "ask 10 n 2 -> AcceptedInPlace { number: 0, yielded: 1 }, 1",
                    "alive 11 n s1 class=5 -> Over, 1",
                ],
            ),
            (
                "the first that opened, of two touched alike",
                "places=2",
                &[
                    "alive 0 n s1 -> Opened, 1",
                    "alive 0 n s2 -> Opened, 2",
                    "ask 900 n 1 -> AcceptedInPlace { number: 0, yielded: 1 }, 2",
                    "stop 901 n s2 -> Passed, 1",
                ],
            ),
            (
                "the one touched longest ago, and not the one opened first",
                "places=2 live=10 grace=50",
                &[
                    "alive 0 n s1 -> Opened, 1",
                    "alive 1 n s2 -> Opened, 2",
                    "alive 2 n s1 -> Renewed(1), 2",
                    "ask 12 n 1 -> AcceptedInPlace { number: 0, yielded: 2 }, 2",
                    "alive 12 n s1 -> Renewed(1), 2",
                ],
            ),
            (
                "one after another",
                "places=2 live=10 grace=50",
                &[
                    "alive 0 n s1 -> Opened, 1",
                    "alive 1 n s2 -> Opened, 2",
                    "ask 11 n 1 -> AcceptedInPlace { number: 0, yielded: 1 }, 2",
                    "ask 11 n 2 -> AcceptedInPlace { number: 1, yielded: 2 }, 2",
                    "ask 11 n 3 -> Refused, 2",
                ],
            ),
            (
                "a bound link that an ask opened too",
                "places=1 live=10 grace=50",
                &[
                    "ask 0 n 1 -> Accepted(0), 1",
                    "alive 1 n s1 class=0 -> Took(1), 1",
                    "ask 10 n 2 -> Refused, 1",
                    "ask 11 n 3 -> AcceptedInPlace { number: 1, yielded: 1 }, 1",
                ],
            ),
            (
                "and is repeated like another accept",
                "places=1 live=10 grace=50",
                &[
                    "alive 0 n s1 -> Opened, 1",
                    "ask 10 n 1 -> AcceptedInPlace { number: 0, yielded: 1 }, 1",
                    "ask 11 n 1 -> Repeated(Accept(0)), 1",
                    "alive 12 n s2 class=0 -> Took(2), 1",
                ],
            ),
        ],
    )
}

#[test]
fn nothing_yields_without_need(rt: HostRuntime) -> Result<(), Fail> {
    check(
        &rt,
        &[
            (
                "a stale link stays where a place is free",
                "places=2 live=10 grace=50",
                &["alive 0 n s1 -> Opened, 1", "ask 10 n 1 -> Accepted(0), 2"],
            ),
            (
                "a reservation never yields",
                "places=1 live=10 grace=5",
                &[
                    "ask 0 n 1 -> Accepted(0), 1",
                    "ask 30 n 2 -> Refused, 1",
                    "ask 59 n 3 -> Refused, 1",
                ],
            ),
            (
                "a link of a bundle that frees no place",
                "places=1 ports=2",
                &[
                    "alive 0 n s1 multi=m -> Opened, 1",
                    "alive 0 n s2 multi=m -> Opened, 1",
                    "ask 900 n 1 -> Refused, 1",
                    "alive 901 n s1 -> Renewed(1), 1",
                ],
            ),
            (
                "no second candidate is tried",
                "places=2 ports=2 live=10 grace=50",
                &[
                    "alive 0 n s1 multi=m -> Opened, 1",
                    "alive 0 n s2 multi=m -> Opened, 1",
                    "alive 1 n s3 -> Opened, 2",
                    "ask 11 n 1 -> Refused, 2",
                    "alive 12 n s1 -> Renewed(1), 2",
                    "alive 12 n s2 -> Renewed(2), 2",
                    "ask 12 n 2 -> AcceptedInPlace { number: 0, yielded: 3 }, 2",
                ],
            ),
            (
                "a kept limit reject is repeated although a link is stale since",
                "places=1 live=10 grace=50",
                &[
                    "alive 0 n s1 -> Opened, 1",
                    "ask 9 n 1 -> Refused, 1",
                    "ask 11 n 1 -> Repeated(LimitReject), 1",
                    "ask 11 n 2 -> AcceptedInPlace { number: 0, yielded: 1 }, 1",
                ],
            ),
            (
                "an alive makes no link yield",
                "places=1 live=10 grace=50",
                &[
                    "alive 0 n s1 -> Opened, 1",
                    "alive 20 n s2 -> Over, 1",
                    "alive 21 n s1 -> Renewed(1), 1",
                ],
            ),
            (
                "no place at all",
                "places=0 live=10 grace=50",
                &["ask 20 n 1 -> Refused, 0"],
            ),
        ],
    )
}

#[test]
fn a_session_that_yielded_is_not_closed(rt: HostRuntime) -> Result<(), Fail> {
    check(
        &rt,
        &[
            (
                "its alive opens a link again where there is room",
                "places=2 live=10 grace=50",
                &[
                    "alive 0 n s1 -> Opened, 1",
                    "alive 5 n s2 -> Opened, 2",
                    "ask 10 n 1 -> AcceptedInPlace { number: 0, yielded: 1 }, 2",
                    "stop 11 n s2 -> Passed, 1",
                    "alive 12 n s1 class=9 -> Opened, 2",
                ],
            ),
            (
                "and takes a reservation",
                "places=1 live=10 grace=50",
                &[
                    "alive 0 n s1 -> Opened, 1",
                    "ask 10 n 1 -> AcceptedInPlace { number: 0, yielded: 1 }, 1",
                    "alive 11 n s1 -> Took(2), 1",
                ],
            ),
            (
                "its stop ends nothing, and closes it",
                "places=1 live=10 grace=50",
                &[
                    "alive 0 n s1 -> Opened, 1",
                    "ask 10 n 1 -> AcceptedInPlace { number: 0, yielded: 1 }, 1",
                    "stop 11 n s1 -> Passed, 1",
                    "alive 12 n s1 -> Ignored, 1",
                ],
            ),
            (
                "the place is the new link's, which lapses as another",
                "places=1 live=10 grace=50",
                &[
                    "alive 0 n s1 -> Opened, 1",
                    "ask 10 n 1 -> AcceptedInPlace { number: 0, yielded: 1 }, 1",
                    "tick 69 -> Passed, 1",
                    "tick 70 -> Passed, 0",
                ],
            ),
        ],
    )
}
