//! Asks: fresh ones and repeats, accept numbers, and how long a reservation stands.

use crate::rule::check;
use std::test::Fail;

#[test]
fn fresh_asks_reserve_places(rt: HostRuntime) -> Result<(), Fail> {
    check(
        &rt,
        &[
            (
                "accept numbers count up from 0",
                "places=2",
                &["ask 0 n 1 -> Accepted(0), 1", "ask 0 n 2 -> Accepted(1), 2"],
            ),
            (
                "one place, and a second ask",
                "places=1",
                &["ask 0 n 1 -> Accepted(0), 1", "ask 0 n 2 -> Refused, 1"],
            ),
            ("no place at all", "places=0", &["ask 0 n 1 -> Refused, 0"]),
            (
                "a reservation lapses at its time",
                "places=1",
                &[
                    "ask 0 n 1 -> Accepted(0), 1",
                    "ask 59 n 2 -> Refused, 1",
                    "ask 60 n 3 -> Accepted(1), 1",
                ],
            ),
        ],
    )
}

#[test]
fn repeats_get_the_decision_again(rt: HostRuntime) -> Result<(), Fail> {
    check(
        &rt,
        &[
            (
                "up to the keep time",
                "places=1",
                &[
                    "ask 0 n 1 -> Accepted(0), 1",
                    "ask 9 n 1 -> Repeated(Accept(0)), 1",
                    "ask 10 n 1 -> Refused, 1",
                ],
            ),
            (
                "a limit reject too",
                "places=1",
                &[
                    "ask 0 n 1 -> Accepted(0), 1",
                    "ask 1 n 2 -> Refused, 1",
                    "alive 2 n s1 class=0 -> Took(1), 1",
                    "stop 3 n s1 -> Passed, 0",
                    "ask 5 n 2 -> Repeated(LimitReject), 0",
                    "ask 5 n 3 -> Accepted(1), 1",
                ],
            ),
            (
                "a repeat renews nothing",
                "places=1",
                &[
                    "ask 0 n 1 -> Accepted(0), 1",
                    "ask 9 n 1 -> Repeated(Accept(0)), 1",
                    "ask 60 n 2 -> Accepted(1), 1",
                ],
            ),
            (
                "a repeat moves the clock, and links lapse at it",
                "places=1 reserve=5 keep=5",
                &[
                    "ask 0 n 1 -> Accepted(0), 1",
                    "ask 4 n 2 -> Refused, 1",
                    "ask 8 n 2 -> Repeated(LimitReject), 0",
                    "ask 7 n 3 -> Accepted(1), 1",
                    "tick 12 -> Passed, 1",
                    "tick 13 -> Passed, 0",
                ],
            ),
            (
                "another port is another ask",
                "places=2",
                &[
                    "ask 0 n 1 -> Accepted(0), 1",
                    "ask 0 n 1 port=1025 -> Accepted(1), 2",
                    "ask 1 n 1 port=1025 -> Repeated(Accept(1)), 2",
                ],
            ),
            (
                "the latest of the asks of a key is repeated",
                "places=2 reserve=10 keep=10",
                &[
                    "ask 0 n 1 -> Accepted(0), 1",
                    "ask 10 n 1 -> Accepted(1), 1",
                    "ask 19 n 1 -> Repeated(Accept(1)), 1",
                ],
            ),
        ],
    )
}

#[test]
fn the_last_eight_fresh_asks_are_kept(rt: HostRuntime) -> Result<(), Fail> {
    check(
        &rt,
        &[
            (
                "a ninth pushes the first out",
                "places=16",
                &[
                    "ask 0 n 1 -> Accepted(0), 1",
                    "ask 0 n 2 -> Accepted(1), 2",
                    "ask 0 n 3 -> Accepted(2), 3",
                    "ask 0 n 4 -> Accepted(3), 4",
                    "ask 0 n 5 -> Accepted(4), 5",
                    "ask 0 n 6 -> Accepted(5), 6",
                    "ask 0 n 7 -> Accepted(6), 7",
                    "ask 0 n 8 -> Accepted(7), 8",
                    "ask 0 n 9 -> Accepted(8), 9",
                    "ask 1 n 1 -> Accepted(9), 10",
                    "ask 1 n 2 -> Accepted(10), 11",
                    "ask 1 n 9 -> Repeated(Accept(8)), 11",
                ],
            ),
            (
                "limit rejects push out as well",
                "places=1",
                &[
                    "ask 0 n 1 -> Accepted(0), 1",
                    "ask 1 n 2 -> Refused, 1",
                    "ask 1 n 3 -> Refused, 1",
                    "ask 1 n 4 -> Refused, 1",
                    "ask 1 n 5 -> Refused, 1",
                    "ask 1 n 6 -> Refused, 1",
                    "ask 1 n 7 -> Refused, 1",
                    "ask 1 n 8 -> Refused, 1",
                    "ask 2 n 1 -> Repeated(Accept(0)), 1",
                    "ask 2 n 9 -> Refused, 1",
                    "ask 2 n 1 -> Refused, 1",
                ],
            ),
            (
                "repeats push nothing out",
                "places=1",
                &[
                    "ask 0 n 1 -> Accepted(0), 1",
                    "ask 1 n 1 -> Repeated(Accept(0)), 1",
                    "ask 2 n 1 -> Repeated(Accept(0)), 1",
                    "ask 3 n 1 -> Repeated(Accept(0)), 1",
                    "ask 4 n 1 -> Repeated(Accept(0)), 1",
                    "ask 5 n 1 -> Repeated(Accept(0)), 1",
                    "ask 6 n 1 -> Repeated(Accept(0)), 1",
                    "ask 7 n 1 -> Repeated(Accept(0)), 1",
                    "ask 8 n 1 -> Repeated(Accept(0)), 1",
                    "ask 9 n 1 -> Repeated(Accept(0)), 1",
                ],
            ),
            (
                "a swept ask and one that is too old keep their places",
                "places=16 keep=5 reserve=60",
                &[
                    "ask 0 m 1 -> Accepted(0), 1",
                    "ask 2 n 2 -> Accepted(1), 2",
                    "ask 2 o 3 -> Accepted(2), 3",
                    "sweep 2 o -> Passed, 2",
                    "ask 2 n 4 -> Accepted(3), 3",
                    "ask 2 n 5 -> Accepted(4), 4",
                    "ask 2 n 6 -> Accepted(5), 5",
                    "ask 2 n 7 -> Accepted(6), 6",
                    "ask 5 n 8 -> Accepted(7), 7",
                    "ask 6 n 9 -> Accepted(8), 8",
                    "ask 6 n 2 -> Repeated(Accept(1)), 8",
                    "ask 6 n 10 -> Accepted(9), 9",
                    "ask 6 n 2 -> Accepted(10), 10",
                ],
            ),
        ],
    )
}

#[test]
fn the_clock_never_falls(rt: HostRuntime) -> Result<(), Fail> {
    check(
        &rt,
        &[
            (
                "a lower moment leaves it",
                "places=2",
                &[
                    "ask 100 n 1 -> Accepted(0), 1",
                    "ask 50 n 2 -> Accepted(1), 2",
                    "ask 110 n 3 -> Refused, 2",
                    "ask 160 n 4 -> Accepted(2), 1",
                ],
            ),
            (
                "the greatest moment",
                "places=1",
                &[
                    "ask 18446744073709551615 n 1 -> Accepted(0), 1",
                    "ask 0 n 2 -> Refused, 1",
                ],
            ),
            (
                "the clock of the ask counts, and not its moment",
                "places=2",
                &[
                    "tick 100 -> Passed, 0",
                    "ask 0 n 1 -> Accepted(0), 1",
                    "ask 109 n 1 -> Repeated(Accept(0)), 1",
                    "ask 110 n 1 -> Accepted(1), 2",
                ],
            ),
        ],
    )
}
