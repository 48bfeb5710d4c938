//! Sweeps, and what stops end.

use crate::rule::check;
use std::test::Fail;

#[test]
fn sweeps_void_what_came_before(rt: HostRuntime) -> Result<(), Fail> {
    check(
        &rt,
        &[
            (
                "a closing",
                "places=1",
                &[
                    "stop 0 n s1 -> Passed, 0",
                    "sweep 1 n -> Passed, 0",
                    "alive 2 n s1 -> Opened, 1",
                ],
            ),
            (
                "links and reservations of one access server",
                "places=3",
                &[
                    "alive 0 n1 s1 -> Opened, 1",
                    "alive 1 n2 s1 -> Opened, 2",
                    "ask 1 n1 1 -> Accepted(0), 3",
                    "sweep 2 n1 -> Passed, 1",
                    "ask 3 n2 2 -> Accepted(1), 2",
                ],
            ),
            (
                "a kept ask",
                "places=1",
                &[
                    "ask 0 n 1 -> Accepted(0), 1",
                    "sweep 1 n -> Passed, 0",
                    "ask 2 n 1 -> Accepted(1), 1",
                ],
            ),
            (
                "the access server of the kept ask counts",
                "places=2",
                &[
                    "ask 0 n1 1 -> Accepted(0), 1",
                    "sweep 1 n2 -> Passed, 1",
                    "ask 2 n2 1 -> Repeated(Accept(0)), 1",
                    "sweep 3 n1 -> Passed, 0",
                    "ask 4 n2 1 -> Accepted(1), 1",
                ],
            ),
            (
                "not those of another client's access server of that name",
                "places=2",
                &[
                    "alive 0 1:n s1 -> Opened, 1",
                    "sweep 1 2:n -> Passed, 1",
                    "sweep 2 1:n -> Passed, 0",
                ],
            ),
        ],
    )
}

#[test]
fn late_sweeps_leave_what_came_after_the_restart(rt: HostRuntime) -> Result<(), Fail> {
    check(
        &rt,
        &[
            (
                "a link that opened since stays",
                "places=2",
                &[
                    "alive 0 n s1 -> Opened, 1",
                    "alive 10 n s2 -> Opened, 2",
                    "sweep 15 n delay=10 -> Passed, 1",
                    "alive 16 n s2 -> Renewed(2), 1",
                ],
            ),
            (
                "one that opened at the second of the restart ends",
                "places=1",
                &[
                    "alive 10 n s1 -> Opened, 1",
                    "sweep 14 n delay=5 -> Passed, 1",
                    "sweep 15 n delay=5 -> Passed, 0",
                ],
            ),
            (
                "a reservation too",
                "places=1",
                &[
                    "ask 10 n 1 -> Accepted(0), 1",
                    "sweep 14 n delay=5 -> Passed, 1",
                    "sweep 15 n delay=5 -> Passed, 0",
                ],
            ),
            (
                "the opening counts, and not the last touch",
                "places=1",
                &[
                    "ask 0 n 1 -> Accepted(0), 1",
                    "alive 8 n s1 -> Took(1), 1",
                    "alive 10 n s1 -> Renewed(1), 1",
                    "sweep 12 n delay=5 -> Passed, 0",
                ],
            ),
            (
                "the clock counts, and not the moments",
                "places=1",
                &[
                    "tick 100 -> Passed, 0",
                    "alive 0 n s1 -> Opened, 1",
                    "sweep 50 n delay=1 -> Passed, 1",
                    "sweep 101 n delay=1 -> Passed, 0",
                ],
            ),
            (
                "a delay of 0 is none",
                "places=1",
                &[
                    "alive 5 n s1 -> Opened, 1",
                    "sweep 5 n delay=0 -> Passed, 0",
                ],
            ),
            (
                "a restart before the account's first event ends nothing",
                "places=1",
                &[
                    "alive 0 n s1 -> Opened, 1",
                    "sweep 5 n delay=4294967295 -> Passed, 1",
                ],
            ),
            (
                "a modem that came back before the restart was told goes on",
                "places=1",
                &[
                    "alive 0 n s1 station=a -> Opened, 1",
                    "ask 25 n 1 station=a -> AcceptedInPlace { number: 0, yielded: 1 }, 1",
                    "alive 26 n s2 class=0 station=a -> Took(2), 1",
                    "sweep 30 n delay=10 -> Passed, 1",
                    "alive 31 n s2 station=a -> Renewed(2), 1",
                    "sweep 32 n -> Passed, 0",
                ],
            ),
            (
                "another access server's links stay, however old",
                "places=2",
                &[
                    "alive 0 n s1 -> Opened, 1",
                    "alive 0 1:n s1 -> Opened, 2",
                    "sweep 30 1:n delay=5 -> Passed, 1",
                    "alive 31 n s1 -> Renewed(1), 1",
                ],
            ),
        ],
    )
}

#[test]
fn late_sweeps_void_what_came_before_the_restart(rt: HostRuntime) -> Result<(), Fail> {
    check(
        &rt,
        &[
            (
                "a closing of before, and not one of after it",
                "places=2",
                &[
                    "stop 0 n s1 -> Passed, 0",
                    "stop 10 n s2 -> Passed, 0",
                    "sweep 15 n delay=10 -> Passed, 0",
                    "alive 16 n s1 -> Opened, 1",
                    "alive 16 n s2 -> Ignored, 1",
                ],
            ),
            (
                "a closing at the second of the restart",
                "places=1",
                &[
                    "stop 0 n s1 -> Passed, 0",
                    "sweep 5 n delay=6 -> Passed, 0",
                    "alive 5 n s1 -> Ignored, 0",
                    "sweep 6 n delay=6 -> Passed, 0",
                    "alive 6 n s1 -> Opened, 1",
                ],
            ),
            (
                "what is void stays so",
                "places=1",
                &[
                    "stop 0 n s1 -> Passed, 0",
                    "sweep 5 n delay=5 -> Passed, 0",
                    "sweep 6 n delay=100 -> Passed, 0",
                    "alive 7 n s1 -> Opened, 1",
                ],
            ),
            (
                "a kept ask of before, and not one of after it",
                "places=2",
                &[
                    "ask 0 n 1 -> Accepted(0), 1",
                    "ask 4 n 2 -> Accepted(1), 2",
                    "sweep 6 n delay=5 -> Passed, 1",
                    "ask 7 n 2 -> Repeated(Accept(1)), 1",
                    "ask 7 n 1 -> Accepted(2), 2",
                ],
            ),
            (
                "a kept ask at the second of the restart",
                "places=1",
                &[
                    "ask 0 n 1 -> Accepted(0), 1",
                    "sweep 4 n delay=5 -> Passed, 1",
                    "ask 4 n 1 -> Repeated(Accept(0)), 1",
                    "sweep 5 n delay=5 -> Passed, 0",
                    "ask 5 n 1 -> Accepted(1), 1",
                ],
            ),
            (
                "a kept limit reject of before, and not one of after it",
                "places=1",
                &[
                    "alive 0 m s1 -> Opened, 1",
                    "ask 1 n 1 -> Refused, 1",
                    "ask 5 n 2 -> Refused, 1",
                    "stop 6 m s1 -> Passed, 0",
                    "sweep 7 n delay=4 -> Passed, 0",
                    "ask 7 n 2 -> Repeated(LimitReject), 0",
                    "ask 8 n 1 -> Accepted(0), 1",
                ],
            ),
        ],
    )
}

#[test]
fn stops_end_their_session_alone(rt: HostRuntime) -> Result<(), Fail> {
    check(
        &rt,
        &[
            (
                "not one at another access server",
                "places=2",
                &["alive 0 n1 s1 -> Opened, 1", "stop 1 n2 s1 -> Passed, 1"],
            ),
            (
                "not a reservation",
                "places=2",
                &[
                    "ask 0 n 1 -> Accepted(0), 1",
                    "stop 1 n s1 -> Passed, 1",
                    "alive 2 n s1 -> Ignored, 1",
                    "alive 3 n s2 -> Took(1), 1",
                ],
            ),
        ],
    )
}
