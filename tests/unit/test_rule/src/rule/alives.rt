//! Alives: what they take, open and renew, closed sessions, and how long a session stands.

use crate::rule::check;
use std::test::Fail;

#[test]
fn alives_take_reservations(rt: HostRuntime) -> Result<(), Fail> {
    check(
        &rt,
        &[
            (
                "the one with the lowest number",
                "places=2",
                &[
                    "ask 0 n 1 -> Accepted(0), 1",
                    "ask 30 n 2 -> Accepted(1), 2",
                    "alive 50 n s1 -> Took(1), 2",
                    "tick 60 -> Passed, 2",
                    "tick 90 -> Passed, 1",
                    "alive 91 n s2 class=1 -> Opened, 2",
                ],
            ),
            (
                "the one that the class names",
                "places=2",
                &[
                    "ask 0 n 1 -> Accepted(0), 1",
                    "ask 30 n 2 -> Accepted(1), 2",
                    "alive 50 n s1 class=1 -> Took(2), 2",
                    "tick 60 -> Passed, 1",
                ],
            ),
            (
                "a class that names none opens a new link",
                "places=2",
                &[
                    "ask 0 n 1 -> Accepted(0), 1",
                    "alive 1 n s1 class=7 -> Opened, 2",
                ],
            ),
            (
                "not one at another access server",
                "places=2",
                &[
                    "ask 0 n1 1 -> Accepted(0), 1",
                    "alive 1 n2 s1 class=0 -> Opened, 2",
                    "alive 2 n2 s2 -> Over, 2",
                    "ask 3 n1 2 -> Refused, 2",
                ],
            ),
            (
                "an access server of the same name at another client is another",
                "places=2",
                &[
                    "ask 0 1:n 1 -> Accepted(0), 1",
                    "alive 1 2:n s1 -> Opened, 2",
                    "alive 2 1:n s1 -> Took(1), 2",
                    "stop 3 2:n s1 -> Passed, 1",
                ],
            ),
        ],
    )
}

#[test]
fn stopped_sessions_stay_closed(rt: HostRuntime) -> Result<(), Fail> {
    check(
        &rt,
        &[
            (
                "a late start is ignored",
                "places=1",
                &[
                    "ask 0 n 1 -> Accepted(0), 1",
                    "alive 1 n s1 class=0 -> Took(1), 1",
                    "stop 2 n s1 -> Passed, 0",
                    "alive 3 n s1 -> Ignored, 0",
                ],
            ),
            (
                "up to the closed time",
                "places=1",
                &[
                    "stop 0 n s1 -> Passed, 0",
                    "alive 3599 n s1 -> Ignored, 0",
                    "alive 3600 n s1 -> Opened, 1",
                ],
            ),
            (
                "a stop that comes twice closes for longer",
                "places=1",
                &[
                    "alive 0 n s1 -> Opened, 1",
                    "stop 10 n s1 -> Passed, 0",
                    "stop 20 n s1 -> Passed, 0",
                    "alive 3610 n s1 -> Ignored, 0",
                    "alive 3619 n s1 -> Ignored, 0",
                    "alive 3620 n s1 -> Opened, 1",
                ],
            ),
        ],
    )
}

#[test]
fn the_last_sixteen_stops_are_kept(rt: HostRuntime) -> Result<(), Fail> {
    check(
        &rt,
        &[
            (
                "sixteen, and then one more",
                "places=1",
                &[
                    "stop 0 n s1 -> Passed, 0",
                    "stop 0 n s2 -> Passed, 0",
                    "stop 0 n s3 -> Passed, 0",
                    "stop 0 n s4 -> Passed, 0",
                    "stop 0 n s5 -> Passed, 0",
                    "stop 0 n s6 -> Passed, 0",
                    "stop 0 n s7 -> Passed, 0",
                    "stop 0 n s8 -> Passed, 0",
                    "stop 0 n s9 -> Passed, 0",
                    "stop 0 n s10 -> Passed, 0",
                    "stop 0 n s11 -> Passed, 0",
                    "stop 0 n s12 -> Passed, 0",
                    "stop 0 n s13 -> Passed, 0",
                    "stop 0 n s14 -> Passed, 0",
                    "stop 0 n s15 -> Passed, 0",
                    "stop 0 n s16 -> Passed, 0",
                    "alive 1 n s1 -> Ignored, 0",
                    "stop 1 n s17 -> Passed, 0",
                    "alive 1 n s1 -> Opened, 1",
                ],
            ),
            (
                "twice the same, swept and too old, they keep their places",
                "places=1 closed=10",
                &[
                    "stop 0 n s0 -> Passed, 0",
                    "stop 5 n s1 -> Passed, 0",
                    "stop 5 o s2 -> Passed, 0",
                    "sweep 5 o -> Passed, 0",
                    "stop 5 n s3 -> Passed, 0",
                    "stop 5 n s3 -> Passed, 0",
                    "stop 5 n s3 -> Passed, 0",
                    "stop 5 n s3 -> Passed, 0",
                    "stop 5 n s3 -> Passed, 0",
                    "stop 5 n s3 -> Passed, 0",
                    "stop 5 n s3 -> Passed, 0",
                    "stop 5 n s3 -> Passed, 0",
                    "stop 5 n s3 -> Passed, 0",
                    "stop 5 n s3 -> Passed, 0",
                    "stop 5 n s3 -> Passed, 0",
                    "stop 5 n s3 -> Passed, 0",
                    "stop 12 n s3 -> Passed, 0",
                    "stop 12 n s3 -> Passed, 0",
                    "alive 12 n s1 -> Ignored, 0",
                    "stop 12 n s3 -> Passed, 0",
                    "alive 12 n s1 -> Opened, 1",
                ],
            ),
        ],
    )
}

#[test]
fn sessions_stand_for_live_and_grace(rt: HostRuntime) -> Result<(), Fail> {
    check(
        &rt,
        &[
            (
                "and no longer",
                "places=1",
                &[
                    "alive 0 n s1 -> Opened, 1",
                    "tick 899 -> Passed, 1",
                    "tick 900 -> Passed, 1",
                    "tick 1799 -> Passed, 1",
                    "tick 1800 -> Passed, 0",
                ],
            ),
            (
                "from their last alive on",
                "places=1",
                &[
                    "alive 0 n s1 -> Opened, 1",
                    "alive 1799 n s1 -> Renewed(1), 1",
                    "tick 3598 -> Passed, 1",
                    "tick 3599 -> Passed, 0",
                ],
            ),
            (
                "a link lapses before an alive renews it",
                "places=2 ports=2",
                &[
                    "alive 0 n s1 multi=m -> Opened, 1",
                    "alive 1 n s2 multi=m -> Opened, 1",
                    "alive 1800 n s1 multi=k -> Opened, 2",
                ],
            ),
            (
                "an alive over the limit waits for a place",
                "places=1",
                &[
                    "alive 0 n1 s1 -> Opened, 1",
                    "alive 1 n2 s9 -> Over, 1",
                    "stop 2 n1 s1 -> Passed, 0",
                    "alive 3 n2 s9 -> Opened, 1",
                    "ask 4 n1 1 -> Refused, 1",
                ],
            ),
        ],
    )
}
