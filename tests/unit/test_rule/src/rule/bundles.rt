//! Bundles of links, and the places that they take.

use crate::rule::check;
use std::test::Fail;

#[test]
fn bundles_take_a_place_for_each_ports(rt: HostRuntime) -> Result<(), Fail> {
    check(
        &rt,
        &[
            (
                "two links take one place, and three two",
                "places=2 ports=2",
                &[
                    "ask 0 n 1 -> Accepted(0), 1",
                    "alive 1 n s1 multi=m class=0 -> Took(1), 1",
                    "ask 2 n 2 -> Accepted(1), 2",
                    "alive 3 n s2 multi=m class=1 -> Took(3), 1",
                    "ask 4 n 3 -> Accepted(2), 2",
                    "alive 5 n s3 multi=m class=2 -> Took(5), 2",
                    "ask 6 n 4 -> Refused, 2",
                    "stop 7 n s1 -> Passed, 1",
                    "ask 8 n 5 -> Accepted(3), 2",
                ],
            ),
            (
                "a session joins one bundle, and stays",
                "places=2 ports=2",
                &[
                    "alive 0 n s1 multi=m -> Opened, 1",
                    "alive 1 n s2 -> Opened, 2",
                    "alive 2 n s2 multi=m -> Renewed(2), 1",
                    "alive 3 n s2 multi=k -> Renewed(2), 1",
                ],
            ),
            (
                "bundles of one name at two access servers are two",
                "places=4 ports=2",
                &[
                    "alive 0 n1 s1 multi=m -> Opened, 1",
                    "alive 0 n2 s1 multi=m -> Opened, 2",
                ],
            ),
        ],
    )
}
