//! Where a text stops being TOML, as Python's tomllib says it too.

use crate::server_file::text_of;
use rld_config::{Place, break_of};
use std::alloc::Global;
use std::test::Fail;
use test_rows::{Subject, check_rows, printed};

/// The line and the column where lines stop being TOML.
struct Breaks;

impl Subject for Breaks {
    fn found(&self, alloc: Global, fields: &[&str]) -> Result<String, Fail> {
        let text = text_of(alloc, fields)?;
        printed(alloc, &break_of(alloc, text.as_bytes())?.map(pair))
    }
}

/// The line and the column.
fn pair(place: Place) -> (u64, u64) {
    (place.line, place.column)
}

#[test]
fn the_place_of_a_break_is_told(rt: HostRuntime) -> Result<(), Fail> {
    let rows = r#"
        nothing | None
        whole | accounts = "a" | None
        a sign alone | = | Some((1, 1))
        in the second line | a = 1 | = | Some((2, 1))
        no value | a = 1 | b = ? | Some((2, 5))
        behind letters of two octets | a = "äöü" ? | Some((1, 11))
    "#;
    check_rows(&rt, &Breaks, rows)?;
    let found = break_of(rt.alloc(), b"a = 1\nb\xff")?.map(pair);
    assert_eq!(rt; found, Some((2, 2)), "no UTF-8");
    Ok(())
}
