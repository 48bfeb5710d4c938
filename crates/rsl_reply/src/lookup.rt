//! What rows have, found from the first on.
ghost use Rattle.std.specs.Prelude.{◌≡◌, map, option_copied, option_map};
ghost use Rattle.std.specs.Str.{str_eq_ignore_ascii_case};
ghost use Rattle.rsl_reply.specs.Dictionary.{attribute_in, name_in, value_in, value_name_in};

use crate::target::Target;
use rsl_accounts::Form;

/// The name and the form of the first row with these numbers.
pub(crate) fn name_in<'a>(
    mut rows: &[(&'a str, u32, u8, Form)],
    vendor: u32,
    number: u8,
) -> Option<(&'a str, Form)>
    ensures { option_map (λ found. (found.0.now, found.1)) result ≡
        name_in (map (λ row. (row.0.now, row.1, row.2, row.3)) rows.entry.now) vendor number }
{
    while let [row, rest @ ..] = rows {
        if row.1 == vendor && row.2 == number {
            return Some((row.0, row.3));
        }
        rows = rest;
    }
    None
}

/// The name of the first row with these numbers and this value.
pub(crate) fn value_name_in<'a>(
    mut rows: &[(u32, u8, &'a str, u32)],
    vendor: u32,
    number: u8,
    value: u32,
) -> Option<&'a str>
    ensures { option_copied result ≡
        value_name_in (map (λ row. (row.0, row.1, row.2.now, row.3)) rows.entry.now)
        vendor number value }
{
    while let [row, rest @ ..] = rows {
        if row.0 == vendor && row.1 == number && row.3 == value {
            return Some(row.2);
        }
        rows = rest;
    }
    None
}

/// The attribute of the first row with this name.
pub(crate) fn attribute_in(mut rows: &[(&str, u32, u8, Form)], name: &str) -> Option<Target>
    ensures { result ≡
        attribute_in (map (λ row. (row.0.now, row.1, row.2, row.3)) rows.entry.now) name.now }
{
    while let [row, rest @ ..] = rows {
        if is_same_name(row.0, name) {
            return Some(Target {
                vendor: row.1,
                number: row.2,
                form: row.3,
                tag: 0,
            });
        }
        rows = rest;
    }
    None
}

/// The number of the first row with these numbers and this name.
pub(crate) fn value_in(
    mut rows: &[(u32, u8, &str, u32)],
    vendor: u32,
    number: u8,
    name: &str,
) -> Option<u32>
    ensures { result ≡
        value_in (map (λ row. (row.0, row.1, row.2.now, row.3)) rows.entry.now)
        vendor number name.now }
{
    while let [row, rest @ ..] = rows {
        if row.0 == vendor && row.1 == number && is_same_name(row.2, name) {
            return Some(row.3);
        }
        rows = rest;
    }
    None
}

/// Whether two names are one, in capitals or not.
fn is_same_name(one: &str, other: &str) -> bool
    ensures { result ≡ str_eq_ignore_ascii_case one.now other.now }
{
    one.eq_ignore_ascii_case(other)
}
