//! Seconds in a line, as dates and as ages.

ghost use Rattle.std.specs.Prelude.{◌≡◌, ◌<◌, ◌++◌, List, OnOk, ℕ};
ghost use Rattle.rld_values.specs.Dates.{AreDates, age, clock, date_or_number, days_before, http_date, month_of, time_of, two_digits, year_first};

use crate::spelling::{push_decimal, push_text};
use httpdate::HttpDate;
use std::alloc::AllocError;

/// Seconds of a day.
const DAY_SECS: u64 = 86_400;

const _: () = prove!(DAY_SECS == 86_400);

/// The two digits of a month, by its HTTP name.
fn month_of(name: &[u8]) -> &'static str
    ensures { result.now ≡ month_of name.now }
{
    if name == b"Jan".as_slice() {
        "01"
    } else if name == b"Feb".as_slice() {
        "02"
    } else if name == b"Mar".as_slice() {
        "03"
    } else if name == b"Apr".as_slice() {
        "04"
    } else if name == b"May".as_slice() {
        "05"
    } else if name == b"Jun".as_slice() {
        "06"
    } else if name == b"Jul".as_slice() {
        "07"
    } else if name == b"Aug".as_slice() {
        "08"
    } else if name == b"Sep".as_slice() {
        "09"
    } else if name == b"Oct".as_slice() {
        "10"
    } else if name == b"Nov".as_slice() {
        "11"
    } else {
        "12"
    }
}

/// Writes the hours, minutes and seconds of an HTTP date.
fn push_time(out: &mut Vec<u8>, date: &[u8; 29]) -> Result<(), AllocError>
    ensures { OnOk result (out.new.items ≡ out.old.items ++ time_of date.now) }
{
    out.extend_from_slice(&date[17..25])
}

/// Writes an HTTP date with its year first, and its month as a number.
fn push_year_first(out: &mut Vec<u8>, date: &[u8; 29]) -> Result<(), AllocError>
    ensures { OnOk result (out.new.items ≡ out.old.items ++ year_first date.now) }
{
    out.extend_from_slice(&date[12..16])?;
    out.push(45)?;
    push_text(out, month_of(&date[8..11]))?;
    out.push(45)?;
    out.extend_from_slice(&date[5..7])?;
    out.push(32)?;
    push_time(out, date)
}

/// The HTTP date of a second since 1970, or `None` from the year 10000 on.
pub fn http_date(second: u64) -> Option<[u8; 29]>
    ensures { (dates : ℕ → List ℕ) → AreDates dates → result ≡ http_date dates second }
{
    match HttpDate::from_unix_secs(second) {
        Ok(date) => Some(date.to_bytes()),
        Err(_) => None,
    }
}

/// Writes a second since 1970 as a date and a time of UTC, such as `2026-11-26 18:20:00`, or from
/// the year 10000 on as a number. It fails only if memory is refused.
pub fn push_date(out: &mut Vec<u8>, second: u64) -> Result<(), AllocError>
    ensures { OnOk result ((dates : ℕ → List ℕ) → AreDates dates → out.new.items
        ≡ out.old.items ++ date_or_number (http_date dates second) second) }
{
    push_date_or_number(out, &http_date(second), second)
}

/// Writes a second by its date, or as a number if it has none.
fn push_date_or_number(
    out: &mut Vec<u8>,
    date: &Option<[u8; 29]>,
    second: u64,
) -> Result<(), AllocError>
    ensures { OnOk result (out.new.items ≡ out.old.items ++ date_or_number date.now second) }
{
    match date {
        Some(date) => push_year_first(out, date),
        None => push_decimal(out, second),
    }
}

/// Writes two digits of a number.
fn push_two_digits(out: &mut Vec<u8>, number: u64) -> Result<(), AllocError>
    requires { number < 100 }
    ensures { OnOk result (out.new.items ≡ out.old.items ++ two_digits number) }
{
    out.push(48 + (number / 10) as u8)?;
    out.push(48 + (number % 10) as u8)?;
    Ok(())
}

/// Writes the hour and the minute of a second since 1970, such as `18:20`. It fails only if memory
/// is refused.
pub fn push_clock(out: &mut Vec<u8>, second: u64) -> Result<(), AllocError>
    ensures { OnOk result (out.new.items ≡ out.old.items ++ clock second) }
{
    push_two_digits(out, second / 3_600 % 24)?;
    push_text(out, ":")?;
    push_two_digits(out, second / 60 % 60)
}

/// Writes the whole days of a number of seconds, if there are any.
fn push_days(out: &mut Vec<u8>, seconds: u64) -> Result<(), AllocError>
    ensures { OnOk result (out.new.items ≡ out.old.items ++ days_before seconds) }
{
    if seconds < DAY_SECS {
        return Ok(());
    }
    push_decimal(out, seconds / DAY_SECS)?;
    push_text(out, " d ")
}

/// Writes a number of seconds as days and a time, such as `3 d 02:11:09`. It fails only if memory
/// is refused.
#[tactic(auto, unfolding(crate::specs::Dates::age))]
pub fn push_age(out: &mut Vec<u8>, seconds: u64) -> Result<(), AllocError>
    ensures { OnOk result (out.new.items ≡ out.old.items ++ age seconds) }
{
    push_days(out, seconds)?;
    push_clock(out, seconds)?;
    push_text(out, ":")?;
    push_two_digits(out, seconds % 60)
}
