//! Reading a moment that somebody names.

ghost use Rattle.std.specs.Prelude.{◌≡◌, IfOk, IfSome, IsTrue, List, ℕ};
ghost use Rattle.std.specs.List.{list_all};
ghost use Rattle.rld_export.specs.Moments.{IsNamed, is_digit, number_in, printed};
ghost use Rattle.rld_values.specs.Dates.{AreDates};

use rld_values::push_date;
use rsl_wire::NoMemory;
use std::alloc::Global;

/// The days of a year before each of its months, if it is no leap year.
const DAYS_BEFORE: [u64; 12] = [0, 31, 59, 90, 120, 151, 181, 212, 243, 273, 304, 334];

/// The number of decimal digits, or `None` if they are none, or over 2^64 - 1.
fn number_of(digits: &[u8]) -> Option<u64>
    ensures number { IfSome result (λ number. number ≡ number_in digits.now) }
    ensures digits { IfSome result (λ _. IsTrue (list_all is_digit digits.now)) }
{
    let mut number = 0u64;
    for octet in digits {
        let digit = match *octet {
            b'0'..=b'9' => *octet - b'0',
            _ => return None,
        };
        number = number.checked_mul(10)?.checked_add(digit as u64)?;
    }
    Some(number)
}

/// How many years before this one are leap years.
fn leap_years(year: u64) -> u64 {
    let last = year.saturating_sub(1);
    (last / 4)
        .saturating_sub(last / 100)
        .saturating_add(last / 400)
}

/// The days of February 29 in a year before the first of a month.
fn leap_day(year: u64, month: u64) -> u64 {
    if month > 2 && year % 4 == 0 && (year % 100 != 0 || year % 400 == 0) {
        1
    } else {
        0
    }
}

/// The days from 1970 to a date.
fn days_to(year: u64, month: u64, day: u64) -> Option<u64> {
    let before = DAYS_BEFORE.get(month.checked_sub(1)? as usize)?;
    year.checked_sub(1970)?
        .checked_mul(365)?
        .checked_add(leap_years(year).checked_sub(leap_years(1970))?)?
        .checked_add(*before)?
        .checked_add(leap_day(year, month))?
        .checked_add(day.checked_sub(1)?)
}

/// The seconds of a time of day.
fn seconds_of(time: &[u8]) -> Option<u64> {
    let hours = number_of(time.get(0..2)?)?;
    let minutes = number_of(time.get(3..5)?)?;
    let seconds = number_of(time.get(6..8)?)?;
    hours
        .checked_mul(60)?
        .checked_add(minutes)?
        .checked_mul(60)?
        .checked_add(seconds)
}

/// The only second that may have this date and time.
fn guess(text: &[u8]) -> Option<u64> {
    let year = number_of(text.get(0..4)?)?;
    let month = number_of(text.get(5..7)?)?;
    let day = number_of(text.get(8..10)?)?;
    days_to(year, month, day)?
        .checked_mul(86_400)?
        .checked_add(seconds_of(text.get(11..19)?)?)
}

/// The second since 1970 of a date and a time of UTC as they are printed, such as
/// `2026-11-26 18:20:00`, or `None` if no second has it.
fn second_of(alloc: Global, text: &str) -> Result<Option<u64>, NoMemory>
    ensures { IfOk result (λ found. IfSome found (λ second. (dates : ℕ → List ℕ) → AreDates dates →
        text.now ≡ printed dates second)) }
{
    let Some(second) = guess(text.as_bytes()) else {
        return Ok(None);
    };
    let mut date = Vec::new(alloc);
    push_date(&mut date, second)?;
    if date.as_slice() == text.as_bytes() {
        Ok(Some(second))
    } else {
        Ok(None)
    }
}

/// The second since 1970 that a text names: a date and a time of UTC as they are printed, such as
/// `2026-11-26 18:20:00`; a date alone, for its first second; or the number of the second. `None`
/// if it names none. It fails only if memory is refused.
pub fn read_moment(alloc: Global, text: &str) -> Result<Option<u64>, NoMemory>
    ensures { IfOk result (λ found. IfSome found (λ second. (dates : ℕ → List ℕ) → AreDates dates →
        IsNamed dates text.now second)) }
{
    match text.len() {
        0 => Ok(None),
        10 if text.as_bytes()[4] == b'-' => {
            let mut whole = String::from_str(alloc, text)?;
            whole.push_str(" 00:00:00")?;
            second_of(alloc, whole.as_str())
        }
        19 if text.as_bytes()[4] == b'-' => second_of(alloc, text),
        _ => Ok(number_of(text.as_bytes())),
    }
}
