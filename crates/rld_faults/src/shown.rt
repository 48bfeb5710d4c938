use rsl_wire::NoMemory;
use std::alloc::Global;
use toml::Value;

/// The most octets of a text that a sentence shows.
const MOST: usize = 80;

/// A value in a sentence: a number, a truth value or a short text as it is, and else what it is.
pub(crate) fn shown(alloc: Global, value: &Value) -> Result<String, NoMemory> {
    if let Some(number) = value.as_integer() {
        return Ok(format!(in alloc; "{number}")?);
    }
    if let Some(flag) = value.as_bool() {
        return Ok(format!(in alloc; "{flag}")?);
    }
    match value.as_str() {
        Some(text) if text.len() <= MOST => Ok(format!(in alloc; "{text:?}")?),
        Some(text) => {
            let len = text.len();
            Ok(format!(in alloc; "a text of {len} octets")?)
        }
        None => Ok(String::from_str(alloc, what(value))?),
    }
}

/// What a value is.
fn what(value: &Value) -> &'static str {
    if value.is_array() {
        "a list"
    } else if value.is_table() {
        "a table"
    } else if value.is_float() {
        "a number with a fraction"
    } else {
        "a date or a time"
    }
}
