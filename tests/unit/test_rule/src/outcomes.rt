//! Outcomes as texts, in the layout of a derived `Debug`.

use rsl_session::Outcome;
use std::test::Fail;
use test_timelines::push_value;

/// Adds an outcome to a text.
pub(crate) fn push_outcome(text: &mut String, outcome: &Outcome) -> Result<(), Fail> {
    match outcome {
        Outcome::Accepted(number) => push_value(text, "Accepted(", number, ")"),
        Outcome::AcceptedInPlace { number, yielded } => {
            push_value(text, "AcceptedInPlace { number: ", number, "")?;
            push_value(text, ", yielded: ", yielded, " }")
        }
        Outcome::Refused => Ok(text.push_str("Refused")?),
        Outcome::Repeated(decision) => push_value(text, "Repeated(", decision, ")"),
        Outcome::Opened => Ok(text.push_str("Opened")?),
        Outcome::Took(link) => push_value(text, "Took(", link, ")"),
        Outcome::Renewed(link) => push_value(text, "Renewed(", link, ")"),
        Outcome::Ignored => Ok(text.push_str("Ignored")?),
        Outcome::Over => Ok(text.push_str("Over")?),
        Outcome::Passed => Ok(text.push_str("Passed")?),
    }
}
