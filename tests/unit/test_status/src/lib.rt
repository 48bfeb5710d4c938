//! Tests of `status_answer` of `rld_turn`: rows of text, as `test_rows` has them.
#![tactic(auto)]

#[cfg(test)]
mod status;
