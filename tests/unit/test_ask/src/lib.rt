//! Tests of the public calls of `rld_ask` and `rld_attributes`: rows of text, as `test_rows` has them.
#![tactic(auto)]

#[cfg(test)]
mod attributes;
#[cfg(test)]
mod forms;
#[cfg(test)]
mod replies;
