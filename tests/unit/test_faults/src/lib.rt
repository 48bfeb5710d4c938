//! Tests of `rld_faults`: what is said of a wrong file, and on which lines, as rows of text.
#![tactic(auto)]

#[cfg(test)]
mod accounts;
#[cfg(test)]
mod outlines;
#[cfg(test)]
mod server;
#[cfg(test)]
mod texts;
