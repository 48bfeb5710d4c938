//! Tests of the public calls of `rld_config`: rows of text, as `test_rows` has them.
//! The fields of a row are the lines of a server's file.
#![tactic(auto)]

#[cfg(test)]
mod account_replies;
#[cfg(test)]
mod breaks;
#[cfg(test)]
mod networks;
#[cfg(test)]
mod paths;
#[cfg(test)]
mod server_file;
#[cfg(test)]
mod texts;
#[cfg(test)]
mod warned;
