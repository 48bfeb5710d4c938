//! Tests of the public calls of the libraries over `rsl_event`, a file a library; those of
//! `rsl_rule`, `settle` and `audit` stand in `test_rule`, and those of a service and of what is
//! over it in `test_service` and `test_server`. Rows of text, as `test_rows` and `test_timelines` have them.
//! Expected values come from outside: the RFCs, the session rule, Python's hashlib and hmac. What a
//! script can show stands in `test_scripts`.
#![tactic(auto)]

#[cfg(test)]
mod book;
#[cfg(test)]
mod cuts;
#[cfg(test)]
mod replay;
#[cfg(test)]
mod report;
#[cfg(test)]
mod saved;
#[cfg(test)]
mod script;
#[cfg(test)]
mod server_books;
#[cfg(test)]
mod shards;
#[cfg(test)]
mod shards_of_a_run;
#[cfg(test)]
mod steps;
