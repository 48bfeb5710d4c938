//! Tests of `rsl_service`: the life of a service, as rows of text (`test_rows`), and services that
//! threads use at once. Expected values come from the session rule, worked by hand; the requests
//! are made with `rsl_auth`.
#![tactic(auto)]

#[cfg(test)]
mod lives;
#[cfg(test)]
mod packets;
#[cfg(test)]
mod threads;
