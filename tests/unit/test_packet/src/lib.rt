//! Tests of the public calls of `rsl_wire`, `rsl_auth`, `rsl_accounts` and `rsl_event`, and of the
//! Disconnect-Requests of `rld_control`, a file a library: rows of text, as `test_rows` has them. Octets
//! come from outside: the RFCs, and Python's hashlib and hmac.
#![tactic(auto)]

#[cfg(test)]
mod accounts;
#[cfg(test)]
mod auth;
#[cfg(test)]
mod disconnect;
#[cfg(test)]
mod event;
#[cfg(test)]
mod reply;
#[cfg(test)]
mod wire;
