//! Tests of the receivers of `rsl_service` and of `rsl_serve`: what receivers and the worker that makes ticks make of a
//! service over a port of memory, as rows of text (`test_rows`); servers over sockets of this
//! machine, and how a server ends. Expected values come from the session rule, worked by hand, and
//! the octets from Python's hashlib; but the crowd's requests are made with `rsl_auth`.
#![tactic(auto)]

#[cfg(test)]
mod client;
#[cfg(test)]
mod crowd;
#[cfg(test)]
mod datagrams;
#[cfg(test)]
mod days;
#[cfg(test)]
mod endings;
#[cfg(test)]
mod fresh;
#[cfg(test)]
mod hostile;
#[cfg(test)]
mod requests;
#[cfg(test)]
mod scene;
#[cfg(test)]
mod socket;
#[cfg(test)]
mod watched;
#[cfg(test)]
mod workers;
