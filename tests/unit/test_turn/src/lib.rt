//! Tests of `rld_turn`, `rld_counts` and `rld_look`: what turns make of what waits at a port of memory, what a
//! watcher learns of it and counts, and what a loss of power leaves of their batches on a disk of
//! memory; and why logins are rejected. They are rows of text (`test_rows`). Expected values come
//! from the session rule, worked by hand, and the octets from Python's hashlib. Also of `rld_look`:
//! sockets, minutes and access servers.
#![tactic(auto)]

#[cfg(test)]
mod access_servers;
#[cfg(test)]
mod clock;
#[cfg(test)]
mod coming;
#[cfg(test)]
mod counted;
#[cfg(test)]
mod disk;
#[cfg(test)]
mod looks;
#[cfg(test)]
mod notes;
#[cfg(test)]
mod refused;
#[cfg(test)]
mod rejects;
#[cfg(test)]
mod turns;
