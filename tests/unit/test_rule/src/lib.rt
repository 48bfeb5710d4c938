//! Tests of the public calls of `rsl_rule`: timelines of an account, each line with what the event
//! did and the places held after it, and random lists of events, by `rsl_rule` and on the books of
//! `rsl_book`, which must agree. And tests of what is kept of a server's moves: the journal of a
//! shard, the audit of its record, and the settling of receipts with the journals of all shards.
//! What is expected was worked out by hand from the session rule.
#![tactic(auto)]

#[cfg(test)]
mod audit;
#[cfg(test)]
mod journals;
#[cfg(test)]
mod lists;
#[cfg(test)]
mod outcomes;
#[cfg(test)]
mod records;
#[cfg(test)]
mod rule;
#[cfg(test)]
mod settle;
