use crate::session::Session;
use rsl_event::{Decision, Key, Nas};

/// How many of the last fresh asks can be repeated.
pub const KEPT_ASKS: usize = 8;

/// How many of the last stops can close a session.
pub const KEPT_STOPS: usize = 16;

// The definitions write these numbers of the rule out.
const _: () = prove!(KEPT_ASKS == 8);

const _: () = prove!(KEPT_STOPS == 16);

/// A fresh ask, kept for its repeats.
#[derive(PartialEq, Eq, Drop)]
pub struct KeptAsk {
    /// The key of the ask.
    pub key: Key,
    /// The access server that asked.
    pub nas: Nas,
    /// The decision.
    pub decision: Decision,
    /// The account's clock when it came.
    pub at: u64,
    /// Whether a sweep voided it.
    pub swept: bool,
}

/// A stop, kept to ignore late packets of its session.
#[derive(PartialEq, Eq, Drop)]
pub struct KeptStop {
    /// The session that was stopped.
    pub session: Session,
    /// The account's clock when the stop came.
    pub at: u64,
    /// Whether a sweep voided it.
    pub swept: bool,
}
