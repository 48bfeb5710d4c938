use crate::request::{AccessRequest, AccountingRequest};
use rsl_event::Port;
use rsl_wire::Octets;

/// A line of a script that says what happens, and when.
#[derive(Drop)]
pub struct EventLine {
    /// The moment, in seconds. A later line may have a lower moment.
    pub moment: u64,
    /// What happens.
    pub happening: Happening,
}

/// What happens on a line.
#[derive(Drop)]
pub enum Happening {
    /// An Access-Request comes: `ask` or `chap`.
    Access {
        /// The address of its source.
        address: [u8; 4],
        /// The request.
        request: AccessRequest,
    },
    /// An Accounting-Request comes: `start`, `interim`, `stop`, `on` or `off`.
    Accounting {
        /// The address of its source.
        address: [u8; 4],
        /// The request.
        request: AccountingRequest,
    },
    /// A datagram of given octets comes: `raw-auth` or `raw-acct`.
    Raw {
        /// The address of its source.
        address: [u8; 4],
        /// The port that it comes to.
        port: Port,
        /// Its octets.
        octets: Octets,
    },
    /// Time passes: `tick`.
    Tick,
}
