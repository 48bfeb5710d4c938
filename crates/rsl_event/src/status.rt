ghost use Rattle.std.specs.Prelude.{◌≡◌, Some};
ghost use Rattle.rsl_event.specs.Status.{status_number, status_of};

use crate::codes::{ACCOUNTING_OFF, ACCOUNTING_ON, INTERIM_UPDATE, START, STOP};

/// What an Accounting-Request reports, by its Acct-Status-Type (RFC 2866 section 5.1).
#[derive(Clone, Copy)]
pub enum Status {
    /// A session begins.
    Start,
    /// A session has ended.
    Stop,
    /// A session goes on.
    InterimUpdate,
    /// The access server has started.
    AccountingOn,
    /// The access server is about to stop.
    AccountingOff,
}

impl Status {
    /// The status with this number, or `None` for any other number.
    pub fn from_number(number: u32) -> Option<Status>
        ensures { result ≡ status_of number }
    {
        match number {
            START => Some(Status::Start),
            STOP => Some(Status::Stop),
            INTERIM_UPDATE => Some(Status::InterimUpdate),
            ACCOUNTING_ON => Some(Status::AccountingOn),
            ACCOUNTING_OFF => Some(Status::AccountingOff),
            _ => None,
        }
    }

    /// The number of the status, which `from_number` reads.
    pub fn number(self) -> u32
        ensures number { result ≡ status_number self }
        ensures again { status_of result ≡ Some self }
    {
        match self {
            Status::Start => START,
            Status::Stop => STOP,
            Status::InterimUpdate => INTERIM_UPDATE,
            Status::AccountingOn => ACCOUNTING_ON,
            Status::AccountingOff => ACCOUNTING_OFF,
        }
    }
}
