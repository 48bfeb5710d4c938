//! The faults of logs that a store refused.

use crate::fault::{StartFault, log_fault};
use crate::wrong::Wrong;
use rld_folder::{FileName, Generation};
use rld_store::StoreFault;

/// The fault of the log of a generation that a store refused.
pub(crate) fn log_refused(generation: Generation, fault: StoreFault) -> StartFault {
    let file = FileName::Log(generation);
    match (Wrong::of(fault), fault) {
        (Some(wrong), _) => StartFault::bad(file, wrong),
        (None, StoreFault::NoMemory) => StartFault::NoMemory,
        (None, StoreFault::Log(fault)) => log_fault(file, fault),
        (None, _) => StartFault::Unwritable(file),
    }
}
