//! What a core dump of the process has.

use std::fs::{File, Files, OpenOptions};
use std::io::Write;

/// Where the system is told which kinds of memory a core dump of this process has (core(5)).
const FILTER: &str = "/proc/self/coredump_filter";

/// Asks the system to leave all memory of the process out of a core dump: it has secrets and passwords. Where the
/// system refuses, as without /proc, the server runs all the same.
pub(crate) fn leave_memory_out<F: Files<File = File>>(files: &F) {
    if let Ok(mut filter) = OpenOptions::new().write(true).open(files, FILTER) {
        let _ = filter.write_all(b"0");
    }
}
