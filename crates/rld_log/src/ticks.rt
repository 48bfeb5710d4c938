use crate::fault::LogFault;
use std::sync::atomic::{AtomicBool, AtomicU64, Ordering};

/// The number of ticks of a server, and whether room is wanted on its disk: shared by its logs and the worker
/// that makes the ticks.
#[derive(Drop)]
pub struct Ticks {
    begun: AtomicU64,
    wants_room: AtomicBool,
}

impl Ticks {
    /// No tick, and no room that is wanted.
    pub fn new() -> Ticks {
        Ticks {
            begun: AtomicU64::new(0),
            wants_room: AtomicBool::new(false),
        }
    }

    /// Begins a tick: with `Pace::Second` the next sync of each log reaches the disk.
    pub fn begin(&self) {
        self.begun.fetch_add(1, Ordering::SeqCst);
    }

    /// The number of ticks so far.
    pub fn begun(&self) -> u64 {
        self.begun.load(Ordering::SeqCst)
    }

    /// Notes that the disk has had no room for what was to be written.
    pub fn want_room(&self) {
        self.wants_room.store(true, Ordering::SeqCst);
    }

    /// Notes a write that failed so.
    pub(crate) fn note(&self, fault: LogFault) {
        if let LogFault::NoRoom = fault {
            self.want_room();
        }
    }

    /// Whether the disk has had no room since the last call.
    pub fn take_wants_room(&self) -> bool {
        self.wants_room.swap(false, Ordering::SeqCst)
    }
}
