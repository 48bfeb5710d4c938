//! A log that a crash cannot cheat: a file to which payloads are appended, each in a frame, with a
//! pace that says when a sync reaches the disk: each time, once a second, or never. Read
//! `specs/Log.antt` first, then `specs/Frames.antt`, `specs/Recording.antt` and
//! `specs/Pacing.antt`. It promises:
//! - Once a record has returned, every crash leaves its payload behind those before it (`record`:
//!   `recorded`). A crash in a call leaves those before, with it or without (`record`: `crash`).
//! - A file is read up to a torn end; damage is named by its offset (`Frames::of`: `octets`,
//!   `damage`).
//! - No frame stands in one whose write a kill cut short (`laws::kills_are_detected`). That no torn
//!   write passes MD5 by chance at a loss of power is a premise, `Detects`.
//! - With a pace of a second, or never, each statement on a crash is on a kill (`PacedLog`: `Log`).
//!
//! This is over a log that tells, as `MemoryLog` does. That a file is one is trusted (`file.rt`). A
//! spoilt last frame, or a length that leads to no frame, looks torn. By tests alone: a file at a
//! kill (`tests/programs/killed-log.py`), and what syncs (`test_log`). Power was never cut.
#![tactic(auto)]

mod fault;
mod file;
mod frame;
pub mod laws;
mod log;
mod memory;
mod pace;
mod paced_log;
mod reading;
mod recording;
mod ticks;

pub use fault::{Damage, LogFault};
pub use file::FileLog;
pub use frame::{HEAD_LEN, frame_of, leave_head};
pub use log::{Crash, Ending, Log};
pub use memory::{Life, MemoryLog};
pub use pace::{Pace, Pacing};
pub use paced_log::PacedLog;
pub use reading::Frames;
pub use recording::{mend, record, record_in_place, write};
pub use ticks::Ticks;
