//! How a log is opened.

use crate::problem::Problem;
use rld_log::{Frames, Log, mend};
use std::alloc::Global;

/// Reads a log, cuts off its torn end and syncs it. A damaged log is left as it is.
pub fn open<L: Log>(alloc: Global, log: &mut L) -> Result<Frames, Problem> {
    let frames = Frames::of(log.read(alloc)?)?;
    mend(log, frames.whole())?;
    Ok(frames)
}
