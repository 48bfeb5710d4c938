use crate::ticks::Ticks;

/// When a sync of a log reaches the disk.
#[derive(Clone, Copy)]
pub enum Pace {
    /// Each time.
    Always,
    /// The first time after each tick.
    Second,
    /// Only if a kill might undo something.
    Never,
}

/// When the logs of a server are synced to the disk.
#[derive(Clone, Copy)]
pub struct Pacing<'a> {
    /// The pace of every log.
    pub pace: Pace,
    /// The ticks of the server.
    pub ticks: &'a Ticks,
}
