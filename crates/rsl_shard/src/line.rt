use crate::moved::Move;
use rsl_event::Decision;

/// A line of a journal: a move that was made, and its decision.
#[derive(Drop)]
pub struct Line {
    /// The move.
    pub moved: Move,
    /// The decision: `Done` for every move but an ask.
    pub decision: Decision,
}
