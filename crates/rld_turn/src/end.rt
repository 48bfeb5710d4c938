use rsl_event::{Dropped, Said};

/// How a datagram ended.
#[derive(Clone, Copy, Debug)]
pub enum End {
    /// It was dropped for this cause. It is never `NoMemory`, which becomes `Refused`.
    Dropped(Dropped),
    /// It has a meaning, but memory for it was refused.
    Refused,
    /// It has a move, but its batch was not recorded.
    Unrecorded,
    /// This answer was sent.
    Answered(Said),
    /// This answer could not be sent. What was recorded of the datagram stands.
    Unsent(Said),
}
