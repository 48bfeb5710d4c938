ghost use Rattle.std.specs.Prelude.{◌≡◌, ◌+◌, ◌<◌, ◌≤◌, ◌^◌};
ghost use Rattle.rsl_service.specs.Counted.{AddsUp, no_counts};
ghost use Rattle.rsl_service.specs.Turned.{counted, is_down};

/// What a receiver did.
#[derive(Clone, Copy, PartialEq, Eq)]
pub struct Counts {
    /// The turns: calls of the port's `receive`.
    pub turns: u64,
    /// The datagrams that were received: the sum of the four below.
    pub received: u64,
    /// The datagrams whose reply was sent.
    pub answered: u64,
    /// The datagrams that were dropped for a cause of their own.
    pub dropped: u64,
    /// The datagrams without an answer because memory was refused, or a shard has made 2^64 - 1
    /// moves.
    pub refused: u64,
    /// The datagrams whose reply could not be sent. Their moves stand.
    pub unsent: u64,
}

impl Counts {
    /// The counts before the first turn.
    pub(crate) fn new() -> Counts
        ensures { result ≡ no_counts }
    {
        Counts {
            turns: 0,
            received: 0,
            answered: 0,
            dropped: 0,
            refused: 0,
            unsent: 0,
        }
    }

    /// Counts a turn.
    pub(crate) fn count(&mut self, turn: Turn)
        requires room { self.old.turns + 1 < 2 ^ 64 }
        requires received { self.old.received ≤ self.old.turns }
        requires sum { AddsUp self.old }
        ensures { self.new ≡ counted turn self.old }
    {
        self.turns += 1;
        match turn {
            Turn::Down | Turn::Nothing => return,
            Turn::Dropped => self.dropped += 1,
            Turn::Refused => self.refused += 1,
            Turn::Answered => self.answered += 1,
            Turn::Unsent => self.unsent += 1,
        }
        self.received += 1;
    }
}

/// How a turn of a receiver ended.
#[derive(Clone, Copy)]
pub(crate) enum Turn {
    /// The port's `receive` failed.
    Down,
    /// No datagram came.
    Nothing,
    /// A datagram came and was dropped.
    Dropped,
    /// A datagram came and has no answer: memory was refused, or a shard has made 2^64 - 1 moves.
    Refused,
    /// A datagram came, and its answer was sent.
    Answered,
    /// A datagram came, and its answer could not be sent.
    Unsent,
}

impl Turn {
    /// Whether the port's `receive` failed.
    pub(crate) fn is_down(self) -> bool
        ensures { result ≡ is_down self }
    {
        match self {
            Turn::Down => true,
            Turn::Nothing => false,
            Turn::Dropped => false,
            Turn::Refused => false,
            Turn::Answered => false,
            Turn::Unsent => false,
        }
    }
}
