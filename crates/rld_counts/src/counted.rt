ghost use Rattle.std.specs.Prelude.{◌≡◌};
ghost use Rattle.rld_counts.specs.Counted.{counted_of, within};
ghost use Rattle.rld_turn.specs.Told.{told_as};

use crate::fate::Fate;
use crate::gate::Gate;
use rld_turn::Ended;

/// What is counted of a datagram that has ended.
#[derive(Clone, Copy)]
pub struct Counted {
    /// How it ended.
    pub fate: Fate,
    /// The number of the client with its source's address, if there is one.
    pub client: Option<u32>,
    /// The time of its answer in microseconds, if it was answered.
    pub micros: Option<u64>,
}

impl Counted {
    /// What is counted of a datagram that came to this gate, by what a watcher learns of it: no time yet.
    pub fn of(gate: Gate, ended: &Ended<'_>) -> Counted
        ensures { result ≡ counted_of gate (told_as ended.now) }
    {
        Counted {
            fate: Fate::of(gate, ended),
            client: ended.client,
            micros: None,
        }
    }

    /// The same of one that ended within `micros` microseconds: its time, if it was answered.
    pub fn within(self, micros: Option<u64>) -> Counted
        ensures { result ≡ within micros self }
    {
        Counted {
            micros: if self.fate.cause.kind().is_answer() {
                micros
            } else {
                None
            },
            ..self
        }
    }
}
