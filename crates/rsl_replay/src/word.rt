use rsl_event::{Dropped, Said};
use std::fmt;

/// The word printed for an event line.
#[derive(Clone, Copy)]
pub(crate) enum Word {
    /// Its datagram was answered: `accept` and the accept number, `reject limit`, `reject` or
    /// `account`.
    Said(Said),
    /// Its datagram was dropped: `drop` and the name of the cause.
    Dropped(Dropped),
    /// Time has passed: `tick`.
    Tick,
    /// Memory was refused for one of its steps: `refused`.
    Refused,
}

impl fmt::Display for Word {
    ghost use Rattle.std.specs.Prelude.{Some};
    ghost use Rattle.rsl_replay.specs.Lines.{word_text};

    ghost output = { λ word. Some (word_text word) };

    fn fmt<W: fmt::Write>(&self, f: &mut fmt::Formatter<W>) -> fmt::Result {
        match self {
            Word::Said(Said::Accept(number)) => write!(f, "accept {number}"),
            Word::Said(Said::LimitReject) => write!(f, "reject limit"),
            Word::Said(Said::Reject) => write!(f, "reject"),
            Word::Said(Said::Account) => write!(f, "account"),
            Word::Dropped(dropped) => write!(f, "drop {dropped}"),
            Word::Tick => write!(f, "tick"),
            Word::Refused => write!(f, "refused"),
        }
    }
}
