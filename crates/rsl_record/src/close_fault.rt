ghost use Rattle.std.specs.Prelude.{◌≡◌};
ghost use Rattle.rsl_record.specs.declared.close_fault.CloseFault.TheVariants.{NoMemory as no_memory};

use rsl_wire::NoMemory;
use std::fmt;

/// Why a record is not settled, or that memory was refused.
#[derive(Clone, Copy, Debug)]
pub enum CloseFault {
    /// More or fewer passes are given than were opened.
    MissingPass,
    /// The segments of this shard do not join from its new books, in the order given, or have a
    /// move that it does not take, or there is no such shard. It is the lowest such number.
    MissingSegment {
        /// The shard's number.
        shard: u32,
    },
    /// The receipt at this position is not the line there, or not the only receipt of it, or an
    /// earlier receipt of its pass has the same or a later position of this shard.
    Mismatch {
        /// The shard's number.
        shard: u32,
        /// The line's position, counted from 0 over all segments of the shard.
        position: u64,
    },
    /// Memory was refused.
    NoMemory,
}

impl From<NoMemory> for CloseFault {
    ghost from_gives = { λ _ fault. fault ≡ no_memory };

    fn from(_refused: NoMemory) -> CloseFault {
        CloseFault::NoMemory
    }
}

impl fmt::Display for CloseFault {
    ghost use Rattle.std.specs.Prelude.{Some};
    ghost use Rattle.rsl_record.specs.FaultText.{fault_text};

    ghost output = { λ fault. Some (fault_text fault) };

    /// Writes what is missing or wrong, and where.
    fn fmt<W: fmt::Write>(&self, f: &mut fmt::Formatter<W>) -> fmt::Result {
        match self {
            CloseFault::MissingPass => f.write_str("missing pass"),
            CloseFault::MissingSegment { shard } => {
                write!(f, "missing segment of shard {shard}")
            }
            CloseFault::Mismatch { shard, position } => {
                write!(f, "mismatch at {position} of shard {shard}")
            }
            CloseFault::NoMemory => f.write_str("no memory"),
        }
    }
}
