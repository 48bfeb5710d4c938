ghost use Rattle.std.specs.Prelude.{◌≡◌, IfOk};

use rsl_event::{Event, Nas, Note};
use rsl_wire::NoMemory;
use std::alloc::Global;

/// What happens to a shard, in one step.
#[derive(PartialEq, Eq, Drop)]
pub enum Move {
    /// An event of one account: an ask, an alive or a stop.
    Own {
        /// The account's number.
        account: u32,
        /// The event.
        event: Event,
    },
    /// An access server has restarted, for every account of the shard.
    Sweep {
        /// The moment, in seconds.
        moment: u64,
        /// The access server.
        nas: Nas,
        /// How many seconds ago it restarted.
        delay: u64,
    },
    /// Time has passed, for every account of the shard.
    Tick {
        /// The moment, in seconds.
        moment: u64,
    },
    /// A packet of no account, which is noted and changes no book.
    Stray {
        /// The moment, in seconds.
        moment: u64,
        /// The note.
        note: Note,
    },
}

impl Move {
    /// An equal move. It fails only if memory is refused.
    pub fn try_copy(&self, alloc: Global) -> Result<Move, NoMemory>
        ensures { IfOk result (λ copy. copy ≡ self.now) }
    {
        Ok(match self {
            Move::Own { account, event } => Move::Own {
                account: *account,
                event: event.try_copy(alloc)?,
            },
            Move::Sweep { moment, nas, delay } => Move::Sweep {
                moment: *moment,
                nas: nas.try_copy(alloc)?,
                delay: *delay,
            },
            Move::Tick { moment } => Move::Tick { moment: *moment },
            Move::Stray { moment, note } => Move::Stray {
                moment: *moment,
                note: note.try_copy(alloc)?,
            },
        })
    }
}
