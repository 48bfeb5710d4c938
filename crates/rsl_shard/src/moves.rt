ghost use Rattle.std.specs.Prelude.{◌≡◌};
ghost use Rattle.rsl_event.specs.Prepared.{HasAccount, HasOwnAct};
ghost use Rattle.rsl_shard.specs.Moves.{AreTaken, moves_of};

use crate::moved::Move;
use rsl_accounts::Config;
use rsl_event::{Event, Meaning};

/// The moves that a datagram makes, from its meaning.
#[derive(Drop)]
pub enum Moves {
    /// None: the datagram is answered, and changes and notes nothing.
    Nothing,
    /// A move of one shard.
    One {
        /// The number of the shard.
        shard: u32,
        /// The move.
        moved: Move,
    },
    /// A move that every shard makes.
    Each(Move),
}

impl Moves {
    /// The moves of a meaning that came at a moment, in seconds: an own act moves the account's
    /// shard, a stray shard 0, and a restart sweeps every shard. A reject moves none.
    ///
    /// The meaning is moved in, so nothing is copied or allocated.
    pub fn of(config: &Config, moment: u64, meaning: Meaning) -> Moves
        requires account { HasAccount config.now meaning }
        requires act { HasOwnAct meaning }
        ensures moves { result ≡ moves_of config.now moment meaning }
        ensures taken { AreTaken config.now result }
    {
        match meaning {
            Meaning::Own { account, act } => Moves::One {
                shard: config.shard_of(account),
                moved: Move::Own {
                    account,
                    event: Event { moment, act },
                },
            },
            // Account 0 is one of shard 0, which every configuration has.
            Meaning::Stray(note) => Moves::One {
                shard: config.shard_of(0),
                moved: Move::Stray { moment, note },
            },
            Meaning::Restart { nas, delay } => Moves::Each(Move::Sweep { moment, nas, delay }),
            Meaning::Bare | Meaning::Reject => Moves::Nothing,
        }
    }
}
