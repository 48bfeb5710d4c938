ghost use Rattle.std.specs.Prelude.{◌≡◌, ◌-◌, ◌^◌, ◌<◌, Some, length, slice_get, IfOk, OnErr};
ghost use Rattle.rsl_event.specs.Prepared.{HasAccount, HasOwnAct};
ghost use Rattle.rsl_shard.specs.Moves.{IsTaken};
ghost use Rattle.rsl_shard.specs.Seen.{ShardSeen, total_of};
ghost use Rattle.rsl_steps.specs.Taking.{AreReady, IsDecided, IsMovedAt};

use rsl_accounts::Config;
use rsl_event::{Decision, Meaning};
use rsl_shard::{Move, Moves, Shard};
use rsl_wire::NoMemory;
use std::alloc::Global;

/// Makes the moves of a meaning at a moment, and gives the decision. A restart's datagram moves no
/// shard: its sweeps are separate steps. If memory is refused, nothing has changed.
pub(crate) fn decide(
    alloc: Global,
    config: &Config,
    shards: &mut [Shard],
    moment: u64,
    meaning: Meaning,
) -> Result<Decision, NoMemory>
    requires ready { AreReady config.now shards.old }
    requires account { HasAccount config.now meaning }
    requires act { HasOwnAct meaning }
    ensures decided { IfOk result (λ decision.
        IsDecided config.now moment meaning decision shards.old shards.new) }
    ensures err { OnErr result (shards.new ≡ shards.old) }
{
    match Moves::of(config, moment, meaning) {
        Moves::One { shard, moved } => move_at(alloc, shards, shard, moved),
        Moves::Each(_) | Moves::Nothing => Ok(Decision::Done),
    }
}

/// Makes a move in one shard. Where memory is refused nothing has changed.
pub(crate) fn move_at(
    alloc: Global,
    shards: &mut [Shard],
    number: u32,
    moved: Move,
) -> Result<Decision, NoMemory>
    requires there { number < length shards.old }
    requires takes { (seen : ShardSeen) → slice_get shards.old number ≡ Some seen →
        IsTaken seen.setup moved }
    requires room { (seen : ShardSeen) → slice_get shards.old number ≡ Some seen →
        total_of seen < 2 ^ 64 - 1 }
    ensures moved { IfOk result (λ decision.
        IsMovedAt number moved decision shards.old shards.new) }
    ensures err { OnErr result (shards.new ≡ shards.old) }
{
    let index = number as usize;
    shards[index].step(alloc, moved)
}
