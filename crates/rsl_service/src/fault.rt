ghost use Rattle.std.specs.Prelude.{◌≡◌};
ghost use Rattle.rsl_service.specs.Applied.{fault_after, swept_before};
ghost use Rattle.rsl_service.specs.declared.fault.CutFault.TheVariants.{NoMemory as no_memory};
ghost use Rattle.rsl_service.specs.declared.fault.StepFault.TheVariants.{NoMemory as no_room};

use rsl_wire::NoMemory;
use std::alloc::AllocError;

/// Why a step was not made.
#[derive(Clone, Copy, Drop)]
pub(crate) enum StepFault {
    /// Memory was refused.
    NoMemory,
    /// The shard has made 2^64 - 1 moves.
    Spent,
}

impl From<NoMemory> for StepFault {
    ghost from_gives = { λ _ fault. fault ≡ no_room };

    fn from(_refused: NoMemory) -> StepFault {
        StepFault::NoMemory
    }
}

impl From<AllocError> for StepFault {
    ghost from_gives = { λ _ fault. fault ≡ no_room };

    fn from(_refused: AllocError) -> StepFault {
        StepFault::NoMemory
    }
}

/// Why a pass was not opened.
#[derive(Clone, Copy, Debug, Drop)]
pub enum PassFault {
    /// 1,024 passes were opened.
    TooMany,
    /// Memory was refused.
    NoMemory,
}

/// Why a journal was not handed out.
#[derive(Clone, Copy, Debug, Drop)]
pub enum CutFault {
    /// The configuration has no shard of this number.
    NoShard,
    /// Memory was refused. The journal is as it was.
    NoMemory,
}

impl From<NoMemory> for CutFault {
    ghost from_gives = { λ _ fault. fault ≡ no_memory };

    fn from(_refused: NoMemory) -> CutFault {
        CutFault::NoMemory
    }
}

/// Why a datagram was not answered, or a tick not made in every shard.
///
/// A restart or a tick had moved `swept` shards by then, from shard 0 on; those moves stand, each
/// with its receipt. All else is as it was.
#[derive(Clone, Copy, Debug, Drop)]
pub enum ApplyFault {
    /// Memory was refused.
    NoMemory {
        /// The number of shards that had made their moves.
        swept: u32,
    },
    /// A shard has made 2^64 - 1 moves.
    Spent {
        /// The number of shards that had made their moves.
        swept: u32,
    },
}

impl StepFault {
    /// The fault after `swept` shards had made their moves.
    pub(crate) fn after(self, swept: u32) -> ApplyFault
        ensures fault { result ≡ fault_after swept self }
        ensures swept { swept_before result ≡ swept }
    {
        match self {
            StepFault::NoMemory => ApplyFault::NoMemory { swept },
            StepFault::Spent => ApplyFault::Spent { swept },
        }
    }
}
