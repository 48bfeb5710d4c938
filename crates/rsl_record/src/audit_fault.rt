ghost use Rattle.std.specs.Prelude.{◌≡◌};
ghost use Rattle.rsl_record.specs.declared.audit_fault.AuditFault.TheVariants.{NoMemory as no_memory};

use rsl_wire::NoMemory;

/// Why a record was not kept right, or that memory was refused.
#[derive(Clone, Copy, Debug)]
pub enum AuditFault {
    /// The first segment is of no shard, or does not open with the new books of its shard and no
    /// line before it.
    NotFromEmpty,
    /// The segment with this number, counted from 0, does not follow the lines before it: it is of
    /// another shard, counts other lines before it, has 2^64 lines or more with those, or opens
    /// with other books.
    Gap {
        /// The segment's number, from 0.
        segment: u64,
    },
    /// The shard does not take the move of the line at this position, or its decision is not that
    /// of the session rule.
    WrongDecision {
        /// The account whose own move it is.
        account: Option<u32>,
        /// The line's position, counted from 0 over all segments.
        position: u64,
    },
    /// Memory was refused.
    NoMemory,
}

impl From<NoMemory> for AuditFault {
    ghost from_gives = { λ _ fault. fault ≡ no_memory };

    fn from(_refused: NoMemory) -> AuditFault {
        AuditFault::NoMemory
    }
}
