use crate::basis::Basis;
use rsl_event::Decision;
use std::marker::Model;

/// The decisions on a recorded batch, in the order of its moves. Only `Store::commit` makes one, so
/// what is answered from it is on the disk.
///
/// A contract also sees the batch and the books before it, from which the decisions follow, and the
/// number of the table to which the batch belongs.
#[derive(Drop)]
pub struct Recorded {
    basis: Basis,
    decisions: Vec<Decision>,
    table: u64,
}

impl Model for Recorded {
    ghost use Rattle.rld_store.specs.Recorded.{AreDecided, RecordedSeen};

    ghost Value = { RecordedSeen };

    ghost view = { λ inside. record {
      batch = inside.basis.batch;
      before = inside.basis.before;
      decisions = inside.decisions.items;
      table = inside.table;
    } };

    ghost invariant = { λ inside. AreDecided (record {
      batch = inside.basis.batch;
      before = inside.basis.before;
      decisions = inside.decisions.items;
      table = inside.table;
    }) };
}

impl Recorded {
    ghost use Rattle.std.specs.Prelude.{◌≡◌};
    ghost use Rattle.rld_books.specs.Server.{AreTakenIn, decisions_of};
    ghost use Rattle.rld_store.specs.Recorded.{AreDecided};

    /// The decisions on a batch of the table of this number.
    pub(crate) fn new(basis: Basis, decisions: Vec<Decision>, table: u64) -> Recorded
        requires taken { AreTakenIn basis.before basis.batch }
        requires decided { decisions.items ≡ decisions_of basis.before basis.batch }
        ensures { result ≡ record {
          batch = basis.batch;
          before = basis.before;
          decisions = decisions.items;
          table = table;
        } }
    {
        Recorded {
            basis,
            decisions,
            table,
        }
    }

    /// The decisions, in the order of the batch's moves.
    pub fn decisions(&self) -> &[Decision]
        ensures same { result.now ≡ self.now.decisions }
        ensures decided { AreDecided self.now }
    {
        self.decisions.as_slice()
    }
}
