ghost use Rattle.std.specs.Prelude.{◌≡◌, List};
ghost use Rattle.rld_books.specs.Server.{ServerSeen};
ghost use Rattle.rsl_shard.specs.declared.moved.Move.{Move as OneMove};

use rld_books::ServerBooks;
use rsl_shard::Move;
use std::marker::Model;

/// The basis of the decisions on a batch: the batch, and the books before it.
///
/// Contracts alone read it: it has no octets, and making one does nothing.
#[derive(Drop)]
pub(crate) struct Basis {
    ghost batch: { List OneMove },
    ghost before: { ServerSeen },
}

impl Model for Basis {
    ghost use Rattle.std.specs.Borrow.{ftrue};

    ghost also_owns = { λ _. ftrue };
}

impl Basis {
    /// The basis of this batch and these books.
    pub(crate) fn of(_batch: &Vec<Move>, _before: &ServerBooks) -> Basis
        ensures { (result.batch ≡ _batch.now.items) × (result.before ≡ _before.now) }
    {
        Basis {}
    }
}
