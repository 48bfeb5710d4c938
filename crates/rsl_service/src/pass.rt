ghost use Rattle.std.specs.Prelude.{
  ◌≡◌,
  ℕ,
  ◌+◌,
  ◌≤◌,
  ◌<◌,
  ◌↔◌,
  ◌++◌,
  ◌∷◌,
  [],
  IfErr,
  IfOk,
  OnErr,
  OnOk,
  vec_capacity,
  vec_len,
};
ghost use Rattle.rsl_service.specs.Receipts.{count_of, new_pass};

use crate::fault::PassFault;
use crate::ledger::{Shares, Tally};
use rsl_record::{HasReceipts, Receipt};
use rsl_shard::Spare;
use rsl_wire::NoMemory;
use std::alloc::Global;
use std::marker::Model;
use std::mem::replace;

/// The most passes that a service opens.
pub(crate) const MAX_PASSES: u64 = 1024;

/// Receipts for which a new pass has room.
const FIRST_RECEIPTS: usize = 64;

/// The receipts of a pass, in the order of its calls, with the room that its next step may need.
#[derive(Drop)]
pub(crate) struct Notes {
    pub(crate) receipts: Vec<Receipt>,
    pub(crate) spare: Spare,
}

/// A buffer for the octets of a reply.
///
/// A contract sees its capacity in octets.
#[derive(Drop)]
pub(crate) struct ReplyRoom {
    octets: Vec<u8>,
}

impl Model for ReplyRoom {
    ghost use Rattle.std.specs.Prelude.{ℕ, vec_capacity};

    ghost Value = { ℕ };

    ghost view = { λ room. vec_capacity room.octets };
}

impl ReplyRoom {
    /// An empty buffer, not allocated yet.
    fn new(alloc: Global) -> ReplyRoom
        ensures { result ≡ 0 }
    {
        ReplyRoom {
            octets: Vec::new(alloc),
        }
    }

    /// Replaces the buffer by that of these octets.
    fn put(&mut self, octets: Vec<u8>)
        ensures { self.new ≡ vec_capacity octets }
    {
        self.octets = octets;
    }

    /// Moves the buffer out.
    pub(crate) fn take(&mut self, alloc: Global) -> Vec<u8>
        ensures { vec_capacity result ≡ self.old }
    {
        replace(&mut self.octets, Vec::new(alloc))
    }
}

/// What a caller of the service has: a receipt for each move that it made.
///
/// A contract sees the receipts, in the order of the calls, and the octets for which the next reply
/// has room. The type guarantees that the pass has as many receipts of each shard as its share of
/// the shard's ledger counts. It also has the room for lines that its next step may need.
#[derive(Drop)]
pub struct Pass<L0: Tally, L1: Tally, L2: Tally, L3: Tally> {
    pub(crate) shares: Shares<L0, L1, L2, L3>,
    pub(crate) notes: Notes,
    pub(crate) reply_room: ReplyRoom,
}

impl<L0: Tally, L1: Tally, L2: Tally, L3: Tally> Model for Pass<L0, L1, L2, L3> {
    ghost use Rattle.std.specs.Prelude.{◌≡◌};
    ghost use Rattle.rsl_service.specs.Receipts.{PassSeen, count_of};

    ghost Value = { PassSeen };

    ghost view = { λ pass. record {
      receipts = pass.notes.receipts.items;
      room = pass.reply_room;
    } };

    ghost invariant = { λ pass.
        (pass.shares.parts ≡ 1)
        × (pass.shares.amount0 ≡ count_of 0 pass.notes.receipts.items)
        × (pass.shares.amount1 ≡ count_of 1 pass.notes.receipts.items)
        × (pass.shares.amount2 ≡ count_of 2 pass.notes.receipts.items)
        × (pass.shares.amount3 ≡ count_of 3 pass.notes.receipts.items) };
}

impl Notes {
    /// No receipts, with room for the first. It fails only if memory is refused.
    fn new(alloc: Global) -> Result<Notes, NoMemory>
        ensures { IfOk result (λ notes. notes.receipts.items ≡ []) }
    {
        let mut receipts = Vec::new(alloc);
        receipts.reserve(FIRST_RECEIPTS)?;
        Ok(Notes {
            receipts,
            spare: Spare::new(alloc),
        })
    }

    /// Makes room for a receipt, and for the lines of a journal's next chunk. On a fault nothing
    /// has changed but the room.
    pub(crate) fn take_room(&mut self) -> Result<(), NoMemory>
        ensures receipts { self.new.receipts.items ≡ self.old.receipts.items }
        ensures room { OnOk result (vec_len self.new.receipts < vec_capacity self.new.receipts) }
        ensures lines { OnOk result (1024 ≤ self.new.spare) }
    {
        self.receipts.reserve(1)?;
        self.spare.fill()?;
        Ok(())
    }

    /// Appends a receipt. There is room for it.
    #[tactic(auto, using(crate::proofs::Counting::counts))]
    pub(crate) fn note(&mut self, receipt: Receipt)
        requires room { vec_len self.old.receipts < vec_capacity self.old.receipts }
        ensures noted { self.new.receipts.items ≡ self.old.receipts.items ++ receipt ∷ [] }
        ensures counted { count_of receipt.shard self.new.receipts.items
            ≡ count_of receipt.shard self.old.receipts.items + 1 }
        ensures others { (other : ℕ) → (other ≡ receipt.shard → ⊥) →
            count_of other self.new.receipts.items ≡ count_of other self.old.receipts.items }
    {
        self.receipts.push_reserved(receipt);
    }
}

impl<L0: Tally, L1: Tally, L2: Tally, L3: Tally> Pass<L0, L1, L2, L3> {
    /// Takes back the octets of a reply, whether or not it could be sent: the next reply is written
    /// in their buffer, and allocates nothing if that holds 4,096 octets, as each reply's does. The
    /// receipts stay.
    pub fn take_back(&mut self, octets: Vec<u8>)
        ensures receipts { self.new.receipts ≡ self.old.receipts }
        ensures room { self.new.room ≡ vec_capacity octets }
    {
        self.reply_room.put(octets);
    }

    /// The shares of the pass.
    pub(crate) fn into_shares(self) -> Shares<L0, L1, L2, L3>
        ensures parts { result.parts ≡ 1 }
        ensures amount0 { result.amount0 ≡ count_of 0 self.receipts }
        ensures amount1 { result.amount1 ≡ count_of 1 self.receipts }
        ensures amount2 { result.amount2 ≡ count_of 2 self.receipts }
        ensures amount3 { result.amount3 ≡ count_of 3 self.receipts }
    {
        self.shares
    }
}

impl<L0: Tally, L1: Tally, L2: Tally, L3: Tally> HasReceipts for Pass<L0, L1, L2, L3> {
    ghost receipts = { λ pass. pass.receipts };

    fn receipts(&self) -> &[Receipt] {
        self.notes.receipts.as_slice()
    }
}

/// The passes of a service: how many were opened, and what remains of each ledger. Each pass gets a
/// part of each, and one remains.
#[derive(Drop)]
pub(crate) struct PassBook<L0: Tally, L1: Tally, L2: Tally, L3: Tally> {
    pub(crate) opened: u64,
    pub(crate) shares: Shares<L0, L1, L2, L3>,
    ghost most: { opened ≤ 1024 },
    ghost parts: { shares.parts + opened ≡ 1025 },
    ghost none0: { shares.amount0 ≡ 0 },
    ghost none1: { shares.amount1 ≡ 0 },
    ghost none2: { shares.amount2 ≡ 0 },
    ghost none3: { shares.amount3 ≡ 0 },
}

impl<L0: Tally, L1: Tally, L2: Tally, L3: Tally> PassBook<L0, L1, L2, L3> {
    /// The book before any pass is opened, with all shares of four ledgers.
    pub(crate) fn new(shares: Shares<L0, L1, L2, L3>) -> PassBook<L0, L1, L2, L3>
        requires parts { shares.parts ≡ 1025 }
        requires none0 { shares.amount0 ≡ 0 }
        requires none1 { shares.amount1 ≡ 0 }
        requires none2 { shares.amount2 ≡ 0 }
        requires none3 { shares.amount3 ≡ 0 }
        ensures opened { result.opened ≡ 0 }
    {
        PassBook { opened: 0, shares }
    }

    /// Opens a pass, with a part of each ledger, unless the most passes were opened. On a fault
    /// nothing has changed.
    #[tactic(auto, using(crate::proofs::Counting::none_counted))]
    pub(crate) fn open(&mut self, alloc: Global) -> Result<Pass<L0, L1, L2, L3>, PassFault>
        ensures pass { IfOk result (λ pass. pass ≡ new_pass) }
        ensures opened { OnOk result (self.new.opened ≡ self.old.opened + 1) }
        ensures full { IfErr result (λ fault.
            fault ≡ PassFault.TooMany ↔ (self.old.opened ≡ 1024)) }
        ensures err { OnErr result (self.new ≡ self.old) }
    {
        if self.opened >= MAX_PASSES {
            return Err(PassFault::TooMany);
        }
        let Ok(notes) = Notes::new(alloc) else {
            return Err(PassFault::NoMemory);
        };
        let PassBook { opened, shares } = self;
        *opened += 1;
        Ok(Pass {
            shares: shares.split_part(),
            notes,
            reply_room: ReplyRoom::new(alloc),
        })
    }
}
