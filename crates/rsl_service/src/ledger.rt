//! The ledgers of shards, which count their lines, and the shares of them.

ghost use Rattle.std.specs.Prelude.{◌≡◌, ◌+◌, ◌<◌, IfSome, List, [], length};
ghost use Rattle.rsl_book.specs.RuledBook.{RuledBook};
ghost use Rattle.rsl_shard.specs.Setup.{Setup};
ghost use Rattle.rsl_service.specs.Closed.{count_in};
ghost use Rattle.rsl_service.specs.Receipts.{receipts_of};
ghost use Rattle.rsl_service.specs.Shares.{part};

use crate::pass::{MAX_PASSES, Pass};
use std::marker::{Brand, Model};
use std::sync::ledger::{Blank, Book as LineLedger, Ledger, Share};

/// A ledger that counts the lines of one shard.
///
/// Its type alone says of which shard, so that a share of one shard's ledger is never taken for
/// another's, and so that the moves that a shard takes, and the rules of its accounts, are known
/// before its lock is taken: the new books of the accounts show those rules.
pub trait Tally: Ledger {
    ghost setup: { Setup };

    ghost books: { List RuledBook };
}

// The caller of `Brand` says in a proof which shard it is; the members here are of none.
impl Tally for Brand {
    ghost setup = { record { shard = 0; shards = 0; accounts = 0 } };

    ghost books = { [] };
}

/// The parts of a shard's ledger: one for each pass that a service opens, and one that remains.
const PARTS: u64 = MAX_PASSES + 1;

/// The four ledgers of a service, before it is made.
#[derive(Drop)]
pub struct Blanks {
    /// The ledger of shard 0.
    pub blank0: Blank,
    /// The ledger of shard 1.
    pub blank1: Blank,
    /// The ledger of shard 2.
    pub blank2: Blank,
    /// The ledger of shard 3.
    pub blank3: Blank,
}

impl Blanks {
    /// Four blanks with the parts that a service needs.
    pub fn new() -> Blanks
        ensures blank0 { result.blank0.parts ≡ 1025 }
        ensures blank1 { result.blank1.parts ≡ 1025 }
        ensures blank2 { result.blank2.parts ≡ 1025 }
        ensures blank3 { result.blank3.parts ≡ 1025 }
    {
        Blanks {
            blank0: Blank::new(PARTS),
            blank1: Blank::new(PARTS),
            blank2: Blank::new(PARTS),
            blank3: Blank::new(PARTS),
        }
    }
}

/// Shares of the four ledgers, with equally many parts of each.
///
/// A contract sees the number of parts, and the amount in each ledger. The type guarantees that
/// each ledger has 1,025 parts.
#[derive(Drop)]
pub(crate) struct Shares<L0: Tally, L1: Tally, L2: Tally, L3: Tally> {
    pub(crate) share0: Share<L0>,
    pub(crate) share1: Share<L1>,
    pub(crate) share2: Share<L2>,
    pub(crate) share3: Share<L3>,
}

impl<L0: Tally, L1: Tally, L2: Tally, L3: Tally> Model for Shares<L0, L1, L2, L3> {
    ghost use Rattle.std.specs.Prelude.{◌≡◌};
    ghost use Rattle.rsl_service.specs.Shares.{SharesSeen};

    ghost Value = { SharesSeen };

    ghost view = { λ shares. record {
      parts = shares.share0.parts;
      amount0 = shares.share0.amount;
      amount1 = shares.share1.amount;
      amount2 = shares.share2.amount;
      amount3 = shares.share3.amount;
    } };

    ghost invariant = { λ shares.
        (shares.share1.parts ≡ shares.share0.parts)
        × (shares.share2.parts ≡ shares.share0.parts)
        × (shares.share3.parts ≡ shares.share0.parts)
        × (L0.parts ≡ 1025)
        × (L1.parts ≡ 1025)
        × (L2.parts ≡ 1025)
        × (L3.parts ≡ 1025) };
}

impl<L0: Tally, L1: Tally, L2: Tally, L3: Tally> Shares<L0, L1, L2, L3> {
    /// Splits off a part of each ledger, with amount 0.
    pub(crate) fn split_part(&mut self) -> Shares<L0, L1, L2, L3>
        requires { 1 < self.old.parts }
        ensures part { result ≡ part }
        ensures parts { self.new.parts + 1 ≡ self.old.parts }
        ensures amount0 { self.new.amount0 ≡ self.old.amount0 }
        ensures amount1 { self.new.amount1 ≡ self.old.amount1 }
        ensures amount2 { self.new.amount2 ≡ self.old.amount2 }
        ensures amount3 { self.new.amount3 ≡ self.old.amount3 }
    {
        Shares {
            share0: self.share0.split_off(1, 0),
            share1: self.share1.split_off(1, 0),
            share2: self.share2.split_off(1, 0),
            share3: self.share3.split_off(1, 0),
        }
    }

    /// Adds the parts and the amounts of other shares.
    fn merge(&mut self, other: Shares<L0, L1, L2, L3>)
        ensures parts { self.new.parts ≡ self.old.parts + other.parts }
        ensures amount0 { self.new.amount0 ≡ self.old.amount0 + other.amount0 }
        ensures amount1 { self.new.amount1 ≡ self.old.amount1 + other.amount1 }
        ensures amount2 { self.new.amount2 ≡ self.old.amount2 + other.amount2 }
        ensures amount3 { self.new.amount3 ≡ self.old.amount3 + other.amount3 }
    {
        self.share0.merge(other.share0);
        self.share1.merge(other.share1);
        self.share2.merge(other.share2);
        self.share3.merge(other.share3);
    }

    /// Adds the shares of passes: from each a part of each ledger, whose amount is the number of
    /// its receipts.
    #[tactic(auto, using(crate::proofs::Gathering::gather_steps))]
    pub(crate) fn gather(&mut self, mut passes: Vec<Pass<L0, L1, L2, L3>>)
        ensures parts { self.new.parts ≡ self.old.parts + length passes.items }
        ensures amount0 { self.new.amount0 ≡ self.old.amount0 + count_in (receipts_of passes.items) 0 }
        ensures amount1 { self.new.amount1 ≡ self.old.amount1 + count_in (receipts_of passes.items) 1 }
        ensures amount2 { self.new.amount2 ≡ self.old.amount2 + count_in (receipts_of passes.items) 2 }
        ensures amount3 { self.new.amount3 ≡ self.old.amount3 + count_in (receipts_of passes.items) 3 }
    {
        while let Some(pass) = passes.pop() {
            self.merge(pass.into_shares());
        }
    }
}

/// The ledgers of all shards, out of their locks.
#[derive(Drop)]
pub(crate) struct Ledgers<L0: Tally, L1: Tally, L2: Tally, L3: Tally> {
    pub(crate) ledger0: LineLedger<L0>,
    pub(crate) ledger1: Option<LineLedger<L1>>,
    pub(crate) ledger2: Option<LineLedger<L2>>,
    pub(crate) ledger3: Option<LineLedger<L3>>,
}

impl<L0: Tally, L1: Tally, L2: Tally, L3: Tally> Ledgers<L0, L1, L2, L3> {
    /// Shows that each ledger's total is its amount in the shares, which have all parts.
    pub(crate) fn audit(self, all: Shares<L0, L1, L2, L3>)
        requires { all.parts ≡ 1025 }
        ensures ledger0 { self.ledger0.total ≡ all.amount0 }
        ensures ledger1 { IfSome self.ledger1 (λ ledger. ledger.total ≡ all.amount1) }
        ensures ledger2 { IfSome self.ledger2 (λ ledger. ledger.total ≡ all.amount2) }
        ensures ledger3 { IfSome self.ledger3 (λ ledger. ledger.total ≡ all.amount3) }
    {
        let Ledgers {
            mut ledger0,
            ledger1,
            ledger2,
            ledger3,
        } = self;
        let Shares {
            mut share0,
            share1,
            share2,
            share3,
        } = all;
        ledger0.audit(&mut share0);
        audit_if_there(ledger1, share1);
        audit_if_there(ledger2, share2);
        audit_if_there(ledger3, share3);
    }
}

/// Shows that a ledger's total is the amount of a share with all of its parts.
fn audit_if_there<L: Tally>(ledger: Option<LineLedger<L>>, all: Share<L>)
    requires { all.parts ≡ L.parts }
    ensures { IfSome ledger (λ ledger. ledger.total ≡ all.amount) }
{
    let mut all = all;
    if let Some(mut ledger) = ledger {
        ledger.audit(&mut all);
    }
}
