ghost use Rattle.std.specs.Prelude.{
  ◌≡◌,
  ℕ,
  ◌+◌,
  ◌-◌,
  ◌^◌,
  ◌<◌,
  ◌≤◌,
  ◌↔◌,
  IfErr,
  IfOk,
  OnErr,
  length,
  map,
  vec_capacity,
  vec_len,
};
ghost use Rattle.rsl_shard.specs.Journal.{IsJournal};
ghost use Rattle.rsl_shard.specs.Moves.{IsTaken};
ghost use Rattle.rsl_shard.specs.Opening.{as_new};
ghost use Rattle.rsl_shard.specs.Restep.{new_books};
ghost use Rattle.rsl_shard.specs.Seen.{books_of, cut_off, total_of};
ghost use Rattle.rsl_shard.specs.Setup.{setup_of};
ghost use Rattle.rsl_service.specs.Closed.{IsEnd, lines_to};
ghost use Rattle.rsl_service.specs.Made.{IsMade};
ghost use Rattle.rsl_service.specs.Receipts.{count_of};
ghost use Rattle.rsl_service.specs.Report.{AreShown, IsReport, shown_book, with_book};

use crate::fault::StepFault;
use crate::ledger::Tally;
use crate::pass::Notes;
use crate::service::Gate;
use rsl_accounts::Config;
use rsl_event::Decision;
use rsl_record::Receipt;
use rsl_shard::{CutRoom, Line, LooseSegment, Move, Row, Segment, Shard};
use rsl_wire::NoMemory;
use std::alloc::Global;
use std::sync::ledger::{Blank, Book as LineLedger, Share};

/// A shard with the ledger of its lines: what a shard's lock protects.
///
/// The type guarantees that it is the ledger's shard, with books of its accounts' rules, and that
/// the ledger's total is the number of all the shard's lines, those handed out included.
///
/// Everything that is done under the lock is a method here, which says exactly what it does to the
/// shard.
#[derive(Drop)]
pub(crate) struct Desk<L: Tally> {
    pub(crate) shard: Shard,
    ledger: LineLedger<L>,
    ghost counted: { ledger.total ≡ total_of shard },
    ghost numbered: { shard.setup ≡ L.setup },
    ghost ruled: { map as_new (books_of shard) ≡ L.books },
}

/// Counts a line of a shard in its ledger and in the share of its caller.
fn count_line<L: Tally>(ledger: &mut LineLedger<L>, mine: &mut Share<L>)
    requires part { 0 < mine.old.parts }
    ensures total { ledger.new.total ≡ ledger.old.total + 1 }
    ensures amount { mine.new.amount ≡ mine.old.amount + 1 }
    ensures parts { mine.new.parts ≡ mine.old.parts }
{
    ledger.add(mine, 1);
}

impl<L: Tally> Desk<L> {
    /// A shard of new books with its ledger, and the share with all of the ledger's parts. It fails
    /// only if memory is refused.
    #[tactic(auto, using(crate::proofs::Ruled::ruled))]
    pub(crate) fn new(
        alloc: Global,
        config: &Config,
        number: u32,
        blank: Blank,
    ) -> Result<(Desk<L>, Share<L>), NoMemory>
        requires there { number < config.now.settings.shards }
        requires setup { L.setup ≡ setup_of config.now number }
        requires books { L.books ≡ new_books config.now number }
        requires name { blank.name ≡ L.name }
        requires parts { blank.parts ≡ L.parts }
        ensures parts { IfOk result (λ made. made.1.parts ≡ L.parts) }
        ensures amount { IfOk result (λ made. made.1.amount ≡ 0) }
    {
        let shard = Shard::new(alloc, config, number)?;
        let (ledger, share) = blank.open::<L>();
        Ok((Desk { shard, ledger }, share))
    }

    /// Makes a move in the shard, counts its line in the share, notes its receipt, and then calls
    /// the gate. On a fault nothing has changed but the spare room. A spent shard says so even if
    /// there is no memory.
    #[tactic(auto, using(crate::proofs::Ruled::ruled))]
    pub(crate) fn make<G: Gate>(
        &mut self,
        alloc: Global,
        gate: &G,
        number: u32,
        mine: &mut Share<L>,
        notes: &mut Notes,
        moved: Move,
    ) -> Result<Decision, StepFault>
        requires takes { IsTaken L.setup moved }
        requires part { 0 < mine.old.parts }
        requires room { vec_len notes.old.receipts < vec_capacity notes.old.receipts }
        requires lines { 1024 ≤ notes.old.spare }
        ensures made { IfOk result (λ decision. IsMade number moved decision
            self.old.shard self.new.shard notes.old.receipts.items notes.new.receipts.items) }
        ensures spent { IfErr result (λ fault.
            fault ≡ StepFault.Spent ↔ (total_of self.old.shard ≡ 2 ^ 64 - 1)) }
        ensures err { OnErr result (self.new.shard ≡ self.old.shard) }
        ensures unnoted { OnErr result (notes.new.receipts.items ≡ notes.old.receipts.items) }
        ensures parts { mine.new.parts ≡ mine.old.parts }
        ensures counted { mine.new.amount + count_of number notes.old.receipts.items
            ≡ mine.old.amount + count_of number notes.new.receipts.items }
        ensures others { (other : ℕ) → (other ≡ number → ⊥) →
            count_of other notes.new.receipts.items ≡ count_of other notes.old.receipts.items }
    {
        let Desk { shard, ledger } = self;
        let position = shard.total();
        // On failure the move is freed by a call of `drop`. Freeing it at the end of the function
        // would cost each step that does not fail.
        if position == u64::MAX {
            drop(moved);
            return Err(StepFault::Spent);
        }
        let decision = match shard.step_ready(alloc, &moved, &mut notes.spare) {
            Ok(decision) => decision,
            Err(NoMemory) => {
                drop(moved);
                return Err(StepFault::NoMemory);
            }
        };
        count_line(ledger, mine);
        notes.note(Receipt {
            shard: number,
            position,
            line: Line { moved, decision },
        });
        gate.at(number);
        Ok(decision)
    }

    /// The number of lines of the present journal.
    pub(crate) fn moves(&self) -> usize {
        self.shard.moves()
    }

    /// Hands out the journal, and goes on from equal books. It fails only if memory is refused;
    /// then nothing has changed.
    #[tactic(auto, using(crate::proofs::Ruled::ruled))]
    pub(crate) fn cut(&mut self, alloc: Global, room: CutRoom) -> Result<LooseSegment, NoMemory>
        ensures shard { IfOk result (λ loose. loose.shard ≡ L.setup.shard) }
        ensures first { IfOk result (λ loose. loose.first ≡ self.old.shard.first) }
        ensures opening { IfOk result (λ loose. loose.opening ≡ self.old.shard.opening) }
        ensures lines { IfOk result (λ loose. loose.lines ≡ self.old.shard.lines) }
        ensures cut { IfOk result (λ _. self.new.shard ≡ cut_off self.old.shard) }
        ensures books { IfOk result (λ loose. map as_new loose.opening ≡ L.books) }
        ensures journal { IfOk result (λ loose. IsJournal L.setup loose.opening loose.lines) }
        ensures err { OnErr result (self.new.shard ≡ self.old.shard) }
    {
        self.shard.open_invariant();
        self.shard.cut_loose(alloc, room)
    }

    /// Ends the journal, and hands it out with its ledger. It fails only if memory is refused.
    #[tactic(auto, using(crate::proofs::Ruled::ruled))]
    pub(crate) fn end(self, alloc: Global) -> Result<(Segment, LineLedger<L>), NoMemory>
        ensures first { IfOk result (λ ended. ended.0.first ≡ self.shard.first) }
        ensures opening { IfOk result (λ ended. ended.0.opening.items ≡ self.shard.opening) }
        ensures lines { IfOk result (λ ended. ended.0.lines.items ≡ self.shard.lines) }
        ensures end { IfOk result (λ ended. IsEnd L.setup L.books ended.0) }
        ensures told { IfOk result (λ ended. ended.1.total ≡ lines_to ended.0) }
    {
        let Desk { shard, ledger } = self;
        let journal = shard.into_segment(alloc)?;
        Ok((journal, ledger))
    }

    /// Writes what each account of the shard holds into its row. The other rows stay.
    pub(crate) fn show(&self, config: &Config, number: u32, rows: &mut [Row])
        requires setup { L.setup ≡ setup_of config.now number }
        requires books { L.books ≡ new_books config.now number }
        requires rows { IsReport config.now.accounts rows.old }
        ensures shown { AreShown (length rows.old) self.now.shard rows.old rows.new }
        ensures report { IsReport config.now.accounts rows.new }
    {
        let shards = config.shards() as usize;
        let mut account = number as usize;
        while account < rows.len() {
            self.show_one(config, number, account, rows);
            account += shards;
        }
    }

    /// Writes what an account holds into its row, if the account is one of the shard.
    fn show_one(&self, config: &Config, number: u32, account: usize, rows: &mut [Row])
        requires setup { L.setup ≡ setup_of config.now number }
        requires books { L.books ≡ new_books config.now number }
        requires account { account < length rows.old }
        requires rows { IsReport config.now.accounts rows.old }
        ensures shown { rows.new
            ≡ with_book account (shown_book self.now.shard account) rows.old }
        ensures report { IsReport config.now.accounts rows.new }
    {
        self.shard.open_invariant();
        if let Some(book) = self.shard.book(account as u32) {
            rows[account] = Row::of(account as u32, book);
        }
    }
}
