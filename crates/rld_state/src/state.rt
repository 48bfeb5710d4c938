ghost use Rattle.std.specs.Prelude.{◌≡◌, ◌<◌, ℕ, true, length, Err, IfErr, IfNone, IfOk, IfSome, IsErrOf, IsSome, OnErr, OnOk, OnSome, List, [], ◌++◌, ◌||◌, ◌↔◌, false, IsTrue, MatchResult, Ok};
ghost use Rattle.std.specs.Arc.{arc_value};
ghost use Rattle.rld_books.specs.Saved.{IsServerOf};
ghost use Rattle.rld_books.specs.Server.{ServerSeen, decisions_of, replay};
ghost use Rattle.rld_state.specs.Keeping.{IsGone, ends, is_failed, is_over, moves_after};
ghost use Rattle.rld_spelling.specs.Tables.{table_of};
ghost use Rattle.rld_start.specs.NextHeaders.{header_after};
ghost use Rattle.rld_store.specs.Premises.{Only};
ghost use Rattle.rld_store.specs.Recorded.{AreDecided, IsOfTable, is_ended, is_last};
ghost use Rattle.rld_store.specs.Standing.{StandsFor};
ghost use Rattle.rld_store.specs.Stored.{HasRecorded};
ghost use Rattle.rld_store.specs.declared.fault.RecordFault.TheVariants.{Ended as over, Failed as failed};
ghost use Rattle.rsl_shard.specs.declared.moved.Move.{Move as OneMove};

use crate::changing::Opening;
use crate::roll_fault::{NotBegun, RollFault};
use rld_folder::{FolderFault, LogKey, Removed};
use rld_log::Log;
use rld_spelling::Header;
use rld_start::{Generations, NextLog, StartFault, has_same_table, next_header};
use rld_store::{RecordFault, Recorded, Store};
use rsl_accounts::Config;
use rsl_shard::Move;
use std::alloc::{AllocError, Global};
use std::mem;
use std::sync::Arc;

/// Whether a batch that was prepared with the accounts of this table, or that names no account, if that
/// is `None`, can be recorded where the table `own` is present.
fn is_of_table(table: Option<u64>, own: u64) -> bool
    ensures { IsTrue result ↔ IsOfTable table own }
{
    match table {
        Some(table) => own == table,
        None => true,
    }
}

/// Whether nothing more can be recorded after this fault.
fn is_last(fault: RecordFault) -> bool
    ensures { result ≡ is_last fault }
{
    matches!(fault, RecordFault::Ended)
}

/// A generation that did not begin, and the right to remove its log.
#[derive(Drop)]
struct Unbegun {
    key: LogKey,
    fault: RollFault,
}

/// What the lock of a server protects: its recorder, with the accounts and their books, which is not
/// called again once it can record nothing more; the number of moves of the generation that it writes;
/// and whether a batch was not recorded recently.
///
/// What each of its values keeps, whoever has the lock: its books are of these accounts, and the right
/// to remove the log of its generation is kept: nothing else can remove it.
#[derive(Drop)]
pub struct ServerState<L: Log> {
    recorder: Store<L>,
    key: LogKey,
    moves: u64,
    has_ended: bool,
    has_failed: bool,
    ghost server: { IsServerOf (arc_value recorder.config) recorder.books },
    ghost kept: { key.generation ≡ recorder.header.generation },
}

impl<L: Log + Drop> ServerState<L> {
    /// Records a batch that was prepared with the accounts of the table of this number, or that names no
    /// account, if that is `None`, and counts its moves. `Ended` comes if it has come before, and
    /// `Failed` if another table is present, whose numbers mean other accounts; then the recorder is not
    /// called.
    pub fn record(
        &mut self,
        alloc: Global,
        table: Option<u64>,
        batch: Vec<Move>,
    ) -> Result<Recorded, RecordFault>
        ensures count { IfOk result (λ recorded. length recorded.decisions ≡ length batch.items) }
        ensures batch { IfOk result (λ recorded. recorded.batch ≡ batch.items) }
        ensures decided { IfOk result AreDecided }
        ensures of { IfOk result (λ recorded. IsOfTable table recorded.table) }
        ensures present { IfOk result (λ recorded. recorded.table ≡ self.old.recorder.header.table) }
        ensures given_up { self.old.has_ended ≡ true → (result ≡ Err over) × (self.new ≡ self.old) }
        ensures other_table { (IsOfTable table self.old.recorder.header.table → ⊥) → self.old.has_ended ≡ false →
            (result ≡ Err failed) × (self.new.recorder ≡ self.old.recorder) }
        ensures ended { self.new.has_ended ≡ (self.old.has_ended || is_ended result) }
        ensures failed { self.new.has_failed ≡ (self.old.has_failed || is_failed result) }
        ensures moves { self.new.moves ≡ moves_after self.old.moves (length batch.items) result }
        ensures header { self.new.recorder.header ≡ self.old.recorder.header }
        ensures config { self.new.recorder.config ≡ self.old.recorder.config }

        // As long as the store could record more, it is noted exactly whether it still can.
        ensures over { self.old.has_ended ≡ false → self.old.recorder.is_over ≡ false →
            self.new.has_ended ≡ self.new.recorder.is_over }

        // The decisions are those of the books, which have made the moves, or are as they were.
        ensures decisions { IfOk result (λ recorded.
            recorded.decisions ≡ decisions_of self.old.recorder.books batch.items) }
        ensures before { IfOk result (λ recorded. recorded.before ≡ self.old.recorder.books) }
        ensures books { OnOk result
            (self.new.recorder.books ≡ replay self.old.recorder.books batch.items) }
        ensures same { OnErr result (self.new.recorder.books ≡ self.old.recorder.books) }

        // Over a log that tells, the store has recorded what it had before, and the batch.
        ensures recorded { IsTrue (L.tells self.new.recorder.log) →
            (opening : ServerSeen) (history : List OneMove) →
            (IsTrue (L.tells self.old.recorder.log) →
            HasRecorded (arc_value self.old.recorder.config) opening L.tears self.old.recorder.end
            (L.seen self.old.recorder.log) (L.may_leave self.old.recorder.log) self.old.recorder.whole
            self.old.recorder.books history) → OnOk result
            (HasRecorded (arc_value self.old.recorder.config) opening L.tears self.new.recorder.end
            (L.seen self.new.recorder.log) (L.may_leave self.new.recorder.log) self.new.recorder.whole
            self.new.recorder.books (history ++ batch.items)) }
        ensures unrecorded { IsTrue (L.tells self.new.recorder.log) →
            (opening : ServerSeen) (history : List OneMove) →
            (IsTrue (L.tells self.old.recorder.log) →
            HasRecorded (arc_value self.old.recorder.config) opening L.tears self.old.recorder.end
            (L.seen self.old.recorder.log) (L.may_leave self.old.recorder.log) self.old.recorder.whole
            self.old.recorder.books history) → OnErr result
            (HasRecorded (arc_value self.old.recorder.config) opening L.tears self.new.recorder.end
            (L.seen self.new.recorder.log) (L.may_leave self.new.recorder.log) self.new.recorder.whole
            self.new.recorder.books history) }
    {
        if self.has_ended {
            drop(batch);
            return Err(RecordFault::Ended);
        }
        if !is_of_table(table, self.header().table) {
            drop(batch);
            self.has_failed = true;
            return Err(RecordFault::Failed);
        }
        let count = batch.len() as u64;
        match self.recorder.commit(alloc, batch) {
            Ok(recorded) => {
                self.moves = self.moves.saturating_add(count);
                Ok(recorded)
            }
            Err(fault) => {
                let fault = RecordFault::from(fault);
                self.has_failed = self.has_failed || !is_last(fault);
                self.has_ended = self.has_ended || is_last(fault);
                Err(fault)
            }
        }
    }

    /// Whether nothing more can be recorded.
    pub fn has_ended(&self) -> bool
        ensures { result ≡ self.now.has_ended }
    {
        self.has_ended
    }

    /// The number of moves of the generation that the recorder writes, at most 2^64 - 1.
    pub fn moves(&self) -> u64
        ensures { result ≡ self.now.moves }
    {
        self.moves
    }

    /// The header of the generation that the recorder writes.
    pub fn header(&self) -> Header
        ensures { result ≡ self.now.recorder.header }
    {
        self.recorder.header()
    }

    /// The accounts, clients and rules of its books. It fails only if their reference count is at
    /// its limit.
    pub fn config(&self) -> Result<Arc<Config>, AllocError>
        ensures { IfOk result (λ config. arc_value config ≡ arc_value self.now.recorder.config) }
    {
        Arc::try_clone(self.recorder.config())
    }

    /// The boot number of its Classes.
    pub fn boot(&self) -> u64
        ensures { result ≡ self.now.recorder.header.boot }
    {
        self.header().boot
    }

    /// The number of the table of these accounts, which the log of its generation has.
    pub fn table(&self) -> u64
        ensures { result ≡ self.now.recorder.header.table }
    {
        self.header().table
    }

    /// The accounts, clients and rules, borrowed.
    pub fn accounts(&self) -> &Config
        ensures { result.now ≡ arc_value self.now.recorder.config }
    {
        &**self.recorder.config()
    }

    /// Passes over a generation that did not begin: the present one goes on once the log of that
    /// one was removed. If it was not, nothing more is recorded.
    pub(crate) fn pass_over(
        &mut self,
        failed: u64,
        fault: RollFault,
        removed: Result<Removed, FolderFault>,
    ) -> NotBegun
        requires { IfOk removed (λ removed. removed.generation ≡ failed) }
        ensures outcome { MatchResult removed (λ removed. result ≡ NotBegun.PassedOver fault removed)
            (λ _. result ≡ NotBegun.Ended) }
        ensures gone { IsGone failed result }
        ensures ended { self.new.has_ended ≡ (self.old.has_ended || ends result) }
        ensures recorder { self.new.recorder ≡ self.old.recorder }
        ensures key { self.new.key ≡ self.old.key }
        ensures moves { self.new.moves ≡ self.old.moves }
        ensures failed { self.new.has_failed ≡ self.old.has_failed }
    {
        match removed {
            Ok(removed) => NotBegun::PassedOver(fault, removed),
            Err(_) => {
                self.has_ended = true;
                NotBegun::Ended
            }
        }
    }

    /// The recorder, to look at.
    pub fn recorder(&self) -> &Store<L>
        ensures { result.now ≡ self.now.recorder }
    {
        &self.recorder
    }

    /// Whether a batch was not recorded since the last call.
    pub fn take_failed(&mut self) -> bool
        ensures found { result ≡ self.old.has_failed }
        ensures taken { self.new.has_failed ≡ false }
        ensures recorder { self.new.recorder ≡ self.old.recorder }
        ensures key { self.new.key ≡ self.old.key }
        ensures moves { self.new.moves ≡ self.old.moves }
        ensures ended { self.new.has_ended ≡ self.old.has_ended }
    {
        let has_failed = self.has_failed;
        self.has_failed = false;
        has_failed
    }
}

impl<L: Log + Drop> ServerState<L> {
    /// The state of a server whose store has recorded nothing since it was made. It writes the
    /// generation of this key, with no move yet.
    pub fn new(store: Store<L>, key: LogKey) -> ServerState<L>
        requires server { IsServerOf (arc_value store.config) store.books }
        requires kept { key.generation ≡ store.header.generation }
        ensures recorder { result.recorder ≡ store }
        ensures key { result.key ≡ key }
        ensures moves { result.moves ≡ 0 }
        ensures has_ended { result.has_ended ≡ false }
        ensures has_failed { result.has_failed ≡ false }
    {
        ServerState {
            recorder: store,
            key,
            moves: 0,
            has_ended: false,
            has_failed: false,
        }
    }

    /// Goes on in the generation of this log: its header counts the moves of the present one, and
    /// it has no move yet.
    ///
    /// After a fault the log is removed before anything more is recorded, since its snapshot may be
    /// whole, and a start would go on from it: then the present generation goes on. `Ended` comes
    /// if the removal of the log is not certain, and if nothing more could be recorded before: then
    /// nothing more is recorded. A log of a generation that is not above the present one is `Former`, and
    /// removed too. The log of the former generation is handed out.
    pub fn roll<G: Generations>(
        &mut self,
        alloc: Global,
        generations: &G,
        next: NextLog<L>,
    ) -> Result<L, NotBegun>
        ensures given_up { self.old.has_ended ≡ true →
            (IsErrOf result NotBegun.Ended) × (self.new ≡ self.old) }
        ensures gone { IfErr result (IsGone next.key.generation) }
        ensures newer { OnOk result
            (self.old.recorder.header.generation < self.new.recorder.header.generation) }
        ensures key { OnOk result (self.new.key ≡ next.key) }
        ensures header { OnOk result (self.new.recorder.header
            ≡ header_after self.old.recorder.header next.key.generation self.old.moves) }
        ensures moves { OnOk result (self.new.moves ≡ 0) }
        ensures config { self.new.recorder.config ≡ self.old.recorder.config }
        ensures ended { self.new.has_ended ≡ (self.old.has_ended || is_over result) }
        ensures failed { self.new.has_failed ≡ self.old.has_failed }
        ensures books { self.new.recorder.books ≡ self.old.recorder.books }
        ensures over { self.new.recorder.is_over ≡ self.old.recorder.is_over }
        ensures older { IfOk result (λ older. older ≡ self.old.recorder.log) }

        // The store stands for the same history, by the next log alone.
        ensures stands { IsTrue (L.tells self.new.recorder.log) → Only (L.seen next.log) (L.may_leave next.log) →
            (opening : ServerSeen) (history unanswered : List OneMove) →
            StandsFor (arc_value self.old.recorder.config) opening L.tears self.old.recorder.end (L.seen self.old.recorder.log)
            (L.may_leave self.old.recorder.log) self.old.recorder.whole self.old.recorder.books history unanswered →
            OnOk result (StandsFor (arc_value self.old.recorder.config) opening L.tears self.new.recorder.end (L.seen self.new.recorder.log)
            (L.may_leave self.new.recorder.log) self.new.recorder.whole self.new.recorder.books history []) }

        // After a fault the present generation stays, with its log and its count.
        ensures same { OnErr result (self.new.recorder ≡ self.old.recorder) }
        ensures same_moves { OnErr result (self.new.moves ≡ self.old.moves) }
        ensures same_key { OnErr result (self.new.key ≡ self.old.key) }
    {
        if self.has_ended() {
            return Err(NotBegun::Ended);
        }
        let NextLog { key, log } = next;
        match self.begin_in(alloc, key, log) {
            Ok(older) => Ok(older),
            Err(Unbegun { key, fault }) => {
                let generation = key.generation();
                let removed = generations.remove(alloc, key);
                Err(self.pass_over(generation, fault, removed))
            }
        }
    }

    /// Goes on in the generation of this key, in its empty log, if it is a later one than the present
    /// one, and keeps the key in place of the former one. The log of the former one is handed out.
    fn begin_in(&mut self, alloc: Global, key: LogKey, log: L) -> Result<L, Unbegun>
        ensures key { OnOk result (self.new.key ≡ key) }
        ensures unbegun { IfErr result (λ unbegun. unbegun.key ≡ key) }
        ensures header { OnOk result (self.new.recorder.header
            ≡ header_after self.old.recorder.header key.generation self.old.moves) }
        ensures newer { OnOk result
            (self.old.recorder.header.generation < self.new.recorder.header.generation) }
        ensures moves { OnOk result (self.new.moves ≡ 0) }
        ensures config { self.new.recorder.config ≡ self.old.recorder.config }
        ensures ended { self.new.has_ended ≡ self.old.has_ended }
        ensures failed { self.new.has_failed ≡ self.old.has_failed }
        ensures going_on { IfErr result (λ unbegun. unbegun.fault ≡ RollFault.Ended → ⊥) }
        ensures same { OnErr result (self.new.recorder ≡ self.old.recorder) }
        ensures same_key { OnErr result (self.new.key ≡ self.old.key) }
        ensures same_moves { OnErr result (self.new.moves ≡ self.old.moves) }
        ensures older { IfOk result (λ older. older ≡ self.old.recorder.log) }

        // The store stands for the same history, by the next log alone.
        ensures books { self.new.recorder.books ≡ self.old.recorder.books }
        ensures over { self.new.recorder.is_over ≡ self.old.recorder.is_over }
        ensures stands { IsTrue (L.tells self.new.recorder.log) → Only (L.seen log) (L.may_leave log) →
            (opening : ServerSeen) (history unanswered : List OneMove) →
            StandsFor (arc_value self.old.recorder.config) opening L.tears self.old.recorder.end (L.seen self.old.recorder.log)
            (L.may_leave self.old.recorder.log) self.old.recorder.whole self.old.recorder.books history unanswered →
            OnOk result (StandsFor (arc_value self.old.recorder.config) opening L.tears self.new.recorder.end (L.seen self.new.recorder.log)
            (L.may_leave self.new.recorder.log) self.new.recorder.whole self.new.recorder.books history []) }
    {
        let generation = key.generation();
        let present = self.header();
        if generation <= present.generation {
            let fault = RollFault::Former;
            return Err(Unbegun { key, fault });
        }
        let Some(header) = next_header(&present, generation, self.moves) else {
            let fault = RollFault::Start(StartFault::NoNumber);
            return Err(Unbegun { key, fault });
        };
        match self.recorder.roll(alloc, header, log) {
            Ok(older) => {
                self.key = key;
                self.moves = 0;
                Ok(older)
            }
            Err(refused) => {
                let fault = RollFault::Store(refused.fault);
                Err(Unbegun { key, fault })
            }
        }
    }

    /// Goes on by other accounts, if these have the present table, and says whether they have; where they
    /// have not, all is as before. Nothing is copied or made for it, since receivers rest meanwhile.
    pub fn go_on(&mut self, config: Arc<Config>) -> bool
        ensures same { IsTrue result ↔
            (table_of (arc_value self.old.recorder.config) ≡ table_of (arc_value config)) }
        ensures config { IsTrue result → self.new.recorder.config ≡ config }
        ensures books { self.new.recorder.books ≡ self.old.recorder.books }
        ensures header { self.new.recorder.header ≡ self.old.recorder.header }
        ensures key { self.new.key ≡ self.old.key }
        ensures moves { self.new.moves ≡ self.old.moves }
        ensures ended { self.new.has_ended ≡ self.old.has_ended }
        ensures failed { self.new.has_failed ≡ self.old.has_failed }
        ensures kept { result ≡ false → self.new ≡ self.old }

        // The store stands for its history by the accounts that the state then has.
        ensures stands { (opening : ServerSeen) (history unanswered : List OneMove) →
            StandsFor (arc_value self.old.recorder.config) opening L.tears self.old.recorder.end
            (L.seen self.old.recorder.log) (L.may_leave self.old.recorder.log) self.old.recorder.whole
            self.old.recorder.books history unanswered →
            StandsFor (arc_value self.new.recorder.config) opening L.tears self.new.recorder.end
            (L.seen self.new.recorder.log) (L.may_leave self.new.recorder.log) self.new.recorder.whole
            self.new.recorder.books history unanswered }
    {
        let goes_on = has_same_table(self.accounts(), &*config);
        if goes_on {
            self.recorder.take_accounts(config);
            true
        } else {
            false
        }
    }

    /// Goes on in a generation that was begun with other accounts, and hands out the store of the former
    /// ones.
    pub(crate) fn enter(&mut self, opening: Opening<L>, key: LogKey) -> Store<L>
        requires synced { opening.synced.generation ≡ opening.store.header.generation }
        requires server { IsServerOf (arc_value opening.store.config) opening.store.books }
        requires kept { key.generation ≡ opening.store.header.generation }
        ensures recorder { self.new.recorder ≡ opening.store }
        ensures key { self.new.key ≡ key }
        ensures moves { self.new.moves ≡ 0 }
        ensures ended { self.new.has_ended ≡ self.old.has_ended }
        ensures failed { self.new.has_failed ≡ self.old.has_failed }
        ensures former { result ≡ self.old.recorder }
    {
        let Opening { store, .. } = opening;
        self.key = key;
        self.moves = 0;
        mem::replace(&mut self.recorder, store)
    }
}
