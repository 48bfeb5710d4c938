ghost use Rattle.std.specs.Prelude.{◌≡◌, ◌⊎◌, ◌+◌, ◌≤◌, ℕ, false, List, [], ◌∷◌, ◌++◌, length, drop, Err, IsTrue, IsErrOf, IfErr, IfOk, OnErr, OnOk};
ghost use Rattle.std.specs.Arc.{arc_value};
ghost use Rattle.std.specs.List.{All};
ghost use Rattle.std.specs.Option.{option_map};
ghost use Rattle.rld_books.specs.Saved.{IsServerOf, links_in, rows_in};
ghost use Rattle.rld_books.specs.Server.{AreTakenIn, ServerSeen, decisions_of, new_server, replay};
ghost use Rattle.rld_log.specs.Frames.{Fits, HasPayloads, frames};
ghost use Rattle.rld_store.specs.Premises.{Only, Premise};
ghost use Rattle.rld_log.specs.Recording.{IsSettled};
ghost use Rattle.rld_log.specs.declared.log.Ending.{Ending as OneEnding};
ghost use Rattle.rld_spelling.specs.Moves.{MoveFits, moves_field};
ghost use Rattle.rld_spelling.specs.Tables.{table_of};
ghost use Rattle.rld_store.specs.Beginning.{IsBegun};
ghost use Rattle.rld_store.specs.Generations.{HasHistory, IsUnbegun, StandForHistory, counts_of, octets_of};
ghost use Rattle.rld_store.specs.Opening.{IsFoundIn, IsThereIn, IsWhy, LeavesAsItWas};
ghost use Rattle.rld_store.specs.Recorded.{AreDecided, is_last};
ghost use Rattle.rld_store.specs.Standing.{EndsSo, StandsFor};
ghost use Rattle.rld_store.specs.Stored.{is_unsynced, record_fault};
ghost use Rattle.rld_store.specs.declared.store.End.TheVariants.{Settled as settled, Unsettled as unsettled};
ghost use Rattle.rsl_session.specs.Saved.{saved_links};
ghost use Rattle.rsl_shard.specs.declared.moved.Move.{Move as OneMove};

use crate::basis::Basis;
use crate::beginning::{begin_log, counts_in, whole_with};
use crate::fault::{Refused, StoreFault};
use crate::opening::{Restored, restore};
use crate::reading::Reading;
use crate::recorded::Recorded;
use rld_books::ServerBooks;
use rld_log::{Frames, HEAD_LEN, Log, LogFault, leave_head, mend, record_in_place};
use rld_spelling::{Counts, Header, SpellFault};
use rsl_accounts::Config;
use rsl_session::SavedLink;
use rsl_shard::{Move, Row};
use rsl_wire::NoMemory;
use std::alloc::Global;
use std::mem;
use std::sync::Arc;

/// What follows the whole frames of a log.
#[derive(Clone, Copy)]
pub enum End {
    /// Nothing: what a read gives is on the disk.
    Settled,
    /// Perhaps what a failed append has left.
    Unsettled,
}

/// The accounts of a server, their books, and the log of their moves. It is over once a sync has
/// failed.
#[derive(Drop)]
pub struct Store<L: Log> {
    pub(crate) log: L,
    pub(crate) header: Header,
    pub(crate) config: Arc<Config>,
    pub(crate) books: ServerBooks,
    pub(crate) whole: usize,
    pub(crate) end: End,
    pub(crate) is_over: bool,

    /// Where each batch is spelled and framed, kept from one batch to the next, which clears it. It
    /// stays small: the server's batches have at most 64 moves (`rld_turn`'s `MAX_BATCH`), of a few
    /// short names each.
    pub(crate) buffer: Vec<u8>,
}

/// A store whose log was opened, and what was found in it.
#[derive(Drop)]
pub struct Opened<L: Log> {
    /// The store.
    pub store: Store<L>,
    /// The header of the generation.
    pub header: Header,
    /// The number of moves of the generation.
    pub moves: usize,
    /// Octets of the torn end that was cut off.
    pub torn: usize,
}

impl<L: Log> Store<L> {
    // ---- making a store

    /// Begins the first generation of a configuration in an empty log: writes its header and a
    /// snapshot of new books, and syncs each. A log that is not empty is refused as `Occupied`.
    pub fn begin(
        alloc: Global,
        config: Arc<Config>,
        header: Header,
        log: L,
    ) -> Result<Store<L>, Refused<L>>
        ensures told { IfOk result (λ store. IsTrue (L.tells store.log) → IsTrue (L.tells log)) }
        ensures refused { IfErr result (λ refused. IsTrue (L.tells refused.log) → IsTrue (L.tells log)) }

        ensures header { IfOk result (λ store. store.header ≡ header) }
        ensures config { IfOk result (λ store. store.config ≡ config) }
        ensures over { IfOk result (λ store. store.is_over ≡ false) }

        // The log has this header and a snapshot of new books.
        ensures begun { IfOk result (λ store. IsTrue (L.tells store.log) →
            Only (L.seen log) (L.may_leave log) →
            IsBegun (arc_value config) header (new_server (arc_value config)) (L.seen store.log) (L.may_leave store.log) store.whole) }

        // The store stands for a history of no moves.
        ensures stands { IfOk result (λ store. IsTrue (L.tells store.log) →
            Only (L.seen log) (L.may_leave log) →
            StandsFor (arc_value config) (new_server (arc_value config)) L.tears store.end
            (L.seen store.log) (L.may_leave store.log) store.whole store.books [] []) }

        // After a fault a crash leaves no generation, or one that stands for no moves.
        ensures crash { IfErr result (λ refused. IsTrue (L.tells refused.log) →
            Only (L.seen log) (L.may_leave log) → L.seen log ≡ [] →
            (ending : OneEnding) → Premise L.tears ending →
            (left : List ℕ) → L.may_leave refused.log ending left →
            IsUnbegun left ⊎ HasHistory (arc_value config) (new_server (arc_value config)) [] left) }
    {
        match ServerBooks::new(alloc, &*config) {
            Ok(books) => Store::begin_with(alloc, config, header, books, log),
            Err(_) => Err(Refused {
                log,
                fault: StoreFault::NoMemory,
            }),
        }
    }

    /// Begins a generation of a configuration that opens with these books, in an empty log: writes its
    /// header with the configuration's table and a snapshot of them, and syncs each. A log that is not
    /// empty is refused as `Occupied`.
    ///
    /// The books have to be of the configuration, as `ServerBooks::restore` and `ServerBooks::cut`
    /// give them: else a later `open` refuses the log as `Misfit`.
    pub fn begin_with(
        alloc: Global,
        config: Arc<Config>,
        header: Header,
        books: ServerBooks,
        log: L,
    ) -> Result<Store<L>, Refused<L>>
        ensures told { IfOk result (λ store. IsTrue (L.tells store.log) → IsTrue (L.tells log)) }
        ensures refused { IfErr result (λ refused. IsTrue (L.tells refused.log) → IsTrue (L.tells log)) }
        ensures books { IfOk result (λ store. store.books ≡ books) }
        ensures header { IfOk result (λ store. store.header ≡ header) }
        ensures config { IfOk result (λ store. store.config ≡ config) }
        ensures over { IfOk result (λ store. store.is_over ≡ false) }

        // The log has this header and a snapshot of these books.
        ensures begun { IfOk result (λ store. IsTrue (L.tells store.log) →
            Only (L.seen log) (L.may_leave log) →
            IsBegun (arc_value config) header books (L.seen store.log) (L.may_leave store.log) store.whole) }

        // The store stands for a history of no moves after these books.
        ensures stands { IfOk result (λ store. IsTrue (L.tells store.log) →
            Only (L.seen log) (L.may_leave log) → IsServerOf (arc_value config) books →
            StandsFor (arc_value config) books L.tears store.end (L.seen store.log) (L.may_leave store.log)
            store.whole store.books [] []) }

        // After a fault a crash leaves no generation, or one that stands for no moves after them.
        ensures crash { IfErr result (λ refused. IsTrue (L.tells refused.log) →
            Only (L.seen log) (L.may_leave log) → L.seen log ≡ [] → IsServerOf (arc_value config) books →
            (ending : OneEnding) → Premise L.tears ending →
            (left : List ℕ) → L.may_leave refused.log ending left →
            IsUnbegun left ⊎ HasHistory (arc_value config) books [] left) }
    {
        let mut log = log;
        match begin_log(alloc, &mut log, header, &*config, &books) {
            Ok(whole) => Ok(Store {
                log,
                header,
                config,
                books,
                whole,
                end: End::Settled,
                is_over: false,
                buffer: Vec::new(alloc),
            }),
            Err(fault) => Err(Refused { log, fault }),
        }
    }

    /// Opens a log that a crash may have left, by the frames read from it: the books are those of
    /// its snapshot after its moves. Its torn end is cut off and the log is synced.
    ///
    /// A log that has no whole snapshot, is of another version, has another table than the
    /// configuration, or whose snapshot or moves do not fit it, is refused by name and stays as it was.
    pub fn open(
        alloc: Global,
        config: Arc<Config>,
        log: L,
        frames: &Frames,
    ) -> Result<Opened<L>, Refused<L>>
        requires { IsTrue (L.tells log) → frames.now.octets.items ≡ L.seen log }
        ensures told { IfOk result (λ opened. IsTrue (L.tells opened.store.log) → IsTrue (L.tells log)) }
        ensures config { IfOk result (λ opened. opened.store.config ≡ config) }
        ensures server { IfOk result (λ opened. IsServerOf (arc_value config) opened.store.books) }
        ensures header { IfOk result (λ opened. opened.store.header ≡ opened.header) }
        ensures over { IfOk result (λ opened. opened.store.is_over ≡ false) }
        ensures refused { IfErr result (λ refused. IsTrue (L.tells refused.log) → IsTrue (L.tells log)) }

        // What was found is what the frames have, whatever the log tells.
        ensures given { IfOk result (λ opened. (before : List (List ℕ)) → HasPayloads frames.now.octets.items before →
            IsFoundIn (arc_value config) before opened.header opened.store.books opened.moves) }
        ensures there { IfOk result (λ opened. IsThereIn (arc_value config) frames.now.octets.items
            opened.header opened.store.books opened.moves) }

        // The store stands for the history of the log.
        ensures stands { IfOk result (λ opened. IsTrue (L.tells opened.store.log) →
            (opening : ServerSeen) (history : List OneMove) →
            HasHistory (arc_value config) opening history (L.seen log) →
            StandsFor (arc_value config) opening L.tears opened.store.end
            (L.seen opened.store.log) (L.may_leave opened.store.log)
            opened.store.whole opened.store.books history []) }

        // What was found: the generation's own header and moves, and the length of the torn end.
        ensures found { IfOk result (λ opened. IsTrue (L.tells opened.store.log) →
            (opening : ServerSeen) (history : List OneMove) →
            (has : HasHistory (arc_value config) opening history (L.seen log)) →
            (opened.header ≡ has.are.header) × (opened.moves ≡ length has.are.moves)) }
        ensures torn { IfOk result (λ opened. IsTrue (L.tells opened.store.log) →
            length (L.seen log) ≡ opened.store.whole + opened.torn) }

        // After a fault a crash leaves the same history; and the fault is the reason.
        ensures crash { IfErr result (λ refused. IsTrue (L.tells refused.log) →
            Only (L.seen log) (L.may_leave log) →
            (opening : ServerSeen) (history : List OneMove) →
            HasHistory (arc_value config) opening history (L.seen log) →
            (ending : OneEnding) (left : List ℕ) → L.may_leave refused.log ending left →
            HasHistory (arc_value config) opening history left) }
        ensures why { IfErr result (λ refused. IsTrue (L.tells refused.log) →
            IsWhy (counts_of (arc_value config)) (octets_of (arc_value config)) (L.seen log) refused.fault) }
        ensures untouched { IfErr result (λ refused. IsTrue (L.tells refused.log) →
            LeavesAsItWas refused.fault (L.seen log) (L.seen refused.log)
            (L.may_leave log) (L.may_leave refused.log)) }
    {
        let mut log = log;
        match restore(alloc, &*config, &mut log, frames) {
            Ok(restored) => {
                let Restored {
                    reading,
                    whole,
                    torn,
                } = restored;
                let Reading {
                    header,
                    books,
                    moves,
                } = reading;
                let store = Store {
                    log,
                    header,
                    config,
                    books,
                    whole,
                    end: End::Settled,
                    is_over: false,
                    buffer: Vec::new(alloc),
                };
                Ok(Opened {
                    store,
                    header,
                    moves,
                    torn,
                })
            }
            Err(fault) => Err(Refused { log, fault }),
        }
    }

    // ---- recording a batch

    /// Cuts off what a failed append may have left. After a fault it may be tried again, unless a
    /// sync failed.
    fn settle(&mut self) -> Result<(), StoreFault>
        ensures told { IsTrue (L.tells self.new.log) → IsTrue (L.tells self.old.log) }
        ensures books { self.new.books ≡ self.old.books }
        ensures header { self.new.header ≡ self.old.header }
        ensures config { self.new.config ≡ self.old.config }
        ensures whole { self.new.whole ≡ self.old.whole }
        ensures buffer { self.new.buffer.items ≡ self.old.buffer.items }
        ensures settled { OnOk result (self.new.end ≡ settled) }
        ensures over { self.old.is_over ≡ false → self.new.is_over ≡ is_unsynced result }
        ensures fitting { IsErrOf result StoreFault.Unfit → ⊥ }
        ensures ends { IsTrue (L.tells self.new.log) → (before : List (List ℕ)) (unanswered : List ℕ) →
            self.old.whole ≡ length (frames before) →
            EndsSo self.old.end L.tears (L.seen self.old.log) (L.may_leave self.old.log) before unanswered →
            EndsSo self.new.end L.tears (L.seen self.new.log) (L.may_leave self.new.log) before unanswered }
    {
        match self.end {
            End::Settled => Ok(()),
            End::Unsettled => match mend(&mut self.log, self.whole) {
                Ok(()) => {
                    self.end = End::Settled;
                    Ok(())
                }
                Err(fault) => Err(noted(&mut self.is_over, fault)),
            },
        }
    }

    /// Records the payload in the buffer, which stands behind room for the head of its frame, at the
    /// end of a settled log, whose frames then have this length.
    fn add(&mut self, whole: usize) -> Result<(), StoreFault>
        requires end { self.old.end ≡ settled }
        requires room { 20 ≤ length self.old.buffer.items }
        requires fits { Fits (drop 20 self.old.buffer.items) }
        ensures told { IsTrue (L.tells self.new.log) → IsTrue (L.tells self.old.log) }
        ensures books { self.new.books ≡ self.old.books }
        ensures header { self.new.header ≡ self.old.header }
        ensures config { self.new.config ≡ self.old.config }
        ensures whole { OnOk result (self.new.whole ≡ whole) }
        ensures unadded { OnErr result (self.new.whole ≡ self.old.whole) }
        ensures settled { OnOk result (self.new.end ≡ settled) }
        ensures unsettled { OnErr result (self.new.end ≡ unsettled) }
        ensures over { self.old.is_over ≡ false → self.new.is_over ≡ is_unsynced result }
        ensures fitting { IsErrOf result StoreFault.Unfit → ⊥ }
        ensures added { IsTrue (L.tells self.new.log) → (before : List (List ℕ)) →
            IsSettled (L.seen self.old.log) (L.may_leave self.old.log) before → OnOk result
            (EndsSo settled L.tears (L.seen self.new.log) (L.may_leave self.new.log)
            (before ++ drop 20 self.old.buffer.items ∷ []) (drop 20 self.old.buffer.items)) }
        ensures left { IsTrue (L.tells self.new.log) → (before : List (List ℕ)) →
            IsSettled (L.seen self.old.log) (L.may_leave self.old.log) before → OnErr result
            (EndsSo unsettled L.tears (L.seen self.new.log) (L.may_leave self.new.log)
            before (drop 20 self.old.buffer.items)) }
    {
        self.end = End::Unsettled;
        match record_in_place(&mut self.log, &mut self.buffer) {
            Ok(()) => {
                self.end = End::Settled;
                self.whole = whole;
                Ok(())
            }
            Err(fault) => Err(noted(&mut self.is_over, fault)),
        }
    }

    /// Records a batch of moves, and then makes them. All memory is allocated first: room for the
    /// decisions, and what the frame of the batch needs beyond the longest before it. That frame is
    /// synced before a move is made.
    ///
    /// A batch with a move of no account, or that cannot be written, is `Unfit`. After a fault the
    /// books are as they were, and nothing may be answered: a crash leaves the batch whole or not
    /// at all. The next call cuts off what a failed append left. After a failed sync,
    /// `LogFault::Unsynced`, give the store up.
    pub fn commit(&mut self, alloc: Global, batch: Vec<Move>) -> Result<Recorded, StoreFault>
        ensures told { IsTrue (L.tells self.new.log) → IsTrue (L.tells self.old.log) }
        ensures header { self.new.header ≡ self.old.header }
        ensures config { self.new.config ≡ self.old.config }

        // The decisions are those of the books at that point, and the books have made the moves.
        ensures batch { IfOk result (λ recorded. recorded.batch ≡ batch.items) }
        ensures of { IfOk result (λ recorded. recorded.table ≡ self.old.header.table) }
        ensures before { IfOk result (λ recorded. recorded.before ≡ self.old.books) }
        ensures decided { IfOk result AreDecided }
        ensures decisions { IfOk result (λ recorded.
            recorded.decisions ≡ decisions_of self.old.books batch.items) }
        ensures books { OnOk result (self.new.books ≡ replay self.old.books batch.items) }
        ensures taken { OnOk result (AreTakenIn self.old.books batch.items) }
        ensures err { OnErr result (self.new.books ≡ self.old.books) }
        ensures unfit { IsErrOf result StoreFault.Unfit →
            (AreTakenIn self.old.books batch.items → All (MoveFits (counts_of (arc_value self.old.config))) batch.items → ⊥) }

        // The log then has the history and the batch, synced.
        ensures recorded { IsTrue (L.tells self.new.log) →
            (opening : ServerSeen) (history unanswered : List OneMove) →
            StandsFor (arc_value self.old.config) opening L.tears self.old.end (L.seen self.old.log) (L.may_leave self.old.log)
            self.old.whole self.old.books history unanswered → OnOk result
            (StandsFor (arc_value self.old.config) opening L.tears settled (L.seen self.new.log) (L.may_leave self.new.log)
            self.new.whole self.new.books (history ++ batch.items) batch.items) }
        ensures settled { OnOk result (self.new.end ≡ settled) }
        ensures over { self.old.is_over ≡ false → self.new.is_over ≡ is_unsynced result }

        // After a fault the log has the history, and at its end perhaps an unanswered batch: this
        // one, or an earlier one.
        ensures left { IsTrue (L.tells self.new.log) →
            (opening : ServerSeen) (history unanswered : List OneMove) →
            StandsFor (arc_value self.old.config) opening L.tears self.old.end (L.seen self.old.log) (L.may_leave self.old.log)
            self.old.whole self.old.books history unanswered → OnErr result
            (StandsFor (arc_value self.old.config) opening L.tears self.new.end (L.seen self.new.log) (L.may_leave self.new.log)
            self.new.whole self.new.books history unanswered
            ⊎ StandsFor (arc_value self.old.config) opening L.tears self.new.end (L.seen self.new.log) (L.may_leave self.new.log)
            self.new.whole self.new.books history batch.items) }
    {
        let decisions = Vec::with_capacity(alloc, batch.len())?;
        let whole = spell_batch(
            &mut self.buffer,
            &self.books,
            counts_in(&*self.config),
            self.whole,
            &batch,
        )?;
        self.settle()?;
        self.add(whole)?;
        let basis = Basis::of(&batch, &self.books);
        let decisions = self.books.make_all(batch, decisions);
        Ok(Recorded::new(basis, decisions, self.header.table))
    }

    // ---- the next generation

    /// Begins the next generation with the present books, in an empty log, and goes on with it; the
    /// old log is handed out. After a fault the store is as it was, and the next log is handed
    /// back.
    ///
    /// After a crash the newer log counts if its snapshot is whole, and else the older one.
    pub fn roll(&mut self, alloc: Global, header: Header, next: L) -> Result<L, Refused<L>>
        ensures told { IsTrue (L.tells self.new.log) → OnOk result (IsTrue (L.tells next)) }
        ensures refused { IfErr result (λ refused. IsTrue (L.tells refused.log) → IsTrue (L.tells next)) }
        ensures books { self.new.books ≡ self.old.books }
        ensures config { self.new.config ≡ self.old.config }
        ensures older { IfOk result (λ older. older ≡ self.old.log) }
        ensures header { OnOk result (self.new.header ≡ header) }
        ensures over { self.new.is_over ≡ self.old.is_over }
        ensures err { OnErr result (self.new ≡ self.old) }

        // The next log has this header and a snapshot of the books.
        ensures begun { IsTrue (L.tells self.new.log) → Only (L.seen next) (L.may_leave next) → OnOk result
            (IsBegun (arc_value self.new.config) header self.new.books (L.seen self.new.log) (L.may_leave self.new.log) self.new.whole) }

        // The store stands for the same history, by the next log alone.
        ensures stands { IsTrue (L.tells self.new.log) → Only (L.seen next) (L.may_leave next) →
            (opening : ServerSeen) (history unanswered : List OneMove) →
            StandsFor (arc_value self.old.config) opening L.tears self.old.end (L.seen self.old.log) (L.may_leave self.old.log)
            self.old.whole self.old.books history unanswered → OnOk result
            (StandsFor (arc_value self.old.config) opening L.tears self.new.end (L.seen self.new.log) (L.may_leave self.new.log)
            self.new.whole self.new.books history []) }

        // After a crash at any call the two logs together stand for it.
        ensures crash { IfErr result (λ refused. IsTrue (L.tells refused.log) → IsTrue (L.tells self.new.log) →
            Only (L.seen next) (L.may_leave next) → L.seen next ≡ [] →
            (opening : ServerSeen) (history unanswered : List OneMove) →
            StandsFor (arc_value self.old.config) opening L.tears self.old.end (L.seen self.old.log) (L.may_leave self.old.log)
            self.old.whole self.old.books history unanswered →
            (ending : OneEnding) → Premise L.tears ending → (older newer : List ℕ) →
            L.may_leave self.new.log ending older → L.may_leave refused.log ending newer →
            StandForHistory (arc_value self.old.config) opening history unanswered older newer) }
    {
        let mut next = next;
        match begin_log(alloc, &mut next, header, &*self.config, &self.books) {
            Ok(whole) => {
                self.header = header;
                self.whole = whole;
                self.end = End::Settled;
                Ok(mem::replace(&mut self.log, next))
            }
            Err(fault) => Err(Refused { log: next, fault }),
        }
    }

    // ---- other accounts of the same table

    /// Goes on with accounts of the same table, whose passwords, secrets and replies may be others.
    pub fn take_accounts(&mut self, config: Arc<Config>)
        requires { table_of (arc_value self.old.config) ≡ table_of (arc_value config) }
        ensures config { self.new.config ≡ config }
        ensures log { self.new.log ≡ self.old.log }
        ensures header { self.new.header ≡ self.old.header }
        ensures books { self.new.books ≡ self.old.books }
        ensures whole { self.new.whole ≡ self.old.whole }
        ensures end { self.new.end ≡ self.old.end }
        ensures over { self.new.is_over ≡ self.old.is_over }

        // The store stands for the same history.
        ensures stands { (opening : ServerSeen) (history unanswered : List OneMove) →
            StandsFor (arc_value self.old.config) opening L.tears self.old.end (L.seen self.old.log) (L.may_leave self.old.log)
            self.old.whole self.old.books history unanswered →
            StandsFor (arc_value config) opening L.tears self.new.end (L.seen self.new.log) (L.may_leave self.new.log)
            self.new.whole self.new.books history unanswered }
    {
        self.config = config;
    }

    // ---- look-ups

    /// What each account holds, in the order of their numbers. It fails only if memory is refused.
    pub fn rows(&self, alloc: Global) -> Result<Vec<Row>, NoMemory>
        ensures { IfOk result (λ rows. rows.items ≡ rows_in self.now.books) }
    {
        self.books.rows(alloc)
    }

    /// The links of an account, in the order in which they opened; `None` if there is no such
    /// account. It fails only if memory is refused.
    pub fn links(&self, alloc: Global, account: u32) -> Result<Option<Vec<SavedLink>>, NoMemory>
        ensures { IfOk result (λ links.
            option_map (λ some. saved_links some.items) links ≡ links_in self.now.books account) }
    {
        self.books.links(alloc, account)
    }

    /// The books.
    pub fn books(&self) -> &ServerBooks
        ensures { result.now ≡ self.now.books }
    {
        &self.books
    }

    /// The accounts, clients and rules of the books.
    pub fn config(&self) -> &Arc<Config>
        ensures { result.now ≡ self.now.config }
    {
        &self.config
    }

    /// The header of the log's generation.
    pub fn header(&self) -> Header
        ensures { result ≡ self.now.header }
    {
        self.header
    }

    /// The log, borrowed.
    pub fn log(&self) -> &L
        ensures { result.now ≡ self.now.log }
    {
        &self.log
    }

    /// The log.
    pub fn into_log(self) -> L
        ensures { result ≡ self.log }
    {
        let Store { log, .. } = self;
        log
    }
}

impl<L: Log + Drop> Store<L> {
    /// The books, without their log.
    pub fn into_books(self) -> ServerBooks
        ensures { result ≡ self.books }
    {
        self.books
    }
}

/// Spells a batch that these books can make and that can be written, behind room for the head of its
/// frame. Gives the length that the whole frames of a log have with it.
fn spell_batch(
    buffer: &mut Vec<u8>,
    books: &ServerBooks,
    counts: Counts,
    whole: usize,
    batch: &[Move],
) -> Result<usize, StoreFault>
    ensures taken { OnOk result (AreTakenIn books.now batch.now) }
    ensures fit { OnOk result ((moves_field counts).Fits batch.now) }
    ensures room { OnOk result (20 ≤ length buffer.new.items) }
    ensures spelled { OnOk result (drop 20 buffer.new.items ≡ (moves_field counts).spell batch.now) }
    ensures short { OnOk result (Fits (drop 20 buffer.new.items)) }
    ensures whole { IfOk result (λ len. len ≡ whole + (20 + length (drop 20 buffer.new.items))) }
    ensures unlogged { is_unsynced result ≡ false }
    ensures unfit { IsErrOf result StoreFault.Unfit →
        (AreTakenIn books.now batch.now → All (MoveFits counts) batch.now → ⊥) }
{
    if !books.takes_all(batch) {
        return Err(StoreFault::Unfit);
    }
    leave_head(buffer)?;
    match counts.push_moves(buffer, batch) {
        Ok(()) => {}
        Err(SpellFault::NoMemory) => return Err(StoreFault::NoMemory),
        Err(SpellFault::Unfit) => return Err(StoreFault::Unfit),
    }
    match whole_with(whole, buffer.len() - HEAD_LEN) {
        Some(whole) => Ok(whole),
        None => Err(StoreFault::TooLong),
    }
}

/// The fault of a store whose log has this one: it is over if a sync failed.
fn noted(is_over: &mut bool, fault: LogFault) -> StoreFault
    ensures fault { result ≡ StoreFault.Log fault }
    ensures over { is_over.old ≡ false → is_over.new ≡ is_last (record_fault result) }
{
    match fault {
        LogFault::Unsynced => {
            *is_over = true;
            StoreFault::Log(LogFault::Unsynced)
        }
        _ => StoreFault::Log(fault),
    }
}
