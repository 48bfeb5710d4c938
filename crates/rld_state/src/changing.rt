//! Changing the accounts of a running server.

ghost use Rattle.std.specs.Prelude.{◌≡◌, ◌<◌, ◌||◌, [], false, true, IfErr, IfOk, IsErrOf, IsTrue, OnErr, OnOk};
ghost use Rattle.std.specs.Arc.{arc_value};
ghost use Rattle.rld_books.specs.Admitted.{AreAdmitted};
ghost use Rattle.rld_books.specs.Saved.{IsServerOf};
ghost use Rattle.rld_spelling.specs.Tables.{table_of};
ghost use Rattle.rld_start.specs.Counted.{AreSessionsOf};
ghost use Rattle.rld_start.specs.NextHeaders.{header_changed};
ghost use Rattle.rld_state.specs.Keeping.{IsGone, is_over};
ghost use Rattle.rld_store.specs.Premises.{Only};
ghost use Rattle.rld_store.specs.Standing.{StandsFor};

use crate::reload_result::Change;
use crate::roll_fault::{NotBegun, RollFault};
use crate::state::ServerState;
use rld_books::BlankBooks;
use rld_folder::{Generation, Synced};
use rld_log::Log;
use rld_spelling::Header;
use rld_start::{
    Generations, NextLog, StartFault, Written, admitted_books, changed_header, sessions_in,
};
use rld_store::Store;
use rsl_accounts::Config;
use std::alloc::Global;
use std::sync::Arc;

/// A generation that was begun with other accounts, whose log is on the disk.
#[derive(Drop)]
pub(crate) struct Opening<L: Log> {
    /// The books that it opens with, and its log.
    pub(crate) store: Store<L>,
    /// Proof that the log is on the disk.
    pub(crate) synced: Synced,
    /// What the change does to sessions.
    pub(crate) change: Change,
}

/// A change of the accounts, and what is left of the former ones, whose drop takes some time: drop it
/// where no thread waits.
#[derive(Drop)]
pub struct Changed<L: Log> {
    /// What the change has done to sessions.
    pub change: Change,
    /// The store of the former accounts.
    pub former: Store<L>,
}

impl<L: Log + Drop> ServerState<L> {
    /// Goes on with other accounts: begins the generation of this log with their table, and with the
    /// books admitted from the present ones. Its log is synced to the disk, whatever the pacing, before
    /// anything is recorded in it. Blank books that were made for these accounts are used up.
    ///
    /// After a fault the log is removed before anything more is recorded, as of `roll`, and the
    /// present generation goes on. A log of a generation that is not above the present one is `Former`.
    /// `Ended` comes if the removal of the log is not certain, and if nothing more could be recorded
    /// before: then nothing more is recorded.
    pub fn change<G: Generations>(
        &mut self,
        alloc: Global,
        generations: &G,
        config: Arc<Config>,
        next: NextLog<L>,
        blanks: BlankBooks,
    ) -> Result<Changed<L>, NotBegun>
        ensures given_up { self.old.has_ended ≡ true →
            (IsErrOf result NotBegun.Ended) × (self.new ≡ self.old) }
        ensures gone { IfErr result (IsGone next.key.generation) }
        ensures newer { OnOk result
            (self.old.recorder.header.generation < self.new.recorder.header.generation) }
        ensures config { OnOk result (self.new.recorder.config ≡ config) }
        ensures key { OnOk result (self.new.key ≡ next.key) }
        ensures header { OnOk result (self.new.recorder.header
            ≡ header_changed self.old.recorder.header next.key.generation self.old.moves) }
        ensures moves { OnOk result (self.new.moves ≡ 0) }
        ensures over { OnOk result (self.new.recorder.is_over ≡ false) }
        ensures admitted { OnOk result
            (AreAdmitted (table_of (arc_value self.old.recorder.config)) self.old.recorder.books
            (table_of (arc_value config)) self.new.recorder.books) }
        ensures sessions { IfOk result (λ changed.
            AreSessionsOf self.old.recorder.books changed.change.held
            × AreSessionsOf self.new.recorder.books changed.change.sessions) }
        ensures former { IfOk result (λ changed. changed.former ≡ self.old.recorder) }
        ensures ended { self.new.has_ended ≡ (self.old.has_ended || is_over result) }
        ensures failed { self.new.has_failed ≡ self.old.has_failed }

        // The store stands for a history of no moves after its books.
        ensures stands { IsTrue (L.tells self.new.recorder.log) → Only (L.seen next.log) (L.may_leave next.log) →
            OnOk result (StandsFor (arc_value config) self.new.recorder.books L.tears
            self.new.recorder.end (L.seen self.new.recorder.log) (L.may_leave self.new.recorder.log)
            self.new.recorder.whole self.new.recorder.books [] []) }

        // After a fault the present generation stays, with its accounts, its log and its count.
        ensures same { OnErr result (self.new.recorder ≡ self.old.recorder) }
        ensures same_key { OnErr result (self.new.key ≡ self.old.key) }
        ensures same_moves { OnErr result (self.new.moves ≡ self.old.moves) }
    {
        if self.has_ended() {
            return Err(NotBegun::Ended);
        }
        let NextLog { key, log } = next;
        let generation = key.generation();
        match self.opening(alloc, generations, config, generation, log, blanks) {
            Ok(opening) => {
                let change = opening.change;
                let former = self.enter(opening, key);
                Ok(Changed { change, former })
            }
            Err(fault) => {
                let removed = generations.remove(alloc, key);
                Err(self.pass_over(generation, fault, removed))
            }
        }
    }

    /// Begins the generation of this number with other accounts, in its log, and syncs that. After a
    /// fault the log has to be removed.
    fn opening<G: Generations>(
        &self,
        alloc: Global,
        generations: &G,
        config: Arc<Config>,
        generation: u64,
        log: L,
        blanks: BlankBooks,
    ) -> Result<Opening<L>, RollFault>
        ensures newer { OnOk result (self.now.recorder.header.generation < generation) }
        ensures header { IfOk result (λ opening. opening.store.header
            ≡ header_changed self.now.recorder.header generation self.now.moves) }
        ensures config { IfOk result (λ opening. opening.store.config ≡ config) }
        ensures server { IfOk result (λ opening. IsServerOf (arc_value config) opening.store.books) }
        ensures over { IfOk result (λ opening. opening.store.is_over ≡ false) }
        ensures admitted { IfOk result (λ opening.
            AreAdmitted (table_of (arc_value self.now.recorder.config)) self.now.recorder.books
            (table_of (arc_value config)) opening.store.books) }
        ensures synced { IfOk result (λ opening. opening.synced.generation ≡ generation) }
        ensures held { IfOk result (λ opening.
            AreSessionsOf self.now.recorder.books opening.change.held) }
        ensures sessions { IfOk result (λ opening.
            AreSessionsOf opening.store.books opening.change.sessions) }
        ensures going_on { IsErrOf result RollFault.Ended → ⊥ }
        ensures stands { IfOk result (λ opening. IsTrue (L.tells opening.store.log) →
            Only (L.seen log) (L.may_leave log) →
            StandsFor (arc_value config) opening.store.books L.tears
            opening.store.end
            (L.seen opening.store.log) (L.may_leave opening.store.log) opening.store.whole opening.store.books [] []) }
    {
        let former = self.header();
        if generation <= former.generation {
            return Err(RollFault::Former);
        }
        let Some(header) = changed_header(&former, generation, self.moves()) else {
            return Err(RollFault::Start(StartFault::NoNumber));
        };
        let held = sessions_in(self.recorder().rows(alloc)?.as_slice());
        let store = self.admit(alloc, config, header, blanks, log)?;
        let sessions = sessions_in(store.rows(alloc)?.as_slice());
        let synced = generations.sync(alloc, Written::by(&store))?;
        Ok(Opening {
            store,
            synced,
            change: Change { held, sessions },
        })
    }
}

impl<L: Log + Drop> ServerState<L> {
    /// The books admitted to other accounts, as a store that begins the generation of this header
    /// in an empty log. Blank books that were made for those accounts are used up. After a fault
    /// the log has to be removed.
    fn admit(
        &self,
        alloc: Global,
        config: Arc<Config>,
        header: Header,
        blanks: BlankBooks,
        log: L,
    ) -> Result<Store<L>, RollFault>
        ensures header { IfOk result (λ store. store.header ≡ header) }
        ensures config { IfOk result (λ store. store.config ≡ config) }
        ensures server { IfOk result (λ store. IsServerOf (arc_value config) store.books) }
        ensures over { IfOk result (λ store. store.is_over ≡ false) }
        ensures admitted { IfOk result (λ store.
            AreAdmitted (table_of (arc_value self.now.recorder.config)) self.now.recorder.books
            (table_of (arc_value config)) store.books) }
        ensures going_on { IsErrOf result RollFault.Ended → ⊥ }

        // The store stands for a history of no moves after these books.
        ensures stands { IfOk result (λ store. IsTrue (L.tells store.log) →
            Only (L.seen log) (L.may_leave log) →
            StandsFor (arc_value config) store.books L.tears store.end (L.seen store.log)
            (L.may_leave store.log) store.whole store.books [] []) }
    {
        let books = admitted_books(
            alloc,
            self.accounts(),
            Generation::Numbered(self.header().generation),
            self.recorder().books(),
            &*config,
            blanks,
        )?;
        match Store::begin_with(alloc, config, header, books, log) {
            Ok(store) => Ok(store),
            Err(refused) => Err(RollFault::Store(refused.fault)),
        }
    }
}
