//! How the place of a session is freed that its access server has forgotten, by its Stop, or those
//! of all its sessions, by its Accounting-Off.

ghost use Rattle.std.specs.Prelude.{◌≡◌, ◌↔◌, ◌∷◌, [], List, None, IfOk, IsErrOf, IsTrue, OnErr};
ghost use Rattle.std.specs.Arc.{arc_value};
ghost use Rattle.std.specs.Option.{option_map};
ghost use Rattle.rld_control.specs.Reply.{reply_octets};
ghost use Rattle.rld_state.specs.Freeing.{AreFreed, AreFreedBy, IsFreed, IsFreedBy, IsNoted, StaysUnheld, books_after_it, history_after_it, moves_after_it, octets_of_freed};
ghost use Rattle.rld_state.specs.Held.{is_held_in};
ghost use Rattle.rld_store.specs.Stored.{HasRecorded};
ghost use Rattle.rsl_accounts.specs.Configuration.{Configuration, account_number, client_number};
ghost use Rattle.rld_books.specs.Server.{ServerSeen};
ghost use Rattle.rsl_shard.specs.declared.moved.Move.{Move as OneMove};

use crate::not_held::NotHeld;
use crate::state::ServerState;
use rld_control::{FreeFault, NamedServer, NamedSession, Off, Reply, Stop};
use rld_log::Log;
use rld_store::Recorded;
use rsl_shard::Move;
use rsl_wire::NoMemory;
use std::alloc::Global;

/// What came of a session that was to be freed, or of those of an access server.
#[derive(Drop)]
pub enum Freed {
    /// A link was bound to it, and its Stop is recorded; or the restart of the access server is.
    Done(Recorded),
    /// No link is bound to it, so nothing was recorded.
    NotHeld(NotHeld),
    /// A link is bound to it, and its Stop was not recorded; or the restart was not.
    Unrecorded,
}

impl Freed {
    /// The answer to the operator who asked for it; `None` where it was not recorded, since then it
    /// is not done.
    pub fn reply(&self) -> Option<Reply<'static>>
        ensures { option_map reply_octets result ≡ octets_of_freed self.now }
    {
        match self {
            Freed::Done(_recorded) => Some(Reply::Done(b"freed\n")),
            Freed::NotHeld(_unheld) => Some(Reply::Done(b"no such session\n")),
            Freed::Unrecorded => None,
        }
    }
}

impl<L: Log + Drop> ServerState<L> {
    /// Frees the place of a session that an operator names: records the Stop that its access server would
    /// have sent to this server, at a moment in seconds since 1970. Where no link is bound to the session
    /// nothing is recorded.
    ///
    /// The faults are those of `Stop::of`. With each of them all is as it was.
    pub fn free(
        &mut self,
        alloc: Global,
        named: &NamedSession,
        moment: u64,
    ) -> Result<Freed, FreeFault>
        ensures freed { IfOk result
            (IsFreed (arc_value self.old.recorder.config) self.old.recorder.books named.now moment) }
        ensures books { IfOk result (λ freed.
            self.new.recorder.books ≡ books_after_it self.old.recorder.books freed) }
        ensures moves { IfOk result (λ freed. self.new.moves ≡ moves_after_it self.old.moves freed) }
        ensures header { self.new.recorder.header ≡ self.old.recorder.header }
        ensures config { self.new.recorder.config ≡ self.old.recorder.config }
        ensures not_held { IfOk result (StaysUnheld self.old self.new) }
        ensures noted { IfOk result (IsNoted
            (record { failed = self.old.has_failed; ended = self.old.has_ended })
            (record { failed = self.new.has_failed; ended = self.new.has_ended })) }
        ensures err { OnErr result (self.new ≡ self.old) }
        ensures account { IsErrOf result FreeFault.UnknownAccount ↔
            (account_number (arc_value self.old.recorder.config) named.now.account ≡ None) }
        ensures client { IsErrOf result FreeFault.UnknownClient →
            client_number (arc_value self.old.recorder.config) named.now.client ≡ None }

        // The store has recorded what it had before, and that Stop.
        ensures stands { IsTrue (L.tells self.new.recorder.log) →
            (opening : ServerSeen) (history : List OneMove) →
            (IsTrue (L.tells self.old.recorder.log) →
            HasRecorded (arc_value self.old.recorder.config) opening L.tears self.old.recorder.end
            (L.seen self.old.recorder.log) (L.may_leave self.old.recorder.log) self.old.recorder.whole
            self.old.recorder.books history) → IfOk result (λ freed.
            HasRecorded (arc_value self.old.recorder.config) opening L.tears self.new.recorder.end
            (L.seen self.new.recorder.log) (L.may_leave self.new.recorder.log) self.new.recorder.whole
            self.new.recorder.books (history_after_it history freed)) }
    {
        let stop = Stop::of(alloc, self.accounts(), self.boot(), named)?;
        Ok(self.record_stop(alloc, stop, moment)?)
    }

    /// Records a Stop, if it ends a link.
    fn record_stop(&mut self, alloc: Global, stop: Stop, moment: u64) -> Result<Freed, NoMemory>
        ensures freed { IfOk result (IsFreedBy self.old.recorder.books stop moment) }
        ensures books { IfOk result (λ freed.
            self.new.recorder.books ≡ books_after_it self.old.recorder.books freed) }
        ensures moves { IfOk result (λ freed. self.new.moves ≡ moves_after_it self.old.moves freed) }
        ensures header { self.new.recorder.header ≡ self.old.recorder.header }
        ensures config { self.new.recorder.config ≡ self.old.recorder.config }
        ensures not_held { IfOk result (StaysUnheld self.old self.new) }
        ensures noted { IfOk result (IsNoted
            (record { failed = self.old.has_failed; ended = self.old.has_ended })
            (record { failed = self.new.has_failed; ended = self.new.has_ended })) }
        ensures err { OnErr result (self.new ≡ self.old) }

        // The store has recorded what it had before, and that Stop.
        ensures stands { IsTrue (L.tells self.new.recorder.log) →
            (opening : ServerSeen) (history : List OneMove) →
            (IsTrue (L.tells self.old.recorder.log) →
            HasRecorded (arc_value self.old.recorder.config) opening L.tears self.old.recorder.end
            (L.seen self.old.recorder.log) (L.may_leave self.old.recorder.log) self.old.recorder.whole
            self.old.recorder.books history) → IfOk result (λ freed.
            HasRecorded (arc_value self.old.recorder.config) opening L.tears self.new.recorder.end
            (L.seen self.new.recorder.log) (L.may_leave self.new.recorder.log) self.new.recorder.whole
            self.new.recorder.books (history_after_it history freed)) }
    {
        if !self.holds(alloc, &stop)? {
            let unheld = NotHeld::of(self.recorder().books(), &stop);
            return Ok(Freed::NotHeld(unheld));
        }
        let batch = batch_of(alloc, stop.into_move(moment))?;
        let table = self.header().table;
        match self.record(alloc, Some(table), batch) {
            Ok(recorded) => Ok(Freed::Done(recorded)),
            Err(_) => Ok(Freed::Unrecorded),
        }
    }

    /// Frees the places of all sessions of an access server that an operator names: records the
    /// restart that its Accounting-Off means to this server, at a moment in seconds since 1970, whether
    /// or not it has a session.
    ///
    /// The faults are those of `Off::of`. With each of them all is as it was.
    pub fn free_server(
        &mut self,
        alloc: Global,
        named: &NamedServer,
        moment: u64,
    ) -> Result<Freed, FreeFault>
        ensures freed { IfOk result
            (AreFreed (arc_value self.old.recorder.config) self.old.recorder.books named.now moment) }
        ensures books { IfOk result (λ freed.
            self.new.recorder.books ≡ books_after_it self.old.recorder.books freed) }
        ensures moves { IfOk result (λ freed. self.new.moves ≡ moves_after_it self.old.moves freed) }
        ensures header { self.new.recorder.header ≡ self.old.recorder.header }
        ensures config { self.new.recorder.config ≡ self.old.recorder.config }
        ensures noted { IfOk result (IsNoted
            (record { failed = self.old.has_failed; ended = self.old.has_ended })
            (record { failed = self.new.has_failed; ended = self.new.has_ended })) }
        ensures err { OnErr result (self.new ≡ self.old) }
        ensures client { IsErrOf result FreeFault.UnknownClient ↔
            (client_number (arc_value self.old.recorder.config) named.now.client ≡ None) }

        // The store has recorded what it had before, and that restart.
        ensures stands { IsTrue (L.tells self.new.recorder.log) →
            (opening : ServerSeen) (history : List OneMove) →
            (IsTrue (L.tells self.old.recorder.log) →
            HasRecorded (arc_value self.old.recorder.config) opening L.tears self.old.recorder.end
            (L.seen self.old.recorder.log) (L.may_leave self.old.recorder.log) self.old.recorder.whole
            self.old.recorder.books history) → IfOk result (λ freed.
            HasRecorded (arc_value self.old.recorder.config) opening L.tears self.new.recorder.end
            (L.seen self.new.recorder.log) (L.may_leave self.new.recorder.log) self.new.recorder.whole
            self.new.recorder.books (history_after_it history freed)) }
    {
        let off = Off::of(alloc, self.accounts(), self.boot(), named)?;
        Ok(self.record_off(alloc, off, moment)?)
    }

    /// Records the restart that an Accounting-Off means.
    fn record_off(&mut self, alloc: Global, off: Off, moment: u64) -> Result<Freed, NoMemory>
        ensures freed { IfOk result (AreFreedBy self.old.recorder.books off moment) }
        ensures books { IfOk result (λ freed.
            self.new.recorder.books ≡ books_after_it self.old.recorder.books freed) }
        ensures moves { IfOk result (λ freed. self.new.moves ≡ moves_after_it self.old.moves freed) }
        ensures header { self.new.recorder.header ≡ self.old.recorder.header }
        ensures config { self.new.recorder.config ≡ self.old.recorder.config }
        ensures noted { IfOk result (IsNoted
            (record { failed = self.old.has_failed; ended = self.old.has_ended })
            (record { failed = self.new.has_failed; ended = self.new.has_ended })) }
        ensures err { OnErr result (self.new ≡ self.old) }

        // The store has recorded what it had before, and that restart.
        ensures stands { IsTrue (L.tells self.new.recorder.log) →
            (opening : ServerSeen) (history : List OneMove) →
            (IsTrue (L.tells self.old.recorder.log) →
            HasRecorded (arc_value self.old.recorder.config) opening L.tears self.old.recorder.end
            (L.seen self.old.recorder.log) (L.may_leave self.old.recorder.log) self.old.recorder.whole
            self.old.recorder.books history) → IfOk result (λ freed.
            HasRecorded (arc_value self.old.recorder.config) opening L.tears self.new.recorder.end
            (L.seen self.new.recorder.log) (L.may_leave self.new.recorder.log) self.new.recorder.whole
            self.new.recorder.books (history_after_it history freed)) }
    {
        let batch = batch_of(alloc, off.into_move(moment))?;
        let table = self.header().table;
        match self.record(alloc, Some(table), batch) {
            Ok(recorded) => Ok(Freed::Done(recorded)),
            Err(_fault) => Ok(Freed::Unrecorded),
        }
    }

    /// Whether a link is bound to the session that a Stop ends.
    pub(crate) fn holds(&self, alloc: Global, stop: &Stop) -> Result<bool, NoMemory>
        ensures { IfOk result (λ held. held ≡ is_held_in self.now.recorder.books stop.now) }
    {
        match self.recorder().links(alloc, stop.account)? {
            Some(links) => Ok(stop.ends_one(links.as_slice())),
            None => Ok(false),
        }
    }
}

/// A move as a batch of its own.
fn batch_of(alloc: Global, moved: Move) -> Result<Vec<Move>, NoMemory>
    ensures { IfOk result (λ batch. batch.items ≡ moved ∷ []) }
{
    let mut batch = Vec::with_capacity(alloc, 1)?;
    batch.push(moved)?;
    Ok(batch)
}
