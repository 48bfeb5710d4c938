//! Turns of a server whose state all its workers share.

ghost use Rattle.std.specs.Prelude.{◌≡◌, ◌∷◌, [], true, IfOk, IfSome, is_err};
ghost use Rattle.std.specs.Arc.{arc_value};
ghost use Rattle.rld_current.specs.Turning.{HasTurnedWith, outcome_of};
ghost use Rattle.rld_store.specs.Recorded.{AreDecided};
ghost use Rattle.rld_turn.specs.Recorded.{HasCount, IsOf, decisions_in, recorded_in};
ghost use Rattle.rld_turn.specs.Told.{HasBegun};
ghost use Rattle.rld_turn.specs.Turned.{state_of};
ghost use Rattle.rsl_shard.specs.declared.moved.Move.TheVariants.{Tick};

use crate::current::Current;
use rld_edges::RunFault;
use rld_log::Log;
use rld_networks::Network;
use rld_state::ServerState;
use rld_store::{RecordFault, Recorded};
use rld_turn::{Gathered, Receiver, Watch};
use rsl_port::{Clock, DatagramPort, PortFault};
use rsl_shard::Move;
use std::alloc::Global;
use std::net::SocketAddr;
use std::sync::{Mutex, Wait};

/// What turns of a server share.
#[derive(Drop)]
pub struct Shared<'a, L: Log, R> {
    /// What waits for the lock.
    pub rt: &'a R,
    /// For the moves and the answers of a turn.
    pub alloc: Global,
    /// The state of the server, behind its lock.
    pub state: &'a Mutex<ServerState<L>>,
    /// The networks that stand for its clients.
    pub networks: &'a [Network],
}

/// What a turn came to.
#[derive(Drop)]
pub struct Turn {
    /// The fault of the port, if it failed to give a datagram. What was taken before is answered all the same.
    pub port: Result<(), PortFault>,
    /// What was recorded of the turn: nothing, if its datagrams have no move.
    pub recorded: Result<Option<Recorded>, RecordFault>,
}

impl Turn {
    /// The fault of the worker that took the turn: none if another turn follows. `Down` comes if the port failed, and
    /// else `Unsynced` if nothing more can be recorded.
    pub fn outcome(&self) -> Result<(), RunFault>
        ensures { result ≡ outcome_of self.now.port self.now.recorded }
    {
        match (&self.port, &self.recorded) {
            (Err(PortFault), _) => Err(RunFault::Down),
            (Ok(()), Err(RecordFault::Ended)) => Err(RunFault::Unsynced),
            (Ok(()), _) => Ok(()),
        }
    }
}

impl<L: Log + Drop, R: Wait> Shared<'_, L, R> {
    /// Takes a turn with what is present: takes what waits at a port, at most 64 datagrams of up to 4,096 octets,
    /// records their moves, and sends the answers to their peers (RFC 2865 section 3, RFC 2866 section 3).
    ///
    /// The moves are recorded as one batch, at the moment that the clock shows when the turn begins, and with the table
    /// that is present, or not at all. Each datagram is then answered, in the order in which they were taken; one
    /// with a move only if the batch was recorded. If an answer cannot be sent, what was recorded stands. `watch`
    /// notes first that the turn begins, then, in that order, how each datagram ended, and last that the turn is over.
    pub fn turn<P: DatagramPort<SocketAddr>, C: Clock, W: Watch>(
        &self,
        current: &Current,
        receiver: &mut Receiver,
        clock: &mut C,
        datagrams: &mut P,
        watch: &mut W,
    ) -> Turn
        ensures same { receiver.new.port ≡ receiver.old.port }
        ensures begun { HasBegun (W.turns watch.old) (W.turns watch.new) }
        ensures contents { P.contents datagrams.new ≡ P.contents datagrams.old }
        ensures turned { HasTurnedWith (arc_value current.now.config) self.now.networks.now
            current.now.boot current.now.table receiver.old.port
            (P.tells datagrams.new ≡ true) (recorded_in result.recorded)
            (state_of (P.taken datagrams.old) (P.sent datagrams.old) (C.shown clock.old))
            (state_of (P.taken datagrams.new) (P.sent datagrams.new) (C.shown clock.new))
            (W.knows watch.old) (W.knows watch.new) }
        ensures down { P.tells datagrams.new ≡ true → P.is_down datagrams.new ≡ is_err result.port }
    {
        let present = current.present(self.networks);
        watch.begin();
        let moment = clock.now();
        let Gathered { moves, port } = receiver.gather(&present, moment, datagrams);
        let recorded = self.record(present.table, moves);
        receiver.answer(&present, &recorded, datagrams, watch);
        watch.finish();
        Turn { port, recorded }
    }

    /// Records these moves as one batch of the accounts of this table, if there is one.
    fn record(&self, table: u64, moves: Vec<Move>) -> Result<Option<Recorded>, RecordFault>
        ensures count { HasCount (decisions_in result) moves.items }
        ensures batch { IsOf moves.items (recorded_in result) }
        ensures table { IfSome (recorded_in result) (λ recorded. recorded.table ≡ table) }
    {
        if moves.is_empty() {
            return Ok(None);
        }
        let alloc = self.alloc;
        match self.state.lock(self.rt).record(alloc, Some(table), moves) {
            Ok(recorded) => Ok(Some(recorded)),
            Err(fault) => Err(fault),
        }
    }

    /// Records a tick of this moment, as a batch of its own, which ends what has lapsed. It names no account, and is
    /// recorded whatever table is present.
    ///
    /// `Failed` comes if it was not recorded or memory is refused, and `Ended` if nothing more can be recorded. Then
    /// the books are as they were.
    pub fn tick(&self, moment: u64) -> Result<Recorded, RecordFault>
        ensures { IfOk result (λ recorded. (recorded.batch ≡ Tick moment ∷ []) × AreDecided recorded) }
    {
        let alloc = self.alloc;
        match batch_of(alloc, Move::Tick { moment }) {
            Some(batch) => self.state.lock(self.rt).record(alloc, None, batch),
            None => Err(RecordFault::Failed),
        }
    }

    /// Whether a batch of any worker was not recorded since the last call.
    pub fn take_failed(&self) -> bool {
        self.state.lock(self.rt).take_failed()
    }
}

/// A batch of one move, unless memory is refused.
fn batch_of(alloc: Global, moved: Move) -> Option<Vec<Move>>
    ensures { IfSome result (λ batch. batch.items ≡ moved ∷ []) }
{
    let mut batch = Vec::new(alloc);
    match batch.push(moved) {
        Ok(()) => Some(batch),
        Err(_) => None,
    }
}
