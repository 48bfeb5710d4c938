ghost use Rattle.std.specs.Prelude.{◌≡◌, ℕ, ◌+◌, ◌≤◌, ◌<◌, [], IfErr, IfOk, IsOk, OnErr, vec_capacity, vec_len};
ghost use Rattle.rsl_event.specs.Prepared.{HasAccount, HasOwnAct, IsPrepared};
ghost use Rattle.rsl_shard.specs.Moves.{IsOfAll, IsTaken};
ghost use Rattle.rsl_shard.specs.Setup.{setup_of};
ghost use Rattle.rsl_shard.specs.declared.moved.Move.TheVariants as moves;
ghost use Rattle.rsl_service.specs.Applied.{HasDecided, IsApplied, IsStopped, swept_before};
ghost use Rattle.rsl_service.specs.Receipts.{AreNoted, HasOneMore, IsNoted, count_of};

use crate::desk::Desk;
use crate::fault::{ApplyFault, StepFault};
use crate::ledger::Tally;
use crate::pass::{Notes, Pass, ReplyRoom};
use crate::service::{Desks, Gate, Service};
use rsl_event::{Decision, Meaning, Prepared, Said, reply_to, room_in};
use rsl_shard::{Move, Moves};
use rsl_wire::{Draft, NoMemory};
use std::alloc::Global;
use std::sync::ledger::Share;
use std::sync::{Mutex, Wait};

/// The answer to a datagram.
#[derive(Drop)]
pub struct Answered {
    /// The answer in a word.
    pub said: Said,
    /// The octets of the reply: the whole packet, ready to send.
    pub octets: Vec<u8>,
}

/// A draft of the reply to a datagram, in the buffer of the reply before it. It allocates only if
/// the buffer holds fewer than 4,096 octets; if that is refused, the buffer is freed.
fn draft_in(alloc: Global, room: &mut ReplyRoom, prepared: &Prepared<'_>) -> Result<Draft, NoMemory>
    ensures draft { IfOk result (λ draft.
        draft ≡ record { id = prepared.now.packet.id; attributes = [] }) }
    ensures enough { 4096 ≤ room.old → IsOk result }
{
    room_in(prepared, room.take(alloc))
}

impl<L0: Tally, L1: Tally, L2: Tally, L3: Tally, G: Gate> Service<L0, L1, L2, L3, G> {
    /// Answers a datagram (RFC 2865 section 2, RFC 2866 section 2), after making its moves at this
    /// moment, in seconds.
    ///
    /// An own act moves the account's shard, and a stray shard 0. A restart sweeps the shards in
    /// turn, and is answered after the last. A reject takes no lock. Each move has a receipt in the
    /// pass; the octets may be given back to the pass (`Pass::take_back`).
    ///
    /// On a fault there is no answer: `NoMemory` comes if memory is refused, and `Spent` if a shard
    /// has made 2^64 - 1 moves. Either says how many shards a restart had swept by then; those
    /// moves stand, with their receipts, and all else is as it was.
    #[tactic(auto, using(crate::proofs::Noting::none_stopped))]
    pub fn apply<R: Wait>(
        &self,
        rt: &R,
        alloc: Global,
        pass: &mut Pass<L0, L1, L2, L3>,
        moment: u64,
        prepared: Prepared<'_>,
    ) -> Result<Answered, ApplyFault>
        requires prepared { IsPrepared self.now.config prepared }
        requires act { HasOwnAct prepared.meaning }
        ensures applied { IfOk result (λ answered.
            IsApplied self.now moment prepared.entry answered pass.old.receipts pass.new.receipts) }
        ensures err { IfErr result (λ fault.
            IsStopped self.now moment prepared.entry.meaning fault pass.old.receipts pass.new.receipts) }
        ensures fewer { IfErr result (λ fault.
            swept_before fault < self.now.config.settings.shards) }
    {
        let config = self.config();
        let draft = match draft_in(alloc, &mut pass.reply_room, &prepared) {
            Ok(draft) => draft,
            Err(NoMemory) => return Err(ApplyFault::NoMemory { swept: 0 }),
        };
        let Prepared {
            packet,
            client,
            meaning,
        } = prepared;
        let kind = meaning.kind();
        let decision = self.decide(rt, alloc, pass, moment, meaning)?;
        let said = kind.said(decision);
        let octets = reply_to(&packet, client, kind, config, self.boot, decision, draft);
        Ok(Answered { said, octets })
    }

    /// Ticks each shard in turn at this moment, in seconds, which ends what has lapsed. Each tick
    /// has a receipt in the pass.
    ///
    /// `NoMemory` comes if memory is refused, and `Spent` if a shard has made 2^64 - 1 moves.
    /// Either says how many shards were ticked by then; those ticks stand, with their receipts, and
    /// all else is as it was.
    pub fn expire<R: Wait>(
        &self,
        rt: &R,
        alloc: Global,
        pass: &mut Pass<L0, L1, L2, L3>,
        moment: u64,
    ) -> Result<(), ApplyFault>
        ensures ticked { IfOk result (λ _.
            AreNoted self.now.config.settings.shards (moves.Tick moment) pass.old.receipts pass.new.receipts) }
        ensures err { IfErr result (λ fault.
            AreNoted (swept_before fault) (moves.Tick moment) pass.old.receipts pass.new.receipts) }
        ensures fewer { IfErr result (λ fault.
            swept_before fault < self.now.config.settings.shards) }
    {
        self.step_each(rt, alloc, pass, &Move::Tick { moment })
    }

    /// Makes the moves of a datagram with this meaning, and gives the decision. A restart sweeps
    /// every shard.
    fn decide<R: Wait>(
        &self,
        rt: &R,
        alloc: Global,
        pass: &mut Pass<L0, L1, L2, L3>,
        moment: u64,
        meaning: Meaning,
    ) -> Result<Decision, ApplyFault>
        requires account { HasAccount self.now.config meaning }
        requires act { HasOwnAct meaning }
        ensures decided { IfOk result (λ decision.
            HasDecided self.now moment meaning decision pass.old.receipts pass.new.receipts) }
        ensures err { IfErr result (λ fault.
            IsStopped self.now moment meaning fault pass.old.receipts pass.new.receipts) }
        ensures fewer { IfErr result (λ fault.
            swept_before fault < self.now.config.settings.shards) }
    {
        match Moves::of(self.config(), moment, meaning) {
            Moves::Nothing => Ok(Decision::Done),
            Moves::One { shard, moved } => match self
                .desks
                .step(rt, alloc, &self.gate, pass, shard, moved)
            {
                Ok(decision) => Ok(decision),
                Err(fault) => Err(fault.after(0)),
            },
            Moves::Each(moved) => match self.step_each(rt, alloc, pass, &moved) {
                Ok(()) => Ok(Decision::Done),
                Err(fault) => Err(fault),
            },
        }
    }

    /// Makes a move in every shard in turn.
    #[tactic(auto, using(crate::proofs::Noting::noting))]
    fn step_each<R: Wait>(
        &self,
        rt: &R,
        alloc: Global,
        pass: &mut Pass<L0, L1, L2, L3>,
        moved: &Move,
    ) -> Result<(), ApplyFault>
        requires takes { IsOfAll moved.now }
        ensures noted { IfOk result (λ _.
            AreNoted self.now.config.settings.shards moved.now pass.old.receipts pass.new.receipts) }
        ensures err { IfErr result (λ fault.
            AreNoted (swept_before fault) moved.now pass.old.receipts pass.new.receipts) }
        ensures fewer { IfErr result (λ fault.
            swept_before fault < self.now.config.settings.shards) }
    {
        for shard in 0..self.config().shards() {
            self.step_copy(rt, alloc, pass, shard, moved)?;
        }
        Ok(())
    }

    /// Makes a copy of a move in shard `shard`, after the shards before it.
    fn step_copy<R: Wait>(
        &self,
        rt: &R,
        alloc: Global,
        pass: &mut Pass<L0, L1, L2, L3>,
        shard: u32,
        moved: &Move,
    ) -> Result<(), ApplyFault>
        requires there { shard < self.now.config.settings.shards }
        requires takes { IsOfAll moved.now }
        ensures noted { IfOk result (λ _. HasOneMore shard moved.now pass.old.receipts pass.new.receipts) }
        ensures err { IfErr result (λ fault.
            (swept_before fault ≡ shard) × (pass.new.receipts ≡ pass.old.receipts)) }
    {
        let copy = match moved.try_copy(alloc) {
            Ok(copy) => copy,
            Err(_) => return Err(ApplyFault::NoMemory { swept: shard }),
        };
        match self.desks.step(rt, alloc, &self.gate, pass, shard, copy) {
            Ok(_) => Ok(()),
            Err(fault) => Err(fault.after(shard)),
        }
    }
}

impl<L0: Tally, L1: Tally, L2: Tally, L3: Tally> Desks<L0, L1, L2, L3> {
    /// Makes a move in a shard, with a receipt. Room for the receipt and for lines of the journal
    /// is allocated before the lock is taken. On a fault the pass is as it was.
    fn step<G: Gate, R: Wait>(
        &self,
        rt: &R,
        alloc: Global,
        gate: &G,
        pass: &mut Pass<L0, L1, L2, L3>,
        shard: u32,
        moved: Move,
    ) -> Result<Decision, StepFault>
        requires there { shard < self.now.settings.shards }
        requires takes { IsTaken (setup_of self.now shard) moved }
        ensures noted { IfOk result (λ decision. IsNoted shard moved decision pass.old.receipts pass.new.receipts) }
        ensures done { IfOk result (λ decision. IsOfAll moved → decision ≡ Decision.Done) }
        ensures err { OnErr result (pass.new ≡ pass.old) }
    {
        let desk0 = &self.desk0;
        let notes = &mut pass.notes;
        if notes.take_room().is_err() {
            drop(moved);
            return Err(StepFault::NoMemory);
        }
        let (share0, share1) = (&mut pass.shares.share0, &mut pass.shares.share1);
        let (share2, share3) = (&mut pass.shares.share2, &mut pass.shares.share3);
        match shard {
            0 => make_under_lock(rt, alloc, desk0, gate, 0, share0, notes, moved),
            1 => match &self.desk1 {
                Some(desk) => make_under_lock(rt, alloc, desk, gate, 1, share1, notes, moved),
                None => unreachable!(),
            },
            2 => match &self.desk2 {
                Some(desk) => make_under_lock(rt, alloc, desk, gate, 2, share2, notes, moved),
                None => unreachable!(),
            },
            3 => match &self.desk3 {
                Some(desk) => make_under_lock(rt, alloc, desk, gate, 3, share3, notes, moved),
                None => unreachable!(),
            },
            _ => unreachable!(),
        }
    }
}

/// Makes a move in a shard under its lock, and notes its receipt.
#[inline(always)]
fn make_under_lock<L: Tally, G: Gate, R: Wait>(
    rt: &R,
    alloc: Global,
    desk: &Mutex<Desk<L>>,
    gate: &G,
    shard: u32,
    mine: &mut Share<L>,
    notes: &mut Notes,
    moved: Move,
) -> Result<Decision, StepFault>
    requires takes { IsTaken L.setup moved }
    requires part { 0 < mine.old.parts }
    requires room { vec_len notes.old.receipts < vec_capacity notes.old.receipts }
    requires lines { 1024 ≤ notes.old.spare }
    ensures noted { IfOk result (λ decision.
        IsNoted shard moved decision notes.old.receipts.items notes.new.receipts.items) }
    ensures done { IfOk result (λ decision. IsOfAll moved → decision ≡ Decision.Done) }
    ensures parts { mine.new.parts ≡ mine.old.parts }
    ensures counted { mine.new.amount + count_of shard notes.old.receipts.items
        ≡ mine.old.amount + count_of shard notes.new.receipts.items }
    ensures others { (other : ℕ) → (other ≡ shard → ⊥) →
        count_of other notes.new.receipts.items ≡ count_of other notes.old.receipts.items }
    ensures err { OnErr result (notes.new.receipts.items ≡ notes.old.receipts.items) }
{
    desk.lock(rt).make(alloc, gate, shard, mine, notes, moved)
}
