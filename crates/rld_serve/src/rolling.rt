//! Generations that follow one another while the server runs.

ghost use Rattle.std.specs.Prelude.{◌≡◌, IfErr, OnOk};
ghost use Rattle.rld_edges.specs.declared.fault.RunFault.TheVariants.{Unsynced};
ghost use Rattle.rld_serve.specs.Following.{HasBegun, timer_after};
ghost use Rattle.rld_state.specs.Due.{IsDue, just_begun, second_later};

use crate::accounts::Accounts;
use crate::server::Server;
use rld_edges::RunFault;
use rld_start::{Generations, Written};
use rld_state::{
    Notice, RollFault, RollTimer, Told, Trouble, archive_look, notice_of_archive, notice_of_roll,
};
use std::net::Net;
use std::sync::Wait;
use std::time;

/// The most often that the archive is asked for room, for one generation.
const MOST_ROOMS: u32 = 20_000;

/// What the worker that makes ticks keeps about the generations.
#[derive(Drop)]
pub(crate) struct Rolls {
    timer: RollTimer,
    begins: Trouble,
    archive: Trouble,
}

impl Rolls {
    /// The state of that worker when a generation has just begun.
    pub(crate) fn new() -> Rolls
        ensures { result.timer ≡ just_begun }
    {
        Rolls {
            timer: RollTimer::new(),
            begins: Trouble::new(),
            archive: Trouble::new(),
        }
    }
}

impl<G, A, R> Server<'_, G, A, R>
where
    G: Generations,
    A: Accounts,
    R: Net + Eprint + time::Clock + Wait,
{
    /// Lets a second pass: if the next generation is due, it begins, and old logs are put away.
    /// Failures are reported. `Unsynced` comes if nothing more can be recorded.
    pub(crate) fn roll_if_due(&self, rolls: &mut Rolls, now: u64) -> Result<(), RunFault>
        ensures { IfErr result (λ fault. fault ≡ Unsynced) }
    {
        let moves = self.state.lock(self.rt).moves();
        self.roll_after(rolls, moves, now)
    }

    /// The same, where the present generation has `moves` moves.
    fn roll_after(&self, rolls: &mut Rolls, moves: u64, now: u64) -> Result<(), RunFault>
        ensures due { IsDue (second_later rolls.old.timer) moves →
            OnOk result (HasBegun (second_later rolls.old.timer) rolls.new.timer) }
        ensures not_due { (IsDue (second_later rolls.old.timer) moves → ⊥) →
            rolls.new.timer ≡ second_later rolls.old.timer }
        ensures fault { IfErr result (λ fault. fault ≡ Unsynced) }
    {
        rolls.timer.pass_second();
        if !rolls.timer.is_due(moves) {
            return Ok(());
        }
        let rolled = self.roll_in_room();
        self.tell_if_any(notice_of_roll(&mut rolls.begins, rolled));
        rolls.timer = timer_after(rolls.timer, rolled)?;
        if rolled.is_ok() {
            self.put_away(rolls, now);
        }
        Ok(())
    }

    /// Begins the next generation. Where the disk has no room for it, the oldest logs of the archive go, and it
    /// is tried again. The lock of the store is not held while logs go.
    fn roll_in_room(&self) -> Result<(), RollFault> {
        for _ in 0..MOST_ROOMS {
            let rolled = self.roll();
            match rolled {
                Err(fault) if fault.is_full() && self.make_room() => {}
                _ => return rolled,
            }
        }
        self.roll()
    }

    /// Has the oldest logs of the archive removed, for a disk without room, and reports which. Gives whether
    /// there were any. No lock is held meanwhile: a receiver waits for none of it.
    pub(crate) fn make_room(&self) -> bool {
        match self.generations.make_room(self.alloc) {
            Ok(Some(made)) => {
                self.tell(Told::Room(made));
                self.look_at_archive();
                true
            }
            Ok(None) | Err(_) => false,
        }
    }

    /// Keeps what the archive now has for whoever looks.
    fn look_at_archive(&self) {
        if let Ok(logs) = self.generations.archived_logs(self.alloc) {
            *self.archive.lock(self.rt) = archive_look(logs.as_slice());
        }
    }

    /// Begins the next generation. Its log is made before the lock is taken.
    fn roll(&self) -> Result<(), RollFault> {
        let present = self.state.lock(self.rt).header().generation;
        let next = self.generations.next_log(self.alloc, present)?;
        let next = next.paced(self.plan.pacing);
        let mut state = self.state.lock(self.rt);
        let _older = state.roll(self.alloc, self.generations, next)?;
        Ok(())
    }

    /// Puts old logs away, and reports where that fails. What the archive then has is kept for whoever looks.
    pub(crate) fn put_away(&self, rolls: &mut Rolls, now: u64)
        ensures { rolls.new.timer ≡ rolls.old.timer }
    {
        let newest = Written::by(self.state.lock(self.rt).recorder());
        let outcome = self.generations.put_away(self.alloc, newest, now);
        self.tell_if_any(notice_of_archive(&mut rolls.archive, outcome));
        self.look_at_archive();
    }

    /// Reports a notice, if there is one.
    fn tell_if_any(&self, notice: Option<Notice>) {
        if let Some(notice) = notice {
            self.tell(Told::Generations(notice));
        }
    }
}

/// The timer once the next generation was due and was begun, or could not be. `Unsynced` comes where
/// nothing more can be recorded.
fn timer_after(due: RollTimer, rolled: Result<(), RollFault>) -> Result<RollTimer, RunFault>
    ensures { result ≡ timer_after due rolled }
{
    match rolled {
        Ok(()) => Ok(RollTimer::new()),
        Err(RollFault::Ended) => Err(RunFault::Unsynced),
        Err(_) => {
            let mut timer = due;
            timer.put_off();
            Ok(timer)
        }
    }
}
