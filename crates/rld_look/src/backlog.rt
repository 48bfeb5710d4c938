ghost use Rattle.std.specs.Prelude.{◌≡◌, ◌<◌, ◌≤◌, ◌∷◌, ◌++◌, [], true, false, List, OnErr, OnOk};
ghost use Rattle.rld_counts.specs.declared.fate.Fate.{Fate as OneFate};
ghost use Rattle.rld_look.specs.Backlog.{AreNoted, HasNoted, IsJoined, IsLeftOut, IsNoted, empty_backlog, fates_of, lines_of};
ghost use Rattle.rld_look.specs.Refusal.{refusal_of};

use crate::refusal::{Refusal, Refused};
use rld_counts::{Counts, Fate};
use rsl_wire::NoMemory;
use std::alloc::Global;
use std::marker::Model;
use std::mem;

/// The most refusals of a cause that get lines each time that lines are written.
pub const MOST_LINES: u64 = 20;

const _: () = prove!(MOST_LINES == 20);

/// What became of a noted refusal.
#[derive(Clone, Copy)]
pub enum Noted {
    /// It waits for its line.
    Waits,
    /// It is left out: the most of its cause are waiting.
    LeftOut,
    /// It is left out, because memory for it was refused.
    NoMemory,
}

/// The refusals that wait for their lines, and the numbers of each cause that get none. A contract
/// sees the list of those that wait, oldest first, and the counts of the others.
#[derive(Drop)]
pub struct Backlog {
    waiting: Vec<Refusal>,
    lines: Counts,
    left_out: Counts,
}

impl Model for Backlog {
    ghost use Rattle.std.specs.Prelude.{◌≡◌};
    ghost use Rattle.rld_counts.specs.Counts.{counts_of};
    ghost use Rattle.rld_look.specs.Backlog.{BacklogSeen, fates_of};

    ghost Value = { BacklogSeen };

    ghost view = { λ it. record { waiting = it.waiting.items; left_out = it.left_out } };

    ghost invariant = { λ it. it.lines ≡ counts_of (fates_of it.waiting.items) };
}

/// What was taken from a backlog: of all that it had noted, what waited, and the counts of what was
/// left out.
#[derive(Drop)]
pub struct Taken {
    /// The refusals that waited, oldest first: at most `MOST_LINES` of each cause.
    pub waited: Vec<Refusal>,
    /// The numbers of the others, by cause.
    pub left_out: Counts,
}

impl Backlog {
    /// An empty backlog: nothing waits, and nothing was left out.
    pub fn new(alloc: Global) -> Backlog
        ensures none { result ≡ empty_backlog }
        ensures noted { HasNoted [] result }
    {
        Backlog {
            waiting: Vec::new(alloc),
            lines: Counts::new(),
            left_out: Counts::new(),
        }
    }

    /// Notes a refused datagram. It waits for its line if fewer than `MOST_LINES` of its cause do;
    /// else it is left out, and counted.
    pub fn note(&mut self, alloc: Global, refused: &Refused<'_>) -> Noted
        ensures noted { IsNoted (refusal_of refused.now) self.old self.new result }
        ensures all { (fates : List OneFate) → HasNoted fates self.old →
            HasNoted (fates ++ refused.now.fate ∷ []) self.new }
    {
        if self.is_full(refused.fate) {
            self.left_out.note(refused.fate);
            return Noted::LeftOut;
        }
        match push_refusal(alloc, &mut self.waiting, refused) {
            Ok(()) => {
                self.lines.note(refused.fate);
                Noted::Waits
            }
            Err(NoMemory) => {
                self.left_out.note(refused.fate);
                Noted::NoMemory
            }
        }
    }

    /// Leaves out a refused datagram if the most of its cause are waiting, and gives whether it
    /// has. Else nothing changes, and it can be noted.
    pub fn leave_out(&mut self, fate: Fate) -> bool
        ensures left_out { result ≡ true →
            (MOST_LINES ≤ lines_of fate self.old) × IsLeftOut fate self.old self.new }
        ensures same { result ≡ false → (lines_of fate self.old < MOST_LINES) × (self.new ≡ self.old) }
        ensures all { result ≡ true → (fates : List OneFate) → HasNoted fates self.old →
            HasNoted (fates ++ fate ∷ []) self.new }
    {
        if self.is_full(fate) {
            self.left_out.note(fate);
            return true;
        }
        false
    }

    /// Whether the most refusals of a cause are waiting.
    fn is_full(&self, fate: Fate) -> bool
        ensures full { result ≡ true → MOST_LINES ≤ lines_of fate self.now }
        ensures few { result ≡ false → lines_of fate self.now < MOST_LINES }
    {
        self.lines.count(fate) >= MOST_LINES
    }

    /// Takes all that waits, and the counts of what was left out. Nothing waits then.
    pub fn take(&mut self, alloc: Global) -> Taken
        ensures waited { result.waited.items ≡ self.old.waiting }
        ensures left_out { result.left_out ≡ self.old.left_out }
        ensures none { self.new ≡ empty_backlog }
    {
        let taken = mem::replace(self, Backlog::new(alloc));
        let Backlog {
            waiting,
            lines: _,
            left_out,
        } = taken;
        Taken {
            waited: waiting,
            left_out,
        }
    }

    /// Adds what was taken from another backlog, after what waits: each refusal as it is, in their
    /// order. If more than `MOST_LINES` of a cause would wait, or memory is refused, they are left
    /// out, and counted.
    pub fn join(&mut self, taken: Taken)
        ensures joined { IsJoined (record { waiting = taken.waited.items; left_out = taken.left_out })
            self.old self.new }
        ensures all { (fates others : List OneFate) → HasNoted fates self.old →
            HasNoted others (record { waiting = taken.waited.items; left_out = taken.left_out }) →
            HasNoted (fates ++ others) self.new }
    {
        let Taken { waited, left_out } = taken;
        self.push_all(waited);
        self.left_out.add(&left_out);
    }

    /// Adds refusals, each as `push` does.
    fn push_all(&mut self, refusals: Vec<Refusal>)
        ensures noted { AreNoted refusals.items self.old self.new }
        ensures all { (fates : List OneFate) → HasNoted fates self.old →
            HasNoted (fates ++ fates_of refusals.items) self.new }
    {
        for refusal in refusals {
            let _ = self.push(refusal);
        }
    }

    /// Adds a refusal. It waits if fewer than `MOST_LINES` of its cause do; else, or if memory is
    /// refused, it is left out, and counted.
    fn push(&mut self, refusal: Refusal) -> Noted
        ensures noted { IsNoted refusal self.old self.new result }
        ensures all { (fates : List OneFate) → HasNoted fates self.old →
            HasNoted (fates ++ refusal.fate ∷ []) self.new }
    {
        let fate = refusal.fate;
        let is_full = self.is_full(fate);
        match push_unless(is_full, &mut self.waiting, refusal) {
            Noted::Waits => {
                self.lines.note(fate);
                Noted::Waits
            }
            Noted::LeftOut => {
                self.left_out.note(fate);
                Noted::LeftOut
            }
            Noted::NoMemory => {
                self.left_out.note(fate);
                Noted::NoMemory
            }
        }
    }
}

/// Adds a refusal unless the list is full or memory is refused, and gives what became of it.
fn push_unless(is_full: bool, waiting: &mut Vec<Refusal>, refusal: Refusal) -> Noted
    ensures waits { result ≡ Noted.Waits →
        (is_full ≡ false) × (waiting.new.items ≡ waiting.old.items ++ refusal ∷ []) }
    ensures left_out { result ≡ Noted.LeftOut →
        (is_full ≡ true) × (waiting.new.items ≡ waiting.old.items) }
    ensures no_memory { result ≡ Noted.NoMemory →
        (is_full ≡ false) × (waiting.new.items ≡ waiting.old.items) }
{
    if is_full {
        return Noted::LeftOut;
    }
    match waiting.push(refusal) {
        Ok(()) => Noted::Waits,
        Err(_) => Noted::NoMemory,
    }
}

/// Adds the refusal of a datagram. It fails only if memory is refused.
fn push_refusal(
    alloc: Global,
    waiting: &mut Vec<Refusal>,
    refused: &Refused<'_>,
) -> Result<(), NoMemory>
    ensures ok { OnOk result
        (waiting.new.items ≡ waiting.old.items ++ refusal_of refused.now ∷ []) }
    ensures err { OnErr result (waiting.new.items ≡ waiting.old.items) }
{
    let refusal = Refusal::of(alloc, refused)?;
    waiting.push(refusal)?;
    Ok(())
}
