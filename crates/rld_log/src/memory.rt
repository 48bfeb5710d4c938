ghost use Rattle.std.specs.Prelude.{◌≡◌, ◌++◌, ◌∷◌, [], IfOk, OnErr, OnOk};
ghost use Rattle.rld_log.specs.Log.{Appends, Shortens};
ghost use Rattle.rld_log.specs.Memory.{Takes, reaches};
ghost use Rattle.rld_log.specs.declared.memory.Step.TheVariants as steps;

use crate::fault::LogFault;
use crate::log::{Crash, Ending, Log};
use std::alloc::{AllocError, Global};

/// A change of a log since its last sync.
#[derive(Drop)]
pub(crate) enum Step {
    /// These octets were appended.
    Append(Vec<u8>),
    /// A beginning of these octets was appended.
    Broken(Vec<u8>),
    /// It was cut to this length.
    Cut(usize),
}

/// How a life of a log in memory goes.
#[derive(Clone, Copy)]
pub struct Life {
    /// How many calls succeed at first.
    pub calls: u64,
    /// How many calls fail after those; then all succeed. An append that fails leaves half of its
    /// octets.
    pub failing: u64,
    /// How many of the octets appended since the last sync a loss of power leaves. It undoes a cut
    /// if it leaves none.
    pub kept: usize,
}

/// A log in memory, for proofs and tests: its calls fail and its lives end as each `Life` says. A
/// kill leaves what was written; a loss of power leaves what was synced, and as many further octets
/// as the life says.
///
/// It tells what it holds, unless memory was refused at a restart.
#[derive(Drop)]
pub struct MemoryLog {
    alloc: Global,
    octets: Vec<u8>,
    synced: Vec<u8>,
    steps: Vec<Step>,
    telling: bool,
    lives: Vec<Life>,
    index: usize,
    life: Life,
}

impl MemoryLog {
    ghost use Rattle.rld_log.specs.MemorySeen.{IsNewLog, octets_of};

    /// A log with these octets, all synced, and these lives, one after another. After the last of
    /// them no call fails, and a loss of power leaves what was synced.
    pub fn new(alloc: Global, octets: Vec<u8>, lives: Vec<Life>) -> Result<MemoryLog, AllocError>
        ensures { IfOk result (IsNewLog octets.items) }
    {
        let life = life_at(&lives, 0);
        Ok(MemoryLog {
            alloc,
            synced: octets.clone()?,
            octets,
            steps: Vec::new(alloc),
            telling: true,
            lives,
            index: 0,
            life,
        })
    }

    /// The octets that a read would return.
    pub fn octets(&self) -> &[u8]
        ensures { result.now ≡ octets_of self.now }
    {
        self.octets.as_slice()
    }
}

/// Adds a step to those since the last sync.
fn note(steps: &mut Vec<Step>, step: Step) -> Result<(), LogFault>
    ensures ok { OnOk result (steps.new.items ≡ steps.old.items ++ step ∷ []) }
    ensures err { OnErr result (steps.new.items ≡ steps.old.items) }
{
    steps.push(step)?;
    Ok(())
}

/// Repeats a step as a crash leaves it, and counts down the octets that a loss of power keeps.
fn take_step(
    octets: &mut Vec<u8>,
    step: &Step,
    ending: Ending,
    kept: &mut usize,
) -> Result<(), AllocError>
    ensures { OnOk result (Takes ending step.now octets.old.items octets.new.items) }
{
    match step {
        Step::Append(added) => match ending {
            Ending::Kill => octets.extend_from_slice(added)?,
            Ending::PowerLoss => add_beginning(octets, added, kept)?,
        },
        Step::Broken(added) => match ending {
            Ending::Kill => add_half(octets, added)?,
            Ending::PowerLoss => add_beginning(octets, added, kept)?,
        },
        Step::Cut(len) => {
            if *kept > 0 || ending == Ending::Kill {
                octets.truncate(*len);
            }
        }
    }
    Ok(())
}

/// Appends as many of the octets as are kept.
fn add_beginning(octets: &mut Vec<u8>, added: &[u8], kept: &mut usize) -> Result<(), AllocError>
    ensures { OnOk result (Appends Shortens added.now octets.old.items octets.new.items) }
{
    let count = added.len().min(*kept);
    *kept -= count;
    octets.extend_from_slice(&added[..count])
}

/// Appends half of the octets, like an append that fails.
fn add_half(octets: &mut Vec<u8>, added: &[u8]) -> Result<(), AllocError>
    ensures ok { OnOk result (Appends Shortens added.now octets.old.items octets.new.items) }
    ensures err { OnErr result (octets.new.items ≡ octets.old.items) }
{
    octets.extend_from_slice(&added[..added.len() / 2])
}

/// What a crash of this kind leaves of synced octets, after these steps; and a copy.
fn left_by(
    alloc: Global,
    synced: &[u8],
    steps: &[Step],
    ending: Ending,
    mut kept: usize,
) -> Result<(Vec<u8>, Vec<u8>), AllocError>
    ensures left { IfOk result (λ left. reaches synced.now steps.now ending left.0.items) }
    ensures copy { IfOk result (λ left. left.1.items ≡ left.0.items) }
{
    let mut left = synced.to_vec(alloc)?;
    for step in steps {
        take_step(&mut left, step, ending, &mut kept)?;
    }
    let copy = left.clone()?;
    Ok((left, copy))
}

/// Counts a call, which succeeds or fails as the life says.
fn count_call(life: &mut Life, fault: LogFault) -> Result<(), LogFault> {
    if life.calls > 0 {
        life.calls -= 1;
        return Ok(());
    }
    if life.failing > 0 {
        life.failing -= 1;
        return Err(fault);
    }
    Ok(())
}

/// The life with this index. After the last one no call fails, and a loss of power keeps nothing.
fn life_at(lives: &[Life], index: usize) -> Life {
    lives.get(index).copied().unwrap_or(Life {
        calls: 0,
        failing: 0,
        kept: 0,
    })
}

impl Log for MemoryLog {
    ghost tells = { λ log. log.telling };

    ghost seen = { λ log. log.octets.items };

    ghost may_leave = { λ log. reaches log.synced.items log.steps.items };

    ghost tears = { Shortens };

    fn read(&mut self, alloc: Global) -> Result<Vec<u8>, LogFault> {
        count_call(&mut self.life, LogFault::Unread)?;
        Ok(self.octets.to_vec(alloc)?)
    }

    fn append(&mut self, octets: &[u8]) -> Result<(), LogFault> {
        let copy = octets.to_vec(self.alloc)?;
        if let Err(fault) = count_call(&mut self.life, LogFault::Unwritten) {
            note(&mut self.steps, Step::Broken(copy))?;
            add_half(&mut self.octets, octets)?;
            return Err(fault);
        }
        note(&mut self.steps, Step::Append(copy))?;
        self.octets.extend_from_slice(octets)?;
        Ok(())
    }

    fn cut(&mut self, len: usize) -> Result<(), LogFault> {
        count_call(&mut self.life, LogFault::Uncut)?;
        note(&mut self.steps, Step::Cut(len))?;
        self.octets.truncate(len);
        Ok(())
    }

    fn sync(&mut self) -> Result<(), LogFault> {
        count_call(&mut self.life, LogFault::Unsynced)?;
        let copy = self.octets.to_vec(self.alloc)?;
        self.synced = copy;
        self.steps.clear();
        Ok(())
    }
}

impl Crash for MemoryLog {
    fn restart(&mut self, ending: Ending) {
        match left_by(
            self.alloc,
            &self.synced,
            &self.steps,
            ending,
            self.life.kept,
        ) {
            Ok((synced, octets)) => {
                self.synced = synced;
                self.octets = octets;
                self.steps.clear();
            }
            Err(_) => self.telling = false,
        }
        self.index = self.index.saturating_add(1);
        self.life = life_at(&self.lives, self.index);
    }

    /// The lives of the new log are those of this one from now on.
    fn next_log(&self, alloc: Global) -> Result<MemoryLog, LogFault> {
        Ok(MemoryLog {
            alloc,
            octets: Vec::new(alloc),
            synced: Vec::new(alloc),
            steps: Vec::new(alloc),
            telling: self.telling,
            lives: self.lives.to_vec(alloc)?,
            index: self.index,
            life: self.life,
        })
    }
}
