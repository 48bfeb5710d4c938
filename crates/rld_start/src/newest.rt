//! The generation that counts: the newest one that was begun.

ghost use Rattle.std.specs.Prelude.{◌≡◌, IfOk, IsTrue, None, OnOk};
ghost use Rattle.rld_folder.specs.Newest.{IsNewest};
ghost use Rattle.rld_start.specs.Founds.{IsLookAt, IsNewestBegun, generation_in};
ghost use Rattle.rld_start.specs.Numbers.{may_begin};

use crate::fault::StartFault;
use crate::files::open_log;
use crate::look::{Seen, Unbegun, look_in};
use crate::number::may_begin;
use crate::refused::log_refused;
use crate::wrong::{Cause, Wrong};
use rld_folder::{FileName, Folder, Generation, newest_generation};
use rld_log::{FileLog, Frames};
use std::alloc::Global;
use std::fs::{File, Files};

/// A generation that was begun, its log, and the frames read from it. Only `look_at` makes one.
#[derive(Drop)]
pub(crate) struct Begun {
    generation: Generation,
    log: FileLog,
    frames: Frames,
}

impl Begun {
    /// The generation.
    pub(crate) fn generation(&self) -> Generation
        ensures { result ≡ self.now.generation }
    {
        self.generation
    }

    /// The frames read from its log.
    pub(crate) fn frames(&self) -> &Frames
        ensures { result.now ≡ self.now.frames }
    {
        &self.frames
    }

    /// Its log, and the frames read from it.
    pub(crate) fn into_log(self) -> (FileLog, Frames)
        ensures log { result.0 ≡ self.log }
        ensures frames { result.1 ≡ self.frames }
    {
        (self.log, self.frames)
    }
}

/// The result of looking at the log of a generation.
#[derive(Drop)]
enum Look {
    Begun(Begun),
    Unbegun(Unbegun),
}

/// The result of looking for the generation that counts. Only `newest_begun` makes one.
#[derive(Drop)]
pub(crate) struct Newest {
    /// The newest generation that was begun, if there is one.
    begun: Option<Begun>,
    /// The newer ones, which were not begun.
    passed: Vec<Unbegun>,
}

impl Newest {
    /// The generation that counts, if there is one.
    pub(crate) fn generation(&self) -> Option<Generation>
        ensures { result ≡ generation_in self.now.begun }
    {
        match &self.begun {
            Some(begun) => Some(begun.generation),
            None => None,
        }
    }

    /// The generation that counts, with its log, if there is one.
    pub(crate) fn into_begun(self) -> Option<Begun>
        ensures { result ≡ self.begun }
    {
        self.begun
    }
}

/// The newest generation that was begun, if there is one. If there is none, `Alone` of the newest
/// log comes unless a new history may begin beside the files (`may_begin`).
#[tactic(auto, using(crate::proofs::Passed::none_passed))]
pub(crate) fn newest_begun<R: Files<File = File>>(
    files: &R,
    alloc: Global,
    folder: &Folder,
    names: &[FileName],
) -> Result<Newest, StartFault>
    ensures { IfOk result (IsNewestBegun names.now) }
{
    let mut passed = Vec::new(alloc);
    let mut later = None;
    for _ in 0..names.len() {
        let Some(generation) = newest_generation(names, later) else {
            break;
        };
        match look_at(files, alloc, folder, generation)? {
            Look::Begun(begun) => {
                return Ok(Newest {
                    begun: Some(begun),
                    passed,
                });
            }
            Look::Unbegun(unbegun) => match passed.push(unbegun) {
                Ok(()) => later = Some(generation),
                Err(_) => return Err(StartFault::NoMemory),
            },
        }
    }
    check_first(names, later)?;
    Ok(Newest {
        begun: None,
        passed,
    })
}

/// Opens the log of a generation, and checks whether it was begun.
fn look_at<R: Files<File = File>>(
    files: &R,
    alloc: Global,
    folder: &Folder,
    generation: Generation,
) -> Result<Look, StartFault>
    ensures { IfOk result (IsLookAt generation) }
{
    let mut log = open_log(files, alloc, folder, generation)?;
    match look_in(alloc, generation, &mut log) {
        Ok(Seen::Begun(frames)) => Ok(Look::Begun(Begun {
            generation,
            log,
            frames,
        })),
        Ok(Seen::Unbegun(unbegun)) => Ok(Look::Unbegun(unbegun)),
        Err(fault) => Err(log_refused(generation, fault)),
    }
}

/// Checks that it is possible that no generation was begun: no log is left below the one that was
/// looked at last, and a new history may begin beside the files. Else `Alone` of the newest log comes.
fn check_first(names: &[FileName], later: Option<Generation>) -> Result<(), StartFault>
    ensures none_left { OnOk result (IsNewest later names.now None) }
    ensures first { OnOk result (IsTrue (may_begin names.now)) }
{
    if let Some(left) = newest_generation(names, later) {
        return Err(alone(left));
    }
    if may_begin(names) {
        return Ok(());
    }
    match newest_generation(names, None) {
        Some(newest) => Err(alone(newest)),
        None => Err(StartFault::NoHistory),
    }
}

/// The fault of a log that was not begun, while none before it was.
fn alone(generation: Generation) -> StartFault {
    let wrong = Wrong {
        offset: 0,
        cause: Cause::Alone,
    };
    StartFault::bad(FileName::Log(generation), wrong)
}
