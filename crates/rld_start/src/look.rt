//! Looking at a log: whether its generation was begun.

ghost use Rattle.std.specs.Prelude.{◌≡◌, IfOk, IsTrue};
ghost use Rattle.rld_start.specs.Looks.{IsSeenIn, IsSeenOf};

use crate::first::{check_torn, is_begun};
use rld_folder::Generation;
use rld_log::{Frames, Log};
use rld_store::{StoreFault, read_frames};
use std::alloc::Global;

/// Proof that the log of a generation was read, and has no whole snapshot: it was not begun. Only
/// `look_in` makes one.
#[derive(Drop)]
pub(crate) struct Unbegun {
    generation: Generation,
}

/// What a log is seen to be.
#[derive(Drop)]
pub(crate) enum Seen {
    /// That of a generation that was begun, with these frames.
    Begun(Frames),
    /// That of one that was not begun.
    Unbegun(Unbegun),
}

/// Reads the log of a generation, and checks whether it was begun.
pub(crate) fn look_in<L: Log>(
    alloc: Global,
    generation: Generation,
    log: &mut L,
) -> Result<Seen, StoreFault>
    ensures of { IfOk result (IsSeenOf generation) }
    ensures seen { IsTrue (L.tells log.new) → IfOk result (IsSeenIn (L.seen log.old)) }
    ensures same { IsTrue (L.tells log.new) → L.seen log.new ≡ L.seen log.old }
{
    let frames = read_frames(alloc, log)?;
    check_torn(&frames)?;
    let begun = is_begun(&frames.payloads(alloc)?)?;
    match begun {
        true => Ok(Seen::Begun(frames)),
        false => Ok(Seen::Unbegun(Unbegun { generation })),
    }
}
