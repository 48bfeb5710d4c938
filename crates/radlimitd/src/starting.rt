//! A start on a disk that may have no room.

ghost use Rattle.std.specs.Prelude.{◌≡◌, IfErr, IfOk};
ghost use Rattle.std.specs.Arc.{arc_value};

use rld_config::NewHistory;
use rld_folder::RoomMade;
use rld_log::Pacing;
use rld_start::{StartFault, Started, make_room, start};
use rsl_accounts::Config;
use std::alloc::Global;
use std::fs::{File, Files};
use std::sync::Arc;

/// The most often that the archive is asked for room.
const MOST_ROOMS: u32 = 20_000;

/// A server that is ready to run.
#[derive(Drop)]
pub(crate) struct Begun<'a> {
    /// What the start gives.
    pub(crate) started: Started<'a>,
    /// A line, with its line feed, for each time that logs left the archive for it.
    pub(crate) room: String,
}

/// Starts a server from its folder, as `rld_start::start` does. Where the disk has no room for what that
/// writes, the oldest logs of the archive go, and it is tried again. The fault is that of the last try: the disk
/// is full, and the archive has nothing to give.
pub(crate) fn start_in_room<'a, R: Files<File = File> + Alloc<A = Global> + Clone + Drop>(
    rt: &R,
    alloc: Global,
    config: &Arc<Config>,
    path: &str,
    new_history: NewHistory,
    now: u64,
    pacing: Pacing<'a>,
) -> Result<Begun<'a>, StartFault>
    ensures config { IfOk result (λ begun. arc_value begun.started.store.config ≡ arc_value config.now) }
{
    let mut room = String::new(alloc);
    for _ in 0..MOST_ROOMS {
        let fault = match start(rt, alloc, config, path, new_history, now, pacing) {
            Ok(started) => return Ok(Begun { started, room }),
            Err(fault) => fault,
        };
        let made = room_for(rt, alloc, path, new_history, fault)?;
        room.push_str(format!(in alloc; "{made}\n")?.as_str())?;
    }
    let started = start(rt, alloc, config, path, new_history, now, pacing)?;
    Ok(Begun { started, room })
}

/// Has logs leave the archive where a start has failed for want of room, and says which. Where it failed for
/// another cause, or the archive has nothing to give, the fault is that of the start.
fn room_for<R: Files<File = File> + Alloc<A = Global> + Clone + Drop>(
    rt: &R,
    alloc: Global,
    path: &str,
    new_history: NewHistory,
    fault: StartFault,
) -> Result<RoomMade, StartFault>
    ensures { IfErr result (λ made. made ≡ fault) }
{
    if !fault.is_full() {
        return Err(fault);
    }
    match make_room(rt, alloc, path, new_history) {
        Ok(Some(made)) => Ok(made),
        Ok(None) | Err(_) => Err(fault),
    }
}
