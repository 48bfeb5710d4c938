//! A generation after one whose clock was ahead, with its books cut to the present.

ghost use Rattle.std.specs.Prelude.{◌≡◌, ◌+◌, All, IfOk, IfSome, OnOk, Some};
ghost use Rattle.std.specs.Arc.{arc_value};
ghost use Rattle.rld_folder.specs.declared.name.Generation.TheVariants.{Numbered};
ghost use Rattle.rld_start.specs.Founds.{IsNewestBegun, generation_in};
ghost use Rattle.rld_start.specs.Gaps.{IsEarlier};
ghost use Rattle.rld_start.specs.Going.{HasCut};
ghost use Rattle.rld_start.specs.NextHeaders.{IsNewNumber};

use crate::cutting::{Cut, Rebased, cut_from};
use crate::fault::StartFault;
use crate::gap::check_archive;
use crate::newest::{Begun, Newest, newest_begun};
use crate::reopening::{other_config, reopen};
use crate::wrong::{Cause, Wrong};
use rld_folder::{FileName, Folder, Generation};
use rld_log::{HEAD_LEN, Pace, Pacing, Ticks};
use rsl_accounts::Config;
use std::alloc::Global;
use std::fs::{File, Files};
use std::sync::Arc;

/// Begins a generation in the folder of a server that is not running: after the newest one that was
/// begun, with its table, and with its books cut to `now`, in seconds since 1970
/// (`ServerBooks::cut`). Its log is on the disk when this returns. The next start goes on from there.
///
/// A log of a version before format 3 is `Former`: a start goes on from it first. The other
/// faults are those of `start`, in their order, and `OtherAccounts` before the log is opened if
/// the generation has another table than the configuration; `NoHistory` comes if none was begun.
/// Until a fault of a new file nothing has changed in the folder but an empty `lock` and a torn
/// end, which is cut off. Such a fault leaves the former generation, or the new one whole if only its
/// last sync failed: a later start goes on in that.
pub fn rebase<R: Files<File = File> + Alloc<A = Global> + Clone + Drop>(
    rt: &R,
    alloc: Global,
    config: Arc<Config>,
    path: &str,
    now: u64,
) -> Result<Rebased, StartFault> {
    let folder = Folder::open(rt, alloc, path)?;
    let files = folder.files(rt)?;
    let files = files.as_slice();
    let newest = newest_begun(rt, alloc, &folder, files)?;
    let archived = folder.archived(rt)?;
    let ticks = Ticks::new();
    let pacing = Pacing {
        pace: Pace::Always,
        ticks: &ticks,
    };
    let cut = rebase_newest(
        rt,
        alloc,
        config,
        &folder,
        files,
        archived.as_slice(),
        newest,
        now,
        pacing,
    )?;
    Ok(cut.rebased())
}

/// Begins a generation after the one that counts in a folder with these files. `Gap` comes if a log
/// of the archive is not before that one, and then `NoHistory` if there is none.
fn rebase_newest<'a, R: Files<File = File>>(
    files: &R,
    alloc: Global,
    config: Arc<Config>,
    folder: &Folder,
    names: &[FileName],
    archived: &[FileName],
    newest: Newest,
    now: u64,
    pacing: Pacing<'a>,
) -> Result<Cut<'a>, StartFault>
    requires newest { IsNewestBegun names.now newest }
    requires always { pacing.pace ≡ Pace.Always }
    ensures synced { IfOk result (λ cut.
        cut.synced.generation ≡ cut.begun.store.header.generation) }
    ensures earlier { OnOk result (All (IsEarlier (generation_in newest.begun)) archived.now) }
    ensures from { IfOk result (λ cut. Some (Numbered cut.from) ≡ generation_in newest.begun) }
    ensures number { IfOk result (λ cut. IsNewNumber names.now cut.begun.store.header) }
    ensures key { IfOk result (λ cut. cut.begun.key.generation ≡ cut.begun.store.header.generation) }
    ensures cut { IfOk result (λ cut. IfSome newest.begun (λ begun.
        HasCut (arc_value config) begun now cut.begun.store.header cut.begun.store.books cut.moments)) }
{
    check_archive(archived, newest.generation())?;
    match newest.into_begun() {
        Some(begun) => rebase_begun(files, alloc, config, folder, names, begun, now, pacing),
        None => Err(StartFault::NoHistory),
    }
}

/// The fault of the log of a generation that is of a version before format 3.
fn former_refused(generation: Generation) -> StartFault {
    let wrong = Wrong {
        offset: HEAD_LEN,
        cause: Cause::Former,
    };
    StartFault::bad(FileName::Log(generation), wrong)
}

/// Begins a generation after this one.
fn rebase_begun<'a, R: Files<File = File>>(
    files: &R,
    alloc: Global,
    config: Arc<Config>,
    folder: &Folder,
    names: &[FileName],
    begun: Begun,
    now: u64,
    pacing: Pacing<'a>,
) -> Result<Cut<'a>, StartFault>
    requires { pacing.pace ≡ Pace.Always }
    ensures synced { IfOk result (λ cut.
        cut.synced.generation ≡ cut.begun.store.header.generation) }
    ensures from { IfOk result (λ cut. Numbered cut.from ≡ begun.generation) }
    ensures number { IfOk result (λ cut. IsNewNumber names.now cut.begun.store.header) }
    ensures key { IfOk result (λ cut. cut.begun.key.generation ≡ cut.begun.store.header.generation) }
    ensures cut { IfOk result (λ cut.
        HasCut (arc_value config) begun now cut.begun.store.header cut.begun.store.books cut.moments) }
{
    match begun.generation() {
        Generation::Former { era, number } => {
            Err(former_refused(Generation::Former { era, number }))
        }
        Generation::Numbered(number) => rebase_numbered(
            files, alloc, config, folder, names, begun, number, now, pacing,
        ),
    }
}

/// Begins a generation after that of this number.
fn rebase_numbered<'a, R: Files<File = File>>(
    files: &R,
    alloc: Global,
    config: Arc<Config>,
    folder: &Folder,
    names: &[FileName],
    begun: Begun,
    number: u64,
    now: u64,
    pacing: Pacing<'a>,
) -> Result<Cut<'a>, StartFault>
    requires { pacing.pace ≡ Pace.Always }
    ensures synced { IfOk result (λ cut.
        cut.synced.generation ≡ cut.begun.store.header.generation) }
    ensures from { IfOk result (λ cut. cut.from ≡ number) }
    ensures number { IfOk result (λ cut. IsNewNumber names.now cut.begun.store.header) }
    ensures key { IfOk result (λ cut. cut.begun.key.generation ≡ cut.begun.store.header.generation) }
    ensures cut { IfOk result (λ cut.
        HasCut (arc_value config) begun now cut.begun.store.header cut.begun.store.books cut.moments) }
{
    if other_config(alloc, &*config, &begun, number)?.is_some() {
        return Err(StartFault::OtherAccounts);
    }
    let former = reopen(alloc, config, begun, number, pacing)?;
    cut_from(files, alloc, folder, names, &former, now, pacing)
}
