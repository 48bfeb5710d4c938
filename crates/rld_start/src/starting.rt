//! Starting a server from its folder.

ghost use Rattle.std.specs.Prelude.{◌≡◌, ◌+◌, All, Contains, IfNone, IfOk, IfSome, IsTrue, None, OnOk, Some};
ghost use Rattle.std.specs.Arc.{arc_value};
ghost use Rattle.rld_books.specs.Saved.{IsServerOf};
ghost use Rattle.rld_books.specs.Server.{new_server};
ghost use Rattle.rld_folder.specs.Newest.{Precedes};
ghost use Rattle.rld_folder.specs.declared.name.Generation.TheVariants.{Numbered};
ghost use Rattle.rld_start.specs.Beginnings.{HasHistory, may_start};
ghost use Rattle.rld_start.specs.Behind.{IsBehind};
ghost use Rattle.rld_start.specs.Counted.{AreSessionsOf};
ghost use Rattle.rld_start.specs.Founds.{IsNewestBegun, generation_in};
ghost use Rattle.rld_start.specs.Gaps.{IsEarlier};
ghost use Rattle.rld_start.specs.Going.{Follows, GoesOn};
ghost use Rattle.rld_start.specs.NextHeaders.{IsNewNumber, first_header, header_after};
ghost use Rattle.rld_start.specs.Numbers.{greatest_by, number_of};

use crate::beginning::{check_history, open_folder};
use crate::behind::behind_books;
use crate::changing::change;
use crate::count::{Found, sessions_in};
use crate::fault::StartFault;
use crate::files::create_log;
use crate::gap::check_archive;
use crate::header::{first_header, next_header};
use crate::new_generation::{NewGeneration, begin_generation};
use crate::newest::{Begun, Newest, newest_begun};
use crate::number::new_number;
use crate::refused::log_refused;
use crate::reopening::{Former, other_config, reopen};
use crate::upgrading::upgrade;
use rld_books::ServerBooks;
use rld_config::NewHistory;
use rld_folder::{FileName, Folder, Generation, LogKey, NewLog};
use rld_log::{FileLog, PacedLog, Pacing};
use rld_spelling::Header;
use rld_store::{Opened, Store};
use rsl_accounts::Config;
use std::alloc::Global;
use std::fs::{File, Files};
use std::sync::Arc;

/// A server that is ready to run. Its books are of its accounts, its key is that of its log, and the
/// sessions that were found are those of its books.
#[derive(Drop)]
pub struct Started<'a> {
    /// The folder, which is locked until the value is dropped.
    pub folder: Folder,
    /// The books, and the log of a new generation, whose header has the boot number.
    pub store: Store<PacedLog<'a, FileLog>>,
    /// The right to remove the log of the new generation, which has the generation of its name.
    pub key: LogKey,
    /// What was found in the folder.
    pub found: Found,
    ghost server: { IsServerOf (arc_value store.config) store.books },
    ghost kept: { key.generation ≡ store.header.generation },
    ghost counted: { AreSessionsOf store.books found.sessions },
}

/// Starts a server from its folder: opens and locks it, and goes on from the newest generation that
/// was begun, in a new one. If that has another table than the configuration, the new one begins with
/// the admitted books (`rld_books::admit`), under the same boot number. If no generation was begun, a
/// new history begins, whose boot number is `now`, in seconds since 1970, unless that is refused. Its
/// logs are synced to the disk as the pacing says. If the books' greatest clock is 60 seconds or more
/// after `now`, `found` says so.
///
/// The faults come in this order. Those of `open_folder`: `busy` if another process has it. `BadLog`
/// if a log that is looked at, from the newest to the one that counts, has a spoilt frame before a
/// whole one, or if none counts and a new history may not begin beside the files; and if a log of the
/// archive is not before the one that counts, or exists while none counts. `NoNewHistory` if none
/// counts and a new history is refused. Of the one that counts: `BadLog` if its header or its table, or
/// anything after them, has no spelling, or if its header has another number than its name; of one that
/// a version before 0.4 wrote also if the table of its era has no spelling or is another one. Until
/// then nothing has changed in the folder but an empty `lock` and a torn end, which is cut off. Then
/// come `NoNumber` and the faults of making, writing or syncing a file; a later start passes over what
/// that leaves, or goes on in a generation that is whole. `NoMemory` comes if memory is refused.
pub fn start<'a, R: Files<File = File> + Alloc<A = Global> + Clone + Drop>(
    rt: &R,
    alloc: Global,
    config: &Arc<Config>,
    path: &str,
    new_history: NewHistory,
    now: u64,
    pacing: Pacing<'a>,
) -> Result<Started<'a>, StartFault>
    ensures config { IfOk result (λ started. arc_value started.store.config ≡ arc_value config.now) }
    ensures behind { IfOk result (λ started.
        IsBehind (arc_value started.store.config) started.store.books now started.found.behind) }
    ensures history { IfOk result (λ started. HasHistory new_history started.found) }
{
    let config = Arc::try_clone(config)?;
    let folder = open_folder(rt, alloc, path, new_history)?;
    let files = folder.files(rt)?;
    let files = files.as_slice();
    let newest = newest_begun(rt, alloc, &folder, files)?;
    let archived = folder.archived(rt)?;
    take_up(
        rt,
        alloc,
        config,
        folder,
        files,
        archived.as_slice(),
        newest,
        new_history,
        now,
        pacing,
    )
}

/// Starts a server in a folder with these files: from the generation that counts, if there is one,
/// and else with a new history. `Gap` comes if a log of the archive is not before that generation, and
/// then `NoNewHistory` if there is none and a new history is refused.
fn take_up<'a, R: Files<File = File>>(
    files: &R,
    alloc: Global,
    config: Arc<Config>,
    folder: Folder,
    names: &[FileName],
    archived: &[FileName],
    newest: Newest,
    new_history: NewHistory,
    now: u64,
    pacing: Pacing<'a>,
) -> Result<Started<'a>, StartFault>
    requires { IsNewestBegun names.now newest }
    ensures config { IfOk result (λ started. started.store.config ≡ config) }
    ensures earlier { OnOk result (All (IsEarlier (generation_in newest.begun)) archived.now) }
    ensures may { OnOk result (IsTrue (may_start new_history (generation_in newest.begun))) }
    ensures from { IfOk result (λ started. started.found.from ≡ generation_in newest.begun) }
    ensures number { IfOk result (λ started. IsNewNumber names.now started.store.header) }
    ensures behind { IfOk result (λ started.
        IsBehind (arc_value started.store.config) started.store.books now started.found.behind) }
    ensures history { IfOk result (λ started. HasHistory new_history started.found) }
    ensures follows { IfOk result (λ started. IfSome newest.begun (λ begun.
        Follows (arc_value config) begun started.store.header started.store.books)) }
    ensures new { IfOk result (λ started. IfNone newest.begun (started.store.books ≡ new_server (arc_value config))) }
    ensures first { IfOk result (λ started. IfNone newest.begun
        (started.store.header ≡ first_header started.store.header.generation now)) }
    ensures after { IfOk result (λ started. IfSome newest.begun (λ begun.
        Precedes begun.generation (Numbered started.store.header.generation))) }
{
    let generation = newest.generation();
    check_archive(archived, generation)?;
    check_history(generation, new_history)?;
    match newest.into_begun() {
        Some(begun) => follow(files, alloc, config, folder, names, begun, now, pacing),
        None => begin(files, alloc, config, folder, names, now, pacing),
    }
}

/// Begins a new history under this boot number.
fn begin<'a, R: Files<File = File>>(
    files: &R,
    alloc: Global,
    config: Arc<Config>,
    folder: Folder,
    names: &[FileName],
    boot: u64,
    pacing: Pacing<'a>,
) -> Result<Started<'a>, StartFault>
    ensures config { IfOk result (λ started. started.store.config ≡ config) }
    ensures number { IfOk result (λ started. IsNewNumber names.now started.store.header) }
    ensures first { IfOk result (λ started.
        started.store.header ≡ first_header started.store.header.generation boot) }
    ensures books { IfOk result (λ started. started.store.books ≡ new_server (arc_value config)) }
    ensures behind { IfOk result (λ started.
        IsBehind (arc_value started.store.config) started.store.books boot started.found.behind) }
    ensures from { IfOk result (λ started. started.found.from ≡ None) }
    ensures torn { IfOk result (λ started. started.found.torn ≡ 0) }
{
    let header = first_header(new_number(names)?, boot);
    let books = ServerBooks::new(alloc, &*config)?;
    let begun = begin_generation(files, alloc, config, &folder, header, books, pacing)?;
    let NewGeneration { store, key } = begun;
    let found = Found {
        from: None,
        moves: 0,
        sessions: sessions_in(store.rows(alloc)?.as_slice()),
        torn: 0,
        behind: behind_books(&**store.config(), store.books(), boot),
        held: None,
    };
    Ok(Started {
        folder,
        store,
        key,
        found,
    })
}

/// Goes on from a generation.
fn follow<'a, R: Files<File = File>>(
    files: &R,
    alloc: Global,
    config: Arc<Config>,
    folder: Folder,
    names: &[FileName],
    begun: Begun,
    now: u64,
    pacing: Pacing<'a>,
) -> Result<Started<'a>, StartFault>
    requires { Contains names.now (FileName.Log begun.generation) }
    ensures config { IfOk result (λ started. started.store.config ≡ config) }
    ensures from { IfOk result (λ started. started.found.from ≡ Some begun.generation) }
    ensures number { IfOk result (λ started. IsNewNumber names.now started.store.header) }
    ensures after { IfOk result (λ started.
        Precedes begun.generation (Numbered started.store.header.generation)) }
    ensures follows { IfOk result (λ started.
        Follows (arc_value config) begun started.store.header started.store.books) }
    ensures behind { IfOk result (λ started.
        IsBehind (arc_value started.store.config) started.store.books now started.found.behind) }
{
    match begun.generation() {
        Generation::Former { era, number } => upgrade(
            files, alloc, config, folder, names, begun, era, number, now, pacing,
        ),
        Generation::Numbered(number) => follow_numbered(
            files, alloc, config, folder, names, begun, number, now, pacing,
        ),
    }
}

/// Goes on from the generation of this number: with its books, if it has the table of the configuration,
/// and else with those that are admitted from it.
fn follow_numbered<'a, R: Files<File = File>>(
    files: &R,
    alloc: Global,
    config: Arc<Config>,
    folder: Folder,
    names: &[FileName],
    begun: Begun,
    number: u64,
    now: u64,
    pacing: Pacing<'a>,
) -> Result<Started<'a>, StartFault>
    ensures config { IfOk result (λ started. started.store.config ≡ config) }
    ensures from { IfOk result (λ started. started.found.from ≡ Some (Numbered number)) }
    ensures number { IfOk result (λ started. IsNewNumber names.now started.store.header) }
    ensures follows { IfOk result (λ started.
        Follows (arc_value config) begun started.store.header started.store.books) }
    ensures behind { IfOk result (λ started.
        IsBehind (arc_value started.store.config) started.store.books now started.found.behind) }
{
    match other_config(alloc, &*config, &begun, number)? {
        None => go_on(
            files, alloc, config, folder, names, begun, number, now, pacing,
        ),
        Some(old) => change(
            files, alloc, old, config, folder, names, begun, number, now, pacing,
        ),
    }
}

/// Goes on from the generation of this number, in a new one with its books.
fn go_on<'a, R: Files<File = File>>(
    files: &R,
    alloc: Global,
    config: Arc<Config>,
    folder: Folder,
    names: &[FileName],
    begun: Begun,
    number: u64,
    now: u64,
    pacing: Pacing<'a>,
) -> Result<Started<'a>, StartFault>
    ensures config { IfOk result (λ started. started.store.config ≡ config) }
    ensures from { IfOk result (λ started. started.found.from ≡ Some (Numbered number)) }
    ensures number { IfOk result (λ started. IsNewNumber names.now started.store.header) }
    ensures goes_on { IfOk result (λ started.
        GoesOn (arc_value config) begun started.store.header started.store.books) }
    ensures behind { IfOk result (λ started.
        IsBehind (arc_value started.store.config) started.store.books now started.found.behind) }
{
    let former = reopen(alloc, config, begun, number, pacing)?;
    go_on_from(files, alloc, folder, names, former, now, pacing)
}

/// Goes on from an opened generation, in a new one with the books of its log.
fn go_on_from<'a, R: Files<File = File>>(
    files: &R,
    alloc: Global,
    folder: Folder,
    names: &[FileName],
    former: Former<'a>,
    now: u64,
    pacing: Pacing<'a>,
) -> Result<Started<'a>, StartFault>
    requires { IsServerOf (arc_value former.opened.store.config) former.opened.store.books }
    ensures books { IfOk result (λ started.
        started.store.books ≡ former.entry.opened.store.books) }
    ensures config { IfOk result (λ started.
        started.store.config ≡ former.entry.opened.store.config) }
    ensures from { IfOk result (λ started. started.found.from ≡ Some (Numbered former.entry.number)) }
    ensures moves { IfOk result (λ started. started.found.moves ≡ started.store.header.lines) }
    ensures torn { IfOk result (λ started. started.found.torn ≡ former.entry.opened.torn) }
    ensures behind { IfOk result (λ started.
        IsBehind (arc_value started.store.config) started.store.books now started.found.behind) }
    ensures header { IfOk result (λ started. started.store.header ≡ header_after
        former.entry.opened.header (greatest_by number_of names.now + 1) former.entry.opened.moves) }
{
    let Former { number, opened } = former;
    let Opened {
        mut store,
        header,
        moves,
        torn,
    } = opened;
    let next = new_number(names)?;
    let Some(header) = next_header(&header, next, moves as u64) else {
        return Err(StartFault::NoNumber);
    };
    let found = Found {
        from: Some(Generation::Numbered(number)),
        moves: header.lines,
        sessions: sessions_in(store.rows(alloc)?.as_slice()),
        torn,
        behind: behind_books(&**store.config(), store.books(), now),
        held: None,
    };
    let key = renew(files, alloc, &folder, &mut store, header, pacing)?;
    Ok(Started {
        folder,
        store,
        key,
        found,
    })
}

/// Lets a store go on in the log of a new generation, and gives the key of that log. After a fault of that
/// log it is removed if possible, so that the disk has its room.
fn renew<'a, R: Files<File = File>>(
    files: &R,
    alloc: Global,
    folder: &Folder,
    store: &mut Store<PacedLog<'a, FileLog>>,
    header: Header,
    pacing: Pacing<'a>,
) -> Result<LogKey, StartFault>
    ensures books { store.new.books ≡ store.old.books }
    ensures config { store.new.config ≡ store.old.config }
    ensures header { OnOk result (store.new.header ≡ header) }
    ensures key { IfOk result (λ key. key.generation ≡ header.generation) }
{
    let NewLog { key, log } = create_log(files, alloc, folder, header.generation)?;
    match store.roll(alloc, header, PacedLog::new(log, pacing)) {
        Ok(_older) => Ok(key),
        Err(refused) => {
            let _ = folder.remove_log(files, alloc, key);
            Err(log_refused(Generation::Numbered(header.generation), refused.fault))
        }
    }
}
