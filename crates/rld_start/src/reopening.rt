//! Opening a generation that was begun again.

ghost use Rattle.std.specs.Prelude.{◌≡◌, ℕ, List, [], IfOk, IfSome, IsTrue};
ghost use Rattle.std.specs.Arc.{arc_value};
ghost use Rattle.rld_books.specs.Saved.{IsServerOf};
ghost use Rattle.rld_books.specs.Server.{ServerSeen};
ghost use Rattle.rld_store.specs.Generations.{HasHistory, octets_of};
ghost use Rattle.rld_store.specs.Opening.{IsThereIn};
ghost use Rattle.rld_store.specs.Standing.{StandsFor};
ghost use Rattle.rsl_shard.specs.declared.moved.Move.{Move as OneMove};

use crate::fault::StartFault;
use crate::header::check_header;
use crate::newest::Begun;
use crate::refused::log_refused;
use crate::wrong::{Cause, Wrong};
use rld_books::{TableFault, config_of, is_table_of};
use rld_folder::{FileName, Generation};
use rld_log::{FileLog, Frames, Log, PacedLog, Pacing};
use rld_store::{Opened, Part, Parts, Store, StoreFault};
use rsl_accounts::Config;
use std::alloc::Global;
use std::sync::Arc;

/// A generation that was opened to go on from.
#[derive(Drop)]
pub(crate) struct Former<'a> {
    /// Its number.
    pub(crate) number: u64,
    /// Its books and its log, and what was found in it.
    pub(crate) opened: Opened<PacedLog<'a, FileLog>>,
}

/// The configuration of the begun generation of this number, where it has another table than this
/// configuration; `None` where it has the same. Its header is checked first, before its log is opened:
/// a log that is refused for its name is left as it is.
pub(crate) fn other_config(
    alloc: Global,
    config: &Config,
    begun: &Begun,
    number: u64,
) -> Result<Option<Config>, StartFault>
    ensures { IfOk result (λ found. IfSome found (λ old. octets_of old ≡ octets_of config.now → ⊥)) }
{
    let generation = begun.generation();
    let payloads = begun.frames().payloads(alloc)?;
    let parts = match Parts::of(&payloads) {
        Ok(parts) => parts,
        Err(fault) => return Err(log_refused(generation, fault)),
    };
    let front = match parts.front.front() {
        Ok(front) => front,
        Err(bad) => return Err(log_refused(generation, StoreFault::Malformed(bad))),
    };
    if let Err(wrong) = check_header(&front.header, number) {
        return Err(StartFault::bad(FileName::Log(generation), wrong));
    }
    if is_table_of(alloc, config, front.table.payload)? {
        return Ok(None);
    }
    let old = config_in(alloc, generation, front.table)?;
    Ok(Some(old))
}

/// A configuration with the table of a generation.
fn config_in(alloc: Global, generation: Generation, table: Part<'_>) -> Result<Config, StartFault>
    ensures { IfOk result (λ config. table.entry.payload.now ≡ octets_of config) }
{
    match config_of(alloc, table.payload) {
        Ok(config) => Ok(config),
        Err(TableFault::NoMemory) => Err(StartFault::NoMemory),
        Err(TableFault::Malformed(fault)) => {
            let wrong = Wrong {
                offset: fault.offset(table.end),
                cause: Cause::Malformed(fault.cause),
            };
            Err(StartFault::bad(FileName::Log(generation), wrong))
        }
        Err(TableFault::NoConfiguration) => {
            let wrong = Wrong {
                offset: table.begin(),
                cause: Cause::NoConfiguration,
            };
            Err(StartFault::bad(FileName::Log(generation), wrong))
        }
    }
}

/// Opens the log of the begun generation of this number, with a configuration that has its table.
pub(crate) fn reopen<'a>(
    alloc: Global,
    config: Arc<Config>,
    begun: Begun,
    number: u64,
    pacing: Pacing<'a>,
) -> Result<Former<'a>, StartFault>
    ensures number { IfOk result (λ former. former.number ≡ number) }
    ensures named { IfOk result (λ former. former.opened.header.generation ≡ number) }
    ensures config { IfOk result (λ former. former.opened.store.config ≡ config) }
    ensures server { IfOk result (λ former. IsServerOf (arc_value config) former.opened.store.books) }
    ensures there { IfOk result (λ former. IsThereIn (arc_value config) begun.frames.octets.items
        former.opened.header former.opened.store.books former.opened.moves) }
{
    let generation = begun.generation();
    let (log, frames) = begun.into_log();
    let log = PacedLog::new(log, pacing);
    let opened = open_store(alloc, config, generation, log, &frames)?;
    match check_header(&opened.header, number) {
        Ok(()) => Ok(Former { number, opened }),
        Err(wrong) => Err(StartFault::bad(FileName::Log(generation), wrong)),
    }
}

/// Opens the log of a generation with these frames as a store.
fn open_store<L: Log + Drop>(
    alloc: Global,
    config: Arc<Config>,
    generation: Generation,
    log: L,
    frames: &Frames,
) -> Result<Opened<L>, StartFault>
    requires { IsTrue (L.tells log) → frames.now.octets.items ≡ L.seen log }
    ensures config { IfOk result (λ opened. opened.store.config ≡ config) }
    ensures server { IfOk result (λ opened. IsServerOf (arc_value config) opened.store.books) }
    ensures there { IfOk result (λ opened. IsThereIn (arc_value config) frames.now.octets.items
        opened.header opened.store.books opened.moves) }
    ensures stands { IfOk result (λ opened. IsTrue (L.tells opened.store.log) →
        (opening : ServerSeen) (history : List OneMove) →
        HasHistory (arc_value config) opening history (L.seen log) →
        StandsFor (arc_value config) opening L.tears opened.store.end
        (L.seen opened.store.log) (L.may_leave opened.store.log)
        opened.store.whole opened.store.books history []) }
{
    match Store::open(alloc, config, log, frames) {
        Ok(opened) => Ok(opened),
        Err(refused) => Err(log_refused(generation, refused.fault)),
    }
}
