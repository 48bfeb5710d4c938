//! Going on from the log of a version before format 3.

ghost use Rattle.std.specs.Prelude.{◌≡◌, ◌≤◌, IfOk, OnOk, Some};
ghost use Rattle.md5.specs.Md5.{md5};
ghost use Rattle.std.specs.Arc.{arc_value};
ghost use Rattle.rld_folder.specs.declared.name.Generation.TheVariants.{Former as former_named};
ghost use Rattle.rld_start.specs.Behind.{IsBehind};
ghost use Rattle.rld_start.specs.Going.{AdmitsFormer, HasFormerHeader, IsTableOf};
ghost use Rattle.rld_start.specs.NextHeaders.{IsNewNumber};

use crate::changing::{LogEnd, change_from};
use crate::fault::StartFault;
use crate::files::read_former_table;
use crate::header::first_header;
use crate::newest::Begun;
use crate::number::new_number;
use crate::refused::log_refused;
use crate::starting::Started;
use crate::wrong::{Cause, Wrong};
use md5::{Digest, Md5};
use rld_books::{TableFault, config_with};
use rld_folder::{FileName, Folder, Generation};
use rld_log::{HEAD_LEN, Pacing};
use rld_spelling::{FormerHeader, FormerTable, ReadFault};
use rld_store::{Parts, StoreFault, read_former};
use rsl_accounts::Config;
use std::alloc::Global;
use std::fs::{File, Files};
use std::sync::Arc;

/// The table of an era of before, and a configuration that has it.
#[derive(Drop)]
struct FormerEra {
    /// The table.
    table: FormerTable,
    /// Its accounts and clients.
    config: Config,
}

/// Checks that a header has the numbers of its file's name, and the digest of the table of its era,
/// whose octets are given. If not, the cause is `OtherGeneration` or `OtherTable`, the first that
/// holds.
fn check_former_header(
    header: &FormerHeader,
    era: u64,
    number: u64,
    table: &[u8],
) -> Result<(), Wrong>
    ensures named { OnOk result (header.now.digest ≡ md5 table.now) }
    ensures era { OnOk result (header.now.era ≡ era) }
    ensures generation { OnOk result (header.now.generation ≡ number) }
{
    if header.era != era || header.generation != number {
        return Err(Wrong {
            offset: HEAD_LEN,
            cause: Cause::OtherGeneration,
        });
    }
    if header.digest != Md5::digest(table) {
        return Err(Wrong {
            offset: HEAD_LEN,
            cause: Cause::OtherTable,
        });
    }
    Ok(())
}

/// The header of a log of before.
fn header_in(alloc: Global, begun: &Begun) -> Result<FormerHeader, StoreFault>
    ensures { IfOk result (HasFormerHeader begun.now.frames.octets.items) }
{
    let payloads = begun.frames().payloads(alloc)?;
    let parts = Parts::of(&payloads)?;
    match parts.front.former_header() {
        Ok(header) => Ok(header),
        Err(bad) => Err(StoreFault::Malformed(bad)),
    }
}

/// The table of the era of a generation of before, which the header of its log has to name, and a
/// configuration that has it.
fn read_era<R: Files<File = File>>(
    files: &R,
    alloc: Global,
    folder: &Folder,
    header: &FormerHeader,
    era: u64,
    number: u64,
) -> Result<FormerEra, StartFault>
    ensures table { IfOk result (λ found. IsTableOf header.now found.table found.config) }
    ensures shards { IfOk result (λ found. (1 ≤ found.table.shards) × (found.table.shards ≤ 4)) }
{
    let octets = read_former_table(files, alloc, folder, era)?;
    let table = match FormerTable::read(alloc, octets.as_slice()) {
        Ok(table) => table,
        Err(ReadFault::NoMemory) => return Err(StartFault::NoMemory),
        Err(ReadFault::Malformed(fault)) => {
            let wrong = Wrong {
                offset: fault.offset(octets.len()),
                cause: Cause::Malformed(fault.cause),
            };
            return Err(StartFault::bad(FileName::FormerTable(era), wrong));
        }
    };
    if let Err(wrong) = check_former_header(header, era, number, octets.as_slice()) {
        let log = FileName::Log(Generation::Former { era, number });
        return Err(StartFault::bad(log, wrong));
    }
    match config_with(alloc, &table.table) {
        Ok(config) => Ok(FormerEra { table, config }),
        Err(TableFault::NoMemory) => Err(StartFault::NoMemory),
        Err(_) => {
            let wrong = Wrong {
                offset: 0,
                cause: Cause::NoConfiguration,
            };
            Err(StartFault::bad(FileName::FormerTable(era), wrong))
        }
    }
}

/// Goes on from a generation that a version before format 3 wrote, of these numbers: its books are
/// admitted by the first generation of this format, under the boot number of its era. So its log is read
/// once, and left as it is for the archive. A crash at any call leaves the former generation, or the new
/// one whole.
pub(crate) fn upgrade<'a, R: Files<File = File>>(
    files: &R,
    alloc: Global,
    config: Arc<Config>,
    folder: Folder,
    names: &[FileName],
    begun: Begun,
    era: u64,
    number: u64,
    now: u64,
    pacing: Pacing<'a>,
) -> Result<Started<'a>, StartFault>
    ensures config { IfOk result (λ started. started.store.config ≡ config) }
    ensures number { IfOk result (λ started. IsNewNumber names.now started.store.header) }
    ensures from { IfOk result (λ started. started.found.from ≡ Some (former_named era number)) }
    ensures admits { IfOk result (λ started.
        AdmitsFormer (arc_value config) begun started.store.header started.store.books) }
    ensures behind { IfOk result (λ started.
        IsBehind (arc_value started.store.config) started.store.books now started.found.behind) }
{
    let generation = Generation::Former { era, number };
    let header = match header_in(alloc, &begun) {
        Ok(header) => header,
        Err(fault) => return Err(log_refused(generation, fault)),
    };
    let former = read_era(files, alloc, &folder, &header, era, number)?;
    let FormerEra { table, config: old } = former;
    let (_log, frames) = begun.into_log();
    let end = match read_former(alloc, &old, table.shards as u32, &frames) {
        Ok(end) => end,
        Err(fault) => return Err(log_refused(generation, fault)),
    };
    let first = new_number(names)?;
    let next = first_header(first, table.boot);
    let end = LogEnd {
        generation,
        books: end.books,
        torn: end.torn,
    };
    change_from(files, alloc, &old, config, folder, end, next, now, pacing)
}
