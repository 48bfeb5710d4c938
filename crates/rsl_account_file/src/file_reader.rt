//! Reading an account file.
ghost use Rattle.std.specs.Prelude.{◌≡◌, ◌≢◌, ◌≤◌, Err, IfErr, IfOk, IfSome, Ok, length};
ghost use Rattle.rsl_account_file.specs.File.{configuration_of_text};
ghost use Rattle.rsl_account_file.specs.FileRead.{IsFileRead, most_octets};

use crate::file::{clients, entries, parse, settings};
use crate::file_fault::FileFault;
use crate::replies::shared;
use crate::table::tables;
use crate::{TextFault, read_text};
use rsl_accounts::{Config, ConfigFault, Field};
use rsl_reply::Dictionary;
use std::alloc::Global;
use std::fs::{self, Files};
use std::io::Read;

/// The most octets of an account file.
const MAX_FILE_LEN: u32 = 16_777_216;

/// The configuration in the account file of this name. The faults are those of `read_config_from`;
/// `Unreadable` also comes if the file cannot be opened.
pub fn read_config_file<F: Files>(
    files: &F,
    alloc: Global,
    names: &Dictionary,
    name: &str,
) -> Result<Config, FileFault> {
    match fs::open(files, name) {
        Ok(file) => read_config_from(alloc, names, file),
        Err(_) => Err(FileFault::Unreadable),
    }
}

/// The configuration in an account file whose octets a reader gives, by `read_text`.
///
/// The faults come in this order: `Unreadable` if a read fails or 33,554,432 reads have come to
/// no end, and `TooLong` if there are over 16,777,216 octets, whichever comes first; `Config`
/// if `read_config` refuses the text. `NoMemory` comes if memory is refused, before the checks
/// that follow.
pub fn read_config_from<R: Read + Drop>(
    alloc: Global,
    names: &Dictionary,
    reader: R,
) -> Result<Config, FileFault>
    ensures { IfSome (R.remaining reader) (λ text. IsFileRead names.now text result) }
{
    let mut reader = reader;
    match read_text(alloc, &mut reader, MAX_FILE_LEN) {
        Ok(text) => config_of(alloc, names, text.as_slice()),
        Err(TextFault::Unreadable) => Err(FileFault::Unreadable),
        Err(TextFault::TooLong) => Err(FileFault::TooLong),
        Err(TextFault::NoMemory) => Err(FileFault::NoMemory),
    }
}

/// The configuration in the octets of an account file.
fn config_of(alloc: Global, names: &Dictionary, text: &[u8]) -> Result<Config, FileFault>
    requires { length text.now ≤ most_octets }
    ensures { IsFileRead names.now text.now result }
{
    Ok(read_config(alloc, names, text)?)
}

/// The configuration of the text of an account file, whose attributes have the names of a dictionary. The faults come in this order: `NotToml`;
/// then `Missing` or `BadValue` of the first field of the walk that is absent or has a wrong
/// value; then `TwiceClient`, `TwiceAccount` and `KeepTooLong`. `NoMemory` comes if memory is
/// refused, before the checks that follow. Unknown keys are ignored; in version 3 the first of
/// a table is `Unknown`, before its fields and after the version.
pub fn read_config(alloc: Global, names: &Dictionary, text: &[u8]) -> Result<Config, ConfigFault>
    ensures ok { IfOk result (λ config. configuration_of_text names.now text.now ≡ Ok config) }
    ensures fault { IfErr result (λ fault. fault ≢ ConfigFault.NoMemory →
        configuration_of_text names.now text.now ≡ Err fault) }
{
    let file = parse(alloc, text)?;
    let settings = settings(alloc, &file)?;
    let shared = shared(alloc, names, settings.version, &file)?;
    let client_tables = tables(&file, Field::Client)?;
    let account_tables = tables(&file, Field::Account)?;
    let clients = clients(alloc, settings.version, client_tables)?;
    let accounts = entries(alloc, settings.version, &shared, account_tables)?;
    Config::make(alloc, settings, clients, accounts)
}
