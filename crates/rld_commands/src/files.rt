//! The files that a server is started with: its own, and the account file that it names.
//!
//! No clause speaks of what the system's files give; `ServerFile::read` and `read_config` read
//! their texts.

ghost use Rattle.std.specs.Prelude.{◌≡◌, IfErr, IfNone, IfOk, None};
ghost use Rattle.rld_commands.specs.Files.{IsBadFile, IsOfFile, misfit};
ghost use Rattle.rld_config.specs.Server as server_file;
ghost use Rattle.rld_config.specs.Trust.{exposure_of};

use crate::cause::{cause_in, cause_of};
use crate::fault::Fault;
use crate::folder::check_folder;
use crate::wrong::{BadFile, Wrong};
use rld_config::{
    Exposure, Paths, ServerFault, ServerFile, asker_fault, shadowed_client, unknown_client,
    unsigned_client,
};
use rld_faults::{account_faults, fault_of_key, misfits, server_faults};
use rsl_account_file::{TextFault, read_config, read_file};
use rsl_accounts::{Config, ConfigFault};
use rsl_reply::Dictionary;
use std::alloc::Global;
use std::fs::{self, Files};
use std::os::unix::fs::PermissionsExt;
use std::path::PathBuf;

/// The most octets of a server's file or an account file.
const MAX_FILE_LEN: u32 = 16_777_216;

/// A right account file.
#[derive(Drop)]
pub struct AccountFile {
    /// Its configuration.
    pub config: Config,
    /// Its mode, as the system reports it.
    pub mode: u32,
    /// Its text.
    pub text: Vec<u8>,
}

/// The contents of the server's file of this name.
pub fn server_file<F: Files>(files: &F, alloc: Global, name: &str) -> Result<ServerFile, Fault>
    ensures { IfErr result (IsOfFile name.now) }
{
    let text = file_text(files, alloc, name)?;
    match ServerFile::read(alloc, text.as_slice()) {
        Ok(server) => Ok(server),
        Err(ServerFault::NoMemory) => Err(Fault::NoMemory),
        Err(fault) => {
            let faults = server_faults(alloc, text.as_slice(), &fault)?;
            Err(bad_file(alloc, name, Wrong::Faults(faults)))
        }
    }
}

/// The paths of the server's file of this name.
pub(crate) fn paths_of<F: Files>(files: &F, alloc: Global, name: &str) -> Result<Paths, Fault>
    ensures { IfErr result (IsOfFile name.now) }
{
    let server = server_file(files, alloc, name)?;
    Ok(Paths::of(alloc, name, &server)?)
}

/// The path of the state folder of the server's file of this name.
pub(crate) fn state_of<F: Files>(files: &F, alloc: Global, name: &str) -> Result<PathBuf, Fault>
    ensures { IfErr result (IsOfFile name.now) }
{
    let Paths { state, .. } = paths_of(files, alloc, name)?;
    Ok(state)
}

/// The account file of this path, whose attributes have the names of a dictionary, if it fits the server's
/// file, which has this name: it has the client of each network, which has to sign under a guard; no network
/// takes the address of another client; the client of asks is there, and trusted; no other user may write to
/// it, nor read it unless the server's file allows that; and no other user may write to the folders of both
/// files.
pub fn accounts_for<F: Files>(
    files: &F,
    alloc: Global,
    names: &Dictionary,
    name: &str,
    server: &ServerFile,
    path: &str,
) -> Result<AccountFile, Fault>
    ensures known { IfOk result (λ accounts.
        server_file.unknown_client server.now.networks.items accounts.config ≡ None) }
    ensures signing { IfOk result (λ accounts.
        server_file.unsigned_client server.now.networks.items accounts.config ≡ None) }
    ensures apart { IfOk result (λ accounts.
        server_file.shadowed_client server.now.networks.items accounts.config ≡ None) }
    ensures asker { IfOk result (λ accounts.
        server_file.asker_fault server.now.ask accounts.config ≡ None) }
    ensures closed { IfOk result (λ accounts. exposure_of server.now.trust accounts.mode ≡ None) }
{
    let accounts = account_file(files, alloc, names, path)?;
    if let Some(fault) = misfit(server, &accounts.config) {
        let text = file_text(files, alloc, name)?;
        let faults = misfits(alloc, text.as_slice(), server, &accounts.config, &fault)?;
        return Err(bad_file(alloc, name, Wrong::Faults(faults)));
    }
    match server.trust.exposure(accounts.mode) {
        Some(Exposure::Writable) => return Err(bad_file(alloc, path, Wrong::Writable)),
        Some(Exposure::Readable) => return Err(bad_file(alloc, path, Wrong::Readable)),
        None => {}
    }
    check_folder(files, alloc, name)?;
    check_folder(files, alloc, path)?;
    Ok(accounts)
}

/// The fault of a server's file of this name that names a group which the system does not know.
pub fn unknown_group<F: Files, T>(
    files: &F,
    alloc: Global,
    name: &str,
    group: &str,
) -> Result<T, Fault>
    ensures fault { IfErr result (IsOfFile name.now) }
    ensures none { IfOk result (λ _. ⊥) }
{
    let text = file_text(files, alloc, name)?;
    let wrong = format!(in alloc; "is {group:?}; the system has no group of this name")?;
    let faults = fault_of_key(alloc, text.as_slice(), "control", "group", wrong.as_str())?;
    Err(bad_file(alloc, name, Wrong::Faults(faults)))
}

/// The first fault of a server's file whose account file has this configuration: a network whose client it does
/// not have, or whose client need not sign under a guard, or that takes the address of another client; or a wrong
/// client of asks.
fn misfit(server: &ServerFile, config: &Config) -> Option<ServerFault>
    ensures first { result ≡ misfit server.now.networks.items server.now.ask config.now }
    ensures known { IfNone result
        (server_file.unknown_client server.now.networks.items config.now ≡ None) }
    ensures signing { IfNone result
        (server_file.unsigned_client server.now.networks.items config.now ≡ None) }
    ensures apart { IfNone result
        (server_file.shadowed_client server.now.networks.items config.now ≡ None) }
    ensures asker { IfNone result (server_file.asker_fault server.now.ask config.now ≡ None) }
{
    let networks = server.networks.as_slice();
    if let Some(fault) = unknown_client(networks, config) {
        return Some(fault);
    }
    if let Some(fault) = unsigned_client(networks, config) {
        return Some(fault);
    }
    if let Some(fault) = shadowed_client(networks, config) {
        return Some(fault);
    }
    asker_fault(&server.ask, config)
}

/// The account file of this name, with its mode and its text.
pub fn account_file<F: Files>(
    files: &F,
    alloc: Global,
    names: &Dictionary,
    name: &str,
) -> Result<AccountFile, Fault>
    ensures { IfErr result (IsOfFile name.now) }
{
    let text = file_text(files, alloc, name)?;
    let config = match read_config(alloc, names, text.as_slice()) {
        Ok(config) => config,
        Err(ConfigFault::NoMemory) => return Err(Fault::NoMemory),
        Err(fault) => {
            let faults = account_faults(alloc, names, text.as_slice(), &fault)?;
            return Err(bad_file(alloc, name, Wrong::Faults(faults)));
        }
    };
    match fs::metadata(files, name) {
        Ok(found) => Ok(AccountFile {
            config,
            mode: found.permissions().mode(),
            text,
        }),
        Err(error) => Err(bad_file(alloc, name, Wrong::Unreadable(cause_of(error.kind())))),
    }
}

/// The text of the file of this name.
pub(crate) fn file_text<F: Files>(files: &F, alloc: Global, name: &str) -> Result<Vec<u8>, Fault>
    ensures { IfErr result (IsOfFile name.now) }
{
    match read_file(files, alloc, name, MAX_FILE_LEN) {
        Ok(text) => Ok(text),
        Err(TextFault::Unreadable) => Err(unreadable(files, alloc, name)),
        Err(TextFault::TooLong) => Err(bad_file(alloc, name, Wrong::TooLong)),
        Err(TextFault::NoMemory) => Err(Fault::NoMemory),
    }
}

/// The fault of a file that cannot be read, with its cause.
pub(crate) fn unreadable<F: Files>(files: &F, alloc: Global, name: &str) -> Fault
    ensures { IsOfFile name.now result }
{
    bad_file(alloc, name, Wrong::Unreadable(cause_in(files, name)))
}

/// The fault of a wrong file; that of memory, if its name finds none.
pub(crate) fn bad_file(alloc: Global, name: &str, wrong: Wrong) -> Fault
    ensures of { IsOfFile name.now result }
    ensures wrong { IsBadFile name.now wrong result }
{
    match String::from_str(alloc, name) {
        Ok(name) => Fault::BadFile(BadFile { name, wrong }),
        Err(_) => Fault::NoMemory,
    }
}
