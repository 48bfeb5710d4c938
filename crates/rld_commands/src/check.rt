use crate::fault::Fault;
use crate::files::{AccountFile, accounts_for, server_file};
use crate::token::token_in;
use rld_config::{Paths, passed_over, warnings};
use rld_networks::Network;
use rsl_accounts::{Config, UnsignedRule};
use rsl_reply::Dictionary;
use std::alloc::Global;
use std::fs::Files;
use std::io::Write;

/// Checks a server's file, and the account file that it names. If both are right, it writes `ok`
/// and a line for each remark on them; else nothing.
pub(crate) fn check<F: Files, W: Write>(
    files: &F,
    alloc: Global,
    names: &Dictionary,
    name: &str,
    writer: &mut W,
) -> Result<(), Fault> {
    let server = server_file(files, alloc, name)?;
    let paths = Paths::of(alloc, name, &server)?;
    let accounts = accounts_for(files, alloc, names, name, &server, paths.accounts.as_str())?;
    if let Some(path) = &paths.token {
        let _file = token_in(files, alloc, path.as_str())?;
    }
    tell(alloc, &accounts, server.networks.as_slice(), writer)
}

/// Writes `ok`, and a line for each remark on a right account file and on the networks of the server's file.
fn tell<W: Write>(
    alloc: Global,
    accounts: &AccountFile,
    networks: &[Network],
    writer: &mut W,
) -> Result<(), Fault> {
    {
        let told = warnings(alloc, &accounts.config, networks, accounts.mode)?;
        writeln!(writer, "ok")?;
        for warning in told.as_slice() {
            writeln!(writer, "{warning}")?;
        }
    }
    if let UnsignedRule::Trusted = accounts.config.unsigned_rule() {
        tell_passed_over(alloc, accounts.text.as_slice(), writer)?;
    }
    tell_short_lives(&accounts.config, writer)?;
    tell_no_login(&accounts.config, writer)?;
    Ok(writer.flush()?)
}

/// Writes the first key of the text of an account file that counts for nothing before version 3; nothing where
/// there is none.
fn tell_passed_over<W: Write>(alloc: Global, text: &[u8], writer: &mut W) -> Result<(), Fault> {
    if let Some(key) = passed_over(alloc, text)? {
        writeln!(writer, "version 3 passes over no key, as here {key}")?;
    }
    Ok(())
}

/// Writes the number of accounts whose live time is under two of their interim intervals, and the
/// first of them; nothing if there is none.
fn tell_short_lives<W: Write>(config: &Config, writer: &mut W) -> Result<(), Fault> {
    if let Some(first) = config.first_short_live() {
        let name = config.entry(first).name.as_str();
        let accounts = config.short_lives();
        writeln!(
            writer,
            "accounts: live_secs is under two interim_secs in {accounts}, first in {name}"
        )?;
    }
    Ok(())
}

/// Writes the first account that nobody can log in to, for it has no password and no client is trusted; nothing
/// where there is none.
fn tell_no_login<W: Write>(config: &Config, writer: &mut W) -> Result<(), Fault> {
    if let Some(first) = config.first_without_login() {
        let name = config.entry(first).name.as_str();
        writeln!(
            writer,
            "accounts: {name} has no password, and no client is trusted to ask without one"
        )?;
    }
    Ok(())
}
