use crate::fault::Fault;
use crate::files::{AccountFile, accounts_for, server_file};
use crate::output::say;
use rld_attributes::accept_listed;
use rld_config::Paths;
use rld_values::read_word;
use rld_words::{Misuse, Topic};
use rsl_reply::Dictionary;
use std::alloc::Global;
use std::fs::Files;
use std::io::Write;

/// Writes what an accept of an account has, a line an attribute, by the account file that the server's file
/// names. `word` is the account's name, as `accounts` prints it.
///
/// `Usage` comes if it is no name that `accounts` prints, before anything is read; `Refused` if there is no
/// such account.
pub(crate) fn reply<F: Files, W: Write>(
    files: &F,
    alloc: Global,
    names: &Dictionary,
    word: &str,
    name: &str,
    writer: &mut W,
) -> Result<(), Fault> {
    let Some(account) = read_word(alloc, word.as_bytes())? else {
        return Err(Fault::Usage(Misuse::Unreadable(Topic::Reply)));
    };
    let accounts = accounts_of(files, alloc, names, name)?;
    match accept_listed(alloc, names, &accounts.config, account.as_slice())? {
        Some(lines) => say(writer, lines.as_slice()),
        None => Err(Fault::Refused(String::from_str(alloc, "unknown account")?)),
    }
}

/// The account file that the server's file of this name names.
fn accounts_of<F: Files>(
    files: &F,
    alloc: Global,
    names: &Dictionary,
    name: &str,
) -> Result<AccountFile, Fault> {
    let server = server_file(files, alloc, name)?;
    let Paths { accounts, .. } = Paths::of(alloc, name, &server)?;
    accounts_for(files, alloc, names, name, &server, accounts.as_str())
}
