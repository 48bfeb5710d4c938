ghost use Rattle.std.specs.Prelude.{◌≡◌, IfOk};
ghost use Rattle.rld_control.specs.Command.{
  accounts_with,
  command_alone,
  command_of,
  command_with,
  flagged_sessions,
  sessions_of,
  sessions_with,
  status_with,
};

use crate::form::{Form, Selection};
use crate::listing::Listing;
use crate::named::{NamedServer, NamedSession};
use crate::words::parted;
use rld_values::read_word;
use rsl_wire::{NoMemory, Octets};
use std::alloc::Global;

/// A request to a running server.
#[derive(Drop)]
pub enum Command {
    /// Show its status.
    Status(Form),
    /// Say whether it answers packets and records.
    Ready,
    /// Show what each of these accounts holds.
    Accounts(Form, Selection),
    /// Show the links of the account with this name.
    Sessions(Form, Octets),
    /// Show a page of the links of all accounts.
    Links(Listing),
    /// Free the place of this session.
    Free(NamedSession),
    /// Free the places of all sessions of this access server.
    FreeServer(NamedServer),
    /// Have its access server disconnect this session.
    Disconnect(NamedSession),
    /// Ask whether an account that was checked elsewhere has a place, by the form of the ask.
    Ask(Octets),
    /// Read its accounts again.
    Reload,
    /// Stop.
    Stop,
}

impl Command {
    /// The command of a line, without its line feed: `status`, `accounts`, `sessions` and a name,
    /// `links` and the words of a listing, `free` or `disconnect` and the words of a session,
    /// `free-server` and the words of an access server, `ask` and a form, `ready`, `reload`, or
    /// `stop`. After the first three may come `--json`, and after `accounts` also `--held` or
    /// `--full`. `None` for any other line. It fails only if memory is refused.
    pub fn read(alloc: Global, line: &[u8]) -> Result<Option<Command>, NoMemory>
        ensures { IfOk result (λ command. command ≡ command_of line.now) }
    {
        match parted(line) {
            Some((word, words)) => command_with(alloc, word, words),
            None => Ok(command_alone(line)),
        }
    }
}

/// The command of a single word.
fn command_alone(word: &[u8]) -> Option<Command>
    ensures { result ≡ command_alone word.now }
{
    if word == b"status".as_slice() {
        Some(Command::Status(Form::Lines))
    } else if word == b"accounts".as_slice() {
        Some(Command::Accounts(Form::Lines, Selection::All))
    } else if word == b"ready".as_slice() {
        Some(Command::Ready)
    } else if word == b"reload".as_slice() {
        Some(Command::Reload)
    } else if word == b"stop".as_slice() {
        Some(Command::Stop)
    } else {
        None
    }
}

/// The command of a word with others after it.
fn command_with(alloc: Global, word: &[u8], words: &[u8]) -> Result<Option<Command>, NoMemory>
    ensures { IfOk result (λ command. command ≡ command_with word.now words.now) }
{
    if word == b"sessions".as_slice() {
        sessions_with(alloc, words)
    } else if word == b"free".as_slice() {
        Ok(NamedSession::read(alloc, words)?.map(Command::Free))
    } else if word == b"links".as_slice() {
        Ok(Listing::read(alloc, words)?.map(Command::Links))
    } else if word == b"free-server".as_slice() {
        Ok(NamedServer::read(alloc, words)?.map(Command::FreeServer))
    } else if word == b"disconnect".as_slice() {
        Ok(NamedSession::read(alloc, words)?.map(Command::Disconnect))
    } else if word == b"ask".as_slice() {
        Ok(Some(Command::Ask(Octets::from_slice(alloc, words)?)))
    } else if word == b"status".as_slice() {
        Ok(status_with(words))
    } else if word == b"accounts".as_slice() {
        Ok(accounts_with(words))
    } else {
        Ok(None)
    }
}

/// The command `status` with flags after it.
fn status_with(flags: &[u8]) -> Option<Command>
    ensures { result ≡ status_with flags.now }
{
    if flags == b"--json".as_slice() {
        Some(Command::Status(Form::Json))
    } else {
        None
    }
}

/// The command `accounts` with flags after it.
fn accounts_with(flags: &[u8]) -> Option<Command>
    ensures { result ≡ accounts_with flags.now }
{
    if flags == b"--json".as_slice() {
        Some(Command::Accounts(Form::Json, Selection::All))
    } else if flags == b"--held".as_slice() {
        Some(Command::Accounts(Form::Lines, Selection::Held))
    } else if flags == b"--full".as_slice() {
        Some(Command::Accounts(Form::Lines, Selection::Full))
    } else if flags == b"--json --held".as_slice() || flags == b"--held --json".as_slice() {
        Some(Command::Accounts(Form::Json, Selection::Held))
    } else if flags == b"--json --full".as_slice() || flags == b"--full --json".as_slice() {
        Some(Command::Accounts(Form::Json, Selection::Full))
    } else {
        None
    }
}

/// The command `sessions` with the words after it.
fn sessions_with(alloc: Global, words: &[u8]) -> Result<Option<Command>, NoMemory>
    ensures { IfOk result (λ command. command ≡ sessions_with words.now) }
{
    match parted(words) {
        Some((flag, word)) => flagged_sessions(alloc, flag, word),
        None => sessions_of(alloc, Form::Lines, words),
    }
}

/// The command `sessions` with a flag before the word of an account.
fn flagged_sessions(alloc: Global, flag: &[u8], word: &[u8]) -> Result<Option<Command>, NoMemory>
    ensures { IfOk result (λ command. command ≡ flagged_sessions flag.now word.now) }
{
    if flag == b"--json".as_slice() {
        sessions_of(alloc, Form::Json, word)
    } else {
        Ok(None)
    }
}

/// The command `sessions` of the account of this word.
fn sessions_of(alloc: Global, form: Form, word: &[u8]) -> Result<Option<Command>, NoMemory>
    ensures { IfOk result (λ command. command ≡ sessions_of form word.now) }
{
    match read_word(alloc, word) {
        Ok(Some(account)) => Ok(Some(Command::Sessions(form, account))),
        Ok(None) => Ok(None),
        Err(fault) => Err(fault),
    }
}
