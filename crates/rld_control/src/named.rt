ghost use Rattle.std.specs.Prelude.{◌≡◌, ◌++◌, Some, IfOk, OnOk};
ghost use Rattle.rld_control.specs.Named.{
  named,
  named_by,
  named_server_of,
  named_session_of,
  nas_of_word,
  nas_word,
  server_by,
  server_words,
  with_account,
  with_client,
};
ghost use Rattle.rld_values.specs.Read.{octets_of_word};

use crate::words::parted;
use rld_values::{
    push_dotted, push_escaped, push_hex, push_text, push_word, read_escaped, read_hex, read_word,
};
use rsl_accounts::address_of;
use rsl_event::NasName;
use rsl_wire::{NoMemory, Octets};
use std::alloc::{AllocError, Global};

/// An access server, as an operator names it.
#[derive(Drop)]
pub struct NamedServer {
    /// The address of the client that its packets come from.
    pub client: [u8; 4],
    /// Its name.
    pub nas: NasName,
}

impl NamedServer {
    /// The access server of these words: the client's address and the name, as those of a session,
    /// separated by a single space. `None` for any other words. It fails only if memory is refused.
    pub fn read(alloc: Global, words: &[u8]) -> Result<Option<NamedServer>, NoMemory>
        ensures { IfOk result (λ found. found ≡ named_server_of words.now) }
    {
        match parted(words) {
            Some((client, nas)) => server_by(alloc, client, nas),
            None => Ok(None),
        }
    }
}

/// The access server of these words.
fn server_by(alloc: Global, client: &[u8], nas: &[u8]) -> Result<Option<NamedServer>, NoMemory>
    ensures { IfOk result (λ found. found ≡ server_by client.now nas.now) }
{
    let Some(client) = address_of(client) else {
        return Ok(None);
    };
    match nas_of_word(alloc, nas) {
        Ok(Some(nas)) => Ok(Some(NamedServer { client, nas })),
        Ok(None) => Ok(None),
        Err(fault) => Err(fault),
    }
}

/// A session, as an operator names it.
#[derive(Drop)]
pub struct NamedSession {
    /// The name of its account.
    pub account: Octets,
    /// The address of the client that its packets come from.
    pub client: [u8; 4],
    /// The name of its access server.
    pub nas: NasName,
    /// Its Acct-Session-Id (RFC 2866 section 5.5).
    pub session: Octets,
}

impl NamedSession {
    /// The session of these words: the account, the client's address as four numbers with dots
    /// between them, `nas=` and the NAS-Identifier or `nas-address=` and the hexadecimal digits of
    /// the NAS-IP-Address or `unnamed`, and the id, separated by single spaces. `None` for any
    /// other words. It fails only if memory is refused.
    pub fn read(alloc: Global, words: &[u8]) -> Result<Option<NamedSession>, NoMemory>
        ensures { IfOk result (λ found. found ≡ named_session_of words.now) }
    {
        match parted(words) {
            Some((account, words)) => with_account(alloc, account, words),
            None => Ok(None),
        }
    }
}

/// The session of an account's word and the words after it.
fn with_account(
    alloc: Global,
    account: &[u8],
    words: &[u8],
) -> Result<Option<NamedSession>, NoMemory>
    ensures { IfOk result (λ found. found ≡ with_account account.now words.now) }
{
    match parted(words) {
        Some((client, words)) => with_client(alloc, account, client, words),
        None => Ok(None),
    }
}

/// The session of an account's word, a client's and the words after them.
fn with_client(
    alloc: Global,
    account: &[u8],
    client: &[u8],
    words: &[u8],
) -> Result<Option<NamedSession>, NoMemory>
    ensures { IfOk result (λ found. found ≡ with_client account.now client.now words.now) }
{
    match parted(words) {
        Some((nas, session)) => named_by(alloc, account, client, nas, session),
        None => Ok(None),
    }
}

/// The session of these words.
fn named_by(
    alloc: Global,
    account: &[u8],
    client: &[u8],
    nas: &[u8],
    session: &[u8],
) -> Result<Option<NamedSession>, NoMemory>
    ensures { IfOk result (λ found.
        found ≡ named_by account.now client.now nas.now session.now) }
{
    let Some(client) = address_of(client) else {
        return Ok(None);
    };
    match read_word(alloc, account) {
        Ok(Some(account)) => at_client(alloc, account, client, nas, session),
        Ok(None) => Ok(None),
        Err(fault) => Err(fault),
    }
}

/// The session of an account at a client, and the words of its access server and its id.
fn at_client(
    alloc: Global,
    account: Octets,
    client: [u8; 4],
    nas: &[u8],
    session: &[u8],
) -> Result<Option<NamedSession>, NoMemory>
    ensures { IfOk result (λ found. found
        ≡ named (Some client) (Some account) (nas_of_word nas.now) (octets_of_word session.now)) }
{
    match nas_of_word(alloc, nas) {
        Ok(Some(nas)) => at_server(alloc, account, client, nas, session),
        Ok(None) => Ok(None),
        Err(fault) => Err(fault),
    }
}

/// The session of an account at an access server, and the word of its id.
fn at_server(
    alloc: Global,
    account: Octets,
    client: [u8; 4],
    nas: NasName,
    session: &[u8],
) -> Result<Option<NamedSession>, NoMemory>
    ensures { IfOk result (λ found. found
        ≡ named (Some client) (Some account) (Some nas) (octets_of_word session.now)) }
{
    match read_word(alloc, session) {
        Ok(Some(session)) => Ok(Some(NamedSession {
            account,
            client,
            nas,
            session,
        })),
        Ok(None) => Ok(None),
        Err(fault) => Err(fault),
    }
}

/// Writes the words of an account and of an access server at a client with this address. It fails
/// only if memory is refused.
pub fn push_server(
    out: &mut Vec<u8>,
    account: &[u8],
    client: [u8; 4],
    nas: &NasName,
) -> Result<(), AllocError>
    ensures { OnOk result (out.new.items ≡ out.old.items ++ server_words account.now client nas.now) }
{
    push_word(out, account)?;
    out.push(32)?;
    push_dotted(out, client)?;
    out.push(32)?;
    push_nas(out, nas)
}

/// Writes the name of an access server.
fn push_nas(out: &mut Vec<u8>, nas: &NasName) -> Result<(), AllocError>
    ensures { OnOk result (out.new.items ≡ out.old.items ++ nas_word nas.now) }
{
    match nas {
        NasName::Identifier(name) => {
            push_text(out, "nas=")?;
            push_escaped(out, name.as_slice())
        }
        NasName::Address(address) => {
            push_text(out, "nas-address=")?;
            push_hex(out, address.as_slice())
        }
        NasName::Unnamed => push_text(out, "unnamed"),
    }
}

/// The name of an access server from its word.
pub(crate) fn nas_of_word(alloc: Global, word: &[u8]) -> Result<Option<NasName>, NoMemory>
    ensures { IfOk result (λ found. found ≡ nas_of_word word.now) }
{
    if word == b"unnamed".as_slice() {
        return Ok(Some(NasName::Unnamed));
    }
    if let Some(name) = word.strip_prefix(b"nas=") {
        return Ok(read_escaped(alloc, name)?.map(NasName::Identifier));
    }
    if let Some(address) = word.strip_prefix(b"nas-address=") {
        return Ok(read_hex(alloc, address)?.map(NasName::Address));
    }
    Ok(None)
}
