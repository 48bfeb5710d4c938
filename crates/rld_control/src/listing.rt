//! Asking for the links of all accounts, a page at a time.

ghost use Rattle.std.specs.Prelude.{◌≡◌, length, IfOk};
ghost use Rattle.std.specs.Int.{w64, from_be_bytes};
ghost use Rattle.rld_values.specs.Read.{octets_of_word};
ghost use Rattle.rsl_accounts.specs.Address.{address_of};
ghost use Rattle.rld_control.specs.Listing.{
  form_of_word,
  listing_of,
  optional,
  seconds_of,
  seconds_of_word,
  state_of_word,
  with_client,
  with_form,
  with_names,
  with_older,
  with_state,
};
ghost use Rattle.rld_control.specs.Named.{nas_of_word};

use crate::form::Form;
use crate::named::nas_of_word;
use crate::wanted::{LinkState, Wanted};
use crate::words::parted;
use rld_values::{read_hex, read_word};
use rsl_accounts::address_of;
use rsl_event::NasName;
use rsl_session::SavedLink;
use rsl_wire::{NoMemory, Octets};
use std::alloc::Global;

/// What an operator asks of the links of all accounts.
#[derive(Drop)]
pub struct Listing {
    /// The form of the answer.
    pub form: Form,
    /// The links to show.
    pub wanted: Wanted,
    /// The name of the account with which the page begins; else it begins with the first one.
    pub from: Option<Octets>,
}

/// The links of one account.
#[derive(Drop)]
pub struct AccountLinks {
    /// The account's number.
    pub account: u32,
    /// Its links, in the order in which they opened.
    pub links: Vec<SavedLink>,
}

impl Listing {
    /// What these words ask: the form, a client's address, a state, sixteen hexadecimal digits of a
    /// number of seconds, the name of an access server as in `NamedSession::read`, and the word of
    /// an account, separated by single spaces. In the place of what is not given stands `\-`.
    /// `None` for any other words. It fails only if memory is refused.
    pub fn read(alloc: Global, words: &[u8]) -> Result<Option<Listing>, NoMemory>
        ensures { IfOk result (λ listing. listing ≡ listing_of words.now) }
    {
        match parted(words) {
            Some((form, words)) => with_form(alloc, form, words),
            None => Ok(None),
        }
    }
}

/// The listing of the word of a form and the words after it.
fn with_form(alloc: Global, form: &[u8], words: &[u8]) -> Result<Option<Listing>, NoMemory>
    ensures { IfOk result (λ listing. listing ≡ with_form form.now words.now) }
{
    let Some(form) = form_of_word(form) else {
        return Ok(None);
    };
    match parted(words) {
        Some((client, words)) => with_client(alloc, form, client, words),
        None => Ok(None),
    }
}

/// The listing of a form, the word of a client and the words after it.
fn with_client(
    alloc: Global,
    form: Form,
    client: &[u8],
    words: &[u8],
) -> Result<Option<Listing>, NoMemory>
    ensures { IfOk result (λ listing. listing ≡ with_client form client.now words.now) }
{
    let Some(client) = client_in(client) else {
        return Ok(None);
    };
    match parted(words) {
        Some((state, words)) => with_state(alloc, form, client, state, words),
        None => Ok(None),
    }
}

/// The same with the word of a state.
fn with_state(
    alloc: Global,
    form: Form,
    client: Option<[u8; 4]>,
    state: &[u8],
    words: &[u8],
) -> Result<Option<Listing>, NoMemory>
    ensures { IfOk result (λ listing. listing ≡ with_state form client state.now words.now) }
{
    let Some(state) = state_in(state) else {
        return Ok(None);
    };
    match parted(words) {
        Some((older, words)) => with_older(alloc, form, client, state, older, words),
        None => Ok(None),
    }
}

/// The same with the word of a number of seconds.
fn with_older(
    alloc: Global,
    form: Form,
    client: Option<[u8; 4]>,
    state: Option<LinkState>,
    older: &[u8],
    words: &[u8],
) -> Result<Option<Listing>, NoMemory>
    ensures { IfOk result (λ listing. listing ≡ with_older form client state older.now words.now) }
{
    let Some(older) = seconds_of_word(alloc, older)? else {
        return Ok(None);
    };
    match parted(words) {
        Some((nas, from)) => with_names(alloc, form, client, state, older, nas, from),
        None => Ok(None),
    }
}

/// The same with the words of an access server and of an account.
fn with_names(
    alloc: Global,
    form: Form,
    client: Option<[u8; 4]>,
    state: Option<LinkState>,
    older: u64,
    nas: &[u8],
    from: &[u8],
) -> Result<Option<Listing>, NoMemory>
    ensures { IfOk result (λ listing.
        listing ≡ with_names form client state older nas.now from.now) }
{
    let Some(nas) = nas_in(alloc, nas)? else {
        return Ok(None);
    };
    match account_in(alloc, from) {
        Ok(Some(from)) => Ok(Some(Listing {
            form,
            wanted: Wanted {
                nas,
                client,
                state,
                older,
            },
            from,
        })),
        Ok(None) => Ok(None),
        Err(fault) => Err(fault),
    }
}

/// The form of its word.
fn form_of_word(word: &[u8]) -> Option<Form>
    ensures { result ≡ form_of_word word.now }
{
    if word == b"lines".as_slice() {
        Some(Form::Lines)
    } else if word == b"json".as_slice() {
        Some(Form::Json)
    } else {
        None
    }
}

/// The client's address of its word, or that none is given.
fn client_in(word: &[u8]) -> Option<Option<[u8; 4]>>
    ensures { result ≡ optional address_of word.now }
{
    if word == b"\\-".as_slice() {
        return Some(None);
    }
    address_of(word).map(Some)
}

/// The state of its word, or that none is given.
fn state_in(word: &[u8]) -> Option<Option<LinkState>>
    ensures { result ≡ optional state_of_word word.now }
{
    if word == b"\\-".as_slice() {
        return Some(None);
    }
    state_of_word(word).map(Some)
}

/// The state of its word.
fn state_of_word(word: &[u8]) -> Option<LinkState>
    ensures { result ≡ state_of_word word.now }
{
    if word == b"reserved".as_slice() {
        Some(LinkState::Reserved)
    } else if word == b"live".as_slice() {
        Some(LinkState::Live)
    } else if word == b"stale".as_slice() {
        Some(LinkState::Stale)
    } else {
        None
    }
}

/// The number of sixteen hexadecimal digits.
fn seconds_of_word(alloc: Global, word: &[u8]) -> Result<Option<u64>, NoMemory>
    ensures { IfOk result (λ found. found ≡ seconds_of_word word.now) }
{
    match read_hex(alloc, word) {
        Ok(Some(octets)) => Ok(seconds_of(octets.as_slice())),
        Ok(None) => Ok(None),
        Err(fault) => Err(fault),
    }
}

/// The number of eight octets, high octet first.
fn seconds_of(octets: &[u8]) -> Option<u64>
    ensures { result ≡ seconds_of octets.now }
{
    if octets.len() == 8 {
        Some(number_of(octets))
    } else {
        None
    }
}

/// Eight octets as a number, high octet first.
fn number_of(octets: &[u8]) -> u64
    requires { length octets.now ≡ 8 }
    ensures { result ≡ from_be_bytes w64 octets.now }
{
    u64::from_be_bytes([
        octets[0], octets[1], octets[2], octets[3], octets[4], octets[5], octets[6], octets[7],
    ])
}

/// The access server's name of its word, or that none is given.
fn nas_in(alloc: Global, word: &[u8]) -> Result<Option<Option<NasName>>, NoMemory>
    ensures { IfOk result (λ found. found ≡ optional nas_of_word word.now) }
{
    if word == b"\\-".as_slice() {
        return Ok(Some(None));
    }
    Ok(nas_of_word(alloc, word)?.map(Some))
}

/// The account's name of its word, or that none is given.
fn account_in(alloc: Global, word: &[u8]) -> Result<Option<Option<Octets>>, NoMemory>
    ensures { IfOk result (λ found. found ≡ optional octets_of_word word.now) }
{
    if word == b"\\-".as_slice() {
        return Ok(Some(None));
    }
    match read_word(alloc, word) {
        Ok(Some(account)) => Ok(Some(Some(account))),
        Ok(None) => Ok(None),
        Err(fault) => Err(fault),
    }
}
