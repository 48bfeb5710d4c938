//! The beginning of a generation.

ghost use Rattle.std.specs.Prelude.{◌≡◌, ◌⊎◌, ◌+◌, ◌<◌, ◌^◌, ℕ, List, [], ◌∷◌, ◌++◌, length, IsTrue, IfOk, IfSome, OnErr, OnOk};
ghost use Rattle.rld_log.specs.Frames.{Fits, HasPayloads, frames};
ghost use Rattle.rld_log.specs.Log.{NoMore};
ghost use Rattle.rld_store.specs.Premises.{Only, Premise};
ghost use Rattle.rld_log.specs.Recording.{IsSettled};
ghost use Rattle.rld_log.specs.declared.log.Ending.{Ending as OneEnding};
ghost use Rattle.rld_spelling.specs.Books.{books_field, books_seen};
ghost use Rattle.rld_store.specs.Beginning.{HasAtMostOne, IsBegun, IsFront};
ghost use Rattle.rld_store.specs.Generations.{HasGeneration, IsUnbegun, counts_of};

use crate::fault::StoreFault;
use rld_books::{ServerBooks, table_octets};
use rld_log::{HEAD_LEN, Log, LogFault, record};
use rld_spelling::{Counts, Header, push_book, push_number};
use rsl_accounts::Config;
use rsl_session::SavedBook;
use std::alloc::Global;

/// The longest payload of a frame.
const MAX_PAYLOAD: usize = 4_294_967_295;

/// The numbers of accounts and clients.
pub fn counts_in(config: &Config) -> Counts
    ensures { result ≡ counts_of config.now }
{
    Counts {
        accounts: config.accounts(),
        clients: config.clients(),
    }
}

/// The length of whole frames with another one, whose payload has this length.
pub(crate) fn whole_with(whole: usize, payload: usize) -> Option<usize>
    ensures whole { IfSome result (λ len. len ≡ whole + (20 + payload)) }
    ensures fits { IfSome result (λ _. payload < 2 ^ 32) }
{
    if payload > MAX_PAYLOAD {
        return None;
    }
    whole.checked_add(HEAD_LEN + payload)
}

/// Saved books as a snapshot.
fn snapshot_of(alloc: Global, books: &[SavedBook], clients: u32) -> Result<Vec<u8>, StoreFault>
    ensures spelled { IfOk result (λ octets.
        octets.items ≡ (books_field clients).spell (books_seen books.now)) }
    ensures fit { OnOk result ((books_field clients).Fits (books_seen books.now)) }
{
    let mut octets = Vec::new(alloc);
    push_number(&mut octets, books.len() as u64)?;
    for book in books {
        push_book(&mut octets, book, clients)?;
    }
    Ok(octets)
}

/// The first payloads of a generation.
#[derive(Drop)]
struct Beginning {
    /// The payload of the header and the table.
    front: Vec<u8>,
    /// The payload of the snapshot.
    snapshot: Vec<u8>,
    /// The length of the frames of both.
    whole: usize,
}

/// The first payloads of a generation of these accounts that begins with these books.
fn beginning_of(
    alloc: Global,
    header: Header,
    config: &Config,
    books: &ServerBooks,
) -> Result<Beginning, StoreFault>
    ensures { IfOk result (λ made.
        IsFront config.now header books.now made.front.items made.snapshot.items made.whole) }
{
    header.has_spelling();
    let mut first = Vec::new(alloc);
    header.push(&mut first)?;
    first.extend_from_slice(&table_octets(alloc, config)?)?;
    let saved = books.save(alloc)?;
    let second = snapshot_of(alloc, &saved, config.clients())?;
    let Some(end) = whole_with(0, first.len()) else {
        return Err(StoreFault::TooLong);
    };
    let Some(whole) = whole_with(end, second.len()) else {
        return Err(StoreFault::TooLong);
    };
    Ok(Beginning {
        front: first,
        snapshot: second,
        whole,
    })
}

/// Checks that a log is empty, and leaves it as it was.
fn check_empty<L: Log>(alloc: Global, log: &mut L) -> Result<(), StoreFault>
    ensures told { IsTrue (L.tells log.new) → IsTrue (L.tells log.old) }
    ensures same { IsTrue (L.tells log.new) → L.seen log.new ≡ L.seen log.old }
    ensures crash { IsTrue (L.tells log.new) → NoMore (L.may_leave log.old) (L.may_leave log.new) }
    ensures empty { IsTrue (L.tells log.new) → OnOk result (L.seen log.old ≡ []) }
{
    let octets = log.read(alloc)?;
    if octets.is_empty() {
        Ok(())
    } else {
        Err(StoreFault::Occupied)
    }
}

/// Records two payloads in an empty log, one after the other.
fn record_both<L: Log>(
    alloc: Global,
    log: &mut L,
    first: &[u8],
    second: &[u8],
) -> Result<(), LogFault>
    requires first { Fits first.now }
    requires second { Fits second.now }
    ensures told { IsTrue (L.tells log.new) → IsTrue (L.tells log.old) }
    ensures recorded { IsTrue (L.tells log.new) → IsSettled (L.seen log.old) (L.may_leave log.old) [] →
        OnOk result (IsSettled (L.seen log.new) (L.may_leave log.new) (first.now ∷ second.now ∷ [])) }
    ensures crash { IsTrue (L.tells log.new) → IsSettled (L.seen log.old) (L.may_leave log.old) [] →
        (ending : OneEnding) → Premise L.tears ending → (left : List ℕ) → L.may_leave log.new ending left →
        HasAtMostOne first.now left ⊎ HasPayloads left (first.now ∷ second.now ∷ []) }
{
    record(alloc, log, first)?;
    record(alloc, log, second)?;
    Ok(())
}

/// Begins a generation of these accounts, with these books, in an empty log: writes its header with
/// their table, and a snapshot, and syncs each. Gives the length of their frames.
pub(crate) fn begin_log<L: Log>(
    alloc: Global,
    log: &mut L,
    header: Header,
    config: &Config,
    books: &ServerBooks,
) -> Result<usize, StoreFault>
    ensures told { IsTrue (L.tells log.new) → IsTrue (L.tells log.old) }
    ensures begun { IsTrue (L.tells log.new) → Only (L.seen log.old) (L.may_leave log.old) →
        IfOk result (IsBegun config.now header books.now (L.seen log.new) (L.may_leave log.new)) }

    // A crash at any call leaves no generation, or this one.
    ensures crash { IsTrue (L.tells log.new) → Only (L.seen log.old) (L.may_leave log.old) → L.seen log.old ≡ [] →
        (ending : OneEnding) → Premise L.tears ending → (left : List ℕ) → L.may_leave log.new ending left →
        IsUnbegun left ⊎ HasGeneration config.now header books.now [] left }
{
    let made = beginning_of(alloc, header, config, books)?;
    check_empty(alloc, log)?;
    record_both(alloc, log, &made.front, &made.snapshot)?;
    Ok(made.whole)
}
