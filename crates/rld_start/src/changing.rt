//! Going on with other accounts, and with the books that are admitted for them.

ghost use Rattle.std.specs.Prelude.{◌≡◌, ◌+◌, ◌↔◌, map, IfErr, IfOk, IfSome, IsTrue, Some};
ghost use Rattle.rld_books.specs.Admitted.{AreAdmitted};
ghost use Rattle.rld_spelling.specs.Tables.{account_row, client_row, table_of};
ghost use Rattle.rld_start.specs.Behind.{IsBehind};
ghost use Rattle.std.specs.Arc.{arc_value};
ghost use Rattle.rld_books.specs.Saved.{IsServerOf};
ghost use Rattle.rld_start.specs.Counted.{AreSessionsOf};
ghost use Rattle.rld_start.specs.Faults.{IsWhyNotAdmitted};
ghost use Rattle.rld_start.specs.Going.{Admits};
ghost use Rattle.rld_start.specs.NextHeaders.{IsNewNumber};
ghost use Rattle.rld_folder.specs.declared.name.Generation.TheVariants.{Numbered};
ghost use Rattle.rld_store.specs.Generations.{octets_of};

use crate::behind::behind_books;
use crate::count::{Found, sessions_in};
use crate::fault::StartFault;
use crate::header::changed_header;
use crate::new_generation::{NewGeneration, begin_generation, sync_begun};
use crate::newest::Begun;
use crate::number::new_number;
use crate::reopening::{Former, reopen};
use crate::starting::Started;
use crate::wrong::{Cause, Wrong};
use rld_books::{BlankBooks, ServerBooks, ServerFault, admit};
use rld_folder::{FileName, Folder, Generation, Synced};
use rld_log::Pacing;
use rld_spelling::Header;
use rld_store::Opened;
use rsl_accounts::{Client, Config, Entry};
use std::alloc::Global;
use std::fs::{File, Files};
use std::sync::Arc;

/// Goes on from the generation of this number, whose table is that of another configuration, with the
/// books admitted from it. The log of the new generation is synced to the disk, whatever the pacing. A
/// crash at any call leaves the former generation, or the new one whole.
pub(crate) fn change<'a, R: Files<File = File>>(
    files: &R,
    alloc: Global,
    old: Config,
    config: Arc<Config>,
    folder: Folder,
    names: &[FileName],
    begun: Begun,
    number: u64,
    now: u64,
    pacing: Pacing<'a>,
) -> Result<Started<'a>, StartFault>
    requires { octets_of old ≡ octets_of (arc_value config) → ⊥ }
    ensures config { IfOk result (λ started. started.store.config ≡ config) }
    ensures number { IfOk result (λ started. IsNewNumber names.now started.store.header) }
    ensures from { IfOk result (λ started. started.found.from ≡ Some (Numbered number)) }
    ensures admits { IfOk result (λ started.
        Admits (arc_value config) begun started.store.header started.store.books) }
    ensures behind { IfOk result (λ started.
        IsBehind (arc_value started.store.config) started.store.books now started.found.behind) }
{
    let Ok(old) = Arc::new(alloc, old) else {
        return Err(StartFault::NoMemory);
    };
    let held = Arc::try_clone(&old)?;
    let former = reopen(alloc, held, begun, number, pacing)?;
    let Former { opened, .. } = former;
    let Opened {
        store,
        header,
        moves,
        torn,
    } = opened;
    let next = new_number(names)?;
    let Some(header) = changed_header(&header, next, moves as u64) else {
        return Err(StartFault::NoNumber);
    };
    let end = LogEnd {
        generation: Generation::Numbered(number),
        books: store.into_books(),
        torn,
    };
    change_from(
        files, alloc, &*old, config, folder, end, header, now, pacing,
    )
}

/// What the log of a generation ends with.
#[derive(Drop)]
pub(crate) struct LogEnd {
    /// The generation.
    pub(crate) generation: Generation,
    /// The books after its moves.
    pub(crate) books: ServerBooks,
    /// Octets of its torn end.
    pub(crate) torn: usize,
}

/// Begins the generation of this header after one whose accounts are those of the old configuration,
/// with the books admitted from the end of its log.
pub(crate) fn change_from<'a, R: Files<File = File>>(
    files: &R,
    alloc: Global,
    old: &Config,
    config: Arc<Config>,
    folder: Folder,
    end: LogEnd,
    header: Header,
    now: u64,
    pacing: Pacing<'a>,
) -> Result<Started<'a>, StartFault>
    ensures header { IfOk result (λ started. started.store.header ≡ header) }
    ensures config { IfOk result (λ started. started.store.config ≡ config) }
    ensures admitted { IfOk result (λ started.
        AreAdmitted (table_of old.now) end.books (table_of (arc_value config)) started.store.books) }
    ensures torn { IfOk result (λ started. started.found.torn ≡ end.torn) }
    ensures held { IfOk result (λ started. IfSome started.found.held (AreSessionsOf end.books)) }
    ensures behind { IfOk result (λ started.
        IsBehind (arc_value started.store.config) started.store.books now started.found.behind) }
    ensures from { IfOk result (λ started. started.found.from ≡ Some end.generation) }
{
    let LogEnd {
        generation,
        books,
        torn,
    } = end;
    let held = sessions_in(books.rows(alloc)?.as_slice());
    let blanks = BlankBooks::none(alloc);
    let books = admitted_books(alloc, old, generation, &books, &*config, blanks)?;
    let begun = begin_generation(files, alloc, config, &folder, header, books, pacing)?;
    let synced = sync_begun(files, alloc, &folder, &header)?;
    let found = found_changed(alloc, &begun, &synced, generation, held, torn, now)?;
    let NewGeneration { store, key } = begun;
    Ok(Started {
        folder,
        store,
        key,
        found,
    })
}

/// What a start has found when a generation has begun with the books of another one admitted. Its log
/// has to be on the disk.
fn found_changed(
    alloc: Global,
    begun: &NewGeneration<'_>,
    synced: &Synced,
    from: Generation,
    held: u64,
    torn: usize,
    now: u64,
) -> Result<Found, StartFault>
    requires { synced.now.generation ≡ begun.now.store.header.generation }
    ensures torn { IfOk result (λ found. found.torn ≡ torn) }
    ensures behind { IfOk result (λ found. IsBehind (arc_value begun.now.store.config) begun.now.store.books now found.behind) }
    ensures from { IfOk result (λ found. found.from ≡ Some from) }
    ensures held { IfOk result (λ found. found.held ≡ Some held) }
    ensures sessions { IfOk result (λ found. AreSessionsOf begun.now.store.books found.sessions) }
{
    let _log = synced;
    Ok(Found {
        from: Some(from),
        moves: begun.store.header().lines,
        sessions: sessions_in(begun.store.rows(alloc)?.as_slice()),
        torn,
        behind: behind_books(&**begun.store.config(), begun.store.books(), now),
        held: Some(held),
    })
}

/// The books admitted from a generation, in blank ones if there are any. `BadLog` with the cause
/// `Misfit` comes for no books of a log, since what is carried over can be restored
/// (`rld_books::laws::carried_books_fit`). `NoMemory` comes if memory is refused.
pub fn admitted_books(
    alloc: Global,
    old: &Config,
    generation: Generation,
    books: &ServerBooks,
    new: &Config,
    blanks: BlankBooks,
) -> Result<ServerBooks, StartFault>
    ensures server { IfOk result (λ made. IsServerOf new.now made) }
    ensures admitted { IfOk result (λ made.
        AreAdmitted (table_of old.now) books.now (table_of new.now) made) }
    ensures why { IfErr result (IsWhyNotAdmitted generation) }
{
    match admit(alloc, old, books, new, blanks) {
        Ok(made) => Ok(made),
        Err(ServerFault::NoMemory) => Err(StartFault::NoMemory),
        Err(fault) => {
            let wrong = Wrong {
                offset: 0,
                cause: Cause::Misfit(fault),
            };
            Err(StartFault::bad(FileName::Log(generation), wrong))
        }
    }
}

/// Whether two configurations have the same table: the same names, rules and addresses, in the same
/// order. Passwords, secrets and reply attributes may differ. No table is made for that, as receivers
/// wait for it.
pub fn has_same_table(old: &Config, new: &Config) -> bool
    ensures { IsTrue result ↔ (table_of old.now ≡ table_of new.now) }
{
    has_same_clients(old, new) && has_same_accounts(old, new)
}

/// Whether a configuration has the clients of another one, each under its number.
#[tactic(auto, using(crate::proofs::Alike::row_steps))]
pub fn has_same_clients(old: &Config, new: &Config) -> bool
    ensures { IsTrue result ↔ (map client_row old.now.clients ≡ map client_row new.now.clients) }
{
    if old.clients() != new.clients() {
        return false;
    }
    for number in 0..old.clients() {
        if !is_same_client(old.client_at(number), new.client_at(number)) {
            return false;
        }
    }
    true
}

/// Whether a configuration has the accounts of another one, each under its number and with its
/// rules.
#[tactic(auto, using(crate::proofs::Alike::row_steps))]
fn has_same_accounts(old: &Config, new: &Config) -> bool
    ensures { IsTrue result ↔ (map account_row old.now.accounts ≡ map account_row new.now.accounts) }
{
    if old.accounts() != new.accounts() {
        return false;
    }
    for number in 0..old.accounts() {
        if !is_same_account(old.entry(number), new.entry(number)) {
            return false;
        }
    }
    true
}

/// Whether two clients have the same address.
fn is_same_client(old: &Client, new: &Client) -> bool
    ensures { IsTrue result ↔ (client_row old.now ≡ client_row new.now) }
{
    old.address == new.address
}

/// Whether two accounts have the same name and the same rules.
fn is_same_account(old: &Entry, new: &Entry) -> bool
    ensures { IsTrue result ↔ (account_row old.now ≡ account_row new.now) }
{
    old.rules == new.rules && old.name.as_bytes() == new.name.as_bytes()
}
