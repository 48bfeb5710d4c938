//! Reading a generation.

ghost use Rattle.std.specs.Prelude.{◌≡◌, ℕ, List, [], ◌∷◌, length, map, IfErr, IfOk, OnOk};
ghost use Rattle.rld_books.specs.Saved.{IsServerOf};
ghost use Rattle.rld_books.specs.Server.{replay};
ghost use Rattle.rld_log.specs.Frames.{frames};
ghost use Rattle.rld_store.specs.Generations.{AreBatches, counts_of, octets_of};
ghost use Rattle.rld_store.specs.Opening.{AreReplayed, IsFoundIn, IsThere, IsWhyOther, IsWhyUnread};
ghost use Rattle.rld_store.specs.declared.fault.StoreFault.TheVariants.{Foreign as foreign};
ghost use Rattle.rsl_accounts.specs.Configuration.{Configuration};
ghost use Rattle.rsl_shard.specs.declared.moved.Move.{Move as OneMove};

use crate::beginning::counts_in;
use crate::fault::StoreFault;
use crate::part::Part;
use crate::parts::{Parts, payload_at};
use rld_books::{ServerBooks, is_table_of};
use rld_spelling::{Counts, Header};
use rsl_accounts::Config;
use rsl_shard::Move;
use std::alloc::Global;

/// What a generation has.
#[derive(Drop)]
pub(crate) struct Reading {
    /// The header.
    pub(crate) header: Header,
    /// The books after its moves.
    pub(crate) books: ServerBooks,
    /// The number of its moves.
    pub(crate) moves: usize,
}

/// Makes the moves of a batch that begins at an offset of the log.
fn make_each(books: &mut ServerBooks, offset: usize, batch: Vec<Move>) -> Result<(), StoreFault>
    ensures books { OnOk result (books.new ≡ replay books.old batch.items) }
    ensures why { IfErr result (λ fault. fault ≡ foreign offset) }
{
    for moved in batch {
        if !books.takes(&moved) {
            return Err(StoreFault::Foreign { offset });
        }
        books.make(moved);
    }
    Ok(())
}

/// Makes the moves of batches, whose frames follow others of this length, and counts them.
pub(crate) fn replay_each(
    alloc: Global,
    counts: Counts,
    books: &mut ServerBooks,
    whole: usize,
    payloads: &[&[u8]],
) -> Result<usize, StoreFault>
    ensures server { (config : Configuration) → IsServerOf config books.old →
        OnOk result (IsServerOf config books.new) }
    ensures books { OnOk result ((moves : List OneMove) →
        AreBatches counts moves (map (λ payload. payload.now) payloads.now) → books.new ≡ replay books.old moves) }
    ensures count { IfOk result (λ count. (moves : List OneMove) →
        AreBatches counts moves (map (λ payload. payload.now) payloads.now) → count ≡ length moves) }
    ensures spelled { IfOk result
        (AreReplayed counts (map (λ payload. payload.now) payloads.now) books.old books.new) }
    ensures why { IfErr result (λ fault. (front snapshot table : List ℕ) →
        whole ≡ length (frames (front ∷ snapshot ∷ [])) →
        IsWhyUnread counts table (front ∷ snapshot ∷ map (λ payload. payload.now) payloads.now) fault) }
{
    let mut count: usize = 0;
    let mut end = whole;
    for index in 0..payloads.len() {
        let part = Part::after(end, payload_at(payloads, index))?;
        let batch = match part.moves(alloc, counts) {
            Ok(batch) => batch,
            Err(fault) => return Err(fault),
        };
        let Some(more) = count.checked_add(batch.len()) else {
            return Err(StoreFault::TooLong);
        };
        match make_each(books, part.begin(), batch) {
            Ok(()) => {}
            Err(fault) => return Err(fault),
        }
        count = more;
        end = part.end;
    }
    Ok(count)
}

/// Checks that a generation has the table of a configuration. `OtherTable` comes if it has another one.
fn check_table(alloc: Global, config: &Config, found: Part<'_>) -> Result<(), StoreFault>
    ensures same { OnOk result (found.entry.payload.now ≡ octets_of config.now) }
    ensures why { IfErr result (IsWhyOther (octets_of config.now) found.entry.end found.entry.payload.now) }
{
    if is_table_of(alloc, config, found.payload)? {
        Ok(())
    } else {
        Err(StoreFault::OtherTable {
            offset: found.begin(),
        })
    }
}

/// Reads the payloads of a generation, which has to have the configuration's table. `Unbegun` comes
/// before any other fault.
pub(crate) fn read_generation(
    alloc: Global,
    config: &Config,
    payloads: &[&[u8]],
) -> Result<Reading, StoreFault>
    ensures server { IfOk result (λ reading. IsServerOf config.now reading.books) }
    ensures found { IfOk result (λ reading. IsFoundIn config.now (map (λ payload. payload.now) payloads.now)
        reading.header reading.books reading.moves) }
    ensures there { IfOk result (λ reading. IsThere config.now (map (λ payload. payload.now) payloads.now)
        reading.header reading.books reading.moves) }
    ensures why { IfErr result
        (IsWhyUnread (counts_of config.now) (octets_of config.now) (map (λ payload. payload.now) payloads.now)) }
{
    let parts = match Parts::of(payloads) {
        Ok(parts) => parts,
        Err(fault) => return Err(fault),
    };
    let front = match parts.front.front() {
        Ok(front) => front,
        Err(bad) => return Err(StoreFault::Malformed(bad)),
    };
    match check_table(alloc, config, front.table) {
        Ok(()) => {}
        Err(fault) => return Err(fault),
    }
    let mut books = match parts.snapshot.books(alloc, config) {
        Ok(books) => books,
        Err(fault) => return Err(fault),
    };
    let counts = counts_in(config);
    match replay_each(alloc, counts, &mut books, parts.snapshot.end, parts.batches) {
        Ok(moves) => Ok(Reading {
            header: front.header,
            books,
            moves,
        }),
        Err(fault) => Err(fault),
    }
}
