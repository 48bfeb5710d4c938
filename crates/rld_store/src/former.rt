//! Reading the log of a version before format 3.

ghost use Rattle.std.specs.Prelude.{◌≡◌, ◌+◌, ◌≤◌, length, map, IfOk};
ghost use Rattle.rld_books.specs.Saved.{IsServerOf};
ghost use Rattle.rld_store.specs.Former.{EndsFormer, EndsFormerly};

use crate::beginning::counts_in;
use crate::fault::StoreFault;
use crate::parts::Parts;
use crate::reading::replay_each;
use rld_books::ServerBooks;
use rld_log::Frames;
use rld_spelling::FormerHeader;
use rsl_accounts::Config;
use std::alloc::Global;

/// What the log of a version before format 3 ends with.
#[derive(Drop)]
pub struct FormerEnd {
    /// The header of its generation.
    pub header: FormerHeader,
    /// The books after its moves.
    pub books: ServerBooks,
    /// Octets of its torn end.
    pub torn: usize,
}

/// Reads the payloads of a generation of a version before format 3, of accounts that were dealt to
/// this many shards: its header, and the books after its moves.
fn read_payloads(
    alloc: Global,
    config: &Config,
    shards: u32,
    payloads: &[&[u8]],
) -> Result<(FormerHeader, ServerBooks), StoreFault>
    requires some { 1 ≤ shards }
    requires few { shards ≤ 4 }
    ensures server { IfOk result (λ end. IsServerOf config.now end.1) }
    ensures ends { IfOk result (λ end. EndsFormerly config.now shards
        (map (λ payload. payload.now) payloads.now) end.0 end.1) }
{
    let parts = Parts::of(payloads)?;
    let header = match parts.front.former_header() {
        Ok(header) => header,
        Err(bad) => return Err(StoreFault::Malformed(bad)),
    };
    let mut books = parts.snapshot.dealt_books(alloc, config, shards)?;
    let counts = counts_in(config);
    let _moves = replay_each(alloc, counts, &mut books, parts.snapshot.end, parts.batches)?;
    Ok((header, books))
}

/// Reads a log of a version before format 3, of accounts that were dealt to this many shards, by
/// its frames. The faults are those of `Store::open`.
pub fn read_former(
    alloc: Global,
    config: &Config,
    shards: u32,
    frames: &Frames,
) -> Result<FormerEnd, StoreFault>
    requires some { 1 ≤ shards }
    requires few { shards ≤ 4 }
    ensures server { IfOk result (λ end. IsServerOf config.now end.books) }
    ensures ends { IfOk result (λ end.
        EndsFormer config.now shards frames.now.octets.items end.header end.books) }
    ensures torn { IfOk result (λ end. length frames.now.octets.items ≡ frames.now.whole + end.torn) }
{
    let payloads = frames.payloads(alloc)?;
    let (header, books) = read_payloads(alloc, config, shards, &payloads)?;
    Ok(FormerEnd {
        header,
        books,
        torn: frames.torn().len(),
    })
}
