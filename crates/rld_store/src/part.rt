//! A payload of a generation, and what it spells.

ghost use Rattle.std.specs.Prelude.{◌≡◌, ◌+◌, ◌-◌, ◌≤◌, ℕ, List, Ok, length, IfErr, IfOk};
ghost use Rattle.rld_books.specs.Saved.{IsServerOf};
ghost use Rattle.rld_log.specs.Frames.{Fits};
ghost use Rattle.rld_spelling.specs.Former.{former_header_at};
ghost use Rattle.rld_spelling.specs.Lists.{all_of};
ghost use Rattle.rld_spelling.specs.Headers.{header_at, header_field};
ghost use Rattle.rld_spelling.specs.Moves.{moves_field};
ghost use Rattle.rld_spelling.specs.declared.header.Header.{Header as OneHeader};
ghost use Rattle.rld_store.specs.Former.{IsFormerSnapshot};
ghost use Rattle.rld_store.specs.Generations.{IsSnapshot, counts_of, front_octets};
ghost use Rattle.rld_store.specs.Opening.{IsFirstFault, IsFrontFault, IsWhyNoBooks, IsWhyNoMoves};
ghost use Rattle.rld_store.specs.declared.fault.StoreFault.TheVariants.{TooLong as too_long};
ghost use Rattle.rld_books.specs.Server.{ServerSeen};
ghost use Rattle.rsl_shard.specs.declared.moved.Move.{Move as OneMove};

use crate::beginning::whole_with;
use crate::fault::{Malformed, StoreFault};
use rld_books::{ServerBooks, ServerFault};
use rld_spelling::{Counts, Fault, FormerHeader, Header, ReadFault, former_header, read_books};
use rsl_accounts::Config;
use rsl_shard::Move;
use std::alloc::Global;

/// A payload of a log, and its position.
#[derive(Clone, Copy)]
pub struct Part<'a> {
    /// The payload.
    pub payload: &'a [u8],
    /// The offset of its end in the log, in octets.
    pub end: usize,
}

/// The first payload of a generation.
#[derive(Clone, Copy)]
pub struct Front<'a> {
    /// The header.
    pub header: Header,
    /// The octets of the table behind it.
    pub table: Part<'a>,
}

impl<'a> Part<'a> {
    /// The payload of the frame after frames of this length. `TooLong` comes if a frame cannot be
    /// that long, or if its end exceeds `usize`.
    pub fn after(whole: usize, payload: &'a [u8]) -> Result<Part<'a>, StoreFault>
        ensures payload { IfOk result (λ part. part.payload.now ≡ payload.now) }
        ensures end { IfOk result (λ part. part.end ≡ whole + (20 + length part.payload.now)) }
        ensures fits { IfOk result (λ part. Fits part.payload.now) }
        ensures why { IfErr result (λ fault. fault ≡ too_long) }
    {
        match whole_with(whole, payload.len()) {
            Some(end) => Ok(Part { payload, end }),
            None => Err(StoreFault::TooLong),
        }
    }

    /// The offset of its frame in the log, in octets.
    pub fn begin(self) -> usize
        ensures { result ≡ self.entry.end - length self.entry.payload.now }
    {
        self.end.saturating_sub(self.payload.len())
    }

    /// The fault of a payload that is not what has to be there.
    fn malformed(self, fault: Fault) -> Malformed
        ensures offset { result.offset ≡ self.entry.end - fault.left }
        ensures cause { result.cause ≡ fault.cause }
    {
        Malformed {
            offset: fault.offset(self.end),
            cause: fault.cause,
        }
    }

    /// The header at the front of the payload, and the table behind it.
    pub fn front(self) -> Result<Front<'a>, Malformed>
        ensures spelled { IfOk result (λ front. (self.entry.payload.now
            ≡ front_octets front.header front.table.payload.now) × header_field.Fits front.header) }
        ensures only { IfOk result (λ front. (header : OneHeader) (table : List ℕ) →
            header_field.Fits header → self.entry.payload.now ≡ front_octets header table →
            (front.header ≡ header) × (front.table.payload.now ≡ table)) }
        ensures end { IfOk result (λ front. front.table.end ≡ self.entry.end) }
        ensures why { IfErr result (IsFrontFault header_at self.entry.end self.entry.payload.now) }
    {
        match Header::read_front(self.payload) {
            Ok((header, table)) => Ok(Front {
                header,
                table: Part {
                    payload: table,
                    end: self.end,
                },
            }),
            Err(fault) => Err(self.malformed(fault)),
        }
    }

    /// The header in the payload, which a version before format 3 wrote.
    pub fn former_header(self) -> Result<FormerHeader, Malformed>
        ensures read { IfOk result (λ header.
            all_of (former_header_at self.entry.payload.now) ≡ Ok header) }
        ensures why { IfErr result (IsFirstFault former_header_at self.entry.end self.entry.payload.now) }
    {
        match former_header(self.payload) {
            Ok(header) => Ok(header),
            Err(fault) => Err(self.malformed(fault)),
        }
    }

    /// The books of the snapshot in the payload.
    pub fn books(self, alloc: Global, config: &Config) -> Result<ServerBooks, StoreFault>
        ensures server { IfOk result (λ books. IsServerOf config.now books) }
        ensures only { IfOk result (λ books. (begun : ServerSeen) → IsServerOf config.now begun →
            IsSnapshot (counts_of config.now) begun self.entry.payload.now → books ≡ begun) }
        ensures spelled { IfOk result (λ books. IsSnapshot (counts_of config.now) books self.entry.payload.now) }
        ensures why { IfErr result
            (IsWhyNoBooks (counts_of config.now).clients self.entry.end self.entry.payload.now) }
    {
        let saved = match read_books(alloc, self.payload, config.clients()) {
            Ok(saved) => saved,
            Err(ReadFault::NoMemory) => return Err(StoreFault::NoMemory),
            Err(ReadFault::Malformed(fault)) => {
                return Err(StoreFault::Malformed(self.malformed(fault)));
            }
        };
        match ServerBooks::restore(alloc, config, &saved) {
            Ok(books) => Ok(books),
            Err(ServerFault::NoMemory) => Err(StoreFault::NoMemory),
            Err(fault) => Err(StoreFault::Misfit {
                offset: self.begin(),
                fault,
            }),
        }
    }

    /// The books of the snapshot in the payload, which a version before format 3 wrote, of accounts
    /// that were dealt to this many shards.
    pub(crate) fn dealt_books(
        self,
        alloc: Global,
        config: &Config,
        shards: u32,
    ) -> Result<ServerBooks, StoreFault>
        requires some { 1 ≤ shards }
        requires few { shards ≤ 4 }
        ensures server { IfOk result (λ books. IsServerOf config.now books) }
        ensures spelled { IfOk result (λ books.
            IsFormerSnapshot shards (counts_of config.now) books self.entry.payload.now) }
    {
        let saved = match read_books(alloc, self.payload, config.clients()) {
            Ok(saved) => saved,
            Err(ReadFault::NoMemory) => return Err(StoreFault::NoMemory),
            Err(ReadFault::Malformed(fault)) => {
                return Err(StoreFault::Malformed(self.malformed(fault)));
            }
        };
        match ServerBooks::restore_dealt(alloc, config, shards, &saved) {
            Ok(dealt) => Ok(dealt),
            Err(ServerFault::NoMemory) => Err(StoreFault::NoMemory),
            Err(fault) => Err(StoreFault::Misfit {
                offset: self.begin(),
                fault,
            }),
        }
    }

    /// The moves of the batch in the payload.
    pub fn moves(self, alloc: Global, counts: Counts) -> Result<Vec<Move>, StoreFault>
        ensures spelled { IfOk result (λ moves. (self.entry.payload.now ≡ (moves_field counts).spell moves.items)
            × (moves_field counts).Fits moves.items) }
        ensures only { IfOk result (λ found. (batch : List OneMove) → (moves_field counts).Fits batch →
            self.entry.payload.now ≡ (moves_field counts).spell batch → found.items ≡ batch) }
        ensures why { IfErr result (IsWhyNoMoves counts self.entry.end self.entry.payload.now) }
    {
        match counts.read_moves(alloc, self.payload) {
            Ok(moves) => Ok(moves),
            Err(ReadFault::NoMemory) => Err(StoreFault::NoMemory),
            Err(ReadFault::Malformed(fault)) => Err(StoreFault::Malformed(self.malformed(fault))),
        }
    }
}
