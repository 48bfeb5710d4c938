//! Headers and tables of versions before format 3. They are read, and never written.

ghost use Rattle.std.specs.Prelude.{◌≡◌, ◌≤◌, IfOk};
ghost use Rattle.rld_spelling.specs.Former.{former_format_at, former_header_at, former_seen, former_table_at};
ghost use Rattle.rld_spelling.specs.Lists.{all_of};
ghost use Rattle.rld_spelling.specs.Read.{Gives, Reads, ReadsInto, ReadsSeen};

use crate::table::{read_accounts, read_clients};
use crate::{Cause, Fault, ReadFault, Reader, Table};
use rsl_rule::SESSION_RULE_VERSION;
use std::alloc::Global;

/// The most shards of a server.
const MAX_SHARDS: u64 = 4;

/// The header of a generation before format 3.
#[derive(Clone, Copy, PartialEq, Eq)]
pub struct FormerHeader {
    /// The number of the era.
    pub era: u64,
    /// The number of the generation in its era.
    pub generation: u64,
    /// The MD5 digest of the octets of the era's table.
    pub digest: [u8; 16],
    /// The number of moves of the earlier generations of the era.
    pub lines: u64,
}

/// The table of an era before format 3.
#[derive(Drop)]
pub struct FormerTable {
    /// The boot number, with which each Class attribute of the era begins.
    pub boot: u64,
    /// To how many shards the accounts were dealt in turn: 1 to 4. A snapshot has the books shard
    /// after shard.
    pub shards: u64,
    /// The accounts and the clients.
    pub table: Table,
}

/// Reads a version of the format: 1 or 2. `OtherFormat` comes at any other number.
#[tactic(auto, unfolding(crate::specs::Former::former_format_at))]
fn read_format(reader: &mut Reader) -> Result<(), Fault>
    ensures { ReadsSeen (λ _. tt) result reader.new (former_format_at reader.old) }
{
    let other = reader.fault(Cause::OtherFormat);
    match reader.number()? {
        1 | 2 => Ok(()),
        _ => Err(other),
    }
}

/// Reads a header of format 1 or 2.
#[tactic(auto, unfolding(crate::specs::Former::former_header_at))]
fn read_header(reader: &mut Reader) -> Result<FormerHeader, Fault>
    ensures { Reads result reader.new (former_header_at reader.old) }
{
    read_format(reader)?;
    reader.exactly(Cause::OtherRule, SESSION_RULE_VERSION)?;
    let era = reader.number()?;
    let generation = reader.number()?;
    let digest = reader.octets_16()?;
    let lines = reader.number()?;
    Ok(FormerHeader {
        era,
        generation,
        digest,
        lines,
    })
}

/// The header of format 1 or 2 in all of the octets, or the first fault. It allocates nothing.
pub fn former_header(octets: &[u8]) -> Result<FormerHeader, Fault>
    ensures { result ≡ all_of (former_header_at octets.now) }
{
    let mut reader = Reader::new(octets);
    let header = read_header(&mut reader)?;
    if reader.left() == 0 {
        Ok(header)
    } else {
        Err(reader.fault(Cause::Trailing))
    }
}

impl FormerTable {
    /// Reads a table.
    #[tactic(auto, unfolding(crate::specs::Former::former_table_at))]
    fn read_next(alloc: Global, reader: &mut Reader) -> Result<FormerTable, ReadFault>
        ensures read { ReadsInto former_seen result reader.new (former_table_at reader.old) }
        ensures shards { IfOk result (λ former. (1 ≤ former.shards) × (former.shards ≤ 4)) }
    {
        let boot = reader.number()?;
        let shards = reader.between(Cause::OutOfRange, 1, MAX_SHARDS)?;
        let accounts = read_accounts(alloc, reader)?;
        let clients = read_clients(alloc, reader)?;
        let table = Table { accounts, clients };
        Ok(FormerTable {
            boot,
            shards,
            table,
        })
    }

    /// The table in all of the octets. It fails if memory is refused, and else with the first
    /// fault.
    pub fn read(alloc: Global, octets: &[u8]) -> Result<FormerTable, ReadFault>
        ensures exact { Gives former_seen result (all_of (former_table_at octets.now)) }
        ensures shards { IfOk result (λ former. (1 ≤ former.shards) × (former.shards ≤ 4)) }
    {
        let mut reader = Reader::new(octets);
        let former = FormerTable::read_next(alloc, &mut reader)?;
        if reader.left() == 0 {
            Ok(former)
        } else {
            Err(ReadFault::Malformed(reader.fault(Cause::Trailing)))
        }
    }
}
