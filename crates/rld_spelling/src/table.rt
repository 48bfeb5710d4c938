//! Tables: what the numbers of accounts and clients stand for.

ghost use Rattle.std.specs.Prelude.{◌≡◌, ◌++◌, ◌↔◌, IsTrue, IfOk, OnOk, IsErrOf, Ok, All, length, ◌≤◌};
ghost use Rattle.rld_spelling.specs.Lists.{all_of, values_at};
ghost use Rattle.rld_spelling.specs.Read.{Gives, Reads, ReadsIn, ReadsInto};
ghost use Rattle.rld_spelling.specs.declared.fault.Cause.TheVariants.{OutOfRange};
ghost use Rattle.rld_spelling.specs.Numbers.{between_at};
ghost use Rattle.rsl_accounts.specs.Field.{is_between, is_name, is_visible};
ghost use Rattle.rld_spelling.specs.RulesSpelled.{rules_as, rules_at, rules_octets, times_octets};
ghost use Rattle.rld_spelling.specs.TableSpelled.{account_at, account_field, account_octets, user_name_at};
ghost use Rattle.rld_spelling.specs.TableSpelled.{accounts_at, accounts_octets, client_at, client_octets, ClientFits, clients_at, clients_octets};

use crate::fault::SpellFault;
use crate::server::id_fits;
use crate::{Cause, Fault, ReadFault, Reader, push_number, push_short};
use rsl_accounts::Rules;
use rsl_wire::Octets;
use std::alloc::{AllocError, Global};

/// The most accounts.
const MAX_ACCOUNTS: u64 = 16_384;

/// The most clients.
const MAX_CLIENTS: u64 = 256;

/// The most octets of an account's name.
const MAX_NAME_LEN: usize = 64;

/// The most places that an account can have.
const MAX_PLACES: u64 = 64;

/// The most links that a place can have.
const MAX_PORTS: u64 = 16;

/// The most seconds that a time can have: a day.
const MAX_TIME: u64 = 86_400;

/// An account of a table.
#[derive(Drop)]
pub struct TableAccount {
    /// Its User-Name: 1 to 64 octets, each a visible ASCII character.
    pub name: Octets,
    /// Its session limit.
    pub rules: Rules,
}

/// A client of a table.
#[derive(Clone, Copy, PartialEq, Eq)]
pub struct TableClient {
    /// Its IPv4 address, first octet first.
    pub address: [u8; 4],
}

/// A table of accounts and clients, which are numbered by their positions in it.
#[derive(Drop)]
pub struct Table {
    /// The accounts: 1 to 16,384.
    pub accounts: Vec<TableAccount>,
    /// The clients: 1 to 256.
    pub clients: Vec<TableClient>,
}

/// Whether an account can have a name: 1 to 64 octets, each a visible ASCII character.
fn is_name(name: &[u8]) -> bool
    ensures { result ≡ is_name name.now }
{
    is_between(1, MAX_NAME_LEN, name.len()) && is_visible(name)
}

/// Whether each octet is a visible ASCII character.
fn is_visible(text: &[u8]) -> bool
    ensures { result ≡ is_visible text.now }
{
    text.iter()
        .all(|octet| is_between(0x21, 0x7e, usize::from(*octet)))
}

/// Whether a number is from `least` to `most`.
fn is_between(least: usize, most: usize, number: usize) -> bool
    ensures { result ≡ is_between least most number }
{
    least <= number && number <= most
}

/// Spells the rules of an account.
#[tactic(auto, unfolding(crate::specs::RulesSpelled::rules_octets))]
fn push_rules(out: &mut Vec<u8>, rules: &Rules) -> Result<(), AllocError>
    ensures { OnOk result (out.new.items ≡ out.old.items ++ rules_octets rules.now) }
{
    push_number(out, rules.places)?;
    push_number(out, rules.ports)?;
    push_times(out, rules)
}

/// Spells the times of an account.
#[tactic(auto, unfolding(crate::specs::RulesSpelled::times_octets))]
fn push_times(out: &mut Vec<u8>, rules: &Rules) -> Result<(), AllocError>
    ensures { OnOk result (out.new.items ≡ out.old.items ++ times_octets rules.now) }
{
    push_number(out, rules.reserve)?;
    push_number(out, rules.live)?;
    push_number(out, rules.grace)?;
    push_number(out, rules.closed)?;
    push_number(out, rules.keep)
}

/// Reads a number of seconds.
fn read_time(reader: &mut Reader) -> Result<u64, Fault>
    ensures { Reads result reader.new (between_at OutOfRange 1 86400 reader.old) }
{
    reader.between(Cause::OutOfRange, 1, MAX_TIME)
}

/// Reads the rules of an account, without checking its times against each other.
fn read_numbers(reader: &mut Reader) -> Result<Rules, Fault>
    ensures { Reads result reader.new (rules_as.read reader.old) }
{
    let places = reader.between(Cause::OutOfRange, 0, MAX_PLACES)?;
    let ports = reader.between(Cause::OutOfRange, 1, MAX_PORTS)?;
    let reserve = read_time(reader)?;
    let live = read_time(reader)?;
    let grace = read_time(reader)?;
    let closed = read_time(reader)?;
    let keep = read_time(reader)?;
    Ok(Rules {
        places,
        ports,
        reserve,
        live,
        grace,
        closed,
        keep,
    })
}

/// Reads the rules of an account.
#[tactic(auto, unfolding(crate::specs::RulesSpelled::rules_at))]
fn read_rules(reader: &mut Reader) -> Result<Rules, Fault>
    ensures { Reads result reader.new (rules_at reader.old) }
{
    let too_long = reader.fault(Cause::KeepTooLong);
    let rules = read_numbers(reader)?;
    if rules.keep <= rules.reserve {
        Ok(rules)
    } else {
        Err(too_long)
    }
}

/// Whether an account has a spelling.
#[tactic(auto, unfolding(crate::specs::TableSpelled::AccountFits))]
fn account_fits(account: &TableAccount) -> bool
    ensures { IsTrue result ↔ account_field.Fits account.now }
{
    id_fits(&account.name) && is_name(account.name.as_slice()) && account.rules.fits()
}

/// Spells an account.
#[tactic(auto, unfolding(crate::specs::TableSpelled::account_octets, crate::specs::TableSpelled::AccountFits))]
fn push_account(out: &mut Vec<u8>, account: &TableAccount) -> Result<(), AllocError>
    requires { account_field.Fits account.now }
    ensures { OnOk result (out.new.items ≡ out.old.items ++ account_octets account.now) }
{
    push_short(out, account.name.as_slice())?;
    push_rules(out, &account.rules)
}

/// Reads the name of an account.
#[tactic(auto, unfolding(crate::specs::TableSpelled::user_name_at))]
fn read_name(alloc: Global, reader: &mut Reader) -> Result<Octets, ReadFault>
    ensures { ReadsIn result reader.new (user_name_at reader.old) }
{
    let bad = reader.fault(Cause::BadName);
    let name = reader.short()?;
    if !is_name(name) {
        return Err(ReadFault::Malformed(bad));
    }
    match Octets::from_slice(alloc, name) {
        Ok(name) => Ok(name),
        Err(_) => Err(ReadFault::NoMemory),
    }
}

/// Reads an account.
#[tactic(auto, unfolding(crate::specs::TableSpelled::account_at))]
fn read_account(alloc: Global, reader: &mut Reader) -> Result<TableAccount, ReadFault>
    ensures { ReadsIn result reader.new (account_at reader.old) }
{
    let name = read_name(alloc, reader)?;
    let rules = read_rules(reader)?;
    Ok(TableAccount { name, rules })
}

/// Whether `count` is 1 to `most`.
fn is_count(count: u64, most: u64) -> bool
    ensures { IsTrue result ↔ ((1 ≤ count) × (count ≤ most)) }
{
    1 <= count && count <= most
}

/// Whether each of some accounts has a spelling.
fn accounts_fit(accounts: &[TableAccount]) -> bool
    ensures { IsTrue result ↔ All account_field.Fits accounts.now }
{
    for account in accounts {
        if !account_fits(account) {
            return false;
        }
    }
    true
}

/// Shows the prover that every client has a spelling.
#[tactic(auto, unfolding(crate::specs::TableSpelled::ClientFits))]
fn client_has_spelling(client: &TableClient)
    ensures { ClientFits client.now }
{
    let _address = client.address;
}

/// Shows the prover that each of some clients has a spelling.
fn clients_have_spelling(clients: &[TableClient])
    ensures { All ClientFits clients.now }
{
    for client in clients {
        client_has_spelling(client);
    }
}

/// Spells a client.
#[tactic(auto, unfolding(crate::specs::TableSpelled::client_octets))]
fn push_client(out: &mut Vec<u8>, client: &TableClient) -> Result<(), AllocError>
    ensures { OnOk result (out.new.items ≡ out.old.items ++ client_octets client.now) }
{
    out.extend_from_slice(&client.address)
}

/// Reads a client.
#[tactic(auto, unfolding(crate::specs::TableSpelled::client_at))]
fn read_client(reader: &mut Reader) -> Result<TableClient, Fault>
    ensures { Reads result reader.new (client_at reader.old) }
{
    let address = reader.octets_4()?;
    Ok(TableClient { address })
}

/// Spells accounts after their number.
#[tactic(auto, unfolding(crate::specs::TableSpelled::accounts_octets))]
fn push_accounts(out: &mut Vec<u8>, accounts: &[TableAccount]) -> Result<(), AllocError>
    requires { All account_field.Fits accounts.now }
    ensures { OnOk result (out.new.items ≡ out.old.items ++ accounts_octets accounts.now) }
{
    push_number(out, accounts.len() as u64)?;
    for account in accounts {
        push_account(out, account)?;
    }
    Ok(())
}

/// Spells clients after their number.
#[tactic(auto, unfolding(crate::specs::TableSpelled::clients_octets))]
fn push_clients(out: &mut Vec<u8>, clients: &[TableClient]) -> Result<(), AllocError>
    ensures { OnOk result (out.new.items ≡ out.old.items ++ clients_octets clients.now) }
{
    push_number(out, clients.len() as u64)?;
    for client in clients {
        push_client(out, client)?;
    }
    Ok(())
}

/// Reads `count` accounts.
#[tactic(auto, using(crate::proofs::Callers::front_steps))]
fn read_account_count(
    alloc: Global,
    reader: &mut Reader,
    count: u64,
) -> Result<Vec<TableAccount>, ReadFault>
    ensures { ReadsInto (λ accounts. accounts.items) result reader.new
        (values_at account_at count reader.old) }
{
    let mut accounts = Vec::new(alloc);
    for _ in 0..count {
        let account = read_account(alloc, reader)?;
        accounts.push(account)?;
    }
    Ok(accounts)
}

/// Reads accounts after their number.
#[tactic(auto, unfolding(crate::specs::TableSpelled::accounts_at))]
pub(crate) fn read_accounts(
    alloc: Global,
    reader: &mut Reader,
) -> Result<Vec<TableAccount>, ReadFault>
    ensures { ReadsInto (λ accounts. accounts.items) result reader.new (accounts_at reader.old) }
{
    let count = reader.between(Cause::OutOfRange, 1, MAX_ACCOUNTS)?;
    read_account_count(alloc, reader, count)
}

/// Reads `count` clients.
#[tactic(auto, using(crate::proofs::Callers::front_steps))]
fn read_client_count(
    alloc: Global,
    reader: &mut Reader,
    count: u64,
) -> Result<Vec<TableClient>, ReadFault>
    ensures { ReadsInto (λ clients. clients.items) result reader.new
        (values_at client_at count reader.old) }
{
    let mut clients = Vec::new(alloc);
    for _ in 0..count {
        let client = read_client(reader)?;
        clients.push(client)?;
    }
    Ok(clients)
}

/// Reads clients after their number.
#[tactic(auto, unfolding(crate::specs::TableSpelled::clients_at))]
pub(crate) fn read_clients(
    alloc: Global,
    reader: &mut Reader,
) -> Result<Vec<TableClient>, ReadFault>
    ensures { ReadsInto (λ clients. clients.items) result reader.new (clients_at reader.old) }
{
    let count = reader.between(Cause::OutOfRange, 1, MAX_CLIENTS)?;
    read_client_count(alloc, reader, count)
}

impl Table {
    ghost use Rattle.rld_spelling.specs.TableSpelled.{TableSeen, table_seen, table_at, table_field, table_octets};

    /// Whether the table has a spelling: 1 to 16,384 accounts with names and rules that an account
    /// file may have, and 1 to 256 clients.
    #[tactic(auto, unfolding(crate::specs::TableSpelled::TableFits))]
    pub fn fits(&self) -> bool
        ensures { IsTrue result ↔ table_field.Fits (table_seen self.now) }
    {
        clients_have_spelling(self.clients.as_slice());
        is_count(self.accounts.len() as u64, MAX_ACCOUNTS)
            && is_count(self.clients.len() as u64, MAX_CLIENTS)
            && accounts_fit(self.accounts.as_slice())
    }

    /// Spells a table that has a spelling.
    #[tactic(auto, unfolding(crate::specs::TableSpelled::table_octets, crate::specs::TableSpelled::TableFits))]
    fn push_fitting(&self, out: &mut Vec<u8>) -> Result<(), AllocError>
        requires { table_field.Fits (table_seen self.now) }
        ensures { OnOk result (out.new.items ≡ out.old.items ++ table_octets (table_seen self.now)) }
    {
        push_accounts(out, self.accounts.as_slice())?;
        push_clients(out, self.clients.as_slice())
    }

    /// Appends the spelling of the table. `Unfit` comes exactly if it has no spelling; then nothing
    /// is written. If memory is refused, a part of it may have been appended.
    pub fn push(&self, out: &mut Vec<u8>) -> Result<(), SpellFault>
        ensures spelled { OnOk result (out.new.items ≡ out.old.items ++ table_octets (table_seen self.now)) }
        ensures fits { OnOk result (table_field.Fits (table_seen self.now)) }
        ensures unfit { IsErrOf result SpellFault.Unfit ↔ (table_field.Fits (table_seen self.now) → ⊥) }
        ensures unwritten { IsErrOf result SpellFault.Unfit → out.new.items ≡ out.old.items }
    {
        if !self.fits() {
            return Err(SpellFault::Unfit);
        }
        self.push_fitting(out)?;
        Ok(())
    }

    /// Reads a table.
    #[tactic(auto, unfolding(crate::specs::TableSpelled::table_at))]
    fn read_next(alloc: Global, reader: &mut Reader) -> Result<Table, ReadFault>
        ensures { ReadsInto table_seen result reader.new (table_at reader.old) }
    {
        let accounts = read_accounts(alloc, reader)?;
        let clients = read_clients(alloc, reader)?;
        Ok(Table { accounts, clients })
    }

    /// Reads a table from all of the octets.
    fn read_all(alloc: Global, octets: &[u8]) -> Result<Table, ReadFault>
        ensures { Gives table_seen result (all_of (table_at octets.now)) }
    {
        let mut reader = Reader::new(octets);
        let table = Table::read_next(alloc, &mut reader)?;
        if reader.left() == 0 {
            Ok(table)
        } else {
            Err(ReadFault::Malformed(reader.fault(Cause::Trailing)))
        }
    }

    /// The table in all of the octets. It fails if memory is refused, and else with the first
    /// fault.
    pub fn read(alloc: Global, octets: &[u8]) -> Result<Table, ReadFault>
        // What is read is spelled so.
        ensures found { IfOk result (λ table.
            (octets.now ≡ table_octets (table_seen table)) × table_field.Fits (table_seen table)) }
        // What is spelled so is read.
        ensures only { (table : TableSeen) → table_field.Fits table → octets.now ≡ table_octets table →
            Gives table_seen result (Ok table) }
        // The fault is the first.
        ensures exact { Gives table_seen result (all_of (table_at octets.now)) }
    {
        Table::read_all(alloc, octets)
    }
}
