ghost use Rattle.std.specs.Prelude.{◌≡◌, ◌↔◌, IfOk, IsTrue, map};
ghost use Rattle.rld_spelling.specs.TableSpelled.{table_octets, table_seen};
ghost use Rattle.rld_spelling.specs.Tables.{account_row, client_row, table_of};

use rld_spelling::{Table, TableAccount, TableClient};
use rsl_accounts::Config;
use rsl_wire::{NoMemory, Octets};
use std::alloc::Global;

/// The accounts of a configuration, by their names and rules.
fn accounts_of(alloc: Global, config: &Config) -> Result<Vec<TableAccount>, NoMemory>
    ensures { IfOk result (λ accounts. accounts.items ≡ map account_row config.now.accounts) }
{
    let mut accounts = Vec::new(alloc);
    for number in 0..config.accounts() {
        let entry = config.entry(number);
        accounts.push(TableAccount {
            name: Octets::from_slice(alloc, entry.name.as_bytes())?,
            rules: entry.rules,
        })?;
    }
    Ok(accounts)
}

/// The clients of a configuration, by their addresses.
fn clients_of(alloc: Global, config: &Config) -> Result<Vec<TableClient>, NoMemory>
    ensures { IfOk result (λ clients. clients.items ≡ map client_row config.now.clients) }
{
    let mut clients = Vec::new(alloc);
    for number in 0..config.clients() {
        clients.push(TableClient {
            address: config.client_at(number).address,
        })?;
    }
    Ok(clients)
}

/// The table of a configuration: the names and rules of its accounts, and the addresses of its clients.
pub fn table_of(alloc: Global, config: &Config) -> Result<Table, NoMemory>
    ensures { IfOk result (λ table. table_seen table ≡ table_of config.now) }
{
    Ok(Table {
        accounts: accounts_of(alloc, config)?,
        clients: clients_of(alloc, config)?,
    })
}

/// The octets of a configuration's table. It fails only if memory is refused: such a table has a
/// spelling (`rld_spelling::laws::tables_of_configurations_fit`).
pub fn table_octets(alloc: Global, config: &Config) -> Result<Vec<u8>, NoMemory>
    ensures { IfOk result (λ octets. octets.items ≡ table_octets (table_of config.now)) }
{
    let table = table_of(alloc, config)?;
    let mut octets = Vec::new(alloc);
    match table.push(&mut octets) {
        Ok(()) => Ok(octets),
        Err(_) => Err(NoMemory),
    }
}

/// Whether a configuration has the table of these octets. Each table has one spelling, so the octets
/// are compared. It fails only if memory is refused.
pub fn is_table_of(alloc: Global, config: &Config, octets: &[u8]) -> Result<bool, NoMemory>
    ensures { IfOk result (λ same. IsTrue same ↔
        (octets.now ≡ table_octets (table_of config.now))) }
{
    Ok(octets == table_octets(alloc, config)?.as_slice())
}
