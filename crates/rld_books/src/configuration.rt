//! The configuration of a table.

ghost use Rattle.std.specs.Prelude.{◌≡◌, IfErr, IfOk};
ghost use Rattle.rld_spelling.specs.TableSpelled.{table_octets, table_seen};
ghost use Rattle.rld_spelling.specs.Tables.{table_of};
ghost use Rattle.rld_books.specs.Configured.{IsWhyNotMade, IsWhyNotRead};

use crate::fault::TableFault;
use crate::table::is_table_of;
use rld_spelling::{ReadFault, SpellFault, Table, TableAccount, TableClient};
use rsl_accounts::{Client, Config, ConfigFault, Entry, Reply, Rules, Secret, Settings, Text};
use std::alloc::Global;

/// The version of the account file that has times of an account's own.
const VERSION: u64 = 2;

/// The password of each account and the secret of each client: no decision depends on one.
const NO_SECRET: &str = "-";

/// A configuration that has a table: its accounts have the names and rules of the table, its
/// clients the addresses; all passwords and secrets are equal.
///
/// `NoConfiguration` comes if no configuration has that table, and `NoMemory` if memory is refused.
pub fn config_with(alloc: Global, table: &Table) -> Result<Config, TableFault>
    ensures made { IfOk result (λ config.
        table_octets (table_seen table.now) ≡ table_octets (table_of config)) }
    ensures why { IfErr result IsWhyNotMade }
{
    let config = made_of(alloc, table)?;
    let mut spelled = Vec::new(alloc);
    match table.push(&mut spelled) {
        Ok(()) => {}
        Err(SpellFault::NoMemory) => return Err(TableFault::NoMemory),
        Err(SpellFault::Unfit) => return Err(TableFault::NoConfiguration),
    }
    if is_table_of(alloc, &config, spelled.as_slice())? {
        Ok(config)
    } else {
        Err(TableFault::NoConfiguration)
    }
}

/// A configuration whose table has these octets.
///
/// The faults are those of `config_with`, and before them `Malformed` if the octets spell no table.
pub fn config_of(alloc: Global, octets: &[u8]) -> Result<Config, TableFault>
    ensures made { IfOk result (λ config. octets.now ≡ table_octets (table_of config)) }
    ensures why { IfErr result (IsWhyNotRead octets.now) }
{
    match Table::read(alloc, octets) {
        Ok(table) => config_with(alloc, &table),
        Err(ReadFault::NoMemory) => Err(TableFault::NoMemory),
        Err(ReadFault::Malformed(fault)) => Err(TableFault::Malformed(fault)),
    }
}

/// A configuration with the accounts and clients of a table, if there is one.
fn made_of(alloc: Global, table: &Table) -> Result<Config, TableFault>
    ensures { IfErr result IsWhyNotMade }
{
    let Some(first) = table.accounts.first() else {
        return Err(TableFault::NoConfiguration);
    };
    let settings = settings_of(&first.rules);
    let clients = clients_of(alloc, table.clients.as_slice())?;
    let accounts = accounts_of(alloc, table.accounts.as_slice())?;
    match Config::make(alloc, settings, clients, accounts) {
        Ok(config) => Ok(config),
        Err(ConfigFault::NoMemory) => Err(TableFault::NoMemory),
        Err(_) => Err(TableFault::NoConfiguration),
    }
}

/// The settings of accounts of which one has these rules. Live and grace times are each account's
/// own.
fn settings_of(rules: &Rules) -> Settings {
    Settings {
        version: VERSION,
        shards: 1,
        reserve: rules.reserve,
        live: rules.live,
        grace: rules.grace,
        closed: rules.closed,
        keep: rules.keep,
        interim: None,
        station: false,
        delay_time: false,
    }
}

/// Clients with these addresses.
fn clients_of(alloc: Global, rows: &[TableClient]) -> Result<Vec<Client>, TableFault>
    ensures { IfErr result IsWhyNotMade }
{
    let mut clients = Vec::new(alloc);
    for row in rows {
        let client = Client {
            address: row.address,
            secret: Secret::from_str(alloc, NO_SECRET)?,
            signed: false,
            trusted: false,
            disconnect: None,
        };
        clients.push(client)?;
    }
    Ok(clients)
}

/// Accounts with these names and rules.
fn accounts_of(alloc: Global, rows: &[TableAccount]) -> Result<Vec<Entry>, TableFault>
    ensures { IfErr result IsWhyNotMade }
{
    let mut accounts = Vec::new(alloc);
    for row in rows {
        accounts.push(account_of(alloc, row)?)?;
    }
    Ok(accounts)
}

/// An account with a name and rules.
fn account_of(alloc: Global, row: &TableAccount) -> Result<Entry, TableFault>
    ensures { IfErr result IsWhyNotMade }
{
    let Ok(name) = str::from_utf8(row.name.as_slice()) else {
        return Err(TableFault::NoConfiguration);
    };
    Ok(Entry {
        password: None,
        service_type: None,
        framed_protocol: None,
        session_timeout: None,
        idle_timeout: None,
        rules: Rules::of_places(row.rules.places, row.rules.ports),
        name: Text::from_str(alloc, name)?,
        own_live: Some(row.rules.live),
        own_grace: Some(row.rules.grace),
        own_station: None,
        interim: None,
        disabled: false,
        port_limit: true,
        reply: Reply::none(),
    })
}
