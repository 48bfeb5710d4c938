//! The account file: TOML with the settings at its head, an array of tables `client` and one of
//! tables `account`.
ghost use Rattle.std.specs.Prelude.{◌≡◌, ◌≢◌, Some, None, map, IfOk, IfErr};
ghost use Rattle.toml.specs.View.{view};
ghost use Rattle.rsl_account_file.specs.File.{file_of, settings_in, client_in, entry_in, each};

use crate::profile::Shared;
use crate::replies::{port_limit, reply};
use crate::table::{
    address, check_names, disabled, disconnect, head_flag, interim, number, number_or, own_station,
    own_time, password, secret, short_number, signed, text, trusted,
};
use rsl_accounts::{Client, ConfigFault, Entry, Field, Part, Rules, Secret, Settings, Text};
use std::alloc::Global;
use toml::Value;

/// How many shards the accounts are spread over, where a file of version 3 does not say it.
const SHARDS: u64 = 1;

/// The seconds for which an accept reserves a place, where a file of version 3 does not say it.
const RESERVE_SECS: u64 = 60;

/// The seconds for which a session counts as live, where a file of version 3 does not say it.
const LIVE_SECS: u64 = 900;

/// The seconds for which a session that is no longer live keeps its place, where a file of version 3
/// does not say it.
const GRACE_SECS: u64 = 900;

/// The seconds for which a stopped session stays closed, where a file of version 3 does not say it.
const CLOSED_SECS: u64 = 3600;

/// The seconds for which the repeats of an ask get its answer, where a file of version 3 does not say
/// it and its reservations are not shorter.
const KEEP_SECS: u64 = 15;

/// The Port-Limit of an account, where a file of version 3 does not say it.
const PORTS: u64 = 1;

/// The text as a TOML table.
pub(crate) fn parse(alloc: Global, text: &[u8]) -> Result<Value, ConfigFault>
    ensures ok { IfOk result (λ file. file_of text.now ≡ Some (view file)) }
    ensures fault { IfErr result (λ fault. fault ≢ ConfigFault.NoMemory →
        (fault ≡ ConfigFault.NotToml) × (file_of text.now ≡ None)) }
{
    match toml::table_from_slice(alloc, text) {
        Ok(table) => Ok(Value::Table(table)),
        Err(error) if error.is_memory() => Err(ConfigFault::NoMemory),
        Err(_) => Err(ConfigFault::NotToml),
    }
}

/// The settings at the head of a file.
#[tactic(auto, unfolding(crate::specs::File::settings_in))]
pub(crate) fn settings(alloc: Global, file: &Value) -> Result<Settings, ConfigFault>
    ensures ok { IfOk result (λ settings. settings_in (view file.now) ≡ Ok settings) }
    ensures fault { IfErr result (λ fault. fault ≢ ConfigFault.NoMemory →
        settings_in (view file.now) ≡ Err fault) }
{
    let version = number(file, Field::Version)?;
    check_names(alloc, version, Part::Head, file)?;
    let shards = number_or(version, file, Field::Shards, SHARDS)?;
    let reserve = number_or(version, file, Field::ReserveSecs, RESERVE_SECS)?;
    Ok(Settings {
        version,
        shards,
        reserve,
        live: number_or(version, file, Field::LiveSecs, LIVE_SECS)?,
        grace: number_or(version, file, Field::GraceSecs, GRACE_SECS)?,
        closed: number_or(version, file, Field::ClosedSecs, CLOSED_SECS)?,
        keep: number_or(version, file, Field::KeepSecs, KEEP_SECS.min(reserve))?,
        interim: interim(version, file)?,
        station: head_flag(version, file, Field::Station)?,
        delay_time: head_flag(version, file, Field::DelayTime)?,
    })
}

/// The client of a table.
#[tactic(auto, unfolding(crate::specs::File::client_in))]
fn client(alloc: Global, version: u64, table: &Value) -> Result<Client, ConfigFault>
    ensures ok { IfOk result (λ client. client_in version (view table.now) ≡ Ok client) }
    ensures fault { IfErr result (λ fault. fault ≢ ConfigFault.NoMemory →
        client_in version (view table.now) ≡ Err fault) }
{
    check_names(alloc, version, Part::Client, table)?;
    let address = address(table)?;
    let secret = secret(version, table)?;
    let signed = signed(version, table)?;
    Ok(Client {
        address,
        signed,
        trusted: trusted(version, signed, table)?,
        disconnect: disconnect(alloc, version, table)?,
        secret: Secret::from_str(alloc, secret)?,
    })
}

/// The clients of tables, in their order.
#[tactic(auto, using(crate::proofs::Parts::part_steps))]
pub(crate) fn clients(
    alloc: Global,
    version: u64,
    tables: &[Value],
) -> Result<Vec<Client>, ConfigFault>
    ensures ok { IfOk result (λ clients.
        each (client_in version) (map view tables.now) ≡ Ok clients.items) }
    ensures fault { IfErr result (λ fault. fault ≢ ConfigFault.NoMemory →
        each (client_in version) (map view tables.now) ≡ Err fault) }
{
    let mut clients = Vec::with_capacity(alloc, tables.len())?;
    for table in tables {
        clients.push(client(alloc, version, table)?)?;
    }
    Ok(clients)
}

/// The account of a table.
#[tactic(auto, unfolding(crate::specs::File::entry_in))]
fn entry(
    alloc: Global,
    version: u64,
    shared: &Shared<'_>,
    table: &Value,
) -> Result<Entry, ConfigFault>
    ensures ok { IfOk result (λ entry. entry_in version shared.now (view table.now) ≡ Ok entry) }
    ensures fault { IfErr result (λ fault. fault ≢ ConfigFault.NoMemory →
        entry_in version shared.now (view table.now) ≡ Err fault) }
{
    check_names(alloc, version, Part::Account, table)?;
    // copied last, so that nothing is owned when a fault of another field returns
    let name = text(table, Field::Name)?;
    let password = password(version, table)?;
    Ok(Entry {
        rules: Rules::of_places(
            number(table, Field::Places)?,
            number_or(version, table, Field::Ports, PORTS)?,
        ),
        service_type: short_number(table, Field::ServiceType)?,
        framed_protocol: short_number(table, Field::FramedProtocol)?,
        session_timeout: short_number(table, Field::SessionTimeout)?,
        idle_timeout: short_number(table, Field::IdleTimeout)?,
        own_live: own_time(version, table, Field::OwnLive)?,
        own_grace: own_time(version, table, Field::OwnGrace)?,
        interim: interim(version, table)?,
        own_station: own_station(version, table)?,
        disabled: disabled(version, table)?,
        port_limit: port_limit(version, shared.port_limit(), table)?,
        reply: reply(alloc, version, shared, name, table)?,
        name: Text::from_str(alloc, name)?,
        password: Secret::from_option(alloc, password)?,
    })
}

/// The accounts of tables, in their order.
#[tactic(auto, using(crate::proofs::Parts::part_steps))]
pub(crate) fn entries(
    alloc: Global,
    version: u64,
    shared: &Shared<'_>,
    tables: &[Value],
) -> Result<Vec<Entry>, ConfigFault>
    ensures ok { IfOk result (λ entries.
        each (entry_in version shared.now) (map view tables.now) ≡ Ok entries.items) }
    ensures fault { IfErr result (λ fault. fault ≢ ConfigFault.NoMemory →
        each (entry_in version shared.now) (map view tables.now) ≡ Err fault) }
{
    let mut entries = Vec::with_capacity(alloc, tables.len())?;
    for table in tables {
        entries.push(entry(alloc, version, shared, table)?)?;
    }
    Ok(entries)
}
