//! Keys of a TOML table: each with its value, or with the fault of the key.
ghost use Rattle.std.specs.Prelude.{
  ◌≡◌,
  ◌≢◌,
  ◌≤◌,
  IfOk,
  IfErr,
  IfNone,
  IfSome,
  IsOk,
  None,
  Some,
  length,
  map,
  is_some,
  option_copied,
  option_map,
};
ghost use Rattle.std.specs.List.{list_all};
ghost use Rattle.toml.specs.Data.{as_table};
ghost use Rattle.toml.specs.View.{view};
ghost use Rattle.rld_config.specs.Value.{
  address_value,
  archive_value,
  flag_value,
  group_of,
  ip_address_value,
  new_history_value,
  prefix_value,
  member_in,
  number_of,
  path_of,
  sync_value,
  tables_of,
  tables_of_list,
  unknown_in,
};
ghost use Rattle.rld_config.specs.Server.{
  address_in,
  archive_in,
  client_in,
  group_in,
  ip_address_in,
  megabytes_by_default,
  megabytes_in,
  new_history_in,
  prefix_in,
  flag_in,
  needed_port_in,
  path_in,
  path_or_none_in,
  port_in,
  sync_in,
};

use crate::archive::Archive;
use crate::fault::ServerFault;
use crate::key::{Key, is_between, is_group, is_path};
use crate::new_history::NewHistory;
use crate::part::Part;
use crate::sync::SyncPolicy;
use rld_networks::{Prefix, canonical, ip_address_of, prefix_of};
use rsl_accounts::{Text, address_of};
use std::alloc::Global;
use std::net::{IpAddr, Ipv4Addr};
use toml::Value;

/// The wildcard address: every IPv4 address of the machine.
pub(crate) const ANY_ADDRESS: [u8; 4] = [0, 0, 0, 0];

/// How long an archive is kept by default, in days.
const ARCHIVE_DAYS: u16 = 7;

/// How many megabytes of logs the archive may have by default.
const ARCHIVE_MEGABYTES: u16 = 2_000;

/// The value under a key.
pub(crate) fn member(table: &Value, key: Key) -> Option<&Value>
    ensures { option_map (λ value. view value.now) result ≡ member_in (view table.now) key }
{
    table.get(key.name())
}

/// The value under a key that has to be there.
fn present(part: Part, table: &Value, key: Key) -> Result<&Value, ServerFault>
    ensures ok { IfOk result (λ value. member_in (view table.now) key ≡ Some (view value.now)) }
    ensures fault { IfErr result (λ fault.
        (member_in (view table.now) key ≡ None) × (fault ≡ ServerFault.Missing part key)) }
{
    match member(table, key) {
        Some(value) => Ok(value),
        None => Err(ServerFault::Missing(part, key)),
    }
}

/// The value as a number, if it is within the key's limits.
fn number_of(value: &Value, key: Key) -> Option<u16>
    ensures { result ≡ number_of key (view value.now) }
{
    let number = value.as_integer()?;
    if 0 <= number && key.takes_number(number.unsigned_abs()) {
        Some(number.unsigned_abs() as u16)
    } else {
        None
    }
}

/// The number of an optional key.
#[tactic(auto, unfolding(crate::specs::Server::port_in))]
pub(crate) fn number(part: Part, table: &Value, key: Key, default: u16) -> Result<u16, ServerFault>
    ensures { result ≡ port_in part (view table.now) key default }
{
    match member(table, key) {
        Some(value) => match number_of(value, key) {
            Some(number) => Ok(number),
            None => Err(ServerFault::BadValue(part, key)),
        },
        None => Ok(default),
    }
}

/// The number of a key that has to be there.
#[tactic(auto, unfolding(crate::specs::Server::needed_port_in))]
pub(crate) fn needed_number(part: Part, table: &Value, key: Key) -> Result<u16, ServerFault>
    ensures { result ≡ needed_port_in part (view table.now) key }
{
    match number_of(present(part, table, key)?, key) {
        Some(number) => Ok(number),
        None => Err(ServerFault::BadValue(part, key)),
    }
}

/// The value as a path.
fn path_of(value: &Value) -> Option<&str>
    ensures { option_copied result ≡ path_of (view value.now) }
{
    let text = value.as_str()?;
    if is_path(text.as_bytes()) {
        Some(text)
    } else {
        None
    }
}

/// The path under a key. `NoMemory` comes after the faults of the key.
#[tactic(auto, unfolding(crate::specs::Server::path_in))]
pub(crate) fn path(alloc: Global, part: Part, table: &Value, key: Key) -> Result<Text, ServerFault>
    ensures ok { IfOk result (λ path. path_in part (view table.now) key ≡ Ok path) }
    ensures fault { IfErr result (λ fault. fault ≢ ServerFault.NoMemory →
        path_in part (view table.now) key ≡ Err fault) }
{
    match path_of(present(part, table, key)?) {
        Some(text) => Ok(Text::from_str(alloc, text)?),
        None => Err(ServerFault::BadValue(part, key)),
    }
}

/// The path under an optional key. `NoMemory` comes after the faults of the key.
#[tactic(auto, unfolding(crate::specs::Server::path_or_none_in))]
pub(crate) fn path_or_none(
    alloc: Global,
    part: Part,
    table: &Value,
    key: Key,
) -> Result<Option<Text>, ServerFault>
    ensures ok { IfOk result (λ path. path_or_none_in part (view table.now) key ≡ Ok path) }
    ensures fault { IfErr result (λ fault. fault ≢ ServerFault.NoMemory →
        path_or_none_in part (view table.now) key ≡ Err fault) }
{
    match member(table, key) {
        Some(value) => match path_of(value) {
            Some(text) => Ok(Some(Text::from_str(alloc, text)?)),
            None => Err(ServerFault::BadValue(part, key)),
        },
        None => Ok(None),
    }
}

/// The value as the name of a group.
fn group_of(value: &Value) -> Option<&str>
    ensures { option_copied result ≡ group_of (view value.now) }
{
    let text = value.as_str()?;
    if is_group(text.as_bytes()) {
        Some(text)
    } else {
        None
    }
}

/// The name of the group of a table, if it has one. `NoMemory` comes after the fault of the key.
#[tactic(auto, unfolding(crate::specs::Server::group_in))]
pub(crate) fn group(alloc: Global, part: Part, table: &Value) -> Result<Option<Text>, ServerFault>
    ensures ok { IfOk result (λ group. group_in part (view table.now) ≡ Ok group) }
    ensures fault { IfErr result (λ fault. fault ≢ ServerFault.NoMemory →
        group_in part (view table.now) ≡ Err fault) }
{
    match member(table, Key::Group) {
        Some(value) => match group_of(value) {
            Some(text) => Ok(Some(Text::from_str(alloc, text)?)),
            None => Err(ServerFault::BadValue(part, Key::Group)),
        },
        None => Ok(None),
    }
}

/// The value as the four octets of an address.
fn address_value(value: &Value) -> Option<[u8; 4]>
    ensures { result ≡ address_value (view value.now) }
{
    address_of(value.as_str()?.as_bytes())
}

/// The address of a table, or `default`.
#[tactic(auto, unfolding(crate::specs::Server::address_in))]
pub(crate) fn address(part: Part, table: &Value, default: [u8; 4]) -> Result<[u8; 4], ServerFault>
    ensures { result ≡ address_in part (view table.now) default }
{
    match member(table, Key::Address) {
        Some(value) => match address_value(value) {
            Some(address) => Ok(address),
            None => Err(ServerFault::BadValue(part, Key::Address)),
        },
        None => Ok(default),
    }
}

/// The value as an IPv4 or IPv6 address: a.b.c.d for ::ffff:a.b.c.d.
fn ip_address_value(value: &Value) -> Option<IpAddr>
    ensures { result ≡ ip_address_value (view value.now) }
{
    Some(canonical(ip_address_of(value.as_str()?.as_bytes())?))
}

/// The address of a table `listen`: every IPv4 address by default.
#[tactic(auto, unfolding(crate::specs::Server::ip_address_in))]
pub(crate) fn ip_address(part: Part, table: &Value) -> Result<IpAddr, ServerFault>
    ensures { result ≡ ip_address_in part (view table.now) }
{
    match member(table, Key::Address) {
        Some(value) => match ip_address_value(value) {
            Some(address) => Ok(address),
            None => Err(ServerFault::BadValue(part, Key::Address)),
        },
        None => Ok(IpAddr::V4(Ipv4Addr::from_octets(ANY_ADDRESS))),
    }
}

/// The boolean of a table under a key, which is false by default.
#[tactic(auto, unfolding(crate::specs::Server::flag_in))]
pub(crate) fn flag(part: Part, table: &Value, key: Key) -> Result<bool, ServerFault>
    ensures { result ≡ flag_in part (view table.now) key }
{
    match member(table, key) {
        Some(value) => match flag_value(value) {
            Some(flag) => Ok(flag),
            None => Err(ServerFault::BadValue(part, key)),
        },
        None => Ok(false),
    }
}

/// The value as a boolean.
fn flag_value(value: &Value) -> Option<bool>
    ensures { result ≡ flag_value (view value.now) }
{
    value.as_bool()
}

/// The value as a prefix.
fn prefix_value(value: &Value) -> Option<Prefix>
    ensures { result ≡ prefix_value (view value.now) }
{
    prefix_of(value.as_str()?.as_bytes())
}

/// The prefix of a table `network`.
#[tactic(auto, unfolding(crate::specs::Server::prefix_in))]
pub(crate) fn prefix(part: Part, table: &Value) -> Result<Prefix, ServerFault>
    ensures { result ≡ prefix_in part (view table.now) }
{
    match prefix_value(present(part, table, Key::Prefix)?) {
        Some(prefix) => Ok(prefix),
        None => Err(ServerFault::BadValue(part, Key::Prefix)),
    }
}

/// The client of a table `network`.
#[tactic(auto, unfolding(crate::specs::Server::client_in))]
pub(crate) fn client(part: Part, table: &Value) -> Result<[u8; 4], ServerFault>
    ensures { result ≡ client_in part (view table.now) }
{
    match address_value(present(part, table, Key::Client)?) {
        Some(address) => Ok(address),
        None => Err(ServerFault::BadValue(part, Key::Client)),
    }
}

/// The value as the outcome of a start that finds no history.
fn new_history_value(value: &Value) -> Option<NewHistory>
    ensures { result ≡ new_history_value (view value.now) }
{
    Some(NewHistory::of_flag(flag_value(value)?))
}

/// The outcome of a start that finds no history: by default it begins one.
#[tactic(auto, unfolding(crate::specs::Server::new_history_in))]
pub(crate) fn new_history(file: &Value) -> Result<NewHistory, ServerFault>
    ensures { result ≡ new_history_in (view file.now) }
{
    match member(file, Key::StateMustExist) {
        Some(value) => match new_history_value(value) {
            Some(new_history) => Ok(new_history),
            None => Err(ServerFault::BadValue(Part::Head, Key::StateMustExist)),
        },
        None => Ok(NewHistory::Begins),
    }
}

/// The value as a sync policy.
fn sync_value(value: &Value) -> Option<SyncPolicy>
    ensures { result ≡ sync_value (view value.now) }
{
    SyncPolicy::of_word(value.as_str()?)
}

/// The sync policy: before each answer by default.
#[tactic(auto, unfolding(crate::specs::Server::sync_in))]
pub(crate) fn sync(file: &Value) -> Result<SyncPolicy, ServerFault>
    ensures { result ≡ sync_in (view file.now) }
{
    match member(file, Key::Sync) {
        Some(value) => match sync_value(value) {
            Some(policy) => Ok(policy),
            None => Err(ServerFault::BadValue(Part::Head, Key::Sync)),
        },
        None => Ok(SyncPolicy::Always),
    }
}

/// The value as an archive: a word, or a number of days.
fn archive_value(value: &Value) -> Option<Archive>
    ensures { result ≡ archive_value (view value.now) }
{
    match value.as_str() {
        Some(word) => Archive::of_word(word),
        None => Some(Archive::Days(number_of(value, Key::Archive)?)),
    }
}

/// How long the archive is kept: a week by default.
#[tactic(auto, unfolding(crate::specs::Server::archive_in))]
pub(crate) fn archive(file: &Value) -> Result<Archive, ServerFault>
    ensures { result ≡ archive_in (view file.now) }
{
    match member(file, Key::Archive) {
        Some(value) => match archive_value(value) {
            Some(archive) => Ok(archive),
            None => Err(ServerFault::BadValue(Part::Head, Key::Archive)),
        },
        None => Ok(Archive::Days(ARCHIVE_DAYS)),
    }
}

/// How many megabytes of logs the archive may have where the file does not say it: 2,000, or as many as
/// there are where all files are kept.
fn megabytes_by_default(archive: Archive) -> Option<u16>
    ensures { result ≡ megabytes_by_default archive }
{
    match archive {
        Archive::Keep => None,
        Archive::Nothing | Archive::Days(_) => Some(ARCHIVE_MEGABYTES),
    }
}

/// How many megabytes of logs an archive that is kept so may have.
#[tactic(auto, unfolding(crate::specs::Server::megabytes_in))]
pub(crate) fn archive_megabytes(file: &Value, archive: Archive) -> Result<Option<u16>, ServerFault>
    ensures { result ≡ megabytes_in archive (view file.now) }
{
    match member(file, Key::ArchiveMegabytes) {
        Some(value) => match number_of(value, Key::ArchiveMegabytes) {
            Some(number) => Ok(Some(number)),
            None => Err(ServerFault::BadValue(Part::Head, Key::ArchiveMegabytes)),
        },
        None => Ok(megabytes_by_default(archive)),
    }
}

/// The items of a value that is an array of 1 to `most` tables.
pub(crate) fn tables_of(value: &Value, most: u64) -> Option<&[Value]>
    ensures value { option_map (λ tables. map view tables.now) result
        ≡ tables_of most (view value.now) }
    ensures few { IfSome result (λ tables. length tables.now ≤ most) }
{
    tables_of_list(value.as_array()?.as_slice(), most)
}

/// The items, if they are 1 to `most` tables.
fn tables_of_list(items: &[Value], most: u64) -> Option<&[Value]>
    ensures value { option_map (λ tables. map view tables.now) result
        ≡ tables_of_list most (map view items.now) }
    ensures few { IfSome result (λ tables. length tables.now ≤ most) }
{
    if are_tables(items) && is_between(1, most, items.len() as u64) {
        Some(items)
    } else {
        None
    }
}

/// Whether each item is a table.
fn are_tables(items: &[Value]) -> bool
    ensures { result ≡ list_all (λ item. is_some (as_table (view item))) items.now }
{
    items.iter().all(|item| item.is_table())
}

/// The first unknown key of a table, in the order of octets.
fn unknown_name(part: Part, table: &Value) -> Option<&str>
    ensures some { IfSome result (λ name.
        unknown_in part (view table.now) ≡ Some (ServerFault.Unknown part name.now)) }
    ensures none { IfNone result (unknown_in part (view table.now) ≡ None) }
{
    for name in table.as_table()?.keys() {
        if !part.knows(name.as_str()) {
            return Some(name.as_str());
        }
    }
    None
}

/// `Unknown` of the first unknown key of a table.
pub(crate) fn check_names(alloc: Global, part: Part, table: &Value) -> Result<(), ServerFault>
    ensures ok { IsOk result → unknown_in part (view table.now) ≡ None }
    ensures fault { IfErr result (λ fault. fault ≢ ServerFault.NoMemory →
        unknown_in part (view table.now) ≡ Some fault) }
{
    match unknown_name(part, table) {
        Some(name) => Err(ServerFault::Unknown(part, Text::from_str(alloc, name)?)),
        None => Ok(()),
    }
}
