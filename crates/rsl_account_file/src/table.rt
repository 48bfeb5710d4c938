//! Fields of a TOML table: each with its value, or with the fault of the field.
ghost use Rattle.std.specs.Prelude.{
  ◌≡◌,
  ◌≢◌,
  ◌<◌,
  ◌^◌,
  ℕ,
  None,
  IfOk,
  IfErr,
  IfNone,
  IfSome,
  IsOk,
  is_some,
  length,
  map,
  option_copied,
  option_map,
};
ghost use Rattle.std.specs.List.{list_all};
ghost use Rattle.toml.specs.Data.{as_table};
ghost use Rattle.toml.specs.View.{view};
ghost use Rattle.rsl_account_file.specs.File.{
  member_in,
  number_of,
  text_of,
  address_value,
  tables_of_list,
  tables_of,
  number_in,
  number_or_in,
  option_flag_in,
  option_in,
  option_text_in,
  password_in,
  text_in,
  address_in,
  disabled_in,
  disconnect_in,
  disconnect_of,
  flag_in,
  head_flag_in,
  misspelled_in,
  port_in,
  secret_in,
  signed_in,
  trusted_in,
  unknown_in,
  own_in,
  own_station_in,
  tables_in,
};
ghost use Rattle.rsl_accounts.specs.Walk.{number_fault, option_fault};

use rsl_accounts::{
    ConfigFault, Field, Part, Text, address_of, check_secret_len, check_trust, is_strict,
    knows_own_times,
};
use std::alloc::Global;
use toml::Value;

/// What a table has under the key of a field.
pub(crate) fn member(table: &Value, field: Field) -> Option<&Value>
    ensures { option_map (λ value. view value.now) result ≡ member_in (view table.now) field }
{
    table.get(field.key())
}

/// What a table has under the key of a field that it must have.
pub(crate) fn present(table: &Value, field: Field) -> Result<&Value, ConfigFault>
    ensures ok { IfOk result (λ value. member_in (view table.now) field ≡ Some (view value.now)) }
    ensures fault { IfErr result (λ fault.
        (member_in (view table.now) field ≡ None) × (fault ≡ ConfigFault.Missing field)) }
{
    match member(table, field) {
        Some(value) => Ok(value),
        None => Err(ConfigFault::Missing(field)),
    }
}

/// The value as a number, if it is within the field's limits.
#[tactic(auto, unfolding(rsl_accounts::specs::Walk::number_fault))]
fn number_of(value: &Value, field: Field) -> Option<u64>
    ensures value { result ≡ number_of field (view value.now) }
    ensures right { IfSome result (λ number. number_fault field number ≡ None) }
{
    let number = value.as_integer()?;
    if 0 <= number && field.takes_number(number.unsigned_abs()) {
        Some(number.unsigned_abs())
    } else {
        None
    }
}

/// The number of a field.
#[tactic(auto, unfolding(crate::specs::File::number_in))]
pub(crate) fn number(table: &Value, field: Field) -> Result<u64, ConfigFault>
    ensures value { result ≡ number_in (view table.now) field }
    ensures right { IfOk result (λ number. number_fault field number ≡ None) }
{
    match number_of(present(table, field)?, field) {
        Some(number) => Ok(number),
        None => Err(ConfigFault::BadValue(field)),
    }
}

/// The number of an optional field.
#[tactic(auto, unfolding(crate::specs::File::option_in))]
pub(crate) fn optional_number(table: &Value, field: Field) -> Result<Option<u64>, ConfigFault>
    ensures value { result ≡ option_in (view table.now) field }
    ensures right { IfOk result (λ number. option_fault field number ≡ None) }
{
    match member(table, field) {
        Some(value) => match number_of(value, field) {
            Some(number) => Ok(Some(number)),
            None => Err(ConfigFault::BadValue(field)),
        },
        None => Ok(None),
    }
}

/// The number of a field that version 3 lets a table leave out: it is `default` then.
#[tactic(auto, unfolding(crate::specs::File::number_or_in))]
pub(crate) fn number_or(
    version: u64,
    table: &Value,
    field: Field,
    default: u64,
) -> Result<u64, ConfigFault>
    ensures { result ≡ number_or_in version (view table.now) field default }
{
    if is_strict(version) {
        Ok(optional_number(table, field)?.unwrap_or(default))
    } else {
        number(table, field)
    }
}

/// The number of an optional field whose numbers have 32 bits.
pub(crate) fn short_number(table: &Value, field: Field) -> Result<Option<u32>, ConfigFault>
    requires { (number : ℕ) → number_fault field number ≡ None → number < 2 ^ 32 }
    ensures { result ≡ option_in (view table.now) field }
{
    match optional_number(table, field)? {
        Some(number) => Ok(Some(number as u32)),
        None => Ok(None),
    }
}

/// An account's own time, which version 1 does not know.
#[tactic(auto, unfolding(crate::specs::File::own_in))]
pub(crate) fn own_time(
    version: u64,
    table: &Value,
    field: Field,
) -> Result<Option<u64>, ConfigFault>
    ensures { result ≡ own_in version (view table.now) field }
{
    if knows_own_times(version) {
        optional_number(table, field)
    } else {
        Ok(None)
    }
}

/// The interim interval in seconds, which version 1 does not know.
#[tactic(auto, unfolding(crate::specs::File::own_in))]
pub(crate) fn interim(version: u64, table: &Value) -> Result<Option<u32>, ConfigFault>
    ensures { result ≡ own_in version (view table.now) Field.InterimSecs }
{
    if knows_own_times(version) {
        short_number(table, Field::InterimSecs)
    } else {
        Ok(None)
    }
}

/// The value as a text, if it is within the field's limits.
fn text_of(value: &Value, field: Field) -> Option<&str>
    ensures { option_copied result ≡ text_of field (view value.now) }
{
    let text = value.as_str()?;
    if field.takes_text(text.as_bytes()) {
        Some(text)
    } else {
        None
    }
}

/// The text of a field.
#[tactic(auto, unfolding(crate::specs::File::text_in))]
pub(crate) fn text(table: &Value, field: Field) -> Result<&str, ConfigFault>
    ensures ok { IfOk result (λ text. text_in (view table.now) field ≡ Ok text.now) }
    ensures fault { IfErr result (λ fault. text_in (view table.now) field ≡ Err fault) }
{
    match text_of(present(table, field)?, field) {
        Some(text) => Ok(text),
        None => Err(ConfigFault::BadValue(field)),
    }
}

/// The text of a field that may be left out, lent.
#[tactic(auto, unfolding(crate::specs::File::option_text_in))]
fn optional_text(table: &Value, field: Field) -> Result<Option<&str>, ConfigFault>
    ensures ok { IfOk result (λ text.
        option_text_in (view table.now) field ≡ Ok (option_copied text)) }
    ensures fault { IfErr result (λ fault. option_text_in (view table.now) field ≡ Err fault) }
{
    match member(table, field) {
        Some(value) => match text_of(value, field) {
            Some(text) => Ok(Some(text)),
            None => Err(ConfigFault::BadValue(field)),
        },
        None => Ok(None),
    }
}

/// The password of an account, lent, which version 3 lets it leave out.
#[tactic(auto, unfolding(crate::specs::File::password_in))]
pub(crate) fn password(version: u64, table: &Value) -> Result<Option<&str>, ConfigFault>
    ensures ok { IfOk result (λ text.
        password_in version (view table.now) ≡ Ok (option_copied text)) }
    ensures fault { IfErr result (λ fault. password_in version (view table.now) ≡ Err fault) }
{
    if is_strict(version) {
        return optional_text(table, Field::Password);
    }
    match text(table, Field::Password) {
        Ok(text) => Ok(Some(text)),
        Err(fault) => Err(fault),
    }
}

/// The octets that a value spells, if it is the text of an address.
fn address_value(value: &Value) -> Option<[u8; 4]>
    ensures { result ≡ address_value (view value.now) }
{
    address_of(value.as_str()?.as_bytes())
}

/// The address of a client.
#[tactic(auto, unfolding(crate::specs::File::address_in))]
pub(crate) fn address(table: &Value) -> Result<[u8; 4], ConfigFault>
    ensures { result ≡ address_in (view table.now) }
{
    match address_value(present(table, Field::Address)?) {
        Some(address) => Ok(address),
        None => Err(ConfigFault::BadValue(Field::Address)),
    }
}

/// The boolean of a field that may be left out.
#[tactic(auto, unfolding(crate::specs::File::option_flag_in))]
fn optional_flag(table: &Value, field: Field) -> Result<Option<bool>, ConfigFault>
    ensures { result ≡ option_flag_in (view table.now) field }
{
    match member(table, field) {
        Some(value) => match value.as_bool() {
            Some(flag) => Ok(Some(flag)),
            None => Err(ConfigFault::BadValue(field)),
        },
        None => Ok(None),
    }
}

/// The boolean of a field, or `default` if it is left out.
#[tactic(auto, unfolding(crate::specs::File::flag_in))]
pub(crate) fn flag(table: &Value, field: Field, default: bool) -> Result<bool, ConfigFault>
    ensures { result ≡ flag_in (view table.now) field default }
{
    Ok(optional_flag(table, field)?.unwrap_or(default))
}

/// The boolean of a field of the head, which only version 3 knows: false if it is left out.
#[tactic(auto, unfolding(crate::specs::File::head_flag_in))]
pub(crate) fn head_flag(version: u64, file: &Value, field: Field) -> Result<bool, ConfigFault>
    ensures { result ≡ head_flag_in version (view file.now) field }
{
    if is_strict(version) {
        flag(file, field, false)
    } else {
        Ok(false)
    }
}

/// Whether an account's fresh asks end a link of their own station, if it says so. Only version 3
/// knows it.
#[tactic(auto, unfolding(crate::specs::File::own_station_in))]
pub(crate) fn own_station(version: u64, table: &Value) -> Result<Option<bool>, ConfigFault>
    ensures { result ≡ own_station_in version (view table.now) }
{
    if is_strict(version) {
        optional_flag(table, Field::Station)
    } else {
        Ok(None)
    }
}

/// Whether a client signs its requests: in version 3 unless it says otherwise, before only if it
/// says so.
pub(crate) fn signed(version: u64, table: &Value) -> Result<bool, ConfigFault>
    ensures { result ≡ signed_in version (view table.now) }
{
    flag(table, Field::Signed, is_strict(version))
}

/// Whether a client's requests may ask without a password, which only version 3 knows: `BadValue` of one
/// that does not sign.
#[tactic(auto, unfolding(crate::specs::File::trusted_in))]
pub(crate) fn trusted(version: u64, signed: bool, table: &Value) -> Result<bool, ConfigFault>
    ensures { result ≡ trusted_in version signed (view table.now) }
{
    if is_strict(version) {
        let trusted = flag(table, Field::Trusted, false)?;
        match check_trust(signed, trusted) {
            Ok(()) => Ok(trusted),
            Err(fault) => Err(fault),
        }
    } else {
        Ok(false)
    }
}

/// The UDP port at which a client takes Disconnect-Requests (RFC 5176), which only version 3 knows.
#[tactic(auto, unfolding(crate::specs::File::disconnect_in))]
pub(crate) fn disconnect(
    alloc: Global,
    version: u64,
    table: &Value,
) -> Result<Option<u16>, ConfigFault>
    ensures ok { IfOk result (λ port. disconnect_in version (view table.now) ≡ Ok port) }
    ensures fault { IfErr result (λ fault. fault ≢ ConfigFault.NoMemory →
        disconnect_in version (view table.now) ≡ Err fault) }
{
    if is_strict(version) {
        disconnect_of(alloc, version, member(table, Field::Disconnect))
    } else {
        Ok(None)
    }
}

/// The port of the table that a value is, if there is one.
fn disconnect_of(
    alloc: Global,
    version: u64,
    value: Option<&Value>,
) -> Result<Option<u16>, ConfigFault>
    ensures ok { IfOk result (λ port.
        disconnect_of version (option_map (λ v. view v.now) value.entry) ≡ Ok port) }
    ensures fault { IfErr result (λ fault. fault ≢ ConfigFault.NoMemory →
        disconnect_of version (option_map (λ v. view v.now) value.entry) ≡ Err fault) }
{
    match value {
        Some(value) if value.is_table() => Ok(Some(port(alloc, version, value)?)),
        Some(_) => Err(ConfigFault::BadValue(Field::Disconnect)),
        None => Ok(None),
    }
}

/// The port of a table `disconnect`: its one key.
#[tactic(auto, unfolding(crate::specs::File::port_in))]
fn port(alloc: Global, version: u64, table: &Value) -> Result<u16, ConfigFault>
    ensures ok { IfOk result (λ port. port_in version (view table.now) ≡ Ok port) }
    ensures fault { IfErr result (λ fault. fault ≢ ConfigFault.NoMemory →
        port_in version (view table.now) ≡ Err fault) }
{
    check_names(alloc, version, Part::Disconnect, table)?;
    Ok(number(table, Field::Port)? as u16)
}

/// Whether an account's logins are rejected, which only version 3 knows.
pub(crate) fn disabled(version: u64, table: &Value) -> Result<bool, ConfigFault>
    ensures { result ≡ disabled_in version (view table.now) }
{
    if is_strict(version) {
        flag(table, Field::Disabled, false)
    } else {
        Ok(false)
    }
}

/// The secret of a client.
#[tactic(auto, unfolding(crate::specs::File::secret_in))]
pub(crate) fn secret(version: u64, table: &Value) -> Result<&str, ConfigFault>
    ensures ok { IfOk result (λ text. secret_in version (view table.now) ≡ Ok text.now) }
    ensures fault { IfErr result (λ fault. secret_in version (view table.now) ≡ Err fault) }
{
    let secret = text(table, Field::Secret)?;
    match check_secret_len(version, secret.len()) {
        Ok(()) => Ok(secret),
        Err(fault) => Err(fault),
    }
}

/// The first name that a table may not have as a key, in the order of their octets.
pub(crate) fn unknown_name(part: Part, table: &Value) -> Option<&str>
    ensures some { IfSome result (λ name.
        unknown_in part (view table.now) ≡ Some (ConfigFault.Unknown part name.now)) }
    ensures none { IfNone result (unknown_in part (view table.now) ≡ None) }
{
    for name in table.as_table()?.keys() {
        if !part.knows(name.as_str()) {
            return Some(name.as_str());
        }
    }
    None
}

/// `Unknown` of the first unknown key of a table, in version 3.
pub(crate) fn check_names(
    alloc: Global,
    version: u64,
    part: Part,
    table: &Value,
) -> Result<(), ConfigFault>
    ensures ok { IsOk result → misspelled_in version part (view table.now) ≡ None }
    ensures fault { IfErr result (λ fault. fault ≢ ConfigFault.NoMemory →
        misspelled_in version part (view table.now) ≡ Some fault) }
{
    if !is_strict(version) {
        return Ok(());
    }
    match unknown_name(part, table) {
        Some(name) => Err(ConfigFault::Unknown(part, Text::from_str(alloc, name)?)),
        None => Ok(()),
    }
}

/// The tables under the key of a field.
#[tactic(auto, unfolding(crate::specs::File::tables_in))]
pub(crate) fn tables(table: &Value, field: Field) -> Result<&[Value], ConfigFault>
    ensures ok { IfOk result (λ tables.
        tables_in (view table.now) field ≡ Ok (map view tables.now)) }
    ensures fault { IfErr result (λ fault. tables_in (view table.now) field ≡ Err fault) }
{
    match tables_of(present(table, field)?, field) {
        Some(tables) => Ok(tables),
        None => Err(ConfigFault::BadValue(field)),
    }
}

/// The value as an array of tables, if their number is within the field's limits.
fn tables_of(value: &Value, field: Field) -> Option<&[Value]>
    ensures { option_map (λ tables. map view tables.now) result
        ≡ tables_of field (view value.now) }
{
    tables_of_list(value.as_array()?.as_slice(), field)
}

/// The items of an array, if they are tables and their number is within the field's limits.
fn tables_of_list(items: &[Value], field: Field) -> Option<&[Value]>
    ensures { option_map (λ tables. map view tables.now) result
        ≡ tables_of_list field (map view items.now) }
{
    if are_tables(items) && field.takes_count(items.len()) {
        Some(items)
    } else {
        None
    }
}

/// Whether each item is a table.
fn are_tables(items: &[Value]) -> bool
    ensures { result ≡ list_all (λ item. is_some (as_table (view item))) items.now }
{
    items.iter().all(|item| item.is_table())
}
