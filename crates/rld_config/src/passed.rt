//! Keys of an account file that versions 1 and 2 pass over.
ghost use Rattle.std.specs.Prelude.{◌≡◌, IfOk, Some, map, option_copied};
ghost use Rattle.toml.specs.View.{view};
ghost use Rattle.rsl_account_file.specs.File.{member_in};
ghost use Rattle.rsl_accounts.specs.Part.{knows};
ghost use Rattle.rld_config.specs.Passed.{
  is_of_version_3,
  is_passed_over,
  items_of,
  name_among,
  name_in,
  passed,
  passed_over,
  passed_over_in,
};

use crate::fault::ServerFault;
use crate::server::parse;
use rsl_accounts::{Field, Part, Text};
use rsl_wire::NoMemory;
use std::alloc::Global;
use std::fmt;
use toml::Value;

/// A key of an account file that versions 1 and 2 pass over, and version 3 does not. It prints as its table
/// and its name: `client "sigend"`.
#[derive(Debug, Drop)]
pub struct PassedOver {
    /// The kind of its table.
    pub part: Part,
    /// Its name.
    pub key: Text,
}

impl fmt::Display for PassedOver {
    fn fmt<W: fmt::Write>(&self, f: &mut fmt::Formatter<W>) -> fmt::Result {
        write!(f, "{}{:?}", self.part, self.key)
    }
}

/// The first key of the text of an account file that versions 1 and 2 pass over, and version 3 does not: of its
/// head, then of its clients, then of its accounts. It fails only where memory is refused.
pub fn passed_over(alloc: Global, text: &[u8]) -> Result<Option<PassedOver>, NoMemory>
    ensures { IfOk result (λ found. passed_over text.now ≡ found) }
{
    match parse(alloc, text) {
        Ok(file) => passed_over_in(alloc, &file),
        Err(ServerFault::NoMemory) => Err(NoMemory),
        Err(_) => Ok(None),
    }
}

/// The first such key of a file.
#[tactic(auto, unfolding(crate::specs::Passed::passed_over_in))]
fn passed_over_in(alloc: Global, file: &Value) -> Result<Option<PassedOver>, NoMemory>
    ensures { IfOk result (λ found. passed_over_in (view file.now) ≡ found) }
{
    if let Some(name) = name_in(Part::Head, file) {
        return passed(alloc, Part::Head, name);
    }
    if let Some(name) = name_among(Part::Client, items_under(file, Field::Client)) {
        return passed(alloc, Part::Client, name);
    }
    match name_among(Part::Account, items_under(file, Field::Account)) {
        Some(name) => passed(alloc, Part::Account, name),
        None => Ok(None),
    }
}

/// A key of this name.
fn passed(alloc: Global, part: Part, name: &str) -> Result<Option<PassedOver>, NoMemory>
    ensures { IfOk result (λ found. passed part (Some name.now) ≡ found) }
{
    let key = Text::from_str(alloc, name)?;
    Ok(Some(PassedOver { part, key }))
}

/// The items of the array that a file has under the key of a field.
fn items_under(file: &Value, field: Field) -> &[Value]
    ensures { map view result.now ≡ items_of (member_in (view file.now) field) }
{
    match file.get(field.key()) {
        Some(value) => items_of(value),
        None => &[],
    }
}

/// The items of a value that is an array.
fn items_of(value: &Value) -> &[Value]
    ensures { map view result.now ≡ items_of (Some (view value.now)) }
{
    match value.as_array() {
        Some(items) => items.as_slice(),
        None => &[],
    }
}

/// The first name of some tables that is passed over.
fn name_among(part: Part, tables: &[Value]) -> Option<&str>
    ensures { option_copied result ≡ name_among part (map view tables.now) }
{
    for table in tables {
        if let Some(name) = name_in(part, table) {
            return Some(name);
        }
    }
    None
}

/// The first name of a table that is passed over.
fn name_in(part: Part, table: &Value) -> Option<&str>
    ensures { option_copied result ≡ name_in part (view table.now) }
{
    for name in table.as_table()?.keys() {
        if is_passed_over(part, name.as_str()) {
            return Some(name.as_str());
        }
    }
    None
}

/// Whether the name of a key is passed over.
fn is_passed_over(part: Part, name: &str) -> bool
    ensures { result ≡ is_passed_over part name.now }
{
    !part.knows(name) || is_of_version_3(name)
}

/// Whether version 3 alone follows a key of this name.
fn is_of_version_3(name: &str) -> bool
    ensures { result ≡ is_of_version_3 name.now }
{
    [
        Field::Trusted,
        Field::Disconnect,
        Field::Disabled,
        Field::Reply,
        Field::Profile,
        Field::PortLimit,
        Field::Station,
        Field::DelayTime,
    ]
    .iter()
    .any(|field| name == field.key())
}
