use crate::shown::shown;
use rld_networks::{ip_address_of, prefix_of};
use rsl_accounts::{Field, address_of};
use rsl_wire::NoMemory;
use std::alloc::Global;
use toml::Value;

/// The most days that an archive is kept.
const MAX_DAYS: u64 = 36_500;

/// The most octets of a path.
const MAX_PATH_LEN: usize = 4_095;

/// The most octets of a group's name.
const MAX_GROUP_LEN: usize = 32;

/// What a key may have.
#[derive(Clone, Copy)]
pub(crate) enum Kind {
    /// A number of this range.
    Number(u64, u64),
    /// A number of days, or one of two words.
    Days,
    /// The mode of a socket.
    Mode,
    /// A truth value.
    Flag,
    /// When what was recorded is synced.
    Sync,
    /// The User-Name of an account.
    Name,
    /// A secret or a password. What it has is never shown.
    Secret,
    /// The path of a file.
    Path,
    /// The name of a group.
    Group,
    /// An IPv4 address.
    Ipv4,
    /// An IPv4 or IPv6 address.
    Address,
    /// A prefix of addresses.
    Prefix,
    /// Any text.
    Text,
    /// A list.
    List,
    /// A table.
    Table,
    /// From one to this number of tables.
    Tables(usize),
}

impl Kind {
    /// What is wrong with a value, as a sentence whose subject is the key: `is 65; it is 0 to 64`.
    pub(crate) fn wrong(self, alloc: Global, value: &Value) -> Result<Option<String>, NoMemory> {
        if self.takes(value) {
            return Ok(None);
        }
        Ok(Some(match self {
            Kind::Secret => secret_wrong(alloc, value)?,
            Kind::Tables(most) => tables_wrong(alloc, value, most)?,
            _ => {
                let value = shown(alloc, value)?;
                let right = self.right(alloc)?;
                format!(in alloc; "is {value}; it is {right}")?
            }
        }))
    }

    /// Whether a value is right.
    fn takes(self, value: &Value) -> bool {
        match self {
            Kind::Number(least, most) => number_of(value).is_some_and(|n| least <= n && n <= most),
            Kind::Flag => value.is_bool(),
            Kind::List => value.is_array(),
            Kind::Table => value.is_table(),
            Kind::Tables(most) => has_tables(value, most),
            Kind::Days => is_archive(value),
            Kind::Mode => number_of(value).is_some_and(|mode| is_mode(mode)),
            _ => match value.as_str() {
                Some(text) => self.takes_text(text),
                None => false,
            },
        }
    }

    /// Whether a text is right.
    fn takes_text(self, text: &str) -> bool {
        let octets = text.as_bytes();
        match self {
            Kind::Sync => matches!(text, "always" | "second" | "never"),
            Kind::Name => Field::Name.takes_text(octets),
            Kind::Secret => Field::Secret.takes_text(octets),
            Kind::Path => is_line(octets, MAX_PATH_LEN),
            Kind::Group => is_line(octets, MAX_GROUP_LEN),
            Kind::Ipv4 => address_of(octets).is_some(),
            Kind::Address => ip_address_of(octets).is_some(),
            Kind::Prefix => prefix_of(octets).is_some(),
            _ => true,
        }
    }

    /// What a right value is.
    fn right(self, alloc: Global) -> Result<String, NoMemory> {
        if let Kind::Number(least, most) = self {
            return Ok(format!(in alloc; "{least} to {most}")?);
        }
        Ok(String::from_str(
            alloc,
            match self {
                Kind::Days => "1 to 36500, \"keep\" or \"none\"",
                Kind::Mode => "0o600, 0o660 or 0o666",
                Kind::Flag => "true or false",
                Kind::Sync => "\"always\", \"second\" or \"never\"",
                Kind::Name => "1 to 64 visible characters of ASCII",
                Kind::Path => "a text of 1 to 4095 octets without NUL",
                Kind::Group => "a text of 1 to 32 octets without NUL",
                Kind::Ipv4 => "an IPv4 address, as \"192.0.2.1\"",
                Kind::Address => "an IPv4 or IPv6 address",
                Kind::Prefix => "a prefix, as \"2001:db8::/32\"",
                Kind::List => "a list",
                Kind::Table => "a table",
                _ => "a text",
            },
        )?)
    }
}

/// What is wrong with a secret or a password, without showing it.
fn secret_wrong(alloc: Global, value: &Value) -> Result<String, NoMemory> {
    let Some(text) = value.as_str() else {
        let kind = value.type_str();
        return Ok(format!(in alloc; "is no text, but of the type {kind}")?);
    };
    let len = text.len();
    if 0 < len && len <= 128 {
        return Ok(String::from_str(alloc, "has the octet 0; it has none")?);
    }
    Ok(format!(in alloc; "has {len} octets; 1 to 128")?)
}

/// What is wrong with a value that is to be a list of tables.
fn tables_wrong(alloc: Global, value: &Value, most: usize) -> Result<String, NoMemory> {
    match value.as_array() {
        Some(items) if items.as_slice().iter().all(|item| item.is_table()) => {
            let len = items.len();
            Ok(format!(in alloc; "stands {len} times; 1 to {most}")?)
        }
        _ => {
            let value = shown(alloc, value)?;
            Ok(format!(in alloc; "is {value}; it is 1 to {most} tables")?)
        }
    }
}

/// A number that is not below 0.
pub(crate) fn number_of(value: &Value) -> Option<u64> {
    let number = value.as_integer()?;
    if 0 <= number {
        Some(number.unsigned_abs())
    } else {
        None
    }
}

/// Whether a value is from one to this number of tables.
fn has_tables(value: &Value, most: usize) -> bool {
    match value.as_array() {
        Some(items) => {
            let items = items.as_slice();
            !items.is_empty() && items.len() <= most && items.iter().all(|item| item.is_table())
        }
        None => false,
    }
}

/// Whether a value says how long an archive is kept.
fn is_archive(value: &Value) -> bool {
    match value.as_str() {
        Some(word) => matches!(word, "keep" | "none"),
        None => number_of(value).is_some_and(|days| 1 <= days && days <= MAX_DAYS),
    }
}

/// Whether a number is the mode of a socket that its owner may write to.
fn is_mode(mode: u64) -> bool {
    matches!(mode, 0o600 | 0o660 | 0o666)
}

/// Whether octets are one to `most`, none of them NUL.
fn is_line(octets: &[u8], most: usize) -> bool {
    !octets.is_empty() && octets.len() <= most && octets.iter().all(|octet| *octet != 0)
}
