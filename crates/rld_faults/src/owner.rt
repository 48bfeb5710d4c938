use crate::step::Step;
use rsl_accounts::{Field, address_of};
use rsl_wire::NoMemory;
use std::alloc::Global;
use toml::Value;

/// A table of a file, as sentences name it.
#[derive(Clone, Copy)]
pub(crate) enum Owner<'a> {
    /// The head of the file.
    Head,
    /// The client with this index, from 0, and its table.
    Client(usize, &'a Value),
    /// The table `disconnect` of the client with this index, and the table of the client.
    Disconnect(usize, &'a Value),
    /// The account with this index, from 0, and its table.
    Account(usize, &'a Value),
    /// The profile of this name.
    Profile(&'a str),
    /// The table with this index, from 0, of the list under this key of a server's file.
    Nth(&'static str, usize),
    /// The table under this key of a server's file.
    One(&'static str),
}

impl Owner<'_> {
    /// The way to a table.
    pub(crate) fn way(&self, alloc: Global) -> Result<Vec<Step>, NoMemory> {
        let mut way = Vec::new(alloc);
        match self {
            Owner::Head => {}
            Owner::Client(index, _) => push_item(&mut way, alloc, "client", *index)?,
            Owner::Disconnect(index, _) => {
                push_item(&mut way, alloc, "client", *index)?;
                way.push(Step::key(alloc, "disconnect")?)?;
            }
            Owner::Account(index, _) => push_item(&mut way, alloc, "account", *index)?,
            Owner::Profile(name) => {
                way.push(Step::key(alloc, "profile")?)?;
                way.push(Step::key(alloc, name)?)?;
            }
            Owner::Nth(key, index) => push_item(&mut way, alloc, key, *index)?,
            Owner::One(key) => way.push(Step::key(alloc, key)?)?,
        }
        Ok(way)
    }

    /// The way to what stands under a key of the table.
    pub(crate) fn way_to(&self, alloc: Global, key: &str) -> Result<Vec<Step>, NoMemory> {
        let mut way = self.way(alloc)?;
        way.push(Step::key(alloc, key)?)?;
        Ok(way)
    }

    /// The table after the name of a key: ` of account dora`, and nothing for the head.
    pub(crate) fn words(&self, alloc: Global) -> Result<String, NoMemory> {
        match self {
            Owner::Head => Ok(String::new(alloc)),
            Owner::Client(index, table) => client_words(alloc, " of ", *index, table),
            Owner::Disconnect(index, table) => {
                client_words(alloc, " of disconnect of ", *index, table)
            }
            Owner::Account(index, table) => account_words(alloc, *index, table),
            Owner::Profile(name) => Ok(format!(in alloc; " of profile {name:?}")?),
            Owner::Nth(key, index) => {
                let number = index.saturating_add(1);
                Ok(format!(in alloc; " of {key} {number}")?)
            }
            Owner::One(key) => Ok(format!(in alloc; " of {key}")?),
        }
    }
}

/// Adds the steps to an item of a list.
fn push_item(way: &mut Vec<Step>, alloc: Global, key: &str, index: usize) -> Result<(), NoMemory> {
    way.push(Step::key(alloc, key)?)?;
    way.push(Step::Item(index))?;
    Ok(())
}

/// A client: by its address, or by its number where that is wrong.
fn client_words(
    alloc: Global,
    front: &str,
    index: usize,
    table: &Value,
) -> Result<String, NoMemory> {
    match table.get("address") {
        Some(value) => match value.as_str() {
            Some(text) if address_of(text.as_bytes()).is_some() => {
                Ok(format!(in alloc; "{front}client {text}")?)
            }
            _ => numbered(alloc, front, "client", index),
        },
        None => numbered(alloc, front, "client", index),
    }
}

/// An account: by its name, or by its number where that is wrong.
fn account_words(alloc: Global, index: usize, table: &Value) -> Result<String, NoMemory> {
    match table.get("name") {
        Some(value) => match value.as_str() {
            Some(text) if Field::Name.takes_text(text.as_bytes()) => {
                Ok(format!(in alloc; " of account {text}")?)
            }
            _ => numbered(alloc, " of ", "account", index),
        },
        None => numbered(alloc, " of ", "account", index),
    }
}

fn numbered(alloc: Global, front: &str, what: &str, index: usize) -> Result<String, NoMemory> {
    let number = index.saturating_add(1);
    Ok(format!(in alloc; "{front}{what} number {number}")?)
}
