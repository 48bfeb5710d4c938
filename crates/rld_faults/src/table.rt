//! What is wrong with the keys of one table.

use crate::found::Finds;
use crate::owner::Owner;
use crate::row::Row;
use rsl_wire::NoMemory;
use toml::Value;

/// How a table is looked at.
#[derive(Clone, Copy)]
pub(crate) struct Reading {
    /// The version of the file's format. A server's file has 3.
    pub(crate) version: u64,
}

impl Reading {
    /// Whether a key that is not known is a fault.
    pub(crate) fn is_strict(self) -> bool {
        self.version == 3
    }

    /// Finds the keys of a table that it may not have, that are missing, and whose values are wrong.
    pub(crate) fn check(
        self,
        finds: &mut Finds,
        owner: Owner,
        table: &Value,
        rows: &[Row],
    ) -> Result<(), NoMemory> {
        if self.is_strict() {
            find_unknown(finds, owner, table, rows)?;
        }
        for row in rows {
            if row.is_known(self.version) {
                self.check_row(finds, owner, table, *row)?;
            }
        }
        Ok(())
    }

    /// Finds what is wrong with one key.
    fn check_row(
        self,
        finds: &mut Finds,
        owner: Owner,
        table: &Value,
        row: Row,
    ) -> Result<(), NoMemory> {
        let alloc = finds.alloc;
        let key = row.key();
        match table.get(key) {
            Some(value) => match row.kind().wrong(alloc, value)? {
                Some(wrong) => say(finds, owner, key, wrong.as_str()),
                None => Ok(()),
            },
            None if row.is_needed(self.version) => say(finds, owner, key, "is missing"),
            None => Ok(()),
        }
    }
}

/// Finds the keys of a table that it may not have.
fn find_unknown(
    finds: &mut Finds,
    owner: Owner,
    table: &Value,
    rows: &[Row],
) -> Result<(), NoMemory> {
    let Some(table) = table.as_table() else {
        return Ok(());
    };
    for name in table.keys() {
        if !has_row(rows, name.as_str()) {
            say_unknown(finds, owner, name.as_str())?;
        }
    }
    Ok(())
}

/// Whether there is a key of this name.
fn has_row(rows: &[Row], name: &str) -> bool {
    rows.iter().any(|row| row.key() == name)
}

/// Puts down that a key is not known.
fn say_unknown(finds: &mut Finds, owner: Owner, name: &str) -> Result<(), NoMemory> {
    if finds.is_full() {
        finds.count();
        return Ok(());
    }
    let alloc = finds.alloc;
    let words = owner.words(alloc)?;
    let sentence = format!(in alloc; "unknown key {name:?}{words}")?;
    finds.push(owner.way_to(alloc, name)?, sentence)
}

/// Puts down what is wrong with a key of a table.
pub(crate) fn say(finds: &mut Finds, owner: Owner, key: &str, wrong: &str) -> Result<(), NoMemory> {
    if finds.is_full() {
        finds.count();
        return Ok(());
    }
    let alloc = finds.alloc;
    let words = owner.words(alloc)?;
    let sentence = format!(in alloc; "{key}{words} {wrong}")?;
    finds.push(owner.way_to(alloc, key)?, sentence)
}
