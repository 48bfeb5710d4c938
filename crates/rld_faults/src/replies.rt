//! What is wrong with the reply attributes of an account file.

use crate::accounts::text_at;
use crate::found::Finds;
use crate::owner::Owner;
use crate::step::Step;
use rsl_reply::{Dictionary, ReplyFault, read_attribute};
use rsl_wire::NoMemory;
use toml::Value;

/// Finds the wrong items of a list `reply`.
pub(crate) fn find_replies(
    finds: &mut Finds,
    names: &Dictionary,
    owner: Owner,
    table: &Value,
) -> Result<(), NoMemory> {
    let Some(list) = table.get("reply") else {
        return Ok(());
    };
    let Some(items) = list.as_array() else {
        return Ok(());
    };
    for (index, item) in items.as_slice().iter().enumerate() {
        if let Some(fault) = fault_of(finds, names, item)? {
            say_reply(finds, owner, index, fault)?;
        }
    }
    Ok(())
}

/// What is wrong with an item of a list.
fn fault_of(
    finds: &Finds,
    names: &Dictionary,
    item: &Value,
) -> Result<Option<ReplyFault>, NoMemory> {
    let Some(text) = item.as_str() else {
        return Ok(Some(ReplyFault::NotText));
    };
    match read_attribute(finds.alloc, names, text) {
        Ok(_) => Ok(None),
        Err(ReplyFault::NoMemory) => Err(NoMemory),
        Err(fault) => Ok(Some(fault)),
    }
}

/// Puts down what is wrong with the item at this index.
fn say_reply(
    finds: &mut Finds,
    owner: Owner,
    index: usize,
    fault: ReplyFault,
) -> Result<(), NoMemory> {
    if finds.is_full() {
        finds.count();
        return Ok(());
    }
    let alloc = finds.alloc;
    let number = index.saturating_add(1);
    let words = owner.words(alloc)?;
    let sentence = format!(in alloc; "reply {number}{words}: {fault}")?;
    let mut way = owner.way_to(alloc, "reply")?;
    way.push(Step::Item(index))?;
    finds.push(way, sentence)
}

/// Finds the profile of an account that the file does not have.
pub(crate) fn find_unknown_profile(
    finds: &mut Finds,
    owner: Owner,
    table: &Value,
    profiles: Option<&Value>,
) -> Result<(), NoMemory> {
    let Some(name) = text_at(table, "profile") else {
        return Ok(());
    };
    if has_profile(profiles, name) {
        return Ok(());
    }
    if finds.is_full() {
        finds.count();
        return Ok(());
    }
    let alloc = finds.alloc;
    let words = owner.words(alloc)?;
    let sentence = format!(in alloc; "unknown profile {name:?}{words}")?;
    finds.push(owner.way_to(alloc, "profile")?, sentence)
}

/// Whether there is a profile of this name.
fn has_profile(profiles: Option<&Value>, name: &str) -> bool {
    match profiles {
        Some(profiles) => profiles.get(name).is_some(),
        None => false,
    }
}
