use crate::accounts::text_at;
use crate::found::Finds;
use crate::owner::Owner;
use crate::step::Step;
use rsl_wire::NoMemory;
use std::alloc::Global;
use std::collections::BTreeMap;
use toml::Value;

/// The first table of a list with each value of a key that no two may share.
#[derive(Drop)]
pub(crate) struct Firsts {
    /// The key of the list, which is the name of what its tables are.
    list: &'static str,
    /// The key that tells them apart.
    key: &'static str,
    /// The index of the first table with each value.
    seen: BTreeMap<String, usize>,
    /// How many tables were seen.
    tables: usize,
}

impl Firsts {
    /// No table is seen yet.
    pub(crate) fn new(alloc: Global, list: &'static str, key: &'static str) -> Firsts {
        Firsts {
            list,
            key,
            seen: BTreeMap::new(alloc),
            tables: 0,
        }
    }

    /// Finds whether the next table has the value of an earlier one.
    pub(crate) fn find_second(
        &mut self,
        finds: &mut Finds,
        owner: Owner,
        table: &Value,
    ) -> Result<(), NoMemory> {
        let index = self.tables;
        self.tables = index.saturating_add(1);
        let Some(text) = text_at(table, self.key) else {
            return Ok(());
        };
        if let Some(first) = self.seen.get(text) {
            return self.say_second(finds, owner, text, *first);
        }
        let text = String::from_str(finds.alloc, text)?;
        self.seen.insert(text, index)?;
        Ok(())
    }

    /// Puts a second one down.
    fn say_second(
        &self,
        finds: &mut Finds,
        owner: Owner,
        text: &str,
        first: usize,
    ) -> Result<(), NoMemory> {
        if finds.is_full() {
            finds.count();
            return Ok(());
        }
        let alloc = finds.alloc;
        let list = self.list;
        let sentence = format!(in alloc; "second {list} {text:?}")?;
        let mut way = Vec::new(alloc);
        way.push(Step::key(alloc, list)?)?;
        way.push(Step::Item(first))?;
        way.push(Step::key(alloc, self.key)?)?;
        finds.push_second(owner.way_to(alloc, self.key)?, sentence, way)
    }
}
