//! Dictionaries: what names stand for, and what has which name.
ghost use Rattle.std.specs.Prelude.{◌≡◌, ◌++◌, [], OnOk, option_copied, option_map};
ghost use Rattle.rsl_reply.specs.Dictionary.{
  attribute_named,
  name_of,
  name_of_value,
  value_named,
};

use crate::lookup::{attribute_in, name_in, value_in, value_name_in};
use crate::target::Target;
use rsl_accounts::Form;
use rsl_wire::NoMemory;
use std::alloc::Global;

/// The name of an attribute, its vendor's number (RFC 2865 section 5.26; 0 for none), the Type, and how a
/// value is written.
pub type AttributeRow = (&'static str, u32, u8, Form);

/// The vendor's number and the Type of an attribute, the name of a value, and the number that it stands for.
pub type ValueRow = (u32, u8, &'static str, u32);

/// The names that texts may use, as rows: of attributes, and of their values. The programs have them from
/// `rsl_dictionary`; all below takes them as a value, so no clause there speaks of a row. Of rows with one
/// name, or with the same numbers, the first counts.
#[derive(Drop)]
pub struct Dictionary {
    attributes: Vec<AttributeRow>,
    values: Vec<ValueRow>,
}

impl Dictionary {
    /// A dictionary without rows.
    pub fn new(alloc: Global) -> Dictionary
        ensures attributes { result.attributes.items ≡ [] }
        ensures values { result.values.items ≡ [] }
    {
        Dictionary {
            attributes: Vec::new(alloc),
            values: Vec::new(alloc),
        }
    }

    /// Adds rows, after those that are there. It fails only where memory is refused.
    pub fn add(&mut self, attributes: &[AttributeRow], values: &[ValueRow]) -> Result<(), NoMemory>
        ensures attributes { OnOk result (self.new.attributes.items ≡
            self.old.attributes.items ++ attributes.now) }
        ensures values { OnOk result (self.new.values.items ≡
            self.old.values.items ++ values.now) }
    {
        self.attributes.extend_from_slice(attributes)?;
        self.values.extend_from_slice(values)?;
        Ok(())
    }

    /// The attribute that has this name, in capitals or not.
    pub(crate) fn attribute_named(&self, name: &str) -> Option<Target>
        ensures { result ≡ attribute_named self.now name.now }
    {
        attribute_in(self.attributes.as_slice(), name)
    }

    /// The number that a name stands for in the attribute with these numbers.
    pub(crate) fn value_named(&self, vendor: u32, number: u8, name: &str) -> Option<u32>
        ensures { result ≡ value_named self.now vendor number name.now }
    {
        value_in(self.values.as_slice(), vendor, number, name)
    }

    /// The name of the attribute of this Type, and how its values are written. `vendor` is the vendor's number
    /// (RFC 2865 section 5.26), or 0. None: the dictionary has no such attribute.
    pub fn name_of(&self, vendor: u32, number: u8) -> Option<(&'static str, Form)>
        ensures { option_map (λ found. (found.0.now, found.1)) result ≡
            name_of self.now vendor number }
    {
        name_in(self.attributes.as_slice(), vendor, number)
    }

    /// The name of a number in the attribute with these numbers. None: the dictionary has none.
    pub fn name_of_value(&self, vendor: u32, number: u8, value: u32) -> Option<&'static str>
        ensures { option_copied result ≡ name_of_value self.now vendor number value }
    {
        value_name_in(self.values.as_slice(), vendor, number, value)
    }
}
