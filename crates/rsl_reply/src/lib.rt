//! Attributes of an accept, as an operator writes them: `Framed-IP-Address = 192.0.2.7`. Names are
//! those of the `Dictionary` that a call is given, or `Attr-N` and `Attr-26.VENDOR.TYPE`. What a
//! value is for each form stands in `specs/Value.antt`. It promises:
//! - A text gives exactly the attribute that `specs/Reading.antt` has for it (`read_attribute`:
//!   `ok`).
//! - A fault is the text's: no `=`, an unknown name, an attribute that the server sets, a value of
//!   another form, one that is too long, an `Attr-26` that is too short, in this order; or memory
//!   was refused (`read_attribute`: `fault`).
//! - Numbers are named by the first row that the dictionary has for them (`Dictionary::name_of`;
//!   `Dictionary::name_of_value`).
//!
//! No clause speaks of a row of a dictionary: the programs bring theirs, so a new name costs the
//! crates between no proof.
#![tactic(auto)]

mod attribute;
mod dictionary;
mod lookup;
mod naming;
mod reading;
mod target;
mod value;
mod words;

pub use attribute::ReplyAttribute;
pub use dictionary::{AttributeRow, Dictionary, ValueRow};
pub use reading::read_attribute;
pub use rsl_accounts::{Form, ReplyFault};
pub use target::Target;
