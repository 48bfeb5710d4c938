ghost use Rattle.std.specs.Prelude.{◌≡◌, ◌++◌, OnOk};
ghost use Rattle.rld_ask.specs.Form.{fault_text, field_name};
ghost use Rattle.rld_ask.specs.declared.fault.FormFault.TheVariants.{NoMemory as no_memory};

use crate::field::Field;
use rld_values::push_text;
use rsl_wire::NoMemory;
use std::alloc::AllocError;

/// Why a form is no ask.
#[derive(Clone, Copy, Debug)]
pub enum FormFault {
    /// A field has a name that no field has.
    Unknown,
    /// This field stands there more than once.
    Twice(Field),
    /// This field is not there, or is empty. Of an access server that has neither name it is
    /// `nas_identifier`.
    Missing(Field),
    /// This field is too long, or is no address.
    Wrong(Field),
    /// Memory was refused.
    NoMemory,
}

impl FormFault {
    /// Writes the fault, without a line feed: the field and what is wrong with it. It fails only where memory
    /// is refused.
    pub fn push(self, out: &mut Vec<u8>) -> Result<(), AllocError>
        ensures { OnOk result (out.new.items ≡ out.old.items ++ fault_text self) }
    {
        match self {
            FormFault::Unknown => push_text(out, "unknown field"),
            FormFault::Twice(field) => push_fault(out, field, ": more than once"),
            FormFault::Missing(field) => push_fault(out, field, ": missing"),
            FormFault::Wrong(field) => push_fault(out, field, ": wrong value"),
            FormFault::NoMemory => push_text(out, "no memory"),
        }
    }
}

/// Writes a field, and what is wrong with it.
fn push_fault(out: &mut Vec<u8>, field: Field, what: &str) -> Result<(), AllocError>
    ensures { OnOk result (out.new.items ≡ out.old.items ++ (field_name field ++ what.now)) }
{
    push_text(out, field.name())?;
    push_text(out, what)
}

impl From<NoMemory> for FormFault {
    ghost from_gives = { λ _ fault. fault ≡ no_memory };

    fn from(_refused: NoMemory) -> FormFault {
        FormFault::NoMemory
    }
}

impl From<AllocError> for FormFault {
    ghost from_gives = { λ _ fault. fault ≡ no_memory };

    fn from(_refused: AllocError) -> FormFault {
        FormFault::NoMemory
    }
}
