//! The status, in the form that an operator asks for.

ghost use Rattle.std.specs.Prelude.{IfOk};
ghost use Rattle.rld_serve.specs.Answering.{IsStatusIn};

use rld_control::Form;
use rld_look::Look;
use rld_text::{status_json, status_text};
use std::alloc::{AllocError, Global};

/// The status of a server that shows this, in this form. It fails only if memory is refused.
pub(crate) fn status_of(alloc: Global, form: Form, look: &Look) -> Result<Vec<u8>, AllocError>
    ensures { IfOk result (λ text. IsStatusIn form look.entry.now text.items) }
{
    match form {
        Form::Lines => status_text(alloc, look),
        Form::Json => status_json(alloc, look),
    }
}
