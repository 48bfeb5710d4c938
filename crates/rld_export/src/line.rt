//! A session as a line.

ghost use Rattle.std.specs.Prelude.{◌≡◌, ◌++◌, List, OnOk, ℕ};
ghost use Rattle.rld_values.specs.Dates.{AreDates};
ghost use Rattle.rld_export.specs.Text.{line_of_known, line_if_wanted, session_line};

use crate::export::Wanted;
use crate::form::Form;
use crate::object::push_object;
use crate::record::push_record;
use crate::session::{End, Held};
use rsl_accounts::Config;
use std::alloc::AllocError;

/// Writes the line of a session of an account, if it is wanted and both numbers are known.
pub(crate) fn push_line(
    out: &mut Vec<u8>,
    wanted: Wanted,
    config: &Config,
    account: u32,
    held: &Held,
    end: Option<End>,
) -> Result<(), AllocError>
    ensures { OnOk result ((dates : ℕ → List ℕ) → AreDates dates → out.new.items
        ≡ out.old.items ++ line_if_wanted dates wanted config.now account held.now end) }
{
    if wanted.span.has(held, end) {
        push_known(out, wanted.form, config, account, held, end)
    } else {
        Ok(())
    }
}

/// Writes the line of a session of an account, if both numbers are known.
fn push_known(
    out: &mut Vec<u8>,
    form: Form,
    config: &Config,
    account: u32,
    held: &Held,
    end: Option<End>,
) -> Result<(), AllocError>
    ensures { OnOk result ((dates : ℕ → List ℕ) → AreDates dates → out.new.items
        ≡ out.old.items ++ line_of_known dates form config.now account held.now end) }
{
    let client = held.session.nas.client;
    if account < config.accounts() && client < config.clients() {
        let address = config.client_at(client).address;
        let name = config.entry(account).name.as_bytes();
        push_form(out, form, name, address, held, end)
    } else {
        Ok(())
    }
}

/// Writes the line of a session.
fn push_form(
    out: &mut Vec<u8>,
    form: Form,
    account: &[u8],
    client: [u8; 4],
    held: &Held,
    end: Option<End>,
) -> Result<(), AllocError>
    ensures { OnOk result ((dates : ℕ → List ℕ) → AreDates dates → out.new.items
        ≡ out.old.items ++ session_line dates form account.now client held.now end) }
{
    match form {
        Form::Json => push_object(out, account, client, held, end),
        Form::Csv => push_record(out, account, client, held, end),
    }
}
