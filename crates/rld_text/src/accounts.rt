ghost use Rattle.std.specs.Prelude.{◌≡◌, ◌++◌, IfOk, OnOk};
ghost use Rattle.rld_text.specs.Accounts.{account_line, account_object, account_text, accounts_text, is_selected, row_members, row_words, text_if_selected};

use crate::json::{push_number_member, push_string};
use crate::line_words::push_number_word;
use rld_control::{Form, Reply, Selection};
use rld_look::AccountLook;
use rld_values::{push_text, push_word};
use rsl_shard::Row;
use std::alloc::{AllocError, Global};

/// What each account of a selection holds, a line each, and at the end the line `ok`. It fails only
/// if memory is refused.
pub fn accounts_text(
    alloc: Global,
    form: Form,
    selection: Selection,
    accounts: &[AccountLook],
) -> Result<Vec<u8>, AllocError>
    ensures { IfOk result (λ text. text.items ≡ accounts_text form selection accounts.now) }
{
    let mut text = Vec::new(alloc);
    for account in accounts {
        push_if_selected(&mut text, form, selection, account)?;
    }
    Reply::Done(b"").write(&mut text)?;
    Ok(text)
}

/// Writes an account, if it is one of a selection.
fn push_if_selected(
    out: &mut Vec<u8>,
    form: Form,
    selection: Selection,
    account: &AccountLook,
) -> Result<(), AllocError>
    ensures { OnOk result (out.new.items
        ≡ out.old.items ++ text_if_selected form selection account.now) }
{
    if is_selected(selection, account) {
        push_account(out, form, account)
    } else {
        Ok(())
    }
}

/// Whether an account is one of a selection.
fn is_selected(selection: Selection, account: &AccountLook) -> bool
    ensures { result ≡ is_selected selection account.now }
{
    match selection {
        Selection::All => true,
        Selection::Held => account.row.held > 0,
        Selection::Full => account.row.places <= account.row.held,
    }
}

/// Writes an account.
fn push_account(out: &mut Vec<u8>, form: Form, account: &AccountLook) -> Result<(), AllocError>
    ensures { OnOk result (out.new.items ≡ out.old.items ++ account_text form account.now) }
{
    match form {
        Form::Lines => push_line(out, account),
        Form::Json => push_object(out, account),
    }
}

/// Writes the line of an account.
fn push_line(out: &mut Vec<u8>, account: &AccountLook) -> Result<(), AllocError>
    ensures { OnOk result (out.new.items ≡ out.old.items ++ account_line account.now) }
{
    push_word(out, account.name.as_bytes())?;
    push_row(out, &account.row)?;
    out.push(10)?;
    Ok(())
}

/// Writes what an account holds.
fn push_row(out: &mut Vec<u8>, row: &Row) -> Result<(), AllocError>
    ensures { OnOk result (out.new.items ≡ out.old.items ++ row_words row.now) }
{
    push_number_word(out, "places", u64::from(row.places))?;
    push_number_word(out, "held", u64::from(row.held))?;
    push_number_word(out, "reserved", u64::from(row.reserved))?;
    push_number_word(out, "live", u64::from(row.live))?;
    push_number_word(out, "stale", u64::from(row.stale))?;
    push_number_word(out, "over", row.over)
}

/// Writes the JSON object of an account.
fn push_object(out: &mut Vec<u8>, account: &AccountLook) -> Result<(), AllocError>
    ensures { OnOk result (out.new.items ≡ out.old.items ++ account_object account.now) }
{
    push_text(out, "{\"name\":")?;
    push_string(out, account.name.as_bytes())?;
    push_members(out, &account.row)?;
    push_text(out, "}\n")
}

/// Writes what an account holds as members of its object.
fn push_members(out: &mut Vec<u8>, row: &Row) -> Result<(), AllocError>
    ensures { OnOk result (out.new.items ≡ out.old.items ++ row_members row.now) }
{
    push_number_member(out, "places", u64::from(row.places))?;
    push_number_member(out, "held", u64::from(row.held))?;
    push_number_member(out, "reserved", u64::from(row.reserved))?;
    push_number_member(out, "live", u64::from(row.live))?;
    push_number_member(out, "stale", u64::from(row.stale))?;
    push_number_member(out, "over", row.over)
}
