//! The accounts as JSON (RFC 8259). Its strings are not those of `rld_text`: a name is a text in UTF-8 and stands as it
//! is, while an id in an answer on the control may have any octets, and there each octet is one character.

ghost use Rattle.std.specs.Prelude.{◌≡◌, ◌/◌, ◌%◌, ◌<◌, ◌++◌, ◌∷◌, [], IfOk, OnOk, codes};
ghost use Rattle.std.specs.List.{flat_map};
ghost use Rattle.rld_page.specs.Json.{account_json, accounts_json, hex_digit, json_octet, links_json, list_json, member_json, more_json, name_json, row_json};

use rld_look::{AccountLook, AccountsLook};
use rld_values::{push_decimal, push_text};
use rsl_shard::Row;
use std::alloc::{AllocError, Global};

/// What each account holds, in file order, as a JSON object: `now` is the second since 1970, and
/// `accounts` has an object for each account. It fails only if memory is refused.
///
/// Names are texts in UTF-8, and so is the whole.
#[tactic(auto, unfolding(crate::specs::Json::accounts_json))]
pub fn accounts_json(alloc: Global, look: &AccountsLook) -> Result<Vec<u8>, AllocError>
    ensures { IfOk result (λ text. text.items ≡ accounts_json look.entry.now) }
{
    let mut out = Vec::new(alloc);
    push_text(&mut out, "{\"now\":")?;
    push_decimal(&mut out, look.now)?;
    push_text(&mut out, ",\"accounts\":[")?;
    push_list(&mut out, look.accounts.as_slice())?;
    push_text(&mut out, "]}\n")?;
    Ok(out)
}

/// Writes the accounts, with a comma between two.
fn push_list(out: &mut Vec<u8>, accounts: &[AccountLook]) -> Result<(), AllocError>
    ensures { OnOk result (out.new.items ≡ out.old.items ++ list_json accounts.now) }
{
    match accounts {
        [] => Ok(()),
        [first, others @ ..] => {
            push_account(out, first)?;
            push_more(out, others)
        }
    }
}

/// Writes the accounts after the first one.
fn push_more(out: &mut Vec<u8>, accounts: &[AccountLook]) -> Result<(), AllocError>
    ensures { OnOk result (out.new.items ≡ out.old.items ++ flat_map more_json accounts.now) }
{
    for account in accounts {
        push_next(out, account)?;
    }
    Ok(())
}

/// Writes an account after another one.
fn push_next(out: &mut Vec<u8>, account: &AccountLook) -> Result<(), AllocError>
    ensures { OnOk result (out.new.items ≡ out.old.items ++ more_json account.now) }
{
    push_text(out, ",")?;
    push_account(out, account)
}

/// Writes an account.
#[tactic(auto, unfolding(crate::specs::Json::account_json))]
fn push_account(out: &mut Vec<u8>, account: &AccountLook) -> Result<(), AllocError>
    ensures { OnOk result (out.new.items ≡ out.old.items ++ account_json account.now) }
{
    push_name(out, account.name.as_bytes())?;
    push_row(out, &account.row)
}

/// Writes the start of an account, with its name.
#[tactic(auto, unfolding(crate::specs::Json::name_json))]
fn push_name(out: &mut Vec<u8>, name: &[u8]) -> Result<(), AllocError>
    ensures { OnOk result (out.new.items ≡ out.old.items ++ name_json name.now) }
{
    push_text(out, "\n{\"name\":\"")?;
    push_string(out, name)?;
    push_text(out, "\"")?;
    Ok(())
}

/// Writes what an account holds.
#[tactic(auto, unfolding(crate::specs::Json::row_json))]
fn push_row(out: &mut Vec<u8>, row: &Row) -> Result<(), AllocError>
    ensures { OnOk result (out.new.items ≡ out.old.items ++ row_json row.now) }
{
    push_member(out, "places", u64::from(row.places))?;
    push_member(out, "held", u64::from(row.held))?;
    push_member(out, "reserved", u64::from(row.reserved))?;
    push_links(out, row)
}

/// Writes the links of an account, and the end of its object.
#[tactic(auto, unfolding(crate::specs::Json::links_json))]
fn push_links(out: &mut Vec<u8>, row: &Row) -> Result<(), AllocError>
    ensures { OnOk result (out.new.items ≡ out.old.items ++ links_json row.now) }
{
    push_member(out, "live", u64::from(row.live))?;
    push_member(out, "stale", u64::from(row.stale))?;
    push_member(out, "over", row.over)?;
    push_text(out, "}")
}

/// Writes a member that is a number.
#[tactic(auto, unfolding(crate::specs::Json::member_json))]
fn push_member(out: &mut Vec<u8>, name: &str, number: u64) -> Result<(), AllocError>
    ensures { OnOk result (out.new.items ≡ out.old.items ++ member_json name.now number) }
{
    push_text(out, ",\"")?;
    push_text(out, name)?;
    push_text(out, "\":")?;
    push_decimal(out, number)
}

/// Writes the contents of a string, between its quotes.
fn push_string(out: &mut Vec<u8>, octets: &[u8]) -> Result<(), AllocError>
    ensures { OnOk result (out.new.items ≡ out.old.items ++ flat_map json_octet octets.now) }
{
    for octet in octets {
        push_octet(out, *octet)?;
    }
    Ok(())
}

/// Writes an octet of a string.
fn push_octet(out: &mut Vec<u8>, octet: u8) -> Result<(), AllocError>
    ensures { OnOk result (out.new.items ≡ out.old.items ++ json_octet octet) }
{
    match octet {
        b'"' => push_text(out, "\\\""),
        b'\\' => push_text(out, "\\\\"),
        0..=31 => push_control(out, octet),
        _ => {
            out.push(octet)?;
            Ok(())
        }
    }
}

/// Writes a control character.
fn push_control(out: &mut Vec<u8>, octet: u8) -> Result<(), AllocError>
    ensures { OnOk result (out.new.items
        ≡ out.old.items ++ (codes "\\u00" ++ (hex_digit (octet / 16) ∷ hex_digit (octet % 16) ∷ []))) }
{
    push_text(out, "\\u00")?;
    let digits = [hex_digit(octet / 16), hex_digit(octet % 16)];
    out.extend_from_slice(&digits)
}

/// A hexadecimal digit, in upper case.
fn hex_digit(digit: u8) -> u8
    requires { digit < 16 }
    ensures { result ≡ hex_digit digit }
{
    if digit < 10 { 48 + digit } else { 55 + digit }
}
