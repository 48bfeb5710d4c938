//! A session as a record of CSV.

ghost use Rattle.std.specs.Prelude.{◌≡◌, ◌++◌, List, OnOk, Some, ℕ};
ghost use Rattle.rld_values.specs.Dates.{AreDates};
ghost use Rattle.rld_export.specs.Text.{columns, date_or_nothing, end_columns, nas_columns, quoted, server_columns, session_record};

use crate::session::{End, Held};
use rld_values::{push_date, push_dotted, push_escaped, push_hex, push_text};
use rsl_event::NasName;
use rsl_wire::Octets;
use std::alloc::AllocError;

/// Writes the names of the columns.
pub(crate) fn push_columns(out: &mut Vec<u8>) -> Result<(), AllocError>
    ensures { OnOk result (out.new.items ≡ out.old.items ++ columns) }
{
    push_text(
        out,
        "account,client,nas,nas_address,session,began,seen,ended,why\n",
    )
}

/// Writes octets between quotation marks.
#[tactic(auto, unfolding(crate::specs::Text::quoted))]
fn push_quoted(out: &mut Vec<u8>, octets: &[u8]) -> Result<(), AllocError>
    ensures { OnOk result (out.new.items ≡ out.old.items ++ quoted octets.now) }
{
    push_text(out, "\"")?;
    push_escaped(out, octets)?;
    push_text(out, "\"")
}

/// Writes the NAS-IP-Address of an access server.
fn push_nas_address(out: &mut Vec<u8>, address: &[u8]) -> Result<(), AllocError>
    ensures { OnOk result (out.new.items ≡ out.old.items ++ nas_columns (NasName.Address address.now)) }
{
    push_text(out, ",")?;
    push_hex(out, address)?;
    push_text(out, ",")
}

/// Writes the name of an access server.
fn push_nas(out: &mut Vec<u8>, name: &NasName) -> Result<(), AllocError>
    ensures { OnOk result (out.new.items ≡ out.old.items ++ nas_columns name.now) }
{
    match name {
        NasName::Identifier(name) => {
            push_quoted(out, name.as_slice())?;
            push_text(out, ",,")
        }
        NasName::Address(address) => push_nas_address(out, address.as_slice()),
        NasName::Unnamed => push_text(out, ",,"),
    }
}

/// Writes the account and the access server.
fn push_server(
    out: &mut Vec<u8>,
    account: &[u8],
    client: [u8; 4],
    name: &NasName,
) -> Result<(), AllocError>
    ensures { OnOk result (out.new.items ≡ out.old.items ++ server_columns account.now client name.now) }
{
    push_quoted(out, account)?;
    push_text(out, ",")?;
    push_dotted(out, client)?;
    push_text(out, ",")?;
    push_nas(out, name)?;
    Ok(())
}

/// Writes the date of a moment, if there is one.
fn push_date_if(out: &mut Vec<u8>, moment: Option<u64>) -> Result<(), AllocError>
    ensures { OnOk result ((dates : ℕ → List ℕ) → AreDates dates → out.new.items
        ≡ out.old.items ++ date_or_nothing dates moment) }
{
    match moment {
        Some(moment) => push_date(out, moment),
        None => Ok(()),
    }
}

/// Writes when and why a session ended, if it has, and the end of its line.
fn push_end(out: &mut Vec<u8>, end: Option<End>) -> Result<(), AllocError>
    ensures { OnOk result ((dates : ℕ → List ℕ) → AreDates dates → out.new.items
        ≡ out.old.items ++ end_columns dates end) }
{
    match end {
        None => push_text(out, ",\n"),
        Some(end) => {
            push_date_if(out, Some(end.at))?;
            push_text(out, ",")?;
            push_text(out, end.why.word())?;
            push_text(out, "\n")
        }
    }
}

/// Writes the id of a session.
fn push_id(out: &mut Vec<u8>, id: &Octets) -> Result<(), AllocError>
    ensures { OnOk result (out.new.items ≡ out.old.items ++ quoted id.now) }
{
    push_quoted(out, id.as_slice())
}

/// Writes the line of a session.
pub(crate) fn push_record(
    out: &mut Vec<u8>,
    account: &[u8],
    client: [u8; 4],
    held: &Held,
    end: Option<End>,
) -> Result<(), AllocError>
    ensures { OnOk result ((dates : ℕ → List ℕ) → AreDates dates → out.new.items
        ≡ out.old.items ++ session_record dates account.now client held.now end) }
{
    push_server(out, account, client, &held.session.nas.name)?;
    push_id(out, &held.session.id)?;
    push_text(out, ",")?;
    push_date_if(out, held.began)?;
    push_text(out, ",")?;
    push_date_if(out, Some(held.seen))?;
    push_text(out, ",")?;
    push_end(out, end)?;
    Ok(())
}
