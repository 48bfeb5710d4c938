//! A session as an object of JSON.

ghost use Rattle.std.specs.Prelude.{◌≡◌, ◌++◌, OnOk, Some, codes};
ghost use Rattle.rld_text.specs.Json.{string_member};
ghost use Rattle.rld_export.specs.Text.{end_members, moment_member, moment_or_null, session_object};

use crate::session::{End, Held};
use rld_text::{push_member_front, push_server_members, push_string_member};
use rld_values::{push_decimal, push_text};
use rsl_wire::Octets;
use std::alloc::AllocError;

/// Writes a moment, or null.
fn push_moment_or_null(out: &mut Vec<u8>, moment: Option<u64>) -> Result<(), AllocError>
    ensures { OnOk result (out.new.items ≡ out.old.items ++ moment_or_null moment) }
{
    match moment {
        Some(moment) => push_decimal(out, moment),
        None => push_text(out, "null"),
    }
}

/// Writes a member that is a moment, or null.
#[tactic(auto, unfolding(crate::specs::Text::moment_member))]
fn push_moment(out: &mut Vec<u8>, name: &str, moment: Option<u64>) -> Result<(), AllocError>
    ensures { OnOk result (out.new.items ≡ out.old.items ++ moment_member name.now moment) }
{
    push_member_front(out, name)?;
    push_moment_or_null(out, moment)
}

/// Writes when and why a session ended, or that it has not.
fn push_end(out: &mut Vec<u8>, end: Option<End>) -> Result<(), AllocError>
    ensures { OnOk result (out.new.items ≡ out.old.items ++ end_members end) }
{
    match end {
        None => push_text(out, ",\"ended\":null,\"why\":null"),
        Some(end) => {
            push_moment(out, "ended", Some(end.at))?;
            push_string_member(out, "why", end.why.word().as_bytes())
        }
    }
}

/// Writes the id of a session.
fn push_id(out: &mut Vec<u8>, id: &Octets) -> Result<(), AllocError>
    ensures { OnOk result (out.new.items ≡ out.old.items ++ string_member (codes "session") id.now) }
{
    push_string_member(out, "session", id.as_slice())
}

/// Writes the line of a session.
pub(crate) fn push_object(
    out: &mut Vec<u8>,
    account: &[u8],
    client: [u8; 4],
    held: &Held,
    end: Option<End>,
) -> Result<(), AllocError>
    ensures { OnOk result (out.new.items ≡ out.old.items
        ++ session_object account.now client held.now end) }
{
    push_server_members(out, account, client, &held.session.nas.name)?;
    push_id(out, &held.session.id)?;
    push_moment(out, "began", held.began)?;
    push_moment(out, "seen", Some(held.seen))?;
    push_end(out, end)?;
    push_text(out, "}\n")?;
    Ok(())
}
