//! The lines `ask` and `chap`.
ghost use Rattle.std.specs.Prelude.{◌≡◌, IfOk, map};
ghost use Rattle.rsl_script.specs.Access.{
  read_access,
  access_request,
  text_without_moment,
};
ghost use Rattle.rsl_script.specs.Reads.{Reads};

use crate::event_line::Happening;
use crate::fault::LineFault;
use crate::limited::{AttributeText, Password};
use crate::request::{AccessRequest, Method};
use crate::values::{read_id, read_nas, read_station};
use rsl_accounts::{Secret, address_of};
use rsl_wire::NoMemory;
use std::alloc::Global;

/// Octets of most lines without their moments, for which room is allocated at once.
const USUAL_LEN: usize = 48;

/// Reads the words `CLIENT NAS NAME PASSWORD ID [station=S]` after a moment.
#[tactic(auto, unfolding(crate::specs::Access::read_access))]
pub(crate) fn read_access(
    alloc: Global,
    method: Method,
    words: &[&str],
) -> Result<Happening, LineFault>
    ensures { Reads (read_access method (map (λ word. word.now) words.now)) result }
{
    match words {
        [] => Err(LineFault::Wrong),
        [client, rest @ ..] => {
            let address = address_of(client.as_bytes()).ok_or(LineFault::Wrong)?;
            let text = text_without_moment(alloc, method, words)?;
            let request = access_request(alloc, method, text, rest)?;
            Ok(Happening::Access { address, request })
        }
    }
}

/// Reads the words `NAS NAME PASSWORD ID [station=S]` of a line with this text.
#[tactic(auto, unfolding(crate::specs::Access::access_request))]
fn access_request(
    alloc: Global,
    method: Method,
    text: Secret,
    words: &[&str],
) -> Result<AccessRequest, LineFault>
    ensures { Reads (access_request method text (map (λ word. word.now) words.now)) result }
{
    match words {
        [nas, name, password, id, rest @ ..] => Ok(AccessRequest {
            method,
            text,
            nas: read_nas(alloc, nas)?,
            name: AttributeText::read(alloc, name)?,
            password: Password::read(alloc, password)?,
            id: read_id(id).ok_or(LineFault::Wrong)?,
            station: read_station(alloc, rest)?,
        }),
        _ => Err(LineFault::Wrong),
    }
}

/// A line without its moment: its first word and the words after the moment, joined by one space.
/// It fails only if memory is refused.
#[tactic(auto, unfolding(crate::specs::Access::text_without_moment))]
fn text_without_moment(alloc: Global, method: Method, words: &[&str]) -> Result<Secret, NoMemory>
    ensures { IfOk result (λ text.
        text ≡ text_without_moment method (map (λ word. word.now) words.now)) }
{
    let mut text = String::with_capacity(alloc, USUAL_LEN)?;
    text.push_str(method.word())?;
    for word in words {
        text.push_str(" ")?;
        text.push_str(word)?;
    }
    Ok(Secret::from(text))
}
