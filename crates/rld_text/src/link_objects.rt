//! A link as a JSON object.

ghost use Rattle.std.specs.Prelude.{◌≡◌, ◌<◌, ◌++◌, length, OnOk};
ghost use Rattle.rld_text.specs.Links.{bound_member, free_member, holder_members, ids_members, link_object, nas_address_member, nas_member, octets_member_if, server_members};

use crate::json::{push_number_member, push_string, push_string_member};
use crate::links::Holder;
use rld_control::push_server;
use rld_values::{push_dotted, push_hex, push_text, push_word};
use rsl_event::NasName;
use rsl_session::{SavedHolder, SavedLink};
use rsl_wire::Octets;
use std::alloc::{AllocError, Global};

/// Writes the JSON object of a link.
#[tactic(auto, unfolding(crate::specs::Links::link_object))]
pub(crate) fn push_link_object(
    alloc: Global,
    out: &mut Vec<u8>,
    holder: &Holder<'_>,
    link: &SavedLink,
) -> Result<(), AllocError>
    requires { link.now.nas.client < length holder.now.config.now.clients }
    ensures { OnOk result (out.new.items ≡ out.old.items ++ link_object holder.now.config.now
        holder.now.name.now holder.now.live holder.now.moment link.now) }
{
    let client = holder.config.client_at(link.nas.client);
    let age = holder.moment.saturating_sub(link.touched);
    let account = holder.name.as_bytes();
    let mut server = Vec::new(alloc);
    push_server(&mut server, account, client.address, &link.nas.name)?;
    push_server_members(out, account, client.address, &link.nas.name)?;
    push_holder(out, holder.live, age, &link.holder)?;
    push_number_member(out, "age", age)?;
    push_ids(out, link)?;
    push_free(alloc, out, server.as_slice(), &link.holder)?;
    push_text(out, "}\n")
}

/// Writes the start of an object: the account and the access server of a link. It fails only if
/// memory is refused.
#[tactic(auto, unfolding(crate::specs::Links::server_members))]
pub fn push_server_members(
    out: &mut Vec<u8>,
    account: &[u8],
    client: [u8; 4],
    nas: &NasName,
) -> Result<(), AllocError>
    ensures { OnOk result (out.new.items ≡ out.old.items ++ server_members account.now client nas.now) }
{
    push_text(out, "{\"account\":")?;
    push_string(out, account)?;
    push_text(out, ",\"client\":\"")?;
    push_dotted(out, client)?;
    push_text(out, "\"")?;
    push_nas(out, nas)?;
    Ok(())
}

/// Writes the name of an access server.
fn push_nas(out: &mut Vec<u8>, nas: &NasName) -> Result<(), AllocError>
    ensures { OnOk result (out.new.items ≡ out.old.items ++ nas_member nas.now) }
{
    match nas {
        NasName::Identifier(name) => push_string_member(out, "nas", name.as_slice()),
        NasName::Address(address) => push_nas_address(out, address.as_slice()),
        NasName::Unnamed => push_text(out, ",\"nas\":null"),
    }
}

/// Writes the NAS-IP-Address of an access server.
#[tactic(auto, unfolding(crate::specs::Links::nas_address_member))]
fn push_nas_address(out: &mut Vec<u8>, address: &[u8]) -> Result<(), AllocError>
    ensures { OnOk result (out.new.items ≡ out.old.items ++ nas_address_member address.now) }
{
    push_text(out, ",\"nas_address\":\"")?;
    push_hex(out, address)?;
    push_text(out, "\"")?;
    Ok(())
}

/// Writes what holds a link: its session and state, or that it is reserved.
fn push_holder(
    out: &mut Vec<u8>,
    live: u64,
    age: u64,
    holder: &SavedHolder,
) -> Result<(), AllocError>
    ensures { OnOk result (out.new.items ≡ out.old.items ++ holder_members live age holder.now) }
{
    match holder {
        SavedHolder::Reserved(_) => push_text(out, ",\"session\":null,\"state\":\"reserved\""),
        SavedHolder::Bound(session) => {
            push_string_member(out, "session", session.as_slice())?;
            push_state(out, live, age)
        }
    }
}

/// Writes the state of a bound link.
fn push_state(out: &mut Vec<u8>, live: u64, age: u64) -> Result<(), AllocError>
    ensures { OnOk result (out.new.items ≡ out.old.items ++ bound_member live age) }
{
    if age < live {
        push_text(out, ",\"state\":\"live\"")
    } else {
        push_text(out, ",\"state\":\"stale\"")
    }
}

/// Writes the ids of a link's bundle and of its station, where it has them.
#[tactic(auto, unfolding(crate::specs::Links::ids_members))]
fn push_ids(out: &mut Vec<u8>, link: &SavedLink) -> Result<(), AllocError>
    ensures { OnOk result (out.new.items ≡ out.old.items ++ ids_members link.now) }
{
    push_octets_member_if(out, "bundle", &link.bundle)?;
    push_octets_member_if(out, "station", &link.station)
}

/// Writes a member of octets, if there are any.
fn push_octets_member_if(
    out: &mut Vec<u8>,
    name: &str,
    octets: &Option<Octets>,
) -> Result<(), AllocError>
    ensures { OnOk result (out.new.items ≡ out.old.items ++ octets_member_if name.now octets.now) }
{
    match octets {
        None => Ok(()),
        Some(octets) => push_string_member(out, name, octets.as_slice()),
    }
}

/// Writes the words for `free`, given those before the session's, if there is a session.
fn push_free(
    alloc: Global,
    out: &mut Vec<u8>,
    server: &[u8],
    holder: &SavedHolder,
) -> Result<(), AllocError>
    ensures { OnOk result (out.new.items ≡ out.old.items ++ free_member server.now holder.now) }
{
    match holder {
        SavedHolder::Reserved(_) => Ok(()),
        SavedHolder::Bound(session) => {
            let mut words = Vec::from_slice(alloc, server)?;
            words.push(32)?;
            push_word(&mut words, session.as_slice())?;
            push_string_member(out, "free", words.as_slice())
        }
    }
}
