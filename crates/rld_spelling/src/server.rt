//! Access servers, and the ids and names beside them.

ghost use Rattle.std.specs.Prelude.{◌≡◌, ◌≤◌, ◌++◌, ◌↔◌, IsTrue, OnOk, IfSome, length};
ghost use Rattle.rld_spelling.specs.Field.{short, short_at, optional, option_spelled};
ghost use Rattle.rld_spelling.specs.Read.{ReadsIn};
ghost use Rattle.rld_spelling.specs.Servers.{NameFits, name_at, name_octets, nas_at, nas_field, nas_octets};

use crate::{Cause, MAX_SHORT_LEN, ReadFault, Reader, push_flag, push_number, push_short};
use rsl_event::{Nas, NasName};
use rsl_wire::Octets;
use std::alloc::{AllocError, Global};

/// The tag of a name by NAS-Identifier.
const IDENTIFIER: u8 = 0;

/// The tag of a name by NAS-IP-Address.
const ADDRESS: u8 = 1;

/// The tag of no name.
const UNNAMED: u8 = 2;

// ---- ids

/// Whether an id has a spelling: at most 253 octets, like the value of an attribute.
pub(crate) fn id_fits(id: &Octets) -> bool
    ensures { IsTrue result ↔ short.Fits id.now }
{
    id.len() <= MAX_SHORT_LEN
}

/// Whether an optional id has a spelling.
pub(crate) fn option_fits(id: &Option<Octets>) -> bool
    ensures { IsTrue result ↔ IfSome id.now short.Fits }
{
    match id {
        Some(id) => id_fits(id),
        None => true,
    }
}

/// Spells an optional id.
pub(crate) fn push_option(out: &mut Vec<u8>, id: &Option<Octets>) -> Result<(), AllocError>
    requires { IfSome id.now short.Fits }
    ensures { OnOk result (out.new.items ≡ out.old.items ++ option_spelled short id.now) }
{
    match id {
        None => push_flag(out, false),
        Some(id) => {
            push_flag(out, true)?;
            push_short(out, id.as_slice())
        }
    }
}

/// Reads an id.
pub(crate) fn read_id(alloc: Global, reader: &mut Reader) -> Result<Octets, ReadFault>
    ensures { ReadsIn result reader.new (short_at reader.old) }
{
    let octets = reader.short()?;
    match Octets::from_slice(alloc, octets) {
        Ok(id) => Ok(id),
        Err(_) => Err(ReadFault::NoMemory),
    }
}

/// Reads an optional id.
pub(crate) fn read_option(alloc: Global, reader: &mut Reader) -> Result<Option<Octets>, ReadFault>
    ensures { ReadsIn result reader.new ((optional short).read reader.old) }
{
    if reader.flag()? {
        Ok(Some(read_id(alloc, reader)?))
    } else {
        Ok(None)
    }
}

// ---- access servers

/// Whether a name has a spelling: at most 253 octets, like the value of an attribute.
fn name_fits(name: &NasName) -> bool
    ensures { IsTrue result ↔ NameFits name.now }
{
    match name {
        NasName::Identifier(name) => id_fits(name),
        NasName::Address(address) => id_fits(address),
        NasName::Unnamed => true,
    }
}

/// Whether an access server has a spelling: it is at one of `clients` clients, and its name has a
/// spelling.
pub(crate) fn nas_fits(nas: &Nas, clients: u32) -> bool
    ensures { IsTrue result ↔ (nas_field clients).Fits nas.now }
{
    nas.client < clients && name_fits(&nas.name)
}

/// Spells a name.
#[tactic(auto, unfolding(crate::specs::Servers::name_octets))]
fn push_name(out: &mut Vec<u8>, name: &NasName) -> Result<(), AllocError>
    requires { NameFits name.now }
    ensures { OnOk result (out.new.items ≡ out.old.items ++ name_octets name.now) }
{
    match name {
        NasName::Identifier(name) => {
            out.push(IDENTIFIER)?;
            push_short(out, name.as_slice())
        }
        NasName::Address(address) => {
            out.push(ADDRESS)?;
            push_short(out, address.as_slice())
        }
        NasName::Unnamed => {
            out.push(UNNAMED)?;
            Ok(())
        }
    }
}

/// Spells an access server.
#[tactic(auto, unfolding(crate::specs::Servers::nas_octets))]
pub(crate) fn push_nas(out: &mut Vec<u8>, nas: &Nas) -> Result<(), AllocError>
    requires { NameFits nas.now.name }
    ensures { OnOk result (out.new.items ≡ out.old.items ++ nas_octets nas.now) }
{
    push_number(out, u64::from(nas.client))?;
    push_name(out, &nas.name)
}

/// Reads a name.
#[tactic(auto, unfolding(crate::specs::Servers::name_at))]
fn read_name(alloc: Global, reader: &mut Reader) -> Result<NasName, ReadFault>
    ensures { ReadsIn result reader.new (name_at reader.old) }
{
    let unknown = reader.fault(Cause::UnknownTag);
    match reader.octet()? {
        IDENTIFIER => Ok(NasName::Identifier(read_id(alloc, reader)?)),
        ADDRESS => Ok(NasName::Address(read_id(alloc, reader)?)),
        UNNAMED => Ok(NasName::Unnamed),
        _ => Err(ReadFault::Malformed(unknown)),
    }
}

/// Reads an access server of one of `clients` clients.
#[tactic(auto, unfolding(crate::specs::Servers::nas_at))]
pub(crate) fn read_nas(alloc: Global, reader: &mut Reader, clients: u32) -> Result<Nas, ReadFault>
    ensures { ReadsIn result reader.new (nas_at clients reader.old) }
{
    let client = reader.below(Cause::NoClient, u64::from(clients))? as u32;
    let name = read_name(alloc, reader)?;
    Ok(Nas { client, name })
}
