//! The keys of Access-Requests.

ghost use Rattle.std.specs.Prelude.{◌≡◌, ◌++◌, OnOk};
ghost use Rattle.rld_spelling.specs.Read.{Reads};
ghost use Rattle.rld_spelling.specs.Requests.{key_at, key_field, key_octets};

use crate::{Fault, Reader, push_pair};
use rsl_event::{Key, Source};
use std::alloc::AllocError;

/// Shows the prover that every key has a spelling.
pub(crate) fn key_has_spelling(key: Key)
    ensures { key_field.Fits key }
{
    let _id = key.id;
    let _port = key.source.port;
}

/// Spells a key.
#[tactic(auto, unfolding(crate::specs::Requests::key_octets))]
pub(crate) fn push_key(out: &mut Vec<u8>, key: &Key) -> Result<(), AllocError>
    ensures { OnOk result (out.new.items ≡ out.old.items ++ key_octets key.now) }
{
    out.extend_from_slice(&key.source.address)?;
    push_pair(out, key.source.port)?;
    out.push(key.id)?;
    out.extend_from_slice(&key.authenticator)
}

/// Reads a key.
#[tactic(auto, unfolding(crate::specs::Requests::key_at))]
pub(crate) fn read_key(reader: &mut Reader) -> Result<Key, Fault>
    ensures { Reads result reader.new (key_at reader.old) }
{
    let address = reader.octets_4()?;
    let port = reader.pair()?;
    let id = reader.octet()?;
    let authenticator = reader.octets_16()?;
    Ok(Key {
        source: Source { address, port },
        id,
        authenticator,
    })
}
