ghost use Rattle.std.specs.Prelude.{◌≡◌, ◌↔◌, None, IsTrue, IfOk, IsErrOf};
ghost use Rattle.rsl_accounts.specs.Configuration.{client_number};
ghost use Rattle.rsl_event.specs.declared.meaning.Meaning.TheVariants as meanings;
ghost use Rattle.rld_control.specs.Offs.{IsOffOf, MeansOff, off_octets, sweep_of};

use crate::fault::FreeFault;
use crate::named::NamedServer;
use crate::stop::{SOURCE_PORT, address_kind, sealed_with};
use rsl_accounts::Config;
use rsl_event::codes::{ACCOUNTING_OFF, ACCT_SESSION_ID, ACCT_STATUS_TYPE, NAS_IDENTIFIER};
use rsl_event::{Dropped, Meaning, Nas, NasName, Port, Source, prepare};
use rsl_shard::Move;
use rsl_wire::{Attr, NoMemory};
use std::alloc::Global;

/// An Accounting-Off, as its access server would have sent it.
#[derive(Drop)]
pub struct Off {
    /// The access server.
    pub nas: Nas,
    /// The octets of the Accounting-Request (RFC 2866 section 4.1).
    pub octets: Vec<u8>,
}

impl Off {
    /// The Accounting-Off of the access server that an operator names, for the server with this
    /// boot number. Its datagram means to the server that this access server restarts: it was
    /// prepared like any from the client.
    ///
    /// The faults come in this order: `UnknownClient`, and `NoSession` if the name has over 253
    /// octets. `NoMemory` comes only if memory is refused.
    pub fn of(
        alloc: Global,
        config: &Config,
        boot: u64,
        named: &NamedServer,
    ) -> Result<Off, FreeFault>
        ensures off { IfOk result (λ off. IsOffOf config.now named.now off) }
        ensures meaning { IfOk result (λ off.
            MeansOff config.now boot (record { address = named.now.client; port = 0 }) off) }
        ensures client { IsErrOf result FreeFault.UnknownClient ↔
            (client_number config.now named.now.client ≡ None) }
        ensures account { IsErrOf result FreeFault.UnknownAccount → ⊥ }
    {
        let off = built(alloc, config, named)?;
        let source = Source {
            address: named.client,
            port: SOURCE_PORT,
        };
        if is_meant(alloc, config, boot, source, &off)? {
            Ok(off)
        } else {
            Err(FreeFault::NoSession)
        }
    }

    /// The move of the Accounting-Off at a moment, in seconds since 1970.
    pub fn into_move(self, moment: u64) -> Move
        ensures { result ≡ sweep_of self moment }
    {
        let Off { nas, octets: _ } = self;
        Move::Sweep {
            moment,
            nas,
            delay: 0,
        }
    }
}

/// The Accounting-Off of an access server, before its meaning is checked.
fn built(alloc: Global, config: &Config, named: &NamedServer) -> Result<Off, FreeFault>
    ensures off { IfOk result (λ off. IsOffOf config.now named.now off) }
    ensures client { IsErrOf result FreeFault.UnknownClient ↔
        (client_number config.now named.now.client ≡ None) }
    ensures account { IsErrOf result FreeFault.UnknownAccount → ⊥ }
{
    let Some(client) = config.client(named.client) else {
        return Err(FreeFault::UnknownClient);
    };
    let octets = off_octets(alloc, named, config.client_at(client).secret.expose())?;
    let nas = Nas {
        client,
        name: named.nas.try_copy(alloc)?,
    };
    Ok(Off { nas, octets })
}

/// The octets of an Accounting-Off, for a server that shares this secret.
fn off_octets(alloc: Global, named: &NamedServer, secret: &[u8]) -> Result<Vec<u8>, FreeFault>
    ensures octets { IfOk result (λ octets. octets.items ≡ off_octets named.now secret.now) }
    ensures known { IsErrOf result FreeFault.UnknownClient → ⊥ }
    ensures account { IsErrOf result FreeFault.UnknownAccount → ⊥ }
{
    let status = ACCOUNTING_OFF.to_be_bytes();
    let session = [b'0'];
    let status = Attr {
        kind: ACCT_STATUS_TYPE,
        value: status.as_slice(),
    };
    let session = Attr {
        kind: ACCT_SESSION_ID,
        value: session.as_slice(),
    };
    match &named.nas {
        NasName::Identifier(identifier) => {
            let nas = Attr {
                kind: NAS_IDENTIFIER,
                value: identifier.as_slice(),
            };
            sealed_with(alloc, &[status, session, nas], secret)
        }
        NasName::Address(address) => {
            let nas = Attr {
                kind: address_kind(address.as_slice()),
                value: address.as_slice(),
            };
            sealed_with(alloc, &[status, session, nas], secret)
        }
        NasName::Unnamed => sealed_with(alloc, &[status, session], secret),
    }
}

/// Whether the datagram of an Accounting-Off, from this source, means that to the server.
fn is_meant(
    alloc: Global,
    config: &Config,
    boot: u64,
    source: Source,
    off: &Off,
) -> Result<bool, NoMemory>
    ensures { IfOk result (λ is. IsTrue is → MeansOff config.now boot source off.now) }
{
    match prepare(
        alloc,
        config,
        boot,
        Port::Acct,
        source,
        off.octets.as_slice(),
    ) {
        Ok(prepared) => Ok(is_that(&prepared.meaning, off)),
        Err(Dropped::NoMemory) => Err(NoMemory),
        Err(_) => Ok(false),
    }
}

/// Whether a meaning is that this access server restarts now.
fn is_that(meaning: &Meaning, off: &Off) -> bool
    ensures { IsTrue result → meaning.now ≡ meanings.Restart off.now.nas 0 }
{
    match meaning {
        Meaning::Restart { nas, delay } => *delay == 0 && nas.is_same(&off.nas),
        _ => false,
    }
}
