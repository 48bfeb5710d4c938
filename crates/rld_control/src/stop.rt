ghost use Rattle.std.specs.Prelude.{◌≡◌, ◌↔◌, map, None, IsTrue, IfOk, IsErrOf};
ghost use Rattle.std.specs.List.{list_any};
ghost use Rattle.rsl_accounts.specs.Configuration.{account_number, client_number};
ghost use Rattle.rsl_event.specs.declared.event.Act.TheVariants as acts;
ghost use Rattle.rsl_event.specs.declared.meaning.Meaning.TheVariants as meanings;
ghost use Rattle.rsl_session.specs.Saved.{saved_links};
ghost use Rattle.rsl_wire.specs.NewPacket.{seen};
ghost use Rattle.rld_control.specs.Stops.{IsStopOf, MeansStop, address_kind, is_ended, is_held, is_holder, move_of, request_octets, stop_octets};

use crate::fault::FreeFault;
use crate::named::NamedSession;
use rsl_accounts::Config;
use rsl_auth::sealed;
use rsl_event::codes::{
    ACCOUNTING_REQUEST, ACCT_SESSION_ID, ACCT_STATUS_TYPE, NAS_IDENTIFIER, NAS_IP_ADDRESS,
    NAS_IPV6_ADDRESS, STOP, USER_NAME,
};
use rsl_event::{Act, Dropped, Event, Meaning, Nas, NasName, Port, Source, prepare};
use rsl_session::{SavedHolder, SavedLink};
use rsl_shard::Move;
use rsl_wire::{Attr, BuildFault, NoMemory, Octets, build};
use std::alloc::Global;

/// The Identifier of what is made here.
const IDENTIFIER: u8 = 0;

/// The source port of what is made here, on which no answer depends.
pub(crate) const SOURCE_PORT: u16 = 0;

/// A Stop of a session, as its access server would have sent it.
#[derive(Drop)]
pub struct Stop {
    /// The number of the session's account.
    pub account: u32,
    /// The session's access server.
    pub nas: Nas,
    /// The session's Acct-Session-Id (RFC 2866 section 5.5).
    pub session: Octets,
    /// The octets of the Accounting-Request (RFC 2866 section 4.1).
    pub octets: Vec<u8>,
}

impl Stop {
    /// The Stop of the session that an operator names, for the server with this boot number. Its
    /// datagram means this Stop to the server: it was prepared like any from the client.
    ///
    /// The faults come in this order: `UnknownAccount`, `UnknownClient`, and `NoSession` if the id
    /// is empty or a value has over 253 octets. `NoMemory` comes only if memory is refused.
    pub fn of(
        alloc: Global,
        config: &Config,
        boot: u64,
        named: &NamedSession,
    ) -> Result<Stop, FreeFault>
        ensures stop { IfOk result (λ stop. IsStopOf config.now named.now stop) }
        ensures meaning { IfOk result (λ stop.
            MeansStop config.now boot (record { address = named.now.client; port = 0 }) stop) }
        ensures account { IsErrOf result FreeFault.UnknownAccount ↔
            (account_number config.now named.now.account ≡ None) }
        ensures client { IsErrOf result FreeFault.UnknownClient →
            client_number config.now named.now.client ≡ None }
    {
        let stop = built(alloc, config, named)?;
        let source = Source {
            address: named.client,
            port: SOURCE_PORT,
        };
        if is_meant(alloc, config, boot, source, &stop)? {
            Ok(stop)
        } else {
            Err(FreeFault::NoSession)
        }
    }

    /// Whether one of these links, as a book's are saved, is bound to the session.
    #[tactic(auto, using(crate::proofs::Holding::any_ended))]
    pub fn ends_one(&self, links: &[SavedLink]) -> bool
        ensures { result ≡ is_held self.now (saved_links links.now) }
    {
        self.ends_any(links)
    }

    /// The same, by what is saved of each link.
    fn ends_any(&self, links: &[SavedLink]) -> bool
        ensures { result ≡ list_any (is_ended self.now) links.now }
    {
        links.iter().any(|link| self.ends(link))
    }

    /// Whether a link is bound to the session.
    fn ends(&self, link: &SavedLink) -> bool
        ensures { result ≡ is_ended self.now link.now }
    {
        link.nas.is_same(&self.nas) && is_holder(&self.session, &link.holder)
    }

    /// The move of the Stop at a moment, in seconds since 1970.
    pub fn into_move(self, moment: u64) -> Move
        ensures { result ≡ move_of self moment }
    {
        let Stop {
            account,
            nas,
            session,
            octets: _,
        } = self;
        Move::Own {
            account,
            event: Event {
                moment,
                act: Act::Stop { nas, session },
            },
        }
    }
}

/// Whether a link is bound to a session of this id.
fn is_holder(session: &Octets, holder: &SavedHolder) -> bool
    ensures { result ≡ is_holder session.now holder.now }
{
    match holder {
        SavedHolder::Reserved(_) => false,
        SavedHolder::Bound(id) => id.as_slice() == session.as_slice(),
    }
}

/// The Stop of a session, before its meaning is checked.
fn built(alloc: Global, config: &Config, named: &NamedSession) -> Result<Stop, FreeFault>
    ensures stop { IfOk result (λ stop. IsStopOf config.now named.now stop) }
    ensures account { IsErrOf result FreeFault.UnknownAccount ↔
        (account_number config.now named.now.account ≡ None) }
    ensures client { IsErrOf result FreeFault.UnknownClient →
        client_number config.now named.now.client ≡ None }
{
    let Some(account) = config.account(named.account.as_slice()) else {
        return Err(FreeFault::UnknownAccount);
    };
    let Some(client) = config.client(named.client) else {
        return Err(FreeFault::UnknownClient);
    };
    let octets = stop_octets(alloc, named, config.client_at(client).secret.expose())?;
    let nas = Nas {
        client,
        name: named.nas.try_copy(alloc)?,
    };
    let session = named.session.try_copy(alloc)?;
    Ok(Stop {
        account,
        nas,
        session,
        octets,
    })
}

/// The octets of a Stop, for a server that shares this secret.
fn stop_octets(alloc: Global, named: &NamedSession, secret: &[u8]) -> Result<Vec<u8>, FreeFault>
    ensures octets { IfOk result (λ octets. octets.items ≡ stop_octets named.now secret.now) }
    ensures known { IsErrOf result FreeFault.UnknownAccount → ⊥ }
    ensures client { IsErrOf result FreeFault.UnknownClient → ⊥ }
{
    let status = STOP.to_be_bytes();
    let name = Attr {
        kind: USER_NAME,
        value: named.account.as_slice(),
    };
    let status = Attr {
        kind: ACCT_STATUS_TYPE,
        value: status.as_slice(),
    };
    let session = Attr {
        kind: ACCT_SESSION_ID,
        value: named.session.as_slice(),
    };
    match &named.nas {
        NasName::Identifier(identifier) => {
            let nas = Attr {
                kind: NAS_IDENTIFIER,
                value: identifier.as_slice(),
            };
            sealed_with(alloc, &[name, status, session, nas], secret)
        }
        NasName::Address(address) => {
            let nas = Attr {
                kind: address_kind(address.as_slice()),
                value: address.as_slice(),
            };
            sealed_with(alloc, &[name, status, session, nas], secret)
        }
        NasName::Unnamed => sealed_with(alloc, &[name, status, session], secret),
    }
}

/// The Type of the attribute that has an access server's address.
pub(crate) fn address_kind(address: &[u8]) -> u8
    ensures { result ≡ address_kind address.now }
{
    if address.len() == 16 {
        NAS_IPV6_ADDRESS
    } else {
        NAS_IP_ADDRESS
    }
}

/// An Accounting-Request with these attributes, for a server that shares this secret.
#[tactic(auto, unfolding(crate::specs::Stops::request_octets))]
pub(crate) fn sealed_with(
    alloc: Global,
    attributes: &[Attr<'_>],
    secret: &[u8],
) -> Result<Vec<u8>, FreeFault>
    ensures octets { IfOk result (λ octets.
        octets.items ≡ request_octets (map seen attributes.now) secret.now) }
    ensures known { IsErrOf result FreeFault.UnknownAccount → ⊥ }
    ensures client { IsErrOf result FreeFault.UnknownClient → ⊥ }
{
    match build(alloc, ACCOUNTING_REQUEST, IDENTIFIER, &[0; 16], attributes) {
        Ok(octets) => Ok(sealed(octets, &[0; 16], secret)),
        Err(BuildFault::TooLong) => Err(FreeFault::NoSession),
        Err(BuildFault::NoMemory) => Err(FreeFault::NoMemory),
    }
}

/// Whether the datagram of a Stop, from this source, means that Stop to the server.
fn is_meant(
    alloc: Global,
    config: &Config,
    boot: u64,
    source: Source,
    stop: &Stop,
) -> Result<bool, NoMemory>
    ensures { IfOk result (λ is. IsTrue is → MeansStop config.now boot source stop.now) }
{
    match prepare(
        alloc,
        config,
        boot,
        Port::Acct,
        source,
        stop.octets.as_slice(),
    ) {
        Ok(prepared) => Ok(is_that(&prepared.meaning, stop)),
        Err(Dropped::NoMemory) => Err(NoMemory),
        Err(_) => Ok(false),
    }
}

/// Whether a meaning is this Stop.
fn is_that(meaning: &Meaning, stop: &Stop) -> bool
    ensures { IsTrue result → meaning.now
        ≡ meanings.Own stop.now.account (acts.Stop stop.now.nas stop.now.session) }
{
    match meaning {
        Meaning::Own {
            account,
            act: Act::Stop { nas, session },
        } => *account == stop.account && nas.is_same(&stop.nas) && *session == stop.session,
        _ => false,
    }
}
