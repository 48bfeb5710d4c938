ghost use Rattle.std.specs.Prelude.{◌≡◌, [], IfOk};
ghost use Rattle.rsl_event.specs.Occurrences.{value_of};
ghost use Rattle.rsl_event.specs.Station.{if_station};
ghost use Rattle.rld_look.specs.Refusal.{address_in, is_refusal, refusal_of, refusal_with};

use rld_counts::{Fate, Kind};
use rsl_event::codes::{
    CALLING_STATION_ID, MAX_STATION_LEN, NAS_IDENTIFIER, NAS_IP_ADDRESS, NAS_IPV6_ADDRESS,
    USER_NAME,
};
use rsl_event::{NasName, Source};
use rsl_wire::{Attrs, NoMemory, Octets, read};
use std::alloc::Global;
use std::net::IpAddr;

/// A datagram that has ended, as a receiver sees it, or the request of an ask.
#[derive(Clone, Copy)]
pub struct Refused<'a> {
    /// When it ended, in seconds since 1970.
    pub moment: u64,
    /// The source as which it was seen: the address of the client that the peer stands for, and the port.
    pub source: Source,
    /// The address of the peer that it came from.
    pub peer: IpAddr,
    /// The number of the client that the peer stands for, if there is one.
    pub client: Option<u32>,
    /// Its octets, or none if they are not available.
    pub octets: &'a [u8],
    /// How it ended.
    pub fate: Fate,
}

/// What an operator learns of a refused datagram.
#[derive(Drop)]
pub struct Refusal {
    /// When it ended, in seconds since 1970.
    pub moment: u64,
    /// The source as which it was seen: the address of the client that the peer stands for, and the port.
    pub source: Source,
    /// The address of the peer that it came from.
    pub peer: IpAddr,
    /// The number of the client that the peer stands for, if there is one.
    pub client: Option<u32>,
    /// The name of the access server: its NAS-Identifier, else its NAS-IP-Address, else its NAS-IPv6-Address, which
    /// is told whether or not its version of the account file knows it. It is also unnamed if the datagram's
    /// attributes cannot be read.
    pub nas: NasName,
    /// The first User-Name (RFC 2865 section 5.1), if the datagram's attributes can be read and
    /// there is one.
    pub name: Option<Octets>,
    /// The device that it names: the first Calling-Station-Id (RFC 2865 section 5.31), if the
    /// datagram's attributes can be read and that has 1 to 64 octets. It is told whether or not the
    /// account counts by stations.
    pub station: Option<Octets>,
    /// How it ended.
    pub fate: Fate,
}

impl Refusal {
    /// The refusal of this datagram. It fails only if memory is refused.
    pub fn of(alloc: Global, refused: &Refused<'_>) -> Result<Refusal, NoMemory>
        ensures { IfOk result (λ refusal. refusal ≡ refusal_of refused.now) }
    {
        let Ok(packet) = read(refused.octets) else {
            return Ok(bare(refused));
        };
        let Ok(attributes) = packet.attributes() else {
            return Ok(bare(refused));
        };
        named(alloc, refused, &attributes)
    }

    /// An equal refusal. It fails only if memory is refused.
    pub fn try_copy(&self, alloc: Global) -> Result<Refusal, NoMemory>
        ensures { IfOk result (λ copy. copy ≡ self.now) }
    {
        Ok(Refusal {
            moment: self.moment,
            source: self.source,
            peer: self.peer,
            client: self.client,
            nas: self.nas.try_copy(alloc)?,
            name: Octets::try_copy_option(alloc, &self.name)?,
            station: Octets::try_copy_option(alloc, &self.station)?,
            fate: self.fate,
        })
    }
}

/// Whether a datagram that ended so was refused: on the authentication port it got no accept, or on
/// the accounting port no answer, or one that says nothing, since no account has its User-Name.
pub fn is_refusal(fate: Fate) -> bool
    ensures { result ≡ is_refusal fate }
{
    match fate.cause.kind() {
        Kind::Accepted | Kind::Accounted => false,
        Kind::LimitRejected | Kind::Rejected | Kind::NoAccount | Kind::Dropped | Kind::Failed =>
            true,
    }
}

/// The refusal of a datagram whose attributes cannot be read.
fn bare(refused: &Refused<'_>) -> Refusal
    ensures { result ≡ refusal_with refused.now [] }
{
    Refusal {
        moment: refused.moment,
        source: refused.source,
        peer: refused.peer,
        client: refused.client,
        nas: NasName::Unnamed,
        name: None,
        station: None,
        fate: refused.fate,
    }
}

/// The refusal of a datagram that has these attributes.
fn named(alloc: Global, refused: &Refused<'_>, attributes: &Attrs<'_>) -> Result<Refusal, NoMemory>
    ensures { IfOk result (λ refusal. refusal ≡ refusal_with refused.now attributes.now) }
{
    Ok(Refusal {
        moment: refused.moment,
        source: refused.source,
        peer: refused.peer,
        client: refused.client,
        nas: NasName::of(alloc, attributes.first(NAS_IDENTIFIER), address(attributes))?,
        name: copied(alloc, attributes.first(USER_NAME))?,
        station: station(alloc, attributes.first(CALLING_STATION_ID))?,
        fate: refused.fate,
    })
}

/// The address of an access server: its NAS-IP-Address (RFC 2865 section 5.4), else its NAS-IPv6-Address (RFC 3162
/// section 2.1), else none.
fn address<'a>(attributes: &Attrs<'a>) -> Option<&'a [u8]>
    ensures { value_of result ≡ address_in attributes.now }
{
    match attributes.first(NAS_IP_ADDRESS) {
        Some(address) => Some(address),
        None => attributes.first(NAS_IPV6_ADDRESS),
    }
}

/// The device that a Calling-Station-Id names: its octets, if it has 1 to 64.
fn station(alloc: Global, value: Option<&[u8]>) -> Result<Option<Octets>, NoMemory>
    ensures { IfOk result (λ station. station ≡ if_station (value_of value.entry)) }
{
    match value {
        Some(value) if !value.is_empty() && value.len() <= MAX_STATION_LEN => {
            Ok(Some(Octets::from_slice(alloc, value)?))
        }
        _ => Ok(None),
    }
}

/// A copy of the octets, if there are any.
fn copied(alloc: Global, octets: Option<&[u8]>) -> Result<Option<Octets>, NoMemory>
    ensures { IfOk result (λ copy. copy ≡ value_of octets.entry) }
{
    match octets {
        Some(octets) => Ok(Some(Octets::from_slice(alloc, octets)?)),
        None => Ok(None),
    }
}
