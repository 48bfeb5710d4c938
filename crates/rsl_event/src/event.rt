ghost use Rattle.std.specs.Prelude.{◌≡◌, ◌↔◌, IsTrue, IfOk, OnErr};

use crate::nas::Nas;
use rsl_wire::{NoMemory, Octets};
use std::alloc::Global;

/// Where a datagram came from: an IPv4 address and a UDP port.
#[derive(Clone, Copy, PartialEq, Eq)]
pub struct Source {
    /// The IPv4 address, first octet first.
    pub address: [u8; 4],
    /// The UDP port.
    pub port: u16,
}

/// The identity of an Access-Request. A retransmission has the same key (RFC 2865 section 2.5).
#[derive(Clone, Copy, PartialEq, Eq)]
pub struct Key {
    /// The source of the request.
    pub source: Source,
    /// The Identifier.
    pub id: u8,
    /// The Request Authenticator.
    pub authenticator: [u8; 16],
}

impl Key {
    ghost use Rattle.rsl_event.specs.Same.{same_key};

    /// Whether the two are the same key.
    #[tactic(auto, unfolding(crate::specs::Same::same_key))]
    pub fn is_same(&self, other: &Key) -> bool
        ensures test { result ≡ same_key self.now other.now }
        ensures equal { IsTrue result ↔ (self.now ≡ other.now) }
    {
        self == other
    }
}

/// What happens to an account.
#[derive(PartialEq, Eq, Drop)]
pub enum Act {
    /// An Access-Request whose password is right, or for which a trusted client vouches.
    Ask {
        /// The key of the request.
        key: Key,
        /// The access server that asks.
        nas: Nas,
        /// The station that asks, if the request names one and the account counts by it.
        station: Option<Octets>,
    },
    /// An Accounting-Request of status Start or Interim-Update: the session goes on.
    Alive {
        /// The access server that the session is at.
        nas: Nas,
        /// The Acct-Session-Id.
        session: Octets,
        /// The Acct-Multi-Session-Id, which the links of a multilink bundle share, if there is one.
        bundle: Option<Octets>,
        /// The accept number of this server's Class attribute, if there is one.
        class: Option<u64>,
        /// The station that the session is of, if the packet names one and the account counts by
        /// it.
        station: Option<Octets>,
    },
    /// An Accounting-Request of status Stop: the session has ended.
    Stop {
        /// The access server that the session was at.
        nas: Nas,
        /// The Acct-Session-Id.
        session: Octets,
    },
    /// The access server has restarted: each session at it that began before has ended.
    Sweep {
        /// The access server.
        nas: Nas,
        /// How many seconds ago it restarted.
        delay: u64,
    },
    /// Time has passed.
    Tick,
}

impl Act {
    ghost use Rattle.rsl_event.specs.Copied.{ActHoldsOctets};

    /// An equal act. It fails only if memory is refused.
    pub fn try_copy(&self, alloc: Global) -> Result<Act, NoMemory>
        ensures copy { IfOk result (λ copy. copy ≡ self.now) }
        ensures refused { OnErr result (ActHoldsOctets self.now) }
    {
        Ok(match self {
            Act::Ask { key, nas, station } => Act::Ask {
                key: *key,
                nas: nas.try_copy(alloc)?,
                station: Octets::try_copy_option(alloc, station)?,
            },
            Act::Alive {
                nas,
                session,
                bundle,
                class,
                station,
            } => copy_alive(alloc, nas, session, bundle, *class, station)?,
            Act::Stop { nas, session } => Act::Stop {
                nas: nas.try_copy(alloc)?,
                session: session.try_copy(alloc)?,
            },
            Act::Sweep { nas, delay } => Act::Sweep {
                nas: nas.try_copy(alloc)?,
                delay: *delay,
            },
            Act::Tick => Act::Tick,
        })
    }
}

/// An alive with equal fields. It fails only if memory is refused.
fn copy_alive(
    alloc: Global,
    nas: &Nas,
    session: &Octets,
    bundle: &Option<Octets>,
    class: Option<u64>,
    station: &Option<Octets>,
) -> Result<Act, NoMemory>
    ensures { IfOk result (λ copy.
        copy ≡ Act.Alive nas.now session.now bundle.now class station.now) }
{
    Ok(Act::Alive {
        nas: nas.try_copy(alloc)?,
        session: session.try_copy(alloc)?,
        bundle: Octets::try_copy_option(alloc, bundle)?,
        class,
        station: Octets::try_copy_option(alloc, station)?,
    })
}

/// An act, and the moment when it happened.
#[derive(PartialEq, Eq, Drop)]
pub struct Event {
    /// The moment in seconds, by the caller's clock. A later event may have a lower moment.
    pub moment: u64,
    /// The act.
    pub act: Act,
}

impl Event {
    ghost use Rattle.rsl_event.specs.Copied.{ActHoldsOctets};

    /// An equal event. It fails only if memory is refused.
    pub fn try_copy(&self, alloc: Global) -> Result<Event, NoMemory>
        ensures copy { IfOk result (λ copy. copy ≡ self.now) }
        ensures refused { OnErr result (ActHoldsOctets self.now.act) }
    {
        Ok(Event {
            moment: self.moment,
            act: self.act.try_copy(alloc)?,
        })
    }
}

/// What the session rule decides on an event.
#[derive(Clone, Copy, Debug, PartialEq, Eq)]
pub enum Decision {
    /// The ask is accepted, with this accept number.
    Accept(u64),
    /// The ask is rejected, because the account has no free place.
    LimitReject,
    /// The event is no ask; there is nothing to decide.
    Done,
}
