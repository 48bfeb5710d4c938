ghost use Rattle.std.specs.Prelude.{◌≡◌, IfOk};
ghost use Rattle.rsl_event.specs.declared.meaning.Dropped.TheVariants as Dropped;

use crate::event::Act;
use crate::nas::Nas;
use rsl_wire::{NoMemory, Octets, Packet};
use std::alloc::Global;
use std::fmt;

/// Which of the server's two ports a datagram came to.
#[derive(Clone, Copy)]
pub enum Port {
    /// The authentication port, usually 1812 (RFC 2865 section 3).
    Auth,
    /// The accounting port, usually 1813 (RFC 2866 section 3).
    Acct,
}

/// The note of an accounting packet that concerns no account: of another status, or with an unknown
/// name. A field that the packet lacks is empty.
#[derive(PartialEq, Eq, Drop)]
pub struct Note {
    /// The access server.
    pub nas: Nas,
    /// The Acct-Status-Type.
    pub status: u32,
    /// The first User-Name.
    pub name: Octets,
    /// The first Acct-Session-Id.
    pub session: Octets,
}

impl Note {
    /// An equal note. It fails only if memory is refused.
    pub fn try_copy(&self, alloc: Global) -> Result<Note, NoMemory>
        ensures { IfOk result (λ copy. copy ≡ self.now) }
    {
        Ok(Note {
            nas: self.nas.try_copy(alloc)?,
            status: self.status,
            name: self.name.try_copy(alloc)?,
            session: self.session.try_copy(alloc)?,
        })
    }
}

/// What a datagram means.
#[derive(Drop)]
pub enum Meaning {
    /// A request on the authentication port whose attributes are malformed: it is rejected, and the
    /// reply repeats none of them.
    Bare,
    /// An Access-Request that asks for no account with the right password, nor by a client that vouches for
    /// it, or for a disabled account: it is rejected.
    Reject,
    /// An act of one account: an ask, an alive or a stop.
    Own {
        /// The account's number, in the order of the configuration.
        account: u32,
        /// The act.
        act: Act,
    },
    /// Accounting-On or Accounting-Off: the access server has restarted.
    Restart {
        /// The access server.
        nas: Nas,
        /// How many seconds ago it restarted, by the Acct-Delay-Time if the configuration heeds it,
        /// else 0.
        delay: u64,
    },
    /// Any other accounting packet: it is answered and noted, and changes no count.
    Stray(Note),
}

/// Why a datagram is dropped without an answer: the first cause that applies, in this order.
#[derive(Clone, Copy, Debug, PartialEq, Eq)]
pub enum Dropped {
    /// It has fewer than 20 octets.
    Short,
    /// Its Length is under 20, over 4,096 or over the datagram.
    BadLength,
    /// No client has the source's address.
    UnknownClient,
    /// It is no Access-Request on the authentication port, or no Accounting-Request on the
    /// accounting port.
    WrongCode,
    /// Accounting: the Request Authenticator is wrong (RFC 2866 section 3).
    BadAuthenticator,
    /// Accounting: the attributes are malformed.
    Malformed,
    /// Access-Request: there is a Message-Authenticator, but not exactly one of 16 octets that is
    /// right (RFC 3579 section 3.2).
    BadSignature,
    /// Access-Request of a client that has to sign: the attributes are malformed, or there is no
    /// Message-Authenticator.
    Unsigned,
    /// Access-Request of a client that need not sign, under a guard (`rsl_accounts::UnsignedRule`):
    /// there is a Proxy-State and no Message-Authenticator.
    UnsignedProxy,
    /// The Proxy-State attributes have over 3,900 octets.
    ProxyTooLong,
    /// Accounting: there is no Acct-Status-Type, or the first does not have 4 octets.
    NoStatus,
    /// Accounting, of status Start, Stop or Interim-Update: there is no Acct-Session-Id, or the
    /// first is empty.
    NoSession,
    /// Memory was refused.
    NoMemory,
}

impl Dropped {
    ghost use Rattle.rsl_event.specs.Dropped.{drop_name};

    /// The name of the cause, as `radlimit replay` prints it.
    pub fn name(self) -> &'static str
        ensures { result.now ≡ drop_name self }
    {
        match self {
            Dropped::Short => "Short",
            Dropped::BadLength => "BadLength",
            Dropped::UnknownClient => "UnknownClient",
            Dropped::WrongCode => "WrongCode",
            Dropped::BadAuthenticator => "BadAuthenticator",
            Dropped::Malformed => "Malformed",
            Dropped::BadSignature => "BadSignature",
            Dropped::Unsigned => "Unsigned",
            Dropped::UnsignedProxy => "UnsignedProxy",
            Dropped::ProxyTooLong => "ProxyTooLong",
            Dropped::NoStatus => "NoStatus",
            Dropped::NoSession => "NoSession",
            Dropped::NoMemory => "NoMemory",
        }
    }
}

impl fmt::Display for Dropped {
    ghost use Rattle.std.specs.Prelude.{Some};
    ghost use Rattle.rsl_event.specs.Dropped.{drop_name};

    ghost output = { λ dropped. Some (drop_name dropped) };

    /// Writes the name of the cause.
    fn fmt<W: fmt::Write>(&self, f: &mut fmt::Formatter<W>) -> fmt::Result {
        f.write_str(self.name())
    }
}

impl From<NoMemory> for Dropped {
    ghost from_gives = { λ _ dropped. dropped ≡ Dropped.NoMemory };

    fn from(_refused: NoMemory) -> Dropped {
        Dropped::NoMemory
    }
}

/// A datagram that was understood.
#[derive(Drop)]
pub struct Prepared<'a> {
    /// Its packet.
    pub packet: Packet<'a>,
    /// The number of the client that sent it.
    pub client: u32,
    /// What it means.
    pub meaning: Meaning,
}
