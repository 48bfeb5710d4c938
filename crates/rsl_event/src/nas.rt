ghost use Rattle.std.specs.Prelude.{◌≡◌, ◌↔◌, IsTrue, IfOk, OnErr};

use rsl_wire::{NoMemory, Octets};
use std::alloc::Global;

/// The name that an access server gives itself in a packet. Names of different kinds differ even if
/// their octets are equal.
#[derive(PartialEq, Eq, Drop)]
pub enum NasName {
    /// The value of the first NAS-Identifier (RFC 2865 section 5.32), of any length.
    Identifier(Octets),
    /// The value of the first NAS-IP-Address (RFC 2865 section 5.4), of any length, where there is no
    /// NAS-Identifier; in version 3 of the account file else that of the first NAS-IPv6-Address (RFC 3162
    /// section 2.1).
    Address(Octets),
    /// The packet has none of them.
    Unnamed,
}

impl NasName {
    ghost use Rattle.rsl_event.specs.Copied.{IsNamed};
    ghost use Rattle.rsl_event.specs.Occurrences.{value_of};
    ghost use Rattle.rsl_event.specs.Request.{nas_name_of};
    ghost use Rattle.rsl_event.specs.Same.{same_name};

    /// The name of an access server by the value of its NAS-Identifier, else by that of an address, else none. It
    /// fails only if memory is refused for a copy of the value.
    pub fn of(
        alloc: Global,
        identifier: Option<&[u8]>,
        address: Option<&[u8]>,
    ) -> Result<NasName, NoMemory>
        ensures found { IfOk result (λ name.
            name ≡ nas_name_of (value_of identifier.entry) (value_of address.entry)) }
        ensures refused { OnErr result (IsNamed (nas_name_of
            (value_of identifier.entry) (value_of address.entry))) }
    {
        Ok(match (identifier, address) {
            (Some(identifier), _) => NasName::Identifier(Octets::from_slice(alloc, identifier)?),
            (None, Some(address)) => NasName::Address(Octets::from_slice(alloc, address)?),
            (None, None) => NasName::Unnamed,
        })
    }

    /// Whether the names are equal.
    #[tactic(auto, unfolding(crate::specs::Same::same_name))]
    pub fn is_same(&self, other: &NasName) -> bool
        ensures test { result ≡ same_name self.now other.now }
        ensures equal { IsTrue result ↔ (self.now ≡ other.now) }
    {
        self == other
    }

    /// An equal name. It fails only if memory is refused.
    pub fn try_copy(&self, alloc: Global) -> Result<NasName, NoMemory>
        ensures copy { IfOk result (λ copy. copy ≡ self.now) }
        ensures refused { OnErr result (IsNamed self.now) }
    {
        Ok(match self {
            NasName::Identifier(name) => NasName::Identifier(name.try_copy(alloc)?),
            NasName::Address(address) => NasName::Address(address.try_copy(alloc)?),
            NasName::Unnamed => NasName::Unnamed,
        })
    }
}

/// An access server: the client that sends its packets, and its name.
#[derive(PartialEq, Eq, Drop)]
pub struct Nas {
    /// The client's number, in the order of the configuration.
    pub client: u32,
    /// Its name among those of that client.
    pub name: NasName,
}

impl Nas {
    ghost use Rattle.rsl_event.specs.Copied.{IsNamed};
    ghost use Rattle.rsl_event.specs.Same.{same_nas};

    /// Whether the two are one access server.
    #[tactic(auto, unfolding(crate::specs::Same::same_nas))]
    pub fn is_same(&self, other: &Nas) -> bool
        ensures test { result ≡ same_nas self.now other.now }
        ensures equal { IsTrue result ↔ (self.now ≡ other.now) }
    {
        self.client == other.client && self.name.is_same(&other.name)
    }

    /// An equal access server. It fails only if memory is refused.
    pub fn try_copy(&self, alloc: Global) -> Result<Nas, NoMemory>
        ensures copy { IfOk result (λ copy. copy ≡ self.now) }
        ensures refused { OnErr result (IsNamed self.now.name) }
    {
        Ok(Nas {
            client: self.client,
            name: self.name.try_copy(alloc)?,
        })
    }
}
