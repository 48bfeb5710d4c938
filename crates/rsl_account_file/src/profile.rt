ghost use Rattle.std.specs.Prelude.{◌≡◌, IfOk};
ghost use Rattle.rsl_account_file.specs.Common.{octets_of};

use crate::replies::octets_of;
use rsl_accounts::{SharedOctets, Text};
use rsl_reply::{Dictionary, ReplyAttribute};
use rsl_wire::NoMemory;
use std::alloc::Global;
use std::marker::Model;

/// A profile: what the accepts of its accounts have. A contract sees its name and the attributes of its list.
#[derive(Drop)]
pub(crate) struct Profile {
    name: Text,
    attributes: Vec<ReplyAttribute>,
    /// The octets of the attributes, which the accounts share that replace none.
    octets: SharedOctets,
}

impl Model for Profile {
    ghost use Rattle.std.specs.Prelude.{◌≡◌};
    ghost use Rattle.rsl_account_file.specs.Common.{ProfileSeen, octets_of};

    ghost Value = { ProfileSeen };

    ghost view = { λ it. record { name = it.name; attributes = it.attributes.items } };

    ghost invariant = { λ it. it.octets ≡ octets_of it.attributes.items };
}

impl Profile {
    /// The profile of this name with these attributes. It fails only where memory is refused.
    pub(crate) fn new(
        alloc: Global,
        name: &str,
        attributes: Vec<ReplyAttribute>,
    ) -> Result<Profile, NoMemory>
        ensures { IfOk result (λ profile. profile ≡
            record { name = name.now; attributes = attributes.items }) }
    {
        let octets = octets_of(alloc, attributes.as_slice())?;
        Ok(Profile {
            name: Text::from_str(alloc, name)?,
            octets: SharedOctets::new(alloc, octets)?,
            attributes,
        })
    }

    /// Its name in the file.
    pub(crate) fn name(&self) -> &str
        ensures { result.now ≡ self.now.name }
    {
        self.name.as_str()
    }

    /// Its attributes.
    pub(crate) fn attributes(&self) -> &[ReplyAttribute]
        ensures { result.now ≡ self.now.attributes }
    {
        self.attributes.as_slice()
    }

    /// The octets of its attributes, which take no memory. It fails only where there are too many owners.
    pub(crate) fn share(&self) -> Result<SharedOctets, NoMemory>
        ensures { IfOk result (λ shared. shared ≡ octets_of self.now.attributes) }
    {
        self.octets.share()
    }
}

/// What the head of a file has for its accounts.
#[derive(Drop)]
pub(crate) struct Shared<'a> {
    names: &'a Dictionary,
    port_limit: bool,
    profiles: Vec<Profile>,
}

impl<'a> Model for Shared<'a> {
    ghost use Rattle.rsl_account_file.specs.Common.{Common};

    ghost Value = { Common };

    ghost view = { λ shared. record {
      names = shared.names.now;
      port_limit = shared.port_limit;
      profiles = shared.profiles.items;
    } };
}

impl<'a> Shared<'a> {
    /// The names that attributes have, whether accepts have a Port-Limit, and these profiles.
    pub(crate) fn new(names: &'a Dictionary, port_limit: bool, profiles: Vec<Profile>) -> Shared<'a>
        ensures { result ≡
            record { names = names.now; port_limit = port_limit; profiles = profiles.items } }
    {
        Shared {
            names,
            port_limit,
            profiles,
        }
    }

    /// The names that attributes have.
    pub(crate) fn names(&self) -> &'a Dictionary
        ensures { result.now ≡ self.now.names }
    {
        self.names
    }

    /// Whether accepts have a Port-Limit, where the account does not say so.
    pub(crate) fn port_limit(&self) -> bool
        ensures { result ≡ self.now.port_limit }
    {
        self.port_limit
    }

    /// The profiles.
    pub(crate) fn profiles(&self) -> &[Profile]
        ensures { result.now ≡ self.now.profiles }
    {
        self.profiles.as_slice()
    }
}
