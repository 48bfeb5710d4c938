ghost use Rattle.std.specs.Prelude.{◌≡◌, ◌≤◌, IfOk, OnErr, is_none, nat_lt};
ghost use Rattle.rsl_wire.specs.Attributes.{first_of};
ghost use Rattle.rsl_event.specs.Access.{asks_once, has_one_password, is_vouched};
ghost use Rattle.rsl_event.specs.Cause.{count_cause};
ghost use Rattle.rsl_event.specs.Copied.{IsNamed};
ghost use Rattle.rsl_event.specs.Occurrences.{AreOf, value_of};
ghost use Rattle.rsl_event.specs.Request.{access_server_of, nas_address, proxy_len};
ghost use Rattle.rsl_event.specs.declared.codes.TheConstants.{
  USER_NAME,
  USER_PASSWORD,
  CHAP_PASSWORD,
  CHAP_CHALLENGE,
  NAS_IDENTIFIER,
  NAS_IP_ADDRESS,
  NAS_IPV6_ADDRESS,
  PROXY_STATE,
  MESSAGE_AUTHENTICATOR,
};

use crate::codes::{
    CHAP_CHALLENGE, CHAP_PASSWORD, MESSAGE_AUTHENTICATOR, NAS_IDENTIFIER, NAS_IP_ADDRESS,
    NAS_IPV6_ADDRESS, PROXY_STATE, USER_NAME, USER_PASSWORD,
};
use crate::credential::has_unchecked_credential;
use crate::detail::RejectCause;
use crate::nas::Nas;
use crate::occurrences::Occurrences;
use crate::request::{access_server, has_long_proxy_states, nas_address};
use rsl_accounts::{Client, Config};
use rsl_wire::{Attrs, NoMemory};
use std::alloc::Global;

/// The attributes of an Access-Request, and those that decide its meaning, found in one walk.
#[derive(Drop)]
pub(crate) struct AccessAttributes<'a> {
    /// All attributes.
    pub all: Attrs<'a>,
    /// The User-Names.
    pub names: Occurrences<'a>,
    /// The User-Passwords.
    pub user_passwords: Occurrences<'a>,
    /// The CHAP-Passwords.
    pub chap_passwords: Occurrences<'a>,
    /// The CHAP-Challenges.
    pub challenges: Occurrences<'a>,
    /// The NAS-Identifiers.
    pub identifiers: Occurrences<'a>,
    /// The NAS-IP-Addresses.
    pub addresses: Occurrences<'a>,
    /// The Proxy-States.
    pub proxy_states: Occurrences<'a>,
    /// The Message-Authenticators.
    pub signatures: Occurrences<'a>,
    ghost names_are: { AreOf USER_NAME all names },
    ghost user_passwords_are: { AreOf USER_PASSWORD all user_passwords },
    ghost chap_passwords_are: { AreOf CHAP_PASSWORD all chap_passwords },
    ghost challenges_are: { AreOf CHAP_CHALLENGE all challenges },
    ghost identifiers_are: { AreOf NAS_IDENTIFIER all identifiers },
    ghost addresses_are: { AreOf NAS_IP_ADDRESS all addresses },
    ghost proxy_states_are: { AreOf PROXY_STATE all proxy_states },
    ghost signatures_are: { AreOf MESSAGE_AUTHENTICATOR all signatures },
}

impl<'a> AccessAttributes<'a> {
    /// Walks over the attributes.
    pub(crate) fn of(all: Attrs<'a>) -> AccessAttributes<'a>
        ensures { result.all ≡ all.entry }
    {
        let mut names = Occurrences::new();
        let mut user_passwords = Occurrences::new();
        let mut chap_passwords = Occurrences::new();
        let mut challenges = Occurrences::new();
        let mut identifiers = Occurrences::new();
        let mut addresses = Occurrences::new();
        let mut proxy_states = Occurrences::new();
        let mut signatures = Occurrences::new();
        for (kind, value) in all.iter() {
            match kind {
                USER_NAME => names.push(value),
                USER_PASSWORD => user_passwords.push(value),
                CHAP_PASSWORD => chap_passwords.push(value),
                CHAP_CHALLENGE => challenges.push(value),
                NAS_IDENTIFIER => identifiers.push(value),
                NAS_IP_ADDRESS => addresses.push(value),
                PROXY_STATE => proxy_states.push(value),
                MESSAGE_AUTHENTICATOR => signatures.push(value),
                _ => (),
            }
        }
        AccessAttributes {
            all,
            names,
            user_passwords,
            chap_passwords,
            challenges,
            identifiers,
            addresses,
            proxy_states,
            signatures,
        }
    }

    /// The first of the attributes of an ask that does not stand there as often as it has to: exactly one
    /// User-Name, no unchecked credential of a trusted client, exactly one password, of either kind, unless the
    /// client vouches, and at most one CHAP-Challenge.
    pub(crate) fn count_cause(&self, client: &Client) -> Option<RejectCause>
        ensures cause { result ≡ count_cause client.now.trusted self.now.all }
        ensures once { is_none result ≡ asks_once client.now.trusted self.now.all }
    {
        if self.names.count != 1 {
            return Some(RejectCause::NotOneName);
        }
        if client.trusted && has_unchecked_credential(&self.all) {
            return Some(RejectCause::UncheckedCredential);
        }
        if !self.has_one_password() && !self.is_vouched(client) {
            return Some(RejectCause::NotOnePassword);
        }
        if self.challenges.count > 1 {
            return Some(RejectCause::SeveralChallenges);
        }
        None
    }

    /// Whether there is exactly one password, of either kind.
    fn has_one_password(&self) -> bool
        ensures { result ≡ has_one_password self.now.all }
    {
        let passwords = (self.user_passwords.count, self.chap_passwords.count);
        matches!(passwords, (1, 0) | (0, 1))
    }

    /// Whether the client vouches for the request: it is trusted, and there is no password of either kind.
    pub(crate) fn is_vouched(&self, client: &Client) -> bool
        ensures { result ≡ is_vouched client.now.trusted self.now.all }
    {
        client.trusted && self.user_passwords.count == 0 && self.chap_passwords.count == 0
    }

    /// The access server of the request, of this client.
    pub(crate) fn access_server(
        &self,
        alloc: Global,
        config: &Config,
        client: u32,
    ) -> Result<Nas, NoMemory>
        ensures found { IfOk result (λ nas.
            nas ≡ access_server_of config.now client self.now.all) }
        ensures refused { OnErr result
            (IsNamed (access_server_of config.now client self.now.all).name) }
    {
        match self.identifiers.first {
            Some(identifier) => access_server(alloc, client, Some(identifier), None),
            None => access_server(alloc, client, None, self.nas_address(config)),
        }
    }

    /// The address by which the access server calls itself.
    fn nas_address(&self, config: &Config) -> Option<&'a [u8]>
        ensures { value_of result ≡ nas_address config.now.settings.version
            (first_of NAS_IP_ADDRESS self.now.all) (first_of NAS_IPV6_ADDRESS self.now.all) }
    {
        match self.addresses.first {
            Some(address) => Some(address),
            None => nas_address(config, None, self.all.first(NAS_IPV6_ADDRESS)),
        }
    }

    /// Whether the Proxy-State attributes have over `most` octets, with their headers.
    #[tactic(auto, using(crate::proofs::OccurrenceLaws::none_to_repeat))]
    pub(crate) fn has_long_proxy_states(&self, most: usize) -> bool
        requires { most ≤ 3900 }
        ensures { result ≡ nat_lt most (proxy_len self.now.all) }
    {
        self.proxy_states.count > 0 && has_long_proxy_states(&self.all, most)
    }
}
