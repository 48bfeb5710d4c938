ghost use Rattle.std.specs.Prelude.{◌≡◌, ◌<◌, ◌≤◌, IfOk, IfSome, OnErr, length, nat_lt, option_and_then};
ghost use Rattle.rsl_accounts.specs.Configuration.{account_number};
ghost use Rattle.rsl_wire.specs.Attributes.{first_of};
ghost use Rattle.rsl_event.specs.Copied.{IsNamed};
ghost use Rattle.rsl_event.specs.Occurrences.{value_of};
ghost use Rattle.rsl_event.specs.Request.{access_server_of, nas_address, nas_name_of, most_proxy_len, proxy_len, text_of};

use crate::codes::{
    GUARDED_PROXY_STATE_LEN, MAX_PROXY_STATE_LEN, NAS_IDENTIFIER, NAS_IP_ADDRESS, NAS_IPV6_ADDRESS,
    PROXY_STATE,
};
use crate::nas::{Nas, NasName};
use rsl_accounts::{Config, UnsignedRule};
use rsl_wire::{ATTR_HEADER_LEN, Attrs, NoMemory};
use std::alloc::Global;

/// The access server of a packet of this client: its first NAS-Identifier, else its first address, else
/// unnamed.
pub(crate) fn access_server_of(
    alloc: Global,
    config: &Config,
    client: u32,
    attributes: &Attrs<'_>,
) -> Result<Nas, NoMemory>
    ensures found { IfOk result (λ nas.
        nas ≡ access_server_of config.now client attributes.now) }
    ensures refused { OnErr result (IsNamed (access_server_of config.now client attributes.now).name) }
{
    match attributes.first(NAS_IDENTIFIER) {
        Some(identifier) => access_server(alloc, client, Some(identifier), None),
        None => access_server(alloc, client, None, nas_address_in(config, attributes)),
    }
}

/// The address by which the access server of a packet calls itself.
fn nas_address_in<'a>(config: &Config, attributes: &Attrs<'a>) -> Option<&'a [u8]>
    ensures { value_of result ≡ nas_address config.now.settings.version
        (first_of NAS_IP_ADDRESS attributes.now) (first_of NAS_IPV6_ADDRESS attributes.now) }
{
    match attributes.first(NAS_IP_ADDRESS) {
        Some(address) => Some(address),
        None => nas_address(config, None, attributes.first(NAS_IPV6_ADDRESS)),
    }
}

/// The address by which an access server calls itself: its NAS-IP-Address, else its NAS-IPv6-Address, which
/// only version 3 of the account file knows.
pub(crate) fn nas_address<'a>(
    config: &Config,
    ipv4: Option<&'a [u8]>,
    ipv6: Option<&'a [u8]>,
) -> Option<&'a [u8]>
    ensures { value_of result ≡
        nas_address config.now.settings.version (value_of ipv4.entry) (value_of ipv6.entry) }
{
    match ipv4 {
        Some(address) => Some(address),
        None if config.knows_ipv6() => ipv6,
        None => None,
    }
}

/// The access server of a client by a NAS-Identifier, else by an address, else unnamed.
pub(crate) fn access_server(
    alloc: Global,
    client: u32,
    identifier: Option<&[u8]>,
    address: Option<&[u8]>,
) -> Result<Nas, NoMemory>
    ensures found { IfOk result (λ nas. nas ≡ record {
      client = client;
      name = nas_name_of (value_of identifier.entry) (value_of address.entry);
    }) }
    ensures refused { OnErr result (IsNamed (nas_name_of
        (value_of identifier.entry) (value_of address.entry))) }
{
    Ok(Nas {
        client,
        name: NasName::of(alloc, identifier, address)?,
    })
}

/// The number of the account with this User-Name, if there is one.
pub(crate) fn account_named(config: &Config, name: Option<&[u8]>) -> Option<u32>
    ensures number { result ≡
        option_and_then (λ found. account_number config.now found) (value_of name.entry) }
    ensures within { IfSome result (λ account. account < length config.now.accounts) }
{
    match name {
        Some(name) => config.account(name),
        None => None,
    }
}

/// The first value of a Type, or no octets.
pub(crate) fn text_of<'a>(attributes: &Attrs<'a>, kind: u8) -> &'a [u8]
    ensures { result.now ≡ text_of kind attributes.now }
{
    attributes.first(kind).unwrap_or(&[])
}

/// The most octets of Proxy-State attributes that a request may have, with their headers.
pub(crate) fn most_proxy_len(rule: UnsignedRule) -> usize
    ensures value { result ≡ most_proxy_len rule }
    ensures limit { result ≤ 3900 }
{
    match rule {
        UnsignedRule::Trusted => MAX_PROXY_STATE_LEN,
        UnsignedRule::Guarded => GUARDED_PROXY_STATE_LEN,
    }
}

/// Whether the Proxy-State attributes have over `most` octets, with their headers.
pub(crate) fn has_long_proxy_states(attributes: &Attrs<'_>, most: usize) -> bool
    requires { most ≤ 3900 }
    ensures { result ≡ nat_lt most (proxy_len attributes.now) }
{
    let mut len = 0usize;
    for (kind, value) in attributes.iter() {
        if kind == PROXY_STATE {
            len += ATTR_HEADER_LEN + value.len();
            if len > most {
                return true;
            }
        }
    }
    false
}
