//! What an accept of an account has.
ghost use Rattle.std.specs.Prelude.{◌≡◌, ◌<◌, IfOk, IfSome, length, option_map};
ghost use Rattle.rsl_accounts.specs.Configuration.{account_number};
ghost use Rattle.rsl_wire.specs.Seen.{fields_of};
ghost use Rattle.rld_attributes.specs.Accept.{accept_listed, accept_of, bare_request};
ghost use Rattle.rld_attributes.specs.Listed.{attributes_of, listed};

use crate::listed::reply_listed;
use rsl_accounts::Config;
use rsl_event::{Decision, MeaningKind, reply_to};
use rsl_reply::Dictionary;
use rsl_wire::{Draft, NoMemory, Packet, read};
use std::alloc::{AllocError, Global};

/// The octets of an Access-Request without attributes (RFC 2865 section 4.1).
const BARE_REQUEST: [u8; 20] = [1, 0, 0, 20, 0, 0, 0, 0, 0, 0, 0, 0, 0, 0, 0, 0, 0, 0, 0, 0];

/// What an accept of the account with this name has, as `reply_listed` has it of a reply: what the server
/// sets, and then the account's own. None: no account has the name. It fails only where memory is refused.
pub fn accept_listed(
    alloc: Global,
    names: &Dictionary,
    config: &Config,
    name: &[u8],
) -> Result<Option<Vec<u8>>, AllocError>
    ensures { IfOk result (λ text. option_map (λ v. v.items) text ≡
        accept_listed names.now config.now (account_number config.now name.now)) }
{
    match account_named(config, name) {
        Some(account) => Ok(Some(listed_of(alloc, names, config, account)?)),
        None => Ok(None),
    }
}

/// The number of the account with this name.
#[tactic(auto, using(crate::proofs::Named::named_within))]
fn account_named(config: &Config, name: &[u8]) -> Option<u32>
    ensures number { result ≡ account_number config.now name.now }
    ensures within { IfSome result (λ account. account < length config.now.accounts) }
{
    config.account(name)
}

/// What an accept of this account has.
fn listed_of(
    alloc: Global,
    names: &Dictionary,
    config: &Config,
    account: u32,
) -> Result<Vec<u8>, AllocError>
    requires { account < length config.now.accounts }
    ensures { IfOk result (λ text. text.items ≡
        listed names.now (attributes_of (accept_of config.now account))) }
{
    match accept_of(alloc, config, account) {
        Ok(reply) => reply_listed(alloc, names, reply.as_slice()),
        Err(NoMemory) => Err(AllocError),
    }
}

/// The octets of an accept of this account.
#[tactic(auto, unfolding(crate::specs::Accept::accept_of))]
fn accept_of(alloc: Global, config: &Config, account: u32) -> Result<Vec<u8>, NoMemory>
    requires { account < length config.now.accounts }
    ensures { IfOk result (λ octets. octets.items ≡ accept_of config.now account) }
{
    let request = bare_request();
    let draft = Draft::new(alloc, request.id)?;
    let _clients = config.clients();
    let kind = MeaningKind::Ask(account);
    Ok(reply_to(&request, 0, kind, config, 0, Decision::Accept(0), draft))
}

/// An Access-Request without attributes.
fn bare_request() -> Packet<'static>
    ensures { fields_of result ≡ bare_request }
{
    match read(&BARE_REQUEST) {
        Ok(packet) => packet,
        Err(_) => unreachable!(),
    }
}
