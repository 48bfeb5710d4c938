ghost use Rattle.std.specs.Prelude.{◌≡◌, ◌<◌, IfOk, IfSome, length, slice_get, ℕ};
ghost use Rattle.rld_look.specs.Clients.{AreBoth, IsClientLook, counts_or_none};

use crate::look::ClientLook;
use rld_counts::{Cell, Counts};
use rsl_accounts::Config;
use std::alloc::{AllocError, Global};

/// How the datagrams of each client ended at both ports, in file order, from the counts of the
/// receivers of each port. It fails only if memory is refused.
pub fn client_looks(
    alloc: Global,
    config: &Config,
    auth: &Cell,
    acct: &Cell,
) -> Result<Vec<ClientLook>, AllocError>
    ensures len { IfOk result (λ looks. length looks.items ≡ length config.now.clients) }
    ensures each { IfOk result (λ looks. (k : ℕ) → IfSome (slice_get looks.items k)
        (IsClientLook config.now auth.now acct.now k)) }
{
    let mut looks = Vec::new(alloc);
    for client in 0..config.clients() {
        looks.push(client_look(config, auth, acct, client))?;
    }
    Ok(looks)
}

/// How the datagrams of the client with this number ended.
fn client_look(config: &Config, auth: &Cell, acct: &Cell, client: u32) -> ClientLook
    requires { client < length config.now.clients }
    ensures { IsClientLook config.now auth.now acct.now client result }
{
    ClientLook {
        address: config.client_at(client).address,
        counts: both(auth.client(client), acct.client(client)),
    }
}

/// The counts of both ports together. A cell that is not for a client has no counts of it.
fn both(auth: Option<Counts>, acct: Option<Counts>) -> Counts
    ensures { AreBoth auth acct result }
{
    let mut counts = counts_or_none(auth);
    counts.add(&counts_or_none(acct));
    counts
}

/// The counts, if there are any, else those of no datagram.
fn counts_or_none(counts: Option<Counts>) -> Counts
    ensures { result ≡ counts_or_none counts }
{
    match counts {
        Some(counts) => counts,
        None => Counts::new(),
    }
}
