//! The access servers that hold links.

ghost use Rattle.std.specs.Prelude.{◌≡◌, ◌<◌, ◌++◌, IfOk, OnOk, length};
ghost use Rattle.rld_look.specs.AccessServers.{AreJoined, AreShown, bound_in, by_server, is_same_server, joined, kind_of_name, nas_word, octets_of_name, reserved_in, server_of, servers_of, with_links, with_server};

use rld_values::{push_escaped, push_hex, push_text};
use rsl_accounts::Config;
use rsl_event::NasName;
use rsl_session::{SavedHolder, SavedLink};
use rsl_wire::NoMemory;
use std::alloc::{AllocError, Global};
use std::cmp::Ordering;

/// The most access servers that are shown.
pub const MOST_SERVERS: usize = 256;

const _: () = prove!(MOST_SERVERS == 256);

/// What an access server holds. Each number is at most 2^64 - 1.
#[derive(Drop)]
pub struct AccessServerLook {
    /// The address of its client.
    pub client: [u8; 4],
    /// Its name among those of that client.
    pub nas: NasName,
    /// The number of its links that are reserved.
    pub reserved: u64,
    /// The number of its links that are bound to sessions.
    pub bound: u64,
    /// The second at which one of them was last touched, since 1970.
    pub last: u64,
}

/// The access servers that hold links.
#[derive(Drop)]
pub struct AccessServersLook {
    /// How many there are.
    pub number: u64,
    /// The first of them, at most `MOST_SERVERS`: by the client's address, then those with a
    /// NAS-Identifier, then those with a NAS-IP-Address, then one without a name, and of one kind by
    /// their octets.
    pub first: Vec<AccessServerLook>,
}

impl AccessServersLook {
    /// What the access servers hold, from what each of their links adds, in any order. It fails only
    /// if memory is refused.
    pub fn of(alloc: Global, servers: Vec<AccessServerLook>) -> Result<AccessServersLook, NoMemory>
        ensures { IfOk result (λ look. AreShown servers.items look) }
    {
        let mut first = join_servers(alloc, servers)?;
        let number = first.len() as u64;
        first.truncate(MOST_SERVERS);
        Ok(AccessServersLook { number, first })
    }
}

/// Adds what each link is of its access server's. A link whose client is not known is skipped. It
/// fails only if memory is refused; some may then have been added.
#[tactic(auto, using(crate::proofs::Showing::look_steps))]
pub fn add_links(
    alloc: Global,
    servers: &mut Vec<AccessServerLook>,
    config: &Config,
    links: &[SavedLink],
) -> Result<(), NoMemory>
    ensures { OnOk result (servers.new.items ≡ servers.old.items ++ servers_of config.now links.now) }
{
    for link in links {
        if let Some(server) = server_of(alloc, config, link)? {
            servers.push(server)?;
        }
    }
    Ok(())
}

/// What a link is of its access server's, if its client is known. It fails only if memory is refused.
fn server_of(
    alloc: Global,
    config: &Config,
    link: &SavedLink,
) -> Result<Option<AccessServerLook>, NoMemory>
    ensures { IfOk result (λ server. server ≡ server_of config.now link.now) }
{
    if link.nas.client >= config.clients() {
        return Ok(None);
    }
    Ok(Some(AccessServerLook {
        client: config.client_at(link.nas.client).address,
        nas: link.nas.name.try_copy(alloc)?,
        reserved: reserved_in(&link.holder),
        bound: bound_in(&link.holder),
        last: link.touched,
    }))
}

/// 1 for a reserved link, else 0.
fn reserved_in(holder: &SavedHolder) -> u64
    ensures { result ≡ reserved_in holder.now }
{
    match holder {
        SavedHolder::Reserved(_) => 1,
        SavedHolder::Bound(_) => 0,
    }
}

/// 1 for a bound link, else 0.
fn bound_in(holder: &SavedHolder) -> u64
    ensures { result ≡ bound_in holder.now }
{
    match holder {
        SavedHolder::Reserved(_) => 0,
        SavedHolder::Bound(_) => 1,
    }
}

/// One row for each access server, in their order, with the sums of what is given of it, and with its
/// last touch. The work is that of a sort. It fails only if memory is refused.
pub fn join_servers(
    alloc: Global,
    mut servers: Vec<AccessServerLook>,
) -> Result<Vec<AccessServerLook>, NoMemory>
    ensures { IfOk result (λ rows. AreJoined servers.items rows.items) }
{
    servers.sort_unstable_by(|one, two| by_server(one, two));
    let rows = joined(alloc, servers)?;
    Ok(rows)
}

/// Which of two access servers comes first.
fn by_server(one: &AccessServerLook, two: &AccessServerLook) -> Ordering
    ensures { result ≡ by_server one.now two.now }
{
    one.client
        .cmp(&two.client)
        .then(kind_of(&one.nas).cmp(&kind_of(&two.nas)))
        .then(octets_of(&one.nas).cmp(octets_of(&two.nas)))
}

/// The place of a kind of names in the order.
fn kind_of(nas: &NasName) -> u8
    ensures { result ≡ kind_of_name nas.now }
{
    match nas {
        NasName::Identifier(_) => 0,
        NasName::Address(_) => 1,
        NasName::Unnamed => 2,
    }
}

/// The octets of a name.
fn octets_of(nas: &NasName) -> &[u8]
    ensures { result.now ≡ octets_of_name nas.now }
{
    match nas {
        NasName::Identifier(name) => name.as_slice(),
        NasName::Address(address) => address.as_slice(),
        NasName::Unnamed => &[],
    }
}

/// A row for each access server, where those of one stand together.
fn joined(alloc: Global, servers: Vec<AccessServerLook>) -> Result<Vec<AccessServerLook>, NoMemory>
    ensures { IfOk result (λ rows. rows.items ≡ joined servers.items) }
{
    let mut rows = Vec::new(alloc);
    for server in servers {
        push_server(&mut rows, server)?;
    }
    Ok(rows)
}

/// Adds an access server to the last row, if it is that one's, else as a row.
fn push_server(rows: &mut Vec<AccessServerLook>, server: AccessServerLook) -> Result<(), AllocError>
    ensures { OnOk result (rows.new.items ≡ with_server rows.old.items server) }
{
    match rows.pop() {
        None => rows.push(server)?,
        Some(last) => {
            if is_same(&last, &server) {
                rows.push(with_links(last, &server))?;
            } else {
                rows.push(last)?;
                rows.push(server)?;
            }
        }
    }
    Ok(())
}

/// Whether the two are of one access server.
fn is_same(one: &AccessServerLook, two: &AccessServerLook) -> bool
    ensures { result ≡ is_same_server one.now two.now }
{
    one.client == two.client && one.nas.is_same(&two.nas)
}

/// What an access server holds, with more of it.
fn with_links(one: AccessServerLook, more: &AccessServerLook) -> AccessServerLook
    ensures { result ≡ with_links one more.now }
{
    let AccessServerLook {
        client,
        nas,
        reserved,
        bound,
        last,
    } = one;
    AccessServerLook {
        client,
        nas,
        reserved: reserved.saturating_add(more.reserved),
        bound: bound.saturating_add(more.bound),
        last: last.max(more.last),
    }
}

/// Writes the name of an access server as the list of the sessions has it: `nas=` and its
/// NAS-Identifier, `nas-address=` and the hexadecimal digits of its NAS-IP-Address, or `unnamed`. It
/// fails only if memory is refused; a part of it may then have been written.
pub fn write_nas_word(out: &mut Vec<u8>, nas: &NasName) -> Result<(), AllocError>
    ensures { OnOk result (out.new.items ≡ out.old.items ++ nas_word nas.now) }
{
    match nas {
        NasName::Identifier(name) => {
            push_text(out, "nas=")?;
            push_escaped(out, name.as_slice())
        }
        NasName::Address(address) => {
            push_text(out, "nas-address=")?;
            push_hex(out, address.as_slice())
        }
        NasName::Unnamed => push_text(out, "unnamed"),
    }
}
