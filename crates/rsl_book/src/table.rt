ghost use Rattle.std.specs.Prelude.{◌≡◌, ◌+◌, ◌<◌, false, length};
ghost use Rattle.rsl_links.specs.Seen.{server_at, links_seen};
ghost use Rattle.rsl_book.specs.Seen.{asks_seen, stops_seen};
ghost use Rattle.rsl_book.specs.Named.{is_named};
ghost use Rattle.rsl_links.specs.Named.{AreIndexed, IsIndex};

use crate::kept::{DecidedAsk, EndedSession};
use crate::ring::Ring;
use rsl_event::Nas;
use rsl_links::{LinkList, Servers};

/// Whether anything names this index of the table.
#[tactic(auto, unfolding(crate::specs::Named::is_named))]
fn is_named(
    links: &LinkList,
    asks: &Ring<DecidedAsk>,
    stops: &Ring<EndedSession>,
    index: usize,
) -> bool
    ensures { result ≡ is_named links.now.items asks.now.items stops.now.items index }
{
    links.names(index) || asks.names(index) || stops.names(index)
}

/// The first index of the table that nothing names.
fn free_index(
    links: &LinkList,
    asks: &Ring<DecidedAsk>,
    stops: &Ring<EndedSession>,
    room: usize,
) -> usize
    requires { length links.now.items + asks.now.capacity + stops.now.capacity < room }
    ensures free { is_named links.now.items asks.now.items stops.now.items result ≡ false }
    ensures within { result < room }
{
    let names = links.len() + asks.len() + stops.len();
    for index in 0..names {
        if !is_named(links, asks, stops, index) {
            return index;
        }
    }
    names
}

/// The index of an access server in the table. A new one gets the first index that nothing names.
pub(crate) fn index_for(
    servers: &mut Servers,
    links: &LinkList,
    asks: &Ring<DecidedAsk>,
    stops: &Ring<EndedSession>,
    nas: Nas,
) -> usize
    requires { length links.now.items + asks.now.capacity + stops.now.capacity
        < length servers.old }
    ensures stands { server_at servers.new result ≡ nas }
    ensures index { IsIndex servers.new result }
    ensures placed { AreIndexed servers.old links.now.items → AreIndexed servers.new links.now.items }
    ensures links { links_seen servers.new links.now.items ≡
        links_seen servers.old links.now.items }
    ensures asks { asks_seen servers.new asks.now.items ≡ asks_seen servers.old asks.now.items }
    ensures stops { stops_seen servers.new stops.now.items ≡
        stops_seen servers.old stops.now.items }
    ensures len { length servers.new ≡ length servers.old }
{
    match servers.find(&nas) {
        Some(index) => index,
        None => {
            let index = free_index(links, asks, stops, servers.len());
            servers.put(index, nas);
            index
        }
    }
}
