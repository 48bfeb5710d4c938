//! Whether two books hold the same, though each names its access servers by indexes of its own
//! table.

ghost use Rattle.std.specs.Prelude.{◌≡◌, ◌↔◌, IsTrue};
ghost use Rattle.rsl_links.specs.Seen.{links_seen};

use rsl_links::{LinkList, Servers};

/// Whether two books have equal links in the same order.
#[tactic(auto, using(rsl_links::proofs::Callers::same_steps), unfolding(rsl_links::specs::Seen::links_seen))]
pub(crate) fn has_same_links(
    links: &LinkList,
    servers: &Servers,
    other_links: &LinkList,
    other_servers: &Servers,
) -> bool
    ensures { IsTrue result ↔ (links_seen servers.now links.now.items ≡
        links_seen other_servers.now other_links.now.items) }
{
    if links.len() != other_links.len() {
        return false;
    }
    for at in 0..links.len() {
        if !links
            .index(at)
            .is_same(servers, other_links.index(at), other_servers)
        {
            return false;
        }
    }
    true
}
