//! The carried links that find a place.

ghost use Rattle.std.specs.Prelude.{◌≡◌, ℕ, ◌+◌, ◌-◌, ◌≤◌, [], ◌∷◌, ◌++◌, count_by, if◌then◌else◌, length, OnOk};
ghost use Rattle.std.specs.Int.{div_ceil};
ghost use Rattle.rsl_accounts.specs.Limits.{RulesFit};
ghost use Rattle.rsl_session.specs.Saved.{saved_link, saved_links};
ghost use Rattle.rsl_session.specs.Book.{bundles_in};
ghost use Rattle.rsl_session.specs.Places.{is_bundle, places_of};
ghost use Rattle.rld_books.specs.Carried.{placed};

use rsl_accounts::Rules;
use rsl_event::Nas;
use rsl_session::SavedLink;
use rsl_wire::{NoMemory, Octets};
use std::alloc::Global;

/// Whether a link is of the bundle of this id at an access server.
#[tactic(auto, unfolding(rsl_session::specs::Saved::saved_link, rsl_session::specs::Same::same_bundle))]
fn is_of_bundle(link: &SavedLink, nas: &Nas, id: &Octets) -> bool
    ensures { result ≡
        is_bundle (record { nas = nas.now; id = id.now }) (saved_link link.now).bundle }
{
    match &link.bundle {
        None => false,
        Some(other) => link.nas.is_same(nas) && *other == *id,
    }
}

/// 1 for a link of the bundle of this id at an access server, else 0.
fn counts(link: &SavedLink, nas: &Nas, id: &Octets) -> usize
    ensures { result ≡ (if is_bundle (record { nas = nas.now; id = id.now })
        (saved_link link.now).bundle then 1 else 0) }
{
    if is_of_bundle(link, nas, id) { 1 } else { 0 }
}

/// The number of links of the bundle of this id at an access server.
fn members(links: &[SavedLink], nas: &Nas, id: &Octets) -> usize
    ensures members { result ≡ count_by (is_bundle (record { nas = nas.now; id = id.now }))
        (bundles_in (saved_links links.now)) }
    ensures few { result ≤ length links.now }
{
    let mut count = 0;
    for link in links {
        count += counts(link, nas, id);
    }
    count
}

/// The places that another link takes in a bundle of `members` links: one or none.
fn share_more(ports: u64, members: u64) -> u64
    requires ports { 1 ≤ ports }
    requires few { members ≤ 9223372036854775807 }
    ensures { result ≡ div_ceil (members + 1) ports - div_ceil members ports }
{
    (members + 1)
        .div_ceil(ports)
        .saturating_sub(members.div_ceil(ports))
}

/// The further places that links take with another one after them.
fn places_more(ports: u64, links: &[SavedLink], link: &SavedLink) -> u64
    requires { 1 ≤ ports }
    ensures { places_of ports
        (bundles_in (saved_links links.now) ++ (saved_link link.now).bundle ∷ []) ≡
        places_of ports (bundles_in (saved_links links.now)) + result }
{
    match &link.bundle {
        None => 1,
        Some(id) => share_more(ports, members(links, &link.nas, id) as u64),
    }
}

/// The links that have found a place.
#[derive(Drop)]
pub(crate) struct Placed {
    /// The links, in the order in which they opened.
    pub(crate) links: Vec<SavedLink>,
    /// The places that they take.
    pub(crate) places: u64,
}

impl Placed {
    /// No link.
    pub(crate) fn new(alloc: Global) -> Placed
        ensures links { result.links.items ≡ [] }
        ensures places { (ports : ℕ) → result.places ≡ places_of ports (bundles_in (saved_links [])) }
    {
        Placed {
            links: Vec::new(alloc),
            places: 0,
        }
    }

    /// Adds a link if it finds a place under these rules.
    pub(crate) fn put(&mut self, rules: &Rules, link: SavedLink) -> Result<(), NoMemory>
        requires rules { RulesFit rules.now }
        requires counted { self.old.places ≡
            places_of rules.now.ports (bundles_in (saved_links self.old.links.items)) }
        requires limit { self.old.places ≤ rules.now.places }
        ensures links { OnOk result (saved_links self.new.links.items ≡
            placed rules.now (saved_links self.old.links.items) (saved_link link ∷ [])) }
        ensures counted { OnOk result (self.new.places ≡
            places_of rules.now.ports (bundles_in (saved_links self.new.links.items))) }
        ensures limit { OnOk result (self.new.places ≤ rules.now.places) }
    {
        let more = places_more(rules.ports, self.links.as_slice(), &link);
        let places = self.places.saturating_add(more);
        if rules.places < places {
            return Ok(());
        }
        self.links.push(link)?;
        self.places = places;
        Ok(())
    }
}
