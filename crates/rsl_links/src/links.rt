ghost use Rattle.std.specs.Prelude.{◌≡◌, ℕ, IfOk, ◌+◌, ◌-◌, ◌<◌, ◌≤◌, [], ◌∷◌, ◌++◌, Option, Some};
ghost use Rattle.std.specs.Prelude.{List, None, filter, not, find, count_by, take};
ghost use Rattle.std.specs.Prelude.{drop, length, if◌then◌else◌, IfSome, IfNone};
ghost use Rattle.std.specs.Int.{div_ceil};
ghost use Rattle.rsl_accounts.specs.Limits.{RulesFit};
ghost use Rattle.rsl_session.specs.Places.{places_of};
ghost use Rattle.rsl_session.specs.Book.{BookLink, bundles_in, is_live_at, is_reservation};
ghost use Rattle.rsl_session.specs.Book.{is_stale_at};
ghost use Rattle.rsl_session.specs.BookLinks.{lapses_at, is_link_of, can_be_taken, can_yield};
ghost use Rattle.rsl_session.specs.BookLinks.{can_return, is_swept};
ghost use Rattle.rsl_links.specs.Seen.{server_at, links_seen, bundle_with};
ghost use Rattle.rsl_links.specs.First.{IsFirst, change_at};
ghost use Rattle.rsl_links.specs.Changed.{taken_link, touched_link};
ghost use Rattle.rsl_links.specs.Counted.{AreCounted};
ghost use Rattle.rsl_links.specs.Named.{IsIndex};

use crate::link::Link;
use crate::list::LinkList;
use crate::servers::Servers;
use rsl_accounts::Rules;
use rsl_event::Nas;
use rsl_wire::{NoMemory, Octets};
use std::alloc::Global;

/// The links of a book, and the places that they take.
#[derive(Drop)]
pub struct Links {
    /// How many links of a bundle share a place.
    pub ports: u64,
    /// The links, in the order in which they opened.
    pub list: LinkList,
    /// The places that they take.
    pub places: u64,
}

/// Whether another link beside `others` of its bundle takes another place.
fn takes_a_place(ports: u64, others: usize) -> bool
    requires { 1 ≤ ports }
    ensures { div_ceil (others + 1) ports ≡ div_ceil others ports + (if result then 1 else 0) }
{
    others as u64 % ports == 0
}

impl Links {
    /// No links, with room for `room`. It fails only if memory is refused.
    pub fn new(alloc: Global, ports: u64, room: usize) -> Result<Links, NoMemory>
        ensures empty { IfOk result (λ links. links.list.items ≡ []) }
        ensures ports { IfOk result (λ links. links.ports ≡ ports) }
        ensures places { IfOk result (λ links. links.places ≡ 0) }
        ensures room { IfOk result (λ links. links.list.room ≡ room) }
    {
        Ok(Links {
            ports,
            list: LinkList::new(alloc, room)?,
            places: 0,
        })
    }

    /// Whether another link, at an access server of the table and with this bundle, takes another
    /// place.
    pub fn adds_a_place(&self, servers: &Servers, nas: usize, bundle: &Option<Octets>) -> bool
        requires index { IsIndex servers.now nas }
        requires counted { AreCounted servers.now self.now }
        ensures { places_of self.now.ports (bundles_in
            (links_seen servers.now self.now.list.items)
            ++ bundle_with (server_at servers.now nas) bundle.now ∷ []) ≡
            places_of self.now.ports (bundles_in (links_seen servers.now self.now.list.items)) +
            (if result then 1 else 0) }
    {
        match bundle {
            None => true,
            Some(id) => takes_a_place(self.ports, self.list.members(nas, id.as_slice())),
        }
    }

    /// Whether a place is free once this link ends.
    pub fn frees_a_place(&self, servers: &Servers, at: usize) -> bool
        requires counted { AreCounted servers.now self.now }
        requires within { at < length self.now.list.items }
        ensures { places_of self.now.ports (bundles_in
            (links_seen servers.now self.now.list.items)) ≡
            places_of self.now.ports (bundles_in (links_seen servers.now
            (take at self.now.list.items ++ drop (at + 1) self.now.list.items)))
            + (if result then 1 else 0) }
    {
        let link = self.list.index(at);
        match &link.bundle {
            None => true,
            Some(id) => takes_a_place(self.ports, self.list.members(link.nas, id.as_slice()) - 1),
        }
    }

    /// Whether a place is free once an alive with this bundle touches this link.
    fn joins_a_place(&self, servers: &Servers, at: usize, bundle: &Option<Octets>) -> bool
        requires counted { AreCounted servers.now self.now }
        requires within { at < length self.now.list.items }
        ensures { (now : ℕ) (station : Option (List ℕ)) →
            places_of self.now.ports (bundles_in (links_seen servers.now
            (change_at at (touched_link now bundle.now station) self.now.list.items)))
            + (if result then 1 else 0) ≡ places_of self.now.ports (bundles_in
            (links_seen servers.now self.now.list.items)) }
    {
        let link = self.list.index(at);
        match &link.bundle {
            Some(_) => false,
            None => !self.adds_a_place(servers, link.nas, bundle),
        }
    }

    /// Ends a link.
    pub fn end_at(&mut self, servers: &Servers, at: usize)
        requires within { at < length self.old.list.items }
        requires counted { AreCounted servers.now self.old }
        ensures counted { AreCounted servers.now self.new }
        ensures links { self.new.list.items ≡ take at self.old.list.items
            ++ drop (at + 1) self.old.list.items }
        ensures fewer { self.new.places ≤ self.old.places }
        ensures ports { self.new.ports ≡ self.old.ports }
        ensures room { self.new.list.room ≡ self.old.list.room }
    {
        if self.frees_a_place(servers, at) {
            self.places -= 1;
        }
        self.list.remove(at);
    }

    /// Opens a link. There is room for it.
    pub fn open(&mut self, servers: &Servers, link: Link)
        requires room { length self.old.list.items < self.old.list.room }
        requires counted { AreCounted servers.now self.old }
        requires index { IsIndex servers.now link.nas }
        requires few { self.old.places ≤ 64 }
        ensures counted { AreCounted servers.now self.new }
        ensures links { self.new.list.items ≡ self.old.list.items ++ link ∷ [] }
        ensures ports { self.new.ports ≡ self.old.ports }
        ensures room { self.new.list.room ≡ self.old.list.room }
    {
        self.places += u64::from(self.adds_a_place(servers, link.nas, &link.bundle));
        self.list.push(link);
    }

    /// Touches a link by an alive, which may carry a bundle and a station.
    pub fn touch_at(
        &mut self,
        servers: &Servers,
        at: usize,
        now: u64,
        bundle: Option<Octets>,
        station: Option<Octets>,
    )
        requires within { at < length self.old.list.items }
        requires counted { AreCounted servers.now self.old }
        ensures counted { AreCounted servers.now self.new }
        ensures links { self.new.list.items ≡ change_at at
            (touched_link now bundle station) self.old.list.items }
        ensures fewer { self.new.places ≤ self.old.places }
        ensures ports { self.new.ports ≡ self.old.ports }
        ensures room { self.new.list.room ≡ self.old.list.room }
    {
        self.places -= u64::from(self.joins_a_place(servers, at, &bundle));
        self.list.join(at, bundle);
        self.list.move_to(at, station);
        self.list.renew(at, now);
    }

    /// Binds a reserved link to the session of this id by an alive, which may carry a bundle and a
    /// station.
    pub fn take_at(
        &mut self,
        servers: &Servers,
        at: usize,
        now: u64,
        id: Octets,
        bundle: Option<Octets>,
        station: Option<Octets>,
    )
        requires within { at < length self.old.list.items }
        requires counted { AreCounted servers.now self.old }
        ensures counted { AreCounted servers.now self.new }
        ensures links { self.new.list.items ≡ change_at at
            (taken_link now id bundle station) self.old.list.items }
        ensures fewer { self.new.places ≤ self.old.places }
        ensures ports { self.new.ports ≡ self.old.ports }
        ensures room { self.new.list.room ≡ self.old.list.room }
    {
        self.places -= u64::from(self.joins_a_place(servers, at, &bundle));
        self.list.bind(at, now, id);
        self.list.join(at, bundle);
        self.list.move_to(at, station);
    }

    /// Ends each link that lapses at this clock.
    pub fn lapse(&mut self, servers: &Servers, rules: &Rules, now: u64)
        requires fit { RulesFit rules.now }
        requires counted { AreCounted servers.now self.old }
        ensures counted { AreCounted servers.now self.new }
        ensures links { links_seen servers.now self.new.list.items ≡
            filter (λ (link : BookLink). not (lapses_at rules.now now link))
            (links_seen servers.now self.old.list.items) }
        ensures fewer { self.new.places ≤ self.old.places }
        ensures ports { self.new.ports ≡ self.old.ports }
        ensures room { self.new.list.room ≡ self.old.list.room }
    {
        while let Some(at) = self.list.lapsed(servers, rules, now) {
            self.end_at(servers, at);
        }
    }

    /// Ends the link that is bound to the session of this id at an access server.
    pub fn stop(&mut self, servers: &Servers, nas: &Nas, id: &Octets)
        requires counted { AreCounted servers.now self.old }
        ensures counted { AreCounted servers.now self.new }
        ensures links { links_seen servers.now self.new.list.items ≡
            filter (λ (link : BookLink). not (is_link_of
            (record { nas = nas.now; id = id.now }) link))
            (links_seen servers.now self.old.list.items) }
        ensures fewer { self.new.places ≤ self.old.places }
        ensures ports { self.new.ports ≡ self.old.ports }
        ensures room { self.new.list.room ≡ self.old.list.room }
    {
        while let Some(at) = self.bound_to(servers, nas, id) {
            self.end_at(servers, at);
        }
    }

    /// Ends each link at an access server that opened at least `delay` seconds before this clock.
    pub fn sweep(&mut self, servers: &Servers, nas: &Nas, delay: u64, now: u64)
        requires counted { AreCounted servers.now self.old }
        ensures counted { AreCounted servers.now self.new }
        ensures links { links_seen servers.now self.new.list.items ≡
            filter (λ (link : BookLink). not (is_swept nas.now delay now link))
            (links_seen servers.now self.old.list.items) }
        ensures fewer { self.new.places ≤ self.old.places }
        ensures ports { self.new.ports ≡ self.old.ports }
        ensures room { self.new.list.room ≡ self.old.list.room }
    {
        let mut at = self.list.len();
        while at > 0 {
            at -= 1;
            if self.list.index(at).is_swept(servers, nas, delay, now) {
                self.end_at(servers, at);
            }
        }
    }

    /// The link that is bound to the session of this id at an access server.
    pub fn bound_to(&self, servers: &Servers, nas: &Nas, id: &Octets) -> Option<usize>
        requires { AreCounted servers.now self.now }
        ensures found { IfSome result (λ at. IsFirst (is_link_of
            (record { nas = nas.now; id = id.now }))
            (links_seen servers.now self.now.list.items) at) }
        ensures missed { IfNone result (find (is_link_of (record { nas = nas.now; id = id.now }))
            (links_seen servers.now self.now.list.items) ≡ None) }
    {
        match servers.find(nas) {
            None => None,
            Some(index) => self.list.session(index, id.as_slice()),
        }
    }

    /// The first reservation that an alive at an access server can take.
    pub fn reservation(&self, servers: &Servers, nas: &Nas, class: Option<u64>) -> Option<usize>
        requires { AreCounted servers.now self.now }
        ensures found { IfSome result (λ at. IsFirst (can_be_taken nas.now class)
            (links_seen servers.now self.now.list.items) at) }
        ensures missed { IfNone result (find (can_be_taken nas.now class)
            (links_seen servers.now self.now.list.items) ≡ None) }
    {
        match servers.find(nas) {
            None => None,
            Some(index) => self.list.reservation(index, class),
        }
    }

    /// The link that can yield at this clock: the bound link touched longest ago, if it is stale.
    pub fn yielding(&self, servers: &Servers, rules: &Rules, now: u64) -> Option<usize>
        ensures found { IfSome result (λ at. IsFirst (can_yield rules.now now
            (links_seen servers.now self.now.list.items))
            (links_seen servers.now self.now.list.items) at) }
        ensures missed { IfNone result (find (can_yield rules.now now
            (links_seen servers.now self.now.list.items))
            (links_seen servers.now self.now.list.items) ≡ None) }
    {
        match self.list.oldest() {
            None => None,
            Some(at) => {
                if self.list.index(at).is_stale(servers, rules, now) {
                    Some(at)
                } else {
                    None
                }
            }
        }
    }

    /// The link that can yield to a station: of its links the one touched longest ago, and of
    /// several the first.
    pub fn returning(&self, station: &Option<Octets>) -> Option<usize>
        ensures found { (servers : List Nas) → IfSome result (λ at. IsFirst (can_return station.now
            (links_seen servers self.now.list.items))
            (links_seen servers self.now.list.items) at) }
        ensures missed { (servers : List Nas) → IfNone result (find (can_return station.now
            (links_seen servers self.now.list.items))
            (links_seen servers self.now.list.items) ≡ None) }
    {
        match station {
            None => None,
            Some(station) => self.list.oldest_of(station.as_slice()),
        }
    }

    /// Equal links, with room for `room`. It fails only if memory is refused.
    pub fn try_copy(&self, alloc: Global, room: usize) -> Result<Links, NoMemory>
        requires { length self.now.list.items ≤ room }
        ensures links { IfOk result (λ copy. copy.list.items ≡ self.now.list.items) }
        ensures ports { IfOk result (λ copy. copy.ports ≡ self.now.ports) }
        ensures places { IfOk result (λ copy. copy.places ≡ self.now.places) }
        ensures room { IfOk result (λ copy. copy.list.room ≡ room) }
    {
        Ok(Links {
            ports: self.ports,
            list: self.list.try_copy(alloc, room)?,
            places: self.places,
        })
    }

    /// The number of reserved links.
    #[tactic(auto, using(crate::proofs::Tallied::tallied))]
    pub fn reserved(&self) -> usize
        ensures { (servers : List Nas) → result ≡
            count_by (λ (link : BookLink). is_reservation link.holder)
            (links_seen servers self.now.list.items) }
    {
        self.list.reserved()
    }

    /// The number of live links at this clock: those that are bound and not stale.
    #[tactic(auto, using(crate::proofs::Tallied::tallied))]
    pub fn live(&self, rules: &Rules, now: u64) -> usize
        requires { RulesFit rules.now }
        ensures { (servers : List Nas) → result ≡ count_by (is_live_at rules.now now)
            (links_seen servers self.now.list.items) }
    {
        self.list.bound() - self.stale(rules, now)
    }

    /// The number of stale links at this clock: bound links whose last touch is as long ago as a
    /// session may be silent.
    #[tactic(auto, using(crate::proofs::Tallied::tallied))]
    pub fn stale(&self, rules: &Rules, now: u64) -> usize
        requires { RulesFit rules.now }
        ensures { (servers : List Nas) → result ≡ count_by (is_stale_at rules.now now)
            (links_seen servers self.now.list.items) }
    {
        if now < rules.live {
            return 0;
        }
        self.list.bound_until(now - rules.live)
    }
}
