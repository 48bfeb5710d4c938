ghost use Rattle.std.specs.Prelude.{◌≡◌, ◌↔◌, Option, IfOk, IsFalse, IsTrue};
ghost use Rattle.rsl_accounts.specs.Limits.{RulesFit};
ghost use Rattle.rsl_session.specs.Book.{is_stale_at};
ghost use Rattle.rsl_session.specs.BookLinks.{is_swept, lapses_at};
ghost use Rattle.rsl_links.specs.Seen.{link_seen};
ghost use Rattle.rsl_links.specs.Changed.{bound_link, joined_link, stationed_link};
ghost use Rattle.rsl_links.specs.LinkList.{is_for};

use crate::servers::Servers;
use rsl_accounts::Rules;
use rsl_event::Nas;
use rsl_wire::{NoMemory, Octets};
use std::alloc::Global;

/// What holds a link.
#[derive(PartialEq, Eq, Drop)]
pub enum Holder {
    /// The accept number that reserves it.
    Reserved(u64),
    /// The session that it is bound to, by its Acct-Session-Id.
    Bound(Octets),
}

impl Holder {
    /// An equal holder. It fails only if memory is refused.
    pub fn try_copy(&self, alloc: Global) -> Result<Holder, NoMemory>
        ensures { IfOk result (λ copy. copy ≡ self.now) }
    {
        Ok(match self {
            Holder::Reserved(number) => Holder::Reserved(*number),
            Holder::Bound(id) => Holder::Bound(id.try_copy(alloc)?),
        })
    }
}

/// A link of a book. The fields that most look-ups read come first, so that they lie in one cache
/// line.
#[derive(Drop)]
pub struct Link {
    /// Its access server, by its index in the table.
    pub nas: usize,
    /// The clock at its last touch.
    pub touched: u64,
    /// What holds it.
    pub holder: Holder,
    /// Its bundle, by its Acct-Multi-Session-Id, if it is in one.
    pub bundle: Option<Octets>,
    /// Its station, if any: the last one with which it was touched.
    pub station: Option<Octets>,
    /// The clock when it opened, in seconds.
    pub opened: u64,
}

impl Link {
    /// An equal link. It fails only if memory is refused.
    pub fn try_copy(&self, alloc: Global) -> Result<Link, NoMemory>
        ensures { IfOk result (λ copy. copy ≡ self.now) }
    {
        Ok(Link {
            nas: self.nas,
            holder: self.holder.try_copy(alloc)?,
            bundle: Octets::try_copy_option(alloc, &self.bundle)?,
            station: Octets::try_copy_option(alloc, &self.station)?,
            opened: self.opened,
            touched: self.touched,
        })
    }

    /// Whether it equals a link of another book.
    #[tactic(auto, unfolding(crate::specs::Seen::link_seen))]
    pub fn is_same(&self, servers: &Servers, other: &Link, others: &Servers) -> bool
        ensures { IsTrue result ↔ (link_seen servers.now self.now ≡
            link_seen others.now other.now) }
    {
        servers.at(self.nas).is_same(others.at(other.nas))
            && self.holder == other.holder
            && self.bundle == other.bundle
            && self.station == other.station
            && self.opened == other.opened
            && self.touched == other.touched
    }

    /// Whether it lapses at this clock.
    #[tactic(auto, unfolding(crate::specs::Seen::link_seen, rsl_session::specs::BookLinks::lapses_at))]
    pub fn lapses(&self, servers: &Servers, rules: &Rules, now: u64) -> bool
        requires { RulesFit rules.now }
        ensures { result ≡ lapses_at rules.now now (link_seen servers.now self.now) }
    {
        let stands = match &self.holder {
            Holder::Reserved(_) => rules.reserve,
            Holder::Bound(_) => rules.live + rules.grace,
        };
        stands <= now.saturating_sub(self.touched)
    }

    /// Whether it is bound, and stale at this clock.
    #[tactic(auto, unfolding(crate::specs::Seen::link_seen, rsl_session::specs::Book::is_stale_at))]
    pub fn is_stale(&self, servers: &Servers, rules: &Rules, now: u64) -> bool
        ensures { result ≡ is_stale_at rules.now now (link_seen servers.now self.now) }
    {
        match &self.holder {
            Holder::Reserved(_) => false,
            Holder::Bound(_) => rules.live <= now.saturating_sub(self.touched),
        }
    }

    /// Whether a sweep of this access server ends it, which is told `delay` seconds late at this
    /// clock: it is there, and opened before.
    #[tactic(auto, unfolding(crate::specs::Seen::link_seen, rsl_session::specs::BookLinks::is_swept))]
    pub fn is_swept(&self, servers: &Servers, nas: &Nas, delay: u64, now: u64) -> bool
        ensures { result ≡ is_swept nas.now delay now (link_seen servers.now self.now) }
    {
        servers.is_at(self.nas, nas) && delay <= now.saturating_sub(self.opened)
    }

    /// Whether it is reserved at the access server of this index, and by the number of the class if
    /// there is one.
    #[tactic(auto, unfolding(crate::specs::LinkList::is_for))]
    pub fn is_for(&self, nas: usize, class: Option<u64>) -> bool
        ensures { result ≡ is_for nas class self.now }
    {
        match (&self.holder, class) {
            (Holder::Reserved(number), Some(wanted)) => *number == wanted && self.nas == nas,
            (Holder::Reserved(_), None) => self.nas == nas,
            (Holder::Bound(_), _) => false,
        }
    }

    /// Puts it into the bundle of an alive, if it is in none.
    #[tactic(auto, unfolding(crate::specs::Changed::joined_link))]
    pub(crate) fn join(&mut self, bundle: Option<Octets>)
        ensures { self.new ≡ joined_link bundle self.old }
    {
        if self.bundle.is_none() {
            self.bundle = bundle;
        }
    }

    /// Whether an alive gives it another station.
    #[tactic(auto, unfolding(crate::specs::Changed::stationed_link))]
    pub(crate) fn moves_to(&self, station: &Option<Octets>) -> bool
        ensures { IsFalse result → stationed_link station.now self.now ≡ self.now }
    {
        station.is_some() && self.station != *station
    }

    /// Gives it the station of an alive, if that names one.
    #[tactic(auto, unfolding(crate::specs::Changed::stationed_link))]
    pub(crate) fn move_to(&mut self, station: Option<Octets>)
        ensures { self.new ≡ stationed_link station self.old }
    {
        if station.is_some() {
            self.station = station;
        }
    }

    /// Binds it to the session of this id, with this clock as its last touch.
    #[tactic(auto, unfolding(crate::specs::Changed::bound_link))]
    pub(crate) fn bind(&mut self, now: u64, id: Octets)
        ensures { self.new ≡ bound_link now id self.old }
    {
        self.holder = Holder::Bound(id);
        self.touched = now;
    }
}
