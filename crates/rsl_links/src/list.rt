//! The links of a book, with the orders in which links are found.

ghost use Rattle.std.specs.Prelude.{◌≡◌, ℕ, ◌+◌, ◌<◌, ◌≤◌, [], ◌∷◌, ◌++◌, IfOk, IfSome, IfNone};
ghost use Rattle.std.specs.Prelude.{count_by, drop, false, get_or, length, take, true};
ghost use Rattle.std.specs.List.{list_any};
ghost use Rattle.rsl_accounts.specs.Limits.{RulesFit};
ghost use Rattle.rsl_session.specs.BookLinks.{lapses_at};
ghost use Rattle.rsl_links.specs.Changed.{bound_link, joined_link, renewed_link, stationed_link};
ghost use Rattle.rsl_links.specs.First.{IsFirst, change_at};
ghost use Rattle.rsl_links.specs.Order.{is_of, link_at};
ghost use Rattle.rsl_links.specs.Slots.{IsKept};
ghost use Rattle.rsl_links.specs.LinkList.{AreOrders, AreOrdersBut, AreNoOrders, HaveOrdersRoom};
ghost use Rattle.rsl_links.specs.LinkList.{IsOldest, is_bound_at, is_of_station};
ghost use Rattle.rsl_links.specs.LinkList.{is_bound_until, is_for, is_held, is_member};
ghost use Rattle.rsl_links.specs.declared.order.OrderKind.TheVariants.{Reserved, Bound};
ghost use Rattle.rsl_links.specs.Named.{named_by_links};
ghost use Rattle.rsl_links.specs.Seen.{link_seen};

use crate::link::Link;
use crate::order::{Order, OrderKind};
use crate::servers::Servers;
use crate::slots::Slots;
use rsl_accounts::Rules;
use rsl_wire::{NoMemory, Octets};
use std::alloc::Global;
use std::marker::Model;

/// The orders of a book's links.
#[derive(Drop)]
struct Orders {
    reserved: Order,
    bound: Order,
    sessions: Order,
    bundles: Order,
    stations: Order,
}

impl Orders {
    /// Orders of no links, with room for `room`. It fails only if memory is refused.
    fn new(alloc: Global, room: usize) -> Result<Orders, NoMemory>
        ensures empty { IfOk result AreNoOrders }
        ensures room { IfOk result (λ orders. HaveOrdersRoom room orders) }
    {
        Ok(Orders {
            reserved: Order::new(alloc, room)?,
            bound: Order::new(alloc, room)?,
            sessions: Order::new(alloc, room)?,
            bundles: Order::new(alloc, room)?,
            stations: Order::new(alloc, room)?,
        })
    }

    /// Removes the link at a position from each order.
    fn withdraw(&mut self, slots: &Slots, at: usize)
        requires kept { IsKept slots.now }
        requires within { at < slots.now.count }
        requires orders { AreOrders slots.now self.old }
        ensures orders { AreOrdersBut slots.now at self.new }
        ensures room { (most : ℕ) → HaveOrdersRoom most self.old → HaveOrdersRoom most self.new }
    {
        self.reserved.withdraw(OrderKind::Reserved, slots, at);
        self.bound.withdraw(OrderKind::Bound, slots, at);
        self.sessions.withdraw(OrderKind::Sessions, slots, at);
        self.bundles.withdraw(OrderKind::Bundles, slots, at);
        self.stations.withdraw(OrderKind::Stations, slots, at);
    }

    /// Inserts the link at a position into the orders of its kind.
    fn enter(&mut self, slots: &Slots, at: usize)
        requires kept { IsKept slots.now }
        requires within { at < slots.now.count }
        requires orders { AreOrdersBut slots.now at self.old }
        requires room { HaveOrdersRoom slots.now.count self.old }
        ensures orders { AreOrders slots.now self.new }
        ensures room { (most : ℕ) → HaveOrdersRoom most self.old → HaveOrdersRoom most self.new }
    {
        self.reserved.enter(OrderKind::Reserved, slots, at);
        self.bound.enter(OrderKind::Bound, slots, at);
        self.sessions.enter(OrderKind::Sessions, slots, at);
        self.bundles.enter(OrderKind::Bundles, slots, at);
        self.stations.enter(OrderKind::Stations, slots, at);
    }
}

/// The links of a book, in the order in which they opened.
///
/// The clock never falls, so a link that is touched goes to the end of its order, and those that
/// lapse, or could yield, are at the front. A link that ends leaves its orders, where later ones
/// move up by a word each; the only other links that are looked at are those of the binary search
/// for its rank. A reservation is in one order, and in a second if it has a station: it ends or is
/// bound soon after it opened, and there are at most as many as places.
#[derive(Drop)]
pub struct LinkList {
    slots: Slots,
    orders: Orders,
}

impl Model for LinkList {
    ghost use Rattle.rsl_links.specs.LinkList.{RoomyList, list_seen, IsRanked};

    ghost Value = { RoomyList };

    ghost view = { list_seen };

    ghost invariant = { IsRanked };
}

impl LinkList {
    /// No links, with room for `room`. It fails only if memory is refused.
    pub fn new(alloc: Global, room: usize) -> Result<LinkList, NoMemory>
        ensures { IfOk result (λ list. list ≡ record { items = []; room = room }) }
    {
        Ok(LinkList {
            slots: Slots::new(alloc, room)?,
            orders: Orders::new(alloc, room)?,
        })
    }

    /// The number of links.
    pub fn len(&self) -> usize
        ensures { result ≡ length self.now.items }
    {
        self.slots.count
    }

    /// The link at a position.
    pub fn index(&self, at: usize) -> &Link
        requires { at < length self.now.items }
        ensures { result.now ≡ get_or self.now.items at result.now }
    {
        self.slots.link(at)
    }

    /// Adds a link after the others.
    pub fn push(&mut self, link: Link)
        requires { length self.old.items < self.old.room }
        ensures items { self.new.items ≡ self.old.items ++ link ∷ [] }
        ensures room { self.new.room ≡ self.old.room }
    {
        let at = self.slots.count;
        self.slots.push(link);
        self.orders.enter(&self.slots, at);
    }

    /// Removes a link.
    pub fn remove(&mut self, at: usize)
        requires { at < length self.old.items }
        ensures items { self.new.items ≡ take at self.old.items ++ drop (at + 1) self.old.items }
        ensures room { self.new.room ≡ self.old.room }
    {
        self.orders.withdraw(&self.slots, at);
        self.slots.remove(at);
    }

    /// Touches a link at this clock. Its orders by session, by bundle and by station stay.
    pub fn renew(&mut self, at: usize, now: u64)
        requires { at < length self.old.items }
        ensures items { self.new.items ≡ change_at at (renewed_link now) self.old.items }
        ensures room { self.new.room ≡ self.old.room }
    {
        self.orders
            .reserved
            .withdraw(OrderKind::Reserved, &self.slots, at);
        self.orders
            .bound
            .withdraw(OrderKind::Bound, &self.slots, at);
        self.slots.renew(at, now);
        self.orders
            .reserved
            .enter(OrderKind::Reserved, &self.slots, at);
        self.orders.bound.enter(OrderKind::Bound, &self.slots, at);
    }

    /// Binds a link to the session of this id, with this clock as its last touch.
    pub fn bind(&mut self, at: usize, now: u64, id: Octets)
        requires { at < length self.old.items }
        ensures items { self.new.items ≡ change_at at (bound_link now id) self.old.items }
        ensures room { self.new.room ≡ self.old.room }
    {
        self.orders.withdraw(&self.slots, at);
        self.slots.bind(at, now, id);
        self.orders.enter(&self.slots, at);
    }

    /// Puts a link that is in no bundle into the one that an alive carries, if any.
    pub fn join(&mut self, at: usize, bundle: Option<Octets>)
        requires { at < length self.old.items }
        ensures items { self.new.items ≡ change_at at (joined_link bundle) self.old.items }
        ensures room { self.new.room ≡ self.old.room }
    {
        // A link whose bundle stays keeps its rank in the order of bundles.
        if bundle.is_some() && self.slots.link(at).bundle.is_none() {
            let kind = OrderKind::Bundles;
            self.orders.bundles.withdraw(kind, &self.slots, at);
            self.slots.join(at, bundle);
            self.orders.bundles.enter(kind, &self.slots, at);
        }
    }

    /// Gives a link the station that an alive names, if any.
    pub fn move_to(&mut self, at: usize, station: Option<Octets>)
        requires { at < length self.old.items }
        ensures items { self.new.items ≡ change_at at (stationed_link station) self.old.items }
        ensures room { self.new.room ≡ self.old.room }
    {
        // A link whose station stays keeps its rank in the order of stations.
        if self.slots.link(at).moves_to(&station) {
            let kind = OrderKind::Stations;
            self.orders.stations.withdraw(kind, &self.slots, at);
            self.slots.move_to(at, station);
            self.orders.stations.enter(kind, &self.slots, at);
        }
    }

    /// The position of the first link bound to the session of this id at the access server of an
    /// index.
    pub fn session(&self, nas: usize, id: &[u8]) -> Option<usize>
        ensures found { IfSome result (λ at. IsFirst (is_held nas id.now) self.now.items at) }
        ensures missed { IfNone result (list_any (is_held nas id.now) self.now.items ≡ false) }
    {
        self.orders.sessions.first_session(&self.slots, nas, id)
    }

    /// The position of the first link reserved at the access server of an index, by the number of
    /// the class if there is one.
    pub fn reservation(&self, nas: usize, class: Option<u64>) -> Option<usize>
        ensures found { IfSome result (λ at. IsFirst (is_for nas class) self.now.items at) }
        ensures missed { IfNone result (list_any (is_for nas class) self.now.items ≡ false) }
    {
        self.orders
            .reserved
            .first_reservation(&self.slots, nas, class)
    }

    /// The number of reserved links.
    pub fn reserved(&self) -> usize
        ensures { result ≡ count_by (is_of Reserved) self.now.items }
    {
        self.orders.reserved.slots.len()
    }

    /// The number of bound links.
    pub fn bound(&self) -> usize
        ensures { result ≡ count_by (is_of Bound) self.now.items }
    {
        self.orders.bound.slots.len()
    }

    /// The number of bound links whose last touch was at this clock or before.
    pub fn bound_until(&self, clock: u64) -> usize
        ensures { result ≡ count_by (is_bound_until clock) self.now.items }
    {
        let order = &self.orders.bound;
        order.count_before(OrderKind::Bound, &self.slots, clock, &[], u64::MAX)
    }

    /// The number of links in the bundle of this id at the access server of an index.
    pub fn members(&self, nas: usize, id: &[u8]) -> usize
        ensures { result ≡ count_by (is_member nas id.now) self.now.items }
    {
        self.orders.bundles.members(&self.slots, nas, id)
    }

    /// Whether a bound link names this index of the table of access servers.
    fn sessions_name(&self, nas: usize) -> bool
        ensures { result ≡ list_any (is_bound_at nas) self.now.items }
    {
        let order = &self.orders.sessions;
        let rank = order.count_before(OrderKind::Sessions, &self.slots, nas as u64, &[], 0);
        if rank == order.slots.len() {
            return false;
        }
        self.slots.slots[order.slots[rank]].link.nas == nas
    }

    /// Whether a link names this index of the table of access servers.
    pub fn names(&self, nas: usize) -> bool
        ensures { result ≡ named_by_links self.now.items nas }
    {
        if self.sessions_name(nas) {
            return true;
        }
        self.reservation(nas, None).is_some()
    }

    /// The first link that lapses at this clock, if there is one.
    pub fn lapsed(&self, servers: &Servers, rules: &Rules, now: u64) -> Option<usize>
        requires { RulesFit rules.now }
        ensures within { IfSome result (λ at. at < length self.now.items) }
        ensures found { IfSome result (λ at. lapses_at rules.now now (link_seen servers.now
            (link_at self.now.items at)) ≡ true) }
        ensures missed { IfNone result ((at : ℕ) → at < length self.now.items →
            lapses_at rules.now now (link_seen servers.now (link_at self.now.items at)) ≡ false) }
    {
        let Orders {
            reserved,
            bound,
            ..
        } = &self.orders;
        let one = reserved.first_lapsed(OrderKind::Reserved, &self.slots, servers, rules, now);
        if one.is_some() {
            return one;
        }
        bound.first_lapsed(OrderKind::Bound, &self.slots, servers, rules, now)
    }

    /// The bound link touched longest ago, and of several the first.
    pub fn oldest(&self) -> Option<usize>
        ensures found { IfSome result (λ at. IsOldest (is_of Bound) self.now.items at) }
        ensures missed { IfNone result ((at : ℕ) → at < length self.now.items →
            is_of Bound (link_at self.now.items at) ≡ false) }
    {
        let order = &self.orders.bound;
        if order.slots.is_empty() {
            return None;
        }
        Some(self.slots.position(order.slots[0]))
    }

    /// The link of a station touched longest ago, and of several the first. Only links of that
    /// station are looked at.
    pub fn oldest_of(&self, station: &[u8]) -> Option<usize>
        ensures found { IfSome result (λ at.
            IsOldest (is_of_station station.now) self.now.items at) }
        ensures missed { IfNone result
            (list_any (is_of_station station.now) self.now.items ≡ false) }
    {
        self.orders.stations.oldest_of(&self.slots, station)
    }

    /// Equal links, with room for `room`. It fails only if memory is refused.
    pub fn try_copy(&self, alloc: Global, room: usize) -> Result<LinkList, NoMemory>
        requires { length self.now.items ≤ room }
        ensures { IfOk result (λ copy. copy ≡ record { items = self.now.items; room = room }) }
    {
        let mut copy = LinkList::new(alloc, room)?;
        for at in 0..self.len() {
            copy.push(self.index(at).try_copy(alloc)?);
        }
        Ok(copy)
    }
}
