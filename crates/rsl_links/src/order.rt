//! Orders of a book's links: sorted lists of their slots, so that a link is found without a scan.

ghost use Rattle.std.specs.Prelude.{◌≡◌, ◌<◌, ◌≤◌, ◌∷◌, [], get_or, length, true, false, IfOk};
ghost use Rattle.std.specs.Prelude.{IfNone, IfSome, ℕ};
ghost use Rattle.std.specs.Prelude.{count_by};
ghost use Rattle.std.specs.List.{insert, list_any};
ghost use Rattle.std.specs.VecDeque.{deque_capacity};
ghost use Rattle.rsl_accounts.specs.Limits.{RulesFit};
ghost use Rattle.rsl_session.specs.BookLinks.{lapses_at};
ghost use Rattle.rsl_links.specs.declared.order.OrderKind.TheVariants.{Bundles, Reserved, Sessions};
ghost use Rattle.rsl_links.specs.declared.order.OrderKind.TheVariants.{Stations};
ghost use Rattle.rsl_links.specs.First.{IsFirst};
ghost use Rattle.rsl_links.specs.LinkList.{IsOldest, is_for, is_held, is_member, is_of_station};
ghost use Rattle.rsl_links.specs.Order.{IsSplit, goes_by, is_before, is_by_touch, is_of, link_at};
ghost use Rattle.rsl_links.specs.Order.{order_key, order_number, order_octets};
ghost use Rattle.rsl_links.specs.Ranked.{IsOldestUpto, IsRankedBut, IsRankedOf, IsSearchable};
ghost use Rattle.rsl_links.specs.Ranked.{slot_key};
ghost use Rattle.rsl_links.specs.Seen.{link_seen};
ghost use Rattle.rsl_links.specs.Slots.{IsKept, links_of, opened_of};

use crate::link::{Holder, Link};
use crate::servers::Servers;
use crate::slots::{Slot, Slots};
use rsl_accounts::Rules;
use rsl_wire::NoMemory;
use std::alloc::Global;
use std::collections::VecDeque;

/// The links that an order lists, and its sort key. Links with equal keys are in the order in which
/// they opened.
#[derive(Clone, Copy)]
pub(crate) enum OrderKind {
    /// The reserved links, by their last touch.
    Reserved,
    /// The bound links, by their last touch.
    Bound,
    /// The bound links, by their sessions: the index of the access server, and the
    /// Acct-Session-Id.
    Sessions,
    /// The links in a bundle, by it: the index of the access server, and the
    /// Acct-Multi-Session-Id.
    Bundles,
    /// The links that have a station, by its octets.
    Stations,
}

impl OrderKind {
    /// Whether the order lists a link.
    fn holds(self, link: &Link) -> bool
        ensures { result ≡ is_of self link.now }
    {
        match self {
            OrderKind::Reserved => matches!(&link.holder, Holder::Reserved(_)),
            OrderKind::Bound | OrderKind::Sessions => matches!(&link.holder, Holder::Bound(_)),
            OrderKind::Bundles => link.bundle.is_some(),
            OrderKind::Stations => link.station.is_some(),
        }
    }

    /// The first part of a link's sort key: a number.
    fn number(self, link: &Link) -> u64
        ensures { result ≡ order_number self link.now }
    {
        match self {
            OrderKind::Reserved | OrderKind::Bound => link.touched,
            OrderKind::Sessions | OrderKind::Bundles => link.nas as u64,
            OrderKind::Stations => 0,
        }
    }

    /// The second part of a link's sort key: octets.
    fn octets(self, link: &Link) -> &[u8]
        ensures { result.now ≡ order_octets self link.now }
    {
        match (self, &link.holder, &link.bundle, &link.station) {
            (OrderKind::Sessions, Holder::Bound(id), _, _) => id.as_slice(),
            (OrderKind::Bundles, _, Some(id), _) => id.as_slice(),
            (OrderKind::Stations, _, _, Some(station)) => station.as_slice(),
            _ => &[],
        }
    }

    /// Whether the link in a slot comes before a link with this sort key that opened as number
    /// `opened`.
    #[inline(always)]
    #[tactic(auto, unfolding(crate::specs::Order::is_before))]
    fn is_before(self, slot: &Slot, number: u64, octets: &[u8], opened: u64) -> bool
        ensures { result ≡ is_before (order_key self slot.now.link, slot.now.opened)
            (number ∷ octets.now, opened) }
    {
        let link = &slot.link;
        (self.number(link), self.octets(link), slot.opened)
            .cmp(&(number, octets, opened))
            .is_lt()
    }

    /// Whether the order lists a link, and it has this sort key.
    #[tactic(auto, unfolding(crate::specs::Order::goes_by))]
    fn goes_by(self, link: &Link, number: u64, octets: &[u8]) -> bool
        ensures { result ≡ goes_by self number octets.now link.now }
    {
        self.holds(link) && self.number(link) == number && self.octets(link) == octets
    }
}

/// An order of links. Its kind is told at each call, where it is known, and not kept.
#[derive(Drop)]
pub(crate) struct Order {
    /// The slots of the links that it lists, each at its rank.
    pub slots: VecDeque<usize>,
}

impl Order {
    /// An order of no links, with room for `room`. It fails only if memory is refused.
    pub(crate) fn new(alloc: Global, room: usize) -> Result<Order, NoMemory>
        ensures empty { IfOk result (λ order. order.slots.items ≡ []) }
        ensures room { IfOk result (λ order. room ≤ deque_capacity order.slots) }
    {
        Ok(Order {
            slots: VecDeque::with_capacity(alloc, room)?,
        })
    }

    /// The number of its links before a link with this sort key that opened as number `opened`.
    #[inline(always)]
    pub(crate) fn count_before(
        &self,
        kind: OrderKind,
        slots: &Slots,
        number: u64,
        octets: &[u8],
        opened: u64,
    ) -> usize
        requires { IsSearchable kind slots.now.slots.items self.now.slots.items }
        ensures { IsSplit (slot_key kind slots.now.slots.items) self.now.slots.items
            (number ∷ octets.now, opened) result }
    {
        let mut low = 0;
        let mut high = self.slots.len();
        while low < high {
            let middle = low + (high - low) / 2;
            let slot = self.slots[middle];
            if kind.is_before(&slots.slots[slot], number, octets, opened) {
                low = middle + 1;
            } else {
                high = middle;
            }
        }
        low
    }

    /// The position of its first link with this sort key.
    fn first_of(&self, kind: OrderKind, slots: &Slots, number: u64, octets: &[u8]) -> Option<usize>
        requires kept { IsKept slots.now }
        requires order { IsRankedOf kind slots.now self.now }
        ensures found { IfSome result (λ at.
            IsFirst (goes_by kind number octets.now) (links_of slots.now) at) }
        ensures missed { IfNone result (list_any (goes_by kind number octets.now)
            (links_of slots.now) ≡ false) }
    {
        let rank = self.count_before(kind, slots, number, octets, 0);
        if rank == self.slots.len() {
            return None;
        }
        let slot = self.slots[rank];
        if kind.goes_by(&slots.slots[slot].link, number, octets) {
            Some(slots.position(slot))
        } else {
            None
        }
    }

    /// The position of the first link bound to the session of this id at an access server, in an
    /// order of sessions.
    pub(crate) fn first_session(&self, slots: &Slots, nas: usize, id: &[u8]) -> Option<usize>
        requires kept { IsKept slots.now }
        requires order { IsRankedOf Sessions slots.now self.now }
        ensures found { IfSome result (λ at. IsFirst (is_held nas id.now) (links_of slots.now) at) }
        ensures missed { IfNone result
            (list_any (is_held nas id.now) (links_of slots.now) ≡ false) }
    {
        self.first_of(OrderKind::Sessions, slots, nas as u64, id)
    }

    /// The number of links in the bundle of this id at an access server, in an order of bundles.
    pub(crate) fn members(&self, slots: &Slots, nas: usize, id: &[u8]) -> usize
        requires kept { IsKept slots.now }
        requires order { IsRankedOf Bundles slots.now self.now }
        ensures { result ≡ count_by (is_member nas id.now) (links_of slots.now) }
    {
        let kind = OrderKind::Bundles;
        let first = self.count_before(kind, slots, nas as u64, id, 0);
        let end = self.count_before(kind, slots, nas as u64, id, u64::MAX);
        end - first
    }

    /// The rank of the link touched longest ago of those at the ranks from `first` to before `end`,
    /// and of several the first.
    fn oldest_between(&self, slots: &Slots, first: usize, end: usize) -> usize
        requires some { first < end }
        requires within { end ≤ length self.now.slots.items }
        requires there { (k : ℕ) → k < length self.now.slots.items →
            get_or self.now.slots.items k 0 < length slots.now.slots.items }
        ensures { IsOldestUpto slots.now.slots.items self.now.slots.items first end result }
    {
        let mut oldest = first;
        let mut touched = slots.slots[self.slots[first]].link.touched;
        for rank in first + 1..end {
            let own = slots.slots[self.slots[rank]].link.touched;
            if own < touched {
                oldest = rank;
                touched = own;
            }
        }
        oldest
    }

    /// The position of the link of a station that was touched longest ago, and of several the one
    /// that opened first, in an order of stations. It looks at the links of that station alone.
    pub(crate) fn oldest_of(&self, slots: &Slots, station: &[u8]) -> Option<usize>
        requires kept { IsKept slots.now }
        requires order { IsRankedOf Stations slots.now self.now }
        ensures found { IfSome result (λ at.
            IsOldest (is_of_station station.now) (links_of slots.now) at) }
        ensures missed { IfNone result
            (list_any (is_of_station station.now) (links_of slots.now) ≡ false) }
    {
        let kind = OrderKind::Stations;
        let first = self.count_before(kind, slots, 0, station, 0);
        let end = self.count_before(kind, slots, 0, station, u64::MAX);
        if first == end {
            return None;
        }
        let oldest = self.oldest_between(slots, first, end);
        Some(slots.position(self.slots[oldest]))
    }

    /// The position of the first link that an alive at an access server, with this class, can take,
    /// in the order of reserved links. It is a scan: they are at most as many as places.
    pub(crate) fn first_reservation(
        &self,
        slots: &Slots,
        nas: usize,
        class: Option<u64>,
    ) -> Option<usize>
        requires kept { IsKept slots.now }
        requires order { IsRankedOf Reserved slots.now self.now }
        ensures found { IfSome result (λ at. IsFirst (is_for nas class) (links_of slots.now) at) }
        ensures missed { IfNone result
            (list_any (is_for nas class) (links_of slots.now) ≡ false) }
    {
        let mut first = 0;
        // Openings have lower numbers.
        let mut opened = u64::MAX;
        for rank in 0..self.slots.len() {
            let slot = self.slots[rank];
            let one = &slots.slots[slot];
            if one.opened < opened && one.link.is_for(nas, class) {
                first = slot;
                opened = one.opened;
            }
        }
        if opened < u64::MAX {
            Some(slots.position(first))
        } else {
            None
        }
    }

    /// The position of the first link, if it lapses at this clock. If any lapses, the first does.
    pub(crate) fn first_lapsed(
        &self,
        kind: OrderKind,
        slots: &Slots,
        servers: &Servers,
        rules: &Rules,
        now: u64,
    ) -> Option<usize>
        requires fit { RulesFit rules.now }
        requires touch { is_by_touch kind ≡ true }
        requires kept { IsKept slots.now }
        requires order { IsRankedOf kind slots.now self.now }
        ensures within { IfSome result (λ at. at < length (links_of slots.now)) }
        ensures found { IfSome result (λ at. lapses_at rules.now now (link_seen servers.now
            (link_at (links_of slots.now) at)) ≡ true) }
        ensures missed { IfNone result ((at : ℕ) → at < length (links_of slots.now) →
            is_of kind (link_at (links_of slots.now) at) ≡ true →
            lapses_at rules.now now (link_seen servers.now (link_at (links_of slots.now) at))
            ≡ false) }
    {
        if self.slots.is_empty() {
            return None;
        }
        // Its slot alone shows whether the link lapses; only then is its position needed.
        let first = self.slots[0];
        if slots.slots[first].link.lapses(servers, rules, now) {
            Some(slots.position(first))
        } else {
            None
        }
    }

    /// The number of its links before the link in a slot. A touched link goes to the end of an
    /// order by touch, so that rank is tried first.
    fn count_before_link(&self, kind: OrderKind, slots: &Slots, slot: usize) -> usize
        requires within { slot < length slots.now.slots.items }
        requires order { IsSearchable kind slots.now.slots.items self.now.slots.items }
        ensures { IsSplit (slot_key kind slots.now.slots.items) self.now.slots.items
            (slot_key kind slots.now.slots.items slot) result }
    {
        let own = &slots.slots[slot];
        let (number, octets) = (kind.number(&own.link), kind.octets(&own.link));
        let end = self.slots.len();
        if end > 0 {
            let last = self.slots[end - 1];
            if kind.is_before(&slots.slots[last], number, octets, own.opened) {
                return end;
            }
        }
        self.count_before(kind, slots, number, octets, own.opened)
    }

    /// The rank of the link at a position. Links are mostly touched in turn, so rank 0 is tried
    /// first.
    fn rank_of(&self, kind: OrderKind, slots: &Slots, at: usize) -> usize
        requires kept { IsKept slots.now }
        requires within { at < slots.now.count }
        requires order { IsRankedOf kind slots.now self.now }
        requires kind { is_of kind (link_at (links_of slots.now) at) ≡ true }
        ensures within { result < length self.now.slots.items }
        ensures stands { get_or self.now.slots.items result 0 ≡ get_or (opened_of slots.now) at 0 }
    {
        let slot = slots.slot(at);
        if self.slots.len() > 0 && self.slots[0] == slot {
            return 0;
        }
        self.count_before_link(kind, slots, slot)
    }

    /// Removes the link at a position, if it is of its kind.
    pub(crate) fn withdraw(&mut self, kind: OrderKind, slots: &Slots, at: usize)
        requires kept { IsKept slots.now }
        requires within { at < slots.now.count }
        requires order { IsRankedOf kind slots.now self.old }
        ensures order { IsRankedBut kind slots.now at self.new }
        ensures room { deque_capacity self.new.slots ≡ deque_capacity self.old.slots }
    {
        if kind.holds(slots.link(at)) {
            let rank = self.rank_of(kind, slots, at);
            let _ = self.slots.remove(rank);
        }
    }

    /// Inserts the link at a position, if it is of its kind.
    pub(crate) fn enter(&mut self, kind: OrderKind, slots: &Slots, at: usize)
        requires kept { IsKept slots.now }
        requires within { at < slots.now.count }
        requires order { IsRankedBut kind slots.now at self.old }
        requires room { slots.now.count ≤ deque_capacity self.old.slots }
        ensures order { IsRankedOf kind slots.now self.new }
        ensures room { deque_capacity self.new.slots ≡ deque_capacity self.old.slots }
    {
        if kind.holds(slots.link(at)) {
            let slot = slots.slot(at);
            let rank = self.count_before_link(kind, slots, slot);
            insert_reserved(&mut self.slots, rank, slot);
        }
    }
}

/// Inserts a slot at a rank. There is room for it.
fn insert_reserved(order: &mut VecDeque<usize>, rank: usize, slot: usize)
    requires within { rank ≤ length order.old.items }
    requires room { length order.old.items < deque_capacity order.old }
    ensures items { order.new.items ≡ insert order.old.items rank slot }
    ensures room { deque_capacity order.new ≡ deque_capacity order.old }
{
    order.rotate_left(rank);
    order.push_front_reserved(slot);
    order.rotate_right(rank);
}
