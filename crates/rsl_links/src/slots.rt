//! Where a book keeps its links, with the order in which they opened.

ghost use Rattle.std.specs.Prelude.{◌≡◌, ℕ, ◌<◌, ◌+◌, get_or, length, vec_capacity, IfOk, []};
ghost use Rattle.rsl_links.specs.Changed.{bound_link, joined_link, renewed_link, stationed_link};
ghost use Rattle.rsl_links.specs.Order.{Stands, link_at};
ghost use Rattle.rsl_links.specs.Slots.{AreSame, IsChanged, IsKept, IsLess, IsMore, links_of, no_slot};
ghost use Rattle.rsl_links.specs.Slots.{opened_in, opened_of};

use crate::link::{Holder, Link};
use rsl_wire::{NoMemory, Octets};
use std::alloc::Global;
use std::collections::VecDeque;

/// A slot: a link, or a placeholder.
#[derive(Drop)]
pub(crate) struct Slot {
    /// The number of its opening, which is greater for a link that opened later.
    pub opened: u64,
    /// The link.
    pub link: Link,
}

impl Slot {
    /// A free slot.
    fn free() -> Slot
        ensures { result ≡ no_slot }
    {
        let link = Link {
            nas: 0,
            touched: 0,
            holder: Holder::Reserved(0),
            bundle: None,
            station: None,
            opened: 0,
        };
        Slot { opened: 0, link }
    }
}

/// The links of a book, each in a slot, where it stays until it ends.
///
/// Opening or ending a link moves words of `sequence`, and no link. The position of a slot's link
/// is found by binary search in `sequence`.
#[derive(Drop)]
pub(crate) struct Slots {
    /// The slots, in no order.
    pub slots: Vec<Slot>,
    /// All slots: first those of the links, in the order in which they opened, and then the free
    /// ones.
    pub sequence: VecDeque<usize>,
    /// The number of links.
    pub count: usize,
}

impl Slots {
    /// No links, with room for `room`. It fails only if memory is refused.
    pub(crate) fn new(alloc: Global, room: usize) -> Result<Slots, NoMemory>
        ensures kept { IfOk result IsKept }
        ensures none { IfOk result (λ slots. opened_of slots ≡ []) }
        ensures room { IfOk result (λ slots. vec_capacity slots.slots ≡ room) }
    {
        Ok(Slots {
            slots: Vec::with_capacity(alloc, room)?,
            sequence: VecDeque::with_capacity(alloc, room)?,
            count: 0,
        })
    }

    /// The slot of the link at a position.
    pub(crate) fn slot(&self, at: usize) -> usize
        requires kept { IsKept self.now }
        requires within { at < self.now.count }
        ensures slot { result ≡ get_or (opened_of self.now) at 0 }
        ensures within { result < length self.now.slots.items }
    {
        self.sequence[at]
    }

    /// The link at a position.
    pub(crate) fn link(&self, at: usize) -> &Link
        requires kept { IsKept self.now }
        requires within { at < self.now.count }
        ensures { result.now ≡ link_at (links_of self.now) at }
    {
        &self.slots[self.slot(at)].link
    }

    /// The number of links that opened before the one in a slot.
    fn count_before(&self, slot: usize) -> usize
        requires kept { IsKept self.now }
        requires stands { Stands (opened_of self.now) slot }
        ensures within { result < self.now.count }
        ensures stands { get_or (opened_of self.now) result 0 ≡ slot }
    {
        let opened = self.slots[slot].opened;
        let mut low = 0;
        let mut high = self.count;
        while low < high {
            let middle = low + (high - low) / 2;
            if self.slots[self.slot(middle)].opened < opened {
                low = middle + 1;
            } else {
                high = middle;
            }
        }
        low
    }

    /// The position of the link in a slot. The first guess assumes that none of the links between
    /// the first one and this one has ended.
    pub(crate) fn position(&self, slot: usize) -> usize
        requires kept { IsKept self.now }
        requires stands { Stands (opened_of self.now) slot }
        ensures within { result < self.now.count }
        ensures stands { get_or (opened_of self.now) result 0 ≡ slot }
    {
        if self.count > 0 {
            let first = self.slots[self.slot(0)].opened;
            let since = self.slots[slot].opened.saturating_sub(first);
            if since < self.count as u64 && self.slot(since as usize) == slot {
                return since as usize;
            }
        }
        self.count_before(slot)
    }

    /// Numbers the openings of the links from 0 again.
    fn renumber(&mut self)
        requires kept { IsKept self.old }
        requires few { self.old.count < vec_capacity self.old.slots }
        ensures same { AreSame self.old self.new }
        ensures sequence { self.new.sequence ≡ self.old.sequence }
        ensures numbers { (k : ℕ) → k < self.new.count →
            opened_in self.new.slots.items (get_or (opened_of self.new) k 0) ≡ k }
    {
        for at in 0..self.count {
            let slot = self.sequence[at];
            self.slots[slot].opened = at as u64;
        }
    }

    /// The number of the next opening. Once all numbers are used up, the openings are numbered
    /// again: a walk over all links, once in 2^64 openings.
    fn next_number(&mut self) -> u64
        requires kept { IsKept self.old }
        requires few { self.old.count < vec_capacity self.old.slots }
        ensures same { AreSame self.old self.new }
        ensures sequence { self.new.sequence ≡ self.old.sequence }
        ensures later { (k : ℕ) → k < self.new.count →
            opened_in self.new.slots.items (get_or (opened_of self.new) k 0) < result }
        ensures below { result < 18446744073709551615 }
    {
        if self.count == 0 {
            return 0;
        }
        let last = self.slots[self.slot(self.count - 1)].opened;
        if last < u64::MAX - 1 {
            return last + 1;
        }
        self.renumber();
        self.count as u64
    }

    /// Adds a free slot.
    fn grow(&mut self)
        requires kept { IsKept self.old }
        requires room { length self.old.sequence.items < vec_capacity self.old.slots }
        ensures same { AreSame self.old self.new }
        ensures more { length self.new.sequence.items ≡ length self.old.sequence.items + 1 }
        ensures numbers { (k : ℕ) → k < self.new.count →
            opened_in self.new.slots.items (get_or (opened_of self.new) k 0) ≡
            opened_in self.old.slots.items (get_or (opened_of self.old) k 0) }
    {
        let slot = self.slots.len();
        self.slots.push_reserved(Slot::free());
        self.sequence.push_back_reserved(slot);
    }

    /// Adds a link after the others.
    pub(crate) fn push(&mut self, link: Link)
        requires kept { IsKept self.old }
        requires room { self.old.count < vec_capacity self.old.slots }
        ensures { IsMore link self.old self.new }
    {
        let opened = self.next_number();
        if self.count == self.sequence.len() {
            self.grow();
        }
        let slot = self.sequence[self.count];
        self.slots[slot] = Slot { opened, link };
        self.count += 1;
    }

    /// Removes a link.
    pub(crate) fn remove(&mut self, at: usize)
        requires kept { IsKept self.old }
        requires within { at < self.old.count }
        ensures { IsLess at self.old self.new }
    {
        let slot = self.slot(at);
        let _ = self.sequence.remove(at);
        self.sequence.push_back_reserved(slot);
        self.count -= 1;
        self.slots[slot] = Slot::free();
    }

    /// Touches a link at this clock.
    pub(crate) fn renew(&mut self, at: usize, now: u64)
        requires kept { IsKept self.old }
        requires within { at < self.old.count }
        ensures { IsChanged at (renewed_link now) self.old self.new }
    {
        let slot = self.slot(at);
        self.slots[slot].link.touched = now;
    }

    /// Puts a link into the bundle of an alive, if it is in none.
    pub(crate) fn join(&mut self, at: usize, bundle: Option<Octets>)
        requires kept { IsKept self.old }
        requires within { at < self.old.count }
        ensures { IsChanged at (joined_link bundle) self.old self.new }
    {
        let slot = self.slot(at);
        self.slots[slot].link.join(bundle);
    }

    /// Gives a link the station of an alive, if that names one.
    pub(crate) fn move_to(&mut self, at: usize, station: Option<Octets>)
        requires kept { IsKept self.old }
        requires within { at < self.old.count }
        ensures { IsChanged at (stationed_link station) self.old self.new }
    {
        let slot = self.slot(at);
        self.slots[slot].link.move_to(station);
    }

    /// Binds a link to the session of this id, with this clock as its last touch.
    pub(crate) fn bind(&mut self, at: usize, now: u64, id: Octets)
        requires kept { IsKept self.old }
        requires within { at < self.old.count }
        ensures { IsChanged at (bound_link now id) self.old self.new }
    {
        let slot = self.slot(at);
        self.slots[slot].link.bind(now, id);
    }
}
