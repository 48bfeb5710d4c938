ghost use Rattle.std.specs.Prelude.{◌≡◌, ◌≢◌, ◌↔◌, ◌+◌, ◌<◌, ◌≤◌, [], ◌∷◌, ◌++◌, IfOk, IfSome, IfNone, IsTrue, Option};
ghost use Rattle.std.specs.Prelude.{find, get_or, length, map, take, option_copied, slice_get};
ghost use Rattle.std.specs.Option.{option_map};
ghost use Rattle.std.specs.List.{list_any};
ghost use Rattle.circular_buffer.specs.Buffer.{buffer};
ghost use Rattle.rsl_session.specs.declared.kept.KeptAsk.{KeptAsk};
ghost use Rattle.rsl_session.specs.Ask.{repeats};
ghost use Rattle.rsl_session.specs.Closed.{closes};
ghost use Rattle.rsl_book.specs.declared.kept.Kept.{Kept};
ghost use Rattle.rsl_book.specs.Seen.{all_seen, asks_seen, kept_seen, stops_seen, sweep_kept};
ghost use Rattle.rsl_book.specs.Named.{named_by_kept};

use crate::kept::{DecidedAsk, EndedSession, Kept, Subject, id_fingerprint, key_fingerprint};
use circular_buffer::HeapCircularBuffer;
use rsl_accounts::Rules;
use rsl_event::{Decision, Key, Nas};
use rsl_links::Servers;
use rsl_wire::{NoMemory, Octets};
use std::alloc::Global;
use std::marker::Model;

/// The last asks or stops, newest first: another replaces the oldest if the ring is full.
///
/// Beside them are their fingerprints: a look-up reads these alone, unless one is equal.
#[derive(Drop)]
pub(crate) struct Ring<S: Subject> {
    fingerprints: HeapCircularBuffer<u64>,
    kept: HeapCircularBuffer<Kept<S>>,
}

impl<S: Subject> Model for Ring<S> {
    ghost use Rattle.std.specs.Prelude.{◌≡◌, map};
    ghost use Rattle.circular_buffer.specs.Buffer.{Buffer, buffer};
    ghost use Rattle.rsl_book.specs.declared.kept.Kept.{Kept};

    ghost Value = { Buffer (Kept S) };

    ghost view = { λ s. s.kept };

    ghost invariant = { λ s. s.fingerprints ≡
        buffer (map (λ (one : Kept S). S.print one.subject) s.kept.items) s.kept.capacity };
}

/// Whether one of them names this index of the table of access servers.
#[tactic(auto, unfolding(crate::specs::Named::named_by_kept))]
fn is_named_in<S: Subject>(all: &[Kept<S>], nas: usize) -> bool
    ensures { result ≡ named_by_kept all.now nas }
{
    all.iter().any(|kept| kept.nas == nas)
}

/// Notes a sweep of an access server in each, told `delay` seconds late at this clock.
#[tactic(auto, using(crate::proofs::Swept::swept_steps))]
fn sweep_each<S: Subject>(all: &mut [Kept<S>], servers: &Servers, nas: &Nas, delay: u64, now: u64)
    ensures { all.new ≡ map (sweep_kept servers.now nas.now delay now) all.old }
{
    for index in 0..all.len() {
        all[index].sweep(servers, nas, delay, now);
    }
}

/// Appends copies to a ring that has room for them. It fails only if memory is refused.
#[tactic(auto, using(rsl_links::proofs::Callers::push_steps))]
fn push_copies<S: Subject>(
    alloc: Global,
    copy: &mut HeapCircularBuffer<Kept<S>>,
    all: &[Kept<S>],
) -> Result<(), NoMemory>
    requires { length copy.old.items + length all.now ≤ copy.old.capacity }
    ensures { IfOk result (λ _. copy.new ≡ buffer (copy.old.items ++ all.now) copy.old.capacity) }
{
    for one in all {
        let _ = copy.push_back(one.try_copy(alloc)?);
    }
    Ok(())
}

impl<S: Subject> Ring<S> {
    /// An empty ring, with room for `capacity`. It fails only if memory is refused.
    pub(crate) fn new(alloc: Global, capacity: usize) -> Result<Ring<S>, NoMemory>
        ensures { IfOk result (λ ring. ring ≡ buffer [] capacity) }
    {
        Ok(Ring {
            fingerprints: HeapCircularBuffer::with_capacity(alloc, capacity)?,
            kept: HeapCircularBuffer::with_capacity(alloc, capacity)?,
        })
    }

    /// The number of asks or stops.
    pub(crate) fn len(&self) -> usize
        ensures len { result ≡ length self.now.items }
        ensures within { result ≤ self.now.capacity }
    {
        self.kept.len()
    }

    /// What is kept at an index.
    pub(crate) fn index(&self, index: usize) -> &Kept<S>
        requires { index < length self.now.items }
        ensures { result.now ≡ get_or self.now.items index result.now }
    {
        match self.kept.get(index) {
            Some(kept) => kept,
            None => unreachable!(),
        }
    }

    /// Keeps one in front of the others.
    pub(crate) fn push(&mut self, kept: Kept<S>)
        ensures { self.new ≡
            buffer (take self.old.capacity (kept ∷ self.old.items)) self.old.capacity }
    {
        let _ = self.fingerprints.push_front(kept.subject.fingerprint());
        let _ = self.kept.push_front(kept);
    }

    /// What is kept at an index, if it has this fingerprint.
    fn candidate(&self, index: usize, fingerprint: u64) -> Option<&Kept<S>>
        requires { index < length self.now.items }
        ensures found { IfSome result (λ kept. kept.now ≡ get_or self.now.items index kept.now) }
        ensures missed { IfNone result ((kept : Kept S) →
            S.print (get_or self.now.items index kept).subject ≢ fingerprint) }
    {
        match self.fingerprints.get(index) {
            Some(own) if *own == fingerprint => self.kept.get(index),
            _ => None,
        }
    }

    /// Whether one of them names this index of the table of access servers.
    #[tactic(auto, using(crate::proofs::Naming::kept_parts))]
    pub(crate) fn names(&self, nas: usize) -> bool
        ensures { result ≡ named_by_kept self.now.items nas }
    {
        let (newer, older) = self.kept.as_slices();
        is_named_in(newer, nas) || is_named_in(older, nas)
    }

    /// Notes a sweep of an access server, told `delay` seconds late at this clock.
    pub(crate) fn sweep(&mut self, servers: &Servers, nas: &Nas, delay: u64, now: u64)
        ensures { self.new ≡ buffer (map (sweep_kept servers.now nas.now delay now) self.old.items)
            self.old.capacity }
    {
        sweep_each(self.kept.make_contiguous(), servers, nas, delay, now);
    }

    /// Whether two rings keep equal ones at an index.
    fn is_same_at(&self, index: usize, servers: &Servers, other: &Ring<S>, others: &Servers) -> bool
        requires within { index < length self.now.items }
        requires other_within { index < length other.now.items }
        ensures { (one two : Kept S) → IsTrue result ↔
            (kept_seen servers.now (get_or self.now.items index one) ≡
            kept_seen others.now (get_or other.now.items index two)) }
    {
        match (self.kept.get(index), other.kept.get(index)) {
            (Some(one), Some(two)) => one.is_same(servers, two, others),
            _ => false,
        }
    }

    /// Whether two rings keep equal ones in the same order.
    #[tactic(auto, using(rsl_links::proofs::Callers::same_steps), unfolding(crate::specs::Seen::all_seen))]
    fn is_same(&self, servers: &Servers, other: &Ring<S>, others: &Servers) -> bool
        ensures { IsTrue result ↔
            (all_seen servers.now self.now.items ≡ all_seen others.now other.now.items) }
    {
        if self.len() != other.len() {
            return false;
        }
        for index in 0..self.len() {
            if !self.is_same_at(index, servers, other, others) {
                return false;
            }
        }
        true
    }

    /// An equal ring. It fails only if memory is refused.
    pub(crate) fn try_copy(&self, alloc: Global) -> Result<Ring<S>, NoMemory>
        ensures { IfOk result (λ copy. copy ≡ self.now) }
    {
        let mut copy = Ring::new(alloc, self.kept.capacity())?;
        let (newer, older) = self.fingerprints.as_slices();
        copy.fingerprints.fill_from_slice(newer);
        copy.fingerprints.fill_from_slice(older);
        let (newer, older) = self.kept.as_slices();
        push_copies(alloc, &mut copy.kept, newer)?;
        push_copies(alloc, &mut copy.kept, older)?;
        Ok(copy)
    }
}

impl Ring<DecidedAsk> {
    #[tactic(auto, using(crate::proofs::Ringed::ask_steps), unfolding(crate::specs::Seen::asks_seen))]
    /// The decision of the latest ask that an ask of this key repeats.
    pub(crate) fn repeated(
        &self,
        servers: &Servers,
        rules: &Rules,
        key: &Key,
        now: u64,
    ) -> Option<Decision>
        ensures { result ≡ option_map (λ (ask : KeptAsk). ask.decision) (find
            (repeats rules.now key.now now) (asks_seen servers.now self.now.items)) }
    {
        let fingerprint = key_fingerprint(key);
        for index in 0..self.len() {
            if let Some(ask) = self.candidate(index, fingerprint) {
                if ask.is_repeated(servers, rules, key, now) {
                    return Some(ask.subject.decision);
                }
            }
        }
        None
    }

    /// Whether two rings keep equal asks in the same order.
    pub(crate) fn has_same_asks(
        &self,
        servers: &Servers,
        other: &Ring<DecidedAsk>,
        others: &Servers,
    ) -> bool
        ensures { IsTrue result ↔
            (asks_seen servers.now self.now.items ≡ asks_seen others.now other.now.items) }
    {
        self.is_same(servers, other, others)
    }
}

impl Ring<EndedSession> {
    /// Whether one closes the session of this id at an access server.
    #[tactic(auto, using(crate::proofs::Ringed::stop_steps), unfolding(crate::specs::Seen::stops_seen))]
    pub(crate) fn closes(
        &self,
        servers: &Servers,
        rules: &Rules,
        now: u64,
        nas: &Nas,
        id: &Octets,
    ) -> bool
        ensures { result ≡ list_any (closes rules.now (record { nas = nas.now; id = id.now }) now)
            (stops_seen servers.now self.now.items) }
    {
        let fingerprint = id_fingerprint(id.as_slice());
        for index in 0..self.len() {
            if let Some(stop) = self.candidate(index, fingerprint) {
                if stop.closes(servers, rules, now, nas, id) {
                    return true;
                }
            }
        }
        false
    }

    /// Whether two rings keep equal stops in the same order.
    pub(crate) fn has_same_stops(
        &self,
        servers: &Servers,
        other: &Ring<EndedSession>,
        others: &Servers,
    ) -> bool
        ensures { IsTrue result ↔
            (stops_seen servers.now self.now.items ≡ stops_seen others.now other.now.items) }
    {
        self.is_same(servers, other, others)
    }
}
