ghost use Rattle.std.specs.Prelude.{◌≡◌, ◌<◌, ◌∷◌, ◌++◌, [], IfOk, List, length, map, replicate, slice_get, slice_index_or, ℕ};
ghost use Rattle.rld_counts.specs.Cell.{AreCounted, AreJoined, HasCounted, HasTimes, for_clients, without_clients};
ghost use Rattle.rld_counts.specs.Counted.{unread, within};
ghost use Rattle.rld_counts.specs.declared.counted.Counted.{Counted as OneCounted};

use crate::client_counts::ClientCounts;
use crate::counted::Counted;
use crate::counts::Counts;
use crate::fate::Fate;
use crate::histogram::Histogram;
use std::alloc::{AllocError, Global};
use std::marker::Model;

/// The counts of a receiver: how its datagrams ended, in total and for each client, and how long
/// the answers took. They are always those of some datagrams, and of nothing else.
#[derive(Drop)]
pub struct Cell {
    counts: Counts,
    clients: Vec<Counts>,
    times: Histogram,
}

impl Model for Cell {
    ghost use Rattle.rld_counts.specs.Cell.{CellSeen, IsCount};

    ghost Value = { CellSeen };

    ghost view = { λ cell. record {
      counts = cell.counts;
      clients = cell.clients.items;
      times = cell.times;
    } };

    ghost invariant = { λ cell. ∥ IsCount (record {
      counts = cell.counts;
      clients = cell.clients.items;
      times = cell.times;
    }) ∥₁ };
}

impl Cell {
    /// An empty cell, with counts for each of `clients` clients. It fails only if memory is
    /// refused.
    pub fn new(alloc: Global, clients: u32) -> Result<Cell, AllocError>
        ensures none { IfOk result (HasCounted []) }
        ensures clients { IfOk result (λ cell. length cell.clients ≡ clients) }
    {
        let clients = ClientCounts::new(alloc, clients)?;
        Ok(Cell {
            counts: Counts::new(),
            clients: clients.into_each(),
            times: Histogram::new(),
        })
    }

    /// Counts a datagram. One of a client that the cell is not for is counted in the total alone.
    pub fn note(&mut self, counted: Counted)
        ensures noted { (all : List OneCounted) → HasCounted all self.old →
            HasCounted (all ++ counted ∷ []) self.new }
        ensures clients { length self.new.clients ≡ length self.old.clients }
    {
        self.counts.note(counted.fate);
        note_client(&mut self.clients, counted);
        note_time(&mut self.times, counted);
    }

    /// Counts the datagrams of a turn that took `micros` microseconds, in their order.
    pub fn note_turn(&mut self, turn: &[Counted], micros: Option<u64>)
        ensures noted { (all : List OneCounted) → HasCounted all self.old →
            HasCounted (all ++ map (within micros) turn.now) self.new }
        ensures clients { length self.new.clients ≡ length self.old.clients }
    {
        for counted in turn {
            self.note(counted.within(micros));
        }
    }

    /// Counts requests that were refused unread: `number` of them, with this fate and of no client.
    pub fn note_unread(&mut self, fate: Fate, number: u64)
        ensures noted { (all : List OneCounted) → HasCounted all self.old →
            HasCounted (all ++ replicate number (unread fate)) self.new }
        ensures clients { length self.new.clients ≡ length self.old.clients }
    {
        for _ in 0..number {
            self.note(Counted {
                fate,
                client: None,
                micros: None,
            });
        }
    }

    /// Begins to count by client again, since client numbers mean other clients from now on. The
    /// total counts and the times go on; earlier datagrams then belong to no client.
    pub fn renew(&mut self, clients: ClientCounts)
        ensures anew { (all : List OneCounted) → HasCounted all self.old →
            HasCounted (without_clients all) self.new }
        ensures clients { length self.new.clients ≡ clients }
    {
        self.clients = clients.into_each();
    }

    /// Adds the counts of another receiver. If they are for another number of clients, its client numbers
    /// mean other clients, so they are added to the total counts and the times alone.
    pub fn add(&mut self, other: &Cell)
        ensures added { (all others : List OneCounted) → HasCounted all self.old →
            HasCounted others other.now →
            HasCounted (all ++ for_clients (length self.old.clients) other.now others) self.new }
        ensures clients { length self.new.clients ≡ length self.old.clients }
    {
        if other.clients() == self.clients() {
            self.add_all(other);
        } else {
            self.add_in_all(other);
        }
    }

    /// Adds the counts of another receiver for the same clients.
    pub(crate) fn add_all(&mut self, other: &Cell)
        requires { length other.now.clients ≡ length self.old.clients }
        ensures joined { (all others : List OneCounted) → HasCounted all self.old →
            HasCounted others other.now → HasCounted (all ++ others) self.new }
        ensures clients { length self.new.clients ≡ length self.old.clients }
    {
        self.counts.add(&other.counts);
        add_clients(&mut self.clients, other.clients.as_slice());
        self.times.add(&other.times);
    }

    /// Adds the counts of another receiver for other clients: to the total counts and the times
    /// alone.
    fn add_in_all(&mut self, other: &Cell)
        ensures joined { (all others : List OneCounted) → HasCounted all self.old →
            HasCounted others other.now → HasCounted (all ++ without_clients others) self.new }
        ensures clients { length self.new.clients ≡ length self.old.clients }
    {
        self.counts.add(&other.counts);
        self.times.add(&other.times);
    }

    /// How all datagrams ended.
    pub fn counts(&self) -> Counts
        ensures { result ≡ self.now.counts }
    {
        self.counts
    }

    /// The number of clients that it is for.
    pub fn clients(&self) -> usize
        ensures { result ≡ length self.now.clients }
    {
        self.clients.len()
    }

    /// How the datagrams of a client ended, if the cell is for it.
    pub fn client(&self, client: u32) -> Option<Counts>
        ensures { result ≡ slice_get self.now.clients client }
    {
        self.clients.as_slice().get(client as usize).copied()
    }

    /// How long the answers took.
    pub fn times(&self) -> Histogram
        ensures { result ≡ self.now.times }
    {
        self.times
    }
}

/// Counts a datagram for its client.
fn note_client(clients: &mut Vec<Counts>, counted: Counted)
    ensures len { length clients.new.items ≡ length clients.old.items }
    ensures noted { (all : List OneCounted) → AreCounted all clients.old.items →
        AreCounted (all ++ counted ∷ []) clients.new.items }
{
    note_among(clients.as_mut_slice(), counted);
}

/// Counts a datagram for its client, if it is among these.
fn note_among(clients: &mut [Counts], counted: Counted)
    ensures len { length clients.new ≡ length clients.old }
    ensures noted { (all : List OneCounted) → AreCounted all clients.old →
        AreCounted (all ++ counted ∷ []) clients.new }
{
    let Some(client) = counted.client else {
        return;
    };
    let client = client as usize;
    if client < clients.len() {
        clients[client].note(counted.fate);
    }
}

/// Counts the time of a datagram's answer, if it was answered.
fn note_time(times: &mut Histogram, counted: Counted)
    ensures { (all : List OneCounted) → HasTimes all times.old →
        HasTimes (all ++ counted ∷ []) times.new }
{
    match counted.micros {
        Some(micros) => times.note(micros),
        None => {}
    }
}

/// Adds the counts of each client.
fn add_clients(clients: &mut Vec<Counts>, others: &[Counts])
    requires { length others.now ≡ length clients.old.items }
    ensures len { length clients.new.items ≡ length clients.old.items }
    ensures joined { (client : ℕ) → client < length clients.new.items →
        AreJoined (slice_index_or clients.old.items client [])
        (slice_index_or others.now client []) (slice_index_or clients.new.items client []) }
{
    add_each(clients.as_mut_slice(), others);
}

/// Adds counts of clients one by one.
fn add_each(clients: &mut [Counts], others: &[Counts])
    requires { length others.now ≡ length clients.old }
    ensures len { length clients.new ≡ length clients.old }
    ensures joined { (client : ℕ) → client < length clients.new →
        AreJoined (slice_index_or clients.old client []) (slice_index_or others.now client [])
        (slice_index_or clients.new client []) }
{
    for client in 0..clients.len() {
        clients[client].add(&others[client]);
    }
}
