ghost use Rattle.std.specs.Prelude.{◌≡◌, ◌≢◌, ℕ, ◌<◌, IfOk, IfNone, IfSome, length, set};
ghost use Rattle.rsl_links.specs.Fingerprints.{fingerprint_of, fingerprint_with};
ghost use Rattle.rsl_links.specs.Named.{IsIndex};
ghost use Rattle.rsl_links.specs.Seen.{server_at, unnamed};
ghost use Rattle.rsl_session.specs.Same.{same_nas};

use rsl_event::{Nas, NasName};
use rsl_wire::NoMemory;
use std::alloc::Global;
use std::marker::Model;

/// The access servers that a book names. All its memory is allocated at once.
///
/// Beside each is its fingerprint, with which one comparison rules out most others.
#[derive(Drop)]
pub struct Servers {
    fingerprints: Vec<u32>,
    table: Vec<Nas>,
    beyond: Nas,
}

impl Model for Servers {
    ghost use Rattle.std.specs.Prelude.{◌≡◌, List};
    ghost use Rattle.rsl_event.specs.declared.nas.Nas.{Nas};

    ghost Value = { List Nas };

    ghost view = { λ s. s.table.items };

    ghost use Rattle.rsl_event.specs.declared.nas.NasName.TheVariants.{Unnamed};
    ghost use Rattle.rsl_links.specs.Fingerprints.{fingerprints_of};

    ghost invariant = { λ s. (s.beyond ≡ record { client = 0; name = Unnamed }) ×
        (s.fingerprints.items ≡ fingerprints_of s.table.items) };
}

/// The fingerprint of octets after those of the fingerprint `start`.
#[tactic(auto, using(crate::proofs::Fingerprints::fingerprint_steps))]
fn fingerprint_with(start: u32, octets: &[u8]) -> u32
    ensures { result ≡ fingerprint_with start octets.now }
{
    let mut fingerprint = start;
    for octet in octets {
        fingerprint = fingerprint.wrapping_mul(31).wrapping_add(*octet as u32);
    }
    fingerprint
}

/// The fingerprint of an access server.
fn fingerprint_of(nas: &Nas) -> u32
    ensures { result ≡ fingerprint_of nas.now }
{
    match &nas.name {
        NasName::Identifier(name) => fingerprint_with(nas.client, name.as_slice()),
        NasName::Address(address) => fingerprint_with(nas.client, address.as_slice()),
        NasName::Unnamed => fingerprint_with(nas.client, &[]),
    }
}

/// The access server of a free row.
fn nobody() -> Nas
    ensures { result ≡ unnamed }
{
    Nas {
        client: 0,
        name: NasName::Unnamed,
    }
}

impl Servers {
    /// A table with this many free rows.
    pub fn new(alloc: Global, room: usize) -> Result<Servers, NoMemory>
        ensures { IfOk result (λ servers. length servers ≡ room) }
    {
        let mut fingerprints = Vec::with_capacity(alloc, room)?;
        let mut table = Vec::with_capacity(alloc, room)?;
        while table.len() < room {
            let nas = nobody();
            fingerprints.push(fingerprint_of(&nas))?;
            table.push(nas)?;
        }
        Ok(Servers {
            fingerprints,
            table,
            beyond: nobody(),
        })
    }

    /// An equal table. It fails only if memory is refused.
    #[tactic(auto, using(crate::proofs::Lists::copy_steps))]
    pub fn try_copy(&self, alloc: Global) -> Result<Servers, NoMemory>
        ensures { IfOk result (λ copy. copy ≡ self.now) }
    {
        let mut table = Vec::with_capacity(alloc, self.table.len())?;
        for nas in &self.table {
            table.push(nas.try_copy(alloc)?)?;
        }
        Ok(Servers {
            fingerprints: Vec::from_slice(alloc, &self.fingerprints)?,
            table,
            beyond: nobody(),
        })
    }

    /// The number of rows.
    pub fn len(&self) -> usize
        ensures { result ≡ length self.now }
    {
        self.table.len()
    }

    /// The access server at an index.
    pub fn at(&self, at: usize) -> &Nas
        ensures { result.now ≡ server_at self.now at }
    {
        if at < self.table.len() {
            &self.table[at]
        } else {
            &self.beyond
        }
    }

    /// Whether this access server is the one at an index.
    pub fn is_at(&self, at: usize, nas: &Nas) -> bool
        ensures { result ≡ same_nas (server_at self.now at) nas.now }
    {
        self.at(at).is_same(nas)
    }

    /// `is_at` with its operands swapped.
    pub fn is_as(&self, nas: &Nas, at: usize) -> bool
        ensures { result ≡ same_nas nas.now (server_at self.now at) }
    {
        nas.is_same(self.at(at))
    }

    /// Index 0, if this access server is there.
    fn first(&self, nas: &Nas) -> Option<usize>
        ensures found { IfSome result (λ at. server_at self.now at ≡ nas.now) }
        ensures index { IfSome result (λ at. IsIndex self.now at) }
    {
        if !self.table.is_empty() && self.at(0).is_same(nas) {
            Some(0)
        } else {
            None
        }
    }

    /// The first index of an access server, if it is in the table. Most accounts log in at one
    /// access server, so index 0 is tried before any fingerprint is computed.
    pub fn find(&self, nas: &Nas) -> Option<usize>
        ensures found { IfSome result (λ at. server_at self.now at ≡ nas.now) }
        ensures index { IfSome result (λ at. IsIndex self.now at) }
        ensures missed { IfNone result ((at : ℕ) → at < length self.now →
            server_at self.now at ≢ nas.now) }
    {
        if let Some(first) = self.first(nas) {
            return Some(first);
        }
        let fingerprint = fingerprint_of(nas);
        for at in 0..self.table.len() {
            if self.fingerprints[at] == fingerprint && self.at(at).is_same(nas) {
                return Some(at);
            }
        }
        None
    }

    /// Puts an access server at an index.
    pub fn put(&mut self, at: usize, nas: Nas)
        requires { at < length self.old }
        ensures { self.new ≡ set self.old at nas }
    {
        self.fingerprints[at] = fingerprint_of(&nas);
        self.table[at] = nas;
    }
}
