ghost use Rattle.std.specs.Prelude.{◌≡◌, ◌↔◌, ℕ, IfOk, IsTrue, ◌&&◌, ◌||◌, length};
ghost use Rattle.std.specs.Int.{w64, from_be_bytes};
ghost use Rattle.rsl_session.specs.Same.{same_nas};
ghost use Rattle.rsl_session.specs.Sweep.{precedes};
ghost use Rattle.rsl_session.specs.Ask.{repeats};
ghost use Rattle.rsl_session.specs.Closed.{closes};
ghost use Rattle.rsl_links.specs.Seen.{server_at};
ghost use Rattle.rsl_book.specs.Fingerprint.{id_fingerprint, key_fingerprint};
ghost use Rattle.rsl_book.specs.Seen.{ask_seen, kept_seen, stop_seen};

use rsl_accounts::Rules;
use rsl_event::{Decision, Key, Nas};
use rsl_links::Servers;
use rsl_wire::{NoMemory, Octets};
use std::alloc::Global;

/// What a book keeps: an ask with its decision, or the session of a stop. Equal ones have equal
/// fingerprints, so that one comparison rules out most others.
pub(crate) trait Subject: Drop {
    ghost print: { Self → ℕ };

    /// Its fingerprint.
    fn fingerprint(&self) -> u64
        ensures { result ≡ print self.now };

    /// Whether two subjects are equal.
    fn is_same(&self, other: &Self) -> bool
        ensures { IsTrue result ↔ (self.now ≡ other.now) };

    /// An equal subject. It fails only if memory is refused.
    fn try_copy(&self, alloc: Global) -> Result<Self, NoMemory>
        ensures { IfOk result (λ copy. copy ≡ self.now) };
}

/// A fresh ask and its decision, kept for the ask's repeats.
#[derive(Clone, Copy, Drop)]
pub(crate) struct DecidedAsk {
    /// The key of the ask.
    pub key: Key,
    /// The decision.
    pub decision: Decision,
}

/// The session of a stop, kept to ignore its late packets. Its access server is that of the stop.
#[derive(Drop)]
pub(crate) struct EndedSession {
    /// The Acct-Session-Id.
    pub id: Octets,
}

/// A kept ask or stop.
#[derive(Drop)]
pub(crate) struct Kept<S: Subject> {
    /// The ask or the session.
    pub subject: S,
    /// The clock when it came.
    pub at: u64,
    /// Whether a sweep voided it.
    pub swept: bool,
    /// Its access server, by its index in the table.
    pub nas: usize,
}

/// Eight octets as a number, high octet first.
fn number_of(octets: &[u8]) -> u64
    requires { length octets.now ≡ 8 }
    ensures { result ≡ from_be_bytes w64 octets.now }
{
    u64::from_be_bytes([
        octets[0], octets[1], octets[2], octets[3], octets[4], octets[5], octets[6], octets[7],
    ])
}

/// The fingerprint of an ask's key.
#[tactic(auto, unfolding(crate::specs::Fingerprint::key_fingerprint))]
pub(crate) fn key_fingerprint(key: &Key) -> u64
    ensures { result ≡ key_fingerprint key.now }
{
    let high = number_of(&key.authenticator[..8]);
    let low = number_of(&key.authenticator[8..]);
    let sender = u64::from(key.id) * 65_536 + u64::from(key.source.port);
    high.wrapping_add(low).wrapping_add(sender)
}

/// The fingerprint of a session's id.
#[tactic(auto, using(crate::proofs::Fingerprinted::print_steps))]
pub(crate) fn id_fingerprint(octets: &[u8]) -> u64
    ensures { result ≡ id_fingerprint octets.now }
{
    let mut print = 0u64;
    for octet in octets {
        print = print.wrapping_mul(31).wrapping_add(u64::from(*octet));
    }
    print
}

impl Subject for DecidedAsk {
    ghost use Rattle.rsl_book.specs.Fingerprint.{key_fingerprint};

    ghost print = { λ ask. key_fingerprint ask.key };

    fn fingerprint(&self) -> u64 {
        key_fingerprint(&self.key)
    }

    fn is_same(&self, other: &DecidedAsk) -> bool {
        self.key.is_same(&other.key) && self.decision == other.decision
    }

    fn try_copy(&self, _alloc: Global) -> Result<DecidedAsk, NoMemory> {
        Ok(*self)
    }
}

impl Subject for EndedSession {
    ghost use Rattle.rsl_book.specs.Fingerprint.{id_fingerprint};

    ghost print = { λ session. id_fingerprint session.id };

    fn fingerprint(&self) -> u64 {
        id_fingerprint(self.id.as_slice())
    }

    fn is_same(&self, other: &EndedSession) -> bool {
        self.id == other.id
    }

    fn try_copy(&self, alloc: Global) -> Result<EndedSession, NoMemory> {
        Ok(EndedSession {
            id: self.id.try_copy(alloc)?,
        })
    }
}

impl<S: Subject> Kept<S> {
    /// Whether it equals one of another book.
    #[tactic(auto, unfolding(crate::specs::Seen::kept_seen))]
    pub(crate) fn is_same(&self, servers: &Servers, other: &Kept<S>, others: &Servers) -> bool
        ensures { IsTrue result ↔ (kept_seen servers.now self.now ≡ kept_seen others.now other.now) }
    {
        self.subject.is_same(&other.subject)
            && servers.at(self.nas).is_same(others.at(other.nas))
            && self.at == other.at
            && self.swept == other.swept
    }

    /// An equal one. It fails only if memory is refused.
    pub(crate) fn try_copy(&self, alloc: Global) -> Result<Kept<S>, NoMemory>
        ensures { IfOk result (λ copy. copy ≡ self.now) }
    {
        Ok(Kept {
            subject: self.subject.try_copy(alloc)?,
            at: self.at,
            swept: self.swept,
            nas: self.nas,
        })
    }

    /// Notes a sweep of an access server, told `delay` seconds late at this clock.
    pub(crate) fn sweep(&mut self, servers: &Servers, nas: &Nas, delay: u64, now: u64)
        ensures { self.new ≡ record self.old {
          swept = self.old.swept || (same_nas nas.now (server_at servers.now self.old.nas)
              && precedes self.old.at delay now);
        } }
    {
        self.swept = self.swept
            || (servers.is_as(nas, self.nas) && delay <= now.saturating_sub(self.at));
    }
}

impl Kept<DecidedAsk> {
    /// Whether an ask of this key, at this clock, repeats it.
    #[tactic(auto, unfolding(crate::specs::Seen::ask_seen, rsl_session::specs::Ask::repeats))]
    pub(crate) fn is_repeated(&self, servers: &Servers, rules: &Rules, key: &Key, now: u64) -> bool
        ensures { result ≡ repeats rules.now key.now now (ask_seen servers.now self.now) }
    {
        self.subject.key.is_same(key) && now.saturating_sub(self.at) < rules.keep && !self.swept
    }
}

impl Kept<EndedSession> {
    /// Whether it closes the session of this id at an access server.
    #[tactic(auto, unfolding(crate::specs::Seen::stop_seen, rsl_session::specs::Closed::closes, rsl_session::specs::Same::same_session))]
    pub(crate) fn closes(
        &self,
        servers: &Servers,
        rules: &Rules,
        now: u64,
        nas: &Nas,
        id: &Octets,
    ) -> bool
        ensures { result ≡ closes rules.now (record { nas = nas.now; id = id.now }) now
            (stop_seen servers.now self.now) }
    {
        servers.is_at(self.nas, nas)
            && self.subject.id == *id
            && now.saturating_sub(self.at) < rules.closed
            && !self.swept
    }
}
