//! Watchers, which learn how datagrams ended.

use crate::end::End;
use crate::origin::Origin;
use crate::subject::Subject;
use rsl_event::Detail;

/// What a watcher learns of a datagram.
#[derive(Clone, Copy)]
pub struct Ended<'a> {
    /// Its origin.
    pub origin: Origin,
    /// The number of the client that has the address of its source, if there is one.
    pub client: Option<u32>,
    /// Its octets. A datagram that was dropped or refused memory has none here.
    pub octets: &'a [u8],
    /// What else was read of it. A datagram that was dropped or refused memory has none here.
    pub detail: Option<Detail>,
    /// Whom it concerns. A datagram that was dropped or refused memory has none here.
    pub subject: Option<Subject>,
    /// How it ended.
    pub end: End,
}

/// Learns how each datagram ended, such as counters or a log.
///
/// A watcher in memory also reports to contracts how many turns have begun, and can say of a list
/// whether it has learned this of datagrams, in order. Any other says nothing.
pub trait Watch {
    ghost use Rattle.std.specs.Prelude.{◌≡◌, ℕ, List, [], ◌∷◌, Option, None};
    ghost use Rattle.rld_turn.specs.Told.{HasBegun, HasTold, Told as OneTold, told_as};

    ghost turns: { Self → Option ℕ } = { λ _. None };

    ghost knows: { Self → List OneTold → Type 0 } = { λ _ _. Unit {0} };

    /// Notes that a turn begins. A receiver calls it once in each turn, before it reads its clock.
    fn begin(&mut self)
        ensures begun { HasBegun (turns self.old) (turns self.new) }
        ensures told { (told : List OneTold) → knows self.old told → knows self.new told };

    /// Notes how a datagram has ended. A receiver calls it once for each datagram that it took, in
    /// order, after the answer was sent.
    fn note(&mut self, ended: Ended<'_>)
        ensures turns { turns self.new ≡ turns self.old }
        ensures told { HasTold (told_as ended.entry ∷ []) (knows self.old) (knows self.new) };

    /// Notes that the turn is over: each of its datagrams has ended, and was noted.
    fn finish(&mut self)
        ensures turns { turns self.new ≡ turns self.old }
        ensures told { (told : List OneTold) → knows self.old told → knows self.new told };
}
