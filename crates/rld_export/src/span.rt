ghost use Rattle.std.specs.Prelude.{◌≡◌};
ghost use Rattle.rld_export.specs.Text.{began_before, ended_from, is_of};

use crate::session::{End, Held};

/// A span of time, in seconds since 1970.
#[derive(Clone, Copy)]
pub struct Span {
    /// Its first second.
    pub since: u64,
    /// The first second after it.
    pub until: u64,
}

/// Whether a session began before a moment, or before the first log.
fn began_before(until: u64, began: Option<u64>) -> bool
    ensures { result ≡ began_before until began }
{
    match began {
        Some(moment) => moment < until,
        None => true,
    }
}

/// Whether a session ended at a moment or later, or is still held.
fn ended_from(since: u64, end: Option<End>) -> bool
    ensures { result ≡ ended_from since end }
{
    match end {
        Some(end) => since <= end.at,
        None => true,
    }
}

impl Span {
    /// Whether a session was held at some moment of the span: it began before its end, and ended in
    /// it or later, if at all.
    #[tactic(auto, unfolding(crate::specs::Text::is_of))]
    pub(crate) fn has(self, held: &Held, end: Option<End>) -> bool
        ensures { result ≡ is_of self held.now end }
    {
        began_before(self.until, held.began) && ended_from(self.since, end)
    }
}
