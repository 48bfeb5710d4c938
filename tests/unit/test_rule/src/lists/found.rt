use rsl_session::Outcome;
use std::fmt;

/// How often each kind of outcome came, in the order of its variants; then how often an ask did
/// otherwise than it would have without its station, and how often a sweep with a delay left links
/// that it would have ended without. And how often such a sweep ended links beside those.
#[derive(Clone, Copy)]
pub(crate) struct Found {
    times: [u64; 12],
    parted: u64,
}

impl Found {
    /// None of any kind.
    pub(crate) fn none() -> Found {
        Found {
            times: [0; 12],
            parted: 0,
        }
    }

    /// One more of this kind.
    pub(crate) fn note(&mut self, outcome: Outcome) {
        self.count(kind_of(outcome));
    }

    /// One more ask with a station, with what it did and what it would have done without.
    pub(crate) fn note_station(&mut self, did: Outcome, without: Outcome) {
        if kind_of(did) != kind_of(without) {
            self.count(10);
        }
    }

    /// One more sweep, with the links before it, those that it left, and those that it would have left
    /// without its delay.
    pub(crate) fn note_sweep(&mut self, before: u64, left: u64, without: u64) {
        if left > without {
            self.count(11);
            self.parted = self.parted.saturating_add(u64::from(left < before));
        }
    }

    /// How often a sweep with a delay ended some links of an access server and left others.
    pub(crate) fn parted(&self) -> u64 {
        self.parted
    }

    fn count(&mut self, kind: usize) {
        self.times[kind] = self.times[kind].saturating_add(1);
    }

    /// How often the rarest kind came.
    pub(crate) fn least(&self) -> u64 {
        let mut least = u64::MAX;
        for times in &self.times {
            least = least.min(*times);
        }
        least
    }
}

/// The number of a kind of outcome.
fn kind_of(outcome: Outcome) -> usize {
    match outcome {
        Outcome::Accepted(_) => 0,
        Outcome::AcceptedInPlace { .. } => 1,
        Outcome::Refused => 2,
        Outcome::Repeated(_) => 3,
        Outcome::Opened => 4,
        Outcome::Took(_) => 5,
        Outcome::Renewed(_) => 6,
        Outcome::Ignored => 7,
        Outcome::Over => 8,
        Outcome::Passed => 9,
    }
}

impl fmt::Display for Found {
    fn fmt<W: fmt::Write>(&self, f: &mut fmt::Formatter<W>) -> fmt::Result {
        write!(f, "{:?} {}", self.times, self.parted)
    }
}
