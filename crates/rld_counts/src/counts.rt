ghost use Rattle.std.specs.Prelude.{◌≡◌, ◌≢◌, ◌+◌, ◌∷◌, ◌++◌, [], List, length, sum};
ghost use Rattle.rld_counts.specs.Counts.{count_in, counts_of, total_at};
ghost use Rattle.rld_counts.specs.Tally.{kept};
ghost use Rattle.rld_counts.specs.declared.fate.Fate.{Fate as OneFate};

use crate::fate::{FATES, Fate};
use crate::gate::Gate;
use crate::tally;
use std::marker::Model;

/// Numbers of datagrams, by how they ended. A contract sees the list of the counts, in the order of
/// the fates' numbers. A count stops at 2^64 - 1.
#[derive(Clone, Copy)]
pub struct Counts {
    counters: [u64; FATES],
}

impl Model for Counts {
    ghost use Rattle.std.specs.Prelude.{◌≡◌, List, ℕ, length};

    ghost Value = { List ℕ };

    ghost view = { λ counts. counts.counters };

    ghost invariant = { λ counts. length counts.counters ≡ 114 };

    ghost inverse = { λ counters. record { counters = counters } };
}

impl Counts {
    /// The counts of no datagram.
    #[tactic(auto, unfolding(crate::specs::Tally::tally_of, crate::specs::Tally::how_many))]
    pub fn new() -> Counts
        ensures { result ≡ counts_of [] }
    {
        Counts {
            counters: [0; FATES],
        }
    }

    /// Counts a datagram that ended in this way.
    pub fn note(&mut self, fate: Fate)
        ensures own { count_in self.new fate ≡ kept (count_in self.old fate + 1) }
        ensures others { (other : OneFate) → other ≢ fate →
            count_in self.new other ≡ count_in self.old other }
        ensures noted { (fates : List OneFate) → self.old ≡ counts_of fates →
            self.new ≡ counts_of (fates ++ fate ∷ []) }
    {
        tally::note(&mut self.counters, fate.number());
    }

    /// The number of datagrams that ended in this way.
    pub fn count(&self, fate: Fate) -> u64
        ensures { result ≡ count_in self.now fate }
    {
        self.counters[fate.number()]
    }

    /// The number of all datagrams, the sum of the counts.
    pub fn received(&self) -> u64
        ensures sum { result ≡ kept (sum self.now) }
        ensures noted { (fates : List OneFate) → self.now ≡ counts_of fates →
            result ≡ kept (length fates) }
    {
        tally::sum(&self.counters)
    }

    /// The number of datagrams that came to this gate and ended.
    pub fn total_at(&self, gate: Gate) -> u64
        ensures { result ≡ total_at self.now gate }
    {
        let mut sum = 0u64;
        for cause in gate.causes() {
            let fate = Fate {
                gate,
                cause: *cause,
            };
            sum = sum.saturating_add(self.count(fate));
        }
        sum
    }

    /// Adds the counts of other datagrams.
    pub fn add(&mut self, other: &Counts)
        ensures each { (fate : OneFate) → count_in self.new fate
            ≡ kept (count_in self.old fate + count_in other.now fate) }
        ensures joined { (fates others : List OneFate) → self.old ≡ counts_of fates →
            other.now ≡ counts_of others → self.new ≡ counts_of (fates ++ others) }
    {
        tally::add(&mut self.counters, &other.counters);
    }
}
