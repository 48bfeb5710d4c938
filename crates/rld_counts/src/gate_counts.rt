//! What the receivers of all gates have counted.

ghost use Rattle.std.specs.Prelude.{◌≡◌, IfOk, List, length};
ghost use Rattle.rld_counts.specs.Cell.{HasCounted, HasTimes};
ghost use Rattle.rld_counts.specs.Reading.{HaveCounted, all_of, counts_in, logins_of};
ghost use Rattle.rld_counts.specs.declared.counted.Counted.{Counted as OneCounted};
ghost use Rattle.rld_counts.specs.declared.reading.Reading.{Reading as OneReading};

use crate::cell::Cell;
use crate::counts::Counts;
use crate::gate::Gate;
use crate::histogram::Histogram;
use crate::reading::{Reading, cell_of, counts_of};
use std::alloc::{AllocError, Global};

/// What the receivers of all gates have counted.
#[derive(Drop)]
pub struct GateCounts {
    /// How all datagrams ended.
    pub counts: Counts,
    /// The counts of the authentication port, and of asks.
    pub logins: Cell,
    /// The counts of the accounting port.
    pub acct: Cell,
    /// How long the answers of the authentication port took.
    pub auth_times: Histogram,
    /// How long the answers of the accounting port took.
    pub acct_times: Histogram,
    /// How long the answers to asks took.
    pub ask_times: Histogram,
}

impl GateCounts {
    /// The sums of these receivers' counts, for each of `clients` clients. A receiver that counts
    /// for another number of clients is only in the total counts and the times. It fails only if
    /// memory is refused.
    pub fn of(alloc: Global, readings: &[Reading], clients: u32) -> Result<GateCounts, AllocError>
        ensures counts { IfOk result (λ all. (had : OneReading → List OneCounted) →
            HaveCounted had readings.now → all.counts ≡ counts_in had readings.now) }
        ensures logins { IfOk result (λ all. (had : OneReading → List OneCounted) →
            HaveCounted had readings.now → HasCounted (logins_of clients had readings.now) all.logins) }
        ensures acct { IfOk result (λ all. (had : OneReading → List OneCounted) →
            HaveCounted had readings.now → HasCounted (all_of Gate.Acct clients had readings.now) all.acct) }
        ensures clients { IfOk result (λ all.
            (length all.logins.clients ≡ clients) × (length all.acct.clients ≡ clients)) }

        // How long answers took.
        ensures auth_times { IfOk result (λ all. (had : OneReading → List OneCounted) →
            HaveCounted had readings.now → HasTimes (all_of Gate.Auth clients had readings.now) all.auth_times) }
        ensures acct_times { IfOk result (λ all. (had : OneReading → List OneCounted) →
            HaveCounted had readings.now → HasTimes (all_of Gate.Acct clients had readings.now) all.acct_times) }
        ensures ask_times { IfOk result (λ all. (had : OneReading → List OneCounted) →
            HaveCounted had readings.now → HasTimes (all_of Gate.Ask clients had readings.now) all.ask_times) }
    {
        let mut logins = cell_of(alloc, readings, Gate::Auth, clients)?;
        let acct = cell_of(alloc, readings, Gate::Acct, clients)?;
        let asks = cell_of(alloc, readings, Gate::Ask, clients)?;
        let auth_times = logins.times();
        logins.add_all(&asks);
        Ok(GateCounts {
            counts: counts_of(readings),
            logins,
            auth_times,
            acct_times: acct.times(),
            ask_times: asks.times(),
            acct,
        })
    }
}
