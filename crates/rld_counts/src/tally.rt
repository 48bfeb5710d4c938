//! Counters, one for each number below their length.

ghost use Rattle.std.specs.Prelude.{◌≡◌, ◌+◌, ◌<◌, ◌∷◌, ◌++◌, [], EachIndex, List, ℕ, length, slice_index, slice_set, sum};
ghost use Rattle.rld_counts.specs.Tally.{kept, tally_of};

/// Counts a number.
pub(crate) fn note(counters: &mut [u64], number: usize)
    requires { number < length counters.old }
    ensures { counters.new
        ≡ slice_set counters.old number (kept (slice_index counters.old number + 1)) }
{
    counters[number] = counters[number].saturating_add(1);
}

/// Adds other counters.
pub(crate) fn add(counters: &mut [u64], others: &[u64])
    requires { length others.now ≡ length counters.old }
    ensures len { length counters.new ≡ length counters.old }
    ensures each { EachIndex counters.new (λ number. slice_index counters.new number
        ≡ kept (slice_index counters.old number + slice_index others.now number)) }
{
    for number in 0..counters.len() {
        counters[number] = counters[number].saturating_add(others[number]);
    }
}

/// The sum of all counters.
pub(crate) fn sum(counters: &[u64]) -> u64
    ensures { result ≡ kept (sum counters.now) }
{
    let mut sum = 0u64;
    for counter in counters {
        sum = sum.saturating_add(*counter);
    }
    sum
}
