//! Clocks, and the pauses of a worker between its turns.

/// A source of the moments of a worker's moves.
///
/// A clock in memory also reports to contracts which moments it showed, in their order. The
/// system's clock reports none.
pub trait Clock {
    ghost use Rattle.std.specs.Prelude.{ℕ, List, [], ◌∷◌, Option, None};
    ghost use Rattle.rsl_port.specs.Shown.{HasShown};

    ghost shown: { Self → Option (List ℕ) } = { λ _. None };

    /// The present moment, in seconds. It may be lower than an earlier one.
    fn now(&mut self) -> u64
        ensures shown { HasShown (result ∷ []) (shown self.old) (shown self.new) };
}

/// The pause of a worker between two ticks.
///
/// A pause in memory also reports to contracts what it answered, in order. Any other reports nothing.
pub trait Pause {
    ghost use Rattle.std.specs.Prelude.{Bool, List, [], ◌∷◌, Option, None};
    ghost use Rattle.rsl_port.specs.Shown.{HasShown};

    ghost said: { Self → Option (List Bool) } = { λ _. None };

    /// Waits until the next turn is due. Answers false if there is to be none.
    fn pause(&mut self) -> bool
        ensures said { HasShown (result ∷ []) (said self.old) (said self.new) };
}
