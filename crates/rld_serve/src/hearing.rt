//! Operators who hear answers.

use rld_edges::Operator;
use std::time::Clock;

/// An operator who waits for an answer.
///
/// One in memory could also report to contracts what it has heard, in order. One who has connected
/// reports nothing.
pub(crate) trait Hear {
    ghost use Rattle.std.specs.Prelude.{ℕ, List, Option, None};
    ghost use Rattle.rld_serve.specs.Hearing.{HasHeard};

    ghost heard: { Self → Option (List (List ℕ)) } = { λ _. None };

    /// Hears an answer.
    fn hear(&mut self, answer: &[u8])
        ensures { HasHeard answer.now (heard self.old) (heard self.new) };
}

impl<C: Clock> Hear for Operator<'_, C> {
    fn hear(&mut self, answer: &[u8]) {
        self.answer(answer);
    }
}

impl<H: Hear> Hear for Option<H> {
    fn hear(&mut self, answer: &[u8]) {
        if let Some(operator) = self {
            operator.hear(answer);
        }
    }
}
