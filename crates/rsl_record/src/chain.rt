ghost use Rattle.std.specs.Prelude.{◌≡◌, ◌+◌, ◌^◌, ◌<◌, ◌↔◌, IfOk, IsTrue};
ghost use Rattle.rsl_record.specs.Chain.{IsNext, Takes};
ghost use Rattle.rsl_shard.specs.Restep.{new_books_seen};

use rsl_accounts::Config;
use rsl_event::Decision;
use rsl_shard::{Books, Line, Segment};
use rsl_wire::NoMemory;
use std::alloc::Global;

/// The state after the lines of a shard's segments so far.
#[derive(Drop)]
pub(crate) struct Chain {
    /// The number of lines. With those of a last segment it may exceed `u64::MAX`.
    lines: u128,
    /// The books: what the moves have made of the shard's new ones.
    books: Books,
}

impl Chain {
    /// The chain of a shard with no line.
    pub(crate) fn begin(alloc: Global, config: &Config, shard: u32) -> Result<Chain, NoMemory>
        requires { shard < config.now.settings.shards }
        ensures lines { IfOk result (λ chain. chain.lines ≡ 0) }
        ensures books { IfOk result (λ chain. chain.books ≡ new_books_seen config.now shard) }
    {
        Ok(Chain {
            lines: 0,
            books: Books::new(alloc, config, shard)?,
        })
    }

    /// The shard's number.
    pub(crate) fn shard(&self) -> u32
        ensures { result ≡ self.now.books.setup.shard }
    {
        self.books.shard()
    }

    /// The number of lines so far.
    pub(crate) fn lines(&self) -> u128
        ensures { result ≡ self.now.lines }
    {
        self.lines
    }

    /// Whether a segment begins where the lines so far end.
    pub(crate) fn is_joined_by(&self, segment: &Segment) -> bool
        ensures next { IsTrue result ↔ IsNext self.now segment.now }
        ensures room { IsTrue result → self.now.lines < 2 ^ 64 }
    {
        segment.first as u128 == self.lines && self.books.same(segment.opening.as_slice())
    }

    /// Makes the move of a line, and gives the decision on it. `None` if the shard does not take
    /// the move; then nothing has changed.
    pub(crate) fn take_line(
        &mut self,
        alloc: Global,
        line: &Line,
    ) -> Result<Option<Decision>, NoMemory>
        requires { self.old.lines + 1 < 2 ^ 128 }
        ensures { IfOk result (Takes self.old self.new line.now) }
    {
        if !self.books.takes(&line.moved) {
            return Ok(None);
        }
        let decision = self.books.step(alloc, &line.moved)?;
        self.lines += 1;
        Ok(Some(decision))
    }
}
