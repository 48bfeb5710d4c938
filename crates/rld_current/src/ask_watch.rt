ghost use Rattle.std.specs.Prelude.{◌≡◌, [], IfOk, true};
ghost use Rattle.rld_current.specs.Asking.{outcome_noted, said_in};
ghost use Rattle.rld_current.specs.Noting.{HasKept, HasNoted, noted_if, noted_of};

use rld_ask::{Outcome, Refused};
use rld_counts::{Cause, Fate, Gate};
use rld_look::Watcher;
use rld_turn::{End, Ended, MAX_BATCH, Watch};
use rsl_event::{Detail, Said};
use std::alloc::{AllocError, Global};
use std::sync::Wait;
use std::time::Clock;

/// How the request of an ask ended, and what was read of it. Only what a watcher learns makes one.
#[derive(Clone, Copy)]
pub(crate) struct Noted {
    end: End,
    detail: Option<Detail>,
}

impl Noted {
    /// How a request ended, of which a watcher learned this.
    fn of(ended: &Ended<'_>) -> Noted
        ensures { result ≡ noted_of ended.now }
    {
        Noted {
            end: ended.end,
            detail: ended.detail,
        }
    }

    /// How it ended.
    pub(crate) fn end(&self) -> End
        ensures { result ≡ self.now.end }
    {
        self.end
    }

    /// What was answered to it, if anything was.
    fn said(&self) -> Option<Said>
        ensures { result ≡ said_in self.now.end }
    {
        match self.end {
            End::Answered(said) => Some(said),
            _ => None,
        }
    }

    /// What became of the ask.
    pub(crate) fn outcome(&self) -> Outcome
        ensures { result ≡ outcome_noted self.now }
    {
        Outcome::of(self.said(), self.detail)
    }
}

/// A watcher of asks: it counts each by its end, and keeps how each request ended, until it is to forget that.
#[derive(Drop)]
pub(crate) struct AskWatch<'a, R: Wait + Clock> {
    watcher: Watcher<'a, R>,
    noted: Vec<Noted>,
    is_whole: bool,
}

impl<'a, R: Wait + Clock> AskWatch<'a, R> {
    /// A watcher that counts by this one. It fails only where memory is refused.
    pub(crate) fn new(alloc: Global, watcher: Watcher<'a, R>) -> Result<AskWatch<'a, R>, AllocError>
        ensures { IfOk result (λ watch. (watch.noted.items ≡ []) × (watch.is_whole ≡ true)) }
    {
        Ok(AskWatch {
            watcher,
            noted: Vec::with_capacity(alloc, MAX_BATCH)?,
            is_whole: true,
        })
    }

    /// Counts requests over HTTP that were refused unread.
    pub(crate) fn count_refused(&self, refused: Refused) {
        let Refused { token, other } = refused;
        self.count_unread(Cause::Unauthorized, token);
        self.count_unread(Cause::BadRequest, other);
    }

    /// Counts this number of requests that were refused unread for this cause.
    fn count_unread(&self, cause: Cause, number: u64) {
        let fate = Fate {
            gate: Gate::Ask,
            cause,
        };
        self.watcher.count_unread(fate, number);
    }

    /// How each request ended since it was last to forget, in their order; none where one of them could not be
    /// kept.
    pub(crate) fn noted(&self) -> &[Noted]
        ensures { result.now ≡ noted_if self.now.is_whole self.now.noted.items }
    {
        if self.is_whole {
            self.noted.as_slice()
        } else {
            &[]
        }
    }

    /// Forgets what it has kept.
    pub(crate) fn forget(&mut self)
        ensures none { self.new.noted.items ≡ [] }
        ensures whole { self.new.is_whole ≡ true }
    {
        self.noted.clear();
        self.is_whole = true;
    }

    /// Keeps how a request ended, after those before it. Where memory is refused it is lost.
    fn keep(&mut self, ended: &Ended<'_>)
        ensures { HasKept (noted_of ended.now) self.old.is_whole self.new.is_whole
            self.old.noted.items self.new.noted.items }
    {
        if self.noted.push(Noted::of(ended)).is_err() {
            self.is_whole = false;
        }
    }
}

impl<R: Wait + Clock> Watch for AskWatch<'_, R> {
    ghost knows = { λ watch told. HasNoted watch.is_whole watch.noted.items told };

    fn begin(&mut self) {
        self.watcher.begin();
    }

    #[tactic(auto, using(crate::proofs::Asks::noted_more))]
    fn note(&mut self, ended: Ended<'_>) {
        self.keep(&ended);
        self.watcher.note(ended);
    }

    fn finish(&mut self) {
        self.watcher.finish();
    }
}
