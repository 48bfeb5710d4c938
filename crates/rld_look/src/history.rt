ghost use Rattle.std.specs.Prelude.{◌≡◌, ◌≢◌, ◌/◌, ◌↔◌, IsTrue, IfOk, OnOk, OnErr};
ghost use Rattle.rld_look.specs.History.{
  a_minute,
  came_in,
  came_to,
  kept_minutes,
  minute_at,
  minute_of,
  no_came,
  nothing_yet,
  with_came,
  with_minute,
};

use crate::look::Minute;
use rld_counts::{Counts, Fate, Gate, Kind};
use std::alloc::{AllocError, Global};
use std::marker::Model;

/// The number of minutes kept.
const MINUTES: usize = 60;

/// The seconds of a minute.
const MINUTE_SECS: u64 = 60;

const _: () = prove!(MINUTES == 60 && MINUTE_SECS == 60);

/// What came in each of the last 60 whole minutes of the clock. The minute in which a server starts
/// is not one of them.
///
/// If the clock is set, the minute in which that happens has another length.
#[derive(Drop)]
pub struct History {
    minutes: Vec<Minute>,
    current: u64,
    is_whole: bool,
    before: Came,
}

impl Model for History {
    ghost use Rattle.rld_look.specs.History.{HistorySeen};

    ghost Value = { HistorySeen };

    ghost view = { λ history. record {
      minutes = history.minutes.items;
      current = history.current;
      is_whole = history.is_whole;
      before = history.before;
    } };
}

impl History {
    /// The history of a server that starts at the second `now` since 1970. It fails only if memory
    /// is refused.
    pub fn new(alloc: Global, now: u64) -> Result<History, AllocError>
        ensures { IfOk result (λ history. history ≡ nothing_yet now) }
    {
        Ok(History {
            minutes: Vec::with_capacity(alloc, MINUTES)?,
            current: now / MINUTE_SECS,
            is_whole: false,
            before: Came::new(),
        })
    }

    /// Whether another minute has begun at the second `now` since 1970.
    pub fn has_passed(&self, now: u64) -> bool
        ensures { IsTrue result ↔ (now / 60 ≢ self.now.current) }
    {
        now / MINUTE_SECS != self.current
    }

    /// Ends the present minute, and begins the minute of the second `now` since 1970. `counts` are
    /// the fates of all datagrams until then, and `held` the number of places held. It fails only if
    /// memory is refused; then the history is as before.
    pub fn begin_minute(&mut self, now: u64, counts: &Counts, held: u64) -> Result<(), AllocError>
        ensures ok { OnOk result (self.new
            ≡ with_minute self.old (now / 60) (came_in counts.now) held) }
        ensures err { OnErr result (self.new ≡ self.old) }
    {
        let came = Came::of(counts);
        let minute = self.minute(&came, held);
        keep_last(&mut self.minutes, minute, self.is_whole)?;
        self.current = now / MINUTE_SECS;
        self.is_whole = true;
        self.before = came;
        Ok(())
    }

    /// The present minute, at its end.
    fn minute(&self, came: &Came, held: u64) -> Minute
        ensures { result ≡ minute_of self.now.current self.now.before came.now held }
    {
        let before = self.before;
        Minute {
            start: self.current.saturating_mul(MINUTE_SECS),
            accepts: came.accepts.saturating_sub(before.accepts),
            limit_rejects: came.limit_rejects.saturating_sub(before.limit_rejects),
            rejects: came.rejects.saturating_sub(before.rejects),
            accounting: came.accounting.saturating_sub(before.accounting),
            held,
        }
    }

    /// The last whole minutes, at most 60, oldest first.
    pub fn minutes(&self) -> &[Minute]
        ensures { result.now ≡ self.now.minutes }
    {
        self.minutes.as_slice()
    }
}

/// The numbers of what has come at a moment.
#[derive(Clone, Copy)]
pub(crate) struct Came {
    pub(crate) accepts: u64,
    pub(crate) limit_rejects: u64,
    pub(crate) rejects: u64,
    pub(crate) accounting: u64,
}

impl Came {
    /// Nothing: each number is 0.
    fn new() -> Came
        ensures { result ≡ no_came }
    {
        Came {
            accepts: 0,
            limit_rejects: 0,
            rejects: 0,
            accounting: 0,
        }
    }

    /// The numbers of these counts.
    fn of(counts: &Counts) -> Came
        ensures { result ≡ came_in counts.now }
    {
        Came::new()
            .after(counts, Gate::Auth)
            .after(counts, Gate::Acct)
            .after(counts, Gate::Ask)
    }

    /// These numbers with what came to a gate.
    fn after(self, counts: &Counts, gate: Gate) -> Came
        ensures { result ≡ came_to counts.now gate self }
    {
        let mut came = self;
        for cause in gate.causes() {
            let fate = Fate {
                gate,
                cause: *cause,
            };
            came = came.with(cause.kind(), counts.count(fate));
        }
        came
    }

    /// These numbers with `number` further datagrams of this kind.
    fn with(mut self, kind: Kind, number: u64) -> Came
        ensures { result ≡ with_came self kind number }
    {
        match kind {
            Kind::Accepted => self.accepts = self.accepts.saturating_add(number),
            Kind::LimitRejected => self.limit_rejects = self.limit_rejects.saturating_add(number),
            Kind::Rejected => self.rejects = self.rejects.saturating_add(number),
            Kind::Accounted | Kind::NoAccount => {
                self.accounting = self.accounting.saturating_add(number);
            }
            Kind::Dropped | Kind::Failed => {}
        }
        self
    }
}

impl Minute {
    /// The minute that began at second `start`, with what came in `seconds` seconds scaled to a minute.
    pub(crate) fn at_rate(counts: &Counts, start: u64, seconds: u64, held: u64) -> Minute
        ensures { result ≡ minute_at (came_in counts.now) start seconds held }
    {
        let came = Came::of(counts);
        Minute {
            start,
            accepts: a_minute(came.accepts, seconds),
            limit_rejects: a_minute(came.limit_rejects, seconds),
            rejects: a_minute(came.rejects, seconds),
            accounting: a_minute(came.accounting, seconds),
            held,
        }
    }
}

/// A number that came in `seconds` seconds, scaled to a minute. No seconds count as one.
fn a_minute(number: u64, seconds: u64) -> u64
    ensures { result ≡ a_minute number seconds }
{
    let number = number.saturating_mul(MINUTE_SECS);
    if seconds == 0 {
        number
    } else {
        number / seconds
    }
}

/// Adds a minute if it was whole, in place of the oldest if the list is full.
fn keep_last(minutes: &mut Vec<Minute>, minute: Minute, is_whole: bool) -> Result<(), AllocError>
    ensures ok { OnOk result (minutes.new.items
        ≡ kept_minutes minutes.old.items minute is_whole) }
    ensures err { OnErr result (minutes.new.items ≡ minutes.old.items) }
{
    if !is_whole {
        return Ok(());
    }
    minutes.push(minute)?;
    let len = minutes.len();
    if len > MINUTES {
        minutes.drain(..len - MINUTES);
    }
    Ok(())
}
