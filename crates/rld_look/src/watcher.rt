ghost use Rattle.std.specs.Prelude.{◌≡◌, IfOk, IfSome, Some as some, slice_get};
ghost use Rattle.rld_look.specs.Watched.{IsNotedAs};
ghost use Rattle.rld_turn.specs.Told.{told_as};

use crate::refusal::{Refused, is_refusal};
use crate::refusals::Refusals;
use rld_counts::{Board, Counted, Fate, Place};
use rld_networks::canonical;
use rld_turn::{Ended, MAX_BATCH, Watch};
use std::alloc::{AllocError, Global};
use std::sync::Wait;
use std::time::{Clock, Duration, Instant};

/// What all watchers of a server share.
#[derive(Clone, Copy)]
pub struct WatchContext<'a> {
    /// The counts of its receivers.
    pub board: &'a Board,
    /// The refusals that wait for their lines.
    pub refusals: &'a Refusals,
}

/// A watcher of one receiver: it notes each datagram among the refusals, if it is one, and counts those of a turn
/// together, at the receiver's place of the board, once the turn is over.
///
/// The time of an answer runs from the beginning of its turn to the end of it. The datagram's time in the socket's
/// queue is not in it.
#[derive(Drop)]
pub struct Watcher<'a, R: Wait + Clock> {
    rt: &'a R,
    alloc: Global,
    refusals: &'a Refusals,
    receiver: usize,
    place: &'a Place,
    begun: Option<Instant>,
    /// What has ended in the turn, and is not counted yet.
    ended: Vec<Counted>,
}

impl<'a, R: Wait + Clock> Watcher<'a, R> {
    /// The watcher of the receiver with this number, if the board has a place for it. It fails only if memory is
    /// refused, for what ends in a turn.
    pub fn new(
        rt: &'a R,
        alloc: Global,
        context: WatchContext<'a>,
        receiver: usize,
    ) -> Result<Option<Watcher<'a, R>>, AllocError>
        ensures place { IfOk result (λ found. IfSome found (λ watcher.
            slice_get context.entry.board.now.places.items receiver ≡ some watcher.place.now)) }
        ensures receiver { IfOk result (λ found. IfSome found (λ watcher. watcher.receiver ≡ receiver)) }
    {
        let Some(place) = context.board.place(receiver) else {
            return Ok(None);
        };
        Ok(Some(Watcher {
            rt,
            alloc,
            refusals: context.refusals,
            receiver,
            place,
            begun: None,
            ended: Vec::with_capacity(alloc, MAX_BATCH)?,
        }))
    }

    /// Counts requests that were refused before they came to a turn: `number` of them, with this fate
    /// and of no client. They get no lines.
    pub fn count_unread(&self, fate: Fate, number: u64) {
        self.place.note_unread(self.rt, fate, number);
    }

    /// The time of the turn so far in microseconds, if the clock can be read.
    fn micros(&self) -> Option<u64> {
        let begun = self.begun?;
        match begun.elapsed(self.rt) {
            Ok(passed) => Some(micros_of(passed)),
            Err(_) => None,
        }
    }

    /// Notes a datagram among the refusals, if it is one. In a flood it is left out before anything
    /// of it is read.
    fn note_refusal(&self, ended: &Ended<'_>, fate: Fate) {
        if !is_refusal(fate) || self.refusals.leave_out(self.rt, self.receiver, fate) {
            return;
        }
        let moment = match self.rt.since_1970() {
            Ok(now) => now.as_secs(),
            Err(_) => 0,
        };
        let refused = refused_as(moment, ended, fate);
        self.refusals
            .note(self.rt, self.alloc, self.receiver, &refused);
    }
}

impl<R: Wait + Clock> Watch for Watcher<'_, R> {
    fn begin(&mut self) {
        self.begun = match Instant::now(self.rt) {
            Ok(now) => Some(now),
            Err(_) => None,
        };
    }

    /// There is room for all of a turn. Where there is none, the datagram is counted at once.
    fn note(&mut self, ended: Ended<'_>) {
        let counted = Counted::of(self.place.gate(), &ended);
        if self.ended.push(counted).is_err() {
            self.place.note_turn(self.rt, &[counted], self.micros());
        }
        self.note_refusal(&ended, counted.fate);
    }

    fn finish(&mut self) {
        if self.ended.is_empty() {
            return;
        }
        let micros = self.micros();
        self.place.note_turn(self.rt, self.ended.as_slice(), micros);
        self.ended.clear();
    }
}

/// What is noted of a datagram that was refused and that ended at this second: it came from that peer.
fn refused_as<'b>(moment: u64, ended: &Ended<'b>, fate: Fate) -> Refused<'b>
    ensures { IsNotedAs moment (told_as ended.now) fate result }
{
    Refused {
        moment,
        source: ended.origin.source,
        peer: canonical(ended.origin.peer.ip()),
        client: ended.client,
        octets: ended.octets,
        fate,
    }
}

/// A time in microseconds, at most 2^64 - 1.
fn micros_of(passed: Duration) -> u64 {
    passed
        .as_secs()
        .saturating_mul(1_000_000)
        .saturating_add(u64::from(passed.subsec_micros()))
}
