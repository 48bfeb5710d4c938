ghost use Rattle.std.specs.Prelude.{
  ◌≡◌,
  ◌-◌,
  ◌^◌,
  ◌<◌,
  ◌↔◌,
  IfNone,
  IfOk,
  IfSome,
  IsSome,
  IsTrue,
  OnErr,
  Some,
  None,
  length,
};
ghost use Rattle.rsl_shard.specs.Moves.{IsOfShard, IsTaken};
ghost use Rattle.rsl_shard.specs.Restep.{HaveStepped, book_at, decision_by};
ghost use Rattle.rsl_shard.specs.Rows.{rows_of};
ghost use Rattle.rsl_shard.specs.Seen.{IsShard, books_of, cut_off, new_shard, total_of, with_line};

use crate::books::Books;
use crate::journal::Journal;
use crate::line::Line;
use crate::loose::{CutRoom, LooseSegment};
use crate::moved::Move;
use crate::opening::Opening;
use crate::row::Row;
use crate::segment::Segment;
use crate::spare::Spare;
use rsl_accounts::Config;
use rsl_book::Book;
use rsl_event::Decision;
use rsl_wire::NoMemory;
use std::alloc::Global;
use std::marker::Model;
use std::mem::replace;

/// The books of the accounts of one shard, with the journal of what was done to them.
///
/// A contract sees what the shard knows of the configuration, how many lines were handed out, the
/// books that the journal begins with, and its lines. The type guarantees that the books are what
/// the lines make of those, and that the shard takes each line's move, with the decision of the
/// books at that point.
#[derive(Drop)]
pub struct Shard {
    books: Books,
    opening: Opening,
    journal: Journal,
    first: u64,
}

impl Model for Shard {
    ghost use Rattle.rsl_shard.specs.Seen.{ShardSeen};

    ghost Value = { ShardSeen };

    ghost use Rattle.rsl_shard.specs.ShardSeen.{shard_seen, HasJournal};

    ghost view = { shard_seen };

    ghost invariant = { HasJournal };
}

impl Shard {
    /// A shard of new books, with no lines. It fails only if memory is refused.
    pub fn new(alloc: Global, config: &Config, number: u32) -> Result<Shard, NoMemory>
        requires { number < config.now.settings.shards }
        ensures { IfOk result (λ shard. shard ≡ new_shard config.now number) }
    {
        Ok(Shard {
            books: Books::new(alloc, config, number)?,
            opening: Opening::New,
            journal: Journal::new(alloc)?,
            first: 0,
        })
    }

    /// Whether the shard takes a move: an own move has to be an ask, an alive or a stop of one of
    /// its accounts.
    pub fn takes(&self, moved: &Move) -> bool
        ensures { IsTrue result ↔ IsTaken self.now.setup moved.now }
    {
        self.books.takes(moved)
    }

    /// Makes a move, and appends it with its decision to the journal. An own move steps the book of
    /// its account, a sweep or a tick each book, a stray none. All memory is allocated before the
    /// first book changes: if it is refused, nothing has changed.
    pub fn step(&mut self, alloc: Global, moved: Move) -> Result<Decision, NoMemory>
        requires takes { IsTaken self.old.setup moved }
        requires room { total_of self.old < 2 ^ 64 - 1 }
        ensures line { IfOk result (λ decision. self.new ≡ with_line self.old moved decision) }
        ensures decision { IfOk result (λ decision.
            decision ≡ decision_by self.old.setup (books_of self.old) moved) }
        ensures books { IfOk result (λ _.
            HaveStepped self.old.setup moved (books_of self.old) (books_of self.new)) }
        ensures err { OnErr result (self.new ≡ self.old) }
        ensures kept { IsShard self.new }
    {
        self.step_over(alloc, moved, &mut Spare::new(alloc))
    }

    /// `step` of a borrowed move, with spare room for the journal. The move is copied for the
    /// journal, and so is what a book may keep of it: for names and ids of at most 22 octets that
    /// allocates nothing. With spare room nothing is allocated for the line and nothing freed,
    /// except that the list of chunks is moved when they pass 1,024, and each time that they
    /// double. If memory is refused, nothing has changed.
    pub fn step_ready(
        &mut self,
        alloc: Global,
        moved: &Move,
        spare: &mut Spare,
    ) -> Result<Decision, NoMemory>
        requires takes { IsTaken self.old.setup moved.now }
        requires room { total_of self.old < 2 ^ 64 - 1 }
        ensures line { IfOk result (λ decision. self.new ≡ with_line self.old moved.now decision) }
        ensures decision { IfOk result (λ decision.
            decision ≡ decision_by self.old.setup (books_of self.old) moved.now) }
        ensures books { IfOk result (λ _.
            HaveStepped self.old.setup moved.now (books_of self.old) (books_of self.new)) }
        ensures err { OnErr result (self.new ≡ self.old) }
        ensures kept { IsShard self.new }
    {
        self.open_invariant();
        match moved.try_copy(alloc) {
            Ok(copy) => self.step_over(alloc, copy, spare),
            Err(NoMemory) => Err(NoMemory),
        }
    }

    /// Makes a move, which becomes that of its line.
    fn step_over(
        &mut self,
        alloc: Global,
        moved: Move,
        spare: &mut Spare,
    ) -> Result<Decision, NoMemory>
        requires takes { IsTaken self.old.setup moved }
        requires room { total_of self.old < 2 ^ 64 - 1 }
        ensures line { IfOk result (λ decision. self.new ≡ with_line self.old moved decision) }
        ensures decision { IfOk result (λ decision.
            decision ≡ decision_by self.old.setup (books_of self.old) moved) }
        ensures books { IfOk result (λ _.
            HaveStepped self.old.setup moved (books_of self.old) (books_of self.new)) }
        ensures err { OnErr result (self.new ≡ self.old) }
        ensures kept { IsShard self.new }
    {
        self.open_invariant();
        // On failure the move is freed by a call of `drop`. Freeing it at the end of the function
        // would cost each step that does not fail.
        if self.journal.make_room(alloc, spare).is_err() {
            drop(moved);
            return Err(NoMemory);
        }
        match self.books.step(alloc, &moved) {
            Ok(decision) => {
                self.books.open_invariant();
                self.journal.push(Line { moved, decision });
                self.open_invariant();
                Ok(decision)
            }
            Err(NoMemory) => {
                drop(moved);
                Err(NoMemory)
            }
        }
    }

    /// The book of an account, if the account is one of this shard.
    pub fn book(&self, account: u32) -> Option<&Book>
        ensures some { IfSome result (λ book.
            book_at self.now.setup (books_of self.now) account ≡ Some book.now) }
        ensures none { IfNone result (book_at self.now.setup (books_of self.now) account ≡ None) }
        ensures there { IsSome result ↔ IsOfShard self.now.setup account }
    {
        self.books.book(account)
    }

    /// What each account of the shard holds, in the order of their numbers. It fails only if memory
    /// is refused.
    pub fn rows(&self, alloc: Global) -> Result<Vec<Row>, NoMemory>
        ensures { IfOk result (λ rows. rows.items ≡ rows_of self.now.setup (books_of self.now)) }
    {
        self.books.rows(alloc)
    }

    /// The number of lines of the present journal.
    pub fn moves(&self) -> usize
        ensures { result ≡ length self.now.lines }
    {
        self.journal.len()
    }

    /// The number of lines of all segments so far: those handed out, and those of the present
    /// journal.
    pub fn total(&self) -> u64
        ensures total { result ≡ total_of self.now }
        ensures kept { IsShard self.now }
    {
        self.first + self.journal.len() as u64
    }

    /// Shows the prover the invariant of a shard.
    pub fn open_invariant(&self)
        ensures { IsShard self.now }
    {
        let _ = &self.journal;
    }

    /// Hands out the journal with the books that it began with, and goes on from equal books, with
    /// no lines. If memory is refused, nothing has changed.
    pub fn cut(&mut self, alloc: Global) -> Result<Segment, NoMemory>
        ensures shard { IfOk result (λ segment. segment.shard ≡ self.old.setup.shard) }
        ensures first { IfOk result (λ segment. segment.first ≡ self.old.first) }
        ensures opening { IfOk result (λ segment. segment.opening.items ≡ self.old.opening) }
        ensures lines { IfOk result (λ segment. segment.lines.items ≡ self.old.lines) }
        ensures cut { IfOk result (λ _. self.new ≡ cut_off self.old) }
        ensures err { OnErr result (self.new ≡ self.old) }
        ensures kept { IsShard self.new }
    {
        self.open_invariant();
        let room = CutRoom::new(alloc, self.moves())?;
        let loose = self.cut_loose(alloc, room)?;
        Ok(loose.join())
    }

    /// `cut`, with memory allocated before. The lines stay in their chunks until they are joined.
    /// If `room` holds all of them, only the copy of each book is allocated here, and new books for
    /// the first opening. If memory is refused, nothing has changed.
    pub fn cut_loose(&mut self, alloc: Global, room: CutRoom) -> Result<LooseSegment, NoMemory>
        ensures shard { IfOk result (λ loose. loose.shard ≡ self.old.setup.shard) }
        ensures first { IfOk result (λ loose. loose.first ≡ self.old.first) }
        ensures opening { IfOk result (λ loose. loose.opening ≡ self.old.opening) }
        ensures lines { IfOk result (λ loose. loose.lines ≡ self.old.lines) }
        ensures cut { IfOk result (λ _. self.new ≡ cut_off self.old) }
        ensures err { OnErr result (self.new ≡ self.old) }
        ensures kept { IsShard self.new }
    {
        let CutRoom {
            lines: mut room,
            journal,
        } = room;
        let more = self.journal.len();
        room.reserve(more)?;
        let next = self.books.copies(alloc)?;
        let opening = self.opening.hand_out(alloc, &self.books, next)?;
        let first = self.first;
        let loose = LooseSegment {
            shard: self.books.shard(),
            first,
            opening,
            lines: replace(&mut self.journal, journal),
            room,
        };
        self.first = first + more as u64;
        self.open_invariant();
        Ok(loose)
    }

    /// The last segment of the shard: the journal with the books that it began with. Nothing is
    /// copied: the lines are moved together, and if the books began new, new ones replace the
    /// shard's, one by one. If memory is refused, the shard is freed.
    pub fn into_segment(self, alloc: Global) -> Result<Segment, NoMemory>
        ensures shard { IfOk result (λ segment. segment.shard ≡ self.setup.shard) }
        ensures first { IfOk result (λ segment. segment.first ≡ self.first) }
        ensures opening { IfOk result (λ segment. segment.opening.items ≡ self.opening) }
        ensures lines { IfOk result (λ segment. segment.lines.items ≡ self.lines) }
        ensures kept { IsShard self }
    {
        let Shard {
            books,
            opening,
            journal,
            first,
        } = self;
        let shard = books.shard();
        let lines = journal.into_lines(alloc)?;
        let opening = opening.into_books(alloc, books)?;
        Ok(Segment {
            shard,
            first,
            opening,
            lines,
        })
    }
}
