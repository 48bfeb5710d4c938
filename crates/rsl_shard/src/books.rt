ghost use Rattle.std.specs.Prelude.{
  ◌≡◌,
  ◌+◌,
  ◌*◌,
  ◌<◌,
  ◌≤◌,
  ◌↔◌,
  All,
  IfOk,
  IfSome,
  IfNone,
  IsSome,
  IsTrue,
  OnErr,
  OnOk,
  Some,
  None,
  length,
  map,
};
ghost use Rattle.rsl_book.specs.RuledBook.{IsWithinLimit};
ghost use Rattle.rsl_event.specs.Prepared.{IsOfOneAccount};
ghost use Rattle.rsl_event.specs.declared.event.Act.TheVariants.{Sweep, Tick};
ghost use Rattle.rsl_session.specs.BookStep.{step};
ghost use Rattle.rsl_shard.specs.Moves.{IsOfShard, IsOwn, IsTaken};
ghost use Rattle.rsl_shard.specs.Opening.{as_new};
ghost use Rattle.rsl_shard.specs.Restep.{
  AreBooks,
  book_at,
  books_after,
  decision_by,
  new_books,
  new_books_seen,
  step_by,
};
ghost use Rattle.rsl_shard.specs.Rows.{rows_from, rows_of};
ghost use Rattle.rsl_shard.specs.declared.moved.Move.TheVariants as moves;

mod given;

use crate::moved::Move;
use crate::row::Row;
use rsl_accounts::Config;
use rsl_book::Book;
use rsl_event::{Act, Decision, Event, Nas};
use rsl_wire::NoMemory;
use std::alloc::Global;
use std::marker::Model;

/// The books of the accounts of one shard, in the order of the accounts' numbers, without a
/// journal.
///
/// A contract sees the shard's number, the numbers of shards and accounts, and each book with its
/// account's rules.
#[derive(Drop)]
pub struct Books {
    shard: u32,
    shards: u32,
    accounts: u32,
    list: Vec<Book>,
}

impl Model for Books {
    ghost use Rattle.rsl_shard.specs.Restep.{BooksSeen};

    ghost Value = { BooksSeen };

    ghost use Rattle.rsl_shard.specs.BooksSeen.{books_seen, HasBooks};

    ghost view = { books_seen };

    ghost invariant = { HasBooks };
}

/// Whether an act concerns one account: an ask, an alive or a stop.
fn is_of_one_account(act: &Act) -> bool
    ensures { IsTrue result ↔ IsOfOneAccount act.now }
{
    match act {
        Act::Ask { .. } | Act::Alive { .. } | Act::Stop { .. } => true,
        Act::Sweep { .. } | Act::Tick => false,
    }
}

/// Sweeps each book, of an access server that restarted `delay` seconds ago.
#[tactic(auto, using(crate::proofs::Moving::each_steps))]
fn sweep_each(books: &mut [Book], moment: u64, nas: &Nas, delay: u64)
    requires { All IsWithinLimit books.old }
    ensures books { books.new ≡
        map (step_by (Some (record { moment = moment; act = Sweep nas.now delay }))) books.old }
    ensures limit { All IsWithinLimit books.new }
    ensures len { length books.new ≡ length books.old }
{
    for at in 0..books.len() {
        books[at].sweep(moment, nas, delay);
    }
}

/// Ticks each book.
#[tactic(auto, using(crate::proofs::Moving::each_steps))]
fn tick_each(books: &mut [Book], moment: u64)
    requires { All IsWithinLimit books.old }
    ensures books { books.new ≡
        map (step_by (Some (record { moment = moment; act = Tick }))) books.old }
    ensures limit { All IsWithinLimit books.new }
    ensures len { length books.new ≡ length books.old }
{
    for index in 0..books.len() {
        books[index].tick(moment);
    }
}

/// Whether two lists of books are equal.
#[tactic(auto, using(crate::proofs::Moving::same_steps))]
fn are_same(books: &[Book], others: &[Book]) -> bool
    ensures { IsTrue result ↔ (books.now ≡ others.now) }
{
    if books.len() != others.len() {
        return false;
    }
    for index in 0..books.len() {
        if !books[index].same(&others[index]) {
            return false;
        }
    }
    true
}

/// Equal books, one by one.
#[tactic(auto, using(crate::proofs::Moving::copy_steps))]
fn copies_of(alloc: Global, books: &[Book]) -> Result<Vec<Book>, NoMemory>
    ensures { IfOk result (λ copies. copies.items ≡ books.now) }
{
    let mut copies = Vec::with_capacity(alloc, books.len())?;
    for book in books {
        copies.push(book.try_copy(alloc)?)?;
    }
    Ok(copies)
}

/// New books for the same accounts.
#[tactic(auto, using(crate::proofs::Moving::copy_steps, std::proofs::lemmas::List::map_push))]
fn new_again(alloc: Global, books: &[Book]) -> Result<Vec<Book>, NoMemory>
    ensures { IfOk result (λ made. made.items ≡ map as_new books.now) }
{
    let mut made = Vec::with_capacity(alloc, books.len())?;
    for book in books {
        made.push(Book::new(alloc, book.rules())?)?;
    }
    Ok(made)
}

/// Replaces each book by a new one of its rules, freeing each before the next is allocated.
#[tactic(auto, using(crate::proofs::Moving::renew_steps))]
fn renew_each(alloc: Global, books: &mut [Book]) -> Result<(), NoMemory>
    ensures { OnOk result (books.new ≡ map as_new books.old) }
{
    for index in 0..books.len() {
        let rules = books[index].rules();
        books[index] = Book::new(alloc, rules)?;
    }
    Ok(())
}

/// The rows of an account and of those after it in its shard.
fn rows_from(alloc: Global, first: u32, shards: u32, books: &[Book]) -> Result<Vec<Row>, NoMemory>
    requires first { first ≤ 4 }
    requires shards { shards ≤ 4 }
    requires few { length books.now ≤ 16384 }
    ensures { IfOk result (λ rows. rows.items ≡ rows_from first shards books.now) }
{
    let mut rows = Vec::with_capacity(alloc, books.len())?;
    let mut account = first;
    for book in books {
        rows.push(Row::of(account, book))?;
        account += shards;
    }
    Ok(rows)
}

/// New books for the accounts of a shard.
fn new_list(alloc: Global, config: &Config, shard: u32) -> Result<Vec<Book>, NoMemory>
    ensures books { IfOk result (λ books. books.items ≡ new_books config.now shard) }
    ensures limit { IfOk result (λ books. All IsWithinLimit books.items) }
{
    let mut books = Vec::new(alloc);
    for account in 0..config.accounts() {
        if config.shard_of(account) == shard {
            books.push(Book::new(alloc, config.entry(account).rules)?)?;
        }
    }
    Ok(books)
}

impl Books {
    /// New books for the accounts of a shard. It fails only if memory is refused.
    pub fn new(alloc: Global, config: &Config, shard: u32) -> Result<Books, NoMemory>
        requires { shard < config.now.settings.shards }
        ensures books { IfOk result (λ books. books ≡ new_books_seen config.now shard) }
        ensures sound { IfOk result (λ books. AreBooks books.setup books.books) }
    {
        Ok(Books {
            shard,
            shards: config.shards(),
            accounts: config.accounts(),
            list: new_list(alloc, config, shard)?,
        })
    }

    /// Whether an account is one of the shard.
    fn has(&self, account: u32) -> bool
        ensures { IsTrue result ↔ IsOfShard self.now.setup account }
    {
        account < self.accounts && account % self.shards == self.shard
    }

    /// The index of the book of an account of the shard.
    fn index_of(&self, account: u32) -> usize
        requires { IsOfShard self.now.setup account }
        ensures index { account ≡ self.now.setup.shard + result * self.now.setup.shards }
        ensures within { result < length self.now.books }
    {
        (account / self.shards) as usize
    }

    /// Whether the shard takes a move: an own move has to be an ask, an alive or a stop of one of
    /// its accounts.
    pub fn takes(&self, moved: &Move) -> bool
        ensures { IsTrue result ↔ IsTaken self.now.setup moved.now }
    {
        match moved {
            Move::Own { account, event } => { self.has(*account) && is_of_one_account(&event.act) }
            Move::Sweep { .. } | Move::Tick { .. } | Move::Stray { .. } => true,
        }
    }

    /// The book of an account, if the account is one of the shard.
    pub fn book(&self, account: u32) -> Option<&Book>
        ensures some { IfSome result (λ book.
            book_at self.now.setup self.now.books account ≡ Some book.now) }
        ensures none { IfNone result (book_at self.now.setup self.now.books account ≡ None) }
        ensures there { IsSome result ↔ IsOfShard self.now.setup account }
    {
        if self.has(account) {
            Some(&self.list[self.index_of(account)])
        } else {
            None
        }
    }

    /// Steps the books by a borrowed move: an own move steps the book of its account, a sweep or a
    /// tick each book, a stray none. The decision is that of the account's book, and `Done` on
    /// every other move. If memory is refused, nothing has changed.
    pub fn step(&mut self, alloc: Global, moved: &Move) -> Result<Decision, NoMemory>
        requires { IsTaken self.old.setup moved.now }
        ensures setup { self.new.setup ≡ self.old.setup }
        ensures books { IfOk result (λ _.
            self.new.books ≡ books_after self.old.setup self.old.books moved.now) }
        ensures decision { IfOk result (λ decision.
            decision ≡ decision_by self.old.setup self.old.books moved.now) }
        ensures err { OnErr result (self.new ≡ self.old) }
    {
        match moved {
            Move::Own { account, event } => self.own_lent(alloc, *account, event),
            Move::Sweep { moment, nas, delay } => Ok(self.sweep(*moment, nas, *delay)),
            Move::Tick { moment } => Ok(self.tick(*moment)),
            Move::Stray { .. } => Ok(Decision::Done),
        }
    }

    /// Steps the book of an account by a borrowed event of its own. If memory is refused, nothing
    /// has changed.
    fn own_lent(&mut self, alloc: Global, account: u32, event: &Event) -> Result<Decision, NoMemory>
        requires { IsOwn self.old.setup account event.now }
        ensures setup { self.new.setup ≡ self.old.setup }
        ensures books { IfOk result (λ _. self.new.books ≡
            books_after self.old.setup self.old.books (moves.Own account event.now)) }
        ensures decision { IfOk result (λ decision. decision ≡
            decision_by self.old.setup self.old.books (moves.Own account event.now)) }
        ensures err { OnErr result (self.new ≡ self.old) }
    {
        let index = self.index_of(account);
        let decision = self.list[index].apply_lent(alloc, event)?;
        Ok(decision)
    }

    /// Steps the book of an account by an event of its own.
    pub fn own(&mut self, account: u32, event: Event) -> Decision
        requires { IsOwn self.old.setup account event }
        ensures setup { self.new.setup ≡ self.old.setup }
        ensures books { self.new.books ≡
            books_after self.old.setup self.old.books (moves.Own account event) }
        ensures decision { result ≡
            decision_by self.old.setup self.old.books (moves.Own account event) }
    {
        let index = self.index_of(account);
        self.list[index].apply(event)
    }

    /// Sweeps each book, of an access server that restarted `delay` seconds ago.
    pub fn sweep(&mut self, moment: u64, nas: &Nas, delay: u64) -> Decision
        ensures setup { self.new.setup ≡ self.old.setup }
        ensures books { self.new.books ≡
            books_after self.old.setup self.old.books (moves.Sweep moment nas.now delay) }
        ensures decision { result ≡ Decision.Done }
    {
        sweep_each(&mut self.list, moment, nas, delay);
        Decision::Done
    }

    /// Ticks each book.
    pub fn tick(&mut self, moment: u64) -> Decision
        ensures setup { self.new.setup ≡ self.old.setup }
        ensures books { self.new.books ≡
            books_after self.old.setup self.old.books (moves.Tick moment) }
        ensures decision { result ≡ Decision.Done }
    {
        tick_each(&mut self.list, moment);
        Decision::Done
    }

    /// Shows the prover the invariant: there is a book for each account of the shard, and none
    /// holds more than its limit.
    pub(crate) fn open_invariant(&self)
        ensures { AreBooks self.now.setup self.now.books }
    {
        let _ = &self.list;
    }

    /// Whether these are equal books, one by one.
    pub fn same(&self, books: &[Book]) -> bool
        ensures { IsTrue result ↔ (self.now.books ≡ books.now) }
    {
        are_same(&self.list, books)
    }

    /// What each account of the shard holds, in the order of their numbers. It fails only if memory
    /// is refused.
    pub fn rows(&self, alloc: Global) -> Result<Vec<Row>, NoMemory>
        ensures { IfOk result (λ rows. rows.items ≡ rows_of self.now.setup self.now.books) }
    {
        rows_from(alloc, self.shard, self.shards, &self.list)
    }

    /// Equal books, one by one. It fails only if memory is refused.
    pub(crate) fn copies(&self, alloc: Global) -> Result<Vec<Book>, NoMemory>
        ensures { IfOk result (λ copies. copies.items ≡ self.now.books) }
    {
        copies_of(alloc, &self.list)
    }

    /// New books for the same accounts. It fails only if memory is refused.
    pub(crate) fn as_new(&self, alloc: Global) -> Result<Vec<Book>, NoMemory>
        ensures { IfOk result (λ made. made.items ≡ map as_new self.now.books) }
    {
        new_again(alloc, &self.list)
    }

    /// New books in place of these. It fails only if memory is refused.
    pub(crate) fn into_new(self, alloc: Global) -> Result<Vec<Book>, NoMemory>
        ensures { IfOk result (λ made. made.items ≡ map as_new self.books) }
    {
        let Books { mut list, .. } = self;
        renew_each(alloc, &mut list)?;
        Ok(list)
    }

    /// The number of the shard.
    pub fn shard(&self) -> u32
        ensures { result ≡ self.now.setup.shard }
    {
        self.shard
    }
}
