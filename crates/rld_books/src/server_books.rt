ghost use Rattle.std.specs.Prelude.{◌≡◌, ◌<◌, ◌≤◌, ◌↔◌, IfOk, IsTrue, Some, length, map, vec_capacity, vec_len};
ghost use Rattle.rld_books.specs.Server.{
  AreTakenIn,
  IsOwnIn,
  IsServer,
  IsTakenIn,
  decision_in,
  decisions_of,
  new_server,
  replay,
  server_after,
};
ghost use Rattle.rsl_event.specs.Prepared.{IsOfOneAccount};
ghost use Rattle.rsl_event.specs.declared.event.Act.TheVariants.{Sweep, Tick};
ghost use Rattle.rsl_event.specs.declared.event.Decision.TheVariants.{Done as done};
ghost use Rattle.rsl_shard.specs.Restep.{step_by};
ghost use Rattle.rsl_shard.specs.declared.moved.Move.TheVariants as moves;

mod cutting;
mod dealt;
mod looking;
mod saving;

pub use cutting::CutBooks;
use rsl_accounts::Config;
use rsl_book::Book;
use rsl_event::{Act, Decision, Event, Nas};
use rsl_shard::Move;
use rsl_wire::NoMemory;
use std::alloc::Global;
use std::marker::Model;

/// The books of all accounts, in the order of their numbers.
///
/// A contract sees each book with its account's rules.
#[derive(Drop)]
pub struct ServerBooks {
    list: Vec<Book>,
}

impl Model for ServerBooks {
    ghost use Rattle.std.specs.Prelude.{List};
    ghost use Rattle.rsl_book.specs.RuledBook.{RuledBook};
    ghost use Rattle.rld_books.specs.Server.{IsServer};

    ghost Value = { List RuledBook };

    ghost view = { λ inside. inside.list.items };

    ghost invariant = { λ inside. IsServer inside.list.items };
}

/// Whether an act concerns one account: an ask, an alive or a stop.
fn is_of_one_account(act: &Act) -> bool
    ensures { IsTrue result ↔ IsOfOneAccount act.now }
{
    match act {
        Act::Ask { .. } | Act::Alive { .. } | Act::Stop { .. } => true,
        Act::Sweep { .. } | Act::Tick => false,
    }
}

/// Sweeps each book, of an access server that restarted `delay` seconds ago.
#[tactic(auto, using(crate::proofs::Stepping::each_steps))]
fn sweep_each(books: &mut [Book], moment: u64, nas: &Nas, delay: u64)
    ensures { books.new ≡
        map (step_by (Some (record { moment = moment; act = Sweep nas.now delay }))) books.old }
{
    for index in 0..books.len() {
        books[index].sweep(moment, nas, delay);
    }
}

/// Ticks each book.
#[tactic(auto, using(crate::proofs::Stepping::each_steps))]
fn tick_each(books: &mut [Book], moment: u64)
    ensures { books.new ≡
        map (step_by (Some (record { moment = moment; act = Tick }))) books.old }
{
    for index in 0..books.len() {
        books[index].tick(moment);
    }
}

impl ServerBooks {
    /// New books for a configuration. It fails only if memory is refused.
    pub fn new(alloc: Global, config: &Config) -> Result<ServerBooks, NoMemory>
        ensures { IfOk result (λ server. server ≡ new_server config.now) }
    {
        let mut list = Vec::with_capacity(alloc, config.accounts() as usize)?;
        for account in 0..config.accounts() {
            list.push(Book::new(alloc, config.entry(account).rules)?)?;
        }
        Ok(ServerBooks { list })
    }

    /// Whether a move can be made: an own move has to be an ask, an alive or a stop of an account
    /// that is there.
    pub fn takes(&self, moved: &Move) -> bool
        ensures { IsTrue result ↔ IsTakenIn self.now moved.now }
    {
        match moved {
            Move::Own { account, event } => {
                (*account as usize) < self.list.len() && is_of_one_account(&event.act)
            }
            Move::Sweep { .. } | Move::Tick { .. } | Move::Stray { .. } => true,
        }
    }

    /// Whether each of some moves can be made, in order.
    pub fn takes_all(&self, moves: &[Move]) -> bool
        ensures { IsTrue result ↔ AreTakenIn self.now moves.now }
    {
        for moved in moves {
            if !self.takes(moved) {
                return false;
            }
        }
        true
    }

    /// Makes a move: an own move steps the book of its account, a sweep or a tick each book, a
    /// stray none. The decision is that of the account's book, and `Done` on every other move. It
    /// allocates nothing.
    pub fn make(&mut self, moved: Move) -> Decision
        requires { IsTakenIn self.old moved }
        ensures books { self.new ≡ server_after self.old moved }
        ensures decision { result ≡ decision_in self.old moved }
    {
        match moved {
            Move::Own { account, event } => self.own(account, event),
            Move::Sweep { moment, nas, delay } => self.sweep(moment, &nas, delay),
            Move::Tick { moment } => self.tick(moment),
            Move::Stray { .. } => Decision::Done,
        }
    }

    /// Steps the book of an account by an event of its own.
    fn own(&mut self, account: u32, event: Event) -> Decision
        requires { IsOwnIn self.old account event }
        ensures books { self.new ≡ server_after self.old (moves.Own account event) }
        ensures decision { result ≡ decision_in self.old (moves.Own account event) }
    {
        self.list[account as usize].apply(event)
    }

    /// Sweeps each book of what came `delay` seconds ago or earlier.
    fn sweep(&mut self, moment: u64, nas: &Nas, delay: u64) -> Decision
        ensures books { self.new ≡ server_after self.old (moves.Sweep moment nas.now delay) }
        ensures decision { result ≡ done }
    {
        sweep_each(&mut self.list, moment, nas, delay);
        Decision::Done
    }

    /// Ticks each book.
    fn tick(&mut self, moment: u64) -> Decision
        ensures books { self.new ≡ server_after self.old (moves.Tick moment) }
        ensures decision { result ≡ done }
    {
        tick_each(&mut self.list, moment);
        Decision::Done
    }

    /// Makes the moves of a batch, and gives their decisions in `decisions`, which has room for
    /// them. It allocates nothing.
    pub fn make_all(&mut self, batch: Vec<Move>, mut decisions: Vec<Decision>) -> Vec<Decision>
        requires taken { AreTakenIn self.old batch.items }
        requires empty { vec_len decisions ≡ 0 }
        requires room { length batch.items ≤ vec_capacity decisions }
        ensures decisions { result.items ≡ decisions_of self.old batch.items }
        ensures books { self.new ≡ replay self.old batch.items }
    {
        for moved in batch {
            decisions.push_reserved(self.make(moved));
        }
        decisions
    }
}
