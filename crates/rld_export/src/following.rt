//! The sessions of all accounts over the moves of one generation.

ghost use Rattle.std.specs.Prelude.{◌≡◌, ◌<◌, length, max};

use crate::account::Account;
use crate::looking::{found, push_gone};
use crate::session::{End, Ended, Held, Why};
use rld_books::{ServerBooks, ServerFault};
use rld_lines::LinesFault;
use rld_start::{Cause, Wrong};
use rld_store::{Part, StoreFault};
use rsl_accounts::Config;
use rsl_book::Book;
use rsl_event::{Act, Event, Nas};
use rsl_shard::Move;
use rsl_wire::NoMemory;
use std::alloc::Global;

/// The ends of sessions of one account.
#[derive(Drop)]
pub(crate) struct Ends {
    /// The number of the account.
    pub(crate) account: u32,
    /// The sessions, in the order in which their ends were found.
    pub(crate) sessions: Vec<Ended>,
}

/// The accounts of a generation, followed move by move.
///
/// A tick steps no book: each event comes to its account at the latest tick before it, or at its
/// own moment if that is later. So the account's book comes to the same state, and a link that
/// lapsed at a tick is found to have lapsed when its account is looked at next.
#[derive(Drop)]
pub(crate) struct Following {
    /// The configuration of the generation.
    pub(crate) config: Config,
    /// The greatest moment that was seen.
    pub(crate) latest: u64,
    /// The accounts, in the order of their numbers.
    accounts: Vec<Account>,
    /// The greatest moment of a tick or a restart.
    clock: u64,
}

/// The fault of a batch at an offset, one of whose moves is of no account.
fn foreign(offset: usize) -> LinesFault {
    LinesFault::Log(Wrong {
        offset,
        cause: Cause::Foreign,
    })
}

/// The list at an index, or none.
fn list_at(lists: &[Vec<Held>], index: usize) -> &[Held] {
    match lists.get(index) {
        Some(list) => list.as_slice(),
        None => &[],
    }
}

/// The book of an account in the books of a snapshot.
fn book_of(
    alloc: Global,
    config: &Config,
    snapshot: Part<'_>,
    books: &ServerBooks,
    account: u32,
) -> Result<Book, LinesFault>
    requires { account < length config.now.accounts }
{
    let rules = config.entry(account).rules;
    let Some(saved) = books.save_book(alloc, account)? else {
        return Err(foreign(snapshot.begin()));
    };
    match Book::restore(alloc, rules, &saved) {
        Ok(book) => Ok(book),
        Err(fault) => Err(LinesFault::from(StoreFault::Misfit {
            offset: snapshot.begin(),
            fault: ServerFault::from(fault),
        })),
    }
}

/// Adds the ends of an account, if there are any.
pub(crate) fn push_ends(
    ends: &mut Vec<Ends>,
    account: u32,
    sessions: Vec<Ended>,
) -> Result<(), NoMemory> {
    if !sessions.is_empty() {
        ends.push(Ends { account, sessions })?;
    }
    Ok(())
}

/// Adds an account.
fn push_account(accounts: &mut Vec<Account>, account: Account) -> Result<(), NoMemory> {
    accounts.push(account)?;
    Ok(())
}

/// The beginning of an account: what its book holds of the sessions that were held before. The ends
/// of the others are added.
fn begun_account(
    alloc: Global,
    out: &mut Vec<Ended>,
    book: Book,
    carried: &[Held],
    latest: u64,
) -> Result<Account, NoMemory> {
    let links = book.save(alloc)?.links;
    let end = End {
        at: latest,
        why: Why::Changed,
    };
    push_gone(alloc, out, end, &links, carried)?;
    let held = found(alloc, None, carried, &links)?;
    Ok(Account { book, held })
}

impl Following {
    /// The beginning of a generation: what its snapshot holds of the sessions of the earlier ones, by
    /// this configuration's numbers. The ends of the others, at `latest`, are added.
    pub(crate) fn begin(
        alloc: Global,
        config: Config,
        snapshot: Part<'_>,
        carried: &[Vec<Held>],
        latest: u64,
        ends: &mut Vec<Ends>,
    ) -> Result<Following, LinesFault> {
        let books = snapshot.books(alloc, &config)?;
        let mut accounts = Vec::new(alloc);
        for account in 0..config.accounts() {
            let book = book_of(alloc, &config, snapshot, &books, account)?;
            let old = list_at(carried, account as usize);
            let mut sessions = Vec::new(alloc);
            push_account(
                &mut accounts,
                begun_account(alloc, &mut sessions, book, old, latest)?,
            )?;
            push_ends(ends, account, sessions)?;
        }
        let latest = latest.max(books.clock(&config));
        Ok(Following {
            config,
            latest,
            accounts,
            clock: 0,
        })
    }

    /// The sessions that an account holds.
    pub(crate) fn held(&self, account: u32) -> &[Held] {
        match self.accounts.get(account as usize) {
            Some(account) => account.held.as_slice(),
            None => &[],
        }
    }

    /// Makes a move of a batch that begins at an offset of the file, and adds the ends that are
    /// found by it.
    pub(crate) fn make(
        &mut self,
        alloc: Global,
        at: usize,
        moved: Move,
        ends: &mut Vec<Ends>,
    ) -> Result<(), LinesFault> {
        match moved {
            Move::Own { account, event } => self.own(alloc, at, account, event, ends),
            Move::Sweep { moment, nas, delay } => {
                Ok(self.sweep(alloc, moment, &nas, delay, ends)?)
            }
            Move::Tick { moment } => {
                self.come_to(moment);
                Ok(())
            }
            Move::Stray { .. } => Ok(()),
        }
    }

    /// Comes to the moment of a tick or a restart.
    fn come_to(&mut self, moment: u64)
        ensures { self.new ≡ record self.old { clock = max self.old.clock moment; latest = max self.old.latest moment } }
    {
        self.clock = self.clock.max(moment);
        self.latest = self.latest.max(moment);
    }

    /// Makes an event of one account.
    fn own(
        &mut self,
        alloc: Global,
        at: usize,
        account: u32,
        event: Event,
        ends: &mut Vec<Ends>,
    ) -> Result<(), LinesFault> {
        let moment = event.moment.max(self.clock);
        let Some(followed) = self.accounts.get_mut(account as usize) else {
            return Err(foreign(at));
        };
        let mut sessions = Vec::new(alloc);
        let event = Event {
            moment,
            act: event.act,
        };
        followed.step(alloc, &mut sessions, event)?;
        self.latest = self.latest.max(moment);
        Ok(push_ends(ends, account, sessions)?)
    }

    /// Makes a restart of an access server, told `delay` seconds late, for every account.
    fn sweep(
        &mut self,
        alloc: Global,
        moment: u64,
        nas: &Nas,
        delay: u64,
        ends: &mut Vec<Ends>,
    ) -> Result<(), NoMemory> {
        self.come_to(moment);
        for account in 0..self.config.accounts() {
            let Some(followed) = self.accounts.get_mut(account as usize) else {
                return Ok(());
            };
            let event = Event {
                moment: self.clock,
                act: Act::Sweep {
                    nas: nas.try_copy(alloc)?,
                    delay,
                },
            };
            let mut sessions = Vec::new(alloc);
            followed.step(alloc, &mut sessions, event)?;
            push_ends(ends, account, sessions)?;
        }
        Ok(())
    }

    /// Ends the sessions that have lapsed by the last tick.
    pub(crate) fn end(&mut self, alloc: Global, ends: &mut Vec<Ends>) -> Result<(), NoMemory> {
        for account in 0..self.config.accounts() {
            let Some(followed) = self.accounts.get_mut(account as usize) else {
                return Ok(());
            };
            let mut sessions = Vec::new(alloc);
            followed.lapse(alloc, &mut sessions, self.clock)?;
            push_ends(ends, account, sessions)?;
        }
        Ok(())
    }
}
