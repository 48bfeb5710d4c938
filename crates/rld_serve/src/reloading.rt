//! Reading the accounts of a running server again.

ghost use Rattle.std.specs.Prelude.{◌≡◌, ◌⊎◌, All, IfErr, IfNone, IfOk, IfSome, IsErrOf, OnErr, OnOk, length, map};
ghost use Rattle.std.specs.Arc.{arc_value};
ghost use Rattle.rld_spelling.specs.Tables.{client_row, table_of};
ghost use Rattle.rld_serve.specs.Answering.{IsDone, IsRefused, TellsChange};
ghost use Rattle.rld_serve.specs.declared.ask_fault.AskFault.TheVariants.{NoMemory};

use crate::accounts::{Accounts, AccountsFault};
use crate::ask_fault::AskFault;
use crate::server::Server;
use rld_books::BlankBooks;
use rld_control::Reply;
use rld_counts::ClientCounts;
use rld_current::Current;
use rld_log::{FileLog, PacedLog};
use rld_start::{Generations, NextLog, has_same_clients, has_same_table};
use rld_state::{ReloadFault, Reloaded, RollFault, Told};
use rld_store::Store;
use rsl_accounts::Config;
use std::sync::{Arc, Wait};
use std::{fmt, time};

/// What a change of the accounts needs that is not quickly made.
#[derive(Drop)]
struct Prepared {
    /// The log of the next generation, which is empty.
    log: NextLog<FileLog>,
    /// Blank books of the accounts that were read.
    blanks: BlankBooks,
}

/// What is prepared before the receivers wait, so that they wait only shortly.
#[derive(Drop)]
struct Change {
    /// The accounts, clients and rules that were read.
    config: Arc<Config>,
    /// Another handle to these, for the state.
    held: Arc<Config>,
    /// What a change of the table needs, if they have another one.
    next: Option<Prepared>,
    /// Counts for their clients, if these have changed.
    counts: Option<Vec<ClientCounts>>,
}

/// A change that is done.
#[derive(Drop)]
struct Changed<'a> {
    reloaded: Reloaded,
    /// The store of the former accounts, if the table has changed.
    former: Option<Store<PacedLog<'a, FileLog>>>,
}

impl<'a, G, A, R> Server<'a, G, A, R>
where
    G: Generations,
    A: Accounts,
    R: time::Clock + Wait,
{
    /// Reads the accounts again, and goes on with them. Gives the answer to the operator. If it is
    /// `error`, nothing has changed. Where the disk has no room for the change, the worker that makes
    /// ticks is asked for some.
    pub(crate) fn reload(&self) -> Result<Vec<u8>, AskFault>
        ensures told { IfOk result (λ octets. IsDone octets.items ⊎ IsRefused octets.items) }
        ensures fault { IfErr result (λ fault. fault ≡ NoMemory) }
    {
        let config = match self.accounts.read(self.alloc) {
            Ok(config) => config,
            Err(AccountsFault::Wrong(text)) => return self.refusal(&text),
            Err(AccountsFault::NoMemory) => return Err(AskFault::NoMemory),
        };
        let changed = self.change_accounts(config);
        match changed {
            Ok(reloaded) => self.tell(Told::Accounts(reloaded)),
            Err(fault) if fault.is_full() => self.plan.pacing.ticks.want_room(),
            Err(_) => {}
        }
        self.told_change(changed)
    }

    /// The answer once accounts were read: what has changed, or why they are as they were.
    fn told_change(&self, changed: Result<Reloaded, ReloadFault>) -> Result<Vec<u8>, AskFault>
        ensures told { IfOk result (λ octets. TellsChange changed octets.items) }
        ensures fault { IfErr result (λ fault. fault ≡ NoMemory) }
    {
        match changed {
            Ok(reloaded) => {
                let lines = format!(in self.alloc; "{reloaded}\n")?;
                self.told(Reply::Done(lines.as_bytes()))
            }
            Err(fault) => self.refusal(&fault),
        }
    }

    /// The answer to a command that is not done.
    fn refusal<T: fmt::Display>(&self, why: &T) -> Result<Vec<u8>, AskFault>
        ensures told { IfOk result (λ octets. IsRefused octets.items) }
        ensures fault { IfErr result (λ fault. fault ≡ NoMemory) }
    {
        let why = format!(in self.alloc; "{why}")?;
        self.told(Reply::Refused(why.as_bytes()))
    }

    /// Goes on with these accounts. Where another generation begins meanwhile it is tried once more.
    fn change_accounts(&self, config: Config) -> Result<Reloaded, ReloadFault> {
        let config = Arc::new(self.alloc, config)?;
        match self.try_change(&config) {
            Err(ReloadFault::NotBegun(RollFault::Former)) => self.try_change(&config),
            changed => changed,
        }
    }

    /// Goes on with these accounts. What is left of the former ones is dropped once the receivers go
    /// on: a handle to the accounts is held until then.
    fn try_change(&self, config: &Arc<Config>) -> Result<Reloaded, ReloadFault> {
        let accounts = self.state.lock(self.rt).config()?;
        let change = self.change_to(&*accounts, config)?;
        let Changed { reloaded, former } = self.do_change(change)?;
        drop(former);
        drop(accounts);
        Ok(reloaded)
    }

    /// Prepares a change from these accounts to other ones.
    fn change_to(&self, former: &Config, config: &Arc<Config>) -> Result<Change, ReloadFault>
        ensures fault { IsErrOf result ReloadFault.Changed → ⊥ }
        ensures config { IfOk result (λ change. arc_value change.config ≡ arc_value config.now) }
        ensures held { IfOk result (λ change. arc_value change.held ≡ arc_value config.now) }
        ensures goes_on { IfOk result (λ change.
            IfNone change.next (table_of former.now ≡ table_of (arc_value config.now))) }
        ensures begins { IfOk result (λ change.
            IfSome change.next (λ _. table_of former.now ≡ table_of (arc_value config.now) → ⊥)) }
        ensures counts { IfOk result (λ change. IfSome change.counts
            (λ each. length each.items ≡ length self.now.board.places.items)) }
        ensures clients { IfOk result (λ change. IfSome change.counts
            (λ each. All (λ one. one ≡ length (arc_value config.now).clients) each.items)) }
        ensures recounts { IfOk result (λ change. IfSome change.counts
            (λ _. map client_row former.now.clients ≡ map client_row (arc_value config.now).clients → ⊥)) }
        ensures counts_on { IfOk result (λ change. IfNone change.counts
            (map client_row former.now.clients ≡ map client_row (arc_value config.now).clients)) }
    {
        let config = Arc::try_clone(config)?;
        let held = Arc::try_clone(&config)?;
        let counts = if has_same_clients(former, &*config) {
            None
        } else {
            Some(self.board.counts_for(self.alloc, config.clients())?)
        };
        let next = self.prepared_for(former, &*config)?;
        Ok(Change {
            config,
            held,
            next,
            counts,
        })
    }

    /// What a change to these accounts needs, unless they have the table of the former ones.
    fn prepared_for(&self, former: &Config, config: &Config) -> Result<Option<Prepared>, RollFault>
        ensures goes_on { IfOk result (λ found.
            IfNone found (table_of former.now ≡ table_of config.now)) }
        ensures begins { IfOk result (λ found.
            IfSome found (λ _. table_of former.now ≡ table_of config.now → ⊥)) }
    {
        if has_same_table(former, config) {
            return Ok(None);
        }
        let present = self.state.lock(self.rt).header().generation;
        let blanks = BlankBooks::new(self.alloc, config)?;
        let log = self.generations.next_log(self.alloc, present)?;
        Ok(Some(Prepared { log, blanks }))
    }

    /// Makes a change, between the turns of all receivers.
    fn do_change(&self, change: Change) -> Result<Changed<'a>, ReloadFault>
        requires same { arc_value change.config ≡ arc_value change.held }
        requires counts { IfSome change.counts
            (λ each. length each.items ≡ length self.now.board.places.items) }
    {
        let mut current = self.current.write(self.rt);
        self.change_current(&mut *current, change)
    }

    /// Makes a change of what is present, behind whose lock no receiver takes a turn. With a fault all
    /// is as it was.
    fn change_current(
        &self,
        current: &mut Current,
        change: Change,
    ) -> Result<Changed<'a>, ReloadFault>
        requires same { arc_value change.config ≡ arc_value change.held }
        requires counts { IfSome change.counts
            (λ each. length each.items ≡ length self.now.board.places.items) }
        ensures config { OnOk result (current.new.config ≡ change.config) }
        ensures err { OnErr result (current.new ≡ current.old) }
        ensures goes_on { IfNone change.next (IfErr result (λ fault. fault ≡ ReloadFault.Changed)) }
        ensures begins { IfSome change.next (λ _. IsErrOf result ReloadFault.Changed → ⊥) }
    {
        let Change {
            config,
            held,
            next,
            counts,
        } = change;
        let (changed, present) = self.go_on_by(held, config, next)?;
        if let Some(counts) = counts {
            self.board.renew(self.rt, counts);
        }
        *current = present;
        Ok(changed)
    }

    /// Goes on with other accounts, with what was prepared for them, or with the present table if
    /// nothing was. Gives what is present then, by another handle to them.
    fn go_on_by(
        &self,
        config: Arc<Config>,
        other: Arc<Config>,
        next: Option<Prepared>,
    ) -> Result<(Changed<'a>, Current), ReloadFault>
        requires { arc_value other ≡ arc_value config }
        ensures config { IfOk result (λ changed. changed.1.config ≡ other) }
        ensures goes_on { IfNone next (IfErr result (λ fault. fault ≡ ReloadFault.Changed)) }
        ensures begins { IfSome next (λ _. IsErrOf result ReloadFault.Changed → ⊥) }
    {
        let mut state = self.state.lock(self.rt);
        let Some(Prepared { log, blanks }) = next else {
            if !state.go_on(config) {
                return Err(ReloadFault::Changed);
            }
            let changed = Changed {
                reloaded: Reloaded::AsBefore,
                former: None,
            };
            return Ok((changed, Current::of(&*state, other)));
        };
        let log = log.paced(self.plan.pacing);
        let done = state.change(self.alloc, self.generations, config, log, blanks)?;
        let changed = Changed {
            reloaded: Reloaded::Changed(done.change),
            former: Some(done.former),
        };
        Ok((changed, Current::of(&*state, other)))
    }
}
