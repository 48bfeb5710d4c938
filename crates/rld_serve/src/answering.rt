//! Answers to operators. No lock is held while an answer is made of a look, or written.

ghost use Rattle.std.specs.Prelude.{◌≡◌, ◌<◌, IfErr, IfNone, IfOk, IfSome, None, Some, length};
ghost use Rattle.std.specs.Arc.{arc_value};
ghost use Rattle.rld_control.specs.Reply.{reply_octets};
ghost use Rattle.rld_state.specs.Freeing.{TellsFreed, WasFreed, WereFreed, octets_of_freed};
ghost use Rattle.rld_state.specs.declared.freeing.Freed.TheVariants as outcomes;
ghost use Rattle.rld_serve.specs.Answering.{IsPageFrom, ShowsAccounts, ShowsPage, ShowsReady, ShowsSessions, ShowsStatus};
ghost use Rattle.rld_serve.specs.Commands.{Answers, IsFaultFor, IsHeardOf, session_of};
ghost use Rattle.rld_serve.specs.Hearing.{HasHeardOne};
ghost use Rattle.rld_serve.specs.Refusing.{HasNoAccount, IsUnknownIn, IsUnknownServer, IsWhyNoPage, IsWhyNoSessions, IsWhyNotFreed};
ghost use Rattle.rld_serve.specs.declared.ask_fault.AskFault.TheVariants.{NoMemory};
ghost use Rattle.rsl_accounts.specs.Configuration.{account_number};

use crate::accounts::Accounts;
use crate::ask_fault::AskFault;
use crate::hearing::Hear;
use crate::server::Server;
use crate::status::status_of;
use rld_control::{
    AccountLinks, Command, Form, FreeFault, Listing, NamedServer, NamedSession, Reply, Selection,
};
use rld_edges::Operator;
use rld_start::Generations;
use rld_state::{Freed, LinksPage};
use rld_text::{Holder, Shown, accounts_text, links_text, page_text, ready_text};
use rsl_accounts::Config;
use rsl_port::{Clock, SystemClock};
use rsl_wire::Octets;
use std::io::ErrorKind;
use std::os::unix::net::UnixStream;
use std::sync::atomic::Ordering;
use std::sync::{Arc, Wait};
use std::time;

/// When an operator hears the answer to his command.
enum Heard {
    /// At once.
    Now,
    /// Once an access server has answered, or has not.
    Later,
}

/// What an account holds.
#[derive(Drop)]
struct Held {
    config: Arc<Config>,
    held: AccountLinks,
}

/// A page of what all accounts hold.
#[derive(Drop)]
struct HeldPage {
    config: Arc<Config>,
    page: LinksPage,
}

impl<'a, G, A, R> Server<'a, G, A, R>
where
    G: Generations,
    A: Accounts,
    R: time::Clock + Wait,
{
    /// Answers an operator who has connected. Whoever asks that a session is disconnected is answered later.
    pub(crate) fn answer(&self, stream: UnixStream) {
        if let Some(named) = self.answer_now(&stream) {
            self.order(named, stream);
        }
    }

    /// Answers an operator who has connected, unless he names a session that is to be disconnected.
    fn answer_now(&self, stream: &UnixStream) -> Option<NamedSession> {
        let Ok(mut operator) = Operator::new(self.rt, stream) else {
            return None;
        };
        match operator.asked(self.alloc) {
            Ok(Some(command)) => match self.do_command(&mut operator, &command) {
                Heard::Now => None,
                Heard::Later => session_of(command),
            },
            Ok(None) => {
                operator.hear(AskFault::UnknownCommand.text().as_bytes());
                None
            }
            Err(error) => {
                if error.kind() == ErrorKind::OutOfMemory {
                    operator.hear(AskFault::NoMemory.text().as_bytes());
                }
                None
            }
        }
    }

    /// Does a command, and has the operator hear the answer, unless that comes later.
    fn do_command<H: Hear>(&self, operator: &mut H, command: &Command) -> Heard
        ensures now { result ≡ Heard.Now →
            HasHeardOne (IsHeardOf self.now.plan.names.now self.now.plan.networks.now self.now.seat command.now)
            (H.heard operator.old) (H.heard operator.new) }
        ensures later { result ≡ Heard.Later → H.heard operator.new ≡ H.heard operator.old }
        ensures named { result ≡ Heard.Later → session_of command.now ≡ None → ⊥ }
    {
        match self.answer_to(command) {
            Some(Ok(text)) => {
                operator.hear(text.as_slice());
                Heard::Now
            }
            Some(Err(fault)) => {
                operator.hear(fault.text().as_bytes());
                Heard::Now
            }
            None => Heard::Later,
        }
    }

    /// Does a command, and gives the answer, or why it is not done; `None` where the answer comes
    /// later.
    fn answer_to(&self, command: &Command) -> Option<Result<Vec<u8>, AskFault>>
        ensures later { IfNone result (session_of command.now ≡ None → ⊥) }
        ensures done { IfSome result (λ answer.
            IfOk answer (λ octets. Answers self.now.plan.names.now self.now.plan.networks.now self.now.seat command.now octets.items)) }
        ensures fault { IfSome result (λ answer. IfErr answer (IsFaultFor command.now)) }
    {
        Some(match command {
            Command::Status(form) => self.status(*form),
            Command::Ready => self.ready(),
            Command::Accounts(form, selection) => self.accounts(*form, *selection),
            Command::Sessions(form, name) => self.sessions(*form, name.as_slice()),
            Command::Links(listing) => self.links(listing),
            Command::Free(named) => self.free(named),
            Command::FreeServer(named) => self.free_server(named),
            Command::Disconnect(_) => return None,
            Command::Ask(form) => self.ask(form.as_slice()),
            Command::Reload => self.reload(),
            Command::Stop => {
                self.is_stopped.store(true, Ordering::SeqCst);
                self.shutdown.end();
                self.told(Reply::Done(b""))
            }
        })
    }

    /// The octets of an answer. It fails only if memory is refused.
    pub(crate) fn told(&self, reply: Reply<'_>) -> Result<Vec<u8>, AskFault>
        ensures told { IfOk result (λ octets. octets.items ≡ reply_octets reply.entry) }
        ensures fault { IfErr result (λ fault. fault ≡ NoMemory) }
    {
        let mut octets = Vec::new(self.alloc);
        reply.write(&mut octets)?;
        Ok(octets)
    }

    /// The answer to `status`.
    fn status(&self, form: Form) -> Result<Vec<u8>, AskFault>
        ensures shown { IfOk result (λ octets. ShowsStatus form octets.items) }
        ensures fault { IfErr result (λ fault. fault ≡ NoMemory) }
    {
        let look = self.look()?;
        Ok(status_of(self.alloc, form, &look)?)
    }

    /// The answer to `ready`. No lock is taken for it.
    fn ready(&self) -> Result<Vec<u8>, AskFault>
        ensures shown { IfOk result (λ octets. ShowsReady octets.items) }
        ensures fault { IfErr result (λ fault. fault ≡ NoMemory) }
    {
        Ok(ready_text(self.alloc, self.health_now())?)
    }

    /// The answer to `accounts`.
    fn accounts(&self, form: Form, selection: Selection) -> Result<Vec<u8>, AskFault>
        ensures shown { IfOk result (λ octets. ShowsAccounts form selection octets.items) }
        ensures fault { IfErr result (λ fault. fault ≡ NoMemory) }
    {
        let look = self.accounts_look()?;
        let accounts = look.accounts.as_slice();
        Ok(accounts_text(self.alloc, form, selection, accounts)?)
    }

    /// The present moment.
    pub(crate) fn moment(&self) -> u64 {
        SystemClock::new(self.rt, self.plan.start).now()
    }

    /// The answer to `sessions`: the links of the account with this name.
    fn sessions(&self, form: Form, name: &[u8]) -> Result<Vec<u8>, AskFault>
        ensures shown { IfOk result (λ octets. ShowsSessions form name.now octets.items) }
        ensures fault { IfErr result (IsWhyNoSessions name.now) }
    {
        let Some(Held { config, held }) = self.held_by(name)? else {
            return Err(AskFault::UnknownAccount);
        };
        let config = &*config;
        let entry = config.entry(held.account);
        let holder = Holder {
            config,
            name: entry.name.as_str(),
            live: entry.rules.live,
            moment: self.moment(),
        };
        Ok(links_text(self.alloc, form, &holder, held.links.as_slice())?)
    }

    /// What the account with this name holds, if there is one.
    fn held_by(&self, name: &[u8]) -> Result<Option<Held>, AskFault>
        ensures account { IfOk result (λ found. IfSome found (λ held.
            account_number (arc_value held.config) name.now ≡ Some held.held.account)) }
        ensures within { IfOk result (λ found. IfSome found (λ held.
            held.held.account < length (arc_value held.config).accounts)) }
        ensures none { IfOk result (λ found. IfNone found (HasNoAccount name.now)) }
        ensures fault { IfErr result (λ fault. fault ≡ NoMemory) }
    {
        let state = self.state.lock(self.rt);
        let config = state.config()?;
        match state.held_by(self.alloc, name)? {
            Some(held) => Ok(Some(Held { config, held })),
            None => Ok(None),
        }
    }

    /// The answer to `links`: a page of the links of all accounts, made of a copy. The accounts have
    /// changed where no account has the name with which the page begins: an earlier page had it.
    fn links(&self, listing: &Listing) -> Result<Vec<u8>, AskFault>
        ensures shown { IfOk result (λ octets. ShowsPage listing.now octets.items) }
        ensures fault { IfErr result (IsWhyNoPage listing.now.from) }
    {
        let HeldPage { config, page } = self.page_from(&listing.from)?;
        let shown = Shown {
            config: &*config,
            form: listing.form,
            wanted: &listing.wanted,
            moment: self.moment(),
        };
        Ok(page_text(self.alloc, &shown, page.held.as_slice(), page.next)?)
    }

    /// A page of what all accounts hold that begins with the account of this name, or with the
    /// first one. The lock is held while the page is copied, and no longer.
    fn page_from(&self, from: &Option<Octets>) -> Result<HeldPage, AskFault>
        ensures page { IfOk result (λ found.
            IsPageFrom (arc_value found.config) from.now found.page) }
        ensures fault { IfErr result (IsWhyNoPage from.now) }
    {
        let state = self.state.lock(self.rt);
        let config = state.config()?;
        let first = match from {
            None => 0,
            Some(name) => match config.account(name.as_slice()) {
                Some(account) => account,
                None => return Err(AskFault::Changed),
            },
        };
        let page = state.links_from(self.alloc, first)?;
        Ok(HeldPage { config, page })
    }

    /// Frees the place of a session by the Stop that its access server would have sent. If no link
    /// is bound to the session, nothing is recorded.
    #[tactic(auto, using(crate::proofs::Freed::why_not))]
    fn free(&self, named: &NamedSession) -> Result<Vec<u8>, AskFault>
        ensures freed { IfOk result (λ octets. TellsFreed (WasFreed named.now) octets.items) }
        ensures fault { IfErr result (IsWhyNotFreed (WasFreed named.now outcomes.Unrecorded)
            (IsUnknownIn named.now)) }
    {
        let freed = self.freed(named)?;
        self.told_freed(&freed)
    }

    /// Frees the places of all sessions of an access server by the Accounting-Off that it would have
    /// sent.
    #[tactic(auto, using(crate::proofs::Freed::why_not))]
    fn free_server(&self, named: &NamedServer) -> Result<Vec<u8>, AskFault>
        ensures freed { IfOk result (λ octets. TellsFreed (WereFreed named.now) octets.items) }
        ensures fault { IfErr result (IsWhyNotFreed (WereFreed named.now outcomes.Unrecorded)
            (IsUnknownServer named.now)) }
    {
        let freed = self.server_freed(named)?;
        self.told_freed(&freed)
    }

    /// The answer to what came of that. `Unrecorded` comes where it was not recorded.
    fn told_freed(&self, freed: &Freed) -> Result<Vec<u8>, AskFault>
        ensures freed { IfOk result (λ octets. Some octets.items ≡ octets_of_freed freed.now) }
        ensures fault { IfErr result (IsWhyNotFreed (freed.now ≡ outcomes.Unrecorded) (λ _. ⊥)) }
    {
        match freed.reply() {
            Some(reply) => self.told(reply),
            None => Err(AskFault::Unrecorded),
        }
    }

    /// Frees the places of all sessions of an access server, and gives the outcome.
    fn server_freed(&self, named: &NamedServer) -> Result<Freed, FreeFault>
        ensures freed { IfOk result (WereFreed named.now) }
        ensures fault { IfErr result (IsUnknownServer named.now) }
    {
        let moment = self.moment();
        self.state
            .lock(self.rt)
            .free_server(self.alloc, named, moment)
    }

    /// Frees the place of a session, and gives the outcome. The lock is held from the look at the accounts and the
    /// links until its Stop is recorded.
    pub(crate) fn freed(&self, named: &NamedSession) -> Result<Freed, FreeFault>
        ensures freed { IfOk result (WasFreed named.now) }
        ensures fault { IfErr result (IsUnknownIn named.now) }
    {
        let moment = self.moment();
        self.state.lock(self.rt).free(self.alloc, named, moment)
    }
}

/// The session that a command has disconnected, if it does that.
fn session_of(command: Command) -> Option<NamedSession>
    ensures { result ≡ session_of command }
{
    match command {
        Command::Disconnect(named) => Some(named),
        _ => None,
    }
}
