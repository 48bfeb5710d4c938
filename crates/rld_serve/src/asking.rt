//! Asks of whoever checks logins himself: each is the Access-Request that its client would have sent, and takes
//! the way of every datagram, in a turn of a receiver.

ghost use Rattle.std.specs.Prelude.{◌≡◌, ◌++◌, codes, IfErr, IfOk, IfSome, Some};
ghost use Rattle.rld_ask.specs.Form.{fault_text, form_of};
ghost use Rattle.rld_current.specs.Asking.{AreAnswered};
ghost use Rattle.rld_current.specs.Noting.{noted_if};
ghost use Rattle.rld_current.specs.Turning.{IsFaultOfTurn};
ghost use Rattle.rld_edges.specs.declared.fault.RunFault.TheVariants as run_faults;
ghost use Rattle.rld_serve.specs.Answering.{IsUntold, TellsAccepted};
ghost use Rattle.rld_serve.specs.Asked.{IsToldOf, IsUnasked, TellsFirst, client_of};
ghost use Rattle.rld_serve.specs.declared.ask_fault.AskFault.TheVariants.{NoMemory as refused};

use crate::accounts::Accounts;
use crate::ask_fault::AskFault;
use crate::server::Server;
use rld_ask::{Answer, AskForm, Asked, Asks, FormFault, Outcome, Refused, reply_lines};
use rld_control::Reply;
use rld_current::AskPlace;
use rld_edges::RunFault;
use rld_look::{WatchContext, Watcher};
use rld_start::Generations;
use rld_state::Told;
use rsl_port::SystemClock;
use rsl_reply::Dictionary;
use std::net::{Net, SocketAddr};
use std::sync::Wait;
use std::{io, time};

/// As whose asks come, and where they are counted.
#[derive(Clone, Copy)]
pub(crate) struct Seat {
    /// The address of their client.
    pub(crate) client: [u8; 4],
    /// The number of their receiver.
    pub(crate) number: usize,
}

/// How many seconds lie between two lines on requests that were refused.
const TOLD_SECS: u64 = 60;

const _: () = prove!(TOLD_SECS == 60);

/// A server to which asks are put from one thread.
#[derive(Drop)]
struct Desk<'s, 'a, G, A, R: Wait + time::Clock> {
    server: &'s Server<'a, G, A, R>,
    place: AskPlace<'s, R>,
    refused: Refused,
    told: u64,
    fault: Option<RunFault>,
}

impl<G, A, R> Asked for Desk<'_, '_, G, A, R>
where
    G: Generations,
    A: Accounts,
    R: Wait + time::Clock,
{
    fn ask(&mut self, asks: &[AskForm]) -> Option<Vec<Answer>> {
        match self.server.take_turn_of(&mut self.place, asks) {
            Ok(answers) => Some(answers),
            Err(fault) => {
                self.fault = Some(fault);
                None
            }
        }
    }

    fn note(&mut self, peer: SocketAddr, refused: Refused) {
        let place = &mut self.place;
        place.count_refused(refused);
        let moment = place.moment();
        self.server.note_unauthorized(peer, moment, refused.token);
        self.refused.add(refused);
        if moment.saturating_sub(self.told) >= TOLD_SECS {
            let Refused { token, other } = self.refused;
            self.server.tell(Told::Asks(token, other));
            self.refused = Refused::none();
            self.told = moment;
        }
    }

    fn is_over(&self) -> bool {
        self.server.shutdown.is_over()
    }
}

/// Has names for what its answers say.
trait Named<'n> {
    /// The names.
    fn names(&self) -> &'n Dictionary;
}

impl<'s, G, A, R: Wait + time::Clock> Named<'s> for Desk<'s, '_, G, A, R> {
    fn names(&self) -> &'s Dictionary {
        let server = self.server;
        server.plan.names
    }
}

/// Puts asks to a server until it shall end. The server gives the names itself: the borrow checker refuses them
/// in a call to which a desk is given, whose type names several lifetimes.
fn take_by<'n, S: Asked + Named<'n>, R: Net + time::Clock + Wait>(
    asks: &Asks,
    rt: &R,
    server: &mut S,
) -> io::Result<()> {
    let names = server.names();
    asks.take(rt, names, server)
}

impl<'a, G, A, R> Server<'a, G, A, R>
where
    G: Generations,
    A: Accounts,
    R: Net + Eprint + time::Clock + Wait,
{
    /// Takes asks over HTTP until the server shall end.
    pub(crate) fn take_asks(&self, asks: &Asks) -> Result<(), RunFault> {
        let place = self.ask_place()?;
        if !self.has_started()? {
            return Ok(());
        }
        let Some(place) = place else {
            return Ok(());
        };
        let mut desk = Desk {
            server: self,
            place,
            refused: Refused::none(),
            told: 0,
            fault: None,
        };
        take_by(asks, self.rt, &mut desk)?;
        match desk.fault {
            Some(fault) => Err(fault),
            None => Ok(()),
        }
    }
}

impl<'a, G, A, R> Server<'a, G, A, R>
where
    G: Generations,
    A: Accounts,
    R: Wait + time::Clock,
{
    /// What takes asks, if the server's file says that they come in.
    fn ask_place(&self) -> Result<Option<AskPlace<'_, R>>, RunFault>
        ensures client { IfOk result (λ found. IfSome found (λ place.
            client_of self.now.seat ≡ Some place.client)) }
        ensures fault { IfErr result (λ fault. fault ≡ run_faults.NoMemory) }
    {
        let Some(seat) = self.seat else {
            return Ok(None);
        };
        let context = WatchContext {
            board: &self.board,
            refusals: &self.refusals,
        };
        let Some(watcher) = Watcher::new(self.rt, self.alloc, context, seat.number)? else {
            return Ok(None);
        };
        let clock = SystemClock::new(self.rt, self.plan.start);
        Ok(Some(AskPlace::new(self.alloc, seat.client, clock, watcher)?))
    }

    /// Takes a turn with these asks (`AskPlace::take_turn`), with what is present.
    fn take_turn_of(
        &self,
        place: &mut AskPlace<'_, R>,
        asks: &[AskForm],
    ) -> Result<Vec<Answer>, RunFault>
        ensures client { place.new.client ≡ place.old.client }
        ensures fault { IfErr result IsFaultOfTurn }
        ensures answered { IfOk result (λ answers.
            AreAnswered self.now.plan.networks.now place.old.client
            (noted_if place.new.watch.is_whole place.new.watch.noted.items) asks.now answers.items) }
    {
        let current = self.current.read(self.rt);
        place.take_turn(&self.shared(), &*current, asks)
    }

    /// Answers the ask of an operator, by its form.
    pub(crate) fn ask(&self, form: &[u8]) -> Result<Vec<u8>, AskFault>
        ensures told { IfOk result (λ octets.
            IsToldOf self.now.plan.names.now self.now.plan.networks.now self.now.seat (form_of form.now) octets.items) }
        ensures fault { IfErr result IsUnasked }
    {
        match AskForm::read(self.alloc, form) {
            Ok(ask) => self.told_at(&mut self.seated()?, ask),
            Err(FormFault::NoMemory) => Err(AskFault::NoMemory),
            Err(fault) => self.told_fault(fault),
        }
    }

    /// What an operator is told of a form with this fault.
    fn told_fault(&self, fault: FormFault) -> Result<Vec<u8>, AskFault>
        ensures told { IfOk result (λ octets. octets.items
            ≡ codes "error " ++ (fault_text fault ++ codes "\n")) }
        ensures fault { IfErr result (λ fault. fault ≡ refused) }
    {
        let mut text = Vec::new(self.alloc);
        fault.push(&mut text)?;
        self.told(Reply::Refused(text.as_slice()))
    }

    /// A place for the ask of an operator. `NoAsks` comes where the server's file says nothing of asks.
    fn seated(&self) -> Result<AskPlace<'_, R>, AskFault>
        ensures client { IfOk result (λ place. client_of self.now.seat ≡ Some place.client) }
        ensures fault { IfErr result IsUnasked }
    {
        match self.ask_place() {
            Ok(Some(place)) => Ok(place),
            Ok(None) => Err(AskFault::NoAsks),
            Err(_) => Err(AskFault::NoMemory),
        }
    }

    /// What an operator is told of an ask, which has a turn of its own at this place.
    fn told_at(&self, place: &mut AskPlace<'_, R>, ask: AskForm) -> Result<Vec<u8>, AskFault>
        ensures told { IfOk result (λ octets.
            TellsFirst self.now.plan.names.now self.now.plan.networks.now place.old.client
            (noted_if place.new.watch.is_whole place.new.watch.noted.items) ask octets.items) }
        ensures fault { IfErr result IsUnasked }
    {
        let asks = vec![in self.alloc; ask]?;
        let Ok(answers) = self.take_turn_of(place, asks.as_slice()) else {
            return Err(AskFault::NotAccepted(Outcome::Unanswered));
        };
        match answers.first() {
            Some(answer) => self.told_of(answer),
            None => Err(AskFault::NotAccepted(Outcome::Unanswered)),
        }
    }

    /// What an operator is told of an answer.
    fn told_of(&self, answer: &Answer) -> Result<Vec<u8>, AskFault>
        ensures told { IfOk result (λ octets. TellsAccepted self.now.plan.names.now answer.now octets.items) }
        ensures fault { IfErr result (IsUntold answer.now.outcome) }
    {
        match answer.outcome {
            Outcome::Accepted => {
                let lines = reply_lines(self.alloc, self.plan.names, answer.reply.as_slice())?;
                self.told(Reply::Done(lines.as_slice()))
            }
            outcome => Err(AskFault::NotAccepted(outcome)),
        }
    }
}
