//! The second half of a turn: what was taken is answered.

ghost use Rattle.std.specs.Prelude.{◌≡◌, ◌≤◌, ◌<◌, [], ◌∷◌, ◌++◌, length, true, Ok, Option, Some, None};
ghost use Rattle.std.specs.List.{AllByRecursion};
ghost use Rattle.rsl_accounts.specs.Configuration.{client_number};
ghost use Rattle.rsl_event.specs.Answer.{said_to};
ghost use Rattle.rsl_port.specs.Told.{datagram_of};
ghost use Rattle.rld_turn.specs.Answered.{Batch, HasAnswered};
ghost use Rattle.rld_turn.specs.Ended.{
  CanEnd,
  IsEndOf,
  answer_if,
  decision_at,
  reply_of,
  sent_by,
  told_by,
  told_by_request,
};
ghost use Rattle.rld_turn.specs.Entered.{CanAnswer};
ghost use Rattle.rld_turn.specs.Present.{service_of};
ghost use Rattle.rld_turn.specs.Recorded.{decisions_in};
ghost use Rattle.rld_turn.specs.Told.{HasTold, IsSentAs, told_of};
ghost use Rattle.rld_turn.specs.declared.end.End.TheVariants as ends;

use crate::end::End;
use crate::origin::Origin;
use crate::present::Present;
use crate::receiver::Receiver;
use crate::request::{Entry, Request};
use crate::room::{Room, Rooms};
use crate::watch::{Ended, Watch};
use rld_store::{RecordFault, Recorded};
use rsl_event::{Decision, Detail, Said, reply_to};
use rsl_port::{DatagramPort, PortFault};
use rsl_wire::read;
use std::net::SocketAddr;

impl Receiver {
    /// Answers the datagrams that were gathered, in the order in which they were taken, and notes how each ended.
    /// Their moves are recorded so, or they have none. One that has a move is answered only if they are recorded.
    pub fn answer<P: DatagramPort<SocketAddr>, W: Watch>(
        &mut self,
        present: &Present<'_>,
        recorded: &Result<Option<Recorded>, RecordFault>,
        datagrams: &mut P,
        watch: &mut W,
    )
        requires can { AllByRecursion (CanEnd present.now.config.now (decisions_in recorded.now))
            self.old.queue.items }
        ensures same { self.new.port ≡ self.old.port }
        ensures contents { P.contents datagrams.new ≡ P.contents datagrams.old }
        ensures telling { P.tells datagrams.new ≡ true → P.tells datagrams.old ≡ true }
        ensures taken { P.tells datagrams.new ≡ true →
            P.taken datagrams.new ≡ P.taken datagrams.old }
        ensures room { P.tells datagrams.new ≡ true →
            P.room datagrams.new ≡ P.room datagrams.old }
        ensures down { P.tells datagrams.new ≡ true →
            P.is_down datagrams.new ≡ P.is_down datagrams.old }
        ensures turns { W.turns watch.new ≡ W.turns watch.old }
        ensures answered { (batch : Batch (service_of present.now) self.old.port
            (decisions_in recorded.now) self.old.queue.items) →
            HasAnswered (service_of present.now) self.old.port (P.tells datagrams.new ≡ true)
            (decisions_in recorded.now) self.old.queue.items batch
            (P.sent datagrams.old) (P.sent datagrams.new)
            (W.knows watch.old) (W.knows watch.new) }
    {
        while let Some(entry) = self.queue.pop_front() {
            present.end(entry, recorded, datagrams, watch, &mut self.rooms);
        }
    }
}

impl Present<'_> {
    /// Ends an entry of a batch that is recorded so, and notes how.
    fn end<P: DatagramPort<SocketAddr>, W: Watch>(
        &self,
        entry: Entry,
        recorded: &Result<Option<Recorded>, RecordFault>,
        datagrams: &mut P,
        watch: &mut W,
        rooms: &mut Rooms,
    ) -> End
        requires can { CanEnd self.now.config.now (decisions_in recorded.now) entry }
        ensures end { IsEndOf (decisions_in recorded.now) entry result }
        ensures contents { P.contents datagrams.new ≡ P.contents datagrams.old }
        ensures telling { P.tells datagrams.new ≡ true → P.tells datagrams.old ≡ true }
        ensures taken { P.tells datagrams.new ≡ true →
            P.taken datagrams.new ≡ P.taken datagrams.old }
        ensures room { P.tells datagrams.new ≡ true →
            P.room datagrams.new ≡ P.room datagrams.old }
        ensures down { P.tells datagrams.new ≡ true →
            P.is_down datagrams.new ≡ P.is_down datagrams.old }
        ensures sent { P.tells datagrams.new ≡ true → P.sent datagrams.new ≡ P.sent datagrams.old
            ++ sent_by (service_of self.now) (decisions_in recorded.now) entry }
        ensures turns { W.turns watch.new ≡ W.turns watch.old }
        ensures told { HasTold (told_by self.now.config.now entry result ∷ [])
            (W.knows watch.old) (W.knows watch.new) }
    {
        match entry {
            Entry::Dropped { origin, cause } => {
                self.tell_bare(origin, End::Dropped(cause), watch);
                End::Dropped(cause)
            }
            Entry::Refused(origin) => {
                self.tell_bare(origin, End::Refused, watch);
                End::Refused
            }
            Entry::Bare(request) => self.send(request, Decision::Done, datagrams, watch, rooms),
            Entry::Moved { request, place } => match recorded {
                Ok(Some(recorded)) => self.send(
                    request,
                    decision_at(recorded, place),
                    datagrams,
                    watch,
                    rooms,
                ),
                Ok(None) | Err(_) => {
                    self.tell_request(&request, End::Unrecorded, watch);
                    End::Unrecorded
                }
            },
        }
    }

    /// Notes the end of a datagram of which nothing but its origin was kept.
    fn tell_bare<W: Watch>(&self, origin: Origin, end: End, watch: &mut W)
        ensures turns { W.turns watch.new ≡ W.turns watch.old }
        ensures told { HasTold (told_of self.now.config.now origin [] None None end ∷ [])
            (W.knows watch.old) (W.knows watch.new) }
    {
        let ended = Ended {
            origin,
            client: self.config.client(origin.source.address),
            octets: &[],
            detail: None,
            subject: None,
            end,
        };
        self.tell(ended, watch);
    }

    /// Notes the end of a request that is not answered.
    fn tell_request<W: Watch>(&self, request: &Request, end: End, watch: &mut W)
        requires { CanAnswer self.now.config.now request.now }
        ensures turns { W.turns watch.new ≡ W.turns watch.old }
        ensures told { HasTold (told_by_request self.now.config.now request.now end ∷ [])
            (W.knows watch.old) (W.knows watch.new) }
    {
        let ended = Ended {
            origin: request.origin,
            client: Some(request.client),
            octets: request.octets.as_slice(),
            detail: Some(request.detail),
            subject: Some(request.subject),
            end,
        };
        self.tell(ended, watch);
    }

    /// Notes how a datagram ended, with the client that has the address of its source.
    fn tell<W: Watch>(&self, ended: Ended<'_>, watch: &mut W)
        requires { client_number self.now.config.now ended.origin.source.address
            ≡ ended.client }
        ensures turns { W.turns watch.new ≡ W.turns watch.old }
        ensures told { HasTold (told_of self.now.config.now ended.entry.origin
            ended.entry.octets.now ended.entry.detail ended.entry.subject ended.entry.end ∷ [])
            (W.knows watch.old) (W.knows watch.new) }
    {
        watch.note(ended);
    }

    /// Sends the answer to a request, with this decision, to its peer, and notes how that ended.
    fn send<P: DatagramPort<SocketAddr>, W: Watch>(
        &self,
        request: Request,
        decision: Decision,
        datagrams: &mut P,
        watch: &mut W,
        rooms: &mut Rooms,
    ) -> End
        requires can { CanAnswer self.now.config.now request }
        ensures end { IsSentAs (said_to request.kind decision) result }
        ensures contents { P.contents datagrams.new ≡ P.contents datagrams.old }
        ensures telling { P.tells datagrams.new ≡ true → P.tells datagrams.old ≡ true }
        ensures taken { P.tells datagrams.new ≡ true →
            P.taken datagrams.new ≡ P.taken datagrams.old }
        ensures room { P.tells datagrams.new ≡ true →
            P.room datagrams.new ≡ P.room datagrams.old }
        ensures down { P.tells datagrams.new ≡ true →
            P.is_down datagrams.new ≡ P.is_down datagrams.old }
        ensures sent { P.tells datagrams.new ≡ true → P.sent datagrams.new ≡ P.sent datagrams.old
            ++ reply_of (service_of self.now) request decision ∷ [] }
        ensures turns { W.turns watch.new ≡ W.turns watch.old }
        ensures told { HasTold (told_by_request self.now.config.now request result ∷ [])
            (W.knows watch.old) (W.knows watch.new) }
    {
        let Request {
            origin,
            octets,
            client,
            kind,
            detail,
            subject,
            draft,
        } = request;
        let reply = match read(octets.as_slice()) {
            Ok(packet) => reply_to(
                &packet,
                client,
                kind,
                self.config,
                self.boot,
                decision,
                draft,
            ),
            Err(_) => unreachable!(),
        };
        let end = hand_over(
            datagrams,
            reply.as_slice(),
            origin.peer,
            kind.said(decision),
        );
        let ended = Ended {
            origin,
            client: Some(client),
            octets: octets.as_slice(),
            detail: Some(detail),
            subject: Some(subject),
            end,
        };
        self.tell(ended, watch);
        rooms.keep(Room { octets, reply });
        end
    }
}

/// Sends an answer with this word by the port, and gives how that ended.
fn hand_over<P: DatagramPort<SocketAddr>>(
    datagrams: &mut P,
    reply: &[u8],
    to: SocketAddr,
    said: Said,
) -> End
    ensures end { IsSentAs said result }
    ensures contents { P.contents datagrams.new ≡ P.contents datagrams.old }
    ensures telling { P.tells datagrams.new ≡ true → P.tells datagrams.old ≡ true }
    ensures taken { P.tells datagrams.new ≡ true → P.taken datagrams.new ≡ P.taken datagrams.old }
    ensures room { P.tells datagrams.new ≡ true → P.room datagrams.new ≡ P.room datagrams.old }
    ensures down { P.tells datagrams.new ≡ true → P.is_down datagrams.new ≡ P.is_down datagrams.old }
    ensures sent { P.tells datagrams.new ≡ true → P.sent datagrams.new ≡ P.sent datagrams.old
        ++ datagram_of to reply.now ∷ [] }
{
    match datagrams.send(reply, to) {
        Ok(()) => End::Answered(said),
        Err(PortFault) => End::Unsent(said),
    }
}

/// The decision at a place of a batch that is recorded.
fn decision_at(recorded: &Recorded, place: usize) -> Decision
    requires { place < length recorded.now.decisions }
    ensures { result ≡ decision_at recorded.now.decisions place }
{
    recorded.decisions()[place]
}
