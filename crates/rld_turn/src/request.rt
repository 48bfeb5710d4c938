ghost use Rattle.std.specs.Prelude.{◌≡◌, IfOk};
ghost use Rattle.rld_turn.specs.Entered.{IsMadeOf};

use crate::origin::Origin;
use crate::room::Room;
use crate::subject::Subject;
use rsl_event::{Detail, Detailed, Dropped, MeaningKind, room_in};
use rsl_wire::{Draft, NoMemory};

/// A datagram that was understood, and whose answer waits until its batch is recorded.
#[derive(Drop)]
pub(crate) struct Request {
    /// Its origin.
    pub(crate) origin: Origin,
    /// Its octets.
    pub(crate) octets: Vec<u8>,
    /// The number of the client that sent it.
    pub(crate) client: u32,
    /// The kind of its meaning.
    pub(crate) kind: MeaningKind,
    /// What counters and log lines say of it besides.
    pub(crate) detail: Detail,
    /// Whom it concerns.
    pub(crate) subject: Subject,
    /// The draft of the answer.
    pub(crate) draft: Draft,
}

/// The entry of a datagram in a batch.
#[derive(Drop)]
pub(crate) enum Entry {
    /// It is dropped.
    Dropped {
        /// Its origin.
        origin: Origin,
        /// The cause.
        cause: Dropped,
    },
    /// Memory for it was refused. It has this origin.
    Refused(Origin),
    /// It makes no move, and is answered all the same.
    Bare(Request),
    /// Its move is in the batch.
    Moved {
        /// The request that waits for the decision on the move.
        request: Request,
        /// The place of the move in the batch.
        place: usize,
    },
}

impl Request {
    /// The request of a datagram that was understood, in this room. It fails only if memory is
    /// refused, for the octets or for the answer.
    pub(crate) fn of(
        room: Room,
        origin: Origin,
        datagram: &[u8],
        detailed: &Detailed<'_>,
    ) -> Result<Request, NoMemory>
        ensures { IfOk result (IsMadeOf origin datagram.now detailed.now) }
    {
        let Room { octets, reply } = room;
        let mut octets = octets;
        octets.clear();
        octets.extend_from_slice(datagram)?;
        let draft = room_in(&detailed.prepared, reply)?;
        Ok(Request {
            origin,
            octets,
            client: detailed.prepared.client,
            kind: detailed.prepared.meaning.kind(),
            detail: detailed.detail,
            subject: Subject::of(&detailed.prepared.meaning),
            draft,
        })
    }
}
