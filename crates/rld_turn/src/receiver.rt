ghost use Rattle.std.specs.Prelude.{◌≡◌, ◌≤◌, IfOk};
ghost use Rattle.std.specs.Prelude.{vec_len};
ghost use Rattle.std.specs.VecDeque.{deque_capacity};

use crate::request::Entry;
use crate::room::Rooms;
use rsl_event::Port;
use rsl_wire::{MAX_LEN, NoMemory};
use std::alloc::Global;
use std::collections::VecDeque;

/// The most datagrams of a turn.
pub const MAX_BATCH: usize = 64;

const _: () = prove!(MAX_BATCH == 64);

/// Takes datagrams from a port and answers them, turn after turn, and keeps the memory for them.
///
/// A turn has two halves. `gather` takes what waits, and gives its moves. Once these are recorded, or were not,
/// `answer` answers what was taken.
#[derive(Drop)]
pub struct Receiver {
    pub(crate) alloc: Global,
    pub(crate) port: Port,
    pub(crate) buffer: Vec<u8>,
    /// What was gathered and is not answered yet.
    pub(crate) queue: VecDeque<Entry>,
    pub(crate) rooms: Rooms,
    ghost whole: { vec_len buffer ≡ 4096 },
    ghost room: { 64 ≤ deque_capacity queue },
}

impl Receiver {
    /// A receiver for the authentication port or the accounting port. It fails only if memory is
    /// refused, for a datagram of 4,096 octets or for the entries of a batch.
    pub fn new(alloc: Global, port: Port) -> Result<Receiver, NoMemory>
        ensures { IfOk result (λ receiver. receiver.port ≡ port) }
    {
        let buffer = Vec::from_elem(alloc, 0u8, MAX_LEN)?;
        let queue = VecDeque::with_capacity(alloc, MAX_BATCH)?;
        Ok(Receiver {
            alloc,
            port,
            buffer,
            queue,
            rooms: Rooms::new(alloc),
        })
    }
}
