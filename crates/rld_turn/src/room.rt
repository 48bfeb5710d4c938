use std::alloc::Global;

/// The buffers of a request, for its octets and for its answer. A receiver keeps them from one
/// request to the next.
#[derive(Drop)]
pub(crate) struct Room {
    pub(crate) octets: Vec<u8>,
    pub(crate) reply: Vec<u8>,
}

/// The rooms that no request uses.
#[derive(Drop)]
pub(crate) struct Rooms {
    pub(crate) alloc: Global,
    free: Vec<Room>,
}

impl Rooms {
    /// No rooms.
    pub(crate) fn new(alloc: Global) -> Rooms {
        Rooms {
            alloc,
            free: Vec::new(alloc),
        }
    }

    /// A room of an earlier request, or one whose buffers are not allocated yet.
    pub(crate) fn take(&mut self) -> Room {
        match self.free.pop() {
            Some(room) => room,
            None => Room {
                octets: Vec::new(self.alloc),
                reply: Vec::new(self.alloc),
            },
        }
    }

    /// Keeps a room for another request. It is freed if memory to keep it is refused.
    pub(crate) fn keep(&mut self, room: Room) {
        let _ = self.free.push(room);
    }
}
