use crate::fault::RunFault;
use mio::unix::SourceFd;
use mio::{Events, Interest, Poll, Token};
use std::alloc::Global;
use std::io;
use std::net::Net;
use std::os::fd::RawFd;
use std::time::Duration;

/// The file descriptor of standard error.
const STANDARD_ERROR: RawFd = 2;

/// How long a write waits for room, in milliseconds.
const WAIT_MILLIS: u64 = 100;

/// The token of standard error.
const ROOM: Token = Token(0);

/// Standard error, which is written to only if it has room: a pipe or a socket without a reader
/// blocks no worker.
#[derive(Drop)]
pub struct StderrWriter {
    poll: Poll,
    events: Events,
    can_fill: bool,
}

impl StderrWriter {
    /// Standard error of this process. `Down` comes if the system has no resources to wait for it,
    /// and `NoMemory` if memory is refused.
    pub fn of<N: Net>(net: &N, alloc: Global) -> Result<StderrWriter, RunFault> {
        let poll = Poll::new(net)?;
        let events = Events::with_capacity(alloc, 1)?;
        let can_fill = poll
            .registry()
            .register(&mut SourceFd(&STANDARD_ERROR), ROOM, Interest::WRITABLE)
            .is_ok();
        Ok(StderrWriter {
            poll,
            events,
            can_fill,
        })
    }

    /// Whether it takes 4,096 octets without blocking, after a wait of a tenth of a second at most.
    /// A file always does, as far as the system can say.
    pub fn has_room(&mut self) -> bool {
        !self.can_fill || self.find_room().unwrap_or(true)
    }

    /// Whether the system says that it has room.
    fn find_room(&mut self) -> io::Result<bool> {
        // registered again, since it reports a change alone
        self.poll
            .registry()
            .reregister(&mut SourceFd(&STANDARD_ERROR), ROOM, Interest::WRITABLE)?;
        self.poll
            .poll(&mut self.events, Some(Duration::from_millis(WAIT_MILLIS)))?;
        Ok(!self.events.is_empty())
    }
}
