use crate::fault::RunFault;
use mio::unix::SourceFd;
use mio::{Events, Interest, Poll, Token};
use std::alloc::Global;
use std::io;
use std::net::Net;
use std::os::fd::AsRawFd;
use std::time::Duration;

/// The longest wait, in seconds.
const WAIT_SECS: u64 = 1;

const _: () = prove!(WAIT_SECS == 1);

/// The token of the one socket.
const SOCKET: Token = Token(0);

/// Waits for one socket, which does not block.
#[derive(Drop)]
pub struct Readiness {
    poll: Poll,
    events: Events,
}

impl Readiness {
    /// The readiness of this socket. `Down` comes if the system has no resources to wait for it,
    /// and `NoMemory` if memory is refused.
    pub fn of<N: Net, S: AsRawFd>(
        net: &N,
        alloc: Global,
        socket: &S,
    ) -> Result<Readiness, RunFault> {
        let poll = Poll::new(net)?;
        let events = Events::with_capacity(alloc, 1)?;
        let fd = socket.as_raw_fd();
        poll.registry()
            .register(&mut SourceFd(&fd), SOCKET, Interest::READABLE)?;
        Ok(Readiness { poll, events })
    }

    /// Waits until the socket may have something, for at most a second. Call it after a call on the
    /// socket that would have blocked: it sees only what has come since then. The error is the
    /// system's.
    pub fn wait(&mut self) -> io::Result<()> {
        self.poll
            .poll(&mut self.events, Some(Duration::from_secs(WAIT_SECS)))
    }
}
