//! The answer of a running server on its control socket.

ghost use Rattle.std.specs.Io.{ReadsAtMost};

use rld_words::Patience;
use std::io::{self, ErrorKind, Read, Write};
use std::os::unix::net::UnixStream;
use std::time::{Clock, Duration, Instant};

/// The most octets of an answer.
const ANSWER_LEN: u64 = 16_777_216;

/// After how many seconds whoever waits at a terminal is told.
const WORD_SECS: u32 = 2;

/// An answer that is waited for.
#[derive(Drop)]
pub(crate) struct Answer<'a, C, S> {
    stream: &'a UnixStream,
    clock: &'a C,
    start: Instant,
    patience: Patience,
    /// The terminal of whoever waits, until he has been told.
    terminal: Option<&'a mut S>,
}

impl<'a, C: Clock, S: Write> Answer<'a, C, S> {
    /// An answer that is waited for from now on. The error is the system's.
    pub(crate) fn begun(
        clock: &'a C,
        stream: &'a UnixStream,
        patience: Patience,
        terminal: Option<&'a mut S>,
    ) -> io::Result<Answer<'a, C, S>> {
        Ok(Answer {
            stream,
            clock,
            start: Instant::now(clock)?,
            patience,
            terminal: match patience {
                Patience::Seconds(secs) if secs <= WORD_SECS => None,
                _ => terminal,
            },
        })
    }

    /// The whole answer. The error is the system's, or `WouldBlock` if the patience is over.
    pub(crate) fn whole(self, octets: &mut Vec<u8>) -> io::Result<()> {
        self.take(ANSWER_LEN).read_to_end(octets)?;
        Ok(())
    }

    /// Reads what comes before this number of seconds has passed since the beginning, or ever.
    fn read_by(&self, patience: Patience, buf: &mut [u8]) -> io::Result<usize>
        ensures { ReadsAtMost result buf.new }
    {
        let left = match patience {
            Patience::Endless => None,
            Patience::Seconds(secs) => Some(self.left(secs)?),
        };
        self.stream.set_read_timeout(left)?;
        let mut from = self.stream;
        from.read(buf)
    }

    /// What is left of this number of seconds since the beginning. `WouldBlock` comes if they are
    /// over.
    fn left(&self, secs: u32) -> io::Result<Duration> {
        let passed = self.start.elapsed(self.clock)?;
        match Duration::from_secs(u64::from(secs)).checked_sub(passed) {
            Some(left) if !left.is_zero() => Ok(left),
            _ => Err(io::Error::from(ErrorKind::WouldBlock)),
        }
    }
}

impl<C: Clock, S: Write> Read for Answer<'_, C, S> {
    fn read(&mut self, buf: &mut [u8]) -> io::Result<usize> {
        if self.terminal.is_some() {
            match self.read_by(Patience::Seconds(WORD_SECS), buf) {
                Err(error) if error.kind() == ErrorKind::WouldBlock => {}
                found => return found,
            }
        }
        if let Some(terminal) = self.terminal.take() {
            // the answer comes whether or not the terminal takes the word
            let _ = terminal.write_all(b"waiting for the server\n");
            let _ = terminal.flush();
        }
        self.read_by(self.patience, buf)
    }
}
