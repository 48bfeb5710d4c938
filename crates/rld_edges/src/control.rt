//! The control: a unix socket on which an operator sends requests to the running server.

ghost use Rattle.std.specs.Prelude.{◌≡◌};

use rld_control::{Command, read_line};
use rsl_wire::NoMemory;
use std::alloc::Global;
use std::fs::{self, DirBuilder, File, Files, Permissions};
use std::io::{self, ErrorKind, Read, Write};
use std::net::Net;
use std::os::unix::fs::{self as unix, DirBuilderExt, FileTypeExt, PermissionsExt};
use std::os::unix::net::{UnixListener, UnixStream};
use std::time::{Clock, Duration, Instant};

/// The most octets of a request line, with its line feed: `ask` and the form of the longest values
/// have 2,743.
const LINE_LEN: usize = 2_816;

/// The most octets of an answer written at once.
const PART_LEN: usize = 4_096;

/// How long an operator may take to send a line, and then to read the answer, in seconds.
const PATIENCE_SECS: u64 = 5;

/// How long a read or a write may wait, in seconds.
const SILENCE_SECS: u64 = 1;

const _: () = prove!(SILENCE_SECS == 1 && PATIENCE_SECS == 5 && PART_LEN == 4_096);

/// The mode of the folder in which a socket is made: everything, for the server's user alone.
const MAKING_MODE: u32 = 0o700;

/// Who may use a control socket: its mode, and the number of its group, if it is given one.
#[derive(Clone, Copy)]
pub struct Access {
    /// The mode, such as 0o660.
    pub mode: u32,
    /// The number of the group.
    pub group: Option<u32>,
}

/// The listening control socket of a server.
#[derive(Drop)]
pub struct Control {
    listener: UnixListener,
}

impl Control {
    /// Makes the socket, which does not block. Whoever may write to it, and may enter its folder,
    /// may ask.
    ///
    /// It is made in a folder beside it that no other user may enter, with its name and `.new`, and
    /// has its mode and group before it is moved to its place: so no other user can ask in between.
    /// An existing socket at which no server answers is removed first: a killed server has left it.
    /// The error is the system's: the path is too long for a socket, it is a file of another kind
    /// or a socket at which a server answers, the folder may not be written to, or the group may
    /// not be given.
    pub fn bind<R: Files<File = File> + Net>(
        rt: &R,
        alloc: Global,
        path: &str,
        access: Access,
    ) -> io::Result<Control> {
        if is_left(rt, path) {
            fs::remove_file(rt, path)?;
        }
        if fs::symlink_metadata(rt, path).is_ok() {
            return Err(io::Error::from(ErrorKind::AddrInUse));
        }
        let folder = format!(in alloc; "{path}.new")?;
        let made = format!(in alloc; "{path}.new/s")?;
        remove_making(rt, folder.as_str(), made.as_str());
        DirBuilder::new()
            .mode(MAKING_MODE)
            .create(rt, folder.as_str())?;
        let bound = bind_at(rt, made.as_str(), path, access);
        remove_making(rt, folder.as_str(), made.as_str());
        Ok(Control { listener: bound? })
    }

    /// The socket to which operators connect.
    pub fn listener(&self) -> &UnixListener
        ensures { result.now ≡ self.now.listener }
    {
        &self.listener
    }
}

/// Makes a socket at one path, with its mode and group, and then moves it to another.
fn bind_at<R: Files<File = File> + Net>(
    rt: &R,
    made: &str,
    path: &str,
    access: Access,
) -> io::Result<UnixListener> {
    let listener = UnixListener::bind(rt, made)?;
    listener.set_nonblocking(true)?;
    if let Some(group) = access.group {
        unix::lchown(rt, made, None, Some(group))?;
    }
    fs::set_permissions(rt, made, Permissions::from_mode(access.mode))?;
    fs::rename(rt, made, path)?;
    Ok(listener)
}

/// Removes the folder in which a socket is made, with the socket of a server that was killed
/// meanwhile.
fn remove_making<R: Files<File = File>>(rt: &R, folder: &str, made: &str) {
    // what is missing, or cannot be removed, is found when the folder is made
    let _ = fs::remove_file(rt, made);
    let _ = fs::remove_dir(rt, folder);
}

/// Whether there is a socket at which no server answers.
fn is_left<R: Files<File = File> + Net>(rt: &R, path: &str) -> bool {
    match fs::symlink_metadata(rt, path) {
        Ok(found) if found.file_type().is_socket() => UnixStream::connect(rt, path).is_err(),
        _ => false,
    }
}

/// An operator who has connected. The server's own work on his request is none of his time.
#[derive(Drop)]
pub struct Operator<'a, C> {
    stream: &'a UnixStream,
    clock: &'a C,
}

impl<'a, C: Clock> Operator<'a, C> {
    /// An operator who has just connected. The error is the system's.
    pub fn new(clock: &'a C, stream: &'a UnixStream) -> io::Result<Operator<'a, C>> {
        stream.set_read_timeout(Some(Duration::from_secs(SILENCE_SECS)))?;
        stream.set_write_timeout(Some(Duration::from_secs(SILENCE_SECS)))?;
        Ok(Operator { stream, clock })
    }

    /// The command of the operator, or `None` if the line is no command. The error is the system's,
    /// or comes if the operator takes too long or memory is refused.
    pub fn asked(&self, alloc: Global) -> io::Result<Option<Command>> {
        let mut room = [0u8; LINE_LEN];
        let mut line = Line {
            stream: self.stream,
            time: Time::begun(self.clock)?,
        };
        match read_line(&mut line, &mut room)? {
            Some(len) => match Command::read(alloc, &room[..len]) {
                Ok(command) => Ok(command),
                Err(NoMemory) => Err(io::Error::from(ErrorKind::OutOfMemory)),
            },
            None => Ok(None),
        }
    }

    /// Sends an answer. An operator who does not read it in time gets only a part.
    pub fn answer(&self, text: &[u8]) {
        let Ok(time) = Time::begun(self.clock) else {
            return;
        };
        let mut to = self.stream;
        for part in text.chunks(PART_LEN) {
            if time.is_over() || to.write_all(part).is_err() {
                return;
            }
        }
    }
}

/// The `PATIENCE_SECS` seconds that an operator has.
#[derive(Drop)]
struct Time<'a, C> {
    clock: &'a C,
    start: Instant,
}

impl<'a, C: Clock> Time<'a, C> {
    /// The time from now on. The error is the system's.
    fn begun(clock: &'a C) -> io::Result<Time<'a, C>> {
        Ok(Time {
            clock,
            start: Instant::now(clock)?,
        })
    }

    /// Whether it is over.
    fn is_over(&self) -> bool {
        match self.start.elapsed(self.clock) {
            Ok(passed) => passed.as_secs() >= PATIENCE_SECS,
            Err(_) => true,
        }
    }
}

/// The line of an operator.
#[derive(Drop)]
struct Line<'a, C> {
    stream: &'a UnixStream,
    time: Time<'a, C>,
}

impl<C: Clock> Read for Line<'_, C> {
    fn read(&mut self, buf: &mut [u8]) -> io::Result<usize> {
        if self.time.is_over() {
            return Err(io::Error::from(ErrorKind::TimedOut));
        }
        let mut from = self.stream;
        from.read(buf)
    }
}
