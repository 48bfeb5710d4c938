//! Freeing the place of a session, or those of all sessions of an access server.

use crate::ask::{Asked, ask, check_line, control_of};
use crate::fault::Fault;
use crate::output::say;
use crate::sessions::list;
use rld_control::read_line;
use rld_words::{Flag, Flags, Given, Misuse, Patience, Topic};
use std::alloc::Global;
use std::fs::Files;
use std::io::{IsTerminal, Read, Write};
use std::net::Net;
use std::time::Clock;

/// The most octets of an answer at a terminal, with its line feed.
const ANSWER_LEN: usize = 16;

/// An access server whose sessions are to be freed.
#[derive(Clone, Copy)]
struct Server<'a> {
    /// The name of the server's file.
    name: &'a str,
    /// The word of the access server.
    nas: &'a str,
    /// The word of its client.
    client: &'a str,
    /// Whether the words say yes.
    has_yes: bool,
}

/// Frees what the words of `free` name: a session, with `--disconnect` once its access server has ended
/// it, or with `--nas` all those of an access server, once these are listed and it was said yes.
///
/// The faults are those of `ask`. `NoTerminal` comes before anything is asked, if nobody can say yes, and `NotHeld`
/// also where the access server has no session.
pub(crate) fn free<R, I: Read + IsTerminal, W: Write, S: Write + IsTerminal>(
    rt: &R,
    alloc: Global,
    given: &Given<'_>,
    stdin: &mut I,
    stdout: &mut W,
    stderr: &mut S,
) -> Result<(), Fault>
where
    R: Files + Net + Clock,
{
    let has_yes = given.has(Flag::Yes);
    match (given.value(Flag::Nas), given.plain()) {
        (None, _) if given.has(Flag::Disconnect) && !has_yes => {
            ask(rt, alloc, Topic::Disconnect, given, stdout, stderr)
        }
        (None, _) if !has_yes => ask(rt, alloc, Topic::Free, given, stdout, stderr),
        (Some(nas), [client, name]) if !given.has(Flag::Disconnect) => {
            let server = Server {
                name,
                nas,
                client,
                has_yes,
            };
            free_server(rt, alloc, server, stdin, stdout, stderr)
        }
        _ => Err(Fault::Usage(Misuse::Unreadable(Topic::Free))),
    }
}

/// Frees the places of all sessions of an access server, once these are listed and it was said yes.
///
/// `Usage` comes before anything is asked if its words name none, and then `NoTerminal` if nobody can say
/// yes; `NotHeld` where it has no session. The other faults are those of `Asked::lines`: sessions may have been listed before.
fn free_server<R, I: Read + IsTerminal, W: Write, S: Write + IsTerminal>(
    rt: &R,
    alloc: Global,
    server: Server<'_>,
    stdin: &mut I,
    stdout: &mut W,
    stderr: &mut S,
) -> Result<(), Fault>
where
    R: Files + Net + Clock,
{
    let Server { nas, client, .. } = server;
    let line = format!(in alloc; "free-server {client} {nas}")?;
    check_line(alloc, line.as_str(), Topic::Free)?;
    if !server.has_yes && !stdin.is_terminal() {
        return Err(Fault::NoTerminal);
    }
    let control = control_of(rt, alloc, server.name)?;
    let asked = Asked {
        topic: Topic::Free,
        path: control.as_str(),
        patience: Patience::of(Topic::Free),
    };
    let flags = Flags::of_server(nas, client);
    let number = list(rt, alloc, &asked, &flags, stdout, stderr)?;
    if number == 0 {
        return Err(Fault::NotHeld);
    }
    if !is_agreed(alloc, server, number, stdin, stderr)? {
        return say(stdout, b"nothing freed\n");
    }
    let lines = asked.lines(rt, alloc, line.as_str(), stderr)?;
    say(stdout, lines.as_slice())
}

/// Says how many sessions are to be freed, and whether they shall be: the words said yes, or it is typed.
fn is_agreed<I: Read, S: Write>(
    alloc: Global,
    server: Server<'_>,
    number: u64,
    stdin: &mut I,
    stderr: &mut S,
) -> Result<bool, Fault> {
    let Server { nas, client, .. } = server;
    {
        let text = format!(in alloc; "{number} sessions and reservations of {nas} at {client}")?;
        stderr.write_all(text.as_bytes())?;
    }
    if server.has_yes {
        stderr.write_all(b"\n")?;
        return Ok(true);
    }
    stderr.write_all(b": free them? (yes or no) ")?;
    stderr.flush()?;
    let mut room = [0u8; ANSWER_LEN];
    match read_line(stdin, &mut room)? {
        Some(len) => Ok(&room[..len] == b"yes".as_slice()),
        None => Ok(false),
    }
}
