//! The sessions of a running server: of one account, or of all.

ghost use Rattle.std.specs.Prelude.{◌≡◌, ◌<◌, IfSome, length};
ghost use Rattle.std.specs.List.{position};
ghost use Rattle.rld_words.specs.Given.{seen};
ghost use Rattle.rld_commands.specs.Sessions.{IsPage, SaysNext, is_feed, lines_in, narrows};

use crate::ask::{Asked, ask, check_line, control_of, patience_in};
use crate::fault::Fault;
use rld_words::{Flag, Flags, Given, Misuse, NOT_GIVEN, Topic};
use std::alloc::Global;
use std::fs::Files;
use std::io::{IsTerminal, Write};
use std::net::Net;
use std::str;
use std::time::Clock;

/// The most pages of a list: each has an account, and there are at most 16,384.
const MOST_PAGES: usize = 16_385;

/// A page of a list.
#[derive(Clone, Copy)]
struct Page<'a> {
    /// The word of the account with which the next page begins, if there is one.
    next: Option<&'a str>,
    /// Its links, a line each.
    links: &'a [u8],
}

impl Page<'_> {
    /// The page of the lines of an answer.
    fn of(lines: &[u8]) -> Option<Page<'_>>
        ensures { IfSome result (IsPage lines.now) }
    {
        let at = feed_in(lines)?;
        let next = next_in(&lines[..at])?;
        Some(Page {
            next,
            links: &lines[at + 1..],
        })
    }
}

/// The offset of the first line feed.
fn feed_in(lines: &[u8]) -> Option<usize>
    ensures at { result ≡ position is_feed lines.now }
    ensures within { IfSome result (λ at. at < length lines.now) }
{
    lines.iter().position(|octet| *octet == b'\n')
}

/// What the first line of a page says of the next one.
fn next_in(first: &[u8]) -> Option<Option<&str>>
    ensures { IfSome result (SaysNext first.now) }
{
    if first == b"last".as_slice() {
        return Some(None);
    }
    Some(Some(str::from_utf8(first.strip_prefix(b"more ")?).ok()?))
}

/// Writes the sessions that are asked for: of the account that the words name, else of all that the flags leave. A
/// name that begins as a flag does is written with an escape.
///
/// The faults are those of `ask`. `--timeout` and its seconds are for each answer of the server.
pub(crate) fn sessions<R: Files + Net + Clock, W: Write, S: Write + IsTerminal>(
    rt: &R,
    alloc: Global,
    given: &Given<'_>,
    writer: &mut W,
    stderr: &mut S,
) -> Result<(), Fault> {
    let topic = Topic::Sessions;
    let (name, words) = given.file(topic)?;
    match words {
        [] => sessions_of_all(rt, alloc, given, name, writer, stderr),
        [account, ..] if narrows(given) || account.starts_with("--") => {
            Err(Fault::Usage(Misuse::Unreadable(topic)))
        }
        _ => ask(rt, alloc, topic, given, writer, stderr),
    }
}

/// Writes the sessions that the flags leave of all accounts of the server of this file.
fn sessions_of_all<R: Files + Net + Clock, W: Write, S: Write + IsTerminal>(
    rt: &R,
    alloc: Global,
    given: &Given<'_>,
    name: &str,
    writer: &mut W,
    stderr: &mut S,
) -> Result<(), Fault> {
    let topic = Topic::Sessions;
    let Some(flags) = Flags::of_given(given) else {
        return Err(Fault::Usage(Misuse::Unreadable(topic)));
    };
    let patience = patience_in(topic, given)?;
    check_line(alloc, flags.line(alloc, NOT_GIVEN)?.as_str(), topic)?;
    let control = control_of(rt, alloc, name)?;
    let server = Asked {
        topic,
        path: control.as_str(),
        patience,
    };
    list(rt, alloc, &server, &flags, writer, stderr)?;
    Ok(())
}

/// Whether flags are given that narrow a list of all sessions.
fn narrows(given: &Given<'_>) -> bool
    ensures { result ≡ narrows (seen given.now) }
{
    given.has(Flag::Nas)
        || given.has(Flag::Client)
        || given.has(Flag::State)
        || given.has(Flag::Older)
}

/// Writes the links that flags leave of all accounts, a page after the other, and gives how many
/// there are. No page is kept once it is written.
///
/// The faults are those of `Asked::lines`: pages before may have been written.
pub(crate) fn list<R: Net + Clock, W: Write, S: Write + IsTerminal>(
    rt: &R,
    alloc: Global,
    server: &Asked<'_>,
    flags: &Flags<'_>,
    writer: &mut W,
    stderr: &mut S,
) -> Result<u64, Fault> {
    let mut from = String::from_str(alloc, NOT_GIVEN)?;
    let mut number = 0u64;
    for _ in 0..MOST_PAGES {
        let lines = {
            let line = flags.line(alloc, from.as_str())?;
            server.lines(rt, alloc, line.as_str(), stderr)?
        };
        let Some(page) = Page::of(lines.as_slice()) else {
            return Err(server.silent(alloc)?);
        };
        writer.write_all(page.links)?;
        number = number.saturating_add(lines_in(page.links));
        match page.next {
            Some(name) => from = String::from_str(alloc, name)?,
            None => {
                writer.flush()?;
                return Ok(number);
            }
        }
    }
    Err(server.silent(alloc)?)
}

/// The number of lines.
fn lines_in(text: &[u8]) -> u64
    ensures { result ≡ lines_in text.now }
{
    text.iter().filter(|octet| **octet == b'\n').count() as u64
}
