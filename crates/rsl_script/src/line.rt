ghost use Rattle.std.specs.Prelude.{◌≡◌, IfOk, map};
ghost use Rattle.rsl_script.specs.Line.{
  account_line,
  account_with,
  client_line,
  line_of,
  read_options,
  said_about,
  said_in,
  set_line,
};
ghost use Rattle.rsl_script.specs.Reads.{Reads};

use crate::event_line::EventLine;
use crate::fault::LineFault;
use crate::happening::read_event;
use crate::values::{leading_number, read_flag, read_number};
use crate::verb::{Setting, Verb, setting_of, verb_of};
use crate::words::{are_words, is_silent, line_words, text_of};
use rsl_accounts::{Client, Entry, Reply, Rules, Secret, Text, address_of};
use rsl_wire::NoMemory;
use std::alloc::Global;

/// The optional words of an account's line.
#[derive(Clone, Copy)]
struct Options {
    /// Its ports.
    ports: Option<u64>,
    /// Its own live time, in seconds.
    live: Option<u64>,
    /// Its own grace time, in seconds.
    grace: Option<u64>,
    /// Whether it counts by stations.
    station: bool,
}

/// What a line of a script says.
#[derive(Drop)]
pub(crate) enum ScriptLine {
    /// Nothing: the line is empty, or a comment.
    Silent,
    /// A setting has this value.
    Set(Setting, u64),
    /// There is this client.
    Client(Client),
    /// There is this account.
    Account(Entry),
    /// An event happens.
    Event(EventLine),
}

impl ScriptLine {
    /// Reads a line.
    #[tactic(auto, unfolding(crate::specs::Line::line_of))]
    pub(crate) fn read(alloc: Global, octets: &[u8]) -> Result<ScriptLine, LineFault>
        ensures { Reads (line_of octets.now) result }
    {
        let line = text_of(octets).ok_or(LineFault::Wrong)?;
        if is_silent(line) {
            return Ok(ScriptLine::Silent);
        }
        let words = line_words(alloc, line)?;
        if are_words(words.as_slice()) {
            said_in(alloc, words.as_slice())
        } else {
            Err(LineFault::Wrong)
        }
    }
}

/// Reads the words of a line.
#[tactic(auto, unfolding(crate::specs::Line::said_in))]
fn said_in(alloc: Global, words: &[&str]) -> Result<ScriptLine, LineFault>
    ensures { Reads (said_in (map (λ word. word.now) words.now)) result }
{
    match words {
        [] => Err(LineFault::Wrong),
        [word, rest @ ..] => {
            let verb = verb_of(word).ok_or(LineFault::Wrong)?;
            said_about(alloc, verb, rest)
        }
    }
}

/// Reads the words after the first.
#[tactic(auto, unfolding(crate::specs::Line::said_about))]
fn said_about(alloc: Global, verb: Verb, words: &[&str]) -> Result<ScriptLine, LineFault>
    ensures { Reads (said_about verb (map (λ word. word.now) words.now)) result }
{
    match verb {
        Verb::Set => set_line(words),
        Verb::Client => client_line(alloc, words),
        Verb::Account => account_line(alloc, words),
        Verb::Event(verb) => Ok(ScriptLine::Event(read_event(alloc, verb, words)?)),
    }
}

/// A setting: `NAME VALUE`.
#[tactic(auto, unfolding(crate::specs::Line::set_line))]
fn set_line(words: &[&str]) -> Result<ScriptLine, LineFault>
    ensures { Reads (set_line (map (λ word. word.now) words.now)) result }
{
    match words {
        [name, value] => {
            let setting = setting_of(name).ok_or(LineFault::Wrong)?;
            let value = read_number(value).ok_or(LineFault::Wrong)?;
            Ok(ScriptLine::Set(setting, value))
        }
        _ => Err(LineFault::Wrong),
    }
}

/// A client: `ADDRESS SECRET [signed]`.
#[tactic(auto, unfolding(crate::specs::Line::client_line))]
fn client_line(alloc: Global, words: &[&str]) -> Result<ScriptLine, LineFault>
    ensures { Reads (client_line (map (λ word. word.now) words.now)) result }
{
    match words {
        [address, secret, rest @ ..] => Ok(ScriptLine::Client(Client {
            address: address_of(address.as_bytes()).ok_or(LineFault::Wrong)?,
            signed: read_flag("signed", rest).ok_or(LineFault::Wrong)?,
            trusted: false,
            disconnect: None,
            secret: Secret::from_str(alloc, secret)?,
        })),
        _ => Err(LineFault::Wrong),
    }
}

/// An account: `NAME PASSWORD PLACES [PORTS] [live=N] [grace=N] [station]`.
#[tactic(auto, unfolding(crate::specs::Line::account_line))]
fn account_line(alloc: Global, words: &[&str]) -> Result<ScriptLine, LineFault>
    ensures { Reads (account_line (map (λ word. word.now) words.now)) result }
{
    match words {
        [name, password, places, rest @ ..] => {
            let places = read_number(places).ok_or(LineFault::Wrong)?;
            let options = read_options(rest).ok_or(LineFault::Wrong)?;
            Ok(ScriptLine::Account(account_with(alloc, name, password, places, options)?))
        }
        _ => Err(LineFault::Wrong),
    }
}

/// The optional words of an account: `[PORTS] [live=N] [grace=N] [station]`, in this order.
#[tactic(auto, unfolding(crate::specs::Line::read_options))]
fn read_options(words: &[&str]) -> Option<Options>
    ensures { result ≡ read_options (map (λ word. word.now) words.now) }
{
    let (ports, words) = leading_number("", words);
    let (live, words) = leading_number("live=", words);
    let (grace, words) = leading_number("grace=", words);
    Some(Options {
        ports,
        live,
        grace,
        station: read_flag("station", words)?,
    })
}

/// An account with one port, unless ports are given, and the times of the settings, unless it has
/// its own. It counts by stations if its line says so. It fails only if memory is refused.
fn account_with(
    alloc: Global,
    name: &str,
    password: &str,
    places: u64,
    options: Options,
) -> Result<Entry, NoMemory>
    ensures { IfOk result (λ entry. entry ≡ account_with name.now password.now places options) }
{
    Ok(Entry {
        name: Text::from_str(alloc, name)?,
        password: Some(Secret::from_str(alloc, password)?),
        rules: Rules::of_places(places, options.ports.unwrap_or(1)),
        service_type: None,
        framed_protocol: None,
        session_timeout: None,
        idle_timeout: None,
        own_live: options.live,
        own_grace: options.grace,
        own_station: options.station.then_some(true),
        interim: None,
        disabled: false,
        port_limit: true,
        reply: Reply::none(),
    })
}
