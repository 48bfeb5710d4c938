//! Tests of `rsl_script`: what the lines of a script say. Which lines are right and which are wrong
//! is shown by `test_scripts`.

use crate::replay::port_name;
use rsl_accounts::{Client, Entry, Settings};
use rsl_event::Status;
use rsl_script::{
    AccessRequest, AccountingRequest, AttributeText, EventLine, Happening, Method, Script,
    ScriptFault,
};
use std::alloc::Global;
use std::str;
use std::test::Fail;
use test_rows::{Hex, Plain, Subject, check_rows, length, printed, push_printed};
use test_timelines::push_value;

/// Octets as text.
fn text(octets: &[u8]) -> Plain<'_> {
    Plain(str::from_utf8(octets).unwrap_or("no text"))
}

fn option_text(octets: &Option<AttributeText>) -> Plain<'_> {
    match octets {
        Some(octets) => text(octets.as_slice()),
        None => Plain("none"),
    }
}

/// Tells the station of a request, and nothing where it has none.
fn tell_station(found: &mut String, station: &Option<AttributeText>) -> Result<(), Fail> {
    match station {
        Some(station) => push_printed(found, &(Plain("of"), text(station.as_slice()))),
        None => Ok(()),
    }
}

/// Tells the method, access server, name, password, Identifier and text of an Access-Request, and its
/// station.
fn tell_access(found: &mut String, request: &AccessRequest) -> Result<(), Fail> {
    let nas = option_text(&request.nas);
    let (name, password) = (
        text(request.name.as_slice()),
        text(request.password.expose()),
    );
    let digested = text(request.text.expose());
    let method = Plain(match request.method {
        Method::Pap => "Pap",
        Method::Chap => "Chap",
    });
    push_printed(found, &(method, nas, name, password, request.id, digested))?;
    tell_station(found, &request.station)
}

/// The name of a status.
fn named(status: Status) -> Plain<'static> {
    Plain(match status {
        Status::Start => "Start",
        Status::Stop => "Stop",
        Status::InterimUpdate => "InterimUpdate",
        Status::AccountingOn => "AccountingOn",
        Status::AccountingOff => "AccountingOff",
    })
}

/// Tells the status and the access server of an Accounting-Request, and the name, session, bundle,
/// class and station where it reports on a session, else its delay.
fn tell_accounting(found: &mut String, request: &AccountingRequest) -> Result<(), Fail> {
    match request {
        AccountingRequest::Session {
            status,
            nas,
            name,
            session,
            bundle,
            class,
            station,
        } => {
            let (nas, bundle) = (option_text(nas), option_text(bundle));
            let (name, session) = (text(name.as_slice()), text(session.as_slice()));
            push_printed(found, &(named(*status), nas, name, session, bundle, *class))?;
            tell_station(found, station)
        }
        AccountingRequest::Server { status, nas, delay } => {
            push_printed(found, &(named(*status), option_text(nas), *delay))
        }
    }
}

/// An event line in words: its moment, where its datagram comes from, and what that says.
fn told(alloc: Global, line: &EventLine) -> Result<String, Fail> {
    let mut found = printed(alloc, &line.moment)?;
    tell(&mut found, &line.happening)?;
    Ok(found)
}

fn tell(found: &mut String, happening: &Happening) -> Result<(), Fail> {
    match happening {
        Happening::Access { address, request } => {
            push_printed(found, address)?;
            tell_access(found, request)
        }
        Happening::Accounting { address, request } => {
            push_printed(found, address)?;
            tell_accounting(found, request)
        }
        Happening::Raw {
            address,
            port,
            octets,
        } => push_printed(
            found,
            &(*address, Plain(port_name(*port)), Hex(octets.as_slice())),
        ),
        Happening::Tick => push_printed(found, &Plain("tick")),
    }
}

/// The one line of a script: what it says happens.
struct Happens;

impl Subject for Happens {
    fn found(&self, alloc: Global, fields: &[&str]) -> Result<String, Fail> {
        let [line] = fields else {
            return Err("an event line")?;
        };
        let script = Script::read(alloc, line.as_bytes())?;
        match script.events.first() {
            Some(event) => told(alloc, event),
            None => Err("no event")?,
        }
    }
}

#[test]
fn event_lines_say_what_happens(rt: HostRuntime) -> Result<(), Fail> {
    check_rows(
        &rt,
        &Happens,
        "
an ask | ask 7 192.168.1.16 n u pw 255 \
    | 7 [192, 168, 1, 16] (Pap, n, u, pw, 255, ask 192.168.1.16 n u pw 255)
a CHAP ask | chap 18446744073709551615 10.0.0.1 - u pw 007 \
    | 18446744073709551615 [10, 0, 0, 1] (Chap, none, u, pw, 7, chap 10.0.0.1 - u pw 007)
a start | start 1 10.0.0.1 n u s multi=m class=9 \
    | 1 [10, 0, 0, 1] (Start, n, u, s, m, Some(9))
a session like a bundle | interim 1 10.0.0.1 n u multi=s class=9 \
    | 1 [10, 0, 0, 1] (InterimUpdate, n, u, multi=s, none, Some(9))
a bundle like a class | interim 1 10.0.0.1 n u s multi=class=1 \
    | 1 [10, 0, 0, 1] (InterimUpdate, n, u, s, class=1, None)
a stop | stop 1 10.0.0.1 - u s | 1 [10, 0, 0, 1] (Stop, none, u, s, none, None)
an on | on 1 10.0.0.1 n | 1 [10, 0, 0, 1] (AccountingOn, n, None)
an off | off 1 10.0.0.1 - | 1 [10, 0, 0, 1] (AccountingOff, none, None)
an on that is late | on 1 10.0.0.1 n delay=060 | 1 [10, 0, 0, 1] (AccountingOn, n, Some(60))
an off that is later | off 1 10.0.0.1 - delay=4294967295 \
    | 1 [10, 0, 0, 1] (AccountingOff, none, Some(4294967295))
an on that is not late | on 1 10.0.0.1 n delay=0 | 1 [10, 0, 0, 1] (AccountingOn, n, Some(0))
an access server like a delay | on 1 10.0.0.1 delay=1 \
    | 1 [10, 0, 0, 1] (AccountingOn, delay=1, None)
an ask of a station | ask 7 192.168.1.16 n u pw 255 station=a \
    | 7 [192, 168, 1, 16] (Pap, n, u, pw, 255, ask 192.168.1.16 n u pw 255 station=a) (of, a)
a CHAP ask of a station | chap 7 10.0.0.1 - u pw 1 station=station=a \
    | 7 [10, 0, 0, 1] (Chap, none, u, pw, 1, chap 10.0.0.1 - u pw 1 station=station=a) \
      (of, station=a)
a start of a station | start 1 10.0.0.1 n u s station=a \
    | 1 [10, 0, 0, 1] (Start, n, u, s, none, None) (of, a)
an interim with all ties | interim 1 10.0.0.1 n u s multi=m class=9 station=a \
    | 1 [10, 0, 0, 1] (InterimUpdate, n, u, s, m, Some(9)) (of, a)
a bundle like a station | start 1 10.0.0.1 n u s multi=station=a \
    | 1 [10, 0, 0, 1] (Start, n, u, s, station=a, None)
a stop of a station | stop 1 10.0.0.1 n u s station=a \
    | 1 [10, 0, 0, 1] (Stop, n, u, s, none, None) (of, a)
octets for authentication | raw-auth 1 10.0.0.1 01fF | 1 ([10, 0, 0, 1], Auth, 01ff)
octets for accounting | raw-acct 1 10.0.0.1 00 | 1 ([10, 0, 0, 1], Acct, 00)
a tick | tick 3 | 3 tick
",
    )
}

/// A line of a configuration: the client or the account that it gives.
struct Configured;

impl Subject for Configured {
    fn found(&self, alloc: Global, fields: &[&str]) -> Result<String, Fail> {
        let [line] = fields else {
            return Err("a line")?;
        };
        let script = Script::read(alloc, line.as_bytes())?;
        match (script.clients.as_slice(), script.accounts.as_slice()) {
            ([client], []) => told_client(alloc, client),
            ([], [account]) => told_account(alloc, account),
            _ => Err("not one client and not one account")?,
        }
    }
}

/// A client's address and secret, and whether it has to sign.
fn told_client(alloc: Global, client: &Client) -> Result<String, Fail> {
    let secret = text(client.secret.expose());
    printed(alloc, &(client.address, secret, client.signed))
}

/// An account's name, password, places, ports, own live and grace times, and whether it says that it
/// counts by stations.
fn told_account(alloc: Global, account: &Entry) -> Result<String, Fail> {
    let Some(password) = &account.password else {
        return Err("an account without a password")?;
    };
    let (name, password) = (Plain(account.name.as_str()), text(password.expose()));
    let (places, ports) = (account.rules.places, account.rules.ports);
    let (live, grace) = (account.own_live, account.own_grace);
    let station = account.own_station;
    printed(
        alloc,
        &(name, password, places, ports, live, grace, station),
    )
}

#[test]
fn configuration_lines_say_what_there_is(rt: HostRuntime) -> Result<(), Fail> {
    check_rows(
        &rt,
        &Configured,
        "
a client | client 192.168.1.16 xyzzy5461 | ([192, 168, 1, 16], xyzzy5461, false)
a client that signs | client 10.0.0.1 s signed | ([10, 0, 0, 1], s, true)
places | account u pw 1 | (u, pw, 1, 1, None, None, None)
ports | account u pw 64 16 | (u, pw, 64, 16, None, None, None)
times | account u pw 2 3 live=30 grace=5 | (u, pw, 2, 3, Some(30), Some(5), None)
a grace | account u pw 2 grace=5 | (u, pw, 2, 1, None, Some(5), None)
stations | account u pw 2 station | (u, pw, 2, 1, None, None, Some(true))
everything | account u pw 2 3 live=30 grace=5 station | (u, pw, 2, 3, Some(30), Some(5), Some(true))
",
    )
}

/// A script of lines with `/` between them.
fn read_lines(alloc: Global, lines: &str) -> Result<Result<Script, ScriptFault>, Fail> {
    let script = lines.replace(alloc, "/", "\n")?;
    Ok(Script::read(alloc, script.as_bytes()))
}

/// Lines: the settings of a script of them.
struct Set;

impl Subject for Set {
    fn found(&self, alloc: Global, fields: &[&str]) -> Result<String, Fail> {
        let [lines] = fields else {
            return Err("lines")?;
        };
        match read_lines(alloc, lines)? {
            Ok(script) => settings_told(alloc, &script.settings),
            Err(fault) => printed(alloc, &fault),
        }
    }
}

fn settings_told(alloc: Global, settings: &Settings) -> Result<String, Fail> {
    let mut text = String::new(alloc);
    push_value(&mut text, "Settings { version: ", &settings.version, "")?;
    push_value(&mut text, ", shards: ", &settings.shards, "")?;
    push_value(&mut text, ", reserve: ", &settings.reserve, "")?;
    push_value(&mut text, ", live: ", &settings.live, "")?;
    push_value(&mut text, ", grace: ", &settings.grace, "")?;
    push_value(&mut text, ", closed: ", &settings.closed, "")?;
    push_value(&mut text, ", keep: ", &settings.keep, "")?;
    push_value(&mut text, ", interim: ", &settings.interim, "")?;
    push_value(&mut text, ", station: ", &settings.station, "")?;
    push_value(&mut text, ", delay_time: ", &settings.delay_time, " }")?;
    Ok(text)
}

#[test]
fn settings_are_those_of_their_last_lines(rt: HostRuntime) -> Result<(), Fail> {
    check_rows(
        &rt,
        &Set,
        "
none | \
    | Settings { version: 2, shards: 1, reserve: 60, live: 900, grace: 900, closed: 3600, keep: 10, \
      interim: None, station: false, delay_time: true }
all, one twice \
    | set shards 4/set reserve 1/set live 2/set grace 3/set closed 4/set keep 6/set keep 005/ \
    | Settings { version: 2, shards: 4, reserve: 1, live: 2, grace: 3, closed: 4, keep: 5, \
      interim: None, station: false, delay_time: true }
",
    )
}

/// A line with `WORD` in it, what stands there, how many times over, and how many such lines there
/// are: how many clients, accounts and events are read of them.
struct Counted;

impl Subject for Counted {
    fn found(&self, alloc: Global, fields: &[&str]) -> Result<String, Fail> {
        let [line, word, times, lines] = fields else {
            return Err("a line, a word and two numbers")?;
        };
        let word = word.repeat(alloc, length(times)?)?;
        let mut line = line.replace(alloc, "WORD", word.as_str())?;
        counted_in(alloc, &mut line, length(lines)?)
    }
}

fn counted_in(alloc: Global, line: &mut String, lines: usize) -> Result<String, Fail> {
    line.push('\n')?;
    let script = line.as_str().repeat(alloc, lines)?;
    match Script::read(alloc, script.as_bytes()) {
        Ok(script) => counts_of(alloc, &script),
        Err(fault) => printed(alloc, &fault),
    }
}

fn counts_of(alloc: Global, script: &Script) -> Result<String, Fail> {
    let (clients, accounts) = (script.clients.len(), script.accounts.len());
    printed(alloc, &(clients, accounts, script.events.len()))
}

// No limit of memory is made up: each line is read at the greatest length that it has a use for,
// and as many lines as a configuration can have.
#[test]
fn long_lines_and_many_are_read(rt: HostRuntime) -> Result<(), Fail> {
    check_rows(
        &rt,
        &Counted,
        "
a secret | client 1.2.3.4 WORD | s | 65535 | 1 | (1, 0, 0)
a name | account WORD p 1 | n | 65535 | 1 | (0, 1, 0)
a password | account n WORD 1 | p | 65535 | 1 | (0, 1, 0)
a datagram | raw-auth 0 1.2.3.4 WORD | 0f | 65507 | 1 | (0, 0, 1)
a password of an ask | ask 0 1.2.3.4 n u WORD 1 | p | 128 | 1 | (0, 0, 1)
a NAS | ask 0 1.2.3.4 WORD u p 1 | n | 253 | 1 | (0, 0, 1)
a session | start 0 1.2.3.4 n u WORD multi=m | s | 253 | 1 | (0, 0, 1)
a station | ask 0 1.2.3.4 n u p 1 station=WORD | s | 253 | 1 | (0, 0, 1)
a comment | # WORD | xxxxxxxxxxxxxxxxxxxxxxxxxxxxxxxxxxxxxxxxxxxxxxxxxx | 20000 | 1 | (0, 0, 0)
clients | client 1.2.3.4 s | | 0 | 257 | (257, 0, 0)
accounts | account n p 1 | | 0 | 16385 | (0, 16385, 0)
events | ask 0 1.2.3.4 n u p 1 | | 0 | 5000 | (0, 0, 5000)
",
    )
}

/// How many ticks make a script that is nearly as long as one may be.
const TICKS: usize = 149_000; // quick: 1_000

#[test]
fn as_many_ticks_as_fit_are_read(rt: HostRuntime) -> Result<(), Fail> {
    let mut line = String::from_str(rt.alloc(), "tick 0")?;
    let found = counted_in(rt.alloc(), &mut line, TICKS)?;
    let expected = printed(rt.alloc(), &(0, 0, TICKS))?;
    assert_eq!(rt; found.as_str(), expected.as_str());
    Ok(())
}
