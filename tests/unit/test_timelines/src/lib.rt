//! Timelines of an account as text: its rules in one line, and then a line an event.
//!
//! The line of the rules has words `NAME=NUMBER`; what is not told is as an account file has it by
//! default. The line of an event is one of these, where a NAS is a NAS-Identifier, after `CLIENT:`
//! where it is not at client 0:
//!
//! - `ask MOMENT NAS ID [port=PORT] [station=STATION]`
//! - `alive MOMENT NAS SESSION [multi=BUNDLE] [class=NUMBER] [station=STATION]`
//! - `stop MOMENT NAS SESSION`
//! - `sweep MOMENT NAS [delay=SECONDS]`
//! - `tick MOMENT`
//!
//! What stands after ` -> ` tells what is expected of the event, and is not read here. It is for
//! test crates alone, as are the datagrams of one account and the answers to them, as words.
#![tactic(auto)]

mod datagrams;
mod written;

pub use datagrams::{config_of, digits_of, reply_of};
use rsl_accounts::Rules;
use rsl_event::{Act, Event, Key, Nas, NasName, Source};
use rsl_wire::Octets;
use std::alloc::Global;
use std::test::Fail;
pub use written::{
    push_act, push_delay, push_event, push_key, push_nas, push_note, push_octets, push_option,
    push_rules, push_station, push_value,
};

/// The rules of a line: one place and one port a place, where it does not tell them.
pub fn rules_of(line: &str) -> Result<Rules, Fail> {
    let mut rules = Rules {
        places: 1,
        ports: 1,
        reserve: 60,
        live: 900,
        grace: 900,
        closed: 3600,
        keep: 10,
    };
    for word in line.split_whitespace() {
        set(&mut rules, word)?;
    }
    Ok(rules)
}

/// Sets the rule that a word names to its number.
fn set(rules: &mut Rules, word: &str) -> Result<(), Fail> {
    let Some((name, number)) = word.split_once('=') else {
        return Err("a rule without a number")?;
    };
    let number: u64 = number.parse()?;
    match name {
        "places" => rules.places = number,
        "ports" => rules.ports = number,
        "reserve" => rules.reserve = number,
        "live" => rules.live = number,
        "grace" => rules.grace = number,
        "closed" => rules.closed = number,
        "keep" => rules.keep = number,
        _ => Err("an unknown rule")?,
    }
    Ok(())
}

/// The event of a line.
pub fn event_of<R: AllocGlobal>(rt: &R, line: &str) -> Result<Event, Fail> {
    event_in(rt.alloc(), line)
}

/// The event of a line.
pub fn event_in(alloc: Global, line: &str) -> Result<Event, Fail> {
    let words: Vec<&str> = text_of(line).split(' ').collect(alloc)?;
    Ok(Event {
        moment: word_at(&words, 1)?.parse()?,
        act: act_of(alloc, &words)?,
    })
}

/// What stands before ` -> ` in a line.
pub fn text_of(line: &str) -> &str {
    match line.split_once(" -> ") {
        Some((text, _)) => text,
        None => line,
    }
}

fn word_at<'a>(words: &[&'a str], at: usize) -> Result<&'a str, Fail> {
    match words.get(at) {
        Some(word) => Ok(*word),
        None => Err("a word is missing")?,
    }
}

fn act_of(alloc: Global, words: &[&str]) -> Result<Act, Fail> {
    match words {
        ["ask", _, nas, id, ..] => ask_of(alloc, nas, id, words),
        ["alive", _, nas, session, ..] => alive_of(alloc, nas, session, words),
        ["stop", _, nas, session] => stop_of(alloc, nas, session),
        ["sweep", _, nas, ..] => Ok(Act::Sweep {
            nas: nas_of(alloc, nas)?,
            delay: told(words, "delay=").unwrap_or("0").parse()?,
        }),
        ["tick", _] => Ok(Act::Tick),
        _ => Err("an unknown event")?,
    }
}

/// What an optional word tells after its name and `=`.
fn told<'a>(words: &[&'a str], name: &str) -> Option<&'a str> {
    for word in words {
        if let Some(rest) = word.strip_prefix(name) {
            return Some(rest);
        }
    }
    None
}

fn ask_of(alloc: Global, nas: &str, id: &str, words: &[&str]) -> Result<Act, Fail> {
    let source = Source {
        address: [192, 168, 1, 16],
        port: told(words, "port=").unwrap_or("1024").parse()?,
    };
    let key = Key {
        source,
        id: id.parse()?,
        authenticator: [0; 16],
    };
    let station = optional_of(alloc, told(words, "station="))?;
    let nas = nas_of(alloc, nas)?;
    Ok(Act::Ask { key, nas, station })
}

fn alive_of(alloc: Global, nas: &str, session: &str, words: &[&str]) -> Result<Act, Fail> {
    let class = class_of(told(words, "class="))?;
    let bundle = optional_of(alloc, told(words, "multi="))?;
    let station = optional_of(alloc, told(words, "station="))?;
    let nas = nas_of(alloc, nas)?;
    Ok(Act::Alive {
        nas,
        session: octets_of(alloc, session)?,
        bundle,
        class,
        station,
    })
}

/// The octets of a word that need not be there.
fn optional_of(alloc: Global, word: Option<&str>) -> Result<Option<Octets>, Fail> {
    match word {
        Some(word) => Ok(Some(octets_of(alloc, word)?)),
        None => Ok(None),
    }
}

fn class_of(number: Option<&str>) -> Result<Option<u64>, Fail> {
    match number {
        Some(number) => Ok(Some(number.parse()?)),
        None => Ok(None),
    }
}

fn stop_of(alloc: Global, nas: &str, session: &str) -> Result<Act, Fail> {
    let nas = nas_of(alloc, nas)?;
    let session = octets_of(alloc, session)?;
    Ok(Act::Stop { nas, session })
}

fn nas_of(alloc: Global, word: &str) -> Result<Nas, Fail> {
    let (client, name) = match word.split_once(':') {
        Some((client, name)) => (client.parse()?, name),
        None => (0, word),
    };
    Ok(Nas {
        client,
        name: NasName::Identifier(octets_of(alloc, name)?),
    })
}

fn octets_of(alloc: Global, word: &str) -> Result<Octets, Fail> {
    Ok(Octets::from_slice(alloc, word.as_bytes())?)
}
