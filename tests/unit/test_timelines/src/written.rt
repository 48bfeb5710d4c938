//! Rules, access servers and events as texts, each in the layout of a derived `Debug`, but without
//! a station that is not there and without a delay of 0. The types themselves have none, since no
//! server prints them so.

use rsl_accounts::Rules;
use rsl_event::{Act, Event, Key, Nas, NasName, Note};
use rsl_wire::Octets;
use std::fmt::Debug;
use std::test::Fail;

/// Adds the Debug of a value to a text, with what stands before and after it.
pub fn push_value<T: Debug>(
    text: &mut String,
    before: &str,
    value: &T,
    after: &str,
) -> Result<(), Fail> {
    text.push_str(before)?;
    write!(text, "{value:?}")?;
    text.push_str(after)?;
    Ok(())
}

/// Adds the numbers of octets to a text, with what stands before and after them.
pub fn push_octets(
    text: &mut String,
    before: &str,
    octets: &Octets,
    after: &str,
) -> Result<(), Fail> {
    push_value(text, before, &octets.as_slice(), after)
}

/// Adds the numbers of octets that need not be there, with what stands before and after them.
pub fn push_option(
    text: &mut String,
    before: &str,
    octets: &Option<Octets>,
    after: &str,
) -> Result<(), Fail> {
    text.push_str(before)?;
    match octets {
        Some(octets) => push_octets(text, "Some(", octets, ")")?,
        None => text.push_str("None")?,
    }
    text.push_str(after)?;
    Ok(())
}

/// Adds a station to a text, and nothing where there is none.
pub fn push_station(text: &mut String, station: &Option<Octets>) -> Result<(), Fail> {
    match station {
        Some(station) => push_octets(text, ", station: ", station, ""),
        None => Ok(()),
    }
}

/// Adds the delay of a restart to a text, and nothing where it is 0.
pub fn push_delay(text: &mut String, delay: u64) -> Result<(), Fail> {
    match delay {
        0 => Ok(()),
        _ => push_value(text, ", delay: ", &delay, ""),
    }
}

/// Adds rules to a text.
pub fn push_rules(text: &mut String, rules: &Rules) -> Result<(), Fail> {
    push_value(text, "Rules { places: ", &rules.places, "")?;
    push_value(text, ", ports: ", &rules.ports, "")?;
    push_value(text, ", reserve: ", &rules.reserve, "")?;
    push_value(text, ", live: ", &rules.live, "")?;
    push_value(text, ", grace: ", &rules.grace, "")?;
    push_value(text, ", closed: ", &rules.closed, "")?;
    push_value(text, ", keep: ", &rules.keep, " }")
}

/// Adds an access server to a text.
pub fn push_nas(text: &mut String, nas: &Nas) -> Result<(), Fail> {
    push_value(text, "Nas { client: ", &nas.client, ", name: ")?;
    match &nas.name {
        NasName::Identifier(name) => push_octets(text, "Identifier(", name, ") }"),
        NasName::Address(address) => push_octets(text, "Address(", address, ") }"),
        NasName::Unnamed => Ok(text.push_str("Unnamed }")?),
    }
}

/// Adds what an ask is known by to a text.
pub fn push_key(text: &mut String, key: &Key) -> Result<(), Fail> {
    let source = &key.source;
    push_value(
        text,
        "Key { source: Source { address: ",
        &source.address,
        "",
    )?;
    push_value(text, ", port: ", &source.port, " }")?;
    push_value(text, ", id: ", &key.id, "")?;
    push_value(text, ", authenticator: ", &key.authenticator, " }")
}

/// Adds what happened to a text.
pub fn push_act(text: &mut String, act: &Act) -> Result<(), Fail> {
    match act {
        Act::Ask { key, nas, station } => {
            text.push_str("Ask { key: ")?;
            push_key(text, key)?;
            text.push_str(", nas: ")?;
            push_nas(text, nas)?;
            push_station(text, station)?;
        }
        Act::Alive {
            nas,
            session,
            bundle,
            class,
            station,
        } => {
            text.push_str("Alive { nas: ")?;
            push_nas(text, nas)?;
            push_octets(text, ", session: ", session, "")?;
            push_option(text, ", bundle: ", bundle, "")?;
            push_value(text, ", class: ", class, "")?;
            push_station(text, station)?;
        }
        Act::Stop { nas, session } => {
            text.push_str("Stop { nas: ")?;
            push_nas(text, nas)?;
            push_octets(text, ", session: ", session, "")?;
        }
        Act::Sweep { nas, delay } => {
            text.push_str("Sweep { nas: ")?;
            push_nas(text, nas)?;
            push_delay(text, *delay)?;
        }
        Act::Tick => return Ok(text.push_str("Tick")?),
    }
    text.push_str(" }")?;
    Ok(())
}

/// Adds an event to a text.
pub fn push_event(text: &mut String, event: &Event) -> Result<(), Fail> {
    push_value(text, "Event { moment: ", &event.moment, ", act: ")?;
    push_act(text, &event.act)?;
    text.push_str(" }")?;
    Ok(())
}

/// Adds a note to a text.
pub fn push_note(text: &mut String, note: &Note) -> Result<(), Fail> {
    text.push_str("Note { nas: ")?;
    push_nas(text, &note.nas)?;
    push_value(text, ", status: ", &note.status, "")?;
    push_octets(text, ", name: ", &note.name, "")?;
    push_octets(text, ", session: ", &note.session, " }")
}
