//! The lines that say what happens.
ghost use Rattle.std.specs.Prelude.{map};
ghost use Rattle.rsl_script.specs.Event.{read_event, read_happening, read_raw, read_tick};
ghost use Rattle.rsl_script.specs.Reads.{Reads};

use crate::access::read_access;
use crate::accounting::read_accounting;
use crate::event_line::{EventLine, Happening};
use crate::fault::LineFault;
use crate::values::{read_number, read_octets};
use crate::verb::EventVerb;
use rsl_accounts::address_of;
use rsl_event::Port;
use std::alloc::Global;

/// Reads the words after the first word of a line: `MOMENT`, and then those of its verb.
#[tactic(auto, unfolding(crate::specs::Event::read_event))]
pub(crate) fn read_event(
    alloc: Global,
    verb: EventVerb,
    words: &[&str],
) -> Result<EventLine, LineFault>
    ensures { Reads (read_event verb (map (λ word. word.now) words.now)) result }
{
    match words {
        [] => Err(LineFault::Wrong),
        [moment, rest @ ..] => Ok(EventLine {
            moment: read_number(moment).ok_or(LineFault::Wrong)?,
            happening: read_happening(alloc, verb, rest)?,
        }),
    }
}

/// Reads the words after the moment of a line.
#[tactic(auto, unfolding(crate::specs::Event::read_happening))]
fn read_happening(alloc: Global, verb: EventVerb, words: &[&str]) -> Result<Happening, LineFault>
    ensures { Reads (read_happening verb (map (λ word. word.now) words.now)) result }
{
    match verb {
        EventVerb::Access(method) => read_access(alloc, method, words),
        EventVerb::Accounting(status) => read_accounting(alloc, status, words),
        EventVerb::Raw(port) => read_raw(alloc, port, words),
        EventVerb::Tick => read_tick(words),
    }
}

/// The datagram of the words `CLIENT HEX`.
#[tactic(auto, unfolding(crate::specs::Event::read_raw))]
fn read_raw(alloc: Global, port: Port, words: &[&str]) -> Result<Happening, LineFault>
    ensures { Reads (read_raw port (map (λ word. word.now) words.now)) result }
{
    match words {
        [client, hex] => Ok(Happening::Raw {
            address: address_of(client.as_bytes()).ok_or(LineFault::Wrong)?,
            port,
            octets: read_octets(alloc, hex)?,
        }),
        _ => Err(LineFault::Wrong),
    }
}

/// A tick, which has no further words.
#[tactic(auto, unfolding(crate::specs::Event::read_tick))]
fn read_tick(words: &[&str]) -> Result<Happening, LineFault>
    ensures { Reads (read_tick (map (λ word. word.now) words.now)) result }
{
    match words {
        [] => Ok(Happening::Tick),
        _ => Err(LineFault::Wrong),
    }
}
