//! What comes to a port and what is sent from it, as words.

use rsl_event::Source;
use rsl_service::{Coming, Datagram};
use rsl_wire::Octets;
use std::alloc::Global;
use std::test::Fail;
use test_rows::{Hex, octets_of, port_number, printed};
use test_timelines::{digits_of, reply_of};

/// Adds what was handed to be sent, and to which port.
pub(crate) fn push_sent(text: &mut String, alloc: Global, sent: &[Datagram]) -> Result<(), Fail> {
    for datagram in sent {
        let digits = printed(alloc, &Hex(datagram.octets.as_slice()))?;
        let reply = reply_of(digits.as_str());
        let port = datagram.peer.port;
        write!(text, " {reply} to {port},")?;
    }
    Ok(())
}

/// The datagram of a word, from port 1024 of the client, or from the port after `:`.
fn datagram_of(alloc: Global, word: &str) -> Result<Datagram, Fail> {
    let (word, port) = word.split_once(':').unwrap_or((word, "1024"));
    let peer = Source {
        address: [192, 168, 1, 16],
        port: port_number(port)?,
    };
    let octets = Octets::from_slice(alloc, &octets_of(alloc, digits_of(word)?)?)?;
    Ok(Datagram { peer, octets })
}

/// What comes, of a word.
fn one_coming(alloc: Global, word: &str) -> Result<Coming, Fail> {
    match word {
        "nothing" => Ok(Coming::Nothing),
        "fault" => Ok(Coming::Fault),
        _ => Ok(Coming::Datagram(datagram_of(alloc, word)?)),
    }
}

/// What comes, of words.
pub(crate) fn coming_of(alloc: Global, words: &str) -> Result<Vec<Coming>, Fail> {
    let mut coming = Vec::new(alloc);
    for word in words.split_ascii_whitespace() {
        coming.push(one_coming(alloc, word)?)?;
    }
    Ok(coming)
}
