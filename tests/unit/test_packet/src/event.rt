//! Tests of `rsl_event`. The octets were computed with Python's hashlib and hmac, by the formulas
//! of the RFCs.

mod access;
mod accounting;
mod carried;
mod copies;
mod credentials;
mod drops;
mod guard;
mod hostile;
mod replies;
mod signatures;
mod stations;
mod trusted;

use rsl_account_file::read_config;
use rsl_accounts::Config;
use rsl_event::{Decision, Meaning, Port, Prepared, Said, Source, prepare, reply, room, said};
use rsl_reply::Dictionary;
use std::alloc::Global;
use std::io::Eprint;
use std::test::Fail;
use test_rows::{Hex, Subject, check_rows, number, octets_of, printed, push_printed, replaced};
use test_timelines::{push_act, push_delay, push_nas, push_note, push_value};

const AUTH: Port = Port::Auth;

const ACCT: Port = Port::Acct;

/// The boot number of the server.
const BOOT: u64 = 1;

/// Where the first client's datagrams come from.
const CLIENT: Source = Source {
    address: [192, 168, 1, 16],
    port: 1024,
};

/// Where the second client's come from.
const OTHER: Source = Source {
    address: [192, 168, 1, 17],
    port: 1024,
};

/// Where the third's come from, which has to sign its Access-Requests.
const SIGNED: Source = Source {
    address: [192, 168, 1, 18],
    port: 1024,
};

/// Where no client's come from.
const STRANGER: Source = Source {
    address: [10, 0, 0, 9],
    port: 1024,
};

/// The clients, of which the first has the secret of RFC 2865 section 7.1, and the accounts, of
/// which the first is that of its request.
const FILE: &str = r#"
version = 2
shards = 1
reserve_secs = 60
live_secs = 900
grace_secs = 900
closed_secs = 3600
keep_secs = 10

[[client]]
address = "192.168.1.16"
secret = "xyzzy5461"

[[client]]
address = "192.168.1.17"
secret = "another secret"

[[client]]
address = "192.168.1.18"
secret = "xyzzy5461"
signed = true

[[account]]
name = "nemo"
password = "arctangent"
places = 1
ports = 1

[[account]]
name = "shorter"
password = "arctange"
places = 1
ports = 1

[[account]]
name = "longer"
password = "arctangent1"
places = 1
ports = 1

[[account]]
name = "capital"
password = "Arctangent"
places = 1
ports = 1

[[account]]
name = "full"
password = "arctangent"
places = 64
ports = 16
service_type = 2
framed_protocol = 1
session_timeout = 3600
idle_timeout = 600

[[account]]
name = "told"
password = "arctangent"
places = 64
ports = 16
service_type = 2
framed_protocol = 1
session_timeout = 3600
idle_timeout = 600
interim_secs = 600

[[account]]
name = "asks"
password = "arctangent"
places = 1
ports = 1
interim_secs = 60
"#;

/// Words of rows, a line each, and what stands for each: what an ask and an alive of nemo mean,
/// parts of these, the octets of the RFC's request, and 3,900 and 3,901 octets of Proxy-States with
/// their headers. A line may have words of later ones.
const WORDS: &str = "\
<ask> = Own { account: 0, act: Ask { <key>, nas: Nas { client: 0, name: Unnamed } } }
<alive> = Own { account: 0, act: Alive { <n>, <s1>, bundle: None, class: None } }
<key> = key: Key { source: Source { address: [192, 168, 1, 16], port: 1024 }, id: 0, \
    authenticator: [15, 64, 63, 148, 115, 151, 128, 87, 189, 131, 213, 203, 152, 244, 34, 122] }
<n> = nas: Nas { client: 0, name: Identifier([110]) }
<s1> = session: [115, 49]
<m> = bundle: Some([109])
<rfc> = 010000380f403f9473978057bd83d5cb98f4227a01066e656d6f02120dbe708d93d413ce3196e43f782a0aee\
    0406c0a80110050600000003
<3900> = <3825>214b\
    09090909090909090909090909090909090909090909090909090909090909090909090909\
    090909090909090909090909090909090909090909090909090909090909090909090909
<3901> = <3825>214c\
    09090909090909090909090909090909090909090909090909090909090909090909090909\
    09090909090909090909090909090909090909090909090909090909090909090909090909";

/// 3,825 octets of Proxy-States with their headers, for which the word is `<3825>`.
const PROXY_STATES: &str = "21ff 00*253 21ff 01*253 21ff 02*253 21ff 03*253 21ff 04*253 \
    21ff 05*253 21ff 06*253 21ff 07*253 21ff 08*253 21ff 09*253 21ff 0a*253 21ff 0b*253 \
    21ff 0c*253 21ff 0d*253 21ff 0e*253";

/// Compares what datagrams from a source mean, or why they are dropped, with what rows expect, of
/// which the fields are the port and the octets.
fn check<R: AllocGlobal + Eprint>(rt: &R, source: Source, rows: &str) -> Result<(), Fail> {
    let config = read_config(rt.alloc(), &Dictionary::new(rt.alloc()), FILE.as_bytes())?;
    check_spelled(rt, &MeaningRows { config, source }, rows)
}

/// Compares the replies to datagrams from a source with what rows expect, of which the fields are
/// the octets and the decision, and what is expected is the word of the reply and its octets.
fn check_replies<R: AllocGlobal + Eprint>(
    rt: &R,
    source: Source,
    port: Port,
    rows: &str,
) -> Result<(), Fail> {
    let config = read_config(rt.alloc(), &Dictionary::new(rt.alloc()), FILE.as_bytes())?;
    let replies = ReplyRows {
        config,
        source,
        port,
    };
    check_spelled(rt, &replies, rows)
}

/// Compares what the subject gives with what rows with words expect.
fn check_spelled<R: AllocGlobal + Eprint, S: Subject>(
    rt: &R,
    subject: &S,
    rows: &str,
) -> Result<(), Fail> {
    let rows = spelled(rt.alloc(), rows)?;
    check_rows(rt, subject, rows.as_str())
}

/// Rows with what stands for their words.
fn spelled(alloc: Global, rows: &str) -> Result<String, Fail> {
    let rows = replaced(alloc, rows, WORDS)?;
    let proxy_states = printed(alloc, &Hex(&octets_of(alloc, PROXY_STATES)?))?;
    Ok(
        rows.as_str()
            .replace(alloc, "<3825>", proxy_states.as_str())?,
    )
}

/// What datagrams from a source mean, or why they are dropped.
#[derive(Drop)]
struct MeaningRows {
    config: Config,
    source: Source,
}

impl Subject for MeaningRows {
    fn found(&self, alloc: Global, fields: &[&str]) -> Result<String, Fail> {
        let [port, datagram] = fields else {
            return Err("a row has a port and a datagram")?;
        };
        let datagram = octets_of(alloc, datagram)?;
        meaning_of(alloc, &self.config, port_of(port)?, self.source, &datagram)
    }
}

/// What a datagram means or why it is dropped, in the layout of a Debug.
fn meaning_of(
    alloc: Global,
    config: &Config,
    port: Port,
    source: Source,
    datagram: &[u8],
) -> Result<String, Fail> {
    match prepare(alloc, config, BOOT, port, source, datagram) {
        Ok(prepared) => told(alloc, &prepared.meaning),
        Err(dropped) => printed(alloc, &dropped),
    }
}

fn told(alloc: Global, meaning: &Meaning) -> Result<String, Fail> {
    let mut text = String::new(alloc);
    match meaning {
        Meaning::Bare => text.push_str("Bare")?,
        Meaning::Reject => text.push_str("Reject")?,
        Meaning::Own { account, act } => {
            push_value(&mut text, "Own { account: ", account, ", act: ")?;
            push_act(&mut text, act)?;
            text.push_str(" }")?;
        }
        Meaning::Restart { nas, delay } => {
            text.push_str("Restart { nas: ")?;
            push_nas(&mut text, nas)?;
            push_delay(&mut text, *delay)?;
            text.push_str(" }")?;
        }
        Meaning::Stray(note) => {
            text.push_str("Stray(")?;
            push_note(&mut text, note)?;
            text.push(')')?;
        }
    }
    Ok(text)
}

/// The replies to datagrams from a source to a port.
#[derive(Drop)]
struct ReplyRows {
    config: Config,
    source: Source,
    port: Port,
}

impl Subject for ReplyRows {
    fn found(&self, alloc: Global, fields: &[&str]) -> Result<String, Fail> {
        let [datagram, decision] = fields else {
            return Err("a row has a datagram and a decision")?;
        };
        let (datagram, decision) = (octets_of(alloc, datagram)?, decision_of(decision)?);
        reply_of(
            alloc,
            &self.config,
            self.port,
            self.source,
            &datagram,
            decision,
        )
    }
}

/// The word of a reply as its Debug, and its octets in hexadecimal digits.
fn reply_of(
    alloc: Global,
    config: &Config,
    port: Port,
    source: Source,
    datagram: &[u8],
    decision: Decision,
) -> Result<String, Fail> {
    let prepared = prepare(alloc, config, BOOT, port, source, datagram)?;
    let octets = reply_octets(alloc, &prepared, config, decision)?;
    reply_text(alloc, said(&prepared.meaning, decision), &octets)
}

/// The octets of the reply to a prepared datagram.
fn reply_octets(
    alloc: Global,
    prepared: &Prepared,
    config: &Config,
    decision: Decision,
) -> Result<Vec<u8>, Fail> {
    let draft = room(alloc, prepared)?;
    Ok(reply(prepared, config, BOOT, decision, draft))
}

fn reply_text(alloc: Global, word: Said, octets: &[u8]) -> Result<String, Fail> {
    let mut text = printed(alloc, &word)?;
    push_printed(&mut text, &Hex(octets))?;
    Ok(text)
}

/// The port that `auth` or `acct` names.
fn port_of(word: &str) -> Result<Port, Fail> {
    match word {
        "auth" => Ok(AUTH),
        "acct" => Ok(ACCT),
        _ => Err("a port is auth or acct")?,
    }
}

/// The decision that `Accept N`, `LimitReject` or `Done` names.
fn decision_of(text: &str) -> Result<Decision, Fail> {
    match text {
        "LimitReject" => Ok(Decision::LimitReject),
        "Done" => Ok(Decision::Done),
        _ => Ok(Decision::Accept(number(text.trim_start_matches("Accept "))?)),
    }
}
