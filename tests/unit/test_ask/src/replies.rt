//! What accepts carry, as JSON and as lines; and what became of asks.

use rld_ask::{Outcome, reply_json, reply_lines};
use rsl_dictionary::dictionary;
use rsl_event::{Detail, RejectCause, Said};
use std::alloc::Global;
use std::test::Fail;
use test_rows::{Subject, check_rows, octets_of, printed};

/// An accept with each attribute that the server gives, with the signature before and a Proxy-State behind it.
const ACCEPT: &str = "0201005f00000000000000000000000000000000501200000000000000000000000000000000\
1912000102030405060708090a0b0c0d0e0f3e06000000010606000000020706000000011b0600000e101c060000025855060000012c210370";

/// An accept with others: a short Class, a Filter-Id, a Port-Limit of two octets, and an address.
const OTHERS: &str =
    "02010027000000000000000000000000000000001903ab0b06676f6c643e0400010806c0000207";

/// An accept with names that come twice: Cisco-AVPair `a=b`, Framed-Route `192.0.2.0/24`, Cisco-AVPair `c`,
/// Session-Timeout 1, Framed-Route `x`, Session-Timeout 2, Tunnel-Type 3 with the tags 1 and 2.
const TWICE: &str =
    "02010051000000000000000000000000000000001a0b000000090105613d62160e3139322e302e322e302f32341a09000000090103631b\
06000000011603781b0600000002400601000003400602000003";

/// An accept with the Filter-Id `a"b\c`, and a Framed-Interface-Id.
const MARKED: &str = "02010025000000000000000000000000000000000b076122625c63600a0001000200030004";

/// A reject without attributes.
const REJECT: &str = "0301001400000000000000000000000000000000";

/// What a reply is as JSON.
struct Json;

impl Subject for Json {
    fn found(&self, alloc: Global, fields: &[&str]) -> Result<String, Fail> {
        let [reply] = fields else {
            return Err("not one reply")?;
        };
        let text = reply_json(
            alloc,
            &dictionary(alloc)?,
            octets_of(alloc, reply)?.as_slice(),
        )?;
        Ok(String::from_utf8_lossy(alloc, text.as_slice().trim_ascii_end())?)
    }
}

#[test]
fn an_accept_is_read_as_json(rt: HostRuntime) -> Result<(), Fail> {
    let alloc = rt.alloc();
    let rows = format!(in alloc;
        "
        what the server gives | {ACCEPT} | {{\"reply:Class\":{{\"op\":\"+=\",\"do_xlat\":false,\"value\":[\"0x000102030405060708090a0b0c0d0e0f\"]}},\
          \"reply:Port-Limit\":{{\"do_xlat\":false,\"value\":[\"1\"]}},\
          \"reply:Service-Type\":{{\"do_xlat\":false,\"value\":[\"Framed-User\"]}},\
          \"reply:Framed-Protocol\":{{\"do_xlat\":false,\"value\":[\"PPP\"]}},\
          \"reply:Session-Timeout\":{{\"do_xlat\":false,\"value\":[\"3600\"]}},\
          \"reply:Idle-Timeout\":{{\"do_xlat\":false,\"value\":[\"600\"]}},\
          \"reply:Acct-Interim-Interval\":{{\"do_xlat\":false,\"value\":[\"300\"]}}}}
        others | {OTHERS} | {{\"reply:Class\":{{\"op\":\"+=\",\"do_xlat\":false,\"value\":[\"0xab\"]}},\
          \"reply:Filter-Id\":{{\"op\":\"+=\",\"do_xlat\":false,\"value\":[\"gold\"]}},\
          \"reply:Attr-62\":{{\"do_xlat\":false,\"value\":[\"0x0001\"]}},\
          \"reply:Framed-IP-Address\":{{\"do_xlat\":false,\"value\":[\"192.0.2.7\"]}}}}
        names that come twice | {TWICE} | {{\"reply:Cisco-AVPair\":{{\"op\":\"+=\",\"do_xlat\":false,\"value\":[\"a=b\",\"c\"]}},\
          \"reply:Framed-Route\":{{\"op\":\"+=\",\"do_xlat\":false,\"value\":[\"192.0.2.0/24\",\"x\"]}},\
          \"reply:Session-Timeout\":{{\"do_xlat\":false,\"value\":[\"1\",\"2\"]}},\
          \"reply:Tunnel-Type:1\":{{\"op\":\"+=\",\"do_xlat\":false,\"value\":[\"L2TP\"]}},\
          \"reply:Tunnel-Type:2\":{{\"op\":\"+=\",\"do_xlat\":false,\"value\":[\"L2TP\"]}}}}
        quotation marks and backslashes | {MARKED} | {{\"reply:Filter-Id\":{{\"op\":\"+=\",\"do_xlat\":false,\"value\":[\"a\\\\\\\"b\\\\\\\\c\"]}},\
          \"reply:Framed-Interface-Id\":{{\"op\":\"+=\",\"do_xlat\":false,\"value\":[\"1:2:3:4\"]}}}}
        none | {REJECT} | {{}}
        no packet | 02 | {{}}
    "
    )?;
    check_rows(&rt, &Json, rows.as_str())
}

/// What a reply is as lines, each followed by a semicolon.
struct Lines;

impl Subject for Lines {
    fn found(&self, alloc: Global, fields: &[&str]) -> Result<String, Fail> {
        let [reply] = fields else {
            return Err("not one reply")?;
        };
        let text = reply_lines(
            alloc,
            &dictionary(alloc)?,
            octets_of(alloc, reply)?.as_slice(),
        )?;
        let text = String::from_utf8_lossy(alloc, text.as_slice())?;
        Ok(text.replace(alloc, "\n", ";")?)
    }
}

#[test]
fn an_accept_is_told_in_lines(rt: HostRuntime) -> Result<(), Fail> {
    let alloc = rt.alloc();
    let rows = format!(in alloc;
        "
        what the server gives | {ACCEPT} | Class = 0x000102030405060708090a0b0c0d0e0f;Port-Limit = 1;\
          Service-Type = Framed-User;Framed-Protocol = PPP;Session-Timeout = 3600;Idle-Timeout = 600;\
          Acct-Interim-Interval = 300;
        others | {OTHERS} | Class = 0xab;Filter-Id = \"gold\";Attr-62 = 0x0001;Framed-IP-Address = 192.0.2.7;
        names that come twice | {TWICE} | Cisco-AVPair = \"a=b\";Framed-Route = \"192.0.2.0/24\";\
          Cisco-AVPair = \"c\";Session-Timeout = 1;Framed-Route = \"x\";Session-Timeout = 2;\
          Tunnel-Type:1 = L2TP;Tunnel-Type:2 = L2TP;
        none | {REJECT} |
    "
    )?;
    check_rows(&rt, &Lines, rows.as_str())
}

/// What became of an ask, by a word for what was answered.
struct Outcomes;

impl Subject for Outcomes {
    fn found(&self, alloc: Global, fields: &[&str]) -> Result<String, Fail> {
        let [word] = fields else {
            return Err("not one word")?;
        };
        let (said, detail) = match *word {
            "accept" => (Some(Said::Accept(1)), Some(Detail::Asks)),
            "limit" => (Some(Said::LimitReject), Some(Detail::Asks)),
            "unknown" => (
                Some(Said::Reject),
                Some(Detail::Rejected(RejectCause::UnknownAccount)),
            ),
            "disabled" => (
                Some(Said::Reject),
                Some(Detail::Rejected(RejectCause::DisabledAccount)),
            ),
            "password" => (
                Some(Said::Reject),
                Some(Detail::Rejected(RejectCause::WrongPassword)),
            ),
            "bare" => (Some(Said::Reject), None),
            "account" => (Some(Said::Account), None),
            _ => (None, None),
        };
        let outcome = Outcome::of(said, detail);
        printed(alloc, &(outcome, outcome.status()))
    }
}

#[test]
fn what_became_of_an_ask_is_by_what_was_answered(rt: HostRuntime) -> Result<(), Fail> {
    let rows = "
        a place | accept | (Accepted, 200)
        none | limit | (LimitReached, 403)
        no account | unknown | (UnknownAccount, 404)
        a disabled one | disabled | (Disabled, 423)
        another reject | password | (Unanswered, 503)
        one without a cause | bare | (Unanswered, 503)
        an answer to accounting | account | (Unanswered, 503)
        no answer | nothing | (Unanswered, 503)
    ";
    check_rows(&rt, &Outcomes, rows)
}
