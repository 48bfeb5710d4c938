//! What `Config::make` takes, look-ups, rules and addresses.

use super::{client, entry, numbers_of, rules_of, said, settings};
use rsl_accounts::{Client, Config, Entry, Rules, Settings, address_of};
use std::alloc::Global;
use std::test::Fail;
use test_rows::{Subject, check_rows, printed, replaced};

/// What comes of one client and one account where a key has each of some numbers.
struct NumberRows;

impl Subject for NumberRows {
    fn found(&self, alloc: Global, fields: &[&str]) -> Result<String, Fail> {
        let [key, numbers] = fields else {
            return Err("a row has a key and numbers")?;
        };
        let mut found = String::new(alloc);
        for number in numbers_of(alloc, numbers)? {
            if !found.is_empty() {
                found.push_str(", ")?;
            }
            found.push_str(made_with(alloc, key, number)?.as_str())?;
        }
        Ok(found)
    }
}

/// What comes of one client and one account where the key has the number.
fn made_with(alloc: Global, key: &str, number: u64) -> Result<String, Fail> {
    let mut settings = settings(2);
    settings.reserve = 86_400;
    settings.keep = 1;
    set_setting(&mut settings, key, number);
    let mut nemo = entry(alloc, "nemo", "arctangent")?;
    set_rule(&mut nemo.rules, key, number);
    set_attribute(&mut nemo, key, number);
    let mut one = client(alloc, [10, 0, 0, 1], "s")?;
    set_port(&mut one, key, number);
    made_of(alloc, settings, one, nemo)
}

/// What comes of one client and one account.
fn made_of(alloc: Global, settings: Settings, one: Client, nemo: Entry) -> Result<String, Fail> {
    let clients = Vec::from_array(alloc, [one])?;
    let accounts = Vec::from_array(alloc, [nemo])?;
    said(alloc, Config::make(alloc, settings, clients, accounts))
}

fn set_setting(settings: &mut Settings, key: &str, number: u64) {
    match key {
        "version" => settings.version = number,
        "shards" => settings.shards = number,
        "reserve_secs" => settings.reserve = number,
        "live_secs" => settings.live = number,
        "grace_secs" => settings.grace = number,
        "closed_secs" => settings.closed = number,
        "keep_secs" => settings.keep = number,
        "interim_secs" => settings.interim = u32::try_from(number).ok(),
        _ => {}
    }
}

fn set_rule(rules: &mut Rules, key: &str, number: u64) {
    match key {
        "places" => rules.places = number,
        "ports" => rules.ports = number,
        _ => {}
    }
}

fn set_port(one: &mut Client, key: &str, number: u64) {
    if key == "port" {
        one.disconnect = u16::try_from(number).ok();
    }
}

fn set_attribute(nemo: &mut Entry, key: &str, number: u64) {
    let short = u32::try_from(number).ok();
    match key {
        "service_type" => nemo.service_type = short,
        "framed_protocol" => nemo.framed_protocol = short,
        "session_timeout" => nemo.session_timeout = short,
        "idle_timeout" => nemo.idle_timeout = short,
        "own live_secs" => nemo.own_live = Some(number),
        "own grace_secs" => nemo.own_grace = Some(number),
        "own interim_secs" => nemo.interim = short,
        _ => {}
    }
}

#[test]
fn numbers_are_taken_up_to_their_limits(rt: HostRuntime) -> Result<(), Fail> {
    let rows = "
        version | version | 0 1 2 3 4 | BadValue version, Ok, Ok, BadValue secret, BadValue version
        shards | shards | 0 1 4 5 | BadValue shards, Ok, Ok, BadValue shards
        reserve time | reserve_secs | 0 1 86400 86401 | \
          BadValue reserve_secs, Ok, Ok, BadValue reserve_secs
        live time | live_secs | 0 1 86400 86401 | BadValue live_secs, Ok, Ok, BadValue live_secs
        grace time | grace_secs | 0 1 86400 86401 | \
          BadValue grace_secs, Ok, Ok, BadValue grace_secs
        closed time | closed_secs | 0 1 86400 86401 | \
          BadValue closed_secs, Ok, Ok, BadValue closed_secs
        keep time | keep_secs | 0 1 86400 86401 | BadValue keep_secs, Ok, Ok, BadValue keep_secs
        port for Disconnect-Requests | port | 0 1 65535 | BadValue port, Ok, Ok
        places | places | 0 64 65 | Ok, Ok, BadValue places
        ports | ports | 0 1 16 17 | BadValue ports, Ok, Ok, BadValue ports
        Service-Type | service_type | 0 1 4294967295 | BadValue service_type, Ok, Ok
        Framed-Protocol | framed_protocol | 0 1 4294967295 | BadValue framed_protocol, Ok, Ok
        Session-Timeout | session_timeout | 0 1 4294967295 | BadValue session_timeout, Ok, Ok
        Idle-Timeout | idle_timeout | 0 1 4294967295 | BadValue idle_timeout, Ok, Ok
        own live time | own live_secs | 0 1 86400 86401 | \
          BadValue live_secs, Ok, Ok, BadValue live_secs
        own grace time | own grace_secs | 0 1 86400 86401 | \
          BadValue grace_secs, Ok, Ok, BadValue grace_secs
        interval | interim_secs | 0 59 60 86400 86401 | \
          BadValue interim_secs, BadValue interim_secs, Ok, Ok, BadValue interim_secs
        own interval | own interim_secs | 0 59 60 86400 86401 | \
          BadValue interim_secs, BadValue interim_secs, Ok, Ok, BadValue interim_secs
    ";
    check_rows(&rt, &NumberRows, rows)
}

/// Words of rows for texts of 64 and 128 octets.
const LONG: &str = "\
<128> = <64><64>
<64> = 0123456789abcdef0123456789abcdef0123456789abcdef0123456789abcdef";

/// What comes of a client with a secret, and an account with a name and a password.
struct TextRows;

impl Subject for TextRows {
    fn found(&self, alloc: Global, fields: &[&str]) -> Result<String, Fail> {
        let [secret, name, password] = fields else {
            return Err("a row has a secret, a name and a password")?;
        };
        let nemo = entry(alloc, name, password)?;
        made_of(
            alloc,
            settings(1),
            client(alloc, [10, 0, 0, 1], secret)?,
            nemo,
        )
    }
}

#[test]
fn texts_are_taken_up_to_their_limits(rt: HostRuntime) -> Result<(), Fail> {
    let rows = "
        printable octets | s | !~ | p | Ok
        other letters | \u{e9} | nemo | \u{e9} | Ok
        the longest | <128> | <64> | <128> | Ok
        an empty secret | | nemo | | BadValue secret
        a secret with a zero octet | a\0 | nemo | p | BadValue secret
        a secret of 129 octets | <128>x | nemo | p | BadValue secret
        an empty name | s | | | BadValue name
        a name with a blank | s | a b | p | BadValue name
        a name with a control octet | s | a\u{7f} | p | BadValue name
        a name with another letter | s | \u{e9} | p | BadValue name
        a name of 65 octets | s | <64>x | p | BadValue name
        an empty password | s | nemo | | BadValue password
        a password with a zero octet | s | nemo | a\0 | BadValue password
        a password of 129 octets | s | nemo | <128>x | BadValue password
    ";
    let rows = replaced(rt.alloc(), rows, LONG)?;
    check_rows(&rt, &TextRows, rows.as_str())
}

/// Whether rules fit.
struct RulesRows;

impl Subject for RulesRows {
    fn found(&self, alloc: Global, fields: &[&str]) -> Result<String, Fail> {
        let [numbers] = fields else {
            return Err("a row has seven numbers")?;
        };
        printed(alloc, &rules_of(alloc, numbers)?.fits())
    }
}

// Places, ports, and the reserve, live, grace, closed and keep time.
#[test]
fn rules_fit_within_their_limits(rt: HostRuntime) -> Result<(), Fail> {
    let rows = "
        the least | 0 1 1 1 1 1 1 | true
        the greatest | 64 16 86400 86400 86400 86400 86400 | true
        65 places | 65 1 1 1 1 1 1 | false
        no ports | 1 0 1 1 1 1 1 | false
        17 ports | 1 17 1 1 1 1 1 | false
        no reserve time | 1 1 0 1 1 1 0 | false
        a long reserve time | 1 1 86401 1 1 1 1 | false
        no live time | 1 1 1 0 1 1 1 | false
        a long live time | 1 1 1 86401 1 1 1 | false
        no grace time | 1 1 1 1 0 1 1 | false
        a long grace time | 1 1 1 1 86401 1 1 | false
        no closed time | 1 1 1 1 1 0 1 | false
        a long closed time | 1 1 1 1 1 86401 1 | false
        no keep time | 1 1 1 1 1 1 0 | false
        a keep time over the reserve time | 1 1 60 1 1 1 61 | false
    ";
    check_rows(&rt, &RulesRows, rows)
}

/// The address that a text writes.
struct AddressRows;

impl Subject for AddressRows {
    fn found(&self, alloc: Global, fields: &[&str]) -> Result<String, Fail> {
        let [text] = fields else {
            return Err("a row has a text between quotes")?;
        };
        printed(alloc, &address_of(text.trim_matches('\'').as_bytes()))
    }
}

#[test]
fn addresses_are_four_numbers(rt: HostRuntime) -> Result<(), Fail> {
    let rows = "
        an address | '192.168.1.16' | Some([192, 168, 1, 16])
        zeros | '0.0.0.0' | Some([0, 0, 0, 0])
        the greatest | '255.255.255.255' | Some([255, 255, 255, 255])
        a number of 256 | '256.0.0.1' | None
        a 0 before a number | '01.0.0.1' | None
        three numbers | '1.2.3' | None
        five numbers | '1.2.3.4.5' | None
        a blank at the end | '1.2.3.4 ' | None
        a sign | '+1.2.3.4' | None
        nothing | '' | None
    ";
    check_rows(&rt, &AddressRows, rows)
}
