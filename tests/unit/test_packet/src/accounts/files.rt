//! Account files and their faults.
//!
//! The fields of a row are edits of the sample: `OLD => NEW` puts a text in the place of another,
//! `=> NEW` puts one at the end, and a field without `=>` is a whole file. In them `\n` ends a
//! line.

use super::{SAMPLE, said};
use rsl_account_file::{read_config, read_config_from};
use rsl_accounts::{Client, Config, Entry};
use rsl_dictionary::dictionary;
use std::alloc::Global;
use std::io::{self, ErrorKind, Read};
use std::test::Fail;
use test_rows::{Subject, check_rows, printed, replaced, shown};
use test_timelines::{push_rules, push_value};

/// The sample with the edits that the fields write.
fn file_of(alloc: Global, fields: &[&str]) -> Result<String, Fail> {
    let mut text = String::from_str(alloc, SAMPLE)?;
    for edit in fields {
        text = edited(alloc, text.as_str(), edit)?;
    }
    Ok(text)
}

/// The text with an edit.
fn edited(alloc: Global, text: &str, edit: &str) -> Result<String, Fail> {
    match edit.split_once("=>") {
        Some((old, new)) => placed(alloc, text, old.trim(), new.trim()),
        None => lines_of(alloc, edit),
    }
}

/// The text with a new text in the place of an old one, or at its end where that is empty.
fn placed(alloc: Global, text: &str, old: &str, new: &str) -> Result<String, Fail> {
    let new = lines_of(alloc, new)?;
    if old.is_empty() {
        return Ok(format!(in alloc; "{text}{new}")?);
    }
    let old = lines_of(alloc, old)?;
    Ok(text.replace(alloc, old.as_str(), new.as_str())?)
}

/// The lines of which each end is written `\n`.
fn lines_of(alloc: Global, text: &str) -> Result<String, Fail> {
    Ok(text.replace(alloc, "\\n", "\n")?)
}

/// What comes of a file: `Ok`, or what its fault prints.
struct FileRows;

impl Subject for FileRows {
    fn found(&self, alloc: Global, fields: &[&str]) -> Result<String, Fail> {
        let text = file_of(alloc, fields)?;
        said(
            alloc,
            read_config(alloc, &dictionary(alloc)?, text.as_bytes()),
        )
    }
}

#[test]
fn the_first_fault_of_a_file_is_named(rt: HostRuntime) -> Result<(), Fail> {
    let rows = r#"
        the sample | Ok
        no TOML | = | NotToml
        nothing | | Missing version
        another key | keep_secs = 10\n => keep_secs = 10\nnote = 1\n | Ok
        version 2 | version = 1 => version = 2 | Ok
        version 0 | version = 1 => version = 0 | BadValue version
        version 4 | version = 1 => version = 4 | BadValue version
        a text for the version | version = 1 => version = "1" | BadValue version
        true for the version | version = 1 => version = true | BadValue version
        shards below 0 | shards = 2 => shards = -2 | BadValue shards
        no reserve time | reserve_secs = 60\n => | Missing reserve_secs
        no live time | live_secs = 900\n => | Missing live_secs
        no grace time | grace_secs = 900\n => | Missing grace_secs
        no closed time | closed_secs = 3600\n => | Missing closed_secs
        no keep time | keep_secs = 10\n => | Missing keep_secs
        a keep time over the reserve time | keep_secs = 10\n => keep_secs = 61\n | KeepTooLong
        no client | [[client]] => [[customer]] | Missing client
        a table for the clients | [[client]] => [client] | BadValue client
        a number for a client | [[client]]\naddress => client = [1]\naddress | BadValue client
        a list of no clients | [[client]]\naddress => client = []\naddress | BadValue client
        no account | [[account]] => [[user]] | Missing account
        no address | address = "192.168.1.16"\n => | Missing address
        a 0 before a number | 192.168.1.16 => 192.168.01.16 | BadValue address
        three numbers | 192.168.1.16 => 192.168.1 | BadValue address
        a number of 256 | 192.168.1.16 => 192.168.1.256 | BadValue address
        no secret | secret = "xyzzy5461"\n => | Missing secret
        an empty secret | xyzzy5461 => | BadValue secret
        a secret with a zero octet | xyzzy5461 => a\u0000 | BadValue secret
        a client that signs | 5461"\n => 5461"\nsigned = true\n | Ok
        one that does not | 5461"\n => 5461"\nsigned = false\n | Ok
        a number for signed | 5461"\n => 5461"\nsigned = 1\n | BadValue signed
        a text for signed | 5461"\n => 5461"\nsigned = "true"\n | BadValue signed
        a list for signed | 5461"\n => 5461"\nsigned = [true]\n | BadValue signed
        signed first | 5461"\n => 5461"\nsigned = 0.5\n | name = "nemo"\n => | BadValue signed
        a secret first | 5461"\n => 5461"\nsigned = 1\n | xyzzy => \u0000 | BadValue secret
        no name | name = "nemo"\n => | Missing name
        a number for a name | "nemo" => 7 | BadValue name
        a name with a blank | "nemo" => "ne mo" | BadValue name
        no password | password = "arctangent"\n => | Missing password
        true for a password | "arctangent" => true | BadValue password
        no places | places = 1\n => | Missing places
        65 places | places = 1 => places = 65 | BadValue places
        1.0 places | places = 1 => places = 1.0 | BadValue places
        no ports | ports = 1\n => | Missing ports
        17 ports | ports = 1 => ports = 17 | BadValue ports
        two attributes | service_type = 2\n => | idle_timeout = 600\n => | Ok
        service type 0 | service_type = 2 => service_type = 0 | BadValue service_type
        a text | framed_protocol = 1 => framed_protocol = "1" | BadValue framed_protocol
        below 0 | session_timeout = 3600 => session_timeout = -1 | BadValue session_timeout
        idle time-out 0 | idle_timeout = 600 => idle_timeout = 0 | BadValue idle_timeout
        the greatest | idle_timeout = 600 => idle_timeout = 4294967295 | Ok
        one more | idle_timeout = 600 => idle_timeout = 4294967296 | BadValue idle_timeout
        a secret first | secret = "xyzzy5461"\n => | places = 1 => places = 65 | Missing secret
        keep last | places = 1 => places = 65 | keep_secs = 10 => keep_secs = 61 | BadValue places
    "#;
    check_rows(&rt, &FileRows, rows)?;
    let found = said(
        rt.alloc(),
        read_config(rt.alloc(), &dictionary(rt.alloc())?, b"\xff"),
    )?;
    assert_eq!(rt; found.as_str(), "NotToml", "no UTF-8");
    Ok(())
}

/// In version 3 what is misspelled is found, what is left out counts on the safe side, and a secret has 16
/// octets. Versions 1 and 2 pass over all of it.
#[test]
fn version_3_is_strict(rt: HostRuntime) -> Result<(), Fail> {
    let rows = r#"
        the sample | <3> | BadValue secret
        15 octets | <3> | xyzzy5461 => 123456789012345 | BadValue secret
        16 octets | <3> | <16> | Ok
        128 octets | <3> | xyzzy5461 => <128> | Ok
        15 octets in version 2 | <2> | xyzzy5461 => 123456789012345 | Ok
        an empty secret | <3> | xyzzy5461 => | BadValue secret
        a secret with a zero octet | <3> | xyzzy5461 => 1234567890123456\u0000 | BadValue secret
        sigend | <3> | <16> | <sigend> | Unknown client "sigend"
        sigend in version 2 | <2> | <sigend> | Ok
        sigend in version 1 | <sigend> | Ok
        a key of the head | <3> | <16> | keep_secs = 10\n => keep_secs = 10\nkeep_sec = 10\n | Unknown "keep_sec"
        a table | <3> | <16> | => \n[listen]\nport = 1812\n | Unknown "listen"
        a key of an account | <3> | <16> | => disable = true\n | Unknown account "disable"
        a key of a client at an account | <3> | <16> | => signed = true\n | Unknown account "signed"
        a key of an account at a client | <3> | <16> | 5461"\n => 5461"\nplaces = 1\n | Unknown client "places"
        the first by its octets | <3> | <16> | => zone = 1\nrealm = "x"\n | Unknown account "realm"
        a key with a blank | <3> | <16> | => "a b" = 1\n | Unknown account "a b"
        a key with a quotation mark | <3> | <16> | => 'a"b' = 1\n | Unknown account "a\"b"
        before the fields of its table | <3> | <16> | shards = 2 => shard = 2 | Unknown "shard"
        after the version | version = 1 => version = 4\nx = 1 | BadValue version
        the head before the clients | <3> | keep_secs = 10\n => keep_secs = 0\n | <sigend> | BadValue keep_secs
        the clients before the accounts | <3> | <16> | => x = 1\n | <sigend> | Unknown client "sigend"
        a misspelled account | <3> | <sigend> | [[account]] => [[user]] | Unknown "user"
        a disabled account | <3> | <16> | => disabled = true\n | Ok
        one that is not | <3> | <16> | => disabled = false\n | Ok
        a number | <3> | <16> | => disabled = 1\n | BadValue disabled
        a text | <3> | <16> | => disabled = "true"\n | BadValue disabled
        a number in version 2 | <2> | => disabled = 1\n | Ok
        its own times | <3> | <16> | => live_secs = 0\n | BadValue live_secs
        interim_secs | <3> | <16> | => interim_secs = 59\n | BadValue interim_secs
        keep last | <3> | <16> | keep_secs = 10\n => keep_secs = 61\n | KeepTooLong
        a trusted client | <3> | <16> | <trusted> true\n | Ok
        one that says that it signs | <3> | <16> | <trusted> true\nsigned = true\n | Ok
        one that does not sign | <3> | <16> | <trusted> true\nsigned = false\n | BadValue trusted
        one that is not and does not | <3> | <16> | <trusted> false\nsigned = false\n | Ok
        a number for trusted | <3> | <16> | <trusted> 1\n | BadValue trusted
        signed before trusted | <3> | <16> | <trusted> 1\nsigned = 1\n | BadValue signed
        trusted before the accounts | <3> | <16> | <trusted> 1\n | name = "nemo"\n => | BadValue trusted
        trusted after its secret | <3> | <trusted> 1\n | BadValue secret
        trusted in version 2 | <2> | <trusted> true\n | Ok
        a number for trusted in version 2 | <2> | <trusted> 1\n | Ok
        trusted of an account | <3> | <16> | => trusted = true\n | Unknown account "trusted"
        no password | <3> | <16> | <none> | Ok
        an empty one | <3> | <16> | arctangent => | BadValue password
        a number for it | <3> | <16> | "arctangent" => 1 | BadValue password
        none in version 2 | <2> | <none> | Missing password
        none in version 1 | <none> | Missing password
    "#;
    check_rows(&rt, &FileRows, strict(rt.alloc(), rows)?.as_str())
}

#[test]
fn version_3_knows_the_port_for_disconnect_requests(rt: HostRuntime) -> Result<(), Fail> {
    let rows = r#"
        a port | <3> | <16> | <disconnect> { port = 3799 }\n | Ok
        as a table of its own | <3> | <16> | 5461"\n => 5461"\n[client.disconnect]\nport = 3799\n | Ok
        the least | <3> | <16> | <disconnect> { port = 1 }\n | Ok
        the greatest | <3> | <16> | <disconnect> { port = 65535 }\n | Ok
        0 | <3> | <16> | <disconnect> { port = 0 }\n | BadValue port
        65536 | <3> | <16> | <disconnect> { port = 65536 }\n | BadValue port
        below 0 | <3> | <16> | <disconnect> { port = -1 }\n | BadValue port
        a text | <3> | <16> | <disconnect> { port = "3799" }\n | BadValue port
        no port | <3> | <16> | <disconnect> {}\n | Missing port
        another key | <3> | <16> | <disconnect> { port = 3799, address = "::1" }\n | Unknown disconnect "address"
        before the port | <3> | <16> | <disconnect> { prot = 3799 }\n | Unknown disconnect "prot"
        a number | <3> | <16> | <disconnect> 3799\n | BadValue disconnect
        a list | <3> | <16> | <disconnect> [{ port = 3799 }]\n | BadValue disconnect
        after trusted | <3> | <16> | <disconnect> 3799\ntrusted = 1\n | BadValue trusted
        before the accounts | <3> | <16> | <disconnect> 3799\n | name = "nemo"\n => | BadValue disconnect
        a port of the client | <3> | <16> | 5461"\n => 5461"\nport = 3799\n | Unknown client "port"
        of an account | <3> | <16> | => disconnect = { port = 3799 }\n | Unknown account "disconnect"
        a port in version 2 | <2> | <disconnect> { port = 3799 }\n | Ok
        0 in version 2 | <2> | <disconnect> { port = 0, x = 1 }\n | Ok
        a number in version 1 | <disconnect> 3799\n | Ok
    "#;
    check_rows(&rt, &FileRows, strict(rt.alloc(), rows)?.as_str())
}

/// The port at which the first client takes Disconnect-Requests.
struct PortRows;

impl Subject for PortRows {
    fn found(&self, alloc: Global, fields: &[&str]) -> Result<String, Fail> {
        let text = file_of(alloc, fields)?;
        let config = read_config(alloc, &dictionary(alloc)?, text.as_bytes())?;
        printed(alloc, &config.client_at(0).disconnect)
    }
}

#[test]
fn a_client_has_the_port_of_the_file(rt: HostRuntime) -> Result<(), Fail> {
    let rows = r#"
        none | <3> | <16> | None
        a port | <3> | <16> | <disconnect> { port = 3799 }\n | Some(3799)
        as a table of its own | <3> | <16> | 5461"\n => 5461"\n[client.disconnect]\nport = 65535\n | Some(65535)
        in version 2 | <2> | <disconnect> { port = 3799 }\n | None
        in version 1 | <disconnect> { port = 3799 }\n | None
    "#;
    check_rows(&rt, &PortRows, strict(rt.alloc(), rows)?.as_str())
}

/// Rows with what stands for their words.
fn strict(alloc: Global, rows: &str) -> Result<String, Fail> {
    let words = r#"<2> = version = 1 => version = 2
<3> = version = 1 => version = 3
<16> = xyzzy5461 => 1234567xyzzy5461
<sigend> = 5461"\n => 5461"\nsigend = true\n
<trusted> = 5461"\n => 5461"\ntrusted =
<disconnect> = 5461"\n => 5461"\ndisconnect =
<none> = password = "arctangent"\n =>
<128> = <64><64>
<64> = 1234567890123456789012345678901234567890123456789012345678901234"#;
    replaced(alloc, rows, words)
}

/// Whether the first client signs, and whether the first account is disabled.
struct SafeRows;

impl Subject for SafeRows {
    fn found(&self, alloc: Global, fields: &[&str]) -> Result<String, Fail> {
        let text = file_of(alloc, fields)?;
        let config = read_config(alloc, &dictionary(alloc)?, text.as_bytes())?;
        printed(
            alloc,
            &(config.client_at(0).signed, config.entry(0).disabled),
        )
    }
}

#[test]
fn what_version_3_leaves_out_is_safe(rt: HostRuntime) -> Result<(), Fail> {
    let rows = r#"
        neither | <3> | <16> | (true, false)
        neither in version 2 | <2> | (false, false)
        neither in version 1 | (false, false)
        not signed | <3> | <16> | 5461"\n => 5461"\nsigned = false\n | (false, false)
        signed | <3> | <16> | 5461"\n => 5461"\nsigned = true\n | (true, false)
        disabled | <3> | <16> | => disabled = true\n | (true, true)
        not disabled | <3> | <16> | => disabled = false\n | (true, false)
        disabled in version 2 | <2> | => disabled = true\n | (false, false)
    "#;
    check_rows(&rt, &SafeRows, strict(rt.alloc(), rows)?.as_str())
}

/// Whether the first account counts by stations, and whether a delay counts, or the fault.
struct StationRows;

impl Subject for StationRows {
    fn found(&self, alloc: Global, fields: &[&str]) -> Result<String, Fail> {
        let text = file_of(alloc, fields)?;
        match read_config(alloc, &dictionary(alloc)?, text.as_bytes()) {
            Ok(config) => station_and_delay(alloc, &config),
            Err(fault) => shown(alloc, &fault),
        }
    }
}

fn station_and_delay(alloc: Global, config: &Config) -> Result<String, Fail> {
    let _accounts = config.accounts();
    printed(
        alloc,
        &(config.counts_stations(0), config.heeds_delay_time()),
    )
}

/// In version 3 an account has its own `station`, else that of the head, and `delay_time` stands at
/// the head alone. Versions 1 and 2 pass over both.
#[test]
fn stations_and_delays_are_those_of_version_3(rt: HostRuntime) -> Result<(), Fail> {
    let rows = r#"
        neither | <3> | <16> | (false, false)
        stations | <3> | <16> | <station> true\n | (true, false)
        no stations | <3> | <16> | <station> false\n | (false, false)
        of the account | <3> | <16> | => station = true\n | (true, false)
        not of the account | <3> | <16> | => station = false\n | (false, false)
        of the head, and not of the account | <3> | <16> | <station> true\n | => station = false\n | (false, false)
        the other way | <3> | <16> | <station> false\n | => station = true\n | (true, false)
        of both | <3> | <16> | <station> true\n | => station = true\n | (true, false)
        of another account | <3> | <16> | => <second>station = true\n | (false, false)
        delays | <3> | <16> | <delay> true\n | (false, true)
        no delays | <3> | <16> | <delay> false\n | (false, false)
        stations and delays | <3> | <16> | <station> true\ndelay_time = true\n | (true, true)
        in version 2 | <2> | <station> true\ndelay_time = true\n | => station = true\n | (false, false)
        in version 1 | <station> true\ndelay_time = true\n | => station = true\n | (false, false)
        wrong in version 2 | <2> | <station> 1\ndelay_time = 1\n | => station = 1\n | (false, false)
        wrong in version 1 | <station> 1\ndelay_time = 1\n | => station = 1\n | (false, false)
        a number | <3> | <16> | <station> 1\n | BadValue station
        a text | <3> | <16> | <station> "true"\n | BadValue station
        a list | <3> | <16> | <station> [true]\n | BadValue station
        a number of an account | <3> | <16> | => station = 1\n | BadValue station
        a text of an account | <3> | <16> | => station = "true"\n | BadValue station
        a number for delays | <3> | <16> | <delay> 1\n | BadValue delay_time
        a text for delays | <3> | <16> | <delay> "true"\n | BadValue delay_time
        stations before delays | <3> | <16> | <delay> 1\nstation = 1\n | BadValue station
        after interim_secs | <3> | <16> | <station> 1\ninterim_secs = 59\n | BadValue interim_secs
        before port_limit | <3> | <16> | <delay> 1\nport_limit = 1\n | BadValue delay_time
        before the clients | <3> | <delay> 1\n | BadValue delay_time
        after its own times | <3> | <16> | => station = 1\nlive_secs = 0\n | BadValue live_secs
        before disabled | <3> | <16> | => disabled = 1\nstation = 1\n | BadValue station
        delays of an account | <3> | <16> | => delay_time = true\n | Unknown account "delay_time"
        stations of a client | <3> | <16> | 5461"\n => 5461"\nstation = true\n | Unknown client "station"
    "#;
    let words = r#"<station> = keep_secs = 10\n => keep_secs = 10\nstation =
<delay> = keep_secs = 10\n => keep_secs = 10\ndelay_time =
<second> = \n[[account]]\nname = "b"\npassword = "p"\nplaces = 1\nports = 1\n"#;
    let rows = replaced(rt.alloc(), rows, words)?;
    check_rows(
        &rt,
        &StationRows,
        strict(rt.alloc(), rows.as_str())?.as_str(),
    )
}

/// A reader that gives a text seven octets at a time. Then it fails, or is at its end.
#[derive(Drop)]
struct Sevens<'a> {
    text: &'a [u8],
    fails: bool,
}

impl Read for Sevens<'_> {
    fn read(&mut self, buf: &mut [u8]) -> io::Result<usize> {
        if self.text.is_empty() && self.fails {
            return Err(io::Error::from(ErrorKind::BrokenPipe));
        }
        let len = self.text.len().min(7).min(buf.len());
        let (piece, rest) = self.text.split_at(len);
        buf[..len].copy_from_slice(piece);
        self.text = rest;
        Ok(len)
    }
}

/// What comes of a file that a reader gives: `Ok`, or what its fault prints.
struct ReadRows {
    fails: bool,
}

impl Subject for ReadRows {
    fn found(&self, alloc: Global, fields: &[&str]) -> Result<String, Fail> {
        let text = file_of(alloc, fields)?;
        let reader = Sevens {
            text: text.as_bytes(),
            fails: self.fails,
        };
        match read_config_from(alloc, &dictionary(alloc)?, reader) {
            Ok(_) => shown(alloc, &"Ok"),
            Err(fault) => shown(alloc, &fault),
        }
    }
}

#[test]
fn a_file_is_read_to_its_end(rt: HostRuntime) -> Result<(), Fail> {
    let rows = "
        the sample | Ok
        no TOML | = | bad file: NotToml
        nothing | | bad file: Missing version
        keep | keep_secs = 10 => keep_secs = 61 | bad file: KeepTooLong
    ";
    check_rows(&rt, &ReadRows { fails: false }, rows)
}

#[test]
fn a_file_whose_read_fails_is_unreadable(rt: HostRuntime) -> Result<(), Fail> {
    let rows = "
        the sample | bad file: unreadable
        no TOML | = | bad file: unreadable
    ";
    check_rows(&rt, &ReadRows { fails: true }, rows)
}

#[test]
fn clients_and_accounts_that_come_twice_are_told_before_the_keep_time(
    rt: HostRuntime,
) -> Result<(), Fail> {
    let rows = "
        a client twice | keep_secs = 10 => keep_secs = 61 | \
          => \\n[[client]]\\naddress = '192.168.1.16'\\nsecret = 'other'\\n | TwiceClient
        an account twice | keep_secs = 10 => keep_secs = 61 | \
          => \\n[[account]]\\nname = 'nemo'\\npassword = 'p'\\nplaces = 2\\nports = 1\\n | \
          TwiceAccount
        both twice | keep_secs = 10 => keep_secs = 61 | \
          => \\n[[client]]\\naddress = '192.168.1.16'\\nsecret = 'other'\\n | \
          => \\n[[account]]\\nname = 'nemo'\\npassword = 'p'\\nplaces = 2\\nports = 1\\n | \
          TwiceClient
        a wrong value after both | keep_secs = 10 => keep_secs = 0 | \
          => \\n[[client]]\\naddress = '192.168.1.16'\\nsecret = 'other'\\n | \
          => \\n[[account]]\\nname = 'nemo'\\npassword = 'p'\\nplaces = 2\\nports = 1\\n | \
          BadValue keep_secs
    ";
    check_rows(&rt, &FileRows, rows)
}

/// The live and grace times of the first account's rules, and its own.
struct TimesRows;

impl Subject for TimesRows {
    fn found(&self, alloc: Global, fields: &[&str]) -> Result<String, Fail> {
        let text = file_of(alloc, fields)?;
        match read_config(alloc, &dictionary(alloc)?, text.as_bytes()) {
            Ok(config) => times(alloc, config.entry(0)),
            Err(fault) => shown(alloc, &fault),
        }
    }
}

fn times(alloc: Global, nemo: &Entry) -> Result<String, Fail> {
    let (live, grace) = (nemo.rules.live, nemo.rules.grace);
    printed(alloc, &(live, grace, nemo.own_live, nemo.own_grace))
}

/// In version 2 an account has its own live and grace times; version 1 does not know them.
#[test]
fn own_times_are_those_of_version_2(rt: HostRuntime) -> Result<(), Fail> {
    let rows = r#"
        version 1 | (900, 900, None, None)
        version 2 | <2> | (900, 900, None, None)
        own live time | <2> | => live_secs = 30\n | (30, 900, Some(30), None)
        own grace time | <2> | => grace_secs = 86400\n | (900, 86400, None, Some(86400))
        both own times | <2> | => live_secs = 1\ngrace_secs = 2\n | (1, 2, Some(1), Some(2))
        in version 1 | => live_secs = 30\n | (900, 900, None, None)
        wrong in version 1 | => live_secs = 0\ngrace_secs = "x"\n | (900, 900, None, None)
        live of 0 | <2> | => live_secs = 0\n | BadValue live_secs
        live of 86401 | <2> | => live_secs = 86401\n | BadValue live_secs
        grace of 0 | <2> | => grace_secs = 0\n | BadValue grace_secs
        grace of true | <2> | => grace_secs = true\n | BadValue grace_secs
        both of 0 | <2> | => live_secs = 0\ngrace_secs = 0\n | BadValue live_secs
        version 4 | version = 1 => version = 4 | => live_secs = 0\n | BadValue version
    "#;
    let rows = replaced(rt.alloc(), rows, "<2> = version = 1 => version = 2")?;
    check_rows(&rt, &TimesRows, rows.as_str())
}

/// How many shards the settings of a file spread accounts over, and the session limit of the first account.
struct DefaultRows;

impl Subject for DefaultRows {
    fn found(&self, alloc: Global, fields: &[&str]) -> Result<String, Fail> {
        let text = file_of(alloc, fields)?;
        match read_config(alloc, &dictionary(alloc)?, text.as_bytes()) {
            Ok(config) => defaults(alloc, &config),
            Err(fault) => shown(alloc, &fault),
        }
    }
}

fn defaults(alloc: Global, config: &Config) -> Result<String, Fail> {
    let _accounts = config.accounts();
    let rules = &config.entry(0).rules;
    let places = (config.shards(), rules.places, rules.ports);
    let held = (rules.reserve, rules.live, rules.grace);
    printed(alloc, &(places, held, (rules.closed, rules.keep)))
}

/// In version 3 a file says neither shards nor times nor ports where those of the manual page
/// radlimit-accounts(5) serve. Versions 1 and 2 have no defaults.
#[test]
fn version_3_has_defaults(rt: HostRuntime) -> Result<(), Fail> {
    let rows = r#"
        all said | <3> | <16> | ((2, 1, 1), (60, 900, 900), (3600, 10))
        none | <3> | <16> | <head> | <ports> | ((1, 1, 1), (60, 900, 900), (3600, 15))
        no shards | <3> | <16> | shards = 2\n => | ((1, 1, 1), (60, 900, 900), (3600, 10))
        no reserve time | <3> | <16> | reserve_secs = 60\n => | ((2, 1, 1), (60, 900, 900), (3600, 10))
        no live time | <3> | <16> | live_secs = 900\n => | ((2, 1, 1), (60, 900, 900), (3600, 10))
        no grace time | <3> | <16> | grace_secs = 900\n => | ((2, 1, 1), (60, 900, 900), (3600, 10))
        no closed time | <3> | <16> | closed_secs = 3600\n => | ((2, 1, 1), (60, 900, 900), (3600, 10))
        no keep time | <3> | <16> | keep_secs = 10\n => | ((2, 1, 1), (60, 900, 900), (3600, 15))
        a reservation of 15 | <3> | <16> | <head> reserve_secs = 15\n | ((1, 1, 1), (15, 900, 900), (3600, 15))
        a shorter one | <3> | <16> | <head> reserve_secs = 14\n | ((1, 1, 1), (14, 900, 900), (3600, 14))
        the shortest | <3> | <16> | <head> reserve_secs = 1\n | ((1, 1, 1), (1, 900, 900), (3600, 1))
        a longer one | <3> | <16> | <head> reserve_secs = 600\n | ((1, 1, 1), (600, 900, 900), (3600, 15))
        a keep time over the default reservation | <3> | <16> | <head> keep_secs = 61\n | KeepTooLong
        one second less | <3> | <16> | <head> keep_secs = 60\n | ((1, 1, 1), (60, 900, 900), (3600, 60))
        other times than the defaults | <3> | <16> | <head> live_secs = 1\ngrace_secs = 2\nclosed_secs = 3\n | ((1, 1, 1), (60, 1, 2), (3, 15))
        other ports than the default | <3> | <16> | <head> | ports = 1 => ports = 2 | ((1, 1, 2), (60, 900, 900), (3600, 15))
        its own times | <3> | <16> | <head> | => live_secs = 5\n | ((1, 1, 1), (60, 5, 900), (3600, 15))
        wrong shards | <3> | <16> | <head> shards = 0\n | BadValue shards
        a wrong reservation | <3> | <16> | <head> reserve_secs = "60"\n | BadValue reserve_secs
        wrong ports | <3> | <16> | ports = 1 => ports = 17 | BadValue ports
        no places | <3> | <16> | places = 1\n => | Missing places
        no version | <16> | version = 1\n => | Missing version
        shards before the reservation | <3> | <16> | <head> reserve_secs = 0\nshards = 0\n | BadValue shards
        no shards in version 2 | <2> | shards = 2\n => | Missing shards
        no reserve time in version 2 | <2> | reserve_secs = 60\n => | Missing reserve_secs
        no live time in version 2 | <2> | live_secs = 900\n => | Missing live_secs
        no grace time in version 2 | <2> | grace_secs = 900\n => | Missing grace_secs
        no closed time in version 2 | <2> | closed_secs = 3600\n => | Missing closed_secs
        no keep time in version 2 | <2> | keep_secs = 10\n => | Missing keep_secs
        no ports in version 2 | <2> | ports = 1\n => | Missing ports
        no ports in version 1 | ports = 1\n => | Missing ports
    "#;
    let words =
        r#"<head> = shards = 2\nreserve_secs = 60\nlive_secs = 900\ngrace_secs = 900\nclosed_secs = 3600\nkeep_secs = 10\n =>
<ports> = ports = 1\n =>"#;
    let rows = replaced(rt.alloc(), rows, words)?;
    check_rows(
        &rt,
        &DefaultRows,
        strict(rt.alloc(), rows.as_str())?.as_str(),
    )
}

/// The seconds between the interim updates of the first account, the first account whose live time
/// is under two of its intervals, and how many there are.
struct IntervalRows;

impl Subject for IntervalRows {
    fn found(&self, alloc: Global, fields: &[&str]) -> Result<String, Fail> {
        let text = file_of(alloc, fields)?;
        match read_config(alloc, &dictionary(alloc)?, text.as_bytes()) {
            Ok(config) => intervals(alloc, &config),
            Err(fault) => shown(alloc, &fault),
        }
    }
}

fn intervals(alloc: Global, config: &Config) -> Result<String, Fail> {
    let _accounts = config.accounts();
    let interim = config.entry(0).interim;
    let short = (config.first_short_live(), config.short_lives());
    printed(alloc, &(interim, short))
}

/// In version 2 an account has its own `interim_secs`, else that of the head; version 1 does not
/// know the key.
#[test]
fn seconds_between_interim_updates_are_those_of_version_2(rt: HostRuntime) -> Result<(), Fail> {
    let rows = r#"
        none in version 1 | (None, (None, 0))
        in version 1 | <head> 600\n | => interim_secs = 600\n | (None, (None, 0))
        wrong in version 1 | <head> 59\n | => interim_secs = "x"\n | (None, (None, 0))
        none | <2> | (None, (None, 0))
        of the head, half of the live time | <2> | <head> 450\n | (Some(450), (None, 0))
        one second more | <2> | <head> 451\n | (Some(451), (Some(0), 1))
        the least | <2> | <head> 60\n | (Some(60), (None, 0))
        the most | <2> | <head> 86400\n | (Some(86400), (Some(0), 1))
        an account's own | <2> | => interim_secs = 60\n | (Some(60), (None, 0))
        its own and the head's | <2> | <head> 60\n | => interim_secs = 86400\n | (Some(86400), (Some(0), 1))
        the other way | <2> | <head> 86400\n | => interim_secs = 60\n | (Some(60), (None, 0))
        its own live time | <2> | <head> 600\n | => live_secs = 1200\n | (Some(600), (None, 0))
        a shorter one | <2> | <head> 450\n | => live_secs = 899\n | (Some(450), (Some(0), 1))
        the second account | <2> | <head> 600\n | => live_secs = 1200\n<second> | (Some(600), (Some(1), 1))
        both accounts | <2> | <head> 600\n | => <second> | (Some(600), (Some(0), 2))
        59 in the head | <2> | <head> 59\n | BadValue interim_secs
        86401 in the head | <2> | <head> 86401\n | BadValue interim_secs
        59 of an account | <2> | => interim_secs = 59\n | BadValue interim_secs
        86401 of an account | <2> | => interim_secs = 86401\n | BadValue interim_secs
        a text | <2> | <head> "600"\n | BadValue interim_secs
        true of an account | <2> | => interim_secs = true\n | BadValue interim_secs
        600.0 | <2> | <head> 600.0\n | BadValue interim_secs
        below 0 | <2> | => interim_secs = -600\n | BadValue interim_secs
        2^32 and 600 | <2> | <head> 4294967896\n | BadValue interim_secs
        after the keep time | <2> | keep_secs = 10\n => keep_secs = 0\ninterim_secs = 59\n | BadValue keep_secs
        before the clients | <2> | <head> 59\n | [[client]] => [[customer]] | BadValue interim_secs
        after the grace time | <2> | => interim_secs = 59\ngrace_secs = 0\n | BadValue grace_secs
        before a long keep time | <2> | keep_secs = 10\n => keep_secs = 61\n | => interim_secs = 59\n | BadValue interim_secs
        version 4 | version = 1 => version = 4 | <head> 59\n | BadValue version
    "#;
    let words = r#"<2> = version = 1 => version = 2
<head> = keep_secs = 10\n => keep_secs = 10\ninterim_secs =
<second> = \n[[account]]\nname = "b"\npassword = "p"\nplaces = 1\nports = 1\n"#;
    let rows = replaced(rt.alloc(), rows, words)?;
    check_rows(&rt, &IntervalRows, rows.as_str())
}

/// Whether the first client is trusted, whether the first account has a password, and the first account that
/// nobody can log in to.
struct TrustRows;

impl Subject for TrustRows {
    fn found(&self, alloc: Global, fields: &[&str]) -> Result<String, Fail> {
        let text = file_of(alloc, fields)?;
        let config = read_config(alloc, &dictionary(alloc)?, text.as_bytes())?;
        let _accounts = config.accounts();
        let has_password = config.entry(0).password.is_some();
        let first = config.first_without_login();
        printed(alloc, &(config.client_at(0).trusted, has_password, first))
    }
}

#[test]
fn account_without_a_password_wants_a_trusted_client(rt: HostRuntime) -> Result<(), Fail> {
    let rows = r#"
        neither | <3> | <16> | (false, true, None)
        a trusted client | <3> | <16> | <trusted> true\n | (true, true, None)
        in version 2 | <2> | <trusted> true\n | (false, true, None)
        one that is not | <3> | <16> | <trusted> false\n | (false, true, None)
        no password | <3> | <16> | <none> | (false, false, Some(0))
        and a trusted client | <3> | <16> | <trusted> true\n | <none> | (true, false, None)
        the second has none | <3> | <16> | => <second> | (false, true, Some(1))
        neither has one | <3> | <16> | <none> | => <second> | (false, false, Some(0))
    "#;
    let second = r"<second> = \n[[account]]\nname = 'b'\nplaces = 1\nports = 1\n";
    let rows = replaced(rt.alloc(), rows, second)?;
    check_rows(&rt, &TrustRows, strict(rt.alloc(), rows.as_str())?.as_str())
}

/// What the first client and the first account of a file have.
struct ContentRows;

impl Subject for ContentRows {
    fn found(&self, alloc: Global, fields: &[&str]) -> Result<String, Fail> {
        let text = file_of(alloc, fields)?;
        let config = read_config(alloc, &dictionary(alloc)?, text.as_bytes())?;
        contents(alloc, config.client_at(0), config.entry(0))
    }
}

fn contents(alloc: Global, client: &Client, nemo: &Entry) -> Result<String, Fail> {
    let secret = client.secret.expose();
    let password = nemo.password.as_ref().map(|password| password.expose());
    let password = password.ok_or("an account has a password")?;
    let client = (client.address, str::from_utf8(secret)?, client.signed);
    let texts = (nemo.name.as_str(), str::from_utf8(password)?);
    let attributes = (nemo.service_type, nemo.framed_protocol);
    let times = (nemo.session_timeout, nemo.idle_timeout);
    let mut text = String::new(alloc);
    push_value(&mut text, "(", &client, ", ")?;
    push_value(&mut text, "", &texts, ", ")?;
    push_value(&mut text, "", &attributes, ", ")?;
    push_value(&mut text, "", &times, ", ")?;
    push_rules(&mut text, &nemo.rules)?;
    text.push(')')?;
    Ok(text)
}

#[test]
fn the_sample_is_read(rt: HostRuntime) -> Result<(), Fail> {
    let rows = "
        signed | 5461\"\\n => 5461\"\\nsigned = true\\n | \
          (([192, 168, 1, 16], \"xyzzy5461\", true), (\"nemo\", \"arctangent\"), \
          (Some(2), Some(1)), (Some(3600), Some(600)), Rules { places: 1, ports: 1, \
          reserve: 60, live: 900, grace: 900, closed: 3600, keep: 10 })
        not signed | \
          (([192, 168, 1, 16], \"xyzzy5461\", false), (\"nemo\", \"arctangent\"), \
          (Some(2), Some(1)), (Some(3600), Some(600)), Rules { places: 1, ports: 1, \
          reserve: 60, live: 900, grace: 900, closed: 3600, keep: 10 })
    ";
    check_rows(&rt, &ContentRows, rows)
}
