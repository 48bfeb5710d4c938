//! What is said of account files.

use crate::texts::{edited, names, told};
use rld_faults::account_faults;
use rsl_account_file::read_config;
use rsl_accounts::ConfigFault;
use std::alloc::Global;
use std::test::Fail;
use test_rows::{Subject, check_rows, replaced, shown};

/// A right file, of eight lines.
const SAMPLE: &str = r#"version = 3
[[client]]
address = "192.0.2.1"
secret = "a secret of 25 characters"
[[account]]
name = "dora"
password = "arctangent"
places = 1
"#;

/// A right file with each key.
const WHOLE: &str = r#"version = 3
shards = 4
reserve_secs = 86400
live_secs = 86400
grace_secs = 86400
closed_secs = 86400
keep_secs = 86400
interim_secs = 86400
station = true
delay_time = true
port_limit = true
[profile.gold]
reply = ['Filter-Id = "gold"']
[[client]]
address = "192.0.2.1"
secret = "a secret of 25 characters"
signed = true
trusted = true
disconnect = { port = 65535 }
[[account]]
name = "dora"
password = "arctangent"
places = 64
ports = 16
service_type = 4294967295
framed_protocol = 4294967295
session_timeout = 4294967295
idle_timeout = 4294967295
live_secs = 1
grace_secs = 1
interim_secs = 60
station = false
disabled = true
port_limit = false
profile = "gold"
reply = ['Reply-Message = "x"']
"#;

/// What comes of a file: `Ok`, or what is said of it.
struct Said;

impl Subject for Said {
    fn found(&self, alloc: Global, fields: &[&str]) -> Result<String, Fail> {
        said(alloc, SAMPLE, fields)
    }
}

fn said(alloc: Global, sample: &str, fields: &[&str]) -> Result<String, Fail> {
    let text = edited(alloc, sample, fields)?;
    match read_config(alloc, &names(alloc)?, text.as_bytes()) {
        Ok(_) => shown(alloc, &"Ok"),
        Err(fault) => told(
            alloc,
            &account_faults(alloc, &names(alloc)?, text.as_bytes(), &fault)?,
        ),
    }
}

#[test]
fn a_fault_is_a_sentence_with_its_line(rt: HostRuntime) -> Result<(), Fail> {
    let rows = r#"
        the sample | Ok
        no version | version = 3\n => | : version is missing
        version 4 | version = 3 => version = 4\nx = 1 | :1: version is 4; it is 1 to 3
        no TOML | places = 1 => places = = 1 | :8:10: no TOML: invalid value, expected a string, number, boolean, date-time, array or inline table
        65 places | places = 1 => places = 65 | :8: places of account dora is 65; it is 0 to 64
        below 0 | places = 1 => places = -1 | :8: places of account dora is -1; it is 0 to 64
        a text | places = 1 => places = "1" | :8: places of account dora is "1"; it is 0 to 64
        a fraction | places = 1 => places = 1.0 | :8: places of account dora is a number with a fraction; it is 0 to 64
        a list | places = 1 => places = [\n1] | :8: places of account dora is a list; it is 0 to 64
        a date | places = 1 => places = 2026-11-30 | :8: places of account dora is a date or a time; it is 0 to 64
        no places | places = 1\n => | :5: places of account dora is missing
        no name | name = "dora"\n => | :5: name of account number 1 is missing
        a name with a blank | "dora" => "do ra" | :6: name of account number 1 is "do ra"; it is 1 to 64 visible characters of ASCII
        an empty password | arctangent => | :7: password of account dora has 0 octets; 1 to 128
        a number for it | "arctangent" => 1 | :7: password of account dora is no text, but of the type integer
        a password of 129 octets | arctangent => <129> | :7: password of account dora has 129 octets; 1 to 128
        one with an octet 0 | arctangent => a\u0000 | :7: password of account dora has the octet 0; it has none
        a short secret | a secret of 25 characters => short | :4: secret of client 192.0.2.1 has 5 octets; 16 or more
        no secret | secret = "a secret of 25 characters"\n => | :2: secret of client 192.0.2.1 is missing
        a wrong address | 192.0.2.1 => 192.0.2.256 | :3: address of client number 1 is "192.0.2.256"; it is an IPv4 address, as "192.0.2.1"
        a misspelled key | password = => pasword = | :7: unknown key "pasword" of account dora
        one of the head | version = 3 => version = 3\nshard = 2 | :2: unknown key "shard"
        one of a client | secret = => sigend = true\nsecret = | :4: unknown key "sigend" of client 192.0.2.1
        a table | => [web]\n | :9: unknown key "web"
        ports | => ports = 17\n | :9: ports of account dora is 17; it is 1 to 16
        a flag | => disabled = 1\n | :9: disabled of account dora is 1; it is true or false
        no client | [[client]] => [[account]] | : client is missing / :2: name of account number 1 is missing / :2: places of account number 1 is missing / :3: unknown key "address" of account number 1 / :4: unknown key "secret" of account number 1
        a table of clients | [[client]] => [client] | :2: client is a table; it is 1 to 256 tables
        a second account | => [[account]]\nname = "dora"\nplaces = 2\n | :10: second account "dora"; the first is at line 6
        a third | => <b>[[account]]\nname = "dora"\nplaces = 2\n | :13: second account "dora"; the first is at line 6
        a second client | [[account]] => [[client]]\naddress = "192.0.2.1"\nsecret = "another secret of 25"\n[[account]] | :6: second client "192.0.2.1"; the first is at line 3
        keep over reserve | version = 3 => version = 3\nkeep_secs = 61\nreserve_secs = 60 | :2: keep_secs is 61; it is at most reserve_secs, 60
        over the default | version = 3 => version = 3\nkeep_secs = 61 | :2: keep_secs is 61; it is at most reserve_secs, 60
        trusted, unsigned | secret = => trusted = true\nsigned = false\nsecret = | :4: trusted of client 192.0.2.1 is true, but signed is false; a trusted client signs
        a port 0 | secret = => disconnect = { port = 0 }\nsecret = | :4: port of disconnect of client 192.0.2.1 is 0; it is 1 to 65535
        as a table | [[account]] => [client.disconnect]\nport = 0\n[[account]] | :6: port of disconnect of client 192.0.2.1 is 0; it is 1 to 65535
        an unknown profile | => profile = "gold"\n | :9: unknown profile "gold" of account dora
        a wrong attribute | => reply = [\n'Filter-Id = "x"',\n'Fitler-Id = "x"',\n1]\n | :11: reply 2 of account dora: unknown name / :12: reply 3 of account dora: no text
        of a profile | => [profile.gold]\nreply = ['x']\n | :10: reply 1 of profile "gold": no NAME = VALUE
        too many octets | => reply = [\n<6>]\n | :9: reply of account dora with its profile has over 1,000 octets
        those of its profile | => profile = "gold"\n[profile.gold]\nreply = [<6>]\n | :5: reply of account dora with its profile has over 1,000 octets
        a profile without one | => [profile.gold]\n | :9: reply of profile "gold" is missing
        two faults | places = 1 => places = 65 | arctangent => | :7: password of account dora has 0 octets; 1 to 128 / :8: places of account dora is 65; it is 0 to 64
    "#;
    let words = r#"<6> = <m>, <m>, <m>, <m>, <m>, <m>
<m> = 'Reply-Message = "<64><64><64>"'
<b> = [[account]]\nname = "b"\nplaces = 2\n
<129> = <64><64>1
<64> = 1234567890123456789012345678901234567890123456789012345678901234"#;
    check_rows(&rt, &Said, replaced(rt.alloc(), rows, words)?.as_str())
}

/// What comes of a file of version 2.
struct SaidOf2;

impl Subject for SaidOf2 {
    fn found(&self, alloc: Global, fields: &[&str]) -> Result<String, Fail> {
        let sample = SAMPLE.replace(
            alloc,
            "version = 3\n",
            "version = 2\nshards = 2\nreserve_secs = 60\nlive_secs = 900\ngrace_secs = 900\nclosed_secs = 3600\nkeep_secs = 10\n",
        )?;
        said(alloc, sample.as_str(), fields)
    }
}

#[test]
fn version_2_is_judged_by_its_own_rules(rt: HostRuntime) -> Result<(), Fail> {
    let rows = r#"
        no ports | :11: ports of account dora is missing
        ports | => ports = 1\n | Ok
        no shards | => ports = 1\n | shards = 2\n => | : shards is missing
        no password | => ports = 1\n | password = "arctangent"\n => | :11: password of account dora is missing
        a short secret | => ports = 1\n | a secret of 25 characters => short | Ok
        own times | => ports = 1\nlive_secs = 0\n | :16: live_secs of account dora is 0; it is 1 to 86400
        a key of version 3 | => ports = 1\ndisabled = 1\nreply = 1\n | Ok
    "#;
    check_rows(&rt, &SaidOf2, rows)
}

/// What is said of the file with each key, where its reader would have refused it.
struct OfWhole;

impl Subject for OfWhole {
    fn found(&self, alloc: Global, fields: &[&str]) -> Result<String, Fail> {
        let text = edited(alloc, WHOLE, fields)?;
        match read_config(alloc, &names(alloc)?, text.as_bytes()) {
            Ok(_) => {}
            Err(fault) => return shown(alloc, &fault),
        }
        let faults = account_faults(
            alloc,
            &names(alloc)?,
            text.as_bytes(),
            &ConfigFault::NotToml,
        )?;
        told(alloc, &faults)
    }
}

/// Nothing is found wrong with a right file, at both ends of each range: then the reader's own fault is told.
#[test]
fn nothing_is_wrong_with_a_right_file(rt: HostRuntime) -> Result<(), Fail> {
    let rows = r#"
        each key | : NotToml
        the other flags | station = true => station = false | signed = true => signed = true | disabled = true => disabled = false | : NotToml
        the least | = 86400 => = 1 | interim_secs = 1 => interim_secs = 60 | shards = 4 => shards = 1 | places = 64 => places = 0 | ports = 16 => ports = 1 | = 4294967295 => = 1 | port = 65535 => port = 1 | : NotToml
        a client that does not sign | trusted = true => trusted = false | signed = true => signed = false | : NotToml
    "#;
    check_rows(&rt, &OfWhole, rows)
}

#[test]
fn twenty_faults_are_told(rt: HostRuntime) -> Result<(), Fail> {
    let alloc = rt.alloc();
    let mut text = String::from_str(alloc, SAMPLE)?;
    for number in 0..30u32 {
        let account = format!(in alloc; "[[account]]\nname = \"a{number}\"\nplaces = 65\n")?;
        text.push_str(account.as_str())?;
    }
    match read_config(alloc, &names(alloc)?, text.as_bytes()) {
        Ok(_) => return Err("a file that is taken")?,
        Err(fault) => {
            let faults = account_faults(alloc, &names(alloc)?, text.as_bytes(), &fault)?;
            assert_eq!(rt; faults.told.len(), 20, "told");
            assert_eq!(rt; faults.more, 10, "more");
            let last = told(alloc, &faults)?;
            assert!(rt;
                last.as_str().ends_with(
                    ":68: places of account a19 is 65; it is 0 to 64 and 10 more"
                ),
                "the last"
            );
        }
    }
    Ok(())
}
