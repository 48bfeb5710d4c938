//! What is said of server's files.

use crate::texts::{edited, names, told};
use rld_config::{
    ServerFault, ServerFile, asker_fault, shadowed_client, unknown_client, unsigned_client,
};
use rld_faults::{fault_of_key, misfits, server_faults};
use rsl_account_file::read_config;
use rsl_accounts::Config;
use std::alloc::Global;
use std::test::Fail;
use test_rows::{Subject, check_rows, shown};

/// A right file, of two lines.
const SAMPLE: &str = "accounts = \"a\"\nstate = \"s\"\n";

/// A right file with each key.
const WHOLE: &str = r#"accounts = "a"
state = "s"
state_must_exist = true
sync = "never"
archive = 36500
archive_megabytes = 65535
[[listen]]
address = "::1"
auth = 65535
acct = 1
receivers = 16
status_server = true
[[network]]
prefix = "2001:db8::/32"
client = "192.0.2.1"
[control]
socket = "c"
mode = 0o660
group = "g"
[web]
address = "127.0.0.1"
port = 8612
[ask]
address = "127.0.0.1"
port = 8613
token_file = "t"
client = "192.0.2.1"
[trust]
readable_accounts = true
"#;

/// What comes of a file: `Ok`, or what is said of it.
struct Said;

impl Subject for Said {
    fn found(&self, alloc: Global, fields: &[&str]) -> Result<String, Fail> {
        let text = edited(alloc, SAMPLE, fields)?;
        match ServerFile::read(alloc, text.as_bytes()) {
            Ok(_) => shown(alloc, &"Ok"),
            Err(fault) => told(alloc, &server_faults(alloc, text.as_bytes(), &fault)?),
        }
    }
}

#[test]
fn a_fault_is_a_sentence_with_its_line(rt: HostRuntime) -> Result<(), Fail> {
    let rows = r#"
        the sample | Ok
        nothing | x = 1 | : accounts is missing / : state is missing / :1: unknown key "x"
        no TOML | state = => state = = | :2:9: no TOML: invalid value, expected a string, number, boolean, date-time, array or inline table
        an empty path | "s" => "" | :2: state is ""; it is a text of 1 to 4095 octets without NUL
        a misspelled key | => snyc = 1\n | :3: unknown key "snyc"
        another policy | => sync = "no"\n | :3: sync is "no"; it is "always", "second" or "never"
        another archive | => archive = 0\n | :3: archive is 0; it is 1 to 36500, "keep" or "none"
        no megabyte | => archive_megabytes = 0\n | :3: archive_megabytes is 0; it is 1 to 65535
        a name for an address | => [[listen]]\naddress = "localhost"\n | :4: address of listen 1 is "localhost"; it is an IPv4 or IPv6 address
        port 0 | => [[listen]]\nauth = 0\n | :4: auth of listen 1 is 0; it is 1 to 65535
        a port twice | => [[listen]]\n[[listen]]\nacct = 1\n | :4: auth of listen 2 is 1812, which auth of listen 1 has there
        at one address | => [[listen]]\n[[listen]]\naddress = "127.0.0.1"\nauth = 1813\n | :4: acct of listen 2 is 1813, which acct of listen 1 has there / :6: auth of listen 2 is 1813, which acct of listen 1 has there
        one port for both | => listen = [{ auth = 7, acct = 7 }]\n | :3: acct of listen 1 is 7, which auth of listen 1 has there
        17 receivers | => [[listen]]\nreceivers = 17\n | :4: receivers of listen 1 is 17; it is 1 to 16
        a prefix twice | => <n>\n[[network]]\nclient = "192.0.2.1"\nprefix = "2001:db8::/32"\n | :8: second network "2001:db8::/32"; the first is at line 5
        no prefix | => [[network]]\nprefix = "2001::"\nclient = "::1"\n | :4: prefix of network 1 is "2001::"; it is a prefix, as "2001:db8::/32" / :5: client of network 1 is "::1"; it is an IPv4 address, as "192.0.2.1"
        a mode | => [control]\nmode = 640\n | :4: mode of control is 640; it is 0o600, 0o660 or 0o666
        a group | => [control]\ngroup = ""\n | :4: group of control is ""; it is a text of 1 to 32 octets without NUL
        no port | => [web]\n | :3: port of web is missing
        asks | => [ask]\n | :3: port of ask is missing / :3: token_file of ask is missing / :3: client of ask is missing
        trust | => [trust]\nreadable_accounts = 1\n | :4: readable_accounts of trust is 1; it is true or false
        a list for a table | => [[web]]\n | :3: web is a list; it is a table
    "#;
    let rows = test_rows::replaced(
        rt.alloc(),
        rows,
        r#"<n> = [[network]]\nclient = "192.0.2.1"\nprefix = "2001:db8::/32""#,
    )?;
    check_rows(&rt, &Said, rows.as_str())
}

/// What is said of the file with each key, where its reader would have refused it.
struct OfWhole;

impl Subject for OfWhole {
    fn found(&self, alloc: Global, fields: &[&str]) -> Result<String, Fail> {
        let text = edited(alloc, WHOLE, fields)?;
        match ServerFile::read(alloc, text.as_bytes()) {
            Ok(_) => {}
            Err(fault) => return shown(alloc, &fault),
        }
        let faults = server_faults(alloc, text.as_bytes(), &ServerFault::NotToml)?;
        told(alloc, &faults)
    }
}

/// Nothing is found wrong with a right file: then the reader's own fault is told.
#[test]
fn nothing_is_wrong_with_a_right_file(rt: HostRuntime) -> Result<(), Fail> {
    let rows = r#"
        each key | : NotToml
        words | archive = 36500 => archive = "keep" | "never" => "second" | 0o660 => 0o600 | : NotToml
        the least | archive = 36500 => archive = 1 | = 65535 => = 1 | acct = 1\n => acct = 2\n | receivers = 16 => receivers = 1 | : NotToml
        two addresses | [[network]] => [[listen]]\naddress = "127.0.0.1"\n[[network]] | : NotToml
    "#;
    check_rows(&rt, &OfWhole, rows)
}

/// What of a server's file does not fit an account file with a client that signs, 192.0.2.1, and one that need
/// not, 192.0.2.2.
struct Misfits;

impl Subject for Misfits {
    fn found(&self, alloc: Global, fields: &[&str]) -> Result<String, Fail> {
        let accounts = r#"version = 3
client = [
  { address = "192.0.2.1", secret = "a secret of 25 characters" },
  { address = "192.0.2.2", secret = "a secret of 25 characters", signed = false },
]
account = [{ name = "a", places = 1 }]
"#;
        let config = read_config(alloc, &names(alloc)?, accounts.as_bytes())?;
        let text = edited(alloc, SAMPLE, fields)?;
        match ServerFile::read(alloc, text.as_bytes()) {
            Ok(server) => misfit(alloc, text.as_str(), &server, &config),
            Err(fault) => shown(alloc, &fault),
        }
    }
}

fn misfit(alloc: Global, text: &str, server: &ServerFile, config: &Config) -> Result<String, Fail> {
    let networks = server.networks.as_slice();
    let fault = unknown_client(networks, config)
        .or(unsigned_client(networks, config))
        .or(shadowed_client(networks, config))
        .or(asker_fault(&server.ask, config));
    match fault {
        Some(fault) => told(
            alloc,
            &misfits(alloc, text.as_bytes(), server, config, &fault)?,
        ),
        None => shown(alloc, &"Ok"),
    }
}

#[test]
fn what_does_not_fit_is_told(rt: HostRuntime) -> Result<(), Fail> {
    let rows = r#"
        nothing | Ok
        a network | => [[network]]\nprefix = "2001:db8::/32"\nclient = "192.0.2.1"\n | Ok
        of no client | => [[network]]\nprefix = "2001:db8::/32"\nclient = "192.0.2.9"\n | :5: client of network 1 is 192.0.2.9; the account file does not have it
        of one that need not sign | => [[network]]\nprefix = "2001:db8::/32"\nclient = "192.0.2.2"\n | :5: client of network 1 is 192.0.2.2; it need not sign
        both | => [[network]]\nprefix = "2001:db8::/32"\nclient = "192.0.2.2"\n[[network]]\nprefix = "::/0"\nclient = "192.0.2.9"\n | :5: client of network 1 is 192.0.2.2; it need not sign / :8: client of network 2 is 192.0.2.9; the account file does not have it
        another client's address | => [[network]]\nprefix = "192.0.2.0/24"\nclient = "192.0.2.1"\n | :3: a network takes client 192.0.2.2 of the account file for client 192.0.2.1
        asks of no client | => [ask]\nport = 1\ntoken_file = "t"\nclient = "192.0.2.9"\n | :6: client of ask is 192.0.2.9; the account file does not have it
        of one that is not trusted | => [ask]\nport = 1\ntoken_file = "t"\nclient = "192.0.2.1"\n | :6: client of ask is 192.0.2.1; it is not trusted
    "#;
    check_rows(&rt, &Misfits, rows)
}

#[test]
fn fault_of_one_key_has_its_line(rt: HostRuntime) -> Result<(), Fail> {
    let faults = fault_of_key(
        rt.alloc(),
        WHOLE.as_bytes(),
        "control",
        "group",
        "is \"g\"; the system has no such group",
    )?;
    let found = told(rt.alloc(), &faults)?;
    assert_eq!(rt;
        found.as_str(),
        ":19: group of control is \"g\"; the system has no such group",
        "the fault"
    );
    Ok(())
}
