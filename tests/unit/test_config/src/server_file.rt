//! What a server's file says, and its faults.

use rld_config::{ServerFault, ServerFile};
use rsl_accounts::Text;
use std::alloc::Global;
use std::test::Fail;
use test_rows::{Plain, Subject, check_rows, printed, shown};

/// The text of these lines.
pub(crate) fn text_of(alloc: Global, lines: &[&str]) -> Result<String, Fail> {
    let mut text = String::new(alloc);
    for line in lines {
        text.push_str(line)?;
        text.push('\n')?;
    }
    Ok(text)
}

/// What these lines say.
pub(crate) fn read(alloc: Global, lines: &[&str]) -> Result<ServerFile, Fail> {
    let text = text_of(alloc, lines)?;
    match ServerFile::read(alloc, text.as_bytes()) {
        Ok(file) => Ok(file),
        Err(_) => Err("the file is refused")?,
    }
}

/// What comes of a file: `Ok`, or what its fault prints.
struct Faults;

impl Subject for Faults {
    fn found(&self, alloc: Global, fields: &[&str]) -> Result<String, Fail> {
        let text = text_of(alloc, fields)?;
        match ServerFile::read(alloc, text.as_bytes()) {
            Ok(_) => shown(alloc, &"Ok"),
            Err(fault) => shown(alloc, &fault),
        }
    }
}

#[test]
fn the_first_fault_of_the_head_is_named(rt: HostRuntime) -> Result<(), Fail> {
    let rows = r#"
        the shortest | accounts = "a" | state = "s" | Ok
        nothing | Missing accounts
        no TOML | = | NotToml
        no state | accounts = "a" | Missing state
        another name | acounts = "a" | state = "s" | Unknown "acounts"
        two of them, by their octets | zone = 1 | accounts = 1 | level = 1 | Unknown "level"
        a name with a line feed | "a\nb" = 1 | Unknown "a\nb"
        a number for a path | accounts = 1 | state = "s" | BadValue accounts
        an empty path | accounts = "a" | state = "" | BadValue state
        a path with a zero octet | accounts = "a\u0000" | state = "s" | BadValue accounts
        a word for what must exist | accounts = "a" | state = "s" | state_must_exist = "true" | BadValue state_must_exist
        it before a policy | accounts = "a" | state = "s" | sync = "often" | state_must_exist = 1 | BadValue state_must_exist
        it after a path | accounts = "a" | state = 1 | state_must_exist = 1 | BadValue state
        what must exist of a listen | accounts = "a" | state = "s" | [[listen]] | state_must_exist = true | Unknown listen 1 "state_must_exist"
        another policy | accounts = "a" | state = "s" | sync = "often" | BadValue sync
        true for a policy | accounts = "a" | state = "s" | sync = true | BadValue sync
        another word | accounts = "a" | state = "s" | archive = "week" | BadValue archive
        no day | accounts = "a" | state = "s" | archive = 0 | BadValue archive
        a hundred years | accounts = "a" | state = "s" | archive = 36500 | Ok
        a day more | accounts = "a" | state = "s" | archive = 36501 | BadValue archive
        a day below 0 | accounts = "a" | state = "s" | archive = -1 | BadValue archive
        days in a text | accounts = "a" | state = "s" | archive = "7" | BadValue archive
        no megabyte | accounts = "a" | state = "s" | archive_megabytes = 0 | BadValue archive_megabytes
        65,536 megabytes | accounts = "a" | state = "s" | archive_megabytes = 65536 | BadValue archive_megabytes
        megabytes in a text | accounts = "a" | state = "s" | archive_megabytes = "9" | BadValue archive_megabytes
        the archive before its megabytes | accounts = "a" | state = "s" | archive_megabytes = 0 | archive = 0 | BadValue archive
        the policy before both | accounts = "a" | state = "s" | archive_megabytes = 0 | archive = 0 | sync = 1 | BadValue sync
        megabytes of a listen | accounts = "a" | state = "s" | [[listen]] | archive_megabytes = 9 | Unknown listen 1 "archive_megabytes"
        the first of two | accounts = 1 | state = 2 | BadValue accounts
        a key before a policy | sync = "often" | accounts = "a" | Missing state
    "#;
    check_rows(&rt, &Faults, rows)?;
    match ServerFile::read(rt.alloc(), b"\xff") {
        Err(ServerFault::NotToml) => Ok(()),
        _ => Err("no UTF-8")?,
    }
}

#[test]
fn the_first_fault_of_the_tables_is_named(rt: HostRuntime) -> Result<(), Fail> {
    let rows = r#"
        a table | accounts = "a" | state = "s" | [listen] | BadValue listen
        an empty list | accounts = "a" | state = "s" | listen = [] | BadValue listen
        a number | accounts = "a" | state = "s" | listen = [1] | BadValue listen
        an empty table | accounts = "a" | state = "s" | [[listen]] | Ok
        another name | accounts = "a" | state = "s" | [[listen]] | port = 1 | Unknown listen 1 "port"
        no address | accounts = "a" | state = "s" | [[listen]] | address = "[::1]" | BadValue listen 1 address
        an IPv6 address | accounts = "a" | state = "s" | [[listen]] | address = "::1" | Ok
        no flag | accounts = "a" | state = "s" | [[listen]] | status_server = 1 | BadValue listen 1 status_server
        a network as a table | accounts = "a" | state = "s" | [network] | BadValue network
        no network | accounts = "a" | state = "s" | network = [] | BadValue network
        no prefix | accounts = "a" | state = "s" | [[network]] | client = "192.0.2.1" | Missing network 1 prefix
        no client | accounts = "a" | state = "s" | [[network]] | prefix = "::/0" | Missing network 1 client
        another name | accounts = "a" | state = "s" | [[network]] | address = "::/0" | Unknown network 1 "address"
        no prefix by its text | accounts = "a" | state = "s" | [[network]] | prefix = "::" | BadValue network 1 prefix
        an IPv6 client | accounts = "a" | state = "s" | [[network]] | prefix = "::/0" | client = "::1" | BadValue network 1 client
        a second | accounts = "a" | state = "s" | [[network]] | prefix = "::/0" | client = "192.0.2.1" | [[network]] | prefix = 1 | BadValue network 2 prefix
        port 0 | accounts = "a" | state = "s" | [[listen]] | auth = 0 | BadValue listen 1 auth
        port 65535 | accounts = "a" | state = "s" | [[listen]] | acct = 65535 | Ok
        port 65536 | accounts = "a" | state = "s" | [[listen]] | acct = 65536 | BadValue listen 1 acct
        no receiver | accounts = "a" | state = "s" | [[listen]] | receivers = 0 | BadValue listen 1 receivers
        16 receivers | accounts = "a" | state = "s" | [[listen]] | receivers = 16 | Ok
        17 | accounts = "a" | state = "s" | [[listen]] | receivers = 17 | BadValue listen 1 receivers
        a second | accounts = "a" | state = "s" | [[listen]] | [[listen]] | auth = "1" | BadValue listen 2 auth
        a number for the control | accounts = "a" | state = "s" | control = 1 | BadValue control
        nothing of the control | accounts = "a" | state = "s" | [control] | Ok
        a mode of everybody | accounts = "a" | state = "s" | [control] | mode = 0o666 | Ok
        a mode by its digits | accounts = "a" | state = "s" | [control] | mode = 660 | BadValue control mode
        a mode for reading alone | accounts = "a" | state = "s" | [control] | mode = 0o640 | BadValue control mode
        a mode as a text | accounts = "a" | state = "s" | [control] | mode = "0660" | BadValue control mode
        a group's number | accounts = "a" | state = "s" | [control] | group = 27 | BadValue control group
        no group's name | accounts = "a" | state = "s" | [control] | group = "" | BadValue control group
        a group of 32 octets | accounts = "a" | state = "s" | [control] | group = "abcdefghijklmnopqrstuvwxyz012345" | Ok
        a group of 33 octets | accounts = "a" | state = "s" | [control] | group = "abcdefghijklmnopqrstuvwxyz0123456" | BadValue control group
        the socket before the mode | accounts = "a" | state = "s" | [control] | mode = 1 | socket = 1 | BadValue control socket
        the mode before the group | accounts = "a" | state = "s" | [control] | group = 1 | mode = 1 | BadValue control mode
        another name | accounts = "a" | state = "s" | [control] | path = "c" | Unknown control "path"
        an empty socket | accounts = "a" | state = "s" | [control] | socket = "" | BadValue control socket
        two pages | accounts = "a" | state = "s" | [[web]] | BadValue web
        no port | accounts = "a" | state = "s" | [web] | Missing web port
        another name | accounts = "a" | state = "s" | [web] | host = "a" | Unknown web "host"
        no address | accounts = "a" | state = "s" | [web] | address = "a" | BadValue web address
        asks in a list | accounts = "a" | state = "s" | [[ask]] | BadValue ask
        asks without a port | accounts = "a" | state = "s" | [ask] | Missing ask port
        without a token | accounts = "a" | state = "s" | [ask] | port = 1 | client = "192.0.2.1" | Missing ask token_file
        without a client | accounts = "a" | state = "s" | [ask] | port = 1 | token_file = "t" | Missing ask client
        with all of it | accounts = "a" | state = "s" | [ask] | port = 1 | token_file = "t" | client = "192.0.2.1" | Ok
        another name | accounts = "a" | state = "s" | [ask] | token = "t" | Unknown ask "token"
        an address of IPv6 | accounts = "a" | state = "s" | [ask] | address = "::1" | BadValue ask address
        an empty token | accounts = "a" | state = "s" | [ask] | port = 1 | token_file = "" | BadValue ask token_file
        a client by its name | accounts = "a" | state = "s" | [ask] | port = 1 | token_file = "t" | client = "a" | BadValue ask client
        the page before asks | accounts = "a" | state = "s" | [ask] | [web] | Missing web port
        asks before trust | accounts = "a" | state = "s" | [trust] | a = 1 | [ask] | Missing ask port
        a page at port 0 | accounts = "a" | state = "s" | [web] | port = 0 | BadValue web port
        a listen before the rest | accounts = "a" | state = "s" | [web] | [control] | [[listen]] | auth = 0 | BadValue listen 1 auth
        a listen before a network | accounts = "a" | state = "s" | [[network]] | [[listen]] | auth = 0 | BadValue listen 1 auth
        a network before the control | accounts = "a" | state = "s" | [control] | [[network]] | Missing network 1 prefix
        the control before the page | accounts = "a" | state = "s" | [web] | [control] | mode = 0 | BadValue control mode
    "#;
    check_rows(&rt, &Faults, rows)
}

#[test]
fn no_two_sockets_have_one_port(rt: HostRuntime) -> Result<(), Fail> {
    let rows = r#"
        one port for both | accounts = "a" | state = "s" | [[listen]] | auth = 1813 | TakenPort listen 1 acct
        two of the same | accounts = "a" | state = "s" | [[listen]] | [[listen]] | TakenPort listen 2 auth
        another's port | accounts = "a" | state = "s" | [[listen]] | [[listen]] | auth = 1814 | TakenPort listen 2 acct
        ports of their own | accounts = "a" | state = "s" | [[listen]] | [[listen]] | auth = 1814 | acct = 1815 | Ok
        two addresses | accounts = "a" | state = "s" | [[listen]] | address = "127.0.0.1" | [[listen]] | address = "127.0.0.2" | Ok
        one of all | accounts = "a" | state = "s" | [[listen]] | address = "127.0.0.1" | [[listen]] | TakenPort listen 2 auth
        all of them, then one | accounts = "a" | state = "s" | [[listen]] | [[listen]] | address = "127.0.0.1" | TakenPort listen 2 auth
        all of both kinds | accounts = "a" | state = "s" | [[listen]] | address = "::" | [[listen]] | TakenPort listen 2 auth
        IPv4, and all of both | accounts = "a" | state = "s" | [[listen]] | address = "127.0.0.1" | [[listen]] | address = "::" | TakenPort listen 2 auth
        one of each kind | accounts = "a" | state = "s" | [[listen]] | address = "127.0.0.1" | [[listen]] | address = "::1" | Ok
        all of IPv4, and one of IPv6 | accounts = "a" | state = "s" | [[listen]] | [[listen]] | address = "::1" | Ok
        an IPv4 address in IPv6 | accounts = "a" | state = "s" | [[listen]] | address = "127.0.0.1" | [[listen]] | address = "::ffff:127.0.0.1" | TakenPort listen 2 auth
        a value before them | accounts = "a" | state = "s" | [[listen]] | [[listen]] | [[listen]] | auth = 0 | BadValue listen 3 auth
        them before the page | accounts = "a" | state = "s" | [[listen]] | [[listen]] | [web] | TakenPort listen 2 auth
        the page's own port | accounts = "a" | state = "s" | [web] | port = 1812 | Ok
    "#;
    check_rows(&rt, &Faults, rows)
}

/// What the head of a file says.
struct Heads;

impl Subject for Heads {
    fn found(&self, alloc: Global, fields: &[&str]) -> Result<String, Fail> {
        let file = read(alloc, fields)?;
        let (accounts, state) = (Plain(file.accounts.as_str()), Plain(file.state.as_str()));
        printed(
            alloc,
            &(
                accounts,
                state,
                file.sync,
                file.archive,
                file.archive_megabytes,
            ),
        )
    }
}

#[test]
fn a_head_says_what_stands_in_it(rt: HostRuntime) -> Result<(), Fail> {
    let rows = r#"
        the shortest | accounts = "a" | state = "s" | (a, s, Always, Days(7), Some(2000))
        each answer | accounts = "/a/b" | state = "../s" | sync = "always" | (/a/b, ../s, Always, Days(7), Some(2000))
        each second | accounts = "a" | state = "s" | sync = "second" | (a, s, Second, Days(7), Some(2000))
        never | accounts = "a" | state = "s" | sync = "never" | (a, s, Never, Days(7), Some(2000))
        for ever | accounts = "a" | state = "s" | archive = "keep" | (a, s, Always, Keep, None)
        no archive | accounts = "a" | state = "s" | archive = "none" | (a, s, Always, Nothing, Some(2000))
        a month | accounts = "a" | state = "s" | archive = 30 | (a, s, Always, Days(30), Some(2000))
        a week of at most 1 MB | accounts = "a" | state = "s" | archive_megabytes = 1 | (a, s, Always, Days(7), Some(1))
        at most 65,535 MB | accounts = "a" | state = "s" | archive = "keep" | archive_megabytes = 65535 | (a, s, Always, Keep, Some(65535))
    "#;
    check_rows(&rt, &Heads, rows)
}

/// What a file says of a start that finds no history.
struct Beginnings;

impl Subject for Beginnings {
    fn found(&self, alloc: Global, fields: &[&str]) -> Result<String, Fail> {
        printed(alloc, &read(alloc, fields)?.new_history)
    }
}

#[test]
fn a_file_says_whether_a_history_begins(rt: HostRuntime) -> Result<(), Fail> {
    let rows = "
        nothing said | accounts = 'a' | state = 's' | Begins
        one must exist | accounts = 'a' | state = 's' | state_must_exist = true | Refused
        none need exist | accounts = 'a' | state = 's' | state_must_exist = false | Begins
    ";
    check_rows(&rt, &Beginnings, rows)
}

/// What the tables of a file say: where it listens, its control's socket, its page.
struct Tables;

impl Subject for Tables {
    fn found(&self, alloc: Global, fields: &[&str]) -> Result<String, Fail> {
        let file = read(alloc, fields)?;
        let socket = text_or(&file.control.path, "no socket");
        printed(alloc, &(file.listens.as_slice(), Plain(socket), file.web))
    }
}

/// A text, or what stands for none.
fn text_or<'a>(text: &'a Option<Text>, none: &'a str) -> &'a str {
    match text {
        Some(text) => text.as_str(),
        None => none,
    }
}

/// What the table `control` says of who may ask.
struct Askers;

impl Subject for Askers {
    fn found(&self, alloc: Global, fields: &[&str]) -> Result<String, Fail> {
        let control = read(alloc, fields)?.control;
        let group = text_or(&control.group, "no group");
        printed(alloc, &(control.mode, Plain(group)))
    }
}

#[test]
fn a_control_says_who_may_ask(rt: HostRuntime) -> Result<(), Fail> {
    let rows = "
        none | accounts = 'a' | state = 's' | (384, no group)
        an empty one | accounts = 'a' | state = 's' | [control] | (384, no group)
        a group | accounts = 'a' | state = 's' | [control] | group = 'adm' | mode = 0o660 | (432, adm)
        everybody | accounts = 'a' | state = 's' | [control] | mode = 0o666 | (438, no group)
    ";
    check_rows(&rt, &Askers, rows)
}

#[test]
fn tables_say_what_stands_in_them(rt: HostRuntime) -> Result<(), Fail> {
    let rows = "
        none | accounts = 'a' | state = 's' | \
          ([Listen { address: 0.0.0.0, auth: 1812, acct: 1813, receivers: 1, status_server: false }], no socket, None)
        an empty one | accounts = 'a' | state = 's' | [[listen]] | \
          ([Listen { address: 0.0.0.0, auth: 1812, acct: 1813, receivers: 1, status_server: false }], no socket, None)
        all | accounts = 'a' | state = 's' | [[listen]] | address = '192.0.2.10' | auth = 1645 | acct = 1646 | \
          receivers = 2 | status_server = true | [[listen]] | address = '192.0.2.11' | [control] | socket = '/run/c' | [web] | \
          address = '192.0.2.1' | port = 8612 | \
          ([Listen { address: 192.0.2.10, auth: 1645, acct: 1646, receivers: 2, status_server: true }, \
          Listen { address: 192.0.2.11, auth: 1812, acct: 1813, receivers: 1, status_server: false }], /run/c, \
          Some(Web { address: [192, 0, 2, 1], port: 8612 }))
        a page of the machine itself | listen = [{ auth = 1 }] | accounts = 'a' | state = 's' | [web] | port = 80 | \
          ([Listen { address: 0.0.0.0, auth: 1, acct: 1813, receivers: 1, status_server: false }], no socket, \
          Some(Web { address: [127, 0, 0, 1], port: 80 }))
    ";
    check_rows(&rt, &Tables, rows)
}

#[test]
fn no_two_networks_have_one_prefix(rt: HostRuntime) -> Result<(), Fail> {
    let rows = r#"
        two prefixes | accounts = "a" | state = "s" | [[network]] | prefix = "10.0.0.0/8" | client = "192.0.2.1" | [[network]] | prefix = "10.0.0.0/9" | client = "192.0.2.1" | Ok
        one twice | accounts = "a" | state = "s" | [[network]] | prefix = "2001:db8::/32" | client = "192.0.2.1" | [[network]] | prefix = "2001:0DB8::0/32" | client = "192.0.2.2" | TakenPrefix network 2 prefix
        all of each kind | accounts = "a" | state = "s" | [[network]] | prefix = "0.0.0.0/0" | client = "192.0.2.1" | [[network]] | prefix = "::/0" | client = "192.0.2.1" | Ok
        a value before them | accounts = "a" | state = "s" | [[network]] | prefix = "::/0" | client = "192.0.2.1" | [[network]] | prefix = "::/0" | client = "192.0.2.1" | [[network]] | client = "192.0.2.1" | Missing network 3 prefix
    "#;
    check_rows(&rt, &Faults, rows)
}

/// Which networks a file says.
struct Networks;

impl Subject for Networks {
    fn found(&self, alloc: Global, fields: &[&str]) -> Result<String, Fail> {
        printed(alloc, &read(alloc, fields)?.networks.as_slice())
    }
}

#[test]
fn networks_say_which_addresses_stand_for_which_client(rt: HostRuntime) -> Result<(), Fail> {
    let rows = "
        none | accounts = 'a' | state = 's' | []
        two | accounts = 'a' | state = 's' | [[network]] | prefix = '2001:db8:7::/64' | client = '10.255.0.7' | \
          [[network]] | client = '10.255.0.8' | prefix = '192.0.2.0/24' | \
          [Network { prefix: Prefix { address: 2001:db8:7::, len: 64 }, client: [10, 255, 0, 7] }, \
          Network { prefix: Prefix { address: 192.0.2.0, len: 24 }, client: [10, 255, 0, 8] }]
    ";
    check_rows(&rt, &Networks, rows)
}
