//! What an operator learns of an account file that is right. The fields of a row are its lines
//! after those of the head.

use crate::server_file::text_of;
use rld_config::{
    AskSettings, asker_fault, passed_over, shadowed_client, unknown_client, unsigned_client,
    warnings,
};
use rld_networks::{Network, prefix_of};
use rsl_account_file::read_config;
use rsl_accounts::Text;
use rsl_reply::Dictionary;
use std::alloc::Global;
use std::test::Fail;
use test_rows::{Subject, check_rows, printed, shown};

const HEAD: &str = "
version = 1
shards = 1
reserve_secs = 60
live_secs = 900
grace_secs = 900
closed_secs = 3600
keep_secs = 10
";

/// What an operator learns of a file with a mode.
struct Warned {
    mode: u32,
}

impl Subject for Warned {
    fn found(&self, alloc: Global, fields: &[&str]) -> Result<String, Fail> {
        let lines = text_of(alloc, fields)?;
        let text = format!(in alloc; "{HEAD}{lines}")?;
        let Ok(config) = read_config(alloc, &Dictionary::new(alloc), text.as_bytes()) else {
            return Err("the account file is refused")?;
        };
        printed(alloc, &warnings(alloc, &config, &[], self.mode)?.as_slice())
    }
}

#[test]
fn an_operator_is_told_what_to_know_of_an_account_file(rt: HostRuntime) -> Result<(), Fail> {
    let rows = "
        a client that signs, with a secret of 16 | [[client]] | address = '192.0.2.1' | secret = '0123456789abcdef' | signed = true | \
          [[account]] | name = 'a' | password = 'p' | places = 1 | ports = 1 | [Memory(1)]
        one that need not | [[client]] | address = '192.0.2.1' | secret = '0123456789abcdef' | \
          [[account]] | name = 'a' | password = 'p' | places = 1 | ports = 1 | \
          [Unsigned(1, [192, 0, 2, 1]), Memory(1)]
        a secret of 15 | [[client]] | address = '192.0.2.1' | secret = '0123456789abcde' | signed = true | \
          [[account]] | name = 'a' | password = 'p' | places = 1 | ports = 1 | \
          [ShortSecrets(1, [192, 0, 2, 1]), Memory(1)]
        two clients | [[client]] | address = '192.0.2.1' | secret = 's' | [[client]] | address = '192.0.2.2' | secret = 's' | signed = true | \
          [[account]] | name = 'a' | password = 'p' | places = 1 | ports = 1 | \
          [Unsigned(1, [192, 0, 2, 1]), ShortSecrets(2, [192, 0, 2, 1]), Memory(1)]
    ";
    check_rows(&rt, &Warned { mode: 0o100640 }, rows)
}

#[test]
fn an_operator_is_told_that_everybody_can_read_the_file(rt: HostRuntime) -> Result<(), Fail> {
    let rows = "
        six accounts of the most | [[client]] | address = '192.0.2.1' | secret = '0123456789abcdef' | signed = true | \
          [[account]] | name = 'a' | password = 'p' | places = 64 | ports = 16 | \
          [[account]] | name = 'b' | password = 'p' | places = 64 | ports = 16 | \
          [[account]] | name = 'c' | password = 'p' | places = 64 | ports = 16 | \
          [[account]] | name = 'd' | password = 'p' | places = 64 | ports = 16 | \
          [[account]] | name = 'e' | password = 'p' | places = 64 | ports = 16 | \
          [[account]] | name = 'f' | password = 'p' | places = 64 | ports = 16 | \
          [OthersRead, Memory(2)]
    ";
    check_rows(&rt, &Warned { mode: 0o100604 }, rows)
}

/// What an operator learns of a file with a mode, and with a number of shards.
struct Sharded {
    mode: u32,
}

impl Subject for Sharded {
    fn found(&self, alloc: Global, fields: &[&str]) -> Result<String, Fail> {
        let [shards] = fields else {
            return Err("not a number of shards")?;
        };
        let line = format!(in alloc; "shards = {shards}")?;
        let head = HEAD.replace(alloc, "shards = 1", line.as_str())?;
        let text = format!(in alloc; "{head}{ACCOUNTS}")?;
        let Ok(config) = read_config(alloc, &Dictionary::new(alloc), text.as_bytes()) else {
            return Err("the account file is refused")?;
        };
        printed(alloc, &warnings(alloc, &config, &[], self.mode)?.as_slice())
    }
}

#[test]
fn an_operator_is_told_of_shards(rt: HostRuntime) -> Result<(), Fail> {
    let rows = "
        one | 1 | [Memory(1)]
        two | 2 | [Shards(2), Memory(1)]
        four | 4 | [Shards(4), Memory(1)]
    ";
    check_rows(&rt, &Sharded { mode: 0o100640 }, rows)?;
    let rows = "
        one that everybody reads | 1 | [OthersRead, Memory(1)]
        two that everybody reads | 2 | [OthersRead, Shards(2), Memory(1)]
    ";
    check_rows(&rt, &Sharded { mode: 0o100604 }, rows)
}

/// Clients and accounts of an account file.
const ACCOUNTS: &str = "
[[client]]
address = '192.0.2.1'
secret = '0123456789abcdef'
signed = true
[[client]]
address = '192.0.2.9'
secret = '0123456789abcdef'
signed = true
[[account]]
name = 'a'
password = 'p'
places = 1
ports = 1
";

/// What an operator learns of two networks of a prefix for two clients, or the fault where a client is
/// missing or has its own address in a network of the other.
struct Networked;

impl Subject for Networked {
    fn found(&self, alloc: Global, fields: &[&str]) -> Result<String, Fail> {
        let [prefix, a, b] = fields else {
            return Err("not a prefix and the last numbers of two clients")?;
        };
        let text = format!(in alloc; "{HEAD}{ACCOUNTS}")?;
        let Ok(config) = read_config(alloc, &Dictionary::new(alloc), text.as_bytes()) else {
            return Err("the account file is refused")?;
        };
        let networks = [network(prefix, a)?, network(prefix, b)?];
        let fault = match unknown_client(&networks, &config) {
            Some(fault) => Some(fault),
            None => shadowed_client(&networks, &config),
        };
        match fault {
            Some(fault) => shown(alloc, &fault),
            None => printed(
                alloc,
                &warnings(alloc, &config, &networks, 0o100640)?.as_slice(),
            ),
        }
    }
}

/// The network of a prefix, for the client of this last number.
fn network(prefix: &str, client: &str) -> Result<Network, Fail> {
    match (prefix_of(prefix.as_bytes()), client.parse::<u8>()) {
        (Some(prefix), Ok(last)) => Ok(Network {
            prefix,
            client: [192, 0, 2, last],
        }),
        _ => Err("no network")?,
    }
}

#[test]
fn an_operator_is_told_of_networks(rt: HostRuntime) -> Result<(), Fail> {
    let rows = "
        two | 2001:db8::/32 | 1 | 1 | [Prefixed(Prefix { address: 2001:db8::, len: 32 }), \
          Prefixed(Prefix { address: 2001:db8::, len: 32 }), Memory(1)]
        a client that is missing | ::/0 | 2 | 3 | UnknownClient network 1 client
        a second that is missing | ::/0 | 1 | 3 | UnknownClient network 2 client
        the other one's address | 192.0.2.8/29 | 1 | 1 | ShadowedClient 192.0.2.9
        its own address | 192.0.2.8/29 | 9 | 9 | [Prefixed(Prefix { address: 192.0.2.8, len: 29 }), \
          Prefixed(Prefix { address: 192.0.2.8, len: 29 }), Memory(1)]
        both addresses | 192.0.2.0/28 | 1 | 1 | ShadowedClient 192.0.2.9
    ";
    check_rows(&rt, &Networked, rows)
}

/// The fault of two networks, the second of a client that may sign or not, by the version of the account
/// file.
struct Guarded;

impl Subject for Guarded {
    fn found(&self, alloc: Global, fields: &[&str]) -> Result<String, Fail> {
        let [version, signed] = fields else {
            return Err("not a version, and whether a client signs")?;
        };
        let times = HEAD.trim_start_matches("\nversion = 1\n");
        let second = format!(in alloc;
            "[[client]]\naddress = '192.0.2.3'\nsecret = '0123456789abcdef'\nsigned = {signed}\n"
        )?;
        let text = format!(in alloc; "version = {version}\n{times}{second}{ACCOUNTS}")?;
        let Ok(config) = read_config(alloc, &Dictionary::new(alloc), text.as_bytes()) else {
            return Err("the account file is refused")?;
        };
        let networks = [
            network("2001:db8:1::/48", "1")?,
            network("2001:db8:3::/48", "3")?,
        ];
        match unsigned_client(&networks, &config) {
            Some(fault) => shown(alloc, &fault),
            None => printed(alloc, &"none"),
        }
    }
}

#[test]
fn networks_of_version_3_stand_for_clients_that_sign(rt: HostRuntime) -> Result<(), Fail> {
    let rows = "
        version 3 | 3 | false | UnsignedClient network 2 client
        it signs | 3 | true | \"none\"
        version 2 | 2 | false | \"none\"
        version 1 | 1 | false | \"none\"
    ";
    check_rows(&rt, &Guarded, rows)
}

/// The fault of the client that asks count as from, whose last number the second field has, of a file whose one
/// client is 192.0.2.3 and is trusted or not.
struct Asking;

impl Subject for Asking {
    fn found(&self, alloc: Global, fields: &[&str]) -> Result<String, Fail> {
        let [trusted, last] = fields else {
            return Err("not whether a client is trusted, and a number")?;
        };
        let Ok(last) = last.parse::<u8>() else {
            return Err("no number")?;
        };
        let times = HEAD.trim_start_matches("\nversion = 1\n");
        let client = format!(in alloc;
            "[[client]]\naddress = '192.0.2.3'\nsecret = '0123456789abcdef'\ntrusted = {trusted}\n"
        )?;
        let account = "[[account]]\nname = 'a'\nplaces = 1\nports = 1\n";
        let text = format!(in alloc; "version = 3\n{times}{client}{account}")?;
        let Ok(config) = read_config(alloc, &Dictionary::new(alloc), text.as_bytes()) else {
            return Err("the account file is refused")?;
        };
        let ask = AskSettings {
            address: [127, 0, 0, 1],
            port: 8613,
            token_file: Text::from_str(alloc, "t")?,
            client: [192, 0, 2, last],
        };
        match asker_fault(&Some(ask), &config) {
            Some(fault) => shown(alloc, &fault),
            None => shown(alloc, &"none"),
        }
    }
}

#[test]
fn asks_count_as_from_a_trusted_client(rt: HostRuntime) -> Result<(), Fail> {
    let rows = "
        a trusted one | true | 3 | none
        one that is not | false | 3 | UntrustedClient ask client
        no client | true | 4 | UnknownClient ask client
    ";
    check_rows(&rt, &Asking, rows)
}

/// Clients that need not sign.
const UNSIGNED: &str = "
[[client]]
address = '192.0.2.3'
secret = '0123456789abcdef'
signed = false
[[client]]
address = '192.0.2.4'
secret = '0123456789abcdef'
signed = false
";

/// What an operator learns of clients that need not sign, one of which has a network, by the version of the
/// account file.
struct Advised;

impl Subject for Advised {
    fn found(&self, alloc: Global, fields: &[&str]) -> Result<String, Fail> {
        let [version] = fields else {
            return Err("not a version")?;
        };
        let times = HEAD.trim_start_matches("\nversion = 1\n");
        let text = format!(in alloc; "version = {version}\n{times}{UNSIGNED}{ACCOUNTS}")?;
        let Ok(config) = read_config(alloc, &Dictionary::new(alloc), text.as_bytes()) else {
            return Err("the account file is refused")?;
        };
        let networks = [
            network("2001:db8:1::/48", "1")?,
            network("2001:db8:4::/48", "4")?,
        ];
        printed(
            alloc,
            &warnings(alloc, &config, &networks, 0o100640)?.as_slice(),
        )
    }
}

#[test]
fn an_operator_is_told_what_version_3_would_do_better(rt: HostRuntime) -> Result<(), Fail> {
    let rows = "
        version 3 | 3 | [NotSigned([192, 0, 2, 3]), NotSigned([192, 0, 2, 4]), \
          Prefixed(Prefix { address: 2001:db8:1::, len: 48 }), Prefixed(Prefix { address: 2001:db8:4::, len: 48 }), Memory(1)]
        version 2 | 2 | [Unsigned(2, [192, 0, 2, 3]), UnsignedNetworks(1, Prefix { address: 2001:db8:4::, len: 48 }), \
          Prefixed(Prefix { address: 2001:db8:1::, len: 48 }), Prefixed(Prefix { address: 2001:db8:4::, len: 48 }), Memory(1)]
        version 1 | 1 | [Unsigned(2, [192, 0, 2, 3]), UnsignedNetworks(1, Prefix { address: 2001:db8:4::, len: 48 }), \
          Prefixed(Prefix { address: 2001:db8:1::, len: 48 }), Prefixed(Prefix { address: 2001:db8:4::, len: 48 }), Memory(1)]
    ";
    check_rows(&rt, &Advised, rows)
}

/// The first key of a text that is passed over.
struct Passed;

impl Subject for Passed {
    fn found(&self, alloc: Global, fields: &[&str]) -> Result<String, Fail> {
        let text = text_of(alloc, fields)?;
        match passed_over(alloc, text.as_bytes())? {
            Some(key) => shown(alloc, &key),
            None => shown(alloc, &"none"),
        }
    }
}

#[test]
fn an_operator_is_told_the_first_key_that_is_passed_over(rt: HostRuntime) -> Result<(), Fail> {
    let rows = "
        none | shards = 1 | [[client]] | secret = 's' | [[account]] | ports = 1 | none
        of the head | client = 1 | account = 2 | vershion = 2 | clients = 1 | \"clients\"
        the head before tables | shard = 1 | [[client]] | sigend = true | \"shard\"
        of the second client | [[client]] | signed = true | [[client]] | sigend = true | sign = 1 | [[account]] | x = 1 | \
          client \"sigend\"
        of an account | [[client]] | [[account]] | secret = 's' | account \"secret\"
        what version 3 alone follows | [[account]] | name = 'a' | disabled = false | account \"disabled\"
        stations and delays, by the alphabet | shards = 1 | station = true | delay_time = true | \"delay_time\"
        stations of all accounts | shards = 1 | station = true | [[account]] | name = 'a' | \"station\"
        stations of an account | [[account]] | name = 'a' | station = true | account \"station\"
        delays | delay_time = true | [[account]] | name = 'a' | \"delay_time\"
        a port for Disconnect-Requests | [[client]] | secret = 's' | disconnect = { port = 3799, x = 1 } | \
          client \"disconnect\"
        disabled stands elsewhere | [[client]] | disabled = true | client \"disabled\"
        clients that are no tables | client = [1, 2] | account = {} | none
        no TOML | = | none
    ";
    check_rows(&rt, &Passed, rows)
}
