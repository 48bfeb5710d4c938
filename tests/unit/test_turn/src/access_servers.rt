//! What is shown of access servers.
//!
//! A row has links, `CLIENT KIND NAME HELD TOUCHED` each: the client's number; `id`, `ip` or `none`; the
//! octets of the name, or `-`; `r` for a reserved link or `b` for a bound one; and when it was touched. It
//! tells how many access servers there are, and of each its client, its name, how many links are
//! reserved, how many are bound, and the last touch.

use rld_look::{
    AccessServerLook, AccessServersLook, MOST_SERVERS, add_links, join_servers, write_nas_word,
};
use rsl_account_file::read_config;
use rsl_event::{Nas, NasName};
use rsl_reply::Dictionary;
use rsl_session::{SavedHolder, SavedLink};
use rsl_wire::Octets;
use std::alloc::Global;
use std::test::Fail;
use test_rows::{Subject, check_rows, number, octets_of, short_number};

/// The client number 0 has the greater address.
const ACCOUNTS: &str = "\
version = 1
shards = 1
reserve_secs = 60
live_secs = 900
grace_secs = 900
closed_secs = 3600
keep_secs = 10
client = [{ address = \"192.0.2.10\", secret = \"s\" }, { address = \"192.0.2.9\", secret = \"t\" }]
account = [{ name = \"nemo\", password = \"p\", places = 1, ports = 1 }]
";

/// What the links of a row are.
#[derive(Clone, Copy)]
struct Joined;

impl Subject for Joined {
    fn found(&self, alloc: Global, fields: &[&str]) -> Result<String, Fail> {
        let config = read_config(alloc, &Dictionary::new(alloc), ACCOUNTS.as_bytes())?;
        let mut servers = Vec::new(alloc);
        for field in fields {
            let links = links_of(alloc, field)?;
            add_links(alloc, &mut servers, &config, links.as_slice())?;
        }
        let look = AccessServersLook::of(alloc, servers)?;
        told(alloc, &look)
    }
}

/// The links of all fields, of which those of each field were joined before.
#[derive(Clone, Copy)]
struct Twice;

impl Subject for Twice {
    fn found(&self, alloc: Global, fields: &[&str]) -> Result<String, Fail> {
        let config = read_config(alloc, &Dictionary::new(alloc), ACCOUNTS.as_bytes())?;
        let mut servers = Vec::new(alloc);
        for field in fields {
            let links = links_of(alloc, field)?;
            add_links(alloc, &mut servers, &config, links.as_slice())?;
            servers = join_servers(alloc, servers)?;
        }
        let look = AccessServersLook::of(alloc, servers)?;
        told(alloc, &look)
    }
}

/// The links that words write.
fn links_of(alloc: Global, words: &str) -> Result<Vec<SavedLink>, Fail> {
    let mut links = Vec::new(alloc);
    for link in words.split(';') {
        let mut words = link.split_ascii_whitespace();
        let Some(client) = words.next() else {
            continue;
        };
        let kind = words.next().unwrap_or("");
        let name = octets_of(alloc, words.next().unwrap_or(""))?;
        let name = Octets::from_slice(alloc, name.as_slice())?;
        let holder = match words.next().unwrap_or("") {
            "r" => SavedHolder::Reserved(7),
            _ => SavedHolder::Bound(Octets::from_slice(alloc, b"s1")?),
        };
        let name = match kind {
            "id" => NasName::Identifier(name),
            "ip" => NasName::Address(name),
            _ => NasName::Unnamed,
        };
        links.push(SavedLink {
            nas: Nas {
                client: short_number(client)?,
                name,
            },
            holder,
            bundle: None,
            station: None,
            opened: 0,
            touched: number(words.next().unwrap_or(""))?,
        })?;
    }
    Ok(links)
}

/// What is shown, in words.
fn told(alloc: Global, look: &AccessServersLook) -> Result<String, Fail> {
    let mut text = String::new(alloc);
    let number = look.number;
    write!(text, "{number}")?;
    for server in look.first.as_slice() {
        push_server(alloc, &mut text, server)?;
    }
    Ok(text)
}

/// An access server, in words.
fn push_server(alloc: Global, text: &mut String, server: &AccessServerLook) -> Result<(), Fail> {
    let [_, _, _, client] = server.client;
    let mut name = Vec::new(alloc);
    write_nas_word(&mut name, &server.nas)?;
    let name = String::from_utf8(name)?;
    let (reserved, bound, last) = (server.reserved, server.bound, server.last);
    write!(text, "; .{client} {name} {reserved} {bound} {last}")?;
    Ok(())
}

/// Links of one field or of several.
const JOINED: &str = "
no link | | 0
one that is reserved | 0 id 61 r 5 | 1; .10 nas=a 1 0 5
one that is bound | 0 id 61 b 5 | 1; .10 nas=a 0 1 5
the last touch is the latest, where it comes first | 0 id 61 b 9; 0 id 61 b 5 | 1; .10 nas=a 0 2 9
and where it comes last | 0 id 61 b 5; 0 id 61 b 9 | 1; .10 nas=a 0 2 9
and between | 0 id 61 b 5; 0 id 61 r 9; 0 id 61 b 7 | 1; .10 nas=a 1 2 9
at 0 and at the end of time | 0 id 61 b 0; 0 id 61 b 18446744073709551615 | 1; .10 nas=a 0 2 18446744073709551615
two clients, by their addresses | 0 id 61 b 5; 1 id 61 b 6 | 2; .9 nas=a 0 1 6; .10 nas=a 0 1 5
a client that is not known | 2 id 61 b 5; 1 id 61 b 6 | 1; .9 nas=a 0 1 6
each kind of names | 0 none 00*0 b 1; 0 ip 61 b 2; 0 id 61 b 3 | 3; .10 nas=a 0 1 3; .10 nas-address=61 0 1 2; .10 unnamed 0 1 1
names by their octets | 0 id 62 b 1; 0 id 6161 b 2; 0 id 61 b 3; 0 id 00*0 b 4 \
    | 4; .10 nas= 0 1 4; .10 nas=a 0 1 3; .10 nas=aa 0 1 2; .10 nas=b 0 1 1
an access server whose links are apart | 0 id 61 b 1; 1 id 61 b 2; 0 id 62 r 3; 0 id 61 r 4 \
    | 3; .9 nas=a 0 1 2; .10 nas=a 1 1 4; .10 nas=b 1 0 3
octets that a line has no room for | 0 id 20220a b 1 | 1; .10 nas=\\x20\\x22\\x0a 0 1 1
an address | 0 ip c0000207 b 1 | 1; .10 nas-address=c0000207 0 1 1
";

/// Links of two accounts.
const TWICE: &str = "
of one access server | 0 id 61 b 9; 0 id 61 b 5 | 0 id 61 r 7 | 1; .10 nas=a 1 2 9
of several | 0 id 61 b 1; 1 id 61 b 2 | 1 id 61 b 1; 0 id 62 r 3; 0 id 61 b 3 \
    | 3; .9 nas=a 0 2 2; .10 nas=a 0 2 3; .10 nas=b 1 0 3
none in the second | 0 id 61 b 1 | | 1; .10 nas=a 0 1 1
";

#[test]
fn links_of_an_access_server_are_one_row(rt: HostRuntime) -> Result<(), Fail> {
    check_rows(&rt, &Joined, JOINED)
}

#[test]
fn joined_rows_are_joined_with_others(rt: HostRuntime) -> Result<(), Fail> {
    check_rows(&rt, &Twice, TWICE)
}

/// Many access servers, or one with as many links.
fn many(alloc: Global, distinct: u32) -> Result<AccessServersLook, Fail> {
    let mut servers = Vec::new(alloc);
    for link in 0..16_384u32 {
        let name = (link.wrapping_mul(40_503) % 65_536 % distinct).to_be_bytes();
        servers.push(AccessServerLook {
            client: [192, 0, 2, 9],
            nas: NasName::Identifier(Octets::from_slice(alloc, &name)?),
            reserved: 0,
            bound: 1,
            last: u64::from(link),
        })?;
    }
    Ok(AccessServersLook::of(alloc, servers)?)
}

#[test]
fn the_first_of_many_are_shown(rt: HostRuntime) -> Result<(), Fail> {
    let one = many(rt.alloc(), 1)?;
    let [server] = one.first.as_slice() else {
        return Err("not one")?;
    };
    if one.number != 1 || server.bound != 16_384 || server.last != 16_383 {
        return Err("other links of one")?;
    }
    let all = many(rt.alloc(), 65_536)?;
    if all.number != 16_384 || all.first.len() != MOST_SERVERS {
        return Err("other numbers")?;
    }
    Ok(())
}
