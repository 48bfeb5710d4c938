//! What an accept of an account carries: the lists of its profile and its own in an account file, and their
//! faults. The octets are by hand.

use crate::server_file::text_of;
use rsl_account_file::read_config;
use rsl_dictionary::dictionary;
use std::alloc::Global;
use std::test::Fail;
use test_rows::{Hex, Subject, check_rows, printed, shown};

const HEAD: &str = "
version = 3
shards = 1
reserve_secs = 60
live_secs = 900
grace_secs = 900
closed_secs = 3600
keep_secs = 10
";

const TAIL: &str = "
[[client]]
address = '192.0.2.1'
secret = '0123456789abcdef'
[[account]]
name = 'a'
password = 'p'
places = 1
ports = 1
";

/// The octets of the account's attributes: the fields are the list of the profile `one`, and lines of the
/// account. Or the fault of the file.
struct Replies;

impl Subject for Replies {
    fn found(&self, alloc: Global, fields: &[&str]) -> Result<String, Fail> {
        let [list, lines @ ..] = fields else {
            return Err("a row has a list")?;
        };
        let lines = text_of(alloc, lines)?;
        let text = format!(in alloc; "{HEAD}[profile.one]\nreply = [{list}]\n{TAIL}{lines}")?;
        match read_config(alloc, &dictionary(alloc)?, text.as_bytes()) {
            Ok(config) => {
                let (front, own) = config.entry(0).reply.parts();
                let mut octets = Vec::from_slice(alloc, front)?;
                octets.extend_from_slice(own)?;
                printed(alloc, &Hex(&octets))
            }
            Err(fault) => shown(alloc, &fault),
        }
    }
}

#[test]
fn own_attribute_takes_the_place_of_its_profiles(rt: HostRuntime) -> Result<(), Fail> {
    let rows = "
        no profile | | reply = ['Filter-Id = b'] | 0b0362
        all of a profile | 'Filter-Id = a', 'Session-Timeout = 1' | profile = 'one' | 0b03611b0600000001
        and one more | 'Filter-Id = a' | profile = 'one' | reply = ['Session-Timeout = 1'] | 0b03611b0600000001
        one of the same name | 'Filter-Id = a', 'Session-Timeout = 1' | profile = 'one' | reply = ['Filter-Id = b'] | \
          1b06000000010b0362
        one in its place that comes last | 'Session-Timeout = 1', 'Filter-Id = a' | profile = 'one' | reply = ['Filter-Id = b'] | \
          1b06000000010b0362
        one that is added | 'Filter-Id = a' | profile = 'one' | reply = ['Filter-Id += b'] | 0b03610b0362
        a plus without a blank | 'Filter-Id = a' | profile = 'one' | reply = ['Filter-Id+=b'] | 0b03610b0362
        one in place and one added | 'Filter-Id = a' | profile = 'one' | reply = ['Filter-Id = b', 'Filter-Id += c'] | \
          0b03620b0363
        one added and one in place | 'Filter-Id = a' | profile = 'one' | reply = ['Filter-Id += b', 'Filter-Id = c'] | \
          0b03620b0363
        two in place of two | 'Filter-Id = a', 'Filter-Id = b' | profile = 'one' | reply = ['Filter-Id = c', 'Filter-Id = d'] | \
          0b03630b0364
        the same name twice in a profile | 'Filter-Id = a', 'Filter-Id = b' | profile = 'one' | 0b03610b0362
        a plus in a profile | 'Filter-Id += a' | profile = 'one' | 0b0361
        the name in other letters | 'Filter-Id = a' | profile = 'one' | reply = ['FILTER-ID = b'] | 0b0362
        the same by its number | 'Filter-Id = a' | profile = 'one' | reply = ['Attr-11 = 0x62'] | 0b0362
        a vendor's | 'Cisco-AVPair = a', 'Cisco-In-ACL = a' | profile = 'one' | reply = ['Attr-26.9.1 = 0x62'] | \
          1a09000000093903611a0900000009010362
        another vendor's of that Type | 'Cisco-AVPair = a' | profile = 'one' | reply = ['Mikrotik-Recv-Limit = 1'] | \
          1a09000000090103611a0c00003a8c010600000001
        another tag | 'Tunnel-Type:1 = VLAN' | profile = 'one' | reply = ['Tunnel-Type:2 = VLAN'] | \
          40060100000d40060200000d
        the same tag | 'Tunnel-Type:1 = VLAN' | profile = 'one' | reply = ['Tunnel-Type:1 = L2TP'] | 400601000003
    ";
    check_rows(&rt, &Replies, rows)
}

#[test]
fn wrong_list_has_the_first_fault(rt: HostRuntime) -> Result<(), Fail> {
    let rows = "
        in the profile | 'Filter-Name = a' | profile = 'one' | BadReply profile \"one\" 1: unknown name
        in the account's list | 'Filter-Id = a' | reply = ['Filter-Id = a', 'Attr-26 = 0x00000009'] | \
          BadReply account \"a\" 2: value too short
        an unknown profile and a wrong list | | profile = 'two' | reply = ['Filter-Name = a'] | UnknownProfile \"a\"
        a wrong `port_limit` and an unknown profile | | profile = 'two' | port_limit = 1 | BadValue port_limit
        a wrong `disabled` and a wrong `port_limit` | | disabled = 1 | port_limit = 1 | BadValue disabled
        a list that is none | | reply = 'Filter-Id = a' | BadValue reply
    ";
    check_rows(&rt, &Replies, rows)
}
