//! Hostile datagrams: what comes of every prefix of a packet, of a packet with an octet changed to each
//! of 256 values, of attributes that are empty, long or cut, and of as many as fit. A program in Python
//! worked out what is expected, over the tables of docs/PROTOCOL.md.

use super::{BOOT, CLIENT, FILE, SIGNED, check_spelled, port_of};
use rsl_account_file::read_config;
use rsl_accounts::Config;
use rsl_event::{Meaning, Port, Source, prepare};
use rsl_reply::Dictionary;
use std::alloc::Global;
use std::test::Fail;
use test_rows::{Plain, Subject, front, octets_of, push_printed, shown};

/// The word for what a datagram means, or for why it is dropped.
fn kind_of(
    alloc: Global,
    config: &Config,
    port: Port,
    source: Source,
    datagram: &[u8],
) -> &'static str {
    match prepare(alloc, config, BOOT, port, source, datagram) {
        Ok(prepared) => word_of(&prepared.meaning),
        Err(dropped) => dropped.name(),
    }
}

/// The word for a meaning.
fn word_of(meaning: &Meaning) -> &'static str {
    match meaning {
        Meaning::Bare => "Bare",
        Meaning::Reject => "Reject",
        Meaning::Own { .. } => "Own",
        Meaning::Restart { .. } => "Restart",
        Meaning::Stray(_) => "Stray",
    }
}

/// A port and a datagram of the first client: its kind.
#[derive(Drop)]
struct Kinds {
    config: Config,
}

impl Subject for Kinds {
    fn found(&self, alloc: Global, fields: &[&str]) -> Result<String, Fail> {
        let [port, datagram] = fields else {
            return Err("a row has a port and a datagram")?;
        };
        let datagram = octets_of(alloc, datagram)?;
        let kind = kind_of(alloc, &self.config, port_of(port)?, CLIENT, &datagram);
        shown(alloc, &kind)
    }
}

/// How many datagrams are of a kind.
#[derive(Clone, Copy)]
struct Count {
    kind: &'static str,
    number: u64,
}

/// Counts a datagram more of a kind.
fn note_kind(counts: &mut Vec<Count>, kind: &'static str) -> Result<(), Fail> {
    for one in counts.iter_mut() {
        if one.kind == kind {
            one.number = one.number.saturating_add(1);
            return Ok(());
        }
    }
    counts.push(Count { kind, number: 1 })?;
    Ok(())
}

/// The kinds, each with how many datagrams are of it.
fn counts_text(alloc: Global, counts: &[Count]) -> Result<String, Fail> {
    let mut text = String::new(alloc);
    for one in counts {
        push_printed(&mut text, &Plain(one.kind))?;
        push_printed(&mut text, &one.number)?;
    }
    Ok(text)
}

/// Whether a client has to sign, a port and a packet: the kinds of all its prefixes.
#[derive(Drop)]
struct Prefixes {
    config: Config,
}

impl Subject for Prefixes {
    fn found(&self, alloc: Global, fields: &[&str]) -> Result<String, Fail> {
        let [client, port, packet] = fields else {
            return Err("a row has a client, a port and a packet")?;
        };
        let packet = octets_of(alloc, packet)?;
        kinds_of_prefixes(
            alloc,
            &self.config,
            port_of(port)?,
            source_of(client),
            &packet,
        )
    }
}

fn kinds_of_prefixes(
    alloc: Global,
    config: &Config,
    port: Port,
    source: Source,
    packet: &[u8],
) -> Result<String, Fail> {
    let mut counts = Vec::new(alloc);
    for len in 0..=packet.len() {
        let kind = kind_of(alloc, config, port, source, front(packet, len));
        note_kind(&mut counts, kind)?;
    }
    counts_text(alloc, &counts)
}

/// The same: the kinds of what the packet is with each octet in turn changed to each of 256 values.
#[derive(Drop)]
struct Changes {
    config: Config,
}

impl Subject for Changes {
    fn found(&self, alloc: Global, fields: &[&str]) -> Result<String, Fail> {
        let [client, port, packet] = fields else {
            return Err("a row has a client, a port and a packet")?;
        };
        let mut packet = octets_of(alloc, packet)?;
        kinds_of_changes(
            alloc,
            &self.config,
            port_of(port)?,
            source_of(client),
            &mut packet,
        )
    }
}

fn kinds_of_changes(
    alloc: Global,
    config: &Config,
    port: Port,
    source: Source,
    packet: &mut [u8],
) -> Result<String, Fail> {
    let mut counts = Vec::new(alloc);
    for at in 0..packet.len() {
        let right = packet[at];
        for value in 0..=255u8 {
            packet[at] = value;
            let kind = kind_of(alloc, config, port, source, packet);
            note_kind(&mut counts, kind)?;
        }
        packet[at] = right;
    }
    counts_text(alloc, &counts)
}

/// Where the datagrams come from of the client that has to sign, or of the first.
fn source_of(client: &str) -> Source {
    if client == "signed" { SIGNED } else { CLIENT }
}

#[test]
fn every_prefix_of_a_packet_is_dropped(rt: HostRuntime) -> Result<(), Fail> {
    let config = read_config(rt.alloc(), &Dictionary::new(rt.alloc()), FILE.as_bytes())?;
    let rows = "
        the RFC's request | plain | auth | <rfc> | Short 20 BadLength 36 Own 1
        with CHAP | plain | auth | 0100002d0f403f9473978057bd83d5cb98f4227a0313073f25c9ea76486dbb\
          6e08f6da1baf940b01066e656d6f | Short 20 BadLength 25 Own 1
        with a CHAP-Challenge | plain | auth | 010000380f403f9473978057bd83d5cb98f4227a01066e656d\
          6f03130746c00f99865014f26df7168dc66444033c0b6368616c6c656e6765 | Short 20 BadLength 36 \
          Own 1
        signed | signed | auth | 0100004a0f403f9473978057bd83d5cb98f4227a50128f16b45f90d3494989a4\
          f14f4421c61801066e656d6f02120dbe708d93d413ce3196e43f782a0aee0406c0a80110050600000003 | \
          Short 20 BadLength 54 Own 1
        a Start | plain | acct | 04000027d16ec3e2c1cc1cd9b6803bd0e9a1099f28060000000120036e01066e\
          656d6f2c047331 | Short 20 BadLength 19 Own 1
        an Interim-Update | plain | acct | 040000278ad775659b68d7f636bd815f06d3b4fb2c04733101066e\
          656d6f20036e280600000003 | Short 20 BadLength 19 Own 1
        a Stop | plain | acct | 04000027274623da252c107a5cac2503f6557f5728060000000220036e01066e6\
          56d6f2c047331 | Short 20 BadLength 19 Own 1
        an Accounting-On | plain | acct | \
          0400001d52e8592f94d3ebe088794fd4f6c2a0c028060000000720036e | Short 20 BadLength 9 \
          Restart 1
        a stray | plain | acct | 040000288ba1a3a9916f12c12dd209a62f5a615428060000000120036e010767\
          686f73742c047331 | Short 20 BadLength 20 Stray 1
        a Start with a bundle and a class | plain | acct | 0400003cf96891fcc68449155031a14581e948\
          6f28060000000120036e01066e656d6f2c04733132036d191200000000000000010000000000000005 | \
          Short 20 BadLength 40 Own 1
    ";
    check_spelled(&rt, &Prefixes { config }, rows)
}

// An Accounting-Request is dropped where an octet is another. An Access-Request whose client does not
// sign is not: it has the same meaning where the octet says nothing of whose it is.
#[test]
fn every_changed_packet_is_dropped_or_has_a_meaning(rt: HostRuntime) -> Result<(), Fail> {
    let config = read_config(rt.alloc(), &Dictionary::new(rt.alloc()), FILE.as_bytes())?;
    let rows = "
        the RFC's request | plain | auth | <rfc> | WrongCode 255 Own 2856 BadLength 474 Reject \
          9701 Bare 1046 BadSignature 4
        a Start | plain | acct | 04000027d16ec3e2c1cc1cd9b6803bd0e9a1099f28060000000120036e01066e\
          656d6f2c047331 | WrongCode 255 Own 39 BadAuthenticator 9199 BadLength 491
    ";
    check_spelled(&rt, &Changes { config }, rows)
}

/// Whether other packets are changed, too.
const OTHER_PACKETS: bool = true; // quick: false

#[test]
fn so_is_every_other_changed_packet(rt: HostRuntime) -> Result<(), Fail> {
    if !OTHER_PACKETS {
        return Ok(());
    }
    let config = read_config(rt.alloc(), &Dictionary::new(rt.alloc()), FILE.as_bytes())?;
    let rows = "
        with CHAP | plain | auth | 0100002d0f403f9473978057bd83d5cb98f4227a0313073f25c9ea76486dbb\
          6e08f6da1baf940b01066e656d6f | WrongCode 255 Own 300 BadLength 485 Reject 9947 Bare 531 \
          BadSignature 2
        with a CHAP-Challenge | plain | auth | 010000380f403f9473978057bd83d5cb98f4227a01066e656d\
          6f03130746c00f99865014f26df7168dc66444033c0b6368616c6c656e6765 | WrongCode 255 Own \
          4391 BadLength 474 Reject 8420 Bare 793 BadSignature 3
        signed | signed | auth | 0100004a0f403f9473978057bd83d5cb98f4227a50128f16b45f90d3494989a4\
          f14f4421c61801066e656d6f02120dbe708d93d413ce3196e43f782a0aee0406c0a80110050600000003 | \
          WrongCode 255 Own 74 BadSignature 16590 BadLength 456 Unsigned 1569
        an Interim-Update | plain | acct | 040000278ad775659b68d7f636bd815f06d3b4fb2c04733101066e\
          656d6f20036e280600000003 | WrongCode 255 Own 39 BadAuthenticator 9199 BadLength 491
        a Stop | plain | acct | 04000027274623da252c107a5cac2503f6557f5728060000000220036e01066e6\
          56d6f2c047331 | WrongCode 255 Own 39 BadAuthenticator 9199 BadLength 491
        an Accounting-On | plain | acct | \
          0400001d52e8592f94d3ebe088794fd4f6c2a0c028060000000720036e | WrongCode 255 Restart 29 \
          BadAuthenticator 6639 BadLength 501
        a stray | plain | acct | 040000288ba1a3a9916f12c12dd209a62f5a615428060000000120036e010767\
          686f73742c047331 | WrongCode 255 Stray 40 BadAuthenticator 9455 BadLength 490
        a Start with a bundle and a class | plain | acct | 0400003cf96891fcc68449155031a14581e948\
          6f28060000000120036e01066e656d6f2c04733132036d191200000000000000010000000000000005 | \
          WrongCode 255 Own 60 BadAuthenticator 14575 BadLength 470
    ";
    check_spelled(&rt, &Changes { config }, rows)
}

// With right Request Authenticators.
#[test]
fn attribute_with_another_length_makes_a_start_malformed(rt: HostRuntime) -> Result<(), Fail> {
    let config = read_config(rt.alloc(), &Dictionary::new(rt.alloc()), FILE.as_bytes())?;
    let rows = "
        status, 0 | acct | 0400002762a208d750f92c9f172bdbbe4bcf2e0628000000000120036e01066e656d6f\
          2c047331 | Malformed
        status, 1 | acct | 0400002763e879d75236d6c583777d03c282923328010000000120036e01066e656d6f\
          2c047331 | Malformed
        status, 2 | acct | 040000279f467f4fa35d7a8225cd4ca6c3144c7f28020000000120036e01066e656d6f\
          2c047331 | Malformed
        status, 255 | acct | 04000027b90ae502a268713d87f96c06f0bd969f28ff0000000120036e01066e656d\
          6f2c047331 | Malformed
        access server, 0 | acct | 04000027a6b69f4809b65658c3755daf9f632c6a28060000000120006e01066\
          e656d6f2c047331 | Malformed
        access server, 1 | acct | 04000027966af83c894d5827dd3014dd8d03d1c328060000000120016e01066\
          e656d6f2c047331 | Malformed
        access server, 2 | acct | 040000274b8bee2fa6a503b045a9e44c7e76b3ca28060000000120026e01066\
          e656d6f2c047331 | Malformed
        access server, 255 | acct | 040000273b6e8ea49cadd42cfbc66c610d927f2128060000000120ff6e010\
          66e656d6f2c047331 | Malformed
        name, 0 | acct | 040000272df3567ccda80456e5dec48687dbb0cd28060000000120036e01006e656d6f2c\
          047331 | Malformed
        name, 1 | acct | 0400002757a33d02bdb8085da8ee798eb018fab328060000000120036e01016e656d6f2c\
          047331 | Malformed
        name, 2 | acct | 0400002797123f6e9a2038b31a50d9b8410a8ab228060000000120036e01026e656d6f2c\
          047331 | Malformed
        name, 255 | acct | 04000027a8c01dc7416ec24d23a86e3a403e117128060000000120036e01ff6e656d6f\
          2c047331 | Malformed
        session, 0 | acct | 04000027686707a3edd36ffac2a2b41c631a700428060000000120036e01066e656d6\
          f2c007331 | Malformed
        session, 1 | acct | 04000027f574d7acd26c741fe0026a70cdacd69528060000000120036e01066e656d6\
          f2c017331 | Malformed
        session, 2 | acct | 04000027a47b4af85cb88d18c62943eb5ac486f828060000000120036e01066e656d6\
          f2c027331 | Malformed
        session, 255 | acct | 04000027f85cb97e27635e5e2b4fef8d3ed7f52328060000000120036e01066e656\
          d6f2cff7331 | Malformed
        bundle, 0 | acct | 0400003cb20daa54a9a63f44192dc6b82c09fbad28060000000120036e01066e656d6f2c\
          04733132006d191200000000000000010000000000000005 | Malformed
        bundle, 1 | acct | 0400003ca860f4cf0e0552df6a73448d626dc33028060000000120036e01066e656d6f2c\
          04733132016d191200000000000000010000000000000005 | Malformed
        bundle, 2 | acct | 0400003cb0bf97e95ae06e9b98bdc6616d76360b28060000000120036e01066e656d6f2c\
          04733132026d191200000000000000010000000000000005 | Malformed
        bundle, 255 | acct | 0400003c1f3cd5c1b4556167b94fa411529d050628060000000120036e01066e656d6f\
          2c04733132ff6d191200000000000000010000000000000005 | Malformed
        class, 0 | acct | 0400003c5c022a91682c64c62068ee378acbc02c28060000000120036e01066e656d6f2c0\
          4733132036d190000000000000000010000000000000005 | Malformed
        class, 1 | acct | 0400003c3d76156f0c1da32e50de3044c7585e4828060000000120036e01066e656d6f2c0\
          4733132036d190100000000000000010000000000000005 | Malformed
        class, 2 | acct | 0400003c30f461fa5879a2e153b71a57669fcbdb28060000000120036e01066e656d6f2c0\
          4733132036d190200000000000000010000000000000005 | Malformed
        class, 255 | acct | 0400003caaf182a7a85db065fa2b84119e8085a928060000000120036e01066e656d6f2\
          c04733132036d19ff00000000000000010000000000000005 | Malformed
    ";
    check_spelled(&rt, &Kinds { config }, rows)
}

#[test]
fn attributes_may_be_empty_or_of_253_octets(rt: HostRuntime) -> Result<(), Fail> {
    let config = read_config(rt.alloc(), &Dictionary::new(rt.alloc()), FILE.as_bytes())?;
    let rows = "
        an empty status | acct | 0400002333fefc46821925dc3e70196e7c51e70d280220036e01066e656d6f2c\
          047331 | NoStatus
        an empty access server | acct | 040000265efaf6b21936f0e3eb5f1bae93bf6c8828060000000120020\
          1066e656d6f2c047331 | Own
        an empty name | acct | 040000236440b558d2b15adeb1237a38f7b7223a28060000000120036e01022c04\
          7331 | Stray
        an empty session | acct | 04000025bf46629cb14e30e491f6119d232743cb28060000000120036e01066\
          e656d6f2c02 | NoSession
        a status of 253 octets | acct | 040001201019c4d503b4adcbb369e77b02a0df0428ff 6e*253 \
          20036e01066e656d6f2c047331 | NoStatus
        an access server of 253 octets | acct | \
          040001231e8eddb18936dbb16916693e240f65df28060000000120ff 6e*253 01066e656d6f2c047331 | \
          Own
        a name of 253 octets | acct | 040001203f8da55369d296e5c577f034b689da4e28060000000120036e0\
          1ff 6e*253 2c047331 | Stray
        a session of 253 octets | acct | 04000122e1f3c1a73944822f94d284489c4588642806000000012003\
          6e01066e656d6f2cff 6e*253 | Own
        an empty name | auth | 010000340f403f9473978057bd83d5cb98f4227a010202120dbe708d93d413ce31\
          96e43f782a0aee0406c0a80110050600000003 | Reject
        an empty password | auth | 010000280f403f9473978057bd83d5cb98f4227a01066e656d6f02020406c0\
          a80110050600000003 | Reject
        an empty address | auth | 010000340f403f9473978057bd83d5cb98f4227a01066e656d6f02120dbe708\
          d93d413ce3196e43f782a0aee0402050600000003 | Own
        an empty port | auth | 010000340f403f9473978057bd83d5cb98f4227a01066e656d6f02120dbe708d93\
          d413ce3196e43f782a0aee0406c0a801100502 | Own
        a name of 253 octets | auth | 010001310f403f9473978057bd83d5cb98f4227a01ff 6e*253 \
          02120dbe708d93d413ce3196e43f782a0aee0406c0a80110050600000003 | Reject
        a password of 253 octets | auth | \
          010001250f403f9473978057bd83d5cb98f4227a01066e656d6f02ff 6e*253 \
          0406c0a80110050600000003 | Reject
        an address of 253 octets | auth | 010001310f403f9473978057bd83d5cb98f4227a01066e656d6f0212\
          0dbe708d93d413ce3196e43f782a0aee04ff 6e*253 050600000003 | Own
        a port of 253 octets | auth | 010001310f403f9473978057bd83d5cb98f4227a01066e656d6f02120db\
          e708d93d413ce3196e43f782a0aee0406c0a8011005ff 6e*253 | Own
    ";
    check_spelled(&rt, &Kinds { config }, rows)
}

#[test]
fn names_that_begin_alike_are_others(rt: HostRuntime) -> Result<(), Fail> {
    let config = read_config(rt.alloc(), &Dictionary::new(rt.alloc()), FILE.as_bytes())?;
    let rows = "
        the account's name without its last octet | auth | 010000370f403f9473978057bd83d5cb98f4227a\
          01056e656d02120dbe708d93d413ce3196e43f782a0aee0406c0a80110050600000003 | Reject
        with an octet more | auth | 010000390f403f9473978057bd83d5cb98f4227a01076e656d6f6f02120dbe7\
          08d93d413ce3196e43f782a0aee0406c0a80110050600000003 | Reject
        with a NUL more | auth | 010000390f403f9473978057bd83d5cb98f4227a01076e656d6f0002120dbe708d\
          93d413ce3196e43f782a0aee0406c0a80110050600000003 | Reject
        with a capital | auth | 010000380f403f9473978057bd83d5cb98f4227a01064e656d6f02120dbe708d93d\
          413ce3196e43f782a0aee0406c0a80110050600000003 | Reject
        with another last octet | auth | 010000380f403f9473978057bd83d5cb98f4227a01066e656d7002120d\
          be708d93d413ce3196e43f782a0aee0406c0a80110050600000003 | Reject
        after a blank | auth | 010000390f403f9473978057bd83d5cb98f4227a0107206e656d6f02120dbe708d93\
          d413ce3196e43f782a0aee0406c0a80110050600000003 | Reject
        the account's name without its last octet | acct | 04000026a5f51fde9922e3418f7df6d50f665be9\
          28060000000120036e01056e656d2c047331 | Stray
        with an octet more | acct | 04000028156093ba680ea190f5dcad3bef993f2428060000000120036e01076\
          e656d6f6f2c047331 | Stray
        with a NUL more | acct | 0400002889885453812cc3035866a7a6e388455828060000000120036e01076e65\
          6d6f002c047331 | Stray
        with a capital | acct | 04000027d2846519e2bf6098fd4ca79fa8f6fd4828060000000120036e01064e656\
          d6f2c047331 | Stray
        with another last octet | acct | 04000027903c9998a7e70dd1622989470673eaee28060000000120036e\
          01066e656d702c047331 | Stray
        after a blank | acct | 04000028badbe22734821de2f01437dc1385d1bb28060000000120036e0107206e65\
          6d6f2c047331 | Stray
    ";
    check_spelled(&rt, &Kinds { config }, rows)
}

// The packets have 4,096 octets, but where a reply takes all their Proxy-States or all but one.
#[test]
fn packets_may_be_full_of_the_shortest_attributes(rt: HostRuntime) -> Result<(), Fail> {
    let config = read_config(rt.alloc(), &Dictionary::new(rt.alloc()), FILE.as_bytes())?;
    let rows = "
        nothing but the shortest attributes | auth | 010010000f403f9473978057bd83d5cb98f4227a \
          1a02*2038 | Reject
        after a name and a password | auth | 010010000f403f9473978057bd83d5cb98f4227a01066e656d6f\
          02120dbe708d93d413ce3196e43f782a0aee 1a02*2026 | Own
        User-Names of no octets | auth | 010010000f403f9473978057bd83d5cb98f4227a 0102*2038 | \
          Reject
        Message-Authenticators of no octets | auth | 010010000f403f9473978057bd83d5cb98f4227a \
          5002*2038 | BadSignature
        as many Proxy-States as a reply takes | auth | 01000f680f403f9473978057bd83d5cb98f4227a01\
          066e656d6f02120dbe708d93d413ce3196e43f782a0aee 2102*1950 | Own
        one more | auth | 01000f6a0f403f9473978057bd83d5cb98f4227a01066e656d6f02120dbe708d93d413c\
          e3196e43f782a0aee 2102*1951 | ProxyTooLong
        as many as fit | auth | 010010000f403f9473978057bd83d5cb98f4227a01066e656d6f02120dbe708d9\
          3d413ce3196e43f782a0aee 2102*2026 | ProxyTooLong
        nothing but the shortest attributes | acct | 0400100083851861771e6f5cabd3b854f5e6f609 \
          1a02*2038 | NoStatus
        after a Start | acct | 04001000d45682cf456f92fa43bb24260571d4c728060000000101066e656d6f2c\
          047331 1a02*2030 | Own
        Classes of no octets | acct | 04001000bd0a5328b23fba0afb87ef355b458c8e28060000000101066e6\
          56d6f2c047331 1902*2030 | Own
        as many Proxy-States as a reply takes | acct | 04000f60f8f5209b2a53c97f86a3b70e3a275b0628\
          060000000101066e656d6f2c047331 2102*1950 | Own
        one more | acct | 04000f628e4bb9c2643898ebb45527cc592ecdb628060000000101066e656d6f2c04733\
          1 2102*1951 | ProxyTooLong
        as many as fit | acct | 04001000cab451157e2588cab4957c5cb00a9a2e28060000000101066e656d6f2\
          c047331 2102*2030 | ProxyTooLong
    ";
    check_spelled(&rt, &Kinds { config }, rows)
}
