//! Hostile datagrams at a receiver: every prefix of a packet, a packet with an octet changed, lengths
//! of attributes that are wrong, and as many attributes as fit. A program in Python worked out what is
//! expected, over the tables of docs/PROTOCOL.md and the session rule.
//!
//! A row has a name, the port, how packets come, and the packets with commas between them. They come
//! `whole`; or as all their `prefixes`; or `changed N`: each octet in turn is each Nth of the 256 values.
//!
//! It tells the counts: turns, received, answered, dropped, refused and unsent. Then how many accepts,
//! rejects and Accounting-Responses were sent, and how many octets the longest has; how many moves were
//! made; and the places that the account holds. All come at moment 0, to two shards.

use crate::days::{port_of, push_counts};
use crate::workers::Steady;
use rsl_accounts::Config;
use rsl_event::Source;
use rsl_record::HasReceipts;
use rsl_service::{Blanks, Coming, Datagram, MemoryPort, Open, Pass, Service, Tally, receive};
use rsl_wire::Octets;
use std::alloc::Global;
use std::marker::Brand;
use std::sync::Wait;
use std::test::Fail;
use test_rows::{Subject, check_rows, front, length, octets_of, push_printed};
use test_timelines::config_of;

/// Where all datagrams come from.
const CLIENT: Source = Source {
    address: [192, 168, 1, 16],
    port: 1024,
};

/// What comes of floods.
#[derive(Clone, Copy)]
struct Floods<'a, R> {
    rt: &'a R,
}

impl<R: Wait> Subject for Floods<'_, R> {
    fn found(&self, alloc: Global, fields: &[&str]) -> Result<String, Fail> {
        let [port, how, packets] = fields else {
            return Err("a row has a port, how packets come, and the packets")?;
        };
        let flood = Flood { port, how, packets };
        flood_of(self.rt, alloc, config_of(alloc, "2")?, flood)
    }
}

/// What a row says of a flood.
#[derive(Clone, Copy)]
struct Flood<'a> {
    port: &'a str,
    how: &'a str,
    packets: &'a str,
}

/// What comes of a flood, over ledgers of its own.
fn flood_of<R: Wait>(
    rt: &R,
    alloc: Global,
    config: Config,
    flood: Flood<'_>,
) -> Result<String, Fail> {
    told::<Brand, Brand, Brand, Brand, R>(rt, alloc, Blanks::new(), config, flood)
}

/// What comes of a flood.
fn told<L0: Tally, L1: Tally, L2: Tally, L3: Tally, R: Wait>(
    rt: &R,
    alloc: Global,
    blanks: Blanks,
    config: Config,
    flood: Flood<'_>,
) -> Result<String, Fail> {
    let service: Service<L0, L1, L2, L3, Open> = Service::new(alloc, blanks, config, 1, Open)?;
    let Ok(mut pass) = service.open_pass(rt, alloc) else {
        return Err("no pass")?;
    };
    let mut text = String::new(alloc);
    receive_all(rt, alloc, &service, &mut pass, flood, &mut text)?;
    push_printed(&mut text, &pass.receipts().len())?;
    for row in &service.report(rt, alloc)? {
        push_printed(&mut text, &row.held)?;
    }
    Ok(text)
}

/// Has a receiver take a flood, and tells what it counts and sends.
fn receive_all<L0: Tally, L1: Tally, L2: Tally, L3: Tally, R: Wait>(
    rt: &R,
    alloc: Global,
    service: &Service<L0, L1, L2, L3, Open>,
    pass: &mut Pass<L0, L1, L2, L3>,
    flood: Flood<'_>,
    text: &mut String,
) -> Result<(), Fail> {
    let port = port_of(flood.port)?;
    let coming = coming_of(alloc, flood)?;
    let turns = coming.len() as u64;
    let mut datagrams = MemoryPort::new(alloc, coming, Vec::new(alloc));
    let answer = receive(
        rt,
        alloc,
        service,
        pass,
        port,
        &mut datagrams,
        &mut Steady::new(alloc, 0, 0),
        turns,
    );
    push_counts(text, answer)?;
    push_printed(text, &sent_by_code(datagrams.sent()))
}

/// How many of the replies are accepts, rejects and Accounting-Responses, and how many octets the
/// longest has.
fn sent_by_code(sent: &[Datagram]) -> [usize; 4] {
    let mut counts = [0usize; 4];
    for reply in sent {
        let octets = reply.octets.as_slice();
        match octets {
            [2, ..] => counts[0] = counts[0].saturating_add(1),
            [3, ..] => counts[1] = counts[1].saturating_add(1),
            [5, ..] => counts[2] = counts[2].saturating_add(1),
            _ => {}
        }
        counts[3] = counts[3].max(octets.len());
    }
    counts
}

/// What comes in a flood.
fn coming_of(alloc: Global, flood: Flood<'_>) -> Result<Vec<Coming>, Fail> {
    let mut coming = Vec::new(alloc);
    for packet in flood.packets.split(',') {
        let mut packet = octets_of(alloc, packet)?;
        push_packet(alloc, &mut coming, flood.how, &mut packet)?;
    }
    Ok(coming)
}

/// Adds what comes of one packet.
fn push_packet(
    alloc: Global,
    coming: &mut Vec<Coming>,
    how: &str,
    packet: &mut [u8],
) -> Result<(), Fail> {
    match how {
        "whole" => push_datagram(alloc, coming, packet),
        "prefixes" => push_prefixes(alloc, coming, packet),
        _ => push_changes(
            alloc,
            coming,
            packet,
            length(how.trim_start_matches("changed "))?,
        ),
    }
}

/// Adds every prefix of a packet.
fn push_prefixes(alloc: Global, coming: &mut Vec<Coming>, packet: &[u8]) -> Result<(), Fail> {
    for len in 0..=packet.len() {
        push_datagram(alloc, coming, front(packet, len))?;
    }
    Ok(())
}

/// Adds a packet with each octet in turn changed to each `step`th value.
fn push_changes(
    alloc: Global,
    coming: &mut Vec<Coming>,
    packet: &mut [u8],
    step: usize,
) -> Result<(), Fail> {
    if step == 0 {
        return Err("no value is each 0th")?;
    }
    for at in 0..packet.len() {
        let right = packet[at];
        for value in (0..=255u8).step_by(step) {
            packet[at] = value;
            push_datagram(alloc, coming, packet)?;
        }
        packet[at] = right;
    }
    Ok(())
}

/// Adds a datagram.
fn push_datagram(alloc: Global, coming: &mut Vec<Coming>, octets: &[u8]) -> Result<(), Fail> {
    let octets = Octets::from_slice(alloc, octets)?;
    coming.push(Coming::Datagram(Datagram {
        peer: CLIENT,
        octets,
    }))?;
    Ok(())
}

/// Every prefix of a packet is dropped, but for the whole one.
const PREFIXES: &str = "
the RFC's request | auth | prefixes | 010000380f403f9473978057bd83d5cb98f4227a01066e656d6f02120dbe\
    708d93d413ce3196e43f782a0aee0406c0a80110050600000003 | [57, 57, 1, 56, 0, 0] [1, 0, 0, 44] 1 1
with CHAP | auth | prefixes | 0100002d0f403f9473978057bd83d5cb98f4227a0313073f25c9ea76486dbb6e08f6\
    da1baf940b01066e656d6f | [46, 46, 1, 45, 0, 0] [1, 0, 0, 44] 1 1
with a CHAP-Challenge | auth | prefixes | 010000380f403f9473978057bd83d5cb98f4227a01066e656d6f0313\
    0746c00f99865014f26df7168dc66444033c0b6368616c6c656e6765 | [57, 57, 1, 56, 0, 0] [1, 0, 0, \
    44] 1 1
signed | auth | prefixes | 0100004a0f403f9473978057bd83d5cb98f4227a50128f16b45f90d3494989a4f14f442\
    1c61801066e656d6f02120dbe708d93d413ce3196e43f782a0aee0406c0a80110050600000003 | [75, 75, 1, \
    74, 0, 0] [1, 0, 0, 62] 1 1
a Start | acct | prefixes | 04000027d16ec3e2c1cc1cd9b6803bd0e9a1099f28060000000120036e01066e656d6f\
    2c047331 | [40, 40, 1, 39, 0, 0] [0, 0, 1, 20] 1 1
an Interim-Update | acct | prefixes | 040000278ad775659b68d7f636bd815f06d3b4fb2c04733101066e656d6f\
    20036e280600000003 | [40, 40, 1, 39, 0, 0] [0, 0, 1, 20] 1 1
a Stop | acct | prefixes | 04000027274623da252c107a5cac2503f6557f5728060000000220036e01066e656d6f2\
    c047331 | [40, 40, 1, 39, 0, 0] [0, 0, 1, 20] 1 0
an Accounting-On | acct | prefixes | 0400001d52e8592f94d3ebe088794fd4f6c2a0c028060000000720036e | \
    [30, 30, 1, 29, 0, 0] [0, 0, 1, 20] 2 0
a stray | acct | prefixes | 040000288ba1a3a9916f12c12dd209a62f5a615428060000000120036e010767686f73\
    742c047331 | [41, 41, 1, 40, 0, 0] [0, 0, 1, 20] 1 0
a Start with a bundle and a class | acct | prefixes | 0400003cf96891fcc68449155031a14581e9486f2806\
    0000000120036e01066e656d6f2c04733132036d191200000000000000010000000000000005 | [61, 61, 1, \
    60, 0, 0] [0, 0, 1, 20] 1 1
";

/// Whether an octet takes each of the 256 values, or each 51st (an Accounting-On's each of them).
const EVERY_VALUE: bool = true; // quick: false

/// A packet with an octet changed is dropped or answered, and makes a move only where its meaning
/// is the account's own.
const CHANGES: &str = "
the RFC's request | auth | changed 1 | 010000380f403f9473978057bd83d5cb98f4227a01066e656d6f02120db\
    e708d93d413ce3196e43f782a0aee0406c0a80110050600000003 | [14336, 14336, 13603, 733, 0, 0] [2, \
    13601, 0, 49] 2856 1
with CHAP | auth | changed 1 | 0100002d0f403f9473978057bd83d5cb98f4227a0313073f25c9ea76486dbb6e08f\
    6da1baf940b01066e656d6f | [11520, 11520, 10778, 742, 0, 0] [2, 10776, 0, 44] 300 1
with a CHAP-Challenge | auth | changed 1 | 010000380f403f9473978057bd83d5cb98f4227a01066e656d6f031\
    30746c00f99865014f26df7168dc66444033c0b6368616c6c656e6765 | [14336, 14336, 13604, 732, 0, 0] \
    [2, 13602, 0, 44] 4391 1
signed | auth | changed 1 | 0100004a0f403f9473978057bd83d5cb98f4227a50128f16b45f90d3494989a4f14f44\
    21c61801066e656d6f02120dbe708d93d413ce3196e43f782a0aee0406c0a80110050600000003 | [18944, \
    18944, 1643, 17301, 0, 0] [326, 1317, 0, 62] 326 1
a Start | acct | changed 1 | 04000027d16ec3e2c1cc1cd9b6803bd0e9a1099f28060000000120036e01066e656d6\
    f2c047331 | [9984, 9984, 39, 9945, 0, 0] [0, 0, 39, 20] 39 1
an Interim-Update | acct | changed 1 | 040000278ad775659b68d7f636bd815f06d3b4fb2c04733101066e656d6\
    f20036e280600000003 | [9984, 9984, 39, 9945, 0, 0] [0, 0, 39, 20] 39 1
a Stop | acct | changed 1 | 04000027274623da252c107a5cac2503f6557f5728060000000220036e01066e656d6f\
    2c047331 | [9984, 9984, 39, 9945, 0, 0] [0, 0, 39, 20] 39 0
an Accounting-On | acct | changed 1 | 0400001d52e8592f94d3ebe088794fd4f6c2a0c028060000000720036e \
    | [7424, 7424, 29, 7395, 0, 0] [0, 0, 29, 20] 58 0
a stray | acct | changed 1 | 040000288ba1a3a9916f12c12dd209a62f5a615428060000000120036e010767686f7\
    3742c047331 | [10240, 10240, 40, 10200, 0, 0] [0, 0, 40, 20] 40 0
a Start with a bundle and a class | acct | changed 1 | 0400003cf96891fcc68449155031a14581e9486f280\
    60000000120036e01066e656d6f2c04733132036d191200000000000000010000000000000005 | [15360, \
    15360, 60, 15300, 0, 0] [0, 0, 60, 20] 60 1
";

/// What comes of packets with each octet in turn changed to each 51st value.
const SOME_CHANGES: &str = "
the RFC's request | auth | changed 51 | 010000380f403f9473978057bd83d5cb98f4227a01066e656d6f02120d\
    be708d93d413ce3196e43f782a0aee0406c0a80110050600000003 | [336, 336, 320, 16, 0, 0] [62, 258, \
    0, 44] 67 1
with CHAP | auth | changed 51 | 0100002d0f403f9473978057bd83d5cb98f4227a0313073f25c9ea76486dbb6e08\
    f6da1baf940b01066e656d6f | [270, 270, 253, 17, 0, 0] [2, 251, 0, 44] 7 1
with a CHAP-Challenge | auth | changed 51 | 010000380f403f9473978057bd83d5cb98f4227a01066e656d6f03\
    130746c00f99865014f26df7168dc66444033c0b6368616c6c656e6765 | [336, 336, 320, 16, 0, 0] [2, \
    318, 0, 44] 104 1
signed | auth | changed 51 | 0100004a0f403f9473978057bd83d5cb98f4227a50128f16b45f90d3494989a4f14f4\
    421c61801066e656d6f02120dbe708d93d413ce3196e43f782a0aee0406c0a80110050600000003 | [444, 444, \
    42, 402, 0, 0] [11, 31, 0, 62] 11 1
a Start | acct | changed 51 | 04000027d16ec3e2c1cc1cd9b6803bd0e9a1099f28060000000120036e01066e656d\
    6f2c047331 | [234, 234, 6, 228, 0, 0] [0, 0, 6, 20] 6 1
an Interim-Update | acct | changed 51 | 040000278ad775659b68d7f636bd815f06d3b4fb2c04733101066e656d\
    6f20036e280600000003 | [234, 234, 5, 229, 0, 0] [0, 0, 5, 20] 5 1
a Stop | acct | changed 51 | 04000027274623da252c107a5cac2503f6557f5728060000000220036e01066e656d6\
    f2c047331 | [234, 234, 5, 229, 0, 0] [0, 0, 5, 20] 5 0
an Accounting-On | acct | changed 1 | 0400001d52e8592f94d3ebe088794fd4f6c2a0c028060000000720036e \
    | [7424, 7424, 29, 7395, 0, 0] [0, 0, 29, 20] 58 0
a stray | acct | changed 51 | 040000288ba1a3a9916f12c12dd209a62f5a615428060000000120036e010767686f\
    73742c047331 | [240, 240, 5, 235, 0, 0] [0, 0, 5, 20] 5 0
a Start with a bundle and a class | acct | changed 51 | 0400003cf96891fcc68449155031a14581e9486f28\
    060000000120036e01066e656d6f2c04733132036d191200000000000000010000000000000005 | [360, 360, \
    19, 341, 0, 0] [0, 0, 19, 20] 19 1
";

/// Packets with wrong lengths, and full ones.
const WHOLE: &str = "
each attribute of a Start with the lengths 0, 1, 2 and 255 | acct | whole | \
    0400002762a208d750f92c9f172bdbbe4bcf2e0628000000000120036e01066e656d6f2c047331, \
    0400002763e879d75236d6c583777d03c282923328010000000120036e01066e656d6f2c047331, \
    040000279f467f4fa35d7a8225cd4ca6c3144c7f28020000000120036e01066e656d6f2c047331, \
    04000027b90ae502a268713d87f96c06f0bd969f28ff0000000120036e01066e656d6f2c047331, \
    04000027a6b69f4809b65658c3755daf9f632c6a28060000000120006e01066e656d6f2c047331, \
    04000027966af83c894d5827dd3014dd8d03d1c328060000000120016e01066e656d6f2c047331, \
    040000274b8bee2fa6a503b045a9e44c7e76b3ca28060000000120026e01066e656d6f2c047331, \
    040000273b6e8ea49cadd42cfbc66c610d927f2128060000000120ff6e01066e656d6f2c047331, \
    040000272df3567ccda80456e5dec48687dbb0cd28060000000120036e01006e656d6f2c047331, \
    0400002757a33d02bdb8085da8ee798eb018fab328060000000120036e01016e656d6f2c047331, \
    0400002797123f6e9a2038b31a50d9b8410a8ab228060000000120036e01026e656d6f2c047331, \
    04000027a8c01dc7416ec24d23a86e3a403e117128060000000120036e01ff6e656d6f2c047331, \
    04000027686707a3edd36ffac2a2b41c631a700428060000000120036e01066e656d6f2c007331, \
    04000027f574d7acd26c741fe0026a70cdacd69528060000000120036e01066e656d6f2c017331, \
    04000027a47b4af85cb88d18c62943eb5ac486f828060000000120036e01066e656d6f2c027331, \
    04000027f85cb97e27635e5e2b4fef8d3ed7f52328060000000120036e01066e656d6f2cff7331 | [16, 16, 0, \
    16, 0, 0] [0, 0, 0, 0] 0 0
each attribute of the RFC's request with these lengths | auth | whole | \
    010000380f403f9473978057bd83d5cb98f4227a01006e656d6f02120dbe708d93d413ce3196e43f782a0aee0406c0\
    a80110050600000003, 010000380f403f9473978057bd83d5cb98f4227a01016e656d6f02120dbe708d93d413ce31\
    96e43f782a0aee0406c0a80110050600000003, 010000380f403f9473978057bd83d5cb98f4227a01026e656d6f02\
    120dbe708d93d413ce3196e43f782a0aee0406c0a80110050600000003, 010000380f403f9473978057bd83d5cb98\
    f4227a01ff6e656d6f02120dbe708d93d413ce3196e43f782a0aee0406c0a80110050600000003, \
    010000380f403f9473978057bd83d5cb98f4227a01066e656d6f02000dbe708d93d413ce3196e43f782a0aee0406c0\
    a80110050600000003, 010000380f403f9473978057bd83d5cb98f4227a01066e656d6f02010dbe708d93d413ce31\
    96e43f782a0aee0406c0a80110050600000003, 010000380f403f9473978057bd83d5cb98f4227a01066e656d6f02\
    020dbe708d93d413ce3196e43f782a0aee0406c0a80110050600000003, 010000380f403f9473978057bd83d5cb98\
    f4227a01066e656d6f02ff0dbe708d93d413ce3196e43f782a0aee0406c0a80110050600000003, \
    010000380f403f9473978057bd83d5cb98f4227a01066e656d6f02120dbe708d93d413ce3196e43f782a0aee0400c0\
    a80110050600000003, 010000380f403f9473978057bd83d5cb98f4227a01066e656d6f02120dbe708d93d413ce31\
    96e43f782a0aee0401c0a80110050600000003, 010000380f403f9473978057bd83d5cb98f4227a01066e656d6f02\
    120dbe708d93d413ce3196e43f782a0aee0402c0a80110050600000003, 010000380f403f9473978057bd83d5cb98\
    f4227a01066e656d6f02120dbe708d93d413ce3196e43f782a0aee04ffc0a80110050600000003, \
    010000380f403f9473978057bd83d5cb98f4227a01066e656d6f02120dbe708d93d413ce3196e43f782a0aee0406c0\
    a80110050000000003, 010000380f403f9473978057bd83d5cb98f4227a01066e656d6f02120dbe708d93d413ce31\
    96e43f782a0aee0406c0a80110050100000003, 010000380f403f9473978057bd83d5cb98f4227a01066e656d6f02\
    120dbe708d93d413ce3196e43f782a0aee0406c0a80110050200000003, 010000380f403f9473978057bd83d5cb98\
    f4227a01066e656d6f02120dbe708d93d413ce3196e43f782a0aee0406c0a8011005ff00000003 | [16, 16, 16, \
    0, 0, 0] [0, 16, 0, 20] 0 0
an attribute of a Start that is empty or has 253 octets | acct | whole | \
    0400002333fefc46821925dc3e70196e7c51e70d280220036e01066e656d6f2c047331, \
    040000265efaf6b21936f0e3eb5f1bae93bf6c88280600000001200201066e656d6f2c047331, \
    040000236440b558d2b15adeb1237a38f7b7223a28060000000120036e01022c047331, \
    04000025bf46629cb14e30e491f6119d232743cb28060000000120036e01066e656d6f2c02, \
    040001201019c4d503b4adcbb369e77b02a0df0428ff 6e*253 20036e01066e656d6f2c047331, \
    040001231e8eddb18936dbb16916693e240f65df28060000000120ff 6e*253 01066e656d6f2c047331, \
    040001203f8da55369d296e5c577f034b689da4e28060000000120036e01ff 6e*253 2c047331, \
    04000122e1f3c1a73944822f94d284489c45886428060000000120036e01066e656d6f2cff 6e*253 | [8, 8, 5, \
    3, 0, 0] [0, 0, 5, 20] 5 1
the same of the RFC's request | auth | whole | 010000340f403f9473978057bd83d5cb98f4227a010202120db\
    e708d93d413ce3196e43f782a0aee0406c0a80110050600000003, 010000280f403f9473978057bd83d5cb98f4227\
    a01066e656d6f02020406c0a80110050600000003, 010000340f403f9473978057bd83d5cb98f4227a01066e656d6\
    f02120dbe708d93d413ce3196e43f782a0aee0402050600000003, 010000340f403f9473978057bd83d5cb98f4227\
    a01066e656d6f02120dbe708d93d413ce3196e43f782a0aee0406c0a801100502, \
    010001310f403f9473978057bd83d5cb98f4227a01ff 6e*253 02120dbe708d93d413ce3196e43f782a0aee0406c0\
    a80110050600000003, 010001250f403f9473978057bd83d5cb98f4227a01066e656d6f02ff 6e*253 \
    0406c0a80110050600000003, 010001310f403f9473978057bd83d5cb98f4227a01066e656d6f02120dbe708d93d4\
    13ce3196e43f782a0aee04ff 6e*253 050600000003, 010001310f403f9473978057bd83d5cb98f4227a01066e65\
    6d6f02120dbe708d93d413ce3196e43f782a0aee0406c0a8011005ff 6e*253 | [8, 8, 8, 0, 0, 0] [4, 4, \
    0, 44] 4 1
each attribute of a bundle and a class with these lengths | acct | whole | \
    0400003cb20daa54a9a63f44192dc6b82c09fbad28060000000120036e01066e656d6f2c04733132006d1912000000\
    00000000010000000000000005, 0400003ca860f4cf0e0552df6a73448d626dc33028060000000120036e01066e65\
    6d6f2c04733132016d191200000000000000010000000000000005, \
    0400003cb0bf97e95ae06e9b98bdc6616d76360b28060000000120036e01066e656d6f2c04733132026d1912000000\
    00000000010000000000000005, 0400003c1f3cd5c1b4556167b94fa411529d050628060000000120036e01066e65\
    6d6f2c04733132ff6d191200000000000000010000000000000005, \
    0400003c5c022a91682c64c62068ee378acbc02c28060000000120036e01066e656d6f2c04733132036d1900000000\
    00000000010000000000000005, 0400003c3d76156f0c1da32e50de3044c7585e4828060000000120036e01066e65\
    6d6f2c04733132036d190100000000000000010000000000000005, \
    0400003c30f461fa5879a2e153b71a57669fcbdb28060000000120036e01066e656d6f2c04733132036d1902000000\
    00000000010000000000000005, 0400003caaf182a7a85db065fa2b84119e8085a928060000000120036e01066e65\
    6d6f2c04733132036d19ff00000000000000010000000000000005 | [8, 8, 0, 8, 0, 0] [0, 0, 0, 0] 0 0
names that begin as the account's, or differ by an octet | auth | whole | \
    010000370f403f9473978057bd83d5cb98f4227a01056e656d02120dbe708d93d413ce3196e43f782a0aee0406c0a8\
    0110050600000003, 010000390f403f9473978057bd83d5cb98f4227a01076e656d6f6f02120dbe708d93d413ce31\
    96e43f782a0aee0406c0a80110050600000003, 010000390f403f9473978057bd83d5cb98f4227a01076e656d6f00\
    02120dbe708d93d413ce3196e43f782a0aee0406c0a80110050600000003, \
    010000380f403f9473978057bd83d5cb98f4227a01064e656d6f02120dbe708d93d413ce3196e43f782a0aee0406c0\
    a80110050600000003, 010000380f403f9473978057bd83d5cb98f4227a01066e656d7002120dbe708d93d413ce31\
    96e43f782a0aee0406c0a80110050600000003, 010000390f403f9473978057bd83d5cb98f4227a0107206e656d6f\
    02120dbe708d93d413ce3196e43f782a0aee0406c0a80110050600000003 | [6, 6, 6, 0, 0, 0] [0, 6, 0, \
    20] 0 0
Starts with such names, which are strays | acct | whole | 04000026a5f51fde9922e3418f7df6d50f665be9\
    28060000000120036e01056e656d2c047331, 04000028156093ba680ea190f5dcad3bef993f242806000000012003\
    6e01076e656d6f6f2c047331, 0400002889885453812cc3035866a7a6e388455828060000000120036e01076e656d\
    6f002c047331, 04000027d2846519e2bf6098fd4ca79fa8f6fd4828060000000120036e01064e656d6f2c047331, \
    04000027903c9998a7e70dd1622989470673eaee28060000000120036e01066e656d702c047331, \
    04000028badbe22734821de2f01437dc1385d1bb28060000000120036e0107206e656d6f2c047331 | [6, 6, 6, \
    0, 0, 0] [0, 0, 6, 20] 6 0
4,096 octets of the shortest attributes | auth | whole | 010010000f403f9473978057bd83d5cb98f4227a \
    1a02*2038, 010010000f403f9473978057bd83d5cb98f4227a01066e656d6f02120dbe708d93d413ce3196e43f782\
    a0aee 1a02*2026, 010010000f403f9473978057bd83d5cb98f4227a 0102*2038, \
    010010000f403f9473978057bd83d5cb98f4227a 5002*2038 | [4, 4, 3, 1, 0, 0] [1, 2, 0, 44] 1 1
the same at the other port | acct | whole | 0400100083851861771e6f5cabd3b854f5e6f609 1a02*2038, \
    04001000d45682cf456f92fa43bb24260571d4c728060000000101066e656d6f2c047331 1a02*2030, \
    04001000bd0a5328b23fba0afb87ef355b458c8e28060000000101066e656d6f2c047331 1902*2030 | [3, 3, \
    2, 1, 0, 0] [0, 0, 2, 20] 2 1
as many empty Proxy-States as a reply takes, one more, and as many as fit | auth | whole | \
    01000f680f403f9473978057bd83d5cb98f4227a01066e656d6f02120dbe708d93d413ce3196e43f782a0aee \
    2102*1950, 01000f6a0f403f9473978057bd83d5cb98f4227a01066e656d6f02120dbe708d93d413ce3196e43f782\
    a0aee 2102*1951, 010010000f403f9473978057bd83d5cb98f4227a01066e656d6f02120dbe708d93d413ce3196e\
    43f782a0aee 2102*2026 | [3, 3, 1, 2, 0, 0] [1, 0, 0, 3944] 1 1
the same at the other port | acct | whole | 04000f60f8f5209b2a53c97f86a3b70e3a275b0628060000000101\
    066e656d6f2c047331 2102*1950, 04000f628e4bb9c2643898ebb45527cc592ecdb628060000000101066e656d6f\
    2c047331 2102*1951, 04001000cab451157e2588cab4957c5cb00a9a2e28060000000101066e656d6f2c047331 \
    2102*2030 | [3, 3, 1, 2, 0, 0] [0, 0, 1, 3920] 1 1
4,100 octets with a Length of 0, 19 and 4,097 | auth | whole | 01000000 \
    0f403f9473978057bd83d5cb98f4227a01066e656d6f02120dbe708d93d413ce3196e43f782a0aee0406c0a8011005\
    0600000003 00*4044, 01000013 0f403f9473978057bd83d5cb98f4227a01066e656d6f02120dbe708d93d413ce3\
    196e43f782a0aee0406c0a80110050600000003 00*4044, 01001001 0f403f9473978057bd83d5cb98f4227a0106\
    6e656d6f02120dbe708d93d413ce3196e43f782a0aee0406c0a80110050600000003 00*4044 | [3, 3, 0, 3, \
    0, 0] [0, 0, 0, 0] 0 0
a last attribute whose length is 0, 1 and 255 | auth | whole | 0100003a0f403f9473978057bd83d5cb98f\
    4227a01066e656d6f02120dbe708d93d413ce3196e43f782a0aee0406c0a801100506000000031a00, \
    0100003a0f403f9473978057bd83d5cb98f4227a01066e656d6f02120dbe708d93d413ce3196e43f782a0aee0406c0\
    a801100506000000031a01, 0100003a0f403f9473978057bd83d5cb98f4227a01066e656d6f02120dbe708d93d413\
    ce3196e43f782a0aee0406c0a801100506000000031aff | [3, 3, 3, 0, 0, 0] [0, 3, 0, 20] 0 0
the same at the other port, with right and with wrong authenticators | acct | whole | \
    04000029090cbf880f219a721f4ba0843040540128060000000120036e01066e656d6f2c0473311a00, \
    04000029e025c95275a497f25c81370972cc98eb28060000000120036e01066e656d6f2c0473311a01, \
    04000029615d8f0f29502999133b0c6f8a3859bc28060000000120036e01066e656d6f2c0473311aff, \
    040000290000000000000000000000000000000028060000000120036e01066e656d6f2c0473311a00, \
    040000290000000000000000000000000000000028060000000120036e01066e656d6f2c0473311a01, \
    040000290000000000000000000000000000000028060000000120036e01066e656d6f2c0473311aff | [6, 6, \
    0, 6, 0, 0] [0, 0, 0, 0] 0 0
15 Proxy-States of 253 octets and one of 249 | auth | whole | 01001000 00*16 21ff 09*253 21ff \
    09*253 21ff 09*253 21ff 09*253 21ff 09*253 21ff 09*253 21ff 09*253 21ff 09*253 21ff 09*253 \
    21ff 09*253 21ff 09*253 21ff 09*253 21ff 09*253 21ff 09*253 21ff 09*253 21fb 09*249 | [1, 1, \
    0, 1, 0, 0] [0, 0, 0, 0] 0 0
";

#[test]
fn every_prefix_is_dropped(rt: HostRuntime) -> Result<(), Fail> {
    check_rows(&rt, &Floods { rt: &rt }, PREFIXES)
}

#[test]
fn every_changed_packet_is_dropped_or_answered(rt: HostRuntime) -> Result<(), Fail> {
    let rows = if EVERY_VALUE { CHANGES } else { SOME_CHANGES };
    check_rows(&rt, &Floods { rt: &rt }, rows)
}

#[test]
fn wrong_lengths_and_full_packets(rt: HostRuntime) -> Result<(), Fail> {
    check_rows(&rt, &Floods { rt: &rt }, WHOLE)
}
