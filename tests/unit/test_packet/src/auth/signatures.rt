//! HMAC-MD5, Message-Authenticators and the authenticators of packets.

use super::{REQUEST_AUTH, SECRET};
use rsl_auth::{accounting_ok, hmac_md5, seal, sign, signature_ok};
use std::alloc::Global;
use std::test::Fail;
use test_rows::{Hex, Subject, check_rows, length, octets_of, printed, push_printed};

/// `signature_ok`, where sixteen octets stand there after the header.
fn is_right(packet: &[u8], at: usize, secret: &[u8]) -> bool {
    20 <= at && at < packet.len() && 16 <= packet.len() - at && signature_ok(packet, at, secret)
}

/// `sign`, where sixteen octets stand there after the header.
fn signed(packet: &mut [u8], at: usize, secret: &[u8]) {
    if 20 <= at && at < packet.len() && 16 <= packet.len() - at {
        sign(packet, at, &REQUEST_AUTH, secret);
    }
}

/// `seal` of a packet that has a header.
fn with_seal(packet: &mut [u8], request_auth: &[u8; 16], secret: &[u8]) {
    if 20 <= packet.len() {
        seal(packet, request_auth, secret);
    }
}

/// `accounting_ok` of a packet that has a header.
fn is_authentic(packet: &[u8], secret: &[u8]) -> bool {
    20 <= packet.len() && accounting_ok(packet, secret)
}

/// Turns the last bit of an octet.
fn change(packet: &mut [u8], at: usize) {
    if at < packet.len() {
        packet[at] ^= 1;
    }
}

/// A key and a message: the digest.
struct Keyed;

impl Subject for Keyed {
    fn found(&self, alloc: Global, fields: &[&str]) -> Result<String, Fail> {
        let [key, message] = fields else {
            return Err("a key and a message")?;
        };
        let digest = hmac_md5(&octets_of(alloc, key)?, &octets_of(alloc, message)?);
        printed(alloc, &Hex(&digest))
    }
}

/// The cases of RFC 2202 section 2, of which RFC 2104 has the first three, and keys about a block
/// of MD5.
#[test]
fn hmac_md5_is_that_of_the_rfcs(rt: HostRuntime) -> Result<(), Fail> {
    check_rows(
        &rt,
        &Keyed,
        "
# `Hi There`
case 1 | 0b*16 | 4869205468657265 | 9294727a3638bb1c13f48ef8158bfc9d
# `Jefe`, `what do ya want for nothing?`
case 2 | 4a656665 | 7768617420646f2079612077616e7420666f72206e6f7468696e673f \
    | 750c783e6ab0b503eaa86e310a5db738
case 3 | aa*16 | dd*50 | 56be34521d144c88dbb8c733f0e8b3f6
case 4 | 0102030405060708090a0b0c0d0e0f10111213141516171819 | cd*50 \
    | 697eaf0aca3a3aea3a75164746ffaa79
# `Test With Truncation`
case 5 | 0c*16 | 546573742057697468205472756e636174696f6e | 56461ef2342edc00f9bab995690efd4c
# `Test Using Larger Than Block-Size Key - Hash Key First`
case 6 | aa*80 | 54657374205573696e67204c6172676572205468616e20426c6f636b2d53697a65204b6579\
    202d2048617368204b6579204669727374 | 6b1ab7fe4bd7bf8f0b62e6ce61b9d0cd
# `Test Using Larger Than Block-Size Key and Larger Than One Block-Size Data`
case 7 | aa*80 | 54657374205573696e67204c6172676572205468616e20426c6f636b2d53697a65204b6579\
    20616e64204c6172676572205468616e204f6e6520426c6f636b2d53697a652044617461 \
    | 6f630fad67cda0ee1fb1f562db3aa53e
no key and no message | | | 74e6f7298a9c2d168935f58c001bad88
# `message`
a key of 63 octets | 73*63 | 6d657373616765 | 0832239b2584da1c596da376434c82b2
a key of 64 octets | 73*64 | 6d657373616765 | 848eec754a0cb770c1096a4dd10f45e0
a key of 65 octets | 73*65 | 6d657373616765 | 2cfe7428d667ca5037f8b76ecd5fda3f
a key of 128 octets | 73*128 | 6d657373616765 | 1ff4a2cb87c635d609efa5c08e8a9d3c
1000 octets, a key of 65 | 73*65 | 6d*1000 | 3fae880c8461de52688c8ef977a8844d
",
    )
}

/// A secret, where the value of a Message-Authenticator stands, and a packet: whether that value is
/// right, the packet once it is signed, whether its value is right then, and whether it is signed
/// alike once more.
struct Signing;

impl Subject for Signing {
    fn found(&self, alloc: Global, fields: &[&str]) -> Result<String, Fail> {
        let [secret, at, packet] = fields else {
            return Err("a secret, an octet and a packet")?;
        };
        let secret = octets_of(alloc, secret)?;
        let mut packet = octets_of(alloc, packet)?;
        told_of_signed(alloc, &secret, length(at)?, &mut packet)
    }
}

fn told_of_signed(
    alloc: Global,
    secret: &[u8],
    at: usize,
    packet: &mut [u8],
) -> Result<String, Fail> {
    let before = is_right(packet, at, secret);
    signed(packet, at, secret);
    let once = Vec::from_slice(alloc, packet)?;
    let after = is_right(packet, at, secret);
    signed(packet, at, secret);
    printed(alloc, &(before, Hex(&once), after, Hex(packet)))
}

/// The value that stands there does not count: a packet is signed alike once more. The packet is
/// the request of RFC 2865 section 7.1 with a Message-Authenticator.
#[test]
fn a_request_is_signed_and_found_right(rt: HostRuntime) -> Result<(), Fail> {
    check_rows(
        &rt,
        &Signing,
        "
first | 78797a7a7935343631 | 22 | 0100004a0f403f9473978057bd83d5cb98f4227a 5012 00*16 01066e656d6f \
    02120dbe708d93d413ce3196e43f782a0aee0406c0a80110050600000003 | (false, \
    0100004a0f403f9473978057bd83d5cb98f4227a50128f16b45f90d3494989a4f14f4421c61801066e656d6f\
    02120dbe708d93d413ce3196e43f782a0aee0406c0a80110050600000003, true, \
    0100004a0f403f9473978057bd83d5cb98f4227a50128f16b45f90d3494989a4f14f4421c61801066e656d6f\
    02120dbe708d93d413ce3196e43f782a0aee0406c0a80110050600000003)
second | 78797a7a7935343631 | 28 | 0100004a0f403f9473978057bd83d5cb98f4227a 01066e656d6f \
    5012 00*16 \
    02120dbe708d93d413ce3196e43f782a0aee0406c0a80110050600000003 | (false, \
    0100004a0f403f9473978057bd83d5cb98f4227a01066e656d6f5012ea9ad6c8b9113cc4b2cfc3998e21aa08\
    02120dbe708d93d413ce3196e43f782a0aee0406c0a80110050600000003, true, \
    0100004a0f403f9473978057bd83d5cb98f4227a01066e656d6f5012ea9ad6c8b9113cc4b2cfc3998e21aa08\
    02120dbe708d93d413ce3196e43f782a0aee0406c0a80110050600000003)
63 octets | 73*63 | 22 | 0100004a0f403f9473978057bd83d5cb98f4227a 5012 00*16 01066e656d6f \
    02120dbe708d93d413ce3196e43f782a0aee0406c0a80110050600000003 | (false, \
    0100004a0f403f9473978057bd83d5cb98f4227a50123e09842edbccf3b3c12cb8954b0892a801066e656d6f\
    02120dbe708d93d413ce3196e43f782a0aee0406c0a80110050600000003, true, \
    0100004a0f403f9473978057bd83d5cb98f4227a50123e09842edbccf3b3c12cb8954b0892a801066e656d6f\
    02120dbe708d93d413ce3196e43f782a0aee0406c0a80110050600000003)
64 octets | 73*64 | 22 | 0100004a0f403f9473978057bd83d5cb98f4227a 5012 00*16 01066e656d6f \
    02120dbe708d93d413ce3196e43f782a0aee0406c0a80110050600000003 | (false, \
    0100004a0f403f9473978057bd83d5cb98f4227a50129d172071ad106b3c21a55aa1b739872601066e656d6f\
    02120dbe708d93d413ce3196e43f782a0aee0406c0a80110050600000003, true, \
    0100004a0f403f9473978057bd83d5cb98f4227a50129d172071ad106b3c21a55aa1b739872601066e656d6f\
    02120dbe708d93d413ce3196e43f782a0aee0406c0a80110050600000003)
65 octets | 73*65 | 22 | 0100004a0f403f9473978057bd83d5cb98f4227a 5012 00*16 01066e656d6f \
    02120dbe708d93d413ce3196e43f782a0aee0406c0a80110050600000003 | (false, \
    0100004a0f403f9473978057bd83d5cb98f4227a5012c0556e97f664d5f4ac29280545c51bec01066e656d6f\
    02120dbe708d93d413ce3196e43f782a0aee0406c0a80110050600000003, true, \
    0100004a0f403f9473978057bd83d5cb98f4227a5012c0556e97f664d5f4ac29280545c51bec01066e656d6f\
    02120dbe708d93d413ce3196e43f782a0aee0406c0a80110050600000003)
128 octets | 73*128 | 22 | 0100004a0f403f9473978057bd83d5cb98f4227a 5012 00*16 01066e656d6f \
    02120dbe708d93d413ce3196e43f782a0aee0406c0a80110050600000003 | (false, \
    0100004a0f403f9473978057bd83d5cb98f4227a5012a8c8fefd352d5c17cf011a9a9a07d80101066e656d6f\
    02120dbe708d93d413ce3196e43f782a0aee0406c0a80110050600000003, true, \
    0100004a0f403f9473978057bd83d5cb98f4227a5012a8c8fefd352d5c17cf011a9a9a07d80101066e656d6f\
    02120dbe708d93d413ce3196e43f782a0aee0406c0a80110050600000003)
",
    )
}

/// A packet, where the value of a Message-Authenticator stands, and a secret: whether that value is
/// right, and each octet that can be changed and it is right still.
struct Changed;

impl Subject for Changed {
    fn found(&self, alloc: Global, fields: &[&str]) -> Result<String, Fail> {
        let [packet, at, secret] = fields else {
            return Err("a packet, an octet and a secret")?;
        };
        let mut packet = octets_of(alloc, packet)?;
        told_of_changes(alloc, &mut packet, length(at)?, &octets_of(alloc, secret)?)
    }
}

fn told_of_changes(
    alloc: Global,
    packet: &mut [u8],
    at: usize,
    secret: &[u8],
) -> Result<String, Fail> {
    let mut text = printed(alloc, &is_right(packet, at, secret))?;
    for changed in 0..packet.len() {
        change(packet, changed);
        if is_right(packet, at, secret) {
            push_printed(&mut text, &changed)?;
        }
        change(packet, changed);
    }
    Ok(text)
}

#[test]
fn a_changed_octet_breaks_the_signature(rt: HostRuntime) -> Result<(), Fail> {
    check_rows(
        &rt,
        &Changed,
        "
as it was signed | 0100004a0f403f9473978057bd83d5cb98f4227a \
    5012 8f16b45f90d3494989a4f14f4421c618 \
    01066e656d6f 02120dbe708d93d413ce3196e43f782a0aee 0406c0a80110 050600000003 \
    | 22 | 78797a7a7935343631 | true
another secret | 0100004a0f403f9473978057bd83d5cb98f4227a \
    5012 8f16b45f90d3494989a4f14f4421c618 \
    01066e656d6f 02120dbe708d93d413ce3196e43f782a0aee 0406c0a80110 050600000003 \
    | 22 | 78797a7a7935343632 | false
an octet later | 0100004a0f403f9473978057bd83d5cb98f4227a \
    5012 8f16b45f90d3494989a4f14f4421c618 \
    01066e656d6f 02120dbe708d93d413ce3196e43f782a0aee 0406c0a80110 050600000003 \
    | 23 | 78797a7a7935343631 | false
",
    )
}

/// A reply, and where the value of its Message-Authenticator stands: the reply signed, and then
/// sealed too.
struct Answered;

impl Subject for Answered {
    fn found(&self, alloc: Global, fields: &[&str]) -> Result<String, Fail> {
        let [reply, at] = fields else {
            return Err("a reply and an octet")?;
        };
        let mut reply = octets_of(alloc, reply)?;
        signed(&mut reply, length(at)?, SECRET);
        let unsealed = Vec::from_slice(alloc, &reply)?;
        with_seal(&mut reply, &REQUEST_AUTH, SECRET);
        printed(alloc, &(Hex(&unsealed), Hex(&reply)))
    }
}

/// The accept of the request above, which is signed with the Request Authenticator and then sealed.
#[test]
fn a_reply_is_signed_and_then_sealed(rt: HostRuntime) -> Result<(), Fail> {
    check_rows(
        &rt,
        &Answered,
        "
an accept | 0201003e 00*16 5012 00*16 191200000000000000010000000000000000 3e0600000001 | 22 | \
    (0201003e000000000000000000000000000000005012be99dbbfaa1abaf748787fe375162670\
    1912000000000000000100000000000000003e0600000001, \
    0201003ede46bb9f3db71fea0ffc06f18e8479fe5012be99dbbfaa1abaf748787fe375162670\
    1912000000000000000100000000000000003e0600000001)
",
    )
}

/// Whose reply it is, `request` for one to the request of RFC 2865 section 7.1 and `none` for an
/// Accounting-Request, a packet and a secret: the packet sealed, whether its authenticator is that
/// of an Accounting-Request, and whether it is so with another Code.
struct Sealed;

impl Subject for Sealed {
    fn found(&self, alloc: Global, fields: &[&str]) -> Result<String, Fail> {
        let [of, packet, secret] = fields else {
            return Err("what it answers, a packet and a secret")?;
        };
        let mut packet = octets_of(alloc, packet)?;
        told_of_sealed(
            alloc,
            *of == "request",
            &mut packet,
            &octets_of(alloc, secret)?,
        )
    }
}

fn told_of_sealed(
    alloc: Global,
    is_reply: bool,
    packet: &mut [u8],
    secret: &[u8],
) -> Result<String, Fail> {
    let request_auth = if is_reply { REQUEST_AUTH } else { [0; 16] };
    with_seal(packet, &request_auth, secret);
    let is_right = is_authentic(packet, secret);
    change(packet, 0);
    let is_right_still = is_authentic(packet, secret);
    change(packet, 0);
    printed(alloc, &(Hex(packet), is_right, is_right_still))
}

/// The Access-Accept of RFC 2865 section 7.1, and Accounting-Requests.
#[test]
fn packets_are_sealed(rt: HostRuntime) -> Result<(), Fail> {
    check_rows(
        &rt,
        &Sealed,
        "
the accept of the RFC | request | 02000026 ff*16 0606000000010f06000000000e06c0a80103 \
    | 78797a7a7935343631 \
    | (0200002686fe220e7624ba2a1005f6bf9b55e0b20606000000010f06000000000e06c0a80103, false, false)
accounting | none | 0401001a ff*16 280600000001 | 78797a7a7935343631 \
    | (0401001aedbee5ec65451894cfbcd3a359710921280600000001, true, false)
63 octets | none | 0401001a ff*16 280600000001 | 73*63 \
    | (0401001a6b31b4ff2d6100d26f03ea8554bf1e91280600000001, true, false)
64 octets | none | 0401001a ff*16 280600000001 | 73*64 \
    | (0401001a2da37ccd2b424a65febdcd479720dd9a280600000001, true, false)
65 octets | none | 0401001a ff*16 280600000001 | 73*65 \
    | (0401001ab5f311cf95283a8b23fd08aa35091888280600000001, true, false)
128 octets | none | 0401001a ff*16 280600000001 | 73*128 \
    | (0401001ace8c7b0b9a698aceaf135bfd185796dc280600000001, true, false)
",
    )
}
