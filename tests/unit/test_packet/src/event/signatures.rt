use super::{ACCT, AUTH, CLIENT, SIGNED, check, check_replies};
use std::test::Fail;

// RFC 3579 section 3.2, where HMAC-MD5 is that of RFC 2104.

#[test]
fn request_of_a_client_that_signs_has_a_message_authenticator(rt: HostRuntime) -> Result<(), Fail> {
    let rows = "
        the RFC's request | auth | <rfc> | Unsigned
        a malformed request | auth | 01070016 00*16 0101 | Unsigned
        a malformed request with a right one | auth | \
          010000400f403f9473978057bd83d5cb98f4227a5012f2552d915dbab0992765ef7a78414dea01066e656d\
          6f02120dbe708d93d413ce3196e43f782a0aee2003 | Unsigned
        3,901 octets of Proxy-State without one | auth | \
          01000f690f403f9473978057bd83d5cb98f4227a<3901> \
          01066e656d6f02120dbe708d93d413ce3196e43f782a0aee | Unsigned
        3,901 octets of Proxy-State with a right one | auth | \
          01000f7b0f403f9473978057bd83d5cb98f4227a<3901> \
          5012b820694cded383040973df0d7109d12d01066e656d6f02120dbe708d93d413ce3196e43f782a0aee | \
          ProxyTooLong
        an Accounting-Request on this port | auth | 04000014 00*16 | WrongCode
        a right one | auth | \
          0100003e0f403f9473978057bd83d5cb98f4227a501241287e85c3eb5cf152ff4bb7a21fbf2501066e656d\
          6f02120dbe708d93d413ce3196e43f782a0aee | \
          Own { account: 0, act: Ask { key: Key { source: Source { address: [192, 168, 1, 18], \
          port: 1024 }, id: 0, authenticator: [15, 64, 63, 148, 115, 151, 128, 87, 189, 131, \
          213, 203, 152, 244, 34, 122] }, nas: Nas { client: 2, name: Unnamed } } }
        a right one and a wrong password | auth | \
          010000410f403f9473978057bd83d5cb98f4227a501265c8e4c3f114aee3ca814ac0973eabe2010973686f\
          7274657202120dbe708d93d413ce3196e43f782a0aee | Reject
    ";
    check(&rt, SIGNED, rows)
}

// Of a client that does not have to sign.
#[test]
fn message_authenticator_that_is_there_is_the_only_one_and_right(
    rt: HostRuntime,
) -> Result<(), Fail> {
    let rows = "
        the first attribute | auth | \
          0100003e0f403f9473978057bd83d5cb98f4227a501241287e85c3eb5cf152ff4bb7a21fbf2501066e656d\
          6f02120dbe708d93d413ce3196e43f782a0aee | <ask>
        another attribute | auth | \
          0100003e0f403f9473978057bd83d5cb98f4227a01066e656d6f5012c812df5a1b15a3ad143f00a51e0d83\
          eb02120dbe708d93d413ce3196e43f782a0aee | <ask>
        the last attribute | auth | \
          0100003e0f403f9473978057bd83d5cb98f4227a01066e656d6f02120dbe708d93d413ce3196e43f782a0a\
          ee501261df374483be2872a88d9586b7a3dcf4 | <ask>
        padding after it | auth | \
          0100003e0f403f9473978057bd83d5cb98f4227a01066e656d6f02120dbe708d93d413ce3196e43f782a0a\
          ee501261df374483be2872a88d9586b7a3dcf40000000000 | <ask>
        after 3,900 octets of Proxy-State | auth | \
          01000f7a0f403f9473978057bd83d5cb98f4227a<3900> \
          01066e656d6f02120dbe708d93d413ce3196e43f782a0aee5012c37f7f1a91cf8cd1b71415e6de1f23cd | \
          <ask>
        its last octet changed | auth | \
          0100003e0f403f9473978057bd83d5cb98f4227a501241287e85c3eb5cf152ff4bb7a21fbf2401066e656d\
          6f02120dbe708d93d413ce3196e43f782a0aee | BadSignature
        its first octet changed | auth | \
          0100003e0f403f9473978057bd83d5cb98f4227a501240287e85c3eb5cf152ff4bb7a21fbf2501066e656d\
          6f02120dbe708d93d413ce3196e43f782a0aee | BadSignature
        another attribute changed | auth | \
          0100003e0f403f9473978057bd83d5cb98f4227a501241287e85c3eb5cf152ff4bb7a21fbf2501066e656d\
          6f02120dbe708d93d413ce3196e43f782a0aef | BadSignature
        another Identifier | auth | \
          0101003e0f403f9473978057bd83d5cb98f4227a501241287e85c3eb5cf152ff4bb7a21fbf2501066e656d\
          6f02120dbe708d93d413ce3196e43f782a0aee | BadSignature
        another Request Authenticator | auth | \
          0100003e0e403f9473978057bd83d5cb98f4227a501241287e85c3eb5cf152ff4bb7a21fbf2501066e656d\
          6f02120dbe708d93d413ce3196e43f782a0aee | BadSignature
        another secret | auth | \
          0100003e0f403f9473978057bd83d5cb98f4227a5012887d576769ff1251eedacc1754075a0001066e656d\
          6f02120dbe708d93d413ce3196e43f782a0aee | BadSignature
        zeros | auth | \
          0100003e0f403f9473978057bd83d5cb98f4227a01066e656d6f02120dbe708d93d413ce3196e43f782a0a\
          ee5012 00*16 | BadSignature
        the RFC's request and 15 zero octets | auth | \
          010000490f403f9473978057bd83d5cb98f4227a01066e656d6f02120dbe708d93d413ce3196e43f782a0a\
          ee0406c0a801100506000000035011 00*15 | BadSignature
        17 octets of which the first 16 are right | auth | \
          0100003f0f403f9473978057bd83d5cb98f4227a01066e656d6f02120dbe708d93d413ce3196e43f782a0a\
          ee50131a051c413dd29cb2d26d628df036b8df00 | BadSignature
        15 octets | auth | \
          0100003d0f403f9473978057bd83d5cb98f4227a01066e656d6f02120dbe708d93d413ce3196e43f782a0a\
          ee5011553df088a187419d965f794548254c | BadSignature
        no octets | auth | \
          0100002e0f403f9473978057bd83d5cb98f4227a01066e656d6f02120dbe708d93d413ce3196e43f782a0a\
          ee5002 | BadSignature
        two, of which the first is right | auth | \
          010000500f403f9473978057bd83d5cb98f4227a50123a2e7ba2a82ab61790af910d6803675c01066e656d\
          6f02120dbe708d93d413ce3196e43f782a0aee5012 00*16 | BadSignature
        two, of which the second is right | auth | \
          010000500f403f9473978057bd83d5cb98f4227a5012 00*16 \
          01066e656d6f02120dbe708d93d413ce3196e43f782a0aee50123a2e7ba2a82ab61790af910d6803675c | \
          BadSignature
        two, the second over the first | auth | \
          010000500f403f9473978057bd83d5cb98f4227a50123a2e7ba2a82ab61790af910d6803675c01066e656d\
          6f02120dbe708d93d413ce3196e43f782a0aee5012d92d8c9c8481053290447d4d207e57f3 | \
          BadSignature
        a right one and an empty one | auth | \
          010000400f403f9473978057bd83d5cb98f4227a50121fc87beb689a72f77daadac2965899f501066e656d\
          6f02120dbe708d93d413ce3196e43f782a0aee5002 | BadSignature
        a wrong one beside 3,901 octets of Proxy-State | auth | \
          01000f7b0f403f9473978057bd83d5cb98f4227a<3901> 5012 00*16 \
          01066e656d6f02120dbe708d93d413ce3196e43f782a0aee | BadSignature
        a malformed request with a wrong one | auth | \
          010000400f403f9473978057bd83d5cb98f4227a5012 00*16 \
          01066e656d6f02120dbe708d93d413ce3196e43f782a0aee2003 | Bare
    ";
    check(&rt, CLIENT, rows)
}

// A client that has to sign its Access-Requests signs no accounting.
#[test]
fn message_authenticator_in_accounting_is_ignored(rt: HostRuntime) -> Result<(), Fail> {
    let rows = "
        none | acct | \
          04000027d16ec3e2c1cc1cd9b6803bd0e9a1099f28060000000120036e01066e656d6f2c047331 | \
          Own { account: 0, act: Alive { nas: Nas { client: 2, \
          name: Identifier([110]) }, <s1>, bundle: None, class: None } }
        zeros | acct | \
          04000039ecf63f7e60890af0ff73e06a9630bd6a28060000000120036e01066e656d6f2c0473315012 \
          00*16 | \
          Own { account: 0, act: Alive { nas: Nas { client: 2, \
          name: Identifier([110]) }, <s1>, bundle: None, class: None } }
        15 octets | acct | \
          04000038fe93bd0e3c8151369bb908debd3bcc725011 00*15 \
          28060000000120036e01066e656d6f2c047331 | \
          Own { account: 0, act: Alive { nas: Nas { client: 2, \
          name: Identifier([110]) }, <s1>, bundle: None, class: None } }
        two | acct | \
          0400004b7ea540c7c7ee85601c2afa23f68f9fc65012 00*16 \
          28060000000120036e01066e656d6f2c0473315012 00*16 | \
          Own { account: 0, act: Alive { nas: Nas { client: 2, \
          name: Identifier([110]) }, <s1>, bundle: None, class: None } }
    ";
    check(&rt, SIGNED, rows)
}

// The Message-Authenticator stands first: the accept's 62 octets begin with 0201003e, and have 5012
// at octet 20. The longest reply has 3,992 octets.
#[test]
fn reply_to_a_signed_request_is_signed(rt: HostRuntime) -> Result<(), Fail> {
    let rows = "
        an accept | \
          0101004197f904103ebde0e5f6ebd9808bcbc6675012d41b0aaf7ee4468fe951c9b9ccbcf27a01066e656d\
          6f0212251cae20c3882f95d4c150c188399f0e20036e | Accept 0 | \
          Accept(0) \
          0201003e34e6d56c66c483e61eafa342b169fcde5012f5f80615a32e6913355b8dad7c3a08ad1912000000\
          000000000100000000000000003e0600000001
        a limit reject | \
          0100003e0f403f9473978057bd83d5cb98f4227a01066e656d6f5012c812df5a1b15a3ad143f00a51e0d83\
          eb02120dbe708d93d413ce3196e43f782a0aee | LimitReject | \
          LimitReject \
          0300003dbbe46f6279ace85f50527a48d98ccc715012de246ab2ef47e9d65be3e402fcc4f9dd1217536573\
          73696f6e206c696d69742072656163686564
        a reject | \
          010000410f403f9473978057bd83d5cb98f4227a501265c8e4c3f114aee3ca814ac0973eabe2010973686f\
          7274657202120dbe708d93d413ce3196e43f782a0aee | Done | \
          Reject 030000268b2603f419910644078cefadd30786245012fd4912ddce426401b843085aff12f5da
        the longest accept | \
          01000f7a0f403f9473978057bd83d5cb98f4227a<3900>010666756c6c02120dbe708d93d413ce3196e43f\
          782a0aee5012f42a19c6c3faea7e1b29df2abffc06ef | Accept 0 | \
          Accept(0) \
          02000f9215bf99bce0ec01584eb0915d747dabaf5012ccfe022a384cb4abf9fff0ff4de240051912000000\
          000000000100000000000000003e06000000100606000000020706000000011b0600000e101c0600000258\
          <3900>
        the longest accept with the seconds between interim updates | \
          01000f7a0f403f9473978057bd83d5cb98f4227a<3900>0106746f6c6402120dbe708d93d413ce3196e43f\
          782a0aee5012c3582fbda05cc1b4bc913ef3a01389da | Accept 0 | \
          Accept(0) \
          02000f9812ebbd098748940dc7c10deeb6b808d050120be717c46ae9d2f8afecc031a78bc0541912000000\
          000000000100000000000000003e06000000100606000000020706000000011b0600000e101c0600000258\
          550600000258<3900>
        an accept with the seconds between interim updates and a Proxy-State | \
          010000410f403f9473978057bd83d5cb98f4227a0106746f6c6402120dbe708d93d413ce3196e43f782a0a\
          ee5012ab027b6f39ec7c2b9d25283dc93d990a210370 | Accept 7 | \
          Accept(7) \
          0200005fa6c56d75c843a171ec517a13752936535012ecdc124fc65363b75eff752d76b0c5901912000000\
          000000000100000000000000073e06000000100606000000020706000000011b0600000e101c0600000258\
          550600000258210370
    ";
    check_replies(&rt, SIGNED, AUTH, rows)
}

#[test]
fn reply_is_signed_where_the_request_was(rt: HostRuntime) -> Result<(), Fail> {
    let rows = "
        an accept of a client that does not have to sign | \
          0100003e0f403f9473978057bd83d5cb98f4227a01066e656d6f02120dbe708d93d413ce3196e43f782a0a\
          ee501261df374483be2872a88d9586b7a3dcf4 | Accept 0 | \
          Accept(0) \
          0200003e2db581e4d36567ab73a9f5ccdf601dff5012581c9f7336a691e5f65f6d9268187d441912000000\
          000000000100000000000000003e0600000001
        a reject with Proxy-States | \
          010000320f403f9473978057bd83d5cb98f4227a2102010767686f73742103705012fe769c865107f3c0df\
          715be50928b26c | Done | \
          Reject \
          0300002b681fa16e5b5c29942d02f63c102b77105012b7a7ab833a0ef2b8d923b6a9dd1491642102210370
        a malformed request with one | \
          010000400f403f9473978057bd83d5cb98f4227a5012 00*16 \
          01066e656d6f02120dbe708d93d413ce3196e43f782a0aee2003 | Done | \
          Reject 03000014072453aba835418a6fe17de435de3db1
    ";
    check_replies(&rt, CLIENT, AUTH, rows)
}

#[test]
fn accounting_response_is_not_signed(rt: HostRuntime) -> Result<(), Fail> {
    let rows = "
        an Accounting-Response | \
          04000039ecf63f7e60890af0ff73e06a9630bd6a28060000000120036e01066e656d6f2c0473315012 \
          00*16 | Done | Account 05000014fa8f9682e8a3711b01e00d46f5b00dc8
    ";
    check_replies(&rt, SIGNED, ACCT, rows)
}
