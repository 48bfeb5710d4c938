use super::{CLIENT, check};
use std::test::Fail;

// The padding is no part of the packet, and a datagram may have as much of it as UDP carries.
#[test]
fn request_of_the_rfc_is_an_ask(rt: HostRuntime) -> Result<(), Fail> {
    let rows = "
        alone | auth | <rfc> | \
          Own { account: 0, act: Ask { <key>, nas: Nas { client: 0, \
          name: Address([192, 168, 1, 16]) } } }
        with 5 octets of padding | auth | <rfc>0000000000 | \
          Own { account: 0, act: Ask { <key>, nas: Nas { client: 0, \
          name: Address([192, 168, 1, 16]) } } }
        in 4,097 octets | auth | <rfc> 00*4041 | \
          Own { account: 0, act: Ask { <key>, nas: Nas { client: 0, \
          name: Address([192, 168, 1, 16]) } } }
        in 65,507 octets | auth | <rfc> ff*65451 | \
          Own { account: 0, act: Ask { <key>, nas: Nas { client: 0, \
          name: Address([192, 168, 1, 16]) } } }
        with another Identifier | auth | \
          01ff00380f403f9473978057bd83d5cb98f4227a01066e656d6f02120dbe708d93d413ce3196e43f782a0a\
          ee0406c0a80110050600000003 | \
          Own { account: 0, act: Ask { key: Key { source: Source { address: [192, 168, 1, 16], \
          port: 1024 }, id: 255, authenticator: [15, 64, 63, 148, 115, 151, 128, 87, 189, 131, \
          213, 203, 152, 244, 34, 122] }, nas: Nas { client: 0, \
          name: Address([192, 168, 1, 16]) } } }
        with a second User-Name | auth | \
          0100003e0f403f9473978057bd83d5cb98f4227a01066e656d6f02120dbe708d93d413ce3196e43f782a0a\
          ee0406c0a8011005060000000301066e656d6f | Reject
        without its User-Password | auth | \
          010000260f403f9473978057bd83d5cb98f4227a01066e656d6f0406c0a80110050600000003 | Reject
    ";
    check(&rt, CLIENT, rows)
}

#[test]
fn request_shows_one_name_and_one_password(rt: HostRuntime) -> Result<(), Fail> {
    let rows = "
        a User-Password | auth | \
          0100002c0f403f9473978057bd83d5cb98f4227a01066e656d6f02120dbe708d93d413ce3196e43f782a0a\
          ee | <ask>
        a CHAP-Password | auth | \
          0100002d0f403f9473978057bd83d5cb98f4227a0313073f25c9ea76486dbb6e08f6da1baf940b01066e65\
          6d6f | <ask>
        both | auth | \
          0100003f0f403f9473978057bd83d5cb98f4227a01066e656d6f02120dbe708d93d413ce3196e43f782a0a\
          ee0313073f25c9ea76486dbb6e08f6da1baf940b | Reject
        neither | auth | 0100001a0f403f9473978057bd83d5cb98f4227a01066e656d6f | Reject
        two User-Passwords | auth | \
          0100003e0f403f9473978057bd83d5cb98f4227a01066e656d6f02120dbe708d93d413ce3196e43f782a0a\
          ee02120dbe708d93d413ce3196e43f782a0aee | Reject
        two CHAP-Passwords | auth | \
          010000400f403f9473978057bd83d5cb98f4227a01066e656d6f0313073f25c9ea76486dbb6e08f6da1baf\
          940b0313073f25c9ea76486dbb6e08f6da1baf940b | Reject
        no User-Name | auth | \
          010000260f403f9473978057bd83d5cb98f4227a02120dbe708d93d413ce3196e43f782a0aee | Reject
        two User-Names | auth | \
          010000320f403f9473978057bd83d5cb98f4227a01066e656d6f02120dbe708d93d413ce3196e43f782a0a\
          ee01066e656d6f | Reject
        a name that no account has | auth | \
          0100002b0f403f9473978057bd83d5cb98f4227a01056e656d02120dbe708d93d413ce3196e43f782a0aee | \
          Reject
        no attribute | auth | 010000140f403f9473978057bd83d5cb98f4227a | Reject
        a Message-Authenticator's Type in another place | auth | \
          0100003e0f403f9473978057bd83d5cb98f4227a01066e656d6f02120dbe708d93d413ce3196e43f782a0a\
          ee4f12 00*16 | <ask>
    ";
    check(&rt, CLIENT, rows)
}

// A CHAP-Challenge of no octets is one.
#[test]
fn challenge_counts_where_there_is_one(rt: HostRuntime) -> Result<(), Fail> {
    let rows = "
        its answer | auth | \
          010000380f403f9473978057bd83d5cb98f4227a01066e656d6f03130746c00f99865014f26df7168dc664\
          44033c0b6368616c6c656e6765 | <ask>
        its answer, before it | auth | \
          010000380f403f9473978057bd83d5cb98f4227a3c0b6368616c6c656e676503130746c00f99865014f26d\
          f7168dc664440301066e656d6f | <ask>
        its answer without it | auth | \
          0100002d0f403f9473978057bd83d5cb98f4227a01066e656d6f03130746c00f99865014f26df7168dc664\
          4403 | Reject
        the Request Authenticator's answer beside it | auth | \
          010000380f403f9473978057bd83d5cb98f4227a01066e656d6f0313073f25c9ea76486dbb6e08f6da1baf\
          940b3c0b6368616c6c656e6765 | Reject
        an empty one's answer | auth | \
          0100002f0f403f9473978057bd83d5cb98f4227a01066e656d6f031307ff63e76a885c89997eff5e6ee50c\
          ec113c02 | <ask>
        the Request Authenticator's answer beside an empty one | auth | \
          0100002f0f403f9473978057bd83d5cb98f4227a01066e656d6f0313073f25c9ea76486dbb6e08f6da1baf\
          940b3c02 | Reject
        two | auth | \
          010000430f403f9473978057bd83d5cb98f4227a01066e656d6f03130746c00f99865014f26df7168dc664\
          44033c0b6368616c6c656e67653c0b6368616c6c656e6765 | Reject
        beside a User-Password | auth | \
          010000370f403f9473978057bd83d5cb98f4227a01066e656d6f02120dbe708d93d413ce3196e43f782a0a\
          ee3c0b6368616c6c656e6765 | <ask>
        two beside a User-Password | auth | \
          010000420f403f9473978057bd83d5cb98f4227a01066e656d6f02120dbe708d93d413ce3196e43f782a0a\
          ee3c0b6368616c6c656e67653c0b6368616c6c656e6765 | Reject
    ";
    check(&rt, CLIENT, rows)
}

#[test]
fn malformed_request_is_bare(rt: HostRuntime) -> Result<(), Fail> {
    let rows = "
        a Length of 0 | auth | 010000180f403f9473978057bd83d5cb98f4227a01006e65 | Bare
        a Length of 1 | auth | 010000180f403f9473978057bd83d5cb98f4227a01016e65 | Bare
        a Length of 5 in 4 octets | auth | 010000180f403f9473978057bd83d5cb98f4227a01056e65 | Bare
        a Length of 255 | auth | 010000180f403f9473978057bd83d5cb98f4227a01ff6e65 | Bare
        no Length after a right request | auth | \
          0100002d0f403f9473978057bd83d5cb98f4227a01066e656d6f02120dbe708d93d413ce3196e43f782a0a\
          ee20 | Bare
    ";
    check(&rt, CLIENT, rows)
}

// With their headers.
#[test]
fn proxy_states_have_at_most_3900_octets(rt: HostRuntime) -> Result<(), Fail> {
    let rows = "
        3,900 octets | auth | \
          01000f680f403f9473978057bd83d5cb98f4227a<3900> \
          01066e656d6f02120dbe708d93d413ce3196e43f782a0aee | <ask>
        3,901 octets | auth | \
          01000f690f403f9473978057bd83d5cb98f4227a<3901> \
          01066e656d6f02120dbe708d93d413ce3196e43f782a0aee | ProxyTooLong
    ";
    check(&rt, CLIENT, rows)
}

#[test]
fn access_server_is_named_by_the_first_identifier_or_else_the_first_address(
    rt: HostRuntime,
) -> Result<(), Fail> {
    let rows = "
        an identifier | auth | \
          0100002f0f403f9473978057bd83d5cb98f4227a01066e656d6f02120dbe708d93d413ce3196e43f782a0a\
          ee20036e | Own { account: 0, act: Ask { <key>, <n> } }
        two identifiers | auth | \
          010000320f403f9473978057bd83d5cb98f4227a20036e01066e656d6f02120dbe708d93d413ce3196e43f\
          782a0aee20036d | Own { account: 0, act: Ask { <key>, <n> } }
        an address before an identifier | auth | \
          010000350f403f9473978057bd83d5cb98f4227a01066e656d6f02120dbe708d93d413ce3196e43f782a0a\
          ee04060a00000120036e | Own { account: 0, act: Ask { <key>, <n> } }
        an empty identifier | auth | \
          010000370f403f9473978057bd83d5cb98f4227a01066e656d6f02120dbe708d93d413ce3196e43f782a0a\
          ee04060a000001200220036e | \
          Own { account: 0, act: Ask { <key>, nas: Nas { client: 0, name: Identifier([]) } } }
        two addresses | auth | \
          010000380f403f9473978057bd83d5cb98f4227a01066e656d6f02120dbe708d93d413ce3196e43f782a0a\
          ee04060a00000104060a000002 | \
          Own { account: 0, act: Ask { <key>, nas: Nas { client: 0, \
          name: Address([10, 0, 0, 1]) } } }
        an address of 3 octets | auth | \
          010000310f403f9473978057bd83d5cb98f4227a01066e656d6f02120dbe708d93d413ce3196e43f782a0a\
          ee04050a0000 | \
          Own { account: 0, act: Ask { <key>, nas: Nas { client: 0, name: Address([10, 0, 0]) } } }
    ";
    check(&rt, CLIENT, rows)
}

// The User-Password of the RFC's request is arctangent.
#[test]
fn password_is_the_accounts(rt: HostRuntime) -> Result<(), Fail> {
    let rows = "
        arctangent | auth | \
          0100002c0f403f9473978057bd83d5cb98f4227a01066e656d6f02120dbe708d93d413ce3196e43f782a0a\
          ee | <ask>
        arctange | auth | \
          0100002f0f403f9473978057bd83d5cb98f4227a010973686f7274657202120dbe708d93d413ce3196e43f\
          782a0aee | Reject
        arctangent1 | auth | \
          0100002e0f403f9473978057bd83d5cb98f4227a01086c6f6e67657202120dbe708d93d413ce3196e43f78\
          2a0aee | Reject
        Arctangent | auth | \
          0100002f0f403f9473978057bd83d5cb98f4227a01096361706974616c02120dbe708d93d413ce3196e43f\
          782a0aee | Reject
    ";
    check(&rt, CLIENT, rows)
}
