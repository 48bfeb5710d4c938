use super::{CLIENT, STRANGER, check};
use rsl_event::Dropped;
use std::alloc::Global;
use std::test::Fail;

#[test]
fn length_comes_first(rt: HostRuntime) -> Result<(), Fail> {
    let rows = "
        nothing | auth |  | Short
        19 zero octets | auth | 00*19 | Short
        19 octets of the RFC's request | acct | 010000380f403f9473978057bd83d5cb98f422 | Short
        20 octets of the RFC's request | auth | 010000380f403f9473978057bd83d5cb98f4227a | BadLength
        all but the last octet of the RFC's request | auth | \
          010000380f403f9473978057bd83d5cb98f4227a01066e656d6f02120dbe708d93d413ce3196e43f782a0a\
          ee0406c0a801100506000000 | BadLength
        a Length of 0 | auth | \
          010000000f403f9473978057bd83d5cb98f4227a01066e656d6f02120dbe708d93d413ce3196e43f782a0a\
          ee0406c0a80110050600000003 00*4044 | BadLength
        a Length of 19 | auth | \
          010000130f403f9473978057bd83d5cb98f4227a01066e656d6f02120dbe708d93d413ce3196e43f782a0a\
          ee0406c0a80110050600000003 00*4044 | BadLength
        a Length of 4,097 | auth | \
          010010010f403f9473978057bd83d5cb98f4227a01066e656d6f02120dbe708d93d413ce3196e43f782a0a\
          ee0406c0a80110050600000003 00*4044 | BadLength
        a Length of 65,535 | acct | \
          0100ffff0f403f9473978057bd83d5cb98f4227a01066e656d6f02120dbe708d93d413ce3196e43f782a0a\
          ee0406c0a80110050600000003 00*4044 | BadLength
        a Length of 21 in 20 octets | auth | 01000015 00*16 | BadLength
    ";
    check(&rt, CLIENT, rows)
}

#[test]
fn stranger_comes_after_the_length_and_before_the_code(rt: HostRuntime) -> Result<(), Fail> {
    let rows = "
        19 octets | auth | 010000380f403f9473978057bd83d5cb98f422 | Short
        55 octets of 56 | acct | \
          010000380f403f9473978057bd83d5cb98f4227a01066e656d6f02120dbe708d93d413ce3196e43f782a0a\
          ee0406c0a801100506000000 | BadLength
        the RFC's request | auth | <rfc> | UnknownClient
        a code of the other port | acct | <rfc> | UnknownClient
    ";
    check(&rt, STRANGER, rows)
}

#[test]
fn code_is_that_of_the_port(rt: HostRuntime) -> Result<(), Fail> {
    let rows = "
        code 0 | auth | 00000014 00*16 | WrongCode
        an Access-Accept | auth | 02000014 00*16 | WrongCode
        an Accounting-Request on the other port | auth | 04000014 00*16 | WrongCode
        an Accounting-Response | acct | 05000014 00*16 | WrongCode
        the RFC's request on the other port | acct | <rfc> | WrongCode
    ";
    check(&rt, CLIENT, rows)
}

#[test]
fn accounting_authenticator_comes_before_the_attributes(rt: HostRuntime) -> Result<(), Fail> {
    let rows = "
        a header of zeros | acct | 04000014 00*16 | BadAuthenticator
        a wrong one before a Length of 0 | acct | 0400001c 00*16 2806000000070100 | BadAuthenticator
        its last octet changed | acct | \
          04000027d16ec3e2c1cc1cd9b6803bd0e9a1099e28060000000120036e01066e656d6f2c047331 | \
          BadAuthenticator
        an attribute changed | acct | \
          04000027d16ec3e2c1cc1cd9b6803bd0e9a1099f28060000000120036e01066e656d6f2c047332 | \
          BadAuthenticator
        another secret | acct | \
          040000275149fa60a346df20d0d63feeb5c42d8f28060000000120036e01066e656d6f2c047331 | \
          BadAuthenticator
        a Length of 0 | acct | 0400001c27c90e768c67eba74be1576b0a1f33ef2806000000070100 | Malformed
        a Length of 1 | acct | 0400001cb725905ab20d33aadcffb940c05d61d42806000000070101 | Malformed
        a Length of 3 in 2 octets | acct | \
          0400001c6710e65745028be6f84ea1a8636bc7c02806000000070103 | Malformed
        a Length of 255 | acct | 0400001c4598f61cac81b1ae0855402a33e9a23028060000000701ff | \
          Malformed
    ";
    check(&rt, CLIENT, rows)
}

// 3,901 octets of Proxy-State with their headers, and the greatest packet.
#[test]
fn long_proxy_states_come_after_a_malformed_list_and_before_the_status(
    rt: HostRuntime,
) -> Result<(), Fail> {
    let rows = "
        an Access-Request | auth | 01000f530f403f9473978057bd83d5cb98f4227a<3901> 0102 | \
          ProxyTooLong
        an Accounting-Request without a status | acct | \
          04000f530fd86b50862fba163e5733011d59659d<3901> 0102 | ProxyTooLong
        4,096 octets | auth | 010010000f403f9473978057bd83d5cb98f4227a<3825> 21fb 09*249 | \
          ProxyTooLong
        a malformed Access-Request | auth | 01000f530f403f9473978057bd83d5cb98f4227a<3901> 0103 | \
          Bare
        a malformed Accounting-Request | acct | \
          04000f53dfb3224f818452873e4820ae9f300608<3901> 0103 | Malformed
    ";
    check(&rt, CLIENT, rows)
}

#[test]
fn status_comes_before_the_session(rt: HostRuntime) -> Result<(), Fail> {
    let rows = "
        no attribute | acct | 04000014fcd975d9d84e32aa413fc071f40d551f | NoStatus
        no status and no session | acct | 0400001a08380dec7a2acf1e5e370b423888d71201066e656d6f | \
          NoStatus
        no status | acct | 0400001e55145e017dda3832b985360f52b12d2d01066e656d6f2c047331 | NoStatus
        a status of 3 octets | acct | \
          0400002300d1478ec9cbde069d963ab1084b4e53280500000101066e656d6f2c047331 | NoStatus
        a status of 3 octets before one of 4 | acct | \
          04000029ba22c9e8b4c4479153fd846542c6690e280500000128060000000101066e656d6f2c047331 | \
          NoStatus
        a Start without a session | acct | \
          040000206acb0310a202f4b58a10ab08446d369b28060000000101066e656d6f | NoSession
        a Stop without a session | acct | \
          0400002011363508fe94aba642171dcc1ffb9cbc28060000000201066e656d6f | NoSession
        an Interim-Update without a session | acct | \
          04000020a594cfc24c2ac4eb80a246e9d1c8e35628060000000301066e656d6f | NoSession
        an empty session before another | acct | \
          04000026e2f551473fd53b85bf33116001f295db28060000000101066e656d6f2c022c047331 | \
          NoSession
        a name that no account has | acct | \
          04000021e140828925928052e8178ba3d39f34ed280600000001010767686f7374 | NoSession
    ";
    check(&rt, CLIENT, rows)
}

/// What a drop prints, its name and its Debug.
fn names_of(alloc: Global, dropped: Dropped) -> Result<String, Fail> {
    Ok(format!(in alloc; "{dropped} {} {dropped:?}", dropped.name())?)
}

#[test]
fn drop_prints_its_name(rt: HostRuntime) -> Result<(), Fail> {
    for (dropped, names) in [
        (Dropped::Short, "Short Short Short"),
        (Dropped::BadLength, "BadLength BadLength BadLength"),
        (
            Dropped::UnknownClient,
            "UnknownClient UnknownClient UnknownClient",
        ),
        (Dropped::WrongCode, "WrongCode WrongCode WrongCode"),
        (
            Dropped::BadAuthenticator,
            "BadAuthenticator BadAuthenticator BadAuthenticator",
        ),
        (Dropped::Malformed, "Malformed Malformed Malformed"),
        (
            Dropped::BadSignature,
            "BadSignature BadSignature BadSignature",
        ),
        (Dropped::Unsigned, "Unsigned Unsigned Unsigned"),
        (
            Dropped::ProxyTooLong,
            "ProxyTooLong ProxyTooLong ProxyTooLong",
        ),
        (Dropped::NoStatus, "NoStatus NoStatus NoStatus"),
        (Dropped::NoSession, "NoSession NoSession NoSession"),
        (Dropped::NoMemory, "NoMemory NoMemory NoMemory"),
    ] {
        let found = names_of(rt.alloc(), dropped)?;
        assert_eq!(rt; found.as_str(), names);
    }
    Ok(())
}
