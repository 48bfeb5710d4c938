use super::{CLIENT, check};
use std::test::Fail;

// The first attribute of a Type counts.
#[test]
fn start_and_interim_update_are_alive(rt: HostRuntime) -> Result<(), Fail> {
    let rows = "
        a Start | acct | \
          04000027d16ec3e2c1cc1cd9b6803bd0e9a1099f28060000000120036e01066e656d6f2c047331 | \
          <alive>
        an Interim-Update | acct | \
          040000278ad775659b68d7f636bd815f06d3b4fb2c04733101066e656d6f20036e280600000003 | \
          <alive>
        a second status | acct | \
          0400002d8abe0c68050ba7d604e57ee90759748728060000000128060000000220036e01066e656d6f2c04\
          7331 | <alive>
        a second name | acct | \
          0400002eb0534cdfa23d95b9e6595c448244f2a928060000000120036e01066e656d6f010767686f73742c\
          047331 | <alive>
        a second session | acct | \
          0400002b2f087d509c874c7ee0154747d35f550c28060000000120036e01066e656d6f2c0473312c047332 | \
          <alive>
        another Identifier | acct | \
          04ff002707b8e0deb07fd1c69bd3421e9553bcf828060000000120036e01066e656d6f2c047331 | \
          <alive>
        padding | acct | \
          04000027d16ec3e2c1cc1cd9b6803bd0e9a1099f28060000000120036e01066e656d6f2c04733100000000\
          00 | <alive>
        in 65,507 octets | acct | \
          04000027d16ec3e2c1cc1cd9b6803bd0e9a1099f28060000000120036e01066e656d6f2c047331 \
          ff*65468 | <alive>
    ";
    check(&rt, CLIENT, rows)
}

// An empty first Acct-Multi-Session-Id is none. A Class of this server has 16 octets and begins
// with its boot number.
#[test]
fn first_bundle_id_and_first_class_of_this_server_count(rt: HostRuntime) -> Result<(), Fail> {
    let rows = "
        a bundle | acct | \
          0400004f75468ab31d9ee1b3de8278ee6136661f28060000000120036e01066e656d6f2c04733132036d32\
          021912000000000000000200000000000000051911000000000000000100000000000000 | \
          Own { account: 0, act: Alive { <n>, <s1>, <m>, class: None } }
        an empty bundle before another | acct | \
          0400004f4d717694ed433fff2f1f460b04a50cb928060000000120036e01066e656d6f2c04733132023203\
          6d1912000000000000000200000000000000051911000000000000000100000000000000 | <alive>
        a class before another | acct | \
          0400004fc383bf08c1840a2da9b3f8df17e3e22328060000000120036e01066e656d6f2c04733132023202\
          191200000000000000010000000000000005191200000000000000010000000000000006 | \
          Own { account: 0, act: Alive { <n>, <s1>, bundle: None, class: Some(5) } }
        a bundle after a class | acct | \
          0400004e7e677f7adacc16208e27dd5b9c432da128060000000120036e01066e656d6f2c04733119120000\
          000000000001000000000000000619120000000000000001000000000000000532036d | \
          Own { account: 0, act: Alive { <n>, <s1>, <m>, class: Some(6) } }
        another server's class before this one's | acct | \
          040000607084c3a72f891b54e622988fc3e2d57a28060000000120036e01066e656d6f2c04733119120000\
          00000000000200000000000000051912000000000000000100000000000000051912000000000000000100\
          0000000000000632036d | \
          Own { account: 0, act: Alive { <n>, <s1>, <m>, class: Some(5) } }
        a class of 15 octets before this server's | acct | \
          0400006e2b48f36600e35d971965eee699ba9b9b28060000000120036e01066e656d6f2c04733119110000\
          00000000000100000000000000191200000000000000020000000000000005191200000000000000010000\
          000000000006191200000000000000010000000000000005 | \
          Own { account: 0, act: Alive { <n>, <s1>, bundle: None, class: Some(6) } }
        a class of 17 octets | acct | \
          0400003a4837ac5969e398984d20b949413dec1128060000000120036e01066e656d6f2c04733119130000\
          000000000001000000000000000500 | <alive>
        the greatest number | acct | \
          040000391e583e1c80a26b23812c66c0afc5d1ca28060000000120036e01066e656d6f2c04733119120000\
          000000000001ffffffffffffffff | \
          Own { account: 0, act: Alive { <n>, <s1>, bundle: None, class: \
          Some(18446744073709551615) } }
    ";
    check(&rt, CLIENT, rows)
}

#[test]
fn stop_ends_the_session(rt: HostRuntime) -> Result<(), Fail> {
    let rows = "
        a Stop | acct | \
          04000027274623da252c107a5cac2503f6557f5728060000000220036e01066e656d6f2c047331 | \
          Own { account: 0, act: Stop { <n>, <s1> } }
        with a bundle and a class | acct | \
          0400003c293eaec4373b210a03d4e6cefb2e086d28060000000220036e01066e656d6f2c04733132036d19\
          1200000000000000010000000000000005 | Own { account: 0, act: Stop { <n>, <s1> } }
    ";
    check(&rt, CLIENT, rows)
}

// What the packet does not have is empty.
#[test]
fn other_accounting_is_a_stray(rt: HostRuntime) -> Result<(), Fail> {
    let rows = "
        a Start of a name that no account has | acct | \
          040000288ba1a3a9916f12c12dd209a62f5a615428060000000120036e010767686f73742c047331 | \
          Stray(Note { <n>, status: 1, name: [103, 104, 111, 115, 116], <s1> })
        such a name before an account's | acct | \
          0400002e2d864cb5eb29ab21526eccf38fce44c828060000000120036e010767686f737401066e656d6f2c\
          047331 | \
          Stray(Note { <n>, status: 1, name: [103, 104, 111, 115, 116], <s1> })
        a Start without a name | acct | \
          0400002193028aa7ed3568e49ba902db7fef8c9d28060000000120036e2c047331 | \
          Stray(Note { <n>, status: 1, name: [], <s1> })
        a Stop of a name that no account has | acct | \
          04000028afc4f5737cfa342e37234ba15ca6b15628060000000220036e010767686f73742c047331 | \
          Stray(Note { <n>, status: 2, name: [103, 104, 111, 115, 116], <s1> })
        another status without a session | acct | \
          04000023e53384a3cd20a1e2c45b5d2958a8d43028060000000f20036e01066e656d6f | \
          Stray(Note { <n>, status: 15, name: [110, 101, 109, 111], session: [] })
        another status alone | acct | 0400001a985ee9191f60a3e19a7ce717b01628c528060000000f | \
          Stray(Note { nas: Nas { client: 0, name: Unnamed }, status: 15, name: [], session: [] })
        a great status | acct | \
          040000277cfc311f30c1de76fe977caac219483728060100000120036e01066e656d6f2c047331 | \
          Stray(Note { <n>, status: 16777217, name: [110, 101, 109, 111], \
          <s1> })
    ";
    check(&rt, CLIENT, rows)
}

#[test]
fn accounting_on_and_off_restart_the_access_server(rt: HostRuntime) -> Result<(), Fail> {
    let rows = "
        On | acct | 0400001e18579ea377c6a7b88105566861ad8dba28060000000720046e31 | \
          Restart { nas: Nas { client: 0, name: Identifier([110, 49]) } }
        Off | acct | 04000022aba022f3e6683528d8cbebcfa309501c28060000000820046e3120046e32 | \
          Restart { nas: Nas { client: 0, name: Identifier([110, 49]) } }
        an address before an identifier | acct | \
          04000028a43a936819fb1ac27b076dbb727824dd28060000000704060a00000120046e3220046e31 | \
          Restart { nas: Nas { client: 0, name: Identifier([110, 50]) } }
        an empty identifier | acct | \
          04000022186027066e7f54a603b2edd98c9dd39528060000000704060a0000012002 | \
          Restart { nas: Nas { client: 0, name: Identifier([]) } }
        addresses alone | acct | \
          0400002697cad3492ba6e186ec9502333d2a916e28060000000704060a00000104060a000002 | \
          Restart { nas: Nas { client: 0, name: Address([10, 0, 0, 1]) } }
        neither | acct | 0400001a337a14cb7a2fa5b3d8964a8ded7b86ad280600000007 | \
          Restart { nas: Nas { client: 0, name: Unnamed } }
        a name and a session beside it | acct | \
          04000024ac0c6eb76d5d44d35b5bae2c0ad2fdcf28060000000801066e656d6f2c047331 | \
          Restart { nas: Nas { client: 0, name: Unnamed } }
    ";
    check(&rt, CLIENT, rows)
}
