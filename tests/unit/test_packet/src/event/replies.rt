use super::{ACCT, AUTH, CLIENT, OTHER, check_replies};
use std::test::Fail;

// RFC 2865 sections 3 and 5.33, and RFC 2869 section 5.16.
#[test]
fn reply_has_the_attributes_of_its_decision_and_then_the_proxy_states(
    rt: HostRuntime,
) -> Result<(), Fail> {
    let rows = "
        an accept | <rfc> | Accept 0 | \
          Accept(0) \
          0200002c7fa85d1b244f70f55c748cf7f44942871912000000000000000100000000000000003e06000000\
          01
        an accept of an account with all attributes | \
          0100002c0f403f9473978057bd83d5cb98f4227a010666756c6c02120dbe708d93d413ce3196e43f782a0a\
          ee | Accept 7 | \
          Accept(7) \
          020000448e00864368723f4c1f040978d2e08e491912000000000000000100000000000000073e06000000\
          100606000000020706000000011b0600000e101c0600000258
        the greatest accept number and Identifier | \
          01ff00380f403f9473978057bd83d5cb98f4227a01066e656d6f02120dbe708d93d413ce3196e43f782a0a\
          ee0406c0a80110050600000003 | Accept 18446744073709551614 | \
          Accept(18446744073709551614) \
          02ff002c85202c625a912e2035b8f0eee1aef95519120000000000000001fffffffffffffffe3e06000000\
          01
        a limit reject | <rfc> | LimitReject | \
          LimitReject \
          0300002b7fd581ea748d151b6509911236d3d392121753657373696f6e206c696d69742072656163686564
        an ask that was not decided | <rfc> | Done | \
          LimitReject \
          0300002b7fd581ea748d151b6509911236d3d392121753657373696f6e206c696d69742072656163686564
        another password | \
          0100002f0f403f9473978057bd83d5cb98f4227a010973686f7274657202120dbe708d93d413ce3196e43f\
          782a0aee | Done | Reject 03000014072453aba835418a6fe17de435de3db1
        a reject with Proxy-States | \
          010000230f403f9473978057bd83d5cb98f4227a2102010767686f737421037020036e | Done | \
          Reject 030000196ce0cecac0289712ca1e25314a49347e2102210370
        a malformed request | 01070016 00*16 0101 | Done | \
          Reject 03070014f7736c975c3d2175bb9feeadefc4ca84
        a malformed request with a Proxy-State | \
          010000180f403f9473978057bd83d5cb98f4227a21020101 | Done | \
          Reject 03000014072453aba835418a6fe17de435de3db1
        3,900 octets of Proxy-State | \
          01000f680f403f9473978057bd83d5cb98f4227a<3900>01066e656d6f02120dbe708d93d413ce3196e43f\
          782a0aee | Accept 0 | \
          Accept(0) \
          02000f68988d816e740f50922edec49aa044cfe81912000000000000000100000000000000003e06000000\
          01<3900>
        the longest accept | \
          01000f680f403f9473978057bd83d5cb98f4227a<3900>010666756c6c02120dbe708d93d413ce3196e43f\
          782a0aee | Accept 0 | \
          Accept(0) \
          02000f806c743f962b098b15b7fbfbba44f11f651912000000000000000100000000000000003e06000000\
          100606000000020706000000011b0600000e101c0600000258<3900>
        an accept with the seconds between interim updates | \
          0100002c0f403f9473978057bd83d5cb98f4227a0106746f6c6402120dbe708d93d413ce3196e43f782a0a\
          ee | Accept 7 | \
          Accept(7) \
          0200004ae0f98838b958b542b23dc49716e34af71912000000000000000100000000000000073e06000000\
          100606000000020706000000011b0600000e101c0600000258550600000258
        the same before Proxy-States | \
          010000310f403f9473978057bd83d5cb98f4227a0106746f6c6402120dbe708d93d413ce3196e43f782a0a\
          ee2103702102 | Accept 7 | \
          Accept(7) \
          0200004f4efe398b14c4a26f8364befe60fcdcdc1912000000000000000100000000000000073e06000000\
          100606000000020706000000011b0600000e101c06000002585506000002582103702102
        these and no other attribute of the account | \
          0100002f0f403f9473978057bd83d5cb98f4227a010661736b7302120dbe708d93d413ce3196e43f782a0a\
          ee210370 | Accept 0 | \
          Accept(0) \
          020000355954c64cb8766badd8dd9b9c1e62edea1912000000000000000100000000000000003e06000000\
          0155060000003c210370
        a limit reject of an account that has them | \
          0100002c0f403f9473978057bd83d5cb98f4227a0106746f6c6402120dbe708d93d413ce3196e43f782a0a\
          ee | LimitReject | \
          LimitReject \
          0300002b7fd581ea748d151b6509911236d3d392121753657373696f6e206c696d69742072656163686564
        the longest accept with them | \
          01000f680f403f9473978057bd83d5cb98f4227a<3900>0106746f6c6402120dbe708d93d413ce3196e43f\
          782a0aee | Accept 0 | \
          Accept(0) \
          02000f862a439cd10130d85d802af7b3fae3e2871912000000000000000100000000000000003e06000000\
          100606000000020706000000011b0600000e101c0600000258550600000258<3900>
    ";
    check_replies(&rt, CLIENT, AUTH, rows)
}

// RFC 2866 section 4.2.
#[test]
fn accounting_response_has_the_proxy_states(rt: HostRuntime) -> Result<(), Fail> {
    let rows = "
        a Start | 040900270373173c35e93d66ef906392e58a70a028060000000120036e01066e656d6f2c047331 | \
          Done | Account 05090014a9beeb330987b2499525f322f7472557
        a Stop with Proxy-States | \
          0400002c4e0c65b85ee2821cd225a9f373502dc1280600000002210220036e01066e656d6f2c0473312103\
          70 | Done | Account 0500001926674c4bfafb3e4e346047e0ff58ec282102210370
        an Accounting-On with Proxy-States | \
          040000226121652410802b7814ab54241d51df33280600000007210220036e210370 | Done | \
          Account 05000019d227f2ae7a7b901ac7599a9df5daf69f2102210370
        a stray with a Proxy-State | 0400001d86eceb8560a84ba0732ba00dd6e0a4e928060000000f210370 | \
          Done | Account 05000017db540bf480c771521f73df8e1e0f50d6210370
        a decision that is no ask's | \
          04000027d16ec3e2c1cc1cd9b6803bd0e9a1099f28060000000120036e01066e656d6f2c047331 | \
          Accept 0 | Account 05000014476f0010eda87b5dcfb581ddfdcff5a8
        the longest Accounting-Response | \
          04000f565f95ae5d2e9a5f0347c6f91ae92e4467<3900>280600000007 | Done | \
          Account 05000f508986fdefba904410e92040cc6206d322<3900>
    ";
    check_replies(&rt, CLIENT, ACCT, rows)
}

#[test]
fn reply_is_sealed_with_the_clients_secret(rt: HostRuntime) -> Result<(), Fail> {
    let rows = "
        another client's secret | \
          0100002c0f403f9473978057bd83d5cb98f4227a01066e656d6f021258c1a5d901c4fc0ae0758bfcede9b8\
          d3 | Accept 0 | \
          Accept(0) \
          0200002c6373c9b925ddcc424c7e30dea4b24f371912000000000000000100000000000000003e06000000\
          01
    ";
    check_replies(&rt, OTHER, AUTH, rows)
}
