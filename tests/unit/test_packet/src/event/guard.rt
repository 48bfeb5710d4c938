//! Version 3 of the account file: what it makes of requests and answers. The octets were computed with
//! Python's hmac and hashlib.

use super::{
    ACCT, AUTH, BOOT, CLIENT, MeaningRows, OTHER, ReplyRows, check_spelled, meaning_of,
    reply_octets,
};
use rsl_account_file::read_config;
use rsl_accounts::Config;
use rsl_event::{Decision, Detail, Port, prepare, prepare_in_detail};
use rsl_reply::Dictionary;
use std::alloc::Global;
use std::io::Eprint;
use std::test::Fail;
use test_rows::{Hex, Subject, front, octets_of, printed};

/// A client that need not sign, one that does not say so and has to, an account and a disabled one.
const FILE: &str = r#"
version = 3
shards = 1
reserve_secs = 60
live_secs = 900
grace_secs = 900
closed_secs = 3600
keep_secs = 10

[[client]]
address = "192.168.1.16"
secret = "xyzzy5461xyzzy5461"
signed = false

[[client]]
address = "192.168.1.17"
secret = "another secret of a client"

[[account]]
name = "nemo"
password = "arctangent"
places = 1
ports = 1

[[account]]
name = "gone"
password = "arctangent"
places = 1
ports = 1
disabled = true
"#;

/// The configuration of that file.
fn guarded(alloc: Global) -> Result<Config, Fail> {
    Ok(read_config(alloc, &Dictionary::new(alloc), FILE.as_bytes())?)
}

// CVE-2024-3596: somebody between access server and server adds a Proxy-State that the server repeats
// in its answer, and makes of a reject an accept with the same Response Authenticator.
#[test]
fn unsigned_request_with_a_proxy_state_has_no_answer(rt: HostRuntime) -> Result<(), Fail> {
    let rows = "
        no Message-Authenticator and no Proxy-State | auth | \
          0100002c0f403f9473978057bd83d5cb98f4227a01066e656d6f02121701fe9011df58343bef320ad7ac13\
          a5 | \
          <ask>
        by CHAP, which needs no secret | auth | \
          0100002d0f403f9473978057bd83d5cb98f4227a01066e656d6f0313073f25c9ea76486dbb6e08f6da1baf\
          940b | \
          <ask>
        a Proxy-State | auth | \
          0100002f0f403f9473978057bd83d5cb98f4227a01066e656d6f02121701fe9011df58343bef320ad7ac13\
          a5210370 | \
          UnsignedProxy
        an empty one | auth | \
          0100002e0f403f9473978057bd83d5cb98f4227a210201066e656d6f02121701fe9011df58343bef320ad7\
          ac13a5 | \
          UnsignedProxy
        one by whom the digest is to be chosen | auth | \
          010000920f403f9473978057bd83d5cb98f4227a01066e656d6f21660102030405060708090a0b0c0d0e0f\
          101112131415161718191a1b1c1d1e1f202122232425262728292a2b2c2d2e2f303132333435363738393a\
          3b3c3d3e3f404142434445464748494a4b4c4d4e4f505152535455565758595a5b5c5d5e5f606162636402\
          121701fe9011df58343bef320ad7ac13a5 | \
          UnsignedProxy
        one beside a name that no account has | auth | \
          010000310f403f9473978057bd83d5cb98f4227a01086e6f626f647921037002121701fe9011df58343bef\
          320ad7ac13a5 | \
          UnsignedProxy
        one and CHAP | auth | \
          010000300f403f9473978057bd83d5cb98f4227a01066e656d6f0313073f25c9ea76486dbb6e08f6da1baf\
          940b210370 | \
          UnsignedProxy
        3,900 octets of them | auth | 01000f680f403f9473978057bd83d5cb98f4227a<3900> \
          01066e656d6f02121701fe9011df58343bef320ad7ac13a5 | UnsignedProxy
        3,901 octets of them | auth | 01000f690f403f9473978057bd83d5cb98f4227a<3901> \
          01066e656d6f02121701fe9011df58343bef320ad7ac13a5 | UnsignedProxy
        one and a right Message-Authenticator | auth | \
          010000410f403f9473978057bd83d5cb98f4227a5012e97126cf4a6b508201e4c8c03194a0c301066e656d\
          6f02121701fe9011df58343bef320ad7ac13a5210370 | \
          <ask>
        one and a wrong one | auth | \
          010000410f403f9473978057bd83d5cb98f4227a5012e97126cf4a6b508201e4c8c03194a0c201066e656d\
          6f02121701fe9011df58343bef320ad7ac13a5210370 | \
          BadSignature
        one in a malformed request, which repeats nothing | auth | \
          010000310f403f9473978057bd83d5cb98f4227a01066e656d6f21037002121701fe9011df58343bef320a\
          d7ac13a52003 | \
          Bare
        one in accounting | acct | \
          0400002ade1b550f29ee0355ad76ed032a2cfae828060000000320036e01066e656d6f2c047331210370 | \
          <alive>
    ";
    let (config, source) = (guarded(rt.alloc())?, CLIENT);
    check_spelled(&rt, &MeaningRows { config, source }, rows)
}

#[test]
fn client_that_does_not_say_so_has_to_sign(rt: HostRuntime) -> Result<(), Fail> {
    let rows = "
        no Message-Authenticator | auth | \
          0100002c0f403f9473978057bd83d5cb98f4227a01066e656d6f0212b704fcbea7ff5ae789237b19c3519f\
          f8 | \
          Unsigned
        nor, and a Proxy-State | auth | \
          0100002f0f403f9473978057bd83d5cb98f4227a01066e656d6f0212b704fcbea7ff5ae789237b19c3519f\
          f8210370 | \
          Unsigned
        a right one, and a disabled account | auth | \
          0100003e0f403f9473978057bd83d5cb98f4227a501237d291e665c46e195927d6dc6ee423c30106676f6e\
          650212b704fcbea7ff5ae789237b19c3519ff8 | \
          Reject
    ";
    let (config, source) = (guarded(rt.alloc())?, OTHER);
    check_spelled(&rt, &MeaningRows { config, source }, rows)
}

#[test]
fn disabled_account_is_counted_and_not_let_in(rt: HostRuntime) -> Result<(), Fail> {
    let rows = "
        its password | auth | \
          0100002c0f403f9473978057bd83d5cb98f4227a0106676f6e6502121701fe9011df58343bef320ad7ac13\
          a5 | \
          Reject
        its accounting | acct | \
          04000027229482e159bbf45bc5bf20d318aafd7d28060000000320036e0106676f6e652c047331 | \
          Own { account: 1, act: Alive { <n>, <s1>, bundle: None, class: None } }
        its Stop | acct | \
          0400002745128b6c9eee6a0466ac527ab1b7b29128060000000220036e0106676f6e652c047331 | \
          Own { account: 1, act: Stop { <n>, <s1> } }
    ";
    let (config, source) = (guarded(rt.alloc())?, CLIENT);
    check_spelled(&rt, &MeaningRows { config, source }, rows)
}

/// Why requests are rejected.
struct Causes;

impl Subject for Causes {
    fn found(&self, alloc: Global, fields: &[&str]) -> Result<String, Fail> {
        let [datagram] = fields else {
            return Err("a row has a datagram")?;
        };
        let (config, octets) = (guarded(alloc)?, octets_of(alloc, datagram)?);
        let found = prepare_in_detail(alloc, &config, BOOT, AUTH, CLIENT, &octets)?;
        match found.detail {
            Detail::Rejected(cause) => printed(alloc, &cause),
            Detail::Asks | Detail::Accounting(_) => Ok(String::from_str(alloc, "none")?),
        }
    }
}

#[test]
fn disabled_account_is_named_whatever_its_password_is(rt: HostRuntime) -> Result<(), Fail> {
    let rows = "
        the account's password | \
          0100002c0f403f9473978057bd83d5cb98f4227a0106676f6e6502121701fe9011df58343bef320ad7ac13\
          a5 | \
          DisabledAccount
        another password | \
          0100002c0f403f9473978057bd83d5cb98f4227a0106676f6e6502121701fe9011df5834559b320ad7ac13\
          a5 | \
          DisabledAccount
        no password | \
          0100001a0f403f9473978057bd83d5cb98f4227a0106676f6e65 | NotOnePassword
        the password by CHAP | \
          0100002d0f403f9473978057bd83d5cb98f4227a0106676f6e650313073f25c9ea76486dbb6e08f6da1baf\
          940b | DisabledAccount
        another by CHAP | \
          0100002d0f403f9473978057bd83d5cb98f4227a0106676f6e650313000000000000000000000000000000\
          0000 | DisabledAccount
        another account | \
          0100002c0f403f9473978057bd83d5cb98f4227a01066e656d6f02121701fe9011df58343bef320ad7ac13\
          a5 | \
          none
    ";
    check_spelled(&rt, &Causes, rows)
}

#[test]
fn answer_to_an_access_request_is_signed(rt: HostRuntime) -> Result<(), Fail> {
    let rows = "
        an accept | \
          0100002c0f403f9473978057bd83d5cb98f4227a01066e656d6f02121701fe9011df58343bef320ad7ac13\
          a5 | Accept 0 | \
          Accept(0) \
          0200003e0f985723da17152832b329b698f800b650126d8c62d5119d2fd6386aa64fd6b022531912000000\
          000000000100000000000000003e0600000001
        a limit reject | \
          0100002c0f403f9473978057bd83d5cb98f4227a01066e656d6f02121701fe9011df58343bef320ad7ac13\
          a5 | LimitReject | \
          LimitReject \
          0300003db4174d100d2b889edb7dc65118f739b750126adecf15202a2532e2b29c4b0c9e3eca1217536573\
          73696f6e206c696d69742072656163686564
        a reject of a disabled account, which says nothing of a limit | \
          0100002c0f403f9473978057bd83d5cb98f4227a0106676f6e6502121701fe9011df58343bef320ad7ac13\
          a5 | Done | \
          Reject 03000026e4bf49cf0477a99d52b4a79be26673a85012cad2e0957ed9350e4d4032ac6b382402
        a reject of a malformed request | \
          010000310f403f9473978057bd83d5cb98f4227a01066e656d6f21037002121701fe9011df58343bef320a\
          d7ac13a52003 | Done | \
          Reject 03000026e4bf49cf0477a99d52b4a79be26673a85012cad2e0957ed9350e4d4032ac6b382402
        an accept of a signed request with a Proxy-State | \
          010000410f403f9473978057bd83d5cb98f4227a5012e97126cf4a6b508201e4c8c03194a0c301066e656d\
          6f02121701fe9011df58343bef320ad7ac13a5210370 | Accept 0 | \
          Accept(0) \
          020000416cc7626e0ebde667992d47f53570ce45501270ff95818210dd05deebeb3177e760fc1912000000\
          000000000100000000000000003e0600000001210370
    ";
    check_replies(&rt, AUTH, rows)
}

#[test]
fn accounting_response_is_not(rt: HostRuntime) -> Result<(), Fail> {
    let rows = "
        an Accounting-Response | \
          0400002a965970670813fff0c15c952863ff244328060000000320036e0106676f6e652c047331210370 | Done | \
          Account 05000017f2d24ffb51e400c183d6178114bd1d72210370
    ";
    check_replies(&rt, ACCT, rows)
}

fn check_replies<R: AllocGlobal + Eprint>(rt: &R, port: Port, rows: &str) -> Result<(), Fail> {
    let (config, source) = (guarded(rt.alloc())?, CLIENT);
    let replies = ReplyRows {
        config,
        source,
        port,
    };
    check_spelled(rt, &replies, rows)
}

/// The first two octets of the attributes of each answer to a request, one for each decision, or why
/// there is none.
struct First;

impl Subject for First {
    fn found(&self, alloc: Global, fields: &[&str]) -> Result<String, Fail> {
        let [datagram] = fields else {
            return Err("a row has a datagram")?;
        };
        let (config, octets) = (guarded(alloc)?, octets_of(alloc, datagram)?);
        let mut text = String::new(alloc);
        for decision in [Decision::Accept(0), Decision::LimitReject, Decision::Done] {
            match prepare(alloc, &config, BOOT, AUTH, CLIENT, &octets) {
                Ok(prepared) => {
                    let answer = reply_octets(alloc, &prepared, &config, decision)?;
                    let (_header, attributes) = answer.as_slice().split_at(20.min(answer.len()));
                    write!(text, "{:?} ", Hex(front(attributes, 2)))?;
                }
                Err(_) => return meaning_of(alloc, &config, AUTH, CLIENT, &octets),
            }
        }
        Ok(String::from_str(alloc, text.as_str().trim_end())?)
    }
}

#[test]
fn no_answer_to_an_access_request_is_unsigned(rt: HostRuntime) -> Result<(), Fail> {
    let rows = "
        no Message-Authenticator | \
          0100002c0f403f9473978057bd83d5cb98f4227a01066e656d6f02121701fe9011df58343bef320ad7ac13\
          a5 | \
          5012 5012 5012
        CHAP | \
          0100002d0f403f9473978057bd83d5cb98f4227a01066e656d6f0313073f25c9ea76486dbb6e08f6da1baf\
          940b | \
          5012 5012 5012
        a wrong password | \
          0100002c0f403f9473978057bd83d5cb98f4227a01066e656d6f02121701fe9011df5834559b320ad7ac13\
          a5 | \
          5012 5012 5012
        a name that no account has | \
          0100002e0f403f9473978057bd83d5cb98f4227a01086e6f626f647902121701fe9011df58343bef320ad7\
          ac13a5 | \
          5012 5012 5012
        a disabled account | \
          0100002c0f403f9473978057bd83d5cb98f4227a0106676f6e6502121701fe9011df58343bef320ad7ac13\
          a5 | \
          5012 5012 5012
        no attribute | \
          010000140f403f9473978057bd83d5cb98f4227a | \
          5012 5012 5012
        malformed | \
          0100001c0f403f9473978057bd83d5cb98f4227a01066e656d6f2003 | \
          5012 5012 5012
        malformed with a Proxy-State | \
          010000190f403f9473978057bd83d5cb98f4227a2103702003 | \
          5012 5012 5012
        a Message-Authenticator | \
          0100003e0f403f9473978057bd83d5cb98f4227a01066e656d6f501217f175d72f41f071ef53929c11e3da\
          a202121701fe9011df58343bef320ad7ac13a5 | \
          5012 5012 5012
        a Message-Authenticator and a Proxy-State | \
          010000410f403f9473978057bd83d5cb98f4227a01066e656d6f2103705012ebe723c2f846635e3a3b805e\
          febcf29a02121701fe9011df58343bef320ad7ac13a5 | \
          5012 5012 5012
        a Proxy-State | \
          0100002f0f403f9473978057bd83d5cb98f4227a01066e656d6f02121701fe9011df58343bef320ad7ac13\
          a5210370 | \
          UnsignedProxy
        a Proxy-State of the attacker's choice | \
          010000920f403f9473978057bd83d5cb98f4227a01066e656d6f21660102030405060708090a0b0c0d0e0f\
          101112131415161718191a1b1c1d1e1f202122232425262728292a2b2c2d2e2f303132333435363738393a\
          3b3c3d3e3f404142434445464748494a4b4c4d4e4f505152535455565758595a5b5c5d5e5f606162636402\
          121701fe9011df58343bef320ad7ac13a5 | \
          UnsignedProxy
    ";
    check_spelled(&rt, &First, rows)
}
