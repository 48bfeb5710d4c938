//! The station of a request, and the delay of a restart: version 3 of the account file. The octets were
//! computed with Python's hashlib.

use super::{CLIENT, MeaningRows, check_spelled};
use rsl_account_file::read_config;
use rsl_accounts::Config;
use rsl_reply::Dictionary;
use std::alloc::Global;
use std::io::Eprint;
use std::test::Fail;
use test_rows::replaced;

/// A client that need not sign, an account with the head's `station`, one that does not count by
/// stations, and one that does.
const FILE: &str = r#"
version = 3
shards = 1
reserve_secs = 60
live_secs = 900
grace_secs = 900
closed_secs = 3600
keep_secs = 10
station = <station>
delay_time = <delay>

[[client]]
address = "192.168.1.16"
secret = "xyzzy5461xyzzy5461"
signed = false

[[account]]
name = "nemo"
password = "arctangent"
places = 1
ports = 1

[[account]]
name = "none"
password = "arctangent"
places = 1
ports = 1
station = false

[[account]]
name = "some"
password = "arctangent"
places = 1
ports = 1
station = true
"#;

/// Words of rows, a line each, as in `super::WORDS`: what an ask and an alive mean up to their
/// station, and stations.
const WORDS: &str = "\
<asks> = Own { account: 0, act: Ask { <key>, <n> } }
<asks by> = Own { account: 0, act: Ask { <key>, <n>,
<goes on by> = Own { account: 0, act: Alive { <n>, <s1>, bundle: None, class: None,
<restart> = Restart { <n> }
<mac> = station: [48, 48, 45, 49, 48, 45, 65, 52, 45, 50, 51, 45, 49, 57, 45, 67, 48]
<64> = station: [97, 97, 97, 97, 97, 97, 97, 97, 97, 97, 97, 97, 97, 97, 97, 97, 97, 97, 97, \
    97, 97, 97, 97, 97, 97, 97, 97, 97, 97, 97, 97, 97, 97, 97, 97, 97, 97, 97, 97, 97, 97, \
    97, 97, 97, 97, 97, 97, 97, 97, 97, 97, 97, 97, 97, 97, 97, 97, 97, 97, 97, 97, 97, 97, \
    97]";

/// The configuration of that file, with these `station` and `delay_time` at its head.
fn config_of(alloc: Global, station: &str, delay: &str) -> Result<Config, Fail> {
    let text = FILE.replace(alloc, "<station>", station)?;
    let text = text.as_str().replace(alloc, "<delay>", delay)?;
    Ok(read_config(alloc, &Dictionary::new(alloc), text.as_bytes())?)
}

/// Compares what datagrams of the client mean, under a configuration, with what rows expect.
fn check<R: AllocGlobal + Eprint>(rt: &R, config: Config, rows: &str) -> Result<(), Fail> {
    let rows = replaced(rt.alloc(), rows, WORDS)?;
    let source = CLIENT;
    check_spelled(rt, &MeaningRows { config, source }, rows.as_str())
}

// The first attribute counts, and one of more than 64 octets or of none is no station.
#[test]
fn ask_has_the_station_that_it_names(rt: HostRuntime) -> Result<(), Fail> {
    let rows = "
        a station | auth | \
          010000320f403f9473978057bd83d5cb98f4227a01066e656d6f02121701fe9011df58343bef320ad7ac13\
          a520036e1f0361 | \
          <asks by> station: [97] } }
        a MAC address | auth | \
          010000420f403f9473978057bd83d5cb98f4227a01066e656d6f02121701fe9011df58343bef320ad7ac13\
          a520036e1f1330302d31302d41342d32332d31392d4330 | \
          <asks by> <mac> } }
        64 octets | auth | \
          010000710f403f9473978057bd83d5cb98f4227a01066e656d6f02121701fe9011df58343bef320ad7ac13\
          a520036e1f42 61*64 | \
          <asks by> <64> } }
        65 octets | auth | \
          010000720f403f9473978057bd83d5cb98f4227a01066e656d6f02121701fe9011df58343bef320ad7ac13\
          a520036e1f43 61*64 61 | \
          <asks>
        no octet | auth | \
          010000310f403f9473978057bd83d5cb98f4227a01066e656d6f02121701fe9011df58343bef320ad7ac13\
          a520036e1f02 | \
          <asks>
        any octets | auth | \
          010000340f403f9473978057bd83d5cb98f4227a01066e656d6f02121701fe9011df58343bef320ad7ac13\
          a520036e1f0500ff20 | \
          <asks by> station: [0, 255, 32] } }
        no attribute | auth | \
          0100002f0f403f9473978057bd83d5cb98f4227a01066e656d6f02121701fe9011df58343bef320ad7ac13\
          a520036e | \
          <asks>
        two of them | auth | \
          010000350f403f9473978057bd83d5cb98f4227a01066e656d6f02121701fe9011df58343bef320ad7ac13\
          a51f036220036e1f0361 | \
          <asks by> station: [98] } }
        one after one of 65 octets | auth | \
          010000750f403f9473978057bd83d5cb98f4227a01066e656d6f02121701fe9011df58343bef320ad7ac13\
          a520036e1f43 61*64 611f0362 | \
          <asks>
        one after an empty one | auth | \
          010000340f403f9473978057bd83d5cb98f4227a01066e656d6f02121701fe9011df58343bef320ad7ac13\
          a520036e1f021f0362 | \
          <asks>
        a Called-Station-Id | auth | \
          010000320f403f9473978057bd83d5cb98f4227a01066e656d6f02121701fe9011df58343bef320ad7ac13\
          a520036e1e0361 | \
          <asks>
        an account that does not count by stations | auth | \
          010000320f403f9473978057bd83d5cb98f4227a01066e6f6e6502121701fe9011df58343bef320ad7ac13\
          a520036e1f0361 | \
          Own { account: 1, act: Ask { <key>, <n> } }
    ";
    check(&rt, config_of(rt.alloc(), "true", "false")?, rows)
}

#[test]
fn alive_has_the_station_that_it_names_and_a_stop_has_none(rt: HostRuntime) -> Result<(), Fail> {
    let rows = "
        a Start | acct | \
          0400002a8321d8933379abca82383778c7765a1628060000000120036e01066e656d6f2c0473311f0361 | \
          <goes on by> station: [97] } }
        an Interim-Update | acct | \
          0400003a05485cca9c73f997e996dc07cf9914ff28060000000320036e01066e656d6f2c0473311f133030\
          2d31302d41342d32332d31392d4330 | \
          <goes on by> <mac> } }
        64 octets | acct | \
          040000696c23c5c00785722e5cb44fac18d8cd9228060000000320036e01066e656d6f2c0473311f42 \
          61*64 | \
          <goes on by> <64> } }
        65 octets | acct | \
          0400006a8098834ad560bff491df9c3e41d9a37328060000000320036e01066e656d6f2c0473311f43 \
          61*64 61 | \
          <alive>
        no octet | acct | \
          0400002989956841562dd4a42aad40600913e5af28060000000120036e01066e656d6f2c0473311f02 | \
          <alive>
        two of them | acct | \
          0400002de0931d89dd7f92ca3eb89ca1ef2cac4f2806000000011f036220036e01066e656d6f2c0473311f\
          0361 | \
          <goes on by> station: [98] } }
        a delay | acct | \
          040000300425db30c48a65dd4e854d90951d6e3328060000000320036e01066e656d6f2c04733129060000\
          003c1f0361 | \
          <goes on by> station: [97] } }
        a Stop | acct | \
          0400002a1745c87b96edd2693f5a8011a5fdc51828060000000220036e01066e656d6f2c0473311f0361 | \
          Own { account: 0, act: Stop { <n>, <s1> } }
        a Stop with a delay | acct | \
          0400002dd9c0fcb6793364f7a78aadddaea408ad28060000000220036e01066e656d6f2c04733129060000\
          003c | \
          Own { account: 0, act: Stop { <n>, <s1> } }
        an account that does not count by stations | acct | \
          0400002a79a4c4f4dbd3c71f28073973269388fc28060000000120036e01066e6f6e652c0473311f0361 | \
          Own { account: 1, act: Alive { <n>, <s1>, bundle: None, class: None } }
        a name that no account has | acct | \
          0400002b527aeea75021e6e2a8b2cae67f4e8c1628060000000120036e010767686f73742c0473311f0361 | \
          Stray(Note { <n>, status: 1, name: [103, 104, 111, 115, 116], <s1> })
    ";
    check(&rt, config_of(rt.alloc(), "true", "false")?, rows)
}

#[test]
fn account_says_for_itself_whether_it_counts_by_stations(rt: HostRuntime) -> Result<(), Fail> {
    let rows = "
        an account that counts by stations | auth | \
          010000320f403f9473978057bd83d5cb98f4227a0106736f6d6502121701fe9011df58343bef320ad7ac13\
          a520036e1f0361 | \
          Own { account: 2, act: Ask { <key>, <n>, station: [97] } }
        another | auth | \
          010000320f403f9473978057bd83d5cb98f4227a01066e656d6f02121701fe9011df58343bef320ad7ac13\
          a520036e1f0361 | \
          <asks>
    ";
    check(&rt, config_of(rt.alloc(), "false", "true")?, rows)
}

// RFC 2866 section 5.2. The first attribute counts, and one that has not four octets is none.
#[test]
fn restart_was_told_as_late_as_its_delay_says(rt: HostRuntime) -> Result<(), Fail> {
    let rows = "
        On | acct | \
          04000023699f17ee7ce1c3c5fd06268c01411e3728060000000720036e290600000005 | \
          Restart { <n>, delay: 5 }
        Off | acct | \
          0400002378eb0810372f66d3e1f6233149feda2e28060000000829060000000520036e | \
          Restart { <n>, delay: 5 }
        a delay of 0 | acct | \
          040000237bf55ccdff20d01885f12c131d50d6bc28060000000720036e290600000000 | \
          <restart>
        no delay | acct | \
          0400001deaaf3dd1060af6afd7da4d308cc024cb28060000000720036e | \
          <restart>
        the greatest | acct | \
          040000234fc6e78dd4e660beb78b77e6c3451ec528060000000720036e2906ffffffff | \
          Restart { <n>, delay: 4294967295 }
        3 octets | acct | \
          040000226a8d68bccf95cfbeea6bb30d3bc1364b28060000000720036e2905000005 | \
          <restart>
        5 octets | acct | \
          04000024dd55384c36b4598534286d6104ed633f28060000000720036e29070000000005 | \
          <restart>
        no octet | acct | \
          0400001f8b3a7448b373f126161e71fd5c4405ec28060000000720036e2902 | \
          <restart>
        two of them | acct | \
          0400002959513656f4a5ac02b183b7ec0ade849328060000000720036e290600000006290600000005 | \
          Restart { <n>, delay: 6 }
        one after one of 3 octets | acct | \
          04000028b5da0b3c1312b2c0182ab9baf29ea99928060000000720036e2905000006290600000005 | \
          <restart>
        a station | acct | \
          04000026296ca833fc46c058112dd280af592f7028060000000720036e1f0361290600000005 | \
          Restart { <n>, delay: 5 }
    ";
    check(&rt, config_of(rt.alloc(), "false", "true")?, rows)
}

#[test]
fn restart_has_no_delay_where_the_file_does_not_heed_it(rt: HostRuntime) -> Result<(), Fail> {
    let rows = "
        On | acct | \
          04000023699f17ee7ce1c3c5fd06268c01411e3728060000000720036e290600000005 | \
          <restart>
        Off | acct | \
          04000023a1e449c4c725106798977361e39ad78d28060000000820036e290600000005 | \
          <restart>
    ";
    check(&rt, config_of(rt.alloc(), "true", "false")?, rows)
}
