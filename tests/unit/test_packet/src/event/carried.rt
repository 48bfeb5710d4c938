//! What an accept carries: the attributes that the account file has for an account. The octets were computed
//! with Python's hmac and hashlib.

use super::{AUTH, CLIENT, MeaningRows, ReplyRows, check_spelled};
use rsl_account_file::read_config;
use rsl_accounts::Config;
use rsl_dictionary::dictionary;
use std::alloc::Global;
use std::test::Fail;

/// A client that need not sign, a profile, and three accounts: with attributes of its own too, without a
/// Port-Limit, and with nothing.
const FILE: &str = r#"
version = 3
shards = 1
reserve_secs = 60
live_secs = 900
grace_secs = 900
closed_secs = 3600
keep_secs = 10

[profile.gold]
reply = ['Filter-Id = "gold"', 'Mikrotik-Rate-Limit = "10M/2M"']

[[client]]
address = "192.168.1.16"
secret = "xyzzy5461xyzzy5461"
signed = false

[[account]]
name = "nemo"
password = "arctangent"
places = 1
ports = 1
profile = "gold"
reply = ["Framed-IP-Address = 192.0.2.7"]

[[account]]
name = "bare"
password = "arctangent"
places = 1
ports = 1
profile = "gold"
port_limit = false

[[account]]
name = "free"
password = "arctangent"
places = 1
ports = 1
"#;

/// The configuration of that file.
fn carrying(alloc: Global) -> Result<Config, Fail> {
    Ok(read_config(alloc, &dictionary(alloc)?, FILE.as_bytes())?)
}

#[test]
fn accept_has_the_profiles_attributes_and_then_its_own(rt: HostRuntime) -> Result<(), Fail> {
    let rows = "
        a profile's attributes, and its own | \
          0100002c0f403f9473978057bd83d5cb98f4227a01066e656d6f02121701fe9011df58343bef320ad7ac13a5 | Accept 7 | \
          Accept(7) \
          020000583eb290df4749465bb847359cd28d193950121226b4f333579f55bba06dcd0dff58ea19120000000000000001\
          00000000000000073e06000000010b06676f6c641a0e00003a8c080831304d2f324d0806c0000207
        no Port-Limit | \
          0100002c0f403f9473978057bd83d5cb98f4227a01066261726502121701fe9011df58343bef320ad7ac13a5 | Accept 7 | \
          Accept(7) \
          0200004cface94187479e7e5e25e60c74c2186f45012bf275721cb61ccdcb599d0cd12c9106919120000000000000001\
          00000000000000070b06676f6c641a0e00003a8c080831304d2f324d
        no attributes | \
          0100002c0f403f9473978057bd83d5cb98f4227a01066672656502121701fe9011df58343bef320ad7ac13a5 | Accept 7 | \
          Accept(7) \
          0200003e0480e07db999b80135b5be741a3fe4b65012a3a6a7169a76944721f51f5475b40aad19120000000000000001\
          00000000000000073e0600000001
    ";
    let config = carrying(rt.alloc())?;
    let (source, port) = (CLIENT, AUTH);
    check_spelled(
        &rt,
        &ReplyRows {
            config,
            source,
            port,
        },
        rows,
    )
}

#[test]
fn request_in_version_3_has_at_most_3000_octets_of_proxy_states(
    rt: HostRuntime,
) -> Result<(), Fail> {
    let rows = "
        3,000 octets of Proxy-States | auth | \
          01000bf60f403f9473978057bd83d5cb98f4227a50120cd1eb1dde73c9d47f8fa0e655586f7a01066e656d6f02121701\
          fe9011df58343bef320ad7ac13a5 21fc 00*250 21fc 00*250 21fc 00*250 21fc 00*250 21fc 00*250 21fc \
          00*250 21fc 00*250 21fc 00*250 21fc 00*250 21fc 00*250 21fc 00*250 21e4 00*226 | \
          <ask>
        3,001 octets of them | auth | \
          01000bf70f403f9473978057bd83d5cb98f4227a50121919074e996bf000d9b6659686e928b301066e656d6f02121701\
          fe9011df58343bef320ad7ac13a5 21fc 00*250 21fc 00*250 21fc 00*250 21fc 00*250 21fc 00*250 21fc \
          00*250 21fc 00*250 21fc 00*250 21fc 00*250 21fc 00*250 21fc 00*250 21e5 00*227 | \
          ProxyTooLong
    ";
    let (config, source) = (carrying(rt.alloc())?, CLIENT);
    check_spelled(&rt, &MeaningRows { config, source }, rows)
}
