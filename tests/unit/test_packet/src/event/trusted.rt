//! Requests without a password of clients that are trusted, and access servers that name themselves by an
//! IPv6 address: version 3 of the account file. The octets were computed with Python's hmac and hashlib.

use super::{AUTH, BOOT, CLIENT, MeaningRows, OTHER, check, check_spelled};
use rsl_account_file::read_config;
use rsl_accounts::Config;
use rsl_event::{Detail, Meaning, Source, prepare_in_detail};
use rsl_reply::Dictionary;
use std::alloc::Global;
use std::test::Fail;
use test_rows::{Subject, octets_of, printed, replaced};

/// A client that is trusted and one that is not, and three accounts, of which one is disabled.
const FILE: &str = r#"
version = 3
shards = 1
reserve_secs = 60
live_secs = 900
grace_secs = 900
closed_secs = 3600
keep_secs = 10

[[client]]
address = "192.168.1.16"
secret = "xyzzy5461xyzzy5461"
trusted = true

[[client]]
address = "192.168.1.17"
secret = "another secret of a client"

[[account]]
name = "nemo"
password = "arctangent"
places = 1
ports = 1

[[account]]
name = "free"
places = 1
ports = 1

[[account]]
name = "gone"
places = 1
ports = 1
disabled = true
"#;

/// The configuration of that file.
fn trusting(alloc: Global) -> Result<Config, Fail> {
    Ok(read_config(alloc, &Dictionary::new(alloc), FILE.as_bytes())?)
}

/// What comes of Access-Requests from a source: the account that asks, or the cause why none does.
pub(super) struct Logins {
    pub source: Source,
}

impl Subject for Logins {
    fn found(&self, alloc: Global, fields: &[&str]) -> Result<String, Fail> {
        let [datagram] = fields else {
            return Err("a row has a datagram")?;
        };
        let (config, octets) = (trusting(alloc)?, octets_of(alloc, datagram)?);
        let found = match prepare_in_detail(alloc, &config, BOOT, AUTH, self.source, &octets) {
            Ok(found) => found,
            Err(dropped) => return printed(alloc, &dropped),
        };
        match (found.detail, &found.prepared.meaning) {
            (Detail::Rejected(cause), _) => printed(alloc, &cause),
            (Detail::Asks, Meaning::Own { account, .. }) => Ok(format!(in alloc;
                "asks {account}"
            )?),
            _ => Err("an Access-Request asks or is rejected")?,
        }
    }
}

#[test]
fn trusted_client_asks_without_a_password(rt: HostRuntime) -> Result<(), Fail> {
    let rows = "
        no password | \
          0100002c0f403f9473978057bd83d5cb98f4227a5012294b7ab1f0960e267a901b291fb204af01066e656d\
          6f | asks 0
        an account that has none | \
          0100002c0f403f9473978057bd83d5cb98f4227a50124ac83c94e0cfb9d14643cfea1d7e7c640106667265\
          65 | asks 1
        a disabled account | \
          0100002c0f403f9473978057bd83d5cb98f4227a5012b88251df45bbc80c44250a82b9a38d400106676f6e\
          65 | DisabledAccount
        a wrong Message-Authenticator | \
          0100002c0f403f9473978057bd83d5cb98f4227a5012294b7ab1f0960e267a901b291fb204ae01066e656d\
          6f | BadSignature
        no Message-Authenticator | \
          0100001a0f403f9473978057bd83d5cb98f4227a01066e656d6f | Unsigned
        malformed attributes | \
          0100002e0f403f9473978057bd83d5cb98f4227a5012885c3c14082abee0fa63a9cc99e24aeb01066e656d\
          6f2003 | Unsigned
        no User-Name | \
          010000260f403f9473978057bd83d5cb98f4227a5012bd14e67b555a2cce790acb5ece1192c8 | NotOneName
        two User-Names | \
          010000320f403f9473978057bd83d5cb98f4227a5012f30ea7df3b24b6124e3b6f6abe387b7d01066e656d\
          6f01066e656d6f | NotOneName
        a name that no account has | \
          0100002e0f403f9473978057bd83d5cb98f4227a50127c8c760e3bd00996410148b748e9f22901086e6f62\
          6f6479 | UnknownAccount
        a CHAP-Challenge alone | \
          0100003e0f403f9473978057bd83d5cb98f4227a501227dcb3d19fc3f28e7a79fe48a6c606ec01066e656d\
          6f3c1200000000000000000000000000000000 | asks 0
        two of them | \
          010000500f403f9473978057bd83d5cb98f4227a501252f804e27c8c5e5780a736727aef283c01066e656d\
          6f3c12000000000000000000000000000000003c1200000000000000000000000000000000 | SeveralChallenges
        an EAP-Message | \
          010000370f403f9473978057bd83d5cb98f4227a5012c41e1d98f09a3f6e1510b6c897fa58f801066e656d\
          6f4f0b02000009016e656d6f | UncheckedCredential
        an empty one | \
          0100002e0f403f9473978057bd83d5cb98f4227a50120135173180603207592026e04b6e662c01066e656d\
          6f4f02 | UncheckedCredential
        its password | \
          0100003e0f403f9473978057bd83d5cb98f4227a5012cf81c28814d76393eb148e1f97630eec01066e656d\
          6f02121701fe9011df58343bef320ad7ac13a5 | asks 0
        another password | \
          0100003e0f403f9473978057bd83d5cb98f4227a5012a30a8dfad46bd0d232c33de1785220c801066e656d\
          6f02121701fe9011df58343bee320ad7ac13a5 | WrongPassword
        no octet of a password | \
          0100002e0f403f9473978057bd83d5cb98f4227a50122dc529399add6d25eb0328e72ddaff9901066e656d\
          6f0202 | WrongPassword
        its password by CHAP | \
          0100003f0f403f9473978057bd83d5cb98f4227a5012fe84aa59771e5886653fb20f8bc56a3d01066e656d\
          6f0313073f25c9ea76486dbb6e08f6da1baf940b | asks 0
        another by CHAP | \
          0100003f0f403f9473978057bd83d5cb98f4227a501289af4484ee9b30faeb4f2a225471a5e401066e656d\
          6f031307c478a8ed31d1e50ba600bea53d78e1c2 | WrongPassword
        no octet of CHAP | \
          0100002e0f403f9473978057bd83d5cb98f4227a5012aae7c4915f66b9d771460e4a1d8f1ff801066e656d\
          6f0302 | WrongPassword
        both kinds | \
          010000510f403f9473978057bd83d5cb98f4227a5012f685679191cfd966c4939f8d3ed6ad5a01066e656d\
          6f02121701fe9011df58343bef320ad7ac13a50313073f25c9ea76486dbb6e08f6da1baf940b | NotOnePassword
        its password and an EAP-Message | \
          010000410f403f9473978057bd83d5cb98f4227a5012df7bbc8ab366560f46d654f7bfaebd7e01066e656d\
          6f02121701fe9011df58343bef320ad7ac13a54f0302 | UncheckedCredential
        a password of an account that has none | \
          0100003e0f403f9473978057bd83d5cb98f4227a5012c0a94ec3d327c4e6a4b9dad4f3b5ab440106667265\
          6502121701fe9011df58343bef320ad7ac13a5 | NoPassword
        an empty one | \
          0100003e0f403f9473978057bd83d5cb98f4227a5012394424f24648d1012eb9394c95a4a5ce0106667265\
          65021276739de470b13f51559b320ad7ac13a5 | NoPassword
        by CHAP | \
          0100003f0f403f9473978057bd83d5cb98f4227a5012192ea8bd04c0a3a6bbb868e11b06a69f0106667265\
          650313073f25c9ea76486dbb6e08f6da1baf940b | NoPassword
        a password of a disabled account that has none | \
          0100003e0f403f9473978057bd83d5cb98f4227a50128493af2ac9ceca9c5710926b2d2f1ef00106676f6e\
          6502121701fe9011df58343bef320ad7ac13a5 | DisabledAccount
    ";
    check_spelled(&rt, &Logins { source: CLIENT }, rows)
}

#[test]
fn other_client_does_not(rt: HostRuntime) -> Result<(), Fail> {
    let rows = "
        no password | \
          0100002c0f403f9473978057bd83d5cb98f4227a5012788c3c1aab60a5128125cf22d7fb4d1401066e656d\
          6f | NotOnePassword
        an account that has none | \
          0100002c0f403f9473978057bd83d5cb98f4227a5012b14a6004362e5d5fa2e65f023187fced0106667265\
          65 | NotOnePassword
        its password | \
          0100003e0f403f9473978057bd83d5cb98f4227a5012af33354c25d0470f33f80f0f8593799d01066e656d\
          6f0212b704fcbea7ff5ae789237b19c3519ff8 | asks 0
        a password of an account that has none | \
          0100003e0f403f9473978057bd83d5cb98f4227a50124b9ebced158993373bb18b065af2c2f70106667265\
          650212b704fcbea7ff5ae789237b19c3519ff8 | NoPassword
    ";
    check_spelled(&rt, &Logins { source: OTHER }, rows)
}

// RFC 3162 section 2.1.
#[test]
fn ipv6_address_names_an_access_server_in_version_3(rt: HostRuntime) -> Result<(), Fail> {
    let rows = "
        a NAS-IPv6-Address alone | acct | \
          0400002c8d8476688073adac375bbb706d06b1752806000000075f1220010db80000000000000000000000\
          01 | Restart { nas: Nas { client: 0, name: <v6> } }
        two of them | acct | \
          0400003ed4bee4fa33311504d979610d978bf7012806000000075f1220010db80000000000000000000000\
          015f1220010db8000000000000000000000002 | Restart { nas: Nas { client: 0, name: <v6> } }
        one before a NAS-IP-Address | acct | \
          0400003272e2ace9bfe30c5b75aa939a7bd453be2806000000075f1220010db80000000000000000000000\
          0104060a000001 | Restart { nas: Nas { client: 0, name: Address([10, 0, 0, 1]) } }
        one before a NAS-Identifier | acct | \
          0400002f3f495e07012a6346906384156f1329e22806000000075f1220010db80000000000000000000000\
          0120036e | Restart { nas: Nas { client: 0, name: Identifier([110]) } }
        one of four octets | acct | \
          04000020f4adece061e56566a0bae5a1871b4be62806000000075f060a000001 | Restart { nas: Nas { client: 0, name: Address([10, 0, 0, 1]) } }
        an empty one | acct | \
          0400001cbe573540474e3e4eba888bf3839ce1442806000000075f02 | Restart { nas: Nas { client: 0, name: Address([]) } }
        a Start | acct | \
          04000036589e158924643842cb324770fdeb24352806000000015f1220010db80000000000000000000000\
          0101066e656d6f2c047331 | Own { account: 0, act: Alive { nas: Nas { client: 0, name: <v6> }, <s1>, bundle: None, class: None } }
        a Stop | acct | \
          040000367cd83778146854b29f534ed7005772072806000000025f1220010db80000000000000000000000\
          0101066e656d6f2c047331 | Own { account: 0, act: Stop { nas: Nas { client: 0, name: <v6> }, <s1> } }
        an ask | auth | \
          0100003e0f403f9473978057bd83d5cb98f4227a5012b1181ff7d6b2e247f50ee4b0f97445715f1220010d\
          b800000000000000000000000101066e656d6f | Own { account: 0, act: Ask { <key>, nas: Nas { client: 0, name: <v6> } } }
    ";
    let word = "<v6> = Address([32, 1, 13, 184, 0, 0, 0, 0, 0, 0, 0, 0, 0, 0, 0, 1])";
    let (config, source) = (trusting(rt.alloc())?, CLIENT);
    let rows = replaced(rt.alloc(), rows, word)?;
    check_spelled(&rt, &MeaningRows { config, source }, rows.as_str())
}

#[test]
fn ipv6_address_names_none_in_version_2(rt: HostRuntime) -> Result<(), Fail> {
    let rows = "
        a NAS-IPv6-Address alone | acct | \
          0400002c19f0db03325ccdb0188b55902f7c9b902806000000075f1220010db80000000000000000000000\
          01 | Restart { nas: Nas { client: 0, name: Unnamed } }
        two of them | acct | \
          0400003ebe7ca43d10f9199576123c6ef2587c262806000000075f1220010db80000000000000000000000\
          015f1220010db8000000000000000000000002 | Restart { nas: Nas { client: 0, name: Unnamed } }
        one before a NAS-IP-Address | acct | \
          04000032f76987a9a5b2f9b176b47940f3948eac2806000000075f1220010db80000000000000000000000\
          0104060a000001 | Restart { nas: Nas { client: 0, name: Address([10, 0, 0, 1]) } }
        one before a NAS-Identifier | acct | \
          0400002f8438e4765dbeaaf7ea2c4ec26d08b5e52806000000075f1220010db80000000000000000000000\
          0120036e | Restart { nas: Nas { client: 0, name: Identifier([110]) } }
        one of four octets | acct | \
          0400002050a4020c5f6ee4e2efc308b7c74dc3ff2806000000075f060a000001 | Restart { nas: Nas { client: 0, name: Unnamed } }
        an empty one | acct | \
          0400001c60e3e4e841fd708dc547aafd915673552806000000075f02 | Restart { nas: Nas { client: 0, name: Unnamed } }
        a Start | acct | \
          04000036d558a9bb45c9fa1c90628d4a80cb67922806000000015f1220010db80000000000000000000000\
          0101066e656d6f2c047331 | Own { account: 0, act: Alive { nas: Nas { client: 0, name: Unnamed }, <s1>, bundle: None, class: None } }
        a Stop | acct | \
          04000036c772c655c462c4c3a0e6f01f03a5fbfe2806000000025f1220010db80000000000000000000000\
          0101066e656d6f2c047331 | Own { account: 0, act: Stop { nas: Nas { client: 0, name: Unnamed }, <s1> } }
        an ask | auth | \
          0100003e0f403f9473978057bd83d5cb98f4227a5f1220010db800000000000000000000000101066e656d\
          6f02120dbe708d93d413ce3196e43f782a0aee | <ask>
    ";
    check(&rt, CLIENT, rows)
}
