//! Look-ups of accounts whose names begin alike.

use rsl_account_file::read_config;
use rsl_accounts::Config;
use rsl_dictionary::dictionary;
use std::alloc::Global;
use std::test::Fail;
use test_rows::{Subject, check_rows, octets_of, printed};

const FILE: &str = r#"
version = 1
shards = 1
reserve_secs = 60
live_secs = 900
grace_secs = 900
closed_secs = 3600
keep_secs = 10
client = [{ address = "192.168.1.16", secret = "xyzzy5461" }]
account = [
    { name = "a", password = "p", places = 1, ports = 1 },
    { name = "ab", password = "p", places = 1, ports = 1 },
    { name = "abc", password = "p", places = 1, ports = 1 },
    { name = "aaaaaaaaaaaaaaaaaaaaaaaaaaaaaaaaaaaaaaaaaaaaaaaaaaaaaaaaaaaaaaa", password = "p", places = 1, ports = 1 },
    { name = "aaaaaaaaaaaaaaaaaaaaaaaaaaaaaaaaaaaaaaaaaaaaaaaaaaaaaaaaaaaaaaaa", password = "p", places = 1, ports = 1 },
    { name = "aaaaaaaaaaaaaaaaaaaaaaaaaaaaaaaaaaaaaaaaaaaaaaaaaaaaaaaaaaaaaaab", password = "p", places = 1, ports = 1 },
    { name = "baaaaaaaaaaaaaaaaaaaaaaaaaaaaaaaaaaaaaaaaaaaaaaaaaaaaaaaaaaaaaaa", password = "p", places = 1, ports = 1 },
    { name = "A", password = "p", places = 1, ports = 1 },
]
"#;

/// The octets of a name: the number of the account that has it.
#[derive(Drop)]
struct Names {
    config: Config,
}

impl Subject for Names {
    fn found(&self, alloc: Global, fields: &[&str]) -> Result<String, Fail> {
        let [name] = fields else {
            return Err("a row has a name")?;
        };
        let name = octets_of(alloc, name)?;
        printed(alloc, &self.config.account(&name))
    }
}

#[test]
fn names_that_begin_alike_are_told_apart(rt: HostRuntime) -> Result<(), Fail> {
    let config = read_config(rt.alloc(), &dictionary(rt.alloc())?, FILE.as_bytes())?;
    check_rows(
        &rt,
        &Names { config },
        "
the first | 61 | Some(0)
an octet more | 61 62 | Some(1)
two octets more | 61 62 63 | Some(2)
63 octets | 61*63 | Some(3)
64 octets | 61*64 | Some(4)
another last octet | 61*63 62 | Some(5)
another first octet | 62 61*63 | Some(6)
a capital | 41 | Some(7)
no octets |  | None
two of the first | 61*2 | None
62 octets | 61*62 | None
65 octets | 61*65 | None
a last octet that none has | 61*63 63 | None
",
    )
}
