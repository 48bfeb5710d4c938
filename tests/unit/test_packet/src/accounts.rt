//! Tests of `rsl_accounts`: the sample of the account file and what is wrong with others, what
//! `Config::make` takes, look-ups, and what is printed.

mod files;
mod making;
mod names;
mod printing;

use rsl_accounts::{Client, Config, ConfigFault, Entry, Reply, Rules, Secret, Settings, Text};
use std::alloc::Global;
use std::test::Fail;
use test_rows::{number, shown};

/// The sample of an account file.
const SAMPLE: &str = r#"version = 1
shards = 2
reserve_secs = 60
live_secs = 900
grace_secs = 900
closed_secs = 3600
keep_secs = 10

[[client]]
address = "192.168.1.16"
secret = "xyzzy5461"

[[account]]
name = "nemo"
password = "arctangent"
places = 1
ports = 1
service_type = 2
framed_protocol = 1
session_timeout = 3600
idle_timeout = 600
"#;

/// What comes of a configuration: `Ok`, or what its fault prints.
fn said(alloc: Global, config: Result<Config, ConfigFault>) -> Result<String, Fail> {
    match config {
        Ok(_) => shown(alloc, &"Ok"),
        Err(fault) => shown(alloc, &fault),
    }
}

fn settings(version: u64) -> Settings {
    Settings {
        version,
        shards: 2,
        reserve: 60,
        live: 900,
        grace: 900,
        closed: 3600,
        keep: 10,
        interim: None,
        station: false,
        delay_time: false,
    }
}

fn client(alloc: Global, address: [u8; 4], secret: &str) -> Result<Client, Fail> {
    Ok(Client {
        address,
        secret: Secret::from_str(alloc, secret)?,
        signed: false,
        trusted: false,
        disconnect: None,
    })
}

/// An account whose rules are to be filled in.
fn entry(alloc: Global, name: &str, password: &str) -> Result<Entry, Fail> {
    Ok(Entry {
        name: Text::from_str(alloc, name)?,
        password: Some(Secret::from_str(alloc, password)?),
        rules: rules([1, 1, 1, 2, 3, 4, 5]),
        service_type: None,
        framed_protocol: None,
        session_timeout: None,
        idle_timeout: None,
        own_live: None,
        own_grace: None,
        own_station: None,
        interim: None,
        disabled: false,
        port_limit: true,
        reply: Reply::none(),
    })
}

/// Rules of seven numbers: places, ports, and the reserve, live, grace, closed and keep time.
fn rules(numbers: [u64; 7]) -> Rules {
    let [places, ports, reserve, live, grace, closed, keep] = numbers;
    Rules {
        places,
        ports,
        reserve,
        live,
        grace,
        closed,
        keep,
    }
}

/// The rules that seven numbers with blanks between them write.
fn rules_of(alloc: Global, text: &str) -> Result<Rules, Fail> {
    let numbers = numbers_of(alloc, text)?;
    let [places, ports, reserve, live, grace, closed, keep] = numbers.as_slice() else {
        return Err("rules are seven numbers")?;
    };
    Ok(rules([*places, *ports, *reserve, *live, *grace, *closed, *keep]))
}

/// Numbers with blanks between them.
fn numbers_of(alloc: Global, text: &str) -> Result<Vec<u64>, Fail> {
    let mut numbers = Vec::new(alloc);
    for digits in text.split(' ') {
        numbers.push(number(digits)?)?;
    }
    Ok(numbers)
}
