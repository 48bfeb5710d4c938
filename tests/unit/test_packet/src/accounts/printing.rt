//! What faults, secrets and texts print, and copies.

use rsl_accounts::{ConfigFault, Field, Part, Secret, Text};
use std::alloc::Global;
use std::test::Fail;
use test_rows::{Subject, check_rows, printed, short_number, shown};

#[test]
fn faults_are_printed_with_the_key_of_their_field(rt: HostRuntime) -> Result<(), Fail> {
    let faults = [
        ConfigFault::NotToml,
        ConfigFault::TwiceClient,
        ConfigFault::TwiceAccount,
        ConfigFault::KeepTooLong,
        ConfigFault::NoMemory,
        ConfigFault::Missing(Field::Version),
        ConfigFault::Missing(Field::Shards),
        ConfigFault::Missing(Field::ReserveSecs),
        ConfigFault::Missing(Field::LiveSecs),
        ConfigFault::Missing(Field::GraceSecs),
        ConfigFault::Missing(Field::ClosedSecs),
        ConfigFault::BadValue(Field::KeepSecs),
        ConfigFault::BadValue(Field::Client),
        ConfigFault::BadValue(Field::Account),
        ConfigFault::BadValue(Field::Address),
        ConfigFault::BadValue(Field::Secret),
        ConfigFault::BadValue(Field::Signed),
        ConfigFault::BadValue(Field::Name),
        ConfigFault::BadValue(Field::Password),
        ConfigFault::BadValue(Field::Places),
        ConfigFault::BadValue(Field::Ports),
        ConfigFault::BadValue(Field::ServiceType),
        ConfigFault::BadValue(Field::FramedProtocol),
        ConfigFault::BadValue(Field::SessionTimeout),
        ConfigFault::BadValue(Field::IdleTimeout),
        ConfigFault::BadValue(Field::OwnLive),
        ConfigFault::BadValue(Field::OwnGrace),
        ConfigFault::BadValue(Field::InterimSecs),
        ConfigFault::BadValue(Field::Station),
        ConfigFault::BadValue(Field::DelayTime),
        ConfigFault::BadValue(Field::Disabled),
        ConfigFault::BadValue(Field::Trusted),
        ConfigFault::BadValue(Field::Disconnect),
        ConfigFault::Missing(Field::Port),
        ConfigFault::Unknown(Part::Head, Text::from_str(rt.alloc(), "shard")?),
        ConfigFault::Unknown(Part::Client, Text::from_str(rt.alloc(), "sigend")?),
        ConfigFault::Unknown(Part::Disconnect, Text::from_str(rt.alloc(), "prot")?),
        ConfigFault::Unknown(Part::Account, Text::from_str(rt.alloc(), "a \"b\"")?),
    ];
    let expected = "NotToml, TwiceClient, TwiceAccount, KeepTooLong, NoMemory, Missing version, \
        Missing shards, Missing reserve_secs, Missing live_secs, Missing grace_secs, \
        Missing closed_secs, BadValue keep_secs, BadValue client, BadValue account, \
        BadValue address, BadValue secret, BadValue signed, BadValue name, BadValue password, \
        BadValue places, BadValue ports, BadValue service_type, BadValue framed_protocol, \
        BadValue session_timeout, BadValue idle_timeout, BadValue live_secs, BadValue grace_secs, \
        BadValue interim_secs, BadValue station, BadValue delay_time, BadValue disabled, \
        BadValue trusted, BadValue disconnect, Missing port, \
        Unknown \"shard\", Unknown client \"sigend\", Unknown disconnect \"prot\", Unknown account \"a \\\"b\\\"\", ";
    let found = all_shown(rt.alloc(), &faults)?;
    assert_eq!(rt; found.as_str(), expected);
    Ok(())
}

/// What faults print, with `, ` after each.
fn all_shown(alloc: Global, faults: &[ConfigFault]) -> Result<String, Fail> {
    let mut text = String::new(alloc);
    for fault in faults {
        text.push_str(shown(alloc, fault)?.as_str())?;
        text.push_str(", ")?;
    }
    Ok(text)
}

#[test]
fn secrets_and_passwords_are_not_printed(rt: HostRuntime) -> Result<(), Fail> {
    let alloc = rt.alloc();
    let secret = printed(alloc, &Secret::from_str(alloc, "xyzzy5461")?)?;
    assert_eq!(rt; secret.as_str(), "Secret(..)");
    Ok(())
}

/// Of a text that is repeated: its octets, whether it is empty, whether its copy and its copy as a
/// secret have the same octets, and whether each equals another.
struct CopyRows;

impl Subject for CopyRows {
    fn found(&self, alloc: Global, fields: &[&str]) -> Result<String, Fail> {
        let [one, times, other] = fields else {
            return Err("a row has a text, how many times it stands, and another text")?;
        };
        let times = usize::try_from(short_number(times)?)?;
        let one = one.repeat(alloc, times)?;
        let other = other.repeat(alloc, times)?;
        copies_found(alloc, one.as_str(), other.as_str())
    }
}

fn copies_found(alloc: Global, one: &str, other: &str) -> Result<String, Fail> {
    let text = text_found(alloc, one, other)?;
    let secret = secret_found(alloc, one, other)?;
    printed(alloc, &(text, secret))
}

fn text_found(alloc: Global, one: &str, other: &str) -> Result<(usize, bool, bool, bool), Fail> {
    let text = Text::from(String::from_str(alloc, one)?);
    let copy = text.try_copy(alloc)?;
    let equals = copy == Text::from_str(alloc, other)?;
    Ok((copy.len(), copy.is_empty(), copy.as_str() == one, equals))
}

fn secret_found(alloc: Global, one: &str, other: &str) -> Result<(bool, bool), Fail> {
    let secret = Secret::from(Text::from_str(alloc, one)?);
    let copy = secret.try_copy(alloc)?;
    let equals = copy == Secret::from_str(alloc, other)?;
    Ok((copy.expose() == one.as_bytes(), equals))
}

#[test]
fn texts_and_secrets_are_copied_and_compared(rt: HostRuntime) -> Result<(), Fail> {
    let rows = "
        equal | nemo | 1 | nemo | ((4, false, true, true), (true, true))
        another octet | nemo | 1 | nema | ((4, false, true, false), (true, false))
        a prefix | nemo | 1 | nem | ((4, false, true, false), (true, false))
        none | | 1 | | ((0, true, true, true), (true, true))
        two octets | \u{e9} | 1 | \u{e9} | ((2, false, true, true), (true, true))
        65535 octets | n | 65535 | n | ((65535, false, true, true), (true, true))
    ";
    check_rows(&rt, &CopyRows, rows)
}
