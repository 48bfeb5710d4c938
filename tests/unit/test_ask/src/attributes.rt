//! How attributes of an accept are told: texts, as FreeRADIUS's `users` file has them, of octets by hand.

use rld_attributes::{reply_listed, write_attribute};
use rsl_dictionary::dictionary;
use rsl_reply::{Form, read_attribute};
use std::alloc::Global;
use std::test::Fail;
use test_rows::{Subject, check_rows, octets_of};

/// The octets of an attribute: its text.
struct Told;

impl Subject for Told {
    fn found(&self, alloc: Global, fields: &[&str]) -> Result<String, Fail> {
        let [octets] = fields else {
            return Err("a row has octets")?;
        };
        text_of(alloc, octets_of(alloc, octets)?.as_slice())
    }
}

/// The text of an attribute of these octets.
fn text_of(alloc: Global, octets: &[u8]) -> Result<String, Fail> {
    let [kind, _, value @ ..] = octets else {
        return Err("no attribute")?;
    };
    let one = write_attribute(alloc, &dictionary(alloc)?, *kind, value)?;
    let mut text = Vec::new(alloc);
    one.push(&mut text)?;
    Ok(String::from_utf8_lossy(alloc, text.as_slice())?)
}

#[test]
fn attribute_is_told_by_its_name_and_form(rt: HostRuntime) -> Result<(), Fail> {
    let rows = "
        a text | 0b06676f6c64 | Filter-Id = \"gold\"
        a text of UTF-8 | 0b04c3a9 | Filter-Id = \"é\"
        what is not UTF-8 | 0b03ff | Attr-11 = 0xff
        a quotation mark | 0b0322 | Filter-Id = \"\\\"\"
        a backslash | 0b035c | Filter-Id = \"\\\\\"
        a line feed | 0b030a | Attr-11 = 0x0a
        an empty text | 0b02 | Attr-11 = 0x
        a vendor's text | 1a0e00000009010869703a613d62 | Cisco-AVPair = \"ip:a=b\"
        a number | 1b0600000e10 | Session-Timeout = 3600
        the greatest | 1b06ffffffff | Session-Timeout = 4294967295
        a number that has a name | 060600000002 | Service-Type = Framed-User
        one that has two | 410600000001 | Tunnel-Medium-Type = IP
        a number of two octets | 06040002 | Attr-6 = 0x0002
        a vendor's number without a name | 1a0c0000372a070600000002 | WISPr-Bandwidth-Max-Up = 2
        an IPv4 address | 0806c0000207 | Framed-IP-Address = 192.0.2.7
        an IPv4 address of five octets | 0807c000020700 | Attr-8 = 0xc000020700
        an IPv6 address | a81220010db8000000000000000000000007 | Framed-IPv6-Address = 2001:db8::7
        one of IPv4 in IPv6 | a81200000000000000000000ffffc0000207 | Framed-IPv6-Address = ::ffff:192.0.2.7
        an IPv6 prefix | 7b14003820010db8000700000000000000000000 | Delegated-IPv6-Prefix = 2001:db8:7::/56
        bits after the prefix | 7b14001020010db8000700000000000000000000 | Attr-123 = 0x001020010db8000700000000000000000000
        a length of 129 | 7b14008100000000000000000000000000000000 | Attr-123 = 0x008100000000000000000000000000000000
        a reserved octet that is set | 7b14010000000000000000000000000000000000 | Attr-123 = 0x010000000000000000000000000000000000
        a short prefix | 7b06002020010db8 | Attr-123 = 0x002020010db8
        octets | 24050001ff | Login-LAT-Group = 0x0001ff
        an interface identifier | 600a0a0027fffe0e0001 | Framed-Interface-Id = a00:27ff:fe0e:1
        one of zeros | 600a0000000000000000 | Framed-Interface-Id = 0:0:0:0
        one of seven octets | 600900000000000000 | Attr-96 = 0x00000000000000
        a vendor's name of a number | 1a0c000007db8e0600000003 | Huawei-QoS-Profile-Type = L2TP
        Huawei's pairs | 1a0b000007dbbc05613d62 | Huawei-AVpair = \"a=b\"
        a Type that is not in the table | fa0300 | Attr-250 = 0x00
        a vendor that is not | 1a09000000630703ff | Attr-26.99.7 = 0xff
        the greatest numbers | 1a0900ffffffff0301 | Attr-26.16777215.255 = 0x01
        a vendor of four octets | 1a0901000009010361 | Attr-26 = 0x01000009010361
        the vendor 0 | 1a0900000000010361 | Attr-26 = 0x00000000010361
        the Type 0 of a vendor | 1a0900000009000361 | Attr-26 = 0x00000009000361
        no attribute of a vendor | 1a070000000901 | Attr-26 = 0x0000000901
        an empty one | 1a08000000090102 | Attr-26 = 0x000000090102
        two | 1a0c00000009010361010361 | Attr-26 = 0x00000009010361010361
        a tagged name of a number | 40060100000d | Tunnel-Type:1 = VLAN
        the greatest tag | 41061f000006 | Tunnel-Medium-Type:31 = IEEE-802
        no tag | 40060000000d | Tunnel-Type = VLAN
        the tag 32 | 40062000000d | Attr-64 = 0x2000000d
        a tagged text | 5105013230 | Tunnel-Private-Group-Id:1 = \"20\"
        a text without a tag | 51043230 | Tunnel-Private-Group-Id = \"20\"
        a text with the tag 0 | 5105003230 | Attr-81 = 0x003230
        a tag without a text | 510301 | Attr-81 = 0x01
        what the server sets | 3e0600000001 | Port-Limit = 1
    ";
    check_rows(&rt, &Told, rows)
}

/// A reply: its lines, each followed by a semicolon, with a blank for the tab.
struct Listed;

impl Subject for Listed {
    fn found(&self, alloc: Global, fields: &[&str]) -> Result<String, Fail> {
        let [reply] = fields else {
            return Err("not one reply")?;
        };
        let text = reply_listed(
            alloc,
            &dictionary(alloc)?,
            octets_of(alloc, reply)?.as_slice(),
        )?;
        let text = String::from_utf8_lossy(alloc, text.as_slice())?;
        let text = text.replace(alloc, "\n", ";")?;
        Ok(text.replace(alloc, "\t", " ")?)
    }
}

#[test]
fn reply_is_listed_with_its_octets(rt: HostRuntime) -> Result<(), Fail> {
    let rows = "
        but what is of each login | 0201003200000000000000000000000000000000501200000000000000000000000000000000190300060600000002210370 | \
          Service-Type = Framed-User 060600000002;
        one | 0201001a000000000000000000000000000000000806c0000207 | Framed-IP-Address = 192.0.2.7 0806c0000207;
        no packet | 02 |
    ";
    check_rows(&rt, &Listed, rows)
}

/// A value that has a form.
fn sample(form: Form) -> &'static str {
    match form {
        Form::Text => "\"a = b, c\"",
        Form::Octets => "0x00ff",
        Form::Number | Form::TaggedNumber => "4000000",
        Form::Ipv4 => "192.0.2.7",
        Form::Ipv6 => "2001:db8::7",
        Form::Ipv6Prefix => "2001:db8:7::/56",
        Form::InterfaceId => "a00:27ff:fe0e:1",
        Form::TaggedText => "\"a b\"",
    }
}

#[test]
fn what_is_told_of_each_name_is_read_as_the_same_octets(rt: HostRuntime) -> Result<(), Fail> {
    let alloc = rt.alloc();
    let dictionary = dictionary(alloc)?;
    let mut names = 0;
    for vendor in [0, 9, 2011, 2636, 4874, 6527, 14122, 14988] {
        for number in 1..=255u8 {
            let Some((name, form)) = dictionary.name_of(vendor, number) else {
                continue;
            };
            let text = format!(in alloc; "{name} = {}", sample(form))?;
            if let Ok(attribute) = read_attribute(alloc, &dictionary, text.as_str()) {
                assert_eq!(rt;
                    text_of(alloc, attribute.octets.as_slice())?.as_str(),
                    text.as_str()
                );
                names += 1;
            }
        }
    }
    assert_eq!(rt; names, 773);
    Ok(())
}
