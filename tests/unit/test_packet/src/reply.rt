//! Tests of `rsl_reply`: texts of attributes, as FreeRADIUS's `users` file has them, and their octets by hand.

use rsl_dictionary::dictionary;
use rsl_reply::read_attribute;
use std::alloc::Global;
use std::test::Fail;
use test_rows::{Hex, Subject, check_rows, printed, shown};

/// The text of an attribute: its octets, or its fault.
struct Texts;

impl Subject for Texts {
    fn found(&self, alloc: Global, fields: &[&str]) -> Result<String, Fail> {
        let [text] = fields else {
            return Err("a row has a text")?;
        };
        match read_attribute(alloc, &dictionary(alloc)?, text) {
            Ok(attribute) => printed(alloc, &Hex(attribute.octets.as_slice())),
            Err(fault) => shown(alloc, &fault),
        }
    }
}

#[test]
fn attribute_has_the_octets_of_its_form(rt: HostRuntime) -> Result<(), Fail> {
    let rows = "
        a text | Filter-Id = \"gold\" | 0b06676f6c64
        in single quotation marks | Filter-Id = 'gold' | 0b06676f6c64
        in none, and without blanks | Filter-Id=gold | 0b06676f6c64
        a name in small letters | filter-id = gold | 0b06676f6c64
        an equals sign in the value | Cisco-AVPair = \"ip:a=b\" | 1a0e00000009010869703a613d62
        a vendor's text | Mikrotik-Rate-Limit = \"10M/2M\" | 1a0e00003a8c080831304d2f324d
        a number | Session-Timeout = 3600 | 1b0600000e10
        the greatest | Session-Timeout = 4294967295 | 1b06ffffffff
        the name of a number | Service-Type = Framed-User | 060600000002
        the name in small letters | Framed-Protocol = ppp | 070600000001
        a vendor's number | WISPr-Bandwidth-Max-Up = 512000 | 1a0c0000372a07060007d000
        an IPv4 address | Framed-IP-Address = 192.0.2.7 | 0806c0000207
        an IPv6 address | Framed-IPv6-Address = 2001:db8::7 | a81220010db8000000000000000000000007
        an IPv6 prefix | Delegated-IPv6-Prefix = 2001:db8:7::/56 | 7b14003820010db8000700000000000000000000
        octets | Framed-Interface-Id = 0x00000000000000AB | 600a00000000000000ab
        an interface identifier | Framed-Interface-Id = 1:2:3:4 | 600a0001000200030004
        groups of four digits | Framed-Interface-Id = 0a00:27ff:FE0E:0001 | 600a0a0027fffe0e0001
        a quotation mark | Filter-Id = \"a\\\"b\" | 0b05612262
        a backslash in them | Filter-Id = \"\\\\\" | 0b035c
        both in single quotation marks | Filter-Id = '\\\"\\\\' | 0b04225c
        an attribute that is added | Filter-Id += \"gold\" | 0b06676f6c64
        Vendor-Specific with an octet after the vendor | Attr-26 = 0x0000000901 | 1a070000000901
        by its Type | Attr-11 = 0x676f6c64 | 0b06676f6c64
        by a vendor's | Attr-26.14988.8 = 0x31304d | 1a0b00003a8c080531304d
        a tagged name of a number | Tunnel-Type:1 = VLAN | 40060100000d
        another | Tunnel-Medium-Type:31 = IEEE-802 | 41061f000006
        a tagged text | Tunnel-Private-Group-Id:1 = \"20\" | 5105013230
        without a tag | Tunnel-Private-Group-Id = \"20\" | 51043230
        a number without one | Tunnel-Type = VLAN | 40060000000d
    ";
    check_rows(&rt, &Texts, rows)
}

#[test]
fn wrong_text_has_the_first_fault(rt: HostRuntime) -> Result<(), Fail> {
    let rows = "
        no value | Filter-Id | no NAME = VALUE
        a name that is not in the table | Filter-Name = x | unknown name
        an operator of FreeRADIUS's | Filter-Id := x | unknown name
        a tag of a name that has none | Filter-Id:1 = x | unknown name
        the tag 0 | Tunnel-Type:0 = VLAN | unknown name
        the tag 32 | Tunnel-Type:32 = VLAN | unknown name
        the Type 0 | Attr-0 = 0x00 | unknown name
        the Type 256 | Attr-256 = 0x00 | unknown name
        the vendor 0 | Attr-26.0.1 = 0x00 | unknown name
        a vendor of four octets | Attr-26.16777216.1 = 0x00 | unknown name
        a vendor under another Type | Attr-27.9.1 = 0x00 | unknown name
        Class | Class = 0x00 | set by the server
        Class by its Type | Attr-25 = 0x00 | set by the server
        State | State = 0x00 | set by the server
        Proxy-State | Proxy-State = 0x00 | set by the server
        Port-Limit | Port-Limit = 1 | set by the server
        EAP-Message | EAP-Message = 0x00 | set by the server
        Message-Authenticator | Message-Authenticator = 0x00 | set by the server
        User-Name | User-Name = x | set by the server
        Acct-Interim-Interval | Acct-Interim-Interval = 60 | set by the server
        an octet too great | Framed-IP-Address = 192.0.2.256 | value is not an IPv4 address
        an IPv6 address | Framed-IP-Address = 2001:db8::7 | value is not an IPv4 address
        bits after the prefix | Framed-IPv6-Prefix = 2001:db8::1/64 | value is not an IPv6 prefix
        a number too great | Session-Timeout = 4294967296 | value is not a number or its name
        a name of another number | Framed-Protocol = Framed-User | value is not a number or its name
        a tagged number too great | Tunnel-Preference:1 = 16777216 | value is not a number or its name
        an empty text | Filter-Id = \"\" | value is not a text
        a backslash | Filter-Id = a\\b | value is not a text
        one quotation mark | Filter-Id = \"gold | value is not a text
        an odd digit | Attr-11 = 0x676 | value is not octets as 0x..
        a quotation mark that is not escaped | Filter-Id = \"a\"b\" | value is not a text
        a backslash before another character | Filter-Id = \"a\\nb\" | value is not a text
        an escaped one at the end | Filter-Id = \"a\\\" | value is not a text
        an escape without quotation marks | Filter-Id = a\\\\ | value is not a text
        three groups | Framed-Interface-Id = 1:2:3 | value is not an interface identifier
        a group of five digits | Framed-Interface-Id = 1:2:3:00004 | value is not an interface identifier
        an empty group | Framed-Interface-Id = 1::3:4 | value is not an interface identifier
        Vendor-Specific with a vendor alone | Attr-26 = 0x00000009 | value too short
        a plus before another character | Filter-Id +x= x | unknown name
        what the server sets, added | Class += 0x00 | set by the server
        no digits | Attr-11 = 0x | value is not octets as 0x..
    ";
    check_rows(&rt, &Texts, rows)
}
