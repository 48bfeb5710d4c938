//! The asks that forms are, and their requests. Python's hashlib and hmac made the octets.

use rld_ask::{AskForm, FormFault};
use rsl_auth::HmacKey;
use std::alloc::Global;
use std::test::Fail;
use test_rows::{Hex, Subject, check_rows, printed};

/// The secret of the client.
const SECRET: &[u8] = b"0123456789abcdef";

/// What a form has, or the text of its fault.
struct Forms;

impl Subject for Forms {
    fn found(&self, alloc: Global, fields: &[&str]) -> Result<String, Fail> {
        let [form] = fields else {
            return Err("not one form")?;
        };
        match AskForm::read(alloc, form.as_bytes()) {
            Ok(ask) => {
                let identifier = match &ask.nas_identifier {
                    Some(identifier) => Some(Hex(identifier.as_slice())),
                    None => None,
                };
                let station = match &ask.calling_station_id {
                    Some(station) => Some(Hex(station.as_slice())),
                    None => None,
                };
                let name = Hex(ask.name.as_slice());
                let key = Hex(ask.key.as_slice());
                printed(alloc, &(name, key, identifier, ask.nas_ip_address, station))
            }
            Err(FormFault::NoMemory) => Err("no memory")?,
            Err(fault) => {
                let mut text = Vec::new(alloc);
                fault.push(&mut text)?;
                Ok(String::from_utf8_lossy(alloc, text.as_slice())?)
            }
        }
    }
}

#[test]
fn a_form_is_an_ask_or_its_first_fault_is_named(rt: HostRuntime) -> Result<(), Fail> {
    let rows = "
        the least | name=nemo&key=k&nas_identifier=p | (6e656d6f, 6b, Some(70), None, None)
        by an address | name=nemo&key=k&nas_ip_address=192.0.2.7 | (6e656d6f, 6b, None, Some([192, 0, 2, 7]), None)
        all fields in another order | calling_station_id=02-00&nas_ip_address=0.0.0.0&nas_identifier=p&key=k&name=n | \
          (6e, 6b, Some(70), Some([0, 0, 0, 0]), Some(30322d3030))
        octets and spaces | name=a+b&key=%ff%00&nas_identifier=%C3%A9&x | unknown field
        each octet | name=a+b&key=%ff%00&nas_identifier=%C3%a9 | (612062, ff00, Some(c3a9), None, None)
        what is no escape | name=%&key=%4&nas_identifier=%zz | (25, 2534, Some(257a7a), None, None)
        an encoded name of a field | %6eame=n&key=k&nas_identifier=p | (6e, 6b, Some(70), None, None)
        empty pieces | &&name=n&&key=k&nas_identifier=p& | (6e, 6b, Some(70), None, None)
        an equal sign in a value | name=n=m&key==&nas_identifier=p | (6e3d6d, 3d, Some(70), None, None)
        empty fields are left out | name=n&key=k&nas_identifier=&nas_ip_address=1.2.3.4&calling_station_id= | \
          (6e, 6b, None, Some([1, 2, 3, 4]), None)
        no form | | name: missing
        no name | key=k&nas_identifier=p | name: missing
        an empty name | name=&key=k&nas_identifier=p | name: missing
        no key | name=n&nas_identifier=p | key: missing
        no access server | name=n&key=k | nas_identifier: missing
        an access server of no name | name=n&key=k&nas_identifier=&nas_ip_address= | nas_identifier: missing
        a field twice | name=n&key=k&nas_identifier=p&key=k | key: more than once
        an empty one twice | name=n&key=k&nas_identifier=p&calling_station_id=&calling_station_id= | \
          calling_station_id: more than once
        twice before missing | key=k&key=k | key: more than once
        unknown before twice | a=b&key=k&key=k | unknown field
        a name in capitals | Name=n&key=k&nas_identifier=p | unknown field
        a wrong address | name=n&key=k&nas_ip_address=1.2.3 | nas_ip_address: wrong value
        an address of IPv6 | name=n&key=k&nas_ip_address=::1 | nas_ip_address: wrong value
        a leading zero | name=n&key=k&nas_ip_address=1.2.3.04 | nas_ip_address: wrong value
    ";
    check_rows(&rt, &Forms, rows)
}

/// A form with a field of the given length: taken, or its fault.
struct Lengths;

impl Subject for Lengths {
    fn found(&self, alloc: Global, fields: &[&str]) -> Result<String, Fail> {
        let [field, len] = fields else {
            return Err("no field and length")?;
        };
        let mut form = String::new(alloc);
        for other in ["name", "key", "nas_identifier", "calling_station_id"] {
            let len: usize = if other == *field {
                match len.parse() {
                    Ok(len) => len,
                    Err(_) => return Err("no length")?,
                }
            } else {
                1
            };
            form.push_str(other)?;
            form.push_str("=")?;
            for _ in 0..len {
                form.push_str("x")?;
            }
            form.push_str("&")?;
        }
        let is_read = AskForm::read(alloc, form.as_bytes()).is_ok();
        printed(alloc, &is_read)
    }
}

#[test]
fn a_value_fits_an_attribute(rt: HostRuntime) -> Result<(), Fail> {
    let rows = "
        the longest name | name | 253 | true
        a longer one | name | 254 | false
        the longest key | key | 128 | true
        a longer one | key | 129 | false
        the longest access server | nas_identifier | 253 | true
        a longer one | nas_identifier | 254 | false
        the longest device | calling_station_id | 253 | true
        a longer one | calling_station_id | 254 | false
    ";
    check_rows(&rt, &Lengths, rows)
}

/// The octets of the request of a form.
struct Requests;

impl Subject for Requests {
    fn found(&self, alloc: Global, fields: &[&str]) -> Result<String, Fail> {
        let [form] = fields else {
            return Err("not one form")?;
        };
        let Ok(ask) = AskForm::read(alloc, form.as_bytes()) else {
            return Err("no ask")?;
        };
        match ask.request(alloc, &HmacKey::new(SECRET)) {
            Ok(octets) => printed(alloc, &Hex(octets.as_slice())),
            Err(_) => Err("no request")?,
        }
    }
}

#[test]
fn an_ask_is_the_request_that_its_client_would_have_sent(rt: HostRuntime) -> Result<(), Fail> {
    let rows = "
        a name and an access server | name=nemo&key=k&nas_identifier=pop1 | \
          018c00328ce4b16b22b58894aa86c421e8759df35012e6a87ebd8cb955c9f37d7e7d443e161a01066e656d6f2006706f7031
        its address, and a device | name=nemo&key=k&nas_ip_address=192.0.2.7&calling_station_id=02-00 | \
          018c00398ce4b16b22b58894aa86c421e8759df35012fee3423733e0229c1c0d7261f106fe8501066e656d6f0406c00002071f0730322d3030
        octets of any kind | name=a+b&key=%ff+%00&nas_identifier=%ff&nas_ip_address=0.0.0.0 | \
          01d30034d3cffea728836ae6573ae08bc697b14050129577cff7e34012b66bf01deb040d1bfc01056120622003ff040600000000
    ";
    check_rows(&rt, &Requests, rows)
}
