//! Calls that take memory, and have no subject that they could change.

use crate::given::Given;
use crate::page::Page;
use crate::printed::Hex;
use crate::stop::Stop;
use rsl_account_file::read_config;
use rsl_auth::hide;
use rsl_book::Book;
use rsl_event::codes::{ACCESS_REJECT, ACCESS_REQUEST, NAS_IP_ADDRESS, USER_NAME};
use rsl_reply::Dictionary;
use rsl_rule::{decide, places};
use rsl_wire::{Attr, BuildFault, Draft, build};
use std::alloc::Global;

/// The Request Authenticator of the request of RFC 2865 section 7.1.
const AUTHENTICATOR: [u8; 16] = [
    0x0f, 0x40, 0x3f, 0x94, 0x73, 0x97, 0x80, 0x57, 0xbd, 0x83, 0xd5, 0xcb, 0x98, 0xf4, 0x22, 0x7a,
];

/// An account file.
const FILE: &str = "version = 1\nshards = 2\nreserve_secs = 60\nlive_secs = 900\ngrace_secs = 900\n\
    closed_secs = 3600\nkeep_secs = 10\n\
    client = [{ address = \"192.168.1.16\", secret = \"xyzzy5461\" }]\n\
    account = [{ name = \"nemo\", password = \"arctangent\", places = 1, ports = 1 }]\n";

/// Makes each call, and tells what it answers.
pub(crate) fn tell<R: Print>(page: &mut Page<R>, given: &Given) -> Result<(), Stop> {
    let alloc = page.alloc;
    let accounts = read_config(alloc, &Dictionary::new(alloc), FILE.as_bytes())?.accounts();
    let reject = Draft::new(alloc, 15)?.finish(ACCESS_REJECT, &AUTHENTICATOR);
    let hidden = hide(alloc, b"arctangent", b"xyzzy5461", &AUTHENTICATOR)?;
    writeln!(page.text, "script: {} steps", given.steps.len())?;
    writeln!(page.text, "file: {accounts} account")?;
    writeln!(page.text, "reject: {}", Hex(&reject))?;
    writeln!(page.text, "request: {}", Hex(&request(alloc)?))?;
    writeln!(page.text, "hidden: {}", Hex(&hidden))?;
    tell_rule(page, given)
}

/// The request of RFC 2865 section 7.1, without its User-Password; no octets where it would be too
/// long.
fn request(alloc: Global) -> Result<Vec<u8>, Stop> {
    let name = Attr {
        kind: USER_NAME,
        value: b"nemo",
    };
    let address = Attr {
        kind: NAS_IP_ADDRESS,
        value: &[192, 168, 1, 16],
    };
    match build(alloc, ACCESS_REQUEST, 0, &AUTHENTICATOR, &[name, address]) {
        Ok(octets) => Ok(octets),
        Err(BuildFault::NoMemory) => Err(Stop::NoMemory),
        Err(BuildFault::TooLong) => Ok(Vec::new(alloc)),
    }
}

/// Tells what the session rule decides on the first account's own events, what it holds after them, and
/// what a new book holds.
fn tell_rule<R: Print>(page: &mut Page<R>, given: &Given) -> Result<(), Stop> {
    let alloc = page.alloc;
    let rules = given.config.entry(0).rules;
    let events = given.events(alloc, 0)?;
    let held = places(alloc, &rules, &events)?;
    let new = Book::new(alloc, rules)?.held();
    let decisions = decide(alloc, &rules, &events)?;
    let number = events.len();
    writeln!(
        page.text,
        "own: {number} events {decisions:?}, held {held}, before {new}"
    )?;
    Ok(())
}
