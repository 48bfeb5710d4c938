//! What is answered to Status-Server packets. The first two are the examples of RFC 5997 section 7; the
//! other packets, and the signed answers, were made with Python's hashlib and hmac.

use rld_turn::status_answer;
use rsl_account_file::read_config;
use rsl_event::Port;
use rsl_reply::Dictionary;
use std::alloc::Global;
use std::test::Fail;
use test_rows::{Hex, Subject, check_rows, octets_of, printed, shown};

/// An account file with one client, 192.0.2.1.
const ACCOUNTS: &str = "
version = 1
shards = 1
reserve_secs = 60
live_secs = 900
grace_secs = 900
closed_secs = 3600
keep_secs = 10
client = [{ address = '192.0.2.1', secret = 'xyzzy5461' }]
account = [{ name = 'a', password = 'p', places = 1, ports = 1 }]
";

/// What is answered on a port to octets that came from the client, or another address.
struct Answers {
    port: Port,
}

impl Subject for Answers {
    fn found(&self, alloc: Global, fields: &[&str]) -> Result<String, Fail> {
        let [from, octets] = fields else {
            return Err("not a source and octets")?;
        };
        let Ok(config) = read_config(alloc, &Dictionary::new(alloc), ACCOUNTS.as_bytes()) else {
            return Err("the account file is refused")?;
        };
        let address = if *from == "client" {
            [192, 0, 2, 1]
        } else {
            [192, 0, 2, 2]
        };
        let datagram = octets_of(alloc, octets)?;
        match status_answer(alloc, &config, self.port, address, datagram.as_slice())? {
            Some(answer) => printed(alloc, &Hex(answer.as_slice())),
            None => shown(alloc, &"none"),
        }
    }
}

#[test]
fn a_status_of_accounting_is_answered_by_an_accounting_response(
    rt: HostRuntime,
) -> Result<(), Fail> {
    let rows = "
        of RFC 5997 section 7.2 | client | 0cb30026925f6b66dd5fed571fcb1db7ad3882605012e8d6eabda910875cd91fdade26367858 | \
          05b300140f6f92145f107e2f504e860a4860669c
        with Proxy-States, signed behind another attribute | client | \
          0c070033000102030405060708090a0b0c0d0e0f2006706f703150121729bf4e4b34b07cd38409cd17d30cc021056f6e652102 | \
          0507001b07d94e45dc877aadea527c406ce4497021056f6e652102
        of no client | other | 0cb30026925f6b66dd5fed571fcb1db7ad3882605012e8d6eabda910875cd91fdade26367858 | none
    ";
    check_rows(&rt, &Answers { port: Port::Acct }, rows)
}

#[test]
fn a_status_of_logins_is_answered_by_a_signed_access_accept(rt: HostRuntime) -> Result<(), Fail> {
    let rows = "
        the packet of RFC 5997 section 7.1 | client | \
          0cda00268a54f4686fb394c52866e302185d062350125a665e2e1e8411f3e243822097c84fa3 | \
          02da00267e6d7a5f5dfa87b519bef260a6f15081501257566a4a4a4c690f8e18b73ae7a7f65f
        with Proxy-States, signed behind another attribute | client | \
          0c070033000102030405060708090a0b0c0d0e0f2006706f703150121729bf4e4b34b07cd38409cd17d30cc021056f6e652102 | \
          0207002dcb0c92fd5b5fe42252825e28e37838ed5012199fb4587485ab37772f94b1dd23225121056f6e652102
        with octets behind its Length | client | \
          0c07002c000102030405060708090a0b0c0d0e0f5012f1f4a909d5f73febea5607b26c6d493a2006706f70310000 | \
          02070026f9d6ff870fff8658eaa6cf688a0147f85012259eed2f26725627fca91118b513452b
        of no client | other | 0cda00268a54f4686fb394c52866e302185d062350125a665e2e1e8411f3e243822097c84fa3 | none
        unsigned | client | 0c07001a000102030405060708090a0b0c0d0e0f2006706f7031 | none
        signed wrong | client | 0cda00268a54f4686fb394c52866e302185d062350125a665e2e1e8411f3e243822097c84fa2 | none
        signed twice | client | \
          0c070038000102030405060708090a0b0c0d0e0f5012468db94821b638934e064ef1fec36f4a501200000000000000000000000000000000 | none
        a signature of 15 octets | client | \
          0c070025000102030405060708090a0b0c0d0e0f5011000000000000000000000000000000 | none
        an Access-Request | client | 01070026000102030405060708090a0b0c0d0e0f5012b00067cd8851cdc6815e621200b6c999 | none
        a Status-Client | client | 0d070026000102030405060708090a0b0c0d0e0f50122e22efa64a1c0d6ee0c651aab1ed2e7a | none
        a malformed list | client | 0c0700150000000000000000000000000000000050 | none
        cut off | client | 0cda00268a54f4686fb394c52866e302185d062350125a665e2e1e8411f3e243822097c84f | none
        nothing | client | | none
    ";
    check_rows(&rt, &Answers { port: Port::Auth }, rows)
}
