//! What is shown of sockets and of minutes.

use rld_counts::{Cause, Counts, Fate, Gate};
use rld_look::{History, socket_in};
use std::alloc::Global;
use std::net::IpAddr;
use std::test::Fail;
use test_rows::{Subject, check_rows, number, port_number};

/// Tables of sockets as Linux 6 gave them, one after the other, with lines that are wrong between:
/// of 1,000 datagrams of 1,000 octets to port 1812 of 127.0.0.1, and of 500 to that of 2001:db8::5,
/// nothing was read, and neither was one of 100 octets to port 1813, of IPv4 and of IPv6.
const TABLE: &str =
    "   sl  local_address rem_address   st tx_queue rx_queue tr tm->when retrnsmt   \
uid  timeout inode ref pointer drops            
 8961: 0100007F:0714 00000000:0000 07 00000000:00033C00 00:00000000 00000000     0        0 249076 2 \
00000000f8d395d2 908      
 8962: 00000000:0715 00000000:0000 07 00000000:00000340 00:00000000 00000000     0        0 249077 2 \
0000000035078cb5 0        
10779: 00000000:8E2E 00000000:0000 07 00000000:00000000 00:00000000 00000000     0        0 249078 2 \
000000002a34dfc8 0        
  1: 0100007F:0715 00000000:0000 07 00000000
  2: 0200007F:0715 00000000:0000 07 00000000:000000XY 00:00000000 00000000     0        0 1 2 0 0
  sl  local_address                         remote_address                        st tx_queue rx_queue tr \
tm->when retrnsmt   uid  timeout inode ref pointer drops
  155: B80D0120000000000000000005000000:0714 00000000000000000000000000000000:0000 07 00000000:00033C00 \
00:00000000 00000000     0        0 19981 2 000000004f8be713 408
  156: 00000000000000000000000000000000:0717 00000000000000000000000000000000:0000 07 00000000:00000340 \
00:00000000 00000000     0        0 19032 2 0000000071f4a9a4 3
";

/// What a table says of a socket.
#[derive(Clone, Copy)]
struct Waiting;

impl Subject for Waiting {
    fn found(&self, alloc: Global, fields: &[&str]) -> Result<String, Fail> {
        let [host, port] = fields else {
            return Err("a row with other fields")?;
        };
        let mut text = String::new(alloc);
        match socket_in(TABLE, host.parse::<IpAddr>()?, port_number(port)?) {
            Some(socket) => {
                let (port, waiting, dropped) = (socket.port, socket.waiting, socket.dropped);
                write!(text, "{port} {waiting} {dropped}")?;
            }
            None => text.push_str("none")?,
        }
        Ok(text)
    }
}

/// A socket's address and port: its port, what waits, and what was dropped.
const WAITING: &str = "
one that is full | 127.0.0.1 | 1812 | 1812 211968 908
one of all addresses | 0.0.0.0 | 1813 | 1813 832 0
one that nobody bound there | 0.0.0.0 | 1812 | none
another port | 127.0.0.1 | 1814 | none
a line that is cut off | 127.0.0.1 | 1813 | none
a number that is none | 127.0.0.2 | 1813 | none
one on an IPv6 address that is full | 2001:db8::5 | 1812 | 1812 211968 408
one of all addresses, IPv6 and IPv4 | :: | 1815 | 1815 832 3
all addresses of the other kind | 0.0.0.0 | 1815 | none
and the other way round | :: | 1813 | none
an IPv6 address with the number of an IPv4 one | ::127.0.0.1 | 1812 | none
another IPv6 address | 2001:db8::500 | 1812 | none
";

#[test]
fn sockets_are_found_in_the_table(rt: HostRuntime) -> Result<(), Fail> {
    check_rows(&rt, &Waiting, WAITING)
}

/// What a history has after some minutes, each of one login, one limit reject, one wrong password
/// and one Start more.
#[derive(Clone, Copy)]
struct Minutes;

impl Subject for Minutes {
    fn found(&self, alloc: Global, fields: &[&str]) -> Result<String, Fail> {
        let [start, seconds] = fields else {
            return Err("a row with other fields")?;
        };
        let mut history = History::new(alloc, number(start)?)?;
        let mut counts = Counts::new();
        for word in seconds.split_ascii_whitespace() {
            for (gate, cause) in [
                (Gate::Auth, Cause::Accept),
                (Gate::Auth, Cause::LimitReject),
                (Gate::Auth, Cause::WrongPassword),
                (Gate::Acct, Cause::Start),
            ] {
                counts.note(Fate { gate, cause });
            }
            let now = number(word)?;
            if history.has_passed(now) {
                history.begin_minute(now, &counts, now)?;
            }
        }
        let mut text = String::new(alloc);
        for minute in history.minutes() {
            let start = minute.start;
            let came = (
                minute.accepts,
                minute.limit_rejects,
                minute.rejects,
                minute.accounting,
            );
            let held = minute.held;
            write!(text, "{start} {came:?} {held}, ")?;
        }
        Ok(String::from_str(alloc, text.trim())?)
    }
}

/// The second of a start, and seconds in each of which one of each came: the minutes that are kept.
const MINUTES: &str = "
none is over | 100 | 101 119 | 
the first is not whole | 100 | 101 120 | 
the second is | 100 | 101 120 121 180 | 120 (2, 2, 2, 2) 180,
two minutes | 100 | 120 180 200 240 | 120 (1, 1, 1, 1) 180, 180 (2, 2, 2, 2) 240,
a minute without a tick | 100 | 120 300 | 120 (1, 1, 1, 1) 300,
a clock that is set back | 600 | 660 500 | 660 (1, 1, 1, 1) 500,
";

#[test]
fn minutes_have_what_came_in_them(rt: HostRuntime) -> Result<(), Fail> {
    check_rows(&rt, &Minutes, MINUTES)
}
