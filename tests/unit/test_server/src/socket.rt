//! A receiver answers over a UDP socket. The request is that of RFC 2865 section 7.1.

use crate::client::connected;
use crate::fresh::Fresh;
use rsl_account_file::read_config;
use rsl_accounts::Config;
use rsl_event::Port;
use rsl_reply::Dictionary;
use rsl_service::{Blanks, Clock, Counts, Open, Service, Tally, receive};
use std::alloc::Global;
use std::marker::Brand;
use std::net::{Net, UdpSocket};
use std::sync::Wait;
use std::test::Fail;
use std::thread::{self, Threads};
use test_rows::octets_of;

const FILE: &str = r#"
version = 1
shards = 2
reserve_secs = 60
live_secs = 900
grace_secs = 900
closed_secs = 3600
keep_secs = 10

[[client]]
address = "127.0.0.1"
secret = "xyzzy5461"

[[account]]
name = "nemo"
password = "arctangent"
places = 1
ports = 1
"#;

const REQUEST: &str = "010000380f403f9473978057bd83d5cb98f4227a01066e656d6f0212\
    0dbe708d93d413ce3196e43f782a0aee0406c0a80110050600000003";

const TURNS: u64 = 20;

/// A clock that stands.
#[derive(Drop)]
struct Standing;

impl Clock for Standing {
    fn now(&mut self) -> u64 {
        5
    }
}

/// Sends a request as often as the receiver takes a turn, and reads the answers. Gives the last one
/// that comes in time.
fn ask(alloc: Global, socket: UdpSocket, request: &[u8]) -> Option<Vec<u8>> {
    for _ in 0..TURNS {
        socket.send(request).ok()?;
    }
    let mut room = [0u8; 4096];
    let mut len = socket.recv(&mut room).ok()?;
    for _ in 1..TURNS {
        match socket.recv(&mut room) {
            Ok(next) => len = next,
            Err(_) => break,
        }
    }
    Vec::from_slice(alloc, room.get(..len)?).ok()
}

/// What a receiver counts that takes its turns over a socket.
fn received<L0: Tally, L1: Tally, L2: Tally, L3: Tally, R: Wait>(
    rt: &R,
    alloc: Global,
    service: &Service<L0, L1, L2, L3, Open>,
    fresh: Fresh,
) -> Option<Counts> {
    let mut pass = service.open_pass(rt, alloc).ok()?;
    let mut datagrams = fresh.into_port();
    receive(
        rt,
        alloc,
        service,
        &mut pass,
        Port::Auth,
        &mut datagrams,
        &mut Standing,
        TURNS,
    )
    .ok()
}

/// The last answer to who asks a receiver, and what that counts, over ledgers of its own.
fn answered_of<R: Net + Threads + Wait + Sync>(
    rt: &R,
    alloc: Global,
    config: Config,
    request: &[u8],
) -> Result<(Option<Vec<u8>>, Option<Counts>), Fail> {
    answered::<Brand, Brand, Brand, Brand, R>(rt, alloc, Blanks::new(), config, request)
}

/// The last answer to who asks a receiver, and what that counts.
fn answered<L0, L1, L2, L3, R>(
    rt: &R,
    alloc: Global,
    blanks: Blanks,
    config: Config,
    request: &[u8],
) -> Result<(Option<Vec<u8>>, Option<Counts>), Fail>
where
    L0: Tally + Send + Sync,
    L1: Tally + Send + Sync,
    L2: Tally + Send + Sync,
    L3: Tally + Send + Sync,
    R: Net + Threads + Wait + Sync,
{
    let service: Service<L0, L1, L2, L3, Open> = Service::new(alloc, blanks, config, 1, Open)?;
    asked(rt, alloc, &service, request)
}

/// The last answer to who asks a receiver of a service, and what that counts.
fn asked<L0, L1, L2, L3, R>(
    rt: &R,
    alloc: Global,
    service: &Service<L0, L1, L2, L3, Open>,
    request: &[u8],
) -> Result<(Option<Vec<u8>>, Option<Counts>), Fail>
where
    L0: Tally + Send + Sync,
    L1: Tally + Send + Sync,
    L2: Tally + Send + Sync,
    L3: Tally + Send + Sync,
    R: Net + Threads + Wait + Sync,
{
    let fresh = Fresh::bind(rt)?;
    let socket = connected(rt, fresh.number)?;
    Ok(thread::join(
        rt,
        move || ask(alloc, socket, request),
        move || received(rt, alloc, service, fresh),
    ))
}

#[test]
fn a_request_over_a_socket_is_answered(rt: HostRuntime) -> Result<(), Fail> {
    let config = read_config(rt.alloc(), &Dictionary::new(rt.alloc()), FILE.as_bytes())?;
    let request = octets_of(rt.alloc(), REQUEST)?;
    let (octets, counts) = answered_of(&rt, rt.alloc(), config, &request)?;
    let octets = octets.ok_or("no answer")?;
    let counts = counts.ok_or("no counts")?;
    let others = (counts.turns, counts.dropped, counts.refused, counts.unsent);
    assert_eq!(rt; others, (20, 0, 0, 0));
    assert!(rt; counts.received > 0 && counts.answered == counts.received);
    assert_eq!(rt; octets.len(), 44);
    let front = octets_of(rt.alloc(), "0200002c")?;
    assert_eq!(rt; octets[..4], front[..]);
    Ok(())
}
