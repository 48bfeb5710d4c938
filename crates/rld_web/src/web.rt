ghost use Rattle.std.specs.Prelude.{◌≡◌, IfOk};
ghost use Rattle.std.specs.Net.Addr.{ipv4_octets};
ghost use Rattle.std.specs.Net.Socket.{v4_ip, v4_port};

use crate::connections::Connections;
use crate::page_service::PageService;
use rld_look::{Pages, Shown};
use std::alloc::Global;
use std::hash::RandomState;
use std::io;
use std::net::{Ipv4Addr, Net, SocketAddr, SocketAddrV4, TcpListener, TcpStream};
use std::sync::Wait;
use std::time::Clock;

/// Shows a running server over HTTP/1.1.
///
/// It answers `GET` and `HEAD` of `/` (a page for a browser), `/metrics` (Prometheus' text format,
/// version 0.0.4), `/accounts.json`, and `/health` (200, or 503 if batches are not recorded). It
/// refuses with the status 404 (an unknown path), 405 (another method), 421 (another server's
/// name), or one of HTTP's own for what is no request: 400, 413, 414, 431, 501.
#[derive(Drop)]
pub struct Web {
    alloc: Global,
    keys: RandomState,
    listener: TcpListener,
    place: SocketAddrV4,
}

impl Web {
    /// Binds the address and TCP port, and keeps them. The keys are secret, since strangers choose
    /// the names of header fields. The error is the system's: the address is not this machine's, or
    /// the port is taken or not allowed.
    pub fn bind<N: Net<Listener = TcpListener, Stream = TcpStream>>(
        net: &N,
        alloc: Global,
        keys: RandomState,
        address: [u8; 4],
        port: u16,
    ) -> io::Result<Web>
        ensures address { IfOk result (λ web. ipv4_octets (v4_ip web.place) ≡ address) }
        ensures port { IfOk result (λ web. v4_port web.place ≡ port) }
    {
        let place = SocketAddrV4::new(Ipv4Addr::from(address), port);
        let listener = TcpListener::bind(net, SocketAddr::V4(place))?;
        listener.set_nonblocking(true)?;
        Ok(Web {
            alloc,
            keys,
            listener,
            place,
        })
    }
}

impl Pages for Web {
    fn show<S: Shown, R: Net + Clock + Wait>(&self, rt: &R, server: &S) -> io::Result<()> {
        let mut connections = Connections::new(rt, self.alloc, self.keys, &self.listener)?;
        let mut service = PageService::new(self.alloc, server, self.place);
        for _ in rt.forever() {
            if server.is_over() {
                break;
            }
            connections.wait(millis(rt))?;
            let now = millis(rt);
            connections.let_in(&self.listener, now);
            connections.serve(&mut service, now);
        }
        Ok(())
    }
}

/// This moment, in milliseconds since a fixed start. A clock that cannot be read shows the greatest
/// moment, at which no connection has time left.
fn millis<C: Clock>(clock: &C) -> u64 {
    match clock.monotonic() {
        Ok(time) => time
            .as_secs()
            .saturating_mul(1_000)
            .saturating_add(u64::from(time.subsec_millis())),
        Err(_) => u64::MAX,
    }
}
