ghost use Rattle.std.specs.Prelude.{◌≡◌, IfOk};

use crate::ask_connections::AskConnections;
use crate::asked::Asked;
use crate::token::Token;
use rsl_reply::Dictionary;
use std::alloc::Global;
use std::io;
use std::net::{Ipv4Addr, Net, SocketAddr, SocketAddrV4, TcpListener, TcpStream};
use std::sync::Wait;
use std::time::Clock;

/// Where asks come in over HTTP/1.1.
///
/// It answers `POST /ask` with a form and the token: 200 and JSON where the ask is accepted, 403 where the
/// account has no free place, 404 where no account has the name, 423 where it is disabled, and 503 where
/// nothing was recorded. What it refuses has the status 400 (the form is wrong, the text says which field; or
/// the path is another), 401 (the token), 405 (another method), or one of HTTP's own for what is no request:
/// 400, 413, 414, 431, 501.
#[derive(Drop)]
pub struct Asks {
    alloc: Global,
    listener: TcpListener,
    token: Token,
    /// The address of the client as which asks come.
    client: [u8; 4],
}

impl Asks {
    /// Binds the address and TCP port, where whoever asks has to show this token, and counts as the client with
    /// the address `client`. The error is the system's: the address is not this machine's, or the port is taken
    /// or not allowed.
    pub fn bind<N: Net<Listener = TcpListener, Stream = TcpStream>>(
        net: &N,
        alloc: Global,
        token: Token,
        client: [u8; 4],
        address: [u8; 4],
        port: u16,
    ) -> io::Result<Asks>
        ensures token { IfOk result (λ asks. asks.token ≡ token) }
        ensures client { IfOk result (λ asks. asks.client ≡ client) }
    {
        let place = SocketAddrV4::new(Ipv4Addr::from(address), port);
        let listener = TcpListener::bind(net, SocketAddr::V4(place))?;
        listener.set_nonblocking(true)?;
        Ok(Asks {
            alloc,
            listener,
            token,
            client,
        })
    }

    /// The address of the client as which asks come.
    pub fn client(&self) -> [u8; 4]
        ensures { result ≡ self.now.client }
    {
        self.client
    }

    /// Puts asks to a server until it shall end, which is noticed within a second, or can answer no more. Their
    /// answers have the names of a dictionary. The error is the system's, where whoever asks cannot be waited for.
    pub fn take<S: Asked, R: Net + Clock + Wait>(
        &self,
        rt: &R,
        names: &Dictionary,
        server: &mut S,
    ) -> io::Result<()> {
        let mut connections = AskConnections::new(rt, self.alloc, &self.listener)?;
        for _ in rt.forever() {
            if server.is_over() {
                break;
            }
            connections.wait()?;
            let now = millis(rt);
            connections.let_in(&self.listener, now);
            if !connections.serve(names, &self.token, server, now) {
                break;
            }
        }
        Ok(())
    }
}

/// This moment, in milliseconds since some start. A clock that cannot be read shows the last moment of all, at
/// which no connection lasts longer.
fn millis<C: Clock>(clock: &C) -> u64 {
    match clock.monotonic() {
        Ok(time) => time
            .as_secs()
            .saturating_mul(1_000)
            .saturating_add(u64::from(time.subsec_millis())),
        Err(_) => u64::MAX,
    }
}
