ghost use Rattle.std.specs.Prelude.{◌≡◌, map, IfOk};
ghost use Rattle.rld_edges.specs.Sockets.{pair_for, pair_seen};

use crate::fault::RunFault;
use rld_config::Listen;
use std::alloc::Global;
use std::io;
use std::net::{IpAddr, Ipv4Addr, Net, SocketAddr, UdpSocket};
use std::time::Duration;

/// How long a read of an asking socket waits, in milliseconds.
const ASKING_MILLIS: u64 = 100;

/// The port that is asked for to be given any.
const ANY_PORT: u16 = 0;

const _: () = prove!(ASKING_MILLIS == 100 && ANY_PORT == 0);

/// A UDP socket of a server.
#[derive(Drop)]
pub struct Bound {
    /// The socket, which does not block.
    pub socket: UdpSocket,
    /// Where it is bound.
    pub address: SocketAddr,
    /// Whether Status-Server packets are answered on it.
    pub status_server: bool,
}

/// The two sockets of a `[[listen]]` of the server's file.
#[derive(Drop)]
pub struct Pair {
    /// The address of both sockets.
    pub address: IpAddr,
    /// The UDP port of the socket for authentication.
    pub auth_port: u16,
    /// The UDP port of the socket for accounting.
    pub acct_port: u16,
    /// The socket for authentication.
    pub auth: Bound,
    /// The socket for accounting.
    pub acct: Bound,
    /// How many receivers each of the two sockets has.
    pub receivers: u16,
}

/// The UDP sockets of a server, before the first read.
#[derive(Drop)]
pub struct Sockets {
    pub(crate) pairs: Vec<Pair>,
}

impl Sockets {
    /// Binds the two sockets of each `[[listen]]`, in the file's order. They do not block.
    ///
    /// `Unbound` comes with the first address and port that cannot be bound: there is no memory for
    /// a socket, the address is not this machine's, or the port is taken or not allowed. `NoMemory`
    /// comes if memory is refused. The sockets that were bound before are then closed.
    pub fn bind<N: Net>(net: &N, alloc: Global, listens: &[Listen]) -> Result<Sockets, RunFault>
        ensures { IfOk result (λ sockets.
            map pair_seen sockets.pairs.items ≡ map pair_for listens.now) }
    {
        let mut pairs = Vec::new(alloc);
        for listen in listens {
            pairs.push(pair_of(net, listen)?)?;
        }
        Ok(Sockets { pairs })
    }

    /// The sockets of each `[[listen]]`, in the file's order.
    pub fn pairs(&self) -> &[Pair]
        ensures { result.now ≡ self.now.pairs.items }
    {
        self.pairs.as_slice()
    }

    /// Binds a socket for requests to access servers, at a port that the system chooses. Its address
    /// is that of these sockets where they all have one IPv4 address, so that an access server sees
    /// the address that it knows; else the system chooses one for each datagram. A read waits for a
    /// tenth of a second at most. The error is the system's.
    pub fn bind_asking<N: Net>(&self, net: &N) -> io::Result<UdpSocket> {
        let address = SocketAddr::new(IpAddr::V4(self.own_address()), ANY_PORT);
        let socket = UdpSocket::bind(net, address)?;
        socket.set_read_timeout(Some(Duration::from_millis(ASKING_MILLIS)))?;
        Ok(socket)
    }

    /// The IPv4 address that all sockets have, or `0.0.0.0`.
    fn own_address(&self) -> Ipv4Addr {
        let mut found = None;
        for pair in self.pairs.as_slice() {
            let address = v4_of(pair.address);
            found = match found {
                Some(other) if other != address => return Ipv4Addr::UNSPECIFIED,
                _ => Some(address),
            };
        }
        found.unwrap_or(Ipv4Addr::UNSPECIFIED)
    }
}

/// An IPv4 address, or `0.0.0.0` for an IPv6 one.
fn v4_of(address: IpAddr) -> Ipv4Addr {
    match address {
        IpAddr::V4(address) => address,
        IpAddr::V6(_) => Ipv4Addr::UNSPECIFIED,
    }
}

/// The two sockets of a `[[listen]]`.
fn pair_of<N: Net>(net: &N, listen: &Listen) -> Result<Pair, RunFault>
    ensures { IfOk result (λ pair. pair_seen pair ≡ pair_for listen.now) }
{
    let address = listen.address;
    let status_server = listen.status_server;
    let auth = bind_socket(net, SocketAddr::new(address, listen.auth), status_server)?;
    let acct = bind_socket(net, SocketAddr::new(address, listen.acct), status_server)?;
    Ok(Pair {
        address,
        auth_port: listen.auth,
        acct_port: listen.acct,
        auth,
        acct,
        receivers: listen.receivers,
    })
}

/// A socket bound to this address, which does not block.
fn bind_socket<N: Net>(net: &N, address: SocketAddr, status_server: bool) -> Result<Bound, RunFault>
    ensures address { IfOk result (λ bound. bound.address ≡ address) }
    ensures status_server { IfOk result (λ bound. bound.status_server ≡ status_server) }
{
    let Ok(socket) = UdpSocket::bind(net, address) else {
        return Err(RunFault::Unbound(address));
    };
    match socket.set_nonblocking(true) {
        Ok(()) => Ok(Bound {
            socket,
            address,
            status_server,
        }),
        Err(_) => Err(RunFault::Unbound(address)),
    }
}
