//! The sockets of RADIUS, with the cause where one cannot be bound.

use rld_commands::{Fault, cause_of};
use rld_config::Listen;
use rld_serve::{RunFault, Sockets};
use std::alloc::Global;
use std::net::{Net, SocketAddr, UdpSocket};

/// The sockets of RADIUS. `Unbound` comes with the first address and port that cannot be bound.
pub(crate) fn sockets_of<N: Net>(
    net: &N,
    alloc: Global,
    listens: &[Listen],
) -> Result<Sockets, Fault> {
    match Sockets::bind(net, alloc, listens) {
        Ok(sockets) => Ok(sockets),
        Err(RunFault::Unbound(address)) => {
            Err(Fault::Unbound(address, unbound_cause(net, address)))
        }
        Err(fault) => Err(Fault::Run(fault)),
    }
}

/// Why a socket cannot be bound: it is tried once more.
fn unbound_cause<N: Net>(net: &N, address: SocketAddr) -> &'static str {
    match UdpSocket::bind(net, address) {
        Ok(_) => "it was in use",
        Err(error) => cause_of(error.kind()),
    }
}
