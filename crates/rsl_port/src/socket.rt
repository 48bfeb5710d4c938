//! UDP sockets as ports: the addresses of sources, and the results of reads.

ghost use Rattle.std.specs.Prelude.{◌≡◌, ◌≤◌, ℕ, IfOk, IfSome, Some};
ghost use Rattle.rsl_port.specs.Socket.{IsFailed, IsReception, is_passing, source_in};

use crate::datagram_port::PortFault;
use rsl_event::Source;
use std::io::{self, ErrorKind};
use std::net::{Ipv4Addr, SocketAddr, SocketAddrV4};

/// A source as a `SocketAddr`.
pub fn socket_addr(source: Source) -> SocketAddr
    ensures { source_in result ≡ Some source }
{
    let address = Ipv4Addr::from_octets(source.address);
    SocketAddr::V4(SocketAddrV4::new(address, source.port))
}

/// The source with this address and port. An IPv6 address is no source.
fn source_in(from: SocketAddr) -> Option<Source>
    ensures { result ≡ source_in from }
{
    match from {
        SocketAddr::V4(from) => Some(Source {
            address: from.ip().octets(),
            port: from.port(),
        }),
        SocketAddr::V6(_) => None,
    }
}

/// What a port gives for a read of a UDP socket into a buffer of `room` octets.
///
/// A datagram is cut to the room. `None` if no datagram came in time, the wait was interrupted, the
/// system had no memory for it, or it is from an IPv6 address. `PortFault` on any other fault of
/// the read.
#[tactic(auto, using(crate::proofs::Reading::reading))]
pub fn reception(
    read: io::Result<(usize, SocketAddr)>,
    room: usize,
) -> Result<Option<(usize, Source)>, PortFault>
    ensures given { IsReception room read result }
    ensures within { IfOk result (λ received. IfSome received (λ found. found.0 ≤ room)) }
{
    match read {
        Ok((len, from)) => match source_in(from) {
            Some(source) => Ok(Some((len.min(room), source))),
            None => Ok(None),
        },
        Err(error) => failure(error.kind()),
    }
}

/// What a port gives for a failed read: `None` if no datagram came in time, the wait was
/// interrupted, or the system had no memory for it, and `PortFault` for any other failure.
fn failure(kind: ErrorKind) -> Result<Option<(usize, Source)>, PortFault>
    ensures failed { IsFailed (is_passing kind) result }
    ensures none { (room : ℕ) → IfOk result (λ received. IfSome received (λ found.
        found.0 ≤ room)) }
{
    match kind {
        ErrorKind::WouldBlock
        | ErrorKind::TimedOut
        | ErrorKind::Interrupted
        | ErrorKind::OutOfMemory => Ok(None),
        _ => Err(PortFault),
    }
}
