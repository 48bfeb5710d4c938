//! Numbers over all sockets, each at most 2^64 - 1.

ghost use Rattle.std.specs.Prelude.{◌≡◌};
ghost use Rattle.rld_text.specs.Metrics.{dropped_after, waiting_after};

use rld_look::SocketLook;

/// The octets that wait at all sockets.
pub(crate) fn waiting(sockets: &[SocketLook]) -> u64
    ensures { result ≡ waiting_after 0 sockets.now }
{
    let mut number = 0u64;
    for socket in sockets {
        number = number.saturating_add(socket.waiting);
    }
    number
}

/// The datagrams dropped at all sockets.
pub(crate) fn dropped(sockets: &[SocketLook]) -> u64
    ensures { result ≡ dropped_after 0 sockets.now }
{
    let mut number = 0u64;
    for socket in sockets {
        number = number.saturating_add(socket.dropped);
    }
    number
}
