//! Requests over HTTP that did not show the token, as refusals.

ghost use Rattle.rld_serve.specs.Strangers.{IsUnauthorized};

use crate::server::Server;
use rld_counts::{Cause, Fate, Gate};
use rld_look::Refused;
use rsl_event::Source;
use std::net::SocketAddr;
use std::sync::Wait;

impl<G, A, R: Wait> Server<'_, G, A, R> {
    /// Notes that this number of requests of a peer were refused at this second, since they did not show the
    /// token: each waits for its line, or is counted as left out.
    pub(crate) fn note_unauthorized(&self, peer: SocketAddr, moment: u64, number: u64) {
        let Some(seat) = self.seat else {
            return;
        };
        for _ in 0..number {
            let refused = unauthorized(peer, moment);
            self.refusals
                .note(self.rt, self.alloc, seat.number, &refused);
        }
    }
}

/// What is noted of a request of this peer that did not show the token at this second: the peer stands for no
/// client, and nothing of the request was read.
fn unauthorized(peer: SocketAddr, moment: u64) -> Refused<'static>
    ensures { IsUnauthorized peer moment result }
{
    Refused {
        moment,
        source: Source {
            address: [0; 4],
            port: peer.port(),
        },
        peer: peer.ip(),
        client: None,
        octets: &[],
        fate: Fate {
            gate: Gate::Ask,
            cause: Cause::Unauthorized,
        },
    }
}
