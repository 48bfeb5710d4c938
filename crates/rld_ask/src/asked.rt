//! A server to which asks are put.

use crate::form::AskForm;
use crate::outcome::Outcome;
use crate::refused::Refused;
use rsl_wire::Octets;
use std::net::SocketAddr;

/// What is answered to an ask.
#[derive(Drop)]
pub struct Answer {
    /// What became of it.
    pub outcome: Outcome,
    /// The octets of the reply to its request; none where there is no reply.
    pub reply: Octets,
}

/// A server to which asks are put.
pub trait Asked {
    /// Puts asks to the server, of which it takes at most 64, and gives an answer to each, in their order.
    /// Those at the end have none where memory is refused. `None` where the server can answer no more.
    fn ask(&mut self, asks: &[AskForm]) -> Option<Vec<Answer>>;

    /// Notes that these requests of this peer were refused, which are no asks.
    fn note(&mut self, peer: SocketAddr, refused: Refused);

    /// Whether the server shall end.
    fn is_over(&self) -> bool;
}
