ghost use Rattle.std.specs.Prelude.{◌≡◌, ◌≤◌, ◌++◌, ◌∷◌, ◌<◌, [], length, map, slice_get, take, true, IfOk, IfSome, OnOk};
ghost use Rattle.rsl_port.specs.Told.{datagram_of};
ghost use Rattle.rld_current.specs.Requests.{AreFirst, AreRequests, IsPeerOf, datagrams_of};

use rld_ask::AskForm;
use rld_turn::PeerDatagram;
use rsl_accounts::Config;
use rsl_port::{DatagramPort, PortFault};
use rsl_wire::Octets;
use std::alloc::{AllocError, Global};
use std::collections::VecDeque;
use std::net::{Ipv4Addr, SocketAddr, SocketAddrV4};

/// The UDP port that the request of each ask comes from, which no datagram of a network has.
const SOURCE_PORT: u16 = 0;

const _: () = prove!(SOURCE_PORT == 0);

/// The requests of some asks, as a port of datagrams: it gives each once, and keeps what is answered. No call
/// waits.
///
/// It reports its datagrams to contracts, unless the memory for a reply was refused.
#[derive(Drop)]
pub(crate) struct AskPort {
    alloc: Global,
    requests: Vec<Vec<u8>>,
    next: usize,
    peer: SocketAddr,
    replies: VecDeque<PeerDatagram>,
    is_whole: bool,
}

impl AskPort {
    /// The requests of these asks, as the client with this address would have sent them. Where the
    /// configuration has no such client there are none, and of those at the end there are none where memory is
    /// refused. It fails only where memory is refused for all.
    pub(crate) fn new(
        alloc: Global,
        config: &Config,
        client: [u8; 4],
        asks: &[AskForm],
    ) -> Result<AskPort, AllocError>
        ensures requests { IfOk result (λ port. AreRequests config.now client asks.now
            (map (λ request. request.items) port.requests.items)) }
        ensures peer { IfOk result (λ port. IsPeerOf client port.peer) }
        ensures next { IfOk result (λ port. port.next ≡ 0) }
        ensures none { IfOk result (λ port. port.replies.items ≡ []) }
    {
        let requests = match config.client(client) {
            Some(number) => requests_of(alloc, config, number, asks)?,
            None => Vec::new(alloc),
        };
        Ok(AskPort {
            alloc,
            requests,
            next: 0,
            peer: SocketAddr::V4(SocketAddrV4::new(Ipv4Addr::from(client), SOURCE_PORT)),
            replies: VecDeque::with_capacity(alloc, asks.len())?,
            is_whole: true,
        })
    }

    /// The replies, in the order in which they were sent; `None` where one of them was lost.
    pub(crate) fn into_replies(self) -> Option<VecDeque<PeerDatagram>>
        ensures { IfSome result (λ replies. (replies ≡ self.replies) × (self.is_whole ≡ true)) }
    {
        if self.is_whole {
            Some(self.replies)
        } else {
            None
        }
    }

    /// Keeps a reply for this peer, unless memory is refused.
    fn keep(&mut self, octets: &[u8], peer: SocketAddr) -> Result<(), PortFault>
        ensures same { (self.new.requests ≡ self.old.requests) × (self.new.next ≡ self.old.next)
            × (self.new.peer ≡ self.old.peer) × (self.new.is_whole ≡ self.old.is_whole) }
        ensures kept { OnOk result (self.new.replies.items
            ≡ self.old.replies.items ++ datagram_of peer octets.now ∷ []) }
    {
        let Ok(octets) = Octets::from_slice(self.alloc, octets) else {
            return Err(PortFault);
        };
        match self.replies.push_back(PeerDatagram { peer, octets }) {
            Ok(()) => Ok(()),
            Err(_) => Err(PortFault),
        }
    }
}

/// The requests of these asks, as the client with this number would have sent them. Of those at the end there are
/// none where memory is refused.
fn requests_of(
    alloc: Global,
    config: &Config,
    number: u32,
    asks: &[AskForm],
) -> Result<Vec<Vec<u8>>, AllocError>
    requires { number < length config.now.clients }
    ensures { IfOk result (λ requests. IfSome (slice_get config.now.clients number) (λ one.
        AreFirst one.secret asks.now (map (λ request. request.items) requests.items))) }
{
    let key = config.hmac_key(number);
    let mut requests = Vec::with_capacity(alloc, asks.len())?;
    for ask in asks {
        let Ok(request) = ask.request(alloc, key) else {
            return Ok(requests);
        };
        requests.push(request)?;
    }
    Ok(requests)
}

/// Puts a request at the start of a buffer, which has room for it.
fn put(request: &[u8], buffer: &mut [u8])
    requires { length request.now ≤ length buffer.old }
    ensures len { length buffer.new ≡ length buffer.old }
    ensures octets { take (length request.now) buffer.new ≡ request.now }
{
    buffer[..request.len()].copy_from_slice(request);
}

impl DatagramPort<SocketAddr> for AskPort {
    ghost tells = { λ port. port.is_whole };

    ghost contents = { λ port. datagrams_of port.peer (map (λ request. request.items) port.requests.items) };

    ghost taken = { λ port. take port.next
        (datagrams_of port.peer (map (λ request. request.items) port.requests.items)) };

    ghost sent = { λ port. port.replies.items };

    /// Gives the next request, if there is one and the buffer has room for it, as that of a turn has.
    fn receive(&mut self, buffer: &mut [u8]) -> Result<Option<(usize, SocketAddr)>, PortFault> {
        let Some(request) = self.requests.get(self.next) else {
            return Ok(None);
        };
        let len = request.len();
        if len > buffer.len() {
            return Ok(None);
        }
        put(request.as_slice(), buffer);
        self.next += 1;
        Ok(Some((len, self.peer)))
    }

    fn send(&mut self, octets: &[u8], to: SocketAddr) -> Result<(), PortFault> {
        let kept = self.keep(octets, to);
        self.is_whole = self.is_whole && kept.is_ok();
        kept
    }
}
