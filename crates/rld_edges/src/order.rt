use circular_buffer::HeapCircularBuffer;
use rld_control::NamedSession;
use rsl_accounts::Config;
use std::alloc::{AllocError, Global};
use std::os::unix::net::UnixStream;
use std::sync::atomic::{AtomicU64, Ordering};
use std::sync::{Arc, Mutex, Wait};

/// How many orders may be open at once.
pub const MOST_ORDERS: usize = 16;

/// The same, as they are counted.
const MOST_OPEN: u64 = 16;

const _: () = prove!(MOST_ORDERS as u64 == MOST_OPEN);

/// A session that is to be disconnected (RFC 5176), and the operator who waits for the outcome.
#[derive(Drop)]
pub struct Order {
    /// The session.
    pub named: NamedSession,
    /// The accounts with the client of its access server.
    pub config: Arc<Config>,
    /// The UDP port at which the client takes Disconnect-Requests.
    pub port: u16,
    /// The operator.
    pub stream: UnixStream,
}

/// The orders for one worker. Each is open until its operator has the outcome.
#[derive(Drop)]
pub struct Orders {
    waiting: Mutex<HeapCircularBuffer<Order>>,
    open: AtomicU64,
}

impl Orders {
    /// No orders. It fails only if memory is refused.
    pub fn new(alloc: Global) -> Result<Orders, AllocError> {
        Ok(Orders {
            waiting: Mutex::new(HeapCircularBuffer::with_capacity(alloc, MOST_ORDERS)?),
            open: AtomicU64::new(0),
        })
    }

    /// Queues an order for the worker. It comes back if sixteen are open.
    pub fn push<W: Wait>(&self, rt: &W, order: Order) -> Result<(), Order> {
        if self.open.load(Ordering::SeqCst) >= MOST_OPEN {
            return Err(order);
        }
        self.open.fetch_add(1, Ordering::SeqCst);
        let pushed = self.waiting.lock(rt).try_push_back(order);
        if pushed.is_err() {
            self.close_one();
        }
        pushed
    }

    /// The next order for the worker.
    pub fn next<W: Wait>(&self, rt: &W) -> Option<Order> {
        self.waiting.lock(rt).pop_front()
    }

    /// Notes that the operator of an order has its outcome.
    pub fn close_one(&self) {
        self.open.fetch_sub(1, Ordering::SeqCst);
    }

    /// Whether no order is open.
    pub fn is_empty(&self) -> bool {
        self.open.load(Ordering::SeqCst) == 0
    }
}
