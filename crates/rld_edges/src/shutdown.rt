use std::sync::atomic::{AtomicBool, AtomicU64, Ordering};
use std::thread;
use std::time::{self, Duration};

/// How many times a worker checks whether all workers have started.
const START_LOOKS: u64 = 5_000;

/// How long it sleeps between two checks, in milliseconds.
const START_SLEEP_MILLIS: u64 = 1;

/// The result of a worker's wait for the others.
#[derive(Clone, Copy)]
pub enum Start {
    /// All have started.
    All,
    /// One has ended already.
    Over,
    /// One has not started.
    Missing,
}

/// The state that the workers of a server share: how many have started, and that all are to end.
#[derive(Drop)]
pub struct Shutdown {
    workers: u64,
    started: AtomicU64,
    is_over: AtomicBool,
}

impl Shutdown {
    /// The shutdown of a server with this number of workers, none of which has started.
    pub fn new(workers: usize) -> Shutdown {
        Shutdown {
            workers: workers as u64,
            started: AtomicU64::new(0),
            is_over: AtomicBool::new(false),
        }
    }

    /// Notes that a worker has started, and waits until all have, for about five seconds at most.
    /// Gives `Over` as soon as one has ended, and `Missing` if one has not started by then. A
    /// worker without a thread of its own starts only once another has ended.
    pub fn await_start<C: time::Clock>(&self, clock: &C) -> Start {
        self.started.fetch_add(1, Ordering::SeqCst);
        for _ in 0..START_LOOKS {
            if self.is_over() {
                return Start::Over;
            }
            if self.started.load(Ordering::SeqCst) >= self.workers {
                return Start::All;
            }
            thread::sleep(clock, Duration::from_millis(START_SLEEP_MILLIS));
        }
        Start::Missing
    }

    /// Notes that all workers are to end.
    pub fn end(&self) {
        self.is_over.store(true, Ordering::SeqCst);
    }

    /// Whether all workers are to end.
    pub fn is_over(&self) -> bool {
        self.is_over.load(Ordering::SeqCst)
    }
}
