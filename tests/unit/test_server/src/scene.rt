//! What the threads of a test share: the moment, and whether the client has ended.

use rsl_service::{Clock, Pause};
use std::sync::atomic::{AtomicBool, AtomicU64, Ordering};
use std::thread;
use std::time::{self, Duration};

/// How long a pause is, in milliseconds.
const PAUSE_MILLIS: u64 = 20;

/// What the client tells the other threads.
#[derive(Drop)]
pub(crate) struct Scene {
    moment: AtomicU64,
    is_over: AtomicBool,
}

impl Scene {
    /// Moment 0, and the client has not ended.
    pub(crate) fn new() -> Scene {
        Scene {
            moment: AtomicU64::new(0),
            is_over: AtomicBool::new(false),
        }
    }

    /// Has every clock show this moment.
    pub(crate) fn set_moment(&self, moment: u64) {
        self.moment.store(moment, Ordering::SeqCst);
    }

    /// The client has ended.
    pub(crate) fn end(&self) {
        self.is_over.store(true, Ordering::SeqCst);
    }

    /// Whether the client has ended.
    pub(crate) fn is_over(&self) -> bool {
        self.is_over.load(Ordering::SeqCst)
    }
}

/// A clock that shows the scene's moment.
#[derive(Drop)]
pub(crate) struct Shown<'a> {
    pub(crate) scene: &'a Scene,
}

impl Clock for Shown<'_> {
    fn now(&mut self) -> u64 {
        self.scene.moment.load(Ordering::SeqCst)
    }
}

/// Short pauses, until the client has ended.
#[derive(Drop)]
pub(crate) struct Rests<'a, C: time::Clock> {
    pub(crate) clock: &'a C,
    pub(crate) scene: &'a Scene,
}

impl<C: time::Clock> Pause for Rests<'_, C> {
    fn pause(&mut self) -> bool {
        thread::sleep(self.clock, Duration::from_millis(PAUSE_MILLIS));
        !self.scene.is_over()
    }
}
